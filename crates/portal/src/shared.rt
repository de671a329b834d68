//! The state that the threads of a gateway share.

use crate::book::Book;
use gateway::{Policy, Proposing, Scope};
use std::alloc::Global;
use std::hash::RandomState;
use std::net::SocketAddr;
use std::sync::atomic::{AtomicBool, AtomicU64, Ordering};
use std::sync::{Condvar, Mutex};
use std::time::{Clock, SystemTime, UNIX_EPOCH};

/// The state that the threads of a gateway share.
#[derive(Drop)]
pub(crate) struct Shared {
    pub(crate) alloc: Global,
    pub(crate) cluster: u64,
    pub(crate) scope: Scope,
    pub(crate) desks: Vec<SocketAddr>,
    /// The port at which it listens.
    pub(crate) port: u16,
    /// Set if it listens at a loopback address.
    pub(crate) local: bool,
    /// The token that a proposal must show; empty if none is needed.
    pub(crate) token: Vec<u8>,
    /// The number that was drawn at the start.
    pub(crate) life: u64,
    pub(crate) keys: RandomState,
    pub(crate) book: Mutex<Book>,
    /// Condition: the book changed.
    pub(crate) changed: Condvar,
    pub(crate) over: AtomicBool,
    /// The number of connections.
    pub(crate) clients: AtomicU64,
    /// The number of followers.
    pub(crate) streams: AtomicU64,
    /// The number of transcripts that are being fetched.
    pub(crate) fetches: AtomicU64,
    /// The number of transcripts that were fetched.
    pub(crate) turns: AtomicU64,
}

impl Shared {
    /// Returns the rules for clients.
    pub(crate) fn policy(&self) -> Policy<'_> {
        Policy {
            port: self.port,
            local: self.local,
            token: &self.token,
        }
    }

    /// Returns who may propose.
    pub(crate) fn proposing(&self) -> Proposing {
        if !self.token.is_empty() {
            Proposing::Token
        } else if self.local {
            Proposing::Open
        } else {
            Proposing::Never
        }
    }

    /// Returns `true` once the gateway ends.
    pub(crate) fn is_over(&self) -> bool {
        self.over.load(Ordering::SeqCst)
    }
}

/// Returns the milliseconds since 1970; 0 if the clock doesn't tell.
pub(crate) fn time_now<R: Clock>(rt: &R) -> u64 {
    let Ok(now) = SystemTime::now(rt) else {
        return 0;
    };
    match now.duration_since(UNIX_EPOCH) {
        Ok(since) => u64::try_from(since.as_millis()).unwrap_or(u64::MAX),
        Err(_) => 0,
    }
}
