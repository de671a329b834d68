//! The board at which the threads of a command leave their members' replies.

use std::alloc::Global;
use std::mem;
use std::sync::{Condvar, Mutex, Wait};
use std::time::{Clock, Duration};

/// A member's reply, or that none came.
#[derive(Debug, Drop)]
pub struct News {
    pub member: u8,
    pub reply: Option<Vec<u8>>,
}

/// Replies that nobody took yet, in the order in which they came.
#[derive(Drop)]
pub struct Board {
    alloc: Global,
    news: Mutex<Vec<News>>,
    changed: Condvar,
}

impl Board {
    /// A board with nothing on it.
    pub fn new(alloc: Global) -> Board {
        Board {
            alloc,
            news: Mutex::new(Vec::new(alloc)),
            changed: Condvar::new(),
        }
    }

    /// Leaves a reply. Where memory for it is refused it is lost, as if the member hadn't answered.
    pub fn leave<R: Wait>(&self, rt: &R, member: u8, reply: Option<Vec<u8>>) {
        let mut news = self.news.lock(rt);
        let _lost = news.push(News { member, reply }).is_err();
        self.changed.notify_one();
    }

    /// Takes what was left, once there is something or this time has passed.
    pub fn take<R: Wait + Clock>(&self, rt: &R, limit: Duration) -> Vec<News> {
        let news = self.news.lock(rt);
        let (mut news, _timed_out) = self
            .changed
            .wait_timeout_while(rt, news, limit, |news| { news.is_empty() });
        mem::replace(&mut *news, Vec::new(self.alloc))
    }
}
