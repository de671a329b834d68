//! The hosts that may speak for members.
ghost use Rattle.std.specs.Prelude.{◌≡◌, ◌↔◌, IsTrue, IfSome, IfNone, slice_get, option_map};
ghost use Rattle.std.specs.Net.Socket.{socket_ip};
ghost use Rattle.running.specs.Hosts.{MaySpeak};

use crate::life::Life;
use std::marker::PhantomData;
use std::net::{IpAddr, SocketAddr};

/// The hosts from which links are taken. A link's sender is the member that its Hello names; who
/// may say so is all that ties the name to somebody.
#[derive(Clone, Copy, Debug, PartialEq, Eq)]
pub enum Hosts {
    /// A member's links are taken from the host of its address alone.
    OfMembers,
    /// They are taken from any host: whoever reaches the port may speak for any member, and one
    /// that does breaks agreement.
    Any,
}

/// The members' addresses, by their numbers, and from where their links are taken: those that the
/// run was given, and no others.
#[derive(Drop)]
pub(crate) struct Peers<J: Life> {
    addresses: Vec<SocketAddr>,
    hosts: Hosts,
    of: PhantomData<J>,
    ghost addresses_given: { addresses.items ≡ J.addresses },
    ghost hosts_given: { hosts ≡ J.hosts },
}

impl<J: Life> Peers<J> {
    /// The peers that the run was given.
    pub(crate) fn new(addresses: Vec<SocketAddr>, hosts: Hosts) -> Peers<J>
        requires addresses { addresses.items ≡ J.addresses }
        requires hosts { hosts ≡ J.hosts }
    {
        Peers {
            addresses,
            hosts,
            of: PhantomData,
        }
    }

    /// Returns the address at which the member of that number listens, or `None` for a number past
    /// the last.
    pub(crate) fn address_of(&self, peer: u8) -> Option<SocketAddr>
        ensures { result ≡ slice_get J.addresses peer }
    {
        self.addresses.get(usize::from(peer)).copied()
    }

    /// Returns how many of so many places a host may take: an equal share for each host of the
    /// members, so that what one does never takes another's. From any host there is one share for
    /// all.
    pub(crate) fn share_of(&self, places: usize) -> usize {
        let mut hosts = 0usize;
        for (member, address) in self.addresses.iter().enumerate() {
            if self.first_of(address.ip()) == u8::try_from(member).ok() {
                hosts = hosts.saturating_add(1);
            }
        }
        places / hosts.max(1)
    }

    /// The first member of the host, which stands for all that comes from there; none where no
    /// member is of it. From any host it is member 0.
    pub(crate) fn first_of(&self, host: IpAddr) -> Option<u8> {
        if self.hosts == Hosts::Any {
            return Some(0);
        }
        let first = self
            .addresses
            .iter()
            .position(|address| address.ip() == host);
        match first {
            Some(member) => u8::try_from(member).ok(),
            None => None,
        }
    }
}

/// A member whose link comes from a host that may speak for it, by the peers that the run was
/// given.
#[derive(Drop)]
pub(crate) struct Sender<J: Life> {
    peer: u8,
    host: IpAddr,
    of: PhantomData<J>,
    ghost may_speak: { MaySpeak J.addresses J.hosts peer host },
}

impl<J: Life> Sender<J> {
    /// The member that greeted from the host, if that may speak for it.
    pub(crate) fn of(peers: &Peers<J>, peer: u8, host: IpAddr) -> Option<Sender<J>>
        ensures some { IfSome result (λ sender. MaySpeak J.addresses J.hosts peer host) }
        ensures peer { IfSome result (λ sender. sender.peer ≡ peer) }
        ensures host { IfSome result (λ sender. sender.host ≡ host) }
        ensures none { IfNone result (MaySpeak J.addresses J.hosts peer host → ⊥) }
    {
        if may_speak(peers, peer, host) {
            Some(Sender {
                peer,
                host,
                of: PhantomData,
            })
        } else {
            None
        }
    }

    /// Returns its number.
    pub(crate) fn peer(&self) -> u8
        ensures number { result ≡ self.now.peer }
        ensures may_speak { MaySpeak J.addresses J.hosts result self.now.host }
    {
        self.peer
    }

    /// Returns the host from which its link comes.
    pub(crate) fn host(&self) -> IpAddr
        ensures { result ≡ self.now.host }
    {
        self.host
    }
}

/// Returns `true` if a link that names this member in its Hello may come from the host.
pub(crate) fn may_speak<J: Life>(peers: &Peers<J>, peer: u8, host: IpAddr) -> bool
    ensures { IsTrue result ↔ MaySpeak J.addresses J.hosts peer host }
{
    match peers.hosts {
        Hosts::OfMembers => host_of(&peers.addresses, peer) == Some(host),
        Hosts::Any => true,
    }
}

/// The host of a member's address, if it has one.
fn host_of(addresses: &[SocketAddr], peer: u8) -> Option<IpAddr>
    ensures { result ≡ option_map socket_ip (slice_get addresses.now peer) }
{
    match addresses.get(usize::from(peer)) {
        Some(address) => Some(address.ip()),
        None => None,
    }
}
