//! The addresses of a member's sockets, by its settings.

ghost use Rattle.asking.specs.Sockets.{AreSocketsOf, IsSocketOf};
ghost use Rattle.system.specs.Dialled.{dialled, everywhere, own_address, with_known, with_own};
ghost use Rattle.running.specs.declared.hosts.Hosts.TheVariants as hosts;
ghost use Rattle.settings.specs.declared.address.Address.{Address as AddressOf};
ghost use Rattle.std.specs.Prelude.{◌≡◌, true, false, None, Some, IfOk, IfSome, slice_get};

use asking::{socket_address, socket_addresses};
use running::{Addresses, Hosts};
use settings::{Address, Settings};
use std::alloc::Global;
use std::net::{IpAddr, SocketAddr};
use terms::Memory;

/// The most seconds that a member listens before it speaks.
const PATIENCE: u64 = 3;

/// The host of an address that stands for all of a machine's own.
const EVERYWHERE: [u8; 4] = [0, 0, 0, 0];

/// The host by which a machine reaches itself.
const THIS_MACHINE: [u8; 4] = [127, 0, 0, 1];

/// Returns where the members of the settings are dialled and this one listens, how many clients are
/// let in and may follow decisions, and from where links are taken: from the members' own hosts,
/// unless any host may speak for any member. No clients of a Unix socket are let in.
pub(crate) fn addresses_of(
    alloc: Global,
    settings: &Settings,
    any_host: bool,
    clients: u8,
    followers: u16,
) -> Result<Addresses, Memory>
    ensures peers { IfOk result
        (λ it. AreSocketsOf (dialled settings.now.peers.items settings.now.listen
        settings.now.header.me) it.peers.items) }
    ensures own_entry { settings.now.listen ≡ None → IfOk result (λ it. it.listen ≡ None) }
    ensures listen { (one : AddressOf) → settings.now.listen ≡ Some one →
        IfOk result (λ it. IfSome it.listen (λ socket. IsSocketOf one socket)) }
    ensures any { any_host ≡ true → IfOk result (λ it. it.hosts ≡ hosts.Any) }
    ensures own { any_host ≡ false → IfOk result (λ it. it.hosts ≡ hosts.OfMembers) }
    ensures desk { IfOk result (λ it. IsSocketOf settings.now.desk it.desk) }
    ensures clients { IfOk result (λ it. it.clients ≡ clients) }
    ensures followers { IfOk result (λ it. it.followers ≡ followers) }
{
    let addresses = dialled(alloc, settings)?;
    let peers = socket_addresses(alloc, &addresses)?;
    Ok(Addresses {
        peers,
        hosts: if any_host {
            Hosts::Any
        } else {
            Hosts::OfMembers
        },
        listen: maybe_socket(&settings.listen),
        desk: socket_address(&settings.desk),
        local: None,
        clients,
        followers,
        patience: PATIENCE,
        chain: None,
    })
}

/// Returns the addresses at which the members are dialled: their entries of the peers; for the own
/// one the address of `listen`, if that is given, and 127.0.0.1 if it listens at all addresses.
pub(crate) fn dialled(alloc: Global, settings: &Settings) -> Result<Vec<Address>, Memory>
    ensures { IfOk result
        (λ it. it.items ≡ dialled settings.now.peers.items settings.now.listen
        settings.now.header.me) }
{
    let (peers, me) = (settings.peers.as_slice(), settings.header.me());
    match &settings.listen {
        Some(listen) => with_own(alloc, peers, me, listen),
        None => with_entry(alloc, peers, me),
    }
}

/// These addresses, with that at which a member dials itself that listens at its own entry.
fn with_entry(alloc: Global, peers: &[Address], me: u8) -> Result<Vec<Address>, Memory>
    ensures { IfOk result (λ it. it.items ≡ with_known peers.now (slice_get peers.now me) me) }
{
    match peers.get(usize::from(me)) {
        Some(own) => with_own(alloc, peers, me, own),
        None => {
            let mut all = Vec::new(alloc);
            all.extend_from_slice(peers)?;
            Ok(all)
        }
    }
}

/// These addresses, with that at which a member dials itself that listens there at its place.
fn with_own(
    alloc: Global,
    peers: &[Address],
    me: u8,
    listen: &Address,
) -> Result<Vec<Address>, Memory>
    ensures { IfOk result (λ it. it.items ≡ with_own peers.now listen.now me) }
{
    let mut all = Vec::new(alloc);
    all.extend_from_slice(peers)?;
    let me = usize::from(me);
    if me >= all.len() {
        return Ok(all);
    }
    all[me] = own_address(listen);
    Ok(all)
}

/// Returns the address at which a member dials itself that listens there.
fn own_address(listen: &Address) -> Address
    ensures { result ≡ own_address listen.now }
{
    if listen.octets == EVERYWHERE {
        return Address {
            octets: THIS_MACHINE,
            port: listen.port,
        };
    }
    *listen
}

/// The address as sockets have it, if there is one.
fn maybe_socket(address: &Option<Address>) -> Option<SocketAddr>
    ensures none { address.now ≡ None → result ≡ None }
    ensures some { (one : AddressOf) → address.now ≡ Some one →
        IfSome result (λ socket. IsSocketOf one socket) }
{
    match address {
        Some(address) => Some(socket_address(address)),
        None => None,
    }
}
