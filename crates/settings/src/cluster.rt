//! The settings of the members of a new cluster.

ghost use Rattle.std.specs.Prelude.{ℕ, ◌≡◌, ◌≢◌, ◌+◌, ◌<◌, ◌≤◌, ◌⊎◌, List, IfErr, IfOk, IfSome, IsSome, None, Some, length};
ghost use Rattle.settings.specs.Addresses.{IsHost};
ghost use Rattle.settings.specs.Clusters.{AreInRow, IsNewSettings, desk_gap};
ghost use Rattle.numerals.specs.Sentences.{texts};

use crate::address::{Address, octets};
use crate::document::Settings;
use crate::fault::SettingsFault;
use crate::keys::Key;
use std::alloc::{AllocError, Global};
use terms::Header;

/// The number of ports from the first link's to the first desk's, in a cluster of at most so many
/// members.
const GAP: u16 = 10;

/// The same in a greater cluster.
const FAR_GAP: u16 = 100;

/// Returns the addresses at these hosts, in order: the first at the port `first`, and each other at
/// the port after the last one's. `None` if a text is neither `localhost` nor four numbers with
/// points between them, or there are more hosts than ports.
pub fn addresses_from(
    alloc: Global,
    hosts: &[&str],
    first: u16,
) -> Result<Option<Vec<Address>>, AllocError>
    ensures row { IfOk result
        (λ found. IfSome found (λ addresses. AreInRow first (texts hosts.now) addresses.items)) }
    ensures found { first + length hosts.now ≤ 65536 → (addresses : List Address) →
        AreInRow first (texts hosts.now) addresses → IfOk result IsSome }
{
    let mut addresses = Vec::new(alloc);
    for host in hosts {
        match address_at(host, first, addresses.len()) {
            Some(address) => addresses.push(address)?,
            None => return Ok(None),
        }
    }
    Ok(Some(addresses))
}

/// The address of the member of that number, at this host.
fn address_at(host: &str, first: u16, member: usize) -> Option<Address>
    ensures some { IfSome result
        (λ address. IsHost host.now address.octets × (address.port ≡ first + member)) }
    ensures found { first + member < 65536 → (octets : List ℕ) → IsHost host.now octets →
        IsSome result }
{
    match octets(host) {
        Some(octets) => match port_at(first, member) {
            Some(port) => Some(Address { octets, port }),
            None => None,
        },
        None => None,
    }
}

/// The port so many behind the first, if there is one.
fn port_at(first: u16, member: usize) -> Option<u16>
    ensures some { IfSome result (λ port. port ≡ first + member) }
    ensures found { first + member < 65536 → result ≢ None }
{
    let Ok(member) = u16::try_from(member) else {
        return None;
    };
    first.checked_add(member)
}

/// Returns the port of the first member's desk in a new cluster of `n` members whose links are at
/// the ports from `first` on: `first` + 10, or `first` + 100 if `n` is above 10. `None` if `first`
/// is 0 or the last desk's port would be above 65535.
pub fn desk_base(first: u16, n: u8) -> Option<u16>
    ensures some { IfSome result
        (λ port. (port ≡ first + desk_gap n) × (0 < first) × (port + n ≤ 65536)) }
    ensures exact { 0 < first → 0 < n → first + desk_gap n + n ≤ 65536 →
        result ≡ Some (first + desk_gap n) }
{
    let Some(base) = first.checked_add(desk_gap(n)) else {
        return None;
    };
    if first == 0 || u32::from(base) + u32::from(n) > 65536 {
        return None;
    }
    Some(base)
}

/// Returns how many ports lie between the first link's and the first desk's.
fn desk_gap(n: u8) -> u16
    ensures { result ≡ desk_gap n }
{
    if u16::from(n) > GAP { FAR_GAP } else { GAP }
}

/// Returns the settings of the member of this header in a new cluster whose members listen to one
/// another and to their clients there, with this seed. Its journal is `member-M.journal`.
///
/// # Errors
///
/// - [`SettingsFault::Key`] with `me` if there is no such desk;
/// - [`SettingsFault::Memory`] if an allocation failed.
pub fn new_settings(
    alloc: Global,
    header: Header,
    links: &[Address],
    desks: &[Address],
    seed: [u8; 32],
) -> Result<Settings, SettingsFault>
    ensures new { IfOk result (IsNewSettings header links.now desks.now seed) }
    ensures fault { IfErr result
        (λ ends. ((ends ≡ SettingsFault.Key Key.Me) × (length desks.now ≤ header.me))
        ⊎ (ends ≡ SettingsFault.Memory)) }
{
    let Some(desk) = desks.get(usize::from(header.me())) else {
        return Err(SettingsFault::Key(Key::Me));
    };
    let desk = *desk;
    let me = header.me();
    let journal = format!(in alloc; "member-{me}.journal")?;
    let mut peers = Vec::new(alloc);
    peers.extend_from_slice(links)?;
    Ok(Settings {
        header,
        journal,
        peers,
        desk,
        seed,
        listen: None,
        desk_socket: None,
        epochs: None,
    })
}
