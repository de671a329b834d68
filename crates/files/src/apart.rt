//! Addresses of which one host can't listen at both.

ghost use Rattle.std.specs.Prelude.{◌≡◌, IsTrue};

use settings::{Address, Settings};

/// Returns `true` if one host can't listen at both addresses: they are the same, or have one port,
/// and one of them is at 0.0.0.0.
pub fn overlaps(one: &Address, other: &Address) -> bool
    ensures same { one.now ≡ other.now → IsTrue result }
    ensures ports { IsTrue result → one.now.port ≡ other.now.port }
{
    if *one == *other {
        return true;
    }
    one.port == other.port && (is_any(one) || is_any(other))
}

/// Returns `true` if the address is that of every host.
pub(crate) fn is_any(address: &Address) -> bool {
    address.octets == [0, 0, 0, 0]
}

/// The address at which the member of these settings listens to the others, if there is such a
/// member.
pub fn own_links(settings: &Settings) -> Option<Address> {
    match settings.listen {
        Some(address) => Some(address),
        None => settings
            .peers
            .get(usize::from(settings.header.me()))
            .copied(),
    }
}

/// The first member but that of the settings whose address is the desk's.
pub fn member_at_desk(settings: &Settings) -> Option<usize> {
    let me = usize::from(settings.header.me());
    for (member, address) in settings.peers.iter().enumerate() {
        if member != me && *address == settings.desk {
            return Some(member);
        }
    }
    None
}
