//! Addresses of the settings as sockets have them.

ghost use Rattle.asking.specs.Sockets.{AreSocketsOf, IsSocketOf};
ghost use Rattle.std.specs.Prelude.{IfOk};

use settings::Address;
use std::alloc::Global;
use std::net::{IpAddr, SocketAddr};
use terms::Memory;

/// The address as sockets have it.
pub fn socket_address(address: &Address) -> SocketAddr
    ensures { IsSocketOf address.now result }
{
    SocketAddr::new(IpAddr::from(address.octets), address.port)
}

/// These addresses as sockets have them.
pub fn socket_addresses(alloc: Global, addresses: &[Address]) -> Result<Vec<SocketAddr>, Memory>
    ensures { IfOk result (λ sockets. AreSocketsOf addresses.now sockets.items) }
{
    let mut sockets = Vec::new(alloc);
    for address in addresses {
        sockets.push(socket_address(address))?;
    }
    Ok(sockets)
}
