//! The name of a run, by which types say what it was given.

use node::Naming;
use std::marker::Brand;

/// The name of a run, by what it was given: the addresses at which members listen, the hosts from
/// which their links are taken, and the seed of its tosses, beside what names its hub. A type over
/// it says by it of which run its peers and its tosses are. The program is generic over it, and is
/// called at `Brand`.
pub(crate) trait Life: Naming {
    ghost use Rattle.std.specs.Prelude.{ℕ, List};
    ghost use Rattle.std.specs.declared.net.socket_addr.SocketAddr.{SocketAddr};
    ghost use Rattle.running.specs.declared.hosts.Hosts.{Hosts};

    /// The addresses at which the members listen, by their numbers.
    ghost addresses: { List SocketAddr };

    /// The hosts from which their links are taken.
    ghost hosts: { Hosts };

    /// The seed from which it tosses.
    ghost seed: { List ℕ };
}

impl Life for Brand {
    ghost use Rattle.std.specs.Prelude.{[]};
    ghost use Rattle.running.specs.declared.hosts.Hosts.TheVariants.{OfMembers};

    ghost addresses = { [] };

    ghost hosts = { OfMembers };

    ghost seed = { [] };
}
