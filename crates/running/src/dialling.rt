//! Why a member can't be reached.

ghost use Rattle.std.specs.Prelude.{◌≡◌};
ghost use Rattle.running.specs.Dialling.{dial_fault_text};
ghost use Rattle.std.specs.declared.io.ErrorKind.TheVariants as kinds;

use std::io::ErrorKind;

/// Why no connection to a member could be made.
#[derive(Clone, Copy, Debug, PartialEq, Eq)]
pub enum DialFault {
    /// Nobody listens at its address.
    Refused,
    /// Nothing came back within a second.
    NoAnswer,
    /// The system knows no way to its host.
    NoRoute,
    /// Anything else: no local address or descriptor is left, say.
    Failed,
}

impl DialFault {
    /// Returns what an error of that kind means.
    pub(crate) fn of(kind: ErrorKind) -> DialFault
        ensures refused { kind ≡ kinds.ConnectionRefused → result ≡ DialFault.Refused }
        ensures no_answer { kind ≡ kinds.TimedOut → result ≡ DialFault.NoAnswer }
        ensures no_host { kind ≡ kinds.HostUnreachable → result ≡ DialFault.NoRoute }
        ensures no_network { kind ≡ kinds.NetworkUnreachable → result ≡ DialFault.NoRoute }
    {
        match kind {
            ErrorKind::ConnectionRefused => DialFault::Refused,
            ErrorKind::TimedOut => DialFault::NoAnswer,
            ErrorKind::HostUnreachable | ErrorKind::NetworkUnreachable => DialFault::NoRoute,
            _ => DialFault::Failed,
        }
    }
}

/// The words for it in a log.
pub(crate) fn dial_fault_text(fault: DialFault) -> &'static str
    ensures { result.now ≡ dial_fault_text fault }
{
    match fault {
        DialFault::Refused => "refused",
        DialFault::NoAnswer => "no answer",
        DialFault::NoRoute => "no route",
        DialFault::Failed => "failed",
    }
}
