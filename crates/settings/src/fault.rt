//! The faults of a text of settings.

ghost use Rattle.std.specs.Prelude.{◌≡◌};
ghost use Rattle.settings.specs.declared.fault.SettingsFault.TheVariants as fault;

use crate::keys::Key;
use std::alloc::{AllocError, AllocFailed};
use terms::{Memory, SizeFault};
use thiserror::Error;

/// Why a text gives no settings. Of several faults the first is answered: the text's, the first
/// key's that has no value of its own type and range, the size's, that of `me`, and that of the
/// number of peers.
#[derive(Clone, Copy, Debug, PartialEq, Eq, Error)]
pub enum SettingsFault {
    /// The text isn't TOML.
    #[error("settings text")]
    Text,
    /// The key is missing, or its value is of another type or out of its range.
    #[error("settings {0}")]
    Key(Key),
    /// The numbers make no size.
    #[error("size {0}")]
    Size(SizeFault),
    /// Memory was refused, which says nothing of the text.
    #[error("memory")]
    Memory,
}

impl From<SizeFault> for SettingsFault {
    ghost from_gives = { λ size ends. ends ≡ fault.Size size };

    fn from(fault: SizeFault) -> SettingsFault {
        SettingsFault::Size(fault)
    }
}

impl From<Memory> for SettingsFault {
    ghost from_gives = { λ _ ends. ends ≡ fault.Memory };

    fn from(_refused: Memory) -> SettingsFault {
        SettingsFault::Memory
    }
}

impl From<AllocError> for SettingsFault {
    ghost from_gives = { λ _ ends. ends ≡ fault.Memory };

    fn from(_refused: AllocError) -> SettingsFault {
        SettingsFault::Memory
    }
}

impl<T: Drop> From<AllocFailed<T>> for SettingsFault {
    ghost from_gives = { λ _ ends. ends ≡ fault.Memory };

    fn from(_refused: AllocFailed<T>) -> SettingsFault {
        SettingsFault::Memory
    }
}
