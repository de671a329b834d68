//! The settings that a TOML text gives.

ghost use Rattle.std.specs.Prelude.{◌≡◌, ◌⊎◌, IfOk, IfErr, None, Some};
ghost use Rattle.toml.specs.Parse.{parse_document};
ghost use Rattle.toml.specs.View.{table_view};

use crate::address::Address;
use crate::entries::Entries;
use crate::fault::SettingsFault;
use std::alloc::Global;
use terms::Header;
use toml::Table;

/// The settings of a member.
#[derive(Debug, Drop)]
pub struct Settings {
    /// The cluster's number, its size, and the member.
    pub header: Header,
    /// The path of the member's journal, which isn't empty.
    pub journal: String,
    /// The addresses at which the members listen to one another, n in the order of the members.
    pub peers: Vec<Address>,
    /// The address at which the member listens to its clients.
    pub desk: Address,
    /// The secret from which the member tosses its coins.
    pub seed: [u8; 32],
    /// The address at which the member listens to the others, if that isn't its own entry of the
    /// peers.
    pub listen: Option<Address>,
    /// The path of the Unix socket at which the member answers clients too, which isn't empty.
    pub desk_socket: Option<String>,
    /// The folder of the journals of a chain, which isn't empty. If there is none the member is of
    /// one cluster alone.
    pub epochs: Option<String>,
}

impl Settings {
    ghost use Rattle.settings.specs.Settings.{IsSettings, IsFault};
    ghost use Rattle.settings.specs.declared.fault.SettingsFault.{SettingsFault};

    /// The settings that the TOML text gives, or the first thing that is wrong with it. Keys of
    /// other names are left alone: [`strays_of`](crate::strays_of) names them.
    pub fn parse(alloc: Global, text: &str) -> Result<Settings, SettingsFault>
        ensures ok { IfOk result (IsSettings (parse_document text.now)) }
        ensures fault { IfErr result
            (λ ends. IsFault (parse_document text.now) ends ⊎ (ends ≡ SettingsFault.Memory)) }
        ensures exact { (ends : SettingsFault) → IsFault (parse_document text.now) ends →
            (result ≡ Err ends) ⊎ (result ≡ Err SettingsFault.Memory) }
    {
        let table = table(alloc, text)?;
        Entries::read(alloc, &table)?.fit()
    }
}

/// The table that a TOML text is.
pub(crate) fn table(alloc: Global, text: &str) -> Result<Table, SettingsFault>
    ensures ok { IfOk result (λ table. parse_document text.now ≡ Some (table_view table)) }
    ensures fault { IfErr result
        (λ ends. ((ends ≡ SettingsFault.Text) × (parse_document text.now ≡ None))
        ⊎ (ends ≡ SettingsFault.Memory)) }
{
    match toml::table_from_str(alloc, text) {
        Ok(table) => Ok(table),
        Err(error) if error.is_memory() => Err(SettingsFault::Memory),
        Err(_) => Err(SettingsFault::Text),
    }
}
