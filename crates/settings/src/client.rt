//! The settings of a client of a cluster.

ghost use Rattle.std.specs.Prelude.{◌≡◌, ◌⊎◌, ◌↔◌, IfOk, IfErr, IsTrue, None, string_bytes};
ghost use Rattle.toml.specs.Parse.{parse_document};
ghost use Rattle.settings.specs.Clients.{IsLikeClient, IsUnwrittenClient, chain_line, client_text};

use crate::address::Address;
use crate::client_entries::{ClientEntries, none_twice, twice_in};
use crate::document::table;
use crate::fault::SettingsFault;
use crate::keys::Key;
use crate::text::{peer_entries, sized_text};
use std::alloc::{AllocError, Global};
use terms::{Memory, Size};

/// The settings of a client that speaks to all members of a cluster. There is no secret in them.
#[derive(Debug, Drop)]
pub struct ClientSettings {
    /// The cluster's number.
    pub cluster: u64,
    /// The cluster's size.
    pub size: Size,
    /// The addresses at which the members listen to their clients, n in the order of the members.
    pub desks: Vec<Address>,
    /// Set if the members run a chain of epochs.
    pub chain: bool,
}

impl ClientSettings {
    ghost use Rattle.std.specs.Prelude.{List};
    ghost use Rattle.settings.specs.Clients.{IsClientFault, IsClientSettings, ListsDesks, first_twice};
    ghost use Rattle.settings.specs.declared.address.Address.{Address};
    ghost use Rattle.settings.specs.declared.fault.SettingsFault.{SettingsFault};

    /// The settings that the TOML text gives, or the first thing that is wrong with it. Keys of
    /// other names are left alone.
    ///
    /// # Errors
    ///
    /// The first that applies:
    ///
    /// - [`SettingsFault::Text`] if the text isn't TOML;
    /// - [`SettingsFault::Key`] with the first key of `cluster`, `n`, `t`, `questions`, `desks` and
    ///   `chain` that has no value of its own type and range;
    /// - [`SettingsFault::Size`] if the numbers make no size;
    /// - [`SettingsFault::Key`] with `desks` if there aren't as many desks as members, or one
    ///   stands twice: a member that is counted as two would be believed where t + 1 have to agree;
    /// - [`SettingsFault::Memory`], at any time, if an allocation failed.
    pub fn parse(alloc: Global, text: &str) -> Result<ClientSettings, SettingsFault>
        ensures ok { IfOk result (IsClientSettings (parse_document text.now)) }
        ensures fault { IfErr result
            (λ ends. IsClientFault (parse_document text.now) ends ⊎ (ends ≡ SettingsFault.Memory)) }
        ensures exact { (ends : SettingsFault) → IsClientFault (parse_document text.now) ends →
            (result ≡ Err ends) ⊎ (result ≡ Err SettingsFault.Memory) }
    {
        let table = table(alloc, text)?;
        ClientEntries::read(alloc, &table)?.fit()
    }

    /// Returns the first desk that stands at two places of the TOML text's list, or more: then
    /// [`ClientSettings::parse`] refuses the text. `None` if each stands once, or the text lists
    /// none.
    ///
    /// # Errors
    ///
    /// [`Memory`] if an allocation failed.
    pub fn desk_twice(alloc: Global, text: &str) -> Result<Option<Address>, Memory>
        ensures first { (desks : List Address) → ListsDesks (parse_document text.now) desks →
            IfOk result (λ found. found ≡ first_twice desks) }
        ensures unlisted { ((desks : List Address) → ListsDesks (parse_document text.now) desks → ⊥)
            → IfOk result (λ found. found ≡ None) }
    {
        match table(alloc, text) {
            Ok(table) => twice_in(alloc, &table),
            Err(fault) => none_twice(fault),
        }
    }

    /// Returns the settings as a text of TOML, a line for each key, which [`ClientSettings::parse`]
    /// reads as these settings.
    ///
    /// # Errors
    ///
    /// - [`SettingsFault::Text`] if the text would be read as other settings;
    /// - the fault of reading the text, as [`SettingsFault::Key`] with `desks` if there aren't n
    ///   desks;
    /// - [`SettingsFault::Memory`] if an allocation failed.
    pub fn to_text(&self, alloc: Global) -> Result<String, SettingsFault>
        ensures text { IfOk result (λ text. string_bytes text ≡ client_text self.now) }
        ensures read { IfOk result
            (λ text. IsClientSettings (parse_document (string_bytes text)) self.now) }
        ensures fault { IfErr result
            (IsUnwrittenClient (parse_document (client_text self.now)) self.now) }
    {
        let text = client_text(alloc, self)?;
        let read = ClientSettings::parse(alloc, text.as_str())?;
        if is_like_client(&read, self) {
            Ok(text)
        } else {
            Err(SettingsFault::Text)
        }
    }
}

/// The text of the settings, of which nothing is known to be read as it stands.
fn client_text(alloc: Global, settings: &ClientSettings) -> Result<String, AllocError>
    ensures { IfOk result (λ text. string_bytes text ≡ client_text settings.now) }
{
    let sized = sized_text(alloc, settings.cluster, settings.size)?;
    let desks = peer_entries(alloc, &settings.desks)?;
    let chain = chain_line(alloc, settings.chain)?;
    format!(in alloc; "{sized}desks = [\n{desks}]\n{chain}")
}

/// The line of a chain's clients.
fn chain_line(alloc: Global, chain: bool) -> Result<String, AllocError>
    ensures { IfOk result (λ text. string_bytes text ≡ chain_line chain) }
{
    if chain {
        format!(in alloc; "{} = true\n", Key::Chain.text())
    } else {
        Ok(String::new(alloc))
    }
}

/// Returns `true` if what was read is what was to be written.
fn is_like_client(read: &ClientSettings, settings: &ClientSettings) -> bool
    ensures yes { IsTrue result → IsLikeClient read.now settings.now }
    ensures no { IsLikeClient read.now settings.now → IsTrue result }
{
    read.cluster == settings.cluster
        && read.size == settings.size
        && read.chain == settings.chain
        && has_same_desks(read, settings)
}

/// Returns `true` if the two have the same desks.
fn has_same_desks(read: &ClientSettings, settings: &ClientSettings) -> bool
    ensures { IsTrue result ↔ (read.now.desks.items ≡ settings.now.desks.items) }
{
    read.desks.as_slice() == settings.desks.as_slice()
}
