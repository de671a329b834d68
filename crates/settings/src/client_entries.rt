//! The values of the keys of a client's settings, each by itself.

ghost use Rattle.std.specs.Prelude.{◌≡◌, ◌≢◌, List, None, Some, IfOk, IfErr, IsErr, IsOk};
ghost use Rattle.toml.specs.View.{table_view};
ghost use Rattle.settings.specs.Clients.{are_desks_of, count_of, first_twice, is_same, stands_twice};
ghost use Rattle.settings.specs.Settings.{HasAddresses};
ghost use Rattle.settings.specs.declared.keys.Key.TheVariants.{Desks};

use crate::address::Address;
use crate::client::ClientSettings;
use crate::entries::{addresses, flag, number, small};
use crate::fault::SettingsFault;
use crate::keys::Key;
use numerals::size_from;
use std::alloc::Global;
use terms::Memory;
use toml::Table;

/// The settings' entries, each in its own range.
#[derive(Drop)]
pub struct ClientEntries {
    cluster: u64,
    n: u16,
    t: u16,
    questions: u16,
    desks: Vec<Address>,
    chain: bool,
}

impl ClientEntries {
    ghost use Rattle.settings.specs.Clients.{FitsClientEntries, SaysClientEntries, client_keys, unfit_client};
    ghost use Rattle.settings.specs.Entries.{IsOfFirst};

    /// Returns what the keys say, or the first of a client's keys that has no value of its own type
    /// and range.
    pub fn read(alloc: Global, table: &Table) -> Result<ClientEntries, SettingsFault>
        ensures ok { IfOk result (SaysClientEntries (table_view table.now)) }
        ensures fault { IfErr result (IsOfFirst client_keys (table_view table.now)) }
    {
        Ok(ClientEntries {
            cluster: number(table, Key::Cluster)?,
            n: small(table, Key::N)?,
            t: small(table, Key::T)?,
            questions: small(table, Key::Questions)?,
            desks: addresses(alloc, table, Key::Desks)?,
            chain: flag(table, Key::Chain)?,
        })
    }

    /// The settings of the entries, or the first thing in which they don't fit one another.
    pub fn fit(self) -> Result<ClientSettings, SettingsFault>
        ensures ok { IfOk result
            (λ settings. FitsClientEntries self settings × (unfit_client self ≡ None)) }
        ensures fault { IfErr result (λ fault. unfit_client self ≡ Some fault) }
    {
        let size = size_from(self.n, self.t, self.questions)?;
        if !are_desks_of(size.n(), &self.desks) {
            return Err(SettingsFault::Key(Key::Desks));
        }
        Ok(ClientSettings {
            cluster: self.cluster,
            size,
            desks: self.desks,
            chain: self.chain,
        })
    }
}

/// Returns the first desk of the table's list that stands at two places of it, or more; none too if
/// the table lists no desks.
pub(crate) fn twice_in(alloc: Global, table: &Table) -> Result<Option<Address>, Memory>
    ensures first { (desks : List Address) → HasAddresses (table_view table.now) Desks desks →
        IfOk result (λ found. found ≡ first_twice desks) }
    ensures unlisted { ((desks : List Address) → HasAddresses (table_view table.now) Desks desks →
        ⊥) → IfOk result (λ found. found ≡ None) }
{
    match addresses(alloc, table, Key::Desks) {
        Ok(desks) => Ok(first_twice(&desks)),
        Err(fault) => none_twice(fault),
    }
}

/// Returns that no desk stands twice in what has this fault, unless the fault is want of memory.
pub(crate) fn none_twice(fault: SettingsFault) -> Result<Option<Address>, Memory>
    ensures none { IfOk result (λ found. found ≡ None) }
    ensures memory { fault ≡ SettingsFault.Memory → IsErr result }
    ensures others { fault ≢ SettingsFault.Memory → IsOk result }
{
    match fault {
        SettingsFault::Text => Ok(None),
        SettingsFault::Key(_) => Ok(None),
        SettingsFault::Size(_) => Ok(None),
        SettingsFault::Memory => Err(Memory),
    }
}

/// Returns the first desk that stands at two places of the list, or more.
fn first_twice(desks: &[Address]) -> Option<Address>
    ensures { result ≡ first_twice desks.now }
{
    for desk in desks {
        if count_of(desks, desk) > 1 {
            return Some(*desk);
        }
    }
    None
}

/// Returns `true` if there are n desks, and each is another one.
fn are_desks_of(n: u8, desks: &[Address]) -> bool
    ensures { result ≡ are_desks_of n desks.now }
{
    desks.len() == usize::from(n) && !stands_twice(desks)
}

/// Returns `true` if an address stands at two places of the list, or more.
fn stands_twice(desks: &[Address]) -> bool
    ensures { result ≡ stands_twice desks.now }
{
    desks.iter().any(|desk| count_of(desks, desk) > 1)
}

/// Returns at how many places of the list the address stands.
fn count_of(desks: &[Address], desk: &Address) -> usize
    ensures { result ≡ count_of desks.now desk.now }
{
    desks.iter().filter(|other| is_same(desk, other)).count()
}

/// Returns `true` if the two have one host and one port.
fn is_same(one: &Address, other: &Address) -> bool
    ensures { result ≡ is_same one.now other.now }
{
    one == other
}
