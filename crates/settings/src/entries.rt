//! The values of the keys of a table, each by itself.

ghost use Rattle.std.specs.Prelude.{List, ◌≡◌, ◌<◌, None, Some, IfOk, IfErr, IfSome, option_map, string_bytes, IsSome, MatchOption, ◌↔◌};
ghost use Rattle.toml.specs.Data.{get_member};
ghost use Rattle.toml.specs.View.{view, table_view, items_view};
ghost use Rattle.settings.specs.Keys.{key_text};
ghost use Rattle.settings.specs.Settings.{HasNumber, HasSmall, HasPath, HasAddress, HasAddresses, IsAddressText, AreAddresses, HasSeed, MayHaveAddress, MayHaveFlag, MayHavePath};
ghost use Rattle.settings.specs.Entries.{IsLack, IsLackOrMemory};
ghost use Rattle.terms_prelude.specs.Terms.{new_header};

use crate::address::Address;
use crate::document::Settings;
use crate::fault::SettingsFault;
use crate::keys::Key;
use hex::FromHex;
use numerals::size_from;
use std::alloc::{AllocError, Global};
use terms::{Header, Size};
use toml::{Table, Value};

/// The integer at a key, which isn't negative.
pub(crate) fn number(table: &Table, key: Key) -> Result<u64, SettingsFault>
    ensures ok { IfOk result (HasNumber (table_view table.now) key) }
    ensures fault { IfErr result (IsLack key (HasNumber (table_view table.now) key)) }
{
    value_at(table, key)
        .and_then(Value::as_integer)
        .and_then(|integer| u64::try_from(integer).ok())
        .ok_or(SettingsFault::Key(key))
}

/// The integer at a key, 0 to 65535.
pub(crate) fn small(table: &Table, key: Key) -> Result<u16, SettingsFault>
    ensures ok { IfOk result (HasSmall (table_view table.now) key) }
    ensures fault { IfErr result (IsLack key (HasSmall (table_view table.now) key)) }
{
    value_at(table, key)
        .and_then(Value::as_integer)
        .and_then(|integer| u16::try_from(integer).ok())
        .ok_or(SettingsFault::Key(key))
}

/// The addresses at a key, or that it has none.
pub(crate) fn addresses(
    alloc: Global,
    table: &Table,
    key: Key,
) -> Result<Vec<Address>, SettingsFault>
    ensures ok { IfOk result
        (λ addresses. HasAddresses (table_view table.now) key addresses.items) }
    ensures fault { IfErr result (IsLackOrMemory key (HasAddresses (table_view table.now) key)) }
{
    let fault = SettingsFault::Key(key);
    let values = value_at(table, key).and_then(Value::as_array).ok_or(fault)?;
    addresses_of(alloc, values)?.ok_or(fault)
}

/// The addresses that the values are the texts of, if each is one.
fn addresses_of(alloc: Global, values: &[Value]) -> Result<Option<Vec<Address>>, AllocError>
    ensures { IfOk result (λ found. MatchOption found
        ((addresses : List Address) → AreAddresses (items_view values.now) addresses → ⊥)
        (λ addresses. AreAddresses (items_view values.now) addresses.items)) }
{
    let mut addresses = Vec::new(alloc);
    for value in values {
        match address_of(value) {
            Some(address) => addresses.push(address)?,
            None => return Ok(None),
        }
    }
    Ok(Some(addresses))
}

/// The address that a value is the text of.
fn address_of(value: &Value) -> Option<Address>
    ensures some { IfSome result (IsAddressText (view value.now)) }
    ensures exact { (address : Address) → IsAddressText (view value.now) address →
        result ≡ Some address }
{
    Address::parse(value.as_str()?)
}

/// The boolean at a key; `false` if the table hasn't the key.
pub(crate) fn flag(table: &Table, key: Key) -> Result<bool, SettingsFault>
    ensures ok { IfOk result (MayHaveFlag (table_view table.now) key) }
    ensures fault { IfErr result (IsLack key (MayHaveFlag (table_view table.now) key)) }
{
    match value_at(table, key) {
        None => Ok(false),
        Some(value) => match value.as_bool() {
            Some(flag) => Ok(flag),
            None => Err(SettingsFault::Key(key)),
        },
    }
}

/// The values of the keys, each in its own range.
#[derive(Drop)]
pub struct Entries {
    cluster: u64,
    n: u16,
    t: u16,
    questions: u16,
    me: u64,
    journal: String,
    peers: Vec<Address>,
    desk: Address,
    seed: [u8; 32],
    listen: Option<Address>,
    desk_socket: Option<String>,
    epochs: Option<String>,
}

impl Entries {
    ghost use Rattle.settings.specs.Entries.{SaysEntries, IsOfFirst, FitsEntries, unfit};
    ghost use Rattle.settings.specs.Settings.{keys};

    /// Returns what the keys say, or the first of them, in the order of [`Key`], that has no value
    /// of its own type and range.
    pub fn read(alloc: Global, table: &Table) -> Result<Entries, SettingsFault>
        ensures ok { IfOk result (SaysEntries (table_view table.now)) }
        ensures fault { IfErr result (IsOfFirst keys (table_view table.now)) }
    {
        Ok(Entries {
            cluster: number(table, Key::Cluster)?,
            n: small(table, Key::N)?,
            t: small(table, Key::T)?,
            questions: small(table, Key::Questions)?,
            me: number(table, Key::Me)?,
            journal: path(alloc, table, Key::Journal)?,
            peers: addresses(alloc, table, Key::Peers)?,
            desk: address(table, Key::Desk)?,
            seed: seed(table, Key::Seed)?,
            listen: optional_address(table, Key::Listen)?,
            desk_socket: optional_path(alloc, table, Key::DeskSocket)?,
            epochs: optional_path(alloc, table, Key::Epochs)?,
        })
    }

    /// The settings of the entries, or the first thing in which they don't fit one another.
    pub fn fit(self) -> Result<Settings, SettingsFault>
        ensures ok { IfOk result (λ settings. FitsEntries self settings × (unfit self ≡ None)) }
        ensures fault { IfErr result (λ fault. unfit self ≡ Some fault) }
    {
        let size = size_from(self.n, self.t, self.questions)?;
        let header = header(self.cluster, size, self.me).ok_or(SettingsFault::Key(Key::Me))?;
        if self.peers.len() != usize::from(size.n()) {
            return Err(SettingsFault::Key(Key::Peers));
        }
        Ok(Settings {
            header,
            journal: self.journal,
            peers: self.peers,
            desk: self.desk,
            seed: self.seed,
            listen: self.listen,
            desk_socket: self.desk_socket,
            epochs: self.epochs,
        })
    }
}

/// The 32 bytes that the 64 digits at a key write.
fn seed(table: &Table, key: Key) -> Result<[u8; 32], SettingsFault>
    ensures ok { IfOk result (HasSeed (table_view table.now) key) }
    ensures fault { IfErr result (IsLack key (HasSeed (table_view table.now) key)) }
{
    value_at(table, key)
        .and_then(Value::as_str)
        .and_then(|digits| <[u8; 32]>::from_hex(digits).ok())
        .ok_or(SettingsFault::Key(key))
}

/// The address at a key, if the table has the key.
fn optional_address(table: &Table, key: Key) -> Result<Option<Address>, SettingsFault>
    ensures ok { IfOk result (MayHaveAddress (table_view table.now) key) }
    ensures fault { IfErr result (IsLack key (MayHaveAddress (table_view table.now) key)) }
{
    match value_at(table, key) {
        None => Ok(None),
        Some(_value) => match address(table, key) {
            Ok(address) => Ok(Some(address)),
            Err(fault) => Err(fault),
        },
    }
}

/// The address at a key.
fn address(table: &Table, key: Key) -> Result<Address, SettingsFault>
    ensures ok { IfOk result (HasAddress (table_view table.now) key) }
    ensures fault { IfErr result (IsLack key (HasAddress (table_view table.now) key)) }
{
    let fault = SettingsFault::Key(key);
    let text = value_at(table, key).and_then(Value::as_str).ok_or(fault)?;
    Address::parse(text).ok_or(fault)
}

/// The path at a key, if the table has the key.
fn optional_path(alloc: Global, table: &Table, key: Key) -> Result<Option<String>, SettingsFault>
    ensures ok { IfOk result
        (λ path. MayHavePath (table_view table.now) key (option_map string_bytes path)) }
    ensures fault { IfErr result (IsLackOrMemory key (MayHavePath (table_view table.now) key)) }
{
    match value_at(table, key) {
        None => Ok(None),
        Some(_value) => match path(alloc, table, key) {
            Ok(path) => Ok(Some(path)),
            Err(fault) => Err(fault),
        },
    }
}

/// The path at a key, or that it has none.
fn path(alloc: Global, table: &Table, key: Key) -> Result<String, SettingsFault>
    ensures ok { IfOk result (λ path. HasPath (table_view table.now) key (string_bytes path)) }
    ensures fault { IfErr result (IsLackOrMemory key (HasPath (table_view table.now) key)) }
{
    match value_at(table, key).and_then(Value::as_str) {
        Some(path) if !path.is_empty() => Ok(String::from_str(alloc, path)?),
        _ => Err(SettingsFault::Key(key)),
    }
}

/// The value at a key, if the table has the key.
fn value_at(table: &Table, key: Key) -> Option<&Value>
    ensures { MatchOption result
        (get_member (key_text key) (table_view table.now) ≡ None)
        (λ value. get_member (key_text key) (table_view table.now) ≡ Some (view value.now)) }
{
    table.get(key.text())
}

/// The header of the member, if there is such a member.
fn header(cluster: u64, size: Size, me: u64) -> Option<Header>
    ensures some { IfSome result (λ header. header ≡ new_header cluster size me) }
    ensures exact { IsSome result ↔ (me < size.n) }
{
    Header::new(cluster, size, u8::try_from(me).ok()?)
}
