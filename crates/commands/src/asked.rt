//! The values that the keys of the settings may have, in words. No value is told, since one is a
//! secret.

ghost use Rattle.std.specs.Prelude.{◌≡◌, false, true, IfOk, IfSome, IsNone, MatchOption, None, Some, length, string_bytes, ℕ};
ghost use Rattle.std.specs.List.{position_from};
ghost use Rattle.settings.specs.declared.address.Address.{Address};
ghost use Rattle.settings.specs.declared.keys.Key.TheVariants.{N, Seed};
ghost use Rattle.settings.specs.Keys.{key_text};
ghost use Rattle.settings.specs.Settings.{HasSmall, HasValue, IsAddressText};
ghost use Rattle.toml.specs.Data.{get_member, string};
ghost use Rattle.toml.specs.View.{table_view, view};
ghost use Rattle.commands.specs.Asked.{HasArray, IsArrayWords, IsFirstNone, IsLackWords, IsSaidOfKey, IsSeedWords, IsTableWords, IsValueWords, LacksArray, LacksSeed, NamesNone, NamesOne, asked_text, asked_words, below_words, count_words, digits_words, entry_words, is_other, missing_words};

use crate::text_lines::line_of_key;
use settings::{Address, Key};
use std::alloc::{AllocError, Global};
use toml::{Table, Value};

/// The key, and what its value has to be: `n: must be an integer from 1 to 64`.
pub fn asked_words(alloc: Global, key: Key) -> Result<String, AllocError>
    ensures { IfOk result (λ text. string_bytes text ≡ asked_words key) }
{
    format!(in alloc; "{}: must be {}", key.text(), asked(key))
}

/// Returns what is said of a key of the settings that is wrong in this text, which is TOML: that it
/// is missing, or stands below a table; else what its value has to be: of peers and desks the first
/// entry that is wrong, or how many there are and have to be; of the seed how many digits there
/// are.
pub fn key_words(alloc: Global, text: &str, key: Key) -> Result<String, AllocError>
    ensures { IfOk result (λ words. IsSaidOfKey key text.now (string_bytes words)) }
{
    let Ok(table) = toml::table_from_str(alloc, text) else {
        return Err(AllocError);
    };
    table_words(alloc, text, &table, key)
}

/// Returns what is said of the key in the table of this text.
fn table_words(alloc: Global, text: &str, table: &Table, key: Key) -> Result<String, AllocError>
    ensures { IfOk result
        (λ words. IsTableWords key text.now (table_view table.now) (string_bytes words)) }
{
    match value_at(table, key) {
        None => lack_words(alloc, text, key),
        Some(_value) => value_words(alloc, table, key),
    }
}

/// Returns what is said of a key that the table of this text lacks: it is missing, or a line of the
/// text says it below a table.
fn lack_words(alloc: Global, text: &str, key: Key) -> Result<String, AllocError>
    ensures { IfOk result (λ words. IsLackWords key text.now (string_bytes words)) }
{
    match line_of_key(alloc, text.as_bytes(), key)? {
        None => missing_words(alloc, key),
        Some(_line) => below_words(alloc, key),
    }
}

/// Returns what is said of a key that isn't there.
fn missing_words(alloc: Global, key: Key) -> Result<String, AllocError>
    ensures { IfOk result (λ text. string_bytes text ≡ missing_words key) }
{
    format!(in alloc; "{}: is missing", key.text())
}

/// Returns what is said of a key that is there, but in a table of the document.
fn below_words(alloc: Global, key: Key) -> Result<String, AllocError>
    ensures { IfOk result (λ text. string_bytes text ≡ below_words key) }
{
    format!(in alloc;
        "{}: stands below a table, and must stand above the first one",
        key.text()
    )
}

/// Returns what is said of a value that the table has at the key, and that is wrong.
fn value_words(alloc: Global, table: &Table, key: Key) -> Result<String, AllocError>
    ensures { IfOk result (λ words. IsValueWords key (table_view table.now) (string_bytes words)) }
{
    match key {
        Key::Peers => array_words(alloc, table, Key::Peers),
        Key::Desks => array_words(alloc, table, Key::Desks),
        Key::Seed => seed_words(alloc, table),
        other => asked_words(alloc, other),
    }
}

/// Returns what is said of an array of addresses: the first entry that is wrong; or where none is,
/// how many there are and have to be.
fn array_words(alloc: Global, table: &Table, key: Key) -> Result<String, AllocError>
    ensures { IfOk result (λ text. IsArrayWords key (table_view table.now) (string_bytes text)) }
{
    let Some(values) = array_of(table, key) else {
        return asked_words(alloc, key);
    };
    if let Some(entry) = first_none(values) {
        return entry_words(alloc, key, entry);
    }
    match members_of(table) {
        Some(n) => count_words(alloc, key, values.len(), n),
        None => asked_words(alloc, key),
    }
}

/// The values of the array at a key.
fn array_of(table: &Table, key: Key) -> Option<&[Value]>
    ensures some { IfSome result (λ values. HasArray (table_view table.now) key values.now) }
    ensures none { IsNone result → LacksArray (table_view table.now) key }
{
    Some(value_at(table, key)?.as_array()?.as_slice())
}

/// The first of the entries that names no address, counted from 0.
fn first_none(values: &[Value]) -> Option<usize>
    ensures { IsFirstNone values.now result }
{
    for (index, value) in values.iter().enumerate() {
        if !names_one(value) {
            return Some(index);
        }
    }
    None
}

/// Returns `true` if an entry names an address.
fn names_one(value: &Value) -> bool
    ensures yes { result ≡ true → NamesOne value.now }
    ensures no { result ≡ false → NamesNone value.now }
{
    match address_in(value) {
        Some(_) => true,
        None => false,
    }
}

/// The address that an entry names.
fn address_in(value: &Value) -> Option<Address>
    ensures some { IfSome result (IsAddressText (view value.now)) }
    ensures exact { (address : Address) → IsAddressText (view value.now) address →
        result ≡ Some address }
{
    Address::parse(value.as_str()?)
}

/// Returns what an entry has to be.
fn entry_words(alloc: Global, key: Key, entry: usize) -> Result<String, AllocError>
    ensures { IfOk result (λ text. string_bytes text ≡ entry_words key entry) }
{
    format!(in alloc;
        "{}: entry {entry} must be {}",
        key.text(),
        asked(Key::Desk)
    )
}

/// Returns what the value of a key has to be.
fn asked(key: Key) -> &'static str
    ensures { result.now ≡ asked_text key }
{
    match key {
        Key::Cluster => "an integer from 0 on",
        Key::N => "an integer from 1 to 64",
        Key::T => "an integer from 0 on and below a third of n",
        Key::Questions => "an integer from 1 to 4096",
        Key::Me => "an integer from 0 on and below n",
        Key::Journal => "a path",
        Key::Peers | Key::Desks => "an array of n texts HOST:PORT",
        Key::Desk | Key::Listen => {
            "localhost or four numbers with points between them, a colon and a port from 1 to 65535: no host names, no IPv6"
        }
        Key::DeskSocket | Key::Epochs => "a path",
        Key::Seed => "a text of 64 hexadecimal digits",
        Key::Chain => "true or false",
    }
}

/// Returns how many members the table says that there are.
fn members_of(table: &Table) -> Option<u16>
    ensures some { IfSome result (HasSmall (table_view table.now) N) }
    ensures none { IsNone result → (n : ℕ) → HasSmall (table_view table.now) N n → ⊥ }
{
    value_at(table, Key::N)
        .and_then(Value::as_integer)
        .and_then(|integer| u16::try_from(integer).ok())
}

/// Returns how many entries there are, and how many there have to be.
fn count_words(alloc: Global, key: Key, count: usize, n: u16) -> Result<String, AllocError>
    ensures { IfOk result (λ text. string_bytes text ≡ count_words key count n) }
{
    format!(in alloc;
        "{}: there are {count} entries, and must be {n}",
        key.text()
    )
}

/// Returns what is said of the seed: how many digits there are, and which byte is none; but not
/// what they are.
fn seed_words(alloc: Global, table: &Table) -> Result<String, AllocError>
    ensures { IfOk result (λ text. IsSeedWords (table_view table.now) (string_bytes text)) }
{
    match seed_of(table) {
        Some(digits) => digits_words(alloc, digits.as_bytes()),
        None => asked_words(alloc, Key::Seed),
    }
}

/// The text of the seed.
fn seed_of(table: &Table) -> Option<&str>
    ensures some { IfSome result
        (λ digits. HasValue (table_view table.now) Seed (string digits.now)) }
    ensures none { IsNone result → LacksSeed (table_view table.now) }
{
    value_at(table, Key::Seed)?.as_str()
}

/// The value at a key, if the table has the key.
fn value_at(table: &Table, key: Key) -> Option<&Value>
    ensures { MatchOption result
        (get_member (key_text key) (table_view table.now) ≡ None)
        (λ value. get_member (key_text key) (table_view table.now) ≡ Some (view value.now)) }
{
    table.get(key.text())
}

/// Returns how many digits of a seed there are, or bytes, and which of them is no digit.
fn digits_words(alloc: Global, digits: &[u8]) -> Result<String, AllocError>
    ensures { IfOk result
        (λ text. string_bytes text ≡ digits_words (length digits.now)
        (position_from is_other 0 digits.now)) }
{
    let count = digits.len();
    match first_other(digits) {
        None => format!(in alloc; "seed: there are {count} hexadecimal digits, and must be 64"),
        Some(place) => format!(in alloc;
            "seed: there are {count} bytes, and must be 64 hexadecimal digits: byte {place} is none"
        ),
    }
}

/// The place of the first byte that is no hexadecimal digit.
fn first_other(digits: &[u8]) -> Option<usize>
    ensures { result ≡ position_from is_other 0 digits.now }
{
    digits.iter().position(|byte| !byte.is_ascii_hexdigit())
}
