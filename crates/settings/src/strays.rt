//! Keys of a text of settings that are none of a member's, or stand in a table: they are ignored.

ghost use Rattle.std.specs.Prelude.{◌≡◌, ◌⊎◌, ◌++◌, IfErr, IfOk, None, map, string_bytes};
ghost use Rattle.toml.specs.Parse.{parse_document};
ghost use Rattle.toml.specs.View.{table_view, view};
ghost use Rattle.settings.specs.Strays.{AreStrays, alone, inside, is_known, named, strays_at, strays_in};

use crate::document::table;
use crate::fault::SettingsFault;
use std::alloc::{AllocError, Global};
use toml::{Table, Value};

/// A key of a text of settings that is ignored.
#[derive(Debug, Drop)]
pub struct Stray {
    /// The key.
    pub name: String,
    /// Set if the key stands in a table of the text. Else it is none of a member's keys.
    pub in_table: bool,
}

/// Returns the keys of the text that [`Settings::parse`](crate::Settings::parse) ignores, in the
/// order of the names that stand above the first table: those that are none of a member's, and all
/// that stand in a table.
///
/// # Errors
///
/// - [`SettingsFault::Text`] if the text isn't TOML;
/// - [`SettingsFault::Memory`] if an allocation failed.
pub fn strays_of(alloc: Global, text: &str) -> Result<Vec<Stray>, SettingsFault>
    ensures all { IfOk result (λ strays. AreStrays (parse_document text.now) strays.items) }
    ensures fault { IfErr result
        (λ ends. ((ends ≡ SettingsFault.Text) × (parse_document text.now ≡ None))
        ⊎ (ends ≡ SettingsFault.Memory)) }
{
    let table = table(alloc, text)?;
    Ok(strays_in(alloc, &table)?)
}

/// Returns what is ignored of a table's keys, in the order of their names.
fn strays_in(alloc: Global, table: &Table) -> Result<Vec<Stray>, AllocError>
    ensures { IfOk result (λ strays. map named strays.items ≡ strays_in (table_view table.now)) }
{
    let mut strays = Vec::new(alloc);
    for (name, value) in table.iter() {
        push_strays(name, value, &mut strays)?;
    }
    Ok(strays)
}

/// Puts what is ignored of a key and its value behind the others: the keys of a table, or the key
/// itself.
fn push_strays(name: &String, value: &Value, strays: &mut Vec<Stray>) -> Result<(), AllocError>
    ensures { IfOk result
        (λ _. map named strays.new.items ≡ map named strays.old.items
        ++ strays_at (string_bytes name.now) (view value.now)) }
{
    match value.as_table() {
        Some(table) => push_inside(table, strays),
        None => push_alone(name, strays),
    }
}

/// Puts the keys of a table behind the others.
fn push_inside(table: &Table, strays: &mut Vec<Stray>) -> Result<(), AllocError>
    ensures { IfOk result
        (λ _. map named strays.new.items ≡ map named strays.old.items
        ++ inside (table_view table.now)) }
{
    for (name, _value) in table.iter() {
        let name = name.clone()?;
        strays.push(Stray {
            name,
            in_table: true,
        })?;
    }
    Ok(())
}

/// Puts a key that stands in no table behind the others, if it is none of a member's.
fn push_alone(name: &String, strays: &mut Vec<Stray>) -> Result<(), AllocError>
    ensures { IfOk result
        (λ _. map named strays.new.items ≡ map named strays.old.items
        ++ alone (string_bytes name.now)) }
{
    if is_known(name.as_str()) {
        return Ok(());
    }
    let name = name.clone()?;
    strays.push(Stray {
        name,
        in_table: false,
    })?;
    Ok(())
}

/// Returns `true` if this is the name of a key of a member's settings.
fn is_known(name: &str) -> bool
    ensures { result ≡ is_known name.now }
{
    match name {
        "cluster"
        | "n"
        | "t"
        | "questions"
        | "me"
        | "journal"
        | "peers"
        | "desk"
        | "seed"
        | "listen"
        | "desk-socket"
        | "epochs" => true,
        _ => false,
    }
}
