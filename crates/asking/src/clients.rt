//! The settings of a client in a file.

ghost use Rattle.std.specs.Prelude.{◌≡◌, ◌⊎◌, ◌↔◌, ◌++◌, IfErr, IfOk, IfSome, IsErrAnd, codes, string_bytes};
ghost use Rattle.settings.specs.Clients.{IsClientFault, IsClientSettings};
ghost use Rattle.settings.specs.Texts.{address_text};
ghost use Rattle.settings.specs.declared.fault.SettingsFault.{SettingsFault};
ghost use Rattle.settings.specs.declared.fault.SettingsFault.TheVariants as unset;
ghost use Rattle.settings.specs.declared.keys.Key.TheVariants as key;
ghost use Rattle.toml.specs.Parse.{parse_document};
ghost use Rattle.troubles.specs.Tellings.{IsPlaceOfKey, of_settings};
ghost use Rattle.troubles.specs.Troubles.{IsNamed, IsTold};
ghost use Rattle.troubles.specs.declared.fault.Fault.TheVariants as ends;

use crate::desks::desk_place;
use commands::line_of_key;
use settings::{Address, ClientSettings, Key, SettingsFault, address_text};
use std::alloc::{AllocError, Global};
use troubles::{
    Failure, Fault, Text, Whereabouts, not_text, place_of, read_file, settings_failure,
};

/// The words on a member's settings where a client's are wanted.
const OF_A_MEMBER: &str =
    "is a member's settings; --all wants the client.toml that new-cluster wrote";

/// The words on an address where a file is wanted.
const ADDRESS: &str = "is an address; --all wants a file, the client.toml that new-cluster wrote";

/// The client's settings in the file.
pub fn read_client(rt: &HostRuntime, path: &str) -> Result<ClientSettings, Failure>
    ensures named { IfErr result (IsNamed path.now) }
{
    let bytes = bytes_of(rt, path)?;
    match str::from_utf8(&bytes) {
        Ok(text) => client_of(rt.alloc(), path, text),
        Err(error) => Err(not_text(rt.alloc(), path, error.valid_up_to())),
    }
}

/// The client's settings that the text of the file gives, or the first thing that is wrong with
/// them.
fn client_of(alloc: Global, path: &str, text: &str) -> Result<ClientSettings, Failure>
    ensures given { IfOk result (IsClientSettings (parse_document text.now)) }
    ensures fault { (fault : SettingsFault) → IsClientFault (parse_document text.now) fault →
        IsErrAnd result
        (λ failure. (failure.fault ≡ ends.Settings fault) ⊎ (failure.fault ≡ ends.Memory)) }
    ensures named { IfErr result (IsNamed path.now) }
{
    match ClientSettings::parse(alloc, text) {
        Ok(client) => Ok(client),
        Err(fault) => Err(client_failure(alloc, path, text, fault)),
    }
}

/// The bytes of the file, or that its path is an address.
fn bytes_of(rt: &HostRuntime, path: &str) -> Result<Vec<u8>, Failure>
    ensures named { IfErr result (IsNamed path.now) }
{
    match read_file(rt, path, Text::Settings) {
        Ok(bytes) => Ok(bytes),
        Err(failure) => {
            if desk_place(path).is_none() {
                return Err(failure);
            }
            Err(Failure::at(rt.alloc(), Fault::File, path, Whereabouts::Whole, &ADDRESS))
        }
    }
}

/// The failure of a text that gives no client's settings.
fn client_failure(alloc: Global, path: &str, text: &str, fault: SettingsFault) -> Failure
    ensures fault { result.fault ≡ of_settings fault }
    ensures named { IsNamed path.now result }
{
    match fault {
        SettingsFault::Key(Key::Desks) => desks_failure(alloc, path, text),
        _ => settings_failure(alloc, path, text, fault),
    }
}

/// The failure of a text whose desks aren't any, or not as many as members, or of which one stands
/// twice.
fn desks_failure(alloc: Global, path: &str, text: &str) -> Failure
    ensures fault { result.fault ≡ ends.Settings (unset.Key key.Desks) }
    ensures named { IsNamed path.now result }
{
    let fault = SettingsFault::Key(Key::Desks);
    if has_peers(alloc, text) {
        let fault = Fault::Settings(fault);
        return Failure::at(alloc, fault, path, Whereabouts::Whole, &OF_A_MEMBER);
    }
    match ClientSettings::desk_twice(alloc, text) {
        Ok(Some(desk)) => twice_failure(alloc, path, text, &desk),
        _ => settings_failure(alloc, path, text, fault),
    }
}

/// Returns `true` if a line of the text gives `peers` a value, as a member's settings do.
fn has_peers(alloc: Global, text: &str) -> bool {
    matches!(line_of_key(alloc, text.as_bytes(), Key::Peers), Ok(Some(_)))
}

/// The failure of a text in which one desk stands twice: a member must not be counted as two.
fn twice_failure(alloc: Global, path: &str, text: &str, desk: &Address) -> Failure
    ensures fault { result.fault ≡ ends.Settings (unset.Key key.Desks) }
    ensures told { IfSome result.trouble (IsTold path.now (IsPlaceOfKey key.Desks text.now)
        (λ words. words ≡ codes "desks: " ++ (address_text desk.now
        ++ codes " stands twice: each member must have a desk of its own"))) }
    ensures named { IsNamed path.now result }
{
    let fault = Fault::Settings(SettingsFault::Key(Key::Desks));
    let place = place_of(alloc, text, Key::Desks);
    match twice_words(alloc, desk) {
        Ok(words) => Failure::at(alloc, fault, path, place, &words),
        Err(_) => Failure::from(fault),
    }
}

/// The words on a desk that stands twice.
fn twice_words(alloc: Global, desk: &Address) -> Result<String, AllocError>
    ensures { IfOk result (λ words. string_bytes words ≡ codes "desks: " ++ (address_text desk.now
        ++ codes " stands twice: each member must have a desk of its own")) }
{
    let address = address_text(alloc, desk)?;
    format!(in alloc; "desks: {address} stands twice: each member must have a desk of its own")
}
