//! The words on faults in texts and journals.

ghost use Rattle.troubles.specs.Tellings.{IsJournalPlace, IsJournalWords, IsLineOf, IsLongWords, IsOldPlace, IsOwnerWords, IsNotOldWords, IsPlaceOfKey, AreLineWords, IsLineWords, cut_text, ends_blank, front_of, headless_words, is_bare, is_quoted, is_unbare, key_name, more_text, AreScriptWords, IsScriptPlace, IsScriptWords, IsOrderOf, IsWhyAt, IsSettingsPlace, IsSettingsWords, IsStrayPlace, IsTranscriptPlace, IsTranscriptWords, of_settings, place_at, size_key, stray_words, strays_words};
ghost use Rattle.troubles.specs.Troubles.{IsTold};
ghost use Rattle.commands.specs.declared.fault.SimulateFault.TheVariants as unplayed;
ghost use Rattle.troubles.specs.declared.fault.Fault.TheVariants as ends;
ghost use Rattle.troubles.specs.declared.trouble.Whereabouts.TheVariants as whereabouts;
ghost use Rattle.commands.specs.Asked.{IsSaidOfKey, asked_words};
ghost use Rattle.commands.specs.Damage.{IsPlaceOf};
ghost use Rattle.commands.specs.OldDamage.{IsOldPlaceOf};
ghost use Rattle.commands.specs.Owners.{IsHeadless, IsLongOwner, IsNoJournal, IsOtherOwner, IsOwner};
ghost use Rattle.journal.specs.declared.fault.JournalFault.TheVariants.{NotEmpty, OtherHeader};
ghost use Rattle.settings.specs.declared.fault.SettingsFault.TheVariants as unset;
ghost use Rattle.commands.specs.TextLines.{lines_in};
ghost use Rattle.commands.specs.Quoting.{quoted_text};
ghost use Rattle.std.specs.List.{list_any};
ghost use Rattle.std.specs.Prelude.{◌≡◌, ◌↔◌, ◌-◌, ◌++◌, ◌⊎◌, IfOk, IfSome, IsTrue, Some, codes, length, nat_lt, option_map, slice_get, string_bytes, ⊤};

use crate::fault::Fault;
use crate::forms::{Order, form_of, head_order, order_of};
use crate::misfits::why_words;
use crate::trouble::{Failure, Trouble, Whereabouts, trouble_of};
use commands::{
    Quoted, SimulateFault, asked_words, bytes_at, count_lines, fault_place, has_hidden, key_words,
    line_at, line_in_table, line_of_key, line_of_name, long_owner, old_fault_place, other_owner,
    owner, text_fault,
};
use journal::JournalFault;
use migration::MigrateFault;
use settings::{Key, SettingsFault, Stray};
use sim::SimFault;
use std::alloc::{AllocError, Global};
use terms::{Header, SizeFault};
use transcripts::AuditFault;

/// The failure of a file of settings whose byte at this place begins no UTF-8.
pub fn not_text(alloc: Global, path: &str, place: usize) -> Failure
    ensures fault { result.fault ≡ ends.Settings unset.Text }
    ensures told { IfSome result.trouble
        (IsTold path.now (λ at. at ≡ whereabouts.Byte place) (λ text. text ≡ codes "not UTF-8")) }
{
    let fault = Fault::Settings(SettingsFault::Text);
    Failure::at(alloc, fault, path, Whereabouts::Byte(place), &"not UTF-8")
}

/// The failure of a text of settings: the key that is wrong, its line, and what its value has to
/// be. No value is told, since one is a secret.
pub fn settings_failure(alloc: Global, path: &str, text: &str, fault: SettingsFault) -> Failure
    ensures fault { result.fault ≡ of_settings fault }
    ensures told { IfSome result.trouble
        (IsTold path.now (IsSettingsPlace fault text.now) (IsSettingsWords fault text.now)) }
{
    match fault {
        SettingsFault::Text => text_failure(alloc, path, text),
        SettingsFault::Key(key) => key_failure(alloc, path, text, key),
        SettingsFault::Size(size) => size_failure(alloc, path, text, size),
        SettingsFault::Memory => Failure::from(Fault::Memory),
    }
}

/// The failure of a text of settings that isn't TOML: the line at which its reader fails, and why
/// it does.
fn text_failure(alloc: Global, path: &str, text: &str) -> Failure
    ensures fault { result.fault ≡ ends.Settings unset.Text }
    ensures told { IfSome result.trouble (IsTold path.now (IsLineOf text.now) (λ _. ⊤)) }
{
    let fault = Fault::Settings(SettingsFault::Text);
    match text_fault(alloc, text) {
        Ok(Some((number, words))) => Failure::at(
            alloc,
            fault,
            path,
            Whereabouts::Line(number),
            &words,
        ),
        _ => Failure::from(fault),
    }
}

/// The failure of a key of settings whose value is wrong: its line, and what the value has to be.
fn key_failure(alloc: Global, path: &str, text: &str, key: Key) -> Failure
    ensures fault { result.fault ≡ ends.Settings (unset.Key key) }
    ensures told { IfSome result.trouble
        (IsTold path.now (IsPlaceOfKey key text.now) (IsSaidOfKey key text.now)) }
{
    let fault = Fault::Settings(SettingsFault::Key(key));
    let place = place_of(alloc, text, key);
    match key_words(alloc, text, key) {
        Ok(words) => Failure::at(alloc, fault, path, place, &words),
        Err(_) => Failure::from(fault),
    }
}

/// The failure of settings whose numbers make no size: the line of the key to look at, and what its
/// value has to be.
fn size_failure(alloc: Global, path: &str, text: &str, size: SizeFault) -> Failure
    ensures fault { result.fault ≡ ends.Settings (unset.Size size) }
    ensures told { IfSome result.trouble
        (IsTold path.now (IsPlaceOfKey (size_key size) text.now)
        (λ words. words ≡ asked_words (size_key size))) }
{
    let fault = Fault::Settings(SettingsFault::Size(size));
    let key = key_of(size);
    let place = place_of(alloc, text, key);
    match asked_words(alloc, key) {
        Ok(words) => Failure::at(alloc, fault, path, place, &words),
        Err(_) => Failure::from(fault),
    }
}

/// The line that gives the key a value, or the whole text where none does.
pub fn place_of(alloc: Global, text: &str, key: Key) -> Whereabouts
    ensures { IsPlaceOfKey key text.now result }
{
    match line_of_key(alloc, text.as_bytes(), key) {
        Ok(Some(number)) => Whereabouts::Line(number),
        _ => Whereabouts::Whole,
    }
}

/// The words on a key that stands in no table, and is none of a member's.
const UNKNOWN: &str = "no key of the settings, ignored";

/// The words on a key that stands in a table.
const IN_TABLE: &str = "stands in a table, ignored";

/// Returns what can be told of a key of a text of settings that is ignored: its line, its name, and
/// why. The value isn't told.
pub fn stray_trouble(alloc: Global, path: &str, text: &str, stray: &Stray) -> Option<Trouble>
    ensures { IfSome result
        (IsTold path.now (IsStrayPlace (string_bytes stray.now.name) stray.now.in_table text.now)
        (λ words. words ≡ stray_words (string_bytes stray.now.name) stray.now.in_table)) }
{
    let place = stray_place(alloc, text, stray);
    match stray_words(alloc, stray) {
        Ok(words) => trouble_of(alloc, path, place, &words),
        Err(_) => None,
    }
}

/// Returns what is told of a key that is ignored.
fn stray_words(alloc: Global, stray: &Stray) -> Result<String, AllocError>
    ensures { IfOk result
        (λ text. string_bytes text ≡ stray_words (string_bytes stray.now.name) stray.now.in_table) }
{
    let name = key_name(alloc, stray.name.as_str())?;
    if stray.in_table {
        return format!(in alloc; "{name}: {IN_TABLE}");
    }
    format!(in alloc; "{name}: {UNKNOWN}")
}

/// Returns the name of a key as it is told: the first 200 characters, in quotes unless TOML takes
/// the name without.
fn key_name(alloc: Global, name: &str) -> Result<String, AllocError>
    ensures { IfOk result (λ text. string_bytes text ≡ key_name name.now) }
{
    cut_words(alloc, name, !is_bare(name.as_bytes()))
}

/// Returns `true` if TOML takes a key of this name without quotes: it has letters, digits, `_` and
/// `-` alone, at least one.
fn is_bare(name: &[u8]) -> bool
    ensures { result ≡ is_bare name.now }
{
    !name.is_empty() && !has_unbare(name)
}

/// Returns `true` if a byte can't stand in a key without quotes.
fn has_unbare(name: &[u8]) -> bool
    ensures { result ≡ list_any is_unbare name.now }
{
    name.iter().any(|byte| is_unbare(*byte))
}

/// Returns `true` if the byte can't stand in a key without quotes.
fn is_unbare(byte: u8) -> bool
    ensures { result ≡ is_unbare byte }
{
    !(byte.is_ascii_alphanumeric() || byte == b'_' || byte == b'-')
}

/// Returns what can be told of the keys of a text of settings that are ignored and weren't named:
/// how many there are.
pub fn strays_trouble(alloc: Global, path: &str, count: usize) -> Option<Trouble>
    ensures { IfSome result
        (IsTold path.now (λ at. at ≡ whereabouts.Whole) (λ words. words ≡ strays_words count)) }
{
    match strays_words(alloc, count) {
        Ok(words) => trouble_of(alloc, path, Whereabouts::Whole, &words),
        Err(_) => None,
    }
}

/// Returns what is told of so many keys that are ignored.
fn strays_words(alloc: Global, count: usize) -> Result<String, AllocError>
    ensures { IfOk result (λ text. string_bytes text ≡ strays_words count) }
{
    format!(in alloc; "more keys, ignored: {count}")
}

/// The line at which a key stands that is ignored, or the whole text where that line isn't found.
fn stray_place(alloc: Global, text: &str, stray: &Stray) -> Whereabouts
    ensures { IsStrayPlace (string_bytes stray.now.name) stray.now.in_table text.now result }
{
    let (text, name) = (text.as_bytes(), stray.name.as_str());
    if stray.in_table {
        return place_at(line_in_table(alloc, text, name));
    }
    place_at(line_of_name(alloc, text, name))
}

/// The line of that number, or the whole text.
fn place_at(found: Result<Option<usize>, AllocError>) -> Whereabouts
    ensures { result ≡ place_at found }
{
    match found {
        Ok(Some(number)) => Whereabouts::Line(number),
        _ => Whereabouts::Whole,
    }
}

/// Tells of a journal of version 1 in which that was found: the place at which its file goes wrong,
/// and the bytes there. If these aren't known the fault is told of the whole file.
pub fn old_failure(
    alloc: Global,
    path: &str,
    fault: Fault,
    found: MigrateFault,
    file: &[u8],
) -> Failure
    ensures fault { result.fault ≡ fault }
    ensures told { IfSome result.trouble (IsTold path.now (IsOldPlace found file.now) (λ _. ⊤)) }
{
    let Some((place, words)) = old_words(alloc, &fault, found, file) else {
        return Failure::about(alloc, fault, path);
    };
    Failure::at(alloc, fault, path, Whereabouts::Byte(place), &words)
}

/// Returns the place at which the file of a journal of version 1 goes wrong, and the words for it:
/// the bytes that stand there, and the fault. Returns None if the fault isn't that file's, or there
/// is no memory.
fn old_words(
    alloc: Global,
    fault: &Fault,
    found: MigrateFault,
    file: &[u8],
) -> Option<(usize, String)>
    ensures { IfSome result (λ words. IsOldPlaceOf found file.now (Some words.0)) }
{
    let place = old_fault_place(alloc, found, file).ok()??;
    let bytes = bytes_at(alloc, file, place).ok()?;
    let words = format!(in alloc; "{bytes}: {fault}").ok()?;
    Some((place, words))
}

/// The failure of a file that should have been empty and is too long for its records to be counted,
/// by its first bytes: whose journal it begins as, or that it is no journal of bracha where it
/// begins as none.
pub fn long_failure(alloc: Global, path: &str, fault: Fault, front: &[u8], length: u64) -> Failure
    ensures fault { result.fault ≡ fault }
    ensures told { IfSome result.trouble
        (IsTold path.now (λ at. at ≡ whereabouts.Whole) (IsLongWords front.now length)) }
{
    match long_owner(alloc, front, length) {
        Ok(Some(words)) => Failure::at(alloc, fault, path, Whereabouts::Whole, &words),
        Ok(None) => headless_failure(alloc, path, fault, front),
        Err(_) => Failure::from(fault),
    }
}

/// The words on a journal of version 1.
const OLD: &str = "a journal of version 1: `bracha migrate OLD NEW` brings it over into a new file";

/// The words on an empty file.
const EMPTY: &str = "empty: `bracha init` makes the journal of a new member, and of no other";

/// The words on a journal of version 2 that should have been one of version 1.
const NEW: &str = "is version 2 already, and needs no migration";

/// The words on a file that should have been a journal of version 1, and is none.
const NOT_OLD: &str = "no journal of version 1";

/// The failure of a file that should have been a journal of version 1, and begins with these bytes.
pub fn not_old_failure(alloc: Global, path: &str, fault: Fault, front: &[u8]) -> Failure
    ensures fault { result.fault ≡ fault }
    ensures told { IfSome result.trouble
        (IsTold path.now (λ at. at ≡ whereabouts.Whole) (IsNotOldWords front.now)) }
{
    match long_owner(alloc, front, 0) {
        Ok(Some(_)) => Failure::at(alloc, fault, path, Whereabouts::Whole, &NEW),
        Ok(None) => Failure::at(alloc, fault, path, Whereabouts::Whole, &NOT_OLD),
        Err(_) => Failure::from(fault),
    }
}

/// A file, and the bytes that were read of it.
#[derive(Clone, Copy)]
pub struct ReadFile<'a> {
    /// The path of the file.
    pub path: &'a str,
    /// The bytes, from the first on.
    pub bytes: &'a [u8],
}

/// The failure of a journal in which that was found, where the one of this header was asked for, if
/// one was: whose it is, where it is another's or should have been empty; how it is brought over,
/// where it is of version 1; that the file is none, where it begins with no header; else the place
/// at which its file goes wrong, and the bytes there.
pub fn journal_failure(
    alloc: Global,
    file: &ReadFile<'_>,
    fault: Fault,
    found: JournalFault,
    asked: Option<&Header>,
) -> Failure
    ensures fault { result.fault ≡ fault }
    ensures told { IfSome result.trouble
        (IsTold file.now.path.now (IsJournalPlace found file.now.bytes.now)
        (IsJournalWords found (option_map (λ header. header.now) asked.entry) file.now.bytes.now)) }
{
    let ReadFile { path, bytes } = *file;
    match found {
        JournalFault::NotEmpty => owner_failure(alloc, path, fault, bytes),
        JournalFault::OtherHeader => match asked {
            Some(asked) => other_failure(alloc, path, fault, asked, bytes),
            None => bytes_failure(alloc, path, fault, found, bytes),
        },
        JournalFault::BadHeader => headless_failure(alloc, path, fault, bytes),
        JournalFault::OldVersion => Failure::at(alloc, fault, path, Whereabouts::Whole, &OLD),
        JournalFault::BadRecord
        | JournalFault::CutShort
        | JournalFault::Device
        | JournalFault::Memory
        | JournalFault::Stopped
        | JournalFault::Full => bytes_failure(alloc, path, fault, found, bytes),
    }
}

/// The failure of a file that should have been empty: whose journal it is; where it is none, whose
/// it begins as, or that it is no journal of bracha.
fn owner_failure(alloc: Global, path: &str, fault: Fault, file: &[u8]) -> Failure
    ensures fault { result.fault ≡ fault }
    ensures told { IfSome result.trouble
        (IsTold path.now (IsJournalPlace NotEmpty file.now) (IsOwnerWords file.now)) }
{
    match owner(alloc, file) {
        Ok(Some(words)) => Failure::at(alloc, fault, path, Whereabouts::Whole, &words),
        Ok(None) => long_failure(alloc, path, fault, file, file.len() as u64),
        Err(_) => Failure::from(fault),
    }
}

/// The failure of a journal of another header than the one that was asked for: whose it is, and in
/// what they differ.
fn other_failure(alloc: Global, path: &str, fault: Fault, asked: &Header, file: &[u8]) -> Failure
    ensures fault { result.fault ≡ fault }
    ensures told { IfSome result.trouble
        (IsTold path.now (IsJournalPlace OtherHeader file.now)
        (λ words. IsOtherOwner file.now asked.now words ⊎ IsHeadless file.now)) }
{
    match other_owner(alloc, file, asked) {
        Ok(Some(words)) => Failure::at(alloc, fault, path, Whereabouts::Whole, &words),
        Ok(None) => bytes_failure(alloc, path, fault, JournalFault::OtherHeader, file),
        Err(_) => Failure::from(fault),
    }
}

/// The failure of a journal in which that was found: the place at which its file goes wrong, and
/// the bytes there. Where these aren't known the fault is told of the whole file.
fn bytes_failure(
    alloc: Global,
    path: &str,
    fault: Fault,
    found: JournalFault,
    file: &[u8],
) -> Failure
    ensures fault { result.fault ≡ fault }
    ensures told { IfSome result.trouble
        (IsTold path.now (IsJournalPlace found file.now) (λ _. ⊤)) }
{
    match journal_words(alloc, &fault, found, file) {
        Some((place, words)) => Failure::at(alloc, fault, path, Whereabouts::Byte(place), &words),
        None => Failure::about(alloc, fault, path),
    }
}

/// The place at which a journal with these bytes goes wrong, and the words for it: the bytes that
/// stand there, and the fault. None where the fault isn't the file's, or there is no memory.
fn journal_words(
    alloc: Global,
    fault: &Fault,
    found: JournalFault,
    file: &[u8],
) -> Option<(usize, String)>
    ensures { IfSome result (λ words. IsPlaceOf found file.now (Some words.0)) }
{
    let place = fault_place(alloc, found, file).ok()??;
    let bytes = bytes_at(alloc, file, place).ok()?;
    let words = format!(in alloc; "{bytes}: {fault}").ok()?;
    Some((place, words))
}

/// The failure of a file that begins with no header: that it is empty, or its first bytes.
fn headless_failure(alloc: Global, path: &str, fault: Fault, file: &[u8]) -> Failure
    ensures fault { result.fault ≡ fault }
    ensures told { IfSome result.trouble
        (IsTold path.now (λ at. at ≡ whereabouts.Whole) (λ text. text ≡ headless_words file.now)) }
{
    match headless_words(alloc, file) {
        Ok(words) => Failure::at(alloc, fault, path, Whereabouts::Whole, &words),
        Err(_) => Failure::from(fault),
    }
}

/// Returns what is told of a file that begins with no header.
fn headless_words(alloc: Global, file: &[u8]) -> Result<String, AllocError>
    ensures { IfOk result (λ text. string_bytes text ≡ headless_words file.now) }
{
    if file.is_empty() {
        return String::from_str(alloc, EMPTY);
    }
    format!(in alloc; "no journal of bracha: {}", bytes_at(alloc, file, 0)?)
}

/// The words on a line that isn't there.
const ENDS: &str = "the text ends before this line";

/// The words on a script of too many events.
const EVENTS: &str = "more than 1000000 events, the most that are taken";

/// The words on a script whose liars can't be.
const LIARS: &str = "the liars have to ascend, each below n, and to be t at most";

/// The failure of a script: its text where it is about a line, and how that is to be written; what
/// its size, its events and its liars have to be, where they are at fault.
pub fn script_failure(alloc: Global, path: &str, text: &[u8], fault: SimulateFault) -> Failure
    ensures fault { result.fault ≡ ends.Simulate fault }
    ensures told { IfSome result.trouble
        (IsTold path.now (IsScriptPlace fault) (IsScriptWords fault text.now)) }
{
    match fault {
        SimulateFault::Line(number) => script_line_failure(alloc, path, text, number),
        SimulateFault::Size(size) => script_size_failure(alloc, path, size),
        SimulateFault::Events => {
            let fault = Fault::Simulate(SimulateFault::Events);
            Failure::at(alloc, fault, path, Whereabouts::Whole, &EVENTS)
        }
        SimulateFault::Sim(SimFault::BadLiars) => {
            let fault = Fault::Simulate(SimulateFault::Sim(SimFault::BadLiars));
            Failure::at(alloc, fault, path, Whereabouts::Whole, &LIARS)
        }
        other => Failure::about(alloc, Fault::Simulate(other), path),
    }
}

/// The failure of a line of a script.
fn script_line_failure(alloc: Global, path: &str, text: &[u8], number: u64) -> Failure
    ensures fault { result.fault ≡ ends.Simulate (unplayed.Line number) }
    ensures told { IfSome result.trouble
        (IsTold path.now (λ at. at ≡ whereabouts.Line number)
        (AreScriptWords (slice_get (lines_in text.now) (number - 1))
        (nat_lt number (length (lines_in text.now))))) }
{
    let fault = Fault::Simulate(SimulateFault::Line(number));
    let place = number as usize;
    match script_words(alloc, text, place) {
        Ok(words) => Failure::at(alloc, fault, path, Whereabouts::Line(place), &words),
        Err(_) => Failure::from(fault),
    }
}

/// The words for the line of that number of a script, which of its words is wrong, and how it is to
/// be written.
fn script_words(alloc: Global, text: &[u8], number: usize) -> Result<String, AllocError>
    ensures { IfOk result
        (λ words. AreScriptWords (slice_get (lines_in text.now) (number - 1))
        (nat_lt number (length (lines_in text.now))) (string_bytes words)) }
{
    let line = words_at(alloc, text, number)?;
    let order = order_at(text, number);
    let why = why_at(alloc, text, number, order)?;
    let form = form_of(order);
    format!(in alloc; "{line}: {why}{form}")
}

/// Returns what the line of that number of a script is to be: one of the first five that say
/// something, or an event.
fn order_at(text: &[u8], number: usize) -> Order
    ensures { IsOrderOf (slice_get (lines_in text.now) (number - 1)) result }
{
    let line = line_at(text, number);
    match (head_order(count_said(text, number)), line) {
        (Some(order), _) => order,
        (None, Some(line)) => order_of(line),
        (None, None) => Order::Other,
    }
}

/// Returns how many of the lines before the one of that number say something.
fn count_said(text: &[u8], number: usize) -> usize {
    let lines = text.split(|byte| *byte == b'\n');
    let before = lines.take(number.saturating_sub(1));
    before.filter(|line| is_said(line)).count()
}

/// Returns `true` if the line says something: it isn't empty, and no comment.
fn is_said(line: &[u8]) -> bool {
    match line.first() {
        Some(byte) => *byte != b'#',
        None => false,
    }
}

/// Returns what is told of the word of the line of that number that is wrong, and a colon; nothing
/// where none is found.
fn why_at(alloc: Global, text: &[u8], number: usize, order: Order) -> Result<String, AllocError>
    ensures { IfOk result
        (λ why. IsWhyAt order (slice_get (lines_in text.now) (number - 1)) (string_bytes why)) }
{
    match line_at(text, number) {
        Some([]) | None => Ok(String::new(alloc)),
        Some(line) => why_words(alloc, line, order),
    }
}

/// The failure of a script whose first three lines make no size: which of them is to be looked at,
/// and what it has to be.
fn script_size_failure(alloc: Global, path: &str, size: SizeFault) -> Failure
    ensures fault { result.fault ≡ ends.Simulate (unplayed.Size size) }
    ensures told { IfSome result.trouble
        (IsTold path.now (λ at. at ≡ whereabouts.Whole)
        (λ words. words ≡ asked_words (size_key size))) }
{
    let fault = Fault::Simulate(SimulateFault::Size(size));
    match asked_words(alloc, key_of(size)) {
        Ok(words) => Failure::at(alloc, fault, path, Whereabouts::Whole, &words),
        Err(_) => Failure::from(fault),
    }
}

/// The key that is to be looked at where the numbers of settings make no size.
fn key_of(fault: SizeFault) -> Key
    ensures { result ≡ size_key fault }
{
    match fault {
        SizeFault::NoMembers | SizeFault::TooManyMembers => Key::N,
        SizeFault::TooManyLiars => Key::T,
        SizeFault::NoQuestions | SizeFault::TooManyQuestions => Key::Questions,
    }
}

/// The failure of a transcript: its text where it is about a line.
pub fn transcript_failure(alloc: Global, path: &str, text: &[u8], fault: AuditFault) -> Failure
    ensures fault { result.fault ≡ ends.Audit fault }
    ensures told { IfSome result.trouble
        (IsTold path.now (IsTranscriptPlace fault) (IsTranscriptWords fault text.now)) }
{
    let AuditFault::Line(number) = fault else {
        return Failure::about(alloc, Fault::Audit(fault), path);
    };
    let number = number as usize;
    let fault = Fault::Audit(fault);
    match words_at(alloc, text, number) {
        Ok(words) => Failure::at(alloc, fault, path, Whereabouts::Line(number), &words),
        Err(_) => Failure::from(fault),
    }
}

/// The words for the line of that number of a text.
fn words_at(alloc: Global, text: &[u8], number: usize) -> Result<String, AllocError>
    ensures { IfOk result
        (λ words. AreLineWords (slice_get (lines_in text.now) (number - 1))
        (nat_lt number (length (lines_in text.now))) (string_bytes words)) }
{
    let count = count_lines(text);
    words_by(alloc, line_at(text, number), number < count)
}

/// The words for a line, or for none. An empty line behind all others is none; others follow it or
/// not.
fn words_by(alloc: Global, line: Option<&[u8]>, followed: bool) -> Result<String, AllocError>
    ensures { IfOk result
        (λ text. AreLineWords (option_map (λ line. line.now) line.entry) followed
        (string_bytes text)) }
{
    let Some(line) = line else {
        return String::from_str(alloc, ENDS);
    };
    if !line.is_empty() {
        return words_of(alloc, line);
    }
    if followed {
        return String::from_str(alloc, "this line is empty");
    }
    String::from_str(alloc, ENDS)
}

/// Returns the words for a line of a script or a transcript that isn't empty: the first 200
/// characters of the line, in quotes and with escapes if that shows more.
fn words_of(alloc: Global, line: &[u8]) -> Result<String, AllocError>
    ensures { IfOk result (λ text. IsLineWords line.now (string_bytes text)) }
{
    match str::from_utf8(line) {
        Ok(text) => cut_words(alloc, text, is_quoted(text)),
        Err(_) => String::from_str(alloc, "not UTF-8"),
    }
}

/// Returns `true` if the line is shown in quotes: it has a character that no reader sees, such as
/// the 0D of another system's line end, or a blank at its end.
fn is_quoted(line: &str) -> bool
    ensures { result ≡ is_quoted line.now }
{
    has_hidden(line) || ends_blank(line.as_bytes())
}

/// Returns `true` if the last byte is a blank.
fn ends_blank(bytes: &[u8]) -> bool
    ensures { result ≡ ends_blank bytes.now }
{
    match bytes.last() {
        Some(byte) => *byte == b' ',
        None => false,
    }
}

/// Returns the first 200 characters of a text, in quotes if that is wanted, and ` ..` if there are
/// more.
fn cut_words(alloc: Global, text: &str, quoted: bool) -> Result<String, AllocError>
    ensures { IfOk result (λ shown. string_bytes shown ≡ cut_text quoted text.now) }
{
    let front = front_of(alloc, text)?;
    let more = more_words(front.len(), text.len());
    if quoted {
        return quoted_words(alloc, front.as_str(), more);
    }
    format!(in alloc; "{front}{more}")
}

/// Returns the text in quotes, and what follows them.
fn quoted_words(alloc: Global, text: &str, more: &str) -> Result<String, AllocError>
    ensures { IfOk result (λ shown. string_bytes shown ≡ quoted_text text.now ++ more.now) }
{
    let quoted = Quoted { text };
    format!(in alloc; "{quoted}{more}")
}

/// Returns the first 200 characters of a text.
fn front_of(alloc: Global, text: &str) -> Result<String, AllocError>
    ensures { IfOk result (λ front. string_bytes front ≡ front_of text.now) }
{
    text.chars().take(200).collect(alloc)
}

/// Returns what is shown behind so many bytes of a text of that length: ` ..` if there are more.
fn more_words(shown: usize, length: usize) -> &'static str
    ensures { result.now ≡ more_text shown length }
{
    if shown < length { " .." } else { "" }
}
