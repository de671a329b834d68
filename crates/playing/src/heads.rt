//! The beginning of a run's object: its name, its cluster, its counts and what was decided.

ghost use Rattle.std.specs.Prelude.{◌≡◌, ◌++◌, ◌<◌, IfOk, length, string_bytes};
ghost use Rattle.std.specs.List.{count_by, flat_map};
ghost use Rattle.playing.specs.Heads.{hex_digit, has_form, escaped_byte, escaped, also_number, numbers_json, is_for, skips_json, left_out, counts_json, size_json, verdict_row, name_json};

use crate::codes::bit_digit;
use crate::rows::MOST_ROWS;
use report::is_skipped;
use sim::{Mark, Reason};
use std::alloc::{AllocError, Global};
use terms::Size;

/// Returns the format and the name of a run.
pub(crate) fn name_json(alloc: Global, name: &str) -> Result<Vec<u8>, AllocError>
    ensures { IfOk result (λ bytes. bytes.items ≡ name_json name.now) }
{
    let name = escaped(alloc, name.as_bytes())?;
    let mut bytes = Vec::new(alloc);
    bytes.extend_from_slice(b"{\"format\":\"bracha-run-1\",\"name\":\"")?;
    bytes.extend_from_slice(&name)?;
    bytes.extend_from_slice(b"\",\n")?;
    Ok(bytes)
}

/// Returns a text as it stands between quotes.
fn escaped(alloc: Global, text: &[u8]) -> Result<Vec<u8>, AllocError>
    ensures { IfOk result (λ bytes. bytes.items ≡ escaped text.now) }
{
    let mut bytes = Vec::new(alloc);
    for byte in text {
        push_escaped(&mut bytes, *byte)?;
    }
    Ok(bytes)
}

/// Appends a byte of a text as it stands between quotes. No `<` stays, so no text ends the element
/// around it.
fn push_escaped(text: &mut Vec<u8>, byte: u8) -> Result<(), AllocError>
    ensures { IfOk result (λ _. text.new.items ≡ text.old.items ++ escaped_byte byte) }
{
    if !has_form(byte) {
        return text.extend_from_slice(&[byte]);
    }
    text.extend_from_slice(&[
        b'\\',
        b'u',
        b'0',
        b'0',
        b'0' + byte / 16,
        hex_digit(byte % 16),
    ])
}

/// Returns `true` if a byte of a text has another form between the quotes of JSON in a page.
fn has_form(byte: u8) -> bool
    ensures { result ≡ has_form byte }
{
    byte < 32 || byte == b'"' || byte == b'\\' || byte == b'<'
}

/// Returns the digit of a number below 16.
fn hex_digit(number: u8) -> u8
    requires { number < 16 }
    ensures { result ≡ hex_digit number }
{
    if number < 10 {
        b'0' + number
    } else {
        b'a' + (number - 10)
    }
}

/// Returns the size of a cluster and its liars.
pub(crate) fn size_json(alloc: Global, size: Size, liars: &[u8]) -> Result<String, AllocError>
    ensures { IfOk result (λ text. string_bytes text ≡ size_json size liars.now) }
{
    let liars = numbers_json(alloc, liars)?;
    format!(in alloc;
        "\"n\":{},\"t\":{},\"questions\":{},\"liars\":[{liars}],\n",
        size.n(),
        size.t(),
        size.questions()
    )
}

/// Returns numbers, a comma between each two.
fn numbers_json(alloc: Global, numbers: &[u8]) -> Result<String, AllocError>
    ensures { IfOk result (λ text. string_bytes text ≡ numbers_json numbers.now) }
{
    match numbers.split_first() {
        None => Ok(String::new(alloc)),
        Some((first, others)) => {
            let first = *first;
            format!(in alloc; "{first}{}", other_numbers(alloc, others)?)
        }
    }
}

/// Returns numbers after others.
fn other_numbers(alloc: Global, others: &[u8]) -> Result<String, AllocError>
    ensures { IfOk result (λ text. string_bytes text ≡ flat_map also_number others.now) }
{
    let mut text = String::new(alloc);
    for number in others {
        text.push_str(also_number(alloc, *number)?.as_str())?;
    }
    Ok(text)
}

/// Returns a number after others.
fn also_number(alloc: Global, number: u8) -> Result<String, AllocError>
    ensures { IfOk result (λ text. string_bytes text ≡ also_number number) }
{
    format!(in alloc; ",{number}")
}

/// Returns how many events there are, how many have no row, and how many were skipped.
pub(crate) fn counts_json(alloc: Global, marks: &[Mark]) -> Result<String, AllocError>
    ensures { IfOk result (λ text. string_bytes text ≡ counts_json marks.now) }
{
    format!(in alloc;
        "\"total\":{},\"left_out\":{},\"skipped\":{{{}}},\n",
        marks.len(),
        left_out(marks),
        skips_json(alloc, marks)?
    )
}

/// Returns how many events have no row though they weren't skipped: those after the first
/// [`MOST_ROWS`].
fn left_out(marks: &[Mark]) -> usize
    ensures { result ≡ left_out marks.now }
{
    let acted = marks.iter().filter(|mark| !is_skipped(mark)).count();
    acted.saturating_sub(MOST_ROWS)
}

/// Returns how many events were skipped, for each reason.
fn skips_json(alloc: Global, marks: &[Mark]) -> Result<String, AllocError>
    ensures { IfOk result (λ text. string_bytes text ≡ skips_json marks.now) }
{
    format!(in alloc;
        "\"no-such\":{},\"wrong-side\":{},\"not-up\":{},\"running\":{},\"nothing\":{}",
        count_for(Reason::NoSuch, marks),
        count_for(Reason::WrongSide, marks),
        count_for(Reason::NotUp, marks),
        count_for(Reason::Running, marks),
        count_for(Reason::Nothing, marks)
    )
}

/// Returns how many events were skipped for this reason.
fn count_for(reason: Reason, marks: &[Mark]) -> usize
    ensures { result ≡ count_by (is_for reason) marks.now }
{
    marks.iter().filter(|mark| is_for(reason, mark)).count()
}

/// Returns `true` if an event was skipped for this reason.
fn is_for(reason: Reason, mark: &Mark) -> bool
    ensures { result ≡ is_for reason mark.now }
{
    match (reason, mark) {
        (Reason::NoSuch, Mark::Skipped(Reason::NoSuch))
        | (Reason::WrongSide, Mark::Skipped(Reason::WrongSide))
        | (Reason::NotUp, Mark::Skipped(Reason::NotUp))
        | (Reason::Running, Mark::Skipped(Reason::Running))
        | (Reason::Nothing, Mark::Skipped(Reason::Nothing)) => true,
        _ => false,
    }
}

/// Returns the rows of decisions, each after a comma and the end of a line.
pub(crate) fn verdict_rows(
    alloc: Global,
    verdicts: &[(u8, u16, u8, bool)],
) -> Result<String, AllocError>
    ensures { IfOk result (λ text. string_bytes text ≡ flat_map verdict_row verdicts.now) }
{
    let mut text = String::new(alloc);
    for verdict in verdicts {
        text.push_str(verdict_row(alloc, verdict)?.as_str())?;
    }
    Ok(text)
}

/// Returns the row of a decision: the member, the question, the round and the bit.
fn verdict_row(alloc: Global, verdict: &(u8, u16, u8, bool)) -> Result<String, AllocError>
    ensures { IfOk result (λ text. string_bytes text ≡ verdict_row verdict.now) }
{
    let (member, question, round, bit) = *verdict;
    format!(in alloc; ",\n[{member},{question},{round},{}]", bit_digit(bit))
}
