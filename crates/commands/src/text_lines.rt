//! The place of a fault in a text.

ghost use Rattle.std.specs.Prelude.{◌≡◌, ◌-◌, ◌≤◌, ◌↔◌, IfOk, IfSome, IsNone, IsSome, IsTrue, None, drop, length, option_map, slice_get, take};
ghost use Rattle.settings.specs.Keys.{key_text};
ghost use Rattle.toml.specs.Parse.{parse_document};
ghost use Rattle.commands.specs.TextLines.{EndsKey, IsFirstBelow, IsFirstLine, IsLineIn, SaysKey, above_table, is_head, lines_in, texts};

use numerals::is;
use settings::Key;
use std::alloc::{AllocError, Global};

/// Returns what stands before, between and behind the bytes 10 of the text.
pub fn lines_in(alloc: Global, text: &[u8]) -> Result<Vec<&[u8]>, AllocError>
    ensures { IfOk result (λ lines. texts lines.items ≡ lines_in text.now) }
{
    text.split(|byte| *byte == b'\n').collect(alloc)
}

/// Returns the line of that number, counted from 1, without the byte 10 that ends it. It takes no
/// memory.
pub fn line_at(text: &[u8], number: usize) -> Option<&[u8]>
    ensures { option_map (λ line. line.now) result ≡ slice_get (lines_in text.now) (number - 1) }
{
    let before = number.saturating_sub(1);
    text.split(|byte| *byte == b'\n').nth(before)
}

/// Returns how many lines a text has. It takes no memory.
pub fn count_lines(text: &[u8]) -> usize
    ensures { result ≡ length (lines_in text.now) }
{
    text.split(|byte| *byte == b'\n').count()
}

/// The number of a line, counted from 1, that gives the key a value at its beginning; the first,
/// where there are several, and none where no line does.
pub fn line_of_key(alloc: Global, text: &[u8], key: Key) -> Result<Option<usize>, AllocError>
    ensures { IfOk result (IsFirstLine (SaysKey (key_text key)) (lines_in text.now)) }
{
    let lines = lines_in(alloc, text)?;
    Ok(first_line(&lines, key.text()))
}

/// The number of the first line, counted from 1, that gives a key of that name a value at its
/// beginning; none where no line does.
pub fn line_of_name(alloc: Global, text: &[u8], name: &str) -> Result<Option<usize>, AllocError>
    ensures { IfOk result (IsFirstLine (SaysKey name.now) (lines_in text.now)) }
{
    let lines = lines_in(alloc, text)?;
    Ok(first_line(&lines, name))
}

/// Returns the number of the first line, counted from 1, that gives a key of that name a value,
/// from the first head of a table on. `None` if none does, or the text has no table.
pub fn line_in_table(alloc: Global, text: &[u8], name: &str) -> Result<Option<usize>, AllocError>
    ensures { IfOk result (IsFirstBelow (above_table (lines_in text.now)) (SaysKey name.now)
        (lines_in text.now)) }
{
    let lines = lines_in(alloc, text)?;
    Ok(first_below(&lines, name, above_table(&lines)))
}

/// Returns the number of lines above the first at which a table begins. All, if none does.
fn above_table(lines: &[&[u8]]) -> usize
    ensures value { result ≡ above_table (texts lines.now) }
    ensures few { result ≤ length lines.now }
{
    for (index, line) in lines.iter().enumerate() {
        if is_head(line) {
            return index;
        }
    }
    lines.len()
}

/// Returns `true` if a table begins at the line.
fn is_head(line: &[u8]) -> bool
    ensures { result ≡ is_head line.now }
{
    match line.first() {
        Some(byte) => *byte == b'[',
        None => false,
    }
}

/// Returns the number of the first line below so many, counted from 1, that gives the key of that
/// name a value.
fn first_below(lines: &[&[u8]], name: &str, above: usize) -> Option<usize>
    requires { above ≤ length lines.now }
    ensures { IsFirstBelow above (SaysKey name.now) (texts lines.now) result }
{
    let _count = lines.len();
    match first_line(rest_of(lines, above), name) {
        Some(number) => Some(above + number),
        None => None,
    }
}

/// The number of the first line, counted from 1, that gives the key of that name a value; none
/// where no line does.
fn first_line(lines: &[&[u8]], name: &str) -> Option<usize>
    ensures first { IsFirstLine (SaysKey name.now) (texts lines.now) result }
    ensures few { IfSome result (λ number. number ≤ length lines.now) }
{
    for (index, line) in lines.iter().enumerate() {
        if says(line, name) {
            return Some(index + 1);
        }
    }
    None
}

/// Returns `true` if the line gives the key of that name a value: it begins with the name, and a
/// blank or `=` behind it.
fn says(line: &[u8], name: &str) -> bool
    ensures { IsTrue result ↔ SaysKey name.now line.now }
{
    let end = name.len();
    match line.get(end) {
        Some(byte) => ends_key(*byte) && is(&line[..end], name),
        None => false,
    }
}

/// Returns `true` if the byte may stand behind a key.
fn ends_key(byte: u8) -> bool
    ensures { IsTrue result ↔ EndsKey byte }
{
    byte == b' ' || byte == b'='
}

/// Returns the lines below so many.
fn rest_of<'a, 'b>(lines: &'a [&'b [u8]], above: usize) -> &'a [&'b [u8]]
    requires { above ≤ length lines.now }
    ensures { result.now ≡ drop above lines.now }
{
    &lines[above..]
}

/// Returns the number of the line, counted from 1, in which the byte at this place stands.
pub fn line_of_byte(text: &[u8], place: usize) -> usize
    ensures { result ≡ length (lines_in (take place text.now)) }
{
    let front = &text[..place.min(text.len())];
    count_lines(front)
}

/// The line of a text, counted from 1, at which the reader of TOML fails, and why it does; none
/// where the text is TOML.
pub fn text_fault(alloc: Global, text: &str) -> Result<Option<(usize, String)>, AllocError>
    ensures none { IfOk result (λ found. IsNone found → IsSome (parse_document text.now)) }
    ensures some { IfOk result
        (λ found. IfSome found (λ found. (parse_document text.now ≡ None)
        × IsLineIn text.now found.0)) }
{
    let Err(error) = toml::table_from_str(alloc, text) else {
        return Ok(None);
    };
    let Some(span) = error.span() else {
        return Err(AllocError);
    };
    let line = line_of_byte(text.as_bytes(), span.start);
    Ok(Some((line, String::from_str(alloc, error.message())?)))
}
