//! Files of the system that have a line for each of its facts, as `/proc/self/status`.

ghost use Rattle.std.specs.Prelude.{◌≡◌, IfOk, option_map};
ghost use Rattle.commands.specs.TextLines.{lines_in, texts};
ghost use Rattle.process.specs.Status.{first_with, rest_of};

use commands::lines_in;
use numerals::behind;
use std::alloc::{AllocError, Global};

/// Returns what stands behind the head, if the line begins with it.
pub fn rest_of<'a>(line: &'a [u8], head: &str) -> Option<&'a [u8]>
    ensures { option_map (λ rest. rest.now) result ≡ rest_of head.now line.now }
{
    behind(line, head)
}

/// Returns what stands behind the head in the first line of the text that begins with it.
pub fn line_with<'a>(
    alloc: Global,
    text: &'a [u8],
    head: &str,
) -> Result<Option<&'a [u8]>, AllocError>
    ensures { IfOk result
        (λ rest. option_map (λ rest. rest.now) rest ≡ first_with head.now (lines_in text.now)) }
{
    let lines = lines_in(alloc, text)?;
    Ok(first_with(&lines, head))
}

/// Returns what stands behind the head in the first of the lines that begins with it.
fn first_with<'a>(lines: &[&'a [u8]], head: &str) -> Option<&'a [u8]>
    ensures { option_map (λ rest. rest.now) result ≡ first_with head.now (texts lines.now) }
{
    for line in lines {
        if let Some(rest) = rest_of(line, head) {
            return Some(rest);
        }
    }
    None
}
