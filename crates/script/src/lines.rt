//! The lines of a script that say something.

ghost use Rattle.std.specs.Prelude.{◌≡◌, ◌+◌, ◌==◌, Some, None, drop, slice_get, IfOk, IfErr};
ghost use Rattle.std.specs.List.{slice_split};
ghost use Rattle.script.specs.LineWords.{words_of};
ghost use Rattle.script.specs.Lines.{Page, page_from, is_comment, said_from};
ghost use Rattle.script.specs.Orders.{texts, numbered, ends_empty};

use crate::fault::ScriptFault;
use std::alloc::{AllocError, Global};
use std::marker::Model;
use terms::Memory;

/// A line, without the byte 0A that ends it.
#[derive(Clone, Copy)]
pub struct Line<'a> {
    /// Its number among all lines, from 1.
    pub number: u64,
    /// Its bytes.
    pub text: &'a [u8],
}

impl<'a> Line<'a> {
    /// The fault that names this line.
    pub fn fault(&self) -> ScriptFault
        ensures { result ≡ ScriptFault.Line self.now.number }
    {
        ScriptFault::Line(self.number)
    }

    /// Its words, between single spaces.
    pub fn words(&self, alloc: Global) -> Result<Vec<&'a [u8]>, AllocError>
        ensures { IfOk result (λ words. texts words.items ≡ words_of self.now.text.now) }
    {
        self.text.split(|byte| *byte == b' ').collect(alloc)
    }
}

/// The lines that aren't skipped, in order.
#[derive(Drop)]
pub struct Lines<'a> {
    said: Vec<Line<'a>>,
    /// The number behind the last line, with those that are skipped.
    next: u64,
}

impl<'a> Model for Lines<'a> {
    ghost Value = { Page };

    ghost view = { λ l. record { said = numbered l.said.items; next = l.next } };
}

impl<'a> Lines<'a> {
    /// The lines of the text. A line ends at byte 0A, the last one perhaps at the text's end. Empty
    /// lines and those that begin with `#` are skipped.
    pub fn of(alloc: Global, text: &'a [u8]) -> Result<Lines<'a>, Memory>
        ensures { IfOk result (λ lines. lines ≡ page_from text.now) }
    {
        let parts = parts(alloc, text)?;
        let said = said(alloc, &parts)?;
        let next = 1 + parts.len() as u64 - u64::from(ends_empty(&parts));
        Ok(Lines { said, next })
    }

    /// The lines from this place on, counted from 0, of those that aren't skipped.
    pub fn behind(&self, place: usize) -> &[Line<'a>]
        ensures { numbered result.now ≡ drop place self.now.said }
    {
        if place <= self.said.len() {
            &self.said[place..]
        } else {
            &[]
        }
    }

    /// The line of that place, counted from 0, or the fault that names the line behind the text's
    /// end.
    pub fn at(&self, place: usize) -> Result<Line<'a>, ScriptFault>
        ensures ok { IfOk result
            (λ line. slice_get self.now.said place ≡ Some (line.number, line.text.now)) }
        ensures err { IfErr result
            (λ fault. (slice_get self.now.said place ≡ None)
            × (fault ≡ ScriptFault.Line self.now.next)) }
    {
        match self.said.get(place) {
            Some(line) => Ok(*line),
            None => Err(ScriptFault::Line(self.next)),
        }
    }
}

/// Those of these lines that aren't skipped.
fn said<'a>(alloc: Global, parts: &[&'a [u8]]) -> Result<Vec<Line<'a>>, Memory>
    ensures { IfOk result (λ said. numbered said.items ≡ said_from 1 (texts parts.now)) }
{
    let mut said = Vec::new(alloc);
    for (index, text) in parts.iter().enumerate() {
        if !is_skipped(text) {
            let number = index as u64 + 1;
            said.push(Line { number, text })?;
        }
    }
    Ok(said)
}

/// Returns `true` if the line is empty or begins with `#`.
fn is_skipped(line: &[u8]) -> bool
    ensures { result ≡ is_comment line.now }
{
    match line.first() {
        Some(byte) => *byte == b'#',
        None => true,
    }
}

/// Returns `true` if the last of these is empty.
fn ends_empty(parts: &[&[u8]]) -> bool
    ensures { result ≡ ends_empty (texts parts.now) }
{
    match parts.last() {
        Some(last) => last.is_empty(),
        None => false,
    }
}

/// Returns what stands before, between and behind the bytes 0A of the text.
fn parts(alloc: Global, text: &[u8]) -> Result<Vec<&[u8]>, AllocError>
    ensures { IfOk result (λ parts. texts parts.items ≡ slice_split (λ byte. byte == 10) text.now) }
{
    text.split(|byte| *byte == b'\n').collect(alloc)
}
