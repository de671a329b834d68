//! The epochs of a chain that each member of a cluster has closed, and what the command `epochs`
//! prints of them: begin at `told_of` and `tell_epochs`.

ghost use Rattle.std.specs.Prelude.{[], ◌≡◌, ◌≢◌, ◌∷◌, ◌++◌, ◌↔◌, Err, IfOk, IfSome, IsTrue, Some, false, option_map, string_bytes, true};
ghost use Rattle.std.specs.Io.KnownBytes.{Appends, Consumes};
ghost use Rattle.numerals.specs.Lines.{NoEnd};
ghost use Rattle.commands.specs.Closings.{AreEpochs, HasEpochs, IsAnswer, IsEpochs, IsTold, closed_line, closed_of, closed_status, epochs_line, epochs_object, epochs_text, least_closed, least_from, lesser, number_word, told_item, told_items, told_line, told_lines};
ghost use Rattle.commands.specs.declared.closing.Closing.{Closing};
ghost use Rattle.commands.specs.declared.fault.TalkFault.TheVariants.{NoAnswer};

use crate::client::{print_reply, reply_line, reply_of, send};
use crate::fault::TalkFault;
use crate::objects::behind_first;
use crate::replies::{is_reply, two_counts};
use numerals::behind;
use std::alloc::{AllocError, Global};
use std::io::{Read, Write};

/// The epochs of a member, as its reply to `EPOCHS` says them.
#[derive(Clone, Copy, Debug, PartialEq, Eq)]
pub struct Closing {
    /// The number of the first epoch that isn't closed.
    pub closed: u64,
    /// The number of the newest epoch in which the member has a proposal or a decision.
    pub newest: u64,
}

/// A member's word on its epochs.
#[derive(Debug, Drop)]
pub enum Told {
    /// No reply came.
    Silent,
    /// The member told its epochs.
    Epochs(Closing),
    /// Another reply.
    Other(Vec<u8>),
}

/// The line that asks which epochs a member has closed.
pub fn epochs_line() -> &'static str
    ensures { result.now ≡ epochs_line }
{
    "EPOCHS\n"
}

/// The epochs that the words write.
fn closing_in(words: &[u8]) -> Option<Closing>
    ensures some { IfSome result (AreEpochs words.now) }
    ensures exact { (epochs : Closing) → AreEpochs words.now epochs → result ≡ Some epochs }
{
    match two_counts(words) {
        Some((closed, newest)) => Some(Closing { closed, newest }),
        None => None,
    }
}

/// The epochs that the reply says, where it is `EPOCHS C N`.
fn closing_of(reply: &[u8]) -> Option<Closing>
    ensures some { IfSome result (HasEpochs reply.now) }
    ensures exact { (epochs : Closing) → HasEpochs reply.now epochs → result ≡ Some epochs }
{
    match behind(reply, "EPOCHS ") {
        Some(words) => closing_in(words),
        None => None,
    }
}

/// Returns `true` if the reply is `EPOCHS C N`.
fn has_epochs(reply: &[u8]) -> bool
    ensures { IsTrue result ↔ IsEpochs reply.now }
{
    closing_of(reply).is_some()
}

/// Returns `true` if the line is a desk's answer to `EPOCHS`.
fn is_answer(line: &[u8]) -> bool
    ensures { IsTrue result ↔ IsAnswer line.now }
{
    has_epochs(line) || is_reply(line)
}

/// Sends the line that asks for epochs over a connection to a member's desk, and reads one reply,
/// which is given without its end.
///
/// [`TalkFault::NoAnswer`]: the connection failed or ended before a whole line came, or the line is
/// no answer of a desk. [`TalkFault::Memory`]: memory was refused.
pub fn fetch_epochs<R: Read, S: Write>(
    alloc: Global,
    line: &str,
    to: &mut S,
    from: &mut R,
) -> Result<Vec<u8>, TalkFault>
    ensures { IfOk result (λ reply. NoEnd reply.items × IsAnswer reply.items
        × Appends (S.contents to.old) (S.contents to.new) line.now
        × Consumes (R.remaining from.old) (R.remaining from.new) (reply.items ++ 10 ∷ [])) }
{
    send(line, to)?;
    let reply = reply_of(alloc, from)?;
    if is_answer(&reply) {
        Ok(reply)
    } else {
        Err(TalkFault::NoAnswer)
    }
}

/// The word that a reply is.
fn told_by(reply: Vec<u8>) -> Told
    ensures { IsTold (Some reply.items) result }
{
    match closing_of(&reply) {
        Some(epochs) => Told::Epochs(epochs),
        None => Told::Other(reply),
    }
}

/// Returns the word that a member's reply is, or that none came.
pub fn told_of(reply: Option<Vec<u8>>) -> Told
    ensures { IsTold (option_map (λ reply. reply.items) reply) result }
{
    match reply {
        Some(reply) => told_by(reply),
        None => Told::Silent,
    }
}

/// The number of the first epoch that isn't closed at a member, if the member told it.
fn closed_of(told: &Told) -> Option<u64>
    ensures { result ≡ closed_of told.now }
{
    match told {
        Told::Epochs(epochs) => Some(epochs.closed),
        Told::Silent | Told::Other(_) => None,
    }
}

/// The lesser of two numbers, if there are both.
fn lesser(one: Option<u64>, other: Option<u64>) -> Option<u64>
    ensures { result ≡ lesser one other }
{
    match (one, other) {
        (Some(one), Some(other)) => Some(one.min(other)),
        _ => None,
    }
}

/// The least of this number and of those of these members, if there is each.
fn least_from(first: Option<u64>, told: &[Told]) -> Option<u64>
    ensures { result ≡ least_from first told.now }
{
    let mut least = first;
    for one in told {
        least = lesser(least, closed_of(one));
    }
    least
}

/// Returns the least number of a first epoch that isn't closed, if each member told one: all
/// members say that they have closed the epochs before it.
pub fn least_closed(told: &[Told]) -> Option<u64>
    ensures { result ≡ least_closed told.now }
{
    match told {
        [] => None,
        [first, rest @ ..] => least_from(closed_of(first), rest),
    }
}

/// The line of a member, by its number.
fn told_line(alloc: Global, member: usize, told: &Told) -> Result<Vec<u8>, AllocError>
    ensures { IfOk result (λ line. line.items ≡ told_line member told.now) }
{
    match told {
        Told::Silent => reply_line(alloc, member, b"no answer"),
        Told::Other(reply) => reply_line(alloc, member, reply),
        Told::Epochs(epochs) => {
            let (closed, newest) = (epochs.closed, epochs.newest);
            let words = format!(in alloc; "closed {closed} newest {newest}")?;
            reply_line(alloc, member, words.as_bytes())
        }
    }
}

/// The lines of the members, in order.
fn told_lines(alloc: Global, told: &[Told]) -> Result<Vec<u8>, AllocError>
    ensures { IfOk result (λ text. text.items ≡ told_lines 0 told.now) }
{
    let mut text = Vec::new(alloc);
    for member in 0..told.len() {
        let line = told_line(alloc, member, &told[member])?;
        text.extend_from_slice(&line)?;
    }
    Ok(text)
}

/// The line of the least number, if there is one.
fn closed_line(alloc: Global, closed: Option<u64>) -> Result<String, AllocError>
    ensures { IfOk result (λ line. string_bytes line ≡ closed_line closed) }
{
    match closed {
        Some(closed) => format!(in alloc; "closed {closed}\n"),
        None => String::from_str(alloc, "closed unknown\n"),
    }
}

/// The lines of the members and of the least number.
fn epochs_text(alloc: Global, told: &[Told]) -> Result<Vec<u8>, AllocError>
    ensures { IfOk result (λ text. text.items ≡ epochs_text told.now) }
{
    let mut text = told_lines(alloc, told)?;
    let line = closed_line(alloc, least_closed(told))?;
    text.extend_from_slice(line.as_bytes())?;
    Ok(text)
}

/// A number in JSON, or `null`.
fn number_word(alloc: Global, number: Option<u64>) -> Result<String, AllocError>
    ensures { IfOk result (λ word. string_bytes word ≡ number_word number) }
{
    match number {
        Some(number) => format!(in alloc; "{number}"),
        None => String::from_str(alloc, "null"),
    }
}

/// The object of a member behind a comma.
fn told_item(alloc: Global, member: usize, told: &Told) -> Result<String, AllocError>
    ensures { IfOk result (λ item. string_bytes item ≡ told_item member told.now) }
{
    match told {
        Told::Epochs(epochs) => {
            let (closed, newest) = (epochs.closed, epochs.newest);
            format!(in alloc; ",{{\"member\":{member},\"closed\":{closed},\"newest\":{newest}}}")
        }
        Told::Silent | Told::Other(_) => {
            format!(in alloc; ",{{\"member\":{member},\"closed\":null,\"newest\":null}}")
        }
    }
}

/// The objects of the members, a comma before each.
fn told_items(alloc: Global, told: &[Told]) -> Result<String, AllocError>
    ensures { IfOk result (λ text. string_bytes text ≡ told_items 0 told.now) }
{
    let mut text = String::new(alloc);
    for member in 0..told.len() {
        let item = told_item(alloc, member, &told[member])?;
        text.push_str(item.as_str())?;
    }
    Ok(text)
}

/// The object of the members and of the least number, in a line.
fn epochs_object(alloc: Global, told: &[Told]) -> Result<Vec<u8>, AllocError>
    ensures { IfOk result (λ object. object.items ≡ epochs_object told.now) }
{
    let items = told_items(alloc, told)?;
    let closed = number_word(alloc, least_closed(told))?;
    let mut object = Vec::new(alloc);
    object.extend_from_slice(b"{\"members\":[")?;
    object.extend_from_slice(behind_first(items.as_bytes()))?;
    object.extend_from_slice(b"],\"closed\":")?;
    object.extend_from_slice(closed.as_bytes())?;
    object.extend_from_slice(b"}\n")?;
    Ok(object)
}

/// The lines, or the object.
fn epochs_words(alloc: Global, told: &[Told], json: bool) -> Result<Vec<u8>, AllocError>
    ensures lines { json ≡ false → IfOk result (λ words. words.items ≡ epochs_text told.now) }
    ensures object { json ≡ true → IfOk result (λ words. words.items ≡ epochs_object told.now) }
{
    if json {
        return epochs_object(alloc, told);
    }
    epochs_text(alloc, told)
}

/// The status for the least number, or for none.
fn closed_status(closed: Option<u64>) -> u8
    ensures { result ≡ closed_status closed }
{
    match closed {
        Some(_) => 0,
        None => 1,
    }
}

/// Writes what the members told of their epochs, a line for each and one for the least number of a
/// first epoch that isn't closed; or an object of JSON. The status is 0 if each member told it, and
/// 1 else.
///
/// [`TalkFault::Stream`]: the write failed. [`TalkFault::Memory`]: memory was refused.
pub fn tell_epochs<W: Write>(
    alloc: Global,
    told: &[Told],
    json: bool,
    output: &mut W,
) -> Result<u8, TalkFault>
    ensures status { IfOk result (λ status. status ≡ closed_status (least_closed told.now)) }
    ensures lines { json ≡ false →
        IfOk result (λ _. Appends (W.contents output.old) (W.contents output.new)
        (epochs_text told.now)) }
    ensures object { json ≡ true →
        IfOk result (λ _. Appends (W.contents output.old) (W.contents output.new)
        (epochs_object told.now)) }
    ensures only { result ≢ Err NoAnswer }
{
    let words = epochs_words(alloc, told, json)?;
    print_reply(&words, output)?;
    Ok(closed_status(least_closed(told)))
}
