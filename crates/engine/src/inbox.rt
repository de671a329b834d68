//! The bytes of a link, read: begin at `Inbox`.

ghost use Rattle.std.specs.Prelude.{◌≡◌, ◌≤◌, ◌*◌, ◌++◌, ◌∷◌, [], List, length, drop, reverse, IfOk, IfSome, IsNone, OnErr, IsOk, ◌↔◌};
ghost use Rattle.wire.specs.Feeding.{Feeds, answer_of, IsBroken};
ghost use Rattle.wire.specs.Reading.{Rest};
ghost use Rattle.wire.specs.Texts.{statements_bytes};
ghost use Rattle.engine.specs.Inboxes.{waiting, size_of, end_of, body_of};

use crate::frames::{hello_frame, put, welcome_frame};
use statement_codec::statement_bytes;
use std::alloc::Global;
use std::mem;
use terms::{Memory, Size, Statement};
use wire::{Fed, Feeder, Message};

/// Reads the messages of a link's bytes, which come in pieces, and gives them in order.
#[derive(Drop)]
pub struct Inbox {
    feeder: Feeder,
    /// The messages that were read, in order. Those of `first` come before them.
    read: Vec<Message>,
    /// The messages that are given next, the last of the list first.
    first: Vec<Message>,
}

impl Inbox {
    /// An inbox for a cluster of this size, at the beginning of a link. It takes no memory.
    pub fn new(alloc: Global, size: Size) -> Inbox
        ensures size { size_of result ≡ size }
        ensures end { end_of result ≡ Rest [] }
        ensures empty { waiting result ≡ [] }
    {
        Inbox {
            feeder: Feeder::new(size),
            read: Vec::new(alloc),
            first: Vec::new(alloc),
        }
    }

    /// Reads a piece: the messages whose frames end in it wait behind those that wait already.
    /// [`Fed::Broken`]: the bytes so far are whole frames, and then bytes that begin none. The
    /// messages before them wait, and nothing more is read.
    ///
    /// [`Memory`]: there was none. Nothing changed, and the same call can be made again.
    pub fn feed(&mut self, piece: &[u8]) -> Result<Fed, Memory>
        ensures reads { IfOk result
            (λ _. Feeds (size_of self.old) (end_of self.old) piece.now (waiting self.old)
            (waiting self.new) (end_of self.new)) }
        ensures answers { IfOk result (λ fed. fed ≡ answer_of (end_of self.new)) }
        ensures size { size_of self.new ≡ size_of self.old }
        ensures ok_when_broken { IsBroken (end_of self.old) → IsOk result }
        ensures same { OnErr result (end_of self.new ≡ end_of self.old) }
        ensures same_waiting { OnErr result (waiting self.new ≡ waiting self.old) }
    {
        self.feeder.feed(piece, &mut self.read)
    }

    /// Takes out the message that has waited longest.
    pub fn next(&mut self) -> Option<Message>
        ensures some { IfSome result (λ message. waiting self.old ≡ message ∷ waiting self.new) }
        ensures none { IsNone result → waiting self.old ≡ [] }
        ensures none_same { IsNone result → waiting self.new ≡ [] }
        ensures size { size_of self.new ≡ size_of self.old }
        ensures end { end_of self.new ≡ end_of self.old }
    {
        take_first(&mut self.read, &mut self.first)
    }
}

/// Takes out the message that was read first of those that are left.
fn take_first(read: &mut Vec<Message>, first: &mut Vec<Message>) -> Option<Message>
    ensures some { IfSome result
        (λ message. reverse first.old.items ++ read.old.items ≡ message
        ∷ (reverse first.new.items ++ read.new.items)) }
    ensures none { IsNone result → reverse first.old.items ++ read.old.items ≡ [] }
    ensures none_same { IsNone result → reverse first.new.items ++ read.new.items ≡ [] }
{
    refill(read, first);
    first.pop()
}

/// Puts what was read into `first`, where nothing stands there.
fn refill(read: &mut Vec<Message>, first: &mut Vec<Message>)
    ensures same { reverse first.new.items ++ read.new.items ≡ reverse first.old.items
        ++ read.old.items }
    ensures all { first.new.items ≡ [] → read.new.items ≡ [] }
{
    if !first.is_empty() {
        return;
    }
    mem::swap(read, first);
    first.reverse();
}

/// Writes what stands behind the message's type in its frame, and of statements the seven bytes of
/// each, to the front of `out`, and answers how many bytes they are.
pub fn write_body(message: &Message, out: &mut [u8]) -> usize
    requires { 693 ≤ length out.old }
    ensures count { result ≡ length (body_of message.now) }
    ensures written { out.new ≡ body_of message.now ++ drop (length (body_of message.now)) out.old }
{
    match message {
        Message::Idle => 0,
        Message::Hello {
            version,
            cluster,
            size,
            from,
            to,
        } => put(
            &hello_frame(*version, *cluster, *size, *from, *to)[3..],
            out,
        ),
        Message::Welcome { next } => put(&welcome_frame(*next)[3..], out),
        Message::Statement(statement) => put(&statement_bytes(statement), out),
        Message::Statements(many) => {
            let many = many.as_slice();
            write_statements(many, out);
            7 * many.len()
        }
    }
}

/// Writes the statements to the front of `out`, seven bytes each.
fn write_statements(many: &[Statement], out: &mut [u8])
    requires { 7 * length many.now ≤ length out.old }
    ensures { out.new ≡ statements_bytes many.now ++ drop (7 * length many.now) out.old }
{
    if let [first, rest @ ..] = many {
        let (row, more) = out.split_at_mut(7);
        row.copy_from_slice(&statement_bytes(first));
        write_statements(rest, more);
    }
}

/// An inbox may go to another thread.
fn crosses(inbox: &Inbox) {
    asks_send(inbox);
}

fn asks_send<T: Send>(_crossing: &T) {}
