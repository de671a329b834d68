//! A link from one member to another: how far it has come in the sender's outbox, and what it
//! reads.

ghost use Rattle.std.specs.Prelude.{◌≡◌, ◌≤◌, ◌+◌, ◌++◌, List, [], ◌∷◌, true, Some, IfOk, OnOk, OnErr, length, map};
ghost use Rattle.std.specs.List.{AllByRecursion};
ghost use Rattle.terms_prelude.specs.Terms.{Statement, IsSize, IsWellFormed};
ghost use Rattle.wire.specs.declared.message.Message.TheVariants as variants;
ghost use Rattle.wire.specs.Feeding.{Feeds};
ghost use Rattle.wire.specs.Reading.{End, Rest};
ghost use Rattle.sim.specs.Links.{statements_in, statements_of, message_of, is_broken_at, ReadsBytes};

use rounds::Toss;
use std::alloc::Global;
use std::marker::Model;
use std::slice::from_ref;
use terms::{Memory, Size, Statement};
use wire::{Fed, Feeder, MOST_STATEMENTS, Many, Message, encode, encode_alone};

/// One of so many statements that are carried alone goes as bytes.
const IN_BYTES: u8 = 16;

/// A link, as its receiver has it. In contracts it is its place, its size, and how the bytes ended
/// that it was fed.
#[derive(Drop)]
pub(crate) struct Link {
    place: u64,
    feeder: Feeder,
    broken: bool,
    /// The number of statements that were carried alone, without 256 and its multiples.
    turn: u8,
    /// The frame of a group that was carried last. Its memory serves the next.
    frame: Vec<u8>,
    /// The messages that were read last. Their memory serves what is read next.
    messages: Vec<Message>,
}

impl Model for Link {
    ghost use Rattle.std.specs.Prelude.{◌≡◌};
    ghost use Rattle.sim.specs.Links.{LinkFields, is_broken_at};

    ghost Value = { LinkFields };

    ghost view = { λ a. record { place = a.place; size = a.feeder.size; end = a.feeder.end } };

    ghost invariant = { λ a. a.broken ≡ is_broken_at a.feeder.end };
}

impl Link {
    /// A link at its start: its next statement is the sender's first, and it has read nothing.
    pub(crate) fn new(alloc: Global, size: Size) -> Link
        ensures place { result.place ≡ 0 }
        ensures size { result.size ≡ size }
        ensures end { result.end ≡ Rest [] }
    {
        Link {
            place: 0,
            feeder: Feeder::new(size),
            broken: false,
            turn: 0,
            frame: Vec::new(alloc),
            messages: Vec::new(alloc),
        }
    }

    /// Puts the link at its start again, in a cluster of this size.
    pub(crate) fn begin_anew(&mut self, size: Size)
        ensures place { self.new.place ≡ 0 }
        ensures size { self.new.size ≡ size }
        ensures end { self.new.end ≡ Rest [] }
    {
        self.place = 0;
        self.feeder = Feeder::new(size);
        self.broken = false;
    }

    /// Returns how many of the sender's statements it has delivered in order.
    pub(crate) fn place(&self) -> u64
        ensures { result ≡ self.now.place }
    {
        self.place
    }

    /// Its next statement is the one of this number.
    pub(crate) fn go_to(&mut self, place: u64)
        ensures place { self.new.place ≡ place }
        ensures size { self.new.size ≡ self.old.size }
        ensures end { self.new.end ≡ self.old.end }
    {
        self.place = place;
    }

    /// Returns `true` if it has read a byte that no frame has there: then it reads nothing more.
    pub(crate) fn is_broken(&self) -> bool
        ensures { result ≡ is_broken_at self.now.end }
    {
        self.broken
    }

    /// Reads the next bytes, and gives the statements that they complete.
    pub(crate) fn take(&mut self, alloc: Global, bytes: &[u8]) -> Result<Vec<Statement>, Memory>
        ensures takes { IfOk result (λ statements.
            ReadsBytes self.old.size self.old.end bytes.now statements.items self.new.end) }
        ensures place { self.new.place ≡ self.old.place }
        ensures size { self.new.size ≡ self.old.size }
    {
        self.broken = read(&mut self.feeder, bytes, &mut self.messages)?;
        statements_among(alloc, &self.messages)
    }

    /// Carries a statement, which is then what comes out at the other end; false where nothing
    /// does. One in sixteen goes as the bytes of its frame. The others are handed over: behind
    /// whole frames a statement's frame reads as this statement, and leaves the link as it is.
    #[inline(always)]
    pub(crate) fn carry(&mut self, statement: &mut Statement) -> Result<bool, Memory>
        ensures arrives { IsSize self.old.size → IsWellFormed self.old.size statement.old →
            self.old.end ≡ Rest [] → IfOk result
            (λ arrived. (arrived ≡ true) × (statement.new ≡ statement.old)) }
        ensures end { IsSize self.old.size → IsWellFormed self.old.size statement.old →
            self.old.end ≡ Rest [] → IfOk result (λ _. self.new.end ≡ Rest []) }
        ensures place { self.new.place ≡ self.old.place }
        ensures size { self.new.size ≡ self.old.size }
    {
        self.turn = self.turn.wrapping_add(1);
        if self.turn % IN_BYTES != 0 {
            return Ok(true);
        }
        match self.carry_bytes(statement)? {
            Some(arrived) => {
                *statement = arrived;
                Ok(true)
            }
            None => Ok(false),
        }
    }

    /// Carries a statement as the bytes of its frame, and gives what comes out at the other end. It
    /// stands by itself, since a function pays at entry for the size of its locals.
    #[inline(never)]
    fn carry_bytes(&mut self, statement: &Statement) -> Result<Option<Statement>, Memory>
        ensures arrives { IsSize self.old.size → IsWellFormed self.old.size statement.now →
            self.old.end ≡ Rest [] → IfOk result (λ arrived. arrived ≡ Some statement.now) }
        ensures end { IsSize self.old.size → IsWellFormed self.old.size statement.now →
            self.old.end ≡ Rest [] → IfOk result (λ _. self.new.end ≡ Rest []) }
        ensures place { self.new.place ≡ self.old.place }
        ensures size { self.new.size ≡ self.old.size }
    {
        let frame = encode_alone(statement);
        if let Some(arrived) = self.feeder.read_alone(&frame) {
            return Ok(Some(arrived));
        }
        self.broken = read(&mut self.feeder, &frame, &mut self.messages)?;
        Ok(statement_alone(&self.messages))
    }

    /// Carries statements as frames of version 2, and gives what comes out at the other end, each
    /// with its sender and a toss.
    pub(crate) fn carry_all(
        &mut self,
        alloc: Global,
        from: u8,
        statements: &[Statement],
        toss: Toss,
    ) -> Result<Vec<(u8, Statement, Toss)>, Memory>
        ensures arrive { IsSize self.old.size →
            AllByRecursion (IsWellFormed self.old.size) statements.now → self.old.end ≡ Rest [] →
            IfOk result (λ arrived. arrived.items ≡ map (λ s. (from, s, toss)) statements.now) }
        ensures end { IsSize self.old.size →
            AllByRecursion (IsWellFormed self.old.size) statements.now → self.old.end ≡ Rest [] →
            IfOk result (λ _. self.new.end ≡ Rest []) }
        ensures few { IfOk result (λ arrived. length arrived.items ≤ length statements.now) }
        ensures place { self.new.place ≡ self.old.place }
        ensures size { self.new.size ≡ self.old.size }
    {
        let mut all = Vec::new(alloc);
        let mut rest = statements;
        while !rest.is_empty() {
            let (part, behind) = rest.split_at(rest.len().min(MOST_STATEMENTS));
            self.carry_part(alloc, from, part, toss, &mut all)?;
            rest = behind;
        }
        Ok(all)
    }

    /// Carries these statements as one frame, and adds what comes out at the other end, each with
    /// its sender and a toss.
    fn carry_part(
        &mut self,
        alloc: Global,
        from: u8,
        part: &[Statement],
        toss: Toss,
        all: &mut Vec<(u8, Statement, Toss)>,
    ) -> Result<(), Memory>
        requires some { 1 ≤ length part.now }
        requires most { length part.now ≤ 99 }
        ensures arrive { IsSize self.old.size →
            AllByRecursion (IsWellFormed self.old.size) part.now → self.old.end ≡ Rest [] →
            OnOk result (all.new.items ≡ all.old.items ++ map (λ s. (from, s, toss)) part.now) }
        ensures end { IsSize self.old.size → AllByRecursion (IsWellFormed self.old.size) part.now →
            self.old.end ≡ Rest [] → OnOk result (self.new.end ≡ Rest []) }
        ensures few { OnOk result (length all.new.items ≤ length all.old.items + length part.now) }
        ensures place { self.new.place ≡ self.old.place }
        ensures size { self.new.size ≡ self.old.size }
    {
        let message = message_of(alloc, part)?;
        self.frame.clear();
        encode(&message, &mut self.frame)?;
        self.broken = read(&mut self.feeder, &self.frame, &mut self.messages)?;
        add_tossed(
            all,
            from,
            at_most(part.len(), statements_alone(&self.messages)),
            toss,
        )?;
        Ok(())
    }
}

/// Reads the next bytes: the messages are then those that they complete. Whether a byte came that
/// no frame has there.
fn read(feeder: &mut Feeder, bytes: &[u8], messages: &mut Vec<Message>) -> Result<bool, Memory>
    ensures reads { IfOk result (λ _.
        Feeds feeder.old.size feeder.old.end bytes.now [] messages.new.items feeder.new.end) }
    ensures broken { IfOk result (λ broken. broken ≡ is_broken_at feeder.new.end) }
    ensures size { feeder.new.size ≡ feeder.old.size }
    ensures err { OnErr result (feeder.new ≡ feeder.old) }
{
    messages.clear();
    let fed = feeder.feed(bytes, messages)?;
    Ok(matches!(fed, Fed::Broken(_)))
}

/// The statements among the messages, in order.
fn statements_among(alloc: Global, messages: &[Message]) -> Result<Vec<Statement>, Memory>
    ensures { IfOk result (λ statements. statements.items ≡ statements_in messages.now) }
{
    let mut statements = Vec::new(alloc);
    for message in messages {
        add_statements(message, &mut statements)?;
    }
    Ok(statements)
}

/// Adds the statements of the message, in order.
fn add_statements(message: &Message, statements: &mut Vec<Statement>) -> Result<(), Memory>
    ensures { OnOk result
        (statements.new.items ≡ statements.old.items ++ statements_of message.now) }
{
    match message {
        Message::Statement(statement) => {
            statements.push(*statement)?;
            Ok(())
        }
        Message::Statements(many) => {
            statements.extend_from_slice(many.as_slice())?;
            Ok(())
        }
        Message::Idle | Message::Hello { .. } | Message::Welcome { .. } => Ok(()),
    }
}

/// The statement, where the messages are one alone.
fn statement_alone(messages: &[Message]) -> Option<Statement>
    ensures { (statement : Statement) → messages.now ≡ variants.Statement statement ∷ [] →
        result ≡ Some statement }
{
    match messages {
        [Message::Statement(statement)] => Some(*statement),
        _ => None,
    }
}

/// The message of these statements: one alone goes as a statement.
fn message_of(alloc: Global, part: &[Statement]) -> Result<Message, Memory>
    requires some { 1 ≤ length part.now }
    requires most { length part.now ≤ 99 }
    ensures { IfOk result (λ message. message ≡ message_of part.now) }
{
    if part.len() == 1 {
        return Ok(Message::Statement(part[0]));
    }
    let items = Vec::from_slice(alloc, part)?;
    match Many::new(items) {
        Ok(many) => Ok(Message::Statements(many)),
        Err(_) => unreachable!(),
    }
}

/// Adds the statements, each with its sender and a toss.
fn add_tossed(
    all: &mut Vec<(u8, Statement, Toss)>,
    from: u8,
    statements: &[Statement],
    toss: Toss,
) -> Result<(), Memory>
    ensures { OnOk result
        (all.new.items ≡ all.old.items ++ map (λ s. (from, s, toss)) statements.now) }
{
    for statement in statements {
        all.push((from, *statement, toss))?;
    }
    Ok(())
}

/// The first of the statements, at most so many.
fn at_most(count: usize, statements: &[Statement]) -> &[Statement]
    ensures all { length statements.now ≤ count → result.now ≡ statements.now }
    ensures few { length result.now ≤ count }
{
    &statements[..statements.len().min(count)]
}

/// The statements of the message, where it is one alone.
fn statements_alone(messages: &[Message]) -> &[Statement]
    ensures one { (s : Statement) → messages.now ≡ variants.Statement s ∷ [] → result.now ≡ s ∷ [] }
    ensures several { (many : List Statement) → messages.now ≡ variants.Statements many ∷ [] →
        result.now ≡ many }
{
    match messages {
        [Message::Statement(statement)] => from_ref(statement),
        [Message::Statements(many)] => many.as_slice(),
        _ => &[],
    }
}
