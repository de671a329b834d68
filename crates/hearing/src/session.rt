//! The state of `hear` from line to line, and its answer to each.

ghost use Rattle.std.specs.Prelude.{ℕ, ◌≡◌, ◌<◌, ◌++◌, OnOk, IfOk, IfErr, List, length, codes, true, false};
ghost use Rattle.std.specs.Io.KnownBytes.{Appends};
ghost use Rattle.std.specs.List.{flat_map, AllByRecursion};
ghost use Rattle.terms.specs.declared.Size.{Size as SizeOf};
ghost use Rattle.terms_prelude.specs.Terms.{IsSize, IsWellFormed, FitsStep, Past, no_past, said_if, after_records, AllFit, FitsIf};
ghost use Rattle.wire.specs.Texts.{frame_bytes as text_of, Fits};
ghost use Rattle.wire.specs.Reading.{End};
ghost use Rattle.hex.specs.Hex.{encode_lower};
ghost use Rattle.rbc.specs.Readers.{broadcasts_size};
ghost use Rattle.rbc.specs.Stands.{BroadcastsStandFor};
ghost use Rattle.hearing.specs.InTurn.{InTurn};
ghost use Rattle.numerals.specs.Lines.{line};
ghost use Rattle.hearing.specs.Replies.{frame_line, fault_name, broken_line, AnswersStatement, AnswersOne, AnswersMessage, AnswersPiece, AnswersInput, Hearing, no_hearing};
ghost use Rattle.hearing.specs.Pieces.{IsNoPiece};
ghost use Rattle.hearing.specs.Faults.{IsOfStream};
ghost use Rattle.hearing.specs.Sessions.{HasFeeders, HasBroadcasts, AreFed, EachStandsFor};

use crate::fault::HearFault;
use crate::piece::Piece;
use rbc::{Broadcasts, Heard};
use std::alloc::Global;
use std::io::Write;
use terms::{Kind, Memory, Place, Size, Statement, Value};
use wire::{Fed, Feeder, Message, WireFault, encode};

/// A feeder for each sender, and the broadcasts of each question.
#[derive(Drop)]
pub struct Session {
    alloc: Global,
    size: Size,
    feeders: Vec<Feeder>,
    broadcasts: Vec<Broadcasts>,
}

impl Session {
    ghost use Rattle.hearing.specs.Keeping.{IsWhole, SessionStandsFor};

    /// The session of member `me`, at the beginning of all streams.
    pub fn new(alloc: Global, size: Size, me: u8) -> Result<Session, Memory>
        ensures sound { IfOk result (IsWhole size) }
        ensures start { IfOk result (λ session. SessionStandsFor session (no_hearing size me)) }
    {
        let mut feeders = Vec::new(alloc);
        for _ in 0..size.n() {
            feeders.push(Feeder::new(size))?;
        }
        let mut broadcasts = Vec::new(alloc);
        for _ in 0..size.questions() {
            broadcasts.push(Broadcasts::new(alloc, size, me))?;
        }
        Ok(Session {
            alloc,
            size,
            feeders,
            broadcasts,
        })
    }

    /// Hears the next piece of the sender's stream, and adds the answers to the text.
    pub fn hear(&mut self, sender: u8, piece: &[u8], text: &mut Vec<u8>) -> Result<(), Memory>
        requires sound { IsWhole self.old.size self.old }
        requires sender { sender < self.old.size.n }
        ensures answers { OnOk result
            ((h : Hearing) → SessionStandsFor self.old h → (after : Hearing) × (others : List ℕ)
            × AnswersPiece self.old.size sender h piece.now after others
            × SessionStandsFor self.new after × (text.new.items ≡ text.old.items ++ others)) }
        ensures sound { OnOk result (IsWhole self.old.size self.new) }
    {
        let mut messages = Vec::new(self.alloc);
        let fed = self.feeders[usize::from(sender)].feed(piece, &mut messages)?;
        let stream = Stream {
            alloc: self.alloc,
            size: self.size,
            from: sender,
        };
        hear_all(&stream, &mut self.broadcasts, &messages, text)?;
        match fed {
            Fed::More => Ok(()),
            Fed::Broken(fault) => {
                show_fault(fault, text)?;
                Ok(())
            }
        }
    }

    /// Answers a line of the input: a piece of a sender's stream is heard, and what it is answered
    /// is written. False where the line isn't one: then nothing changed and nothing was written.
    ///
    /// [`HearFault::Stream`] and [`HearFault::Memory`]: a write or a growth failed, and the session
    /// is not to be used again.
    pub fn answer<W: Write>(&mut self, line: &[u8], output: &mut W) -> Result<bool, HearFault>
        requires { IsWhole self.old.size self.old }
        ensures answers { result ≡ Ok true → (h : Hearing) → SessionStandsFor self.old h →
            (after : Hearing) × (text : List ℕ) × AnswersInput self.old.size h line.now after text
            × SessionStandsFor self.new after
            × Appends (W.contents output.old) (W.contents output.new) text }
        ensures sound { result ≡ Ok true → IsWhole self.old.size self.new }
        ensures no_piece { result ≡ Ok false → IsNoPiece self.old.size.n line.now }
        ensures nothing { result ≡ Ok false → output.new ≡ output.old }
        ensures fault { IfErr result IsOfStream }
    {
        match Piece::parse(self.alloc, self.size.n(), line)? {
            None => Ok(false),
            Some(piece) => {
                let mut text = Vec::new(self.alloc);
                self.hear(piece.sender, &piece.bytes, &mut text)?;
                output.write_all(&text)?;
                output.flush()?;
                Ok(true)
            }
        }
    }
}

/// Hears the sender's messages in turn, and adds the answers.
fn hear_all(
    stream: &Stream,
    broadcasts: &mut Vec<Broadcasts>,
    messages: &[Message],
    text: &mut Vec<u8>,
) -> Result<(), Memory>
    requires has { HasBroadcasts stream.now.size broadcasts.old.items }
    requires from { stream.now.from < stream.now.size.n }
    requires fits { AllByRecursion (Fits stream.now.size) messages.now }
    ensures answers { OnOk result
        ((h : Hearing) → EachStandsFor stream.now.size broadcasts.old.items h → (after : Hearing)
        × (others : List ℕ) × InTurn (AnswersMessage stream.now.from) h messages.now after others
        × EachStandsFor stream.now.size broadcasts.new.items after
        × (text.new.items ≡ text.old.items ++ others)) }
    ensures has { OnOk result (HasBroadcasts stream.now.size broadcasts.new.items) }
{
    for message in messages {
        hear_message(stream, broadcasts, message, text)?;
    }
    Ok(())
}

/// Hears the sender's message, and adds the answer. One without a statement has none.
fn hear_message(
    stream: &Stream,
    broadcasts: &mut Vec<Broadcasts>,
    message: &Message,
    text: &mut Vec<u8>,
) -> Result<(), Memory>
    requires has { HasBroadcasts stream.now.size broadcasts.old.items }
    requires from { stream.now.from < stream.now.size.n }
    requires fits { Fits stream.now.size message.now }
    ensures answers { OnOk result
        ((h : Hearing) → EachStandsFor stream.now.size broadcasts.old.items h → (after : Hearing)
        × (others : List ℕ) × AnswersMessage stream.now.from h message.now after others
        × EachStandsFor stream.now.size broadcasts.new.items after
        × (text.new.items ≡ text.old.items ++ others)) }
    ensures has { OnOk result (HasBroadcasts stream.now.size broadcasts.new.items) }
{
    match message {
        Message::Statement(statement) => {
            hear_one(stream, broadcasts, statement, text)?;
            Ok(())
        }
        Message::Statements(many) => {
            hear_each(stream, broadcasts, many.as_slice(), text)?;
            Ok(())
        }
        Message::Idle | Message::Hello { .. } | Message::Welcome { .. } => Ok(()),
    }
}

/// Hears the sender's statements in turn, and adds the answers.
fn hear_each(
    stream: &Stream,
    broadcasts: &mut Vec<Broadcasts>,
    statements: &[Statement],
    text: &mut Vec<u8>,
) -> Result<(), Memory>
    requires has { HasBroadcasts stream.now.size broadcasts.old.items }
    requires from { stream.now.from < stream.now.size.n }
    requires well { AllByRecursion (IsWellFormed stream.now.size) statements.now }
    ensures answers { OnOk result
        ((h : Hearing) → EachStandsFor stream.now.size broadcasts.old.items h → (after : Hearing)
        × (others : List ℕ) × InTurn (AnswersOne stream.now.from) h statements.now after others
        × EachStandsFor stream.now.size broadcasts.new.items after
        × (text.new.items ≡ text.old.items ++ others)) }
    ensures has { OnOk result (HasBroadcasts stream.now.size broadcasts.new.items) }
{
    for statement in statements {
        hear_one(stream, broadcasts, statement, text)?;
    }
    Ok(())
}

/// Hears the sender's statement, and adds the answer.
fn hear_one(
    stream: &Stream,
    broadcasts: &mut Vec<Broadcasts>,
    statement: &Statement,
    text: &mut Vec<u8>,
) -> Result<(), Memory>
    requires has { HasBroadcasts stream.now.size broadcasts.old.items }
    requires from { stream.now.from < stream.now.size.n }
    requires well { IsWellFormed stream.now.size statement.now }
    ensures answers { OnOk result
        ((h : Hearing) → EachStandsFor stream.now.size broadcasts.old.items h → (after : Hearing)
        × (others : List ℕ) × AnswersOne stream.now.from h statement.now after others
        × EachStandsFor stream.now.size broadcasts.new.items after
        × (text.new.items ≡ text.old.items ++ others)) }
    ensures has { OnOk result (HasBroadcasts stream.now.size broadcasts.new.items) }
{
    let question = usize::from(statement.place().question());
    hear(
        stream.alloc,
        &mut broadcasts[question],
        stream.from,
        statement,
        text,
    )?;
    Ok(())
}

/// A sender's stream to the member of a session, in a cluster of this size.
#[derive(Clone, Copy)]
struct Stream {
    alloc: Global,
    size: Size,
    from: u8,
}

/// Hears the statement, and adds a line for how it was taken and one for each frame that is then
/// due.
fn hear(
    alloc: Global,
    broadcasts: &mut Broadcasts,
    from: u8,
    statement: &Statement,
    text: &mut Vec<u8>,
) -> Result<(), Memory>
    requires from { from < (broadcasts_size broadcasts.old).n }
    requires origin { statement.now.place.origin < (broadcasts_size broadcasts.old).n }
    ensures answers { OnOk result
        ((past : Past) → BroadcastsStandFor broadcasts.old past →
        statement.now.place.question ≡ past.question → AllFit past →
        FitsStep statement.now.place.step statement.now.value → (after : Past) × (others : List ℕ)
        × AnswersStatement from past statement.now after others
        × BroadcastsStandFor broadcasts.new after × (text.new.items ≡ text.old.items ++ others)) }
    ensures size { broadcasts_size broadcasts.new ≡ broadcasts_size broadcasts.old }
{
    match broadcasts.hear(from, statement)? {
        Heard::Foreign => text.extend_from_slice(b"foreign\n")?,
        Heard::Repeat => text.extend_from_slice(b"repeat\n")?,
        Heard::News => {
            text.extend_from_slice(b"news\n")?;
            let place = statement.place();
            let due = broadcasts.due(place);
            let echo = Due {
                kind: Kind::Echo,
                place,
                value: due.echo,
            };
            say(alloc, broadcasts, echo, text)?;
            let ready = Due {
                kind: Kind::Ready,
                place,
                value: due.ready,
            };
            say(alloc, broadcasts, ready, text)?;
        }
    }
    Ok(())
}

/// Says what is due, and adds its frame.
fn say(
    alloc: Global,
    broadcasts: &mut Broadcasts,
    due: Due,
    text: &mut Vec<u8>,
) -> Result<(), Memory>
    requires { due.place.origin < (broadcasts_size broadcasts.old).n }
    ensures text { OnOk result
        (FitsIf due.place due.value → text.new.items ≡ text.old.items
        ++ flat_map frame_line (said_if due.kind due.place due.value)) }
    ensures stands { OnOk result
        (FitsIf due.place due.value → (past : Past) → BroadcastsStandFor broadcasts.old past →
        due.place.question ≡ past.question →
        BroadcastsStandFor broadcasts.new
        (after_records past (said_if due.kind due.place due.value))) }
    ensures size { broadcasts_size broadcasts.new ≡ broadcasts_size broadcasts.old }
{
    let Some(value) = due.value else {
        return Ok(());
    };
    match Statement::new(due.kind, due.place, value) {
        None => Ok(()),
        Some(statement) => {
            show_frame(alloc, &Message::Statement(statement), text)?;
            broadcasts.say(&statement)
        }
    }
}

/// The value that is due of a kind at a place, if one is.
#[derive(Clone, Copy)]
struct Due {
    kind: Kind,
    place: Place,
    value: Option<Value>,
}

/// Adds the frame in lower case hexadecimal digits, and the end of a line.
fn show_frame(alloc: Global, message: &Message, text: &mut Vec<u8>) -> Result<(), Memory>
    ensures { OnOk result
        (text.new.items ≡ text.old.items ++ line (encode_lower (text_of message.now))) }
{
    let mut frame = Vec::new(alloc);
    encode(message, &mut frame)?;
    let digits = hex::encode(alloc, frame.as_slice())?;
    text.extend_from_slice(digits.as_bytes())?;
    text.push(b'\n')?;
    Ok(())
}

/// Adds the line that names the fault.
fn show_fault(fault: WireFault, text: &mut Vec<u8>) -> Result<(), Memory>
    ensures { OnOk result
        (text.new.items ≡ text.old.items ++ line (codes "broken " ++ fault_name fault)) }
{
    let name: &str = match fault {
        WireFault::BadLength => "BadLength",
        WireFault::BadType => "BadType",
        WireFault::BadKind => "BadKind",
        WireFault::BadPlace => "BadPlace",
        WireFault::BadValue => "BadValue",
        WireFault::BadHello => "BadHello",
        WireFault::BadCount => "BadCount",
    };
    text.extend_from_slice(b"broken ")?;
    text.extend_from_slice(name.as_bytes())?;
    text.push(b'\n')?;
    Ok(())
}
