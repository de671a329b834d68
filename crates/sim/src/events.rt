//! The events of a simulation, and their outcomes.

use disk::Pick;
use rounds::Toss;
use std::fmt;

/// One event of a script. Members are numbered from 0; a number that names none makes the event be
/// skipped.
#[derive(Debug, PartialEq, Eq, Drop)]
pub enum Event {
    /// A bit is proposed to a correct member.
    Propose {
        /// The member.
        member: u8,
        /// The question.
        question: u16,
        /// The bit.
        bit: bool,
        /// The coins of what the member then says.
        toss: Toss,
    },
    /// A correct member's statement comes to a correct member, as a frame.
    Deliver {
        /// The sender.
        from: u8,
        /// The receiver.
        to: u8,
        /// The one of the sender's statements.
        which: Which,
        /// The coins of what the receiver then says.
        toss: Toss,
    },
    /// A correct member's next statements come to a correct member, as frames. It hears them as one
    /// group, and saves what it answers as one batch.
    DeliverAll {
        /// The sender.
        from: u8,
        /// The receiver.
        to: u8,
        /// The most of them, and never more than [`MOST_IN_GROUP`](crate::MOST_IN_GROUP): the
        /// statements from the link's place on that are in the sender's outbox before the event.
        /// The link's place then goes as many further.
        count: u16,
        /// The coins of what the receiver then says, the same for each statement.
        toss: Toss,
    },
    /// A liar's bytes come to a correct member. Each statement that they complete is heard in turn.
    LieBytes {
        /// The liar.
        liar: u8,
        /// The receiver.
        to: u8,
        /// The next bytes of that link, cut anywhere.
        bytes: Vec<u8>,
        /// The coins of what the receiver then says, the same for each statement.
        toss: Toss,
    },
    /// The fuse of a correct member's disk is set, or taken out.
    Fuse {
        /// The member.
        member: u8,
        /// The number of further device calls that pass before all fail; none takes the fuse out.
        calls: Option<u64>,
    },
    /// A correct member goes down, and its disk crashes. The fuse is out then.
    Crash {
        /// The member.
        member: u8,
        /// The bytes that the crash leaves of its file.
        pick: Pick,
    },
    /// A correct member that is down or stopped is opened again from its disk. Its incoming links
    /// start anew.
    Restart {
        /// The member.
        member: u8,
    },
    /// A link starts anew: its next statement is the sender's first, and no byte of it was read.
    Reset {
        /// The sender.
        from: u8,
        /// The receiver.
        to: u8,
    },
}

impl fmt::Display for Event {
    ghost use Rattle.std.specs.Prelude.{Some};
    ghost use Rattle.sim.specs.Texts.{event_text};

    ghost output = { λ event. Some (event_text event) };

    /// The line of a script that says the event.
    fn fmt<W: fmt::Write>(&self, f: &mut fmt::Formatter<W>) -> fmt::Result {
        match self {
            Event::Propose {
                member,
                question,
                bit,
                toss: _,
            } => write!(f, "propose {member} {question} {}", u8::from(*bit)),
            Event::Deliver {
                from,
                to,
                which,
                toss: _,
            } => write!(f, "deliver {from} {to} {which}"),
            Event::DeliverAll {
                from,
                to,
                count,
                toss: _,
            } => write!(f, "group {from} {to} {count}"),
            Event::LieBytes {
                liar,
                to,
                bytes,
                toss: _,
            } => {
                let digits = Digits(bytes.as_slice());
                write!(f, "lie {liar} {to} {digits}")
            }
            Event::Fuse { member, calls } => match calls {
                Some(calls) => write!(f, "fuse {member} {calls}"),
                None => write!(f, "fuse {member} off"),
            },
            Event::Crash { member, pick } => write!(f, "crash {member} {}", Left(*pick)),
            Event::Restart { member } => write!(f, "restart {member}"),
            Event::Reset { from, to } => write!(f, "reset {from} {to}"),
        }
    }
}

/// The statement of a sender that is delivered, of all that were ever in its outbox.
#[derive(Clone, Copy, Debug, PartialEq, Eq)]
pub enum Which {
    /// The one at the link's place, which then goes one further.
    Next,
    /// The one of this number, counted from 0. The link's place stays.
    At(u64),
}

impl fmt::Display for Which {
    ghost use Rattle.std.specs.Prelude.{Some};
    ghost use Rattle.sim.specs.Texts.{which_text};

    ghost output = { λ which. Some (which_text which) };

    fn fmt<W: fmt::Write>(&self, f: &mut fmt::Formatter<W>) -> fmt::Result {
        match self {
            Which::Next => write!(f, "next"),
            Which::At(number) => write!(f, "{number}"),
        }
    }
}

/// The outcome of an event.
#[derive(Clone, Copy, Debug, PartialEq, Eq)]
pub enum Mark {
    /// The event happened.
    Done,
    /// A member's disk failed in it, by its fuse: the member is stopped, or still down where it was
    /// to be opened. Of a liar's bytes the rest was dropped.
    Failed,
    /// The event couldn't happen, for this reason, and changed nothing.
    Skipped(Reason),
}

/// Why an event was skipped: the first of these that holds.
#[derive(Clone, Copy, Debug, PartialEq, Eq)]
pub enum Reason {
    /// There is no such member, or no such question.
    NoSuch,
    /// A liar stands where a correct member is wanted, or the reverse.
    WrongSide,
    /// The member that is to act is down or stopped.
    NotUp,
    /// The member that is to be opened runs.
    Running,
    /// There is no statement at that place of the outbox, a group is to have none, or the link is
    /// broken.
    Nothing,
}

/// The file that a crash leaves, as a script says it.
#[derive(Clone, Copy)]
struct Left(Pick);

impl fmt::Display for Left {
    ghost use Rattle.std.specs.Prelude.{Some};
    ghost use Rattle.sim.specs.Texts.{pick_text};

    ghost output = { λ left. Some (pick_text left.0) };

    fn fmt<W: fmt::Write>(&self, f: &mut fmt::Formatter<W>) -> fmt::Result {
        match self.0 {
            Pick::Kept => f.write_str("kept"),
            Pick::Lost => f.write_str("lost"),
            Pick::Fill(byte) => {
                let bytes = [byte];
                let digits = Digits(bytes.as_slice());
                write!(f, "fill {digits}")
            }
        }
    }
}

/// Bytes that print in lower case hexadecimal digits.
#[derive(Clone, Copy)]
struct Digits<'a>(&'a [u8]);

impl fmt::Display for Digits<'_> {
    ghost use Rattle.std.specs.Prelude.{Some};
    ghost use Rattle.sim.specs.Texts.{hex_text};

    ghost output = { λ digits. Some (hex_text digits.0.now) };

    fn fmt<W: fmt::Write>(&self, f: &mut fmt::Formatter<W>) -> fmt::Result {
        for byte in self.0 {
            let byte = *byte;
            write!(f, "{byte:02x}")?;
        }
        Ok(())
    }
}
