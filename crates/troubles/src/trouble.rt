//! The thing that a fault is about, and what is wrong with it.

ghost use Rattle.troubles.specs.Faults.{IsMeant, IsFileFault};
ghost use Rattle.troubles.specs.Troubles.{IsPrinted, IsTold};
ghost use Rattle.troubles.specs.declared.trouble.Whereabouts.TheVariants as whereabouts;
ghost use Rattle.std.specs.Prelude.{◌≡◌, IfSome, None, false, true, ⊤};

use crate::fault::Fault;
use commands::Visible;
use std::alloc::Global;
use std::{fmt, io};

/// The place where a thing went wrong, or what was tried on it.
#[derive(Clone, Copy, Debug, PartialEq, Eq)]
pub enum Whereabouts {
    /// All of it.
    Whole,
    /// This line, counted from 1.
    Line(usize),
    /// This byte, counted from 0.
    Byte(usize),
    /// The thing was to be opened for reading and writing.
    Open,
    /// The thing was to be read.
    Read,
    /// The thing was to be written.
    Write,
    /// A connection to it was to be made.
    Connect,
    /// Connections to it were to be taken in.
    Listen,
}

impl fmt::Display for Whereabouts {
    ghost use Rattle.std.specs.Prelude.{Some};
    ghost use Rattle.troubles.specs.Troubles.{place_text};

    ghost output = { λ place. Some (place_text place) };

    fn fmt<W: fmt::Write>(&self, f: &mut fmt::Formatter<W>) -> fmt::Result {
        match *self {
            Whereabouts::Whole => Ok(()),
            Whereabouts::Line(number) => write!(f, ":{number}"),
            Whereabouts::Byte(at) => write!(f, ": byte {at}"),
            Whereabouts::Open => f.write_str(": open"),
            Whereabouts::Read => f.write_str(": read"),
            Whereabouts::Write => f.write_str(": write"),
            Whereabouts::Connect => f.write_str(": connect"),
            Whereabouts::Listen => f.write_str(": listen"),
        }
    }
}

/// What can be told of the thing that a fault is about. Its text is the second line that is printed
/// of a fault where the words ask for it: the thing, in quotes if it has a character that no reader
/// sees, the place, and what is wrong there, as in `a.toml: read: Permission denied (os error 13)`.
#[derive(Debug, Drop)]
pub struct Trouble {
    /// The path of a file, or an address.
    pub thing: String,
    pub place: Whereabouts,
    /// The words for what is wrong: the system's, or the program's own.
    pub words: String,
}

impl fmt::Display for Trouble {
    ghost use Rattle.std.specs.Prelude.{Some, string_bytes};
    ghost use Rattle.troubles.specs.Troubles.{trouble_text};

    ghost output = { λ trouble. Some (trouble_text trouble) };

    fn fmt<W: fmt::Write>(&self, f: &mut fmt::Formatter<W>) -> fmt::Result {
        let thing = Visible::of(self.thing.as_str());
        write!(f, "{thing}{}: {}", self.place, self.words)
    }
}

/// A fault, and what can be told of the thing that it is about.
#[derive(Debug, Drop)]
pub struct Failure {
    pub fault: Fault,
    /// None too where there was no memory for it.
    pub trouble: Option<Trouble>,
}

impl From<Fault> for Failure {
    ghost from_gives = { λ fault given. given ≡ record { fault = fault; trouble = None } };

    fn from(fault: Fault) -> Failure {
        Failure {
            fault,
            trouble: None,
        }
    }
}

impl Failure {
    /// The fault at a place of a thing, and in these words what is wrong there.
    pub fn at<T: fmt::Display>(
        alloc: Global,
        fault: Fault,
        thing: &str,
        place: Whereabouts,
        words: &T,
    ) -> Failure
        ensures fault { result.fault ≡ fault }
        ensures told { IfSome result.trouble
            (IsTold thing.now (λ at. at ≡ place) (IsPrinted (T.output words.now))) }
    {
        Failure {
            fault,
            trouble: trouble_of(alloc, thing, place, words),
        }
    }

    /// The fault of a thing, in the fault's own words.
    pub fn about(alloc: Global, fault: Fault, thing: &str) -> Failure
        ensures fault { result.fault ≡ fault }
        ensures told { IfSome result.trouble
            (IsTold thing.now (λ at. at ≡ whereabouts.Whole) (λ _. ⊤)) }
    {
        let trouble = trouble_of(alloc, thing, Whereabouts::Whole, &fault);
        Failure { fault, trouble }
    }

    /// The fault, or want of memory, of a thing at which the system failed.
    pub fn of_system(
        alloc: Global,
        fault: Fault,
        thing: &str,
        place: Whereabouts,
        error: io::Error,
    ) -> Failure
        ensures meant { IsMeant fault result.fault }
        ensures kind { IsFileFault fault error result.fault }
        ensures told { IfSome result.trouble (IsTold thing.now (λ at. at ≡ place) (λ _. ⊤)) }
    {
        let trouble = trouble_of(alloc, thing, place, &error);
        Failure {
            fault: fault.of_file(error),
            trouble,
        }
    }

    /// The failure as it is told: its fault, and what can be told of it, but where that isn't
    /// wanted.
    pub fn told(self, quiet: bool) -> Failure
        ensures fault { result.fault ≡ self.fault }
        ensures told { quiet ≡ false → result ≡ self }
        ensures hushed { quiet ≡ true → result.trouble ≡ None }
    {
        if !quiet {
            return self;
        }
        Failure::from(self.fault)
    }
}

/// Returns what can be told at a place of a thing, where there is memory for it.
pub fn trouble_of<T: fmt::Display>(
    alloc: Global,
    thing: &str,
    place: Whereabouts,
    words: &T,
) -> Option<Trouble>
    ensures { IfSome result (IsTold thing.now (λ at. at ≡ place) (IsPrinted (T.output words.now))) }
{
    let thing = String::from_str(alloc, thing).ok()?;
    let words = format!(in alloc; "{words}").ok()?;
    Some(Trouble {
        thing,
        place,
        words,
    })
}
