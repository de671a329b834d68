//! The faults that end the program before its work is done.

ghost use Rattle.troubles.specs.declared.fault.Fault.TheVariants as ends;
ghost use Rattle.troubles.specs.Faults.{IsMeant, IsFileFault, fault_status, of_journal};
ghost use Rattle.std.specs.Prelude.{◌≡◌};

use chances::PlayFault;
use commands::{DumpFault, InitFault, MigrationFault, SimulateFault, TalkFault, Visible};
use hearing::HearFault;
use journal::JournalFault;
use machine::RunFault;
use settings::SettingsFault;
use std::alloc::{AllocError, AllocFailed};
use std::io;
use terms::SizeFault;
use thiserror::Error;
use transcripts::AuditFault;

/// Why a command ended before its work was done. The program prints the text after `bracha: ` and
/// ends with status 2 for the faults of the words, [`Fault::Argument`], [`Fault::SameFile`],
/// [`Fault::Timeout`], [`Fault::Words`], [`Fault::Question`], [`Fault::Member`], [`Fault::First`]
/// and [`Fault::Last`], and with status 1 for the others. What was printed before stays printed.
#[derive(Debug, Drop, Error)]
pub enum Fault {
    /// The argument at this place isn't UTF-8. The program's name has place 0.
    #[error("argument {0} is not UTF-8")]
    Argument(usize),
    /// A page would be written over the script, or over the other page: this path names that file.
    #[error("same file {}", Visible::of(.0.as_str()))]
    SameFile(String),
    /// The time that a client is to wait isn't one.
    #[error("timeout")]
    Timeout,
    /// The words of a command name neither of its forms.
    #[error("words")]
    Words,
    /// The question of a chart's rows: the script hasn't got it, or no chart is wanted.
    #[error("question")]
    Question,
    /// The member of a chart's rows: the script hasn't got it, or no chart is wanted.
    #[error("member")]
    Member,
    /// The first event of a chart's rows: it isn't one, it comes after the last, or no chart is
    /// wanted.
    #[error("from")]
    First,
    /// The last event of a chart's rows: it isn't one, or no chart is wanted.
    #[error("to")]
    Last,
    /// The numbers make no size.
    #[error("size {0}")]
    Size(#[from] SizeFault),
    /// A file couldn't be opened or read.
    #[error("file")]
    File,
    /// The settings aren't any.
    #[error(transparent)]
    Settings(#[from] SettingsFault),
    /// The fault that ended `hear`.
    #[error(transparent)]
    Hear(#[from] HearFault),
    /// The fault that ended `init`.
    #[error(transparent)]
    Init(#[from] InitFault),
    /// The fault that ended `dump` or `check`.
    #[error(transparent)]
    Dump(#[from] DumpFault),
    /// The fault that ended `migrate`.
    #[error(transparent)]
    Migrate(#[from] MigrationFault),
    /// The journal of a member that is to run couldn't be opened.
    #[error("journal {0}")]
    Journal(JournalFault),
    /// The token of a gateway isn't one, or others may read or write its file.
    #[error("token")]
    Token,
    /// What ended `run`, or an address at which a gateway can't listen.
    #[error(transparent)]
    Run(#[from] RunFault),
    /// The hosts of a new cluster aren't any, or not as many as members.
    #[error("hosts")]
    Hosts,
    /// The address of a desk, or of a gateway, isn't one.
    #[error("address")]
    Address,
    /// The fault that ended `propose`, `ask`, `status` or `transcript`.
    #[error(transparent)]
    Talk(#[from] TalkFault),
    /// The fault that ended `audit`.
    #[error(transparent)]
    Audit(#[from] AuditFault),
    /// The fault that ended `simulate`.
    #[error(transparent)]
    Simulate(#[from] SimulateFault),
    /// The end of `rounds`.
    #[error(transparent)]
    Play(#[from] PlayFault),
    /// The file of a trace couldn't be written.
    #[error("trace")]
    Trace,
    /// The file of a chart couldn't be written.
    #[error("chart")]
    Chart,
    /// The file of a page couldn't be written.
    #[error("page")]
    Page,
    /// A write of the output failed.
    #[error("stream")]
    Stream,
    /// Memory was refused.
    #[error("memory")]
    Memory,
}

impl Fault {
    /// The status to end with: 2 for a fault of the words, and 1 for any other.
    pub fn status(&self) -> u8
        ensures { result ≡ fault_status self.now }
    {
        match self {
            Fault::Argument(_) | Fault::SameFile(_) | Fault::Timeout | Fault::Words => 2,
            Fault::Question | Fault::Member | Fault::First | Fault::Last => 2,
            _ => 1,
        }
    }

    /// The fault of a file that couldn't be opened, read or written: this one, but for want of
    /// memory.
    pub fn of_file(self, error: io::Error) -> Fault
        ensures meant { IsMeant self result }
        ensures kind { IsFileFault self error result }
    {
        if error.kind() == io::ErrorKind::OutOfMemory {
            Fault::Memory
        } else {
            self
        }
    }
}

impl From<JournalFault> for Fault {
    ghost from_gives = { λ fault given. given ≡ of_journal fault };

    fn from(fault: JournalFault) -> Fault {
        match fault {
            JournalFault::Memory => Fault::Memory,
            other => Fault::Journal(other),
        }
    }
}

impl From<AllocError> for Fault {
    ghost from_gives = { λ _ given. given ≡ ends.Memory };

    fn from(_refused: AllocError) -> Fault {
        Fault::Memory
    }
}

impl<T: Drop> From<AllocFailed<T>> for Fault {
    ghost from_gives = { λ _ given. given ≡ ends.Memory };

    fn from(_refused: AllocFailed<T>) -> Fault {
        Fault::Memory
    }
}

impl From<io::Error> for Fault {
    ghost from_gives = { λ error given. IsFileFault ends.Stream error given };

    fn from(error: io::Error) -> Fault {
        Fault::Stream.of_file(error)
    }
}
