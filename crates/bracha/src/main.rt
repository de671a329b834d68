//! The program `bracha`: reads its words, does the command's work, and prints what is wrong.
#![tactic(auto)]

ghost use Rattle.bracha.specs.Faults.{IsCodeOf};
ghost use Rattle.clap.specs.Words.{kind_of};
ghost use Rattle.clap.specs.declared.error.kind.ErrorKind.TheVariants.{DisplayHelp, DisplayVersion};
ghost use Rattle.std.specs.Prelude.{◌≡◌, ◌≢◌, ◌⊎◌, IfOk};

mod work;

use crate::work::work;
use asking::Caller;
use clap::error::ErrorKind;
use command_line::command;
use files::number_words;
use process::{HeldStreams, hold_streams};
use std::io;
use std::net::{TcpListener, TcpStream};
use std::process::ExitCode;
use troubles::{Failure, Fault, own_words, wants_quiet};

fn main(rt: HostRuntime) -> io::Result<ExitCode> {
    let _sockets = no_sockets();
    let held = hold_streams(&rt)?;
    end(&rt, run(&rt, &rt, &held))
}

/// No sockets. The check of a function that takes the runtime as one with sockets wants it to name
/// their types.
fn no_sockets() -> (Option<TcpListener>, Option<TcpStream>) {
    (None, None)
}

/// Prints what is wrong, if anything is, and gives the code to end with: the status of what was
/// done, or of the fault.
fn end(rt: &HostRuntime, ended: Result<u8, Failure>) -> io::Result<ExitCode>
    ensures { IfOk result (IsCodeOf ended) }
{
    match ended {
        Ok(status) => Ok(ExitCode::from(status)),
        Err(failure) => {
            // Where standard error is closed or full, the status tells alone.
            let _unsaid = print_failure(rt, &failure).is_err();
            Ok(ExitCode::from(failure.fault.status()))
        }
    }
}

/// Prints the line of a fault, and behind it the line of what can be told.
fn print_failure(rt: &HostRuntime, failure: &Failure) -> io::Result<()> {
    eprintln!(rt; "bracha: {}", failure.fault)?;
    match &failure.trouble {
        Some(trouble) => eprintln!(rt; "{trouble}"),
        None => Ok(()),
    }
}

/// Does what the words ask for with which the program was started, while no file can get the number
/// of a standard stream. Help, the version and faults of the words are printed here. What can be
/// told of a failure is told, but where the words or the environment ask for its first line alone.
fn run<R: Caller>(rt: &R, host: &HostRuntime, _held: &HeldStreams) -> Result<u8, Failure> {
    let words = own_words(host, host.alloc())?;
    match command(host.alloc(), words.as_slice()) {
        Ok(order) => {
            let quiet = order.quiet || wants_quiet(host);
            match work(rt, host, order.task, quiet) {
                Ok(status) => Ok(status),
                Err(failure) => Err(failure.told(quiet)),
            }
        }
        Err(error) if error.kind() == ErrorKind::OutOfMemory => Err(Failure::from(Fault::Memory)),
        Err(error) => {
            let status = status_of(&error);
            match print_words(host, &error) {
                Err(unsaid) if status == 0 => Err(Failure::from(Fault::from(unsaid))),
                _ => Ok(status),
            }
        }
    }
}

/// Prints help, the version or a fault of the words.
fn print_words(host: &HostRuntime, error: &clap::Error) -> io::Result<()> {
    error.print(host)?;
    print_number(host, error)
}

/// Prints what a number of the words has to be, if the error is about one and the environment
/// doesn't ask for less.
fn print_number(host: &HostRuntime, error: &clap::Error) -> io::Result<()> {
    if error.kind() != ErrorKind::ValueValidation || wants_quiet(host) {
        return Ok(());
    }
    let Ok(said) = format!(in host.alloc(); "{error}") else {
        return Ok(());
    };
    match number_words(said.as_str()) {
        Some(words) => eprintln!(host; "{words}"),
        None => Ok(()),
    }
}

/// The status to end with where the words ask for nothing to be done: 0 for the help and the
/// version, 2 for a fault of the words.
fn status_of(error: &clap::Error) -> u8
    ensures shown { (kind_of error.now ≡ DisplayHelp) ⊎ (kind_of error.now ≡ DisplayVersion) →
        result ≡ 0 }
    ensures fault { kind_of error.now ≢ DisplayHelp → kind_of error.now ≢ DisplayVersion →
        result ≡ 2 }
{
    error.exit_code() as u8
}
