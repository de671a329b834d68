//! The log of a member that runs, on the standard error.

ghost use Rattle.std.specs.Fmt.{decimal};
ghost use Rattle.std.specs.Prelude.{ℕ, ◌≡◌, ◌++◌, None, codes, drop, true, false, IfOk, IfSome, option_map, string_bytes};
ghost use Rattle.system.specs.Logs.{bare_line, device_text, timed_line};
ghost use Rattle.process.specs.Moments.{IsMoment};
ghost use Rattle.system.specs.declared.log.LogForm.TheVariants as form;

use crate::objects::event_object;
use disk::FirstError;
use files::first_error_in;
use process::moment_text;
use running::{Log, LogEvent};
use std::alloc::{AllocError, Global};
use std::io::{self, Write};
use std::rt::Stderr;
use std::sync::Arc;
use std::sync::atomic::{AtomicBool, Ordering};
use std::time::{Clock, SystemTime, UNIX_EPOCH};

/// The form in which what happens to a member is told.
#[derive(Clone, Copy, Debug, PartialEq, Eq)]
pub enum LogForm {
    /// Nothing is told but that the member is stopped, in a line with no time.
    Silent,
    /// Each event is a line that begins with its time.
    Lines,
    /// Each event is an object of JSON in a line, which begins with its time, in a chain with its
    /// epoch.
    Objects,
}

/// Returns the form that the flags `--log` and `--log-json` ask for. Objects, if both are given.
pub fn log_form(log: bool, log_json: bool) -> LogForm
    ensures objects { log_json ≡ true → result ≡ form.Objects }
    ensures lines { log ≡ true → log_json ≡ false → result ≡ form.Lines }
    ensures silent { log ≡ false → log_json ≡ false → result ≡ form.Silent }
{
    if log_json {
        LogForm::Objects
    } else if log {
        LogForm::Lines
    } else {
        LogForm::Silent
    }
}

/// Returns the line of an event, with what the system said of the journal's file if that is known.
pub fn bare_line(
    alloc: Global,
    event: &LogEvent,
    device: Option<&str>,
) -> Result<String, AllocError>
    ensures { IfOk result
        (λ line. string_bytes line ≡ bare_line event.now
        (option_map (λ text. text.now) device.entry)) }
{
    let words = device_words(alloc, device)?;
    format!(in alloc; "{event}{words}\n")
}

/// Returns what stands behind an event in its line: what the system said of the journal's file if
/// that is known.
fn device_words(alloc: Global, device: Option<&str>) -> Result<String, AllocError>
    ensures { IfOk result
        (λ words. string_bytes words ≡ device_text (option_map (λ text. text.now) device.entry)) }
{
    match device {
        Some(text) => format!(in alloc; " device: {text}"),
        None => Ok(String::new(alloc)),
    }
}

/// Returns the same line with the time before it.
pub fn timed_line(
    alloc: Global,
    time: &str,
    event: &LogEvent,
    device: Option<&str>,
) -> Result<String, AllocError>
    ensures { IfOk result
        (λ line. string_bytes line ≡ timed_line time.now event.now
        (option_map (λ text. text.now) device.entry)) }
{
    let line = bare_line(alloc, event, device)?;
    format!(in alloc; "{time} {line}")
}

/// A log on the standard error: a line for each event, by one write, if lines are wanted. That the
/// member is stopped is told in any case, with what the system said if a call of its journal's file
/// failed, and is noted.
#[derive(Drop)]
pub struct ErrorLog<'a, R: Clock> {
    /// The clock that tells the time of a line when it is printed.
    pub clock: &'a R,
    /// Memory for lines.
    pub alloc: Global,
    /// The stream to which lines go.
    pub errors: Stderr,
    /// The form in which events are told.
    pub form: LogForm,
    /// Set once the member is stopped.
    pub stopped: &'a AtomicBool,
    /// The place for the system's error at the first call of the journal's file that fails.
    pub first_error: Option<Arc<FirstError>>,
    /// The epoch of the member, if it is one of a chain.
    pub epoch: Option<u64>,
}

impl<R: Clock> ErrorLog<'_, R> {
    /// Prints that the member is stopped, and why if that is known.
    fn print_stop(&mut self) -> io::Result<()> {
        let Some(error) = first_error_in(&self.first_error) else {
            return self.print(&LogEvent::Stopped, None);
        };
        let device = format!(in self.alloc; "{error}")?;
        self.print(&LogEvent::Stopped, Some(device.as_str()))
    }

    /// Prints an event, with what the system said of the journal's file if that is given.
    fn print(&mut self, event: &LogEvent, device: Option<&str>) -> io::Result<()> {
        let time = match self.form {
            LogForm::Silent => None,
            LogForm::Lines | LogForm::Objects => now_text(self.clock, self.alloc),
        };
        let time = match &time {
            Some(text) => Some(text.as_str()),
            None => None,
        };
        match self.form {
            LogForm::Silent => {
                let line = bare_line(self.alloc, event, device)?;
                self.errors.write_all(line.as_bytes())
            }
            LogForm::Lines => {
                let time = with_epoch(self.alloc, time.unwrap_or("-"), self.epoch)?;
                let line = timed_line(self.alloc, time.as_str(), event, device)?;
                self.errors.write_all(line.as_bytes())
            }
            LogForm::Objects => {
                let line = event_object(self.alloc, time, event, device)?;
                let line = object_with_epoch(self.alloc, line, self.epoch)?;
                self.errors.write_all(line.as_slice())
            }
        }
    }
}

impl<R: Clock> Log for ErrorLog<'_, R> {
    fn tell(&mut self, event: &LogEvent) {
        if *event == LogEvent::Stopped {
            let _lost = self.print_stop().is_err();
            self.stopped.store(true, Ordering::SeqCst);
        } else if self.form != LogForm::Silent {
            let _lost = self.print(event, None).is_err();
        }
    }
}

/// Returns the text of a moment that the clock gives, in UTC. `None` if it gives none, or one past
/// the year 9999.
fn now_text<R: Clock>(clock: &R, alloc: Global) -> Option<String>
    ensures { IfSome result
        (λ text. (milliseconds : ℕ) × IsMoment milliseconds (string_bytes text)) }
{
    let Ok(now) = SystemTime::now(clock) else {
        return None;
    };
    let Ok(since) = now.duration_since(UNIX_EPOCH) else {
        return None;
    };
    let Ok(milliseconds) = u64::try_from(since.as_millis()) else {
        return None;
    };
    match moment_text(alloc, milliseconds) {
        Ok(found) => found,
        Err(_) => None,
    }
}

/// Returns the time, and behind it the epoch of a member of a chain.
fn with_epoch(alloc: Global, time: &str, epoch: Option<u64>) -> Result<String, AllocError>
    ensures none { epoch ≡ None → IfOk result (λ text. string_bytes text ≡ time.now) }
    ensures some { IfSome epoch
        (λ epoch. IfOk result (λ text. string_bytes text ≡ time.now
        ++ (codes " epoch " ++ decimal epoch))) }
{
    match epoch {
        Some(epoch) => format!(in alloc; "{time} epoch {epoch}"),
        None => String::from_str(alloc, time),
    }
}

/// Returns the object of an event, with the epoch of a member of a chain as its first field.
fn object_with_epoch(
    alloc: Global,
    object: Vec<u8>,
    epoch: Option<u64>,
) -> Result<Vec<u8>, AllocError>
    ensures none { epoch ≡ None → IfOk result (λ bytes. bytes ≡ object) }
    ensures some { IfSome epoch
        (λ epoch. IfOk result (λ bytes. bytes.items
        ≡ (codes "{\"epoch\":" ++ (decimal epoch ++ codes ",")) ++ drop 1 object.items)) }
{
    let Some(epoch) = epoch else {
        return Ok(object);
    };
    let front = format!(in alloc; "{{\"epoch\":{epoch},")?;
    let mut bytes = Vec::new(alloc);
    bytes.extend_from_slice(front.as_bytes())?;
    bytes.extend_from_slice(behind_brace(object.as_slice()))?;
    Ok(bytes)
}

/// Returns what stands behind the first byte of an object.
fn behind_brace(object: &[u8]) -> &[u8]
    ensures { result.now ≡ drop 1 object.now }
{
    match object {
        [_, rest @ ..] => rest,
        [] => object,
    }
}
