//! The epochs that run.

ghost use Rattle.std.specs.Prelude.{◌≡◌, ◌≢◌, ℕ, ◌==◌, position, Option};
ghost use Rattle.std.specs.Option.{option_map};
ghost use Rattle.epochs.specs.Opens.{is_busy, takes_room};
ghost use Rattle.epochs.specs.Reports.{IsBeginning, is_quiet, is_resting, noted, place_in, quiet_after, readied, running_in};

use crate::board::{Doors, Report};

/// The seconds without progress after which an epoch behind the newest may end.
pub(crate) const QUIET: u64 = 10;

/// The same of one whose questions are all decided.
pub(crate) const COMPLETE: u64 = 2;

/// The seconds without progress after which nobody is dialled any more that doesn't dial.
pub(crate) const RESTING: u64 = 5;

/// An epoch that runs.
#[derive(Drop)]
pub(crate) struct Running {
    pub(crate) epoch: u64,
    pub(crate) doors: Doors,
    pub(crate) is_ready: bool,
    /// The progress that was reported last, and for how many seconds it has been so.
    pub(crate) progress: u64,
    pub(crate) quiet: u64,
    /// Nothing of it is open here, and nothing happens in it or all its questions are decided.
    pub(crate) rests: bool,
}

impl Running {
    /// An epoch with these doors, which begins to run.
    pub(crate) fn new(epoch: u64, doors: Doors) -> Running
        ensures begins { IsBeginning epoch result }
        ensures doors { result.doors ≡ doors }
    {
        Running {
            epoch,
            doors,
            is_ready: false,
            progress: 0,
            quiet: 0,
            rests: false,
        }
    }

    /// Returns `true` if it is behind that epoch, and takes the room of another.
    pub(crate) fn is_busy(&self, newest: u64) -> bool
        ensures { result ≡ is_busy newest self.now }
    {
        self.epoch < newest && self.takes_room()
    }

    /// Returns `true` if it takes the room of another epoch behind the newest: it doesn't rest, and
    /// something has happened in it within ten seconds.
    pub(crate) fn takes_room(&self) -> bool
        ensures { result ≡ takes_room self.now }
    {
        !self.rests && self.quiet < QUIET
    }

    /// Notes how it stands after another second.
    fn note(&mut self, report: Report)
        ensures { self.new ≡ noted report self.old }
    {
        self.quiet = quiet_after(report, self.progress, self.quiet);
        self.progress = report.progress;
        self.rests = is_resting(report, self.quiet);
    }
}

/// Returns for how many seconds the progress is that of the report.
fn quiet_after(report: Report, progress: u64, quiet: u64) -> u64
    ensures { result ≡ quiet_after report progress quiet }
{
    if progress == report.progress {
        quiet.saturating_add(1)
    } else {
        0
    }
}

/// Returns `true` if the epoch rests.
fn is_resting(report: Report, quiet: u64) -> bool
    ensures { result ≡ is_resting report quiet }
{
    !report.is_undone && (report.is_complete || quiet >= RESTING)
}

/// Returns `true` if the epoch may be done, after so many seconds without progress.
pub(crate) fn is_quiet(report: Report, quiet: u64) -> bool
    ensures { result ≡ is_quiet report quiet }
{
    quiet >= if report.is_complete { COMPLETE } else { QUIET }
}

/// Notes the report at the epoch, if it runs. Returns for how many seconds nothing has happened in
/// it, and whether it rests.
pub(crate) fn note_report(
    running: &mut Vec<Running>,
    epoch: u64,
    report: Report,
) -> Option<(u64, bool)>
    ensures noted { running_in running.new.items epoch
        ≡ option_map (noted report) (running_in running.old.items epoch) }
    ensures others { (other : ℕ) → other ≢ epoch →
        running_in running.new.items other ≡ running_in running.old.items other }
    ensures tells { result
        ≡ option_map (λ one. (one.quiet, one.rests)) (running_in running.new.items epoch) }
{
    let Some(at) = place_in(running.as_slice(), epoch) else {
        return None;
    };
    match running.get_mut(at) {
        Some(one) => {
            one.note(report);
            Some((one.quiet, one.rests))
        }
        None => None,
    }
}

/// Notes that the member of the epoch listens, if that runs.
pub(crate) fn note_ready(running: &mut Vec<Running>, epoch: u64)
    ensures noted { running_in running.new.items epoch
        ≡ option_map readied (running_in running.old.items epoch) }
    ensures others { (other : ℕ) → other ≢ epoch →
        running_in running.new.items other ≡ running_in running.old.items other }
{
    let Some(at) = place_in(running.as_slice(), epoch) else {
        return;
    };
    if let Some(one) = running.get_mut(at) {
        one.is_ready = true;
    }
}

/// Returns the place of the epoch among those that run.
pub(crate) fn place_in(running: &[Running], epoch: u64) -> Option<usize>
    ensures { result ≡ place_in running.now epoch }
{
    running.iter().position(|one| one.epoch == epoch)
}
