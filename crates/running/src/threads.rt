//! A trial of the threads that the system gives a member.

ghost use Rattle.std.specs.Prelude.{◌≡◌};
ghost use Rattle.running.specs.Threads.{least_threads, one_if};

use machine::Machine;
use std::sync::{Condvar, Mutex};
use std::thread;
use terms::Size;

/// Counts the threads of a member that takes part: a dialler for each member, a reader for each of
/// n - t links, the clock, one at each of two doors, one for a client and one for all followers;
/// one more for a log, and for a door of this machine.
pub(crate) fn least_threads(size: Size, has_log: bool, has_local: bool) -> u32
    ensures { result ≡ least_threads size has_log has_local }
{
    size.recall();
    let (n, t) = (u32::from(size.n()), u32::from(size.t()));
    n + (n - t) + 5 + one_if(has_log) + one_if(has_local)
}

/// Returns 1 for what is wanted, and else 0.
fn one_if(is_wanted: bool) -> u32
    ensures { result ≡ one_if is_wanted }
{
    if is_wanted { 1 } else { 0 }
}

/// Tries whether the system gives so many threads at once: starts them, and ends them.
pub(crate) fn can_start<R: Machine>(rt: &R, count: u32) -> bool {
    let tried = Trial {
        is_over: Mutex::new(false),
        ended: Condvar::new(),
    };
    let trial = &tried;
    thread::scope(thread::scope_env(), rt, |scope| {
        let mut started = 0u32;
        for _ in 0..count {
            if scope.spawn(move || trial.wait(rt)).is_err() {
                break;
            }
            started = started.saturating_add(1);
        }
        trial.end(rt);
        started == count
    })
}

/// Threads that do nothing until their trial is over.
#[derive(Drop)]
struct Trial {
    is_over: Mutex<bool>,
    ended: Condvar,
}

impl Trial {
    /// Waits until the trial is over.
    fn wait<R: Machine>(&self, rt: &R) {
        let mut is_over = self.is_over.lock(rt);
        for _ in rt.forever() {
            if *is_over {
                return;
            }
            is_over = self.ended.wait(rt, is_over);
        }
        unreachable!()
    }

    /// Ends the trial.
    fn end<R: Machine>(&self, rt: &R) {
        let mut is_over = self.is_over.lock(rt);
        *is_over = true;
        self.ended.notify_all();
    }
}
