//! The engine as a C library. `include/bracha.h` declares these functions, and says what C owes
//! them.
#![tactic(auto)]

ghost use Rattle.std.specs.Prelude.{◌≡◌, ◌≢◌, ◌⊎◌, ◌*◌, ◌<◌, ◌≤◌, ℕ, List, None, true, pos, IfOk, IfErr};
ghost use Rattle.terms_prelude.specs.Terms.{Proposal, Record, Statement, decided, new_size};
ghost use Rattle.questions.specs.Readers.{CoreStandsFor, core_size, core_failed};
ghost use Rattle.engine.specs.Outcomes.{core_of, Opens, OpensNothing};
ghost use Rattle.bracha_c.specs.Answers.{HeardAs, NotHeard, Replied, NotReplied, TellsDecision, OpenedAs, WrongSize, NotOpened, AuditedAs, NotAudited};

mod batches;
mod feeder_handle;
mod feeders;
mod frames;
mod handle;
mod status;
mod toss_handle;
mod tosses;

use engine::{Engine, EngineFault, MOST_BYTES, audit_bytes};
pub use feeder_handle::FeederHandle;
pub use handle::{Handle, Hidden};
use rounds::Toss;
use status::{status_of, status_of_fault, status_of_size, status_of_yes};
use std::alloc::Global;
use terms::Size;
pub use toss_handle::TossHandle;

/// The number of this interface: it is raised where a call's meaning or form changes.
#[unsafe(no_mangle)]
pub extern "C" fn bracha_abi() -> u32
    ensures { result ≡ 1 }
{
    1
}

/// The version of this library, as 0x00MMmmpp: 0.3.0.
#[unsafe(no_mangle)]
pub extern "C" fn bracha_version() -> u32
    ensures { result ≡ 3 * 256 }
{
    0x000300
}

/// A decision, as C sees it.
#[repr(C)]
#[derive(Drop)]
pub struct Decision {
    /// 1 to 32.
    pub round: u8,
    /// 0 or 1.
    pub bit: u8,
}

/// Opens the core of member `me`, with the records that it saved in earlier lives, seven bytes
/// each. `*core` is written only if the answer is 0.
#[unsafe(no_mangle)]
pub extern "C" fn bracha_core_open(
    alloc: Global,
    core: &mut *mut Hidden,
    n: u8,
    t: u8,
    questions: u16,
    me: u8,
    records: &[u8],
) -> i32
    ensures status { OpenedAs n t questions me records.now result ⊎ WrongSize n t questions result
        ⊎ NotOpened n t questions me records.now result }
    ensures same { result ≢ pos 0 → core.new ≡ core.old }
{
    let size = match Size::new(n, t, questions) {
        Ok(size) => size,
        Err(fault) => return status_of_size(fault),
    };
    match open_box(alloc, size, me, records) {
        Ok(engine) => {
            *core = handle::hand_out(engine);
            0
        }
        Err(fault) => status_of_fault(fault),
    }
}

/// A box of the engine.
fn open_box(alloc: Global, size: Size, me: u8, records: &[u8]) -> Result<Box<Engine>, EngineFault>
    ensures opened { IfOk result (λ engine. Opens size me records.now (core_of engine.value)) }
    ensures fault { IfErr result (λ fault. OpensNothing size me records.now fault) }
{
    let engine = match Engine::open(alloc, size, me, records) {
        Ok(engine) => engine,
        Err(fault) => return Err(fault),
    };
    match Box::new(alloc, engine) {
        Ok(engine) => Ok(engine),
        Err(_) => Err(EngineFault::Memory),
    }
}

/// Closes a core.
#[unsafe(no_mangle)]
pub extern "C" fn bracha_core_close(core: Handle) {
    drop(core.into_box());
}

/// Hears the seven bytes of a statement from the member `from`, and writes the records that are due
/// to the front of `records`, and how many there are to `*count`.
#[unsafe(no_mangle)]
pub extern "C" fn bracha_core_hear(
    core: &mut Handle,
    from: u8,
    statement: &[u8; 7],
    toss: u64,
    records: &mut [u8; MOST_BYTES],
    count: &mut usize,
) -> i32
    ensures { HeardAs (core_of core.old.engine)
        (core_of core.new.engine) toss from statement.now result count.new records.old records.new
        ⊎ NotHeard (core_of core.old.engine)
        (core_of core.new.engine) from statement.now result count.new records.old records.new }
{
    match core.engine().hear(from, statement, Toss(toss), records) {
        Ok(told) => {
            *count = told.records;
            status_of(told.outcome)
        }
        Err(fault) => {
            *count = 0;
            status_of_fault(fault)
        }
    }
}

/// Takes a bit that is proposed for the question, and writes the records that are due as
/// `bracha_core_hear` does.
#[unsafe(no_mangle)]
pub extern "C" fn bracha_core_propose(
    core: &mut Handle,
    question: u16,
    bit: bool,
    toss: u64,
    records: &mut [u8; MOST_BYTES],
    count: &mut usize,
) -> i32
    ensures { Replied (core_of core.old.engine) (core_of core.new.engine) toss
        (Proposal question bit) result count.new records.old records.new
        ⊎ NotReplied (core_of core.old.engine) (core_of core.new.engine)
        (Proposal question bit) result count.new records.old records.new }
{
    match core.engine().propose(question, bit, Toss(toss), records) {
        Ok(told) => {
            *count = told.records;
            status_of(told.outcome)
        }
        Err(fault) => {
            *count = 0;
            status_of_fault(fault)
        }
    }
}

/// The first decision of the question, if there is one: whether `*decision` was written. The core
/// is as it was.
#[unsafe(no_mangle)]
pub extern "C" fn bracha_core_verdict(
    core: &mut Handle,
    question: u16,
    decision: &mut Decision,
) -> bool
    ensures known { (records : List Record) (heard : List (ℕ × Statement)) →
        CoreStandsFor (core_of core.old.engine) records heard →
        question < (core_size (core_of core.old.engine)).questions →
        TellsDecision (decided records question) result decision.old decision.new }
    ensures unknown { (core_size (core_of core.old.engine)).questions ≤ question →
        TellsDecision None result decision.old decision.new }
    ensures failed { core_failed (core_of core.old.engine) ≡ true →
        TellsDecision None result decision.old decision.new }
    ensures same { core.new.engine ≡ core.old.engine }
{
    let known = core.engine().verdict(question);
    tell(known, decision)
}

/// Writes a decision that there may be, and tells whether there is one.
fn tell(known: Option<(u8, bool)>, decision: &mut Decision) -> bool
    ensures { TellsDecision known result decision.old decision.new }
{
    match known {
        Some((round, bit)) => {
            *decision = Decision {
                round,
                bit: u8::from(bit),
            };
            true
        }
        None => false,
    }
}

/// Tells if senders and statements, eight bytes each, are proof of the bit: 1 or 0, or why there is
/// no answer.
#[unsafe(no_mangle)]
pub extern "C" fn bracha_audit(
    alloc: Global,
    n: u8,
    t: u8,
    questions: u16,
    question: u16,
    bit: bool,
    pairs: &[u8],
) -> i32
    ensures { AuditedAs n t questions question bit pairs.now result ⊎ WrongSize n t questions result
        ⊎ NotAudited n t questions pairs.now result }
{
    let size = match Size::new(n, t, questions) {
        Ok(size) => size,
        Err(fault) => return status_of_size(fault),
    };
    match audit_bytes(alloc, size, question, bit, pairs) {
        Ok(yes) => status_of_yes(yes),
        Err(fault) => status_of_fault(fault),
    }
}
