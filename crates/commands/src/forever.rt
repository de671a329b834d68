//! Drawn scripts, each played and judged by the trace that is printed of it.

ghost use Rattle.std.specs.Prelude.{◌≡◌, IfOk, string_bytes};
ghost use Rattle.commands.specs.Pages.{trace_of};
ghost use Rattle.commands.specs.Trials.{IsJudged};

use crate::fault::SimulateFault;
use crate::simulate::Simulation;
use std::alloc::Global;
use trials::{Judgement, Trial, drawn, judge};

/// A drawn script that was played, and what the judge says of it.
#[derive(Drop)]
pub struct Tried {
    /// The script.
    pub script: String,
    /// The number of its events.
    pub events: usize,
    /// The judgement of its trace.
    pub judgement: Judgement,
}

/// Plays the script of this number that the seed draws, and judges the trace that `simulate` prints
/// of it.
///
/// # Errors
///
/// - [`SimulateFault::Memory`] if an allocation failed;
/// - one of the others if the simulator doesn't take the script that was drawn.
pub fn try_script(alloc: Global, seed: u64, number: u64) -> Result<Tried, SimulateFault> {
    try_trial(alloc, drawn(alloc, seed, number)?)
}

/// Plays the script, and judges the trace that `simulate` prints of it.
fn try_trial(alloc: Global, trial: Trial) -> Result<Tried, SimulateFault>
    ensures { IfOk result
        (λ tried. IsJudged (string_bytes trial.text) trial.least tried.judgement) }
{
    let simulation = Simulation::run(alloc, trial.text.as_bytes())?;
    let trace = trace(alloc, &simulation)?;
    let judgement = judge(alloc, &trace, trial.least)?;
    Ok(Tried {
        script: trial.text,
        events: simulation.script.events.len(),
        judgement,
    })
}

/// Returns the trace that `simulate` prints of a run.
fn trace(alloc: Global, simulation: &Simulation) -> Result<Vec<u8>, SimulateFault>
    ensures { IfOk result (λ bytes. bytes.items ≡ trace_of simulation.now) }
{
    let mut trace = Vec::new(alloc);
    simulation.write_trace(alloc, &mut trace)?;
    Ok(trace)
}
