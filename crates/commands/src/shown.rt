//! The command `simulate` as the program runs it: the pages are put somewhere, and then the
//! verdicts are printed.

ghost use Rattle.std.specs.Prelude.{◌≡◌, ◌≢◌, ◌↔◌, true, IfOk, IsTrue, OnOk, Err, string_bytes};
ghost use Rattle.std.specs.Io.KnownBytes.{Appends};
ghost use Rattle.script.specs.Scripts.{IsScript};
ghost use Rattle.commands.specs.declared.fault.SimulateFault.{SimulateFault};
ghost use Rattle.commands.specs.declared.simulate.Simulation.{Simulation};
ghost use Rattle.commands.specs.Faults.{IsOfSimulate, IsOfWriting};
ghost use Rattle.commands.specs.Pages.{IsOutcome};
ghost use Rattle.commands.specs.Simulations.{simulation_text};
ghost use Rattle.commands.specs.Shows.{wants_pages, AreSaid, TakesOutput};
ghost use Rattle.commands.specs.declared.shown.SimulationEnd.TheVariants as ends;

use crate::fault::SimulateFault;
use crate::simulate::{Simulation, counted_text, is_output, print_verdicts};
use std::alloc::Global;
use std::io::Write;

/// A place for the pages of a simulation.
pub trait Shelf {
    ghost use Rattle.std.specs.Prelude.{OnOk};
    ghost use Rattle.commands.specs.declared.simulate.Simulation.{Simulation};

    /// Why a page couldn't be put.
    type Fault;

    /// The pages of a simulation that were put on the shelf. One that says nothing of it may have
    /// anything.
    ghost has: { Simulation → Self → Type 0 } = { λ _ _. Unit {0} };

    /// Puts the pages of a simulation, those of them that are wanted.
    fn put(&mut self, alloc: Global, simulation: &Simulation) -> Result<(), Self::Fault>
        ensures { OnOk result (has simulation.now self.new) };
}

/// Why a simulation wasn't shown.
#[derive(Drop)]
pub enum SimulationEnd<F> {
    /// The text is no script that can be run, or memory was refused. Nothing was put or printed.
    Script(SimulateFault),
    /// A page couldn't be put. Nothing was printed.
    Page(F),
    /// The verdicts couldn't be printed.
    Printing(SimulateFault),
}

/// The paths of the pages that are wanted of a simulation, each `-` for the standard output.
#[derive(Clone, Copy, Debug)]
pub struct PagePaths<'a> {
    /// The path of the trace.
    pub trace: Option<&'a str>,
    /// The path of the chart.
    pub chart: Option<&'a str>,
    /// The path of the page that plays the run.
    pub play: Option<&'a str>,
}

/// The text of a script, and the paths of the pages that are wanted of its simulation.
#[derive(Clone, Copy)]
pub struct ScriptPages<'a> {
    /// The text.
    pub text: &'a [u8],
    /// The paths.
    pub paths: PagePaths<'a>,
}

/// Runs the script over empty disks in memory, puts its pages on the shelf if one has a path, and
/// only then prints its outcome as [`crate::simulate_text`] does: to the output, or aside, where
/// the path of a page is `-`. The status is 0.
pub fn show_simulation<S: Shelf, W: Write, E: Write>(
    alloc: Global,
    script: &ScriptPages<'_>,
    shelf: &mut S,
    output: &mut W,
    errors: &mut E,
) -> Result<u8, SimulationEnd<S::Fault>>
    ensures status { IfOk result (λ status. status ≡ 0) }
    // What was put and is printed is of a simulation of the script that the text says, which is a
    // run of the world.
    ensures all { OnOk result
        ((simulation : Simulation) × IsScript script.now.text.now simulation.script
        × IsOutcome simulation.script simulation.outcome
        × (wants_pages script.now.paths ≡ true → S.has simulation shelf.new)
        × AreSaid script.now.paths (Appends (W.contents output.old) (W.contents output.new)
        (simulation_text simulation.outcome))
        (Appends (E.contents errors.old) (E.contents errors.new)
        (simulation_text simulation.outcome))) }
    // The other writer is left alone.
    ensures no_output { TakesOutput script.now.paths → output.new ≡ output.old }
    ensures no_errors { (TakesOutput script.now.paths → ⊥) → errors.new ≡ errors.old }
    // A fault of the script comes before anything is put or printed, and one of a page before
    // anything is printed.
    ensures script { (fault : SimulateFault) → result ≡ Err (ends.Script fault) →
        IsOfSimulate script.now.text.now fault }
    ensures unput { (fault : SimulateFault) → result ≡ Err (ends.Script fault) →
        shelf.new ≡ shelf.old }
    ensures unprinted { (fault : SimulateFault) → result ≡ Err (ends.Script fault) →
        (output.new ≡ output.old) × (errors.new ≡ errors.old) }
    ensures page { (fault : S.Fault) → result ≡ Err (ends.Page fault) → (output.new ≡ output.old)
        × (errors.new ≡ errors.old) }
    ensures printing { (fault : SimulateFault) → result ≡ Err (ends.Printing fault) →
        IsOfWriting fault }
{
    let verdicts = match play(alloc, script.text, has_pages(&script.paths), shelf) {
        Ok(verdicts) => verdicts,
        Err(end) => return Err(end),
    };
    let aside = takes_any(&script.paths);
    match print_verdicts(aside, verdicts.as_str(), output, errors) {
        Ok(status) => Ok(status),
        Err(fault) => Err(SimulationEnd::Printing(fault)),
    }
}

/// The text of a simulation's outcome, once its pages are put where any is wanted. Where none is,
/// the events are played as they are read, and nothing of them is kept but their counts.
fn play<S: Shelf>(
    alloc: Global,
    text: &[u8],
    has_pages: bool,
    shelf: &mut S,
) -> Result<String, SimulationEnd<S::Fault>>
    ensures all { IfOk result
        (λ made. (simulation : Simulation) × IsScript text.now simulation.script
        × IsOutcome simulation.script simulation.outcome
        × (has_pages ≡ true → S.has simulation shelf.new)
        × (string_bytes made ≡ simulation_text simulation.outcome)) }
    ensures script { (fault : SimulateFault) → result ≡ Err (ends.Script fault) →
        IsOfSimulate text.now fault }
    ensures unput { (fault : SimulateFault) → result ≡ Err (ends.Script fault) →
        shelf.new ≡ shelf.old }
    ensures no_printing { (fault : SimulateFault) → result ≢ Err (ends.Printing fault) }
{
    if has_pages {
        return put_pages(alloc, text, shelf);
    }
    match counted_text(alloc, text) {
        Ok(verdicts) => Ok(verdicts),
        Err(fault) => Err(SimulationEnd::Script(fault)),
    }
}

/// Returns `true` if a page has a path.
fn has_pages(paths: &PagePaths<'_>) -> bool
    ensures { result ≡ wants_pages paths.now }
{
    paths.trace.is_some() || paths.chart.is_some() || paths.play.is_some()
}

/// Runs the script over empty disks in memory, and puts its pages on the shelf. The text of its
/// outcome comes out.
fn put_pages<S: Shelf>(
    alloc: Global,
    text: &[u8],
    shelf: &mut S,
) -> Result<String, SimulationEnd<S::Fault>>
    ensures all { IfOk result
        (λ made. (simulation : Simulation) × IsScript text.now simulation.script
        × IsOutcome simulation.script simulation.outcome × S.has simulation shelf.new
        × (string_bytes made ≡ simulation_text simulation.outcome)) }
    ensures script { (fault : SimulateFault) → result ≡ Err (ends.Script fault) →
        IsOfSimulate text.now fault }
    ensures unput { (fault : SimulateFault) → result ≡ Err (ends.Script fault) →
        shelf.new ≡ shelf.old }
    ensures no_printing { (fault : SimulateFault) → result ≢ Err (ends.Printing fault) }
{
    let simulation = match Simulation::run(alloc, text) {
        Ok(simulation) => simulation,
        Err(fault) => return Err(SimulationEnd::Script(fault)),
    };
    let Ok(verdicts) = simulation.verdicts(alloc) else {
        return Err(SimulationEnd::Script(SimulateFault::Memory));
    };
    match shelf.put(alloc, &simulation) {
        Ok(()) => Ok(verdicts),
        Err(fault) => Err(SimulationEnd::Page(fault)),
    }
}

/// Returns `true` if a page takes the standard output.
fn takes_any(paths: &PagePaths<'_>) -> bool
    ensures { IsTrue result ↔ TakesOutput paths.now }
{
    is_output(paths.trace) || is_output(paths.chart) || is_output(paths.play)
}
