//! The command `simulate`: a script's cluster, run in memory.

ghost use Rattle.std.specs.Prelude.{◌≡◌, ◌⊎◌, ◌↔◌, ◌+◌, ◌≤◌, ◌++◌, ℕ, List, [], length, map, false, true, Err, IfOk, IfErr, IsTrue, OnOk, Some, codes, option_map, string_bytes};
ghost use Rattle.std.specs.List.{flat_map};
ghost use Rattle.std.specs.Io.KnownBytes.{Appends};
ghost use Rattle.script.specs.declared.Script.{Script};
ghost use Rattle.sim.specs.declared.cluster.Outcome.{Outcome};
ghost use Rattle.terms_prelude.specs.Terms.{Size};
ghost use Rattle.sim.specs.declared.TheConstants.{MOST_EVENTS};
ghost use Rattle.sim.specs.Outcomes.{AreDisks, among, fused_in};
ghost use Rattle.sim.specs.Plays.{ClusterStandsFor, unplayed};
ghost use Rattle.script.specs.Acts.{TossedAct, tossed_act};
ghost use Rattle.commands.specs.Counts.{CountsPlayed};
ghost use Rattle.script.specs.Scripts.{IsScript};
ghost use Rattle.commands.specs.Faults.{IsOfSimulate, IsOfWriting};
ghost use Rattle.commands.specs.declared.fault.SimulateFault.{SimulateFault};
ghost use Rattle.commands.specs.Pages.{IsOutcome};
ghost use Rattle.commands.specs.Simulations.{verdict_line, line_of_counts, simulation_text, skipped};

use crate::fault::SimulateFault;
use disk::MemDisk;
use numerals::is;
use playing::{Template, write_page};
use report::{Choice, Run, is_skipped, write_chart, write_trace};
use script::{Script, Source};
use sim::{Cluster, Event, Mark, Outcome, SimFault};
use std::alloc::{AllocError, Global};
use std::io::{self, Write};
use terms::{Memory, Size};

/// A script that was run over empty disks in memory, and what came of it.
#[derive(Drop)]
pub struct Simulation {
    /// The script.
    pub script: Script,
    /// The outcome: of each event what became of it and what was saved, and the verdicts.
    pub outcome: Outcome,
}

impl Simulation {
    ghost use Rattle.std.specs.Prelude.{ℕ, List, ◌≡◌, ◌≤◌, IfOk, IfErr, OnOk, length, string_bytes};
    ghost use Rattle.std.specs.Io.KnownBytes.{Appends};
    ghost use Rattle.sim.specs.declared.TheConstants.{MOST_EVENTS};
    ghost use Rattle.script.specs.Scripts.{IsScript};
    ghost use Rattle.commands.specs.Faults.{IsOfSimulate};
    ghost use Rattle.commands.specs.Pages.{IsOutcome, trace_of, IsChartOf, page_of};
    ghost use Rattle.commands.specs.Simulations.{simulation_text};

    /// Reads the script, and runs it over empty disks in memory.
    ///
    /// [`SimulateFault::Line`], [`SimulateFault::Size`] and [`SimulateFault::Events`] for a text
    /// that is no script, [`SimulateFault::Sim`] for a script that can't be run,
    /// [`SimulateFault::Memory`] where a growth failed.
    pub fn run(alloc: Global, text: &[u8]) -> Result<Simulation, SimulateFault>
        ensures says { IfOk result (λ ran. IsScript text.now ran.script) }
        ensures few { IfOk result (λ ran. length ran.script.events.items ≤ MOST_EVENTS) }
        ensures run { IfOk result (λ ran. IsOutcome ran.script ran.outcome) }
        ensures only { IfErr result (IsOfSimulate text.now) }
    {
        let script = script::read(alloc, text)?;
        let disks = empty_disks(alloc, script.size)?;
        let outcome = sim::run(alloc, script.size, &script.liars, disks, &script.events)?;
        Ok(Simulation { script, outcome })
    }

    /// The text of its outcome: for each verdict, by member and then by question, `member M
    /// question Q round R bit B`, and last `events E skipped S`.
    pub fn verdicts(&self, alloc: Global) -> Result<String, AllocError>
        ensures { IfOk result (λ text. string_bytes text ≡ simulation_text self.now.outcome) }
    {
        let counts = EventCounts {
            events: self.outcome.marks.len(),
            skipped: skipped(&self.outcome.marks),
        };
        outcome_text(alloc, &self.outcome.verdicts, counts)
    }

    /// Writes its trace, a line for each event, as it is made. The errors are those of
    /// [`write_trace`].
    pub fn write_trace<W: Write>(&self, alloc: Global, output: &mut W) -> io::Result<()>
        ensures { OnOk result
            (Appends (W.contents output.old) (W.contents output.new) (trace_of self.now)) }
    {
        write_trace(
            alloc,
            &self.script.events,
            &self.outcome.marks,
            &self.outcome.saved,
            output,
        )
    }

    /// Writes its chart with the events that are chosen, a picture in SVG, as it is made, and
    /// returns how many rows the chart has. The errors are those of [`write_chart`].
    pub fn write_chart<W: Write>(
        &self,
        alloc: Global,
        choice: Choice,
        output: &mut W,
    ) -> io::Result<u64>
        ensures { length self.now.script.events.items ≤ MOST_EVENTS →
            IfOk result (λ rows. (picture : List ℕ) × IsChartOf choice self.now rows picture
            × Appends (W.contents output.old) (W.contents output.new) picture) }
    {
        let run = Run {
            size: self.script.size,
            liars: &self.script.liars,
            events: &self.script.events,
            marks: &self.outcome.marks,
            saved: &self.outcome.saved,
        };
        write_chart(alloc, &run, choice, output)
    }

    /// Writes the page that plays it, between the parts of the template and with this name, as it
    /// is made. The errors are those of [`write_page`].
    pub fn write_page<W: Write>(
        &self,
        alloc: Global,
        name: &str,
        template: &Template<'_>,
        output: &mut W,
    ) -> io::Result<()>
        ensures { OnOk result (Appends (W.contents output.old) (W.contents output.new)
            (page_of template.now.before.now template.now.after.now name.now self.now)) }
    {
        let run = playing::Run {
            name,
            size: self.script.size,
            liars: self.script.liars.as_slice(),
            events: self.script.events.as_slice(),
            outcome: &self.outcome,
        };
        write_page(alloc, &run, template, output)
    }
}

/// Writes the text. The status is 0. [`SimulateFault::Stream`] and [`SimulateFault::Memory`]: the
/// write failed.
pub fn print<W: Write>(text: &str, output: &mut W) -> Result<u8, SimulateFault>
    ensures status { IfOk result (λ status. status ≡ 0) }
    ensures all { OnOk result (Appends (W.contents output.old) (W.contents output.new) text.now) }
    ensures only { IfErr result IsOfWriting }
{
    output.write_all(text.as_bytes())?;
    output.flush()?;
    Ok(0)
}

/// Runs the script over empty disks in memory, and writes its outcome: for each verdict, by member
/// and then by question, `member M question Q round R bit B`, and last `events E skipped S`. The
/// status is 0.
///
/// [`SimulateFault::Line`], [`SimulateFault::Size`] and [`SimulateFault::Events`] for a text that
/// is no script, [`SimulateFault::Sim`] for a script that can't be run: nothing was written.
/// [`SimulateFault::Stream`] and [`SimulateFault::Memory`]: the write or a growth failed.
pub fn simulate_text<W: Write>(
    alloc: Global,
    text: &[u8],
    output: &mut W,
) -> Result<u8, SimulateFault>
    ensures status { IfOk result (λ status. status ≡ 0) }
    // What is written is the text of a simulation of the script that the text says, which is a run
    // of the world.
    ensures all { OnOk result ((script : Script) × (outcome : Outcome)
        × IsScript text.now script × IsOutcome script outcome
        × Appends (W.contents output.old) (W.contents output.new) (simulation_text outcome)) }
    // A fault of the script comes before anything is written.
    ensures nothing { (fault : SimulateFault) → result ≡ Err fault → (IsOfWriting fault → ⊥) →
        output.new ≡ output.old }
    ensures only { IfErr result (IsOfSimulate text.now) }
{
    let verdicts = counted_text(alloc, text)?;
    print(verdicts.as_str(), output)
}

/// Plays the script over empty disks in memory, keeps nothing of its events but their counts, and
/// makes the text of its outcome. The faults are those of [`Simulation::run`].
pub(crate) fn counted_text(alloc: Global, text: &[u8]) -> Result<String, SimulateFault>
    ensures all { IfOk result
        (λ made. (script : Script) × (outcome : Outcome) × IsScript text.now script
        × IsOutcome script outcome × (string_bytes made ≡ simulation_text outcome)) }
    ensures only { IfErr result (IsOfSimulate text.now) }
{
    let mut source = Source::of(alloc, text)?;
    let disks = empty_disks(alloc, source.size())?;
    let mut cluster = Cluster::open(alloc, source.size(), source.liars(), disks)?;
    let counts = play_all(alloc, &mut source, &mut cluster)?;
    let verdicts = cluster.verdicts(alloc)?;
    Ok(outcome_text(alloc, &verdicts, counts)?)
}

/// An empty disk for each member, without a fuse.
fn empty_disks(alloc: Global, size: Size) -> Result<Vec<MemDisk>, Memory>
    ensures empty { IfOk result (λ disks. AreDisks size disks.items) }
    ensures no_fuse { IfOk result (λ disks. (p : ℕ) → fused_in disks.items p ≡ false) }
{
    let mut disks = Vec::new(alloc);
    for _ in 0..size.n() {
        disks.push(MemDisk::new(alloc))?;
    }
    Ok(disks)
}

/// Plays a script's events as they are made, and counts them. It keeps no more of them than the
/// source has at a time.
fn play_all(
    alloc: Global,
    source: &mut Source,
    cluster: &mut Cluster,
) -> Result<EventCounts, SimulateFault>
    requires few { length source.old.left ≤ MOST_EVENTS }
    ensures counted { (size : Size) (liars : List ℕ) →
        ClusterStandsFor (unplayed size (among liars) (λ p. false)) cluster.old →
        IfOk result (λ counts. CountsPlayed size liars source.old.left [] cluster.new counts.events
        counts.skipped) }
    ensures memory { (size : Size) (liars : List ℕ) →
        ClusterStandsFor (unplayed size (among liars) (λ p. false)) cluster.old →
        IfErr result (λ fault. fault ≡ SimulateFault.Memory) }
{
    let mut counts = EventCounts {
        events: 0,
        skipped: 0,
    };
    'batches: while source.more(alloc)? {
        counts = play_batch(alloc, cluster, source.batch(), counts)?;
    }
    Ok(counts)
}

/// Plays events one after another, and counts them.
fn play_batch(
    alloc: Global,
    cluster: &mut Cluster,
    events: &[Event],
    counts: EventCounts,
) -> Result<EventCounts, SimFault>
    requires room { counts.events + length events.now ≤ MOST_EVENTS }
    requires fewer { counts.skipped ≤ counts.events }
    ensures room { IfOk result (λ now. now.events ≡ counts.events + length events.now) }
    ensures fewer { IfOk result (λ now. now.skipped ≤ now.events) }
    ensures counted { (size : Size) (liars : List ℕ) (all left : List TossedAct) →
        CountsPlayed size liars all (map tossed_act events.now ++ left) cluster.old counts.events
        counts.skipped → IfOk result (λ now. CountsPlayed size liars all left cluster.new now.events
        now.skipped) }
    ensures memory { (size : Size) (liars : List ℕ) (all left : List TossedAct) →
        CountsPlayed size liars all (map tossed_act events.now ++ left) cluster.old counts.events
        counts.skipped → IfErr result (λ fault. fault ≡ SimFault.Memory) }
{
    let mut played = counts.events;
    let mut skipped = counts.skipped;
    for event in events {
        let mark = cluster.play(alloc, event)?;
        played += 1;
        skipped += usize::from(is_skipped(&mark));
    }
    Ok(EventCounts {
        events: played,
        skipped,
    })
}

/// The text of an outcome: a line for each verdict, and one that counts the events.
fn outcome_text(
    alloc: Global,
    verdicts: &[(u8, u16, u8, bool)],
    counts: EventCounts,
) -> Result<String, AllocError>
    ensures { IfOk result
        (λ text. string_bytes text ≡ flat_map verdict_line verdicts.now
        ++ line_of_counts counts.events counts.skipped) }
{
    let mut text = verdict_lines(alloc, verdicts)?;
    text.push_str(count_line(alloc, counts)?.as_str())?;
    Ok(text)
}

/// The lines of the verdicts.
fn verdict_lines(alloc: Global, verdicts: &[(u8, u16, u8, bool)]) -> Result<String, AllocError>
    ensures { IfOk result (λ text. string_bytes text ≡ flat_map verdict_line verdicts.now) }
{
    let mut text = String::new(alloc);
    for verdict in verdicts {
        text.push_str(verdict_line(alloc, verdict)?.as_str())?;
    }
    Ok(text)
}

/// The line of a verdict: member, question, round and bit.
fn verdict_line(alloc: Global, verdict: &(u8, u16, u8, bool)) -> Result<String, AllocError>
    ensures { IfOk result (λ text. string_bytes text ≡ verdict_line verdict.now) }
{
    let (member, question, round, bit) = *verdict;
    format!(in alloc;
        "member {member} question {question} round {round} bit {}\n",
        u8::from(bit)
    )
}

/// The line of so many events, of which so many were skipped.
fn count_line(alloc: Global, counts: EventCounts) -> Result<String, AllocError>
    ensures { IfOk result
        (λ text. string_bytes text ≡ line_of_counts counts.events counts.skipped) }
{
    let EventCounts { events, skipped } = counts;
    format!(in alloc; "events {events} skipped {skipped}\n")
}

/// The numbers of events that were played, and that were skipped.
#[derive(Clone, Copy)]
struct EventCounts {
    events: usize,
    skipped: usize,
}

/// Returns how many of the marks are of events that were skipped.
fn skipped(marks: &[Mark]) -> usize
    ensures { result ≡ skipped marks.now }
{
    let mut count = 0;
    for mark in marks {
        count += usize::from(is_skipped(mark));
    }
    count
}

/// Returns `true` if a page takes the standard output: the path of one is `-`.
pub fn takes_output(trace: Option<&str>, chart: Option<&str>) -> bool
    ensures { IsTrue result
        ↔ ((option_map (λ text. text.now) trace.entry ≡ Some (codes "-"))
        ⊎ (option_map (λ text. text.now) chart.entry ≡ Some (codes "-"))) }
{
    is_output(trace) || is_output(chart)
}

/// Returns `true` if the path is `-`, which stands for the standard output.
pub(crate) fn is_output(path: Option<&str>) -> bool
    ensures { IsTrue result ↔ (option_map (λ text. text.now) path.entry ≡ Some (codes "-")) }
{
    match path {
        Some(path) => is(path.as_bytes(), "-"),
        None => false,
    }
}

/// Writes the verdicts to the output, or aside, where a page takes the output. The status is 0, and
/// the other writer is left alone. [`SimulateFault::Stream`] and [`SimulateFault::Memory`]: the
/// write failed.
pub fn print_verdicts<W: Write, E: Write>(
    aside: bool,
    verdicts: &str,
    output: &mut W,
    errors: &mut E,
) -> Result<u8, SimulateFault>
    ensures status { IfOk result (λ status. status ≡ 0) }
    ensures output { aside ≡ false →
        OnOk result (Appends (W.contents output.old) (W.contents output.new) verdicts.now) }
    ensures aside { aside ≡ true →
        OnOk result (Appends (E.contents errors.old) (E.contents errors.new) verdicts.now) }
    ensures no_errors { aside ≡ false → errors.new ≡ errors.old }
    ensures no_output { aside ≡ true → output.new ≡ output.old }
    ensures only { IfErr result IsOfWriting }
{
    if aside {
        print(verdicts, errors)
    } else {
        print(verdicts, output)
    }
}
