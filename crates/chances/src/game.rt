//! One question, played.

ghost use Rattle.std.specs.Prelude.{ℕ, ◌≡◌, ◌≢◌, ◌<◌, ◌⊎◌, ◌↔◌, Err, IfOk, OnOk};
ghost use Rattle.chances.specs.Ends.{IsCounted};
ghost use Rattle.chances.specs.Tables.{AllDecided, HaveProposed, Follows, HasEnd, IsPlayed, NothingLeft, correct_of};
ghost use Rattle.chances.specs.declared.ends.End.TheVariants.{TwoAnswers};
ghost use Rattle.chances.specs.declared.fault.PlayFault.TheVariants as faults;

use crate::adversary::deliver_chosen;
use crate::ends::{End, end_of};
use crate::fault::PlayFault;
use crate::random::deliver_drawn;
use crate::table::Table;
use std::alloc::Global;
use terms::Size;

/// The order of deliveries.
#[derive(Clone, Copy, Debug, PartialEq, Eq)]
pub enum Order {
    /// Drawn among the links that have something; each link keeps its order.
    Random,
    /// The adversary's, which may deliver each statement alone.
    Adversary,
    /// The adversary's, which has to keep each link's order.
    Links,
}

/// A cluster of which one question is played.
#[derive(Clone, Copy, Debug, PartialEq, Eq)]
pub struct Setting {
    /// The cluster's size.
    pub size: Size,
    /// The number of members that lie, the last ones.
    pub liars: u8,
    /// The order of deliveries.
    pub order: Order,
}

/// Plays a question with this seed, proposals split half and half: member m proposes m mod 2.
///
/// # Errors
///
/// - [`PlayFault::Liars`] if more members lie than may;
/// - [`PlayFault::TwoAnswers`] if two correct members decided differently;
/// - [`PlayFault::Unfinished`] if deliveries ended too early, which no run is known to do;
/// - [`PlayFault::Memory`] if an allocation failed.
pub fn play(alloc: Global, setting: &Setting, seed: u64) -> Result<End, PlayFault>
    ensures counted { IfOk result IsCounted }
    ensures end { IfOk result (HasEnd setting.now.size setting.now.liars seed) }
    ensures two { (other : ℕ) → result ≡ Err (faults.TwoAnswers other) →
        (other ≡ seed) × HasEnd setting.now.size setting.now.liars seed TwoAnswers }
    ensures liars { result ≡ Err faults.Liars ↔ setting.now.size.t < setting.now.liars }
{
    let table = played(alloc, setting, seed)?;
    match end_of(&table.verdicts(alloc)?) {
        End::TwoAnswers => Err(PlayFault::TwoAnswers(seed)),
        End::Open => Ok(End::Open),
        End::Decided(round) => Ok(End::Decided(round)),
    }
}

/// Sits the members down, lets the correct ones propose, and delivers in the setting's order.
fn played(alloc: Global, setting: &Setting, seed: u64) -> Result<Table, PlayFault>
    ensures played { IfOk result (IsPlayed setting.now.size setting.now.liars seed) }
    ensures liars { result ≡ Err faults.Liars ↔ setting.now.size.t < setting.now.liars }
    ensures two { (other : ℕ) → result ≢ Err (faults.TwoAnswers other) }
{
    let mut table = Table::open(alloc, setting.size, setting.liars, seed)?;
    propose_all(&mut table)?;
    deliver_all(&mut table, alloc, setting.order, seed)?;
    Ok(table)
}

/// Lets each correct member propose its number mod 2.
fn propose_all(table: &mut Table) -> Result<(), PlayFault>
    ensures proposes { OnOk result (HaveProposed (correct_of table.old) table.old table.new) }
    ensures liars { result ≢ Err faults.Liars }
    ensures two { (other : ℕ) → result ≢ Err (faults.TwoAnswers other) }
{
    for member in 0..table.correct() {
        table.propose(member, member % 2 == 1)?;
    }
    Ok(())
}

/// Delivers in this order.
fn deliver_all(table: &mut Table, alloc: Global, order: Order, seed: u64) -> Result<(), PlayFault>
    ensures follows { OnOk result (Follows table.old table.new) }
    ensures over { OnOk result (AllDecided table.new ⊎ NothingLeft table.new) }
    ensures liars { result ≢ Err faults.Liars }
    ensures two { (other : ℕ) → result ≢ Err (faults.TwoAnswers other) }
{
    match order {
        Order::Random => deliver_drawn(table, alloc, seed)?,
        Order::Adversary => deliver_chosen(table, alloc, false)?,
        Order::Links => deliver_chosen(table, alloc, true)?,
    }
    end_at(table)
}

/// Looks that each correct member has decided, or nothing is left on the links.
fn end_at(table: &Table) -> Result<(), PlayFault>
    ensures over { OnOk result (AllDecided table.now ⊎ NothingLeft table.now) }
    ensures liars { result ≢ Err faults.Liars }
    ensures two { (other : ℕ) → result ≢ Err (faults.TwoAnswers other) }
{
    if table.is_decided() {
        return Ok(());
    }
    if table.is_quiet() {
        return Ok(());
    }
    Err(PlayFault::Unfinished)
}
