//! The table of the places of one question that were touched, with what is known of each. Begin at
//! `receive`, and at `Touched`.
//!
//! The number of a place is its spot: by round, then by step, then by origin. Only spots that were
//! touched have memory: cells in the order in which their spots were touched, each of which says
//! for which spot it is. So what a liar makes a member keep is in proportion to what it says,
//! wherever it says it.
//!
//! A list says of the first spots, in their order, which cell is theirs. It is no longer than the
//! cells allow: for a spot past it all cells are looked at. As a question's places are touched
//! round by round, that is seldom, and a liar that keeps far away has made no more than 768 cells
//! before all spots are in the list.
ghost use Rattle.std.specs.Prelude.{◌≡◌, ◌==◌, ◌↔◌, ◌<◌, ℕ, true, false, IsTrue, set, cond, vec_len, vec_capacity, IfSome, IfNone, IfOk, IsOk, OnOk, OnErr};
ghost use Rattle.std.specs.List.{position_from};
ghost use Rattle.terms_prelude.specs.Terms.{Place, IsPlace};
ghost use Rattle.rbc.specs.Spots.{same_spot};
ghost use Rattle.rbc.specs.Known.{say_known};
ghost use Rattle.rbc.specs.Taking.{Receives};
ghost use Rattle.rbc.specs.Table.{spot_of, known_in};
ghost use Rattle.rbc.specs.Touching.{touched_known, touched_made, AreApart, IsTable, IsAt};

use crate::Taken;
use crate::rules::{self, Known, nothing};
use std::alloc::{AllocError, Global};
use std::marker::Model;
use terms::{Place, Size, Statement};

/// The spots that have numbers before there is a cell.
const FIRST: usize = 16;

/// The spots more that have numbers for each cell.
const FOR_EACH: usize = 8;

/// Receives a statement at its place: it counts, or is a repeat. Nothing is asked of memory where
/// the place has a cell.
#[inline(always)]
pub fn receive(
    cells: &mut Touched,
    size: Size,
    from: u8,
    s: &Statement,
) -> Result<Taken, AllocError>
    requires from { from < 64 }
    requires origin { s.now.place.origin < size.n }
    ensures taken { IfOk result
        (Receives size from s.now (known_in (touched_known cells.old) size.n s.now.place)
        (known_in (touched_known cells.new) size.n s.now.place)) }
    ensures others { OnOk result
        ((q : Place) → known_in (touched_known cells.new) size.n q
        ≡ cond (same_spot s.now.place q) (known_in (touched_known cells.new) size.n s.now.place)
        (known_in (touched_known cells.old) size.n q)) }
    ensures err { OnErr result
        ((spot : ℕ) → touched_known cells.new spot ≡ touched_known cells.old spot) }
    ensures reached { touched_made cells.old (spot_of size.n s.now.place) ≡ true → IsOk result }
{
    let spot = spot_of(size, s.place());
    let number = cells.reach(spot)?;
    Ok(cells.receive(number, size, from, s))
}

/// Says a statement at its place. Nothing is asked of memory where the place has a cell.
pub fn say(cells: &mut Touched, size: Size, s: &Statement) -> Result<(), AllocError>
    requires { s.now.place.origin < size.n }
    ensures ok { OnOk result
        ((q : Place) → known_in (touched_known cells.new) size.n q
        ≡ cond (same_spot s.now.place q)
        (say_known (known_in (touched_known cells.old) size.n s.now.place) s.now.kind s.now.value)
        (known_in (touched_known cells.old) size.n q)) }
    ensures err { OnErr result
        ((spot : ℕ) → touched_known cells.new spot ≡ touched_known cells.old spot) }
    ensures reached { touched_made cells.old (spot_of size.n s.now.place) ≡ true → IsOk result }
{
    let spot = spot_of(size, s.place());
    let number = cells.reach(spot)?;
    cells.say(number, s);
    Ok(())
}

/// Returns what is known of the place.
pub fn known_at(cells: &Touched, size: Size, place: Place) -> Known
    requires { place.origin < size.n }
    ensures { result ≡ known_in (touched_known cells.now) size.n place }
{
    let spot = spot_of(size, place);
    cells.at(spot)
}

/// Returns the spot of the place.
fn spot_of(size: Size, place: Place) -> u16
    requires { place.origin < size.n }
    ensures value { result ≡ spot_of size.n place }
    ensures few { result < 8000 }
    ensures place { IsPlace place }
{
    let row = 3 * place.round() + place.step() - 4;
    u16::from(row) * u16::from(size.n()) + u16::from(place.origin())
}

/// The state of one spot, and the spot's number.
#[derive(Clone, Copy)]
struct Cell {
    spot: u16,
    known: Known,
}

/// The state of the spots that were touched. Of the others nothing is known.
#[derive(Drop)]
pub struct Touched {
    /// The cell to look at for each of the first spots. It is the spot's only if it says so.
    numbers: Vec<u16>,
    /// The cells, in the order in which their spots were touched.
    cells: Vec<Cell>,
}

impl Model for Touched {
    ghost use Rattle.std.specs.Prelude.{List};
    ghost use Rattle.rbc.specs.declared.table.Cell.{Cell};
    ghost use Rattle.rbc.specs.Touching.{IsTable};

    ghost Value = { List Cell };

    ghost view = { λ t. t.cells.items };

    ghost invariant = { λ t. IsTable t.numbers.items t.cells.items };
}

impl Touched {
    ghost use Rattle.std.specs.Prelude.{◌≡◌, ◌<◌, ◌==◌, ℕ, [], length, true, cond, IfOk, IsOk};
    ghost use Rattle.rbc.specs.Known.{say_known};
    ghost use Rattle.rbc.specs.Taking.{Receives};
    ghost use Rattle.std.specs.List.{position_from};
    ghost use Rattle.rbc.specs.Touching.{touched_known, touched_made, IsAt};

    /// Nothing is known of any spot. It takes no memory.
    pub fn new(alloc: Global) -> Touched
        ensures { result ≡ [] }
    {
        Touched {
            numbers: Vec::new(alloc),
            cells: Vec::new(alloc),
        }
    }

    /// Returns what is known of the spot.
    pub fn at(&self, spot: u16) -> Known
        ensures { result ≡ touched_known self.now spot }
    {
        match number_of(&self.numbers, &self.cells, spot) {
            Some(number) => self.cells[number].known,
            None => nothing(),
        }
    }

    /// The number of the spot's cell, which is made where it has none. Nothing is asked of memory
    /// where it has one.
    #[inline(always)]
    pub fn reach(&mut self, spot: u16) -> Result<usize, AllocError>
        requires { spot < 8000 }
        ensures same { (other : ℕ) → touched_known self.new other ≡ touched_known self.old other }
        ensures made { IfOk result (λ number. IsAt self.new number spot) }
        ensures reached { touched_made self.old spot ≡ true → IsOk result }
    {
        match number_of(&self.numbers, &self.cells, spot) {
            Some(number) => Ok(number),
            None => add(&mut self.numbers, &mut self.cells, spot),
        }
    }

    /// Receives a statement in the cell of that number.
    #[inline(always)]
    pub fn receive(&mut self, number: usize, size: Size, from: u8, s: &Statement) -> Taken
        requires number { number < length self.old }
        requires from { from < 64 }
        ensures taken { (spot : ℕ) → IsAt self.old number spot →
            Receives size from s.now (touched_known self.old spot)
            (touched_known self.new spot) result }
        ensures others { (spot : ℕ) → IsAt self.old number spot → (other : ℕ) →
            touched_known self.new other ≡ cond (other == spot) (touched_known self.new spot)
            (touched_known self.old other) }
    {
        rules::receive(&mut self.cells[number].known, size, from, s)
    }

    /// Says a statement in the cell of that number.
    pub fn say(&mut self, number: usize, s: &Statement)
        requires { number < length self.old }
        ensures { (spot : ℕ) → IsAt self.old number spot → (other : ℕ) →
            touched_known self.new other ≡ cond (other == spot)
            (say_known (touched_known self.old spot) s.now.kind s.now.value)
            (touched_known self.old other) }
    {
        rules::say(&mut self.cells[number].known, s);
    }
}

/// The number of the spot's cell.
fn number_of(numbers: &[u16], cells: &[Cell], spot: u16) -> Option<usize>
    requires { IsTable numbers.now cells.now }
    ensures some { IfSome result (λ number. IsAt cells.now number spot) }
    ensures none { IfNone result (touched_made cells.now spot ≡ false) }
{
    let place = usize::from(spot);
    if place < numbers.len() {
        let number = usize::from(numbers[place]);
        if is_at(cells, number, spot) {
            Some(number)
        } else {
            None
        }
    } else {
        search(cells, spot)
    }
}

/// The number of the first cell of the spot, by a look at each.
fn search(cells: &[Cell], spot: u16) -> Option<usize>
    ensures { result ≡ position_from (λ c. c.spot == spot) 0 cells.now }
{
    cells.iter().position(|cell| cell.spot == spot)
}

/// Returns `true` if the cell of that number is the spot's.
fn is_at(cells: &[Cell], number: usize, spot: u16) -> bool
    ensures { IsTrue result ↔ IsAt cells.now number spot }
{
    number < cells.len() && cells[number].spot == spot
}

/// Makes a cell for a spot that has none, and gives its number. It is called once a spot, where the
/// rest is called for each statement.
#[cold]
fn add(numbers: &mut Vec<u16>, cells: &mut Vec<Cell>, spot: u16) -> Result<usize, AllocError>
    requires table { IsTable numbers.old.items cells.old.items }
    requires few { spot < 8000 }
    requires unmade { touched_made cells.old.items spot ≡ false }
    ensures table { IsTable numbers.new.items cells.new.items }
    ensures same { (other : ℕ) →
        touched_known cells.new.items other ≡ touched_known cells.old.items other }
    ensures made { IfOk result (λ number. IsAt cells.new.items number spot) }
{
    make_room(cells)?;
    lengthen(numbers, cells.as_slice(), spot)?;
    let number = cells.len();
    cells.push_reserved(Cell {
        spot,
        known: nothing(),
    });
    name(numbers, number, spot);
    Ok(number)
}

/// Makes room for a cell more, and where there is none for as many again and one.
fn make_room(cells: &mut Vec<Cell>) -> Result<(), AllocError>
    ensures same { cells.new.items ≡ cells.old.items }
    ensures room { OnOk result (vec_len cells.new < vec_capacity cells.new) }
{
    if cells.len() < cells.capacity() {
        return Ok(());
    }
    cells.reserve_exact(cells.len() + 1)
}

/// Makes the numbers reach a spot, if the cells allow so many: then all spots have theirs that the
/// cells allow.
fn lengthen(numbers: &mut Vec<u16>, cells: &[Cell], spot: u16) -> Result<(), AllocError>
    requires { IsTable numbers.old.items cells.now }
    ensures { IsTable numbers.new.items cells.now }
{
    let most = FIRST + FOR_EACH * cells.len();
    let place = usize::from(spot);
    if place < numbers.len() || most <= place {
        return Ok(());
    }
    numbers.resize(most, 0)?;
    name_all(numbers, cells);
    Ok(())
}

/// Gives each of the cells its number.
fn name_all(numbers: &mut Vec<u16>, cells: &[Cell])
    requires { AreApart cells.now }
    ensures { IsTable numbers.new.items cells.now }
{
    for number in 0..cells.len() {
        name(numbers, number, cells[number].spot);
    }
}

/// Gives the spot its number, if it is among the first.
fn name(numbers: &mut Vec<u16>, number: usize, spot: u16)
    requires { number < 8000 }
    ensures { numbers.new.items ≡ set numbers.old.items spot number }
{
    let place = usize::from(spot);
    if place < numbers.len() {
        numbers[place] = number as u16;
    }
}
