//! The part of its book that a hub shows to whoever doesn't take the book, and the bell on which
//! writers wait for more of it. Begin at `Published`, and at `Bell`.
ghost use Rattle.std.specs.Prelude.{◌≡◌, ◌+◌, ◌<◌, ◌≤◌, ◌^◌, ◌++◌, length, take, drop, true, IfNone, IfOk, IfSome, IsTrue, IsFalse, vec_len};
ghost use Rattle.member.specs.Readers.{member_saved};
ghost use Rattle.member.specs.Sealed.{sealed_from};
ghost use Rattle.node.specs.Books.{is_numbered};
ghost use Rattle.node.specs.Standings.{AreDecisionsOf, IsBookOf, IsDecisionOf, IsStanding, status_of};
ghost use Rattle.node.specs.Verdicts.{SeesOn};

use crate::account::Witness;
use crate::board::Pass;
use crate::book::{Book, Naming};
use crate::order::Decision;
use disk::Disk;
use member::Sealed;
use std::alloc::Global;
use std::marker::{Model, PhantomData};
use std::sync::atomic::{AtomicU64, Ordering};
use std::sync::{Condvar, MutexGuard, Wait};
use terms::Memory;

/// The statements of a book's outbox and the decisions that are shown, and the member's status with
/// the book's account when that was shown. All are of one book, since they change under one lock.
/// Contracts see the statements, the decisions, the status and the account's groups. A publisher
/// puts decisions on the board, which is another place.
#[derive(Drop)]
pub(crate) struct Published<D: Disk, J: Naming> {
    shown: Shown,
    decisions: Vec<Decision>,
    status: Option<(u64, u16)>,
    at: Witness<J>,
    disk: PhantomData<D>,
}

impl<D: Disk, J: Naming> Model for Published<D, J> {
    ghost use Rattle.node.specs.Standings.{AreDecisionsOf, PublishedView, IsStanding};

    ghost Value = { PublishedView };

    ghost view = { λ p.
        record {
          items = p.shown;
          decisions = p.decisions.items;
          status = p.status;
          log = p.at;
        } };

    ghost invariant = { λ p. IsStanding D J.header J.opening p.at p.status
        × AreDecisionsOf D J.header p.decisions.items };
}

impl<D: Disk, J: Naming> Published<D, J> {
    /// Shows a book.
    pub(crate) fn of(alloc: Global, book: &Book<D, J>) -> Result<Published<D, J>, Memory>
        ensures items { IfOk result
            (λ published. published.items ≡ sealed_from 0 (member_saved book.now.member)) }
        ensures status { IfOk result (λ published. published.status ≡ status_of book.now) }
        ensures log { IfOk result (λ published. published.log ≡ book.now.log) }
    {
        let shown = Shown::of(alloc, book.outbox())?;
        let decisions = Vec::from_slice(alloc, decisions_of(book))?;
        Ok(Published {
            shown,
            decisions,
            status: status_of(book),
            at: book.witness(),
            disk: PhantomData,
        })
    }

    /// Shows how far the book's member is, and what the outbox and its decisions have behind what
    /// is shown. Where there is no memory no more statements or decisions are shown.
    pub(crate) fn show(&mut self, book: &Book<D, J>) -> bool
        ensures items { IsTrue result →
            self.new.items ≡ self.old.items ++ drop (length self.old.items)
            (sealed_from 0 (member_saved book.now.member)) }
        ensures same { IsFalse result → self.new.items ≡ self.old.items }
        ensures status { self.new.status ≡ status_of book.now }
        ensures log { self.new.log ≡ book.now.log }
    {
        self.show_status(book);
        self.show_decisions(book);
        self.shown.show(book.outbox())
    }

    /// Shows how far the book's member is, and its account.
    fn show_status(&mut self, book: &Book<D, J>)
        ensures items { self.new.items ≡ self.old.items }
        ensures status { self.new.status ≡ status_of book.now }
        ensures log { self.new.log ≡ book.now.log }
    {
        self.status = status_of(book);
        self.at = book.witness();
    }

    /// Shows the decisions of the book behind those that are shown. Where there is no memory no
    /// more are shown.
    fn show_decisions(&mut self, book: &Book<D, J>)
        ensures items { self.new.items ≡ self.old.items }
        ensures status { self.new.status ≡ self.old.status }
        ensures log { self.new.log ≡ self.old.log }
    {
        let more = decisions_behind(decisions_of(book), self.decisions.len());
        if self.decisions.extend_from_slice(more).is_err() {
            return;
        }
    }

    /// The decision with that number, of those that are shown.
    pub(crate) fn decision(&self, number: u64) -> Option<Decision>
        ensures { IfSome result (IsDecisionOf D J.header number) }
    {
        match self.decisions.get(number as usize) {
            Some(decision) => Some(*decision),
            None => None,
        }
    }

    /// The number of decisions that are shown.
    pub(crate) fn decided(&self) -> usize {
        self.decisions.len()
    }

    /// The same, for a pass of the book's board, which sees how far the account was then; none, and
    /// the pass is as it was, if it saw more.
    pub(crate) fn tell(&self, pass: &mut Pass) -> Option<Option<(u64, u16)>>
        requires { pass.old.board ≡ J.names }
        ensures some { IfSome result
            (λ status. SeesOn pass.old pass.new
            × IsStanding D J.header J.opening pass.new.log status) }
        ensures none { IfNone result (pass.new ≡ pass.old) }
    {
        if !pass.go_on(&self.at) {
            return None;
        }
        Some(self.status())
    }

    /// Returns how far the member was when the book was shown last: how many statements were in its
    /// outbox, and how many questions it had decided; none where it was stopped.
    pub(crate) fn status(&self) -> Option<(u64, u16)>
        ensures status { result ≡ self.now.status }
        ensures standing { IsStanding D J.header J.opening self.now.log result }
    {
        self.status
    }

    /// Returns how many statements are shown.
    pub(crate) fn len(&self) -> usize
        ensures { result ≡ length self.now.items }
    {
        self.shown.len()
    }

    /// Returns `true` if the statement with that number is shown.
    pub(crate) fn has(&self, number: u64) -> bool
        ensures { IsTrue result → number < length self.now.items }
    {
        self.shown.has(number)
    }

    /// The statements from that number on, at most so many: none where it is past what is shown.
    pub(crate) fn part(&self, alloc: Global, from: u64, max: usize) -> Result<Vec<Sealed>, Memory>
        ensures items { IfOk result (λ v. v.items ≡ take max (drop from self.now.items)) }
        ensures numbered { IfOk result (λ v. is_numbered from v.items ≡ true) }
        ensures fits { IfOk result (λ v. 0 < vec_len v → from + vec_len v < 2 ^ 64) }
    {
        self.shown.part(alloc, from, max)
    }
}

/// Returns how far the book's member is. The book is one of its hub's.
fn status_of<D: Disk, J: Naming>(book: &Book<D, J>) -> Option<(u64, u16)>
    ensures status { result ≡ status_of book.now }
    ensures book { IsBookOf J.header book.now }
    ensures opening { book.now.opening ≡ J.opening }
{
    let _named = book.header();
    let _replayed = book.records();
    book.status()
}

/// The decisions of a book, in order. The book is one of its hub's.
fn decisions_of<D: Disk, J: Naming>(book: &Book<D, J>) -> &[Decision]
    ensures { AreDecisionsOf D J.header result.now }
{
    let _named = book.header();
    let _replayed = book.records();
    book.decisions()
}

/// The decisions behind the first so many, if there are more.
fn decisions_behind(decisions: &[Decision], count: usize) -> &[Decision]
    ensures { result.now ≡ drop count decisions.now }
{
    if decisions.len() <= count {
        return &[];
    }
    &decisions[count..]
}

/// The statements of an outbox, as far as they are shown. Writers look here, behind a lock that
/// nobody holds for long, and so wait for no disk. It takes 24 bytes a statement. Contracts see the
/// statements.
#[derive(Drop)]
pub(crate) struct Shown {
    items: Vec<Sealed>,
}

impl Model for Shown {
    ghost use Rattle.std.specs.Prelude.{◌≡◌, List, true};
    ghost use Rattle.member.specs.declared.sealed.Sealed.{Sealed};
    ghost use Rattle.node.specs.Books.{is_numbered};

    ghost Value = { List Sealed };

    ghost view = { λ shown. shown.items.items };

    ghost invariant = { λ shown. is_numbered 0 shown.items.items ≡ true };
}

impl Shown {
    /// Shows an outbox.
    pub(crate) fn of(alloc: Global, outbox: &[Sealed]) -> Result<Shown, Memory>
        requires numbered { is_numbered 0 outbox.now ≡ true }
        ensures { IfOk result (λ shown. shown ≡ outbox.now) }
    {
        Ok(Shown {
            items: Vec::from_slice(alloc, outbox)?,
        })
    }

    /// Shows what the outbox has behind what is shown. Where there is no memory nothing more is
    /// shown.
    pub(crate) fn show(&mut self, outbox: &[Sealed]) -> bool
        requires numbered { is_numbered 0 outbox.now ≡ true }
        ensures shown { IsTrue result → self.new ≡ self.old ++ drop (length self.old) outbox.now }
        ensures same { IsFalse result → self.new ≡ self.old }
    {
        if self
            .items
            .extend_from_slice(behind(outbox, self.items.len()))
            .is_err()
        {
            return false;
        }
        true
    }

    /// Returns how many statements are shown.
    pub(crate) fn len(&self) -> usize
        ensures { result ≡ length self.now }
    {
        self.items.len()
    }

    /// Returns `true` if the statement with that number is shown.
    pub(crate) fn has(&self, number: u64) -> bool
        ensures { IsTrue result → number < length self.now }
    {
        number < self.items.len() as u64
    }

    /// The statements from that number on, at most so many: none where it is past what is shown.
    pub(crate) fn part(&self, alloc: Global, from: u64, max: usize) -> Result<Vec<Sealed>, Memory>
        ensures items { IfOk result (λ v. v.items ≡ take max (drop from self.now)) }
        ensures numbered { IfOk result (λ v. is_numbered from v.items ≡ true) }
        ensures fits { IfOk result (λ v. 0 < vec_len v → from + vec_len v < 2 ^ 64) }
    {
        part(alloc, &self.items, from, max)
    }
}

/// Returns what an outbox has behind the first so many, if it has more.
fn behind(outbox: &[Sealed], count: usize) -> &[Sealed]
    ensures { result.now ≡ drop count outbox.now }
{
    if outbox.len() <= count {
        return &[];
    }
    &outbox[count..]
}

/// A part of an outbox.
pub(crate) fn part(
    alloc: Global,
    outbox: &[Sealed],
    from: u64,
    max: usize,
) -> Result<Vec<Sealed>, Memory>
    ensures items { IfOk result (λ v. v.items ≡ take max (drop from outbox.now)) }
    ensures fits { IfOk result (λ v. 0 < vec_len v → from + vec_len v < 2 ^ 64) }
{
    if from >= outbox.len() as u64 {
        return Ok(Vec::new(alloc));
    }
    let rest = &outbox[from as usize..];
    let end = max.min(rest.len());
    Ok(Vec::from_slice(alloc, &rest[..end])?)
}

/// The bell for writers that wait until more of the outbox is shown. It rings once for what is new,
/// however many show it.
#[derive(Drop)]
pub(crate) struct Bell {
    condition: Condvar,
    /// The number of statements for which it has rung.
    rung: AtomicU64,
}

impl Bell {
    /// A bell that has rung for so many statements.
    pub(crate) fn new(rung: u64) -> Bell {
        Bell {
            condition: Condvar::new(),
            rung: AtomicU64::new(rung),
        }
    }

    /// Rings, if more statements are shown than it has rung for.
    pub(crate) fn ring_for(&self, shown: u64) {
        if self.rung.fetch_max(shown, Ordering::SeqCst) < shown {
            self.condition.notify_all();
        }
    }

    /// Rings for all that wait.
    pub(crate) fn ring(&self) {
        self.condition.notify_all();
    }

    /// Waits until it rings. What is locked is given back meanwhile.
    pub(crate) fn wait<'a, R: Wait, T>(
        &self,
        rt: &R,
        locked: MutexGuard<'a, T>,
    ) -> MutexGuard<'a, T> {
        self.condition.wait(rt, locked)
    }
}
