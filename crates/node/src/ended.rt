//! What is left of a life that has ended.
ghost use Rattle.std.specs.Prelude.{◌≡◌, IfNone, IfSome, length, slice_get, Some, ◌≤◌};
ghost use Rattle.member.specs.Readers.{member_header, member_saved};
ghost use Rattle.node.specs.Books.{IsReplayed};
ghost use Rattle.node.specs.Entries.{noted};
ghost use Rattle.node.specs.Settled.{AreSeated};
ghost use Rattle.node.specs.Views.{ended_of};

use crate::book::Naming;
use crate::entry::Entry;
use crate::history::History;
use crate::settle::Closing;
use disk::Disk;
use member::Member;
use std::marker::Model;
use terms::Record;

/// What is left of a life that has ended: the member, and its history since it was opened. Only a
/// book whose history has what the seats handed in leaves one ([`Closing::end`]). It is of no hub
/// any more.
#[derive(Drop)]
pub struct Ended<D: Disk> {
    pub(crate) member: Member<D>,
    pub(crate) opened: usize,
    pub(crate) history: History,
}

impl<D: Disk> Model for Ended<D> {
    ghost use Rattle.std.specs.Prelude.{take};
    ghost use Rattle.member.specs.Readers.{member_saved};
    ghost use Rattle.node.specs.Books.{IsReplayed};
    ghost use Rattle.node.specs.Views.{EndedView};

    ghost Value = { EndedView D };

    ghost view = { λ e.
        record {
          member = e.member;
          opening = take e.opened (member_saved e.member);
          history = e.history.entries;
        } };

    ghost invariant = { λ e.
        IsReplayed e.member (take e.opened (member_saved e.member)) e.history.entries };
}

impl<D: Disk> Ended<D> {
    /// The saved records, in order. They are those of the replay of the history over the records
    /// that the member was opened with.
    pub fn records(&self) -> &[Record]
        ensures saved { result.now ≡ member_saved self.now.member }
        ensures replay { IsReplayed self.now.member self.now.opening self.now.history }
    {
        self.member.records()
    }

    /// Returns how many events the history has.
    pub fn events(&self) -> usize
        ensures { result ≡ length self.now.history }
    {
        self.history.len()
    }

    /// The event at this place of the history, counted from 0. It goes through the blocks before.
    pub fn event(&self, at: usize) -> Option<Entry>
        ensures some { IfSome result (λ entry. slice_get self.now.history at ≡ Some (noted entry)) }
        ensures none { IfNone result (length self.now.history ≤ at) }
    {
        self.history.get(at)
    }
}

impl<D: Disk + Drop, J: Naming> Closing<D, J> {
    /// Returns what is left of the life whose book it is, where [`close`](crate::close) found that
    /// the seats fit. They are gone.
    pub fn end(self) -> Ended<D>
        requires settled { AreSeated (member_header self.book.member).size.n self.book.history
            self.seats.items }
        ensures book { result ≡ ended_of self.book }
        ensures opening { result.opening ≡ J.opening }
        ensures header { member_header result.member ≡ J.header }
        ensures replay { IsReplayed result.member result.opening result.history }
    {
        let Closing { book, seats: _ } = self;
        book.into_ended()
    }
}
