//! The links of a member that are up.
ghost use Rattle.std.specs.Prelude.{◌≡◌, ◌<◌, ◌≤◌, length, slice_set, IfOk};
ghost use Rattle.node.specs.Links.{count_true, none_up};

use std::alloc::Global;
use std::marker::Model;
use terms::Memory;

/// The numbers of a member's links that are up. The link from it to itself comes in and goes out
/// like the others.
#[derive(Clone, Copy, Debug, PartialEq, Eq)]
pub struct LinkCount {
    /// The number of members from whom a link comes in: it has greeted, and what that member says
    /// is heard.
    pub incoming: usize,
    /// To how many members a link goes out that was welcomed.
    pub outgoing: usize,
}

/// The links that are up, by the number of the member at their other end. Contracts see both lists.
#[derive(Drop)]
pub(crate) struct LinkTable {
    incoming: Vec<bool>,
    outgoing: Vec<bool>,
}

impl Model for LinkTable {
    ghost use Rattle.node.specs.Links.{LinksUp};

    ghost Value = { LinksUp };

    ghost view = { λ table.
        record { incoming = table.incoming.items; outgoing = table.outgoing.items } };
}

impl LinkTable {
    /// No link of so many members is up.
    pub(crate) fn new(alloc: Global, members: u8) -> Result<LinkTable, Memory>
        ensures { IfOk result (λ table. table ≡ none_up members) }
    {
        Ok(LinkTable {
            incoming: vec![in alloc; false; usize::from(members)]?,
            outgoing: vec![in alloc; false; usize::from(members)]?,
        })
    }

    /// The link from that member comes in from now on, or doesn't.
    pub(crate) fn set_incoming(&mut self, member: u8, up: bool)
        ensures { member < length self.old.incoming →
            self.new ≡ record self.old { incoming = slice_set self.old.incoming member up } }
    {
        set_at(&mut self.incoming, member, up);
    }

    /// The link to that member is welcomed from now on, or isn't.
    pub(crate) fn set_outgoing(&mut self, member: u8, up: bool)
        ensures { member < length self.old.outgoing →
            self.new ≡ record self.old { outgoing = slice_set self.old.outgoing member up } }
    {
        set_at(&mut self.outgoing, member, up);
    }

    /// Returns how many links are up.
    pub(crate) fn count(&self) -> LinkCount
        ensures incoming { result.incoming ≡ count_true self.now.incoming }
        ensures outgoing { result.outgoing ≡ count_true self.now.outgoing }
    {
        LinkCount {
            incoming: count_true(&self.incoming),
            outgoing: count_true(&self.outgoing),
        }
    }
}

/// Returns how many of these are true.
fn count_true(flags: &[bool]) -> usize
    ensures { result ≡ count_true flags.now }
{
    flags.iter().filter(|flag| **flag).count()
}

/// Sets the flag at that place; past the last place nothing changes.
fn set_at(flags: &mut [bool], at: u8, up: bool)
    ensures within { at < length flags.old → flags.new ≡ slice_set flags.old at up }
    ensures past { length flags.old ≤ at → flags.new ≡ flags.old }
{
    let at = usize::from(at);
    if at >= flags.len() {
        return;
    }
    flags[at] = up;
}
