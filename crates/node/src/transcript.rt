//! The statements that a book heard of a question that is decided.
ghost use Rattle.std.specs.Prelude.{◌≡◌, [], ◌∷◌, ◌++◌, IfOk, IfErr, OnOk, MatchOption};
ghost use Rattle.terms_prelude.specs.Terms.{pairs_on};
ghost use Rattle.questions.specs.Audits.{IsProof};
ghost use Rattle.questions.specs.Replay.{entry_statements};
ghost use Rattle.node.specs.Entries.{noted};
ghost use Rattle.node.specs.Histories.{joined};
ghost use Rattle.node.specs.Transcripts.{ShowsNothing, heard_on};

use crate::block::Block;
use crate::compact::CompactEntry;
use crate::entry::Entry;
use crate::history::History;
use questions::audit;
use std::alloc::Global;
use std::marker::Model;
use terms::{Memory, Size, Statement};

/// The statements that were heard of a question that is decided. By these alone the bit may be
/// decided: an audit of them is true.
#[derive(Debug, PartialEq, Eq, Drop)]
pub struct Transcript {
    /// The bit that the question is decided for.
    pub bit: bool,
    /// Each sender and its statement on the question, in the order in which they were heard.
    pub heard: Vec<(u8, Statement)>,
}

/// Why there is no transcript of a question: the first that holds.
#[derive(Clone, Copy, Debug, PartialEq, Eq)]
pub enum TranscriptFault {
    /// There is no such question.
    NoSuchQuestion,
    /// The question isn't decided.
    Undecided,
    /// The question was decided in an earlier life, and what was heard since then doesn't show it.
    Thin,
    /// There was no memory.
    Memory,
}

/// A book's part in the transcript of a question that is decided: the transcript is made of it
/// without the book. The full blocks are those of the book's own that may have something of the
/// question, and don't change any more; what stands behind them was gone through. Contracts see the
/// size of the cluster, the question, the bit, and what was heard of the question.
#[derive(Drop)]
pub struct Dossier {
    alloc: Global,
    size: Size,
    question: u16,
    bit: bool,
    full: Vec<Block>,
    last: Vec<(u8, Statement)>,
}

impl Model for Dossier {
    ghost use Rattle.std.specs.Prelude.{◌++◌};
    ghost use Rattle.node.specs.Histories.{joined};
    ghost use Rattle.node.specs.Transcripts.{DossierView, heard_on};

    ghost Value = { DossierView };

    ghost view = { λ d.
        record {
          size = d.size;
          question = d.question;
          bit = d.bit;
          heard = heard_on d.question (joined d.full.items) ++ d.last.items;
        } };
}

impl Dossier {
    /// Returns the part of a question that is decided for the bit. It goes through the last block
    /// of the history alone. Memory is its only fault.
    pub(crate) fn of(
        alloc: Global,
        size: Size,
        question: u16,
        bit: bool,
        history: &History,
    ) -> Result<Dossier, Memory>
        ensures size { IfOk result (λ dossier. dossier.size ≡ size) }
        ensures question { IfOk result (λ dossier. dossier.question ≡ question) }
        ensures bit { IfOk result (λ dossier. dossier.bit ≡ bit) }
        ensures heard { IfOk result
            (λ dossier. dossier.heard ≡ heard_on question history.now.entries) }
    {
        let (full, last) = history.parts();
        let full = shared_on(alloc, full, question)?;
        let mut heard = Vec::new(alloc);
        hear_block(&mut heard, last, question)?;
        Ok(Dossier {
            alloc,
            size,
            question,
            bit,
            full,
            last: heard,
        })
    }

    /// The question.
    pub fn question(&self) -> u16
        ensures { result ≡ self.now.question }
    {
        self.question
    }

    /// The transcript, if what was heard is proof of the bit.
    ///
    /// # Errors
    ///
    /// [`TranscriptFault::Thin`] where it isn't, and [`TranscriptFault::Memory`] where there was
    /// none.
    pub fn transcript(self) -> Result<Transcript, TranscriptFault>
        ensures bit { IfOk result (λ transcript. transcript.bit ≡ self.bit) }
        ensures heard { IfOk result (λ transcript. transcript.heard.items ≡ self.heard) }
        ensures proof { IfOk result (λ _. IsProof self.size self.question self.bit self.heard) }
        ensures err { IfErr result (ShowsNothing self) }
    {
        let Dossier {
            alloc,
            size,
            question,
            bit,
            full,
            last,
        } = self;
        let Ok(heard) = heard_on(alloc, &full, &last, question) else {
            return Err(TranscriptFault::Memory);
        };
        match audit(alloc, size, question, bit, &heard) {
            Ok(true) => Ok(Transcript { bit, heard }),
            Ok(false) => Err(TranscriptFault::Thin),
            Err(_) => Err(TranscriptFault::Memory),
        }
    }
}

/// Shares the blocks that may have something of the question.
fn shared_on(alloc: Global, blocks: &[Block], question: u16) -> Result<Vec<Block>, Memory>
    ensures { IfOk result
        (λ copies. heard_on question (joined copies.items)
        ≡ heard_on question (joined blocks.now)) }
{
    let mut copies = Vec::new(alloc);
    for block in blocks {
        share_on(&mut copies, block, question)?;
    }
    Ok(copies)
}

/// Adds the block to the copies, unless it has nothing of the question.
fn share_on(copies: &mut Vec<Block>, block: &Block, question: u16) -> Result<(), Memory>
    ensures { OnOk result
        (heard_on question (joined copies.new.items) ≡ heard_on question (joined copies.old.items)
        ++ heard_on question block.now) }
{
    if block.is_without(question) {
        return Ok(());
    }
    copies.push(block.share()?)?;
    Ok(())
}

/// The sender and the statement that the entry notes, if it is a statement on the question.
fn pair_on(entry: &CompactEntry, question: u16) -> Option<(u8, Statement)>
    ensures { MatchOption result
        (heard_on question (entry.now ∷ []) ≡ [])
        (λ pair. heard_on question (entry.now ∷ []) ≡ pair ∷ []) }
{
    if entry.question() != question {
        return None;
    }
    statement_on(&entry.entry(), question)
}

/// The sender and the statement of the entry, if it is a statement on the question.
fn statement_on(entry: &Entry, question: u16) -> Option<(u8, Statement)>
    ensures { MatchOption result
        (heard_on question (noted entry.now ∷ []) ≡ [])
        (λ pair. heard_on question (noted entry.now ∷ []) ≡ pair ∷ []) }
{
    match entry {
        Entry::Heard {
            from,
            statement,
            ..
        } if statement.place().question() == question => { Some((*from, *statement)) }
        _ => None,
    }
}

/// Returns what blocks have of the question, and this behind it: each sender and its statement, in
/// order.
fn heard_on(
    alloc: Global,
    full: &[Block],
    last: &[(u8, Statement)],
    question: u16,
) -> Result<Vec<(u8, Statement)>, Memory>
    ensures { IfOk result (λ heard. heard.items ≡ heard_on question (joined full.now) ++ last.now) }
{
    let mut heard = Vec::new(alloc);
    for block in full {
        hear_block(&mut heard, block.entries(), question)?;
    }
    heard.extend_from_slice(last)?;
    Ok(heard)
}

/// Adds what the block has of the question.
fn hear_block(
    heard: &mut Vec<(u8, Statement)>,
    block: &[CompactEntry],
    question: u16,
) -> Result<(), Memory>
    ensures { OnOk result (heard.new.items ≡ heard.old.items ++ heard_on question block.now) }
{
    for noted in block {
        if let Some(pair) = pair_on(noted, question) {
            heard.push(pair)?;
        }
    }
    Ok(())
}
