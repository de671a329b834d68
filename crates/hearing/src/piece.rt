//! A line of `hear`: a sender, one space, and a piece of the sender's stream in hexadecimal digits.

ghost use Rattle.std.specs.Prelude.{IfOk, IfSome, IsSome, ℕ, MatchOption};
ghost use Rattle.hearing.specs.Pieces.{IsMemberBelow, IsNoPiece, IsPiece};

use numerals::{bytes, number8, split_at_space};
use std::alloc::Global;
use terms::Memory;

/// A piece of a sender's stream.
#[derive(Drop)]
pub struct Piece {
    /// The sender, below n.
    pub sender: u8,
    /// The bytes, at least one.
    pub bytes: Vec<u8>,
}

impl Piece {
    /// The piece that the line names, or none where it isn't a line of that form, for a cluster of
    /// n members.
    pub fn parse(alloc: Global, n: u8, line: &[u8]) -> Result<Option<Piece>, Memory>
        ensures { IfOk result
            (λ found. MatchOption found (IsNoPiece n line.now)
            (λ piece. IsPiece n line.now piece.sender piece.bytes.items)) }
    {
        let Some((digits, hexes)) = split_at_space(line) else {
            return Ok(None);
        };
        let Some(sender) = sender(n, digits) else {
            return Ok(None);
        };
        match bytes(alloc, hexes)? {
            Some(bytes) => Ok(Some(Piece { sender, bytes })),
            None => Ok(None),
        }
    }
}

/// The sender that these decimal digits name, if there is one below n. Leading zeros are taken.
fn sender(n: u8, digits: &[u8]) -> Option<u8>
    ensures some { IfSome result (IsMemberBelow n digits.now) }
    ensures exact { (member : ℕ) → IsMemberBelow n digits.now member → IsSome result }
{
    match number8(digits) {
        Some(number) if number < n => Some(number),
        _ => None,
    }
}
