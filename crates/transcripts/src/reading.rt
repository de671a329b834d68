//! The lines of a transcript, as they are read. What is read off a line is written again, and
//! counts where that gives the line: so each line has one spelling.

ghost use Rattle.std.specs.Prelude.{ℕ, ◌≡◌, ◌<◌, ◌^◌, ◌∷◌, ◌++◌, List, Bool, Some, length, IfSome, IsTrue, ◌↔◌, MatchOption};
ghost use Rattle.std.specs.List.{position_from};
ghost use Rattle.hex.specs.Hex.{IsBytes, encode_lower};
ghost use Rattle.terms_prelude.specs.Terms.{Statement, IsWellFormed};
ghost use Rattle.numerals.specs.Lines.{lines_of};
ghost use Rattle.wire.specs.Texts.{frame_bytes};
ghost use Rattle.wire.specs.declared.message.Message.TheVariants as message;
ghost use Rattle.transcripts.specs.Lines.{bit_words, head_line, pair_line};
ghost use Rattle.transcripts.specs.Reading.{FitsPair, is_end};
ghost use Rattle.transcripts.specs.declared.reading.Head.{Head};

use crate::lines::{Block, put_first_words, put_words};
use hex::decode_to_slice;
use numerals::{behind, number, number8, number16, split_at_space};
use statement_codec::{kind_of, value_of};
use terms::{Place, Size, Statement};

/// A head: what the first line says.
#[derive(Clone, Copy, Debug, PartialEq, Eq)]
pub(crate) struct Head {
    /// The question.
    pub(crate) question: u16,
    /// The bit that it was decided for.
    pub(crate) bit: bool,
    /// The number of lines that follow.
    pub(crate) count: u64,
}

/// The first line of a text that isn't empty, and what stands behind its end.
pub(crate) fn cut_line(text: &[u8]) -> (&[u8], &[u8])
    requires { 0 < length text.now }
    ensures { lines_of text.now ≡ result.0.now ∷ lines_of result.1.now }
{
    match first_end(text) {
        Some(end) => (&text[..end], &text[end + 1..]),
        None => (text, &[]),
    }
}

/// Returns the place of the first byte 10.
fn first_end(text: &[u8]) -> Option<usize>
    ensures value { result ≡ position_from is_end 0 text.now }
    ensures within { IfSome result (λ at. at < length text.now) }
{
    text.iter().position(|byte| *byte == b'\n')
}

/// Returns how many lines follow a first line, of whatever cluster; none where the line is none.
pub fn count_in(line: &[u8]) -> Option<u64>
    ensures some { IfSome result
        (λ count. (question : ℕ) × (bit : Bool) × (line.now ≡ head_line question bit count)) }
    ensures exact { (question : ℕ) (bit : Bool) (count : ℕ) → question < 2 ^ 16 → count < 2 ^ 64 →
        line.now ≡ head_line question bit count → result ≡ Some count }
{
    match head_of(line) {
        Some(head) if is_spelled(line, head) => Some(head.count),
        _ => None,
    }
}

/// Returns the question that a first line names, of whatever cluster; none where the line is none.
pub fn question_in(line: &[u8]) -> Option<u16>
    ensures some { IfSome result
        (λ question. (bit : Bool) × (count : ℕ) × (line.now ≡ head_line question bit count)) }
    ensures exact { (question : ℕ) (bit : Bool) (count : ℕ) → question < 2 ^ 16 → count < 2 ^ 64 →
        line.now ≡ head_line question bit count → result ≡ Some question }
{
    match head_of(line) {
        Some(head) if is_spelled(line, head) => Some(head.question),
        _ => None,
    }
}

/// Returns what a first line says, for a cluster of that size; none where it is no such line.
pub(crate) fn head_from(size: Size, line: &[u8]) -> Option<Head>
    ensures some { IfSome result
        (λ head. (head.question < size.questions)
        × (line.now ≡ head_line head.question head.bit head.count)) }
    ensures counted { IfSome result (λ head. head.count < 2 ^ 64) }
    ensures exact { (question : ℕ) (bit : Bool) (count : ℕ) → question < size.questions →
        count < 2 ^ 64 → line.now ≡ head_line question bit count →
        result ≡ Some (record { question = question; bit = bit; count = count }) }
{
    let questions = size.questions();
    match head_of(line) {
        Some(head) if head.question < questions && is_spelled(line, head) => Some(head),
        _ => None,
    }
}

/// Returns what the words of a first line say.
fn head_of(line: &[u8]) -> Option<Head>
    ensures { (question : ℕ) (bit : Bool) (count : ℕ) → question < 2 ^ 16 → count < 2 ^ 64 →
        line.now ≡ head_line question bit count →
        result ≡ Some (record { question = question; bit = bit; count = count }) }
{
    let (question, rest) = split_at_space(behind(line, "transcript ")?)?;
    let (bit, count) = bit_of(rest)?;
    Some(Head {
        question: number16(question)?,
        bit,
        count: number(count)?,
    })
}

/// The bit that the words name, and the word behind them.
fn bit_of(words: &[u8]) -> Option<(bool, &[u8])>
    ensures { (bit : Bool) (count : List ℕ) → words.now ≡ bit_words bit ++ count →
        MatchOption result ⊥ (λ found. (found.0 ≡ bit) × (found.1.now ≡ count)) }
{
    match behind(words, "bit 0 count ") {
        Some(count) => Some((false, count)),
        None => match behind(words, "bit 1 count ") {
            Some(count) => Some((true, count)),
            None => None,
        },
    }
}

/// Returns `true` if the line is spelled as the first line that says this.
fn is_spelled(line: &[u8], head: Head) -> bool
    ensures { IsTrue result ↔ (line.now ≡ head_line head.question head.bit head.count) }
{
    let mut spelled = Block::new();
    put_first_words(&mut spelled, head.question, head.bit, head.count);
    line == spelled.as_slice()
}

/// The sender and the statement of a line, for a cluster of that size; none where it is no such
/// line.
pub(crate) fn pair_from(size: Size, line: &[u8]) -> Option<(u8, Statement)>
    ensures some { IfSome result (λ pair. FitsPair size pair × (line.now ≡ pair_line pair)) }
    ensures exact { (pair : ℕ × Statement) → FitsPair size pair → line.now ≡ pair_line pair →
        result ≡ Some pair }
{
    match pair_of(size, line) {
        Some(pair) if pair.0 < size.n() && is_pair_spelled(line, &pair) => Some(pair),
        _ => None,
    }
}

/// The sender and the statement that a line's words name.
fn pair_of(size: Size, line: &[u8]) -> Option<(u8, Statement)>
    ensures fits { IfSome result (λ pair. IsWellFormed size pair.1) }
    ensures exact { (pair : ℕ × Statement) → FitsPair size pair → line.now ≡ pair_line pair →
        result ≡ Some pair }
{
    size.recall();
    let (from, digits) = split_at_space(line)?;
    let from = number8(from)?;
    let statement = statement_of(size, bytes_of(digits)?)?;
    Some((from, statement))
}

/// The statement of a frame. The frame's first three bytes aren't looked at.
fn statement_of(size: Size, frame: [u8; 10]) -> Option<Statement>
    ensures fits { IfSome result (λ s. IsWellFormed size s) }
    ensures exact { (s : Statement) → IsWellFormed size s →
        frame ≡ frame_bytes (message.Statement s) → result ≡ Some s }
{
    let [_, _, _, kind, high, low, origin, round, step, value] = frame;
    let question = u16::from_be_bytes([high, low]);
    if question >= size.questions() || origin >= size.n() {
        return None;
    }
    let place = Place::new(question, origin, round, step)?;
    Statement::new(kind_of(kind)?, place, value_of(value)?)
}

/// The ten bytes that twenty digits write.
fn bytes_of(digits: &[u8]) -> Option<[u8; 10]>
    ensures { (bytes : List ℕ) → length bytes ≡ 10 → IsBytes bytes →
        digits.now ≡ encode_lower bytes → result ≡ Some bytes }
{
    let mut bytes = [0; 10];
    match decode_to_slice(digits, &mut bytes) {
        Ok(()) => Some(bytes),
        Err(_) => None,
    }
}

/// Returns `true` if the line is spelled as that of this sender and statement.
fn is_pair_spelled(line: &[u8], pair: &(u8, Statement)) -> bool
    ensures { IsTrue result ↔ (line.now ≡ pair_line pair.now) }
{
    let mut spelled = Block::new();
    put_words(&mut spelled, pair);
    line == spelled.as_slice()
}
