//! The lines of a transcript, as they are written.

ghost use Rattle.std.specs.Prelude.{◌≡◌, ◌+◌, ◌≤◌, ◌++◌, length};
ghost use Rattle.arrayvec.specs.ArrayVec.{array_vec_len};
ghost use Rattle.hex.specs.Hex.{encode_lower};
ghost use Rattle.numerals.specs.Lines.{line};
ghost use Rattle.wire.specs.Texts.{frame_bytes};
ghost use Rattle.wire.specs.declared.message.Message.TheVariants as message;
ghost use Rattle.transcripts.specs.Lines.{bit_words, head_line, pair_line};

use arrayvec::ArrayVec;
use hex::encode_to_slice;
use itoa::Buffer;
use statement_codec::statement_bytes;
use terms::Statement;

/// Room for lines, which takes no memory: at most 4,096 bytes.
pub type Block = ArrayVec<u8, 4096>;

/// Puts the bytes behind those that the block has.
pub fn put(block: &mut Block, bytes: &[u8])
    requires { array_vec_len block.old + length bytes.now ≤ 4096 }
    ensures items { block.new.items ≡ block.old.items ++ bytes.now }
    ensures len { array_vec_len block.new ≡ array_vec_len block.old + length bytes.now }
{
    let _ = block.try_extend_from_slice(bytes);
}

/// Puts the first line of a transcript into the block, with the byte 10 at its end: the question,
/// the bit that it was decided for, and how many lines follow. It has at most 50 bytes.
pub fn put_head(block: &mut Block, question: u16, bit: bool, count: u64)
    requires { array_vec_len block.old + 64 ≤ 4096 }
    ensures items { block.new.items ≡ block.old.items ++ line (head_line question bit count) }
    ensures len { array_vec_len block.new ≤ array_vec_len block.old + 64 }
{
    put_first_words(block, question, bit, count);
    put(block, b"\n");
}

/// Puts the words of the first line into the block.
pub(crate) fn put_first_words(block: &mut Block, question: u16, bit: bool, count: u64)
    requires { array_vec_len block.old + 63 ≤ 4096 }
    ensures items { block.new.items ≡ block.old.items ++ head_line question bit count }
    ensures len { array_vec_len block.new ≤ array_vec_len block.old + 63 }
{
    let mut digits = Buffer::new();
    put(block, b"transcript ");
    put(block, digits.format(question).as_bytes());
    put(block, b" ");
    put(block, bit_words(bit).as_bytes());
    put(block, digits.format(count).as_bytes());
}

/// The words between the question and the count.
pub(crate) fn bit_words(bit: bool) -> &'static str
    ensures { result.now ≡ bit_words bit }
{
    match bit {
        true => "bit 1 count ",
        false => "bit 0 count ",
    }
}

/// Puts the line of one statement and its sender into the block, with the byte 10 at its end. It
/// has at most 25 bytes.
pub fn put_pair(block: &mut Block, pair: &(u8, Statement))
    requires { array_vec_len block.old + 32 ≤ 4096 }
    ensures items { block.new.items ≡ block.old.items ++ line (pair_line pair.now) }
    ensures len { array_vec_len block.new ≤ array_vec_len block.old + 32 }
{
    put_words(block, pair);
    put(block, b"\n");
}

/// Puts the words of a statement's line into the block.
pub(crate) fn put_words(block: &mut Block, pair: &(u8, Statement))
    requires { array_vec_len block.old + 31 ≤ 4096 }
    ensures items { block.new.items ≡ block.old.items ++ pair_line pair.now }
    ensures len { array_vec_len block.new ≤ array_vec_len block.old + 31 }
{
    let mut digits = Buffer::new();
    put(block, digits.format(pair.0).as_bytes());
    put(block, b" ");
    put(block, &hex_digits(&frame(&pair.1)));
}

/// The digits of a frame, in lower case.
pub(crate) fn hex_digits(frame: &[u8; 10]) -> [u8; 20]
    ensures { result ≡ encode_lower frame.now }
{
    let mut digits = [0; 20];
    let _ = encode_to_slice(frame, &mut digits);
    digits
}

/// The frame of a statement: its length, the type 03, and its seven bytes.
pub(crate) fn frame(statement: &Statement) -> [u8; 10]
    ensures { result ≡ frame_bytes (message.Statement statement.now) }
{
    let [kind, high, low, origin, round, step, value] = statement_bytes(statement);
    [0, 8, 3, kind, high, low, origin, round, step, value]
}
