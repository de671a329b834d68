//! The load of a liar's arrow.

ghost use Rattle.std.specs.Prelude.{◌≡◌, None, Some, IfOk, IfSome, slice_get, string_bytes};
ghost use Rattle.wire.specs.declared.message.Message.TheVariants as message;
ghost use Rattle.terms_prelude.specs.Terms.{Statement};
ghost use Rattle.report.specs.Charts.{bytes_label, IsFrameOf, IsLieLabel};

use crate::records::statement_text;
use std::alloc::{AllocError, Global};
use terms::{Size, Statement};
use wire::{Feeder, Message};

/// The number of bytes of the frame of a statement.
const STATEMENT_FRAME: usize = 10;

/// The first message, where it is a statement.
fn first_statement(messages: &[Message]) -> Option<Statement>
    ensures some { IfSome result (λ s. slice_get messages.now 0 ≡ Some (message.Statement s)) }
    ensures none { result ≡ None → (s : Statement) →
        slice_get messages.now 0 ≡ Some (message.Statement s) → ⊥ }
{
    match messages.get(0) {
        Some(Message::Statement(statement)) => Some(*statement),
        _ => None,
    }
}

/// The statement whose frame the bytes are, if they are one and nothing else.
pub(crate) fn statement_in(
    alloc: Global,
    size: Size,
    bytes: &[u8],
) -> Result<Option<Statement>, AllocError>
    ensures some { IfOk result (λ found. IfSome found (IsFrameOf size bytes.now)) }
    ensures none { IfOk result
        (λ found. found ≡ None → (s : Statement) → IsFrameOf size bytes.now s → ⊥) }
{
    size.recall();
    if bytes.len() != STATEMENT_FRAME {
        return Ok(None);
    }
    let mut messages = Vec::new(alloc);
    let mut feeder = Feeder::new(size);
    let Ok(_) = feeder.feed(bytes, &mut messages) else {
        return Err(AllocError);
    };
    // It takes all of the bytes, so it is the only one.
    Ok(first_statement(messages.as_slice()))
}

/// The bytes in hexadecimal digits, of which 24 are shown at most.
fn bytes_label(alloc: Global, bytes: &[u8]) -> Result<String, AllocError>
    ensures { IfOk result (λ text. string_bytes text ≡ bytes_label bytes.now) }
{
    if bytes.len() <= 12 {
        return hex::encode(alloc, bytes);
    }
    let digits = hex::encode(alloc, &bytes[..12])?;
    format!(in alloc; "{digits}..")
}

/// The words of the statement whose frame the bytes are, or where they are none the bytes.
pub(crate) fn lie_label(alloc: Global, size: Size, bytes: &[u8]) -> Result<String, AllocError>
    ensures { IfOk result (λ text. IsLieLabel size bytes.now (string_bytes text)) }
{
    match statement_in(alloc, size, bytes)? {
        Some(statement) => statement_text(alloc, statement),
        None => bytes_label(alloc, bytes),
    }
}
