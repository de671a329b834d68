//! The exports of frames.

ghost use Rattle.std.specs.Prelude.{◌≡◌, ◌≢◌, ◌⊎◌, pos};
ghost use Rattle.wire.specs.Texts.{frame_bytes};
ghost use Rattle.wire.specs.declared.message.Message.TheVariants as message;
ghost use Rattle.bracha_c.specs.Answers.{WrongSize};
ghost use Rattle.bracha_c.specs.Bytes.{IsHello, WrongVersion, WrongMembers, IsStatementFrame, WrongStatement, IsStatementsFrame, WrongStatements};

use crate::status::{status_of_fault, status_of_size};
use engine::{
    EngineFault, MOST_FRAME, hello_frame, idle_frame, statement_frame, statements_frame,
    version_of, welcome_frame,
};
use std::alloc::Global;
use terms::Size;

/// Writes the frame of an idle.
#[unsafe(no_mangle)]
pub extern "C" fn bracha_encode_idle(frame: &mut [u8; 3])
    ensures { frame.new ≡ frame_bytes message.Idle }
{
    *frame = idle_frame();
}

/// Writes the frame of a hello.
#[unsafe(no_mangle)]
pub extern "C" fn bracha_encode_hello(
    version: u8,
    cluster: u64,
    n: u8,
    t: u8,
    questions: u16,
    from: u8,
    to: u8,
    frame: &mut [u8; 18],
) -> i32
    ensures status { IsHello version cluster n t questions from to result frame.new
        ⊎ WrongSize n t questions result ⊎ WrongVersion version n t questions result
        ⊎ WrongMembers n t questions from to result }
    ensures same { result ≢ pos 0 → frame.new ≡ frame.old }
{
    let size = match Size::new(n, t, questions) {
        Ok(size) => size,
        Err(fault) => return status_of_size(fault),
    };
    let version = match version_of(version) {
        Some(version) => version,
        None => return -15,
    };
    if from >= n {
        return -2;
    }
    if to >= n {
        return -2;
    }
    *frame = hello_frame(version, cluster, size, from, to);
    0
}

/// Writes the frame of a welcome.
#[unsafe(no_mangle)]
pub extern "C" fn bracha_encode_welcome(next: u64, frame: &mut [u8; 11])
    ensures { frame.new ≡ frame_bytes (message.Welcome next) }
{
    *frame = welcome_frame(next);
}

/// Writes the frame of the statement of seven bytes.
#[unsafe(no_mangle)]
pub extern "C" fn bracha_encode_statement(statement: &[u8; 7], frame: &mut [u8; 10]) -> i32
    ensures { IsStatementFrame statement.now result frame.new
        ⊎ WrongStatement statement.now result frame.old frame.new }
{
    match statement_frame(statement) {
        Some(made) => {
            *frame = made;
            0
        }
        None => status_of_fault(EngineFault::BadStatement),
    }
}

/// Writes the frame of 1 to 99 statements, seven bytes each, and how many bytes it has to
/// `*written`.
#[unsafe(no_mangle)]
pub extern "C" fn bracha_encode_statements(
    alloc: Global,
    statements: &[u8],
    frame: &mut [u8; MOST_FRAME],
    written: &mut usize,
) -> i32
    ensures { IsStatementsFrame statements.now result written.new frame.old frame.new
        ⊎ WrongStatements statements.now result written.new }
{
    match statements_frame(alloc, statements, frame) {
        Ok(count) => {
            *written = count;
            0
        }
        Err(fault) => {
            *written = 0;
            status_of_fault(fault)
        }
    }
}
