//! Frames of the wire, as `bracha run` speaks them.

ghost use Rattle.std.specs.Prelude.{◌≡◌, ◌≢◌, ◌⊎◌, ◌↔◌, ◌≤◌, ◌*◌, ◌++◌, List, length, drop, IfErr, IfOk, IfSome, OnOk, IsErrOf, IsNone, IsSome, MatchOption};
ghost use Rattle.terms_prelude.specs.Terms.{Statement};
ghost use Rattle.statement_codec.specs.Statements.{statement_bytes};
ghost use Rattle.wire.specs.Texts.{frame_bytes, statements_bytes, version_byte};
ghost use Rattle.wire.specs.declared.message.Message.TheVariants as message;
ghost use Rattle.wire.specs.declared.message.Version.{Version};
ghost use Rattle.engine.specs.Texts.{IsStatement, NoStatement, AreStatements, NoStatements};
ghost use Rattle.engine.specs.Frames.{message_of, IsFrameOf, IsNoFrame};

use crate::fault::EngineFault;
use crate::records::statement_of;
use std::alloc::Global;
use terms::{Size, Statement};
use wire::{Many, Message, Version, encode, encode_alone};

/// The length of the longest frame in bytes: that of 99 statements.
pub const MOST_FRAME: usize = 697;

/// The version of a byte, 1 or 2.
pub fn version_of(byte: u8) -> Option<Version>
    ensures { MatchOption result ((version : Version) → version_byte version ≢ byte)
        (λ version. version_byte version ≡ byte) }
{
    match byte {
        1 => Some(Version::One),
        2 => Some(Version::Two),
        _ => None,
    }
}

/// The frame of an idle.
pub fn idle_frame() -> [u8; 3]
    ensures { result ≡ frame_bytes message.Idle }
{
    [0, 1, 0]
}

/// The frame of a hello. A feeder of the size reads it if `from` and `to` are below its number of
/// members.
pub fn hello_frame(version: Version, cluster: u64, size: Size, from: u8, to: u8) -> [u8; 18]
    ensures { result ≡ frame_bytes (message.Hello version cluster size from to) }
{
    let version = match version {
        Version::One => 1,
        Version::Two => 2,
    };
    let [a, b, c, d, e, f, g, h] = cluster.to_be_bytes();
    let [high, low] = size.questions().to_be_bytes();
    [
        0,
        16,
        1,
        version,
        a,
        b,
        c,
        d,
        e,
        f,
        g,
        h,
        size.n(),
        size.t(),
        high,
        low,
        from,
        to,
    ]
}

/// The frame of a welcome.
pub fn welcome_frame(next: u64) -> [u8; 11]
    ensures { result ≡ frame_bytes (message.Welcome next) }
{
    let [a, b, c, d, e, f, g, h] = next.to_be_bytes();
    [0, 9, 2, a, b, c, d, e, f, g, h]
}

/// The frame of the statement of seven bytes, if they are one's. It is one of both versions of the
/// wire.
pub fn statement_frame(bytes: &[u8; 7]) -> Option<[u8; 10]>
    ensures some { IfSome result
        (λ frame. (s : Statement) × IsStatement s × (bytes.now ≡ statement_bytes s)
        × (frame ≡ frame_bytes (message.Statement s))) }
    ensures none { IsNone result → NoStatement bytes.now }
{
    match statement_of(bytes) {
        Some(statement) => Some(encode_alone(&statement)),
        None => None,
    }
}

/// Writes the frame of 1 to 99 statements, seven bytes each, to the front of `out`, and answers how
/// many bytes it has. One statement has the frame of [`statement_frame`]; several have one of
/// version 2 of the wire.
///
/// [`EngineFault::BadStatement`]: the bytes are no list of 1 to 99 statements.
/// [`EngineFault::Memory`]: there was none. Nothing was written.
pub fn statements_frame(alloc: Global, bytes: &[u8], out: &mut [u8]) -> Result<usize, EngineFault>
    requires { 697 ≤ length out.old }
    ensures written { IfOk result (λ count. IsFrameOf bytes.now count out.old out.new) }
    ensures bad { IsErrOf result EngineFault.BadStatement → IsNoFrame bytes.now }
    ensures only { IfErr result
        (λ fault. (fault ≡ EngineFault.BadStatement) ⊎ (fault ≡ EngineFault.Memory)) }
{
    let statements = match statements_of(alloc, bytes) {
        Ok(statements) => statements,
        Err(fault) => return Err(fault),
    };
    match message_of(statements) {
        Some(message) => write_frame(alloc, &message, out),
        None => Err(EngineFault::BadStatement),
    }
}

/// Writes the message's frame to the front of `out`, and answers how many bytes it has.
fn write_frame(alloc: Global, message: &Message, out: &mut [u8]) -> Result<usize, EngineFault>
    requires { length (frame_bytes message.now) ≤ length out.old }
    ensures count { IfOk result (λ count. count ≡ length (frame_bytes message.now)) }
    ensures written { OnOk result
        (out.new ≡ frame_bytes message.now ++ drop (length (frame_bytes message.now)) out.old) }
    ensures only { IfErr result (λ fault. fault ≡ EngineFault.Memory) }
{
    let mut frame = Vec::new(alloc);
    match encode(message, &mut frame) {
        Ok(()) => Ok(put(frame.as_slice(), out)),
        Err(_) => Err(EngineFault::Memory),
    }
}

/// The message of 1 to 99 statements.
fn message_of(statements: Vec<Statement>) -> Option<Message>
    ensures some { IfSome result (λ message. message ≡ message_of statements.items) }
    ensures exact { IsSome result ↔ (1 ≤ length statements.items) × (length statements.items ≤ 99) }
{
    if let [only] = statements.as_slice() {
        return Some(Message::Statement(*only));
    }
    match Many::new(statements) {
        Ok(many) => Some(Message::Statements(many)),
        Err(_few) => None,
    }
}

/// The statements of the bytes, in order.
fn statements_of(alloc: Global, bytes: &[u8]) -> Result<Vec<Statement>, EngineFault>
    ensures read { IfOk result
        (λ all. AreStatements all.items × (bytes.now ≡ statements_bytes all.items)) }
    ensures bad { IsErrOf result EngineFault.BadStatement → NoStatements bytes.now }
    ensures only { IfErr result
        (λ fault. (fault ≡ EngineFault.BadStatement) ⊎ (fault ≡ EngineFault.Memory)) }
{
    let mut all = Vec::new(alloc);
    let mut rest = bytes;
    while let [a, b, c, d, e, f, g, after @ ..] = rest {
        let Some(statement) = statement_of(&[*a, *b, *c, *d, *e, *f, *g]) else {
            return Err(EngineFault::BadStatement);
        };
        match all.push(statement) {
            Ok(()) => rest = after,
            Err(_) => return Err(EngineFault::Memory),
        }
    }
    if rest.is_empty() {
        Ok(all)
    } else {
        Err(EngineFault::BadStatement)
    }
}

/// Writes the bytes to the front of `out`, which has room for them, and answers how many they are.
pub fn put(bytes: &[u8], out: &mut [u8]) -> usize
    requires { length bytes.now ≤ length out.old }
    ensures count { result ≡ length bytes.now }
    ensures after { out.new ≡ bytes.now ++ drop (length bytes.now) out.old }
{
    let (front, _rest) = out.split_at_mut(bytes.len());
    front.copy_from_slice(bytes);
    bytes.len()
}
