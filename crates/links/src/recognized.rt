//! Greetings that are recognized by their bytes, with no memory.
ghost use Rattle.std.specs.Prelude.{◌≡◌, ◌≢◌, ◌^◌, ◌+◌, ◌<◌, ◌≤◌, ◌++◌, length, IfSome, IfNone};
ghost use Rattle.std.specs.Vec.{vec_len, vec_capacity};
ghost use Rattle.wire.specs.Texts.{frame_bytes, Fits, version_byte};
ghost use Rattle.wire.specs.declared.message.Message.TheVariants as message;
ghost use Rattle.wire.specs.declared.message.Version.{Version};
ghost use Rattle.links.specs.Recognized.{IsNotWelcome, IsNotHello, IsNoGreeting, hello_text};
ghost use Rattle.links.specs.declared.recognized.HelloBytes.{HelloBytes};

use terms::Size;
use wire::{Message, Version};

/// Adds the bytes, for which there is room.
pub(crate) fn keep(seen: &mut Vec<u8>, bytes: &[u8])
    requires room { vec_len seen.old + length bytes.now ≤ vec_capacity seen.old }
    ensures all { seen.new.items ≡ seen.old.items ++ bytes.now }
    ensures len { vec_len seen.new ≡ vec_len seen.old + length bytes.now }
    ensures capacity { vec_capacity seen.new ≡ vec_capacity seen.old }
{
    for byte in bytes {
        seen.push_reserved(*byte);
    }
}

/// The Welcome, or the Hello of a cluster of this size, that the bytes are, if they are one. It
/// takes no memory.
pub(crate) fn greeting_of(size: Size, bytes: &[u8]) -> Option<Message>
    ensures fits { IfSome result (Fits size) }
    ensures some { IfSome result (λ m. bytes.now ≡ frame_bytes m) }
    ensures none { IfNone result (IsNoGreeting size bytes.now) }
{
    if let Some(next) = welcome_of(bytes) {
        return Some(Message::Welcome { next });
    }
    hello_of(size, bytes)
}

/// The Hello of a cluster of this size that the bytes are, if they are one. It takes no memory.
fn hello_of(size: Size, bytes: &[u8]) -> Option<Message>
    ensures fits { IfSome result (Fits size) }
    ensures some { IfSome result (λ m. bytes.now ≡ frame_bytes m) }
    ensures none { IfNone result (IsNotHello size bytes.now) }
{
    let Some(it) = numbers_of(bytes) else {
        return None;
    };
    let Some(version) = version_of(it.version) else {
        return None;
    };
    if it.n != size.n() || it.t != size.t() || it.questions != size.questions() {
        return None;
    }
    if it.from >= size.n() || it.to >= size.n() {
        return None;
    }
    Some(Message::Hello {
        version,
        cluster: it.cluster,
        size,
        from: it.from,
        to: it.to,
    })
}

/// The numbers of the Hello that the bytes are by their count and their front, if they are one.
fn numbers_of(bytes: &[u8]) -> Option<HelloBytes>
    ensures some { IfSome result (λ it. bytes.now ≡ hello_text it) }
    ensures none { IfNone result ((it : HelloBytes) → bytes.now ≢ hello_text it) }
{
    let [
        zero,
        sixteen,
        one,
        version,
        a,
        b,
        c,
        d,
        e,
        f,
        g,
        h,
        n,
        t,
        high,
        low,
        from,
        to,
    ] = bytes
    else {
        return None;
    };
    if *zero != 0 || *sixteen != 16 || *one != 1 {
        return None;
    }
    Some(HelloBytes {
        version: *version,
        cluster: u64::from_be_bytes([*a, *b, *c, *d, *e, *f, *g, *h]),
        n: *n,
        t: *t,
        questions: u16::from_be_bytes([*high, *low]),
        from: *from,
        to: *to,
    })
}

/// The numbers of a Hello's bytes.
#[derive(Clone, Copy, Drop)]
struct HelloBytes {
    version: u8,
    cluster: u64,
    n: u8,
    t: u8,
    questions: u16,
    from: u8,
    to: u8,
}

/// The version of that number.
fn version_of(number: u8) -> Option<Version>
    ensures some { IfSome result (λ version. number ≡ version_byte version) }
    ensures none { IfNone result ((version : Version) → number ≢ version_byte version) }
{
    match number {
        1 => Some(Version::One),
        2 => Some(Version::Two),
        _ => None,
    }
}

/// The next of the Welcome that the bytes are, if they are one. It takes no memory.
pub(crate) fn welcome_of(bytes: &[u8]) -> Option<u64>
    ensures fits { IfSome result (λ next. next < 2 ^ 64) }
    ensures some { IfSome result (λ next. bytes.now ≡ frame_bytes (message.Welcome next)) }
    ensures none { IfNone result (IsNotWelcome bytes.now) }
{
    let [zero, nine, two, a, b, c, d, e, f, g, h] = bytes else {
        return None;
    };
    if *zero != 0 || *nine != 9 || *two != 2 {
        return None;
    }
    Some(u64::from_be_bytes([*a, *b, *c, *d, *e, *f, *g, *h]))
}
