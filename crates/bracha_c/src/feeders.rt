//! The exports of the bytes of a link.

ghost use Rattle.std.specs.Prelude.{◌≡◌, ◌≢◌, ◌⊎◌, pos, negsuc, None};
ghost use Rattle.terms_prelude.specs.Terms.{size_fault};
ghost use Rattle.engine.specs.Inboxes.{size_of, end_of};
ghost use Rattle.bracha_c.specs.Answers.{WrongSize};
ghost use Rattle.bracha_c.specs.Links.{fed_status, message_status, statements_in, FedAs, NotFed, TookOut, TookNothing};

use crate::feeder_handle::{FeederHandle, hand_out};
use crate::handle::Hidden;
use crate::status::status_of_size;
use engine::{Inbox, MOST_BYTES, write_body};
use std::alloc::Global;
use terms::Size;
use wire::{Fed, Message};

/// Opens a feeder at the beginning of a link. `*feeder` is written only if the answer is 0.
#[unsafe(no_mangle)]
pub extern "C" fn bracha_feeder_open(
    alloc: Global,
    feeder: &mut *mut Hidden,
    n: u8,
    t: u8,
    questions: u16,
) -> i32
    ensures status { WrongSize n t questions result
        ⊎ ((size_fault n t questions ≡ None) × ((result ≡ pos 0) ⊎ (result ≡ negsuc 2))) }
    ensures same { result ≢ pos 0 → feeder.new ≡ feeder.old }
{
    let size = match Size::new(n, t, questions) {
        Ok(size) => size,
        Err(fault) => return status_of_size(fault),
    };
    match Box::new(alloc, Inbox::new(alloc, size)) {
        Ok(inbox) => {
            *feeder = hand_out(inbox);
            0
        }
        Err(_) => -3,
    }
}

/// Closes a feeder.
#[unsafe(no_mangle)]
pub extern "C" fn bracha_feeder_close(feeder: FeederHandle) {
    drop(feeder.into_box());
}

/// Reads a piece of the link's bytes.
#[unsafe(no_mangle)]
pub extern "C" fn bracha_feeder_feed(feeder: &mut FeederHandle, bytes: &[u8]) -> i32
    ensures fed { FedAs feeder.old.inbox feeder.new.inbox bytes.now result
        ⊎ NotFed feeder.old.inbox feeder.new.inbox result }
    ensures size { size_of feeder.new.inbox ≡ size_of feeder.old.inbox }
{
    match feeder.inbox().feed(bytes) {
        Ok(fed) => status_of_fed(fed),
        Err(_refused) => -3,
    }
}

/// The number of what a feeder answers: 0, or -7.
fn status_of_fed(fed: Fed) -> i32
    ensures { result ≡ fed_status fed }
{
    match fed {
        Fed::More => 0,
        Fed::Broken(_fault) => -7,
    }
}

/// Takes out the message that has waited longest: its type, what stands behind it, and how many
/// statements it has.
#[unsafe(no_mangle)]
pub extern "C" fn bracha_feeder_next(
    feeder: &mut FeederHandle,
    body: &mut [u8; MOST_BYTES],
    count: &mut usize,
) -> i32
    ensures took { TookOut feeder.old.inbox feeder.new.inbox result count.new body.old body.new
        ⊎ TookNothing feeder.old.inbox feeder.new.inbox result count.new body.old body.new }
    ensures size { size_of feeder.new.inbox ≡ size_of feeder.old.inbox }
    ensures end { end_of feeder.new.inbox ≡ end_of feeder.old.inbox }
{
    match feeder.inbox().next() {
        Some(message) => {
            write_body(&message, body);
            *count = count_of(&message);
            status_of_message(&message)
        }
        None => {
            *count = 0;
            -8
        }
    }
}

/// The number of a message: its type, 0 to 3.
fn status_of_message(message: &Message) -> i32
    ensures { result ≡ message_status message.now }
{
    match message {
        Message::Idle => 0,
        Message::Hello { .. } => 1,
        Message::Welcome { .. } => 2,
        Message::Statement(_one) => 3,
        Message::Statements(_many) => 3,
    }
}

/// The number of a message's statements.
fn count_of(message: &Message) -> usize
    ensures { result ≡ statements_in message.now }
{
    match message {
        Message::Idle => 0,
        Message::Hello { .. } => 0,
        Message::Welcome { .. } => 0,
        Message::Statement(_one) => 1,
        Message::Statements(many) => many.as_slice().len(),
    }
}
