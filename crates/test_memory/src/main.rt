//! Each call that takes memory, once, on a value that is made for it: what it answers, and what
//! stands after it.
//!
//! With a row's name the program does that call alone, prints how it ended and says so by its
//! status too, since a refusal may hit the printing. With no name it does all of them in turn.
//! `tests/refused-memory.sh` runs each row with its Nth request for memory refused, N = 1, 2, and
//! so on, until a run meets none.
#![tactic(auto)]

mod books;
mod ending;
mod members;
mod rules;
mod sessions;
mod simulations;
mod subject;

use books::BookCall;
use ending::Ending;
use std::env::Env;
use std::io;
use std::process::ExitCode;
use std::sync::Wait;
use std::time::Clock;
use subject::{Subject, make_subject};

/// The calls, by their names.
const ROWS: [&str; 21] = [
    "encode",
    "feed",
    "broadcasts-hear",
    "broadcasts-say",
    "steps-accept",
    "question-accept",
    "core-hear",
    "core-propose",
    "member-hear",
    "member-propose",
    "member-hear-all",
    "book-apply",
    "book-apply-all",
    "book-propose",
    "book-pull",
    "board-pass",
    "hub-open",
    "read-link",
    "write-link",
    "desk-answer",
    "sim-run",
];

fn main(rt: HostRuntime) -> io::Result<ExitCode> {
    let Some(of) = make_subject() else {
        return Ok(ExitCode::from(Ending::Wrong("no such statement").code()));
    };
    let mut word = [0u8; 32];
    let Some(length) = own_word(&rt, &mut word) else {
        return Ok(ExitCode::from(do_all(&rt, &rt, &of)?));
    };
    let Some(name) = word.get(..length).and_then(row_of) else {
        return Ok(ExitCode::from(Ending::Wrong("no such row").code()));
    };
    let ending = do_row(&rt, &rt, &of, name);
    let _unsaid = println!(&rt; "{name}: {}", ending.word()).is_err();
    Ok(ExitCode::from(ending.code()))
}

/// The name among the words of the program, and its length; none where there is no word. It takes
/// no memory.
fn own_word(host: &HostRuntime, word: &mut [u8; 32]) -> Option<usize> {
    match host.arg(1, word) {
        Ok(length) => Some(length),
        Err(_) => None,
    }
}

/// Does all calls, and prints how each ended: the code 0 where all ended as with ample memory.
fn do_all<R: Wait + Clock>(rt: &R, host: &HostRuntime, of: &Subject) -> io::Result<u8> {
    let mut code = 0;
    for name in ROWS {
        let ending = do_row(rt, host, of, name);
        println!(host; "{name}: {}", ending.word())?;
        code = code.max(ending.code());
    }
    Ok(code)
}

/// Does the call of that name.
fn do_row<R: Wait + Clock>(rt: &R, host: &HostRuntime, of: &Subject, name: &str) -> Ending {
    if let Some(ending) = do_pure(host, of, name) {
        return ending;
    }
    match book_call(name) {
        Some(call) => books::at_a_book(rt, host.alloc(), of, call),
        None => books::opens_over_a_file(host, of),
    }
}

/// Does the call of that name on values in memory alone; none where it isn't one of these.
fn do_pure(rt: &HostRuntime, of: &Subject, name: &str) -> Option<Ending> {
    let alloc = rt.alloc();
    Some(match name {
        "encode" => rules::encodes(alloc, of),
        "feed" => rules::feeds(alloc, of),
        "broadcasts-hear" => rules::broadcasts_hear(alloc, of),
        "broadcasts-say" => rules::broadcasts_say(alloc, of),
        "steps-accept" => rules::steps_accept(alloc, of),
        "question-accept" => rules::question_accepts(alloc),
        "core-hear" => rules::core_hears(alloc, of),
        "core-propose" => rules::core_proposes(alloc, of),
        "member-hear" => members::hears(alloc, of),
        "member-propose" => members::proposes(alloc, of),
        "member-hear-all" => members::hears_all(alloc, of),
        "sim-run" => simulations::runs(alloc),
        _ => return None,
    })
}

/// The call of that name on a book, its board or a link over it; none where it isn't one of these.
fn book_call(name: &str) -> Option<BookCall> {
    Some(match name {
        "book-apply" => BookCall::Apply,
        "book-apply-all" => BookCall::ApplyAll,
        "book-propose" => BookCall::Propose,
        "book-pull" => BookCall::Pull,
        "board-pass" => BookCall::Pass,
        "desk-answer" => BookCall::Answer,
        "read-link" => BookCall::ReadLink,
        "write-link" => BookCall::WriteLink,
        _ => return None,
    })
}

/// The row of that name; none where there is none.
fn row_of(word: &[u8]) -> Option<&'static str> {
    for name in ROWS {
        if name.as_bytes() == word {
            return Some(name);
        }
    }
    None
}
