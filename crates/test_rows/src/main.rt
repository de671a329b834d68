//! Plays rows over the libraries. A row is a line of a file in `data`: what is done, ` -> `, and
//! what is answered. Blank lines and lines that begin with `#` are passed over.
//!
//! The file `index` has a line for each file: its player, and its name. Of each file is printed how
//! many of its rows are as they say, and before that each row that isn't, with its line. The file
//! `stdout` beside `src` has what a good run prints.
#![tactic(auto)]

mod player;

use player::Player;
use std::sync::Wait;
use std::time::Clock;
use std::{fs, io};

fn main(rt: HostRuntime) -> io::Result<()> {
    let index = fs::read_to_string(&rt, "index")?;
    for line in index.as_str().lines() {
        match line.split_once(' ') {
            Some((topic, name)) => play(&rt, &rt, &mut Player::new(rt.alloc(), topic), name)?,
            None => println!(rt; "{line}: names no file")?,
        }
    }
    Ok(())
}

/// Plays a file.
fn play<R: Wait + Clock>(
    rt: &R,
    host: &HostRuntime,
    player: &mut Player,
    name: &str,
) -> io::Result<()> {
    let Ok(text) = fs::read_to_string(host, name) else {
        return println!(host; "{name}: can't be read");
    };
    let mut count = 0u64;
    for (at, line) in text.as_str().lines().enumerate() {
        let is_row = !line.is_empty() && !line.starts_with('#');
        if is_row && is_so(rt, host, player, (name, at.saturating_add(1)), line)? {
            count = count.saturating_add(1);
        }
    }
    println!(host; "{name}: {count} rows as they say")
}

/// Plays a row. Tells whether it is as it says, and prints it where it isn't.
fn is_so<R: Wait + Clock>(
    rt: &R,
    host: &HostRuntime,
    player: &mut Player,
    place: (&str, usize),
    line: &str,
) -> io::Result<bool> {
    let (name, number) = place;
    let (action, answer) = parts(line);
    match player.told(rt, action) {
        Some(told) if told.as_str() == answer => Ok(true),
        Some(told) => {
            println!(host; "{name}:{number}: says {answer}, is {told}")?;
            Ok(false)
        }
        None => {
            println!(host; "{name}:{number}: is no row")?;
            Ok(false)
        }
    }
}

/// Returns what a row says is done, and what it says is answered: nothing where it has no arrow.
fn parts(line: &str) -> (&str, &str) {
    if let Some(answer) = line.strip_prefix("-> ") {
        return ("", answer);
    }
    match line.split_once(" ->") {
        Some((action, answer)) => (action, answer.strip_prefix(" ").unwrap_or(answer)),
        None => (line, ""),
    }
}
