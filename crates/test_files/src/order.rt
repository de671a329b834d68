//! The folder of a file is looked at before the file is made, whoever asks: a process that may open
//! one file more opens the folder, and makes no file.
//!
//! The program of the tests starts itself by the name of the test [`a_process`], which may have few
//! files open.

use disk::FileDisk;
use std::fs::File;
use std::marker::Brand;
use std::process::Command;
use std::test::Fail;
use std::{env, fs};

/// Set where a test starts the process.
const STARTED: &str = "DISK_TEST_STARTED";

const PATH: &str = "disk_tests_order";

/// How many files the process may have open at most, and so opens here.
const MOST: usize = 64;

#[test]
fn a_process(rt: HostRuntime) -> Result<(), Fail> {
    if env::var(&rt, STARTED).is_err() {
        return Ok(());
    }
    let _ = fs::remove_file(&rt, PATH);
    let told = [
        opens_with(&rt, 0)?,
        opens_with(&rt, 1)?,
        opens_with(&rt, 2)?,
    ];
    assert!(rt; told == [[false, false], [false, false], [true, true]]);
    println!(&rt; "in order")?;
    Ok(())
}

/// Whether a disk was had where so many files may be opened, and whether its file was made.
fn opens_with(rt: &HostRuntime, free: usize) -> Result<[bool; 2], Fail> {
    let held = hold_all_but(rt, free)?;
    let is_had = FileDisk::<Brand>::open(rt, PATH, true).is_ok();
    drop(held);
    Ok([is_had, fs::remove_file(rt, PATH).is_ok()])
}

/// Opens the working folder as often as it is let, but for so many times.
fn hold_all_but(rt: &HostRuntime, free: usize) -> Result<Vec<File>, Fail> {
    let mut held = Vec::new(rt.alloc());
    for _ in 0..MOST {
        match File::open(rt, ".") {
            Ok(file) => held.push(file)?,
            Err(_) => break,
        }
    }
    let count = held.len().saturating_sub(free);
    held.truncate(count);
    Ok(held)
}

#[test]
fn no_file_is_made_before_its_folder_is_open(rt: HostRuntime) -> Result<(), Fail> {
    let own = env::args(&rt)?.next().ok_or("the program's name")?;
    let mut command = Command::new(rt.alloc(), "sh")?;
    command
        .arg("-c")?
        .arg("ulimit -n 64; exec \"$0\" order::a_process")?;
    command.arg(own.as_str())?.env(STARTED, "1")?;
    let output = command.output(&rt)?;
    let printed = String::from_utf8(output.stdout).ok().ok_or("text")?;
    assert!(rt; printed.as_str().contains("in order\n"), "{printed}");
    Ok(())
}
