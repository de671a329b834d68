//! The exports of a journal as bytes.

ghost use Rattle.std.specs.Prelude.{◌≡◌, ◌≢◌, ◌⊎◌, pos};
ghost use Rattle.bracha_c.specs.Answers.{WrongSize};
ghost use Rattle.bracha_c.specs.Bytes.{IsHead, WrongMember, Delivers, IsBatch, WrongBatch, IsRead, WrongFile};

use crate::status::{status_of_fault, status_of_journal, status_of_size};
use engine::{batch_head, encode_batch, put, read_batches};
use std::alloc::Global;
use terms::{Header, Size};

/// Writes what a new journal's file begins with.
#[unsafe(no_mangle)]
pub extern "C" fn bracha_batch_head(
    cluster: u64,
    n: u8,
    t: u8,
    questions: u16,
    me: u8,
    head: &mut [u8; 25],
) -> i32
    ensures status { IsHead cluster n t questions me result head.new
        ⊎ WrongSize n t questions result ⊎ WrongMember n t questions me result }
    ensures same { result ≢ pos 0 → head.new ≡ head.old }
{
    let size = match Size::new(n, t, questions) {
        Ok(size) => size,
        Err(fault) => return status_of_size(fault),
    };
    match Header::new(cluster, size, me) {
        Some(header) => {
            *head = batch_head(&header);
            0
        }
        None => -2,
    }
}

/// Writes the batch of 1 to 65,535 records, seven bytes each, behind a closed gate, and how many
/// bytes it has to `*written`.
#[unsafe(no_mangle)]
pub extern "C" fn bracha_batch_encode(
    alloc: Global,
    records: &[u8],
    bytes: &mut [u8],
    written: &mut usize,
) -> i32
    ensures { IsBatch records.now result written.new bytes.old bytes.new
        ⊎ WrongBatch records.now result written.new bytes.old bytes.new }
{
    match encode_batch(alloc, records) {
        Ok(batch) => deliver(batch.as_slice(), bytes, written),
        Err(fault) => {
            *written = 0;
            status_of_fault(fault)
        }
    }
}

/// Writes the records of a journal's file, seven bytes each, how many bytes they have to
/// `*written`, and to `*end` the place of the closed gate.
#[unsafe(no_mangle)]
pub extern "C" fn bracha_batch_read(
    alloc: Global,
    cluster: u64,
    n: u8,
    t: u8,
    questions: u16,
    me: u8,
    file: &[u8],
    records: &mut [u8],
    written: &mut usize,
    end: &mut usize,
) -> i32
    ensures { IsRead cluster n t questions me file.now result written.new end.new records.old
        records.new ⊎ WrongSize n t questions result ⊎ WrongMember n t questions me result
        ⊎ WrongFile cluster n t questions me file.now result written.new records.old records.new }
{
    let size = match Size::new(n, t, questions) {
        Ok(size) => size,
        Err(fault) => return status_of_size(fault),
    };
    let header = match Header::new(cluster, size, me) {
        Some(header) => header,
        None => return -2,
    };
    match read_batches(alloc, &header, file) {
        Ok(read) => {
            *end = read.gate;
            deliver(read.records.as_slice(), records, written)
        }
        Err(fault) => {
            *written = 0;
            status_of_journal(fault)
        }
    }
}

/// Writes the bytes to the front of `out`, if there is room, and how many they are to `*written`.
fn deliver(bytes: &[u8], out: &mut [u8], written: &mut usize) -> i32
    ensures { Delivers bytes.now result written.new out.old out.new }
{
    *written = bytes.len();
    if bytes.len() > out.len() {
        return -9;
    }
    put(bytes, out);
    0
}
