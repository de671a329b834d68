//! A journal that is appended to and stopped. How it is made, and openings of whole, cut and
//! changed files, are rows.
//!
//! Where `rt try --test --fail-alloc N` refuses an allocation, a row that comes out otherwise is
//! played again, and is then to come out as with ample memory. A journal that was refused memory
//! itself appends the same batch at once.
ghost use Rattle.std.specs.Prelude.{◌≡◌, IfOk};
ghost use Rattle.terms_prelude.specs.Terms.{Echo, One, Record, Said, Header, new_place, new_statement, new_size, new_header};

use disk::{Disk, MemDisk};
use journal::{Journal, JournalFault, create};
use std::alloc::Global;
use std::test::Fail;
use terms::{Header, Kind, Place, Record, Size, Statement, Value};

/// The file of cluster 7, of four members of whom one may lie, and one question; the member 1; no
/// record.
const EMPTY: [u8; 25] = *b"BRACHAJ2\0\0\0\0\0\0\0\x07\x04\x01\0\x01\x01\0\0\0\0";

/// The same with the Echo One at question 0, origin 0, round 1, step 1.
const ONE_ECHO: [u8; 34] =
    *b"BRACHAJ2\0\0\0\0\0\0\0\x07\x04\x01\0\x01\x01\0\0\0\x01\0\x01\x02\0\0\0\x01\x11\0";

fn header(me: u8) -> Result<Header, Fail>
    ensures { IfOk result (λ h. h ≡ new_header 7 (new_size 4 1 1) me) }
{
    let size = Size::new(4, 1, 1)?;
    Ok(Header::new(7, size, me).ok_or("a header")?)
}

#[test]
fn a_journal_adds_batches_until_it_is_stopped(rt: HostRuntime) -> Result<(), Fail> {
    let alloc = rt.alloc();
    assert!(rt; adds_one_echo(alloc)?);
    assert!(rt; adds_two_at_once(alloc)?);
    assert!(rt; stays_stopped(alloc)?);
    Ok(())
}

/// Whether a batch of one is the file that it has to be, and is found there.
fn adds_one_echo(alloc: Global) -> Result<bool, Fail> {
    let (header, echo) = (header(1)?, echo()?);
    let bytes = match one_echo_file(alloc, header, echo) {
        Ok(bytes) => bytes,
        Err(_) => one_echo_file(alloc, header, echo)?,
    };
    let count = count_of(alloc, header, &ONE_ECHO, Ok(1));
    Ok(bytes.as_slice() == ONE_ECHO.as_slice() && count == Ok(1))
}

/// The file after a creation and an append of the echo. Memory that the journal itself is refused
/// leaves it as it was.
fn one_echo_file(alloc: Global, header: Header, echo: Record) -> Result<Vec<u8>, JournalFault>
    requires header { header ≡ new_header 7 (new_size 4 1 1) 1 }
    requires echo { echo ≡ Said (new_statement Echo (new_place 0 0 1 1) One) }
{
    let mut disk = MemDisk::new(alloc);
    create(&mut disk, &header)?;
    let (mut journal, _) = Journal::open(alloc, disk, &header)?;
    if journal.header() != header {
        return Err(JournalFault::OtherHeader);
    }
    let batch = [echo];
    if let Err(fault) = journal.append(&batch) {
        if fault != JournalFault::Memory {
            return Err(fault);
        }
        journal.append(&batch)?;
    }
    let mut disk = journal.into_disk();
    content(alloc, &mut disk)
}

/// Returns what reads give of it.
fn content(alloc: Global, disk: &mut MemDisk) -> Result<Vec<u8>, JournalFault> {
    let len = disk.len()?;
    let mut bytes = vec![in alloc; 0; len]?;
    disk.read_at(0, &mut bytes)?;
    Ok(bytes)
}

/// Returns how many records it gives, once more where it isn't as wanted.
fn count_of(
    alloc: Global,
    header: Header,
    bytes: &[u8],
    wanted: Result<usize, JournalFault>,
) -> Result<usize, JournalFault> {
    let first = opening(alloc, header, bytes).map(|records| records.len());
    if first == wanted {
        return first;
    }
    opening(alloc, header, bytes).map(|records| records.len())
}

/// The records that an opening of this file gives, or its fault.
fn opening(alloc: Global, header: Header, bytes: &[u8]) -> Result<Vec<Record>, JournalFault> {
    let (_, records) = Journal::open(alloc, disk_of(alloc, bytes)?, &header)?;
    Ok(records)
}

/// Whether a batch of two has both records.
fn adds_two_at_once(alloc: Global) -> Result<bool, Fail> {
    let (header, echo) = (header(1)?, echo()?);
    Ok(two_at_once(alloc, header, echo) == Ok(2))
}

/// Returns how many records there are after a batch of two. It is played once: with ample memory
/// nothing is refused.
fn two_at_once(alloc: Global, header: Header, echo: Record) -> Result<usize, JournalFault>
    requires header { header ≡ new_header 7 (new_size 4 1 1) 1 }
    requires echo { echo ≡ Said (new_statement Echo (new_place 0 0 1 1) One) }
{
    let (mut journal, _) = Journal::open(alloc, disk_of(alloc, &EMPTY)?, &header)?;
    journal.append(&[echo, echo])?;
    let (_, records) = Journal::open(alloc, journal.into_disk(), &header)?;
    Ok(records.len())
}

/// Whether a journal whose disk has failed stays stopped, though that answers again.
fn stays_stopped(alloc: Global) -> Result<bool, Fail> {
    let (header, echo) = (header(1)?, echo()?);
    let wanted = Ok((
        Ok(()),
        Err(JournalFault::Device),
        Err(JournalFault::Stopped),
    ));
    let mut answers = stopped(alloc, header, echo);
    if answers != wanted {
        answers = stopped(alloc, header, echo);
    }
    Ok(answers == wanted)
}

fn stopped(alloc: Global, header: Header, echo: Record) -> Result<Answers, JournalFault>
    requires header { header ≡ new_header 7 (new_size 4 1 1) 1 }
    requires echo { echo ≡ Said (new_statement Echo (new_place 0 0 1 1) One) }
{
    let (mut journal, _) = Journal::open(alloc, disk_of(alloc, &EMPTY)?, &header)?;
    journal.fuse(Some(0));
    let empty = journal.append(&[]);
    let answer = journal.append(&[echo]);
    if !journal.is_stopped() {
        return Err(JournalFault::Full);
    }
    journal.fuse(None);
    Ok((empty, answer, journal.append(&[echo])))
}

fn echo() -> Result<Record, Fail>
    ensures { IfOk result (λ r. r ≡ Said (new_statement Echo (new_place 0 0 1 1) One)) }
{
    let place = Place::new(0, 0, 1, 1).ok_or("a place")?;
    let statement = Statement::new(Kind::Echo, place, Value::One).ok_or("a statement")?;
    Ok(Record::Said(statement))
}

/// The answers to appends of no record and of the echo where no call of the device passes, and then
/// to one of the echo where all pass.
type Answers = (
    Result<(), JournalFault>,
    Result<(), JournalFault>,
    Result<(), JournalFault>,
);

/// A disk that has these bytes at rest.
fn disk_of(alloc: Global, bytes: &[u8]) -> Result<MemDisk, JournalFault> {
    let mut disk = MemDisk::new(alloc);
    disk.write_at(0, bytes)?;
    disk.sync()?;
    Ok(disk)
}
