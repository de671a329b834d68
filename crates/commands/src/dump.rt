//! The command `dump`: the records of a journal as text, or their number.

ghost use Rattle.std.specs.Prelude.{List, ◌≡◌, ◌⊎◌, IsErrOf, ◌<◌, ◌++◌, IfOk, IfErr, OnOk, Err, length, string_bytes};
ghost use Rattle.std.specs.Io.KnownBytes.{Appends};
ghost use Rattle.journal.specs.Faults.{IsFaultOfOpening, IsOfFile};
ghost use Rattle.journal.specs.File.{Holds, RefusesFile};
ghost use Rattle.journal.specs.declared.fault.JournalFault.{JournalFault};
ghost use Rattle.journal.specs.declared.fault.JournalFault.TheVariants.{Device, Memory};
ghost use Rattle.terms_prelude.specs.Terms.{Header, Record};
ghost use Rattle.journal.specs.Left.{HasLeft};
ghost use Rattle.migration.specs.OldOutcomes.{IsUntouched};
ghost use Rattle.commands.specs.Faults.{IsOfDump, IsOfPrint};
ghost use Rattle.commands.specs.Dumps.{header_line, record_line, record_lines, head_text, records_text, count_text, dump_text, number_text, IsUnreadable};
ghost use Rattle.commands.specs.Objects.{count_object, objects_text};

use crate::fault::DumpFault;
use crate::objects::{count_object, header_object, record_objects};
use disk::Disk;
use journal::{Batches, JournalFault};
use report::record_text;
use std::alloc::{AllocError, Global};
use std::io::Write;
use terms::{Header, Record};

/// Reads the records of the journal on the disk, if it is this header's. No byte of the file is
/// changed.
pub(crate) fn read_records<D: Disk>(
    alloc: Global,
    disk: &mut D,
    header: &Header,
) -> Result<Vec<Record>, JournalFault>
    ensures held { D.keeps disk.new →
        IfOk result (λ records. Holds header.now records.items (D.state disk.old).seen) }
    ensures fault { D.keeps disk.new →
        IfErr result (λ fault. IsOfFile fault →
        RefusesFile header.now fault (D.state disk.old).seen) }
    ensures device { IsErrOf result Device → D.failures disk.old < D.failures disk.new }
    ensures only { IfErr result IsFaultOfOpening }
    ensures untouched { IsUntouched D.Disk disk.old disk.new }
{
    let mut batches = Batches::read(alloc, disk, header)?;
    Ok(gather(alloc, &mut batches)?)
}

/// Writes the records of the journal that the disk has as text: the line `cluster C n N t T
/// questions Q me M`, and then a line for each record, `KIND QUESTION ORIGIN ROUND STEP VALUE` or
/// `decided QUESTION ROUND BIT`. The status is 0.
///
/// [`DumpFault::Journal`]: the file holds no journal, or the disk failed; nothing was written.
/// [`DumpFault::Stream`] and [`DumpFault::Memory`]: the write or a growth failed.
pub fn dump_lines<D: Disk, W: Write>(
    alloc: Global,
    disk: &mut D,
    output: &mut W,
) -> Result<u8, DumpFault>
    ensures status { IfOk result (λ status. status ≡ 0) }
    ensures all { D.keeps disk.new → OnOk result ((header : Header) × (records : List Record)
        × Holds header records (D.state disk.old).seen
        × Appends (W.contents output.old) (W.contents output.new) (dump_text header records)) }
    ensures fault { D.keeps disk.new → (fault : JournalFault) →
        result ≡ Err (DumpFault.Journal fault) → IsUnreadable fault (D.state disk.old).seen }
    ensures nothing { (fault : JournalFault) → result ≡ Err (DumpFault.Journal fault) →
        output.new ≡ output.old }
    ensures device { result ≡ Err (DumpFault.Journal Device) →
        D.failures disk.old < D.failures disk.new }
    ensures untouched { IsUntouched D.Disk disk.old disk.new }
    ensures only { IfErr result IsOfDump }
{
    print_records(alloc, Form::Lines, disk, output)
}

/// Writes how many records the journal of the disk has: one decimal number in a line. The
/// status is 0. The faults are those of [`dump_lines`], and come when its own do.
pub fn dump_count<D: Disk, W: Write>(
    alloc: Global,
    disk: &mut D,
    output: &mut W,
) -> Result<u8, DumpFault>
    ensures status { IfOk result (λ status. status ≡ 0) }
    ensures all { D.keeps disk.new → OnOk result ((header : Header) × (records : List Record)
        × Holds header records (D.state disk.old).seen
        × Appends (W.contents output.old) (W.contents output.new) (number_text records)) }
    ensures fault { D.keeps disk.new → (fault : JournalFault) →
        result ≡ Err (DumpFault.Journal fault) → IsUnreadable fault (D.state disk.old).seen }
    ensures nothing { (fault : JournalFault) → result ≡ Err (DumpFault.Journal fault) →
        output.new ≡ output.old }
    ensures device { result ≡ Err (DumpFault.Journal Device) →
        D.failures disk.old < D.failures disk.new }
    ensures untouched { IsUntouched D.Disk disk.old disk.new }
    ensures only { IfErr result IsOfDump }
{
    print_count(alloc, Form::Lines, disk, output)
}

/// Writes the journal that the disk has as objects of JSON: that of its header, and one for each
/// record, each in a line. The status is 0. The faults are those of [`dump_lines`], and come when
/// its own do.
pub fn dump_objects<D: Disk, W: Write>(
    alloc: Global,
    disk: &mut D,
    output: &mut W,
) -> Result<u8, DumpFault>
    ensures status { IfOk result (λ status. status ≡ 0) }
    ensures all { D.keeps disk.new → OnOk result ((header : Header) × (records : List Record)
        × Holds header records (D.state disk.old).seen
        × Appends (W.contents output.old) (W.contents output.new) (objects_text header records)) }
    ensures fault { D.keeps disk.new → (fault : JournalFault) →
        result ≡ Err (DumpFault.Journal fault) → IsUnreadable fault (D.state disk.old).seen }
    ensures nothing { (fault : JournalFault) → result ≡ Err (DumpFault.Journal fault) →
        output.new ≡ output.old }
    ensures device { result ≡ Err (DumpFault.Journal Device) →
        D.failures disk.old < D.failures disk.new }
    ensures untouched { IsUntouched D.Disk disk.old disk.new }
    ensures only { IfErr result IsOfDump }
{
    print_records(alloc, Form::Objects, disk, output)
}

/// Writes the journal that the disk has. All of its file is looked at before anything is written,
/// and a batch of its records is in memory at a time.
fn print_records<D: Disk, W: Write>(
    alloc: Global,
    form: Form,
    disk: &mut D,
    output: &mut W,
) -> Result<u8, DumpFault>
    ensures status { IfOk result (λ status. status ≡ 0) }
    ensures all { D.keeps disk.new →
        OnOk result ((header : Header) × (records : List Record)
        × Holds header records (D.state disk.old).seen
        × Appends (W.contents output.old) (W.contents output.new)
        (head_text form header ++ records_text form records)) }
    ensures fault { D.keeps disk.new → (fault : JournalFault) →
        result ≡ Err (DumpFault.Journal fault) → IsUnreadable fault (D.state disk.old).seen }
    ensures nothing { (fault : JournalFault) → result ≡ Err (DumpFault.Journal fault) →
        output.new ≡ output.old }
    ensures device { result ≡ Err (DumpFault.Journal Device) →
        D.failures disk.old < D.failures disk.new }
    ensures untouched { IsUntouched D.Disk disk.old disk.new }
    ensures only { IfErr result IsOfDump }
{
    let (header, mut batches) = look(alloc, disk)?;
    let head = head_text(alloc, form, &header)?;
    output.write_all(head.as_bytes())?;
    print_batches(alloc, form, &mut batches, output)?;
    output.flush()?;
    Ok(0)
}

/// The text of a header.
fn head_text(alloc: Global, form: Form, header: &Header) -> Result<String, AllocError>
    ensures { IfOk result (λ text. string_bytes text ≡ head_text form header.now) }
{
    match form {
        Form::Lines => header_line(alloc, header),
        Form::Objects => header_object(alloc, header),
    }
}

/// Writes the records of all batches that are left, a batch at a time.
fn print_batches<W: Write>(
    alloc: Global,
    form: Form,
    batches: &mut Batches,
    output: &mut W,
) -> Result<(), DumpFault>
    ensures all { (left : List Record) → HasLeft batches.old left →
        OnOk result (Appends (W.contents output.old) (W.contents output.new)
        (records_text form left)) }
    ensures only { (left : List Record) → HasLeft batches.old left → IfErr result IsOfPrint }
{
    let mut records = Vec::new(alloc);
    'batches: while batches.next(&mut records)? {
        let text = records_text(alloc, form, &records)?;
        output.write_all(text.as_bytes())?;
    }
    Ok(())
}

/// The text of records.
fn records_text(alloc: Global, form: Form, records: &[Record]) -> Result<String, AllocError>
    ensures { IfOk result (λ text. string_bytes text ≡ records_text form records.now) }
{
    match form {
        Form::Lines => record_lines(alloc, records),
        Form::Objects => record_objects(alloc, records),
    }
}

/// The lines of the records, in order.
fn record_lines(alloc: Global, records: &[Record]) -> Result<String, AllocError>
    ensures { IfOk result (λ text. string_bytes text ≡ record_lines records.now) }
{
    let mut text = String::new(alloc);
    for record in records {
        text.push_str(record_line(alloc, record)?.as_str())?;
    }
    Ok(text)
}

/// The line of a record.
fn record_line(alloc: Global, record: &Record) -> Result<String, AllocError>
    ensures { IfOk result (λ text. string_bytes text ≡ record_line «record».now) }
{
    format!(in alloc; "{}\n", record_text(alloc, record)?)
}

/// The line of a header.
pub(crate) fn header_line(alloc: Global, header: &Header) -> Result<String, AllocError>
    ensures { IfOk result (λ text. string_bytes text ≡ header_line header.now) }
{
    let size = header.size();
    format!(in alloc;
        "cluster {} n {} t {} questions {} me {}\n",
        header.cluster(),
        size.n(),
        size.t(),
        size.questions(),
        header.me()
    )
}

/// Writes how many records the journal of the disk has: one object of JSON in a line. The
/// status is 0. The faults are those of [`dump_lines`], and come when its own do.
pub fn dump_count_object<D: Disk, W: Write>(
    alloc: Global,
    disk: &mut D,
    output: &mut W,
) -> Result<u8, DumpFault>
    ensures status { IfOk result (λ status. status ≡ 0) }
    ensures all { D.keeps disk.new → OnOk result ((header : Header) × (records : List Record)
        × Holds header records (D.state disk.old).seen
        × Appends (W.contents output.old) (W.contents output.new) (count_object (length records))) }
    ensures fault { D.keeps disk.new → (fault : JournalFault) →
        result ≡ Err (DumpFault.Journal fault) → IsUnreadable fault (D.state disk.old).seen }
    ensures nothing { (fault : JournalFault) → result ≡ Err (DumpFault.Journal fault) →
        output.new ≡ output.old }
    ensures device { result ≡ Err (DumpFault.Journal Device) →
        D.failures disk.old < D.failures disk.new }
    ensures untouched { IsUntouched D.Disk disk.old disk.new }
    ensures only { IfErr result IsOfDump }
{
    print_count(alloc, Form::Objects, disk, output)
}

/// Writes how many records the journal of the disk has.
fn print_count<D: Disk, W: Write>(
    alloc: Global,
    form: Form,
    disk: &mut D,
    output: &mut W,
) -> Result<u8, DumpFault>
    ensures status { IfOk result (λ status. status ≡ 0) }
    ensures all { D.keeps disk.new → OnOk result ((header : Header) × (records : List Record)
        × Holds header records (D.state disk.old).seen
        × Appends (W.contents output.old) (W.contents output.new) (count_text form records)) }
    ensures fault { D.keeps disk.new → (fault : JournalFault) →
        result ≡ Err (DumpFault.Journal fault) → IsUnreadable fault (D.state disk.old).seen }
    ensures nothing { (fault : JournalFault) → result ≡ Err (DumpFault.Journal fault) →
        output.new ≡ output.old }
    ensures device { result ≡ Err (DumpFault.Journal Device) →
        D.failures disk.old < D.failures disk.new }
    ensures untouched { IsUntouched D.Disk disk.old disk.new }
    ensures only { IfErr result IsOfDump }
{
    let (_header, mut batches) = look(alloc, disk)?;
    let records = gather(alloc, &mut batches)?;
    let text = count_text(alloc, form, &records)?;
    output.write_all(text.as_bytes())?;
    output.flush()?;
    Ok(0)
}

/// The text of the number of the records.
fn count_text(alloc: Global, form: Form, records: &[Record]) -> Result<String, AllocError>
    ensures { IfOk result (λ text. string_bytes text ≡ count_text form records.now) }
{
    match form {
        Form::Lines => number_text(alloc, records),
        Form::Objects => count_object(alloc, records),
    }
}

/// The form of a printed journal: lines, or objects of JSON.
#[derive(Clone, Copy, Debug, PartialEq, Eq)]
enum Form {
    Lines,
    Objects,
}

/// The number of the records, in a line.
fn number_text(alloc: Global, records: &[Record]) -> Result<String, AllocError>
    ensures { IfOk result (λ text. string_bytes text ≡ number_text records.now) }
{
    format!(in alloc; "{}\n", records.len())
}

/// Reads the header of the journal on the disk, and its batches. All of the file is looked at, and
/// no byte is changed.
fn look<D: Disk>(alloc: Global, disk: &mut D) -> Result<(Header, Batches), JournalFault>
    ensures held { IfOk result (λ seen. (records : List Record) × HasLeft seen.1 records
        × (D.keeps disk.new → Holds seen.0 records (D.state disk.old).seen)) }
    ensures fault { D.keeps disk.new →
        IfErr result (λ fault. (fault ≡ Memory) ⊎ IsUnreadable fault (D.state disk.old).seen) }
    ensures device { IsErrOf result Device → D.failures disk.old < D.failures disk.new }
    ensures only { IfErr result IsFaultOfOpening }
    ensures untouched { IsUntouched D.Disk disk.old disk.new }
{
    let header = journal::peek(disk)?;
    match Batches::read(alloc, disk, &header) {
        Ok(batches) => Ok((header, batches)),
        Err(fault) => Err(fault),
    }
}

/// Gathers all records that are left, in order.
fn gather(alloc: Global, batches: &mut Batches) -> Result<Vec<Record>, AllocError>
    ensures { (left : List Record) → HasLeft batches.old left →
        IfOk result (λ all. all.items ≡ left) }
{
    let mut all = Vec::new(alloc);
    let mut records = Vec::new(alloc);
    'batches: loop {
        match batches.next(&mut records) {
            Ok(true) => all.extend_from_slice(&records)?,
            Ok(false) => return Ok(all),
            // The file was looked at, so no other fault than this comes.
            Err(_) => return Err(AllocError),
        }
    }
}
