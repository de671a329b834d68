//! Objects of JSON: of headers and records, and of what `check` says.

ghost use Rattle.std.specs.Prelude.{ℕ, List, ◌≡◌, ◌<◌, ◌++◌, IfOk, drop, length, option_map, string_bytes};
ghost use Rattle.std.specs.List.{flat_map};
ghost use Rattle.commands.specs.Objects.{check_doors, check_end, check_front, check_object, check_paths, check_rest, count_object, escaped, escaped_byte, header_fields, header_object, hex_digit, listed, path_field, peer_item, place_fields, record_object, statement_object};
ghost use Rattle.report.specs.Records.{value_word};

use report::kind_word;
use settings::{Address, Settings, address_text};
use std::alloc::{AllocError, Global};
use terms::{Header, Place, Record, Statement, Value};

/// The object of a header, in a line.
pub fn header_object(alloc: Global, header: &Header) -> Result<String, AllocError>
    ensures { IfOk result (λ text. string_bytes text ≡ header_object header.now) }
{
    format!(in alloc; "{{{}}}\n", header_fields(alloc, header)?)
}

/// The objects of the records, in order.
pub fn record_objects(alloc: Global, records: &[Record]) -> Result<String, AllocError>
    ensures { IfOk result (λ text. string_bytes text ≡ flat_map record_object records.now) }
{
    let mut text = String::new(alloc);
    for record in records {
        text.push_str(record_object(alloc, record)?.as_str())?;
    }
    Ok(text)
}

/// The object of a record, in a line.
fn record_object(alloc: Global, record: &Record) -> Result<String, AllocError>
    ensures { IfOk result (λ text. string_bytes text ≡ record_object «record».now) }
{
    match record {
        Record::Said(statement) => statement_object(alloc, *statement),
        Record::Decided {
            question,
            round,
            bit,
        } => format!(in alloc;
            "{{\"kind\":\"decided\",\"question\":{},\"round\":{},\"bit\":{}}}\n",
            *question,
            *round,
            u8::from(*bit)
        ),
    }
}

/// The object of a statement, in a line.
fn statement_object(alloc: Global, statement: Statement) -> Result<String, AllocError>
    ensures { IfOk result (λ text. string_bytes text ≡ statement_object statement) }
{
    let place = statement.place();
    format!(in alloc;
        "{{\"kind\":\"{}\",{},\"value\":\"{}\"}}\n",
        kind_word(statement.kind()),
        place_fields(alloc, place)?,
        value_word(statement.value())
    )
}

/// The fields of a place.
fn place_fields(alloc: Global, place: Place) -> Result<String, AllocError>
    ensures { IfOk result (λ text. string_bytes text ≡ place_fields place) }
{
    format!(in alloc;
        "\"question\":{},\"origin\":{},\"round\":{},\"step\":{}",
        place.question(),
        place.origin(),
        place.round(),
        place.step()
    )
}

/// The word of a value.
fn value_word(value: Value) -> &'static str
    ensures { result.now ≡ value_word value }
{
    match value {
        Value::Zero => "zero",
        Value::One => "one",
        Value::SureZero => "sure-zero",
        Value::SureOne => "sure-one",
        Value::Unsure => "unsure",
    }
}

/// The object of a number of records, in a line.
pub fn count_object(alloc: Global, records: &[Record]) -> Result<String, AllocError>
    ensures { IfOk result (λ text. string_bytes text ≡ count_object (length records.now)) }
{
    format!(in alloc; "{{\"records\":{}}}\n", records.len())
}

/// The object of settings and of a number of records, in a line. The seed is secret and not in it.
pub fn check_object(alloc: Global, settings: &Settings, count: usize) -> Result<Vec<u8>, AllocError>
    ensures { IfOk result (λ bytes. bytes.items ≡ check_object settings.now count) }
{
    let mut bytes = check_front(alloc, settings)?;
    let peers = peer_items(alloc, &settings.peers)?;
    bytes.extend_from_slice(behind_first(peers.as_bytes()))?;
    let rest = check_rest(alloc, settings, count)?;
    bytes.extend_from_slice(&rest)?;
    Ok(bytes)
}

/// Returns what stands before the peers: the header and the journal's path.
fn check_front(alloc: Global, settings: &Settings) -> Result<Vec<u8>, AllocError>
    ensures { IfOk result (λ bytes. bytes.items ≡ check_front settings.now) }
{
    let head = format!(in alloc;
        "{{{},\"journal\":\"",
        header_fields(alloc, &settings.header)?
    )?;
    let path = escaped(alloc, settings.journal.as_bytes())?;
    let mut bytes = Vec::new(alloc);
    bytes.extend_from_slice(head.as_bytes())?;
    bytes.extend_from_slice(&path)?;
    bytes.extend_from_slice(b"\",\"peers\":[")?;
    Ok(bytes)
}

/// The fields of a header.
fn header_fields(alloc: Global, header: &Header) -> Result<String, AllocError>
    ensures { IfOk result (λ text. string_bytes text ≡ header_fields header.now) }
{
    let size = header.size();
    format!(in alloc;
        "\"cluster\":{},\"n\":{},\"t\":{},\"questions\":{},\"me\":{}",
        header.cluster(),
        size.n(),
        size.t(),
        size.questions(),
        header.me()
    )
}

/// The peers, a comma before each.
fn peer_items(alloc: Global, peers: &[Address]) -> Result<String, AllocError>
    ensures { IfOk result (λ text. string_bytes text ≡ flat_map peer_item peers.now) }
{
    let mut text = String::new(alloc);
    for peer in peers {
        text.push_str(peer_item(alloc, peer)?.as_str())?;
    }
    Ok(text)
}

/// A peer behind a comma.
fn peer_item(alloc: Global, peer: &Address) -> Result<String, AllocError>
    ensures { IfOk result (λ text. string_bytes text ≡ peer_item peer.now) }
{
    format!(in alloc; ",\"{}\"", address_text(alloc, peer)?)
}

/// Returns what stands behind the peers: where the member listens, and the number of records.
fn check_rest(alloc: Global, settings: &Settings, count: usize) -> Result<Vec<u8>, AllocError>
    ensures { IfOk result (λ bytes. bytes.items ≡ check_rest settings.now count) }
{
    let doors = check_doors(alloc, &settings.desk, &settings.listen)?;
    let paths = check_paths(alloc, settings)?;
    let end = check_end(alloc, count)?;
    let mut bytes = Vec::new(alloc);
    bytes.extend_from_slice(doors.as_bytes())?;
    bytes.extend_from_slice(&paths)?;
    bytes.extend_from_slice(end.as_bytes())?;
    Ok(bytes)
}

/// Returns what stands behind the peers: the desk, and the address that is listened at, if there is
/// one.
fn check_doors(
    alloc: Global,
    desk: &Address,
    listen: &Option<Address>,
) -> Result<String, AllocError>
    ensures { IfOk result (λ text. string_bytes text ≡ check_doors desk.now listen.now) }
{
    let desk = address_text(alloc, desk)?;
    match listen {
        Some(listen) => format!(in alloc;
            "],\"desk\":\"{desk}\",\"listen\":\"{}\"",
            address_text(alloc, listen)?
        ),
        None => format!(in alloc; "],\"desk\":\"{desk}\""),
    }
}

/// The fields of the paths that may be left out.
fn check_paths(alloc: Global, settings: &Settings) -> Result<Vec<u8>, AllocError>
    ensures { IfOk result (λ bytes. bytes.items ≡ check_paths settings.now) }
{
    let mut bytes = path_field(alloc, "desk-socket", &settings.desk_socket)?;
    let epochs = path_field(alloc, "epochs", &settings.epochs)?;
    bytes.extend_from_slice(&epochs)?;
    Ok(bytes)
}

/// The field of the path of that name, if there is one.
fn path_field(alloc: Global, name: &str, path: &Option<String>) -> Result<Vec<u8>, AllocError>
    ensures { IfOk result
        (λ bytes. bytes.items ≡ path_field name.now (option_map string_bytes path.now)) }
{
    let mut bytes = Vec::new(alloc);
    let Some(path) = path else {
        return Ok(bytes);
    };
    let path = escaped(alloc, path.as_bytes())?;
    let front = format!(in alloc; ",\"{name}\":\"")?;
    bytes.extend_from_slice(front.as_bytes())?;
    bytes.extend_from_slice(&path)?;
    bytes.extend_from_slice(b"\"")?;
    Ok(bytes)
}

/// The text as JSON has it between quotes.
fn escaped(alloc: Global, text: &[u8]) -> Result<Vec<u8>, AllocError>
    ensures { IfOk result (λ bytes. bytes.items ≡ escaped text.now) }
{
    let mut bytes = Vec::new(alloc);
    for byte in text {
        push_escaped(&mut bytes, *byte)?;
    }
    Ok(bytes)
}

/// Puts a byte of a text behind the others, as JSON has it between quotes.
fn push_escaped(text: &mut Vec<u8>, byte: u8) -> Result<(), AllocError>
    ensures { IfOk result (λ _. text.new.items ≡ text.old.items ++ escaped_byte byte) }
{
    if byte == b'"' {
        text.extend_from_slice(b"\\\"")
    } else if byte == b'\\' {
        text.extend_from_slice(b"\\\\")
    } else if byte < 32 {
        text.extend_from_slice(&[
            b'\\',
            b'u',
            b'0',
            b'0',
            b'0' + byte / 16,
            hex_digit(byte % 16),
        ])
    } else {
        text.extend_from_slice(&[byte])
    }
}

/// The digit of a number below 16.
fn hex_digit(number: u8) -> u8
    requires { number < 16 }
    ensures { result ≡ hex_digit number }
{
    if number < 10 {
        b'0' + number
    } else {
        b'a' + (number - 10)
    }
}

/// Returns what stands at the end: the number of records.
fn check_end(alloc: Global, count: usize) -> Result<String, AllocError>
    ensures { IfOk result (λ text. string_bytes text ≡ check_end count) }
{
    format!(in alloc; ",\"records\":{count}}}\n")
}

/// Returns what stands behind the first byte.
pub(crate) fn behind_first(bytes: &[u8]) -> &[u8]
    ensures { result.now ≡ drop 1 bytes.now }
{
    match bytes {
        [_, rest @ ..] => rest,
        _ => bytes,
    }
}
