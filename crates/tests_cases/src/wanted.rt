//! What a run must leave, and what differs from it.

use crate::entry::{Case, Entry, first_word, is_one_of};
use crate::fault::CaseFault;
use crate::scene::Left;
use daq_cli::Status;
use std::alloc::{AllocError, Global};

/// The status of a word.
pub fn status_of(case: &Case) -> Result<Status, CaseFault> {
    let Some(entry) = case.last("status") else {
        return Ok(Status::Done);
    };
    match entry.rest.as_str() {
        "Done" => Ok(Status::Done),
        "Usage" => Ok(Status::Usage),
        "QueryRefused" => Ok(Status::QueryRefused),
        "TableRefused" => Ok(Status::TableRefused),
        "FileRefused" => Ok(Status::FileRefused),
        "ReadFault" => Ok(Status::ReadFault),
        "WriteFault" => Ok(Status::WriteFault),
        "NoMemory" => Ok(Status::NoMemory),
        "ReportRefused" => Ok(Status::ReportRefused),
        _ => Err(CaseFault::at(entry.line, "no such status")),
    }
}

// The 64-bit FNV-1a digest.
fn digest(bytes: &[u8]) -> u64 {
    let mut digest = 0xcbf2_9ce4_8422_2325u64;
    for byte in bytes {
        digest = (digest ^ u64::from(*byte)).wrapping_mul(0x0000_0100_0000_01b3);
    }
    digest
}

// Whether an entry says all of a sink, and not only something of it.
fn is_whole(entry: &Entry) -> bool {
    let (first, _) = first_word(entry.rest.as_str());
    !is_one_of(first, &["begins", "ends", "size", "digest"])
}

// Whether a later entry says the same in another way.
fn is_replaced(entry: &Entry, later: &Entry) -> bool {
    let (first, _) = first_word(entry.rest.as_str());
    let (other, _) = first_word(later.rest.as_str());
    entry.key.as_str() == later.key.as_str()
        && (is_whole(entry) || is_whole(later) || first == other)
}

// Whether the bytes are as an entry says.
fn is_so(entry: &Entry, bytes: &[u8]) -> Result<bool, CaseFault> {
    let (first, rest) = first_word(entry.rest.as_str());
    match first {
        "" => Ok(bytes == entry.bytes.as_slice()),
        "begins" => Ok(bytes.starts_with(&entry.bytes)),
        "ends" => Ok(bytes.ends_with(&entry.bytes)),
        "front" => Ok(Some(bytes) == entry.bytes.get(..entry.number(rest)?)),
        "size" => Ok(bytes.len() == entry.number(rest)?),
        "digest" => match u64::from_str_radix(rest, 16) {
            Ok(wanted) => Ok(digest(bytes) == wanted),
            Err(_) => Err(CaseFault::at(entry.line, "no digest")),
        },
        "any" => Ok(true),
        _ => Err(CaseFault::at(entry.line, "no such word")),
    }
}

// The number of the first line at which the bytes differ, and that line of the first ones.
fn first_other_line(alloc: Global, bytes: &[u8], wanted: &[u8]) -> Result<String, AllocError> {
    let mut number = 0u64;
    let mut others = wanted.split(|byte| *byte == b'\n');
    for line in bytes.split(|byte| *byte == b'\n') {
        number = number.saturating_add(1);
        if others.next() != Some(line) {
            let text = std::str::from_utf8(line).unwrap_or("(no text)");
            return format!(in alloc; "line {number} is `{text}`");
        }
    }
    format!(in alloc; "it ends behind line {number}")
}

// What differs from what the case says of a sink, if anything does.
fn other_of(
    alloc: Global,
    case: &Case,
    sink: &str,
    bytes: &[u8],
) -> Result<Option<String>, CaseFault> {
    let mut is_said = false;
    for (at, entry) in case.entries.iter().enumerate() {
        if entry.key.as_str() != sink {
            continue;
        }
        is_said = true;
        let replaced = case
            .entries
            .iter()
            .skip(at)
            .skip(1)
            .any(|later| is_replaced(entry, later));
        if !replaced && !is_so(entry, bytes)? {
            let rest = entry.rest.as_str();
            let line = first_other_line(alloc, bytes, &entry.bytes)?;
            return Ok(Some(format!(in alloc; "{sink} {rest}: {line}")?));
        }
    }
    if !is_said && !bytes.is_empty() {
        let line = first_other_line(alloc, bytes, &[])?;
        return Ok(Some(format!(in alloc; "{sink}: {line}")?));
    }
    Ok(None)
}

// Whether these are the places that an entry says, `AT+SIZE` parted by blanks.
fn are_places(entry: &Entry, places: &[(u64, usize)]) -> Result<bool, CaseFault> {
    let mut rest = places.iter();
    for word in entry.rest.split_whitespace() {
        let (at, size) = word.split_once('+').unwrap_or((word, ""));
        let place = (entry.number(at)? as u64, entry.number(size)?);
        if rest.next() != Some(&place) {
            return Ok(false);
        }
    }
    Ok(rest.next().is_none())
}

/// What differs from what the case says, if anything does.
pub fn first_other(alloc: Global, case: &Case, left: &Left) -> Result<Option<String>, CaseFault> {
    let status = left.status;
    for (sink, bytes) in [("err", &left.err), ("out", &left.out), ("made", &left.made)] {
        if let Some(other) = other_of(alloc, case, sink, bytes)? {
            return Ok(Some(format!(in alloc; "{other} ({status:?})")?));
        }
    }
    if status != status_of(case)? {
        return Ok(Some(format!(in alloc; "status {status:?}")?));
    }
    if let Some(entry) = case.last("places")
        && !are_places(entry, &left.places)?
    {
        let places = &left.places;
        return Ok(Some(format!(in alloc; "places {places:?}")?));
    }
    Ok(None)
}
