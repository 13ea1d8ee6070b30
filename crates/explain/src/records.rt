//! A record of a CSV: its line, and its fields.

use csv::{ByteRecord, ReaderBuilder};
use std::alloc::{AllocError, Global};

// A record, and the line where it begins, counted from 1.
#[derive(Drop)]
pub(crate) struct Found {
    pub(crate) line: usize,
    pub(crate) record: ByteRecord,
}

// The bytes without those marks at their front that are no part of the text.
fn past_marks(bytes: &[u8]) -> &[u8] {
    let mut rest = bytes;
    for _ in 0..bytes.len() {
        match rest.strip_prefix(b"\xef\xbb\xbf") {
            Some(behind) => rest = behind,
            None => return rest,
        }
    }
    rest
}

// The line of the first byte from this place on that ends no line.
fn line_of(bytes: &[u8], place: usize) -> usize {
    let mut line = 1usize;
    for (at, byte) in bytes.iter().enumerate() {
        if at >= place && *byte != b'\n' && *byte != b'\r' {
            break;
        }
        if *byte == b'\n' {
            line = line.saturating_add(1);
        }
    }
    line
}

// The record with this number, counted from 1, if there is one.
pub(crate) fn record_number(
    alloc: Global,
    input: &[u8],
    number: usize,
) -> Result<Option<Found>, AllocError> {
    let bytes = past_marks(input);
    let mut reader = ReaderBuilder::new()
        .has_headers(false)
        .flexible(true)
        .from_reader(alloc, bytes);
    let mut record = ByteRecord::new(alloc);
    for _ in 0..number {
        match reader.read_byte_record(&mut record) {
            Ok(true) => {}
            Ok(false) => return Ok(None),
            Err(_) => return Err(AllocError),
        }
    }
    let place = record.position().map_or(0, |place| place.byte());
    Ok(Some(Found {
        line: line_of(bytes, place as usize),
        record,
    }))
}
