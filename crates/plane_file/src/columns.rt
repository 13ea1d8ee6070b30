//! The heads of columns, read one after the other.

ghost use Rattle.std.specs.Prelude.{◌<◌, ◌≤◌, ◌^◌, length, IfErr, IfOk, []};
ghost use Rattle.plane_file.specs.Checks.{column_checks, columns_checks, first_fault, titles_of};
ghost use Rattle.plane_file.specs.Fronts.{AreColumns, IsColumnAt, MayFail};

use crate::checks::fields_fault;
use crate::fields::kind_at;
use crate::file_fault::FileFault;
use crate::names::read_names;
use crate::places::{byte_at, number32_at, part_at, signed_at};
use daq_table::{ColumnHead, Name};
use std::alloc::Global;

// The column whose head begins at a place, behind these, and the place behind it.
fn read_column(
    alloc: Global,
    bytes: &[u8],
    columns: &[ColumnHead],
    at: usize,
) -> Result<(ColumnHead, usize), FileFault>
    requires few { length bytes.now < 2 ^ 32 }
    requires place { at ≤ length bytes.now }
    ensures ok { IfOk result (λ read. IsColumnAt bytes.now (titles_of columns.now) at read.0 read.1) }
    ensures err { IfErr result (MayFail (first_fault (column_checks bytes.now (titles_of columns.now) at))) }
{
    if let Some(fault) = fields_fault(bytes, columns, at) {
        return Err(fault);
    }
    let length = byte_at(bytes, at + 3) as usize;
    let title = Vec::from_slice(alloc, part_at(bytes, at + 24, length))?;
    let count = number32_at(bytes, at + 20);
    let (names, end) = read_names(alloc, bytes, at + 24 + length, count)?;
    let column = ColumnHead {
        name: Name::new(title),
        kind: kind_at(bytes, at),
        nullable: byte_at(bytes, at) >= 128,
        base: signed_at(bytes, at + 4),
        top: signed_at(bytes, at + 12),
        names,
    };
    Ok((column, end))
}

/// So many columns, whose heads are all that stands behind the first 32 bytes.
pub(crate) fn read_columns(
    alloc: Global,
    bytes: &[u8],
    count: u32,
) -> Result<Vec<ColumnHead>, FileFault>
    requires few { length bytes.now < 2 ^ 32 }
    requires header { 32 ≤ length bytes.now }
    ensures ok { IfOk result (λ columns. AreColumns count bytes.now columns.items) }
    ensures err { IfErr result (MayFail (first_fault (columns_checks count bytes.now [] 32))) }
{
    let mut columns = Vec::new(alloc);
    let mut place = 32;
    for _ in 0..count {
        let (column, end) = read_column(alloc, bytes, &columns, place)?;
        columns.push(column)?;
        place = end;
    }
    if place != bytes.len() {
        return Err(FileFault::BadHead { at: place as u64 });
    }
    Ok(columns)
}
