//! The bytes before the planes.

ghost use Rattle.std.specs.Prelude.{◌≡◌, ◌≤◌, ◌*◌, ◌++◌, length, IfOk, IsTrue, OnOk};
ghost use Rattle.std.specs.Int.{w32, to_le_bytes};
ghost use Rattle.std.specs.List.{flat_map, list_all};
ghost use Rattle.plane_file.specs.Format.{CanBeSpelled, CanBeSpelledColumn, column_bytes, counted, first_bytes, header_bytes, heads_bytes};
ghost use Rattle.plane_file.specs.Format.{is_short_text, kind_byte, kind_number, numbers_bytes, plane_count, scale_byte, signed_bytes};

use daq_table::{ColumnHead, Ends, Head, Kind, Text, ends, planes, width};
use std::alloc::{AllocError, Global};

// The version that is written.
const VERSION: u32 = 2;

// The number of a kind.
fn kind_number(kind: Kind) -> u8
    ensures number { result ≡ kind_number kind }
    ensures few { result ≤ 3 }
{
    match kind {
        Kind::Int => 0,
        Kind::Dec(_) => 1,
        Kind::Date => 2,
        Kind::Text => 3,
    }
}

// The kind of a column, and whether it is nullable.
fn kind_byte(column: &ColumnHead) -> u8
    ensures { result ≡ kind_byte column.now }
{
    kind_number(column.kind) + if column.nullable { 128 } else { 0 }
}

// The decimals of a kind.
fn scale_byte(kind: Kind) -> u8
    ensures { result ≡ scale_byte kind }
{
    match kind {
        Kind::Int | Kind::Date | Kind::Text => 0,
        Kind::Dec(scale) => scale,
    }
}

// Appends a number with its sign.
fn push_signed(number: i64, bytes: &mut Vec<u8>) -> Result<(), AllocError>
    ensures { OnOk result (bytes.new.items ≡ bytes.old.items ++ signed_bytes number) }
{
    bytes.extend_from_slice(&number.to_le_bytes())
}

// Appends the least and the greatest number of a column.
fn push_ends(ends: Ends, bytes: &mut Vec<u8>) -> Result<(), AllocError>
    ensures { OnOk result (bytes.new.items ≡ bytes.old.items ++ (signed_bytes ends.base ++ signed_bytes ends.top)) }
{
    push_signed(ends.base, bytes)?;
    push_signed(ends.top, bytes)
}

// Appends a small number.
fn push_count(count: u32, bytes: &mut Vec<u8>) -> Result<(), AllocError>
    ensures { OnOk result (bytes.new.items ≡ bytes.old.items ++ to_le_bytes w32 count) }
{
    bytes.extend_from_slice(&count.to_le_bytes())
}

// The first four bytes of the head of a column.
fn first_bytes(column: &ColumnHead) -> [u8; 4]
    ensures { result ≡ first_bytes column.now }
{
    let name = column.name.as_slice().len() as u8;
    [
        kind_byte(column),
        scale_byte(column.kind),
        width(column),
        name,
    ]
}

// Appends what stands before the name of a column.
fn push_numbers(column: &ColumnHead, bytes: &mut Vec<u8>) -> Result<(), AllocError>
    requires few { length column.now.names ≤ 65536 }
    ensures { OnOk result (bytes.new.items ≡ bytes.old.items ++ numbers_bytes column.now) }
{
    bytes.extend_from_slice(&first_bytes(column))?;
    push_ends(ends(column), bytes)?;
    push_count(column.names.as_slice().len() as u32, bytes)
}

// Appends each text behind its length.
fn push_texts(texts: &[Text], bytes: &mut Vec<u8>) -> Result<(), AllocError>
    requires short { IsTrue (list_all is_short_text texts.now) }
    ensures { OnOk result (bytes.new.items ≡ bytes.old.items ++ flat_map counted texts.now) }
{
    for text in texts {
        bytes.push(text.as_slice().len() as u8)?;
        bytes.extend_from_slice(text.as_slice())?;
    }
    Ok(())
}

// Appends the head of a column.
fn push_column(column: &ColumnHead, bytes: &mut Vec<u8>) -> Result<(), AllocError>
    requires spelled { CanBeSpelledColumn column.now }
    ensures { OnOk result (bytes.new.items ≡ bytes.old.items ++ column_bytes column.now) }
{
    push_numbers(column, bytes)?;
    bytes.extend_from_slice(column.name.as_slice())?;
    push_texts(column.names.as_slice(), bytes)
}

// The heads of all columns.
pub(crate) fn spelled_heads(alloc: Global, head: &Head) -> Result<Vec<u8>, AllocError>
    requires spelled { CanBeSpelled head.now }
    ensures { IfOk result (λ bytes. bytes.items ≡ heads_bytes head.now.columns) }
{
    let mut bytes = Vec::new(alloc);
    for column in head.columns.as_slice() {
        push_column(column, &mut bytes)?;
    }
    Ok(bytes)
}

// The first 32 bytes, where the heads have so many.
pub(crate) fn spelled_header(alloc: Global, head: &Head, size: u64) -> Result<Vec<u8>, AllocError>
    requires spelled { CanBeSpelled head.now }
    requires size { size ≡ length (heads_bytes head.now.columns) }
    ensures { IfOk result (λ bytes. bytes.items ≡ header_bytes 2 head.now) }
{
    let columns = head.columns.as_slice().len() as u32;
    let mut bytes = Vec::from_slice(alloc, b"DAQPLANE")?;
    bytes.extend_from_slice(&VERSION.to_le_bytes())?;
    bytes.extend_from_slice(&columns.to_le_bytes())?;
    bytes.extend_from_slice(&head.rows.to_le_bytes())?;
    bytes.extend_from_slice(&size.to_le_bytes())?;
    Ok(bytes)
}

/// How many planes the columns of a table have together.
pub fn plane_count(head: &Head) -> u64
    ensures count { result ≡ plane_count head.now.columns }
    ensures few { result ≤ 4160 }
{
    planes_in(head.columns.as_slice())
}

// How many planes these columns have together.
pub(crate) fn planes_in(columns: &[ColumnHead]) -> u64
    requires few { length columns.now ≤ 64 }
    ensures count { result ≡ plane_count columns.now }
    ensures few { result ≤ 65 * length columns.now }
{
    let mut count = 0;
    for column in columns {
        count += u64::from(planes(column));
    }
    count
}
