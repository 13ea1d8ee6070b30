//! One record of a CSV: the header, or a row.

ghost use Rattle.std.specs.Prelude.{◌≡◌, ◌↔◌, ◌+◌, ◌*◌, ◌<◌};
ghost use Rattle.std.specs.Prelude.{◌^◌, length, slice_get, slice_index_or, MatchOption, OnOk, IfErr, IsTrue, Some, []};
ghost use Rattle.daq_table.specs.Schemas.{item_names, kept_places};
ghost use Rattle.csv_load.specs.Faults.{IsFirstDifference};
ghost use Rattle.csv_load.specs.Kept.{kept_fields, place_of};
ghost use Rattle.csv_load.specs.States.{RefusesAt, RefusesHeader, RefusesRecord, RefusesRow, TakesRecord, TakesRow, TookAll};

use crate::column::Column;
use crate::fault::TableFault;
use crate::fields::RecordFields;
use crate::limits::Limits;
use crate::place::Place;
use daq_table::{Schema, SchemaItem};
use std::alloc::Global;

// Whether that field of the record is the text.
fn has_field(fields: &RecordFields, place: usize, text: &[u8]) -> bool
    ensures { IsTrue result ↔ (slice_get fields.now place ≡ Some text.now) }
{
    if place >= fields.len() {
        return false;
    }
    fields.get(place) == text
}

// The first place where the header and the names of the schema's items differ.
fn first_difference(header: &RecordFields, items: &[SchemaItem]) -> Option<usize>
    ensures { MatchOption result (header.now ≡ item_names items.now)
        (IsFirstDifference header.now (item_names items.now)) }
{
    for (place, item) in items.iter().enumerate() {
        if !has_field(header, place, item.name()) {
            return Some(place);
        }
    }
    if header.len() > items.len() {
        Some(items.len())
    } else {
        None
    }
}

// Takes the header, if it is the names of the schema's items.
fn take_header(header: &RecordFields, items: &[SchemaItem]) -> Result<(), TableFault>
    ensures ok { OnOk result (header.now ≡ item_names items.now) }
    ensures err { IfErr result (RefusesHeader items.now header.now) }
{
    match first_difference(header, items) {
        Some(column) => Err(TableFault::HeaderDiffers { column }),
        None => Ok(()),
    }
}

// The place of a column's field.
fn place_at(schema: &Schema, column: usize) -> usize
    requires { column < length schema.now.columns }
    ensures place { result ≡ place_of schema.now.items column }
    ensures within { result < length schema.now.items }
{
    let places = schema.places.as_slice();
    places[column]
}

// The field of a column.
fn field_of<'f>(fields: &'f RecordFields, schema: &Schema, column: usize) -> &'f [u8]
    requires column { column < length schema.now.columns }
    requires full { length fields.now ≡ length schema.now.items }
    ensures { result.now ≡ slice_index_or (kept_fields schema.now.items fields.now) column [] }
{
    fields.get(place_at(schema, column))
}

// Hands each column its field, up to the first that is refused.
fn take_fields(
    alloc: Global,
    columns: &mut [Column],
    fields: &RecordFields,
    schema: &Schema,
    limit: u64,
    entry: usize,
) -> Result<(), TableFault>
    requires wide { length columns.old ≡ length schema.now.columns }
    requires full { length fields.now ≡ length schema.now.items }
    ensures ok { OnOk result (TookAll limit columns.old (kept_fields schema.now.items fields.now) columns.new) }
    ensures err { IfErr result (RefusesAt (kept_places schema.now.items) limit entry columns.old fields.now) }
{
    for (number, column) in columns.iter_mut().enumerate() {
        let text = field_of(fields, schema, number);
        column.take(
            alloc,
            text,
            limit,
            Place {
                entry,
                column: place_at(schema, number),
            },
        )?;
    }
    Ok(())
}

// Takes a row after so many.
fn take_row(
    alloc: Global,
    columns: &mut [Column],
    fields: &RecordFields,
    schema: &Schema,
    limits: &Limits,
    rows: usize,
) -> Result<(), TableFault>
    requires small { rows + 1 < 2 ^ 32 }
    requires wide { length columns.old ≡ length schema.now.columns }
    ensures ok { OnOk result (TakesRow schema.now.items limits.now rows columns.old fields.now columns.new) }
    ensures err { IfErr result (RefusesRow schema.now.items limits.now rows columns.old fields.now) }
{
    let entry = rows + 1;
    if entry as u64 > limits.rows {
        return Err(TableFault::TooManyRows { limit: limits.rows });
    }
    let count = entry as u64 * columns.len() as u64;
    if count > limits.cells {
        return Err(TableFault::TooManyCells { count });
    }
    let want = schema.items.as_slice().len();
    if fields.len() != want {
        return Err(TableFault::UnequalLength {
            entry,
            got: fields.len(),
            want,
        });
    }
    take_fields(alloc, columns, fields, schema, limits.names, entry)
}

/// Takes a record after so many: the header first, and then rows.
pub(crate) fn take_record(
    alloc: Global,
    columns: &mut [Column],
    fields: &RecordFields,
    schema: &Schema,
    limits: &Limits,
    records: usize,
) -> Result<(), TableFault>
    requires small { records < 2 ^ 32 }
    requires wide { length columns.old ≡ length schema.now.columns }
    ensures ok { OnOk result (TakesRecord schema.now.items limits.now records columns.old fields.now columns.new) }
    ensures err { IfErr result (RefusesRecord schema.now.items limits.now records columns.old fields.now) }
{
    if records == 0 {
        take_header(fields, schema.items.as_slice())
    } else {
        take_row(alloc, columns, fields, schema, limits, records - 1)
    }
}
