//! The text of the keys of a cell: for each group column what its part may be.

ghost use Rattle.std.specs.Prelude.{◌≡◌, map, IfSome, Some};
ghost use Rattle.outer_world.specs.Whole.{Writes};
ghost use Rattle.query_model.specs.declared.bounds.Nullity.TheVariants.{Possibly};
ghost use Rattle.row_groups.specs.Partition.{range_for};
ghost use Rattle.daq_report.specs.Ends.{CanShowKey, CanShowSpan, IsThere, text_of_span};
ghost use Rattle.daq_report.specs.Groups.{behind_comma, key_text, part_text, span_text};
ghost use Rattle.daq_report.specs.Intervals.{column_of, interval_text};

use crate::intervals::{Ends, write_null};
use crate::texts::{column_at, written_value};
use daq_table::{ColumnHead, Head};
use outer_world::{Failed, Sink, write_pieces, write_whole};
use query_model::{Nullity, TypedQuery};
use row_groups::PartRange;

// The ends of a part of a key.
fn ends_of_part(column: &ColumnHead, part: PartRange) -> Ends
    requires { CanShowSpan column.now (range_for part).numbers }
    ensures { text_of_span result ≡ span_text column.now (range_for part).numbers }
{
    Ends {
        equal: part.low == part.high,
        low: written_value(column, i128::from(part.low)),
        high: written_value(column, i128::from(part.high)),
    }
}

// Writes one text where the ends are equal, else both.
fn write_span<K: Sink>(ends: &Ends, out: &mut K) -> Result<(), Failed>
    ensures { Writes result (K.state out.old) (K.state out.new) (text_of_span ends.now) }
{
    if ends.equal {
        return write_whole(out, ends.low.bytes());
    }
    write_pieces(out, &[ends.low.bytes(), b"..", ends.high.bytes()])
}

// Writes the ends of a part that may be null.
fn write_span_or_null<K: Sink>(ends: &Ends, out: &mut K) -> Result<(), Failed>
    ensures { Writes result (K.state out.old) (K.state out.new) (interval_text Possibly (text_of_span ends.now)) }
{
    write_span(ends, out)?;
    write_whole(out, b" or null")
}

// Writes what the part of a column may be.
fn write_part<K: Sink>(column: &ColumnHead, part: PartRange, out: &mut K) -> Result<(), Failed>
    requires { CanShowSpan column.now (range_for part).numbers }
    ensures { Writes result (K.state out.old) (K.state out.new) (part_text (Some column.now) (range_for part)) }
{
    match part.null {
        Nullity::Never => write_span(&ends_of_part(column, part), out),
        Nullity::Possibly => write_span_or_null(&ends_of_part(column, part), out),
        Nullity::Always => write_null(out),
    }
}

// Writes the part of a column at a place, each but the first behind a comma.
fn write_place<K: Sink>(
    head: &Head,
    query: &TypedQuery,
    place: usize,
    column: u8,
    part: PartRange,
    out: &mut K,
) -> Result<(), Failed>
    requires there { IsThere head.now query.now column }
    requires shows { IfSome (column_of head.now query.now column) (λ h. CanShowSpan h (range_for part).numbers) }
    ensures { Writes result (K.state out.old) (K.state out.new)
        (behind_comma place (part_text (column_of head.now query.now column) (range_for part))) }
{
    let column = column_at(head, query, usize::from(column));
    if place == 0 {
        return write_part(column, part, out);
    }
    write_whole(out, b", ")?;
    write_part(column, part, out)
}

// Writes the parts of a key, parted by commas.
pub(crate) fn write_key<K: Sink>(
    head: &Head,
    query: &TypedQuery,
    columns: &[u8],
    parts: &[PartRange],
    out: &mut K,
) -> Result<(), Failed>
    requires { CanShowKey head.now query.now columns.now (map range_for parts.now) }
    ensures { Writes result (K.state out.old) (K.state out.new) (key_text head.now query.now columns.now (map range_for parts.now)) }
{
    for place in 0..parts.len() {
        write_place(head, query, place, columns[place], parts[place], out)?;
    }
    Ok(())
}
