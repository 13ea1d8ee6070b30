//! The texts of the ends of a bound, each in a buffer of its own.

ghost use Rattle.std.specs.Prelude.{◌≡◌, ◌≤◌, Some, decimal, length};
ghost use Rattle.daq_table.specs.ValueTexts.{text_of_value};
ghost use Rattle.daq_report.specs.Intervals.{column_of, face_text, fraction_text};
ghost use Rattle.daq_report.specs.Ends.{CanShow, HasNumber, IsThere, decimals_of, fraction_of};

use daq_table::{ColumnHead, Head, Kind, NoRoom, TextBuf, value_text, written_number};
use interval_calc::Fraction;
use query_model::{Face, TypedQuery};

/// A count in decimal digits.
pub fn written_count(count: u64) -> TextBuf
    ensures text { result ≡ decimal count }
    ensures short { length result ≤ 100 }
{
    written_number(i128::from(count), 0)
}

// The decimals of the numbers of a kind.
fn decimals(kind: Kind) -> u8
    ensures { result ≡ decimals_of kind }
{
    match kind {
        Kind::Dec(scale) => scale,
        Kind::Int | Kind::Date | Kind::Text => 0,
    }
}

// A value of a column. It fits, since there are at most 255 decimals.
pub(crate) fn written_value(column: &ColumnHead, value: i128) -> TextBuf
    requires { HasNumber column.now value }
    ensures text { result ≡ text_of_value column.now value }
    ensures short { length result ≤ 512 }
{
    let _decimals = decimals(column.kind);
    let mut text = TextBuf::new();
    match value_text(column, value, &mut text) {
        Ok(()) => text,
        Err(NoRoom) => unreachable!(),
    }
}

// The head of a column of the query.
pub(crate) fn column_at<'a>(head: &'a Head, query: &TypedQuery, column: usize) -> &'a ColumnHead
    requires { IsThere head.now query.now column }
    ensures { column_of head.now query.now column ≡ Some result.now }
{
    &head.columns.as_slice()[query.columns.as_slice()[column]]
}

// An end of a bound under a face.
pub(crate) fn written_end(head: &Head, query: &TypedQuery, face: Face, value: i128) -> TextBuf
    requires { CanShow head.now query.now face value }
    ensures text { result ≡ face_text head.now query.now face value }
    ensures short { length result ≤ 512 }
{
    match face {
        Face::Number(scale) => written_number(value, scale),
        Face::OfColumn(column) => written_value(column_at(head, query, column as usize), value),
    }
}

// An end of the interval of an average: a sum over a number of rows.
pub(crate) fn written_fraction(
    head: &Head,
    query: &TypedQuery,
    face: Face,
    ratio: Fraction,
) -> TextBuf
    requires { CanShow head.now query.now face ratio.num }
    ensures { result ≡ fraction_text head.now query.now face (fraction_of ratio) }
{
    let mut text = written_end(head, query, face, ratio.num);
    text.append(b"/");
    text.append(written_count(ratio.den).bytes());
    text
}
