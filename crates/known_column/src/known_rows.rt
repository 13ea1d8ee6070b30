//! What is known of rows, whatever keeps it: several columns, or a block of their rows.

ghost use Rattle.std.specs.Prelude.{◌≡◌, ◌<◌, length};
ghost use Rattle.interval_calc.specs.Intervals.{interval_of};
ghost use Rattle.query_model.specs.Knowledge.{ranges_of};
ghost use Rattle.query_model.specs.Truths.{IsInside};
ghost use Rattle.query_model.specs.Validity.{declared_ranges};
ghost use Rattle.known_column.specs.KnownTables.{KnownTable};

use crate::lent_columns::LentColumns;
use crate::row_block::RowBlock;
use interval_calc::Interval;
use query_model::Nullity;

/// Rows of several columns, of each of which it is known where its numbers lie and whether it is null.
pub trait KnownRows {
    ghost table: { Self → KnownTable };

    /// Where a row's number in a column lies, if it is not null.
    fn range(&self, column: usize, row: usize) -> Interval
        requires column { column < length (table self.now).frame.columns }
        requires row { row < (table self.now).frame.rows }
        ensures range { interval_of result ≡ (ranges_of (table self.now).frame (table self.now).known row column).numbers }
        ensures within { IsInside (interval_of result) (declared_ranges (table self.now).frame column).numbers };

    /// Whether a row is null in a column.
    fn missing(&self, column: usize, row: usize) -> Nullity
        requires column { column < length (table self.now).frame.columns }
        requires row { row < (table self.now).frame.rows }
        ensures { result ≡ (ranges_of (table self.now).frame (table self.now).known row column).null };
}

/// Reads one bit of each plane for each call.
impl KnownRows for LentColumns<'_> {
    ghost table = { λ c. c };

    fn range(&self, column: usize, row: usize) -> Interval {
        LentColumns::range(self, column, row)
    }

    fn missing(&self, column: usize, row: usize) -> Nullity {
        LentColumns::missing(self, column, row)
    }
}

/// Has the digits of its rows at hand.
impl KnownRows for RowBlock {
    ghost table = { λ b. b };

    fn range(&self, column: usize, row: usize) -> Interval {
        RowBlock::range(self, column, row)
    }

    fn missing(&self, column: usize, row: usize) -> Nullity {
        RowBlock::missing(self, column, row)
    }
}
