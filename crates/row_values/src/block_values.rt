//! What an expression may be at the rows of a block of 64.

ghost use Rattle.std.specs.Prelude.{◌≡◌, ◌<◌, ◌*◌, length};
ghost use Rattle.known_column.specs.RowBlocks.{block_of};
ghost use Rattle.query_model.specs.Meaning.{ReadsBelow};
ghost use Rattle.query_model.specs.Queries.{term_of};
ghost use Rattle.query_model.specs.Validity.{declared_ranges, FitsWide};
ghost use Rattle.row_values.specs.BlockValues.{AreSpans, AreValues};
ghost use Rattle.row_values.specs.ShortSpans.{FitsShort};

use crate::block_nulls::{possible_rows, sure_rows};
use crate::short::ZERO;
use crate::short_arithmetic::widened;
use crate::short_spans::{declared_span, short_spans};
use crate::spans::span_of;
use interval_calc::{Interval, exactly};
use known_column::{LentColumns, RowBlock, blocks_have_their_rows};
use query_model::Expr;

/// For each row of a block whether an expression may have a value there, whether it surely has one (bit r of a word is that of row r),
/// and where it lies. What stands at a row where it is surely null, or behind the last row, is of no meaning.
#[derive(Drop)]
pub struct BlockValues {
    pub possible: u64,
    pub sure: u64,
    pub spans: [Interval; 64],
}

// The spans of a block's rows, by numbers of 64 bits.
fn read_short(expr: &Expr, columns: &LentColumns<'_>, number: usize, spans: &mut [Interval; 64])
    requires columns { ReadsBelow (length columns.now.frame.columns) (term_of expr.now) }
    requires fits { FitsShort (term_of expr.now) (declared_ranges columns.now.frame) }
    requires block { 64 * number < columns.now.frame.rows }
    ensures count { length spans.new ≡ 64 }
    ensures spans { AreSpans (term_of expr.now) columns.now number spans.new }
{
    let mut shorts = [ZERO; 64];
    short_spans(expr, columns, number, &mut shorts);
    for i in 0..64 {
        spans[i] = widened(shorts[i]);
    }
}

// The spans of a block's rows, row by row.
fn read_wide(
    expr: &Expr,
    columns: &LentColumns<'_>,
    number: usize,
    block: &RowBlock,
    spans: &mut [Interval; 64],
)
    requires columns { ReadsBelow (length columns.now.frame.columns) (term_of expr.now) }
    requires fits { FitsWide (term_of expr.now) (declared_ranges columns.now.frame) }
    requires number { 64 * number < columns.now.frame.rows }
    requires block { block.now ≡ block_of columns.now number }
    ensures count { length spans.new ≡ 64 }
    ensures spans { AreSpans (term_of expr.now) columns.now number spans.new }
{
    blocks_have_their_rows();
    for i in 0..block.rows() {
        spans[i] = span_of(expr, i, block);
    }
}

impl BlockValues {
    /// Room for what is known of a block.
    pub fn room() -> BlockValues {
        BlockValues {
            possible: 0,
            sure: 0,
            spans: [exactly(0); 64],
        }
    }

    /// Reads the rows of a block, from row 64 * number on. The digits of all columns are read to `block` where a value may pass 64 bits.
    pub fn read(
        &mut self,
        expr: &Expr,
        columns: &LentColumns<'_>,
        number: usize,
        block: &mut RowBlock,
    )
        requires columns { ReadsBelow (length columns.now.frame.columns) (term_of expr.now) }
        requires fits { FitsWide (term_of expr.now) (declared_ranges columns.now.frame) }
        requires number { 64 * number < columns.now.frame.rows }
        requires same { block.old.frame.columns ≡ columns.now.frame.columns }
        ensures same { block.new.frame.columns ≡ columns.now.frame.columns }
        ensures values { AreValues (term_of expr.now) columns.now number self.new }
    {
        self.possible = possible_rows(expr, columns, number);
        self.sure = sure_rows(expr, columns, number);
        if declared_span(expr, columns).is_some() {
            read_short(expr, columns, number, &mut self.spans);
        } else {
            block.read(columns, number);
            read_wide(expr, columns, number, block, &mut self.spans);
        }
    }
}
