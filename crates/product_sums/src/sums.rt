//! Sums of the ends of an expression over rows.

ghost use Rattle.std.specs.Prelude.{◌≡◌, ◌<◌, ◌+◌, ◌*◌, length, map};
ghost use Rattle.std.specs.Int.{int_wrap, w128};
ghost use Rattle.aggregates.specs.Selections.{block_of, rows_in};
ghost use Rattle.query_model.specs.Answers.{total};
ghost use Rattle.query_model.specs.Queries.{term_of};
ghost use Rattle.query_model.specs.Truths.{span_of};
ghost use Rattle.query_model.specs.Validity.{declared_ranges, FitsSum};
ghost use Rattle.product_sums.specs.Products.{sum_over, term_end, HasValues, IsProductSum};

use crate::block_sums::sum_products;
use crate::factors::Factor;
use crate::fetched::PlaneRoom;
use crate::some_rows::{PartRows, SomeRows};
use crate::wrapping::plus;
use aggregates::End;
use known_column::LentColumns;
use plane_kernels::Mask;
use query_model::Expr;

// The ends at the rows of a block, added up.
fn sum_block(
    end: End,
    arg: &Expr,
    columns: &LentColumns<'_>,
    rows: &SomeRows<'_>,
    block: usize,
    room: &mut PlaneRoom,
) -> i128
    requires sums { IsProductSum columns.now.frame (term_of arg.now) }
    requires rows { length rows.now ≡ columns.now.frame.rows }
    requires values { HasValues columns.now (term_of arg.now) rows.now }
    requires block { 512 * block < columns.now.frame.rows }
    ensures { result ≡ int_wrap w128 (sum_over (block_of block rows.now)
        (λ i. term_end columns.now end (term_of arg.now) (512 * block + i))) }
{
    let _rows = columns.rows();
    let here = rows.block(block);
    if here.count() == 0 {
        return 0;
    }
    sum_products(columns, block, &here, &[Factor { term: arg, end }], room)
}

// The ends at all of the rows, added up in 128 bits that wrap around.
pub(crate) fn sum_wrapped(
    end: End,
    arg: &Expr,
    columns: &LentColumns<'_>,
    rows: &SomeRows<'_>,
) -> i128
    requires sums { IsProductSum columns.now.frame (term_of arg.now) }
    requires rows { length rows.now ≡ columns.now.frame.rows }
    requires values { HasValues columns.now (term_of arg.now) rows.now }
    ensures { result ≡ int_wrap w128 (sum_over rows.now (term_end columns.now end (term_of arg.now))) }
{
    let _rows = columns.rows();
    let mut room = PlaneRoom::new();
    let mut sum: i128 = 0;
    for block in 0..rows.rows().div_ceil(512) {
        sum = plus(sum, sum_block(end, arg, columns, rows, block, &mut room));
    }
    sum
}

// The low or the high ends of an expression at the mask's rows, added up. It costs counts of rows alone: one for each combination of the
// digits that were read of the columns in a product.
pub(crate) fn sum_ends(end: End, arg: &Expr, columns: &LentColumns<'_>, mask: &Mask) -> i128
    requires sums { IsProductSum columns.now.frame (term_of arg.now) }
    requires rows { length mask.now ≡ columns.now.frame.rows }
    requires values { HasValues columns.now (term_of arg.now) mask.now }
    requires fits { FitsSum columns.now.frame.rows (span_of (term_of arg.now) (declared_ranges columns.now.frame)) }
    ensures { result ≡ total (map (term_end columns.now end (term_of arg.now)) (rows_in mask.now)) }
{
    let _rows = columns.rows();
    let part = PartRows::all(mask);
    let rows = SomeRows::all(&part);
    sum_wrapped(end, arg, columns, &rows)
}
