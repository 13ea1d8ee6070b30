//! Whether what is kept of a cell is brought to rows that moved, or all rows are added one by one, which is faster where many rows moved
//! and many planes are read. It affects speed alone.

use crate::kept_product::KeptProduct;
use crate::signs::count_of_counts;
use crate::tally::{CellOf, CountedRows};
use known_column::LentColumns;
use plane_kernels::Mask;
use query_model::Expr;

// To add all rows of a block one by one costs as much as some multiple of so many counts of rows.
const COUNTS_FOR_ROWS: u64 = 1024;

// In how many blocks of 512 two masks have other rows.
pub(crate) fn count_moved_blocks(mask: &Mask, other: &Mask) -> usize {
    let mut moved = 0;
    for block in 0..mask.rows().min(other.rows()).div_ceil(512) {
        if mask.block(block) != other.block(block) {
            moved += 1;
        }
    }
    moved
}

// How many planes of the columns in an expression are unread.
fn unread_planes(expr: &Expr, columns: &LentColumns<'_>) -> u64 {
    match expr {
        Expr::Column(column) => {
            let column = usize::from(*column);
            if column < columns.len() {
                u64::from(columns.unread(column))
            } else {
                0
            }
        }
        Expr::Literal(_) => 0,
        Expr::Add(a, b) | Expr::Sub(a, b) | Expr::Mul(a, b) => {
            unread_planes(a, columns).saturating_add(unread_planes(b, columns))
        }
    }
}

// How many counts a block may cost: sums that are brought to the rows serve the planes that are still unread too.
fn most_counts(expr: &Expr, columns: &LentColumns<'_>) -> u64 {
    COUNTS_FOR_ROWS.saturating_mul(unread_planes(expr, columns).saturating_add(4))
}

// Whether the rows of a cell, or so few of its blocks, moved that what is kept of it soon follows. While no row moves a plane costs what it
// adds alone, however many were read.
pub(crate) fn is_soon_followed(
    arg: &Expr,
    columns: &LentColumns<'_>,
    rows: CountedRows<'_>,
    kept: &Option<KeptProduct>,
    place: CellOf,
) -> bool {
    let Some(product) = kept else {
        return true;
    };
    let most = most_counts(arg, columns);
    let counts = count_of_counts(arg, columns).saturating_mul(u64::from(place.cells));
    if counts <= most {
        return true;
    }
    let blocks = rows.may.rows().div_ceil(512);
    let moved = product.moved_blocks(rows, place.cell as usize);
    counts.saturating_mul(moved as u64) <= most.saturating_mul(blocks as u64)
}
