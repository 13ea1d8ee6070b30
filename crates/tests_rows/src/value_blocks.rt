//! Expressions over a column whose numbers lie from -5 to 10 and whose cells may be null, named twice: of the second naming some planes are
//! read. Each row of each block is compared with what is known of it by itself.

ghost use Rattle.std.specs.Prelude.{◌≡◌, ◌≤◌, ◌<◌, length, pos, negsuc, IfOk};
ghost use Rattle.query_model.specs.Meaning.{ReadsBelow};
ghost use Rattle.query_model.specs.Queries.{term_of};
ghost use Rattle.query_model.specs.Validity.{declared_ranges, FitsWide};

use crate::heads::column_head;
use daq_table::{ColumnHeads, Head};
use known_column::{KnownColumns, LentColumns, RowBlock};
use plane_kernels::{Plane, transpose, validity};
use query_model::{Expr, Nullity};
use row_values::{BlockValues, null_of, span_of};
use std::alloc::{AllocError, Global};
use std::test::Fail;

const WIDTH: u8 = 4;

// The columns at so many rows, of which nothing is read.
fn columns(alloc: Global, rows: u32) -> Result<KnownColumns, AllocError>
    requires { rows ≤ 16777216 }
    ensures rows { IfOk result (λ columns. columns.frame.rows ≡ rows) }
    ensures two { IfOk result (λ columns. length columns.frame.columns ≡ 2) }
    ensures first { IfOk result (λ columns. (declared_ranges columns.frame 0).numbers ≡ record { low = negsuc 4; high = pos 10 }) }
    ensures second { IfOk result (λ columns. (declared_ranges columns.frame 1).numbers ≡ record { low = negsuc 4; high = pos 10 }) }
{
    let change = column_head(alloc, b"change", -5, 10, true)?;
    let head = Head {
        rows: u64::from(rows),
        columns: ColumnHeads::new(vec![in alloc; change]?),
    };
    KnownColumns::open(alloc, &[0, 0], &head)
}

// The cells of the column, where a null has the number 0, and room for a plane of them.
#[derive(Drop)]
struct Cells {
    numbers: Vec<u64>,
    nulls: Vec<bool>,
    plane: Plane,
}

// Cells of so many rows: numbers each unlike its neighbours, and every third row null.
fn some_cells(alloc: Global, rows: usize) -> Result<Cells, AllocError> {
    let mut numbers = Vec::with_capacity(alloc, rows)?;
    let mut nulls = Vec::with_capacity(alloc, rows)?;
    for row in 0..rows {
        let null = row % 3 == 1;
        numbers.push(if null { 0 } else { row as u64 * 7 % 16 })?;
        nulls.push(null)?;
    }
    let plane = Plane::blank(alloc, rows)?;
    Ok(Cells {
        numbers,
        nulls,
        plane,
    })
}

// Takes the next plane of the second naming, and says whether it was taken.
fn take_next(columns: &mut KnownColumns, cells: &mut Cells) -> bool
    ensures { columns.new.frame ≡ columns.old.frame }
{
    let rows = columns.rows();
    if columns.len() != 2
        || cells.numbers.len() != rows
        || cells.nulls.len() != rows
        || cells.plane.rows() != rows
    {
        return false;
    }
    let unread = columns.unread(1);
    if unread == 0 {
        return false;
    }
    if unread > WIDTH {
        validity(&cells.nulls, &mut cells.plane);
    } else {
        transpose(&cells.numbers, WIDTH, WIDTH - unread, &mut cells.plane);
    }
    columns.take(1, &cells.plane).is_ok()
}

// Whether the values of a block are those of a row in it.
fn same_value(expr: &Expr, columns: &LentColumns<'_>, row: usize, values: &BlockValues) -> bool
    requires columns { ReadsBelow (length columns.now.frame.columns) (term_of expr.now) }
    requires row { row < columns.now.frame.rows }
    requires fits { FitsWide (term_of expr.now) (declared_ranges columns.now.frame) }
{
    let null = null_of(expr, row, columns);
    let possible = values.possible >> (row % 64) & 1 == 1;
    let sure = values.sure >> (row % 64) & 1 == 1;
    let span = span_of(expr, row, columns);
    possible == (null != Nullity::Always)
        && sure == (null == Nullity::Never)
        && (!possible || values.spans[row % 64] == span)
}

// Whether the values of all blocks are those of their rows.
fn blocks_agree(expr: &Expr, columns: &LentColumns<'_>, block: &mut RowBlock) -> bool
    requires columns { ReadsBelow (length columns.now.frame.columns) (term_of expr.now) }
    requires fits { FitsWide (term_of expr.now) (declared_ranges columns.now.frame) }
    requires same { block.old.frame.columns ≡ columns.now.frame.columns }
    ensures same { block.new.frame.columns ≡ columns.now.frame.columns }
{
    let mut values = BlockValues::room();
    for row in 0..columns.rows() {
        if row % 64 == 0 {
            values.read(expr, columns, row / 64, block);
        }
        if !same_value(expr, columns, row, &values) {
            return false;
        }
    }
    true
}

// Whether they are before the first plane, and after each.
fn agrees(alloc: Global, expr: &Expr, columns: &mut KnownColumns) -> Result<bool, AllocError>
    requires columns { ReadsBelow (length columns.old.frame.columns) (term_of expr.now) }
    requires fits { FitsWide (term_of expr.now) (declared_ranges columns.old.frame) }
{
    let mut block = RowBlock::open(alloc, &columns.lend())?;
    let mut cells = some_cells(alloc, columns.rows())?;
    let mut agree = blocks_agree(expr, &columns.lend(), &mut block);
    for _ in 0..WIDTH + 1 {
        agree = take_next(columns, &mut cells) && agree;
        agree = blocks_agree(expr, &columns.lend(), &mut block) && agree;
    }
    Ok(agree)
}

// Whether the values of the product of both namings agree, at so many rows.
fn product_agrees(alloc: Global, rows: u32) -> Result<bool, AllocError>
    requires { rows ≤ 16777216 }
{
    let mut columns = columns(alloc, rows)?;
    let first = Box::new(alloc, Expr::Column(0))?;
    let second = Box::new(alloc, Expr::Column(1))?;
    agrees(alloc, &Expr::Mul(first, second), &mut columns)
}

// Whether those of the second naming, added to -3 less the same, agree.
fn sum_agrees(alloc: Global, rows: u32) -> Result<bool, AllocError>
    requires { rows ≤ 16777216 }
{
    let mut columns = columns(alloc, rows)?;
    let three = Box::new(alloc, Expr::Literal(-3))?;
    let first = Box::new(alloc, Expr::Column(1))?;
    let rest = Box::new(alloc, Expr::Sub(three, first))?;
    let second = Box::new(alloc, Expr::Column(1))?;
    agrees(alloc, &Expr::Add(second, rest), &mut columns)
}

// Whether those of a product past 64 bits agree.
fn large_product_agrees(alloc: Global, rows: u32) -> Result<bool, AllocError>
    requires { rows ≤ 16777216 }
{
    let mut columns = columns(alloc, rows)?;
    let first = Box::new(alloc, Expr::Column(1))?;
    let large = Box::new(alloc, Expr::Literal(1 << 61))?;
    agrees(alloc, &Expr::Mul(first, large), &mut columns)
}

#[test]
fn products_of_negative_numbers(rt: HostRuntime) -> Result<(), Fail> {
    for rows in [1, 63, 64, 65, 513] {
        assert_eq!(rt; product_agrees(rt.alloc(), rows)?, true, "{rows}");
    }
    Ok(())
}

#[test]
fn differences_and_sums(rt: HostRuntime) -> Result<(), Fail> {
    for rows in [1, 63, 64, 65, 513] {
        assert_eq!(rt; sum_agrees(rt.alloc(), rows)?, true, "{rows}");
    }
    Ok(())
}

#[test]
fn values_past_64_bits(rt: HostRuntime) -> Result<(), Fail> {
    for rows in [1, 63, 64, 65, 513] {
        assert_eq!(rt; large_product_agrees(rt.alloc(), rows)?, true, "{rows}");
    }
    Ok(())
}
