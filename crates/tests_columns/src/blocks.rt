//! Blocks of two columns, of the second of which some planes are read, against its numbers and against rows that are read one by one.

ghost use Rattle.std.specs.Prelude.{◌≡◌, ◌≤◌, ◌<◌, ◌≤ℤ◌, length, IfOk};

use crate::heads::column_head;
use daq_table::{ColumnHeads, Head};
use interval_calc::Interval;
use known_column::{Known, KnownColumns, LentColumns, RowBlock};
use plane_kernels::{Plane, transpose, validity};
use query_model::Nullity;
use std::alloc::{AllocError, Global};
use std::test::Fail;

// A column whose numbers have so many digits.
#[derive(Clone, Copy)]
struct Shape {
    base: i64,
    top: i64,
    nullable: bool,
    width: u8,
}

// A column of a table of so many rows, named twice.
fn open_twice(alloc: Global, shape: Shape, rows: usize) -> Result<KnownColumns, AllocError>
    requires ordered { shape.base ≤ℤ shape.top }
    requires few { rows ≤ 16777216 }
    ensures two { IfOk result (λ columns. length columns.frame.columns ≡ 2) }
    ensures rows { IfOk result (λ columns. columns.frame.rows ≡ rows) }
{
    let column = column_head(alloc, shape.base, shape.top, shape.nullable)?;
    let head = Head {
        rows: rows as u64,
        columns: ColumnHeads::new(vec![in alloc; column]?),
    };
    KnownColumns::open(alloc, &[0, 0], &head)
}

// The cells of a column, where a null has the number 0, and room for a plane of them.
#[derive(Drop)]
struct Cells {
    numbers: Vec<u64>,
    nulls: Vec<bool>,
    plane: Plane,
}

// Cells of a column of so many rows: numbers each unlike its neighbours, and in a nullable column every third row null.
fn some_cells(alloc: Global, shape: Shape, rows: usize) -> Result<Cells, AllocError> {
    let mut numbers = Vec::with_capacity(alloc, rows)?;
    let mut nulls = Vec::with_capacity(alloc, rows)?;
    for row in 0..rows {
        let null = shape.nullable && row % 3 == 1;
        let number = (row as u64).wrapping_mul(0x9E37_79B9_7F4A_7C15);
        let digits = if shape.width < 64 {
            number % (1 << shape.width)
        } else {
            number
        };
        numbers.push(if null { 0 } else { digits })?;
        nulls.push(null)?;
    }
    let plane = Plane::blank(alloc, rows)?;
    Ok(Cells {
        numbers,
        nulls,
        plane,
    })
}

// Takes the next plane of the second column, and says whether it was taken.
fn take_next(columns: &mut KnownColumns, cells: &mut Cells, width: u8) -> bool
    ensures { columns.new.frame ≡ columns.old.frame }
{
    let rows = columns.rows();
    if columns.len() != 2
        || cells.numbers.len() != rows
        || cells.nulls.len() != rows
        || cells.plane.rows() != rows
    {
        return false;
    }
    let unread = columns.unread(1);
    if unread == 0 || width > 64 {
        return false;
    }
    if unread > width {
        validity(&cells.nulls, &mut cells.plane);
    } else {
        transpose(&cells.numbers, width, width - unread, &mut cells.plane);
    }
    columns.take(1, &cells.plane).is_ok()
}

// Takes so many planes of the second column, and says whether all were taken.
fn take_planes(columns: &mut KnownColumns, cells: &mut Cells, width: u8, count: u8) -> bool
    ensures { columns.new.frame ≡ columns.old.frame }
{
    let mut taken = true;
    for _ in 0..count {
        taken = take_next(columns, cells, width) && taken;
    }
    taken
}

// Whether the numbers of all blocks are these, without the digits that were not read.
fn numbers_agree(known: &Known, numbers: &[u64]) -> bool {
    let mut block = [0; 64];
    let rows = known.rows();
    if rows != numbers.len() {
        return false;
    }
    let unread = known.unread().min(known.width());
    for (row, number) in numbers.iter().enumerate() {
        if row % 64 == 0 {
            known.numbers(row / 64, &mut block);
        }
        let read = if unread < 64 { *number >> unread } else { 0 };
        if block[row % 64] != read {
            return false;
        }
    }
    true
}

// Whether a row of a block is known as the row of the columns from which it came.
fn same_row(
    block: &RowBlock,
    columns: &LentColumns<'_>,
    column: usize,
    row: usize,
    at: usize,
) -> bool
    requires same { block.now.frame.columns ≡ columns.now.frame.columns }
    requires column { column < length columns.now.frame.columns }
    requires row { row < block.now.frame.rows }
    requires at { at < columns.now.frame.rows }
{
    block.range(column, row) == columns.range(column, at)
        && block.missing(column, row) == columns.missing(column, at)
}

// Whether all rows of a block are known as those of the columns from this one on.
fn same_rows(block: &RowBlock, columns: &LentColumns<'_>, from: usize) -> bool
    requires same { block.now.frame.columns ≡ columns.now.frame.columns }
    requires two { length columns.now.frame.columns ≡ 2 }
    requires from { from < columns.now.frame.rows }
{
    let left = columns.rows() - from;
    if block.rows() > left {
        return false;
    }
    for row in 0..block.rows() {
        if !same_row(block, columns, 0, row, from + row)
            || !same_row(block, columns, 1, row, from + row)
        {
            return false;
        }
    }
    true
}

// Whether the blocks of the columns are all their rows.
fn blocks_agree(columns: &LentColumns<'_>, block: &mut RowBlock) -> bool
    requires same { block.old.frame.columns ≡ columns.now.frame.columns }
    requires two { length columns.now.frame.columns ≡ 2 }
{
    let rows = columns.rows();
    let mut seen = 0;
    for b in 0..rows / 64 + 1 {
        if 64 * b < rows {
            block.read(columns, b);
            if !same_rows(block, columns, 64 * b) {
                return false;
            }
            seen = 64 * b + block.rows();
        }
    }
    seen == rows
}

// Whether all agree after so many planes of the second column.
fn agrees_after(
    columns: &mut KnownColumns,
    block: &mut RowBlock,
    cells: &mut Cells,
    width: u8,
    count: u8,
) -> bool
    requires same { block.old.frame.columns ≡ columns.old.frame.columns }
    requires two { length columns.old.frame.columns ≡ 2 }
{
    let taken = take_planes(columns, cells, width, count);
    taken
        && numbers_agree(columns.column(1), &cells.numbers)
        && blocks_agree(&columns.lend(), block)
}

// The same of new columns.
fn reads(alloc: Global, shape: Shape, rows: usize, count: u8) -> Result<bool, AllocError>
    requires ordered { shape.base ≤ℤ shape.top }
    requires few { rows ≤ 16777216 }
{
    let mut cells = some_cells(alloc, shape, rows)?;
    let mut columns = open_twice(alloc, shape, rows)?;
    let mut block = RowBlock::open(alloc, &columns.lend())?;
    Ok(agrees_after(&mut columns, &mut block, &mut cells, shape.width, count))
}

const LENGTHS: [usize; 10] = [0, 1, 63, 64, 65, 130, 511, 512, 513, 1025];

// Columns of all lengths, of which so many planes are read.
fn reads_lengths(alloc: Global, nullable: bool, count: u8) -> Result<bool, AllocError> {
    let shape = Shape {
        base: -3,
        top: 12,
        nullable,
        width: 4,
    };
    let mut all = true;
    for rows in LENGTHS {
        all = rows <= 2000 && reads(alloc, shape, rows, count)? && all;
    }
    Ok(all)
}

#[test]
fn blocks_of_all_lengths_are_read(rt: HostRuntime) -> Result<(), Fail> {
    let mut all = true;
    for count in 0..=4 {
        all = reads_lengths(rt.alloc(), false, count)? && all;
        all = reads_lengths(rt.alloc(), true, count)? && all;
    }
    assert!(rt; all);
    Ok(())
}

// The ends of columns, and how many digits their numbers have.
const WIDTHS: [(i64, i64, u8); 12] = [
    (7, 7, 0),
    (7, 8, 1),
    (0, 127, 7),
    (-100, 155, 8),
    (0, 511, 9),
    (0, 32_767, 15),
    (0, 65_535, 16),
    (0, 131_071, 17),
    (0, 1_048_575, 20),
    (0, 4_294_967_295, 32),
    (0, i64::MAX, 63),
    (i64::MIN, i64::MAX, 64),
];

// Columns of all widths, of which so many planes are unread.
fn reads_widths(alloc: Global, nullable: bool, unread: u8) -> Result<bool, AllocError> {
    let mut all = true;
    for (base, top, width) in WIDTHS {
        let shape = Shape {
            base,
            top,
            nullable,
            width,
        };
        let planes = width.saturating_add(u8::from(nullable));
        all = base <= top && reads(alloc, shape, 65, planes.saturating_sub(unread))? && all;
    }
    Ok(all)
}

#[test]
fn blocks_of_all_widths_are_read(rt: HostRuntime) -> Result<(), Fail> {
    let mut all = true;
    for unread in [0, 1, 3, 11] {
        all = reads_widths(rt.alloc(), false, unread)? && all;
        all = reads_widths(rt.alloc(), true, unread)? && all;
    }
    assert!(rt; all);
    Ok(())
}

fn span(lo: i128, hi: i128) -> Interval
    requires { lo ≤ℤ hi }
{
    Interval { lo, hi }
}

// Two planes of the second column alone tell of its second row that it is null, and of its third that it is 11 or 12.
fn tells_apart(columns: &mut KnownColumns, block: &mut RowBlock, cells: &mut Cells) -> bool
    requires same { block.old.frame.columns ≡ columns.old.frame.columns }
    requires two { length columns.old.frame.columns ≡ 2 }
    requires rows { columns.old.frame.rows ≡ 4 }
{
    let taken = take_planes(columns, cells, 4, 2);
    block.read(&columns.lend(), 0);
    let first = block.missing(0, 1) == Nullity::Possibly && block.range(0, 2) == span(3, 12);
    let second = block.missing(1, 1) == Nullity::Always && block.range(1, 2) == span(11, 12);
    let third = block.missing(1, 2) == Nullity::Never && block.range(1, 1) == span(3, 3);
    taken && first && second && third && columns.unread(0) == 5 && columns.unread(1) == 3
}

fn four_rows(alloc: Global) -> Result<bool, AllocError> {
    let shape = Shape {
        base: 3,
        top: 12,
        nullable: true,
        width: 4,
    };
    let mut cells = some_cells(alloc, shape, 4)?;
    cells.numbers = vec![in alloc; 2, 0, 9, 0]?;
    let mut columns = open_twice(alloc, shape, 4)?;
    let mut block = RowBlock::open(alloc, &columns.lend())?;
    Ok(tells_apart(&mut columns, &mut block, &mut cells))
}

#[test]
fn planes_of_one_column_leave_the_other(rt: HostRuntime) -> Result<(), Fail> {
    assert!(rt; four_rows(rt.alloc())?);
    Ok(())
}

// Whether a row of the columns, lent in the other order, and one of the second, lent alone, are known as before.
fn lent_row_agrees(columns: &KnownColumns, row: usize) -> bool
    requires two { length columns.now.frame.columns ≡ 2 }
    requires row { row < columns.now.frame.rows }
{
    let all = columns.lend();
    let backwards = columns.lend_some(&[1, 0]);
    let second = columns.lend_some(&[1]);
    backwards.range(0, row) == all.range(1, row)
        && backwards.range(1, row) == all.range(0, row)
        && second.range(0, row) == all.range(1, row)
        && second.missing(0, row) == all.missing(1, row)
        && (backwards.len(), second.len(), second.rows()) == (2, 1, all.rows())
        && backwards.unread(1) == columns.unread(0)
}

// Two planes of the second column are read.
fn lent_rows_agree(alloc: Global) -> Result<bool, AllocError> {
    let shape = Shape {
        base: 3,
        top: 12,
        nullable: true,
        width: 4,
    };
    let mut cells = some_cells(alloc, shape, 4)?;
    let mut columns = open_twice(alloc, shape, 4)?;
    let mut agree = take_planes(&mut columns, &mut cells, 4, 2);
    for row in 0..4 {
        agree = lent_row_agrees(&columns, row) && agree;
    }
    Ok(agree)
}

#[test]
fn lent_columns_have_numbers_of_their_own(rt: HostRuntime) -> Result<(), Fail> {
    assert!(rt; lent_rows_agree(rt.alloc())?);
    Ok(())
}
