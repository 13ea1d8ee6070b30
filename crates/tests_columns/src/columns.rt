//! Columns of four rows that are read plane by plane: what is then known of each row.

ghost use Rattle.std.specs.Prelude.{◌<◌};
ghost use Rattle.known_column.specs.Columns.{rows_of_column, HasZero};

use crate::heads::column_head;
use known_column::Known;
use plane_kernels::{Plane, transpose};
use query_model::Nullity;
use std::alloc::{AllocError, Global};
use std::test::Fail;

// Where a row stands by what is known: below 0, level with it, above it, or in none of these.
#[derive(Clone, Copy, PartialEq, Eq)]
enum Side {
    Below,
    Level,
    Above,
    Nowhere,
}

// What is known of a row: the ends of its range, whether it is null, whether its prefix is that of top, and its side of 0.
type Row = (i128, i128, Nullity, bool, Side);

// A row with a number in a column that may have 0, and in one that may not.
fn beside(low: i128, high: i128, at_top: bool, side: Side) -> Row {
    (low, high, Nullity::Never, at_top, side)
}

fn apart(low: i128, high: i128, at_top: bool) -> Row {
    beside(low, high, at_top, Side::Nowhere)
}

fn null_at(base: i128) -> Row {
    (base, base, Nullity::Always, false, Side::Nowhere)
}

// What is declared of a column.
#[derive(Clone, Copy)]
struct Column {
    base: i64,
    top: i64,
    nullable: bool,
}

// A row's side of 0.
fn side_about_zero(known: &Known, row: usize) -> Side
    requires zero { HasZero known.now.ends }
    requires row { row < rows_of_column known.now }
{
    if known.below().get(row) {
        Side::Below
    } else if known.level().get(row) {
        Side::Level
    } else if known.above().get(row) {
        Side::Above
    } else {
        Side::Nowhere
    }
}

// The same where the column may have 0.
fn side_of(known: &Known, row: usize) -> Side
    requires { row < rows_of_column known.now }
{
    if known.base() <= 0 && 0 <= known.top() {
        side_about_zero(known, row)
    } else {
        Side::Nowhere
    }
}

// Whether this is known of the rows.
fn tells(known: &Known, rows: &[Row; 4]) -> bool {
    if known.rows() != 4 {
        return false;
    }
    for row in 0..4 {
        let range = known.range(row);
        let at_top = known.at_top().get(row);
        let told = (
            range.lo,
            range.hi,
            known.missing(row),
            at_top,
            side_of(known, row),
        );
        if told != rows[row] {
            return false;
        }
    }
    true
}

// Takes the planes, and gives the row at which the last of them was refused, if it was.
fn take_planes(known: &mut Known, planes: &[[u64; 4]], plane: &mut Plane) -> Option<usize> {
    let mut refused = None;
    for bits in planes {
        if known.unread() > 0 && known.rows() == 4 && plane.rows() == 4 {
            transpose(bits, 1, 0, plane);
            refused = known.take(plane).err().map(|e| e.row);
        }
    }
    refused
}

// Whether this is known of a column of four rows after its first planes, of which the last was refused at this row, if it was.
fn holds(
    alloc: Global,
    column: Column,
    planes: &[[u64; 4]],
    refused: Option<usize>,
    rows: [Row; 4],
) -> Result<bool, AllocError> {
    if column.base > column.top {
        return Ok(false);
    }
    let head = column_head(alloc, column.base, column.top, column.nullable)?;
    let mut known = Known::open(alloc, &head, 4)?;
    let mut plane = Plane::blank(alloc, 4)?;
    Ok(take_planes(&mut known, planes, &mut plane) == refused && tells(&known, &rows))
}

#[test]
fn prices_are_halved(rt: HostRuntime) -> Result<(), Fail> {
    let column = Column {
        base: 3,
        top: 12,
        nullable: false,
    };
    let (start, low, high) = (apart(3, 12, true), apart(3, 10, false), apart(11, 12, true));
    assert!(rt; holds(rt.alloc(), column, &[], None, [start; 4])?);
    let planes = [[0, 0, 1, 0]];
    assert!(rt; holds(rt.alloc(), column, &planes, None, [low, low, high, low])?);
    Ok(())
}

// Numbers from 0 to 4, of which the second passes 4 with its second digit.
#[test]
fn number_above_top_is_refused(rt: HostRuntime) -> Result<(), Fail> {
    let column = Column {
        base: 0,
        top: 4,
        nullable: false,
    };
    let low = beside(0, 3, false, Side::Level);
    let high = beside(4, 4, true, Side::Above);
    let planes = [[0, 1, 1, 0], [1, 1, 1, 0]];
    assert!(rt; holds(rt.alloc(), column, &planes, Some(1), [low, high, high, low])?);
    Ok(())
}

// Numbers from 5 to 9 or null, of which the second is null.
#[test]
fn digit_behind_null_is_refused(rt: HostRuntime) -> Result<(), Fail> {
    let column = Column {
        base: 5,
        top: 9,
        nullable: true,
    };
    let start = (5, 9, Nullity::Possibly, true, Side::Nowhere);
    assert!(rt; holds(rt.alloc(), column, &[], None, [start; 4])?);
    let (any, null) = (apart(5, 9, true), null_at(5));
    let planes = [[1, 0, 1, 1], [0, 1, 0, 0]];
    assert!(rt; holds(rt.alloc(), column, &planes, Some(1), [any, null, any, any])?);
    let (low, high) = (apart(5, 8, false), apart(9, 9, true));
    let planes = [[1, 0, 1, 1], [0, 0, 1, 0]];
    assert!(rt; holds(rt.alloc(), column, &planes, None, [low, null, high, low])?);
    Ok(())
}

// Numbers about 0, of which the third is null.
#[test]
fn rows_stand_about_zero(rt: HostRuntime) -> Result<(), Fail> {
    let column = Column {
        base: -2,
        top: 5,
        nullable: true,
    };
    let rows = [
        beside(-2, -1, false, Side::Below),
        beside(4, 5, true, Side::Above),
        null_at(-2),
        beside(0, 1, false, Side::Level),
    ];
    let planes = [[1, 1, 0, 1], [0, 1, 0, 0], [0, 1, 0, 1]];
    assert!(rt; holds(rt.alloc(), column, &planes, None, rows)?);
    Ok(())
}

// Numbers from 0 up, and numbers up to 0.
#[test]
fn rows_stand_at_an_end(rt: HostRuntime) -> Result<(), Fail> {
    let planes = [[0, 1, 1, 0]];
    let up = Column {
        base: 0,
        top: 4,
        nullable: false,
    };
    let low = beside(0, 3, false, Side::Level);
    let high = beside(4, 4, true, Side::Above);
    assert!(rt; holds(rt.alloc(), up, &planes, None, [low, high, high, low])?);
    let down = Column {
        base: -4,
        top: 0,
        nullable: false,
    };
    let low = beside(-4, -1, false, Side::Below);
    let high = beside(0, 0, true, Side::Level);
    assert!(rt; holds(rt.alloc(), down, &planes, None, [low, high, high, low])?);
    Ok(())
}
