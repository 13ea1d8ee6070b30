//! Ends of the ranges of a column at some of its rows, worked out by hand, and for rows that fill blocks of 512 or do not by a list.

ghost use Rattle.std.specs.Prelude.{◌≡◌, ◌≤◌, ◌<◌, ◌≤ℤ◌, length, IfOk};
ghost use Rattle.daq_table.specs.Tables.{planes};
ghost use Rattle.known_column.specs.Columns.{rows_of_column};
ghost use Rattle.aggregates.specs.KeptSums.{IsKept};
ghost use Rattle.aggregates.specs.Selections.{MayHaveValues};

use crate::heads::column_head;
use aggregates::{
    KeptSum, greatest_ends, least_ends, negative_lows, positive_highs, sum_highs, sum_lows,
};
use known_column::Known;
use plane_kernels::{Mask, Plane, transpose, validity};
use std::alloc::{AllocError, Global};
use std::test::Fail;

// The first and the number of the rows whose low is below 0, and of those whose high is above 0.
type Signs = (Option<usize>, u64, Option<usize>, u64);

// A column of whole numbers of which the first so many planes of these cells are read, where none is refused. It is nullable
// where it is told which of the cells are null.
pub(crate) fn partly_read(
    alloc: Global,
    base: i64,
    top: i64,
    cells: &[u64],
    nulls: &[bool],
    planes: u8,
) -> Result<Known, AllocError>
    requires ordered { base ≤ℤ top }
    requires few { length cells.now ≤ 2000 }
{
    let head = column_head(alloc, b"v", base, top, !nulls.is_empty())?;
    let mut known = Known::open(alloc, &head, cells.len())?;
    for _ in 0..planes {
        read_next(alloc, &mut known, cells, nulls)?;
    }
    Ok(known)
}

// Takes a plane, unless a prefix would then be that of no cell. Sums that are kept stay so.
fn take_plane(known: &mut Known, plane: &Plane)
    requires unread { known.old.known.read < planes known.old.ends }
    requires rows { length plane.now ≡ rows_of_column known.old }
    ensures { (kept : KeptSum) → IsKept known.old kept → IsKept known.new kept }
{
    let _ = known.take(plane);
}

// Reads the next plane of these cells, where there is one. Sums that are kept stay so.
pub(crate) fn read_next(
    alloc: Global,
    known: &mut Known,
    cells: &[u64],
    nulls: &[bool],
) -> Result<(), AllocError>
    ensures { (kept : KeptSum) → IsKept known.old kept → IsKept known.new kept }
{
    let mut plane = Plane::blank(alloc, known.rows())?;
    let unread = known.unread();
    let width = known.width();
    if unread > width && nulls.len() == plane.rows() {
        validity(nulls, &mut plane);
        take_plane(known, &plane);
    } else if unread > 0 && unread <= width && cells.len() == plane.rows() {
        transpose(cells, width, width - unread, &mut plane);
        take_plane(known, &plane);
    }
    Ok(())
}

// Those of some rows of a column that may have a value.
pub(crate) fn rows_of(alloc: Global, known: &Known, chosen: &[usize]) -> Result<Mask, AllocError>
    ensures rows { IfOk result (λ mask. length mask ≡ rows_of_column known.now) }
    ensures values { IfOk result (MayHaveValues known.now) }
{
    let mut mask = Mask::none(alloc, known.rows())?;
    for row in chosen {
        if *row < mask.rows() {
            mask.set(*row, true);
        }
    }
    mask.and_into(known.possible());
    Ok(mask)
}

// The sum of the low ends at some rows, and that of the high ends.
fn sums(alloc: Global, known: &Known, chosen: &[usize]) -> Result<[i128; 2], AllocError> {
    let mask = rows_of(alloc, known, chosen)?;
    Ok([sum_lows(known, &mask), sum_highs(known, &mask)])
}

// The least and the greatest low end at some rows, and the least and the greatest high end.
fn extremes(
    alloc: Global,
    known: &Known,
    chosen: &[usize],
) -> Result<[Option<i128>; 4], AllocError> {
    let mask = rows_of(alloc, known, chosen)?;
    let least = least_ends(known, &mask, &mask);
    let greatest = greatest_ends(known, &mask, &mask);
    Ok([least.low, greatest.low, least.high, greatest.high])
}

// The first and the number of some rows whose low is below 0, and of those whose high is above 0.
fn signs(alloc: Global, known: &Known, chosen: &[usize]) -> Result<Signs, AllocError> {
    let mask = rows_of(alloc, known, chosen)?;
    let mut negative = Mask::all(alloc, known.rows())?;
    let mut positive = Mask::all(alloc, known.rows())?;
    negative_lows(known, &mask, &mut negative);
    positive_highs(known, &mask, &mut positive);
    Ok((
        negative.first_one(),
        negative.count(),
        positive.first_one(),
        positive.count(),
    ))
}

// The sums and the extremes of the ends at some of four prices from 3 to 12, of which one plane is read.
fn ends_of_prices(
    alloc: Global,
    chosen: &[usize],
) -> Result<([i128; 2], [Option<i128>; 4]), AllocError> {
    let prices = partly_read(alloc, 3, 12, &[2, 6, 9, 0], &[], 1)?;
    let sums = sums(alloc, &prices, chosen)?;
    Ok((sums, extremes(alloc, &prices, chosen)?))
}

#[test]
fn ends_are_computed(rt: HostRuntime) -> Result<(), Fail> {
    assert_eq!(rt;
        ends_of_prices(rt.alloc(), &[0, 2])?,
        ([14, 22], [Some(3), Some(11), Some(10), Some(12)])
    );
    assert_eq!(rt; ends_of_prices(rt.alloc(), &[])?, ([0, 0], [None; 4]));
    Ok(())
}

// The signs of the ends at three of four numbers from -5 to 2 after so many planes.
fn signs_after(alloc: Global, planes: u8) -> Result<Signs, AllocError> {
    let known = partly_read(alloc, -5, 2, &[0, 4, 7, 0], &[], planes)?;
    signs(alloc, &known, &[0, 1, 2])
}

#[test]
fn signs_of_ends(rt: HostRuntime) -> Result<(), Fail> {
    assert_eq!(rt; signs_after(rt.alloc(), 1)?, (Some(0), 3, Some(1), 2));
    assert_eq!(rt; signs_after(rt.alloc(), 2)?, (Some(0), 2, Some(2), 1));
    Ok(())
}

// The sums of the numbers 5, null and 9 after so many planes, of which the first tells null.
fn sums_beside_null(alloc: Global, planes: u8) -> Result<[i128; 2], AllocError> {
    let known = partly_read(alloc, 5, 9, &[0, 0, 4], &[false, true, false], planes)?;
    sums(alloc, &known, &[0, 1, 2])
}

#[test]
fn null_is_left_out(rt: HostRuntime) -> Result<(), Fail> {
    assert_eq!(rt; sums_beside_null(rt.alloc(), 0)?, [15, 27]);
    assert_eq!(rt; sums_beside_null(rt.alloc(), 1)?, [10, 18]);
    assert_eq!(rt; sums_beside_null(rt.alloc(), 2)?, [14, 17]);
    assert_eq!(rt; sums_beside_null(rt.alloc(), 3)?, [14, 15]);
    assert_eq!(rt; sums_beside_null(rt.alloc(), 4)?, [14, 14]);
    Ok(())
}

// Which rows are asked for.
#[derive(Clone, Copy)]
enum Choice {
    // Six of seven.
    Most,
    // Five, all in the first block.
    Few,
    // Those from row 1000 on.
    Late,
}

fn is_chosen(choice: Choice, row: usize) -> bool {
    match choice {
        Choice::Most => row % 7 != 3,
        Choice::Few => row % 100 == 62 && row < 512,
        Choice::Late => row >= 1000,
    }
}

// Of so many rows those that are chosen; the sums of their low and of their high ends, the least and the greatest of each, and their
// signs.
type Case = (usize, Choice, [i128; 2], [i128; 4], Signs);

const WIDE: [i128; 4] = [-20, 28, -17, 31];

const FEW: [i128; 4] = [24, 24, 27, 27];

const CASES: [Case; 11] = [
    (
        1,
        Choice::Most,
        [-20, -17],
        [-20, -20, -17, -17],
        (Some(0), 1, None, 0),
    ),
    (
        63,
        Choice::Most,
        [184, 346],
        WIDE,
        (Some(0), 21, Some(1), 33),
    ),
    (
        64,
        Choice::Most,
        [192, 357],
        WIDE,
        (Some(0), 21, Some(1), 34),
    ),
    (
        65,
        Choice::Most,
        [188, 356],
        WIDE,
        (Some(0), 22, Some(1), 34),
    ),
    (
        511,
        Choice::Most,
        [1384, 2698],
        WIDE,
        (Some(0), 173, Some(1), 265),
    ),
    (
        512,
        Choice::Most,
        [1368, 2685],
        WIDE,
        (Some(0), 174, Some(1), 265),
    ),
    (
        513,
        Choice::Most,
        [1396, 2716],
        WIDE,
        (Some(0), 174, Some(1), 266),
    ),
    (
        1025,
        Choice::Most,
        [4852, 7489],
        [-20, 32, -17, 35],
        (Some(0), 307, Some(1), 572),
    ),
    (513, Choice::Few, [120, 135], FEW, (None, 0, Some(62), 5)),
    (1025, Choice::Few, [120, 135], FEW, (None, 0, Some(62), 5)),
    (
        1025,
        Choice::Late,
        [196, 271],
        [-16, 32, -13, 35],
        (Some(1000), 8, Some(1001), 17),
    ),
];

// A column of numbers from -20 to 41, which rise by 5 from one block to the next, after four of six planes.
fn rising_column(alloc: Global, rows: usize) -> Result<Known, AllocError> {
    let mut cells = Vec::new(alloc);
    for row in 0..rows.min(2000) {
        cells.push((row * 37 % 50 + row / 512 * 5) as u64)?;
    }
    partly_read(alloc, -20, 41, &cells[..cells.len().min(2000)], &[], 4)
}

fn chosen_rows(alloc: Global, rows: usize, choice: Choice) -> Result<Vec<usize>, AllocError> {
    let mut chosen = Vec::new(alloc);
    for row in 0..rows {
        if is_chosen(choice, row) {
            chosen.push(row)?;
        }
    }
    Ok(chosen)
}

#[test]
fn ends_are_those_of_a_list(rt: HostRuntime) -> Result<(), Fail> {
    let alloc = rt.alloc();
    for (rows, choice, of_sums, of_ends, of_signs) in CASES {
        let known = rising_column(alloc, rows)?;
        let chosen = chosen_rows(alloc, rows, choice)?;
        assert_eq!(rt; sums(alloc, &known, &chosen)?, of_sums, "{rows} rows");
        assert_eq!(rt;
            extremes(alloc, &known, &chosen)?,
            of_ends.map(Some),
            "{rows} rows"
        );
        assert_eq!(rt; signs(alloc, &known, &chosen)?, of_signs, "{rows} rows");
    }
    let none = rising_column(alloc, 0)?;
    assert_eq!(rt; sums(alloc, &none, &[])?, [0, 0]);
    assert_eq!(rt; extremes(alloc, &none, &[])?, [None; 4]);
    assert_eq!(rt; signs(alloc, &none, &[])?, (None, 0, None, 0));
    Ok(())
}
