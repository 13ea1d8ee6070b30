//! Masks and planes, at numbers of rows about the ends of words and of blocks of 512 rows.

ghost use Rattle.std.specs.Prelude.{◌≡◌, ◌<◌, ◌*◌, length, IfOk};

use plane_kernels::{Mask, Plane, split, step_compare, transpose, validity};
use std::alloc::{AllocError, Global};
use std::test::Fail;

pub(crate) const LENGTHS: [usize; 9] = [0, 1, 63, 64, 65, 511, 512, 513, 1025];

// The mask of the rows that are multiples of a number.
fn multiples(alloc: Global, rows: usize, of: usize) -> Result<Mask, AllocError>
    requires { 0 < of }
    ensures { IfOk result (λ m. length m ≡ rows) }
{
    let mut mask = Mask::none(alloc, rows)?;
    for row in 0..rows {
        mask.set(row, row % of == 0);
    }
    Ok(mask)
}

// Whether the mask has these rows, and no others.
fn has_exactly<F: Fn(usize) -> bool>(mask: &Mask, passes: F) -> bool
    requires { F.IsAlwaysCallable passes }
{
    for row in 0..mask.rows() {
        if mask.get(row) != passes(row) {
            return false;
        }
    }
    true
}

// Whether multiples of 3 and of 5 are joined in each way.
fn joins(alloc: Global, rows: usize) -> Result<bool, AllocError> {
    let threes = multiples(alloc, rows, 3)?;
    let fives = multiples(alloc, rows, 5)?;
    let mut joined = Mask::none(alloc, rows)?;
    joined.copy_from(&fives);
    joined.and_into(&threes);
    let both = has_exactly(&joined, |row| row % 15 == 0);
    let mut joined = Mask::none(alloc, rows)?;
    joined.copy_from(&fives);
    joined.or_into(&threes);
    let either = has_exactly(&joined, |row| row % 3 == 0 || row % 5 == 0);
    let mut joined = Mask::none(alloc, rows)?;
    joined.copy_from(&fives);
    joined.and_not_into(&threes);
    let rest = has_exactly(&joined, |row| row % 3 != 0 && row % 5 == 0);
    let counts = (fives.count(), fives.count_and(&threes));
    let wanted = (rows.div_ceil(5) as u64, rows.div_ceil(15) as u64);
    Ok(both && either && rest && counts == wanted)
}

#[test]
fn masks_are_joined(rt: HostRuntime) -> Result<(), Fail> {
    for rows in LENGTHS {
        assert!(rt; joins(rt.alloc(), rows)?, "{rows} rows");
    }
    Ok(())
}

// The first row of a mask of the last alone.
fn first_of_last(alloc: Global, rows: usize) -> Result<Option<usize>, AllocError> {
    let mut last = Mask::none(alloc, rows)?;
    if rows > 0 && rows == last.rows() {
        last.set(rows - 1, true);
    }
    Ok(last.first_one())
}

// The plane of the second highest of six digits of each row's number.
pub(crate) fn plane_of_rows(alloc: Global, rows: usize) -> Result<Plane, AllocError> {
    let mut cells = Vec::with_capacity(alloc, rows)?;
    for row in 0..rows {
        cells.push((row % 64) as u64)?;
    }
    let mut plane = Plane::blank(alloc, rows)?;
    if cells.len() == plane.rows() {
        transpose(&cells, 6, 1, &mut plane);
    }
    Ok(plane)
}

// Whether the upper half of each 32 rows has bits of 1, and no other row, and a copy is counted so.
fn copies_upper(alloc: Global, plane: &Plane) -> Result<bool, AllocError> {
    let all = Mask::all(alloc, plane.rows())?;
    let mut copy = Plane::blank(alloc, plane.rows())?;
    copy.copy_from(plane);
    let mut count = 0u64;
    for row in 0..copy.rows() {
        if copy.get(row) != (row % 32 >= 16) {
            return Ok(false);
        }
        count = count.saturating_add(u64::from(row % 32 >= 16));
    }
    Ok(all.count_plane(&copy) == count)
}

#[test]
fn digits_become_planes(rt: HostRuntime) -> Result<(), Fail> {
    for rows in LENGTHS {
        let plane = plane_of_rows(rt.alloc(), rows)?;
        assert_eq!(rt; plane.rows(), rows);
        assert!(rt; copies_upper(rt.alloc(), &plane)?, "{rows} rows");
        let last = first_of_last(rt.alloc(), rows)?;
        assert_eq!(rt; last, rows.checked_sub(1), "{rows} rows");
    }
    Ok(())
}

// Rows that are multiples of 3 are compared with the plane's bits, which are 1 in the upper half of each 32 rows.
fn compares(alloc: Global, rows: usize, bit: bool) -> Result<bool, AllocError> {
    let plane = plane_of_rows(alloc, rows)?;
    let mut equal = multiples(alloc, rows, 3)?;
    let mut less = Mask::none(alloc, rows)?;
    let mut greater = Mask::none(alloc, rows)?;
    if plane.rows() != equal.rows() {
        return Ok(false);
    }
    step_compare(&mut less, &mut greater, &mut equal, &plane, bit);
    let upper = |row: usize| row % 32 >= 16;
    Ok(
        has_exactly(&less, |row| bit && row % 3 == 0 && !upper(row))
            && has_exactly(&greater, |row| !bit && row % 3 == 0 && upper(row))
            && has_exactly(&equal, |row| row % 3 == 0 && upper(row) == bit),
    )
}

fn splits(alloc: Global, rows: usize) -> Result<bool, AllocError> {
    let plane = plane_of_rows(alloc, rows)?;
    let cell = multiples(alloc, rows, 3)?;
    let mut zeros = Mask::none(alloc, rows)?;
    let mut ones = Mask::none(alloc, rows)?;
    if plane.rows() != cell.rows() {
        return Ok(false);
    }
    split(&cell, &plane, &mut zeros, &mut ones);
    Ok(
        has_exactly(&zeros, |row| row % 3 == 0 && row % 32 < 16)
            && has_exactly(&ones, |row| row % 3 == 0 && row % 32 >= 16),
    )
}

#[test]
fn masks_are_compared_and_parted(rt: HostRuntime) -> Result<(), Fail> {
    for rows in LENGTHS {
        assert!(rt; compares(rt.alloc(), rows, false)?, "{rows} rows");
        assert!(rt; compares(rt.alloc(), rows, true)?, "{rows} rows");
        assert!(rt; splits(rt.alloc(), rows)?, "{rows} rows");
    }
    Ok(())
}

// Whether the words of a block are those of its rows, and 0 past the last.
fn has_words(plane: &Plane, block: usize) -> bool
    requires { 512 * block < length plane.now }
{
    let count = plane.rows().div_ceil(64);
    let words = plane.block(block);
    for i in 0..8 {
        let place = 8 * block + i;
        let word = if place < count { plane.word(place) } else { 0 };
        if words[i] != word {
            return false;
        }
    }
    true
}

// Turns round the rows of a block, and the bits past them.
fn turn_block(mask: &mut Mask, block: usize)
    requires { 512 * block < length mask.old }
{
    let mut words = mask.block(block);
    for word in words.iter_mut() {
        *word = !*word;
    }
    mask.set_block(block, words);
}

// Whether the block has its rows, and those of a mask are turned round alone.
fn has_block(alloc: Global, plane: &Plane, block: usize) -> Result<bool, AllocError>
    requires { 512 * block < length plane.now }
{
    let mut mask = multiples(alloc, plane.rows(), 5)?;
    turn_block(&mut mask, block);
    let turned = has_exactly(&mask, |row| (row % 5 == 0) != (row / 512 == block));
    Ok(turned && has_words(plane, block))
}

#[test]
fn blocks_have_their_rows(rt: HostRuntime) -> Result<(), Fail> {
    for rows in LENGTHS {
        let plane = plane_of_rows(rt.alloc(), rows)?;
        for block in 0..plane.rows().div_ceil(512) {
            let had = has_block(rt.alloc(), &plane, block)?;
            assert!(rt; had, "block {block} of {rows} rows");
        }
    }
    Ok(())
}

// The plane's first row outside the multiples of 16, and its first row past the multiples of 8 without those of 16.
fn first_others(
    alloc: Global,
    rows: usize,
) -> Result<(Option<usize>, Option<usize>, u64), AllocError> {
    let plane = plane_of_rows(alloc, rows)?;
    let sixteens = multiples(alloc, rows, 16)?;
    let eights = multiples(alloc, rows, 8)?;
    if plane.rows() != rows || rows < 65 {
        return Ok((None, None, 0));
    }
    Ok((
        plane.first_outside(&sixteens),
        plane.first_past(&eights, &sixteens),
        plane.word(1),
    ))
}

#[test]
fn first_rows_and_words_are_found(rt: HostRuntime) -> Result<(), Fail> {
    let most = (Some(17), Some(16), 0xFFFF_0000_FFFF_0000);
    assert_eq!(rt; first_others(rt.alloc(), 513)?, most);
    let few = (Some(17), Some(16), 0);
    assert_eq!(rt; first_others(rt.alloc(), 65)?, few);
    Ok(())
}

// Cells of which every third is null, from the second on, and the plane that tells it.
fn tells_nulls(alloc: Global, rows: usize) -> Result<bool, AllocError> {
    let mut nulls = Vec::with_capacity(alloc, rows)?;
    for row in 0..rows {
        nulls.push(row % 3 == 1)?;
    }
    let mut plane = Plane::blank(alloc, nulls.len())?;
    validity(&nulls, &mut plane);
    for row in 0..plane.rows() {
        if plane.get(row) != (row % 3 != 1) {
            return Ok(false);
        }
    }
    Ok(plane.rows() == rows)
}

#[test]
fn nulls_become_a_plane(rt: HostRuntime) -> Result<(), Fail> {
    for rows in LENGTHS {
        assert!(rt; tells_nulls(rt.alloc(), rows)?, "{rows} rows");
    }
    Ok(())
}
