//! Rows that are judged by a sort key plane by plane: their standings, worked out by hand.

ghost use Rattle.std.specs.Prelude.{◌≡◌, ◌<◌, length, IfOk};
ghost use Rattle.known_column.specs.Columns.{rows_of_column};

use crate::heads::column_head;
use known_column::Known;
use plane_kernels::{Mask, Plane, transpose};
use query_model::Standing;
use std::alloc::{AllocError, Global};
use std::test::Fail;
use topk_bounds::TopK;

const CERTAIN: Standing = Standing::Certain;

const POSSIBLE: Standing = Standing::Possible;

const EXCLUDED: Standing = Standing::Excluded;

// A sort key of five rows, and the digits of its planes.
struct Key {
    base: i64,
    top: i64,
    nullable: bool,
    planes: [[u64; 5]; 4],
}

// The numbers 3, 5, 1, 5, 6.
const NUMBERS: Key = Key {
    base: 0,
    top: 7,
    nullable: false,
    planes: [[0, 1, 0, 1, 1], [1, 0, 0, 0, 1], [1, 1, 1, 1, 0], [0; 5]],
};

// The numbers 5, null, 9, null, 7: the first plane tells null.
const NULLS: Key = Key {
    base: 5,
    top: 9,
    nullable: true,
    planes: [
        [1, 0, 1, 0, 1],
        [0, 0, 1, 0, 0],
        [0, 0, 0, 0, 1],
        [0, 0, 0, 0, 0],
    ],
};

// Which rows surely pass and which may, after how many planes, how many are asked for, from the greatest down or from the least up,
// and the standings.
#[derive(Clone, Copy)]
struct Example {
    must: [bool; 5],
    may: [bool; 5],
    count: usize,
    limit: u32,
    down: bool,
    standings: [Standing; 5],
}

// All rows pass.
fn all_pass(count: usize, limit: u32, down: bool, standings: [Standing; 5]) -> Example {
    Example {
        must: [true; 5],
        may: [true; 5],
        count,
        limit,
        down,
        standings,
    }
}

// The rows that are marked.
fn mask_of(alloc: Global, marks: &[bool]) -> Result<Mask, AllocError>
    ensures { IfOk result (λ mask. length mask ≡ length marks.now) }
{
    let mut mask = Mask::none(alloc, marks.len())?;
    for row in 0..marks.len() {
        mask.set(row, marks[row]);
    }
    Ok(mask)
}

// Takes the planes of five rows.
fn take_planes(known: &mut Known, key: &Key, count: usize, plane: &mut Plane) {
    for j in 0..count.min(4) {
        if known.unread() > 0 && known.rows() == 5 && plane.rows() == 5 {
            transpose(&key.planes[j], 1, 0, plane);
            let _ = known.take(plane);
        }
    }
}

// Judges the rows of the first mask that are in the second too.
fn judge(top: &mut TopK, must: &mut Mask, may: &Mask, key: &Known)
    requires key { rows_of_column key.now ≡ length top.old.standings }
    requires must { length must.old ≡ length top.old.standings }
    requires may { length may.now ≡ length top.old.standings }
    ensures { length top.new.standings ≡ length top.old.standings }
{
    must.and_into(may);
    top.judge(must, may, key);
}

// Whether these are the standings, and the masks tell them.
fn tells(top: &TopK, standings: &[Standing; 5]) -> bool
    requires { length top.now.standings ≡ 5 }
{
    for row in 0..5 {
        if top.standing(row) != standings[row]
            || top.certain().get(row) != (standings[row] == CERTAIN)
            || top.possible().get(row) != (standings[row] == POSSIBLE)
        {
            return false;
        }
    }
    true
}

// Whether the example holds of a key of which nothing is read.
fn holds_of(
    alloc: Global,
    known: &mut Known,
    key: &Key,
    example: &Example,
) -> Result<bool, AllocError> {
    let mut plane = Plane::blank(alloc, 5)?;
    take_planes(known, key, example.count, &mut plane);
    let mut must = mask_of(alloc, &example.must)?;
    let may = mask_of(alloc, &example.may)?;
    if known.rows() != 5 || example.limit == 0 {
        return Ok(false);
    }
    let mut top = TopK::open(alloc, example.limit, example.down, 5)?;
    judge(&mut top, &mut must, &may, known);
    Ok(tells(&top, &example.standings))
}

fn holds(alloc: Global, key: &Key, example: &Example) -> Result<bool, AllocError> {
    if key.base > key.top {
        return Ok(false);
    }
    let head = column_head(alloc, key.base, key.top, key.nullable)?;
    let mut known = Known::open(alloc, &head, 5)?;
    holds_of(alloc, &mut known, key, example)
}

#[test]
fn numbers_stand(rt: HostRuntime) -> Result<(), Fail> {
    let (c, p, x) = (CERTAIN, POSSIBLE, EXCLUDED);
    for example in [
        all_pass(0, 2, true, [p; 5]),
        all_pass(0, 5, false, [c; 5]),
        all_pass(1, 2, true, [x, p, x, p, p]),
        all_pass(1, 3, true, [x, c, x, c, c]),
        all_pass(3, 2, true, [x, c, x, x, c]),
        all_pass(3, 2, false, [c, x, c, x, x]),
        Example {
            must: [true, false, true, true, true],
            ..all_pass(3, 2, true, [x, p, x, p, c])
        },
        Example {
            must: [true, true, true, false, true],
            may: [true, true, true, false, true],
            ..all_pass(3, 2, true, [x, c, x, x, c])
        },
    ] {
        assert!(rt;
            holds(rt.alloc(), &NUMBERS, &example)?,
            "{} planes",
            example.count
        );
    }
    Ok(())
}

// Null comes last, downwards and upwards.
#[test]
fn nulls_stand_last(rt: HostRuntime) -> Result<(), Fail> {
    let (c, p, x) = (CERTAIN, POSSIBLE, EXCLUDED);
    for example in [
        all_pass(0, 4, true, [p; 5]),
        all_pass(1, 4, true, [c, c, c, x, c]),
        all_pass(1, 4, false, [c, c, c, x, c]),
        all_pass(1, 2, false, [p, x, p, x, p]),
        all_pass(4, 1, false, [c, x, x, x, x]),
        all_pass(4, 2, true, [x, x, c, x, c]),
    ] {
        assert!(rt;
            holds(rt.alloc(), &NULLS, &example)?,
            "{} planes",
            example.count
        );
    }
    Ok(())
}
