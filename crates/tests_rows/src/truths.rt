//! Tables of truths: of comparisons with ends, of values that may be null, and of the connectives. Each condition is told at one row, by
//! masks of its comparisons and row by row.

ghost use Rattle.std.specs.Prelude.{◌≡◌, ◌<◌, length, IfOk};
ghost use Rattle.query_model.specs.Meaning.{PredReadsBelow};
ghost use Rattle.query_model.specs.Queries.{condition_of};

use crate::heads::{column_head, take_zero};
use daq_table::{ColumnHeads, Head};
use kleene_filter::Filter;
use known_column::{KnownColumns, RowBlock};
use query_model::{Atom, Comparison, Pred, Values};
use std::alloc::{AllocError, Global};
use std::test::Fail;

// The columns by what is declared of their numbers, and whether they are null: of the first three it is told that they are not, of
// the second three it is not told, and the third three are null.
const THREES: [u8; 3] = [0, 1, 2];

const ONES: [u8; 3] = [3, 4, 5];

// From 3 to 5, from 1 to 3, from 4 to 6, and 3 alone.
const FROM_THREE: u8 = 0;

const FROM_ONE: u8 = 3;

const FROM_FOUR: u8 = 6;

const ALIKE: u8 = 7;

const JUST_THREE: u8 = 8;

// These columns, at one row.
fn columns(alloc: Global) -> Result<KnownColumns, AllocError>
    ensures rows { IfOk result (λ columns. columns.frame.rows ≡ 1) }
    ensures nine { IfOk result (λ columns. length columns.frame.columns ≡ 9) }
{
    let heads = vec![in alloc;
        column_head(alloc, b"a", 3, 5, false)?,
        column_head(alloc, b"b", 3, 5, true)?,
        column_head(alloc, b"c", 1, 3, false)?,
        column_head(alloc, b"d", 1, 3, true)?,
        column_head(alloc, b"e", 4, 6, false)?,
        column_head(alloc, b"f", 3, 3, false)?,
    ]?;
    let head = Head {
        rows: 1,
        columns: ColumnHeads::new(heads),
    };
    let mut columns = KnownColumns::open(alloc, &[0, 1, 1, 2, 3, 3, 4, 0, 5], &head)?;
    take_zero(alloc, &mut columns, 2)?;
    take_zero(alloc, &mut columns, 5)?;
    Ok(columns)
}

// Whether the condition holds at the row for certain, and whether it may, where so many comparisons keep masks.
fn holds(alloc: Global, pred: &Pred, masks: usize) -> Result<[bool; 2], AllocError>
    requires { PredReadsBelow 9 (condition_of pred.now) }
{
    let columns = columns(alloc)?;
    let mut block = RowBlock::open(alloc, &columns.lend())?;
    let filter = Filter::open(alloc, pred, &columns.lend(), &mut block, masks)?;
    Ok([filter.must().count() == 1, filter.may().count() == 1])
}

// The same of the condition, and of its negation.
type Told = [[bool; 2]; 2];

fn told_by(alloc: Global, pred: Pred, masks: usize) -> Result<Told, AllocError>
    requires { PredReadsBelow 9 (condition_of pred) }
{
    let of_condition = holds(alloc, &pred, masks)?;
    let negation = Pred::Not(Box::new(alloc, pred)?);
    Ok([of_condition, holds(alloc, &negation, masks)?])
}

// What may be so of a condition, as of a comparison of one of the first three columns with 3.
#[derive(Clone, Copy)]
struct Truths {
    told: Told,
    column: u8,
    op: Comparison,
    ghost within: { column < 9 },
}

const T: Truths = Truths {
    told: [[true, true], [false, false]],
    column: 0,
    op: Comparison::Ge,
};

const F: Truths = Truths {
    told: [[false, false], [true, true]],
    column: 0,
    op: Comparison::Lt,
};

// Null.
const N: Truths = Truths {
    told: [[false, false], [false, false]],
    column: 2,
    op: Comparison::Ge,
};

const TF: Truths = Truths {
    told: [[false, true], [false, true]],
    column: 0,
    op: Comparison::Gt,
};

const TN: Truths = Truths {
    told: [[false, true], [false, false]],
    column: 1,
    op: Comparison::Ge,
};

const FN: Truths = Truths {
    told: [[false, false], [false, true]],
    column: 1,
    op: Comparison::Lt,
};

const TFN: Truths = Truths {
    told: [[false, true], [false, true]],
    column: 1,
    op: Comparison::Gt,
};

// A comparison with a number.
fn compared(column: u8, op: Comparison, value: i128) -> Pred
    requires { column < 9 }
    ensures { PredReadsBelow 9 (condition_of result) }
{
    Pred::Atom(Atom::Compare { column, op, value })
}

// A comparison of two columns.
fn compared_columns(left: u8, op: Comparison, right: u8) -> Pred
    requires left { left < 9 }
    requires right { right < 9 }
    ensures { PredReadsBelow 9 (condition_of result) }
{
    Pred::Atom(Atom::CompareColumns { left, op, right })
}

// Numbers from 3 to 5 against 2 to 6, one by one; and 3 against itself.
#[test]
fn comparisons_with_numbers(rt: HostRuntime) -> Result<(), Fail> {
    for (op, expected, one) in [
        (Comparison::Eq, [F, TF, TF, TF, F], T),
        (Comparison::Ne, [T, TF, TF, TF, T], F),
        (Comparison::Lt, [F, F, TF, TF, T], F),
        (Comparison::Le, [F, TF, TF, T, T], T),
        (Comparison::Gt, [T, TF, TF, F, F], F),
        (Comparison::Ge, [T, T, TF, TF, F], T),
    ] {
        for masks in [0, 64] {
            for (i, truth) in expected.iter().enumerate() {
                let pred = compared(FROM_THREE, op, 2 + i as i128);
                assert_eq!(rt; told_by(rt.alloc(), pred, masks)?, truth.told, "{op:?} {i}");
            }
            let pred = compared(JUST_THREE, op, 3);
            assert_eq!(rt; told_by(rt.alloc(), pred, masks)?, one.told, "{op:?}");
        }
    }
    Ok(())
}

#[test]
fn comparisons_of_columns(rt: HostRuntime) -> Result<(), Fail> {
    for (op, touching, apart, alike) in [
        (Comparison::Eq, TF, F, TF),
        (Comparison::Ne, TF, T, TF),
        (Comparison::Lt, TF, T, TF),
        (Comparison::Le, T, T, TF),
        (Comparison::Gt, F, F, TF),
        (Comparison::Ge, TF, F, TF),
    ] {
        for (left, right, truth) in [
            (FROM_ONE, FROM_THREE, touching),
            (FROM_ONE, FROM_FOUR, apart),
            (FROM_THREE, ALIKE, alike),
        ] {
            assert!(rt; left < 9 && right < 9);
            let pred = compared_columns(left, op, right);
            assert_eq!(rt; told_by(rt.alloc(), pred, 64)?, truth.told, "{op:?} {left}");
        }
    }
    Ok(())
}

#[test]
fn numbers_between(rt: HostRuntime) -> Result<(), Fail> {
    for (low, high, truth) in [
        (3, 5, T),
        (2, 9, T),
        (4, 4, TF),
        (5, 9, TF),
        (1, 3, TF),
        (6, 9, F),
        (1, 2, F),
        (5, 3, F),
        (4, 3, F),
    ] {
        for masks in [0, 64] {
            let column = FROM_THREE;
            let pred = Pred::Atom(Atom::Between { column, low, high });
            assert_eq!(rt;
                told_by(rt.alloc(), pred, masks)?,
                truth.told,
                "{low} to {high}"
            );
        }
    }
    Ok(())
}

#[test]
fn numbers_of_a_list(rt: HostRuntime) -> Result<(), Fail> {
    let alloc = rt.alloc();
    for (values, truth) in [
        ([3, 4, 5, 5].as_slice(), T),
        ([5, 9, 3, 4, 3].as_slice(), T),
        ([3, 5].as_slice(), TF),
        ([4, 9].as_slice(), TF),
        ([2, 6].as_slice(), F),
        ([].as_slice(), F),
    ] {
        for masks in [0, 64] {
            let listed = Atom::OneOf {
                column: FROM_THREE,
                values: Values::new(values.to_vec(alloc)?),
            };
            let told = told_by(alloc, Pred::Atom(listed), masks)?;
            assert_eq!(rt; told, truth.told, "{values:?}");
        }
    }
    Ok(())
}

// On numbers the three comparisons are true, unknown and false.
#[test]
fn comparisons_of_values_that_may_be_null(rt: HostRuntime) -> Result<(), Fail> {
    for (column, expected, null) in [
        (THREES[0], [T, TF, F], F),
        (THREES[1], [TN, TFN, FN], TF),
        (THREES[2], [N, N, N], T),
    ] {
        assert!(rt; column < 9);
        for masks in [0, 64] {
            for (op, truth) in [Comparison::Ge, Comparison::Gt, Comparison::Lt]
                .iter()
                .zip(expected.iter())
            {
                let pred = compared(column, *op, 3);
                assert_eq!(rt;
                    told_by(rt.alloc(), pred, masks)?,
                    truth.told,
                    "{column} {op:?}"
                );
            }
            let is_null = Pred::Atom(Atom::IsNull { column });
            assert_eq!(rt; told_by(rt.alloc(), is_null, masks)?, null.told, "{column}");
        }
    }
    Ok(())
}

// What is told of each comparison of two of the threes.
fn told_of_two(alloc: Global, left: u8, right: u8) -> Result<[Told; 3], AllocError>
    requires left { left < 3 }
    requires right { right < 3 }
{
    Ok([
        told_by(alloc, compared_columns(left, Comparison::Ge, 3 + right), 64)?,
        told_by(alloc, compared_columns(left, Comparison::Gt, 3 + right), 64)?,
        told_by(alloc, compared_columns(left, Comparison::Lt, 3 + right), 64)?,
    ])
}

// What is to be told of them, by whether they are null: the first of the threes is told not to be, the last is.
fn wanted_of_two(left: u8, right: u8) -> [Told; 3] {
    let null = N.told;
    let (holds, may_hold, fails) = (T.told, TF.told, F.told);
    let (untold, untold_open, untold_fails) = (TN.told, TFN.told, FN.told);
    if left == 2 || right == 2 {
        [null, null, null]
    } else if left == 0 && right == 0 {
        [holds, may_hold, fails]
    } else {
        [untold, untold_open, untold_fails]
    }
}

#[test]
fn comparisons_of_two_values(rt: HostRuntime) -> Result<(), Fail> {
    for left in 0..3u8 {
        for right in 0..3u8 {
            let told = told_of_two(rt.alloc(), left, right)?;
            assert_eq!(rt; told, wanted_of_two(left, right), "{left} {right}");
        }
    }
    Ok(())
}

// A comparison of which this is told.
fn sample(truths: Truths) -> Pred
    ensures { PredReadsBelow 9 (condition_of result) }
{
    compared(truths.column, truths.op, 3)
}

#[test]
fn negations(rt: HostRuntime) -> Result<(), Fail> {
    let alloc = rt.alloc();
    for (truths, negation) in [
        (T, F),
        (F, T),
        (N, N),
        (TF, TF),
        (TN, FN),
        (FN, TN),
        (TFN, TFN),
    ] {
        assert_eq!(rt; told_by(alloc, sample(truths), 64)?, truths.told);
        let pred = Pred::Not(Box::new(alloc, sample(truths))?);
        assert_eq!(rt; told_by(alloc, pred, 64)?, negation.told);
    }
    Ok(())
}

// Both of two conditions, and either of them.
fn joined(alloc: Global, left: Truths, right: Truths) -> Result<[Told; 2], AllocError> {
    let first = Box::new(alloc, sample(left))?;
    let second = Box::new(alloc, sample(right))?;
    let both = told_by(alloc, Pred::And(first, second), 64)?;
    let first = Box::new(alloc, sample(left))?;
    let second = Box::new(alloc, sample(right))?;
    let either = told_by(alloc, Pred::Or(first, second), 64)?;
    Ok([both, either])
}

#[test]
fn connectives(rt: HostRuntime) -> Result<(), Fail> {
    for (left, right, both, either) in [
        (T, T, T, T),
        (T, F, F, T),
        (T, N, N, T),
        (F, F, F, F),
        (F, N, F, N),
        (N, N, N, N),
        (TF, T, TF, T),
        (TF, F, F, TF),
        (TF, N, FN, TN),
        (TF, TF, TF, TF),
        (TN, F, F, TN),
        (FN, T, FN, T),
        (FN, TN, FN, TN),
        (TFN, N, FN, TN),
    ] {
        let wanted = [both.told, either.told];
        assert_eq!(rt; joined(rt.alloc(), left, right)?, wanted);
        assert_eq!(rt; joined(rt.alloc(), right, left)?, wanted);
    }
    Ok(())
}
