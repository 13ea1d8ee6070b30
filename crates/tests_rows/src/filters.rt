//! Filters that follow the planes of a column.

ghost use Rattle.std.specs.Prelude.{◌≡◌, ◌<◌, ◌≤◌, length, IfOk, IfSome};
ghost use Rattle.query_model.specs.Meaning.{PredReadsBelow};
ghost use Rattle.query_model.specs.Queries.{condition_of};
ghost use Rattle.kleene_filter.specs.Filters.{StandsFor};

use crate::heads::column_head;
use daq_table::{ColumnHeads, Head};
use kleene_filter::Filter;
use known_column::{KnownColumns, RowBlock};
use plane_kernels::{Plane, transpose};
use query_model::{Atom, Comparison, Pred, Values};
use std::alloc::{AllocError, Global};
use std::test::Fail;

// Two columns at four rows, of which nothing is read: the numbers of the first lie from 3 to 12, those of the second
// from 1 to 4. Both may be null, or neither.
fn columns(alloc: Global, nullable: bool) -> Result<KnownColumns, AllocError>
    ensures rows { IfOk result (λ columns. columns.frame.rows ≡ 4) }
    ensures two { IfOk result (λ columns. length columns.frame.columns ≡ 2) }
{
    let price = column_head(alloc, b"price", 3, 12, nullable)?;
    let amount = column_head(alloc, b"amount", 1, 4, nullable)?;
    let head = Head {
        rows: 4,
        columns: ColumnHeads::new(vec![in alloc; price, amount]?),
    };
    KnownColumns::open(alloc, &[0, 1], &head)
}

// At how many rows the condition must hold, and at how many it may.
fn counts(filter: &Filter) -> (u64, u64) {
    (filter.must().count(), filter.may().count())
}

// Reads a plane of the first column, if there is one to read and its bits are legal, and has the filter follow.
fn step(
    filter: &mut Filter,
    pred: &Pred,
    columns: &mut KnownColumns,
    plane: &Plane,
    block: &mut RowBlock,
) -> Option<(u64, u64)>
    requires column { 0 < length columns.old.frame.columns }
    requires reads { PredReadsBelow (length columns.old.frame.columns) (condition_of pred.now) }
    requires rows { length plane.now ≡ columns.old.frame.rows }
    requires stands { StandsFor filter.old (condition_of pred.now) columns.old }
    requires block { block.old.frame.columns ≡ columns.old.frame.columns }
    ensures block { block.new.frame.columns ≡ columns.old.frame.columns }
    ensures frame { columns.new.frame ≡ columns.old.frame }
    ensures stands { IfSome result (λ _. StandsFor filter.new (condition_of pred.now) columns.new) }
{
    if columns.unread(0) == 0 {
        return None;
    }
    match columns.take(0, plane) {
        Err(_) => None,
        Ok(()) => {
            filter.refresh(pred, &columns.lend(), 0, plane, block);
            Some(counts(filter))
        }
    }
}

// The same for the first three planes of these codes of so many digits.
fn three_steps(
    filter: &mut Filter,
    pred: &Pred,
    columns: &mut KnownColumns,
    codes: &[u64; 4],
    digits: u8,
    plane: &mut Plane,
    block: &mut RowBlock,
) -> Option<[(u64, u64); 3]>
    requires column { 0 < length columns.old.frame.columns }
    requires reads { PredReadsBelow (length columns.old.frame.columns) (condition_of pred.now) }
    requires rows { columns.old.frame.rows ≡ 4 }
    requires plane { length plane.old ≡ 4 }
    requires digits { (3 ≤ digits) × (digits ≤ 64) }
    requires stands { StandsFor filter.old (condition_of pred.now) columns.old }
    requires block { block.old.frame.columns ≡ columns.old.frame.columns }
{
    transpose(codes, digits, 0, plane);
    let first = step(filter, pred, columns, plane, block)?;
    transpose(codes, digits, 1, plane);
    let second = step(filter, pred, columns, plane, block)?;
    transpose(codes, digits, 2, plane);
    let third = step(filter, pred, columns, plane, block)?;
    Some([first, second, third])
}

// The same from the start, over columns that may be null or not.
fn followed(
    alloc: Global,
    pred: &Pred,
    nullable: bool,
    codes: &[u64; 4],
    digits: u8,
) -> Result<Option<[(u64, u64); 3]>, AllocError>
    requires reads { PredReadsBelow 2 (condition_of pred.now) }
    requires digits { (3 ≤ digits) × (digits ≤ 64) }
{
    let mut plane = Plane::blank(alloc, 4)?;
    let mut columns = columns(alloc, nullable)?;
    let mut block = RowBlock::open(alloc, &columns.lend())?;
    let mut filter = Filter::open(alloc, pred, &columns.lend(), &mut block, 64)?;
    Ok(three_steps(
        &mut filter,
        pred,
        &mut columns,
        codes,
        digits,
        &mut plane,
        &mut block,
    ))
}

// The numbers 5, 9, 12 and 3.
#[test]
fn numbers_below_seven(rt: HostRuntime) -> Result<(), Fail> {
    let pred = Pred::Atom(Atom::Compare {
        column: 0,
        op: Comparison::Lt,
        value: 7,
    });
    let counts = followed(rt.alloc(), &pred, false, &[2, 6, 9, 0], 4)?;
    assert_eq!(rt; counts, Some([(0, 3), (2, 2), (2, 2)]));
    Ok(())
}

// Not above seven: 5, null, 12 and 3.
#[test]
fn null_is_not_above_seven_and_not_below(rt: HostRuntime) -> Result<(), Fail> {
    let alloc = rt.alloc();
    let above = Pred::Atom(Atom::Compare {
        column: 0,
        op: Comparison::Gt,
        value: 7,
    });
    let pred = Pred::Not(Box::new(alloc, above)?);
    let counts = followed(alloc, &pred, true, &[18, 0, 25, 16], 5)?;
    assert_eq!(rt; counts, Some([(0, 3), (0, 2), (2, 2)]));
    Ok(())
}

// Null or not, once the first plane is read: 5, null, 12 and 3.
#[test]
fn null_is_told_by_the_first_plane(rt: HostRuntime) -> Result<(), Fail> {
    let pred = Pred::Atom(Atom::IsNull { column: 0 });
    let counts = followed(rt.alloc(), &pred, true, &[18, 0, 25, 16], 5)?;
    assert_eq!(rt; counts, Some([(1, 1), (1, 1), (1, 1)]));
    Ok(())
}

// The numbers 5, 9, 12 and 3 between two others.
#[test]
fn numbers_between_two(rt: HostRuntime) -> Result<(), Fail> {
    for (low, high, expected) in [
        (5, 9, [(0, 3), (0, 3), (1, 2)]),
        (6, 20, [(1, 4), (2, 4), (2, 3)]),
        (3, 12, [(4, 4), (4, 4), (4, 4)]),
        (9, 5, [(0, 0), (0, 0), (0, 0)]),
    ] {
        let pred = Pred::Atom(Atom::Between {
            column: 0,
            low,
            high,
        });
        let counts = followed(rt.alloc(), &pred, false, &[2, 6, 9, 0], 4)?;
        assert_eq!(rt; counts, Some(expected), "{low} to {high}");
    }
    Ok(())
}

// IN a list of the numbers 9, 10 and 3, and of numbers past the column's top.
fn listed(alloc: Global, past: u8) -> Result<Pred, AllocError>
    ensures { IfOk result (λ pred. PredReadsBelow 2 (condition_of pred)) }
{
    let mut values = vec![in alloc; 9, 10, 3]?;
    for i in 0..past {
        values.push(1000 + i128::from(i))?;
    }
    Ok(Pred::Atom(Atom::OneOf {
        column: 0,
        values: Values::new(values),
    }))
}

// Lists that keep masks, and one with a number too many.
#[test]
fn numbers_in_a_list(rt: HostRuntime) -> Result<(), Fail> {
    for past in [0, 61, 62] {
        let pred = listed(rt.alloc(), past)?;
        let counts = followed(rt.alloc(), &pred, false, &[2, 6, 9, 0], 4)?;
        assert_eq!(rt; counts, Some([(0, 3), (0, 3), (1, 2)]), "{past}");
    }
    Ok(())
}

// Not in a list: 5, null, 12 and 3.
#[test]
fn null_is_in_no_list_and_out_of_none(rt: HostRuntime) -> Result<(), Fail> {
    let alloc = rt.alloc();
    let listed = Pred::Atom(Atom::OneOf {
        column: 0,
        values: Values::new(vec![in alloc; 11, 12]?),
    });
    let pred = Pred::Not(Box::new(alloc, listed)?);
    let counts = followed(alloc, &pred, true, &[18, 0, 25, 16], 5)?;
    assert_eq!(rt; counts, Some([(0, 3), (2, 2), (2, 2)]));
    Ok(())
}
