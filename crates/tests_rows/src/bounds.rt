//! Bounds of lists of rows by kind, worked out by hand.

ghost use Rattle.std.specs.Prelude.{◌≡◌, ◌≢◌, ◌≤◌, ◌<◌, length, FitsSigned, IfOk};
ghost use Rattle.std.specs.Int.{w16};
ghost use Rattle.query_model.specs.declared.query.ItemKind.TheVariants.{Avg};

use aggregates::Running;
use interval_calc::Interval;
use query_model::{Bound, ItemKind, Nullity};
use std::alloc::{AllocError, Global};
use std::test::Fail;

// A row that may count: whether it does so for certain, and the ends of its span.
#[derive(Clone, Copy)]
struct Row {
    certain: bool,
    lo: i16,
    hi: i16,
}

fn certain(lo: i16, hi: i16) -> Row {
    Row {
        certain: true,
        lo,
        hi,
    }
}

fn unknown(lo: i16, hi: i16) -> Row {
    Row {
        certain: false,
        lo,
        hi,
    }
}

fn span(row: Row) -> Interval
    ensures low { FitsSigned w16 result.lo }
    ensures high { FitsSigned w16 result.hi }
{
    Interval {
        lo: i128::from(row.lo),
        hi: i128::from(row.hi.max(row.lo)),
    }
}

// One cell with these rows.
fn filled(alloc: Global, kind: ItemKind, rows: &[Row]) -> Result<Running, AllocError>
    requires { length rows.now ≤ 1000 }
    ensures kind { IfOk result (λ running. running.kind ≡ kind) }
    ensures cell { IfOk result (λ running. 0 < length running.cells) }
{
    let mut running = Running::open(alloc, kind, 1)?;
    for row in rows {
        running.add(0, row.certain, span(*row));
    }
    Ok(running)
}

fn bound_of(alloc: Global, kind: ItemKind, rows: &[Row]) -> Result<Bound, AllocError>
    requires few { length rows.now ≤ 1000 }
    requires kind { kind ≢ Avg }
{
    Ok(filled(alloc, kind, rows)?.bound(0))
}

// The bounds of COUNT, SUM, MIN and MAX.
fn bounds_of(alloc: Global, rows: &[Row]) -> Result<[Bound; 4], AllocError>
    requires { length rows.now ≤ 1000 }
{
    Ok([
        bound_of(alloc, ItemKind::Count, rows)?,
        bound_of(alloc, ItemKind::Sum, rows)?,
        bound_of(alloc, ItemKind::Min, rows)?,
        bound_of(alloc, ItemKind::Max, rows)?,
    ])
}

// Whether these rows have these bounds of COUNT, and of SUM, MIN and MAX, which are null so.
fn have_bounds(
    alloc: Global,
    rows: &[Row],
    null: Nullity,
    counts: (i128, i128),
    ends: [(i128, i128); 3],
) -> Result<bool, AllocError>
    requires { length rows.now ≤ 1000 }
{
    let [count, sum, least, greatest] = bounds_of(alloc, rows)?;
    let counted = Bound {
        null: Nullity::Never,
        lo: counts.0,
        hi: counts.1,
    };
    let wanted = ends.map(|(lo, hi)| Bound { null, lo, hi });
    Ok(count == counted && [sum, least, greatest] == wanted)
}

// Whether they have this bound of AVG.
fn have_average(
    alloc: Global,
    rows: &[Row],
    null: Nullity,
    low: (i128, u64),
    high: (i128, u64),
) -> Result<bool, AllocError>
    requires { length rows.now ≤ 1000 }
{
    let average = filled(alloc, ItemKind::Avg, rows)?.average(0);
    let ends = (
        (average.lo.num, average.lo.den),
        (average.hi.num, average.hi.den),
    );
    Ok(average.null == null && ends == (low, high))
}

#[test]
fn all_rows_count_or_none(rt: HostRuntime) -> Result<(), Fail> {
    let alloc = rt.alloc();
    let (always, never) = (Nullity::Always, Nullity::Never);
    assert!(rt; have_bounds(alloc, &[], always, (0, 0), [(0, 0); 3])?);
    assert!(rt; have_average(alloc, &[], always, (0, 1), (0, 1))?);
    let rows = [certain(5, 9), certain(-3, -1)];
    let ends = [(2, 8), (-3, -1), (5, 9)];
    assert!(rt; have_bounds(alloc, &rows, never, (2, 2), ends)?);
    assert!(rt; have_average(alloc, &rows, never, (2, 2), (8, 2))?);
    Ok(())
}

#[test]
fn one_unknown_row_stands_alone(rt: HostRuntime) -> Result<(), Fail> {
    let alloc = rt.alloc();
    let null = Nullity::Possibly;
    let above = [unknown(3, 12), unknown(5, 8)];
    let ends = [(3, 20), (3, 12), (3, 12)];
    assert!(rt; have_bounds(alloc, &above, null, (0, 2), ends)?);
    assert!(rt; have_average(alloc, &above, null, (3, 2), (20, 1))?);
    let below = [unknown(-8, -5), unknown(-12, -3)];
    let ends = [(-20, -3), (-12, -3), (-12, -3)];
    assert!(rt; have_bounds(alloc, &below, null, (0, 2), ends)?);
    assert!(rt; have_average(alloc, &below, null, (-20, 1), (-3, 2))?);
    let from_zero = [unknown(0, 4), unknown(2, 3)];
    let ends = [(0, 7), (0, 4), (0, 4)];
    assert!(rt; have_bounds(alloc, &from_zero, null, (0, 2), ends)?);
    let to_zero = [unknown(-4, 0), unknown(-3, -2)];
    let ends = [(-7, 0), (-4, 0), (-4, 0)];
    assert!(rt; have_bounds(alloc, &to_zero, null, (0, 2), ends)?);
    Ok(())
}

#[test]
fn some_rows_count(rt: HostRuntime) -> Result<(), Fail> {
    let alloc = rt.alloc();
    let never = Nullity::Never;
    let rows = [unknown(-2, 5), certain(4, 6), unknown(1, 3)];
    let ends = [(2, 14), (-2, 6), (4, 6)];
    assert!(rt; have_bounds(alloc, &rows, never, (1, 3), ends)?);
    assert!(rt; have_average(alloc, &rows, never, (2, 3), (14, 1))?);
    let low = [
        certain(-9, -4),
        unknown(-5, 2),
        unknown(3, 3),
        certain(-7, -6),
    ];
    let ends = [(-21, -5), (-9, -6), (-7, 3)];
    assert!(rt; have_bounds(alloc, &low, never, (2, 4), ends)?);
    assert!(rt; have_average(alloc, &low, never, (-21, 2), (-5, 4))?);
    Ok(())
}

// Adds a row to the second of two cells, and says the bounds of both, and that of the first after a new start.
fn second_of_two(alloc: Global, row: Row) -> Result<[Bound; 3], AllocError> {
    let mut running = Running::open(alloc, ItemKind::Min, 2)?;
    running.add(1, row.certain, span(row));
    let first = running.bound(0);
    let second = running.bound(1);
    running.begin(2);
    Ok([first, second, running.bound(1)])
}

#[test]
fn cells_are_apart(rt: HostRuntime) -> Result<(), Fail> {
    let none = Bound {
        null: Nullity::Always,
        lo: 0,
        hi: 0,
    };
    let one = Bound {
        null: Nullity::Never,
        lo: 3,
        hi: 5,
    };
    let told = second_of_two(rt.alloc(), certain(3, 5))?;
    assert_eq!(rt; told, [none, one, none]);
    Ok(())
}
