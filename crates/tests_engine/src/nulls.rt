//! Queries over two nullable columns, v with 5, null and 9, and w with 1, 2 and null, before and after the planes that tell null.

ghost use Rattle.std.specs.Prelude.{◌≡◌, pos, [], ◌∷◌, length, map, IfOk};
ghost use Rattle.daq_table.specs.declared.head.Kind.TheVariants.{Int};
ghost use Rattle.daq_table.specs.declared.table_head.Head.{Head};
ghost use Rattle.daq_table.specs.Tables.{ends_at, frame_of};
ghost use Rattle.query_model.specs.declared.query.Atom.TheVariants.{Compare};
ghost use Rattle.query_model.specs.declared.query.Comparison.TheVariants.{Gt};
ghost use Rattle.query_model.specs.declared.query.Face.TheVariants.{Number};
ghost use Rattle.query_model.specs.declared.query.ItemKind.TheVariants.{Count, Sum};
ghost use Rattle.query_model.specs.declared.query.Shape.TheVariants.{Plain};
ghost use Rattle.query_model.specs.Meaning.{PredReadsBelow};
ghost use Rattle.query_model.specs.Queries.{Add, Column, Literal, Negation, Query, Single, condition_of};
ghost use Rattle.query_model.specs.Validity.{CanCompareIn};

use crate::small::{item, step, whole_numbers};
use daq_table::{ColumnHeads, Head};
use known_column::OverTop;
use query_model::{
    Atom, Bound, Comparison, Expr, Face, ItemKind, Items, Nullity, Pred, Shape, TableColumns,
    TypedQuery,
};
use round_engine::{Engine, EngineView};
use std::alloc::{AllocError, Global};
use std::test::Fail;

fn null_head(alloc: Global) -> Result<Head, AllocError>
    ensures rows { IfOk result (λ head. head.rows ≡ 3) }
    ensures columns { IfOk result (λ head. length head.columns ≡ 2) }
    ensures v_base { IfOk result (λ head. (ends_at (frame_of head) 0).base ≡ pos 5) }
    ensures v_top { IfOk result (λ head. (ends_at (frame_of head) 0).top ≡ pos 9) }
    ensures w_base { IfOk result (λ head. (ends_at (frame_of head) 1).base ≡ pos 1) }
    ensures w_top { IfOk result (λ head. (ends_at (frame_of head) 1).top ≡ pos 2) }
    ensures kinds { IfOk result (λ head. map (λ column. column.kind) head.columns ≡ Int ∷ Int ∷ []) }
{
    let v = whole_numbers(alloc, b"v", true, 5, 9)?;
    let w = whole_numbers(alloc, b"w", true, 1, 2)?;
    Ok(Head {
        rows: 3,
        columns: ColumnHeads::new(vec![in alloc; v, w]?),
    })
}

// COUNT(*), COUNT(v), SUM(v) and SUM(v + w) where the condition holds.
fn null_query(alloc: Global, pred: Pred) -> Result<TypedQuery, AllocError>
    ensures columns { IfOk result (λ query. query.columns ≡ 0 ∷ 1 ∷ []) }
    ensures items { IfOk result (λ query. query.items ≡ record { kind = Count; arg = Literal (pos 0); face = Number 0 }
        ∷ record { kind = Count; arg = Column 0; face = Number 0 } ∷ record { kind = Sum; arg = Column 0; face = Number 0 }
        ∷ record { kind = Sum; arg = Add (Column 0) (Column 1); face = Number 0 } ∷ []) }
    ensures condition { IfOk result (λ query. query.pred ≡ condition_of pred) }
    ensures plain { IfOk result (λ query. query.shape ≡ Plain) }
{
    let v = Box::new(alloc, Expr::Column(0))?;
    let w = Box::new(alloc, Expr::Column(1))?;
    let rows = item(ItemKind::Count, Expr::Literal(0), Face::Number(0));
    let count = item(ItemKind::Count, Expr::Column(0), Face::Number(0));
    let sum = item(ItemKind::Sum, Expr::Column(0), Face::Number(0));
    let sum_of_both = item(ItemKind::Sum, Expr::Add(v, w), Face::Number(0));
    Ok(TypedQuery {
        columns: TableColumns::new(vec![in alloc; 0, 1]?),
        items: Items::new(vec![in alloc; rows, count, sum, sum_of_both]?),
        pred,
        shape: Shape::Plain,
    })
}

// Takes so many planes, first those of v.
fn follow(alloc: Global, engine: &mut Engine, planes: usize) -> Result<(), AllocError>
    requires { engine.old.frame.rows ≡ 3 }
    ensures { engine.new.frame.rows ≡ 3 }
{
    let steps = [
        (0, [1, 0, 1]),
        (0, [0, 0, 1]),
        (0, [0, 0, 0]),
        (0, [0, 0, 0]),
        (1, [1, 1, 0]),
        (1, [0, 1, 0]),
    ];
    for at in 0..planes.min(6) {
        let (column, bits) = steps[at];
        step(alloc, engine, column, &bits)?;
    }
    Ok(())
}

// The engine of the query after so many planes, where so many comparisons keep masks.
fn engine_after(
    alloc: Global,
    pred: Pred,
    planes: usize,
    masks: usize,
) -> Result<Engine, AllocError>
    requires columns { PredReadsBelow 2 (condition_of pred) }
    requires compared { (head : Head) (query : Query) → CanCompareIn head query (condition_of pred) }
    ensures { IfOk result (λ engine. engine.frame.rows ≡ 3) }
{
    let query = null_query(alloc, pred)?;
    let mut engine = Engine::open_within(alloc, query, &null_head(alloc)?, masks)?;
    follow(alloc, &mut engine, planes)?;
    Ok(engine)
}

type Told = Option<(Bound, Nullity)>;

// The bound of an item that is no average, and whether its argument is null in the second row.
fn item_at(engine: &EngineView<'_>, item: usize) -> Told
    requires { engine.now.frame.rows ≡ 3 }
{
    match engine.query().shape {
        Shape::Plain => {}
        Shape::Grouped(_) | Shape::Top { .. } => return None,
    }
    let items = engine.query().items.as_slice();
    if item >= items.len() {
        return None;
    }
    let wanted = &items[item];
    match wanted.kind {
        ItemKind::Avg => None,
        _ => Some((engine.plain(item), engine.missing(item, 1))),
    }
}

// What is told of the four items then.
fn told_after(
    alloc: Global,
    pred: Pred,
    planes: usize,
    masks: usize,
) -> Result<[Told; 4], AllocError>
    requires columns { PredReadsBelow 2 (condition_of pred) }
    requires compared { (head : Head) (query : Query) → CanCompareIn head query (condition_of pred) }
{
    let kept = engine_after(alloc, pred, planes, masks)?;
    let engine = kept.view();
    Ok([
        item_at(&engine, 0),
        item_at(&engine, 1),
        item_at(&engine, 2),
        item_at(&engine, 3),
    ])
}

fn never(lo: i128, hi: i128, missing: Nullity) -> Told {
    let null = Nullity::Never;
    Some((Bound { null, lo, hi }, missing))
}

fn possibly(lo: i128, hi: i128, missing: Nullity) -> Told {
    let null = Nullity::Possibly;
    Some((Bound { null, lo, hi }, missing))
}

// What is to be told after so many planes, of which the first tells where v is null and the fifth where w is: the ends of
// COUNT(v), SUM(v) and SUM(v + w).
fn wanted(
    planes: usize,
    count: (i128, i128),
    sum: (i128, i128),
    sum_of_both: (i128, i128),
) -> [Told; 4] {
    let start = planes == 0;
    let missing = if start {
        Nullity::Possibly
    } else {
        Nullity::Always
    };
    [
        never(3, 3, Nullity::Never),
        never(count.0, count.1, missing),
        if start {
            possibly(sum.0, sum.1, missing)
        } else {
            never(sum.0, sum.1, missing)
        },
        if planes < 5 {
            possibly(sum_of_both.0, sum_of_both.1, missing)
        } else {
            never(sum_of_both.0, sum_of_both.1, missing)
        },
    ]
}

#[test]
fn null_is_left_out(rt: HostRuntime) -> Result<(), Fail> {
    for (planes, count, sum, sum_of_both) in [
        (0, (0, 3), (5, 27), (6, 33)),
        (1, (2, 2), (10, 18), (6, 22)),
        (2, (2, 2), (14, 17), (6, 21)),
        (3, (2, 2), (14, 15), (6, 19)),
        (4, (2, 2), (14, 14), (6, 18)),
        (5, (2, 2), (14, 14), (6, 7)),
        (6, (2, 2), (14, 14), (6, 6)),
    ] {
        let want = wanted(planes, count, sum, sum_of_both);
        assert_eq!(rt;
            told_after(rt.alloc(), Pred::All, planes, 64)?,
            want,
            "{planes} planes"
        );
    }
    Ok(())
}

// The counts of the rows, and of those with v, where v is null.
#[test]
fn null_rows_have_no_value(rt: HostRuntime) -> Result<(), Fail> {
    let alloc = rt.alloc();
    let unread = told_after(alloc, Pred::Atom(Atom::IsNull { column: 0 }), 0, 64)?;
    assert_eq!(rt; unread[0], never(0, 3, Nullity::Never));
    let read = told_after(alloc, Pred::Atom(Atom::IsNull { column: 0 }), 1, 64)?;
    assert_eq!(rt; read[0], never(1, 1, Nullity::Never));
    assert_eq!(rt; read[1], never(0, 0, Nullity::Always));
    Ok(())
}

// v is not above 7.
fn not_above_seven(alloc: Global) -> Result<Pred, AllocError>
    ensures { IfOk result (λ pred. condition_of pred ≡ Negation (Single (Compare 0 Gt (pos 7)))) }
{
    let above = Atom::Compare {
        column: 0,
        op: Comparison::Gt,
        value: 7,
    };
    Ok(Pred::Not(Box::new(alloc, Pred::Atom(above))?))
}

// The number of rows at which NOT v > 7 holds, after so many planes.
fn count_not_above_seven(alloc: Global, planes: usize, masks: usize) -> Result<Told, AllocError> {
    let told = told_after(alloc, not_above_seven(alloc)?, planes, masks)?;
    Ok(told[0])
}

// By a mask of the comparison, and row by row where it keeps none.
#[test]
fn null_is_not_above_and_not_below(rt: HostRuntime) -> Result<(), Fail> {
    for (planes, lo, hi) in [(0, 0, 3), (1, 0, 2), (2, 0, 1), (3, 1, 1)] {
        let want = never(lo, hi, Nullity::Never);
        assert_eq!(rt; count_not_above_seven(rt.alloc(), planes, 64)?, want);
        assert_eq!(rt; count_not_above_seven(rt.alloc(), planes, 0)?, want);
    }
    Ok(())
}

// The planes that v refuses, told one by one: digits behind null, after the plane that tells null.
fn refused(alloc: Global) -> Result<[Option<OverTop>; 2], AllocError> {
    let mut engine = engine_after(alloc, Pred::All, 1, 64)?;
    let behind_null = step(alloc, &mut engine, 0, &[0, 1, 1])?;
    Ok([behind_null, step(alloc, &mut engine, 0, &[0, 0, 1])?])
}

#[test]
fn digit_behind_null_is_refused(rt: HostRuntime) -> Result<(), Fail> {
    assert_eq!(rt; refused(rt.alloc())?, [Some(OverTop { row: 1 }), None]);
    Ok(())
}
