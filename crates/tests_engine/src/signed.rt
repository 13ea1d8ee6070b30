//! Sums, ends and averages over columns with negative numbers, a null and ends clipped at top, where a condition holds, plane by plane:
//! v with -6, null, 7, -1, 4, 0, and w with -1, -1, -2, -3, -2, -1.

ghost use Rattle.std.specs.Prelude.{◌≡◌, pos, negsuc, [], ◌∷◌, length, map, IfOk};
ghost use Rattle.daq_table.specs.declared.head.Kind.TheVariants.{Int};
ghost use Rattle.daq_table.specs.Tables.{ends_at, frame_of};
ghost use Rattle.query_model.specs.declared.query.Atom.TheVariants.{Compare};
ghost use Rattle.query_model.specs.declared.query.Comparison.TheVariants.{Ge};
ghost use Rattle.query_model.specs.declared.query.Face.TheVariants.{Number, OfColumn};
ghost use Rattle.query_model.specs.declared.query.ItemKind.TheVariants.{Avg, Max, Min, Sum};
ghost use Rattle.query_model.specs.declared.query.Shape.TheVariants.{Plain};
ghost use Rattle.query_model.specs.Queries.{Add, Column, Literal, Single};

use crate::small::{item, step, whole_numbers};
use daq_table::{ColumnHeads, Head};
use query_model::{
    Atom, AverageBound, Bound, Comparison, Expr, Face, ItemKind, Items, Nullity, Pred, Shape,
    TableColumns, TypedQuery,
};
use round_engine::{Engine, EngineView};
use std::alloc::{AllocError, Global};
use std::test::Fail;

fn signed_head(alloc: Global) -> Result<Head, AllocError>
    ensures rows { IfOk result (λ head. head.rows ≡ 6) }
    ensures columns { IfOk result (λ head. length head.columns ≡ 2) }
    ensures v_base { IfOk result (λ head. (ends_at (frame_of head) 0).base ≡ negsuc 5) }
    ensures v_top { IfOk result (λ head. (ends_at (frame_of head) 0).top ≡ pos 7) }
    ensures w_base { IfOk result (λ head. (ends_at (frame_of head) 1).base ≡ negsuc 3) }
    ensures w_top { IfOk result (λ head. (ends_at (frame_of head) 1).top ≡ negsuc 0) }
    ensures kinds { IfOk result (λ head. map (λ column. column.kind) head.columns ≡ Int ∷ Int ∷ []) }
{
    let v = whole_numbers(alloc, b"v", true, -6, 7)?;
    let w = whole_numbers(alloc, b"w", false, -4, -1)?;
    Ok(Head {
        rows: 6,
        columns: ColumnHeads::new(vec![in alloc; v, w]?),
    })
}

// SUM(v), MIN(v), MAX(v), SUM(w), AVG(v) and AVG(v + 0) where w >= -2.
fn signed_query(alloc: Global) -> Result<TypedQuery, AllocError>
    ensures columns { IfOk result (λ query. query.columns ≡ 0 ∷ 1 ∷ []) }
    ensures items { IfOk result (λ query. query.items ≡ record { kind = Sum; arg = Column 0; face = Number 0 }
        ∷ record { kind = Min; arg = Column 0; face = OfColumn 0 } ∷ record { kind = Max; arg = Column 0; face = OfColumn 0 }
        ∷ record { kind = Sum; arg = Column 1; face = Number 0 } ∷ record { kind = Avg; arg = Column 0; face = Number 0 }
        ∷ record { kind = Avg; arg = Add (Column 0) (Literal (pos 0)); face = Number 0 } ∷ []) }
    ensures condition { IfOk result (λ query. query.pred ≡ Single (Compare 1 Ge (negsuc 1))) }
    ensures plain { IfOk result (λ query. query.shape ≡ Plain) }
{
    let v = Box::new(alloc, Expr::Column(0))?;
    let zero = Box::new(alloc, Expr::Literal(0))?;
    let sum = item(ItemKind::Sum, Expr::Column(0), Face::Number(0));
    let least = item(ItemKind::Min, Expr::Column(0), Face::OfColumn(0));
    let greatest = item(ItemKind::Max, Expr::Column(0), Face::OfColumn(0));
    let sum_of_w = item(ItemKind::Sum, Expr::Column(1), Face::Number(0));
    let average = item(ItemKind::Avg, Expr::Column(0), Face::Number(0));
    let average_by_rows = item(ItemKind::Avg, Expr::Add(v, zero), Face::Number(0));
    let at_least = Atom::Compare {
        column: 1,
        op: Comparison::Ge,
        value: -2,
    };
    Ok(TypedQuery {
        columns: TableColumns::new(vec![in alloc; 0, 1]?),
        items: Items::new(vec![in alloc;
            sum,
            least,
            greatest,
            sum_of_w,
            average,
            average_by_rows,
        ]?),
        pred: Pred::Atom(at_least),
        shape: Shape::Plain,
    })
}

// The planes of v, of which the first tells null, and those of w.
const PLANES: [(usize, [u64; 6]); 7] = [
    (0, [1, 0, 1, 1, 1, 1]),
    (0, [0, 0, 1, 0, 1, 0]),
    (0, [0, 0, 1, 1, 0, 1]),
    (0, [0, 0, 0, 0, 1, 1]),
    (0, [0, 0, 1, 1, 0, 0]),
    (1, [1, 1, 1, 0, 1, 1]),
    (1, [1, 1, 0, 1, 0, 1]),
];

// Takes so many planes, from one of them on.
fn follow(alloc: Global, engine: &mut Engine, first: usize, planes: usize) -> Result<(), AllocError>
    requires { engine.old.frame.rows ≡ 6 }
    ensures { engine.new.frame.rows ≡ 6 }
{
    for at in 0..planes.min(7) {
        let (column, bits) = PLANES[(first % 7 + at) % 7];
        step(alloc, engine, column, &bits)?;
    }
    Ok(())
}

// The engine after so many planes, from one of them on.
fn engine_after(alloc: Global, first: usize, planes: usize) -> Result<Engine, AllocError> {
    let mut engine = Engine::open(alloc, signed_query(alloc)?, &signed_head(alloc)?)?;
    follow(alloc, &mut engine, first, planes)?;
    Ok(engine)
}

// The bound of an item that is no average.
fn plain_at(engine: &EngineView<'_>, item: usize) -> Option<Bound> {
    match engine.query().shape {
        Shape::Plain => {}
        Shape::Grouped(_) | Shape::Top { .. } => return None,
    }
    let items = engine.query().items.as_slice();
    if item >= items.len() {
        return None;
    }
    let wanted = &items[item];
    match wanted.kind {
        ItemKind::Avg => None,
        _ => Some(engine.plain(item)),
    }
}

// The bound of an average.
fn average_at(engine: &EngineView<'_>, item: usize) -> Option<AverageBound> {
    match engine.query().shape {
        Shape::Plain => {}
        Shape::Grouped(_) | Shape::Top { .. } => return None,
    }
    let items = engine.query().items.as_slice();
    if item >= items.len() {
        return None;
    }
    let wanted = &items[item];
    match wanted.kind {
        ItemKind::Avg => Some(engine.average(item)),
        _ => None,
    }
}

// What is told of the first four items after so many planes, from one of them on.
fn told_after(
    alloc: Global,
    first: usize,
    planes: usize,
) -> Result<[Option<Bound>; 4], AllocError> {
    let kept = engine_after(alloc, first, planes)?;
    let engine = kept.view();
    Ok([
        plain_at(&engine, 0),
        plain_at(&engine, 1),
        plain_at(&engine, 2),
        plain_at(&engine, 3),
    ])
}

// What is told of the averages.
fn averages_after(
    alloc: Global,
    first: usize,
    planes: usize,
) -> Result<[Option<AverageBound>; 2], AllocError> {
    let kept = engine_after(alloc, first, planes)?;
    let engine = kept.view();
    Ok([average_at(&engine, 4), average_at(&engine, 5)])
}

fn bound(null: Nullity, ends: (i128, i128)) -> Option<Bound> {
    let (lo, hi) = ends;
    Some(Bound { null, lo, hi })
}

#[test]
fn ends_over_v_are_told(rt: HostRuntime) -> Result<(), Fail> {
    let (never, possibly) = (Nullity::Never, Nullity::Possibly);
    for (first, planes, null, sum, least, greatest) in [
        (0, 0, possibly, (-36, 42), (-6, 7), (-6, 7)),
        (0, 1, possibly, (-30, 35), (-6, 7), (-6, 7)),
        (0, 2, possibly, (-18, 17), (-6, 7), (-6, 7)),
        (0, 5, possibly, (-7, 11), (-6, 7), (-6, 7)),
        (0, 6, never, (5, 5), (-6, -6), (7, 7)),
        (5, 1, possibly, (-30, 35), (-6, 7), (-6, 7)),
        (5, 3, never, (-24, 28), (-6, 7), (-6, 7)),
        (5, 4, never, (-8, 16), (-6, 1), (2, 7)),
        (5, 5, never, (0, 10), (-6, -3), (6, 7)),
        (5, 6, never, (4, 8), (-6, -5), (6, 7)),
    ] {
        let [told_sum, told_least, told_greatest, _] = told_after(rt.alloc(), first, planes)?;
        assert_eq!(rt;
            [told_sum, told_least, told_greatest],
            [bound(null, sum), bound(null, least), bound(null, greatest)],
            "{planes} planes from {first} on"
        );
    }
    Ok(())
}

#[test]
fn sums_of_w_are_told(rt: HostRuntime) -> Result<(), Fail> {
    let (never, possibly) = (Nullity::Never, Nullity::Possibly);
    for (first, planes, null, sum) in [
        (0, 0, possibly, (-24, -1)),
        (0, 1, possibly, (-24, -1)),
        (0, 2, possibly, (-24, -1)),
        (0, 5, possibly, (-24, -1)),
        (0, 6, never, (-10, -5)),
        (5, 1, never, (-10, -5)),
        (5, 3, never, (-7, -7)),
        (5, 4, never, (-7, -7)),
        (5, 5, never, (-7, -7)),
        (5, 6, never, (-7, -7)),
    ] {
        let [_, _, _, told] = told_after(rt.alloc(), first, planes)?;
        assert_eq!(rt; told, bound(null, sum), "{planes} planes from {first} on");
    }
    Ok(())
}

// AVG(v) goes by masks, AVG(v + 0) row by row.
#[test]
fn averages_agree(rt: HostRuntime) -> Result<(), Fail> {
    for first in [0, 5] {
        for planes in 0..8 {
            let [by_masks, by_rows] = averages_after(rt.alloc(), first, planes)?;
            assert!(rt; by_masks.is_some());
            assert_eq!(rt; by_masks, by_rows, "{planes} planes from {first} on");
        }
    }
    Ok(())
}
