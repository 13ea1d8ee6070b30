//! Items over prices of 3, 5, 9 and 12, of which those below 7 pass, plane by plane.

ghost use Rattle.std.specs.Prelude.{◌≡◌, pos, [], ◌∷◌, length, IfOk};
ghost use Rattle.query_model.specs.declared.query.Atom.TheVariants.{Compare};
ghost use Rattle.query_model.specs.declared.query.Comparison.TheVariants.{Lt};
ghost use Rattle.query_model.specs.declared.query.Face.TheVariants.{Number, OfColumn};
ghost use Rattle.query_model.specs.declared.query.ItemKind.TheVariants.{Count, Max, Min, Sum};
ghost use Rattle.query_model.specs.declared.query.Shape.TheVariants.{Plain};
ghost use Rattle.query_model.specs.Queries.{Column, Literal, Single};

use crate::small::{item, small_head, step};
use clip_bounds::clip_bound;
use query_model::{
    Atom, Bound, Comparison, Expr, Face, ItemKind, Items, Nullity, Pred, Shape, TableColumns,
    TypedQuery,
};
use round_engine::{Engine, EngineView};
use std::alloc::{AllocError, Global};
use std::test::Fail;

// SUM(price), MIN(price), MAX(price) and COUNT(*) where price < 7.
fn price_query(alloc: Global) -> Result<TypedQuery, AllocError>
    ensures columns { IfOk result (λ query. query.columns ≡ 0 ∷ []) }
    ensures items { IfOk result (λ query. query.items ≡ record { kind = Sum; arg = Column 0; face = Number 0 }
        ∷ record { kind = Min; arg = Column 0; face = OfColumn 0 } ∷ record { kind = Max; arg = Column 0; face = OfColumn 0 }
        ∷ record { kind = Count; arg = Literal (pos 0); face = Number 0 } ∷ []) }
    ensures condition { IfOk result (λ query. query.pred ≡ Single (Compare 0 Lt (pos 7))) }
    ensures plain { IfOk result (λ query. query.shape ≡ Plain) }
{
    let sum = item(ItemKind::Sum, Expr::Column(0), Face::Number(0));
    let least = item(ItemKind::Min, Expr::Column(0), Face::OfColumn(0));
    let greatest = item(ItemKind::Max, Expr::Column(0), Face::OfColumn(0));
    let count = item(ItemKind::Count, Expr::Literal(0), Face::Number(0));
    let below = Atom::Compare {
        column: 0,
        op: Comparison::Lt,
        value: 7,
    };
    Ok(TypedQuery {
        columns: TableColumns::new(vec![in alloc; 0]?),
        items: Items::new(vec![in alloc; sum, least, greatest, count]?),
        pred: Pred::Atom(below),
        shape: Shape::Plain,
    })
}

// Nothing of the four prices is read.
fn price_engine(alloc: Global) -> Result<Engine, AllocError>
    ensures rows { IfOk result (λ engine. engine.frame.rows ≡ 4) }
    ensures items { IfOk result (λ engine. length engine.query.items ≡ 4) }
{
    Engine::open(alloc, price_query(alloc)?, &small_head(alloc)?)
}

// The clipped bound of each item.
fn told(engine: &EngineView<'_>) -> [Option<Bound>; 4]
    requires { length engine.now.query.items ≡ 4 }
{
    [
        clip_bound(engine, 0),
        clip_bound(engine, 1),
        clip_bound(engine, 2),
        clip_bound(engine, 3),
    ]
}

// The clipped bounds at the start and after each plane.
fn told_by_planes(alloc: Global, engine: &mut Engine) -> Result<[[Option<Bound>; 4]; 5], AllocError>
    requires rows { engine.old.frame.rows ≡ 4 }
    requires items { length engine.old.query.items ≡ 4 }
{
    let start = told(&engine.view());
    step(alloc, engine, 0, &[0, 0, 0, 1])?;
    let first = told(&engine.view());
    step(alloc, engine, 0, &[0, 0, 1, 0])?;
    let second = told(&engine.view());
    step(alloc, engine, 0, &[0, 1, 1, 0])?;
    let third = told(&engine.view());
    step(alloc, engine, 0, &[0, 0, 0, 1])?;
    Ok([start, first, second, third, told(&engine.view())])
}

fn told_of_prices(alloc: Global) -> Result<[[Option<Bound>; 4]; 5], AllocError> {
    let mut engine = price_engine(alloc)?;
    told_by_planes(alloc, &mut engine)
}

#[test]
fn prices_below_seven(rt: HostRuntime) -> Result<(), Fail> {
    let (never, possibly) = (Nullity::Never, Nullity::Possibly);
    let wanted = [
        (possibly, [(3, 24), (3, 6), (3, 6)]),
        (possibly, [(3, 18), (3, 6), (3, 6)]),
        (never, [(6, 12), (3, 6), (3, 6)]),
        (never, [(8, 10), (3, 4), (5, 6)]),
        (never, [(8, 8), (3, 3), (5, 5)]),
    ];
    let wanted = wanted.map(|(null, [sum, least, greatest])| {
        let bound = |(lo, hi)| Some(Bound { null, lo, hi });
        [bound(sum), bound(least), bound(greatest), None]
    });
    assert_eq!(rt; told_of_prices(rt.alloc())?, wanted);
    Ok(())
}
