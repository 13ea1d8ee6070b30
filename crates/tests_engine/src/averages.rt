//! The average of price over four rows (5, 9, 12, 3), of which those count where qty (2, 1, 4, 3) is at least 2, plane by plane.

ghost use Rattle.std.specs.Prelude.{◌≡◌, pos, [], ◌∷◌, length, slice_get, IfOk, IfSome};
ghost use Rattle.query_model.specs.declared.query.Atom.TheVariants.{Compare};
ghost use Rattle.query_model.specs.declared.query.Comparison.TheVariants.{Ge};
ghost use Rattle.query_model.specs.declared.query.Face.TheVariants.{Number};
ghost use Rattle.query_model.specs.declared.query.ItemKind.TheVariants.{Avg};
ghost use Rattle.query_model.specs.declared.query.Shape.TheVariants.{Plain};
ghost use Rattle.query_model.specs.Queries.{Column, Single};

use crate::small::{item, small_head, step};
use avg_exact::{Exact, exact_average};
use interval_calc::Fraction;
use query_model::{
    Atom, Comparison, Expr, Face, ItemKind, Items, Nullity, Pred, Shape, TableColumns, TypedQuery,
};
use round_engine::Engine;
use std::alloc::{AllocError, Global};
use std::test::Fail;

// AVG(price) where qty >= 2.
fn small_query(alloc: Global) -> Result<TypedQuery, AllocError>
    ensures columns { IfOk result (λ query. query.columns ≡ 0 ∷ 1 ∷ []) }
    ensures items { IfOk result (λ query. query.items ≡ record { kind = Avg; arg = Column 0; face = Number 0 } ∷ []) }
    ensures condition { IfOk result (λ query. query.pred ≡ Single (Compare 1 Ge (pos 2))) }
    ensures plain { IfOk result (λ query. query.shape ≡ Plain) }
{
    let average = item(ItemKind::Avg, Expr::Column(0), Face::Number(0));
    let at_least = Atom::Compare {
        column: 1,
        op: Comparison::Ge,
        value: 2,
    };
    Ok(TypedQuery {
        columns: TableColumns::new(vec![in alloc; 0, 1]?),
        items: Items::new(vec![in alloc; average]?),
        pred: Pred::Atom(at_least),
        shape: Shape::Plain,
    })
}

fn small_engine(alloc: Global) -> Result<Engine, AllocError>
    ensures rows { IfOk result (λ engine. engine.frame.rows ≡ 4) }
    ensures items { IfOk result (λ engine. length engine.query.items ≡ 1) }
    ensures plain { IfOk result (λ engine. engine.query.shape ≡ Plain) }
    ensures average { IfOk result (λ engine. IfSome (slice_get engine.query.items 0) (λ item. item.kind ≡ Avg)) }
{
    Engine::open(alloc, small_query(alloc)?, &small_head(alloc)?)
}

// The exact averages at the start, after the first plane of qty, and after the first of price.
fn tell(alloc: Global, engine: &mut Engine) -> Result<[Exact; 3], AllocError>
    requires rows { engine.old.frame.rows ≡ 4 }
    requires items { length engine.old.query.items ≡ 1 }
    requires plain { engine.old.query.shape ≡ Plain }
    requires average { IfSome (slice_get engine.old.query.items 0) (λ item. item.kind ≡ Avg) }
{
    let start = exact_average(&engine.view(), 0);
    step(alloc, engine, 1, &[0, 0, 1, 1])?;
    let first = exact_average(&engine.view(), 0);
    step(alloc, engine, 0, &[0, 0, 1, 0])?;
    let second = exact_average(&engine.view(), 0);
    Ok([start, first, second])
}

fn told(alloc: Global) -> Result<[Exact; 3], AllocError> {
    let mut engine = small_engine(alloc)?;
    tell(alloc, &mut engine)
}

#[test]
fn uncertain_rows_are_taken_where_they_help(rt: HostRuntime) -> Result<(), Fail> {
    let start = Exact {
        null: Nullity::Possibly,
        lo: Fraction { num: 12, den: 4 },
        hi: Fraction { num: 48, den: 4 },
        unknown: 4,
        low_taken: 4,
        high_taken: 4,
        low_cut: Some(3),
        high_cut: Some(12),
    };
    let first = Exact {
        null: Nullity::Never,
        lo: Fraction { num: 6, den: 2 },
        hi: Fraction { num: 24, den: 2 },
        unknown: 2,
        low_taken: 0,
        high_taken: 0,
        low_cut: None,
        high_cut: None,
    };
    let second = Exact {
        null: Nullity::Never,
        lo: Fraction { num: 20, den: 4 },
        hi: Fraction { num: 22, den: 2 },
        unknown: 2,
        low_taken: 2,
        high_taken: 0,
        low_cut: Some(3),
        high_cut: None,
    };
    assert_eq!(rt; told(rt.alloc())?, [start, first, second]);
    Ok(())
}
