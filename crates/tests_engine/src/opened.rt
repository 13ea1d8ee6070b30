//! A query over a small table, from its opening to its last plane.

ghost use Rattle.std.specs.Prelude.{◌≡◌, ◌≢◌, pos, [], ◌∷◌, length, map, slice_get, Some, IfOk, IfSome};
ghost use Rattle.daq_table.specs.declared.head.Kind.TheVariants.{Int};
ghost use Rattle.daq_table.specs.Tables.{ends_at, frame_of};
ghost use Rattle.query_model.specs.declared.query.Atom.TheVariants.{Compare};
ghost use Rattle.query_model.specs.Queries.{Column, Literal, Single};
ghost use Rattle.query_model.specs.declared.query.Face.TheVariants.{Number, OfColumn};
ghost use Rattle.query_model.specs.declared.query.ItemKind.TheVariants.{Avg, Count, Min};
ghost use Rattle.query_model.specs.declared.query.Comparison.TheVariants.{Ge};
ghost use Rattle.query_model.specs.declared.query.Shape.TheVariants.{Plain};

use crate::small::{item, step, whole_numbers};
use daq_table::{ColumnHeads, Head};
use interval_calc::{Fraction, Interval};
use known_column::OverTop;
use plane_schedule::{Nearness, Role};
use query_model::{
    Atom, AverageBound, Bound, Comparison, Expr, Face, ItemKind, Items, Nullity, Pred, Shape,
    TableColumns, Truth, TypedQuery,
};
use round_engine::Engine;
use std::alloc::{AllocError, Global};
use std::test::Fail;

// Two rows, and a column of numbers from 1 to 3.
fn small_head(alloc: Global) -> Result<Head, AllocError>
    ensures rows { IfOk result (λ head. head.rows ≡ 2) }
    ensures columns { IfOk result (λ head. length head.columns ≡ 1) }
    ensures base { IfOk result (λ head. (ends_at (frame_of head) 0).base ≡ pos 1) }
    ensures top { IfOk result (λ head. (ends_at (frame_of head) 0).top ≡ pos 3) }
    ensures kind { IfOk result (λ head. slice_get (map (λ column. column.kind) head.columns) 0 ≡ Some Int) }
{
    let column = whole_numbers(alloc, b"v", false, 1, 3)?;
    Ok(Head {
        rows: 2,
        columns: ColumnHeads::new(vec![in alloc; column]?),
    })
}

// How many numbers are at least 2, the least of these, and their average.
fn small_query(alloc: Global) -> Result<TypedQuery, AllocError>
    ensures columns { IfOk result (λ query. query.columns ≡ 0 ∷ []) }
    ensures items { IfOk result (λ query. query.items ≡ record { kind = Count; arg = Literal (pos 0); face = Number 0 }
        ∷ record { kind = Min; arg = Column 0; face = OfColumn 0 } ∷ record { kind = Avg; arg = Column 0; face = Number 0 } ∷ []) }
    ensures condition { IfOk result (λ query. query.pred ≡ Single (Compare 0 Ge (pos 2))) }
    ensures plain { IfOk result (λ query. query.shape ≡ Plain) }
{
    let count = item(ItemKind::Count, Expr::Literal(0), Face::Number(0));
    let least = item(ItemKind::Min, Expr::Column(0), Face::OfColumn(0));
    let average = item(ItemKind::Avg, Expr::Column(0), Face::Number(0));
    let at_least = Atom::Compare {
        column: 0,
        op: Comparison::Ge,
        value: 2,
    };
    Ok(TypedQuery {
        columns: TableColumns::new(vec![in alloc; 0]?),
        items: Items::new(vec![in alloc; count, least, average]?),
        pred: Pred::Atom(at_least),
        shape: Shape::Plain,
    })
}

// The query over the table, of which nothing is read.
fn small_engine(alloc: Global) -> Result<Engine, AllocError>
    ensures rows { IfOk result (λ engine. engine.frame.rows ≡ 2) }
    ensures columns { IfOk result (λ engine. length engine.query.columns ≡ 1) }
    ensures items { IfOk result (λ engine. length engine.query.items ≡ 3) }
    ensures plain { IfOk result (λ engine. engine.query.shape ≡ Plain) }
    ensures count { IfOk result (λ engine. IfSome (slice_get engine.query.items 0) (λ item. item.kind ≢ Avg)) }
    ensures least { IfOk result (λ engine. IfSome (slice_get engine.query.items 1) (λ item. item.kind ≢ Avg)) }
    ensures average { IfOk result (λ engine. IfSome (slice_get engine.query.items 2) (λ item. item.kind ≡ Avg)) }
{
    Engine::open(alloc, small_query(alloc)?, &small_head(alloc)?)
}

// What is told of the items, and of the second row.
type Start = ([Bound; 2], AverageBound, (Truth, Interval, Interval));

fn told_at_the_start(alloc: Global) -> Result<Start, AllocError> {
    let kept = small_engine(alloc)?;
    let engine = kept.view();
    Ok((
        [engine.plain(0), engine.plain(1)],
        engine.average(2),
        (engine.truth(1), engine.range(0, 1), engine.span(0, 1)),
    ))
}

#[test]
fn bounds_at_the_start(rt: HostRuntime) -> Result<(), Fail> {
    let count = Bound {
        null: Nullity::Never,
        lo: 0,
        hi: 2,
    };
    let least = Bound {
        null: Nullity::Possibly,
        lo: 1,
        hi: 3,
    };
    let average = AverageBound {
        null: Nullity::Possibly,
        lo: Fraction { num: 1, den: 2 },
        hi: Fraction { num: 6, den: 1 },
    };
    let row = (
        Truth::Unknown,
        Interval { lo: 1, hi: 3 },
        Interval { lo: 0, hi: 0 },
    );
    let told = told_at_the_start(rt.alloc())?;
    assert_eq!(rt; told.0, [count, least]);
    assert_eq!(rt; told.1, average);
    assert_eq!(rt; told.2, row);
    Ok(())
}

// What three planes come to, of which the second has a digit that the top has not; with how far the query has come, and whether each
// answer is known, after the second and after the third.
type Taken = ([Option<OverTop>; 3], (u32, bool), (u8, Role, bool));

fn take_three(alloc: Global, engine: &mut Engine) -> Result<Taken, AllocError>
    requires { engine.old.frame.rows ≡ 2 }
{
    let first = step(alloc, engine, 0, &[0, 1])?;
    let second = step(alloc, engine, 0, &[1, 1])?;
    let between = (
        engine.view().progress().done,
        engine.view().narrow(Nearness::exact()),
    );
    let third = step(alloc, engine, 0, &[1, 0])?;
    let progress = engine.view().progress();
    let last = (
        progress.unread[0],
        progress.role[0],
        engine.view().narrow(Nearness::exact()),
    );
    Ok(([first, second, third], between, last))
}

fn taken(alloc: Global) -> Result<Taken, AllocError> {
    let mut engine = small_engine(alloc)?;
    take_three(alloc, &mut engine)
}

#[test]
fn planes_are_taken_or_refused(rt: HostRuntime) -> Result<(), Fail> {
    let told = taken(rt.alloc())?;
    assert_eq!(rt; told.0, [None, Some(OverTop { row: 1 }), None]);
    assert_eq!(rt; told.1, (1, false));
    assert_eq!(rt; told.2, (0, Role::Filter, true));
    Ok(())
}
