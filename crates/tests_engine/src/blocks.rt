//! Blocks of a small table.

ghost use Rattle.std.specs.Prelude.{◌≡◌, ◌<◌, ◌≤◌, [], ◌∷◌, false, length, map, pos, slice_get, Some, IfOk, IfSome};
ghost use Rattle.daq_table.specs.declared.head.Kind.TheVariants.{Dec};
ghost use Rattle.daq_table.specs.Tables.{ends_at, frame_of};
ghost use Rattle.query_model.specs.Validity.{FitsHead};
ghost use Rattle.query_model.specs.declared.query.Atom.TheVariants.{Compare};
ghost use Rattle.query_model.specs.Queries.{All, Column, Literal, Single};
ghost use Rattle.query_model.specs.declared.query.Face.TheVariants.{Number, OfColumn};
ghost use Rattle.query_model.specs.declared.query.ItemKind.TheVariants.{Avg, Count, Min, Sum};
ghost use Rattle.query_model.specs.declared.query.Comparison.TheVariants.{Ge};
ghost use Rattle.query_model.specs.declared.query.Shape.TheVariants.{Plain, Top};
ghost use Rattle.daq_table.specs.ValueTexts.{HeadHasTexts};

use crate::small::item;
use daq_report::write_block;
use daq_table::{ColumnHead, ColumnHeads, Dictionary, Head, Kind, Name, Text};
use outer_world::MemSink;
use plane_schedule::{Extras, Listing, Plan};
use query_model::{
    Atom, Comparison, Expr, Face, ItemKind, Items, Pred, Shape, TableColumns, TypedQuery,
};
use round_engine::{Engine, EngineView};
use std::alloc::{AllocError, Global};
use std::test::Fail;

// Two rows of a price from 0.05 to 0.20, and null or one of two fruits, of which one has a quote.
fn market(alloc: Global) -> Result<Head, AllocError>
    ensures rows { IfOk result (λ head. head.rows ≡ 2) }
    ensures columns { IfOk result (λ head. length head.columns ≡ 2) }
    ensures kind { IfOk result (λ head. slice_get (map (λ column. column.kind) head.columns) 0 ≡ Some (Dec 2)) }
    ensures price_base { IfOk result (λ head. (ends_at (frame_of head) 0).base ≡ pos 5) }
    ensures price_top { IfOk result (λ head. (ends_at (frame_of head) 0).top ≡ pos 20) }
    ensures fruit_base { IfOk result (λ head. (ends_at (frame_of head) 1).base ≡ pos 0) }
    ensures fruit_top { IfOk result (λ head. (ends_at (frame_of head) 1).top ≡ pos 1) }
    ensures texts { IfOk result HeadHasTexts }
{
    let price = ColumnHead {
        name: Name::new(Vec::from_slice(alloc, b"price")?),
        kind: Kind::Dec(2),
        nullable: false,
        base: 5,
        top: 20,
        names: Dictionary::new(Vec::new(alloc)),
    };
    let quoted = Text::new(Vec::from_slice(alloc, b"it's")?);
    let plum = Text::new(Vec::from_slice(alloc, b"plum")?);
    let fruit = ColumnHead {
        name: Name::new(Vec::from_slice(alloc, b"fruit")?),
        kind: Kind::Text,
        nullable: true,
        base: 0,
        top: 1,
        names: Dictionary::new(vec![in alloc; quoted, plum]?),
    };
    let columns = ColumnHeads::new(vec![in alloc; price, fruit]?);
    Ok(Head { rows: 2, columns })
}

// Of the rows with a price of at least 0.10: how many there are, the first fruit, and the average and the sum of the price.
fn question(alloc: Global) -> Result<TypedQuery, AllocError>
    ensures columns { IfOk result (λ query. query.columns ≡ 0 ∷ 1 ∷ []) }
    ensures items { IfOk result (λ query. query.items ≡ record { kind = Count; arg = Literal (pos 0); face = Number 0 }
        ∷ record { kind = Min; arg = Column 1; face = OfColumn 1 } ∷ record { kind = Avg; arg = Column 0; face = Number 2 }
        ∷ record { kind = Sum; arg = Column 0; face = Number 2 } ∷ []) }
    ensures condition { IfOk result (λ query. query.pred ≡ Single (Compare 0 Ge (pos 10))) }
    ensures plain { IfOk result (λ query. query.shape ≡ Plain) }
{
    let count = item(ItemKind::Count, Expr::Literal(0), Face::Number(0));
    let first = item(ItemKind::Min, Expr::Column(1), Face::OfColumn(1));
    let average = item(ItemKind::Avg, Expr::Column(0), Face::Number(2));
    let sum = item(ItemKind::Sum, Expr::Column(0), Face::Number(2));
    Ok(TypedQuery {
        columns: TableColumns::new(vec![in alloc; 0, 1]?),
        items: Items::new(vec![in alloc; count, first, average, sum]?),
        pred: Pred::Atom(Atom::Compare {
            column: 0,
            op: Comparison::Ge,
            value: 10,
        }),
        shape: Shape::Plain,
    })
}

// The first rows, so many, in the order of the fruit.
fn ranking(alloc: Global, limit: u32) -> Result<TypedQuery, AllocError>
    ensures columns { IfOk result (λ query. query.columns ≡ 0 ∷ 1 ∷ []) }
    ensures items { IfOk result (λ query. query.items ≡ []) }
    ensures condition { IfOk result (λ query. query.pred ≡ All) }
    ensures shape { IfOk result (λ query. query.shape ≡ Top 1 false limit) }
{
    Ok(TypedQuery {
        columns: TableColumns::new(vec![in alloc; 0, 1]?),
        items: Items::new(Vec::new(alloc)),
        pred: Pred::All,
        shape: Shape::Top {
            key: 1,
            down: false,
            limit,
        },
    })
}

// The query over the table, of which nothing is read.
fn opened(alloc: Global, head: &Head) -> Result<Engine, AllocError>
    requires rows { head.now.rows ≡ 2 }
    requires columns { length head.now.columns ≡ 2 }
    requires kind { slice_get (map (λ column. column.kind) head.now.columns) 0 ≡ Some (Dec 2) }
    requires price_base { (ends_at (frame_of head.now) 0).base ≡ pos 5 }
    requires price_top { (ends_at (frame_of head.now) 0).top ≡ pos 20 }
    requires fruit_base { (ends_at (frame_of head.now) 1).base ≡ pos 0 }
    requires fruit_top { (ends_at (frame_of head.now) 1).top ≡ pos 1 }
    ensures columns { IfOk result (λ engine. length engine.query.columns ≡ 2) }
    ensures fits { IfOk result (λ engine. FitsHead engine.query engine.frame head.now) }
{
    Engine::open(alloc, question(alloc)?, head)
}

// The ranking over the table, of which nothing is read.
fn ranked(alloc: Global, head: &Head, limit: u32) -> Result<Engine, AllocError>
    requires columns { length head.now.columns ≡ 2 }
    requires limit { 1 ≤ limit }
    requires few { limit ≤ 1000 }
    ensures fits { IfOk result (λ engine. FitsHead engine.query engine.frame head.now) }
{
    Engine::open(alloc, ranking(alloc, limit)?, head)
}

// A sink of so much room, after the block of round 3 was written to it.
fn sink_after(
    alloc: Global,
    engine: &EngineView<'_>,
    head: &Head,
    last: Option<usize>,
    plan: &Plan,
    room: usize,
) -> Result<MemSink, AllocError>
    requires fits { FitsHead engine.now.query engine.now.frame head.now }
    requires texts { HeadHasTexts head.now }
    requires last { IfSome last (λ c. c < length engine.now.query.columns) }
{
    let mut sink = MemSink::with_room(alloc, room, 7, Vec::new(alloc))?;
    let _done = write_block(engine, head, 3, last, plan, &mut sink).is_ok();
    Ok(sink)
}

// The block of a round of the market, in which this column was read, in a sink of so much room.
fn round_shown(
    alloc: Global,
    last: Option<usize>,
    extras: Extras,
    room: usize,
) -> Result<MemSink, AllocError>
    requires last { IfSome last (λ c. c < 2) }
{
    let head = market(alloc)?;
    let engine = opened(alloc, &head)?;
    let plan = Plan {
        extras,
        ..Plan::widest()
    };
    sink_after(alloc, &engine.view(), &head, last, &plan, room)
}

#[test]
fn blocks_of_a_round(rt: HostRuntime) -> Result<(), Fail> {
    let alloc = rt.alloc();
    assert_eq!(rt;
        round_shown(alloc, Some(0), Extras::none(), 300)?.contents(),
        b"round 3 price 0/4\n1 [0, 2]\n2 ['it''s', 'plum'] or null\n3 [0.05/2, 0.40/1] or null\n4 [0.05, 0.40] or null\n".as_slice()
    );
    assert_eq!(rt;
        round_shown(alloc, None, Extras::none(), 27)?.contents(),
        b"round 3\n1 [0, 2]\n2 ['it''s'".as_slice()
    );
    Ok(())
}

#[test]
fn lines_behind_items(rt: HostRuntime) -> Result<(), Fail> {
    let extras = Extras {
        clip: true,
        exact: true,
    };
    let lines = b"round 3\n1 [0, 2]\n2 ['it''s', 'plum'] or null\n\
        3 [0.05/2, 0.40/1] or null\n3 exact [0.10/2, 0.40/2] or null\n\
        3 low takes 2 of 2 at most 0.05\n3 high takes 2 of 2 at least 0.20\n\
        4 [0.05, 0.40] or null\n4 clip [0.10, 0.40] or null\n";
    assert_eq!(rt;
        round_shown(rt.alloc(), None, extras, 400)?.contents(),
        lines.as_slice()
    );
    Ok(())
}

// The block of a ranking of so many rows of the market.
fn ranking_shown(alloc: Global, limit: u32, listing: Listing) -> Result<MemSink, AllocError>
    requires limit { 1 ≤ limit }
    requires few { limit ≤ 1000 }
{
    let head = market(alloc)?;
    let engine = ranked(alloc, &head, limit)?;
    let plan = Plan {
        listing,
        ..Plan::widest()
    };
    sink_after(alloc, &engine.view(), &head, None, &plan, 300)
}

#[test]
fn blocks_of_a_ranking(rt: HostRuntime) -> Result<(), Fail> {
    let alloc = rt.alloc();
    assert_eq!(rt;
        ranking_shown(alloc, 2, Listing::Certain)?.contents(),
        b"round 3\ntop 2 certain 2 possible 0\n\
            row 1 certain ['it''s', 'plum'] or null\nrow 2 certain ['it''s', 'plum'] or null\n"
            .as_slice()
    );
    assert_eq!(rt;
        ranking_shown(alloc, 1, Listing::Certain)?.contents(),
        b"round 3\ntop 1 certain 0 possible 2\n".as_slice()
    );
    assert_eq!(rt;
        ranking_shown(alloc, 1, Listing::All)?.contents(),
        b"round 3\ntop 1 certain 0 possible 2\n\
            row 1 possible ['it''s', 'plum'] or null\nrow 2 possible ['it''s', 'plum'] or null\n"
            .as_slice()
    );
    Ok(())
}
