//! What small tables and their queries are made of, and a step of a query.

ghost use Rattle.std.specs.Prelude.{◌≡◌, ◌≤ℤ◌, ◌∷◌, [], pos, length, map, IfOk};
ghost use Rattle.daq_table.specs.ColumnFacts.{IsName};
ghost use Rattle.daq_table.specs.declared.head.Kind.TheVariants.{Int};
ghost use Rattle.daq_table.specs.Tables.{ends_at, frame_of};
ghost use Rattle.query_model.specs.declared.query.Shape.TheVariants.{Plain};
ghost use Rattle.query_model.specs.Queries.{condition_of, term_of};

use daq_table::{ColumnHead, ColumnHeads, Dictionary, Head, Kind, Name};
use known_column::OverTop;
use plane_kernels::{Plane, transpose};
use query_model::{Expr, Face, Item, ItemKind, Items, Pred, Shape, TableColumns, TypedQuery};
use round_engine::Engine;
use std::alloc::{AllocError, Global};

// A column of whole numbers between these ends.
pub(crate) fn whole_numbers(
    alloc: Global,
    name: &[u8],
    nullable: bool,
    base: i64,
    top: i64,
) -> Result<ColumnHead, AllocError>
    requires name { IsName name.now }
    requires ordered { base ≤ℤ top }
    ensures name { IfOk result (λ head. head.name ≡ name.now) }
    ensures kind { IfOk result (λ head. head.kind ≡ Int) }
    ensures nullable { IfOk result (λ head. head.nullable ≡ nullable) }
    ensures base { IfOk result (λ head. head.base ≡ base) }
    ensures top { IfOk result (λ head. head.top ≡ top) }
{
    Ok(ColumnHead {
        name: Name::new(Vec::from_slice(alloc, name)?),
        kind: Kind::Int,
        nullable,
        base,
        top,
        names: Dictionary::new(Vec::new(alloc)),
    })
}

// Four rows; a price from 3 to 12, and a quantity from 1 to 4.
pub(crate) fn small_head(alloc: Global) -> Result<Head, AllocError>
    ensures rows { IfOk result (λ head. head.rows ≡ 4) }
    ensures columns { IfOk result (λ head. length head.columns ≡ 2) }
    ensures kinds { IfOk result (λ head. map (λ column. column.kind) head.columns ≡ Int ∷ Int ∷ []) }
    ensures base { IfOk result (λ head. (ends_at (frame_of head) 0).base ≡ pos 3) }
    ensures top { IfOk result (λ head. (ends_at (frame_of head) 0).top ≡ pos 12) }
    ensures quantity_base { IfOk result (λ head. (ends_at (frame_of head) 1).base ≡ pos 1) }
    ensures quantity_top { IfOk result (λ head. (ends_at (frame_of head) 1).top ≡ pos 4) }
{
    let price = whole_numbers(alloc, b"price", false, 3, 12)?;
    let quantity = whole_numbers(alloc, b"qty", false, 1, 4)?;
    Ok(Head {
        rows: 4,
        columns: ColumnHeads::new(vec![in alloc; price, quantity]?),
    })
}

pub(crate) fn item(kind: ItemKind, arg: Expr, face: Face) -> Item
    ensures { result ≡ record { kind = kind; arg = term_of arg; face = face } }
{
    Item { kind, arg, face }
}

// One item over one column of the table, where the condition holds.
pub(crate) fn question(
    alloc: Global,
    place: usize,
    item: Item,
    pred: Pred,
) -> Result<TypedQuery, AllocError>
    ensures columns { IfOk result (λ query. query.columns ≡ place ∷ []) }
    ensures items { IfOk result (λ query. query.items ≡ item ∷ []) }
    ensures condition { IfOk result (λ query. query.pred ≡ condition_of pred) }
    ensures plain { IfOk result (λ query. query.shape ≡ Plain) }
{
    Ok(TypedQuery {
        columns: TableColumns::new(vec![in alloc; place]?),
        items: Items::new(vec![in alloc; item]?),
        pred,
        shape: Shape::Plain,
    })
}

// Takes the next plane of a column, where it has one, and says whether it was refused.
pub(crate) fn step(
    alloc: Global,
    engine: &mut Engine,
    column: usize,
    bits: &[u64],
) -> Result<Option<OverTop>, AllocError>
    requires { engine.old.frame.rows ≡ length bits.now }
    ensures rows { engine.new.frame.rows ≡ engine.old.frame.rows }
    ensures query { engine.new.query ≡ engine.old.query }
{
    let mut plane = Plane::blank(alloc, bits.len())?;
    transpose(bits, 1, 0, &mut plane);
    let progress = engine.view().progress();
    if column < usize::from(progress.columns) && progress.unread[column] > 0 {
        Ok(engine.step(column, &plane).err())
    } else {
        Ok(None)
    }
}
