//! Sums of products that are kept from one plane to the next.

ghost use Rattle.std.specs.Prelude.{IfOk, IfSome};
ghost use Rattle.product_sums.specs.KeptProducts.{IsKeptProduct};
ghost use Rattle.round_engine.specs.Engines.{stage_of};
ghost use Rattle.round_engine.specs.KeptProducts.{AreKeptProducts};
ghost use Rattle.round_engine.specs.Stages.{IsOpenItem, IsOpenStage};

use crate::counted_sums::is_by_counts;
use known_column::LentColumns;
use product_sums::KeptProduct;
use query_model::{Item, TypedQuery};
use std::alloc::{AllocError, Global};

// Room for the ends of an item's argument in so many cells, where counts of rows may tell the item.
pub(crate) fn open_product(
    alloc: Global,
    item: &Item,
    columns: &LentColumns<'_>,
    cells: usize,
) -> Result<Option<KeptProduct>, AllocError>
    requires { IsOpenItem columns.now.frame item.now }
    ensures { IfOk result (λ kept. IfSome kept (IsKeptProduct columns.now item.now.arg)) }
{
    if is_by_counts(item, columns, 1, &None) {
        KeptProduct::open(alloc, &item.arg, columns, cells)
    } else {
        Ok(None)
    }
}

// The same for each item.
pub(crate) fn open_products(
    alloc: Global,
    query: &TypedQuery,
    columns: &LentColumns<'_>,
    cells: usize,
) -> Result<Vec<Option<KeptProduct>>, AllocError>
    requires { IsOpenStage (stage_of query.now columns.now) }
    ensures { IfOk result (λ kept. AreKeptProducts columns.now query.now.items kept.items) }
{
    let items = query.items.as_slice();
    let mut kept = Vec::with_capacity(alloc, items.len())?;
    for i in 0..items.len() {
        kept.push(open_product(alloc, &items[i], columns, cells)?)?;
    }
    Ok(kept)
}
