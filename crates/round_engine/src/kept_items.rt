//! What is kept of items over bare columns from one plane to the next.

ghost use Rattle.std.specs.Prelude.{IfOk};
ghost use Rattle.round_engine.specs.KeptItems.{HoldItems, IsOpenKept};

use crate::totals::is_column;
use aggregates::{KeptExtreme, KeptSum};
use query_model::{Item, ItemKind};
use std::alloc::{AllocError, Global};

// What is kept of an item: of its sum, or of its extreme. Where masks tell neither, nothing is.
#[derive(Drop)]
pub(crate) struct KeptItem {
    pub(crate) sum: Option<KeptSum>,
    pub(crate) extreme: Option<KeptExtreme>,
}

// Room for what is kept of an item over so many rows.
fn open_kept(alloc: Global, item: &Item, rows: usize) -> Result<KeptItem, AllocError>
    ensures { IfOk result (IsOpenKept rows) }
{
    match item.kind {
        ItemKind::Sum | ItemKind::Avg if is_column(&item.arg) => Ok(KeptItem {
            sum: Some(KeptSum::open(alloc, rows)?),
            extreme: None,
        }),
        ItemKind::Min | ItemKind::Max if is_column(&item.arg) => Ok(KeptItem {
            sum: None,
            extreme: Some(KeptExtreme::open(alloc, rows)?),
        }),
        _ => Ok(KeptItem {
            sum: None,
            extreme: None,
        }),
    }
}

// The same for each item.
pub(crate) fn open_items(
    alloc: Global,
    items: &[Item],
    rows: usize,
) -> Result<Vec<KeptItem>, AllocError>
    ensures { IfOk result (λ kept. HoldItems rows items.now kept.items) }
{
    let mut kept = Vec::with_capacity(alloc, items.len())?;
    for item in items {
        kept.push(open_kept(alloc, item, rows)?)?;
    }
    Ok(kept)
}
