//! What is kept of few cells from one plane to the next, item by item.

ghost use Rattle.std.specs.Prelude.{◌≡◌, length, IfOk, IfSome};
ghost use Rattle.aggregates.specs.Selections.{highs_in, lows_in, IsSmallSum, MayHaveValues};
ghost use Rattle.known_column.specs.Columns.{rows_of_column};
ghost use Rattle.known_column.specs.KnownTables.{KnownTable};
ghost use Rattle.query_model.specs.Answers.{total};
ghost use Rattle.query_model.specs.Queries.{Aggregate};
ghost use Rattle.round_engine.specs.Engines.{stage_of};
ghost use Rattle.round_engine.specs.KeptCells.{AreCellSums, AreKeptParts, AreSumsOf, HaveBlocks, HaveKeptParts};
ghost use Rattle.round_engine.specs.Stages.{IsOpenItem, IsOpenStage};

use crate::kept_products::open_product;
use aggregates::{KeptSum, SumSpan, sum_ends};
use known_column::{Known, LentColumns};
use plane_kernels::Mask;
use product_sums::KeptProduct;
use query_model::{Expr, Item, ItemKind, TypedQuery};
use std::alloc::{AllocError, Global};

// Of each of some cells a sum over a bare column, and a bit of 1 for each block of 512 rows.
#[derive(Drop)]
pub(crate) struct KeptCells {
    sums: Vec<KeptSum>,
    blocks: Mask,
}

// What is kept of an item in each of some cells: of a sum over a bare column, or of one of a product. Of other items nothing is.
#[derive(Drop)]
pub(crate) struct KeptParts {
    pub(crate) product: Option<KeptProduct>,
    pub(crate) sums: Option<KeptCells>,
}

// A bit of 1 for each block of so many rows.
fn all_blocks(alloc: Global, rows: usize) -> Result<Mask, AllocError>
    ensures { IfOk result (HaveBlocks rows) }
{
    Mask::all(alloc, rows.div_ceil(512))
}

impl KeptCells {
    // Room for a column's rows in so many cells. So far they have none.
    fn open(alloc: Global, known: &Known, cells: usize) -> Result<KeptCells, AllocError>
        ensures { IfOk result (AreCellSums known.now) }
    {
        let rows = known.rows();
        let blocks = all_blocks(alloc, rows)?;
        let mut sums = Vec::with_capacity(alloc, cells)?;
        for _cell in 0..cells {
            sums.push(KeptSum::open(alloc, rows)?)?;
        }
        Ok(KeptCells { sums, blocks })
    }

    // Both ends at the mask's rows of a cell, added up.
    fn ends(&mut self, cell: u32, known: &Known, mask: &Mask) -> SumSpan
        requires kept { AreCellSums known.now self.old }
        requires rows { length mask.now ≡ rows_of_column known.now }
        requires values { MayHaveValues known.now mask.now }
        ensures kept { AreCellSums known.now self.new }
        ensures low { result.low ≡ total (lows_in known.now mask.now) }
        ensures high { result.high ≡ total (highs_in known.now mask.now) }
        ensures few { IsSmallSum result.low × IsSmallSum result.high }
    {
        let cell = cell as usize;
        if cell >= self.sums.len() {
            return sum_ends(known, mask);
        }
        self.sums[cell].ends(known, mask, &self.blocks)
    }
}

// Both ends at the mask's rows of a cell, added up, from what is kept of them where it is.
pub(crate) fn ends_of_cell(
    kept: &mut Option<KeptCells>,
    cell: u32,
    known: &Known,
    mask: &Mask,
) -> SumSpan
    requires kept { IfSome kept.old (AreCellSums known.now) }
    requires rows { length mask.now ≡ rows_of_column known.now }
    requires values { MayHaveValues known.now mask.now }
    ensures kept { IfSome kept.new (AreCellSums known.now) }
    ensures low { result.low ≡ total (lows_in known.now mask.now) }
    ensures high { result.high ≡ total (highs_in known.now mask.now) }
    ensures few { IsSmallSum result.low × IsSmallSum result.high }
{
    match kept {
        Some(sums) => sums.ends(cell, known, mask),
        None => sum_ends(known, mask),
    }
}

// Room for the sums of an item in so many cells, where it adds up a bare column.
fn open_sums(
    alloc: Global,
    item: &Item,
    columns: &LentColumns<'_>,
    cells: usize,
) -> Result<Option<KeptCells>, AllocError>
    requires { IsOpenItem columns.now.frame item.now }
    ensures { IfOk result (AreSumsOf columns.now item.now) }
{
    match &item.arg {
        Expr::Column(column) if adds_up(item.kind) => {
            let known = columns.column(*column as usize);
            Ok(Some(KeptCells::open(alloc, known, cells)?))
        }
        _ => Ok(None),
    }
}

// Whether an item of this kind adds up.
fn adds_up(kind: ItemKind) -> bool {
    match kind {
        ItemKind::Sum | ItemKind::Avg => true,
        ItemKind::Count | ItemKind::Min | ItemKind::Max => false,
    }
}

impl KeptParts {
    // Nothing.
    pub(crate) fn none() -> KeptParts
        ensures { (columns : KnownTable) (item : Aggregate) → AreKeptParts columns item result }
    {
        KeptParts {
            product: None,
            sums: None,
        }
    }
}

// Room for what is kept of each item in so many cells.
pub(crate) fn open_parts(
    alloc: Global,
    query: &TypedQuery,
    columns: &LentColumns<'_>,
    cells: usize,
) -> Result<Vec<KeptParts>, AllocError>
    requires { IsOpenStage (stage_of query.now columns.now) }
    ensures { IfOk result (λ kept. HaveKeptParts columns.now query.now.items kept.items) }
{
    let items = query.items.as_slice();
    let mut kept = Vec::with_capacity(alloc, items.len())?;
    for i in 0..items.len() {
        let item = &items[i];
        let product = open_product(alloc, item, columns, cells)?;
        let sums = open_sums(alloc, item, columns, cells)?;
        kept.push(KeptParts { product, sums })?;
    }
    Ok(kept)
}
