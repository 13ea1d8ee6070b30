//! Items over a bare column, told by masks.

ghost use Rattle.std.specs.Prelude.{◌≡◌, IfOk, IfSome};
ghost use Rattle.query_model.specs.declared.query.Shape.TheVariants.{Plain};
ghost use Rattle.kleene_filter.specs.Filters.{truths_under};
ghost use Rattle.query_model.specs.Queries.{Column};
ghost use Rattle.round_engine.specs.Engines.{stage_of};
ghost use Rattle.round_engine.specs.KeptItems.{IsExtremeOf};
ghost use Rattle.round_engine.specs.KeptSums.{IsSumOf};
ghost use Rattle.round_engine.specs.Selected.{HaveRows};
ghost use Rattle.round_engine.specs.Stages.{IsOpenItem, IsOpenStage};
ghost use Rattle.round_engine.specs.Totals.{IsTotal};

use crate::item_bound::ItemBound;
use crate::kept_items::KeptItem;
use crate::selection::{Selection, counts_of, select_all};
use kleene_filter::Filter;
use known_column::LentColumns;
use plane_kernels::Mask;
use query_model::{Item, TypedQuery};
use std::alloc::{AllocError, Global};

// Room for the rows that give a value, and a bit of 1 for each block of 512.
#[derive(Drop)]
pub(crate) struct RowMasks {
    pub(crate) selection: Selection,
    blocks: Mask,
}

impl RowMasks {
    // Room for so many rows.
    pub(crate) fn open(alloc: Global, rows: usize) -> Result<RowMasks, AllocError>
        ensures { IfOk result (HaveRows rows) }
    {
        let selection = Selection::open(alloc, rows)?;
        let blocks = Mask::all(alloc, rows.div_ceil(512))?;
        Ok(RowMasks { selection, blocks })
    }

    // The bound of an item over a bare column. Where it is never null, rows that may count and need not are those at which the condition is
    // unknown.
    pub(crate) fn bound(
        &mut self,
        query: &TypedQuery,
        item: &Item,
        column: u8,
        columns: &LentColumns<'_>,
        filter: &Filter,
        kept: &mut KeptItem,
    ) -> ItemBound
        requires open_stage { IsOpenStage (stage_of query.now columns.now) }
        requires plain { query.now.shape ≡ Plain }
        requires open_item { IsOpenItem columns.now.frame item.now }
        requires judged { filter.now.truths ≡ truths_under query.now.pred columns.now }
        requires column { item.now.arg ≡ Column column }
        requires room { HaveRows columns.now.frame.rows self.old }
        requires kept { IfSome kept.old.sum (IsSumOf (stage_of query.now columns.now) column) }
        requires extreme { IfSome kept.old.extreme (IsExtremeOf (stage_of query.now columns.now) item.now.kind column) }
        ensures room { HaveRows columns.now.frame.rows self.new }
        ensures kept { IfSome kept.new.sum (IsSumOf (stage_of query.now columns.now) column) }
        ensures extreme { IfSome kept.new.extreme (IsExtremeOf (stage_of query.now columns.now) item.now.kind column) }
        ensures bound { IsTotal (stage_of query.now columns.now) item.now result }
    {
        let known = columns.column(column as usize);
        if known.nullable() {
            self.selection.select(filter, known);
            self.selection
                .lend()
                .bound(item.kind, known, &self.blocks, kept, None)
        } else {
            let counts = counts_of(filter);
            select_all(filter, known).bound(
                item.kind,
                known,
                filter.undecided(),
                kept,
                Some(counts),
            )
        }
    }
}
