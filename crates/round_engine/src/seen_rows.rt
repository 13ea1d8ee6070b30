//! The rows of a condition before the last plane was read.

ghost use Rattle.std.specs.Prelude.{◌≡◌, IfOk};
ghost use Rattle.kleene_filter.specs.Filters.{truths_under};
ghost use Rattle.round_engine.specs.Engines.{stage_of};
ghost use Rattle.round_engine.specs.SeenRows.{HoldSeen, WereRows};

use kleene_filter::Filter;
use known_column::LentColumns;
use plane_kernels::Mask;
use query_model::TypedQuery;
use std::alloc::{AllocError, Global};

// The rows at which the condition surely held, and those at which it may have held.
#[derive(Drop)]
pub(crate) struct SeenRows {
    pub(crate) must: Mask,
    pub(crate) may: Mask,
}

impl SeenRows {
    // Room for so many rows.
    pub(crate) fn open(alloc: Global, rows: usize) -> Result<SeenRows, AllocError>
        ensures { IfOk result (HoldSeen rows) }
    {
        Ok(SeenRows {
            must: Mask::none(alloc, rows)?,
            may: Mask::none(alloc, rows)?,
        })
    }

    // Takes the rows of the condition as they are now.
    pub(crate) fn take(&mut self, query: &TypedQuery, columns: &LentColumns<'_>, filter: &Filter)
        requires judged { filter.now.truths ≡ truths_under query.now.pred columns.now }
        requires rows { HoldSeen columns.now.frame.rows self.old }
        ensures { WereRows (stage_of query.now columns.now) self.new.must self.new.may }
    {
        self.must.copy_from(filter.must());
        self.may.copy_from(filter.may());
    }
}
