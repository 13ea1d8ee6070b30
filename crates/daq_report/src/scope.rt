//! Over which rows items are answered.

ghost use Rattle.std.specs.Prelude.{◌≡◌, ◌≢◌, ◌<◌, length, slice_get, IfSome};
ghost use Rattle.query_model.specs.Bounds.{fractions_of};
ghost use Rattle.query_model.specs.declared.query.ItemKind.TheVariants.{Avg};
ghost use Rattle.round_engine.specs.Promises.{IsShownWithin};
ghost use Rattle.daq_report.specs.Items.{IsScope, average_in, bound_in};

use plane_schedule::Extras;
use query_model::{AverageBound, Bound};
use round_engine::EngineView;

// All rows, with these lines besides, or those of each key of a cell.
#[derive(Clone, Copy)]
pub(crate) enum Scope {
    AllRows(Extras),
    InCell(u32),
}

impl Scope {
    // The bound of an item that is no average.
    pub(crate) fn bound(self, engine: &EngineView<'_>, item: usize) -> Bound
        requires scope { IsScope engine.now self }
        requires item { item < length engine.now.query.items }
        requires kind { IfSome (slice_get engine.now.query.items item) (λ i. i.kind ≢ Avg) }
        ensures bound { IfSome (slice_get engine.now.query.items item) (λ i. result ≡ bound_in engine.now self i) }
        ensures shown { IfSome (slice_get engine.now.query.items item) (λ i. IsShownWithin engine.now.frame i.face result) }
    {
        match self {
            Scope::AllRows(_) => engine.plain(item),
            Scope::InCell(cell) => engine.cell_bound(cell, item),
        }
    }

    // The bound of an average.
    pub(crate) fn average(self, engine: &EngineView<'_>, item: usize) -> AverageBound
        requires scope { IsScope engine.now self }
        requires item { item < length engine.now.query.items }
        requires kind { IfSome (slice_get engine.now.query.items item) (λ i. i.kind ≡ Avg) }
        ensures { IfSome (slice_get engine.now.query.items item) (λ i. fractions_of result ≡ average_in engine.now self i) }
    {
        match self {
            Scope::AllRows(_) => engine.average(item),
            Scope::InCell(cell) => engine.cell_average(cell, item),
        }
    }
}
