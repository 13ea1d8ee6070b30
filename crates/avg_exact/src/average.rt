//! The exact ends of an average in a query without groups.

ghost use Rattle.std.specs.Prelude.{◌≡◌, ◌<◌, length, slice_get, IfSome};
ghost use Rattle.daq_table.specs.declared.table_head.Head.{Head};
ghost use Rattle.daq_table.specs.Tables.{frame_of};
ghost use Rattle.query_model.specs.declared.query.ItemKind.TheVariants.{Avg};
ghost use Rattle.query_model.specs.declared.query.Shape.TheVariants.{Plain};
ghost use Rattle.query_model.specs.Validity.{FitsHead};
ghost use Rattle.avg_exact.specs.ExactAverages.{exact_average_of, exact_under, IsCutOf};
ghost use Rattle.avg_exact.specs.Promises.{IsCertainExact};

use crate::exact::Exact;
use crate::passes::End;
use crate::search::best_choice;
use crate::ways::{count_uncertain, way_of};
use round_engine::EngineView;

/// The exact ends of an average under what is known. It takes no memory and sorts nothing: at each end it drops the uncertain rows that do
/// not help, until none is dropped.
pub fn exact_average(engine: &EngineView<'_>, item: usize) -> Exact
    requires plain { engine.now.query.shape ≡ Plain }
    requires item { item < length engine.now.query.items }
    requires kind { IfSome (slice_get engine.now.query.items item) (λ i. i.kind ≡ Avg) }
    ensures exact { IfSome (slice_get engine.now.query.items item) (λ i.
        exact_average_of result ≡ exact_under engine.now.query i engine.now.frame engine.now.known) }
    ensures cuts { IsCutOf result.low_cut result.low_taken × IsCutOf result.high_cut result.high_taken }
    ensures certain { IfSome (slice_get engine.now.query.items item) (λ i.
        (head : Head) → FitsHead engine.now.query engine.now.frame head → IsCertainExact engine.now i (frame_of head)) }
{
    let _open = engine.query();
    let way = way_of(engine, item);
    let low = best_choice(engine, item, &way, End::Low).negated();
    let high = best_choice(engine, item, &way, End::High);
    Exact {
        null: engine.average(item).null,
        lo: low.average(),
        hi: high.average(),
        unknown: count_uncertain(engine, item, &way),
        low_taken: low.taken,
        high_taken: high.taken,
        low_cut: low.cut,
        high_cut: high.cut,
    }
}
