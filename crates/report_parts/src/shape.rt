//! The shape of blocks.

ghost use Rattle.std.specs.Prelude.{◌≡◌, Some, slice_get, true};
ghost use Rattle.query_model.specs.declared.query.ItemKind.TheVariants.{Avg};

use daq_table::Listed;
use query_kinds::{Beside, FirstRows};
use query_model::ItemKind;

/// The shape of the blocks of a report: the kinds of the items, how many group columns there are (totals have none), for each item the
/// places of the sum and of the number of its values, where it is an average beside which both are asked, and which first rows are asked
/// for, where the query has an order. First rows have neither items nor columns.
#[derive(Drop)]
pub struct Shape {
    pub kinds: Listed<ItemKind>,
    pub columns: usize,
    pub besides: Listed<Option<Beside>>,
    pub rows: Option<FirstRows>,
}

// The kind of an item.
pub(crate) fn kind_at(kinds: &[ItemKind], item: usize) -> Option<ItemKind>
    ensures { result ≡ slice_get kinds.now item }
{
    kinds.get(item).copied()
}

// Whether it is an average.
pub(crate) fn is_average(kind: Option<ItemKind>) -> bool
    ensures yes { kind ≡ Some Avg → result ≡ true }
    ensures only { result ≡ true → kind ≡ Some Avg }
{
    match kind {
        Some(ItemKind::Avg) => true,
        Some(ItemKind::Count | ItemKind::Sum | ItemKind::Min | ItemKind::Max) | None => false,
    }
}
