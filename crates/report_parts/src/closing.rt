//! Which line is the last of a block.

ghost use Rattle.std.specs.Prelude.{◌≡◌, true};
ghost use Rattle.report_parts.specs.Entries.{ends_with_extra};
ghost use Rattle.report_parts.specs.Told.{closing_of, is_closed, is_count, is_whole, last_kind};
ghost use Rattle.report_parts.specs.declared.closing.Closing.TheVariants.{Extra, Unknown};

use crate::entry::Entry;
use query_model::ItemKind;

/// Which line is the last of a block.
#[derive(Clone, Copy, Debug, PartialEq, Eq)]
pub enum Closing {
    /// It is not known before the first block is whole, unless the last item is a number of rows.
    Unknown,
    /// The line of the last item.
    Item,
    /// The line behind it, which tells its answer in another way.
    Extra,
}

// The kind of the last item.
pub(crate) fn last_kind(kinds: &[ItemKind]) -> Option<ItemKind>
    ensures { result ≡ last_kind kinds.now }
{
    kinds.last().copied()
}

// Whether it is a number of rows.
fn is_count(kind: Option<ItemKind>) -> bool
    ensures { result ≡ is_count kind }
{
    match kind {
        Some(ItemKind::Count) => true,
        Some(ItemKind::Sum | ItemKind::Min | ItemKind::Max | ItemKind::Avg) | None => false,
    }
}

// Whether a line stands behind that of its last item.
pub(crate) fn ends_with_extra(block: &[Entry]) -> bool
    ensures { result ≡ ends_with_extra block.now }
{
    if block.is_empty() {
        return false;
    }
    block[block.len() - 1].extra.is_some()
}

// Which line is its last.
pub(crate) fn closing_of(block: &[Entry]) -> Closing
    ensures { result ≡ closing_of block.now }
{
    if ends_with_extra(block) {
        Closing::Extra
    } else {
        Closing::Item
    }
}

pub(crate) fn is_unknown(closing: Closing) -> bool
    ensures yes { closing ≡ Unknown → result ≡ true }
    ensures only { result ≡ true → closing ≡ Unknown }
{
    match closing {
        Closing::Unknown => true,
        Closing::Item | Closing::Extra => false,
    }
}

// Whether blocks end with a line behind that of the last item.
pub(crate) fn is_extra(closing: Closing) -> bool
    ensures yes { closing ≡ Extra → result ≡ true }
    ensures only { result ≡ true → closing ≡ Extra }
{
    match closing {
        Closing::Extra => true,
        Closing::Unknown | Closing::Item => false,
    }
}

// Whether the block ends with the last line that blocks have.
fn is_closed(closing: Closing, last: Option<ItemKind>, block: &[Entry]) -> bool
    ensures { result ≡ is_closed closing last block.now }
{
    match closing {
        Closing::Unknown => is_count(last),
        Closing::Item => true,
        Closing::Extra => ends_with_extra(block),
    }
}

// Whether the block is whole.
pub(crate) fn is_whole(kinds: &[ItemKind], closing: Closing, block: &[Entry]) -> bool
    ensures { result ≡ is_whole kinds.now closing block.now }
{
    block.len() == kinds.len() && is_closed(closing, last_kind(kinds), block)
}
