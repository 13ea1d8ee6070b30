//! What a shard says of the keys of a line.

ghost use Rattle.std.specs.Prelude.{◌≡◌, ◌+◌, IfNone, IfSome, None, Some, [], map};
ghost use Rattle.shard_groups.specs.Cuts.{AreNear};
ghost use Rattle.shard_groups.specs.Groups.{IsFirstWithin, bound_at, cells_within, is_present, is_present_in};
ghost use Rattle.shard_groups.specs.Groups.{no_rows, only, share, uncertain, wider};
ghost use Rattle.shard_groups.specs.Keys.{is_within};

use crate::cells::{Cell, Cells, ItemBound};
use crate::keys::{Relation, Span, related};
use crate::runs::{Run, near};
use query_model::{Bound, ItemKind, Nullity};

// What is said where no row counts.
fn no_rows(kind: ItemKind) -> Bound
    ensures { result ≡ no_rows kind }
{
    let null = match kind {
        ItemKind::Count => Nullity::Never,
        ItemKind::Sum | ItemKind::Min | ItemKind::Max | ItemKind::Avg => Nullity::Always,
    };
    Bound { null, lo: 0, hi: 0 }
}

// What a cell says of an item, counted from 0.
fn bound_at(item: usize, cell: &Cell) -> Bound
    ensures { result ≡ bound_at item cell.now }
{
    match cell.items.as_slice().get(item) {
        Some(ItemBound::Value(bound)) => *bound,
        Some(ItemBound::Average(_)) | None => no_rows(ItemKind::Sum),
    }
}

/// Whether the one set of keys has no key that the other has not.
pub fn is_within(a: &[Span], b: &[Span]) -> bool
    ensures { result ≡ is_within a.now b.now }
{
    related(Relation::Within, a, b)
}

// The place of the first cell within the line.
fn first_within(line: &[Span], cells: &[Cell]) -> Option<usize>
    ensures found { IfSome result (IsFirstWithin line.now cells.now) }
    ensures none { IfNone result (cells_within line.now cells.now ≡ []) }
{
    for (at, cell) in cells.iter().enumerate() {
        if is_within(cell.keys.as_slice(), line) {
            return Some(at);
        }
    }
    None
}

// The cell within the line, if it is the only one and has all keys of the line.
pub(crate) fn only<'a>(line: &[Span], cells: &'a [Cell]) -> Option<&'a Cell>
    ensures found { IfSome result (λ cell. only line.now (cells_within line.now cells.now) ≡ Some cell.now) }
    ensures none { IfNone result (only line.now (cells_within line.now cells.now) ≡ None) }
{
    let at = first_within(line, cells)?;
    if first_within(line, &cells[at + 1..]).is_some() {
        return None;
    }
    let cell = &cells[at];
    if is_within(line, cell.keys.as_slice()) {
        Some(cell)
    } else {
        None
    }
}

// The bound that two bounds give of which each may tell the answer.
fn wider(kind: ItemKind, a: Bound, b: Bound) -> Bound
    ensures { result ≡ wider kind a b }
{
    match (kind, a.null, b.null) {
        (ItemKind::Count, _, _) => Bound {
            null: Nullity::Never,
            lo: b.lo,
            hi: a.hi.max(b.hi),
        },
        (_, Nullity::Always, _) => b,
        (_, _, Nullity::Always) => Bound {
            null: Nullity::Possibly,
            lo: a.lo,
            hi: a.hi,
        },
        _ => Bound {
            null: Nullity::Possibly,
            lo: a.lo.min(b.lo),
            hi: a.hi.max(b.hi),
        },
    }
}

// The bound of a shard of which each cell within the line may tell the answer.
fn uncertain(kind: ItemKind, item: usize, line: &[Span], cells: &[Cell]) -> Bound
    ensures { result ≡ uncertain kind (map (bound_at item) (cells_within line.now cells.now)) }
{
    let mut bound = no_rows(kind);
    let mut i = cells.len();
    while 0 < i {
        i -= 1;
        let cell = &cells[i];
        if is_within(cell.keys.as_slice(), line) {
            bound = wider(kind, bound_at(item, cell), bound);
        }
    }
    bound
}

// The bound of a shard for each key of the line.
pub(crate) fn share(kind: ItemKind, item: usize, line: &[Span], cells: &[Cell]) -> Bound
    ensures { result ≡ share kind item line.now cells.now }
{
    match only(line, cells) {
        Some(cell) => bound_at(item, cell),
        None => uncertain(kind, item, line, cells),
    }
}

// Whether a shard has the keys of the line for certain.
fn is_present_in(line: &[Span], cells: &[Cell]) -> bool
    ensures { result ≡ is_present_in line.now cells.now }
{
    match only(line, cells) {
        Some(cell) => cell.present,
        None => false,
    }
}

// Whether some shard has them.
pub(crate) fn is_present(line: &[Span], shards: &[Cells], runs: &[Run]) -> bool
    requires { AreNear line.now shards.now runs.now }
    ensures { result ≡ is_present line.now shards.now }
{
    for shard in 0..shards.len() {
        if is_present_in(line, near(line, shards, runs, shard)) {
            return true;
        }
    }
    false
}
