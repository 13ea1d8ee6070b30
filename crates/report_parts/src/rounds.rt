//! What the parts say in a round.

ghost use Rattle.std.specs.Prelude.{◌≡◌, ◌<◌, ◌+◌, ◌^◌, IfOk, false, not, position, true};
ghost use Rattle.std.specs.List.{list_all};
ghost use Rattle.report_parts.specs.Entries.{entry_at};
ghost use Rattle.report_parts.specs.Rounds.{entries_in, entry_in, has_block, is_ended, is_over};

use crate::entry::{Entry, copied_entry, no_entry};
use crate::part::{Part, Place};
use std::alloc::{AllocError, Global};

// Whether the report has ended.
pub(crate) fn is_ended(place: Place) -> bool
    ensures { result ≡ is_ended place }
{
    match place {
        Place::Query | Place::Opened | Place::Round | Place::Group | Place::Items | Place::Row =>
            false,
        Place::Ended(_) => true,
    }
}

// Whether the part tells what it knows in that round.
fn has_block(round: usize, part: &Part) -> bool
    ensures { result ≡ has_block round part.now }
{
    is_ended(part.place()) || round < part.count()
}

/// Whether each part tells what it knows in that round: its block is whole, or its report has ended before.
pub fn all_have_block(round: usize, parts: &[Part]) -> bool
    ensures { result ≡ list_all (has_block round) parts.now }
{
    for part in parts {
        if !has_block(round, part) {
            return false;
        }
    }
    true
}

// Whether the part at that place has still to tell what it knows in that round.
pub(crate) fn is_behind(round: usize, parts: &[Part], place: usize) -> bool
    ensures { result ≡ true → list_all (has_block round) parts.now ≡ false }
{
    place < parts.len() && !has_block(round, &parts[place])
}

// The place of the first part that has.
pub(crate) fn first_behind(round: usize, parts: &[Part]) -> Option<usize>
    ensures { result ≡ position (λ part. not (has_block round part)) parts.now }
{
    parts.iter().position(|part| !has_block(round, part))
}

// Whether the part's report has ended, and has no block behind that round.
fn is_over(round: usize, part: &Part) -> bool
    requires { round < 2 ^ 63 }
    ensures { result ≡ is_over round part.now }
{
    is_ended(part.place()) && part.count() <= round + 1
}

/// Whether the report of each part has ended, with no block behind that round.
pub fn have_all_ended(round: usize, parts: &[Part]) -> bool
    requires { round < 2 ^ 63 }
    ensures { result ≡ list_all (is_over round) parts.now }
{
    for part in parts {
        if !is_over(round, part) {
            return false;
        }
    }
    true
}

// What a block says of an item.
fn entry_at(alloc: Global, item: usize, block: &[Entry]) -> Result<Entry, AllocError>
    ensures { IfOk result (λ entry. entry ≡ entry_at item block.now) }
{
    if item < block.len() {
        copied_entry(alloc, &block[item])
    } else {
        Ok(no_entry())
    }
}

// What the part says of an item in that round.
fn entry_in(alloc: Global, round: usize, item: usize, part: &Part) -> Result<Entry, AllocError>
    ensures { IfOk result (λ entry. entry ≡ entry_in round item part.now) }
{
    entry_at(alloc, item, part.entries_for(round))
}

// What all parts say of an item in that round.
pub(crate) fn entries_in(
    alloc: Global,
    round: usize,
    item: usize,
    parts: &[Part],
) -> Result<Vec<Entry>, AllocError>
    ensures { IfOk result (λ entries. entries.items ≡ entries_in round item parts.now) }
{
    let mut entries = Vec::with_capacity(alloc, parts.len())?;
    for part in parts {
        entries.push(entry_in(alloc, round, item, part)?)?;
    }
    Ok(entries)
}
