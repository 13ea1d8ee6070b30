//! Whether it is known well enough where an answer lies.

ghost use Rattle.std.specs.Prelude.{◌≡◌, ◌&&◌};
ghost use Rattle.std.specs.List.{list_all};
ghost use Rattle.report_parts.specs.Course.{is_narrow_block, none_possible};
ghost use Rattle.report_parts.specs.Narrowness.{has_near_key, is_narrow, is_narrow_entry, is_narrow_group, is_narrow_text};
ghost use Rattle.report_parts.specs.Narrowness.{is_near_key, is_told, near_ends, near_numbers};

use crate::averages::fraction_of;
use crate::block::Block;
use crate::entry::Entry;
use crate::near::are_near;
use crate::texts::is_narrow_text;
use part_groups::Group;
use plane_schedule::Nearness;
use query_model::Nullity;
use report_text::{Answer, RowLine, RowsTop, ShownEnds, TextAnswer};

// Whether it is known that there is an answer, and its ends are near, or that there is none.
fn is_told(null: Nullity, near: bool) -> bool
    ensures { result ≡ is_told null near }
{
    match null {
        Nullity::Never => near,
        Nullity::Possibly => false,
        Nullity::Always => true,
    }
}

// Whether the ends are at most so many units apart.
fn near_numbers(width: u64, low: i128, high: i128) -> bool
    ensures { result ≡ near_numbers width low high }
{
    high <= low || high.abs_diff(low) <= u128::from(width)
}

/// Whether it is known of an answer that there is none, or that there is one, and its ends are at most so many units of the last digit
/// apart.
pub fn is_narrow(width: u64, answer: &Answer) -> bool
    ensures { result ≡ is_narrow width answer.now }
{
    match answer {
        Answer::Value(shown) => is_told(
            shown.bound.null,
            near_numbers(width, shown.bound.lo, shown.bound.hi),
        ),
        Answer::Average(shown) => is_told(
            shown.null,
            are_near(width, fraction_of(shown.low), fraction_of(shown.high)),
        ),
    }
}

// Whether what is said of an item is narrow, whatever the line behind tells.
fn is_narrow_entry(width: u64, entry: &Entry) -> bool
    ensures { result ≡ is_narrow_entry width entry.now }
{
    is_narrow(width, &entry.answer) && is_narrow_text(&entry.text)
}

// So it is of each item.
fn are_narrow(width: u64, entries: &[Entry]) -> bool
    ensures { result ≡ list_all (is_narrow_entry width) entries.now }
{
    for entry in entries {
        if !is_narrow_entry(width, entry) {
            return false;
        }
    }
    true
}

// Whether each of these answers is narrow.
fn answers_are_narrow(width: u64, answers: &[Answer]) -> bool
    ensures { result ≡ list_all (is_narrow width) answers.now }
{
    for answer in answers {
        if !is_narrow(width, answer) {
            return false;
        }
    }
    true
}

// Whether each of these texts is narrow.
fn texts_are_narrow(texts: &[Option<TextAnswer>]) -> bool
    ensures { result ≡ list_all is_narrow_text texts.now }
{
    for text in texts {
        if !is_narrow_text(text) {
            return false;
        }
    }
    true
}

// Whether the group is in the result for certain, with narrow answers and texts.
fn is_narrow_group(width: u64, group: &Group) -> bool
    ensures { result ≡ is_narrow_group width group.now }
{
    group.line.present
        && answers_are_narrow(width, group.answers.as_slice())
        && texts_are_narrow(group.texts.as_slice())
}

// So it is of each group.
fn groups_are_narrow(width: u64, groups: &[Group]) -> bool
    ensures { result ≡ list_all (is_narrow_group width) groups.now }
{
    for group in groups {
        if !is_narrow_group(width, group) {
            return false;
        }
    }
    true
}

// Whether it is told that no row is possible.
fn none_possible(top: Option<RowsTop>) -> bool
    ensures { result ≡ none_possible top }
{
    match top {
        Some(RowsTop::Counts(top)) => top.possible == 0,
        Some(RowsTop::Skipped(_)) | None => false,
    }
}

// Whether the values are at most so many units apart. Of texts there is to be one.
fn near_ends(width: u64, ends: &ShownEnds) -> bool
    ensures { result ≡ near_ends width ends.now }
{
    match ends {
        ShownEnds::Values(ends) => near_numbers(width, ends.low, ends.high),
        ShownEnds::Texts(ends) => ends.low.as_slice() == ends.high.as_slice(),
        ShownEnds::NoText => true,
    }
}

// Whether it is known of a key that it is null, or that it is not, and its values are near.
fn is_near_key(width: u64, null: bool, ends: &Option<ShownEnds>) -> bool
    ensures { result ≡ is_near_key width null ends.now }
{
    match ends {
        Some(ends) => !null && near_ends(width, ends),
        None => true,
    }
}

// Whether the key of each row is near.
fn keys_are_near(width: u64, rows: &[RowLine]) -> bool
    ensures { result ≡ list_all (has_near_key width) rows.now }
{
    for row in rows {
        if !is_near_key(width, row.key.null, &row.key.ends) {
            return false;
        }
    }
    true
}

// Whether the block is narrow: each answer is, each group is in the result for certain, no row is possible, and where keys are answers
// too, the key of each row is near.
pub(crate) fn is_narrow_block(near: Nearness, block: &Block) -> bool
    ensures { result ≡ is_narrow_block near block.now }
{
    match block {
        Block::Totals(entries) => are_narrow(near.width, entries.as_slice()),
        Block::Groups(groups) => groups_are_narrow(near.width, groups.as_slice()),
        Block::Rows(rows) => {
            none_possible(rows.top()) && (!near.keys || keys_are_near(near.width, rows.rows()))
        }
    }
}
