//! A prefix of a group column.

ghost use Rattle.std.specs.Prelude.{◌≡◌, ◌≤◌, IsTrue};
ghost use Rattle.daq_table.specs.Tables.{first_code, planes, spread};
ghost use Rattle.query_model.specs.Knowledge.{is_legal, null_with, range_of};
ghost use Rattle.row_groups.specs.Partition.{range_for};

use crate::part::GroupPart;
use crate::planes::planes;
use daq_table::Ends;
use query_model::Nullity;

/// What one part of a key may be: a number from `low` to `high`, or null. Where it is always null, both ends are the column's base.
#[derive(Clone, Copy, Debug, PartialEq, Eq)]
pub struct PartRange {
    pub low: i64,
    pub high: i64,
    pub null: Nullity,
}

// The code of the column's least number.
fn first_code(ends: Ends) -> u32
    requires { planes ends ≤ 16 }
    ensures code { result ≡ first_code ends }
    ensures few { result ≤ 65536 }
{
    if ends.nullable {
        1 << (planes(ends) - 1)
    } else {
        0
    }
}

// How far the column's numbers lie above its base.
fn greatest(ends: Ends) -> u32
    requires { planes ends ≤ 16 }
    ensures spread { result ≡ spread ends }
    ensures few { result ≤ 65535 }
{
    ends.top.abs_diff(ends.base) as u32
}

// Whether some cell of the column has this prefix.
pub(crate) fn has_legal(part: GroupPart, prefix: u32) -> bool
    requires read { part.read ≤ planes part.ends }
    requires few { planes part.ends ≤ 16 }
    ensures { result ≡ is_legal part.ends part.read prefix }
{
    let unread = planes(part.ends) - part.read;
    let first = first_code(part.ends);
    let last = first + greatest(part.ends);
    (part.ends.nullable && prefix == 0) || (first >> unread <= prefix && prefix <= last >> unread)
}

// Whether the cells with this prefix are null.
fn null_of(part: GroupPart, prefix: u32) -> Nullity
    ensures { result ≡ null_with part.ends part.read prefix }
{
    if part.ends.nullable && prefix == 0 {
        if part.read == 0 {
            Nullity::Possibly
        } else {
            Nullity::Always
        }
    } else {
        Nullity::Never
    }
}

// What the cells with this prefix stand for.
pub(crate) fn range_with(part: GroupPart, prefix: u32) -> PartRange
    requires read { part.read ≤ planes part.ends }
    requires few { planes part.ends ≤ 16 }
    requires legal { IsTrue (is_legal part.ends part.read prefix) }
    ensures { range_for result ≡ range_of part.ends part.read prefix }
{
    let block = 1u64 << (planes(part.ends) - part.read);
    let first = u64::from(first_code(part.ends));
    let from = u64::from(prefix) * block;
    let low = from.saturating_sub(first);
    let high = (from + (block - 1))
        .saturating_sub(first)
        .min(u64::from(greatest(part.ends)));
    PartRange {
        low: (i128::from(part.ends.base) + i128::from(low)) as i64,
        high: (i128::from(part.ends.base) + i128::from(high)) as i64,
        null: null_of(part, prefix),
    }
}
