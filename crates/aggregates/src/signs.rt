//! The rows whose range reaches below 0 or above 0, by how their prefixes stand to that of 0, which lies between base and top.

ghost use Rattle.std.specs.Prelude.{◌≡◌, ◌≤◌, ◌<◌, ◌+◌, ◌%◌, ◌^◌, ◌&&◌, ◌||◌};
ghost use Rattle.std.specs.Prelude.{if◌then◌else◌, false, nat_lt, nat_abs, int_lt, pos, ◌<ℤ◌, length};
ghost use Rattle.std.specs.Simd.Lanes.{zip2};
ghost use Rattle.known_column.specs.Columns.{range_at, rows_of_column, HasZero};
ghost use Rattle.aggregates.specs.Selections.{MayHaveValues, those_of};

use crate::digits::number_planes;
use known_column::Known;
use plane_kernels::Mask;

// Whether the range at the prefix of 0 begins below 0: a digit of 1 of the number 0 is unread.
pub(crate) fn begins_below(base: i64, unread: u8) -> bool
    requires { unread ≤ 65 }
    ensures { result ≡ nat_lt 0 (nat_abs base % 2 ^ unread) }
{
    0 < u128::from(base.unsigned_abs()) % (1u128 << unread)
}

// Whether the range at the prefix of 0 ends above 0, if top does: a digit of 0 of the number 0 is unread.
pub(crate) fn ends_above(base: i64, unread: u8) -> bool
    requires { unread ≤ 65 }
    ensures { result ≡ nat_lt (nat_abs base % 2 ^ unread + 1) (2 ^ unread) }
{
    u128::from(base.unsigned_abs()) % (1u128 << unread) + 1 < 1u128 << unread
}

// Selects no row: those that surely have no value, of a mask that has none of them. In a column that is never null no word is touched.
pub(crate) fn select_none(known: &Known, within: &Mask, out: &mut Mask)
    requires within { length within.now ≡ rows_of_column known.now }
    requires values { MayHaveValues known.now within.now }
    requires out { length out.old ≡ rows_of_column known.now }
    ensures { out.new ≡ those_of within.now (λ row. false) }
{
    let _planes = number_planes(known);
    out.and_not_into(known.possible());
    out.and_into(within);
}

// Adds the rows of a mask where `told` is true.
fn add_if(out: &mut Mask, rows: &Mask, told: bool)
    requires { length rows.now ≡ length out.old }
    ensures { out.new ≡ (if told then zip2 (λ a b. a || b) out.old rows.now else out.old) }
{
    if told {
        out.or_into(rows);
    }
}

// Selects the rows of `within` that are in `beyond`, or, `with_level`, in `level`.
fn select(beyond: &Mask, level: &Mask, with_level: bool, within: &Mask, out: &mut Mask)
    requires beyond { length beyond.now ≡ length within.now }
    requires level { length level.now ≡ length within.now }
    requires out { length out.old ≡ length within.now }
    ensures { out.new ≡ zip2 (λ a b. a && b) (if with_level then zip2 (λ a b. a || b) beyond.now level.now else beyond.now) within.now }
{
    out.copy_from(beyond);
    add_if(out, level, with_level);
    out.and_into(within);
}

// Selects the rows of a mask whose low end is below 0.
pub(crate) fn lows_below_zero(known: &Known, within: &Mask, out: &mut Mask)
    requires within { length within.now ≡ rows_of_column known.now }
    requires values { MayHaveValues known.now within.now }
    requires out { length out.old ≡ rows_of_column known.now }
    requires zero { HasZero known.now.ends }
    ensures { out.new ≡ those_of within.now (λ row. int_lt (range_at known.now row).numbers.low (pos 0)) }
{
    let _planes = number_planes(known);
    let with_level = begins_below(known.base(), known.unread());
    select(known.below(), known.level(), with_level, within, out);
}

// Selects the rows of a mask whose high end is above 0.
pub(crate) fn highs_above_zero(known: &Known, within: &Mask, out: &mut Mask)
    requires within { length within.now ≡ rows_of_column known.now }
    requires values { MayHaveValues known.now within.now }
    requires out { length out.old ≡ rows_of_column known.now }
    requires zero { HasZero known.now.ends }
    requires top { pos 0 <ℤ known.now.ends.top }
    ensures { out.new ≡ those_of within.now (λ row. int_lt (pos 0) (range_at known.now row).numbers.high) }
{
    let _planes = number_planes(known);
    let with_level = ends_above(known.base(), known.unread());
    select(known.above(), known.level(), with_level, within, out);
}
