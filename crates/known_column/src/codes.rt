//! The codes of cells, of which planes are digits: a number's distance from base, in a nullable column with a digit of 1 before it.

ghost use Rattle.std.specs.Prelude.{◌≡◌, ◌≤◌, ◌≤ℤ◌, ◌<◌, ◌+◌, ◌*◌};
ghost use Rattle.std.specs.Prelude.{◌-◌, ◌^◌, ◌==◌, ◌&&◌, min, pos, negsuc, ◌+ℤ◌};
ghost use Rattle.std.specs.declared.option.Option.TheVariants.{Some};
ghost use Rattle.daq_table.specs.Tables.{first_code, planes, spread, width};
ghost use Rattle.query_model.specs.Knowledge.{bit_at, prefix_of};

use daq_table::Ends;
use interval_calc::Interval;

// The number of planes of a column whose numbers have so many digits.
pub(crate) fn plane_count(ends: Ends, digits: u8) -> u8
    requires width { digits ≡ width ends }
    requires few { digits ≤ 64 }
    ensures planes { result ≡ planes ends }
    ensures few { result ≤ 65 }
{
    digits + u8::from(ends.nullable)
}

// Whether the next plane is the one that tells null.
pub(crate) fn is_null_plane(ends: Ends, read: u8) -> bool
    ensures { result ≡ (ends.nullable && read == 0) }
{
    ends.nullable && read == 0
}

// The code of the least number.
fn least_code(ends: Ends, digits: u8) -> u128
    requires width { digits ≡ width ends }
    requires few { digits ≤ 64 }
    ensures code { result ≡ first_code ends }
    ensures few { result ≤ 2 ^ 64 }
{
    if ends.nullable { 1 << digits } else { 0 }
}

// The prefix of the least number, where so many planes are read.
pub(crate) fn least_prefix(ends: Ends, digits: u8, read: u8) -> u128
    requires width { digits ≡ width ends }
    requires few { digits ≤ 64 }
    requires read { read ≤ planes ends }
    ensures prefix { result ≡ prefix_of ends read (Some 0) }
    ensures few { result ≤ 2 ^ 64 }
{
    least_code(ends, digits) >> (plane_count(ends, digits) - read)
}

// A digit of a number's code, counted from the highest.
pub(crate) fn code_digit(ends: Ends, digits: u8, number: u64, at: u8) -> bool
    requires width { digits ≡ width ends }
    requires few { digits ≤ 64 }
    requires at { at < planes ends }
    ensures { result ≡ bit_at ends at (Some number) }
{
    let code = least_code(ends, digits) + u128::from(number);
    code >> (plane_count(ends, digits) - at - 1) & 1 == 1
}

// How many codes share a prefix, where so many digits are unread.
fn block_of(unread: u8) -> u128
    requires { unread ≤ 65 }
    ensures size { result ≡ 2 ^ unread }
    ensures some { 1 ≤ result }
    ensures few { result ≤ 2 ^ 65 }
{
    1u128 << unread
}

/// The first and the last number with the prefix, of those up to the greatest.
pub fn numbers_of_prefix(greatest: u64, least: u128, unread: u8, prefix: u128) -> (u64, u64)
    requires digits { unread ≤ 65 }
    requires few { least ≤ 2 ^ 64 }
    requires legal { prefix * 2 ^ unread ≤ least + greatest }
    ensures first { result.0 ≡ prefix * 2 ^ unread - least }
    ensures last { result.1 ≡ min ((prefix + 1) * 2 ^ unread - 1 - least) greatest }
    ensures ordered { result.0 ≤ result.1 }
    ensures few { result.1 ≤ greatest }
{
    let block = block_of(unread);
    let first = prefix * block;
    let last = first + (block - 1);
    let last = last.saturating_sub(least).min(u128::from(greatest));
    (first.saturating_sub(least) as u64, last as u64)
}

// The numbers whose codes have the prefix.
pub(crate) fn range_of(ends: Ends, digits: u8, read: u8, prefix: u128) -> Interval
    requires width { digits ≡ width ends }
    requires few { digits ≤ 64 }
    requires read { read ≤ planes ends }
    requires legal { prefix * 2 ^ (planes ends - read) ≤ first_code ends + spread ends }
    ensures lo { result.lo ≡ ends.base +ℤ pos (prefix * 2 ^ (planes ends - read) - first_code ends) }
    ensures hi { result.hi ≡ ends.base +ℤ pos (min ((prefix + 1) * 2 ^ (planes ends - read) - 1 - first_code ends) (spread ends)) }
    ensures within { (ends.base ≤ℤ result.lo) × (result.hi ≤ℤ ends.top) }
    ensures small { (negsuc 9223372036854775807 ≤ℤ result.lo) × (result.hi ≤ℤ pos 9223372036854775807) }
{
    let unread = plane_count(ends, digits) - read;
    let least = least_code(ends, digits);
    let (first, last) = numbers_of_prefix(ends.top.abs_diff(ends.base), least, unread, prefix);
    let base = i128::from(ends.base);
    Interval {
        lo: base + i128::from(first),
        hi: base + i128::from(last),
    }
}
