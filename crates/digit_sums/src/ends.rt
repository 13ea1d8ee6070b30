//! The ends of a column's numbers, how many of their digits are unread, and which digits are outer.

ghost use Rattle.std.specs.Prelude.{◌<◌, ◌≤◌, ◌^◌, ◌≤ℤ◌, pos};

/// Of a column that is never null and never negative, and whose top lies less than 2^32 above its base: the base, how far above it top
/// lies, and how many digits of its numbers are unread.
#[derive(Clone, Copy)]
pub struct DigitEnds {
    pub(crate) base: i64,
    pub(crate) spread: u32,
    pub(crate) unread: u8,
    pub ghost above: { pos 0 ≤ℤ base },
    pub ghost small: { spread < 2 ^ 32 },
    pub ghost few: { unread ≤ 32 },
}

/// The digits that are looked at for the least and the greatest of a cell: those up to a low number, and those from a high one on.
#[derive(Clone, Copy)]
pub struct OuterDigits {
    pub(crate) low: u32,
    pub(crate) high: u32,
}
