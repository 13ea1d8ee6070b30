//! Where the numbers of a column lie that begin with the same digits.

ghost use Rattle.std.specs.Prelude.{◌≡◌, ◌≤◌, ◌+◌, ◌-◌, ◌*◌, ◌^◌, ◌%◌, ◌≤ℤ◌, ◌+ℤ◌, ◌*ℤ◌, pos, negsuc, IfSome};
ghost use Rattle.digit_sums.specs.Digits.{AreEndsOf, high_by, low_by, top_digits};

use crate::ends::DigitEnds;
use aggregates::lows_of_rows;
use known_column::Known;

/// The ends of a column's numbers, if it is such a column. It affects speed alone which are.
pub fn digit_ends(known: &Known) -> Option<DigitEnds>
    ensures { IfSome result (AreEndsOf known.now) }
{
    let spread = u32::try_from(known.top().abs_diff(known.base())).ok()?;
    if known.nullable() || known.base() < 0 || known.unread() > 32 {
        return None;
    }
    Some(DigitEnds {
        base: known.base(),
        spread,
        unread: known.unread(),
    })
}

// So many rows, each with this span.
fn times(rows: u32, span: u64) -> u64
    requires rows { rows ≤ 16777216 }
    requires span { span ≤ 4294967296 }
    ensures product { result ≡ rows * span }
    ensures few { result ≤ 72057594037927936 }
{
    u64::from(rows) * span
}

impl DigitEnds {
    // Those of no column.
    pub(crate) fn none() -> DigitEnds {
        DigitEnds {
            base: 0,
            spread: 0,
            unread: 0,
        }
    }

    // The digits of the greatest number.
    pub(crate) fn top_digits(self) -> u32
        ensures { result ≡ top_digits self }
    {
        (u64::from(self.spread) >> self.unread) as u32
    }

    // How far the greatest number with some digits lies above the least.
    fn span(self) -> u64
        ensures span { result ≡ 2 ^ self.unread - 1 }
        ensures few { result ≤ 4294967295 }
    {
        (1u64 << self.unread) - 1
    }

    // How far it does with the digits of the greatest number of all.
    fn top_span(self) -> u64
        ensures span { result ≡ self.spread % 2 ^ self.unread }
        ensures few { result ≤ 4294967295 }
    {
        u64::from(self.spread) % (1u64 << self.unread)
    }

    // The least number that begins with these digits.
    pub(crate) fn low(self, digits: u32) -> i128
        ensures { result ≡ low_by self digits }
    {
        i128::from(self.base) + i128::from(u64::from(digits) << self.unread)
    }

    // The greatest.
    pub(crate) fn high(self, digits: u32) -> i128
        ensures { result ≡ high_by self digits }
    {
        let last = (u64::from(digits) << self.unread) + self.span();
        i128::from(self.base) + i128::from(last.min(u64::from(self.spread)))
    }

    // What the last digits that were read weigh of so many rows that have a 1 there.
    pub(crate) fn weight(self, ones: u32) -> u64
        ensures { result ≡ ones * 2 ^ self.unread }
    {
        u64::from(ones) << self.unread
    }

    // The low ends of so many rows, added up, whose digits are so much together.
    pub(crate) fn lows(self, rows: u32, sum: u64) -> i128
        requires rows { rows ≤ 16777216 }
        requires sum { sum ≤ 4294967295 * rows }
        ensures sum { result ≡ (self.base *ℤ pos rows) +ℤ pos (sum * 2 ^ self.unread) }
        ensures few { (negsuc 1237940039285380274899124224 ≤ℤ result) × (result ≤ℤ pos 1237940039285380274899124224) }
    {
        lows_of_rows(self.base, u64::from(rows), u128::from(sum), self.unread)
    }

    // How far the high ends of so many rows lie above their low ends, added up, where so many have the digits of the greatest number.
    pub(crate) fn spans(self, rows: u32, at_top: u32) -> u64
        requires rows { rows ≤ 16777216 }
        requires at_top { at_top ≤ rows }
        ensures sum { result ≡ at_top * (self.spread % 2 ^ self.unread) + (rows - at_top) * (2 ^ self.unread - 1) }
        ensures few { result ≤ 144115188075855872 }
    {
        times(at_top, self.top_span()) + times(rows - at_top, self.span())
    }
}
