//! The outermost ends of the rows of a block, which a sum keeps while no row surely counts.

ghost use Rattle.std.specs.Prelude.{◌≡◌, ◌≤◌, ℕ, ℤ, true, List, [], ◌∷◌, ◌++◌, if◌then◌else◌};
ghost use Rattle.std.specs.declared.option.Option.{Option};
ghost use Rattle.query_model.specs.declared.query.ItemKind.TheVariants.{Max, Min};
ghost use Rattle.query_model.specs.Answers.{answer};
ghost use Rattle.query_model.specs.Bounds.{highs, lows, Pair};
ghost use Rattle.row_values.specs.BlockSums.{given, Give};

use crate::short::ShortInterval;
use crate::short_arithmetic::widened;
use aggregates::has_bit;
use interval_calc::Interval;

// The least of some numbers and the low end of a span.
fn lesser(earlier: Option<i128>, span: Interval) -> Option<i128>
    ensures { (xs : List ℤ) → earlier ≡ answer Min xs → result ≡ answer Min (xs ++ span.lo ∷ []) }
{
    match earlier {
        Some(least) => Some(least.min(span.lo)),
        None => Some(span.lo),
    }
}

// The greatest of some numbers and the high end of a span.
fn greater(earlier: Option<i128>, span: Interval) -> Option<i128>
    ensures { (xs : List ℤ) → earlier ≡ answer Max xs → result ≡ answer Max (xs ++ span.hi ∷ []) }
{
    match earlier {
        Some(greatest) => Some(greatest.max(span.hi)),
        None => Some(span.hi),
    }
}

// The least low end of earlier rows and a block's first ones, if it is still kept. Bit i of the word is that of row i, which counts where
// it is 1.
pub(crate) fn least_low(
    kept: bool,
    earlier: Option<i128>,
    may: u64,
    count: usize,
    spans: &[ShortInterval; 64],
) -> Option<i128>
    requires few { count ≤ 64 }
    ensures { (give : ℕ → Option Pair) (must : ℕ) → Give give may must count spans.now → (xs : List ℤ)
        → (kept ≡ true → earlier ≡ answer Min xs)
        → result ≡ (if kept then answer Min (xs ++ lows (given give count)) else None) }
{
    if !kept {
        return None;
    }
    let mut least = earlier;
    for i in 0..count {
        if has_bit(may, i) {
            least = lesser(least, widened(spans[i]));
        }
    }
    least
}

// The greatest high end of them, if it is still kept.
pub(crate) fn greatest_high(
    kept: bool,
    earlier: Option<i128>,
    may: u64,
    count: usize,
    spans: &[ShortInterval; 64],
) -> Option<i128>
    requires few { count ≤ 64 }
    ensures { (give : ℕ → Option Pair) (must : ℕ) → Give give may must count spans.now → (xs : List ℤ)
        → (kept ≡ true → earlier ≡ answer Max xs)
        → result ≡ (if kept then answer Max (xs ++ highs (given give count)) else None) }
{
    if !kept {
        return None;
    }
    let mut greatest = earlier;
    for i in 0..count {
        if has_bit(may, i) {
            greatest = greater(greatest, widened(spans[i]));
        }
    }
    greatest
}
