//! What the rows of a block of 64 add to a sum, by numbers of 64 bits and without a branch.

ghost use Rattle.std.specs.Prelude.{◌≡◌, ◌<◌, ◌≤◌, ℕ, pos, if◌then◌else◌};
ghost use Rattle.std.specs.Int.{int_max, int_min};
ghost use Rattle.std.specs.Int.Bits.{bit_and};
ghost use Rattle.std.specs.declared.option.Option.{Option};
ghost use Rattle.query_model.specs.Bounds.{Pair};
ghost use Rattle.row_values.specs.BlockSums.{given, AreShares, AreSmall, AreWithin, Give, IsSmall};
ghost use Rattle.row_values.specs.ShortSpans.{interval_of};

use crate::short::ShortInterval;
use aggregates::has_bit;

// What a sum keeps of some rows, but for their ends: how many may count and how many surely do, and what they add to the least and to the
// greatest sum.
#[derive(Clone, Copy)]
pub(crate) struct Shares {
    pub(crate) all: u64,
    pub(crate) certain: u64,
    pub(crate) low: i64,
    pub(crate) high: i64,
}

const NONE: Shares = Shares {
    all: 0,
    certain: 0,
    low: 0,
    high: 0,
};

// The number if it is kept, else 0.
fn kept(keeps: bool, number: i64) -> i64
    ensures { result ≡ (if keeps then number else pos 0) }
{
    if keeps { number } else { 0 }
}

// What a row adds to the least sum, if it may count.
fn low_share(may: bool, must: bool, low: i64) -> i64
    ensures { result ≡ (if may then (if must then low else int_min low (pos 0)) else pos 0) }
{
    kept(may & (must | (low < 0)), low)
}

// What it adds to the greatest sum.
fn high_share(may: bool, must: bool, high: i64) -> i64
    ensures { result ≡ (if may then (if must then high else int_max high (pos 0)) else pos 0) }
{
    kept(may & (must | (high > 0)), high)
}

// What a sum keeps of a block whose rows all surely count.
fn whole_shares(spans: &[ShortInterval; 64]) -> Shares
    requires small { AreSmall 64 spans.now }
    ensures within { AreWithin 64 result }
    ensures shares { (give : ℕ → Option Pair) (count : ℕ) → count ≡ 64
        → Give give 18446744073709551615 18446744073709551615 count spans.now → AreShares (given give count) result }
{
    let mut shares = NONE;
    for i in 0..64 {
        let span = spans[i];
        shares.low += span.lo;
        shares.high += span.hi;
    }
    shares.all = 64;
    shares.certain = 64;
    shares
}

// What a sum keeps of a block's first rows where each that may count surely does.
fn sure_shares(rows: u64, count: usize, spans: &[ShortInterval; 64]) -> Shares
    requires few { count ≤ 64 }
    requires small { AreSmall count spans.now }
    ensures within { AreWithin 64 result }
    ensures shares { (give : ℕ → Option Pair) (must : ℕ) → bit_and rows must ≡ rows → Give give rows must count spans.now
        → AreShares (given give count) result }
{
    let mut shares = NONE;
    for i in 0..count {
        let counts = has_bit(rows, i);
        let span = spans[i];
        shares.all += u64::from(counts);
        shares.low += kept(counts, span.lo);
        shares.high += kept(counts, span.hi);
    }
    shares.certain = shares.all;
    shares
}

// What a sum keeps of a block's first rows, one after another.
fn row_shares(may: u64, must: u64, count: usize, spans: &[ShortInterval; 64]) -> Shares
    requires few { count ≤ 64 }
    requires small { AreSmall count spans.now }
    ensures within { AreWithin 64 result }
    ensures shares { (give : ℕ → Option Pair) → Give give may must count spans.now → AreShares (given give count) result }
{
    let mut shares = NONE;
    for i in 0..count {
        let counts = has_bit(may, i);
        let surely = has_bit(must, i);
        let span = spans[i];
        shares.all += u64::from(counts);
        shares.certain += u64::from(counts & surely);
        shares.low += low_share(counts, surely, span.lo);
        shares.high += high_share(counts, surely, span.hi);
    }
    shares
}

// What a sum keeps of a block's first rows: bit i of a word is that of row i, which may count where its bit in the first is 1, and surely
// counts where besides its bit in the second is.
pub(crate) fn shares_of(may: u64, must: u64, count: usize, spans: &[ShortInterval; 64]) -> Shares
    requires few { count ≤ 64 }
    requires small { AreSmall count spans.now }
    ensures within { AreWithin 64 result }
    ensures shares { (give : ℕ → Option Pair) → Give give may must count spans.now → AreShares (given give count) result }
{
    if count == 64 && may == u64::MAX && must == u64::MAX {
        whole_shares(spans)
    } else if may & must == may {
        sure_shares(may, count, spans)
    } else {
        row_shares(may, must, count, spans)
    }
}
