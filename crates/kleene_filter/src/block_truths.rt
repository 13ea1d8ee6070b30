//! Sets of truths of the rows of a block of 512: for each truth a bit for each row at which it may be.

ghost use Rattle.std.specs.Prelude.{◌≡◌, ◌≢◌, ◌≤◌, ◌<◌, ◌+◌, ◌-◌, ◌*◌, ◌/◌, ℕ, true, false};
ghost use Rattle.query_model.specs.declared.bounds.Truths.{Truths};
ghost use Rattle.query_model.specs.Truths.{and_over, not_over, or_over, truth_among};
ghost use Rattle.kleene_filter.specs.Blocks.{at_best, bit_in, AreTruthsFrom, HasTruths};
ghost use Rattle.kleene_filter.specs.Filters.{is_certain};
ghost use Rattle.kleene_filter.specs.Words.{AreTruthsAt};

use crate::lanes::{both, either, unset, with_word};
use crate::words::TruthWords;

// The rows of a block at which a condition may hold, may fail and may be null.
#[derive(Clone, Copy)]
pub(crate) struct BlockTruths {
    pub(crate) may_hold: [u64; 8],
    pub(crate) may_fail: [u64; 8],
    pub(crate) may_be_null: [u64; 8],
}

// True is the one truth at each row.
#[inline(always)]
pub(crate) fn all() -> BlockTruths
    ensures { (row : ℕ) → row < 512 → HasTruths row (record { may_hold = true; may_fail = false; may_be_null = false }) result }
{
    BlockTruths {
        may_hold: [u64::MAX; 8],
        may_fail: [0; 8],
        may_be_null: [0; 8],
    }
}

// Nothing is known of any row.
pub(crate) fn none() -> BlockTruths {
    BlockTruths {
        may_hold: [0; 8],
        may_fail: [0; 8],
        may_be_null: [0; 8],
    }
}

#[inline(always)]
pub(crate) fn not(truths: &BlockTruths) -> BlockTruths
    ensures { (row : ℕ) (t : Truths) → HasTruths row t truths.now → HasTruths row (not_over t) result }
{
    BlockTruths {
        may_hold: truths.may_fail,
        may_fail: truths.may_hold,
        may_be_null: truths.may_be_null,
    }
}

#[inline(always)]
pub(crate) fn and(left: &BlockTruths, right: &BlockTruths) -> BlockTruths
    ensures { (row : ℕ) (a b : Truths) → row < 512 → HasTruths row a left.now → HasTruths row b right.now
        → HasTruths row (and_over a b) result }
{
    let null_or_true = either(&right.may_be_null, &right.may_hold);
    BlockTruths {
        may_hold: both(&left.may_hold, &right.may_hold),
        may_fail: either(&left.may_fail, &right.may_fail),
        may_be_null: either(
            &both(&left.may_be_null, &null_or_true),
            &both(&left.may_hold, &right.may_be_null),
        ),
    }
}

#[inline(always)]
pub(crate) fn or(left: &BlockTruths, right: &BlockTruths) -> BlockTruths
    ensures { (row : ℕ) (a b : Truths) → row < 512 → HasTruths row a left.now → HasTruths row b right.now
        → HasTruths row (or_over a b) result }
{
    let null_or_false = either(&right.may_be_null, &right.may_fail);
    BlockTruths {
        may_hold: either(&left.may_hold, &right.may_hold),
        may_fail: both(&left.may_fail, &right.may_fail),
        may_be_null: either(
            &both(&left.may_be_null, &null_or_false),
            &both(&left.may_fail, &right.may_be_null),
        ),
    }
}

// Beside another condition that may fail in any case, is nowhere null, and may hold at these rows: it only adds them.
#[inline(always)]
pub(crate) fn or_at_best(truths: &BlockTruths, rows: &[u64; 8]) -> BlockTruths
    ensures { (row : ℕ) (t : Truths) → row < 512 → HasTruths row t truths.now
        → HasTruths row (or_over t (at_best (bit_in row rows.now))) result }
{
    BlockTruths {
        may_hold: either(&truths.may_hold, rows),
        ..*truths
    }
}

// The rows at which true is the one truth.
#[inline(always)]
pub(crate) fn must_hold(truths: &BlockTruths) -> [u64; 8]
    ensures { (row : ℕ) (t : Truths) → row < 512 → HasTruths row t truths.now → bit_in row result ≡ is_certain (truth_among t) }
{
    let other = either(&truths.may_fail, &truths.may_be_null);
    both(&truths.may_hold, &unset(&other))
}

impl BlockTruths {
    // With the truths of the rows of one word.
    pub(crate) fn with_words(&self, at: usize, words: TruthWords) -> BlockTruths
        requires { at < 8 }
        ensures here { (count : ℕ) (own : ℕ → Truths) → count ≤ 64 → AreTruthsAt count own words
            → AreTruthsFrom (64 * at) (64 * at + count) (λ row. own (row - 64 * at)) result }
        ensures others { (row : ℕ) (t : Truths) → row / 64 ≢ at → HasTruths row t self.now → HasTruths row t result }
    {
        BlockTruths {
            may_hold: with_word(&self.may_hold, at, words.may_hold),
            may_fail: with_word(&self.may_fail, at, words.may_fail),
            may_be_null: with_word(&self.may_be_null, at, words.may_be_null),
        }
    }
}
