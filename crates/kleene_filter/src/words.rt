//! Sets of truths of up to 64 rows, row by row: a word for each truth, with a bit for each row at which it may be.

ghost use Rattle.std.specs.Prelude.{◌<◌, ◌+◌, ◌^◌};
ghost use Rattle.kleene_filter.specs.Words.{AddsBit, AddsTruths, HaveBelow};

use query_model::Truths;

// The rows at which a condition may hold, may fail and may be null.
#[derive(Clone, Copy)]
pub(crate) struct TruthWords {
    pub(crate) may_hold: u64,
    pub(crate) may_fail: u64,
    pub(crate) may_be_null: u64,
}

// The word with one bit more, where it has none from there on.
fn with_bit(word: u64, row: usize, bit: bool) -> u64
    requires row { row < 64 }
    requires below { word < 2 ^ row }
    ensures { AddsBit row word bit result }
{
    if bit { word | (1 << row) } else { word }
}

// The truths of no row.
pub(crate) fn none() -> TruthWords
    ensures { HaveBelow 0 result }
{
    TruthWords {
        may_hold: 0,
        may_fail: 0,
        may_be_null: 0,
    }
}

impl TruthWords {
    // With the truths of one row more.
    pub(crate) fn with(self, row: usize, truths: Truths) -> TruthWords
        requires row { row < 64 }
        requires below { HaveBelow row self }
        ensures below { HaveBelow (row + 1) result }
        ensures truths { AddsTruths row self truths result }
    {
        TruthWords {
            may_hold: with_bit(self.may_hold, row, truths.may_hold),
            may_fail: with_bit(self.may_fail, row, truths.may_fail),
            may_be_null: with_bit(self.may_be_null, row, truths.may_be_null),
        }
    }
}
