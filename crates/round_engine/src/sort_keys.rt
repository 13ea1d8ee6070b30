//! Whether the keys of the first rows in an order are near.

ghost use Rattle.std.specs.Prelude.{◌≡◌, ◌<◌, ◌*◌, ◌+◌, true, false, min};
ghost use Rattle.std.specs.List.{list_all};
ghost use Rattle.daq_table.specs.Tables.{rows_of};
ghost use Rattle.query_model.specs.Knowledge.{ranges_of};
ghost use Rattle.round_engine.specs.Narrowness.{is_near_key};
ghost use Rattle.round_engine.specs.Rankings.{AreKeysNear, HasFarKey, IsOver, is_key_near};

use crate::narrowness::is_narrow_bound;
use crate::ranking::Ranking;
use known_column::LentColumns;
use query_model::{Bound, Standing};

impl Ranking {
    // Whether the key of a row is known to be null, or its ends are at most so far apart.
    fn is_near_key(&self, width: u64, columns: &LentColumns<'_>, row: usize) -> bool
        requires over { IsOver columns.now self.now }
        requires row { row < columns.now.frame.rows }
        ensures { result ≡ is_near_key width (ranges_of columns.now.frame columns.now.known row self.now.key) }
    {
        let column = usize::from(self.key);
        let numbers = columns.range(column, row);
        let key = Bound {
            null: columns.missing(column, row),
            lo: numbers.lo,
            hi: numbers.hi,
        };
        is_narrow_bound(width, &key)
    }

    // Whether a row is not among the first for certain, or its key is near.
    fn is_near_at(&self, width: u64, columns: &LentColumns<'_>, row: usize) -> bool
        requires over { IsOver columns.now self.now }
        requires row { row < columns.now.frame.rows }
        ensures { result ≡ is_key_near width columns.now self.now row }
    {
        match self.top.standing(row) {
            Standing::Certain => self.is_near_key(width, columns, row),
            Standing::Possible | Standing::Excluded => true,
        }
    }

    // Whether the keys are near of those of 64 rows that are among the first for certain.
    fn are_near_in_block(&self, width: u64, columns: &LentColumns<'_>, block: usize) -> bool
        requires over { IsOver columns.now self.now }
        requires block { 64 * block < columns.now.frame.rows }
        ensures near { result ≡ true → AreKeysNear width columns.now self.now (64 * block)
            (min (64 * block + 64) columns.now.frame.rows) }
        ensures far { result ≡ false → HasFarKey width columns.now self.now }
    {
        let certain = self.top.certain();
        if certain.word(block) == 0 {
            return true;
        }
        let rows = columns.rows();
        let first = 64 * block;
        for row in first..first + (rows - first).min(64) {
            if !self.is_near_at(width, columns, row) {
                return false;
            }
        }
        true
    }

    // Whether the keys are near of all rows that are among the first for certain.
    pub(crate) fn keys_are_near(&self, width: u64, columns: &LentColumns<'_>) -> bool
        requires over { IsOver columns.now self.now }
        ensures { result ≡ list_all (is_key_near width columns.now self.now) (rows_of columns.now.frame) }
    {
        for block in 0..columns.rows().div_ceil(64) {
            if !self.are_near_in_block(width, columns, block) {
                return false;
            }
        }
        true
    }
}
