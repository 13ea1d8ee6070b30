//! The first rows in an order.

ghost use Rattle.std.specs.Prelude.{◌≡◌, ◌≤◌, ◌<◌, ℕ, length, map, replicate, slice_get, Some, IfOk, IsTrue};
ghost use Rattle.query_model.specs.declared.bounds.Standing.{Standing};
ghost use Rattle.known_column.specs.Columns.{rows_of_column};
ghost use Rattle.topk_bounds.specs.Searches.{AreSearching, HasJudged};
ghost use Rattle.topk_bounds.specs.Standings.{is_certain, is_in, is_possible, standing_in};

use crate::rivals::Rivals;
use crate::search::Search;
use known_column::Known;
use plane_kernels::Mask;
use query_model::Standing;
use std::alloc::{AllocError, Global};
use std::marker::Model;

/// What is known of whether each row is among the first of the rows that pass, so many as are asked for.
pub struct TopK {
    limit: u64,
    down: bool,
    must: Search,
    may: Search,
    certain: Mask,
    possible: Mask,
}

// A call of its own: a derived drop is proved anew wherever one is let go.
impl Drop for TopK {
    fn drop(self) {
        let TopK {
            limit: _,
            down: _,
            must: _,
            may: _,
            certain: _,
            possible: _,
        } = self;
    }
}

impl Model for TopK {
    ghost use Rattle.std.specs.Prelude.{◌≤◌, length};
    ghost use Rattle.std.specs.Simd.Lanes.{zip2};
    ghost use Rattle.topk_bounds.specs.Searches.{IsKept};
    ghost use Rattle.topk_bounds.specs.Standings.{standing_in, AreApart, Kept};

    ghost Value = { Kept };

    ghost view = { λ t. record {
      limit = t.limit;
      down = t.down;
      standings = zip2 standing_in t.certain t.possible;
      must = t.must;
      may = t.may;
    } };

    ghost invariant = { λ t. (1 ≤ t.limit)
        × IsKept (length t.certain) t.must × IsKept (length t.certain) t.may × AreApart t.certain t.possible };
}

// The standing of a row that is marked so.
fn standing_of_marks(certain: bool, possible: bool) -> Standing
    ensures { result ≡ standing_in certain possible }
{
    if certain {
        Standing::Certain
    } else if possible {
        Standing::Possible
    } else {
        Standing::Excluded
    }
}

impl TopK {
    /// So many rows are asked for, by the greatest keys or by the least. No row is judged yet: all are excluded.
    /// All room is taken here.
    pub fn open(alloc: Global, limit: u32, down: bool, rows: usize) -> Result<TopK, AllocError>
        requires some { 1 ≤ limit }
        ensures limit { IfOk result (λ top. top.limit ≡ limit) }
        ensures down { IfOk result (λ top. top.down ≡ down) }
        ensures standings { IfOk result (λ top. top.standings ≡ replicate rows Standing.Excluded) }
    {
        Ok(TopK {
            limit: u64::from(limit),
            down,
            must: Search::open(alloc, rows)?,
            may: Search::open(alloc, rows)?,
            certain: Mask::none(alloc, rows)?,
            possible: Mask::none(alloc, rows)?,
        })
    }

    /// Judges each row anew: by the rows that surely pass, those that may, and what is known of the sort key.
    pub fn judge(&mut self, must: &Mask, may: &Mask, key: &Known)
        requires key { rows_of_column key.now ≡ length self.old.standings }
        requires must { length must.now ≡ length self.old.standings }
        requires may { length may.now ≡ length self.old.standings }
        requires within { (r : ℕ) → IsTrue (is_in must.now r) → IsTrue (is_in may.now r) }
        ensures limit { self.new.limit ≡ self.old.limit }
        ensures down { self.new.down ≡ self.old.down }
        ensures judged { HasJudged self.new must.now may.now key.now }
    {
        self.must.begin(must, may, self.limit);
        self.may.begin(may, must, self.limit);
        self.follow(key);
    }

    /// Judges each row anew where the same rows pass, and more planes of the sort key were read.
    pub fn follow(&mut self, key: &Known)
        requires key { rows_of_column key.now ≡ length self.old.standings }
        requires searching { AreSearching self.old key.now }
        ensures limit { self.new.limit ≡ self.old.limit }
        ensures down { self.new.down ≡ self.old.down }
        ensures judged { (are : AreSearching self.old key.now) → HasJudged self.new are.must are.may key.now }
    {
        self.must.follow(self.down, key);
        self.may.follow(self.down, key);
        self.must.find(Rivals::Must, key, &mut self.possible);
        self.may.find(Rivals::May, key, &mut self.certain);
        self.certain.and_into(&self.possible);
        self.possible.and_not_into(&self.certain);
    }

    /// The standing of a row at the last judgement.
    pub fn standing(&self, row: usize) -> Standing
        requires { row < length self.now.standings }
        ensures { slice_get self.now.standings row ≡ Some result }
    {
        standing_of_marks(self.certain.get(row), self.possible.get(row))
    }

    /// The rows that belong for certain.
    pub fn certain(&self) -> &Mask
        ensures { result.now ≡ map is_certain self.now.standings }
    {
        &self.certain
    }

    /// The rows that may belong and may not.
    pub fn possible(&self) -> &Mask
        ensures { result.now ≡ map is_possible self.now.standings }
    {
        &self.possible
    }
}
