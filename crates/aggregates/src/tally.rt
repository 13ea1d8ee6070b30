//! What is kept of a list of rows that may count, and the bound that follows from it.
ghost use Rattle.std.specs.Prelude.{◌≡◌, ◌<◌, ◌≤◌, ℤ, pos, length, ◌+ℤ◌};
ghost use Rattle.std.specs.Prelude.{List, [], ◌∷◌, ◌++◌, cond, if◌then◌else◌, int_le, FitsSigned};
ghost use Rattle.std.specs.Int.{w128};
ghost use Rattle.query_model.specs.declared.query.ItemKind.TheVariants.{Count, Min, Sum};
ghost use Rattle.query_model.specs.Bounds.{average_bound_of, bound_of, nullity_of, greatest_sum, high_of_least};
ghost use Rattle.query_model.specs.Bounds.{high_share, least_sum, low_of_greatest, low_share, fractions_of, Pair};
ghost use Rattle.query_model.specs.Validity.{IsSumKind};
ghost use Rattle.plane_kernels.specs.Rows.{digit_at};
ghost use Rattle.aggregates.specs.BlockPairs.{pairs_in, HasRoom};
ghost use Rattle.aggregates.specs.Tallies.{pair_with, tally_of};

use crate::extremes::{greater, greater_if, lesser, lesser_if};
use interval_calc::{Fraction, Interval};
use query_model::{AverageBound, Bound, ItemKind, Nullity};

/// What is kept of a list of pairs: how many rows count for certain and how many may count, and as far as the item's kind needs them,
/// their ends, and what they add to the least and to the greatest sum.
#[derive(Clone, Copy)]
pub struct Tally {
    /// The rows that count for certain.
    pub certain: u64,
    /// The rows that may count.
    pub all: u64,
    /// The least low end, where there is a row. For a sum it is kept only while no row counts for certain.
    pub least_low: Option<i128>,
    /// The greatest high end, in the same way.
    pub greatest_high: Option<i128>,
    /// The least high end of the rows that count for certain, where there is one.
    pub least_certain_high: Option<i128>,
    /// The greatest low end of these.
    pub greatest_certain_low: Option<i128>,
    /// What the rows add to the least sum: one that may not count only what lowers it.
    pub low_sum: i128,
    /// What they add to the greatest sum.
    pub high_sum: i128,
}

// What a row adds to the least sum: one that may not count only what lowers it.
fn low_share(certain: bool, span: Interval) -> i128
    ensures { result ≡ low_share (pair_with certain span) }
{
    if certain { span.lo } else { span.lo.min(0) }
}

// What a row adds to the greatest sum.
fn high_share(certain: bool, span: Interval) -> i128
    ensures { result ≡ high_share (pair_with certain span) }
{
    if certain { span.hi } else { span.hi.max(0) }
}

/// Whether a bit of the word is 1, counted from the lowest.
pub fn has_bit(word: u64, bit: usize) -> bool
    requires { bit < 64 }
    ensures { result ≡ digit_at bit word }
{
    word >> bit & 1 == 1
}

// 1 for a row that counts for certain, 0 for another.
fn one_if(certain: bool) -> u64
    ensures { result ≡ cond certain 1 0 }
{
    if certain { 1 } else { 0 }
}

/// A sum divided by one number where it is not negative, else by another.
pub fn quotient(sum: i128, most: u64, least: u64) -> Fraction
    requires most { 0 < most }
    requires least { 0 < least }
    ensures num { result.num ≡ sum }
    ensures den { result.den ≡ if int_le (pos 0) sum then most else least }
{
    Fraction {
        num: sum,
        den: if sum >= 0 { most } else { least },
    }
}

impl Tally {
    /// That of no pairs.
    pub fn none() -> Tally
        ensures { (kind : ItemKind) → result ≡ tally_of kind [] }
    {
        Tally {
            certain: 0,
            all: 0,
            least_low: None,
            greatest_high: None,
            least_certain_high: None,
            greatest_certain_low: None,
            low_sum: 0,
            high_sum: 0,
        }
    }

    // Adds a pair to those of a count.
    fn add_count(&mut self, certain: bool)
        requires few { self.old.all < 16777216 }
        requires few_certain { self.old.certain < 16777216 }
        ensures { (ps : List Pair) (span : Interval) → self.old ≡ tally_of Count ps
            → self.new ≡ tally_of Count (ps ++ pair_with certain span ∷ []) }
    {
        self.all += 1;
        self.certain += one_if(certain);
    }

    // Adds a pair to those of a sum.
    fn add_sum(&mut self, certain: bool, span: Interval)
        requires few { self.old.all < 16777216 }
        requires few_certain { self.old.certain < 16777216 }
        requires low { FitsSigned w128 (self.old.low_sum +ℤ low_share (pair_with certain span)) }
        requires high { FitsSigned w128 (self.old.high_sum +ℤ high_share (pair_with certain span)) }
        ensures { (ps : List Pair) → self.old ≡ tally_of Sum ps → self.new ≡ tally_of Sum (ps ++ pair_with certain span ∷ []) }
    {
        self.all += 1;
        self.certain += one_if(certain);
        let ended = self.certain == 0;
        self.least_low = lesser_if(ended, self.least_low, span.lo);
        self.greatest_high = greater_if(ended, self.greatest_high, span.hi);
        self.low_sum += low_share(certain, span);
        self.high_sum += high_share(certain, span);
    }

    // Adds a pair to those of a least or greatest value.
    fn add_end(&mut self, certain: bool, span: Interval)
        requires few { self.old.all < 16777216 }
        requires few_certain { self.old.certain < 16777216 }
        ensures { (ps : List Pair) → self.old ≡ tally_of Min ps → self.new ≡ tally_of Min (ps ++ pair_with certain span ∷ []) }
    {
        self.all += 1;
        self.least_low = Some(lesser(self.least_low, span.lo));
        self.greatest_high = Some(greater(self.greatest_high, span.hi));
        if certain {
            self.certain += 1;
            self.least_certain_high = Some(lesser(self.least_certain_high, span.hi));
            self.greatest_certain_low = Some(greater(self.greatest_certain_low, span.lo));
        }
    }

    // Adds a pair at the end of the others.
    pub(crate) fn add(&mut self, kind: ItemKind, certain: bool, span: Interval)
        requires few { self.old.all < 16777216 }
        requires few_certain { self.old.certain < 16777216 }
        requires low { IsSumKind kind → FitsSigned w128 (self.old.low_sum +ℤ low_share (pair_with certain span)) }
        requires high { IsSumKind kind → FitsSigned w128 (self.old.high_sum +ℤ high_share (pair_with certain span)) }
        ensures { (ps : List Pair) → self.old ≡ tally_of kind ps → self.new ≡ tally_of kind (ps ++ pair_with certain span ∷ []) }
    {
        match kind {
            ItemKind::Count => self.add_count(certain),
            ItemKind::Sum | ItemKind::Avg => self.add_sum(certain, span),
            ItemKind::Min | ItemKind::Max => self.add_end(certain, span),
        }
    }

    // Adds those of a block's rows at the end of the others.
    pub(crate) fn add_block(&mut self, kind: ItemKind, may: u64, must: u64, spans: &[Interval])
        requires few { length spans.now ≤ 64 }
        requires room { HasRoom kind self.old (pairs_in may must spans.now) }
        ensures { (ps : List Pair) → self.old ≡ tally_of kind ps → self.new ≡ tally_of kind (ps ++ pairs_in may must spans.now) }
    {
        for row in 0..spans.len() {
            if has_bit(may, row) {
                self.add(kind, has_bit(must, row), spans[row]);
            }
        }
    }

    // Whether no row counts.
    fn nullity_of(self) -> Nullity
        ensures { (kind : ItemKind) (ps : List Pair) → self ≡ tally_of kind ps → result ≡ nullity_of ps }
    {
        if self.all == 0 {
            Nullity::Always
        } else if self.certain > 0 {
            Nullity::Never
        } else {
            Nullity::Possibly
        }
    }

    // Where no row is certain and each low is above 0, the least low stands alone: a sum of no row would be no sum.
    fn least_sum(self) -> i128
        ensures { (ps : List Pair) → self ≡ tally_of Sum ps → result ≡ least_sum ps }
    {
        match self.least_low {
            Some(low) if self.certain == 0 && low > 0 => low,
            _ => self.low_sum,
        }
    }

    // In the same way, for highs below 0.
    fn greatest_sum(self) -> i128
        ensures { (ps : List Pair) → self ≡ tally_of Sum ps → result ≡ greatest_sum ps }
    {
        match self.greatest_high {
            Some(high) if self.certain == 0 && high < 0 => high,
            _ => self.high_sum,
        }
    }

    // The greatest that the least value can be.
    fn high_of_least(self) -> i128
        ensures { (ps : List Pair) → self ≡ tally_of Min ps → result ≡ high_of_least ps }
    {
        self.least_certain_high.or(self.greatest_high).unwrap_or(0)
    }

    // The least that the greatest value can be.
    fn low_of_greatest(self) -> i128
        ensures { (ps : List Pair) → self ≡ tally_of Min ps → result ≡ low_of_greatest ps }
    {
        self.greatest_certain_low.or(self.least_low).unwrap_or(0)
    }

    // The bound of an item that is no average.
    pub(crate) fn bound(self, kind: ItemKind) -> Bound
        ensures { (ps : List Pair) → self ≡ tally_of kind ps → result ≡ bound_of kind ps }
    {
        match kind {
            ItemKind::Count => Bound {
                null: Nullity::Never,
                lo: i128::from(self.certain),
                hi: i128::from(self.all),
            },
            ItemKind::Sum | ItemKind::Avg => Bound {
                null: self.nullity_of(),
                lo: self.least_sum(),
                hi: self.greatest_sum(),
            },
            ItemKind::Min => Bound {
                null: self.nullity_of(),
                lo: self.least_low.unwrap_or(0),
                hi: self.high_of_least(),
            },
            ItemKind::Max => Bound {
                null: self.nullity_of(),
                lo: self.low_of_greatest(),
                hi: self.greatest_high.unwrap_or(0),
            },
        }
    }

    // The bound of an average: a sum that is not negative is divided by as many rows as may count for the low end, and
    // by as few as may count for the high end.
    pub(crate) fn average(self) -> AverageBound
        ensures { (ps : List Pair) → self ≡ tally_of Sum ps → fractions_of result ≡ average_bound_of ps }
    {
        let most = self.all.max(1);
        let fewest = self.certain.max(1);
        AverageBound {
            null: self.nullity_of(),
            lo: quotient(self.least_sum(), most, fewest),
            hi: quotient(self.greatest_sum(), fewest, most),
        }
    }
}
