//! The exact ends of an average.

use interval_calc::Fraction;
use query_model::Nullity;

/// The least and the greatest that an average may be, and the choice of uncertain rows that gives each. Of `unknown` uncertain rows the
/// low end takes the `low_taken` whose low is at most `low_cut`, the high end the `high_taken` whose high is at least `high_cut`; none is
/// taken where there is no cut.
#[derive(Clone, Copy, Debug, PartialEq, Eq)]
pub struct Exact {
    pub null: Nullity,
    pub lo: Fraction,
    pub hi: Fraction,
    pub unknown: u64,
    pub low_taken: u64,
    pub high_taken: u64,
    pub low_cut: Option<i128>,
    pub high_cut: Option<i128>,
}
