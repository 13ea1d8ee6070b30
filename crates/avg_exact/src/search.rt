//! The choice of rows with the greatest average at an end.

ghost use Rattle.std.specs.Prelude.{◌≡◌, ◌≤◌, ◌<◌, ◌^◌, ◌-ℤ◌, pos, nat_abs};
ghost use Rattle.std.specs.declared.option.Option.TheVariants.{None, Some};
ghost use Rattle.avg_exact.specs.ExactAverages.{high_end, negated_choice};
ghost use Rattle.avg_exact.specs.Ways.{IsWay};
ghost use Rattle.avg_exact.specs.Passes.{all_rows, choice_shown, greatest_high, tally_of, CanTurn, IsAveraged};

use crate::passes::{End, Tally};
use crate::ways::{Way, count_above, greatest, least_above};
use interval_calc::Fraction;
use round_engine::EngineView;

/// A choice of the uncertain rows from a cut on: the sum of the rows that give a value then, their number, and how many are taken.
#[derive(Clone, Copy)]
pub(crate) struct Choice {
    pub(crate) cut: Option<i128>,
    pub(crate) sum: i128,
    pub(crate) rows: u64,
    pub(crate) taken: u64,
}

impl Choice {
    /// The same choice of the negated values.
    pub(crate) fn negated(self) -> Choice
        requires { CanTurn self }
        ensures choice { choice_shown result ≡ negated_choice (choice_shown self) }
        ensures some { 1 ≤ result.rows }
    {
        Choice {
            cut: self.cut.map(|value| -value),
            sum: -self.sum,
            ..self
        }
    }

    /// The average of the rows that give a value.
    pub(crate) fn average(self) -> Fraction
        requires { 1 ≤ self.rows }
        ensures num { result.num ≡ self.sum }
        ensures den { result.den ≡ self.rows }
    {
        Fraction {
            num: self.sum,
            den: self.rows,
        }
    }
}

// The average of the counted rows.
fn mean(tally: Tally) -> Fraction
    requires { 1 ≤ tally.rows }
    ensures num { result.num ≡ tally.sum }
    ensures den { result.den ≡ tally.rows }
{
    Fraction {
        num: tally.sum,
        den: tally.rows,
    }
}

// Where a row is certain: the uncertain rows that do not lie above the average of the others are dropped, until none is.
fn search(engine: &EngineView<'_>, item: usize, way: &Way, end: End, certain: Tally) -> Choice
    requires averaged { IsAveraged engine.now item }
    requires way { IsWay engine.now item way.now }
    requires certain { certain ≡ tally_of None (all_rows engine.now item end) }
    requires some { 1 ≤ certain.rows }
    ensures best { choice_shown result ≡ high_end (all_rows engine.now item end) }
    ensures turns { CanTurn result }
{
    let mut over = mean(certain);
    let mut best = count_above(engine, item, way, end, Some(over));
    loop {
        let average = mean(best);
        let next = count_above(engine, item, way, end, Some(average));
        if next.taken == best.taken {
            break;
        }
        over = average;
        best = next;
    }
    Choice {
        cut: least_above(engine, item, way, end, over),
        sum: best.sum,
        rows: best.rows,
        taken: best.taken,
    }
}

// The whole number below a value.
fn just_below(value: i128) -> Fraction
    requires { nat_abs value < 2 ^ 127 }
    ensures num { result.num ≡ value -ℤ pos 1 }
    ensures den { result.den ≡ 1 }
{
    Fraction {
        num: value - 1,
        den: 1,
    }
}

// Where none is: the rows of the greatest value.
fn take_greatest(engine: &EngineView<'_>, item: usize, way: &Way, end: End, value: i128) -> Choice
    requires averaged { IsAveraged engine.now item }
    requires way { IsWay engine.now item way.now }
    requires uncertain { (tally_of None (all_rows engine.now item end)).rows ≡ 0 }
    requires greatest { greatest_high (all_rows engine.now item end) ≡ Some value }
    requires small { nat_abs value < 2 ^ 127 }
    ensures best { choice_shown result ≡ high_end (all_rows engine.now item end) }
    ensures turns { CanTurn result }
{
    let tally = count_above(engine, item, way, end, Some(just_below(value)));
    Choice {
        cut: Some(value),
        sum: tally.sum,
        rows: tally.rows,
        taken: tally.taken,
    }
}

/// The choice of the greatest average, and of those the one that takes the fewest rows. Where no row may count it is the average 0 / 1.
pub(crate) fn best_choice(engine: &EngineView<'_>, item: usize, way: &Way, end: End) -> Choice
    requires averaged { IsAveraged engine.now item }
    requires way { IsWay engine.now item way.now }
    ensures best { choice_shown result ≡ high_end (all_rows engine.now item end) }
    ensures turns { CanTurn result }
{
    let certain = count_above(engine, item, way, end, None);
    if certain.rows > 0 {
        return search(engine, item, way, end, certain);
    }
    match greatest(engine, item, way, end) {
        Some(value) => take_greatest(engine, item, way, end, value),
        None => Choice {
            cut: None,
            sum: 0,
            rows: 1,
            taken: 0,
        },
    }
}
