//! The answer of an average over all parts.

ghost use Rattle.std.specs.Prelude.{◌≡◌, ◌≢◌, Err, IfOk, OnOk, map, max};
ghost use Rattle.query_model.specs.Bounds.{fractions_of};
ghost use Rattle.shard_bounds.specs.Averages.{FitsAverage, combined_average};
ghost use Rattle.report_parts.specs.Combined.{average_of, average_over, exact_over, ratio_of, shown_average};

use crate::fault::CombineFault;
use crate::forms::{decimals_in, shared_form};
use interval_calc::Fraction;
use query_model::{AverageBound, Nullity};
use report_text::{Answer, Number, Ratio, ShownAverage};
use shard_bounds::{combine_averages, hull_of_averages};
use std::alloc::{AllocError, Global};

// A sum over a number of rows.
pub(crate) fn fraction_of(ratio: Ratio) -> Fraction
    ensures num { result.num ≡ ratio.sum.units }
    ensures den { result.den ≡ max ratio.rows 1 }
{
    Fraction {
        num: ratio.sum.units,
        den: ratio.rows.max(1),
    }
}

// The bound of an average that an answer tells; another answer tells none.
pub(crate) fn average_of(answer: &Answer) -> AverageBound
    ensures { fractions_of result ≡ average_of answer.now }
{
    match answer {
        Answer::Value(_) => AverageBound {
            null: Nullity::Always,
            lo: Fraction { num: 0, den: 1 },
            hi: Fraction { num: 0, den: 1 },
        },
        Answer::Average(shown) => AverageBound {
            null: shown.null,
            lo: fraction_of(shown.low),
            hi: fraction_of(shown.high),
        },
    }
}

// The bounds of the parts.
fn averages_of(alloc: Global, answers: &[Answer]) -> Result<Vec<AverageBound>, AllocError>
    ensures { IfOk result (λ bounds. map fractions_of bounds.items ≡ map average_of answers.now) }
{
    let mut bounds = Vec::with_capacity(alloc, answers.len())?;
    for answer in answers {
        bounds.push(average_of(answer))?;
    }
    Ok(bounds)
}

// A fraction with so many decimals.
fn ratio_of(decimals: u8, fraction: Fraction) -> Ratio
    ensures { result ≡ ratio_of decimals (record { num = fraction.num; den = fraction.den }) }
{
    Ratio {
        sum: Number {
            decimals,
            units: fraction.num,
        },
        rows: fraction.den,
    }
}

// The average that a line shows.
pub(crate) fn shown_average(decimals: u8, bound: &AverageBound) -> ShownAverage
    ensures { result ≡ shown_average decimals (fractions_of bound.now) }
{
    ShownAverage {
        null: bound.null,
        low: ratio_of(decimals, bound.lo),
        high: ratio_of(decimals, bound.hi),
    }
}

// The answer over all parts.
pub(crate) fn average_over(alloc: Global, answers: &[Answer]) -> Result<Answer, CombineFault>
    ensures combined { IfOk result (λ answer. answer ≡ average_over answers.now) }
    ensures fit { OnOk result (FitsAverage (combined_average (map average_of answers.now))) }
    ensures wide { result ≡ Err CombineFault.TooWide → ¬ FitsAverage (combined_average (map average_of answers.now)) }
    ensures alike { result ≢ Err CombineFault.OtherForm }
{
    let bounds = averages_of(alloc, answers)?;
    match combine_averages(&bounds) {
        Some(bound) => {
            let decimals = decimals_in(shared_form(answers));
            Ok(Answer::Average(shown_average(decimals, &bound)))
        }
        None => Err(CombineFault::TooWide),
    }
}

// What the lines behind tell over all parts, of which each has told an exact average.
pub(crate) fn exact_over(alloc: Global, answers: &[Answer]) -> Result<Answer, AllocError>
    ensures { IfOk result (λ answer. answer ≡ exact_over answers.now) }
{
    let bounds = averages_of(alloc, answers)?;
    let decimals = decimals_in(shared_form(answers));
    let hull = hull_of_averages(&bounds);
    Ok(Answer::Average(shown_average(decimals, &hull)))
}
