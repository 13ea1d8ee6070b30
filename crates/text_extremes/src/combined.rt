//! What is said over all parts of the least or the greatest text.

ghost use Rattle.std.specs.Prelude.{◌≡◌, IfOk};
ghost use Rattle.std.specs.Option.{option_map};
ghost use Rattle.text_extremes.specs.Answers.{answer_by, bound_of, bound_told, said_over};
ghost use Rattle.text_extremes.specs.Bounds.{bound_with, far_by, far_end, joined, near_end};
ghost use Rattle.text_extremes.specs.Texts.{comes_first, first_of, last_of, of_both};

use crate::copies::copied;
use crate::extreme::Extreme;
use report_text::{TextAnswer, TextEnds};
use std::alloc::{AllocError, Global};

// A bound whose texts stand elsewhere.
#[derive(Clone, Copy)]
struct Loan<'a> {
    certain: bool,
    low: &'a [u8],
    high: &'a [u8],
}

// Whether the one stands no farther than the other from the end that is asked for.
fn comes_first(extreme: Extreme, one: &[u8], other: &[u8]) -> bool
    ensures { result ≡ comes_first extreme one.now other.now }
{
    match extreme {
        Extreme::Least => one.cmp(other).is_le(),
        Extreme::Greatest => other.cmp(one).is_le(),
    }
}

fn first_of<'a>(extreme: Extreme, one: &'a [u8], other: &'a [u8]) -> &'a [u8]
    ensures { result.now ≡ first_of extreme one.now other.now }
{
    if comes_first(extreme, one, other) {
        one
    } else {
        other
    }
}

fn last_of<'a>(extreme: Extreme, one: &'a [u8], other: &'a [u8]) -> &'a [u8]
    ensures { result.now ≡ last_of extreme one.now other.now }
{
    if comes_first(extreme, one, other) {
        other
    } else {
        one
    }
}

fn near_end(extreme: Extreme, loan: Loan<'_>) -> &[u8]
    ensures { result.now ≡ near_end extreme (bound_of loan.entry) }
{
    match extreme {
        Extreme::Least => loan.low,
        Extreme::Greatest => loan.high,
    }
}

fn far_end(extreme: Extreme, loan: Loan<'_>) -> &[u8]
    ensures { result.now ≡ far_end extreme (bound_of loan.entry) }
{
    match extreme {
        Extreme::Least => loan.high,
        Extreme::Greatest => loan.low,
    }
}

// The far end of two bounds.
fn far_of<'a>(extreme: Extreme, one: Loan<'a>, other: Loan<'a>) -> &'a [u8]
    ensures { result.now ≡ far_by extreme one.entry.certain other.entry.certain (far_end extreme (bound_of one.entry))
        (far_end extreme (bound_of other.entry)) }
{
    let (end, another) = (far_end(extreme, one), far_end(extreme, other));
    match (one.certain, other.certain) {
        (true, true) => first_of(extreme, end, another),
        (true, false) => end,
        (false, true) => another,
        (false, false) => last_of(extreme, end, another),
    }
}

fn bound_with<'a>(extreme: Extreme, certain: bool, near: &'a [u8], far: &'a [u8]) -> Loan<'a>
    ensures { bound_of result ≡ bound_with extreme certain near.now far.now }
{
    match extreme {
        Extreme::Least => Loan {
            certain,
            low: near,
            high: far,
        },
        Extreme::Greatest => Loan {
            certain,
            low: far,
            high: near,
        },
    }
}

fn joined<'a>(extreme: Extreme, one: Loan<'a>, other: Loan<'a>) -> Loan<'a>
    ensures { bound_of result ≡ joined extreme (bound_of one.entry) (bound_of other.entry) }
{
    let near = first_of(extreme, near_end(extreme, one), near_end(extreme, other));
    let far = far_of(extreme, one, other);
    bound_with(extreme, one.certain || other.certain, near, far)
}

// Both in one; where one is none, the other.
fn both<'a>(extreme: Extreme, one: Option<Loan<'a>>, other: Option<Loan<'a>>) -> Option<Loan<'a>>
    ensures { option_map bound_of result ≡ of_both (joined extreme) (option_map bound_of one.entry) (option_map bound_of other.entry) }
{
    match (one, other) {
        (None, bound) => bound,
        (Some(bound), None) => Some(bound),
        (Some(bound), Some(another)) => Some(joined(extreme, bound, another)),
    }
}

// The bound that a line tells.
fn told(answer: &Option<TextAnswer>) -> Option<Loan<'_>>
    ensures { option_map bound_of result ≡ bound_told answer.now }
{
    let answer = answer.as_ref()?;
    let ends = answer.ends.as_ref()?;
    Some(Loan {
        certain: !answer.null,
        low: ends.low.as_slice(),
        high: ends.high.as_slice(),
    })
}

// The answer that says a bound.
fn answer_by(alloc: Global, loan: Option<Loan<'_>>) -> Result<Option<TextAnswer>, AllocError>
    ensures { IfOk result (λ answer. answer ≡ answer_by (option_map bound_of loan.entry)) }
{
    match loan {
        Some(loan) => {
            let low = copied(alloc, loan.low)?;
            let high = copied(alloc, loan.high)?;
            Ok(Some(TextAnswer {
                null: !loan.certain,
                ends: Some(TextEnds { low, high }),
            }))
        }
        None => Ok(None),
    }
}

/// What is said over all parts, from what the parts' reports say. None is null: there is no text. Where a part's ends are in order, as its
/// report has them, so are these.
pub fn combine(
    alloc: Global,
    extreme: Extreme,
    answers: &[Option<TextAnswer>],
) -> Result<Option<TextAnswer>, AllocError>
    ensures { IfOk result (λ answer. answer ≡ said_over extreme answers.now) }
{
    let mut whole: Option<Loan<'_>> = None;
    let mut i = answers.len();
    while i > 0 {
        i -= 1;
        whole = both(extreme, told(&answers[i]), whole);
    }
    answer_by(alloc, whole)
}
