//! The answer of a number of rows, a sum or an extreme over all parts.

ghost use Rattle.std.specs.Prelude.{◌≡◌, ◌≢◌, Err, IfOk, OnOk, map};
ghost use Rattle.report_text.specs.Answers.{CanBeWritten};
ghost use Rattle.report_parts.specs.Combined.{FitsValues, bound_of, value_over};

use crate::fault::CombineFault;
use crate::forms::shared_form;
use query_model::{Bound, ItemKind, Nullity};
use report_text::{Answer, ShownBound, has_texts};
use shard_bounds::combine;
use std::alloc::{AllocError, Global};

// The bound that an answer tells; an average tells none.
fn bound_of(answer: &Answer) -> Bound
    ensures { result ≡ bound_of answer.now }
{
    match answer {
        Answer::Value(shown) => shown.bound,
        Answer::Average(_) => Bound {
            null: Nullity::Always,
            lo: 0,
            hi: 0,
        },
    }
}

// The bounds of the parts.
fn bounds_of(alloc: Global, answers: &[Answer]) -> Result<Vec<Bound>, AllocError>
    ensures { IfOk result (λ bounds. bounds.items ≡ map bound_of answers.now) }
{
    let mut bounds = Vec::with_capacity(alloc, answers.len())?;
    for answer in answers {
        bounds.push(bound_of(answer))?;
    }
    Ok(bounds)
}

// The answer over all parts.
pub(crate) fn combine_values(
    alloc: Global,
    kind: ItemKind,
    answers: &[Answer],
) -> Result<Answer, CombineFault>
    ensures written { IfOk result CanBeWritten }
    ensures combined { IfOk result (λ answer. answer ≡ value_over kind answers.now) }
    ensures fit { OnOk result (FitsValues kind answers.now) }
    ensures wide { result ≡ Err CombineFault.TooWide → ¬ FitsValues kind answers.now }
    ensures alike { result ≢ Err CombineFault.OtherForm }
{
    let bounds = bounds_of(alloc, answers)?;
    let Some(bound) = combine(kind, &bounds) else {
        return Err(CombineFault::TooWide);
    };
    let form = shared_form(answers);
    if !has_texts(form, &bound) {
        return Err(CombineFault::TooWide);
    }
    Ok(Answer::Value(ShownBound { form, bound }))
}
