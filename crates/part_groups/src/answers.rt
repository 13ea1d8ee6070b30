//! What a cell says of its items, as answers that a report shows.

ghost use Rattle.std.specs.Prelude.{◌≡◌, IfErr, IfOk, map, true};
ghost use Rattle.std.specs.List.{All};
ghost use Rattle.query_model.specs.Bounds.{fractions_of};
ghost use Rattle.report_text.specs.Answers.{CanBeWritten};
ghost use Rattle.shard_groups.specs.Groups.{said_of};
ghost use Rattle.part_groups.specs.Faults.{IsTextless};
ghost use Rattle.part_groups.specs.Shown.{answer_in, answers_from, average_in, decimals_in, form_for, number_form, ratio_in};

use crate::fault::CombineFault;
use crate::forms::{EndsForm, form_at};
use interval_calc::Fraction;
use query_model::{AverageBound, Nullity};
use report_text::{Answer, Form, Number, Ratio, ShownAverage, ShownBound, has_texts};
use shard_groups::ItemBound;
use std::alloc::Global;

fn number_form(form: Option<EndsForm>) -> Form
    ensures { result ≡ number_form form }
{
    match form {
        Some(EndsForm::Values(form)) => form,
        Some(EndsForm::Texts) | None => Form::Decimals(0),
    }
}

// The form of an answer, which is one of numbers without decimals where there is none.
fn form_for(null: Nullity, form: Option<EndsForm>) -> Form
    ensures { result ≡ form_for null form }
{
    match null {
        Nullity::Never | Nullity::Possibly => number_form(form),
        Nullity::Always => Form::Decimals(0),
    }
}

fn decimals_in(form: Form) -> u8
    ensures { result ≡ decimals_in form }
{
    match form {
        Form::Decimals(decimals) => decimals,
        Form::Date => 0,
    }
}

// A fraction with so many decimals.
fn ratio_in(decimals: u8, fraction: Fraction) -> Ratio
    ensures { result ≡ ratio_in decimals (record { num = fraction.num; den = fraction.den }) }
{
    Ratio {
        sum: Number {
            decimals,
            units: fraction.num,
        },
        rows: fraction.den,
    }
}

fn average_in(decimals: u8, bound: &AverageBound) -> ShownAverage
    ensures { result ≡ average_in decimals (fractions_of bound.now) }
{
    ShownAverage {
        null: bound.null,
        low: ratio_in(decimals, bound.lo),
        high: ratio_in(decimals, bound.hi),
    }
}

// The answer in a form.
fn answer_in(form: Option<EndsForm>, item: &ItemBound) -> Answer
    ensures { result ≡ answer_in form (said_of item.now) }
{
    match item {
        ItemBound::Value(bound) => Answer::Value(ShownBound {
            form: form_for(bound.null, form),
            bound: *bound,
        }),
        ItemBound::Average(bound) => {
            let decimals = decimals_in(form_for(bound.null, form));
            Answer::Average(average_in(decimals, bound))
        }
    }
}

// The most decimals of a number.
const MOST_DECIMALS: u8 = 18;

// Whether its ends have texts.
fn can_be_written(answer: &Answer) -> bool
    ensures yes { CanBeWritten answer.now → result ≡ true }
    ensures only { result ≡ true → CanBeWritten answer.now }
{
    match answer {
        Answer::Value(shown) => has_texts(shown.form, &shown.bound),
        Answer::Average(shown) => {
            shown.low.sum.decimals <= MOST_DECIMALS && shown.high.sum.decimals <= MOST_DECIMALS
        }
    }
}

// The answers of all items, each in its form.
pub(crate) fn shown_answers(
    alloc: Global,
    forms: &[Option<EndsForm>],
    items: &[ItemBound],
) -> Result<Vec<Answer>, CombineFault>
    ensures answers { IfOk result (λ answers. answers.items ≡ answers_from 0 forms.now (map said_of items.now)) }
    ensures written { IfOk result (λ answers. All CanBeWritten answers.items) }
    ensures fault { IfErr result (λ why. IsTextless why (answers_from 0 forms.now (map said_of items.now))) }
{
    let mut answers = Vec::with_capacity(alloc, items.len())?;
    for (number, item) in items.iter().enumerate() {
        let answer = answer_in(form_at(forms, number), item);
        if !can_be_written(&answer) {
            return Err(CombineFault::TooWide(number));
        }
        answers.push(answer)?;
    }
    Ok(answers)
}
