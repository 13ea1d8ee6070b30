//! In which form the ends of the parts' answers are written.

ghost use Rattle.std.specs.Prelude.{◌≡◌};
ghost use Rattle.std.specs.List.{list_all};
ghost use Rattle.report_parts.specs.Combined.{are_alike, are_all_null, decimals_in, form_of, has_form, is_few};
ghost use Rattle.report_parts.specs.Combined.{is_same_form, may_answer, shared_form};

use query_model::Nullity;
use report_text::{Answer, Form};

// Whether there may be an answer.
fn may_answer(answer: &Answer) -> bool
    ensures { result ≡ may_answer answer.now }
{
    let null = match answer {
        Answer::Value(shown) => shown.bound.null,
        Answer::Average(shown) => shown.null,
    };
    match null {
        Nullity::Never | Nullity::Possibly => true,
        Nullity::Always => false,
    }
}

// Whether none may have an answer.
pub(crate) fn are_all_null(answers: &[Answer]) -> bool
    ensures { result ≡ are_all_null answers.now }
{
    for answer in answers {
        if may_answer(answer) {
            return false;
        }
    }
    true
}

// The form of its ends; the sums of an average are numbers.
fn form_of(answer: &Answer) -> Form
    ensures { result ≡ form_of answer.now }
{
    match answer {
        Answer::Value(shown) => shown.form,
        Answer::Average(shown) => Form::Decimals(shown.low.sum.decimals),
    }
}

// The form of the first part that may have an answer.
pub(crate) fn shared_form(answers: &[Answer]) -> Form
    ensures { result ≡ shared_form answers.now }
{
    for answer in answers {
        if may_answer(answer) {
            return form_of(answer);
        }
    }
    Form::Decimals(0)
}

fn is_same_form(one: Form, other: Form) -> bool
    ensures { result ≡ is_same_form one other }
{
    match (one, other) {
        (Form::Decimals(decimals), Form::Decimals(others)) => decimals == others,
        (Form::Date, Form::Date) => true,
        (Form::Decimals(_), Form::Date) | (Form::Date, Form::Decimals(_)) => false,
    }
}

// Whether it has this form, if there may be an answer.
fn has_form(form: Form, answer: &Answer) -> bool
    ensures { result ≡ has_form form answer.now }
{
    !may_answer(answer) || is_same_form(form_of(answer), form)
}

// Whether all that may be answers have this form.
fn all_have(form: Form, answers: &[Answer]) -> bool
    ensures { result ≡ list_all (has_form form) answers.now }
{
    for answer in answers {
        if !has_form(form, answer) {
            return false;
        }
    }
    true
}

// The most decimals of a number.
const MOST_DECIMALS: u8 = 18;

// Whether numbers have no more decimals than a column may have.
fn is_few(form: Form) -> bool
    ensures { result ≡ is_few form }
{
    match form {
        Form::Decimals(decimals) => decimals <= MOST_DECIMALS,
        Form::Date => true,
    }
}

// Whether all that may be answers have one form: dates, or numbers of equally many decimals, and of no more than a column may have.
pub(crate) fn are_alike(answers: &[Answer]) -> bool
    ensures { result ≡ are_alike answers.now }
{
    let form = shared_form(answers);
    is_few(form) && all_have(form, answers)
}

// The decimals of the sums of averages.
pub(crate) fn decimals_in(form: Form) -> u8
    ensures { result ≡ decimals_in form }
{
    match form {
        Form::Decimals(decimals) => decimals,
        Form::Date => 0,
    }
}
