//! The forms in which the ends of an answer are written, and the ends in them, read back.

ghost use Rattle.std.specs.Prelude.{◌≡◌, ◌≤◌, ℤ, Some, IfSome, length, true};
ghost use Rattle.daq_table.specs.ValueTexts.{IsDay, text_of_date};
ghost use Rattle.report_text.specs.Forms.{HasTextIn, HasTextsIn, IsIntervalEnd, IsOfNumbers, text_in, text_of_end};
ghost use Rattle.report_text.specs.declared.forms.Form.TheVariants.{Date};
ghost use Rattle.report_text.specs.declared.forms.IntervalEnd.{IntervalEnd};

use crate::dates::{is_day, read_date, written_date};
use crate::numbers::{MOST_DECIMALS, Number, read_number, written};
use daq_table::TextBuf;
use query_model::Bound;

/// How the ends of an answer are written.
#[derive(Clone, Copy, Debug, PartialEq, Eq)]
pub enum Form {
    /// Numbers with so many decimals, in units of the last.
    Decimals(u8),
    /// Dates, by their days from 1 January 1970 on.
    Date,
}

// An end of an interval.
#[derive(Clone, Copy)]
pub(crate) struct IntervalEnd {
    pub(crate) form: Form,
    pub(crate) value: i128,
}

// Whether the value has a text in the form.
fn has_text(form: Form, value: i128) -> bool
    ensures yes { HasTextIn form value → result ≡ true }
    ensures only { result ≡ true → HasTextIn form value }
{
    match form {
        Form::Decimals(decimals) => decimals as usize <= MOST_DECIMALS,
        Form::Date => is_day(value),
    }
}

/// Whether both ends have texts in the form: numbers with as many decimals as a column may have, dates of the years 0000 to 9999.
pub fn has_texts(form: Form, bound: &Bound) -> bool
    ensures yes { HasTextsIn form bound.now → result ≡ true }
    ensures only { result ≡ true → HasTextsIn form bound.now }
{
    has_text(form, bound.lo) && has_text(form, bound.hi)
}

// The text of a value in a form.
pub(crate) fn written_in(form: Form, value: i128) -> TextBuf
    requires { HasTextIn form value }
    ensures text { result ≡ text_in form value }
    ensures short { length result ≤ 100 }
{
    match form {
        Form::Decimals(decimals) => written(Number {
            decimals,
            units: value,
        }),
        Form::Date => written_date(value as i64),
    }
}

// The date whose text this is.
fn read_date_end(text: &[u8]) -> Option<IntervalEnd>
    ensures read { (day : ℤ) → IsDay day → text_of_date day ≡ text.now → result ≡ Some (record { form = Date; value = day }) }
    ensures is_end { IfSome result IsIntervalEnd }
    ensures written { IfSome result (λ end. text_of_end end ≡ text.now) }
{
    match read_date(text) {
        Some(day) => Some(IntervalEnd {
            form: Form::Date,
            value: i128::from(day),
        }),
        None => None,
    }
}

// The end whose text this is, which is a number or a date.
pub(crate) fn read_interval_end(text: &[u8]) -> Option<IntervalEnd>
    ensures read { (end : IntervalEnd) → IsIntervalEnd end → text_of_end end ≡ text.now → result ≡ Some end }
    ensures is_end { IfSome result IsIntervalEnd }
    ensures written { IfSome result (λ end. text_of_end end ≡ text.now) }
{
    match read_number(text) {
        Some(number) => Some(IntervalEnd {
            form: Form::Decimals(number.decimals),
            value: number.units,
        }),
        None => read_date_end(text),
    }
}

// Whether two forms are the same.
pub(crate) fn are_same_forms(one: Form, other: Form) -> bool
    ensures yes { one ≡ other → result ≡ true }
    ensures only { result ≡ true → one ≡ other }
{
    match (one, other) {
        (Form::Decimals(decimals), Form::Decimals(others)) => decimals == others,
        (Form::Date, Form::Date) => true,
        (Form::Decimals(_), Form::Date) | (Form::Date, Form::Decimals(_)) => false,
    }
}

// Whether it is that of numbers.
pub(crate) fn is_of_numbers(form: Form) -> bool
    ensures yes { IsOfNumbers form → result ≡ true }
    ensures only { result ≡ true → IsOfNumbers form }
{
    match form {
        Form::Decimals(_) => true,
        Form::Date => false,
    }
}
