//! In which form the values of a column, or the ends of the answers of an item, are written.

ghost use Rattle.std.specs.Prelude.{◌≡◌, ◌++◌, IfErr, IfOk, OnOk, map};
ghost use Rattle.part_groups.specs.Cells.{slices};
ghost use Rattle.part_groups.specs.Faults.{IsFormFault, IsOtherForm, other_form};
ghost use Rattle.part_groups.specs.Forms.{AreAlike, AreSharedForms, are_alike, fits, is_same_form, shared_form};
ghost use Rattle.part_groups.specs.Forms.{form_at, told_at, told_by_answer, told_by_item, told_by_null, told_by_span, told_over};

use crate::fault::CombineFault;
use crate::group::Group;
use crate::text_cells::has_text;
use query_model::Nullity;
use report_text::{Answer, Form, ShownEnds, ShownSpan};
use std::alloc::{AllocError, Global};

/// How the ends of a range or of an answer are written.
#[derive(Clone, Copy, Debug, PartialEq, Eq)]
pub enum EndsForm {
    /// As numbers or dates of a form.
    Values(Form),
    /// As texts.
    Texts,
}

/// What has a form in a line: its columns, or its items.
#[derive(Clone, Copy)]
pub(crate) enum Places {
    Columns,
    Items,
}

/// The form of what is shown of a column; null has none.
pub fn told_by_span(span: &ShownSpan) -> Option<EndsForm>
    ensures { result ≡ told_by_span span.now }
{
    match &span.ends {
        Some(ShownEnds::Values(ends)) => Some(EndsForm::Values(ends.form)),
        Some(ShownEnds::Texts(_)) | Some(ShownEnds::NoText) => Some(EndsForm::Texts),
        None => None,
    }
}

fn told_by_null(null: Nullity, form: Form) -> Option<EndsForm>
    ensures { result ≡ told_by_null null form }
{
    match null {
        Nullity::Never | Nullity::Possibly => Some(EndsForm::Values(form)),
        Nullity::Always => None,
    }
}

// The form of an answer; NULL has none, and the sums of an average are numbers.
fn told_by_answer(answer: &Answer) -> Option<EndsForm>
    ensures { result ≡ told_by_answer answer.now }
{
    match answer {
        Answer::Value(shown) => told_by_null(shown.bound.null, shown.form),
        Answer::Average(shown) => {
            told_by_null(shown.null, Form::Decimals(shown.low.sum.decimals))
        }
    }
}

// The form of what a group tells of an item.
fn told_by_item(item: usize, group: &Group) -> Option<EndsForm>
    ensures { result ≡ told_by_item item group.now }
{
    if has_text(item, group.texts.as_slice()) {
        Some(EndsForm::Texts)
    } else {
        told_by_answer(group.answers.as_slice().get(item)?)
    }
}

// The form that a line tells of a column or an item.
fn told_at(places: Places, number: usize, group: &Group) -> Option<EndsForm>
    ensures { result ≡ told_at places number group.now }
{
    match places {
        Places::Columns => told_by_span(group.line.keys.as_slice().get(number)?),
        Places::Items => told_by_item(number, group),
    }
}

// Appends what the lines of a part tell.
fn tell(
    places: Places,
    number: usize,
    groups: &[Group],
    forms: &mut Vec<Option<EndsForm>>,
) -> Result<(), AllocError>
    ensures { OnOk result (forms.new.items ≡ forms.old.items ++ map (told_at places number) groups.now) }
{
    for group in groups {
        forms.push(told_at(places, number, group))?;
    }
    Ok(())
}

// What the lines of all parts tell.
fn told_over(
    alloc: Global,
    places: Places,
    number: usize,
    parts: &[&[Group]],
) -> Result<Vec<Option<EndsForm>>, AllocError>
    ensures { IfOk result (λ forms. forms.items ≡ told_over places number (slices parts.now)) }
{
    let mut forms = Vec::new(alloc);
    for groups in parts {
        tell(places, number, groups, &mut forms)?;
    }
    Ok(forms)
}

// The first form that is told.
fn shared_form(forms: &[Option<EndsForm>]) -> Option<EndsForm>
    ensures { result ≡ shared_form forms.now }
{
    for told in forms {
        if let Some(form) = told {
            return Some(*form);
        }
    }
    None
}

fn is_same_form(one: EndsForm, other: EndsForm) -> bool
    ensures { result ≡ is_same_form one other }
{
    match (one, other) {
        (EndsForm::Values(Form::Decimals(decimals)), EndsForm::Values(Form::Decimals(others))) => {
            decimals == others
        }
        (EndsForm::Values(Form::Date), EndsForm::Values(Form::Date)) => true,
        (EndsForm::Texts, EndsForm::Texts) => true,
        _ => false,
    }
}

// Whether the form that is told, if there is one, is the shared one.
fn fits(shared: Option<EndsForm>, told: Option<EndsForm>) -> bool
    ensures { result ≡ fits shared told }
{
    match (told, shared) {
        (None, _) => true,
        (Some(_), None) => false,
        (Some(one), Some(other)) => is_same_form(one, other),
    }
}

/// Whether all forms that are told are one.
pub fn are_alike(forms: &[Option<EndsForm>]) -> bool
    ensures { result ≡ are_alike forms.now }
{
    let shared = shared_form(forms);
    for told in forms {
        if !fits(shared, *told) {
            return false;
        }
    }
    true
}

fn other_form(places: Places, number: usize) -> CombineFault
    ensures { result ≡ other_form places number }
{
    match places {
        Places::Columns => CombineFault::OtherColumn(number),
        Places::Items => CombineFault::OtherItem(number),
    }
}

// The one form of a column or an item over all parts.
fn form_over(
    alloc: Global,
    places: Places,
    number: usize,
    parts: &[&[Group]],
) -> Result<Option<EndsForm>, CombineFault>
    ensures form { IfOk result (λ form. form ≡ shared_form (told_over places number (slices parts.now))) }
    ensures alike { IfOk result (λ form. AreAlike places number (slices parts.now)) }
    ensures fault { IfErr result (λ why. IsFormFault why places number (slices parts.now)) }
{
    let forms = told_over(alloc, places, number, parts)?;
    if !are_alike(&forms) {
        return Err(other_form(places, number));
    }
    Ok(shared_form(&forms))
}

// The forms of so many columns or items over all parts.
pub(crate) fn forms_over(
    alloc: Global,
    places: Places,
    count: usize,
    parts: &[&[Group]],
) -> Result<Vec<Option<EndsForm>>, CombineFault>
    ensures forms { IfOk result (λ forms. AreSharedForms places count (slices parts.now) forms.items) }
    ensures fault { IfErr result (λ why. IsOtherForm why places count (slices parts.now)) }
{
    let mut forms = Vec::with_capacity(alloc, count)?;
    for number in 0..count {
        forms.push(form_over(alloc, places, number, parts)?)?;
    }
    Ok(forms)
}

// The form of a column or an item, if there is one.
pub(crate) fn form_at(forms: &[Option<EndsForm>], number: usize) -> Option<EndsForm>
    ensures { result ≡ form_at number forms.now }
{
    *forms.get(number)?
}
