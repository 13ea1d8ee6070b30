//! Values beside a column.

ghost use Rattle.std.specs.Prelude.{◌≡◌, []};
ghost use Rattle.std.specs.Cmp.Lexicographic.{slice_cmp};
ghost use Rattle.std.specs.Ordering.{is_lt, nat_cmp};
ghost use Rattle.daq_table.specs.CellTexts.{date_value};
ghost use Rattle.sql_text.specs.Tree.{operand_of, Numeric};
ghost use Rattle.sql_typing.specs.Faults.{fault_if, value_fault};
ghost use Rattle.sql_typing.specs.Kinds.{is_date, is_number, place_of_operand};
ghost use Rattle.sql_typing.specs.Parts.{Types};
ghost use Rattle.sql_typing.specs.Typing.{is_name, names_below, spot_of, spot_of_text};
ghost use Rattle.sql_typing.specs.declared.fault.TypeFault.TheVariants.{KindsDiffer};
ghost use Rattle.sql_typing.specs.declared.spot.Spot.TheVariants.{At};
ghost use Rattle.std.specs.Prelude.{not};

use crate::fault::TypeFault;
use crate::scale::{MOST_SCALE, raised_number, scale_of_kind};
use crate::spot::Spot;
use daq_table::{Kind, Text, cell_value};
use sql_text::{Num, Value};

/// Whether a column of the kind holds numbers.
pub(crate) fn is_number(kind: Kind) -> bool
    ensures { result ≡ is_number kind }
{
    match kind {
        Kind::Int | Kind::Dec(_) => true,
        Kind::Date | Kind::Text => false,
    }
}

/// The place of a value in the text.
pub(crate) fn place_of_value(value: &Value) -> usize
    ensures { result ≡ place_of_operand (operand_of value.now) }
{
    match value {
        Value::Number(number) => number.at,
        Value::Str { at, .. } => *at,
        Value::Day { at, .. } => *at,
    }
}

fn spot_of_number(kind: Kind, number: Num) -> Result<Spot, TypeFault>
    ensures { Types (λ s. s) result (value_fault kind (Numeric number)) (spot_of kind [] (Numeric number)) }
{
    let at = number.at;
    if !is_number(kind) {
        return Err(TypeFault::KindsDiffer { at });
    }
    let scale = scale_of_kind(kind);
    if number.scale as u32 > scale || scale > MOST_SCALE {
        return Err(TypeFault::ScaleTooFine { at });
    }
    Ok(Spot::At(raised_number(number.units as i128, scale - number.scale as u32)))
}

fn spot_of_date(at: usize, text: &[u8]) -> Result<Spot, TypeFault>
    ensures { Types (λ s. s) result (fault_if (not (is_date text.now)) (KindsDiffer at)) (At (date_value text.now)) }
{
    match cell_value(&Kind::Date, text) {
        Some(day) => Ok(Spot::At(day as i128)),
        None => Err(TypeFault::KindsDiffer { at }),
    }
}

fn comes_before(name: &Text, text: &[u8]) -> bool
    ensures { result ≡ is_lt (slice_cmp nat_cmp name.now text.now) }
{
    name.as_slice().cmp(text).is_lt()
}

/// How many names come before the text.
fn names_below(names: &[Text], text: &[u8]) -> usize
    ensures { result ≡ names_below names.now text.now }
{
    names.iter().filter(|name| comes_before(name, text)).count()
}

fn is_name(names: &[Text], text: &[u8]) -> bool
    ensures { result ≡ is_name names.now text.now }
{
    names.iter().any(|name| name.as_slice() == text)
}

fn spot_of_text(names: &[Text], text: &[u8]) -> Spot
    ensures { result ≡ spot_of_text names.now text.now }
{
    let below = names_below(names, text);
    if is_name(names, text) {
        Spot::At(below as i128)
    } else {
        Spot::Before(below as u64)
    }
}

/// Where a value stands among the numbers of a column of this kind and dictionary, or why it does not suit it.
pub(crate) fn spot_of(kind: Kind, names: &[Text], value: &Value) -> Result<Spot, TypeFault>
    ensures { Types (λ s. s) result (value_fault kind (operand_of value.now)) (spot_of kind names.now (operand_of value.now)) }
{
    match value {
        Value::Number(number) => spot_of_number(kind, *number),
        Value::Str { at, text } => match kind {
            Kind::Text => Ok(spot_of_text(names, text.as_slice())),
            Kind::Date => spot_of_date(*at, text.as_slice()),
            Kind::Int | Kind::Dec(_) => Err(TypeFault::KindsDiffer { at: *at }),
        },
        Value::Day { at, text } => match kind {
            Kind::Date => spot_of_date(*at, text.as_slice()),
            Kind::Int | Kind::Dec(_) | Kind::Text => Err(TypeFault::KindsDiffer { at: *at }),
        },
    }
}
