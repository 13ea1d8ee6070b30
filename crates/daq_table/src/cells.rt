//! The numbers that the cells of a text stand for.

ghost use Rattle.std.specs.Prelude.{◌≡◌, ◌≢◌, ◌+◌, ◌*◌, ◌<◌};
ghost use Rattle.std.specs.Prelude.{◌^◌, take, drop, slice_index, FitsSigned};
ghost use Rattle.std.specs.Int.{w64};
ghost use Rattle.std.specs.List.{list_all};
ghost use Rattle.std.specs.Option.{SomeIff};
ghost use Rattle.std.specs.Str.Parse.{AllDigits, digits_value_after, without_leading_sign};
ghost use Rattle.daq_table.specs.CellTexts.{IsIntCell, int_value, IsDecCell, dec_value, IsCellText, cell_number};
ghost use Rattle.daq_table.specs.CellTexts.{with_sign, is_zero_digit, HasUnits, IsDecimal, signed_units, units};
ghost use Rattle.daq_table.specs.declared.head.Kind.TheVariants.{Text};

use crate::dates::date_cell;
use crate::head::Kind;
use crate::parts::around_first;
use std::str::from_utf8;

/// The number of a cell of whole numbers: an optional sign, then one digit or more. None where the cell has
/// another form, or its number is not one of 64 bits.
pub fn int_cell(bytes: &[u8]) -> Option<i64>
    ensures { SomeIff result (IsIntCell bytes.now) (int_value bytes.now) }
{
    match from_utf8(bytes) {
        Ok(text) => match text.parse::<i64>() {
            Ok(value) => Some(value),
            Err(_) => None,
        },
        Err(_) => None,
    }
}

// The number with one digit more.
fn with_digit(number: u64, digit: u8) -> Option<u64>
    ensures { SomeIff result (number * 10 + digit < 2 ^ 64) (number * 10 + digit) }
{
    match number.checked_mul(10) {
        Some(shifted) => shifted.checked_add(digit as u64),
        None => None,
    }
}

// The number that the bytes write as digits behind those of `start`. None where one is no digit, or the number
// is not one of 64 bits.
pub(crate) fn read_digits(start: u64, bytes: &[u8]) -> Option<u64>
    ensures { SomeIff result
        (AllDigits 10 bytes.now × (digits_value_after 10 start bytes.now < 2 ^ 64))
        (digits_value_after 10 start bytes.now) }
{
    let mut number = start;
    for byte in bytes {
        if !byte.is_ascii_digit() {
            return None;
        }
        match with_digit(number, *byte - b'0') {
            Some(longer) => number = longer,
            None => return None,
        }
    }
    Some(number)
}

// The first byte, and 0 where there is none.
fn first_byte(bytes: &[u8]) -> u8
    ensures { result ≡ slice_index bytes.now 0 }
{
    if bytes.is_empty() { 0 } else { bytes[0] }
}

// The bytes after at most one sign.
fn without_sign(bytes: &[u8]) -> &[u8]
    ensures { result.now ≡ without_leading_sign bytes.now }
{
    let first = first_byte(bytes);
    if first == b'-' || first == b'+' {
        &bytes[1..]
    } else {
        bytes
    }
}

// Whether each byte is the digit 0.
fn only_zeros(bytes: &[u8]) -> bool
    ensures { result ≡ list_all is_zero_digit bytes.now }
{
    bytes.iter().all(|byte| *byte == b'0')
}

// The bytes before that place, and those from it on; all before it where there are fewer.
fn split_at_most(bytes: &[u8], place: u8) -> (&[u8], &[u8])
    ensures front { result.0.now ≡ take place bytes.now }
    ensures back { result.1.now ≡ drop place bytes.now }
{
    let within = (place as usize).min(bytes.len());
    (&bytes[..within], &bytes[within..])
}

// The number that the whole part and just so many digits of the fraction write.
fn read_units(scale: u8, whole: &[u8], fraction: &[u8]) -> Option<u64>
    ensures { SomeIff result (HasUnits scale whole.now fraction.now) (units scale whole.now fraction.now) }
{
    let zeros = [b'0'; 255];
    let missing = &zeros[..(scale as usize).saturating_sub(fraction.len())];
    let (kept, _) = split_at_most(fraction, scale);
    let digits = read_digits(0, whole)?;
    let digits = read_digits(digits, kept)?;
    read_digits(digits, missing)
}

// The magnitude with its sign. None where it is not a number of 64 bits.
fn signed(magnitude: u64, minus: bool) -> Option<i64>
    ensures { SomeIff result (FitsSigned w64 (with_sign minus magnitude)) (with_sign minus magnitude) }
{
    let magnitude = magnitude as i128;
    i64::try_from(if minus { -magnitude } else { magnitude }).ok()
}

// The decimal with these parts, in units of its last place.
fn decimal(scale: u8, minus: bool, whole: &[u8], fraction: &[u8]) -> Option<i64>
    ensures { SomeIff result (IsDecimal scale minus whole.now fraction.now) (signed_units scale minus whole.now fraction.now) }
{
    if whole.len() + fraction.len() == 0 {
        return None;
    }
    let (_, rest) = split_at_most(fraction, scale);
    if !only_zeros(rest) {
        return None;
    }
    match read_units(scale, whole, fraction) {
        Some(units) => signed(units, minus),
        None => None,
    }
}

// The number of a cell of that many decimals, in units of the last.
fn dec_cell(scale: u8, bytes: &[u8]) -> Option<i64>
    ensures { SomeIff result (IsDecCell scale bytes.now) (dec_value scale bytes.now) }
{
    let minus = first_byte(bytes) == b'-';
    let (whole, fraction) = around_first(without_sign(bytes), b'.');
    decimal(scale, minus, whole, fraction)
}

/// The number of a cell of the kind. None where the bytes have not the kind's form.
pub fn cell_value(kind: &Kind, bytes: &[u8]) -> Option<i64>
    requires { kind.now ≢ Text }
    ensures { SomeIff result (IsCellText kind.now bytes.now) (cell_number kind.now bytes.now) }
{
    match kind {
        Kind::Int => int_cell(bytes),
        Kind::Dec(scale) => dec_cell(*scale, bytes),
        Kind::Date => date_cell(bytes),
        Kind::Text => unreachable!(),
    }
}
