//! The texts of numbers with decimals, read back.

ghost use Rattle.std.specs.Prelude.{◌≡◌, ◌<◌, ◌≤◌, ℤ, Some, FitsSigned, IfSome, decimal, length, unsigned_abs};
ghost use Rattle.std.specs.Int.{w128};
ghost use Rattle.std.specs.Str.Parse.{starts_with_minus};
ghost use Rattle.report_text.specs.Numbers.{CanBeRead, CanBeReadPlain, HasDigits, is_negative, number_text, plain_text, unsigned_part};
ghost use Rattle.report_text.specs.declared.numbers.Magnitude.{Magnitude};
ghost use Rattle.report_text.specs.declared.numbers.Number.{Number};

use crate::digits::{around_first, read_decimal, read_digits};
use daq_table::{TextBuf, written_number};

// The most decimals of a number.
pub(crate) const MOST_DECIMALS: usize = 18;

/// A number of so many units of its last decimal.
#[derive(Clone, Copy, Debug, PartialEq, Eq)]
pub struct Number {
    pub decimals: u8,
    pub units: i128,
}

// A number without its sign, of so many units of its last decimal.
#[derive(Clone, Copy)]
struct Magnitude {
    decimals: u8,
    units: u128,
}

// Whether the text begins with a minus.
fn starts_with_minus(text: &[u8]) -> bool
    ensures { result ≡ starts_with_minus text.now }
{
    !text.is_empty() && text[0] == b'-'
}

// The text behind its minus, if it has one.
fn unsigned_part(text: &[u8]) -> &[u8]
    ensures { result.now ≡ unsigned_part text.now }
{
    if starts_with_minus(text) {
        &text[1..]
    } else {
        text
    }
}

// The number of that magnitude with its sign, which 0 has not. None where it is not a number of 128 bits.
fn signed(magnitude: u128, minus: bool) -> Option<i128>
    ensures read { (z : ℤ) → FitsSigned w128 z → unsigned_abs z ≡ magnitude → is_negative z ≡ minus → result ≡ Some z }
    ensures written { IfSome result (λ z. (unsigned_abs z ≡ magnitude) × (is_negative z ≡ minus)) }
{
    if !minus {
        return i128::try_from(magnitude).ok();
    }
    if magnitude == 0 {
        return None;
    }
    match i128::try_from(magnitude - 1) {
        Ok(below) => Some(-1 - below),
        Err(_) => None,
    }
}

// The magnitude with these texts before its point and behind it.
fn read_parted(whole: &[u8], fraction: &[u8]) -> Option<Magnitude>
    requires { 0 < length fraction.now }
    ensures read { (magnitude : Magnitude) → CanBeReadPlain magnitude → HasDigits magnitude whole.now fraction.now
        → result ≡ Some magnitude }
    ensures written { IfSome result (λ magnitude. CanBeReadPlain magnitude × HasDigits magnitude whole.now fraction.now) }
{
    if fraction.len() > MOST_DECIMALS {
        return None;
    }
    let digits = read_decimal(whole)?;
    let units = read_digits(digits, fraction)?;
    Some(Magnitude {
        decimals: fraction.len() as u8,
        units,
    })
}

// The magnitude whose text this is.
fn read_magnitude(text: &[u8]) -> Option<Magnitude>
    ensures read { (magnitude : Magnitude) → CanBeReadPlain magnitude → plain_text magnitude ≡ text.now → result ≡ Some magnitude }
    ensures written { IfSome result (λ magnitude. CanBeReadPlain magnitude × (plain_text magnitude ≡ text.now)) }
{
    let (whole, fraction) = around_first(text, b'.');
    if fraction.is_empty() {
        let units = read_decimal(text)?;
        Some(Magnitude { decimals: 0, units })
    } else {
        read_parted(whole, fraction)
    }
}

/// The text of a number, as a report shows it.
pub fn written(number: Number) -> TextBuf
    requires { number.decimals ≤ 18 }
    ensures text { result ≡ number_text number }
    ensures short { length result ≤ 100 }
{
    written_number(number.units, number.decimals)
}

/// The number whose text this is: it is read back as it was written, and what is read is written as it stood.
pub fn read_number(text: &[u8]) -> Option<Number>
    ensures read { (number : Number) → CanBeRead number → number_text number ≡ text.now → result ≡ Some number }
    ensures written { IfSome result (λ number. CanBeRead number × (number_text number ≡ text.now)) }
{
    let magnitude = read_magnitude(unsigned_part(text))?;
    let units = signed(magnitude.units, starts_with_minus(text))?;
    Some(Number {
        decimals: magnitude.decimals,
        units,
    })
}
