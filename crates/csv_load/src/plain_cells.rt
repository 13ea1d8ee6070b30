//! Cells of numbers and dates in their plainest form: digits behind at most a minus, in a decimal all places of its fraction.

ghost use Rattle.std.specs.Prelude.{◌≡◌, ◌<◌, ◌^◌, IfSome, drop, pos, if◌then◌else◌};
ghost use Rattle.std.specs.Str.Parse.{AllDigits, digits_value_after, starts_with_minus};
ghost use Rattle.jiff_core.specs.Calendar.{IsCivilDate, days_from_civil};
ghost use Rattle.daq_table.specs.CellTexts.{IsDateCell, IsDecCell, IsIntCell, date_value, dec_value, int_value, with_sign};

use jiff_core::civil::Date;

// The number that the bytes write as digits behind those of `start`. None where one is no digit, and where the number is large.
fn plain_digits(start: u64, bytes: &[u8]) -> Option<u64>
    requires { start < 2 ^ 63 }
    ensures digits { IfSome result (λ _. AllDigits 10 bytes.now) }
    ensures value { IfSome result (λ n. n ≡ digits_value_after 10 start bytes.now) }
    ensures small { IfSome result (λ n. n < 2 ^ 63) }
{
    let mut number = start;
    for byte in bytes {
        if !byte.is_ascii_digit() {
            return None;
        }
        if number >= 100_000_000_000_000_000 {
            return None;
        }
        number = number * 10 + (*byte - b'0') as u64;
    }
    Some(number)
}

// Whether the bytes begin with a minus.
fn has_minus(bytes: &[u8]) -> bool
    ensures { result ≡ starts_with_minus bytes.now }
{
    if bytes.is_empty() {
        false
    } else {
        bytes[0] == b'-'
    }
}

// The bytes behind a minus, where there is one.
fn behind_minus(bytes: &[u8]) -> &[u8]
    ensures { result.now ≡ (if starts_with_minus bytes.now then drop 1 bytes.now else bytes.now) }
{
    if has_minus(bytes) { &bytes[1..] } else { bytes }
}

// The magnitude with its sign.
fn signed(magnitude: u64, minus: bool) -> i64
    requires { magnitude < 2 ^ 63 }
    ensures { result ≡ with_sign minus magnitude }
{
    if minus {
        -(magnitude as i64)
    } else {
        magnitude as i64
    }
}

/// The number of a plain cell of whole numbers. None where the cell may have another form.
pub(crate) fn plain_int(bytes: &[u8]) -> Option<i64>
    ensures cell { IfSome result (λ _. IsIntCell bytes.now) }
    ensures value { IfSome result (λ z. z ≡ int_value bytes.now) }
{
    let digits = behind_minus(bytes);
    if digits.is_empty() {
        return None;
    }
    let magnitude = plain_digits(0, digits)?;
    Some(signed(magnitude, has_minus(bytes)))
}

/// The number of a plain cell of that many decimals. None where the cell may have another form.
pub(crate) fn plain_dec(scale: u8, bytes: &[u8]) -> Option<i64>
    ensures cell { IfSome result (λ _. IsDecCell scale bytes.now) }
    ensures value { IfSome result (λ z. z ≡ dec_value scale bytes.now) }
{
    let digits = behind_minus(bytes);
    let places = scale as usize;
    if digits.len() < places + 2 {
        return None;
    }
    let point = digits.len() - places - 1;
    if digits[point] != b'.' {
        return None;
    }
    let whole = plain_digits(0, &digits[..point])?;
    let units = plain_digits(whole, &digits[point + 1..])?;
    Some(signed(units, has_minus(bytes)))
}

// The day number of a date, if the calendar has it.
fn day_number(year: u64, month: u64, day: u64) -> Option<i64>
    ensures valid { IfSome result (λ _. IsCivilDate (pos year) month day) }
    ensures value { IfSome result (λ z. z ≡ days_from_civil (pos year) month day) }
{
    let year = i16::try_from(year).ok()?;
    let month = i8::try_from(month).ok()?;
    let day = i8::try_from(day).ok()?;
    match Date::new(year, month, day) {
        Ok(date) => Some(date.to_unix_epoch_day() as i64),
        Err(_) => None,
    }
}

/// The day number of a cell of the form `YYYY-MM-DD`. None where it has another form, or the calendar has no such day.
pub(crate) fn plain_date(bytes: &[u8]) -> Option<i64>
    ensures cell { IfSome result (λ _. IsDateCell bytes.now) }
    ensures value { IfSome result (λ z. z ≡ date_value bytes.now) }
{
    if bytes.len() != 10 {
        return None;
    }
    if bytes[4] != b'-' {
        return None;
    }
    if bytes[7] != b'-' {
        return None;
    }
    let year = plain_digits(0, &bytes[..4])?;
    let month = plain_digits(0, &bytes[5..7])?;
    let day = plain_digits(0, &bytes[8..10])?;
    day_number(year, month, day)
}
