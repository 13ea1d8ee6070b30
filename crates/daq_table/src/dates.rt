//! Dates: their day numbers, and their texts.

ghost use Rattle.std.specs.Prelude.{◌≡◌, ◌≤◌, ◌≤ℤ◌, ◌<◌, ◌^◌};
ghost use Rattle.std.specs.Prelude.{pos, unsigned_abs, length, IfSome};
ghost use Rattle.std.specs.Option.{SomeIff};
ghost use Rattle.std.specs.Str.Parse.{AllDigits, digits_value};
ghost use Rattle.jiff_core.specs.Calendar.{IsCivilDate, days_from_civil};
ghost use Rattle.daq_table.specs.CellTexts.{IsDateCell, date_value};
ghost use Rattle.daq_table.specs.ValueTexts.{IsDay, text_of_date, ymd_text};

use crate::buffer::TextBuf;
use crate::cells::read_digits;
use crate::numbers::append_digits;
use jiff::civil::Date;
use jiff_core::civil::Date as PlainDate;

// The day number of a date, if the calendar has it.
fn day_number(year: u16, month: u16, day: u16) -> Option<i64>
    requires { (year ≤ 9999) × (month ≤ 99) × (day ≤ 99) }
    ensures { SomeIff result (IsCivilDate (pos year) month day) (days_from_civil (pos year) month day) }
{
    match Date::new(year as i16, month as i8, day as i8) {
        Ok(date) => Some(date.to_plain().to_unix_epoch_day() as i64),
        Err(_) => None,
    }
}

// The number that at most four digits write.
fn number_of(bytes: &[u8]) -> Option<u16>
    requires { length bytes.now ≤ 4 }
    ensures value { SomeIff result (AllDigits 10 bytes.now) (digits_value 10 bytes.now) }
    ensures small { IfSome result (λ n. n < 10 ^ length bytes.now) }
{
    match read_digits(0, bytes) {
        Some(number) => Some(number as u16),
        None => None,
    }
}

// The day number of a cell of the form `YYYY-MM-DD`. None where it has another form, or the calendar has no such day.
pub(crate) fn date_cell(bytes: &[u8]) -> Option<i64>
    ensures { SomeIff result (IsDateCell bytes.now) (date_value bytes.now) }
{
    if bytes.len() != 10 {
        return None;
    }
    if bytes[4] != b'-' {
        return None;
    }
    if bytes[7] != b'-' {
        return None;
    }
    let year = number_of(&bytes[..4])?;
    let month = number_of(&bytes[5..7])?;
    let day = number_of(&bytes[8..10])?;
    day_number(year, month, day)
}

// The text of a date of the years from 0.
fn date_parts(date: PlainDate) -> TextBuf
    requires { pos 0 ≤ℤ date.year }
    ensures { result ≡ ymd_text (unsigned_abs date.year) date.month date.day }
{
    let mut text = TextBuf::new();
    append_digits(date.year as u128, 4, &mut text);
    text.append(b"-");
    append_digits(date.month as u128, 2, &mut text);
    text.append(b"-");
    append_digits(date.day as u128, 2, &mut text);
    text
}

// The text `YYYY-MM-DD` of the date with that day number.
pub(crate) fn date_text(day: i64) -> TextBuf
    requires { IsDay day }
    ensures { result ≡ text_of_date day }
{
    match PlainDate::from_unix_epoch_day(day) {
        Ok(date) => date_parts(date),
        Err(_) => unreachable!(),
    }
}
