//! The texts of dates, read back.

ghost use Rattle.std.specs.Prelude.{◌≡◌, ◌+◌, ◌<◌, ◌≤◌, ◌^◌, ◌++◌, ◌≤ℤ◌, ℤ, pos, Some, IfSome, length, true, unsigned_abs};
ghost use Rattle.daq_table.specs.Numbers.{digits_text};
ghost use Rattle.daq_table.specs.ValueTexts.{IsDay, text_of_date, ymd_text};

use daq_table::{Kind, TextBuf, cell_value, written_number};
use jiff_core::civil::Date;

// The first and the last day of the years 0000 to 9999.
const FIRST_DAY: i128 = -719_528;

const LAST_DAY: i128 = 2_932_896;

// Whether it is the number of a day of these years.
pub(crate) fn is_day(day: i128) -> bool
    ensures yes { IsDay day → result ≡ true }
    ensures only { result ≡ true → IsDay day }
{
    FIRST_DAY <= day && day <= LAST_DAY
}

// Appends a number in so many digits, with zeros before it: they are those behind the point of so small a part of one.
fn append_digits(number: u16, digits: u8, text: &mut TextBuf)
    requires few { (1 ≤ digits) × (digits ≤ 4) }
    requires small { number < 10 ^ digits }
    requires room { length text.old ≤ 10 }
    ensures text { text.new ≡ text.old ++ digits_text digits number }
    ensures short { length text.new ≡ length text.old + digits }
{
    text.append(&written_number(i128::from(number), digits).bytes()[2..]);
}

// The text `YYYY-MM-DD` of a date of the years from 0.
fn written_parts(date: Date) -> TextBuf
    requires { pos 0 ≤ℤ date.year }
    ensures text { result ≡ ymd_text (unsigned_abs date.year) date.month date.day }
    ensures short { length result ≤ 10 }
{
    let mut text = TextBuf::new();
    append_digits(date.year as u16, 4, &mut text);
    text.append(b"-");
    append_digits(u16::from(date.month), 2, &mut text);
    text.append(b"-");
    append_digits(u16::from(date.day), 2, &mut text);
    text
}

// The text of the date with that day number.
pub(crate) fn written_date(day: i64) -> TextBuf
    requires { IsDay day }
    ensures text { result ≡ text_of_date day }
    ensures short { length result ≤ 100 }
{
    match Date::from_unix_epoch_day(day) {
        Ok(date) => written_parts(date),
        Err(_) => unreachable!(),
    }
}

// The day number of the date whose text this is.
pub(crate) fn read_date(text: &[u8]) -> Option<i64>
    ensures read { (day : ℤ) → IsDay day → text_of_date day ≡ text.now → result ≡ Some day }
    ensures written { IfSome result (λ day. IsDay day × (text_of_date day ≡ text.now)) }
{
    let day = cell_value(&Kind::Date, text)?;
    if !is_day(i128::from(day)) {
        return None;
    }
    if written_date(day).bytes() == text {
        Some(day)
    } else {
        None
    }
}
