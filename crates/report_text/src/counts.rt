//! The texts of counts, read back.

ghost use Rattle.std.specs.Prelude.{◌≡◌, ◌<◌, ◌≤◌, ◌^◌, ℕ, Some, IfSome, decimal, length};
ghost use Rattle.std.specs.Option.{SomeIff};

use crate::digits::read_decimal;
use daq_table::{TextBuf, written_number};

/// The text of a count.
pub(crate) fn written_count(count: u64) -> TextBuf
    ensures text { result ≡ decimal count }
    ensures short { length result ≤ 100 }
{
    written_number(i128::from(count), 0)
}

// The number, if it is one of 64 bits.
fn narrowed(number: u128) -> Option<u64>
    ensures { SomeIff result (number < 2 ^ 64) number }
{
    u64::try_from(number).ok()
}

/// The count whose text this is: it is read back as it was written, and what is read is written as it stood.
pub(crate) fn read_count(text: &[u8]) -> Option<u64>
    ensures read { (count : ℕ) → count < 2 ^ 64 → decimal count ≡ text.now → result ≡ Some count }
    ensures written { IfSome result (λ count. decimal count ≡ text.now) }
{
    let number = read_decimal(text)?;
    narrowed(number)
}
