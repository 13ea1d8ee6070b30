//! How many planes a column has.

ghost use Rattle.std.specs.Prelude.{◌≡◌, ◌≤◌};
ghost use Rattle.daq_table.specs.Tables.{planes as planes_of};

use daq_table::{Ends, digits_of};

// The planes of a column: its binary digits, and one that tells null where it is nullable.
pub(crate) fn planes(ends: Ends) -> u8
    ensures planes { result ≡ planes_of ends }
    ensures few { result ≤ 65 }
{
    digits_of(ends.top.abs_diff(ends.base)) + u8::from(ends.nullable)
}
