//! The text of a number with a fixed number of decimals.

ghost use Rattle.std.specs.Prelude.{◌≡◌, ◌≤◌, ◌<◌, ◌+◌, ◌-◌, ◌/◌};
ghost use Rattle.std.specs.Prelude.{◌%◌, ◌^◌, ◌++◌, length, OnOk, OnErr, replicate};
ghost use Rattle.daq_table.specs.Numbers.{scaled_text, digits_text};

use crate::buffer::{NoRoom, TextBuf};
use itoa::Buffer;

// Appends so many zeros.
fn append_zeros(count: usize, out: &mut TextBuf)
    requires { length out.old + count ≤ 640 }
    ensures { out.new ≡ out.old ++ replicate count 48 }
{
    for _ in 0..count {
        out.append(b"0");
    }
}

// Appends the number in so many digits, with zeros before it.
pub(crate) fn append_digits(number: u128, scale: u8, out: &mut TextBuf)
    requires room { length out.old ≤ 300 }
    ensures text { out.new ≡ out.old ++ digits_text scale number }
    ensures within { length out.new ≤ length out.old + scale + 40 }
{
    let mut buffer = Buffer::new();
    let digits = buffer.format(number).as_bytes();
    append_zeros((scale as usize).saturating_sub(digits.len()), out);
    out.append(digits);
}

// The whole part of a magnitude with that many decimals, and what is left.
fn parted(magnitude: u128, scale: u8) -> (u128, u128)
    ensures whole { result.0 ≡ magnitude / 10 ^ scale }
    ensures rest { result.1 ≡ magnitude % 10 ^ scale }
{
    match 10u128.checked_pow(scale as u32) {
        Some(unit) => (magnitude / unit, magnitude % unit),
        None => (0, magnitude),
    }
}

// The number with that many decimals.
fn scaled(value: i128, scale: u8) -> TextBuf
    requires { 1 ≤ scale }
    ensures text { result ≡ scaled_text scale value }
    ensures short { length result ≤ scale + 82 }
{
    let mut buffer = Buffer::new();
    let mut text = TextBuf::new();
    if value < 0 {
        text.append(b"-");
    }
    let (whole, rest) = parted(value.unsigned_abs(), scale);
    text.append(buffer.format(whole).as_bytes());
    text.append(b".");
    append_digits(rest, scale, &mut text);
    text
}

// Appends the number with that many decimals, or leaves the text as it was.
pub(crate) fn push_number(value: i128, scale: u8, out: &mut TextBuf) -> Result<(), NoRoom>
    ensures ok { OnOk result (out.new ≡ out.old ++ scaled_text scale value) }
    ensures err { OnErr result ((out.new ≡ out.old) × (640 < length out.old + length (scaled_text scale value))) }
    ensures short { length (scaled_text scale value) ≤ scale + 82 }
{
    if scale == 0 {
        let mut digits = Buffer::new();
        out.push_bytes(digits.format(value).as_bytes())
    } else {
        out.push_bytes(scaled(value, scale).bytes())
    }
}

/// Appends the number with that many decimals, or leaves the text as it was.
pub fn number_text(value: i128, scale: u8, out: &mut TextBuf) -> Result<(), NoRoom>
    requires { scale ≤ 18 }
    ensures ok { OnOk result (out.new ≡ out.old ++ scaled_text scale value) }
    ensures err { OnErr result ((out.new ≡ out.old) × (640 < length out.old + length (scaled_text scale value))) }
    ensures short { length (scaled_text scale value) ≤ 100 }
{
    push_number(value, scale, out)
}

/// The number with that many decimals, as a text of its own.
pub fn written_number(value: i128, scale: u8) -> TextBuf
    requires { scale ≤ 18 }
    ensures text { result ≡ scaled_text scale value }
    ensures short { length result ≤ 100 }
{
    let mut text = TextBuf::new();
    match number_text(value, scale, &mut text) {
        Ok(()) => text,
        Err(NoRoom) => unreachable!(),
    }
}
