//! The texts of values.

ghost use Rattle.std.specs.Prelude.{◌≡◌, ◌<◌, ◌+◌, ◌++◌, length, OnOk, OnErr, IfOk};
ghost use Rattle.daq_table.specs.ValueTexts.{HasText, doubled, quoted_text, text_of_rank, text_of_value};

use crate::buffer::{NoRoom, TextBuf};
use crate::dates::date_text;
use crate::head::{ColumnHead, Kind};
use crate::names::Dictionary;
use crate::numbers::push_number;

// Appends a byte of a name, a quote twice and any other once, or leaves the text as it was.
fn push_doubled(byte: u8, text: &mut TextBuf) -> Result<(), NoRoom>
    ensures ok { OnOk result (text.new ≡ text.old ++ doubled byte) }
    ensures err { OnErr result ((text.new ≡ text.old) × (640 < length text.old + length (doubled byte))) }
{
    if byte == b'\'' {
        text.push_bytes(b"''")
    } else {
        text.push_bytes(&[byte])
    }
}

// The name in quotes.
fn quoted(name: &[u8]) -> Result<TextBuf, NoRoom>
    ensures ok { IfOk result (λ t. t ≡ quoted_text name.now) }
    ensures err { OnErr result (640 < length (quoted_text name.now)) }
{
    let mut text = TextBuf::new();
    text.append(b"'");
    for byte in name {
        push_doubled(*byte, &mut text)?;
    }
    text.push_bytes(b"'")?;
    Ok(text)
}

// Appends the name of that rank in quotes, or `-` where there is none, or leaves the text as it was.
fn push_rank(names: &Dictionary, rank: i128, out: &mut TextBuf) -> Result<(), NoRoom>
    ensures ok { OnOk result (out.new ≡ out.old ++ text_of_rank names.now rank) }
    ensures err { OnErr result ((out.new ≡ out.old) × (640 < length out.old + length (text_of_rank names.now rank))) }
{
    let texts = names.as_slice();
    if rank < 0 || rank >= texts.len() as i128 {
        return out.push_bytes(b"-");
    }
    let text = quoted(texts[rank as usize].as_slice())?;
    out.push_bytes(text.bytes())
}

/// Appends the text of a value of the column, or leaves the text as it was: a number with the column's decimals, a date
/// as `YYYY-MM-DD`, a name in quotes with each quote doubled, and `-` for a rank without a name.
pub fn value_text(head: &ColumnHead, value: i128, out: &mut TextBuf) -> Result<(), NoRoom>
    requires { HasText head.now.kind value }
    ensures ok { OnOk result (out.new ≡ out.old ++ text_of_value head.now value) }
    ensures err { OnErr result ((out.new ≡ out.old) × (640 < length out.old + length (text_of_value head.now value))) }
{
    match head.kind {
        Kind::Int => push_number(value, 0, out),
        Kind::Dec(scale) => push_number(value, scale, out),
        Kind::Date => out.push_bytes(date_text(value as i64).bytes()),
        Kind::Text => push_rank(&head.names, value, out),
    }
}
