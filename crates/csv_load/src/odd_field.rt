//! Fields with a quote inside, and those whose quotes are never closed: read a byte at a time.

ghost use Rattle.std.specs.Prelude.{◌≢◌, ◌≤◌, length, IfOk};
ghost use Rattle.csv_load.specs.Lines.{Does, ReadsField};
ghost use Rattle.csv_load.specs.declared.odd_field.Within.TheVariants as within;

use crate::lines::is_break;
use std::alloc::AllocError;

// Where a reader stands in a field.
#[derive(Clone, Copy)]
enum Within {
    // At its start.
    Start,
    // Behind a byte of one without quotes.
    Bare,
    // Between its quotes.
    Quoted,
    // Behind a quote that closes it, unless another one follows.
    Closed,
}

// What a byte does.
enum Effect {
    // It is a quote that is no part of the field.
    Passes(Within),
    // It joins the field.
    Joins(Within),
    // The field ends before it.
    Ends,
}

// What a byte does outside quotes that is no quote, or behind a byte of a field without quotes.
fn outside_quotes(byte: u8) -> Effect
    ensures start { byte ≢ 34 → Does within.Start byte result }
    ensures bare { Does within.Bare byte result }
    ensures closed { byte ≢ 34 → Does within.Closed byte result }
{
    if byte == b',' || is_break(byte) {
        Effect::Ends
    } else {
        Effect::Joins(Within::Bare)
    }
}

// What a byte does there.
fn effect_of(within: Within, byte: u8) -> Effect
    ensures { Does within byte result }
{
    match within {
        Within::Start if byte == b'"' => Effect::Passes(Within::Quoted),
        Within::Quoted if byte == b'"' => Effect::Passes(Within::Closed),
        Within::Quoted => Effect::Joins(Within::Quoted),
        Within::Closed if byte == b'"' => Effect::Joins(Within::Quoted),
        _ => outside_quotes(byte),
    }
}

/// Puts the bytes of the field that begins at that place into the buffer, and answers where the field ends.
pub(crate) fn read_odd_field(
    text: &[u8],
    start: usize,
    field: &mut Vec<u8>,
) -> Result<usize, AllocError>
    requires { start ≤ length text.now }
    ensures { IfOk result (λ end. ReadsField text.now start field.new.items end) }
{
    field.clear();
    let mut within = Within::Start;
    for at in start..text.len() {
        match effect_of(within, text[at]) {
            Effect::Passes(next) => within = next,
            Effect::Joins(next) => {
                field.push(text[at])?;
                within = next;
            }
            Effect::Ends => return Ok(at),
        }
    }
    Ok(text.len())
}
