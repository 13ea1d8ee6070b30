//! Numbers.

ghost use Rattle.std.specs.Prelude.{◌≡◌, ◌≤◌, ◌<◌, ◌^◌, ◌++◌, length, reverse};
ghost use Rattle.std.specs.List.{prefix_len};
ghost use Rattle.sql_tokens.specs.Byte.{in_number, is_zero};
ghost use Rattle.sql_tokens.specs.Spelling.{held, value_from, trimmed, number_mark};
ghost use Rattle.sql_tokens.specs.Lexeme.{mark_of};
ghost use Rattle.sql_tokens.specs.Reads.{fraction_at, number_at};

use crate::byte::in_number;
use crate::token::{Kind, Number};

/// The largest units that a number keeps.
const LARGEST: u64 = 1 << 63;

fn number_len(text: &[u8]) -> usize
    ensures within { result ≤ length text.now }
    ensures longest { result ≡ prefix_len in_number text.now }
{
    text.iter().take_while(|b| in_number(**b)).count()
}

fn zeros_behind(text: &[u8]) -> usize
    ensures within { result ≤ length text.now }
    ensures longest { result ≡ prefix_len is_zero (reverse text.now) }
{
    text.iter().rev().take_while(|b| **b == b'0').count()
}

#[tactic(auto, unfolding(crate::specs::Spelling::trimmed))]
fn trimmed(text: &[u8]) -> &[u8]
    ensures trimmed { result.now ≡ trimmed text.now }
    ensures within { length result.now ≤ length text.now }
{
    &text[..text.len() - zeros_behind(text)]
}

/// The units where more digits follow, if they are not too large.
fn more_units(so_far: u64, digits: &[u8]) -> Option<u64>
    requires { so_far ≤ 2 ^ 63 }
    ensures { result ≡ held (value_from so_far digits.now) }
{
    let mut units = so_far;
    for d in digits {
        if units > LARGEST / 10 {
            return None;
        }
        units = 10 * units + u64::from(d.saturating_sub(b'0'));
        if units > LARGEST {
            return None;
        }
    }
    Some(units)
}

/// The units of digits in two parts.
fn all_units(whole: &[u8], fraction: &[u8]) -> Option<u64>
    ensures { result ≡ held (value_from 0 (whole.now ++ fraction.now)) }
{
    match more_units(0, whole) {
        Some(units) => more_units(units, fraction),
        None => None,
    }
}

/// The number of these digits before and behind its point.
#[tactic(auto, unfolding(crate::specs::Spelling::number_mark))]
fn number_of(whole: &[u8], fraction: &[u8]) -> Kind
    requires { length fraction.now < 65536 }
    ensures { mark_of result ≡ number_mark whole.now fraction.now }
{
    let fraction = trimmed(fraction);
    Kind::Number(Number {
        units: all_units(whole, fraction),
        scale: fraction.len() as u16,
    })
}

/// A number whose digits before its point are these.
#[tactic(auto, unfolding(crate::specs::Reads::fraction_at))]
fn fraction<'a>(whole: &[u8], rest: &'a [u8]) -> (Kind, &'a [u8])
    requires { length rest.now < 65536 }
    ensures { (mark_of result.0, result.1.now) ≡ fraction_at whole.now rest.now }
{
    match rest {
        [] => (number_of(whole, rest), rest),
        [c, behind @ ..] => {
            let n = number_len(behind);
            if *c == b'.' && n > 0 {
                (number_of(whole, &behind[..n]), &behind[n..])
            } else {
                (number_of(whole, &rest[..0]), rest)
            }
        }
    }
}

/// The number at the front of a text that begins with a digit.
#[tactic(auto, unfolding(crate::specs::Reads::number_at))]
pub fn number(text: &[u8]) -> (Kind, &[u8])
    requires { length text.now < 65536 }
    ensures { (mark_of result.0, result.1.now) ≡ number_at text.now }
{
    let n = number_len(text);
    fraction(&text[..n], &text[n..])
}
