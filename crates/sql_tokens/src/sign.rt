//! Signs.

ghost use Rattle.std.specs.Prelude.{◌≡◌};
ghost use Rattle.sql_tokens.specs.Spelling.{one_sign, two_sign};
ghost use Rattle.sql_tokens.specs.Reads.{sign_at, GivesToken};

use crate::token::{Fixed, Kind};

#[tactic(auto, unfolding(crate::specs::Spelling::one_sign))]
fn one_sign(b: u8) -> Option<Fixed>
    ensures { result ≡ one_sign b }
{
    match b {
        b'(' => Some(Fixed::Open),
        b')' => Some(Fixed::Close),
        b',' => Some(Fixed::Comma),
        b'*' => Some(Fixed::Star),
        b'+' => Some(Fixed::Plus),
        b'-' => Some(Fixed::Minus),
        b';' => Some(Fixed::Semicolon),
        b'=' => Some(Fixed::Equal),
        b'<' => Some(Fixed::Less),
        b'>' => Some(Fixed::Greater),
        _ => None,
    }
}

#[tactic(auto, unfolding(crate::specs::Spelling::two_sign))]
fn two_sign(b: u8, c: u8) -> Option<Fixed>
    ensures { result ≡ two_sign b c }
{
    if b == b'<' && c == b'=' {
        Some(Fixed::LessEqual)
    } else if b == b'<' && c == b'>' {
        Some(Fixed::NotEqual)
    } else if b == b'!' && c == b'=' {
        Some(Fixed::NotEqual)
    } else if b == b'>' && c == b'=' {
        Some(Fixed::GreaterEqual)
    } else {
        None
    }
}

/// The sign that begins with this byte, before this text.
#[tactic(auto, unfolding(crate::specs::Reads::sign_at))]
pub fn sign(b: u8, text: &[u8]) -> Option<(Kind, &[u8])>
    ensures { GivesToken result (sign_at b text.now) }
{
    match text {
        [] => match one_sign(b) {
            Some(k) => Some((Kind::Fixed(k), text)),
            None => None,
        },
        [c, rest @ ..] => match two_sign(b, *c) {
            Some(k) => Some((Kind::Fixed(k), rest)),
            None => match one_sign(b) {
                Some(k) => Some((Kind::Fixed(k), text)),
                None => None,
            },
        },
    }
}
