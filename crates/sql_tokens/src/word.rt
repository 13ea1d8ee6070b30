//! Keywords and names.

ghost use Rattle.std.specs.Prelude.{◌≡◌, ◌≤◌, length, map, IfOk};
ghost use Rattle.std.specs.List.{prefix_len};
ghost use Rattle.sql_tokens.specs.Byte.{in_word, in_quotes, capital};
ghost use Rattle.sql_tokens.specs.Spelling.{same_bytes, keyword_of, word_of, is_plain_name};
ghost use Rattle.sql_tokens.specs.Lexeme.{mark_of};
ghost use Rattle.sql_tokens.specs.Reads.{closed_at, GivesToken};

use crate::byte::{Class, class_of, in_quotes, in_word};
use crate::token::{Fixed, KEYWORDS, Kind};
use std::alloc::{AllocError, Global};

pub fn word_len(text: &[u8]) -> usize
    ensures within { result ≤ length text.now }
    ensures longest { result ≡ prefix_len in_word text.now }
{
    text.iter().take_while(|b| in_word(**b)).count()
}

pub fn quoted_len(text: &[u8]) -> usize
    ensures within { result ≤ length text.now }
    ensures longest { result ≡ prefix_len in_quotes text.now }
{
    text.iter().take_while(|b| in_quotes(**b)).count()
}

fn capital(b: u8) -> u8
    ensures { result ≡ capital b }
{
    if b.is_ascii_lowercase() { b - 32 } else { b }
}

/// The text in capitals is this.
fn is_word(text: &[u8], capitals: &[u8]) -> bool
    ensures { result ≡ same_bytes (map capital text.now) capitals.now }
{
    match text {
        [] => capitals.is_empty(),
        [a, text @ ..] => match capitals {
            [] => false,
            [b, capitals @ ..] => capital(*a) == *b && is_word(text, capitals),
        },
    }
}

fn keyword(text: &[u8]) -> Option<Fixed>
    ensures { result ≡ keyword_of text.now }
{
    KEYWORDS
        .iter()
        .copied()
        .find(|k| is_word(text, k.spelling()))
}

/// A keyword in any mix of cases, else a name.
#[tactic(auto, unfolding(crate::specs::Spelling::word_of))]
pub fn word(alloc: Global, text: &[u8]) -> Result<Kind, AllocError>
    ensures { IfOk result (λ k. mark_of k ≡ word_of text.now) }
{
    match keyword(text) {
        Some(k) => Ok(Kind::Fixed(k)),
        None => Ok(Kind::Name(Vec::from_slice(alloc, text)?)),
    }
}

/// A quoted name whose bytes are these, where a quote follows.
#[tactic(auto, unfolding(crate::specs::Reads::closed_at))]
pub fn closed<'a>(
    alloc: Global,
    name: &[u8],
    rest: &'a [u8],
) -> Result<Option<(Kind, &'a [u8])>, AllocError>
    ensures { IfOk result (λ o. GivesToken o (closed_at name.now rest.now)) }
{
    match name {
        [] => Ok(None),
        [_, ..] => match rest {
            [] => Ok(None),
            [c, behind @ ..] => {
                if *c == b'"' {
                    Ok(Some((Kind::Name(Vec::from_slice(alloc, name)?), behind)))
                } else {
                    Ok(None)
                }
            }
        },
    }
}

/// The name is written as it is, without quotes.
pub fn is_plain_name(name: &[u8]) -> bool
    ensures { result ≡ is_plain_name name.now }
{
    match name {
        [] => false,
        [b, ..] => {
            matches!(class_of(*b), Class::Letter)
                && word_len(name) == name.len()
                && keyword(name).is_none()
        }
    }
}
