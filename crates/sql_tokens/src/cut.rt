//! Cutting a text into tokens.

ghost use Rattle.std.specs.Prelude.{◌≡◌, ◌<◌, ◌≤◌, ℕ, List, length, drop, IfOk};
ghost use Rattle.sql_tokens.specs.Lexeme.{views, Lexeme};
ghost use Rattle.sql_tokens.specs.Spelling.{Splits};
ghost use Rattle.sql_tokens.specs.Reads.{token_at, GivesToken};
ghost use Rattle.sql_tokens.specs.CutLaws.{IsCut};

use crate::byte::{Class, class_of, is_blank};
use crate::numeral::number;
use crate::sign::sign;
use crate::string::string;
use crate::token::{Kind, Token};
use crate::word::{closed, quoted_len, word, word_len};
use std::alloc::{AllocError, Global};

/// The longest token at the front.
#[tactic(auto, unfolding(crate::specs::Reads::token_at))]
fn token<'a>(alloc: Global, text: &'a [u8]) -> Result<Option<(Kind, &'a [u8])>, AllocError>
    requires { length text.now < 65536 }
    ensures { IfOk result (λ o. GivesToken o (token_at text.now)) }
{
    match text {
        [] => Ok(None),
        [b, rest @ ..] => match class_of(*b) {
            Class::Blank => Ok(None),
            Class::Letter => {
                let n = word_len(text);
                Ok(Some((word(alloc, &text[..n])?, &text[n..])))
            }
            Class::Digit => Ok(Some(number(text))),
            Class::Quote => {
                let n = quoted_len(rest);
                closed(alloc, &rest[..n], &rest[n..])
            }
            Class::Apostrophe => match string(alloc, rest)? {
                None => Ok(None),
                Some((s, behind)) => Ok(Some((Kind::Str(s), behind))),
            },
            Class::Other => Ok(sign(*b, rest)),
        },
    }
}

/// The tokens of a text, and the place where no more of them begins: the end of the text, or a byte that begins no token.
pub fn tokens(alloc: Global, text: &[u8]) -> Result<(Vec<Token>, usize), AllocError>
    requires { length text.now < 65536 }
    ensures cut { IfOk result (λ x. Splits 0 text.now (views x.0.items) (drop x.1 text.now)) }
    ensures within { IfOk result (λ x. x.1 ≤ length text.now) }
{
    let mut out = Vec::new(alloc);
    let mut at = 0;
    while at < text.len() {
        if is_blank(text[at]) {
            at += 1;
            continue;
        }
        let Some((kind, behind)) = token(alloc, &text[at..])? else {
            return Ok((out, at));
        };
        out.push(Token { at, kind })?;
        at = text.len() - behind.len();
    }
    Ok((out, at))
}

/// A text has one list of tokens, and one rest.
pub fn one_cut()
    ensures { (w : List ℕ) (ts us : List Lexeme) (r s : List ℕ) → Splits 0 w ts r → Splits 0 w us s → (ts ≡ us) × (r ≡ s) }
{}

/// Each text has a list of tokens, and a rest.
pub fn some_cut()
    ensures { IsCut }
{}
