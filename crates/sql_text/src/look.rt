//! The token at the front.

ghost use Rattle.std.specs.Prelude.{◌≡◌, ◌≢◌, true, false, Some, None, if◌then◌else◌, IfErr, IfOk};
ghost use Rattle.sql_tokens.specs.Lexeme.{views};
ghost use Rattle.sql_text.specs.Tree.{name_of};
ghost use Rattle.sql_text.specs.Number.{same, is, is_name, is_string, is_fixed, is_cmp, is_call};
ghost use Rattle.sql_text.specs.Number.{is_sum, cmp_of, call_of, sum_of, signed, is_small};
ghost use Rattle.sql_text.specs.Reading.{Finds, Gives, seen, look, expect, numeral};

use crate::fault::{Cause, Refusal, stop_at};
use crate::tree::{CallKind, Comparison, Named, Num};
use sql_tokens::{Fixed, Kind, Token};
use std::alloc::{AllocError, Global};

/// One more than the tokens of a text of 4096 bytes.
pub const TURNS: u32 = 4097;

fn is_same(found: Fixed, wanted: Fixed) -> bool
    ensures { result ≡ same found wanted }
{
    found == wanted
}

/// The place of a keyword or sign that is there, and what follows it.
#[tactic(auto, unfolding(crate::specs::Reading::look, crate::specs::Number::is))]
pub fn after(tokens: &[Token], wanted: Fixed) -> Option<(usize, &[Token])>
    ensures { Finds (seen (λ p. p)) result (look (is wanted) (views tokens.now)) }
{
    match tokens {
        [] => None,
        [
            Token {
                kind: Kind::Fixed(found),
                at,
            },
            rest @ ..,
        ] => {
            if is_same(*found, wanted) {
                Some((*at, rest))
            } else {
                None
            }
        }
        [
            Token {
                kind: Kind::Name(_) | Kind::Number(_) | Kind::Str(_),
                ..
            },
            ..
        ] => None,
    }
}

/// A keyword or sign that has to be there. It takes no memory.
#[tactic(auto, unfolding(crate::specs::Reading::expect))]
pub fn expect(tokens: &[Token], wanted: Fixed) -> Result<(usize, &[Token]), Refusal>
    ensures read { Gives (seen (λ p. p)) result (expect (is wanted) (views tokens.now)) }
    ensures memory { IfErr result (λ e. e ≢ Refusal.Memory) }
{
    match after(tokens, wanted) {
        Some(found) => Ok(found),
        None => Err(stop_at(Cause::Syntax, tokens)),
    }
}

/// A name that is there.
#[tactic(auto, unfolding(crate::specs::Reading::look, crate::specs::Number::is_name))]
pub fn name_token(alloc: Global, tokens: &[Token]) -> Result<Option<(Named, &[Token])>, AllocError>
    ensures { IfOk result (λ o. Finds (seen name_of) o (look is_name (views tokens.now))) }
{
    match tokens {
        [] => Ok(None),
        [
            Token {
                kind: Kind::Name(name),
                at,
            },
            rest @ ..,
        ] => {
            let name = Vec::from_slice(alloc, name.as_slice())?;
            Ok(Some((Named { at: *at, name }, rest)))
        }
        [
            Token {
                kind: Kind::Fixed(_) | Kind::Number(_) | Kind::Str(_),
                ..
            },
            ..
        ] => Ok(None),
    }
}

/// A name that has to be there.
#[tactic(auto, unfolding(crate::specs::Reading::expect))]
pub fn name(alloc: Global, tokens: &[Token]) -> Result<(Named, &[Token]), Refusal>
    ensures { Gives (seen name_of) result (expect is_name (views tokens.now)) }
{
    match name_token(alloc, tokens)? {
        Some(found) => Ok(found),
        None => Err(stop_at(Cause::Syntax, tokens)),
    }
}

/// A string that is there.
#[tactic(auto, unfolding(crate::specs::Reading::look, crate::specs::Number::is_string))]
pub fn string_token(
    alloc: Global,
    tokens: &[Token],
) -> Result<Option<(Named, &[Token])>, AllocError>
    ensures { IfOk result (λ o. Finds (seen name_of) o (look is_string (views tokens.now))) }
{
    match tokens {
        [] => Ok(None),
        [
            Token {
                kind: Kind::Str(name),
                at,
            },
            rest @ ..,
        ] => {
            let name = Vec::from_slice(alloc, name.as_slice())?;
            Ok(Some((Named { at: *at, name }, rest)))
        }
        [
            Token {
                kind: Kind::Fixed(_) | Kind::Number(_) | Kind::Name(_),
                ..
            },
            ..
        ] => Ok(None),
    }
}

/// A string that has to be there.
#[tactic(auto, unfolding(crate::specs::Reading::expect))]
pub fn string(alloc: Global, tokens: &[Token]) -> Result<(Named, &[Token]), Refusal>
    ensures { Gives (seen name_of) result (expect is_string (views tokens.now)) }
{
    match string_token(alloc, tokens)? {
        Some(found) => Ok(found),
        None => Err(stop_at(Cause::Syntax, tokens)),
    }
}

/// The units with their sign, where they fit.
fn signed(negative: bool, units: Option<u64>) -> Option<i64>
    ensures { result ≡ (if is_small negative units then Some (signed negative units) else None) }
{
    match units {
        None => None,
        Some(n) => {
            if !negative {
                i64::try_from(n).ok()
            } else if n == 0 {
                Some(0)
            } else {
                i64::try_from(n - 1).ok().map(|less| -1 - less)
            }
        }
    }
}

/// A number that has to be there, behind a `-` or not. It takes no memory.
#[tactic(auto, unfolding(crate::specs::Reading::look, crate::specs::Reading::numeral, crate::specs::Number::is_number))]
pub fn numeral(negative: bool, tokens: &[Token]) -> Result<(Num, &[Token]), Refusal>
    ensures read { Gives (seen (λ n. n)) result (numeral is_small negative (views tokens.now)) }
    ensures memory { IfErr result (λ e. e ≢ Refusal.Memory) }
{
    match tokens {
        [] => Err(stop_at(Cause::Syntax, tokens)),
        [
            Token {
                kind: Kind::Number(number),
                at,
            },
            rest @ ..,
        ] => match signed(negative, number.units) {
            Some(units) => {
                let scale = number.scale;
                Ok((
                    Num {
                        at: *at,
                        units,
                        scale,
                    },
                    rest,
                ))
            }
            None => Err(stop_at(Cause::TooLarge, tokens)),
        },
        [
            Token {
                kind: Kind::Fixed(_) | Kind::Name(_) | Kind::Str(_),
                ..
            },
            ..
        ] => Err(stop_at(Cause::Syntax, tokens)),
    }
}

#[tactic(auto, unfolding(crate::specs::Number::cmp_of))]
fn cmp_of(k: Fixed) -> Option<Comparison>
    ensures { result ≡ cmp_of k }
{
    match k {
        Fixed::Equal => Some(Comparison::Eq),
        Fixed::NotEqual => Some(Comparison::Ne),
        Fixed::Less => Some(Comparison::Lt),
        Fixed::LessEqual => Some(Comparison::Le),
        Fixed::Greater => Some(Comparison::Gt),
        Fixed::GreaterEqual => Some(Comparison::Ge),
        _ => None,
    }
}

#[tactic(auto, unfolding(crate::specs::Number::call_of))]
fn call_of(k: Fixed) -> Option<CallKind>
    ensures { result ≡ call_of k }
{
    match k {
        Fixed::Sum => Some(CallKind::Sum),
        Fixed::Avg => Some(CallKind::Avg),
        Fixed::Min => Some(CallKind::Min),
        Fixed::Max => Some(CallKind::Max),
        _ => None,
    }
}

/// Whether the sign between two terms is `-`.
#[tactic(auto, unfolding(crate::specs::Number::sum_of))]
fn sum_of(k: Fixed) -> Option<bool>
    ensures { result ≡ sum_of k }
{
    match k {
        Fixed::Plus => Some(false),
        Fixed::Minus => Some(true),
        _ => None,
    }
}

// A keyword or sign that is there.
#[tactic(auto, unfolding(crate::specs::Reading::look))]
fn fixed_token(tokens: &[Token]) -> Option<(Fixed, &[Token])>
    ensures { Finds (seen (λ x. x)) result (look is_fixed (views tokens.now)) }
{
    match tokens {
        [] => None,
        [
            Token {
                kind: Kind::Fixed(found),
                ..
            },
            rest @ ..,
        ] => Some((*found, rest)),
        [
            Token {
                kind: Kind::Name(_) | Kind::Number(_) | Kind::Str(_),
                ..
            },
            ..
        ] => None,
    }
}

/// A comparison that is there.
pub fn comparison(tokens: &[Token]) -> Option<(Comparison, &[Token])>
    ensures { Finds (seen (λ x. x)) result (look is_cmp (views tokens.now)) }
{
    match fixed_token(tokens) {
        Some((found, rest)) => match cmp_of(found) {
            Some(x) => Some((x, rest)),
            None => None,
        },
        None => None,
    }
}

/// A sign between terms that is there.
pub fn sum_sign(tokens: &[Token]) -> Option<(bool, &[Token])>
    ensures { Finds (seen (λ x. x)) result (look is_sum (views tokens.now)) }
{
    match fixed_token(tokens) {
        Some((found, rest)) => match sum_of(found) {
            Some(x) => Some((x, rest)),
            None => None,
        },
        None => None,
    }
}

/// A call that is there.
pub fn call_token(tokens: &[Token]) -> Option<(CallKind, &[Token])>
    ensures { Finds (seen (λ x. x)) result (look is_call (views tokens.now)) }
{
    match fixed_token(tokens) {
        Some((found, rest)) => match call_of(found) {
            Some(x) => Some((x, rest)),
            None => None,
        },
        None => None,
    }
}

/// A call that has to be there. It takes no memory.
#[tactic(auto, unfolding(crate::specs::Reading::expect))]
pub fn call(tokens: &[Token]) -> Result<(CallKind, &[Token]), Refusal>
    ensures read { Gives (seen (λ x. x)) result (expect is_call (views tokens.now)) }
    ensures memory { IfErr result (λ e. e ≢ Refusal.Memory) }
{
    match call_token(tokens) {
        Some(found) => Ok(found),
        None => Err(stop_at(Cause::Syntax, tokens)),
    }
}
