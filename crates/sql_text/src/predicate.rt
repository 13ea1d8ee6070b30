//! Reading predicates.

ghost use Rattle.sql_tokens.specs.declared.token.Fixed.TheVariants as fixed;
ghost use Rattle.sql_tokens.specs.Lexeme.{views};
ghost use Rattle.sql_text.specs.Tree.{pred_of, Both, Either};
ghost use Rattle.sql_text.specs.Number.{is};
ghost use Rattle.sql_text.specs.Rule.{InPred, InNeg};
ghost use Rattle.sql_text.specs.Grammar.{neg, conj, pred};
ghost use Rattle.sql_text.specs.Reading.{Gives, seen, chain, turns, by, down};

use crate::atom::atom;
use crate::fault::{Cause, Refusal, stop_at};
use crate::look::{TURNS, after, expect};
use crate::tree::PredTree;
use sql_tokens::{Fixed, Token};
use std::alloc::Global;

#[cycle(pred)]
#[tactic(auto, unfolding(crate::specs::Reading::reads, crate::specs::Grammar::neg), using(crate::proofs::Levels::atom_levels))]
fn neg<'a>(
    alloc: Global,
    levels: u8,
    tokens: &'a [Token],
) -> Result<(PredTree, &'a [Token]), Refusal>
    ensures { Gives (seen pred_of) result (by levels neg (views tokens.now)) }
{
    if after(tokens, Fixed::Not).is_some() {
        let (inner, rest) = negated(alloc, levels, tokens)?;
        return Ok((PredTree::Not(Box::new(alloc, inner)?), rest));
    }
    if after(tokens, Fixed::Open).is_some() {
        let (inner, rest) = among(alloc, levels, tokens)?;
        let (_, rest) = expect(rest, Fixed::Close)?;
        return Ok((inner, rest));
    }
    atom(alloc, tokens)
}

#[cycle(pred)]
fn more_negs<'a>(
    alloc: Global,
    levels: u8,
    left: PredTree,
    tokens: &'a [Token],
) -> Result<(PredTree, &'a [Token]), Refusal>
    ensures { Gives (seen pred_of) result
        (chain turns (is fixed.And) (λ a _ b. Both a b) (by levels neg) (pred_of left) (views tokens.now)) }
{
    let mut left = left;
    let mut rest = tokens;
    for _ in 0..TURNS {
        let Some((_, behind)) = after(rest, Fixed::And) else {
            return Ok((left, rest));
        };
        let (right, behind) = neg(alloc, levels, behind)?;
        left = PredTree::And(Box::new(alloc, left)?, Box::new(alloc, right)?);
        rest = behind;
    }
    Ok((left, rest))
}

#[cycle(pred)]
#[tactic(auto, unfolding(crate::specs::Reading::reads, crate::specs::Grammar::conj))]
fn conj<'a>(
    alloc: Global,
    levels: u8,
    tokens: &'a [Token],
) -> Result<(PredTree, &'a [Token]), Refusal>
    ensures { Gives (seen pred_of) result (by levels conj (views tokens.now)) }
{
    let (left, rest) = neg(alloc, levels, tokens)?;
    more_negs(alloc, levels, left, rest)
}

#[cycle(pred)]
fn more_conjs<'a>(
    alloc: Global,
    levels: u8,
    left: PredTree,
    tokens: &'a [Token],
) -> Result<(PredTree, &'a [Token]), Refusal>
    ensures { Gives (seen pred_of) result
        (chain turns (is fixed.Or) (λ a _ b. Either a b) (by levels conj) (pred_of left) (views tokens.now)) }
{
    let mut left = left;
    let mut rest = tokens;
    for _ in 0..TURNS {
        let Some((_, behind)) = after(rest, Fixed::Or) else {
            return Ok((left, rest));
        };
        let (right, behind) = conj(alloc, levels, behind)?;
        left = PredTree::Or(Box::new(alloc, left)?, Box::new(alloc, right)?);
        rest = behind;
    }
    Ok((left, rest))
}

/// A predicate, where so many parentheses and NOT may still be open.
#[cycle(pred)]
#[tactic(auto, unfolding(crate::specs::Reading::reads, crate::specs::Grammar::pred))]
pub fn pred<'a>(
    alloc: Global,
    levels: u8,
    tokens: &'a [Token],
) -> Result<(PredTree, &'a [Token]), Refusal>
    ensures { Gives (seen pred_of) result (by levels pred (views tokens.now)) }
{
    let (left, rest) = conj(alloc, levels, tokens)?;
    more_conjs(alloc, levels, left, rest)
}

/// NOT and what it stands before.
#[cycle(pred)]
#[tactic(auto, unfolding(crate::specs::Reading::inside_at))]
fn negated<'a>(
    alloc: Global,
    levels: u8,
    tokens: &'a [Token],
) -> Result<(PredTree, &'a [Token]), Refusal>
    ensures { Gives (seen pred_of) result (down levels InNeg (views tokens.now)) }
{
    if levels == 0 {
        return Err(stop_at(Cause::TooDeep, tokens));
    }
    match tokens {
        [] => Err(stop_at(Cause::Syntax, tokens)),
        [_, rest @ ..] => neg(alloc, levels - 1, rest),
    }
}

/// An opening parenthesis and the predicate behind it.
#[cycle(pred)]
#[tactic(auto, unfolding(crate::specs::Reading::inside_at))]
fn among<'a>(
    alloc: Global,
    levels: u8,
    tokens: &'a [Token],
) -> Result<(PredTree, &'a [Token]), Refusal>
    ensures { Gives (seen pred_of) result (down levels InPred (views tokens.now)) }
{
    if levels == 0 {
        return Err(stop_at(Cause::TooDeep, tokens));
    }
    match tokens {
        [] => Err(stop_at(Cause::Syntax, tokens)),
        [_, rest @ ..] => pred(alloc, levels - 1, rest),
    }
}
