//! Reading expressions.

ghost use Rattle.std.specs.Prelude.{◌≡◌, IfOk};
ghost use Rattle.sql_tokens.specs.declared.token.Fixed.TheVariants.{Star};
ghost use Rattle.sql_tokens.specs.Lexeme.{views};
ghost use Rattle.sql_text.specs.Tree.{expr_of, Mul};
ghost use Rattle.sql_text.specs.Number.{is, is_sum};
ghost use Rattle.sql_text.specs.Rule.{InExpr};
ghost use Rattle.sql_text.specs.Grammar.{joined, factor, term, expr};
ghost use Rattle.sql_text.specs.Reading.{Gives, seen, chain, turns, by, down};

use crate::fault::{Cause, Refusal, stop_at};
use crate::look::{TURNS, after, expect, name_token, numeral, sum_sign};
use crate::tree::ExprTree;
use sql_tokens::{Fixed, Token};
use std::alloc::{AllocError, Global};

#[cycle(expr)]
#[tactic(auto, unfolding(crate::specs::Reading::reads, crate::specs::Grammar::factor))]
fn factor<'a>(
    alloc: Global,
    levels: u8,
    tokens: &'a [Token],
) -> Result<(ExprTree, &'a [Token]), Refusal>
    ensures { Gives (seen expr_of) result (by levels factor (views tokens.now)) }
{
    if let Some((_, rest)) = after(tokens, Fixed::Minus) {
        let (number, rest) = numeral(true, rest)?;
        return Ok((ExprTree::Number(number), rest));
    }
    if let Some((name, rest)) = name_token(alloc, tokens)? {
        return Ok((ExprTree::Column(name), rest));
    }
    if after(tokens, Fixed::Open).is_some() {
        let (inner, rest) = group(alloc, levels, tokens)?;
        let (_, rest) = expect(rest, Fixed::Close)?;
        return Ok((inner, rest));
    }
    let (number, rest) = numeral(false, tokens)?;
    Ok((ExprTree::Number(number), rest))
}

#[cycle(expr)]
fn more_factors<'a>(
    alloc: Global,
    levels: u8,
    left: ExprTree,
    tokens: &'a [Token],
) -> Result<(ExprTree, &'a [Token]), Refusal>
    ensures { Gives (seen expr_of) result
        (chain turns (is Star) (λ a at b. Mul at a b) (by levels factor) (expr_of left) (views tokens.now)) }
{
    let mut left = left;
    let mut rest = tokens;
    for _ in 0..TURNS {
        let Some((at, behind)) = after(rest, Fixed::Star) else {
            return Ok((left, rest));
        };
        let (right, behind) = factor(alloc, levels, behind)?;
        left = ExprTree::Mul {
            at,
            left: Box::new(alloc, left)?,
            right: Box::new(alloc, right)?,
        };
        rest = behind;
    }
    Ok((left, rest))
}

#[cycle(expr)]
#[tactic(auto, unfolding(crate::specs::Reading::reads, crate::specs::Grammar::term))]
fn term<'a>(
    alloc: Global,
    levels: u8,
    tokens: &'a [Token],
) -> Result<(ExprTree, &'a [Token]), Refusal>
    ensures { Gives (seen expr_of) result (by levels term (views tokens.now)) }
{
    let (left, rest) = factor(alloc, levels, tokens)?;
    more_factors(alloc, levels, left, rest)
}

/// A sum or a difference.
fn sum(alloc: Global, minus: bool, left: ExprTree, right: ExprTree) -> Result<ExprTree, AllocError>
    ensures { IfOk result (λ e. expr_of e ≡ joined minus (expr_of left) (expr_of right)) }
{
    let left = Box::new(alloc, left)?;
    let right = Box::new(alloc, right)?;
    if minus {
        Ok(ExprTree::Sub(left, right))
    } else {
        Ok(ExprTree::Add(left, right))
    }
}

#[cycle(expr)]
fn more_terms<'a>(
    alloc: Global,
    levels: u8,
    left: ExprTree,
    tokens: &'a [Token],
) -> Result<(ExprTree, &'a [Token]), Refusal>
    ensures { Gives (seen expr_of) result
        (chain turns is_sum (λ a minus b. joined minus a b) (by levels term) (expr_of left) (views tokens.now)) }
{
    let mut left = left;
    let mut rest = tokens;
    for _ in 0..TURNS {
        let Some((minus, behind)) = sum_sign(rest) else {
            return Ok((left, rest));
        };
        let (right, behind) = term(alloc, levels, behind)?;
        left = sum(alloc, minus, left, right)?;
        rest = behind;
    }
    Ok((left, rest))
}

/// A sum of products, where so many parentheses may still be opened.
#[cycle(expr)]
#[tactic(auto, unfolding(crate::specs::Reading::reads, crate::specs::Grammar::expr))]
pub fn expr<'a>(
    alloc: Global,
    levels: u8,
    tokens: &'a [Token],
) -> Result<(ExprTree, &'a [Token]), Refusal>
    ensures { Gives (seen expr_of) result (by levels expr (views tokens.now)) }
{
    let (left, rest) = term(alloc, levels, tokens)?;
    more_terms(alloc, levels, left, rest)
}

/// An opening parenthesis and the expression behind it.
#[cycle(expr)]
#[tactic(auto, unfolding(crate::specs::Reading::inside_at))]
fn group<'a>(
    alloc: Global,
    levels: u8,
    tokens: &'a [Token],
) -> Result<(ExprTree, &'a [Token]), Refusal>
    ensures { Gives (seen expr_of) result (down levels InExpr (views tokens.now)) }
{
    if levels == 0 {
        return Err(stop_at(Cause::TooDeep, tokens));
    }
    match tokens {
        [] => Err(stop_at(Cause::Syntax, tokens)),
        [_, rest @ ..] => expr(alloc, levels - 1, rest),
    }
}
