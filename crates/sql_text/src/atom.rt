//! Reading the conditions on one column.

ghost use Rattle.std.specs.Prelude.{map, ◌++◌, ◌∷◌, []};
ghost use Rattle.sql_tokens.specs.declared.token.Fixed.TheVariants.{Comma};
ghost use Rattle.sql_tokens.specs.Lexeme.{views};
ghost use Rattle.sql_text.specs.Tree.{name_of, operand_of, pred_of};
ghost use Rattle.sql_text.specs.Number.{is};
ghost use Rattle.sql_text.specs.Grammar.{value, between, members, ranged, nullness, compared, condition, atom};
ghost use Rattle.sql_text.specs.Reading.{Gives, seen, chain, turns, flat};

use crate::fault::Refusal;
use crate::look::{
    TURNS, after, comparison, expect, name, name_token, numeral, string, string_token,
};
use crate::tree::{Comparison, Named, PredTree, Value};
use sql_tokens::{Fixed, Token};
use std::alloc::Global;

#[tactic(auto, unfolding(crate::specs::Reading::reads, crate::specs::Grammar::value))]
fn value(alloc: Global, tokens: &[Token]) -> Result<(Value, &[Token]), Refusal>
    ensures { Gives (seen operand_of) result (flat value (views tokens.now)) }
{
    if let Some((_, rest)) = after(tokens, Fixed::Minus) {
        let (number, rest) = numeral(true, rest)?;
        return Ok((Value::Number(number), rest));
    }
    if let Some((text, rest)) = string_token(alloc, tokens)? {
        let at = text.at;
        let text = text.name;
        return Ok((Value::Str { at, text }, rest));
    }
    if let Some((at, rest)) = after(tokens, Fixed::Date) {
        let (text, rest) = string(alloc, rest)?;
        let text = text.name;
        return Ok((Value::Day { at, text }, rest));
    }
    let (number, rest) = numeral(false, tokens)?;
    Ok((Value::Number(number), rest))
}

fn more_values<'a>(
    alloc: Global,
    first: Value,
    tokens: &'a [Token],
) -> Result<(Vec<Value>, &'a [Token]), Refusal>
    ensures { Gives (seen (λ vs. map operand_of vs.items)) result
        (chain turns (is Comma) (λ vs _ v. vs ++ (v ∷ [])) (flat value) (operand_of first ∷ []) (views tokens.now)) }
{
    let mut values = Vec::new(alloc);
    values.push(first)?;
    let mut rest = tokens;
    for _ in 0..TURNS {
        let Some((_, behind)) = after(rest, Fixed::Comma) else {
            return Ok((values, rest));
        };
        let (next, behind) = value(alloc, behind)?;
        values.push(next)?;
        rest = behind;
    }
    Ok((values, rest))
}

#[tactic(auto, unfolding(crate::specs::Reading::reads, crate::specs::Grammar::between))]
fn between(alloc: Global, column: Named, tokens: &[Token]) -> Result<(PredTree, &[Token]), Refusal>
    ensures { Gives (seen pred_of) result (flat (between (name_of column)) (views tokens.now)) }
{
    let (low, rest) = value(alloc, tokens)?;
    let (_, rest) = expect(rest, Fixed::And)?;
    let (high, rest) = value(alloc, rest)?;
    Ok((PredTree::Between { column, low, high }, rest))
}

#[tactic(auto, unfolding(crate::specs::Reading::reads, crate::specs::Grammar::members))]
fn members(alloc: Global, column: Named, tokens: &[Token]) -> Result<(PredTree, &[Token]), Refusal>
    ensures { Gives (seen pred_of) result (flat (members (name_of column)) (views tokens.now)) }
{
    let (_, rest) = expect(tokens, Fixed::Open)?;
    let (first, rest) = value(alloc, rest)?;
    let (values, rest) = more_values(alloc, first, rest)?;
    let (_, rest) = expect(rest, Fixed::Close)?;
    Ok((PredTree::OneOf { column, values }, rest))
}

/// What follows the column, and NOT where it stands there.
#[tactic(auto, unfolding(crate::specs::Reading::reads, crate::specs::Grammar::ranged))]
fn ranged(alloc: Global, column: Named, tokens: &[Token]) -> Result<(PredTree, &[Token]), Refusal>
    ensures { Gives (seen pred_of) result (flat (ranged (name_of column)) (views tokens.now)) }
{
    if let Some((_, rest)) = after(tokens, Fixed::Between) {
        return between(alloc, column, rest);
    }
    let (_, rest) = expect(tokens, Fixed::In)?;
    members(alloc, column, rest)
}

/// What follows the column and IS.
#[tactic(auto, unfolding(crate::specs::Reading::reads, crate::specs::Grammar::nullness))]
fn nullness(alloc: Global, column: Named, tokens: &[Token]) -> Result<(PredTree, &[Token]), Refusal>
    ensures { Gives (seen pred_of) result (flat (nullness (name_of column)) (views tokens.now)) }
{
    if let Some((_, rest)) = after(tokens, Fixed::Not) {
        let (_, rest) = expect(rest, Fixed::Null)?;
        let null = PredTree::IsNull { column };
        return Ok((PredTree::Not(Box::new(alloc, null)?), rest));
    }
    let (_, rest) = expect(tokens, Fixed::Null)?;
    Ok((PredTree::IsNull { column }, rest))
}

#[tactic(auto, unfolding(crate::specs::Reading::reads, crate::specs::Grammar::compared))]
fn compared(
    alloc: Global,
    column: Named,
    op: Comparison,
    tokens: &[Token],
) -> Result<(PredTree, &[Token]), Refusal>
    ensures { Gives (seen pred_of) result (flat (compared (name_of column) op) (views tokens.now)) }
{
    if let Some((right, rest)) = name_token(alloc, tokens)? {
        let left = column;
        return Ok((PredTree::Columns { left, op, right }, rest));
    }
    let (value, rest) = value(alloc, tokens)?;
    Ok((PredTree::Compare { column, op, value }, rest))
}

#[tactic(auto, unfolding(crate::specs::Reading::reads, crate::specs::Grammar::condition))]
fn condition(
    alloc: Global,
    column: Named,
    tokens: &[Token],
) -> Result<(PredTree, &[Token]), Refusal>
    ensures { Gives (seen pred_of) result (flat (condition (name_of column)) (views tokens.now)) }
{
    if let Some((_, rest)) = after(tokens, Fixed::Not) {
        let (inner, rest) = ranged(alloc, column, rest)?;
        return Ok((PredTree::Not(Box::new(alloc, inner)?), rest));
    }
    if let Some((op, rest)) = comparison(tokens) {
        return compared(alloc, column, op, rest);
    }
    if let Some((_, rest)) = after(tokens, Fixed::Is) {
        return nullness(alloc, column, rest);
    }
    ranged(alloc, column, tokens)
}

/// A column and the condition on it.
#[tactic(auto, unfolding(crate::specs::Reading::reads, crate::specs::Grammar::atom))]
pub fn atom(alloc: Global, tokens: &[Token]) -> Result<(PredTree, &[Token]), Refusal>
    ensures { Gives (seen pred_of) result (flat atom (views tokens.now)) }
{
    let (column, rest) = name(alloc, tokens)?;
    condition(alloc, column, rest)
}
