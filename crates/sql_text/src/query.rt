//! Reading a query.

ghost use Rattle.std.specs.Prelude.{◌≡◌, ◌≢◌, map, ◌++◌, ◌∷◌, [], IfErr, Ok};
ghost use Rattle.sql_tokens.specs.declared.token.Fixed.TheVariants.{Comma};
ghost use Rattle.sql_tokens.specs.Lexeme.{views};
ghost use Rattle.sql_text.specs.Tree.{name_of, item_of, pred_option, ending_of, query_of, Star, Items};
ghost use Rattle.sql_text.specs.Number.{is, is_name, is_small};
ghost use Rattle.sql_text.specs.Rule.{one};
ghost use Rattle.sql_text.specs.Grammar.{argument, count, call, item, filter, grouping};
ghost use Rattle.sql_text.specs.Grammar.{direction, ordering, semicolon, source, query};
ghost use Rattle.sql_text.specs.Reading.{Gives, seen, chain, turns, by, flat, ended, sentence};

use crate::expression::expr;
use crate::fault::{Cause, Refusal, stop_at};
use crate::look::{TURNS, after, call, expect, name, name_token, numeral};
use crate::predicate::pred;
use crate::tree::{CallKind, Ending, ItemTree, Named, PredTree, Select, Tree};
use sql_tokens::{Fixed, Token};
use std::alloc::Global;

/// The argument of a call and its closing parenthesis.
#[tactic(auto, unfolding(crate::specs::Reading::reads, crate::specs::Grammar::argument))]
fn argument(
    alloc: Global,
    levels: u8,
    kind: CallKind,
    tokens: &[Token],
) -> Result<(ItemTree, &[Token]), Refusal>
    ensures { Gives (seen item_of) result (by levels (argument kind) (views tokens.now)) }
{
    let (arg, rest) = expr(alloc, levels, tokens)?;
    let (_, rest) = expect(rest, Fixed::Close)?;
    Ok((ItemTree::Call { kind, arg }, rest))
}

/// What follows COUNT.
#[tactic(auto, unfolding(crate::specs::Reading::reads, crate::specs::Grammar::count))]
fn count(alloc: Global, levels: u8, tokens: &[Token]) -> Result<(ItemTree, &[Token]), Refusal>
    ensures { Gives (seen item_of) result (by levels count (views tokens.now)) }
{
    let (_, rest) = expect(tokens, Fixed::Open)?;
    if let Some((_, rest)) = after(rest, Fixed::Star) {
        let (_, rest) = expect(rest, Fixed::Close)?;
        return Ok((ItemTree::Count, rest));
    }
    argument(alloc, levels, CallKind::Count, rest)
}

#[tactic(auto, unfolding(crate::specs::Reading::reads, crate::specs::Grammar::item, crate::specs::Grammar::call))]
fn item(alloc: Global, levels: u8, tokens: &[Token]) -> Result<(ItemTree, &[Token]), Refusal>
    ensures { Gives (seen item_of) result (by levels item (views tokens.now)) }
{
    if let Some((name, rest)) = name_token(alloc, tokens)? {
        return Ok((ItemTree::Column(name), rest));
    }
    if let Some((_, rest)) = after(tokens, Fixed::Count) {
        return count(alloc, levels, rest);
    }
    let (kind, rest) = call(tokens)?;
    let (_, rest) = expect(rest, Fixed::Open)?;
    argument(alloc, levels, kind, rest)
}

fn more_items<'a>(
    alloc: Global,
    levels: u8,
    first: ItemTree,
    tokens: &'a [Token],
) -> Result<(Vec<ItemTree>, &'a [Token]), Refusal>
    ensures { Gives (seen (λ is. map item_of is.items)) result
        (chain turns (is Comma) (λ is _ i. is ++ (i ∷ [])) (by levels item) (item_of first ∷ []) (views tokens.now)) }
{
    let mut items = Vec::new(alloc);
    items.push(first)?;
    let mut rest = tokens;
    for _ in 0..TURNS {
        let Some((_, behind)) = after(rest, Fixed::Comma) else {
            return Ok((items, rest));
        };
        let (next, behind) = item(alloc, levels, behind)?;
        items.push(next)?;
        rest = behind;
    }
    Ok((items, rest))
}

fn more_names<'a>(
    alloc: Global,
    first: Named,
    tokens: &'a [Token],
) -> Result<(Vec<Named>, &'a [Token]), Refusal>
    ensures { Gives (seen (λ ns. map name_of ns.items)) result
        (chain turns (is Comma) (λ ns _ n. ns ++ (n ∷ [])) (flat (one is_name)) (name_of first ∷ []) (views tokens.now)) }
{
    let mut names = Vec::new(alloc);
    names.push(first)?;
    let mut rest = tokens;
    for _ in 0..TURNS {
        let Some((_, behind)) = after(rest, Fixed::Comma) else {
            return Ok((names, rest));
        };
        let (next, behind) = name(alloc, behind)?;
        names.push(next)?;
        rest = behind;
    }
    Ok((names, rest))
}

#[tactic(auto, unfolding(crate::specs::Reading::reads, crate::specs::Grammar::filter))]
fn filter(
    alloc: Global,
    levels: u8,
    tokens: &[Token],
) -> Result<(Option<PredTree>, &[Token]), Refusal>
    ensures { Gives (seen pred_option) result (by levels filter (views tokens.now)) }
{
    match after(tokens, Fixed::Where) {
        None => Ok((None, tokens)),
        Some((_, rest)) => {
            let (filter, rest) = pred(alloc, levels, rest)?;
            Ok((Some(filter), rest))
        }
    }
}

#[tactic(auto, unfolding(crate::specs::Reading::reads, crate::specs::Grammar::grouping))]
fn grouping(alloc: Global, tokens: &[Token]) -> Result<(Ending, &[Token]), Refusal>
    ensures { Gives (seen ending_of) result (flat grouping (views tokens.now)) }
{
    match after(tokens, Fixed::Group) {
        None => Ok((Ending::Nothing, tokens)),
        Some((_, rest)) => {
            let (_, rest) = expect(rest, Fixed::By)?;
            let (first, rest) = name(alloc, rest)?;
            let (names, rest) = more_names(alloc, first, rest)?;
            Ok((Ending::Group(names), rest))
        }
    }
}

/// Whether the order goes down.
#[tactic(auto, unfolding(crate::specs::Reading::reads, crate::specs::Grammar::direction))]
fn direction(tokens: &[Token]) -> (bool, &[Token])
    ensures { flat direction (views tokens.now) ≡ Ok (seen (λ d. d) result) }
{
    if let Some((_, rest)) = after(tokens, Fixed::Asc) {
        return (false, rest);
    }
    match after(tokens, Fixed::Desc) {
        Some((_, rest)) => (true, rest),
        None => (false, tokens),
    }
}

#[tactic(auto, unfolding(crate::specs::Reading::reads, crate::specs::Grammar::ordering))]
fn ordering(alloc: Global, tokens: &[Token]) -> Result<(Ending, &[Token]), Refusal>
    ensures { Gives (seen ending_of) result (flat ordering (views tokens.now)) }
{
    let (_, rest) = expect(tokens, Fixed::Order)?;
    let (_, rest) = expect(rest, Fixed::By)?;
    let (key, rest) = name(alloc, rest)?;
    let (down, rest) = direction(rest);
    let (_, rest) = expect(rest, Fixed::Limit)?;
    let (limit, rest) = numeral(false, rest)?;
    Ok((Ending::Order { key, down, limit }, rest))
}

/// A query, and what follows it and its semicolon.
#[tactic(auto, unfolding(crate::specs::Reading::reads, crate::specs::Grammar::semicolon))]
fn closed(tree: Tree, tokens: &[Token]) -> (Tree, &[Token])
    ensures { flat (semicolon (query_of tree)) (views tokens.now) ≡ Ok (seen query_of result) }
{
    match after(tokens, Fixed::Semicolon) {
        Some((_, rest)) => (tree, rest),
        None => (tree, tokens),
    }
}

/// What follows `SELECT *`.
#[tactic(auto, unfolding(crate::specs::Reading::reads, crate::specs::Grammar::source, crate::specs::Grammar::semicolon), using(crate::proofs::Levels::ordering_levels))]
fn rows(alloc: Global, levels: u8, tokens: &[Token]) -> Result<(Tree, &[Token]), Refusal>
    ensures { Gives (seen query_of) result (by levels (source Star ordering) (views tokens.now)) }
{
    let (_, rest) = expect(tokens, Fixed::From)?;
    let (table, rest) = name(alloc, rest)?;
    let (pred, rest) = filter(alloc, levels, rest)?;
    let (ending, rest) = ordering(alloc, rest)?;
    let head = Select::Star;
    Ok(closed(
        Tree {
            head,
            table,
            pred,
            ending,
        },
        rest,
    ))
}

/// What follows SELECT and its items.
#[tactic(auto, unfolding(crate::specs::Reading::reads, crate::specs::Grammar::source, crate::specs::Grammar::semicolon), using(crate::proofs::Levels::grouping_levels))]
fn groups(
    alloc: Global,
    levels: u8,
    items: Vec<ItemTree>,
    tokens: &[Token],
) -> Result<(Tree, &[Token]), Refusal>
    ensures { Gives (seen query_of) result (by levels (source (Items (map item_of items.items)) grouping) (views tokens.now)) }
{
    let (_, rest) = expect(tokens, Fixed::From)?;
    let (table, rest) = name(alloc, rest)?;
    let (pred, rest) = filter(alloc, levels, rest)?;
    let (ending, rest) = grouping(alloc, rest)?;
    let head = Select::Items(items);
    Ok(closed(
        Tree {
            head,
            table,
            pred,
            ending,
        },
        rest,
    ))
}

#[tactic(auto, unfolding(crate::specs::Reading::reads, crate::specs::Grammar::query))]
fn query(alloc: Global, levels: u8, tokens: &[Token]) -> Result<(Tree, &[Token]), Refusal>
    ensures { Gives (seen query_of) result (by levels query (views tokens.now)) }
{
    let (_, rest) = expect(tokens, Fixed::Select)?;
    if let Some((_, rest)) = after(rest, Fixed::Star) {
        return rows(alloc, levels, rest);
    }
    let (first, rest) = item(alloc, levels, rest)?;
    let (items, rest) = more_items(alloc, levels, first, rest)?;
    groups(alloc, levels, items, rest)
}

/// Nothing is left. It takes no memory.
#[tactic(auto, unfolding(crate::specs::Reading::ended))]
fn ended(tokens: &[Token]) -> Result<(), Refusal>
    ensures read { Gives (λ _. views tokens.now) result (ended (views tokens.now)) }
    ensures memory { IfErr result (λ e. e ≢ Refusal.Memory) }
{
    match tokens {
        [] => Ok(()),
        [_, ..] => Err(stop_at(Cause::Syntax, tokens)),
    }
}

/// A query and nothing behind it.
#[tactic(auto, unfolding(crate::specs::Reading::sentence))]
pub fn sentence(alloc: Global, levels: u8, tokens: &[Token]) -> Result<Tree, Refusal>
    ensures { Gives query_of result (sentence turns is_small levels (views tokens.now)) }
{
    let (tree, rest) = query(alloc, levels, tokens)?;
    ended(rest)?;
    Ok(tree)
}
