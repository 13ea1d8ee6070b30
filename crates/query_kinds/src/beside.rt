//! The sums and the numbers of values that a query asks for beside its averages.

ghost use Rattle.std.specs.Prelude.{◌≡◌, map, IfOk};
ghost use Rattle.std.specs.List.{position};
ghost use Rattle.sql_text.specs.Tree.{expr_of, item_of};
ghost use Rattle.query_kinds.specs.Beside.{beside_at, beside_average, beside_in, is_count_of, is_sum_of, says_same};
ghost use Rattle.query_kinds.specs.Kinds.{items_in};

use sql_text::{CallKind, ExprTree, ItemTree};
use std::alloc::{AllocError, Global};

/// The places of the sum and of the number of the values of an average among the aggregates of its query, counted from 0.
#[derive(Clone, Copy, Debug, PartialEq, Eq)]
pub struct Beside {
    pub sum: usize,
    pub count: usize,
}

// Whether two expressions say the same, wherever they stand in the text.
fn says_same(a: &ExprTree, b: &ExprTree) -> bool
    ensures { result ≡ says_same (expr_of a.now) (expr_of b.now) }
{
    match (a, b) {
        (ExprTree::Column(a), ExprTree::Column(b)) => a.name.as_slice() == b.name.as_slice(),
        (ExprTree::Number(a), ExprTree::Number(b)) => a.units == b.units && a.scale == b.scale,
        (ExprTree::Add(a, b), ExprTree::Add(c, d)) => says_same(a, c) && says_same(b, d),
        (ExprTree::Sub(a, b), ExprTree::Sub(c, d)) => says_same(a, c) && says_same(b, d),
        (
            ExprTree::Mul { left, right, .. },
            ExprTree::Mul {
                left: other,
                right: last,
                ..
            },
        ) => says_same(left, other) && says_same(right, last),
        _ => false,
    }
}

// Whether the item is the sum of the expression.
fn is_sum_of(argument: &ExprTree, item: &ItemTree) -> bool
    ensures { result ≡ is_sum_of (expr_of argument.now) (item_of item.now) }
{
    match item {
        ItemTree::Column(_) | ItemTree::Count => false,
        ItemTree::Call { kind, arg } => match kind {
            CallKind::Sum => says_same(argument, arg),
            CallKind::Count | CallKind::Avg | CallKind::Min | CallKind::Max => false,
        },
    }
}

// Whether it is the number of its values.
fn is_count_of(argument: &ExprTree, item: &ItemTree) -> bool
    ensures { result ≡ is_count_of (expr_of argument.now) (item_of item.now) }
{
    match item {
        ItemTree::Column(_) | ItemTree::Count => false,
        ItemTree::Call { kind, arg } => match kind {
            CallKind::Count => says_same(argument, arg),
            CallKind::Sum | CallKind::Avg | CallKind::Min | CallKind::Max => false,
        },
    }
}

// Both places, where there are both.
fn beside_at(sum: Option<usize>, count: Option<usize>) -> Option<Beside>
    ensures { result ≡ beside_at sum count }
{
    match (sum, count) {
        (Some(sum), Some(count)) => Some(Beside { sum, count }),
        (Some(_), None) | (None, _) => None,
    }
}

// The first sum of the expression.
fn place_of_sum(argument: &ExprTree, items: &[&ItemTree]) -> Option<usize>
    ensures { result ≡ position (λ item. is_sum_of (expr_of argument.now) (item_of item.now)) items.now }
{
    items.iter().position(|item| is_sum_of(argument, item))
}

// The first number of its values.
fn place_of_count(argument: &ExprTree, items: &[&ItemTree]) -> Option<usize>
    ensures { result ≡ position (λ item. is_count_of (expr_of argument.now) (item_of item.now)) items.now }
{
    items.iter().position(|item| is_count_of(argument, item))
}

// What stands beside an average of the expression.
fn beside_average(items: &[&ItemTree], argument: &ExprTree) -> Option<Beside>
    ensures { result ≡ beside_average (items_in items.now) (expr_of argument.now) }
{
    beside_at(
        place_of_sum(argument, items),
        place_of_count(argument, items),
    )
}

// What stands beside an item.
fn beside_in(items: &[&ItemTree], item: &ItemTree) -> Option<Beside>
    ensures { result ≡ beside_in (items_in items.now) (item_of item.now) }
{
    match item {
        ItemTree::Column(_) | ItemTree::Count => None,
        ItemTree::Call { kind, arg } => match kind {
            CallKind::Avg => beside_average(items, arg),
            CallKind::Sum | CallKind::Count | CallKind::Min | CallKind::Max => None,
        },
    }
}

// What stands beside each of the items.
pub(crate) fn besides(alloc: Global, items: &[&ItemTree]) -> Result<Vec<Option<Beside>>, AllocError>
    ensures { IfOk result (λ besides. besides.items ≡ map (beside_in (items_in items.now)) (items_in items.now)) }
{
    let mut besides = Vec::with_capacity(alloc, items.len())?;
    for item in items {
        besides.push(beside_in(items, item))?;
    }
    Ok(besides)
}
