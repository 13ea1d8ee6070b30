//! The numbers that a condition lets through for the column of an item.

ghost use Rattle.std.specs.Prelude.{◌≡◌, ◌<◌, ◌==◌, length, slice_get, IfSome};
ghost use Rattle.std.specs.List.{list_any};
ghost use Rattle.query_model.specs.Attaining.{is_range};
ghost use Rattle.query_model.specs.Meaning.{columns_of_atom, columns_of_pred};
ghost use Rattle.query_model.specs.Queries.{condition_of, term_of};
ghost use Rattle.clip_bounds.specs.Clips.{before, behind, clip_in, clip_of, clip_of_argument, clip_of_atom};
ghost use Rattle.clip_bounds.specs.Clips.{clip_of_comparison, common, common_of, is_clipped_kind, is_plain, stands_beside};
ghost use Rattle.clip_bounds.specs.Ends.{clip_end};

use aggregates::End;
use query_model::{Atom, Comparison, Expr, ItemKind, Pred, Shape, TypedQuery};

/// A range of the numbers of a column of the query: from `low` to `high`, none where `low` is greater.
#[derive(Clone, Copy, Debug, PartialEq, Eq)]
pub struct Clip {
    pub column: u8,
    pub low: i128,
    pub high: i128,
}

impl Clip {
    // One of its ends.
    pub(crate) fn end(self, end: End) -> i128
        ensures { result ≡ clip_end end self }
    {
        match end {
            End::Low => self.low,
            End::High => self.high,
        }
    }
}

// The numbers next to another.
fn before(number: i128) -> i128
    ensures { result ≡ before number }
{
    number.checked_sub(1).unwrap_or(number)
}

fn behind(number: i128) -> i128
    ensures { result ≡ behind number }
{
    number.checked_add(1).unwrap_or(number)
}

// The numbers that pass a comparison with a number, if they are a range.
fn clip_of_comparison(column: u8, op: Comparison, value: i128) -> Option<Clip>
    ensures { result ≡ clip_of_comparison column op value }
{
    let least = i128::from(i64::MIN);
    let greatest = i128::from(i64::MAX);
    let (low, high) = match op {
        Comparison::Eq => (value, value),
        Comparison::Ne => return None,
        Comparison::Lt => (least, before(value)),
        Comparison::Le => (least, value),
        Comparison::Gt => (behind(value), greatest),
        Comparison::Ge => (value, greatest),
    };
    Some(Clip { column, low, high })
}

// The same for an atom and its column.
fn clip_of_atom(atom: &Atom) -> Option<Clip>
    ensures { result ≡ clip_of_atom atom.now }
{
    match atom {
        Atom::Compare { column, op, value } => clip_of_comparison(*column, *op, *value),
        Atom::Between { column, low, high } => Some(Clip {
            column: *column,
            low: *low,
            high: *high,
        }),
        Atom::CompareColumns { .. } | Atom::OneOf { .. } | Atom::IsNull { .. } => None,
    }
}

// Whether an atom is a range of a column.
fn is_range(atom: &Atom) -> bool
    ensures { result ≡ is_range atom.now }
{
    match atom {
        Atom::Compare { op, .. } => !matches!(op, Comparison::Ne),
        Atom::Between { .. } => true,
        Atom::CompareColumns { .. } | Atom::OneOf { .. } | Atom::IsNull { .. } => false,
    }
}

// The numbers that two clips of one column both let through.
fn common(a: Clip, b: Clip) -> Clip
    ensures { result ≡ common a b }
{
    Clip {
        column: a.column,
        low: a.low.max(b.low),
        high: a.high.min(b.high),
    }
}

// What both let through, or the one that there is.
fn common_of(a: Option<Clip>, b: Option<Clip>) -> Option<Clip>
    ensures { result ≡ common_of a b }
{
    match (a, b) {
        (None, other) => other,
        (Some(own), None) => Some(own),
        (Some(own), Some(other)) => Some(common(own, other)),
    }
}

// What the ranges of a column let through together, which are the condition or operands of its top ANDs.
fn clip_in(pred: &Pred, column: u8) -> Option<Clip>
    ensures { result ≡ clip_in (condition_of pred.now) column }
{
    match pred {
        Pred::Atom(atom) => match clip_of_atom(atom) {
            Some(clip) if clip.column == column => Some(clip),
            _ => None,
        },
        Pred::And(a, b) => {
            let first = clip_in(a, column);
            let second = clip_in(b, column);
            common_of(first, second)
        }
        Pred::All | Pred::Or(_, _) | Pred::Not(_) => None,
    }
}

// Whether a column stands in an atom.
fn stands_in_atom(atom: &Atom, column: u8) -> bool
    ensures { result ≡ list_any (λ d. column == d) (columns_of_atom atom.now) }
{
    match atom {
        Atom::CompareColumns { left, right, .. } => column == *left || column == *right,
        Atom::Compare { column: own, .. }
        | Atom::Between { column: own, .. }
        | Atom::OneOf { column: own, .. }
        | Atom::IsNull { column: own } => column == *own,
    }
}

// Whether a column stands in the condition.
fn stands_in(pred: &Pred, column: u8) -> bool
    ensures { result ≡ list_any (λ d. column == d) (columns_of_pred (condition_of pred.now)) }
{
    match pred {
        Pred::All => false,
        Pred::Atom(atom) => stands_in_atom(atom, column),
        Pred::And(a, b) | Pred::Or(a, b) => stands_in(a, column) || stands_in(b, column),
        Pred::Not(a) => stands_in(a, column),
    }
}

// Whether a column stands in the condition elsewhere than in ranges that are the condition or operands of its top ANDs.
fn stands_beside(pred: &Pred, column: u8) -> bool
    ensures { result ≡ stands_beside (condition_of pred.now) column }
{
    match pred {
        Pred::Atom(atom) => !is_range(atom) && stands_in_atom(atom, column),
        Pred::And(a, b) => stands_beside(a, column) || stands_beside(b, column),
        Pred::All | Pred::Or(_, _) | Pred::Not(_) => stands_in(pred, column),
    }
}

// The numbers of an argument at which the condition can hold.
fn clip_of_argument(pred: &Pred, arg: &Expr) -> Option<Clip>
    ensures { result ≡ clip_of_argument (condition_of pred.now) (term_of arg.now) }
{
    match arg {
        Expr::Column(column) => {
            if stands_beside(pred, *column) {
                None
            } else {
                clip_in(pred, *column)
            }
        }
        Expr::Literal(_) | Expr::Add(_, _) | Expr::Sub(_, _) | Expr::Mul(_, _) => None,
    }
}

fn is_plain(shape: &Shape) -> bool
    ensures { result ≡ is_plain shape.now }
{
    match shape {
        Shape::Plain => true,
        Shape::Grouped(_) | Shape::Top { .. } => false,
    }
}

fn is_clipped_kind(kind: ItemKind) -> bool
    ensures { result ≡ is_clipped_kind kind }
{
    match kind {
        ItemKind::Sum | ItemKind::Min | ItemKind::Max => true,
        ItemKind::Count | ItemKind::Avg => false,
    }
}

/// The numbers that the condition lets through for an item's column. There are some where neither groups nor an order are asked for,
/// the item is the sum or an extreme of a bare column, and this column stands in the condition in ranges alone: comparisons with a
/// number but for "not equal", and BETWEEN, which are the condition itself or operands of its top ANDs. They are what these ranges
/// have in common: none where these do not meet, and `low` is then greater than `high`.
pub fn clip_of(query: &TypedQuery, item: usize) -> Option<Clip>
    requires { item < length query.now.items }
    ensures { IfSome (slice_get query.now.items item) (λ i. result ≡ clip_of query.now i) }
{
    let chosen = &query.items.as_slice()[item];
    if is_plain(&query.shape) && is_clipped_kind(chosen.kind) {
        clip_of_argument(&query.pred, &chosen.arg)
    } else {
        None
    }
}
