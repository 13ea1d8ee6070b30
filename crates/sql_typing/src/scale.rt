//! Numbers at another scale.

ghost use Rattle.std.specs.Prelude.{◌≡◌, ◌≤◌, ◌-◌, ◌^◌, ◌*ℤ◌, pos, min, FitsSigned};
ghost use Rattle.std.specs.Int.{w64, w128};
ghost use Rattle.sql_text.specs.Tree.{expr_of};
ghost use Rattle.sql_typing.specs.Kinds.{scale_of_kind};
ghost use Rattle.sql_typing.specs.Typing.{scale_of};

use crate::table::kind_of;
use daq_table::{ColumnHead, Kind};
use sql_text::ExprTree;

/// The most decimals of a number in a query.
pub(crate) const MOST_SCALE: u32 = 18;

/// The decimals of a column's numbers.
pub(crate) fn scale_of_kind(kind: Kind) -> u32
    ensures { result ≡ scale_of_kind kind }
{
    match kind {
        Kind::Dec(scale) => scale as u32,
        Kind::Int | Kind::Date | Kind::Text => 0,
    }
}

/// The decimals of an expression's value, of which there may be very many.
#[tactic(auto, using(crate::proofs::Scales::sum_of_mins, crate::proofs::Scales::max_of_mins))]
pub(crate) fn scale_of(table: &[ColumnHead], expr: &ExprTree) -> u32
    ensures { result ≡ min (scale_of table.now (expr_of expr.now)) (2 ^ 32 - 1) }
{
    match expr {
        ExprTree::Column(name) => scale_of_kind(kind_of(table, name.name.as_slice())),
        ExprTree::Number(number) => number.scale as u32,
        ExprTree::Add(left, right) => scale_of(table, left).max(scale_of(table, right)),
        ExprTree::Sub(left, right) => scale_of(table, left).max(scale_of(table, right)),
        ExprTree::Mul { left, right, .. } => {
            scale_of(table, left).saturating_add(scale_of(table, right))
        }
    }
}

/// 10 to that power.
#[tactic(auto, using(crate::proofs::Scales::power_fits))]
pub(crate) fn power_of_ten(exponent: u32) -> i128
    requires { exponent ≤ 18 }
    ensures { result ≡ pos (10 ^ exponent) }
{
    10i128.pow(exponent)
}

fn product(number: i128, factor: i128) -> i128
    requires { FitsSigned w128 (number *ℤ factor) }
    ensures { result ≡ number *ℤ factor }
{
    number * factor
}

/// The number in units of so many decimals more.
pub(crate) fn raised_number(number: i128, by: u32) -> i128
    requires few { by ≤ 18 }
    requires small { FitsSigned w64 number }
    ensures { result ≡ number *ℤ pos (10 ^ by) }
{
    product(number, power_of_ten(by))
}
