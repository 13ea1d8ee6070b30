//! Typed expressions.

ghost use Rattle.std.specs.Prelude.{◌≡◌, ◌≤◌, ◌-◌, IfOk, nat_lt};
ghost use Rattle.query_model.specs.Queries.{Column, Literal, Mul, term_of};
ghost use Rattle.sql_text.specs.Tree.{expr_of, name_of};
ghost use Rattle.sql_typing.specs.Faults.{expr_fault, first_of, operand_fault, fault_if};
ghost use Rattle.sql_typing.specs.Names.{kind_of, number_of};
ghost use Rattle.sql_typing.specs.Parts.{Checks, IsSmall, Types};
ghost use Rattle.sql_typing.specs.Typing.{literal_of, raised, scale_of, typed_expr, typed_sides};
ghost use Rattle.sql_text.specs.Tree as tree;
ghost use Rattle.sql_typing.specs.declared.fault.TypeFault.TheVariants.{ScaleTooFine};

use crate::fault::TypeFault;
use crate::numbering::Numbering;
use crate::scale::{MOST_SCALE, power_of_ten, raised_number, scale_of};
use crate::table::kind_of;
use daq_table::{ColumnHead, Kind};
use query_model::Expr;
use sql_text::{ExprTree, Named};
use std::alloc::{AllocError, Global};

fn literal_of(expr: &Expr) -> Option<i128>
    ensures { result ≡ literal_of (term_of expr.now) }
{
    match expr {
        Expr::Literal(number) => Some(*number),
        Expr::Column(_) | Expr::Add(_, _) | Expr::Sub(_, _) | Expr::Mul(_, _) => None,
    }
}

fn product(alloc: Global, expr: Expr, factor: i128) -> Result<Expr, AllocError>
    ensures { IfOk result (λ e. term_of e ≡ Mul (term_of expr) (Literal factor)) }
{
    Ok(Expr::Mul(
        Box::new(alloc, expr)?,
        Box::new(alloc, Expr::Literal(factor))?,
    ))
}

/// The same value in units of so many decimals more.
fn raised(alloc: Global, expr: Expr, by: u32) -> Result<Expr, AllocError>
    requires few { by ≤ 18 }
    requires small { IsSmall (term_of expr) }
    ensures { IfOk result (λ e. term_of e ≡ raised by (term_of expr)) }
{
    if by == 0 {
        return Ok(expr);
    }
    match literal_of(&expr) {
        Some(number) => Ok(Expr::Literal(raised_number(number, by))),
        None => product(alloc, expr, power_of_ten(by)),
    }
}

fn check_operand(kind: Kind, at: usize) -> Result<(), TypeFault>
    ensures { Checks result (operand_fault kind at) }
{
    match kind {
        Kind::Int => Ok(()),
        Kind::Dec(scale) => {
            if scale as u32 > MOST_SCALE {
                Err(TypeFault::ScaleTooFine { at })
            } else {
                Ok(())
            }
        }
        Kind::Date | Kind::Text => Err(TypeFault::KindsDiffer { at }),
    }
}

fn typed_column(table: &[ColumnHead], columns: &Numbering, name: &Named) -> Result<Expr, TypeFault>
    ensures { Types term_of result (operand_fault (kind_of table.now (name_of name.now).name) (name_of name.now).at)
        (Column (number_of table.now columns.now (name_of name.now).name)) }
{
    check_operand(kind_of(table, name.name.as_slice()), name.at)?;
    Ok(Expr::Column(columns.number_of(table, name.name.as_slice())))
}

/// No number has more decimals than that.
fn check_scale(scale: u32, at: usize) -> Result<(), TypeFault>
    ensures { Checks result (fault_if (nat_lt 18 scale) (ScaleTooFine at)) }
{
    if scale > MOST_SCALE {
        Err(TypeFault::ScaleTooFine { at })
    } else {
        Ok(())
    }
}

/// The sides of a sum or a difference, in units of the same decimal.
#[cycle(expr)]
#[tactic(auto, using(crate::proofs::Scales::fine_scale))]
fn sides(
    alloc: Global,
    table: &[ColumnHead],
    columns: &Numbering,
    left: &ExprTree,
    right: &ExprTree,
) -> Result<(Expr, Expr), TypeFault>
    ensures { Types (λ p. (term_of p.0, term_of p.1)) result
        (first_of (expr_fault table.now (expr_of left.now)) (expr_fault table.now (expr_of right.now)))
        (typed_sides table.now columns.now (expr_of left.now) (expr_of right.now)) }
{
    let typed_left = typed_expr(alloc, table, columns, left)?;
    let typed_right = typed_expr(alloc, table, columns, right)?;
    let left_scale = scale_of(table, left);
    let right_scale = scale_of(table, right);
    Ok((
        raised(alloc, typed_left, right_scale.saturating_sub(left_scale))?,
        raised(alloc, typed_right, left_scale.saturating_sub(right_scale))?,
    ))
}

/// A product, whose sign stands at that place.
#[cycle(expr)]
fn typed_product(
    alloc: Global,
    table: &[ColumnHead],
    columns: &Numbering,
    at: usize,
    left: &ExprTree,
    right: &ExprTree,
) -> Result<Expr, TypeFault>
    ensures { Types term_of result (expr_fault table.now (tree.Mul at (expr_of left.now) (expr_of right.now)))
        (typed_expr table.now columns.now (tree.Mul at (expr_of left.now) (expr_of right.now))) }
{
    let typed_left = typed_expr(alloc, table, columns, left)?;
    let scale = scale_of(table, left).saturating_add(scale_of(table, right));
    check_scale(scale, at)?;
    let typed_right = typed_expr(alloc, table, columns, right)?;
    Ok(Expr::Mul(Box::new(alloc, typed_left)?, Box::new(alloc, typed_right)?))
}

/// The expression with its columns by number and its numbers in units of their decimals, or its first fault.
#[cycle(expr)]
pub(crate) fn typed_expr(
    alloc: Global,
    table: &[ColumnHead],
    columns: &Numbering,
    expr: &ExprTree,
) -> Result<Expr, TypeFault>
    ensures types { Types term_of result (expr_fault table.now (expr_of expr.now)) (typed_expr table.now columns.now (expr_of expr.now)) }
    ensures small { IfOk result (λ e. IsSmall (term_of e)) }
{
    match expr {
        ExprTree::Column(name) => typed_column(table, columns, name),
        ExprTree::Number(number) => {
            check_scale(number.scale as u32, number.at)?;
            Ok(Expr::Literal(number.units as i128))
        }
        ExprTree::Add(left, right) => {
            let (left, right) = sides(alloc, table, columns, left, right)?;
            Ok(Expr::Add(Box::new(alloc, left)?, Box::new(alloc, right)?))
        }
        ExprTree::Sub(left, right) => {
            let (left, right) = sides(alloc, table, columns, left, right)?;
            Ok(Expr::Sub(Box::new(alloc, left)?, Box::new(alloc, right)?))
        }
        ExprTree::Mul { at, left, right } => {
            typed_product(alloc, table, columns, *at, left, right)
        }
    }
}
