//! Typed conditions.

ghost use Rattle.std.specs.Prelude.{◌≡◌, map, vec_items};
ghost use Rattle.query_model.specs.Queries.{Single, condition_of};
ghost use Rattle.sql_text.specs.Tree.{name_of, operand_of, pred_of, pred_option};
ghost use Rattle.sql_text.specs.Tree as tree;
ghost use Rattle.sql_typing.specs.Faults.{filter_fault, pred_fault, value_fault, values_fault};
ghost use Rattle.sql_typing.specs.Kinds.{can_compare};
ghost use Rattle.sql_typing.specs.Names.{dictionary_of, kind_of};
ghost use Rattle.sql_typing.specs.Parts.{Types};
ghost use Rattle.sql_typing.specs.Typing.{member, spot_of, spot_in, typed_filter, typed_pred};

use crate::fault::TypeFault;
use crate::numbering::Numbering;
use crate::scale::scale_of_kind;
use crate::spot::{Spot, between, op_of};
use crate::table::{dictionary_of, kind_of};
use crate::value::{is_number, place_of_value, spot_of};
use daq_table::{ColumnHead, Kind};
use query_model::{Atom, Pred, Values};
use sql_text::{Comparison, Named, PredTree, Value};
use std::alloc::Global;

/// The most values of an IN.
const MOST_VALUES: usize = 64;

/// Whether columns of these kinds can be compared.
fn can_compare(left: Kind, right: Kind) -> bool
    ensures { result ≡ can_compare left right }
{
    match (left, right) {
        (Kind::Date, Kind::Date) => true,
        _ => { is_number(left) && is_number(right) && scale_of_kind(left) == scale_of_kind(right) }
    }
}

/// Where a value stands among the numbers of a column.
fn spot_in(table: &[ColumnHead], column: &Named, value: &Value) -> Result<Spot, TypeFault>
    ensures { Types (λ s. s) result (value_fault (kind_of table.now (name_of column.now).name) (operand_of value.now))
        (spot_in table.now (name_of column.now) (operand_of value.now)) }
{
    let name = column.name.as_slice();
    spot_of(kind_of(table, name), dictionary_of(table, name), value)
}

fn typed_comparison(
    table: &[ColumnHead],
    columns: &Numbering,
    column: &Named,
    op: Comparison,
    value: &Value,
) -> Result<Atom, TypeFault>
    ensures { Types Single result (pred_fault table.now (tree.Compare (name_of column.now) op (operand_of value.now)))
        (typed_pred table.now columns.now (tree.Compare (name_of column.now) op (operand_of value.now))) }
{
    let spot = spot_in(table, column, value)?;
    let number = columns.number_of(table, column.name.as_slice());
    Ok(spot.compared(number, op))
}

fn typed_columns(
    table: &[ColumnHead],
    columns: &Numbering,
    left: &Named,
    op: Comparison,
    right: &Named,
) -> Result<Atom, TypeFault>
    ensures { Types Single result (pred_fault table.now (tree.Columns (name_of left.now) op (name_of right.now)))
        (typed_pred table.now columns.now (tree.Columns (name_of left.now) op (name_of right.now))) }
{
    let left_name = left.name.as_slice();
    let right_name = right.name.as_slice();
    if !can_compare(kind_of(table, left_name), kind_of(table, right_name)) {
        return Err(TypeFault::KindsDiffer { at: right.at });
    }
    Ok(Atom::CompareColumns {
        left: columns.number_of(table, left_name),
        op: op_of(op),
        right: columns.number_of(table, right_name),
    })
}

fn typed_between(
    table: &[ColumnHead],
    columns: &Numbering,
    column: &Named,
    low: &Value,
    high: &Value,
) -> Result<Atom, TypeFault>
    ensures { Types Single result (pred_fault table.now (tree.Between (name_of column.now) (operand_of low.now) (operand_of high.now)))
        (typed_pred table.now columns.now (tree.Between (name_of column.now) (operand_of low.now) (operand_of high.now))) }
{
    let low = spot_in(table, column, low)?;
    let high = spot_in(table, column, high)?;
    let number = columns.number_of(table, column.name.as_slice());
    Ok(between(number, low, high))
}

/// The values of an IN.
fn members(
    alloc: Global,
    table: &[ColumnHead],
    column: &Named,
    values: &[Value],
) -> Result<Vec<i128>, TypeFault>
    ensures { Types vec_items result (values_fault (kind_of table.now (name_of column.now).name) 0 (map operand_of values.now))
        (map (λ v. member (spot_in table.now (name_of column.now) v)) (map operand_of values.now)) }
{
    let mut members = Vec::new(alloc);
    for (before, value) in values.iter().enumerate() {
        let spot = spot_in(table, column, value)?;
        if before == MOST_VALUES {
            return Err(TypeFault::TooManyValues {
                at: place_of_value(value),
            });
        }
        members.push(spot.member())?;
    }
    Ok(members)
}

fn typed_members(
    alloc: Global,
    table: &[ColumnHead],
    columns: &Numbering,
    column: &Named,
    values: &[Value],
) -> Result<Atom, TypeFault>
    ensures { Types Single result (pred_fault table.now (tree.OneOf (name_of column.now) (map operand_of values.now)))
        (typed_pred table.now columns.now (tree.OneOf (name_of column.now) (map operand_of values.now))) }
{
    let members = members(alloc, table, column, values)?;
    Ok(Atom::OneOf {
        column: columns.number_of(table, column.name.as_slice()),
        values: Values::new(members),
    })
}

/// The condition with its columns by number and its values as numbers of these, or its first fault.
pub(crate) fn typed_pred(
    alloc: Global,
    table: &[ColumnHead],
    columns: &Numbering,
    pred: &PredTree,
) -> Result<Pred, TypeFault>
    ensures { Types condition_of result (pred_fault table.now (pred_of pred.now)) (typed_pred table.now columns.now (pred_of pred.now)) }
{
    match pred {
        PredTree::Compare { column, op, value } => {
            Ok(Pred::Atom(typed_comparison(table, columns, column, *op, value)?))
        }
        PredTree::Columns { left, op, right } => {
            Ok(Pred::Atom(typed_columns(table, columns, left, *op, right)?))
        }
        PredTree::Between { column, low, high } => {
            Ok(Pred::Atom(typed_between(table, columns, column, low, high)?))
        }
        PredTree::OneOf { column, values } => {
            let values = values.as_slice();
            Ok(Pred::Atom(typed_members(alloc, table, columns, column, values)?))
        }
        PredTree::IsNull { column } => Ok(Pred::Atom(Atom::IsNull {
            column: columns.number_of(table, column.name.as_slice()),
        })),
        PredTree::Not(inner) => {
            let inner = typed_pred(alloc, table, columns, inner)?;
            Ok(Pred::Not(Box::new(alloc, inner)?))
        }
        PredTree::And(left, right) => {
            let left = typed_pred(alloc, table, columns, left)?;
            let right = typed_pred(alloc, table, columns, right)?;
            Ok(Pred::And(Box::new(alloc, left)?, Box::new(alloc, right)?))
        }
        PredTree::Or(left, right) => {
            let left = typed_pred(alloc, table, columns, left)?;
            let right = typed_pred(alloc, table, columns, right)?;
            Ok(Pred::Or(Box::new(alloc, left)?, Box::new(alloc, right)?))
        }
    }
}

/// The condition of a query; each row meets it where none is written.
pub(crate) fn typed_filter(
    alloc: Global,
    table: &[ColumnHead],
    columns: &Numbering,
    filter: &Option<PredTree>,
) -> Result<Pred, TypeFault>
    ensures { Types condition_of result (filter_fault table.now (pred_option filter.now))
        (typed_filter table.now columns.now (pred_option filter.now)) }
{
    match filter {
        Some(pred) => typed_pred(alloc, table, columns, pred),
        None => Ok(Pred::All),
    }
}
