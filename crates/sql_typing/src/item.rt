//! Typed aggregates.

ghost use Rattle.std.specs.Prelude.{◌≡◌, ◌++◌, [], OnOk, map, vec_items, None};
ghost use Rattle.std.specs.List.{cons_option, filter_map, list_any};
ghost use Rattle.std.specs.Option.{option_map};
ghost use Rattle.std.specs.Str.{bytes_eq};
ghost use Rattle.query_model.specs.Queries.{term_of};
ghost use Rattle.sql_text.specs.Tree.{ending_of, expr_of, head_of, item_of, name_of};
ghost use Rattle.sql_typing.specs.Faults.{argument_fault, expr_fault, first_in, head_fault, item_fault, items_fault};
ghost use Rattle.sql_typing.specs.Parts.{Types};
ghost use Rattle.sql_typing.specs.Typing.{bare_column, face_of, kind_of_call, scale_of, typed_call};
ghost use Rattle.sql_typing.specs.Typing.{typed_expr, typed_head, typed_item, typed_items, whole_column};

use crate::expression::typed_expr;
use crate::fault::TypeFault;
use crate::numbering::Numbering;
use crate::scale::scale_of;
use daq_table::ColumnHead;
use query_model::{Expr, Face, Item, ItemKind};
use sql_text::{CallKind, Ending, ExprTree, ItemTree, Named, Select};
use std::alloc::{AllocError, Global};

fn kind_of_call(kind: CallKind) -> ItemKind
    ensures { result ≡ kind_of_call kind }
{
    match kind {
        CallKind::Count => ItemKind::Count,
        CallKind::Sum => ItemKind::Sum,
        CallKind::Avg => ItemKind::Avg,
        CallKind::Min => ItemKind::Min,
        CallKind::Max => ItemKind::Max,
    }
}

fn is_same(group: &Named, name: &Named) -> bool
    ensures { result ≡ bytes_eq (name_of group.now).name (name_of name.now).name }
{
    group.name.as_slice() == name.name.as_slice()
}

/// Whether the name is in GROUP BY.
fn is_grouped(groups: &[Named], name: &Named) -> bool
    ensures { result ≡ list_any (λ g. bytes_eq (name_of g).name (name_of name.now).name) groups.now }
{
    groups.iter().any(|group| is_same(group, name))
}

fn bare_column(expr: &ExprTree) -> Option<&Named>
    ensures { option_map (λ n. name_of n.now) result ≡ bare_column (expr_of expr.now) }
{
    match expr {
        ExprTree::Column(name) => Some(name),
        ExprTree::Number(_) | ExprTree::Add(_, _) | ExprTree::Sub(_, _) | ExprTree::Mul { .. } =>
            None,
    }
}

/// The column that is the whole argument of COUNT, MIN or MAX.
fn whole_column(kind: CallKind, arg: &ExprTree) -> Option<&Named>
    ensures { option_map (λ n. name_of n.now) result ≡ whole_column kind (expr_of arg.now) }
{
    match kind {
        CallKind::Count | CallKind::Min | CallKind::Max => bare_column(arg),
        CallKind::Sum | CallKind::Avg => None,
    }
}

/// The argument of an aggregate, or its first fault.
fn typed_argument(
    alloc: Global,
    table: &[ColumnHead],
    columns: &Numbering,
    kind: CallKind,
    arg: &ExprTree,
) -> Result<Expr, TypeFault>
    ensures { Types term_of result (argument_fault table.now (whole_column kind (expr_of arg.now)) (expr_of arg.now))
        (typed_expr table.now columns.now (expr_of arg.now)) }
{
    match whole_column(kind, arg) {
        Some(column) => Ok(Expr::Column(columns.number_of(table, column.name.as_slice()))),
        None => typed_expr(alloc, table, columns, arg),
    }
}

/// A number with the decimals of the expression.
#[tactic(auto, using(crate::proofs::Scales::fine_scale))]
fn number_face(table: &[ColumnHead], expr: &ExprTree) -> Face
    requires { expr_fault table.now (expr_of expr.now) ≡ None }
    ensures { result ≡ Face.Number (scale_of table.now (expr_of expr.now)) }
{
    Face::Number(scale_of(table, expr) as u8)
}

/// How the answer of an aggregate is printed.
fn face_of(table: &[ColumnHead], columns: &Numbering, kind: CallKind, arg: &ExprTree) -> Face
    requires { argument_fault table.now (whole_column kind (expr_of arg.now)) (expr_of arg.now) ≡ None }
    ensures { result ≡ face_of table.now columns.now kind (expr_of arg.now) }
{
    match kind {
        CallKind::Count => Face::Number(0),
        CallKind::Sum | CallKind::Avg => number_face(table, arg),
        CallKind::Min | CallKind::Max => match bare_column(arg) {
            Some(column) => Face::OfColumn(columns.number_of(table, column.name.as_slice())),
            None => number_face(table, arg),
        },
    }
}

fn typed_call(
    alloc: Global,
    table: &[ColumnHead],
    columns: &Numbering,
    kind: CallKind,
    arg: &ExprTree,
) -> Result<Item, TypeFault>
    ensures { Types (λ i. i) result (argument_fault table.now (whole_column kind (expr_of arg.now)) (expr_of arg.now))
        (typed_call table.now columns.now kind (expr_of arg.now)) }
{
    let typed = typed_argument(alloc, table, columns, kind, arg)?;
    Ok(Item {
        kind: kind_of_call(kind),
        arg: typed,
        face: face_of(table, columns, kind, arg),
    })
}

/// The aggregate of an item, if it is one: a name in the select list is none.
#[tactic(auto, using(crate::proofs::Lists::any_map))]
fn typed_item(
    alloc: Global,
    table: &[ColumnHead],
    columns: &Numbering,
    groups: &[Named],
    item: &ItemTree,
) -> Result<Option<Item>, TypeFault>
    ensures { Types (λ o. o) result (item_fault table.now (map name_of groups.now) (item_of item.now))
        (typed_item table.now columns.now (item_of item.now)) }
{
    match item {
        ItemTree::Column(name) => {
            if is_grouped(groups, name) {
                Ok(None)
            } else {
                Err(TypeFault::NotGrouped { at: name.at })
            }
        }
        ItemTree::Count => Ok(Some(Item {
            kind: ItemKind::Count,
            arg: Expr::Literal(0),
            face: Face::Number(0),
        })),
        ItemTree::Call { kind, arg } => Ok(Some(typed_call(alloc, table, columns, *kind, arg)?)),
    }
}

fn push_some(items: &mut Vec<Item>, item: Option<Item>) -> Result<(), AllocError>
    ensures { OnOk result (items.new.items ≡ items.old.items ++ cons_option item []) }
{
    if let Some(item) = item {
        items.push(item)?;
    }
    Ok(())
}

fn typed_list(
    alloc: Global,
    table: &[ColumnHead],
    columns: &Numbering,
    groups: &[Named],
    items: &[ItemTree],
) -> Result<Vec<Item>, TypeFault>
    ensures { Types vec_items result (first_in (item_fault table.now (map name_of groups.now)) (map item_of items.now))
        (filter_map (typed_item table.now columns.now) (map item_of items.now)) }
{
    let mut typed = Vec::new(alloc);
    for item in items {
        let aggregate = typed_item(alloc, table, columns, groups, item)?;
        push_some(&mut typed, aggregate)?;
    }
    Ok(typed)
}

/// The aggregates of a select list, in order, or its first fault.
fn typed_head(
    alloc: Global,
    table: &[ColumnHead],
    columns: &Numbering,
    groups: &[Named],
    head: &Select,
) -> Result<Vec<Item>, TypeFault>
    ensures { Types vec_items result (head_fault table.now (map name_of groups.now) (head_of head.now))
        (typed_head table.now columns.now (head_of head.now)) }
{
    match head {
        Select::Items(items) => typed_list(alloc, table, columns, groups, items.as_slice()),
        Select::Star => Ok(Vec::new(alloc)),
    }
}

/// The aggregates of a query, or the first fault of its select list. Rows in an order have none.
pub(crate) fn typed_items(
    alloc: Global,
    table: &[ColumnHead],
    columns: &Numbering,
    ending: &Ending,
    head: &Select,
) -> Result<Vec<Item>, TypeFault>
    ensures { Types vec_items result (items_fault table.now (ending_of ending.now) (head_of head.now))
        (typed_items table.now columns.now (ending_of ending.now) (head_of head.now)) }
{
    match ending {
        Ending::Nothing => typed_head(alloc, table, columns, &[], head),
        Ending::Group(names) => typed_head(alloc, table, columns, names.as_slice(), head),
        Ending::Order { .. } => Ok(Vec::new(alloc)),
    }
}
