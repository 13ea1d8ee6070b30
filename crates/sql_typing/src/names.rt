//! The names of a query, in the order of its text.

ghost use Rattle.std.specs.Prelude.{◌≡◌, ◌∷◌, [], ◌++◌, map, OnOk, IfOk};
ghost use Rattle.sql_text.specs.Tree.{name_of, expr_of, item_of, head_of, pred_of, pred_option, ending_of, query_of};
ghost use Rattle.sql_typing.specs.Names.{mentions, names_in, names_in_expr, names_in_item, names_in_items};
ghost use Rattle.sql_typing.specs.Names.{names_in_head, names_in_pred, names_in_filter, names_in_ending};

use crate::table::place_of;
use daq_table::ColumnHead;
use sql_text::{Ending, ExprTree, ItemTree, Named, PredTree, Select, Tree};
use std::alloc::{AllocError, Global};

/// Where a name stands, and the column of the table that it names, if there is one.
#[derive(Clone, Copy, Debug, PartialEq, Eq)]
pub(crate) struct Mention {
    pub at: usize,
    pub column: Option<usize>,
}

fn put_name(out: &mut Vec<Mention>, table: &[ColumnHead], name: &Named) -> Result<(), AllocError>
    ensures { OnOk result (out.new.items ≡ out.old.items ++ mentions table.now (name_of name.now ∷ [])) }
{
    out.push(Mention {
        at: name.at,
        column: place_of(table, name.name.as_slice()),
    })?;
    Ok(())
}

fn put_names(
    out: &mut Vec<Mention>,
    table: &[ColumnHead],
    names: &[Named],
) -> Result<(), AllocError>
    ensures { OnOk result (out.new.items ≡ out.old.items ++ mentions table.now (map name_of names.now)) }
{
    match names {
        [] => Ok(()),
        [first, rest @ ..] => {
            put_name(out, table, first)?;
            put_names(out, table, rest)
        }
    }
}

#[tactic(auto, using(crate::proofs::Mentions::mentions_append))]
fn put_expr(out: &mut Vec<Mention>, table: &[ColumnHead], expr: &ExprTree) -> Result<(), AllocError>
    ensures { OnOk result (out.new.items ≡ out.old.items ++ mentions table.now (names_in_expr (expr_of expr.now))) }
{
    match expr {
        ExprTree::Column(name) => put_name(out, table, name),
        ExprTree::Number(_) => Ok(()),
        ExprTree::Add(left, right) => {
            put_expr(out, table, left)?;
            put_expr(out, table, right)
        }
        ExprTree::Sub(left, right) => {
            put_expr(out, table, left)?;
            put_expr(out, table, right)
        }
        ExprTree::Mul { left, right, .. } => {
            put_expr(out, table, left)?;
            put_expr(out, table, right)
        }
    }
}

fn put_item(out: &mut Vec<Mention>, table: &[ColumnHead], item: &ItemTree) -> Result<(), AllocError>
    ensures { OnOk result (out.new.items ≡ out.old.items ++ mentions table.now (names_in_item (item_of item.now))) }
{
    match item {
        ItemTree::Column(name) => put_name(out, table, name),
        ItemTree::Count => Ok(()),
        ItemTree::Call { arg, .. } => put_expr(out, table, arg),
    }
}

#[tactic(auto, using(crate::proofs::Mentions::mentions_append))]
fn put_items(
    out: &mut Vec<Mention>,
    table: &[ColumnHead],
    items: &[ItemTree],
) -> Result<(), AllocError>
    ensures { OnOk result (out.new.items ≡ out.old.items ++ mentions table.now (names_in_items (map item_of items.now))) }
{
    match items {
        [] => Ok(()),
        [first, rest @ ..] => {
            put_item(out, table, first)?;
            put_items(out, table, rest)
        }
    }
}

fn put_head(out: &mut Vec<Mention>, table: &[ColumnHead], head: &Select) -> Result<(), AllocError>
    ensures { OnOk result (out.new.items ≡ out.old.items ++ mentions table.now (names_in_head (head_of head.now))) }
{
    match head {
        Select::Items(items) => put_items(out, table, items.as_slice()),
        Select::Star => Ok(()),
    }
}

#[tactic(auto, using(crate::proofs::Mentions::mentions_append))]
fn put_pred(out: &mut Vec<Mention>, table: &[ColumnHead], pred: &PredTree) -> Result<(), AllocError>
    ensures { OnOk result (out.new.items ≡ out.old.items ++ mentions table.now (names_in_pred (pred_of pred.now))) }
{
    match pred {
        PredTree::Compare { column, .. } => put_name(out, table, column),
        PredTree::Columns { left, right, .. } => {
            put_name(out, table, left)?;
            put_name(out, table, right)
        }
        PredTree::Between { column, .. } => put_name(out, table, column),
        PredTree::OneOf { column, .. } => put_name(out, table, column),
        PredTree::IsNull { column } => put_name(out, table, column),
        PredTree::Not(inner) => put_pred(out, table, inner),
        PredTree::And(left, right) => {
            put_pred(out, table, left)?;
            put_pred(out, table, right)
        }
        PredTree::Or(left, right) => {
            put_pred(out, table, left)?;
            put_pred(out, table, right)
        }
    }
}

fn put_filter(
    out: &mut Vec<Mention>,
    table: &[ColumnHead],
    filter: &Option<PredTree>,
) -> Result<(), AllocError>
    ensures { OnOk result (out.new.items ≡ out.old.items ++ mentions table.now (names_in_filter (pred_option filter.now))) }
{
    match filter {
        Some(pred) => put_pred(out, table, pred),
        None => Ok(()),
    }
}

fn put_ending(
    out: &mut Vec<Mention>,
    table: &[ColumnHead],
    ending: &Ending,
) -> Result<(), AllocError>
    ensures { OnOk result (out.new.items ≡ out.old.items ++ mentions table.now (names_in_ending (ending_of ending.now))) }
{
    match ending {
        Ending::Nothing => Ok(()),
        Ending::Group(names) => put_names(out, table, names.as_slice()),
        Ending::Order { key, .. } => put_name(out, table, key),
    }
}

/// The names of a query, but for that of its table.
#[tactic(auto, using(crate::proofs::Mentions::mentions_append))]
pub(crate) fn mentions(
    alloc: Global,
    table: &[ColumnHead],
    tree: &Tree,
) -> Result<Vec<Mention>, AllocError>
    ensures { IfOk result (λ v. v.items ≡ mentions table.now (names_in (query_of tree.now))) }
{
    let mut out = Vec::new(alloc);
    put_head(&mut out, table, &tree.head)?;
    put_filter(&mut out, table, &tree.pred)?;
    put_ending(&mut out, table, &tree.ending)?;
    Ok(out)
}
