//! What each column of a query is read for.

ghost use Rattle.std.specs.Prelude.{◌≡◌, ◌≤◌, length};
ghost use Rattle.query_model.specs.Answers.{groups_of};
ghost use Rattle.kleene_filter.specs.Filters.{stands_in};
ghost use Rattle.round_engine.specs.Engines.{AreGivers, AreRoles};
ghost use Rattle.round_engine.specs.Progresses.{gives_values, is_argument, orders_by, role_of};

use crate::moved::expr_reads;
use kleene_filter::pred_reads;
use plane_schedule::Role;
use query_model::{Shape, TypedQuery};

// Whether the rows are grouped by the column.
fn shape_reads(shape: &Shape, wanted: u8) -> bool
    ensures { result ≡ stands_in (groups_of shape.now) wanted }
{
    match shape {
        Shape::Plain => false,
        Shape::Grouped(columns) => columns.as_slice().iter().any(|column| *column == wanted),
        Shape::Top { .. } => false,
    }
}

// What a column is read for.
fn role_of(query: &TypedQuery, column: u8) -> Role
    ensures { result ≡ role_of query.now column }
{
    if pred_reads(&query.pred, column as usize) {
        Role::Filter
    } else if shape_reads(&query.shape, column) {
        Role::Group
    } else {
        Role::Value
    }
}

// What each column is read for.
pub(crate) fn roles_of(query: &TypedQuery) -> [Role; 16]
    requires { length query.now.columns ≤ 16 }
    ensures { AreRoles query.now result }
{
    let mut roles = [Role::Value; 16];
    for column in 0..16u8 {
        roles[column as usize] = role_of(query, column);
    }
    roles
}

// Whether the rows are in the order of the column.
fn orders_by(shape: &Shape, wanted: u8) -> bool
    ensures { result ≡ orders_by shape.now wanted }
{
    match shape {
        Shape::Plain | Shape::Grouped(_) => false,
        Shape::Top { key, .. } => *key == wanted,
    }
}

// Whether an argument of an aggregate names the column.
fn is_argument(query: &TypedQuery, column: u8) -> bool
    ensures { result ≡ is_argument query.now column }
{
    query
        .items
        .as_slice()
        .iter()
        .any(|item| expr_reads(&item.arg, column as usize))
}

// Whether an argument of an aggregate names the column, or the rows are in its order.
fn gives_values(query: &TypedQuery, column: u8) -> bool
    ensures { result ≡ gives_values query.now column }
{
    is_argument(query, column) || orders_by(&query.shape, column)
}

// Which columns give values.
pub(crate) fn givers_of(query: &TypedQuery) -> [bool; 16]
    requires { length query.now.columns ≤ 16 }
    ensures { AreGivers query.now result }
{
    let mut gives = [false; 16];
    for column in 0..16u8 {
        gives[column as usize] = gives_values(query, column);
    }
    gives
}
