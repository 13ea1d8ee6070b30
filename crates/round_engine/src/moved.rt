//! Which items a plane of a column may move.

ghost use Rattle.std.specs.Prelude.{◌≡◌, ◌≤◌, length};
ghost use Rattle.kleene_filter.specs.Filters.{stands_in};
ghost use Rattle.query_model.specs.Meaning.{columns_of};
ghost use Rattle.query_model.specs.Queries.{term_of};
ghost use Rattle.round_engine.specs.CellAnswers.{moves_rows};
ghost use Rattle.round_engine.specs.Moves.{AreMoved};

use crate::group_columns::is_group;
use kleene_filter::pred_reads;
use query_model::{Expr, TypedQuery};

// Whether an expression reads the column.
pub(crate) fn expr_reads(expr: &Expr, wanted: usize) -> bool
    ensures { result ≡ stands_in (columns_of (term_of expr.now)) wanted }
{
    match expr {
        Expr::Column(column) => *column as usize == wanted,
        Expr::Literal(_) => false,
        Expr::Add(a, b) | Expr::Sub(a, b) | Expr::Mul(a, b) => {
            expr_reads(a, wanted) || expr_reads(b, wanted)
        }
    }
}

// Whether the condition reads the column, or the rows are grouped by it.
pub(crate) fn moves_rows(query: &TypedQuery, column: usize) -> bool
    ensures { result ≡ moves_rows query.now column }
{
    pred_reads(&query.pred, column) || is_group(query, column)
}

// Those whose condition or argument reads the column.
pub(crate) fn moved_items(query: &TypedQuery, column: usize) -> [bool; 16]
    requires { length query.now.items ≤ 16 }
    ensures { AreMoved query.now column result }
{
    let in_condition = pred_reads(&query.pred, column);
    let items = query.items.as_slice();
    let mut moved = [false; 16];
    for i in 0..items.len() {
        let item = &items[i];
        moved[i] = in_condition || expr_reads(&item.arg, column);
    }
    moved
}
