//! The rows of a block of 64 at which an expression may have a value, and those at which it surely has one.

ghost use Rattle.std.specs.Prelude.{◌<◌, ◌*◌, length};
ghost use Rattle.query_model.specs.Meaning.{ReadsBelow};
ghost use Rattle.query_model.specs.Queries.{term_of};
ghost use Rattle.row_values.specs.BlockValues.{ArePossible, AreSure};

use known_column::LentColumns;
use query_model::Expr;

// The rows at which the expression is not surely null: bit r of the word is that of row r of the block.
pub(crate) fn possible_rows(expr: &Expr, columns: &LentColumns<'_>, block: usize) -> u64
    requires columns { ReadsBelow (length columns.now.frame.columns) (term_of expr.now) }
    requires block { 64 * block < columns.now.frame.rows }
    ensures { ArePossible (term_of expr.now) columns.now block result }
{
    match expr {
        Expr::Column(column) => columns.column(*column as usize).possible().word(block),
        Expr::Literal(_) => u64::MAX,
        Expr::Add(a, b) | Expr::Sub(a, b) | Expr::Mul(a, b) => {
            possible_rows(a, columns, block) & possible_rows(b, columns, block)
        }
    }
}

// The rows at which the expression cannot be null.
pub(crate) fn sure_rows(expr: &Expr, columns: &LentColumns<'_>, block: usize) -> u64
    requires columns { ReadsBelow (length columns.now.frame.columns) (term_of expr.now) }
    requires block { 64 * block < columns.now.frame.rows }
    ensures { AreSure (term_of expr.now) columns.now block result }
{
    match expr {
        Expr::Column(column) => columns.column(*column as usize).sure().word(block),
        Expr::Literal(_) => u64::MAX,
        Expr::Add(a, b) | Expr::Sub(a, b) | Expr::Mul(a, b) => {
            sure_rows(a, columns, block) & sure_rows(b, columns, block)
        }
    }
}
