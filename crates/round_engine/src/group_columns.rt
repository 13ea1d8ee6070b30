//! The columns by which a query's rows are grouped, and the cells that their planes part.

ghost use Rattle.std.specs.Prelude.{◌≡◌, length, IsTrue};
ghost use Rattle.query_model.specs.Answers.{groups_of};
ghost use Rattle.row_groups.specs.Partition.{has_unread, is_group, refined};

use plane_kernels::Plane;
use query_model::{Expr, Shape, TypedQuery};
use row_groups::Cells;

pub(crate) fn group_columns(query: &TypedQuery) -> &[u8]
    ensures { result.now ≡ groups_of query.now.shape }
{
    match &query.shape {
        Shape::Grouped(columns) => columns.as_slice(),
        Shape::Plain | Shape::Top { .. } => &[],
    }
}

// Whether the rows are grouped by the column.
pub(crate) fn is_group(query: &TypedQuery, column: usize) -> bool
    ensures { result ≡ is_group (groups_of query.now.shape) column }
{
    group_columns(query)
        .iter()
        .any(|group| column == usize::from(*group))
}

// Whether some item is over more than a bare column or a number: its rows may be added one by one. It affects speed alone.
fn has_expression(query: &TypedQuery) -> bool {
    for item in query.items.as_slice() {
        match item.arg {
            Expr::Column(_) | Expr::Literal(_) => {}
            Expr::Add(_, _) | Expr::Sub(_, _) | Expr::Mul(_, _) => return true,
        }
    }
    false
}

// Parts each cell by the next plane of a group column. Where rows may be added one by one, the cell of each is written.
pub(crate) fn part_cells(query: &TypedQuery, cells: &mut Cells, column: u8, plane: &Plane)
    requires unread { IsTrue (has_unread cells.old.parts column) }
    requires rows { length plane.now ≡ length cells.old.cells }
    ensures { cells.new ≡ refined cells.old column plane.now }
{
    cells.refine(column, plane);
    if has_expression(query) {
        cells.tell_rows();
    }
}
