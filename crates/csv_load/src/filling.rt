//! The numbers of a column's cells, out of those of its values.

ghost use Rattle.std.specs.Prelude.{◌≡◌, length, not, IfOk, IsTrue, if◌then◌else◌};
ghost use Rattle.std.specs.List.{count_by};
ghost use Rattle.csv_load.specs.States.{filled};

use std::alloc::{AllocError, Global};

// The numbers in turn where there is no mark, and 0 where there is one.
fn fill(alloc: Global, numbers: &[u64], marks: &[bool]) -> Result<Vec<u64>, AllocError>
    requires { count_by not marks.now ≡ length numbers.now }
    ensures { IfOk result (λ cells. cells.items ≡ filled marks.now numbers.now) }
{
    let mut cells = Vec::with_capacity(alloc, marks.len())?;
    let mut next = 0;
    for mark in marks {
        if *mark {
            cells.push(0)?;
        } else {
            cells.push(numbers[next])?;
            next += 1;
        }
    }
    Ok(cells)
}

/// The numbers of the cells: in a nullable column 0 at the marks, and in another those of the values.
pub(crate) fn cells_of(
    alloc: Global,
    nullable: bool,
    numbers: Vec<u64>,
    marks: &[bool],
) -> Result<Vec<u64>, AllocError>
    requires { IsTrue nullable → count_by not marks.now ≡ length numbers.items }
    ensures { IfOk result (λ cells. cells.items ≡ (if nullable then filled marks.now numbers.items else numbers.items)) }
{
    if nullable {
        fill(alloc, &numbers, marks)
    } else {
        Ok(numbers)
    }
}
