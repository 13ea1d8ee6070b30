//! The cells of a column whose planes are read.

ghost use Rattle.std.specs.Prelude.{◌≡◌, [], map, not, IfOk, if◌then◌else◌};
ghost use Rattle.known_column.specs.Columns.{is_possible, number_of, rows_where};

use known_column::Known;
use std::alloc::{AllocError, Global};

/// The number of each row, 0 for null.
pub(crate) fn numbers_of(alloc: Global, known: &Known) -> Result<Vec<u64>, AllocError>
    ensures { IfOk result (λ numbers. numbers.items ≡ map (number_of known.now.ends known.now.known.read) known.now.known.prefixes) }
{
    let rows = known.rows();
    let mut numbers = Vec::with_capacity(alloc, rows)?;
    let mut block = [0u64; 64];
    for number in 0..rows.div_ceil(64) {
        known.numbers(number, &mut block);
        numbers.extend_from_slice(&block[..(rows - 64 * number).min(64)])?;
    }
    Ok(numbers)
}

/// Whether each row of a nullable column is null; nothing for another column.
pub(crate) fn marks_of(alloc: Global, known: &Known) -> Result<Vec<bool>, AllocError>
    ensures { IfOk result (λ marks. marks.items ≡ (if known.now.ends.nullable then map not (rows_where is_possible known.now) else [])) }
{
    let mut marks = Vec::new(alloc);
    if known.nullable() {
        for row in 0..known.rows() {
            marks.push(!known.possible().get(row))?;
        }
    }
    Ok(marks)
}
