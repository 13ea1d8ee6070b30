//! The rows of a seed, by columns.

ghost use Rattle.std.specs.Prelude.{◌≡◌, IfOk};
ghost use Rattle.table_gen.specs.Draws.{a_of, b_of, code_of, column_of, d_of};

use crate::draws::Draws;
use std::alloc::{AllocError, Global};

/// The columns of numbers, and the numbers of the texts of column g.
#[derive(Drop)]
pub(crate) struct Rows {
    pub a: Vec<i64>,
    pub b: Vec<i64>,
    pub d: Vec<i64>,
    pub codes: Vec<u8>,
}

/// So many rows.
pub(crate) fn draw_rows(alloc: Global, seed: u64, rows: usize) -> Result<Rows, AllocError>
    ensures a { IfOk result (λ drawn. drawn.a.items ≡ column_of a_of seed rows) }
    ensures b { IfOk result (λ drawn. drawn.b.items ≡ column_of b_of seed rows) }
    ensures d { IfOk result (λ drawn. drawn.d.items ≡ column_of d_of seed rows) }
    ensures codes { IfOk result (λ drawn. drawn.codes.items ≡ column_of code_of seed rows) }
{
    let mut draws = Draws::new(seed);
    let mut a = Vec::with_capacity(alloc, rows)?;
    let mut b = Vec::with_capacity(alloc, rows)?;
    let mut d = Vec::with_capacity(alloc, rows)?;
    let mut codes = Vec::with_capacity(alloc, rows)?;
    for row in 0..rows {
        let next = draws.row();
        a.push(next.a)?;
        b.push(next.b)?;
        d.push(next.d)?;
        codes.push(next.code)?;
    }
    Ok(Rows { a, b, d, codes })
}
