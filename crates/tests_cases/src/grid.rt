//! Large regular tables.

use crate::entry::Entry;
use crate::fault::CaseFault;
use crate::names::Names;
use std::alloc::{AllocError, Global};

// A table of so many columns c1, c2 and so on. Its rows are counted from 0 to `period`, and again as often as `turns` says.
// In row r of a turn column c has `first + r * c`.
#[derive(Drop)]
struct Grid {
    columns: usize,
    period: usize,
    turns: usize,
    first: usize,
}

// The header of the CSV, or the schema, whose columns are of this kind.
fn header(alloc: Global, columns: usize, kind: &str) -> Result<String, AllocError> {
    let mut text = format!(in alloc; "c1{kind}")?;
    for column in 2..=columns {
        text.push_str(format!(in alloc; ",c{column}{kind}")?.as_str())?;
    }
    Ok(text)
}

// Appends a row.
fn push_row(alloc: Global, text: &mut String, grid: &Grid, row: usize) -> Result<(), AllocError> {
    for column in 1..=grid.columns {
        let cell = row.wrapping_mul(column).wrapping_add(grid.first);
        let end = if column < grid.columns { "," } else { "\n" };
        text.push_str(format!(in alloc; "{cell}{end}")?.as_str())?;
    }
    Ok(())
}

// The CSV.
fn csv(alloc: Global, grid: &Grid) -> Result<String, AllocError> {
    let mut text = header(alloc, grid.columns, "")?;
    text.push_str("\n")?;
    for _ in 0..grid.turns {
        for row in 0..grid.period {
            push_row(alloc, &mut text, grid, row)?;
        }
    }
    Ok(text)
}

/// Names the table of an entry: its name and kind, how many columns and rows it has, how often these come, and its first number.
pub fn keep_grid(alloc: Global, entry: &Entry, names: &mut Names) -> Result<(), CaseFault> {
    let mut words = entry.rest.split(' ');
    let name = words.next().unwrap_or("");
    let kind = format!(in alloc; ":{}", words.next().unwrap_or(""))?;
    let grid = Grid {
        columns: entry.number(words.next().unwrap_or(""))?,
        period: entry.number(words.next().unwrap_or(""))?,
        turns: entry.number(words.next().unwrap_or(""))?,
        first: entry.number(words.next().unwrap_or(""))?,
    };
    let schema = header(alloc, grid.columns, kind.as_str())?;
    let csv = csv(alloc, &grid)?;
    names.keep(name, csv.as_bytes(), schema.as_str())?;
    Ok(())
}
