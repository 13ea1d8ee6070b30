//! Cells that hold one key.

ghost use Rattle.std.specs.Prelude.{◌≡◌, ◌≤◌, ◌^◌, IsTrue, length};
ghost use Rattle.std.specs.List.{list_all};
ghost use Rattle.query_model.specs.Groups.{is_one_value};
ghost use Rattle.row_groups.specs.Partition.{digits_of, is_legal_cell, range_for};
ghost use Rattle.round_engine.specs.CellAnswers.{TellSingle, has_one_key};

use query_model::Nullity;
use row_groups::{Cells, PartRange};

// Whether a part of a key can be one value alone.
fn is_one_value(range: &PartRange) -> bool
    ensures { result ≡ is_one_value (range_for range.now) }
{
    match range.null {
        Nullity::Never => range.low == range.high,
        Nullity::Possibly => false,
        Nullity::Always => true,
    }
}

// Whether each part can.
fn are_one_value(ranges: &[PartRange]) -> bool
    ensures { result ≡ list_all (λ range. is_one_value (range_for range)) ranges.now }
{
    ranges.iter().all(|range| is_one_value(range))
}

// Whether a cell that has keys has one alone.
fn has_one_key(cells: &Cells, cell: u32) -> bool
    ensures { IsTrue (is_legal_cell cells.now.parts cell) → result ≡ has_one_key cells.now.parts cell }
{
    match cells.keys_of(cell) {
        Some(keys) => are_one_value(keys.parts()),
        None => false,
    }
}

// Tells of each cell that has keys whether it has one alone.
pub(crate) fn tell_single(cells: &Cells, single: &mut [bool])
    requires { 2 ^ digits_of cells.now.parts ≤ length single.old }
    ensures room { length single.new ≡ length single.old }
    ensures told { TellSingle cells.now.parts single.new }
{
    for cell in 0..cells.count() {
        single[cell as usize] = has_one_key(cells, cell);
    }
}
