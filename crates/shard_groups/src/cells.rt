//! Reports by groups.

use crate::keys::Keys;
use daq_table::Listed;
use query_model::{AverageBound, Bound};

/// What a line says of an item: where its answer lies, in units, or its average.
#[derive(Clone, Copy, Drop, Debug)]
pub enum ItemBound {
    Value(Bound),
    Average(AverageBound),
}

/// A line of a report by groups: some keys, whether they are in the result for certain, and for each item where its answer lies, for
/// each of the keys by itself.
#[derive(Drop, Debug)]
pub struct Cell {
    pub keys: Keys,
    pub present: bool,
    pub items: Listed<ItemBound>,
}

/// The lines of a report by groups. No key is in two of them, and one that is in none is not in the result.
pub type Cells = Listed<Cell>;
