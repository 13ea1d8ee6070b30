//! The rows of a table by the cells of their groups: for each row the prefixes of the group columns, joined as one number.
#![tactic(auto)]

mod bits;
mod cell_keys;
mod cells;
mod keys;
mod laws;
mod part;
mod parting;
mod parts;
mod planes;
mod prefix;
mod telling;

pub use cell_keys::CellKeys;
pub use cells::Cells;
pub use laws::{cells_tell_keys, opening_stands, others_leave_cells, refining_stands};
pub use part::GroupPart;
pub use parting::FEW_CELLS;
pub use prefix::PartRange;
