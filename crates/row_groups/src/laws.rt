//! What is kept of rows is what the definitions say of a table. Each law stands on a function that does nothing.

ghost use Rattle.row_groups.specs.Partition.{CellsTellKeys, OpeningStands, OthersLeaveCells, RefiningStands};

/// Where nothing is read, the cells are those of the start.
pub fn opening_stands()
    ensures { OpeningStands }
{}

/// The cells of a knowledge become those after the next plane of a group column.
pub fn refining_stands()
    ensures { RefiningStands }
{}

/// A plane of another column leaves the cells.
pub fn others_leave_cells()
    ensures { OthersLeaveCells }
{}

/// How many cells there are, which of them have keys, and which keys.
pub fn cells_tell_keys()
    ensures { CellsTellKeys }
{}
