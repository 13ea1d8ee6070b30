//! The laws of combined reports by groups. Each stands on a function that does nothing.

ghost use Rattle.shard_groups.specs.Found.{CombinedIsFound, LinesAreFound};
ghost use Rattle.shard_groups.specs.Laws.{AveragesAreOne, LinesAreOne, LinesContain, LinesReportAverages, LinesNest, LinesNestAverages};
ghost use Rattle.shard_groups.specs.Laws.{LinesTell, LinesTellAverages, LinesTellKeys, OneShardIsAll, OrderIsFree};

/// Where the shards' reports are certain of a key, a line that has it contains its answer over the rows of all shards.
pub fn lines_contain()
    ensures { LinesContain }
{}

/// Each key of the whole result is in one line, and each key of a present line is in the result.
pub fn lines_tell_keys()
    ensures { LinesTellKeys }
{}

/// Where the shards' reports are exact, a line that has a key says its answer over the rows of all shards.
pub fn lines_tell()
    ensures { LinesTell }
{}

/// With later reports of the shards, the line of a key and its bound lie within those before.
pub fn lines_nest()
    ensures { LinesNest }
{}

/// In any order the shards have the same lines, and each says the same.
pub fn order_is_free()
    ensures { OrderIsFree }
{}

/// Some cells have no other lines.
pub fn lines_are_one()
    ensures { LinesAreOne }
{}

/// Lines of cells are found by taking in one cell after another. Where each cell has a key, there are no others in that order.
pub fn lines_are_found()
    ensures { LinesAreFound }
{}

/// Where each cell of the shards has a key, what combined cells say is found line by line.
pub fn combined_is_found()
    ensures { CombinedIsFound }
{}

/// The lines of one shard are its cells, and each says what its cell says.
pub fn one_shard_is_all()
    ensures { OneShardIsAll }
{}

/// Where the shards' reports are certain of the average at a key, so is a line that has the key, over the rows of all shards.
pub fn lines_report_averages()
    ensures { LinesReportAverages }
{}

/// Where the shards' reports are exact, the line of a key says the sum and the number of its values in all shards.
pub fn lines_tell_averages()
    ensures { LinesTellAverages }
{}

/// With later reports of the shards, the line of a key and its average lie within those before.
pub fn lines_nest_averages()
    ensures { LinesNestAverages }
{}

/// The order of the shards makes no difference to what an average says, and that over one shard is its cell's.
pub fn averages_are_one()
    ensures { AveragesAreOne }
{}
