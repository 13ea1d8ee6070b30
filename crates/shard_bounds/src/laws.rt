//! The laws of bounds over shards. Each stands on a function that does nothing.

ghost use Rattle.shard_bounds.specs.Laws.{AveragesFollow, MeetsStand};
ghost use Rattle.shard_bounds.specs.Laws.{AveragesNest, CombinedIsBound, GroupsCombine, HullsContain, HullsNest, ListsGiveBounds};
ghost use Rattle.shard_bounds.specs.Laws.{ListsReportAverages, NothingIsLost, OneAverageIsAll, OneShardIsAll};
ghost use Rattle.shard_bounds.specs.Laws.{OrderIsFree, OrderOfAveragesIsFree, CombinationsContain, SumsGiveAverages};
ghost use Rattle.shard_bounds.specs.Laws.{CombinationsLookExact, CombinationsNest, CombinationsReportAverages, CombinationsTell};
ghost use Rattle.shard_bounds.specs.Laws.{CombinationsTellAverages};
ghost use Rattle.shard_bounds.specs.Shards.{CutsKeepValues, ShardsAreExtremes, ShardsBecomeExact, ShardsContain, ShardsLoseNothing};
ghost use Rattle.shard_bounds.specs.Shards.{ShardsNest};
ghost use Rattle.shard_bounds.specs.Shards.{ShardsBecomeExactAverages, ShardsContainAverages, ShardsNestAverages};

/// Where the bound of each shard admits the shard's answer, the bound over all shards admits the answer over all.
pub fn combinations_contain()
    ensures { CombinationsContain }
{}

/// Where the new bound of each shard lies within its old one, so does the bound over all shards.
pub fn combinations_nest()
    ensures { CombinationsNest }
{}

/// Where the bound of each shard says the shard's answer, the bound over all shards says the answer over all.
pub fn combinations_tell()
    ensures { CombinationsTell }
{}

/// The bound over one shard is that shard's.
pub fn one_shard_is_all()
    ensures { OneShardIsAll }
{}

/// The order of the shards makes no difference.
pub fn order_is_free()
    ensures { OrderIsFree }
{}

/// The shards' bounds tell of the whole what all rows together tell.
pub fn nothing_is_lost()
    ensures { NothingIsLost }
{}

/// Shards may be combined group by group, and then the groups.
pub fn groups_combine()
    ensures { GroupsCombine }
{}

/// What is combined is again what a report gives.
pub fn combined_is_bound()
    ensures { CombinedIsBound }
{}

/// The bound of a list of rows is what a report gives.
pub fn lists_give_bounds()
    ensures { ListsGiveBounds }
{}

/// The average over all shards lies between the bounds of the shards' averages.
pub fn hulls_contain()
    ensures { HullsContain }
{}

/// With narrower bounds of the shards' averages that bound is narrower.
pub fn hulls_nest()
    ensures { HullsNest }
{}

/// Where the bound of each shard says its sum and its number of values, the bound over all shards says those over all.
pub fn combinations_tell_averages()
    ensures { CombinationsTellAverages }
{}

/// The bound over all shards is again a report: it admits the average over all, and looks exact only where it says the sum and the number.
pub fn combinations_report_averages()
    ensures { CombinationsReportAverages }
{}

/// That bound looks exact only where each shard's does.
pub fn combinations_look_exact()
    ensures { CombinationsLookExact }
{}

/// The bound of the average of a list of rows looks exact only where it says the sum and the number.
pub fn lists_report_averages()
    ensures { ListsReportAverages }
{}

/// The values of a table that is cut are those of its shards together.
pub fn cuts_keep_values()
    ensures { CutsKeepValues }
{}

/// The bound over all shards admits the answer of each choice of completions of the shards.
pub fn shards_contain()
    ensures { ShardsContain }
{}

/// Where the item is read-once, that bound is the extremes over all of them.
pub fn shards_are_extremes()
    ensures { ShardsAreExtremes }
{}

/// It is the bound of all rows together, as if the table had not been cut.
pub fn shards_lose_nothing()
    ensures { ShardsLoseNothing }
{}

/// With more of the shards read, each at its own pace, the bound over all lies within the one before.
pub fn shards_nest()
    ensures { ShardsNest }
{}

/// With nothing unread it says the answer.
pub fn shards_become_exact()
    ensures { ShardsBecomeExact }
{}

/// The bound of an average over one shard is that shard's.
pub fn one_average_is_all()
    ensures { OneAverageIsAll }
{}

/// In another order of the shards it says the same.
pub fn order_of_averages_is_free()
    ensures { OrderOfAveragesIsFree }
{}

/// With narrower reports of the shards' averages the bound over all is narrower.
pub fn averages_nest()
    ensures { AveragesNest }
{}

/// The bound of the average over all shards admits the average of each choice of completions.
pub fn shards_contain_averages()
    ensures { ShardsContainAverages }
{}

/// With more of the shards read it lies within the one before.
pub fn shards_nest_averages()
    ensures { ShardsNestAverages }
{}

/// With nothing unread it says the sum and the number of the values.
pub fn shards_become_exact_averages()
    ensures { ShardsBecomeExactAverages }
{}

/// From the shards' bounds of the sum and of the number of values follows the bound of the average that all rows together have.
pub fn sums_give_averages()
    ensures { SumsGiveAverages }
{}

/// That bound contains the average, nests and becomes exact, as the two bounds do.
pub fn averages_follow()
    ensures { AveragesFollow }
{}

/// So does what lies in two bounds of an average.
pub fn meets_stand()
    ensures { MeetsStand }
{}
