//! The laws of bounds of texts over parts. Each stands on a function that does nothing.

ghost use Rattle.text_extremes.specs.Answers.{AnswersAreShown};
ghost use Rattle.text_extremes.specs.Laws.{CombinationsContain, CombinationsNest, CombinationsTell};
ghost use Rattle.text_extremes.specs.Laws.{GroupsCombine, OnePartIsAll, OrderIsFree};
ghost use Rattle.text_extremes.specs.Shards.{ShardsAreExtremes, ShardsBecomeExact, ShardsContain, ShardsNest};

/// Where a report can show what each part says, it can show what is said over all.
pub fn answers_are_shown()
    ensures { AnswersAreShown }
{}

/// Where the bound of each part admits the part's answer, the bound over all parts admits the answer over all.
pub fn combinations_contain()
    ensures { CombinationsContain }
{}

/// Where the new bound of each part lies within its old one, so does the bound over all parts.
pub fn combinations_nest()
    ensures { CombinationsNest }
{}

/// Where the bound of each part says the part's answer, the bound over all parts says the answer over all.
pub fn combinations_tell()
    ensures { CombinationsTell }
{}

/// The bound over one part is that part's.
pub fn one_part_is_all()
    ensures { OnePartIsAll }
{}

/// The order of the parts makes no difference.
pub fn order_is_free()
    ensures { OrderIsFree }
{}

/// Parts may be combined group by group, and then the groups.
pub fn groups_combine()
    ensures { GroupsCombine }
{}

/// The bound over all shards admits the answer of each choice of completions of the shards.
pub fn shards_contain()
    ensures { ShardsContain }
{}

/// Where the item is read-once, that bound is the extremes over all of them.
pub fn shards_are_extremes()
    ensures { ShardsAreExtremes }
{}

/// With more of the shards read, each at its own pace, the bound over all lies within the one before.
pub fn shards_nest()
    ensures { ShardsNest }
{}

/// With nothing unread it says the answer.
pub fn shards_become_exact()
    ensures { ShardsBecomeExact }
{}
