//! The laws of exact averages. Each stands on a function that does nothing.

ghost use Rattle.avg_exact.specs.Laws.{ExactAveragesAreCertain, ExactAveragesAreExtremes, ExactAveragesAreExtremesOfLists};
ghost use Rattle.avg_exact.specs.Laws.{ExactAveragesContain, ExactAveragesLieWithin, ExactAveragesNest, HighEndsAreBest};

/// The high end is the best choice of rows, whatever the cuts of the others: none has a greater average, and of those with the same
/// none takes fewer rows.
pub fn high_ends_are_best()
    ensures { HighEndsAreBest }
{}

/// The exact average of a list of pairs is the extremes of the averages over all choices of one outcome for each pair.
pub fn exact_averages_are_extremes_of_lists()
    ensures { ExactAveragesAreExtremesOfLists }
{}

/// An exact average lies within the bound of the average.
pub fn exact_averages_lie_within()
    ensures { ExactAveragesLieWithin }
{}

/// An exact average admits the average of each completion.
pub fn exact_averages_contain()
    ensures { ExactAveragesContain }
{}

/// With one more plane read, an exact average lies within the one before.
pub fn exact_averages_nest()
    ensures { ExactAveragesNest }
{}

/// Where an item attains its ends, its exact average is the extremes of its averages over all completions.
pub fn exact_averages_are_extremes()
    ensures { ExactAveragesAreExtremes }
{}

/// On whole tables: at each stage an exact average admits the average of each table that agrees with what is known, lies within the
/// bound of the average, and where the item attains its ends is the extremes, which the rows that it takes reach.
pub fn exact_averages_are_certain()
    ensures { ExactAveragesAreCertain }
{}
