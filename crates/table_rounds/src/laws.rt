//! What holds of rounds. Each law stands on a function that does nothing.

ghost use Rattle.table_rounds.specs.Headline.{FullStagesAreNarrow, LegalPlanesHaveTables, ListsAreRead, PlanesTellStages};
ghost use Rattle.table_rounds.specs.Headline.{RoundsAreCertain, RoundsAreCounted, RoundsAreOfTables, RoundsAreOne, RoundsBegin};
ghost use Rattle.table_rounds.specs.Headline.{RoundsHaveAnEnd, RoundsHavePlanes, RoundsHaveTables, TablesAreTaken, TablesTellStages};

use avg_exact::{exact_averages_are_certain, exact_averages_nest};
use clip_bounds::{clips_are_certain, clips_nest};
use plane_schedule::{choices_are_one, policies_choose};
use query_model::{
    average_bounds_become_exact_on_tables, average_bounds_contain_on_tables, average_bounds_nest,
    average_ends_meet, average_ends_of_cells_meet, bounds_are_extremes_on_tables,
    bounds_become_exact_on_tables, bounds_contain_on_tables, bounds_nest,
    completions_are_selections, ends_meet, ends_of_cells_meet, illegal_cells_are_empty,
    keys_become_exact, keys_have_cells, keys_have_ranges, legal_cells_have_keys, pairs_go_by_cells,
    planes_are_taken, ranges_nest, results_are_told_on_tables, standings_are_right_on_tables,
    standings_become_exact, standings_nest, start_is_knowledge, tables_agree, tables_exist,
    tables_have_parts, taken_is_knowledge, words_become_exact, words_of_cells_become_exact,
};
use row_groups::cells_tell_keys;

/// The planes of a table tell of it what is known of it.
pub fn tables_tell_stages()
    ensures { TablesTellStages }
{
    planes_are_taken();
}

/// What is known depends on the planes read alone.
pub fn planes_tell_stages()
    ensures { PlanesTellStages }
{}

/// Planes whose prefixes are legal are those of some table.
pub fn legal_planes_have_tables()
    ensures { LegalPlanesHaveTables }
{
    planes_are_taken();
    tables_exist();
}

/// With nothing unread a round is narrow, however near its answers are to be.
pub fn full_stages_are_narrow()
    ensures { FullStagesAreNarrow }
{
    ends_meet();
    average_ends_meet();
    words_become_exact();
    ends_of_cells_meet();
    average_ends_of_cells_meet();
    words_of_cells_become_exact();
    standings_become_exact();
    keys_become_exact();
}

/// So a plane is unread wherever the rounds go on.
pub fn rounds_have_planes()
    ensures { RoundsHavePlanes }
{
    full_stages_are_narrow();
}

/// Nothing read is round 0 of every plan.
pub fn rounds_begin()
    ensures { RoundsBegin }
{
    start_is_knowledge();
}

/// Rounds over planes are those of each table that has the planes read, and so is what is known after each.
pub fn rounds_are_of_tables()
    ensures { RoundsAreOfTables }
{}

/// And there is such a table.
pub fn rounds_have_tables()
    ensures { RoundsHaveTables }
{
    planes_are_taken();
    tables_exist();
}

/// Rounds go on to a last one, or to a plane that is refused; a list has to be one that can be read to its end.
pub fn rounds_have_an_end()
    ensures { RoundsHaveAnEnd }
{
    policies_choose();
    rounds_have_planes();
    taken_is_knowledge();
}

/// No plane of a table is refused.
pub fn tables_are_taken()
    ensures { TablesAreTaken }
{
    tables_have_parts();
    planes_are_taken();
}

/// In each round each table that has the planes read agrees with what is known; each value lies in its range, which lies within the one
/// before; for each key each bound admits the answer on every table that agrees, is as narrow as it can be where its item attains its ends
/// and is no average, and lies within the one before; with all planes read its ends are the answer, and it is known whether that is
/// null. So it is with a bound that the condition clips, and the exact ends of an average. A key that is said to be in the result is, and
/// so is a row that is said to be among the first. There are no more reads than planes.
pub fn rounds_are_certain()
    ensures { RoundsAreCertain }
{
    tables_agree();
    planes_are_taken();
    completions_are_selections();
    bounds_contain_on_tables();
    bounds_are_extremes_on_tables();
    bounds_become_exact_on_tables();
    ranges_nest();
    bounds_nest();
    average_bounds_contain_on_tables();
    average_bounds_become_exact_on_tables();
    average_bounds_nest();
    results_are_told_on_tables();
    words_become_exact();
    keys_have_cells();
    legal_cells_have_keys();
    illegal_cells_are_empty();
    keys_have_ranges();
    pairs_go_by_cells();
    cells_tell_keys();
    standings_are_right_on_tables();
    standings_become_exact();
    standings_nest();
    clips_are_certain();
    clips_nest();
    exact_averages_are_certain();
    exact_averages_nest();
}

/// Each round but the first reads one plane.
pub fn rounds_are_counted()
    ensures { RoundsAreCounted }
{}

/// There is one list of columns that the rounds of a plan read.
pub fn rounds_are_one()
    ensures { RoundsAreOne }
{
    choices_are_one();
}

/// Rounds by a list read its columns, in order.
pub fn lists_are_read()
    ensures { ListsAreRead }
{}
