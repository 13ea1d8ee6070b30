//! The laws of standings over all parts. Each stands on a function that does nothing.

ghost use Rattle.part_rows.specs.Joined.{JoinedLinesBecomeExact, JoinedLinesNest, LinesHold};
ghost use Rattle.part_rows.specs.Laws.{OrderIsFree, StandingsAreRight, StandingsBecomeExact, StandingsNest};
ghost use Rattle.part_rows.specs.ReadBack.{BlocksAreReadBack, LinesAreShown};
ghost use Rattle.part_rows.specs.Rising.{LinesRise, RisingLinesAreListedOnce};
ghost use Rattle.part_rows.specs.Tables.{ColumnsCanBeKeyed, LaterReportsJoin, ReportsBecomeExact, ReportsHold, ReportsJoin, ReportsNest};
ghost use Rattle.part_rows.specs.Told.{LinesAreRight, LinesBecomeExact, LinesNest};
ghost use Rattle.part_rows.specs.Trees.{ToldRowsHold, ToldRowsNest};
ghost use Rattle.part_rows.specs.Whole.{NamedLinesAreRight, NamesAreApart, PartsAreLater};

use query_model::{
    completions_are_selections, ranges_become_exact, ranges_nest, taken_is_knowledge,
};

/// In each world in which the parts' reports hold a certain row is among the first of all parts, and an excluded row and one that no
/// report lists are not.
pub fn standings_are_right()
    ensures { StandingsAreRight }
{}

/// With later reports of the parts certain rows stay certain, and excluded rows stay excluded.
pub fn standings_nest()
    ensures { StandingsNest }
{}

/// Where each listed row is certain and has one key, the certain rows are the first of all parts.
pub fn standings_become_exact()
    ensures { StandingsBecomeExact }
{}

/// The order in which the parts' rows are listed makes no difference.
pub fn order_is_free()
    ensures { OrderIsFree }
{}

/// Each column can be the sort key: of numbers, of dates, and of texts.
pub fn columns_can_be_keyed()
    ensures { ColumnsCanBeKeyed }
{}

/// What is listed of a table of which something is known, by the standings and the ranges of its rows, holds of each of its completions.
pub fn reports_hold()
    ensures { ReportsHold }
{
    query_model::standings_are_right();
    completions_are_selections();
}

/// The reports of some parts and of others hold together, so those of any number of parts.
pub fn reports_join()
    ensures { ReportsJoin }
{}

/// With one more plane of a table what is listed of it is a later report.
pub fn reports_nest()
    ensures { ReportsNest }
{
    query_model::standings_nest();
    ranges_nest();
    taken_is_knowledge();
}

/// Later reports of some parts and of others are later ones together.
pub fn later_reports_join()
    ensures { LaterReportsJoin }
{}

/// With all planes of a table read each row that is listed of it is certain, and has one key.
pub fn reports_become_exact()
    ensures { ReportsBecomeExact }
{
    query_model::standings_become_exact();
    ranges_become_exact();
}

/// What is told of several parts, each row that is not excluded, holds as the report of one part, under names in the same order.
pub fn told_rows_hold()
    ensures { ToldRowsHold }
{}

/// In each world in which the parts' reports hold a row whose line in the block over all parts says certain is among the first, and each
/// row that is among the first has a line.
pub fn lines_are_right()
    ensures { LinesAreRight }
{}

/// With later reports of the parts what was certain still is, and what has a line had one before.
pub fn lines_nest()
    ensures { LinesNest }
{}

/// Where each listed row is certain and has one key, each line says certain.
pub fn lines_become_exact()
    ensures { LinesBecomeExact }
{}

/// Where the tags of the parts rise and are clear, and the lines of each rise, so do those of the block over all parts.
pub fn lines_rise()
    ensures { LinesRise }
{}

/// Where the lines of the parts can be shown, and each tag has a byte or more, so can those of the block over all parts.
pub fn lines_are_shown()
    ensures { LinesAreShown }
{}

/// The block over all parts is read back as that of a report, where the lines of the parts can be shown and rise, and so do the tags of
/// the parts, which are clear.
pub fn blocks_are_read_back()
    ensures { BlocksAreReadBack }
{}

/// Where the reports of the parts hold, and their tags and lines rise, the lines of the block over all parts hold as those of one part.
pub fn lines_hold()
    ensures { LinesHold }
{}

/// With later reports of the parts what is told of them is a later report, under whatever names.
pub fn told_rows_nest()
    ensures { ToldRowsNest }
{}

/// With later reports of the parts, under the same tags, the lines of the block over all parts are later ones of one part.
pub fn joined_lines_nest()
    ensures { JoinedLinesNest }
{}

/// Where each row that the parts list is certain and has one key, so is each line of the block over all parts.
pub fn joined_lines_become_exact()
    ensures { JoinedLinesBecomeExact }
{}

/// Where the tags of the parts rise and are clear, the lines of the block over all parts tell rows apart by what they show of them.
pub fn names_are_apart()
    ensures { NamesAreApart }
{}

/// In each world in which the parts' reports hold a line that says certain is that of a row among the first, each of these has a line, and
/// lines show the names of rows, and spans in which their keys are.
pub fn named_lines_are_right()
    ensures { NamedLinesAreRight }
{}

/// Where what each part lists is a later report, so is what all parts list together.
pub fn parts_are_later()
    ensures { PartsAreLater }
{}

/// Where the lines of each part rise, no row is listed twice.
pub fn rising_lines_are_listed_once()
    ensures { RisingLinesAreListedOnce }
{}
