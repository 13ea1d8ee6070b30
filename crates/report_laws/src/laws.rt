//! What reports show is what is read back.

ghost use Rattle.report_laws.specs.Groups.{GroupsAreShown, KeysAreShown};
ghost use Rattle.report_laws.specs.Rows.{FirstRowsAreShown};
ghost use Rattle.report_laws.specs.Laws.{AveragesAreShown, AveragesCanBeRead, BoundsAreShown, BoundsCanBeRead};
ghost use Rattle.report_laws.specs.Laws.{ClipsAreShown, ExactAveragesAreShown, RowsAreShown};
ghost use Rattle.report_laws.specs.Texts.{TextsAreShown};

use query_model::illegal_cells_are_empty;
use row_groups::cells_tell_keys;

/// Where the ends of an answer are numbers or dates, the text that a report shows of its bound is the one that is read back.
pub fn bounds_are_shown()
    ensures { BoundsAreShown }
{}

/// The same of the bound of an average.
pub fn averages_are_shown()
    ensures { AveragesAreShown }
{}

/// What a report says of a bound is of the form that is read back.
pub fn bounds_can_be_read()
    ensures { BoundsCanBeRead }
{}

/// The same of the bound of an average.
pub fn averages_can_be_read()
    ensures { AveragesCanBeRead }
{}

/// The line of a clipped bound behind that of its item is the one that is read back.
pub fn clips_are_shown()
    ensures { ClipsAreShown }
{}

/// So is the line of the exact ends of an average.
pub fn exact_averages_are_shown()
    ensures { ExactAveragesAreShown }
{}

/// The lines behind it are known as those of the rows that its ends take.
pub fn rows_are_shown()
    ensures { RowsAreShown }
{}

/// The text of the keys of a group is the one that is read back.
pub fn keys_are_shown()
    ensures { KeysAreShown }
{}

/// So is the line of each cell of a query by groups of which something is shown. The lines of its items stand behind it.
pub fn groups_are_shown()
    ensures { GroupsAreShown }
{
    illegal_cells_are_empty();
    cells_tell_keys();
}

/// So are the lines of a query of first rows: how many there are, and each row with where its sort key lies; or that none is told.
pub fn first_rows_are_shown()
    ensures { FirstRowsAreShown }
{}

/// So is where the least or the greatest text of a column lies.
pub fn texts_are_shown()
    ensures { TextsAreShown }
{}
