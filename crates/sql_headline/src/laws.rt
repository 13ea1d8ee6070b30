//! The headline in the words of SQL. Each law stands on a function that does nothing.

ghost use Rattle.sql_headline.specs.Blocks.{EqualPlanesGiveEqualBlocks};
ghost use Rattle.sql_headline.specs.Cuts.{RoundsAreCut};
ghost use Rattle.sql_headline.specs.Headline.{IntervalsHoldAnswers, IntervalsHoldAverages};
ghost use Rattle.sql_headline.specs.Lined.{BlocksHaveLines};
ghost use Rattle.sql_headline.specs.Results.{KeysAreTold, RowsAreTold};
ghost use Rattle.sql_headline.specs.Worlds.{RowsHaveKeys};

use query_model::{tables_agree, valid_queries_name_columns};
use sql_typing::typed_queries_are_valid;
use table_rounds::{planes_tell_stages, rounds_are_certain, tables_tell_stages};

/// The group of each row of a world has a key, of which the other laws speak.
pub fn rows_have_keys()
    ensures { RowsHaveKeys }
{
    typed_queries_are_valid();
    valid_queries_name_columns();
    tables_agree();
    planes_tell_stages();
    tables_tell_stages();
    rounds_are_certain();
}

/// In each round, and for each item that is no average, the interval that is shown encloses the value that the item as it is written has
/// in each world. It lies inside the one before, and with all planes read it is that value.
pub fn intervals_hold_answers()
    ensures { IntervalsHoldAnswers }
{
    typed_queries_are_valid();
    valid_queries_name_columns();
    tables_agree();
    planes_tell_stages();
    tables_tell_stages();
    rounds_are_certain();
}

/// So it is with averages: the interval that is shown encloses what the values of the item as it is written add up to, divided by how
/// many they are.
pub fn intervals_hold_averages()
    ensures { IntervalsHoldAverages }
{
    typed_queries_are_valid();
    valid_queries_name_columns();
    tables_agree();
    planes_tell_stages();
    tables_tell_stages();
    rounds_are_certain();
}

/// Keys that are shown as present are in the written result of each world, and keys without a line in that of none.
pub fn keys_are_told()
    ensures { KeysAreTold }
{
    typed_queries_are_valid();
    valid_queries_name_columns();
    tables_agree();
    planes_tell_stages();
    tables_tell_stages();
    rounds_are_certain();
}

/// Rows that are shown as certain are among the first, as the query is written, in each world, and excluded rows in none.
pub fn rows_are_told()
    ensures { RowsAreTold }
{
    typed_queries_are_valid();
    valid_queries_name_columns();
    tables_agree();
    planes_tell_stages();
    tables_tell_stages();
    rounds_are_certain();
}

/// Two tables with one head and the same planes read have the same block.
pub fn equal_planes_give_equal_blocks()
    ensures { EqualPlanesGiveEqualBlocks }
{
    planes_tell_stages();
}

/// The rounds of a plan with a last round that is wanted are the first rounds of the plan without it, with the same blocks.
pub fn rounds_are_cut()
    ensures { RoundsAreCut }
{}

/// A block of totals has a line for each item, with the text that is shown of it. Lines that are wanted besides change none of these.
pub fn blocks_have_lines()
    ensures { BlocksHaveLines }
{}
