//! What holds of the lines of parts. Each law stands on a function that does nothing.

ghost use Rattle.report_parts.specs.Course.{OrderIsFree, StandsIsCombined, TextIsOne};
ghost use Rattle.report_parts.specs.GroupHeadline.{CombinedGroupsAreCertain};
ghost use Rattle.report_parts.specs.Headline.{CombinedAveragesAreCertain, CombinedBesidesAreCertain, CombinedClipsAreCertain};
ghost use Rattle.report_parts.specs.Headline.{CombinedExactAveragesAreCertain, CombinedIsCertain};
ghost use Rattle.report_parts.specs.Laws.{AnswersContain, AnswersNest, AnswersTell, AveragesReport};
ghost use Rattle.report_parts.specs.Laws.{LinesOnlyAdd, ReportsOnlyGrow, ToldBlocksStay};
ghost use Rattle.report_parts.specs.RowHeadline.{CombinedRowsAreCertain};
ghost use Rattle.report_parts.specs.Telling.{EndedStays, TellingIsOne};
ghost use Rattle.report_parts.specs.TextHeadline.{CombinedTextClipsAreCertain, CombinedTextsAreCertain};
ghost use Rattle.report_parts.specs.Written.{WrittenStays};

use narrow_averages::besides_stand;
use part_groups::{
    groups_contain, groups_contain_texts, groups_nest, groups_nest_averages, groups_nest_texts,
    groups_report_averages, groups_tell, groups_tell_averages, groups_tell_keys, groups_tell_texts,
    whole_is_combined,
};
use part_rows::{
    joined_lines_become_exact, joined_lines_nest, lines_hold, named_lines_are_right,
    names_are_apart, parts_are_later, rising_lines_are_listed_once,
};
use shard_bounds::{
    averages_nest, combinations_contain, combinations_nest, combinations_report_averages,
    combinations_tell, combinations_tell_averages, hulls_contain, hulls_nest,
};

/// A line takes nothing back of what was told before.
pub fn lines_only_add()
    ensures { LinesOnlyAdd }
{}

/// What a part says in a round stays, whatever lines come behind.
pub fn told_blocks_stay()
    ensures { ToldBlocksStay }
{}

/// The blocks of rounds that all parts have told stay as they are, whatever lines come behind, and in whatever order: the combined report
/// of all lines begins with what was told before.
pub fn reports_only_grow()
    ensures { ReportsOnlyGrow }
{}

/// What was written begins what is written when more lines have come, of whichever parts and in whatever order.
pub fn written_stays()
    ensures { WrittenStays }
{}

/// Where a combination stands, what was written is the combined report of the lines that were taken, as far as they tell it.
pub fn stands_are_combined()
    ensures { StandsIsCombined }
{}

/// Where what each part says contains the part's answer, what is combined contains the answer over all parts.
pub fn answers_contain()
    ensures { AnswersContain }
{
    combinations_contain();
}

/// Where what each part says lies within what it said before, so does what is combined.
pub fn answers_nest()
    ensures { AnswersNest }
{
    combinations_nest();
}

/// Where each part says its answer, what is combined says the answer over all parts.
pub fn answers_tell()
    ensures { AnswersTell }
{
    combinations_tell();
}

/// The combined report of some lines is that of the same lines in any order that leaves those of each part in theirs.
pub fn order_of_lines_is_free()
    ensures { OrderIsFree }
{}

/// What the parts tell is one text, with one end.
pub fn combined_text_is_one()
    ensures { TextIsOne }
{}

/// Behind the same lines all parts have told the same.
pub fn tellings_are_one()
    ensures { TellingIsOne }
{}

/// A combined report that has ended stays as it is, whatever lines come behind.
pub fn ended_reports_stay()
    ensures { EndedStays }
{}

/// Where the report of each part is certain of its rows, each block of the combined report is certain of all rows together: what it prints
/// of an item contains the answer, lies within what the block before prints, and is the answer where each part says its own.
pub fn combined_is_certain()
    ensures { CombinedIsCertain }
{
    combinations_contain();
    combinations_nest();
    combinations_tell();
}

/// The same of the clipped bounds in the lines behind, which are printed where each part has them.
pub fn combined_clips_are_certain()
    ensures { CombinedClipsAreCertain }
{
    combinations_contain();
    combinations_nest();
    combinations_tell();
}

/// The same of averages beside which nothing stands: what is printed contains the average over the rows of all parts, lies within what the
/// block before prints where those of the parts do, and is the sum and the number of all values where each part says its own. One fraction
/// alone is again the sum over the number, so that what is printed may be a part again.
pub fn combined_averages_are_certain()
    ensures { CombinedAveragesAreCertain }
{
    combinations_report_averages();
    averages_nest();
    combinations_tell_averages();
}

/// So it is of an average beside which the sum and the number of its values are asked: what is printed contains it, lies within what the
/// block before prints and within what the parts' averages give, and is the sum over the number of all values where each part says its own
/// two.
pub fn combined_besides_are_certain()
    ensures { CombinedBesidesAreCertain }
{
    combinations_contain();
    combinations_nest();
    combinations_tell();
    combinations_report_averages();
    averages_nest();
    besides_stand();
}

/// Where what each part says contains the part's average, and one fraction alone is its sum over its number of values, what is combined
/// is again such a report of the average over all parts.
pub fn averages_report()
    ensures { AveragesReport }
{
    combinations_report_averages();
}

/// The exact ends of averages in the lines behind are printed where each part has them: what is printed contains the average over the rows
/// of all parts, and lies within what the block before prints.
pub fn combined_exact_averages_are_certain()
    ensures { CombinedExactAveragesAreCertain }
{
    hulls_contain();
    hulls_nest();
}

/// The same of groups: in each round the parts write each column and each item in one form, or its block has a fault. Where they do, each
/// key of the whole result is in one group that is printed, each key of a present group is in the result, and what the group says contains
/// the key's answer over the rows of all parts, lies within what the round before says of it, and is the answer where each part says its
/// own. An average beside which the sum and the number of its values are asked lies besides within what the parts' averages give alone, and
/// is that of all values where each part says its sum and its number of values.
pub fn combined_groups_are_certain()
    ensures { CombinedGroupsAreCertain }
{
    whole_is_combined();
    groups_tell_keys();
    groups_contain();
    groups_nest();
    groups_tell();
    groups_report_averages();
    groups_nest_averages();
    groups_tell_averages();
    groups_contain_texts();
    groups_nest_texts();
    groups_tell_texts();
    besides_stand();
}

/// The same of the least and the greatest text, by the bytes of texts, where no part tells a number or a date.
pub fn combined_texts_are_certain()
    ensures { CombinedTextsAreCertain }
{
    text_extremes::combinations_contain();
    text_extremes::combinations_nest();
    text_extremes::combinations_tell();
}

/// So it is of the clipped one in the line behind, which is printed where each part has it.
pub fn combined_text_clips_are_certain()
    ensures { CombinedTextClipsAreCertain }
{
    text_extremes::combinations_contain();
    text_extremes::combinations_nest();
    text_extremes::combinations_tell();
}

/// The same of first rows: in each round in which rows are judged a line that says certain is that of a row among the first of all parts,
/// and each of these has a line; later reports of the parts make what is printed a later report; where each part lists certain rows alone,
/// with one key each, so are all that are printed; and what is printed holds as the report of one part of more.
pub fn combined_rows_are_certain()
    ensures { CombinedRowsAreCertain }
{
    names_are_apart();
    named_lines_are_right();
    parts_are_later();
    joined_lines_nest();
    joined_lines_become_exact();
    rising_lines_are_listed_once();
    lines_hold();
}
