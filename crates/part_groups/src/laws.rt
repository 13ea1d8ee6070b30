//! The laws of reports by groups over all parts.

ghost use Rattle.part_groups.specs.Laws.{GroupsContain, GroupsReportAverages, GroupsHaveColumns};
ghost use Rattle.part_groups.specs.Laws.{GroupsNest, GroupsNestAverages};
ghost use Rattle.part_groups.specs.Laws.{GroupsTell, GroupsTellAverages, GroupsTellKeys};
ghost use Rattle.part_groups.specs.TextLaws.{GroupsContainTexts, GroupsNestTexts, GroupsTellTexts};
ghost use Rattle.part_groups.specs.Whole.{CombinedCanBe, CombinedIsWhole, FaultsAreOne, FaultsAreWhole, WholeIsCombined};

use shard_groups::{
    combined_is_found, lines_are_found, lines_contain, lines_nest, lines_nest_averages,
    lines_report_averages, lines_tell, lines_tell_averages, lines_tell_keys,
};

/// Where the parts' reports are certain of a key, a group that has it contains its answer over the rows of all parts.
pub fn groups_contain()
    ensures { GroupsContain }
{
    lines_contain();
}

/// Each key of the whole result is in one group, and each key of a present group is in the result.
pub fn groups_tell_keys()
    ensures { GroupsTellKeys }
{
    lines_tell_keys();
}

/// Where the parts' reports are exact, a group that has a key says its answer over the rows of all parts.
pub fn groups_tell()
    ensures { GroupsTell }
{
    lines_tell();
}

/// With later reports of the parts, the group of a key and its bound lie within those before.
pub fn groups_nest()
    ensures { GroupsNest }
{
    lines_nest();
}

/// Where each line has a key, the groups over all parts are a function of what the parts tell.
pub fn combined_is_whole()
    ensures { CombinedIsWhole }
{
    combined_is_found();
}

/// Where each line has a key, reports that are combined can be.
pub fn combined_can_be()
    ensures { CombinedCanBe }
{
    lines_are_found();
    combined_is_whole();
}

/// Where each line has a key, the fault for which reports are not combined is a function of what the parts tell.
pub fn faults_are_whole()
    ensures { FaultsAreWhole }
{
    lines_are_found();
    combined_is_whole();
}

/// Reports have one fault at most, and none where they can be combined.
pub fn faults_are_one()
    ensures { FaultsAreOne }
{}

/// Where the parts write each column and each item in one form, what is found of what they tell is a combined report.
pub fn whole_is_combined()
    ensures { WholeIsCombined }
{
    lines_are_found();
}

/// Where the parts' reports are certain of the average at a key, so is a group that has the key, over the rows of all parts.
pub fn groups_report_averages()
    ensures { GroupsReportAverages }
{
    lines_report_averages();
}

/// With later reports of the parts, the group of a key and its average lie within those before.
pub fn groups_nest_averages()
    ensures { GroupsNestAverages }
{
    lines_nest_averages();
}

/// Where the parts' reports are exact, a group that has a key says the sum and the number of its values in all parts.
pub fn groups_tell_averages()
    ensures { GroupsTellAverages }
{
    lines_tell_averages();
}

/// The groups of a combined report have as many columns as those of the parts.
pub fn groups_have_columns()
    ensures { GroupsHaveColumns }
{}

/// Where the parts' reports are certain of a key, a group that has it contains the least or the greatest text of the rows of all parts.
pub fn groups_contain_texts()
    ensures { GroupsContainTexts }
{}

/// Where the parts' reports are exact, a group that has a key says the least or the greatest text of the rows of all parts.
pub fn groups_tell_texts()
    ensures { GroupsTellTexts }
{}

/// With later reports of the parts, the group of a key and its least or greatest text lie within those before.
pub fn groups_nest_texts()
    ensures { GroupsNestTexts }
{}
