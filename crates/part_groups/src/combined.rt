//! The report by groups over all parts.

ghost use Rattle.std.specs.Prelude.{◌≡◌, ◌<◌, IfErr, IfOk, OnOk, length, map};
ghost use Rattle.std.specs.List.{All};
ghost use Rattle.part_groups.specs.Cells.{slices, told};
ghost use Rattle.part_groups.specs.Combined.{AreLinesOf, FitTogether, IsCombineFault, IsCombinedReport, IsShown, IsWide, answers_in};
ghost use Rattle.part_groups.specs.Faults.{IsTextless, IsTextlessIn};
ghost use Rattle.part_groups.specs.Shown.{group_in};
ghost use Rattle.part_groups.specs.Texts.{texts_with};

use crate::answers::shown_answers;
use crate::cells::all_cells;
use crate::fault::CombineFault;
use crate::forms::{EndsForm, Places, forms_over};
use crate::group::Group;
use crate::keys::shown_keys;
use crate::text_cells::{TextCell, told_cells};
use crate::texts::texts_with;
use daq_table::Listed;
use query_model::ItemKind;
use report_text::GroupLine;
use shard_groups::{Cell, combine_groups};
use std::alloc::Global;

// The lines over all parts.
fn lines_over(
    alloc: Global,
    kinds: &[ItemKind],
    parts: &[&[Group]],
) -> Result<Vec<Cell>, CombineFault>
    ensures lines { IfOk result (λ lines. AreLinesOf kinds.now (slices parts.now) lines.items) }
    ensures fit { OnOk result (FitTogether kinds.now (slices parts.now)) }
    ensures fault { IfErr result (λ why. IsWide why kinds.now (slices parts.now)) }
{
    let cells = all_cells(alloc, parts)?;
    let lines = combine_groups(alloc, kinds, &cells)?;
    Ok(lines)
}

// The group of a line, in these forms, with its texts.
fn group_in(
    alloc: Global,
    columns: &[Option<EndsForm>],
    items: &[Option<EndsForm>],
    kinds: &[ItemKind],
    cells: &Option<Listed<Listed<TextCell>>>,
    line: &Cell,
) -> Result<Group, CombineFault>
    requires { 0 < length columns.now }
    ensures group { IfOk result (λ group. group ≡ group_in columns.now items.now (texts_with kinds.now cells.now) (told line.now)) }
    ensures shown { IfOk result IsShown }
    ensures fault { IfErr result (λ why.
        IsTextless why (group_in columns.now items.now (texts_with kinds.now cells.now) (told line.now)).answers) }
{
    let keys = shown_keys(alloc, columns, line.keys.as_slice())?;
    let answers = shown_answers(alloc, items, line.items.as_slice())?;
    let texts = texts_with(alloc, kinds, cells, line.keys.as_slice())?;
    Ok(Group {
        line: GroupLine {
            keys,
            present: line.present,
        },
        answers: Listed::new(answers),
        texts: Listed::new(texts),
    })
}

// The groups of all lines.
fn groups_in(
    alloc: Global,
    columns: &[Option<EndsForm>],
    items: &[Option<EndsForm>],
    kinds: &[ItemKind],
    cells: &Option<Listed<Listed<TextCell>>>,
    lines: &[Cell],
) -> Result<Vec<Group>, CombineFault>
    requires { 0 < length columns.now }
    ensures groups { IfOk result (λ groups.
        groups.items ≡ map (λ line. group_in columns.now items.now (texts_with kinds.now cells.now) (told line)) lines.now) }
    ensures shown { IfOk result (λ groups. All IsShown groups.items) }
    ensures fault { IfErr result (λ why.
        IsTextlessIn why
        (answers_in (map (λ line. group_in columns.now items.now (texts_with kinds.now cells.now) (told line)) lines.now))) }
{
    let mut groups = Vec::with_capacity(alloc, lines.len())?;
    for line in lines {
        groups.push(group_in(alloc, columns, items, kinds, cells, line)?)?;
    }
    Ok(groups)
}

/// The report by groups over all parts of a query with so many group columns and with items of these kinds. Each part gives the groups of
/// its block.
pub fn combine(
    alloc: Global,
    columns: usize,
    kinds: &[ItemKind],
    parts: &[&[Group]],
) -> Result<Vec<Group>, CombineFault>
    requires { 0 < columns }
    ensures groups { IfOk result (λ groups. IsCombinedReport columns kinds.now (slices parts.now) groups.items) }
    ensures fit { OnOk result (FitTogether kinds.now (slices parts.now)) }
    ensures shown { IfOk result (λ groups. All IsShown groups.items) }
    ensures fault { IfErr result (λ why. IsCombineFault why columns kinds.now (slices parts.now)) }
{
    let column_forms = forms_over(alloc, Places::Columns, columns, parts)?;
    let item_forms = forms_over(alloc, Places::Items, kinds.len(), parts)?;
    let lines = lines_over(alloc, kinds, parts)?;
    let cells = told_cells(alloc, parts)?;
    groups_in(alloc, &column_forms, &item_forms, kinds, &cells, &lines)
}
