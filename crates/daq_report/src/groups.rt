//! The lines of groups: of each cell that a row may be in, the keys that it holds, and where the answer of each item lies.

ghost use Rattle.std.specs.Prelude.{◌≡◌, ◌≢◌, ◌<◌};
ghost use Rattle.daq_table.specs.ValueTexts.{HeadHasTexts};
ghost use Rattle.outer_world.specs.Whole.{Writes};
ghost use Rattle.query_model.specs.Answers.{groups_of};
ghost use Rattle.query_model.specs.Validity.{FitsHead};
ghost use Rattle.query_model.specs.declared.bounds.Nullity.TheVariants.{Always};
ghost use Rattle.query_model.specs.declared.query.Shape.TheVariants.{Grouped};
ghost use Rattle.row_groups.specs.Partition.{ranges_in, ranges_of_cell};
ghost use Rattle.round_engine.specs.Cells.{AreDeclared, absence_in_cell, cells_in, parts_in};
ghost use Rattle.round_engine.specs.Stages.{IsGrouped};
ghost use Rattle.daq_report.specs.Groups.{cell_text, group_text, groups_text};

use crate::items::write_items;
use crate::keys::write_key;
use crate::scope::Scope;
use daq_table::Head;
use outer_world::{Failed, Sink, write_whole};
use query_model::{Nullity, illegal_cells_are_empty};
use round_engine::EngineView;
use row_groups::{CellKeys, cells_tell_keys};

// The keys of a cell that a row may be in: such a cell has keys.
fn keys_of(engine: &EngineView<'_>, cell: u32) -> CellKeys
    requires grouped { IsGrouped engine.now.query.shape }
    requires cell { cell < cells_in engine.now }
    requires filled { absence_in_cell engine.now cell ≢ Always }
    ensures keys { ranges_in result ≡ ranges_of_cell (parts_in engine.now) cell }
    ensures declared { AreDeclared engine.now.frame (groups_of engine.now.query.shape) (ranges_in result) }
{
    illegal_cells_are_empty();
    cells_tell_keys();
    let _query = engine.query();
    match engine.cell_keys(cell) {
        Some(keys) => keys,
        None => unreachable!(),
    }
}

// Writes the keys of a cell, what is known of them, and the lines of the items.
fn write_group<K: Sink>(
    engine: &EngineView<'_>,
    head: &Head,
    columns: &[u8],
    cell: u32,
    presence: &[u8],
    out: &mut K,
) -> Result<(), Failed>
    requires fits { FitsHead engine.now.query engine.now.frame head.now }
    requires texts { HeadHasTexts head.now }
    requires shape { engine.now.query.shape ≡ Grouped columns.now }
    requires cell { cell < cells_in engine.now }
    requires filled { absence_in_cell engine.now cell ≢ Always }
    ensures { Writes result (K.state out.old) (K.state out.new) (group_text head.now engine.now columns.now cell presence.now) }
{
    let keys = keys_of(engine, cell);
    write_whole(out, b"group ")?;
    write_key(head, engine.query(), columns, keys.parts(), out)?;
    write_whole(out, presence)?;
    write_items(engine, head, Scope::InCell(cell), out)
}

// Writes the lines of a cell, if a row may be in it.
fn write_cell<K: Sink>(
    engine: &EngineView<'_>,
    head: &Head,
    columns: &[u8],
    cell: u32,
    out: &mut K,
) -> Result<(), Failed>
    requires fits { FitsHead engine.now.query engine.now.frame head.now }
    requires texts { HeadHasTexts head.now }
    requires shape { engine.now.query.shape ≡ Grouped columns.now }
    requires cell { cell < cells_in engine.now }
    ensures { Writes result (K.state out.old) (K.state out.new)
        (cell_text head.now engine.now columns.now cell (absence_in_cell engine.now cell)) }
{
    match engine.cell_absence(cell) {
        Nullity::Never => write_group(engine, head, columns, cell, b" present\n", out),
        Nullity::Possibly => write_group(engine, head, columns, cell, b" possible\n", out),
        Nullity::Always => Ok(()),
    }
}

// Writes the lines of the cells, in order.
pub(crate) fn write_groups<K: Sink>(
    engine: &EngineView<'_>,
    head: &Head,
    columns: &[u8],
    out: &mut K,
) -> Result<(), Failed>
    requires fits { FitsHead engine.now.query engine.now.frame head.now }
    requires texts { HeadHasTexts head.now }
    requires shape { engine.now.query.shape ≡ Grouped columns.now }
    ensures { Writes result (K.state out.old) (K.state out.new) (groups_text head.now engine.now columns.now) }
{
    for cell in 0..engine.cells() {
        write_cell(engine, head, columns, cell, out)?;
    }
    Ok(())
}
