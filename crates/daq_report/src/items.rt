//! The lines of items: where the answer of each lies.

ghost use Rattle.std.specs.Prelude.{◌≡◌, ◌<◌, ◌+◌, slice_get, Some};
ghost use Rattle.daq_table.specs.ValueTexts.{HeadHasTexts};
ghost use Rattle.outer_world.specs.Whole.{Writes};
ghost use Rattle.query_model.specs.Validity.{FitsHead};
ghost use Rattle.daq_report.specs.Items.{IsScope, answer_line, answer_text, item_line, items_text, lines_behind};

use crate::extras::{is_average, write_extras};
use crate::intervals::{write_average, write_bound};
use crate::scope::Scope;
use crate::texts::written_count;
use daq_table::Head;
use outer_world::{Failed, Sink, write_whole};
use query_model::Item;
use round_engine::EngineView;

// Writes where the answer of an item lies.
fn write_answer<K: Sink>(
    engine: &EngineView<'_>,
    head: &Head,
    scope: Scope,
    place: usize,
    item: &Item,
    out: &mut K,
) -> Result<(), Failed>
    requires fits { FitsHead engine.now.query engine.now.frame head.now }
    requires texts { HeadHasTexts head.now }
    requires scope { IsScope engine.now scope }
    requires there { slice_get engine.now.query.items place ≡ Some item.now }
    ensures { Writes result (K.state out.old) (K.state out.new) (answer_text head.now engine.now scope item.now) }
{
    let query = engine.query();
    if is_average(item.kind) {
        return write_average(head, query, item.face, &scope.average(engine, place), out);
    }
    write_bound(head, query, item.face, &scope.bound(engine, place), out)
}

// Writes the line of an item's answer.
fn write_answer_line<K: Sink>(
    engine: &EngineView<'_>,
    head: &Head,
    scope: Scope,
    place: usize,
    item: &Item,
    out: &mut K,
) -> Result<(), Failed>
    requires fits { FitsHead engine.now.query engine.now.frame head.now }
    requires texts { HeadHasTexts head.now }
    requires scope { IsScope engine.now scope }
    requires there { slice_get engine.now.query.items place ≡ Some item.now }
    requires few { place < 16 }
    ensures { Writes result (K.state out.old) (K.state out.new) (answer_line head.now engine.now scope (place + 1) item.now) }
{
    write_whole(out, written_count(place as u64 + 1).bytes())?;
    write_whole(out, b" ")?;
    write_answer(engine, head, scope, place, item, out)?;
    write_whole(out, b"\n")
}

// Writes the lines that are wanted besides.
fn write_behind<K: Sink>(
    engine: &EngineView<'_>,
    head: &Head,
    scope: Scope,
    place: usize,
    item: &Item,
    out: &mut K,
) -> Result<(), Failed>
    requires fits { FitsHead engine.now.query engine.now.frame head.now }
    requires texts { HeadHasTexts head.now }
    requires scope { IsScope engine.now scope }
    requires there { slice_get engine.now.query.items place ≡ Some item.now }
    requires few { place < 16 }
    ensures { Writes result (K.state out.old) (K.state out.new) (lines_behind head.now engine.now scope (place + 1) item.now) }
{
    match scope {
        Scope::AllRows(extras) => write_extras(engine, head, extras, place, item, out),
        Scope::InCell(_) => Ok(()),
    }
}

// Writes the lines of an item.
fn write_item<K: Sink>(
    engine: &EngineView<'_>,
    head: &Head,
    scope: Scope,
    place: usize,
    item: &Item,
    out: &mut K,
) -> Result<(), Failed>
    requires fits { FitsHead engine.now.query engine.now.frame head.now }
    requires texts { HeadHasTexts head.now }
    requires scope { IsScope engine.now scope }
    requires there { slice_get engine.now.query.items place ≡ Some item.now }
    requires few { place < 16 }
    ensures { Writes result (K.state out.old) (K.state out.new) (item_line head.now engine.now scope (place + 1) item.now) }
{
    write_answer_line(engine, head, scope, place, item, out)?;
    write_behind(engine, head, scope, place, item, out)
}

// Writes the lines of the items, numbered from 1.
pub(crate) fn write_items<K: Sink>(
    engine: &EngineView<'_>,
    head: &Head,
    scope: Scope,
    out: &mut K,
) -> Result<(), Failed>
    requires fits { FitsHead engine.now.query engine.now.frame head.now }
    requires texts { HeadHasTexts head.now }
    requires scope { IsScope engine.now scope }
    ensures { Writes result (K.state out.old) (K.state out.new) (items_text head.now engine.now scope) }
{
    let items = engine.query().items.as_slice();
    for place in 0..items.len() {
        write_item(engine, head, scope, place, &items[place], out)?;
    }
    Ok(())
}
