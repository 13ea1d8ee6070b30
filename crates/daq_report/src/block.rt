//! A block, written to a sink.

ghost use Rattle.std.specs.Prelude.{◌<◌, length, IfSome};
ghost use Rattle.daq_table.specs.ValueTexts.{HeadHasTexts};
ghost use Rattle.outer_world.specs.Whole.{Writes};
ghost use Rattle.query_model.specs.Validity.{FitsHead};
ghost use Rattle.daq_report.specs.Blocks.{block_text, form_text};

use crate::groups::write_groups;
use crate::items::write_items;
use crate::rankings::write_ranking;
use crate::round_line::written_round;
use crate::scope::Scope;
use daq_table::Head;
use outer_world::{Failed, Sink, write_whole};
use plane_schedule::{Extras, Listing, Plan};
use query_model::Shape;
use round_engine::EngineView;

// Writes the lines of the query's form.
fn write_form<K: Sink>(
    engine: &EngineView<'_>,
    head: &Head,
    listing: Listing,
    extras: Extras,
    out: &mut K,
) -> Result<(), Failed>
    requires fits { FitsHead engine.now.query engine.now.frame head.now }
    requires texts { HeadHasTexts head.now }
    ensures { Writes result (K.state out.old) (K.state out.new) (form_text head.now listing extras engine.now engine.now.query.shape) }
{
    match &engine.query().shape {
        Shape::Plain => write_items(engine, head, Scope::AllRows(extras), out),
        Shape::Grouped(columns) => write_groups(engine, head, columns.as_slice(), out),
        Shape::Top { key, limit, .. } => write_ranking(engine, head, *key, *limit, listing, out),
    }
}

/// Appends the block of a round: its number, where it is not the first the column that was read in it (by its number in the query),
/// and the lines of the query's form: one for each item, or those of each group, or first rows in an order, those that the plan's
/// `listing` says. Items over all rows have more lines with its `extras`. Takes no memory; all was handed over before `Ok`,
/// and a part of the block, from its front, where a write failed.
pub fn write_block<K: Sink>(
    engine: &EngineView<'_>,
    head: &Head,
    round: u32,
    last: Option<usize>,
    plan: &Plan,
    out: &mut K,
) -> Result<(), Failed>
    requires fits { FitsHead engine.now.query engine.now.frame head.now }
    requires texts { HeadHasTexts head.now }
    requires last { IfSome last (λ c. c < length engine.now.query.columns) }
    ensures { Writes result (K.state out.old) (K.state out.new)
        (block_text head.now plan.now.listing plan.now.extras engine.now round last) }
{
    write_whole(out, written_round(engine, head, round, last).bytes())?;
    write_form(engine, head, plan.listing, plan.extras, out)
}
