//! The report of a query: its line, and the blocks of its rounds.

ghost use Rattle.std.specs.Prelude.{◌≡◌, ◌<◌, ◌^◌, IfSome, OnOk, OnErr, length};
ghost use Rattle.daq_report.specs.Blocks.{block_text};
ghost use Rattle.daq_table.specs.ValueTexts.{HeadHasTexts};
ghost use Rattle.outer_world.specs.Whole.{Writes};
ghost use Rattle.plane_schedule.specs.Plans.{IsReadable};
ghost use Rattle.query_model.specs.Validity.{FitsHead, IsValid};
ghost use Rattle.round_engine.specs.Progresses.{planes_read};
ghost use Rattle.round_engine.specs.Stages.{opened};
ghost use Rattle.daq_cli.specs.Questions.{ReportsRounds};
ghost use Rattle.daq_cli.specs.Report.{block_of, query_line};
ghost use Rattle.daq_cli.specs.Worlds.{partly, whole};
ghost use Rattle.sql_print.specs.Printed.{printed};
ghost use Rattle.sql_text.specs.Tree.{Query};

use crate::course_report::{Begun, Shows, write_rounds};
use crate::stop::Stop;
use daq_report::write_block;
use daq_table::{Head, Table};
use outer_world::{Failed, Sink, write_pieces};
use plane_course::StepFault;
use plane_schedule::Plan;
use query_model::valid_queries_name_columns;
use round_engine::{Engine, EngineView};
use table_rounds::{
    heads_are_of_longs, rounds_are_certain, rounds_are_counted, rounds_begin, rounds_have_an_end,
    tables_are_taken,
};

// Writes the line of the query with that printed form.
pub(crate) fn write_query<K: Sink>(sql: &[u8], out: &mut K) -> Result<(), Failed>
    ensures { Writes result (K.state out.old) (K.state out.new) (query_line sql.now) }
{
    write_pieces(out, &[b"query ", sql, b"\n"])
}

// Writes the block of the round at which a query stands, whose last read was of this column of its own.
pub(crate) fn write_round<K: Sink>(
    plan: &Plan,
    engine: &EngineView<'_>,
    head: &Head,
    last: Option<usize>,
    out: &mut K,
) -> Result<(), Failed>
    requires fits { FitsHead engine.now.query engine.now.frame head.now }
    requires texts { HeadHasTexts head.now }
    requires last { IfSome last (λ c. c < length engine.now.query.columns) }
    ensures { Writes result (K.state out.old) (K.state out.new)
        (block_text head.now plan.now.listing plan.now.extras engine.now (planes_read engine.now.known) last) }
{
    let round = engine.progress().done;
    write_block(engine, head, round, last, plan, out)
}

impl Shows for Engine {
    ghost block = { λ first plan head bits. block_of head plan first.query bits };

    fn write_block<K: Sink>(
        &self,
        plan: &Plan,
        head: &Head,
        last: Option<usize>,
        out: &mut K,
    ) -> Result<(), Failed> {
        rounds_are_counted();
        write_round(plan, &self.view(), head, last, out)
    }
}

// Writes the report of a query with that printed form over a table, on which it was opened. A table in memory gives each plane.
pub(crate) fn report_table<K: Sink>(
    sql: &[u8],
    begun: &mut Begun<Engine>,
    table: &Table,
    out: &mut K,
) -> Result<(), Failed>
    requires valid { IsValid table.now.head begun.old.running.query }
    requires opened { begun.old.running ≡ opened begun.old.running.query table.now.head }
    requires texts { HeadHasTexts table.now.head }
    requires rows { length begun.old.plane ≡ begun.old.running.frame.rows }
    requires width { begun.old.plan.near.width < 2 ^ 63 }
    requires readable { IsReadable begun.old.plan.policy begun.old.running.frame }
    ensures done { OnOk result ((query : Query) → sql.now ≡ printed query
        → ReportsRounds query begun.old.running.query begun.old.plan table.now whole (K.state out.old) (K.state out.new)) }
    ensures failed { OnErr result ((query : Query) → sql.now ≡ printed query
        → ReportsRounds query begun.old.running.query begun.old.plan table.now partly (K.state out.old) (K.state out.new)) }
{
    rounds_begin();
    rounds_are_certain();
    rounds_have_an_end();
    tables_are_taken();
    valid_queries_name_columns();
    // The head's clause says that the cells fit it.
    let told = table.head();
    heads_are_of_longs(told);
    write_query(sql, out)?;
    let mut source = table;
    match write_rounds(begun, &mut source, out) {
        Ok(()) => Ok(()),
        Err(Stop::Failed) => Err(Failed),
        Err(Stop::Step(StepFault::Source(never))) => match never {},
        Err(Stop::Step(StepFault::OverTop { .. })) => unreachable!(),
    }
}
