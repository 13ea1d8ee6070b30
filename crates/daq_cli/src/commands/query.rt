//! `query`: a question to the table whose planes a file holds. The head is read, and then the planes of the rounds.

ghost use Rattle.std.specs.Prelude.{◌≡◌, ◌<◌, ◌^◌, IfErr, IsUtf8, OnOk, length};
ghost use Rattle.command_line.specs.Values.{query_of};
ghost use Rattle.plane_course.specs.Told.{HoldsFile};
ghost use Rattle.outer_world.specs.Device.{StoreState};
ghost use Rattle.outer_world.specs.Whole.{HoldsSame};
ghost use Rattle.plane_schedule.specs.Plans.{IsReadable};
ghost use Rattle.query_model.specs.Validity.{IsValid};
ghost use Rattle.round_engine.specs.Stages.{opened};
ghost use Rattle.sql_print.specs.Printed.{printed};
ghost use Rattle.sql_text.specs.Answer.{IsText};
ghost use Rattle.sql_text.specs.Tree as sql;
ghost use Rattle.daq_cli.specs.FileReports.{EndsFile, StopsAfter};
ghost use Rattle.daq_cli.specs.Report.{EndsOverSome, HasStopCause, query_line, shown_rounds};
ghost use Rattle.daq_cli.specs.commands.Query.{HasOpened, Queries, QueryCause};

use crate::course_report::Begun;
use crate::file_report::report_file;
use crate::question::{prepare, read_query};
use crate::refusal::Refusal;
use crate::report::write_query;
use crate::stop::Stop;
use command_line::Query;
use outer_world::{Sink, Store};
use plane_file::{PlaneFault, PlaneFile, open};
use query_model::valid_queries_name_columns;
use round_engine::Engine;
use sql_text::Tree;
use std::alloc::Global;
use table_rounds::{heads_are_of_longs, rounds_are_certain, rounds_begin, rounds_have_tables};

// Writes the report of a query with that printed form over a file, on which it was opened.
fn report_query<P: Store, K: Sink>(
    sql: &[u8],
    begun: &mut Begun<Engine>,
    file: &PlaneFile,
    planes: &mut P,
    out: &mut K,
) -> Result<(), Stop<PlaneFault>>
    requires holds { HoldsFile file.now.head (P.state planes.old) }
    requires valid { IsValid file.now.head begun.old.running.query }
    requires opened { begun.old.running ≡ opened begun.old.running.query file.now.head }
    requires rows { length begun.old.plane ≡ begun.old.running.frame.rows }
    requires width { begun.old.plan.near.width < 2 ^ 63 }
    requires readable { IsReadable begun.old.plan.policy begun.old.running.frame }
    ensures same { HoldsSame (P.state planes.old) (P.state planes.new) }
    ensures cause { HasStopCause (StopsAfter file.now.head (P.state planes.old) (P.state planes.new)) result
        (K.state out.old) (K.state out.new) }
    ensures written { EndsOverSome (query_line sql.now) (shown_rounds file.now.head begun.old.plan begun.old.running.query) result
        (K.state out.old) (K.state out.new) }
    ensures ends { EndsFile (query_line sql.now) (shown_rounds file.now.head begun.old.plan begun.old.running.query) file.now.head result
        (P.state planes.old) (P.state planes.new) (K.state out.old) (K.state out.new) }
{
    rounds_begin();
    write_query(sql, out)?;
    report_file(begun, file, planes, out)
}

// Answers the question to the table of a file that was opened. All memory is taken before the report's first byte.
fn answer_file<P: Store, K: Sink>(
    alloc: Global,
    asked: &Query,
    query: &Tree,
    file: &PlaneFile,
    planes: &mut P,
    out: &mut K,
) -> Result<(), Refusal>
    requires width { asked.now.options.width < 2 ^ 63 }
    requires printable { IsUtf8 (printed (sql.query_of query.now)) }
    requires holds { HoldsFile file.now.head (P.state planes.old) }
    ensures done { (first : StoreState) → HasOpened (query_of asked.now) first (P.state planes.old) (sql.query_of query.now) file.now
        → OnOk result (Queries (query_of asked.now) first (P.state planes.new) (K.state out.old) (K.state out.new)) }
    ensures refused { (first : StoreState) → HasOpened (query_of asked.now) first (P.state planes.old) (sql.query_of query.now) file.now
        → IfErr result (QueryCause (query_of asked.now) first (P.state planes.new) (K.state out.old) (K.state out.new)) }
    ensures same { HoldsSame (P.state planes.old) (P.state planes.new) }
{
    rounds_are_certain();
    rounds_have_tables();
    valid_queries_name_columns();
    let head = file.head();
    heads_are_of_longs(head);
    let mut prepared = prepare(alloc, query, &asked.options, head)?;
    report_query(
        prepared.sql.as_bytes(),
        &mut prepared.begun,
        file,
        planes,
        out,
    )?;
    Ok(())
}

// Opens the file, and answers the question to its table.
pub(crate) fn carry_out<P: Store, K: Sink>(
    alloc: Global,
    asked: &Query,
    planes: &mut P,
    out: &mut K,
) -> Result<(), Refusal>
    requires width { asked.now.options.width < 2 ^ 63 }
    ensures done { OnOk result (Queries (query_of asked.now)
        (P.state planes.old) (P.state planes.new) (K.state out.old) (K.state out.new)) }
    ensures refused { IfErr result (QueryCause (query_of asked.now)
        (P.state planes.old) (P.state planes.new) (K.state out.old) (K.state out.new)) }
    ensures same { HoldsSame (P.state planes.old) (P.state planes.new) }
    ensures untouched { ¬ ((query : sql.Query) × IsText asked.now.sql.now query)
        → (P.state planes.new ≡ P.state planes.old) × (K.state out.new ≡ K.state out.old) }
{
    let query = read_query(alloc, asked.sql)?;
    let file = open(alloc, planes)?;
    answer_file(alloc, asked, &query, &file, planes, out)
}
