//! `session`: the queries of a script over the planes that a file holds. The script is read to its end, then the file's head, and then the
//! planes of the steps, each once for all queries that await it.

ghost use Rattle.std.specs.Prelude.{◌≡◌, ◌≢◌, ◌<◌, ◌^◌, ℕ, List, [], IfErr, IsUtf8, OnOk, length, map, string_bytes};
ghost use Rattle.std.specs.List.{All};
ghost use Rattle.command_line.specs.Commands.{reads};
ghost use Rattle.command_line.specs.Values.{order_of, session_of};
ghost use Rattle.plane_course.specs.Told.{HoldsFile};
ghost use Rattle.multi_session.specs.Sessions.{session_opened};
ghost use Rattle.outer_world.specs.Device.{SourceState, StoreState};
ghost use Rattle.outer_world.specs.Whole.{HoldsSame};
ghost use Rattle.table_rounds.specs.SessionLaws.{AreValid};
ghost use Rattle.table_rounds.specs.Steps.{IsUnlisted, queries_of};
ghost use Rattle.sql_print.specs.Printed.{printed};
ghost use Rattle.sql_text.specs.Tree.{query_of};
ghost use Rattle.daq_cli.specs.FileReports.{EndsFile, StopsAfter};
ghost use Rattle.daq_cli.specs.Report.{EndsOverSome, HasStopCause};
ghost use Rattle.daq_cli.specs.ScriptValues.{scripted_of};
ghost use Rattle.daq_cli.specs.Scripts.{AcceptsScript};
ghost use Rattle.daq_cli.specs.SessionReport.{queries_lines, shown_steps};
ghost use Rattle.daq_cli.specs.commands.Session.{HasOpened, SessionCause, Sessions};

use crate::course_report::Begun;
use crate::file_report::report_file;
use crate::refusal::Refusal;
use crate::scripts::{Scripted, read_queries};
use crate::session_report::{queries_are_shown_alone, write_queries};
use crate::stop::Stop;
use crate::together::prepare_all;
use command_line::Session as Asked;
use multi_session::Session;
use outer_world::{Sink, Source, Store};
use plane_file::{PlaneFault, PlaneFile, open};
use query_model::valid_queries_name_columns;
use std::alloc::Global;
use table_rounds::{heads_are_of_longs, rounds_have_tables, sessions_are_certain, sessions_begin};

// Writes the report of a session of queries with those printed forms over a file, on which it was opened.
fn report_session<P: Store, K: Sink>(
    sqls: &[String],
    begun: &mut Begun<Session>,
    file: &PlaneFile,
    planes: &mut P,
    out: &mut K,
) -> Result<(), Stop<PlaneFault>>
    requires holds { HoldsFile file.now.head (P.state planes.old) }
    requires valid { AreValid file.now.head (queries_of begun.old.running) }
    requires opened { begun.old.running ≡ session_opened (queries_of begun.old.running) file.now.head begun.old.plan.near }
    requires rows { length begun.old.plane ≡ begun.old.running.rows }
    requires unlisted { IsUnlisted begun.old.plan.policy }
    ensures same { HoldsSame (P.state planes.old) (P.state planes.new) }
    ensures cause { HasStopCause (StopsAfter file.now.head (P.state planes.old) (P.state planes.new)) result
        (K.state out.old) (K.state out.new) }
    ensures written { EndsOverSome (queries_lines (map string_bytes sqls.now))
        (shown_steps file.now.head begun.old.plan (queries_of begun.old.running)) result (K.state out.old) (K.state out.new) }
    ensures ends { EndsFile (queries_lines (map string_bytes sqls.now))
        (shown_steps file.now.head begun.old.plan (queries_of begun.old.running)) file.now.head result
        (P.state planes.old) (P.state planes.new) (K.state out.old) (K.state out.new) }
{
    sessions_begin();
    write_queries(sqls, out)?;
    report_file(begun, file, planes, out)
}

// Answers the queries over the table of a file that was opened. All memory is taken before the report's first byte.
fn answer_file<P: Store, K: Sink>(
    alloc: Global,
    asked: &Asked,
    queries: &[Scripted],
    file: &PlaneFile,
    planes: &mut P,
    out: &mut K,
) -> Result<(), Refusal>
    requires width { asked.now.options.width < 2 ^ 63 }
    requires by_policy { (names : List ℕ) → order_of asked.now.options.order ≢ reads names }
    requires some { queries.now ≢ [] }
    requires printable { All (λ one. IsUtf8 (printed (query_of one.tree))) queries.now }
    requires holds { HoldsFile file.now.head (P.state planes.old) }
    ensures done { (old side : SourceState) (first : StoreState)
        → HasOpened old side first (P.state planes.old) (map scripted_of queries.now) file.now
        → OnOk result (Sessions (session_of asked.now) old side first (P.state planes.new) (K.state out.old) (K.state out.new)) }
    ensures refused { (old side : SourceState) (first : StoreState)
        → HasOpened old side first (P.state planes.old) (map scripted_of queries.now) file.now
        → IfErr result (SessionCause (session_of asked.now) old side first (P.state planes.new) (K.state out.old) (K.state out.new)) }
    ensures same { HoldsSame (P.state planes.old) (P.state planes.new) }
{
    sessions_are_certain();
    queries_are_shown_alone();
    rounds_have_tables();
    valid_queries_name_columns();
    let head = file.head();
    heads_are_of_longs(head);
    let mut together = prepare_all(alloc, queries, &asked.options, head)?;
    report_session(&together.sqls, &mut together.begun, file, planes, out)?;
    Ok(())
}

// Reads the script to its end, opens the file, and answers the queries over its table.
pub(crate) fn carry_out<S: Source, P: Store, K: Sink>(
    alloc: Global,
    asked: &Asked,
    side: &mut S,
    planes: &mut P,
    out: &mut K,
) -> Result<(), Refusal>
    requires width { asked.now.options.width < 2 ^ 63 }
    requires by_policy { (names : List ℕ) → order_of asked.now.options.order ≢ reads names }
    ensures done { OnOk result (Sessions (session_of asked.now) (S.state side.old) (S.state side.new)
        (P.state planes.old) (P.state planes.new) (K.state out.old) (K.state out.new)) }
    ensures refused { IfErr result (SessionCause (session_of asked.now) (S.state side.old) (S.state side.new)
        (P.state planes.old) (P.state planes.new) (K.state out.old) (K.state out.new)) }
    ensures same { HoldsSame (P.state planes.old) (P.state planes.new) }
    ensures aside { ¬ AcceptsScript (S.state side.old).left
        → (P.state planes.new ≡ P.state planes.old) × (K.state out.new ≡ K.state out.old) }
{
    let queries = read_queries(alloc, side)?;
    let file = open(alloc, planes)?;
    answer_file(alloc, asked, &queries, &file, planes, out)
}
