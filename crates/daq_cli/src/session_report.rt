//! The report of a session: its queries, and for each step the blocks of the queries to which it went.

ghost use Rattle.std.specs.Prelude.{◌≡◌, ◌<◌, ◌+◌, ◌^◌, ℕ, List, Some, IfSome, length, map, slice_get, string_bytes};
ghost use Rattle.daq_table.specs.ValueTexts.{HeadHasTexts};
ghost use Rattle.outer_world.specs.Device.{HasCause};
ghost use Rattle.outer_world.specs.Whole.{Writes};
ghost use Rattle.query_model.specs.Queries.{Query};
ghost use Rattle.table_rounds.specs.Rounds.{Planes, column_read};
ghost use Rattle.table_rounds.specs.Steps.{FitsSession, IsAfter, places_read, queries_of};
ghost use Rattle.daq_cli.specs.SessionReport.{QueriesAreShownAlone, at_line, block_at, blocks_at};
ghost use Rattle.daq_cli.specs.SessionReport.{count_line, numbered, numbered_line, own_of, queries_lines};

use crate::course_report::Shows;
use crate::report::write_round;
use daq_report::written_count;
use daq_table::Head;
use multi_session::Session;
use outer_world::{Failed, Sink, write_pieces};
use plane_schedule::Plan;
use table_rounds::{queries_stand_alone, rounds_are_counted};

// Writes the printed form of a query, with its number.
fn write_query<K: Sink>(number: u64, sql: &str, out: &mut K) -> Result<(), Failed>
    ensures { Writes result (K.state out.old) (K.state out.new) (numbered_line number sql.now) }
{
    write_pieces(
        out,
        &[written_count(number).bytes(), b" ", sql.as_bytes(), b"\n"],
    )
}

// Writes their printed forms, numbered from 1.
fn write_printed<K: Sink>(sqls: &[String], out: &mut K) -> Result<(), Failed>
    ensures { Writes result (K.state out.old) (K.state out.new) (numbered numbered_line 1 (map string_bytes sqls.now)) }
{
    for at in 0..sqls.len() {
        write_query(at as u64 + 1, sqls[at].as_str(), out)?;
    }
    Ok(())
}

// Writes the number of the queries.
fn write_count<K: Sink>(count: u64, out: &mut K) -> Result<(), Failed>
    ensures { Writes result (K.state out.old) (K.state out.new) (count_line count) }
{
    write_pieces(out, &[b"queries ", written_count(count).bytes(), b"\n"])
}

// Writes the number of the queries and their printed forms.
pub(crate) fn write_queries<K: Sink>(sqls: &[String], out: &mut K) -> Result<(), Failed>
    ensures { Writes result (K.state out.old) (K.state out.new) (queries_lines (map string_bytes sqls.now)) }
{
    write_count(sqls.len() as u64, out)?;
    write_printed(sqls, out)
}

// The column that the last step read, by its number in the query; none where the query does not read it or no step was done.
fn last_own(session: &Session, query: usize, last: Option<usize>) -> Option<usize>
    requires query { query < length session.now.stages }
    requires last { IfSome last (λ column. column < length session.now.columns) }
    ensures { IfSome (slice_get session.now.stages query) (λ stage. result ≡ own_of session.now.columns stage.query last) }
{
    match last {
        Some(column) => session.own(query, column),
        None => None,
    }
}

// Writes the line before the block of a query with this number at a step.
fn write_at<K: Sink>(step: u32, number: u64, out: &mut K) -> Result<(), Failed>
    ensures { Writes result (K.state out.old) (K.state out.new) (at_line step number) }
{
    write_pieces(
        out,
        &[
            b"at ",
            written_count(u64::from(step)).bytes(),
            b" query ",
            written_count(number).bytes(),
            b"\n",
        ],
    )
}

// Writes the block of a query of the session, behind its line, where the last step went to it. The step read this column of the session.
fn write_moved<K: Sink>(
    plan: &Plan,
    session: &Session,
    query: usize,
    head: &Head,
    last: Option<usize>,
    out: &mut K,
) -> Result<(), Failed>
    requires query { query < length session.now.stages }
    requires few { query + 1 < 2 ^ 64 }
    requires fits { FitsSession session.now head.now }
    requires texts { HeadHasTexts head.now }
    requires last { IfSome last (λ column. column < length session.now.columns) }
    ensures cause { HasCause (K.state out.old).faults (K.state out.new).faults result }
    ensures block { (queries : List Query) (bits : Planes) (reads : List ℕ) (q : Query)
        → IsAfter plan.now queries head.now bits reads session.now → slice_get queries query ≡ Some q
        → last ≡ column_read reads (length reads)
        → Writes result (K.state out.old) (K.state out.new)
        (block_at head.now plan.now bits (places_read queries reads) (length reads) (query + 1) q) }
{
    queries_stand_alone();
    rounds_are_counted();
    if !session.moved(query) {
        return Ok(());
    }
    let step = session.progress().done;
    let own = last_own(session, query, last);
    let view = session.view(query);
    write_at(step, query as u64 + 1, out)?;
    write_round(plan, &view, head, own, out)
}

// Writes the blocks of all queries to which the last step went, in order.
fn write_step<K: Sink>(
    plan: &Plan,
    session: &Session,
    head: &Head,
    last: Option<usize>,
    out: &mut K,
) -> Result<(), Failed>
    requires fits { FitsSession session.now head.now }
    requires texts { HeadHasTexts head.now }
    requires last { IfSome last (λ column. column < length session.now.columns) }
    ensures cause { HasCause (K.state out.old).faults (K.state out.new).faults result }
    ensures blocks { (queries : List Query) (bits : Planes) (reads : List ℕ) → IsAfter plan.now queries head.now bits reads session.now
        → last ≡ column_read reads (length reads)
        → Writes result (K.state out.old) (K.state out.new) (blocks_at head.now plan.now queries bits reads (length reads)) }
{
    for query in 0..session.queries() {
        write_moved(plan, session, query, head, last, out)?;
    }
    Ok(())
}

impl Shows for Session {
    ghost block = { λ first plan head bits. blocks_at head plan (queries_of first) bits };

    fn write_block<K: Sink>(
        &self,
        plan: &Plan,
        head: &Head,
        last: Option<usize>,
        out: &mut K,
    ) -> Result<(), Failed> {
        write_step(plan, self, head, last, out)
    }
}

/// The blocks that the report of a session shows of a query are those of its report alone by the list of its own reads: those of its
/// columns up to its first narrow round.
pub fn queries_are_shown_alone()
    ensures { QueriesAreShownAlone }
{
    queries_stand_alone();
}
