//! The queries of a script.

ghost use Rattle.std.specs.Prelude.{◌≡◌, ◌≢◌, [], IfOk, IfErr, IsUtf8, map};
ghost use Rattle.std.specs.List.{All};
ghost use Rattle.session_script.specs.Lines.{line_of};
ghost use Rattle.sql_print.specs.Printed.{printed};
ghost use Rattle.sql_text.specs.Tree.{query_of};
ghost use Rattle.daq_cli.specs.Faults as of;
ghost use Rattle.daq_cli.specs.ScriptValues.{scripted_of};
ghost use Rattle.daq_cli.specs.Scripts.{IsScripted, ReadsScript, ScriptCause, line_step};
ghost use Rattle.daq_cli.specs.Steps.{StopsStep, each};

use crate::question::read_query;
use crate::refusal::Refusal;
use outer_world::{ReadAllFault, Source, read_all};
use session_script::{MOST_BYTES, ScriptFault, ScriptQuery};
use sql_text::{SqlFault, Tree};
use std::alloc::Global;

// A query of a script, and the number of its line.
#[derive(Drop)]
pub(crate) struct Scripted {
    pub(crate) line: usize,
    pub(crate) tree: Tree,
}

// Why there is no script, where its source is not read to its end: that it has too many bytes is a fault of the script.
fn unread(fault: ReadAllFault) -> Refusal
    ensures { result ≡ of.side fault }
{
    match fault {
        ReadAllFault::Fault => Refusal::ReadFault,
        ReadAllFault::TooLong { limit } => Refusal::Script(ScriptFault::TooLong { limit }),
        ReadAllFault::NoMemory => Refusal::NoMemory,
    }
}

// Why a line is no query.
fn in_line(line: usize, fault: SqlFault) -> Refusal
    ensures { result ≡ of.line_text line fault }
{
    match fault {
        SqlFault::NoMemory => Refusal::NoMemory,
        fault => Refusal::LineQuery { line, fault },
    }
}

// The query of a line.
fn read_line(alloc: Global, line: &ScriptQuery<'_>) -> Result<Scripted, Refusal>
    ensures query { IfOk result (λ one. IsScripted (line_of line.now) (scripted_of one)) }
    ensures printable { IfOk result (λ one. IsUtf8 (printed (query_of one.tree))) }
    ensures refused { IfErr result (StopsStep (line_step (line_of line.now))) }
{
    match read_query(alloc, line.text) {
        Ok(tree) => Ok(Scripted {
            line: line.line,
            tree,
        }),
        Err(fault) => Err(in_line(line.line, fault)),
    }
}

// The query of each line; the first that is none is refused.
fn read_lines(alloc: Global, lines: &[ScriptQuery<'_>]) -> Result<Vec<Scripted>, Refusal>
    ensures queries { IfOk result (λ queries. (each line_step (map line_of lines.now)).accepts (map scripted_of queries.items)) }
    ensures printable { IfOk result (λ queries. All (λ one. IsUtf8 (printed (query_of one.tree))) queries.items) }
    ensures refused { IfErr result (StopsStep (each line_step (map line_of lines.now))) }
{
    let mut queries = Vec::with_capacity(alloc, lines.len())?;
    for line in lines {
        queries.push(read_line(alloc, line)?)?;
    }
    Ok(queries)
}

// Reads the script to its end, and gives its queries.
pub(crate) fn read_queries<S: Source>(alloc: Global, side: &mut S) -> Result<Vec<Scripted>, Refusal>
    ensures read { IfOk result (λ queries. ReadsScript (S.state side.old) (S.state side.new) (map scripted_of queries.items)) }
    ensures printable { IfOk result (λ queries. All (λ one. IsUtf8 (printed (query_of one.tree))) queries.items) }
    ensures some { IfOk result (λ queries. queries.items ≢ []) }
    ensures refused { IfErr result (ScriptCause (S.state side.old) (S.state side.new)) }
{
    let bytes = match read_all(alloc, side, MOST_BYTES) {
        Ok(bytes) => bytes,
        Err(fault) => return Err(unread(fault)),
    };
    let lines = session_script::queries(alloc, &bytes)?;
    read_lines(alloc, &lines)
}
