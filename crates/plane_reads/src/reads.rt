//! A list of reads from its word.

ghost use Rattle.std.specs.Prelude.{◌≡◌, ◌==◌, ◌<◌, length, IfOk, IfErr};
ghost use Rattle.daq_table.specs.Tables.{ends_at, frame_of, planes};
ghost use Rattle.query_model.specs.Projection.{projected_frame};
ghost use Rattle.query_model.specs.Validity.{IsValid};
ghost use Rattle.plane_reads.specs.Reads.{AreAllReads, Refuses};
ghost use Rattle.plane_reads.specs.Next.{IsNext, IsNextFault};

use crate::fault::ReadsFault;
use crate::names::{column_named, count_of};
use daq_table::{Head, planes};
use query_model::{Columns, TypedQuery};
use std::alloc::Global;

// The planes of a column of the query.
fn planes_of(column: u8, query: &TypedQuery, head: &Head) -> usize
    requires valid { IsValid head.now query.now }
    requires column { column < length query.now.columns }
    ensures { result ≡ planes (ends_at (projected_frame query.now (frame_of head.now)) column) }
{
    let place = query.columns.as_slice()[column as usize];
    planes(&head.columns.as_slice()[place]) as usize
}

// The column of that name, which has a plane left behind those columns.
fn next_column(
    name: &[u8],
    columns: &[u8],
    query: &TypedQuery,
    head: &Head,
) -> Result<u8, ReadsFault>
    requires { IsValid head.now query.now }
    ensures ok { IfOk result (λ column. IsNext query.now head.now columns.now name.now column) }
    ensures err { IfErr result (IsNextFault query.now head.now columns.now name.now) }
{
    let Some(column) = column_named(name, query, head) else {
        return Err(ReadsFault::UnknownName {
            place: columns.len(),
        });
    };
    if count_of(column, columns) >= planes_of(column, query, head) {
        return Err(ReadsFault::PastEnd {
            place: columns.len(),
        });
    }
    Ok(column)
}

/// The columns of the query that the names of the word name, in order, by their numbers in the query. A column may be named as often as it
/// has planes. The first name that is no column of the query, or whose column has no plane left, is the fault.
pub fn check_reads(
    alloc: Global,
    word: &[u8],
    query: &TypedQuery,
    head: &Head,
) -> Result<Columns, ReadsFault>
    requires { IsValid head.now query.now }
    ensures ok { IfOk result (AreAllReads word.now query.now head.now) }
    ensures err { IfErr result (Refuses word.now query.now head.now) }
{
    let mut columns = Vec::new(alloc);
    'names: for name in word.split(|byte| *byte == b',') {
        columns.push(next_column(name, &columns, query, head)?)?;
    }
    Ok(Columns::new(columns))
}
