//! How many queries, columns and cells a session may have.

ghost use Rattle.std.specs.Prelude.{◌≡◌, ◌≤◌, length, fold, IfOk, IfErr, OnOk};
ghost use Rattle.std.specs.declared.option.Option.TheVariants.{None};
ghost use Rattle.std.specs.List.{All};
ghost use Rattle.multi_session.specs.Limits.{RefusesSession, cells_in, limit_passed};
ghost use Rattle.multi_session.specs.Sessions.{columns_named, with_column};

use query_model::TypedQuery;
use std::alloc::{AllocError, AllocFailed, Global};

// The most queries of a session, its most columns, and the most cells of the columns of all its queries.
const MOST_QUERIES: usize = 16;

const MOST_COLUMNS: usize = 16;

const MOST_CELLS: u64 = 134_217_728;

/// Why a session is not opened.
#[derive(Debug, Clone, Copy, PartialEq, Eq)]
pub enum SessionFault {
    /// There are more than 16 queries.
    TooMany { count: usize },
    /// The queries name more than 16 different columns.
    TooManyColumns { count: usize },
    /// The columns of the queries have more than 134,217,728 cells, a column counted for each query that names it.
    TooLarge { cells: u64 },
    NoMemory,
}

impl From<AllocError> for SessionFault {
    ghost use Rattle.multi_session.specs.declared.limits.SessionFault.TheVariants.{NoMemory};

    ghost from_gives = { λ _ fault. fault ≡ NoMemory };

    fn from(_: AllocError) -> Self {
        SessionFault::NoMemory
    }
}

// Appends those columns that are not there.
fn add_columns(columns: &mut Vec<usize>, more: &[usize]) -> Result<(), AllocError>
    ensures { OnOk result (columns.new.items ≡ fold with_column columns.old.items more.now) }
{
    for place in more {
        if !columns.contains(place) {
            columns.push(*place)?;
        }
    }
    Ok(())
}

// The columns that the queries name, in the order in which they are named first.
fn columns_named(alloc: Global, queries: &[TypedQuery]) -> Result<Vec<usize>, AllocError>
    ensures { IfOk result (λ columns. columns.items ≡ columns_named queries.now) }
{
    let mut columns = Vec::new(alloc);
    for query in queries {
        add_columns(&mut columns, query.columns.as_slice())?;
    }
    Ok(columns)
}

// The cells of the columns of each query.
fn cells_in(rows: u64, queries: &[TypedQuery]) -> u64
    requires rows { rows ≤ 16777216 }
    requires queries { length queries.now ≤ 16 }
    requires columns { All (λ query. length query.columns ≤ 16) queries.now }
    ensures { result ≡ cells_in rows queries.now }
{
    let mut columns = 0;
    for query in queries {
        columns += query.columns.as_slice().len() as u64;
    }
    rows * columns
}

// The columns of a session over so many rows, where no limit is passed.
pub(crate) fn columns_within(
    alloc: Global,
    rows: u64,
    queries: &[TypedQuery],
) -> Result<Vec<usize>, SessionFault>
    requires rows { rows ≤ 16777216 }
    requires columns { All (λ query. length query.columns ≤ 16) queries.now }
    ensures columns { IfOk result (λ columns. columns.items ≡ columns_named queries.now) }
    ensures within { OnOk result (limit_passed rows queries.now ≡ None) }
    ensures refused { IfErr result (RefusesSession rows queries.now) }
{
    let count = queries.len();
    if count > MOST_QUERIES {
        return Err(SessionFault::TooMany { count });
    }
    let columns = columns_named(alloc, queries)?;
    let count = columns.len();
    if count > MOST_COLUMNS {
        return Err(SessionFault::TooManyColumns { count });
    }
    let cells = cells_in(rows, queries);
    if cells > MOST_CELLS {
        return Err(SessionFault::TooLarge { cells });
    }
    Ok(columns)
}
