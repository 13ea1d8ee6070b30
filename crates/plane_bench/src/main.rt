//! The program `plane_bench`: cuts planes from cells, takes them, has a filter follow them, or reads the numbers that they tell,
//! so often as its words say, for `bench/planes.sh`, which times it.
#![tactic(auto)]

mod cells;
mod cutting;
mod reading;
mod summing;
mod words;

ghost use Rattle.std.specs.Prelude.{◌≡◌, ◌≤◌, IfOk};
ghost use Rattle.query_model.specs.Queries.{condition_of};
ghost use Rattle.plane_bench.specs.Planes.{below_limit, IsResult};

use cells::{make_cells, open_column};
use cutting::count_highest;
use query_model::{Atom, Comparison, Pred};
use reading::{follow_planes, read_planes};
use std::alloc::{AllocError, Global};
use std::process::ExitCode;
use summing::sum_readings;
use words::{Work, read_words};

// A third of the way up the numbers of 32 digits: no few planes decide of every row whether it is below.
const LIMIT: i128 = 1_431_655_765;

// The condition that the number is below the limit.
fn make_condition() -> Pred
    ensures { condition_of result ≡ below_limit }
{
    Pred::Atom(Atom::Compare {
        column: 0,
        op: Comparison::Lt,
        value: LIMIT,
    })
}

// Does the work, and gives the number that it ends with.
fn do_work(alloc: Global, work: Work, rows: usize, rounds: u8) -> Result<u64, AllocError>
    requires few { rows ≤ 16777216 }
    requires some { 1 ≤ rounds }
    requires planes { rounds ≤ 32 }
    ensures { IfOk result (IsResult work rows rounds) }
{
    let cells = make_cells(alloc, rows)?;
    match work {
        Work::Cut => count_highest(alloc, &cells, rounds),
        Work::Take => {
            let columns = open_column(alloc, rows)?;
            let read = read_planes(alloc, columns, &cells, rounds)?;
            Ok(u64::from(read.unread(0)))
        }
        Work::Follow => {
            let columns = open_column(alloc, rows)?;
            let filter = follow_planes(alloc, &make_condition(), columns, &cells, rounds)?;
            Ok(filter.unknown())
        }
        Work::Sum => {
            let columns = open_column(alloc, rows)?;
            let read = read_planes(alloc, columns, &cells, rounds)?;
            Ok(sum_readings(read.column(0)))
        }
    }
}

fn main(rt: HostRuntime) -> ExitCode {
    let Some(job) = read_words(&rt) else {
        return ExitCode::from(2);
    };
    let Ok(number) = do_work(rt.alloc(), job.work, job.rows, job.rounds) else {
        return ExitCode::from(8);
    };
    match println!(rt; "{number}") {
        Ok(()) => ExitCode::SUCCESS,
        Err(_) => ExitCode::from(7),
    }
}
