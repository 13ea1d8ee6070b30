//! How far a query has come.

ghost use Rattle.std.specs.Prelude.{◌≡◌, ◌≤◌, ◌<◌, ◌+◌, ℕ, length, slice_index};
ghost use Rattle.daq_table.specs.Tables.{ends_at, planes};
ghost use Rattle.query_model.specs.Knowledge.{known_at, IsKnowledge};
ghost use Rattle.round_engine.specs.Engines.{stage_of, IsKept};
ghost use Rattle.round_engine.specs.Progresses.{IsProgress, planes_read};

use crate::state::State;
use known_column::{Known, LentColumns};
use plane_schedule::Progress;
use query_model::TypedQuery;

// The planes of a column, from 0 to 65.
pub(crate) fn plane_count(known: &Known) -> u8
    ensures all { result ≡ planes known.now.ends }
    ensures few { result ≤ 65 }
{
    known.width() + u8::from(known.nullable())
}

// The unread planes of each column, those that were read, and how many were read of all.
struct PlaneCounts {
    unread: [u8; 16],
    read: [u8; 16],
    all_read: u32,
}

fn planes_of(columns: &LentColumns<'_>) -> PlaneCounts
    requires few { length columns.now.frame.columns ≤ 16 }
    requires known { IsKnowledge columns.now.frame columns.now.known }
    ensures unread { (c : ℕ) → c < length columns.now.frame.columns
        → slice_index result.unread c + (known_at columns.now.known c).read ≡ planes (ends_at columns.now.frame c) }
    ensures few { (c : ℕ) → slice_index result.unread c ≤ 65 }
    ensures read { (c : ℕ) → c < length columns.now.frame.columns → slice_index result.read c ≡ (known_at columns.now.known c).read }
    ensures few_read { (c : ℕ) → slice_index result.read c ≤ 65 }
    ensures all { result.all_read ≡ planes_read columns.now.known }
{
    let mut unread = [0u8; 16];
    let mut read = [0u8; 16];
    let mut all_read = 0u32;
    for column in 0..columns.len() {
        let left = columns.unread(column);
        let taken = plane_count(columns.column(column)) - left;
        unread[column] = left;
        read[column] = taken;
        all_read += u32::from(taken);
    }
    PlaneCounts {
        unread,
        read,
        all_read,
    }
}

impl State {
    pub(crate) fn progress(&self, query: &TypedQuery, columns: &LentColumns<'_>) -> Progress
        requires { IsKept query.now columns.now self.now }
        ensures { IsProgress (stage_of query.now columns.now) result }
    {
        let PlaneCounts {
            unread,
            read,
            all_read,
        } = planes_of(columns);
        Progress {
            columns: columns.len() as u8,
            unread,
            read,
            role: self.roles,
            gives_values: self.gives_values,
            unknown: self.filter.unknown(),
            possible: self.filter.possible(),
            done: all_read,
        }
    }
}
