//! The queries of a session over the planes of a table: they run on the course of their steps.

ghost use Rattle.std.specs.Prelude.{◌≡◌, ◌<◌, length, slice_index, IfNone, IfSome, IsTrue};
ghost use Rattle.std.specs.List.{list_all};
ghost use Rattle.daq_table.specs.Tables.{ends_at, frame_of, planes};
ghost use Rattle.plane_schedule.specs.Choices.{HasUnread, IsUnread};
ghost use Rattle.round_engine.specs.Narrowness.{is_narrow};
ghost use Rattle.multi_session.specs.Sessions.{session_outlook};
ghost use Rattle.table_rounds.specs.Steps.{FitsSession, IsAfter, IsUnlisted, IsWide, ending_in, next_number, planes_left};
ghost use Rattle.table_rounds.specs.Steps.{queries_of, steps_of};
ghost use Rattle.table_rounds.proofs.SessionCourse as laws;

use crate::running::Running;
use daq_table::{Head, planes};
use known_column::OverTop;
use multi_session::Session;
use plane_kernels::Plane;
use plane_schedule::{Ending, Plan, Progress, policies_choose};
use query_model::taken_is_knowledge;
use table_rounds::rounds_have_planes;

// A query that is not finished.
fn any_wide(session: &Session) -> Option<usize>
    ensures none { IfNone result (IsTrue (list_all (is_narrow session.now.near) session.now.stages)) }
    ensures some { IfSome result (IsWide session.now) }
{
    for query in 0..session.queries() {
        if !session.finished(query) {
            return Some(query);
        }
    }
    None
}

/// Why the session ends here by the plan; none where it goes on, and then a query awaits a plane.
pub fn session_ending(session: &Session, plan: &Plan) -> Option<Ending>
    ensures ending { result ≡ ending_in plan.now session.now }
    ensures unread { (head : Head) → FitsSession session.now head → IfNone result (HasUnread (session_outlook session.now)) }
{
    rounds_have_planes();
    plan.ending(any_wide(session).is_none(), session.progress().done)
}

// The table's column that a column of the session is, and the number of its next plane.
fn next_place(session: &Session, head: &Head, column: usize) -> (usize, u8)
    requires fits { FitsSession session.now head.now }
    requires unread { IsUnread (session_outlook session.now) column }
    ensures column { result.0 ≡ slice_index session.now.columns column }
    ensures inside { result.0 < length head.now.columns }
    ensures plane { result.1 ≡ next_number session.now column }
    ensures unread { result.1 < planes (ends_at (frame_of head.now) result.0) }
{
    let unread = session.progress().unread[column];
    let place = session.column(column);
    (place, planes(&head.columns.as_slice()[place]) - unread)
}

impl Running for Session {
    ghost course = { λ first plan head bits. steps_of plan (queries_of first) head bits };

    ghost after = { λ first now plan head bits reads. IsAfter plan (queries_of first) head bits reads now };

    ghost fits = { λ s head. FitsSession s head };

    ghost can_follow = { λ s plan. IsUnlisted plan.policy };

    ghost rows = { λ s. s.rows };

    ghost outlook = { λ s. session_outlook s };

    ghost place = { λ s c. slice_index s.columns c };

    ghost number = { λ s c. next_number s c };

    ghost left = { λ s. planes_left s };

    fn progress(&self) -> Progress {
        Session::progress(self)
    }

    fn ending(&self, plan: &Plan) -> Option<Ending> {
        policies_choose();
        session_ending(self, plan)
    }

    fn next_place(&self, head: &Head, column: usize) -> (usize, u8) {
        next_place(self, head, column)
    }

    fn take(&mut self, column: usize, plane: &Plane) -> Result<(), OverTop> {
        taken_is_knowledge();
        // Its clause says that what is known is a knowledge.
        let _progress = Session::progress(self);
        self.step(column, plane)
    }

    ghost by_policy = { laws.by_policy };

    ghost are_reads = { laws.are_reads };

    ghost sees = { laws.sees };

    ghost place_is = { laws.place_is };

    ghost number_is = { laws.number_is };

    ghost agrees = { laws.agrees };

    ghost rows_are = { laws.rows_are };

    ghost apart = { laws.apart };
}
