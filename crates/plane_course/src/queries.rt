//! A query over the planes of a table: it runs on the course of its rounds.

ghost use Rattle.std.specs.Prelude.{◌≡◌, ◌<◌, ◌^◌, length, slice_index, IfNone};
ghost use Rattle.daq_table.specs.Tables.{ends_at, frame_of, planes};
ghost use Rattle.plane_schedule.specs.Choices.{HasUnread};
ghost use Rattle.plane_schedule.specs.Plans.{IsReadable};
ghost use Rattle.query_model.specs.Knowledge.{known_at};
ghost use Rattle.query_model.specs.Validity.{FitsHead};
ghost use Rattle.round_engine.specs.Stages.{HasPlane};
ghost use Rattle.table_rounds.specs.Rounds.{IsAfter, ending_at, outlook_at, rounds_of, unread_planes};
ghost use Rattle.table_rounds.proofs.QueryCourse as laws;

use crate::running::Running;
use daq_table::{Head, planes};
use known_column::OverTop;
use plane_kernels::Plane;
use plane_schedule::{Ending, Plan, Progress, policies_choose};
use query_model::{taken_is_knowledge, valid_queries_name_columns};
use round_engine::{Engine, EngineView};
use table_rounds::rounds_have_planes;

/// Why the rounds of the plan end here; none where they go on, and then a plane is unread.
pub fn ending(engine: &EngineView<'_>, plan: &Plan) -> Option<Ending>
    requires { plan.now.near.width < 2 ^ 63 }
    ensures ending { result ≡ ending_at plan.now engine.now }
    ensures unread { IfNone result (HasUnread (outlook_at engine.now)) }
{
    rounds_have_planes();
    // The query's clause says that what is known is a knowledge.
    let _query = engine.query();
    plan.ending(engine.narrow(plan.near), engine.progress().done)
}

// The table's column that a column of the query is, and the number of its next plane.
fn next_place(engine: &EngineView<'_>, head: &Head, number: usize) -> (usize, u8)
    requires fits { FitsHead engine.now.query engine.now.frame head.now }
    requires plane { HasPlane engine.now number }
    ensures column { result.0 ≡ slice_index engine.now.query.columns number }
    ensures inside { result.0 < length head.now.columns }
    ensures plane { result.1 ≡ (known_at engine.now.known number).read }
    ensures unread { result.1 < planes (ends_at (frame_of head.now) result.0) }
{
    valid_queries_name_columns();
    let column = engine.query().columns.as_slice()[number];
    let planes = planes(&head.columns.as_slice()[column]);
    (column, planes - engine.progress().unread[number])
}

impl Running for Engine {
    ghost course = { λ first plan head bits. rounds_of plan first.query (frame_of head) bits };

    ghost after = { λ first now plan head bits reads. IsAfter plan first.query (frame_of head) bits reads now };

    ghost fits = { λ e head. FitsHead e.query e.frame head };

    // The plan's width is one that can be asked for, and its policy is no list that cannot be read to its end.
    ghost can_follow = { λ e plan. (plan.near.width < 2 ^ 63) × IsReadable plan.policy e.frame };

    ghost rows = { λ e. e.frame.rows };

    ghost outlook = { λ e. outlook_at e };

    ghost place = { λ e c. slice_index e.query.columns c };

    ghost number = { λ e c. (known_at e.known c).read };

    ghost left = { λ e. unread_planes e };

    fn progress(&self) -> Progress {
        self.view().progress()
    }

    fn ending(&self, plan: &Plan) -> Option<Ending> {
        rounds_have_planes();
        policies_choose();
        ending(&self.view(), plan)
    }

    fn next_place(&self, head: &Head, column: usize) -> (usize, u8) {
        next_place(&self.view(), head, column)
    }

    fn take(&mut self, column: usize, plane: &Plane) -> Result<(), OverTop> {
        taken_is_knowledge();
        // The query's clause says that what is known is a knowledge.
        let view = self.view();
        let _query = view.query();
        self.step(column, plane)
    }

    ghost by_policy = { laws.by_policy };

    ghost are_reads = { laws.are_reads };

    ghost sees = { laws.sees };

    ghost place_is = { laws.place_is };

    ghost number_is = { laws.number_is };

    ghost agrees = { laws.agrees };

    ghost rows_are = { laws.rows_are };

    ghost apart = { laws.apart };
}
