//! A query of a session.

ghost use Rattle.std.specs.Prelude.{◌≡◌, ◌≤◌, ◌<◌, ◌^◌, IfOk, if◌then◌else◌, length, replicate, sum, slice_index};
ghost use Rattle.std.specs.declared.option.Option.TheVariants.{None};
ghost use Rattle.daq_table.specs.declared.table_head.Head.{Head};
ghost use Rattle.query_model.specs.Validity.{IsValid};
ghost use Rattle.round_engine.specs.Stages.{IsOpenStage};
ghost use Rattle.multi_session.specs.Sessions.{own_column};
ghost use Rattle.multi_session.specs.Members.{AreColumns, AreUnread, IsAbreast, IsBehind, IsOpened, IsReady, WasHanded, judged, stage_in};

use crate::columns::Columns;
use plane_kernels::Plane;
use plane_schedule::Nearness;
use query_model::TypedQuery;
use round_engine::{EngineView, Follower};
use std::alloc::{AllocError, Global};

// A query, the session's numbers of its columns and how many planes of each it took, whether a round of it was narrow, and the number of
// the last step that went to it: 0 before the first.
#[derive(Drop)]
pub(crate) struct Member {
    follower: Follower,
    numbers: Vec<usize>,
    counts: Vec<u8>,
    pub(crate) finished: bool,
    pub(crate) moved: u32,
}

// So many counts, each of them 0.
fn no_counts(alloc: Global, count: usize) -> Result<Vec<u8>, AllocError>
    ensures { IfOk result (λ counts. counts.items ≡ replicate count 0) }
{
    vec![in alloc; 0; count]
}

impl Member {
    // The query over the columns of a session of which nothing is read. At most so many comparisons and listed numbers of its condition
    // keep masks.
    pub(crate) fn open(
        alloc: Global,
        query: TypedQuery,
        columns: &Columns,
        near: Nearness,
        masks: usize,
    ) -> Result<Member, AllocError>
        requires near { near.width < 2 ^ 63 }
        requires known { AreColumns columns.now.places.items columns.now.known }
        requires ready { IsReady columns.now.places.items columns.now.known query }
        ensures { IfOk result (λ member. (head : Head) → IsValid head query → AreUnread head columns.now.places.items columns.now.known
            → IsOpened query head near columns.now.places.items columns.now.known member) }
    {
        let numbers = columns.numbers(alloc, query.columns.as_slice())?;
        let counts = no_counts(alloc, numbers.len())?;
        let follower = Follower::open(alloc, query, &columns.known.lend_some(&numbers), masks)?;
        let mut member = Member {
            follower,
            numbers,
            counts,
            finished: false,
            moved: 0,
        };
        // Its clauses say that its columns have few planes.
        let _progress = member.view(columns).progress();
        member.judge(columns, near);
        Ok(member)
    }

    // The query as it stands, where it took all planes of its columns that were read.
    pub(crate) fn view<'a>(&'a self, columns: &'a Columns) -> EngineView<'a>
        requires { IsAbreast columns.now.known self.now }
        ensures { result ≡ stage_in columns.now.known self.now }
    {
        self.follower.view(columns.known.lend_some(&self.numbers))
    }

    // Finds whether the query is finished.
    fn judge(&mut self, columns: &Columns, near: Nearness)
        requires near { near.width < 2 ^ 63 }
        requires abreast { IsAbreast columns.now.known self.old }
        ensures judged { self.new ≡ judged near columns.now.known self.old }
        ensures open_stage { IsOpenStage (stage_in columns.now.known self.old) }
    {
        let view = self.view(columns);
        // Its clauses say that the stage is open.
        let _query = view.query();
        self.finished = view.narrow(near);
    }

    // The query's number of a column of the table, if it reads it.
    pub(crate) fn own(&self, place: usize) -> Option<usize>
        ensures { result ≡ own_column self.now.follower.query place }
    {
        self.follower
            .query()
            .columns
            .as_slice()
            .iter()
            .position(|column| *column == place)
    }

    // The same where the query is not finished.
    pub(crate) fn awaited(&self, place: usize) -> Option<usize>
        ensures { result ≡ (if self.now.finished then None else own_column self.now.follower.query place) }
    {
        if self.finished { None } else { self.own(place) }
    }

    // The number of the query's own reads.
    pub(crate) fn reads(&self) -> u32
        requires { length self.now.counts.items ≤ 16 }
        ensures { result ≡ sum self.now.counts.items }
    {
        let mut reads = 0;
        for count in &self.counts {
            reads += u32::from(*count);
        }
        reads
    }

    // Takes the plane that a column of the session just took, if the query awaits it.
    pub(crate) fn follow(
        &mut self,
        columns: &Columns,
        column: usize,
        plane: &Plane,
        step: u32,
        near: Nearness,
    )
        requires near { near.width < 2 ^ 63 }
        requires column { column < length columns.now.places.items }
        requires behind { IsBehind near step column columns.now.places.items plane.now columns.now.known self.old }
        ensures { WasHanded near step (slice_index columns.now.places.items column) columns.now.places.items plane.now
            columns.now.known self.old self.new }
    {
        let Some(own) = self.awaited(columns.places[column]) else {
            return;
        };
        self.follower
            .refresh(&columns.known.lend_some(&self.numbers), own, plane);
        self.counts[own] += 1;
        self.moved = step;
        self.judge(columns, near);
    }
}
