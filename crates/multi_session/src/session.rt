//! Several queries over one list of plane reads.

ghost use Rattle.std.specs.Prelude.{◌≡◌, ◌≢◌, ◌+◌, ◌<◌, ◌^◌, ◌⊎◌, ℕ, [], ◌∷◌, ◌++◌};
ghost use Rattle.std.specs.Prelude.{true, IsFalse, List, length, slice_get, slice_index, Some, IfOk, IfErr, IfSome, OnOk, OnErr};
ghost use Rattle.std.specs.declared.option.Option.TheVariants.{None};
ghost use Rattle.std.specs.List.{AllByRecursion};
ghost use Rattle.daq_table.specs.declared.table_head.Head.{Head};
ghost use Rattle.plane_schedule.specs.Choices.{IsUnread};
ghost use Rattle.query_model.specs.Knowledge.{CanTake};
ghost use Rattle.query_model.specs.Queries.{Query};
ghost use Rattle.query_model.specs.Validity.{IsValid};
ghost use Rattle.round_engine.specs.Narrowness.{is_narrow};
ghost use Rattle.round_engine.specs.Progresses.{Step, planes_read};
ghost use Rattle.round_engine.specs.Stages.{IsFirstOver, Stage};
ghost use Rattle.multi_session.specs.Alone.{StandsFor, alone};
ghost use Rattle.multi_session.specs.Limits.{RefusesSession, limit_passed};
ghost use Rattle.multi_session.specs.Sessions.{Awaits, own_column, session_opened, session_outlook, session_stepped};

use crate::columns::Columns;
use crate::limits::{SessionFault, columns_within};
use crate::member::Member;
use crate::members::{hand, open_each};
use daq_table::Head;
use known_column::OverTop;
use plane_kernels::Plane;
use plane_schedule::Nearness;
use query_model::{TypedQuery, taken_is_knowledge};
use round_engine::EngineView;
use std::alloc::Global;
use std::marker::Model;

/// Queries over the planes of one table. Each step reads one plane, for all queries that await it: those that are not finished and read its
/// column. A query is finished from its first narrow round on. A session stands for the list of its steps, which it does not keep.
/// Its columns are numbered in the order in which the queries name them first; what is known of them is kept once, for all queries.
#[derive(Drop)]
pub struct Session {
    pub(crate) near: Nearness,
    pub(crate) columns: Columns,
    pub(crate) members: Vec<Member>,
    pub(crate) steps: u32,
}

impl Model for Session {
    ghost use Rattle.multi_session.specs.Members.{IsSession, session_of};
    ghost use Rattle.multi_session.specs.Sessions as sessions;
    ghost use Rattle.query_model.specs.Codes.{query_code};
    ghost use Rattle.std.specs.Coded.{codes};

    ghost Value = { sessions.Session };

    ghost coded = { Prim.hlevel (codes, query_code) };

    ghost view = { λ s. session_of s.near s.columns.places.items s.columns.known s.members.items s.steps };

    ghost invariant = { λ s. IsSession s.near s.columns.places.items s.columns.known s.members.items s.steps };
}

impl Session {
    /// The queries over tables with that head, of which nothing is read. A query is finished once its answers are as near as that.
    /// All room is taken here.
    pub fn open(
        alloc: Global,
        queries: Vec<TypedQuery>,
        head: &Head,
        near: Nearness,
    ) -> Result<Session, SessionFault>
        requires some { queries.items ≢ [] }
        requires valid { AllByRecursion (IsValid head.now) queries.items }
        requires near { near.width < 2 ^ 63 }
        ensures opened { IfOk result (λ session. session ≡ session_opened queries.items head.now near) }
        ensures stands { IfOk result (StandsFor queries.items head.now []) }
        ensures within { OnOk result (limit_passed head.now.rows queries.items ≡ None) }
        ensures refused { IfErr result (RefusesSession head.now.rows queries.items) }
    {
        let places = columns_within(alloc, head.rows, &queries)?;
        let columns = Columns::open(alloc, places, head)?;
        let members = open_each(alloc, queries, &columns, near)?;
        Ok(Session {
            near,
            columns,
            members,
            steps: 0,
        })
    }

    /// Hands the next plane of a column of the session to each query that awaits it, in one step. Refused, with nothing changed, where a
    /// row's prefix would then be that of no cell: this is so for one of these queries where it is so for each. It takes no memory.
    pub fn step(&mut self, column: usize, plane: &Plane) -> Result<(), OverTop>
        requires plane { IsUnread (session_outlook self.old) column }
        requires rows { length plane.now ≡ self.old.rows }
        ensures taken { OnOk result (self.new ≡ session_stepped self.old column plane.now) }
        ensures stands { OnOk result ((queries : List Query) (head : Head) (steps : List Step) → StandsFor queries head steps self.old
            → StandsFor queries head (steps ++ record { column = slice_index self.old.columns column; bits = plane.now } ∷ []) self.new) }
        ensures legal { OnOk result ((stage : Stage) (own : ℕ) → Awaits self.old column stage own
            → CanTake stage.frame stage.known own plane.now) }
        ensures unchanged { OnErr result (self.new ≡ self.old) }
        ensures over { IfErr result (λ e. (stage : Stage) (own : ℕ) → Awaits self.old column stage own
            → IsFirstOver stage own plane.now e.row) }
    {
        taken_is_knowledge();
        let step = self.steps + 1;
        self.columns.known.take(column, plane)?;
        hand(
            &mut self.members,
            &self.columns,
            column,
            plane,
            step,
            self.near,
        );
        self.steps = step;
        Ok(())
    }

    /// The number of queries.
    pub fn queries(&self) -> usize
        ensures { result ≡ length self.now.stages }
    {
        self.members.len()
    }

    /// The place in the table of a column of the session.
    pub fn column(&self, column: usize) -> usize
        requires { column < length self.now.columns }
        ensures { result ≡ slice_index self.now.columns column }
    {
        self.columns.places[column]
    }

    /// Whether a round of a query was narrow.
    pub fn finished(&self, query: usize) -> bool
        requires { query < length self.now.stages }
        ensures { IfSome (slice_get self.now.stages query) (λ stage. result ≡ is_narrow self.now.near stage) }
    {
        self.members[query].finished
    }

    /// Whether the last step went to a query: before the first step, it is so for each.
    pub fn moved(&self, query: usize) -> bool
        requires { query < length self.now.stages }
        ensures { slice_get self.now.moved query ≡ Some result }
    {
        self.members[query].moved == self.steps
    }

    /// The number of a query's own reads.
    pub fn reads(&self, query: usize) -> u32
        requires { query < length self.now.stages }
        ensures { IfSome (slice_get self.now.stages query) (λ stage. result ≡ planes_read stage.known) }
    {
        self.members[query].reads()
    }

    /// A query's number of a column of the session, if it reads it.
    pub fn own(&self, query: usize, column: usize) -> Option<usize>
        requires query { query < length self.now.stages }
        requires column { column < length self.now.columns }
        ensures { IfSome (slice_get self.now.stages query) (λ stage.
            result ≡ own_column stage.query (slice_index self.now.columns column)) }
    {
        self.members[query].own(self.columns.places[column])
    }

    /// What is known of a query that is not finished, or whose block the last step wrote. Other queries do not change it: it is that of
    /// the planes of its own columns, read up to its first narrow round.
    pub fn view(&self, query: usize) -> EngineView<'_>
        requires query { query < length self.now.stages }
        requires current { (slice_get self.now.moved query ≡ Some true)
            ⊎ IfSome (slice_get self.now.stages query) (λ stage. IsFalse (is_narrow self.now.near stage)) }
        ensures stage { slice_get self.now.stages query ≡ Some result }
        ensures alone { (queries : List Query) (head : Head) (steps : List Step) → StandsFor queries head steps self.now
            → IfSome (slice_get queries query) (λ q. result ≡ alone self.now.near head steps q) }
    {
        self.members[query].view(&self.columns)
    }
}
