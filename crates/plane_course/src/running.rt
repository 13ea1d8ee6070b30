//! What runs over the planes of a table, whatever it asks: a query, or the queries of a session.

ghost use Rattle.std.specs.Prelude.{◌≡◌, ◌<◌, ◌++◌, ◌∷◌, ℕ, List, [], length, IfErr, IfNone, OnErr, OnOk};
ghost use Rattle.daq_table.specs.Tables.{ends_at, frame_of, planes};
ghost use Rattle.daq_table.specs.declared.table_head.Head.{Head};
ghost use Rattle.plane_schedule.specs.declared.policy.Plan.{Plan};
ghost use Rattle.plane_schedule.specs.Choices.{HasChoice, IsUnread, Outlook};
ghost use Rattle.table_rounds.specs.Courses.{AreReads, Course, HaveSameRead, IsFollowed, Tells, number_after};
ghost use Rattle.table_rounds.specs.Rounds.{Planes};

use daq_table::Head;
use known_column::OverTop;
use plane_kernels::Plane;
use plane_schedule::{Ending, Plan, Progress};

/// What runs over the planes of a table. What was there first tells its course, and what there is now where on it it stands.
pub trait Running {
    /// The course by a plan over the planes of tables with a head.
    ghost course: { Self → Plan → Head → Planes → Course };
    /// What there was first has come to this, by a plan over planes, with reads of these columns.
    ghost after: { Self → Self → Plan → Head → Planes → List ℕ → Type 0 };
    /// It is over tables with that head.
    ghost fits: { Self → Head → Type 0 };
    /// It can follow the plan to its end.
    ghost can_follow: { Self → Plan → Type 0 };
    /// How many rows a plane has.
    ghost rows: { Self → ℕ };
    /// What a policy sees.
    ghost outlook: { Self → Outlook };
    /// Which column of the table each of its own columns is.
    ghost place: { Self → ℕ → ℕ };
    /// The number of the next plane of a column of its own.
    ghost number: { Self → ℕ → ℕ };
    /// How much is left to be read.
    ghost left: { Self → ℕ };

    /// How far it has come.
    fn progress(&self) -> Progress
        ensures { Tells (outlook self.now) result };

    /// Why it ends here by the plan; none where it goes on, and then the policy chooses a column.
    fn ending(&self, plan: &Plan) -> Option<Ending>
        requires { can_follow self.now plan.now }
        ensures ending { (first : Self) (head : Head) (bits : Planes) (reads : List ℕ) → after first self.now plan.now head bits reads
            → result ≡ (course first plan.now head bits).ending reads (length reads) }
        ensures choice { (first : Self) (head : Head) (bits : Planes) (reads : List ℕ) → fits self.now head
            → after first self.now plan.now head bits reads → IfNone result (HasChoice plan.now.policy (outlook self.now)) };

    /// The table's column that a column of its own is, and the number of its next plane.
    fn next_place(&self, head: &Head, column: usize) -> (usize, u8)
        requires fits { fits self.now head.now }
        requires unread { IsUnread (outlook self.now) column }
        ensures column { result.0 ≡ place self.now column }
        ensures inside { result.0 < length head.now.columns }
        ensures plane { result.1 ≡ number self.now column }
        ensures unread { result.1 < planes (ends_at (frame_of head.now) result.0) };

    /// Takes the next plane of a column of its own. Refused, with nothing changed, where a row's prefix would then be that of no cell.
    fn take(&mut self, column: usize, plane: &Plane) -> Result<(), OverTop>
        requires unread { IsUnread (outlook self.old) column }
        requires rows { length plane.now ≡ rows self.old }
        ensures fits { (head : Head) → fits self.old head → fits self.new head }
        ensures rows { rows self.new ≡ rows self.old }
        ensures columns { (outlook self.new).columns ≡ (outlook self.old).columns }
        ensures follow { (plan : Plan) → can_follow self.old plan → can_follow self.new plan }
        ensures fewer { OnOk result (left self.new < left self.old) }
        ensures next { OnOk result ((first : Self) (plan : Plan) (head : Head) (bits : Planes) (reads : List ℕ) → fits self.old head
            → after first self.old plan head bits reads → IsFollowed (course first plan head bits) reads column
            → plane.now ≡ bits (place self.old column) (number self.old column)
            → after first self.new plan head bits (reads ++ column ∷ [])) }
        ensures unchanged { OnErr result (self.new ≡ self.old) }
        ensures over { IfErr result (λ over. (first : Self) (plan : Plan) (head : Head) (bits : Planes) (reads : List ℕ)
            → fits self.old head → after first self.old plan head bits reads → IsFollowed (course first plan head bits) reads column
            → plane.now ≡ bits (place self.old column) (number self.old column)
            → (course first plan head bits).over reads column over.row) };

    /// The course is by the plan's policy.
    ghost by_policy: { (first : Self) (plan : Plan) (head : Head) (bits : Planes) → (course first plan head bits).policy ≡ plan.policy };
    /// Where it stands on the course, the reads were those of the course.
    ghost are_reads: { (first now : Self) (plan : Plan) (head : Head) (bits : Planes) (reads : List ℕ)
        → after first now plan head bits reads → AreReads (course first plan head bits) reads };
    /// A policy sees what it sees there on the course.
    ghost sees: { (first now : Self) (plan : Plan) (head : Head) (bits : Planes) (reads : List ℕ)
        → after first now plan head bits reads → outlook now ≡ (course first plan head bits).outlook reads (length reads) };
    /// Its columns are those of the course.
    ghost place_is: { (first now : Self) (plan : Plan) (head : Head) (bits : Planes) (reads : List ℕ) (c : ℕ)
        → after first now plan head bits reads → place now c ≡ (course first plan head bits).place c };
    /// And so are their next planes.
    ghost number_is: { (first now : Self) (plan : Plan) (head : Head) (bits : Planes) (reads : List ℕ) (c : ℕ)
        → after first now plan head bits reads → IsUnread (outlook now) c → number now c ≡ number_after reads (length reads) c };
    /// It is the same over planes of which the same were read.
    ghost agrees: { (first now : Self) (plan : Plan) (head : Head) (a b : Planes) (reads : List ℕ)
        → after first now plan head a reads → HaveSameRead (course first plan head a) reads a b → after first now plan head b reads };
    /// A plane has as many rows as the table.
    ghost rows_are: { (now : Self) (head : Head) → fits now head → rows now ≡ head.rows };
    /// No two columns of its own are one of the table.
    ghost apart: { (now : Self) (head : Head) (c d : ℕ) → fits now head → c < (outlook now).columns → d < (outlook now).columns
        → place now c ≡ place now d → c ≡ d };
}
