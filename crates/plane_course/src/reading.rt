//! The reader of the next plane: the plane of a column is read from a source, and taken.

ghost use Rattle.std.specs.Prelude.{◌≡◌, ◌<◌, ◌++◌, ◌∷◌, ℕ, List, [], length, IfOk, IfErr, OnOk, OnErr};
ghost use Rattle.std.specs.Io.KnownBytes.{Appends};
ghost use Rattle.plane_schedule.specs.declared.policy.Plan.{Plan};
ghost use Rattle.plane_schedule.specs.declared.policy.Policy.{Policy};
ghost use Rattle.plane_schedule.specs.Choices.{Chooses, HasChoice, HasUnread, IsUnread};
ghost use Rattle.plane_schedule.specs.Keeping.{Follows, Keeps};
ghost use Rattle.table_rounds.specs.Courses.{IsFollowed, IsOpen};
ghost use Rattle.table_rounds.specs.Rounds.{Planes};
ghost use Rattle.plane_course.specs.Sources.{IsPlane, IsPlaneOver, OnFailed, OnOverTop, OnRefused, StepHandsOver, StopsNext};

use crate::running::Running;
use crate::source::PlaneSource;
use plane_kernels::Plane;
use plane_schedule::{Chooser, Progress};

/// Why a round was not read. Columns are those of the table; all numbers count from 0.
#[derive(Drop, Debug, PartialEq, Eq)]
pub enum StepFault<E> {
    /// The source did not give the plane.
    Source(E),
    /// With this plane the digits of a row would pass those of the column's top.
    OverTop {
        column: usize,
        plane: u8,
        row: usize,
    },
}

// Reads the next plane of a column, and takes it.
fn take_next<R: Running, S: PlaneSource>(
    running: &mut R,
    source: &mut S,
    column: usize,
    plane: &mut Plane,
) -> Result<(), StepFault<S::Error>>
    requires fits { R.fits running.old (S.told source.old).head }
    requires unread { IsUnread (R.outlook running.old) column }
    requires rows { length plane.old ≡ R.rows running.old }
    requires ready { S.is_ready source.old }
    ensures fits { R.fits running.new (S.told source.old).head }
    ensures rows { R.rows running.new ≡ R.rows running.old }
    ensures columns { (R.outlook running.new).columns ≡ (R.outlook running.old).columns }
    ensures follow { (plan : Plan) → R.can_follow running.old plan → R.can_follow running.new plan }
    ensures long { length plane.new ≡ length plane.old }
    ensures told { S.told source.new ≡ S.told source.old }
    ensures places { S.places source.new ≡ S.places source.old }
    ensures ready { S.is_ready source.new }
    ensures since { S.since source.old source.new }
    ensures handed { StepHandsOver result (S.handed source.old) (S.handed source.new)
        (S.places source.old (R.place running.old column) (R.number running.old column)) }
    ensures fewer { OnOk result (R.left running.new < R.left running.old) }
    ensures bits { OnOk result (IsPlane (S.told source.old) (R.place running.old column) (R.number running.old column) plane.new) }
    ensures shown { OnOk result (S.shows source.old (R.place running.old column) (R.number running.old column)) }
    ensures next { OnOk result ((first : R) (plan : Plan) (bits : Planes) (reads : List ℕ)
        → R.after first running.old plan (S.told source.old).head bits reads
        → IsFollowed (R.course first plan (S.told source.old).head bits) reads column
        → plane.new ≡ bits (R.place running.old column) (R.number running.old column)
        → R.after first running.new plan (S.told source.old).head bits (reads ++ column ∷ [])) }
    ensures unchanged { OnErr result (running.new ≡ running.old) }
    ensures refused { IfErr result (λ fault. OnRefused fault (S.shows source.old)) }
    ensures failed { IfErr result (λ fault. OnFailed fault
        (S.fails source.old source.new (R.place running.old column) (R.number running.old column))) }
    ensures over { IfErr result (λ fault. OnOverTop fault
        (IsPlaneOver (S.told source.old) plane.new (R.place running.old column) (R.number running.old column)
        (λ row. (first : R) (plan : Plan) (bits : Planes) (reads : List ℕ)
        → R.after first running.old plan (S.told source.old).head bits reads
        → IsFollowed (R.course first plan (S.told source.old).head bits) reads column
        → plane.new ≡ bits (R.place running.old column) (R.number running.old column)
        → (R.course first plan (S.told source.old).head bits).over reads column row))) }
{
    let (place, next) = running.next_place(source.head(), column);
    match source.read(place, next, plane) {
        Ok(()) => match running.take(column, plane) {
            Ok(()) => Ok(()),
            Err(over) => Err(StepFault::OverTop {
                column: place,
                plane: next,
                row: over.row,
            }),
        },
        Err(error) => Err(StepFault::Source(error)),
    }
}

/// Reads the next plane of the column that the chooser names, and takes it: the next round of each course whose policy the chooser follows.
/// Gives the number of the column. At an error nothing is changed, and each such course stops here. What the source hands over are the
/// places of the plane, or some of them, from the front, where it fails.
pub fn read_next<R: Running, S: PlaneSource, F: Fn(&Progress) -> usize>(
    running: &mut R,
    source: &mut S,
    chooser: &Chooser<F>,
    plane: &mut Plane,
) -> Result<usize, StepFault<S::Error>>
    requires fits { R.fits running.old (S.told source.old).head }
    requires rows { length plane.old ≡ R.rows running.old }
    requires ready { S.is_ready source.old }
    requires kept { Keeps F.Fn chooser.now.choose }
    requires unread { HasUnread (R.outlook running.old) }
    ensures fits { R.fits running.new (S.told source.old).head }
    ensures rows { R.rows running.new ≡ R.rows running.old }
    ensures columns { (R.outlook running.new).columns ≡ (R.outlook running.old).columns }
    ensures follow { (plan : Plan) → R.can_follow running.old plan → R.can_follow running.new plan }
    ensures long { length plane.new ≡ length plane.old }
    ensures told { S.told source.new ≡ S.told source.old }
    ensures places { S.places source.new ≡ S.places source.old }
    ensures ready { S.is_ready source.new }
    ensures since { S.since source.old source.new }
    // The plane of the column that is chosen is taken.
    ensures unread { IfOk result (λ column. IsUnread (R.outlook running.old) column) }
    ensures chosen { IfOk result (λ column. (policy : Policy) → Follows F.Fn chooser.now.choose policy
        → HasChoice policy (R.outlook running.old) → Chooses policy (R.outlook running.old) column) }
    ensures handed { IfOk result (λ column. Appends (S.handed source.old) (S.handed source.new)
        (S.places source.old (R.place running.old column) (R.number running.old column))) }
    ensures fewer { OnOk result (R.left running.new < R.left running.old) }
    ensures bits { IfOk result (λ column. IsPlane (S.told source.old)
        (R.place running.old column) (R.number running.old column) plane.new) }
    ensures shown { IfOk result (λ column. S.shows source.old (R.place running.old column) (R.number running.old column)) }
    ensures next { IfOk result (λ column. (first : R) (plan : Plan) (bits : Planes) (reads : List ℕ)
        → Follows F.Fn chooser.now.choose plan.policy → R.after first running.old plan (S.told source.old).head bits reads
        → IsOpen (R.course first plan (S.told source.old).head bits) reads
        → plane.new ≡ bits (R.place running.old column) (R.number running.old column)
        → R.after first running.new plan (S.told source.old).head bits (reads ++ column ∷ [])) }
    // Or the course stops.
    ensures unchanged { OnErr result (running.new ≡ running.old) }
    ensures refused { IfErr result (λ fault. OnRefused fault (S.shows source.old)) }
    ensures failed { IfErr result (λ fault. OnFailed fault (λ error. (column : ℕ) × (number : ℕ)
        × S.fails source.old source.new column number error)) }
    ensures stops { IfErr result (λ fault. (first : R) (plan : Plan) → Follows F.Fn chooser.now.choose plan.policy
        → StopsNext (R.course first plan (S.told source.old).head) (R.after first running.old plan (S.told source.old).head)
        (S.told source.old).bits (S.places source.old) (S.fails source.old source.new) (S.handed source.old) (S.handed source.new) fault) }
{
    let Some(column) = chooser.next(&running.progress()) else {
        unreachable!()
    };
    match take_next(running, source, column, plane) {
        Ok(()) => Ok(column),
        Err(fault) => Err(fault),
    }
}
