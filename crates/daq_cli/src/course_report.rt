//! The report of a course: a block for each round of a plan, and why the rounds ended.

ghost use Rattle.std.specs.Prelude.{◌≡◌, ◌<◌, ◌≤◌, ◌++◌, [], ℕ, List, IfSome, length};
ghost use Rattle.daq_table.specs.ValueTexts.{HeadHasTexts};
ghost use Rattle.daq_table.specs.declared.table_head.Head.{Head};
ghost use Rattle.outer_world.specs.Device.{HasCause};
ghost use Rattle.outer_world.specs.Whole.{Writes};
ghost use Rattle.plane_schedule.specs.Keeping.{Follows, Keeps};
ghost use Rattle.plane_schedule.specs.declared.policy.Plan.{Plan};
ghost use Rattle.table_rounds.specs.Courses.{HaveSameRead};
ghost use Rattle.table_rounds.specs.Rounds.{Planes, column_read};
ghost use Rattle.daq_cli.specs.Report.{EndsOverSome, EndsTold, FailsSince, HasStopCause, ending_line, seen_by, shown_by};

use crate::stop::Stop;
use daq_table::Head;
use outer_world::{Failed, Sink, write_whole};
use plane_course::{PlaneSource, Running, read_next};
use plane_kernels::Plane;
use plane_schedule::{Chooser, Ending, Plan, Policy, Progress, choose, listed};

/// What runs over the planes of a table and is shown by blocks.
pub(crate) trait Shows: Running {
    /// The block of a round.
    ghost block: { Self → Plan → Head → Planes → List ℕ → ℕ → List ℕ };

    /// Writes the block of the round at which it stands, whose last read was of this column of its own.
    fn write_block<K: Sink>(
        &self,
        plan: &Plan,
        head: &Head,
        last: Option<usize>,
        out: &mut K,
    ) -> Result<(), Failed>
        requires fits { Self.fits self.now head.now }
        requires texts { HeadHasTexts head.now }
        requires last { IfSome last (λ c. c < (Self.outlook self.now).columns) }
        ensures cause { HasCause (K.state out.old).faults (K.state out.new).faults result }
        ensures block { (first : Self) (bits : Planes) (reads : List ℕ) → Self.after first self.now plan.now head.now bits reads
            → last ≡ column_read reads (length reads)
            → Writes result (K.state out.old) (K.state out.new) (block first plan.now head.now bits reads (length reads)) }
        // Later reads change no block, and of the planes it shows those alone that were read.
        ensures stays { (first : Self) (bits : Planes) (reads more : List ℕ) (round : ℕ) → round ≤ length reads
            → block first plan.now head.now bits (reads ++ more) round ≡ block first plan.now head.now bits reads round }
        ensures agrees { (first : Self) (a b : Planes) (reads : List ℕ) (round : ℕ) → Self.after first self.now plan.now head.now a reads
            → HaveSameRead (Self.course first plan.now head.now a) reads a b → round ≤ length reads
            → block first plan.now head.now a reads round ≡ block first plan.now head.now b reads round };
}

/// A plan, what runs by it over a table, of which nothing is read, and room for a plane.
pub(crate) struct Begun<R> {
    pub(crate) plan: Plan,
    pub(crate) running: R,
    pub(crate) plane: Plane,
}

// A call of its own: a derived drop is proved anew wherever it is let go.
impl<R: Drop> Drop for Begun<R> {
    fn drop(self) {
        let Begun {
            plan: _,
            running: _,
            plane: _,
        } = self;
    }
}

// Writes the line that says why the rounds ended.
fn write_ending<K: Sink>(ending: Ending, out: &mut K) -> Result<(), Failed>
    ensures { Writes result (K.state out.old) (K.state out.new) (ending_line ending) }
{
    match ending {
        Ending::Narrow => write_whole(out, b"end narrow\n"),
        Ending::Rounds => write_whole(out, b"end rounds\n"),
        Ending::Reads => write_whole(out, b"end reads\n"),
    }
}

// Writes the blocks of the rounds of a plan, whose policy the chooser follows, and the line that says why they ended. Nothing is
// read at first.
fn write_course<R: Shows, S: PlaneSource, F: Fn(&Progress) -> usize, K: Sink>(
    plan: &Plan,
    running: &mut R,
    source: &mut S,
    chooser: &Chooser<F>,
    plane: &mut Plane,
    out: &mut K,
) -> Result<(), Stop<S::Error>>
    requires begun { (bits : Planes) → R.after running.old running.old plan.now (S.told source.old).head bits [] }
    requires fits { R.fits running.old (S.told source.old).head }
    requires follow { R.can_follow running.old plan.now }
    requires texts { HeadHasTexts (S.told source.old).head }
    requires rows { length plane.old ≡ R.rows running.old }
    requires ready { S.is_ready source.old }
    requires kept { Keeps F.Fn chooser.now.choose }
    requires follows { Follows F.Fn chooser.now.choose plan.now.policy }
    ensures since { S.since source.old source.new }
    ensures cause { HasStopCause (FailsSince S.handed S.since S.fails source.old source.new) result (K.state out.old) (K.state out.new) }
    ensures written { EndsOverSome [] (shown_by (R.course running.old plan.now (S.told source.old).head)
        (R.block running.old plan.now (S.told source.old).head)) result (K.state out.old) (K.state out.new) }
    ensures ends { EndsTold [] (shown_by (R.course running.old plan.now (S.told source.old).head)
        (R.block running.old plan.now (S.told source.old).head)) (S.told source.old).bits
        (seen_by (S.places source.old) (S.shows source.old)) (FailsSince S.handed S.since S.fails source.old source.new) result
        (K.state out.old) (K.state out.new) (S.handed source.old) (S.handed source.new) }
{
    let mut last = None;
    'rounds: loop {
        let ended = running.ending(plan);
        running.write_block(plan, source.head(), last, out)?;
        match ended {
            Some(why) => {
                write_ending(why, out)?;
                return Ok(());
            }
            None => last = Some(read_next(running, source, chooser, plane)?),
        }
    }
}

/// Writes the blocks and the end line with the chooser of the plan's policy.
pub(crate) fn write_rounds<R: Shows, S: PlaneSource, K: Sink>(
    begun: &mut Begun<R>,
    source: &mut S,
    out: &mut K,
) -> Result<(), Stop<S::Error>>
    requires begun { (bits : Planes) → R.after begun.old.running begun.old.running begun.old.plan (S.told source.old).head bits [] }
    requires fits { R.fits begun.old.running (S.told source.old).head }
    requires follow { R.can_follow begun.old.running begun.old.plan }
    requires texts { HeadHasTexts (S.told source.old).head }
    requires rows { length begun.old.plane ≡ R.rows begun.old.running }
    requires ready { S.is_ready source.old }
    ensures since { S.since source.old source.new }
    ensures cause { HasStopCause (FailsSince S.handed S.since S.fails source.old source.new) result (K.state out.old) (K.state out.new) }
    ensures written { EndsOverSome [] (shown_by (R.course begun.old.running begun.old.plan (S.told source.old).head)
        (R.block begun.old.running begun.old.plan (S.told source.old).head)) result (K.state out.old) (K.state out.new) }
    ensures ends { EndsTold [] (shown_by (R.course begun.old.running begun.old.plan (S.told source.old).head)
        (R.block begun.old.running begun.old.plan (S.told source.old).head)) (S.told source.old).bits
        (seen_by (S.places source.old) (S.shows source.old)) (FailsSince S.handed S.since S.fails source.old source.new) result
        (K.state out.old) (K.state out.new) (S.handed source.old) (S.handed source.new) }
{
    let plan = &begun.plan;
    let running = &mut begun.running;
    let plane = &mut begun.plane;
    match &plan.policy {
        Policy::By(policy) => {
            let policy = *policy;
            let chooser = Chooser::new(|p: &Progress| choose(policy, p));
            write_course(plan, running, source, &chooser, plane, out)
        }
        Policy::Listed(list) => {
            let chooser = Chooser::new(|p: &Progress| listed(list, p));
            write_course(plan, running, source, &chooser, plane, out)
        }
    }
}
