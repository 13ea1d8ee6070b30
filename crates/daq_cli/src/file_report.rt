//! The report of a course over a file. The planes of its rounds are read, each before its block.

ghost use Rattle.std.specs.Prelude.{◌≡◌, [], length};
ghost use Rattle.plane_course.specs.Told.{HoldsFile};
ghost use Rattle.outer_world.specs.Whole.{HoldsSame};
ghost use Rattle.table_rounds.specs.Rounds.{Planes};
ghost use Rattle.daq_cli.specs.FileReports.{EndsFile, StopsAfter};
ghost use Rattle.daq_cli.specs.Report.{EndsOverSome, HasStopCause, shown_by};

use crate::course_report::{Begun, Shows, write_rounds};
use crate::stop::Stop;
use outer_world::{Sink, Store};
use plane_course::FilePlanes;
use plane_file::{PlaneFault, PlaneFile};

// Writes the blocks and the end line over the planes of a file.
fn report_planes<R: Shows, P: Store, K: Sink>(
    begun: &mut Begun<R>,
    source: &mut FilePlanes<'_, P>,
    out: &mut K,
) -> Result<(), Stop<PlaneFault>>
    requires holds { HoldsFile source.old.file.now.head (P.state source.old.store.now) }
    requires begun { (bits : Planes) → R.after begun.old.running begun.old.running begun.old.plan source.old.file.now.head bits [] }
    requires fits { R.fits begun.old.running source.old.file.now.head }
    requires follow { R.can_follow begun.old.running begun.old.plan }
    requires rows { length begun.old.plane ≡ R.rows begun.old.running }
    ensures same_reference { source.new.store.ghost_name ≡ source.old.store.ghost_name }
    ensures same { HoldsSame (P.state source.old.store.now) (P.state source.new.store.now) }
    ensures cause { HasStopCause (StopsAfter source.old.file.now.head (P.state source.old.store.now) (P.state source.new.store.now)) result
        (K.state out.old) (K.state out.new) }
    ensures written { EndsOverSome [] (shown_by (R.course begun.old.running begun.old.plan source.old.file.now.head)
        (R.block begun.old.running begun.old.plan source.old.file.now.head)) result (K.state out.old) (K.state out.new) }
    ensures ends { EndsFile [] (shown_by (R.course begun.old.running begun.old.plan source.old.file.now.head)
        (R.block begun.old.running begun.old.plan source.old.file.now.head)) source.old.file.now.head result
        (P.state source.old.store.now) (P.state source.new.store.now) (K.state out.old) (K.state out.new) }
{
    // The head's clause says that it can be spelled.
    let _head = source.file.head();
    write_rounds(begun, source, out)
}

/// The same, of a file and a store that holds it.
pub(crate) fn report_file<R: Shows, P: Store, K: Sink>(
    begun: &mut Begun<R>,
    file: &PlaneFile,
    planes: &mut P,
    out: &mut K,
) -> Result<(), Stop<PlaneFault>>
    requires holds { HoldsFile file.now.head (P.state planes.old) }
    requires begun { (bits : Planes) → R.after begun.old.running begun.old.running begun.old.plan file.now.head bits [] }
    requires fits { R.fits begun.old.running file.now.head }
    requires follow { R.can_follow begun.old.running begun.old.plan }
    requires rows { length begun.old.plane ≡ R.rows begun.old.running }
    ensures same { HoldsSame (P.state planes.old) (P.state planes.new) }
    ensures cause { HasStopCause (StopsAfter file.now.head (P.state planes.old) (P.state planes.new)) result
        (K.state out.old) (K.state out.new) }
    ensures written { EndsOverSome [] (shown_by (R.course begun.old.running begun.old.plan file.now.head)
        (R.block begun.old.running begun.old.plan file.now.head)) result (K.state out.old) (K.state out.new) }
    ensures ends { EndsFile [] (shown_by (R.course begun.old.running begun.old.plan file.now.head)
        (R.block begun.old.running begun.old.plan file.now.head)) file.now.head result
        (P.state planes.old) (P.state planes.new) (K.state out.old) (K.state out.new) }
{
    let mut source = FilePlanes {
        file,
        store: planes,
    };
    report_planes(begun, &mut source, out)
}
