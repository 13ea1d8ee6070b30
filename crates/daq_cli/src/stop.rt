//! Why a report stops.

ghost use Rattle.std.specs.Prelude.{◌≡◌};
ghost use Rattle.daq_cli.specs.declared.stop.Stop.TheVariants as stops;

use outer_world::Failed;
use plane_course::StepFault;

/// Why a report stops.
#[derive(Drop)]
pub(crate) enum Stop<E: Drop> {
    /// It was not written.
    Failed,
    /// The next plane was not read or not taken.
    Step(StepFault<E>),
}

impl<E: Drop> From<Failed> for Stop<E> {
    ghost from_gives = { λ _ stop. stop ≡ stops.Failed };

    fn from(_: Failed) -> Self {
        Stop::Failed
    }
}

impl<E: Drop> From<StepFault<E>> for Stop<E> {
    ghost from_gives = { λ fault stop. stop ≡ stops.Step fault };

    fn from(fault: StepFault<E>) -> Self {
        Stop::Step(fault)
    }
}
