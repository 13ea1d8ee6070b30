//! The planes of an opened file, read from its store.

ghost use Rattle.std.specs.Prelude.{◌≡◌, IfSome, option_map};
ghost use Rattle.std.proofs.Common.{arith, refl, subst, ◌∙◌};
ghost use Rattle.outer_world.specs.Whole.{HoldsSame, laid};
ghost use Rattle.plane_file.specs.Opening.{Opened};
ghost use Rattle.plane_file.specs.Places.{plane_places};
ghost use Rattle.plane_file.specs.Reading.{StopsReading};
ghost use Rattle.plane_course.specs.Told.{HoldsFile, IsUnpadded, ShowsUnpadded, told_by};

use crate::source::PlaneSource;
use daq_table::Head;
use outer_world::Store;
use plane_file::{PlaneFault, PlaneFile};
use plane_kernels::Plane;

/// A file that was opened, and the store that holds it.
#[derive(Drop)]
pub struct FilePlanes<'a, P> {
    pub file: &'a PlaneFile,
    pub store: &'a mut P,
}

/// The planes that the store tells are the bits at their places. A plane is read from these alone.
impl<P: Store> PlaneSource for FilePlanes<'_, P> {
    type Error = PlaneFault;

    ghost told = { λ s. told_by s.file.now.head (P.state s.store.now) };

    ghost places = { λ s. plane_places s.file.now.head };

    ghost handed = { λ s. option_map laid (P.state s.store.now).pieces };

    ghost is_ready = { λ s. HoldsFile s.file.now.head (P.state s.store.now) };

    // The store is the same, and holds the same.
    ghost since = { λ first second. (second.file.now ≡ first.file.now) × (second.store.ghost_name ≡ first.store.ghost_name)
        × HoldsSame (P.state first.store.now) (P.state second.store.now) };

    ghost fails = { λ first second column number error.
        StopsReading first.file.now.head column number (P.state first.store.now) (P.state second.store.now) error };

    ghost shows = { λ s. ShowsUnpadded s.file.now.head (P.state s.store.now) };

    ghost since_itself = { λ s. (refl, refl, record { held = refl; faults = Prim.omega arith; ends = Prim.omega arith }) };

    ghost since_both = { λ first second third before after. let (file, name, held) = before in let (file', name', held') = after in
        let faults = held.faults in let faults' = held'.faults in let ends = held.ends in let ends' = held'.ends in (
          file' ∙ file,
          name' ∙ name,
          record {
            held = held'.held ∙ held.held;
            faults = Prim.omega (arith, faults, faults');
            ends = Prim.omega (arith, ends, ends');
          },
        ) };

    ghost shows_before = { λ first second column number since shown. let (file, name, same) = since in
        subst (λ held. IfSome held (λ bytes. IsUnpadded first.file.now.head bytes column number)) same.held
        (subst (λ (f : Opened). ShowsUnpadded f.head (P.state second.store.now) column number) file shown) };

    fn head(&self) -> &Head {
        self.file.head()
    }

    fn read(&mut self, column: usize, number: u8, into: &mut Plane) -> Result<(), PlaneFault> {
        self.file.read_plane(self.store, column, number, into)
    }
}
