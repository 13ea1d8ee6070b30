//! Whether the bounds of cells are narrow.

ghost use Rattle.std.specs.Prelude.{◌≡◌, ◌<◌, ◌^◌, List};
ghost use Rattle.aggregates.specs.Runnings.{StandsFor};
ghost use Rattle.query_model.specs.Bounds.{Pair};
ghost use Rattle.query_model.specs.Groups.{pairs_in_cell};
ghost use Rattle.round_engine.specs.CellAnswers.{AreGroups, AreSomeGroups, FitsInCell, HasOpenCell};
ghost use Rattle.round_engine.specs.Narrowness.{are_narrow, is_narrow, is_narrow_cell, is_narrow_item};
ghost use Rattle.round_engine.specs.Stages.{Stage};

use crate::groups::Groups;
use crate::narrowness::{is_narrow_average, is_narrow_bound};
use aggregates::Running;
use plane_schedule::Nearness;
use query_model::{ItemKind, Nullity, pairs_are_few};

// Whether the bound of an item is narrow in a cell.
fn is_narrow_item(width: u64, running: &Running, cell: u32) -> bool
    requires { FitsInCell width cell running.now }
    ensures { (ps : List Pair) → StandsFor running.now cell ps → result ≡ is_narrow_item width running.now.kind ps }
{
    match running.kind() {
        ItemKind::Avg => is_narrow_average(width, &running.average(cell)),
        ItemKind::Count | ItemKind::Sum | ItemKind::Min | ItemKind::Max => {
            is_narrow_bound(width, &running.bound(cell))
        }
    }
}

impl Groups {
    // Whether the bound of each item is narrow in a cell.
    fn items_are_narrow(&self, width: u64, cell: u32) -> bool
        requires cell { HasOpenCell self.now cell }
        requires width { width < 2 ^ 63 }
        ensures { (stage : Stage) → AreGroups stage self.now → result ≡ are_narrow width stage.query.items (λ item.
            pairs_in_cell stage.query item cell stage.frame stage.known) }
    {
        pairs_are_few();
        for running in &self.runnings {
            if !is_narrow_item(width, running, cell) {
                return false;
            }
        }
        true
    }

    // Whether it is known that the cell's keys are in the result and its bounds are narrow, or that they are not.
    fn is_narrow_cell(&self, width: u64, cell: u32) -> bool
        requires cell { HasOpenCell self.now cell }
        requires width { width < 2 ^ 63 }
        ensures { (stage : Stage) → AreGroups stage self.now → result ≡ is_narrow_cell width stage cell }
    {
        match self.absence(cell) {
            Nullity::Never => self.items_are_narrow(width, cell),
            Nullity::Possibly => false,
            Nullity::Always => true,
        }
    }

    // Whether each cell is narrow. Its count tells that a cell has no row that may count.
    pub(crate) fn is_narrow(&self, near: Nearness) -> bool
        requires answers { AreSomeGroups self.now }
        requires width { near.width < 2 ^ 63 }
        ensures { (stage : Stage) → AreGroups stage self.now → result ≡ is_narrow near stage }
    {
        for cell in 0..self.count() {
            if !self.is_narrow_cell(near.width, cell) {
                return false;
            }
        }
        true
    }
}
