//! The bound of an item, in the form of its kind.

ghost use Rattle.std.specs.Prelude.{◌≡◌};
ghost use Rattle.round_engine.specs.Narrowness.{is_narrow_of, FitsNarrowOf};

use crate::narrowness::{is_narrow_average, is_narrow_bound};
use query_model::{AverageBound, Bound};

#[derive(Clone, Copy)]
pub(crate) enum ItemBound {
    // Of an item that is no average.
    Numbers(Bound),
    // Of an average.
    Fractions(AverageBound),
}

impl ItemBound {
    // Whether it is known that there is an answer, and its ends are near, or that there is none.
    pub(crate) fn is_narrow(&self, width: u64) -> bool
        requires { FitsNarrowOf width self.now }
        ensures { result ≡ is_narrow_of width self.now }
    {
        match self {
            ItemBound::Numbers(bound) => is_narrow_bound(width, bound),
            ItemBound::Fractions(bound) => is_narrow_average(width, bound),
        }
    }
}
