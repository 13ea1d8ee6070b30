//! Which column of a query is read next, and how far the rounds go.
#![tactic(auto)]

mod chooser;
mod laws;
mod policies;
mod policy;
mod progress;

pub use chooser::Chooser;
pub use laws::{choices_are_one, policies_choose};
pub use policies::{FixedPolicy, balanced, choose, filter_first, in_order, listed, widest};
pub use policy::{Ending, Extras, FEW_ROWS, Listing, Nearness, Plan, Policy};
pub use progress::{Progress, Role};
