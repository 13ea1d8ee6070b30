//! Bounds of averages beside which the sum and the number of their values are told.
#![tactic(auto)]

mod beside;
mod laws;

pub use beside::average_beside;
pub use laws::besides_stand;
