//! The exact extremes of an average: the greatest and the least over all choices of the rows that may count and need not.
#![tactic(auto)]

mod average;
mod exact;
mod furthest;
mod laws;
mod passes;
mod planes;
mod search;
mod sums;
mod thresholds;
mod ways;

pub use average::exact_average;
pub use exact::Exact;
pub use laws::{
    exact_averages_are_certain, exact_averages_are_extremes, exact_averages_are_extremes_of_lists,
    exact_averages_contain, exact_averages_lie_within, exact_averages_nest, high_ends_are_best,
};
