//! Bounds of sums and extremes of a column whose values the condition itself keeps within a range.
#![tactic(auto)]

mod bound;
mod clip;
mod laws;
mod level;
mod sums;

pub use bound::clip_bound;
pub use clip::{Clip, clip_of};
pub use laws::{
    clips_are_certain, clips_are_extremes, clips_contain, clips_lie_within, clips_nest,
};
