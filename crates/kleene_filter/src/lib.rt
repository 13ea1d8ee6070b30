//! For which rows a condition is known to hold, and for which it may.
#![tactic(auto)]

mod atoms;
mod block_truths;
mod comparisons;
mod filter;
mod judging;
mod lanes;
mod masks;
mod members;
mod nulls;
mod parted;
mod ranges;
mod reads;
mod truth_masks;
mod truths;
mod unions;
mod words;

pub use filter::Filter;
pub use reads::pred_reads;
