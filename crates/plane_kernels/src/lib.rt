//! Masks and planes: a truth value for each row, kept as words of 64 bits and worked on eight words at a time.
#![tactic(auto)]

mod bits;
mod block;
mod blocks;
mod bytes;
mod lanes;
mod laws;
mod mask;
mod pad_bits;
mod plane;
mod remaining;
mod row_bits;
mod triples;
mod words;

pub use block::{Block, count_both, count_ones};
pub use laws::bytes_are_exact;
pub use mask::{Mask, split, step_compare};
pub use pad_bits::PadBits;
pub use plane::{Plane, transpose, validity};
pub use remaining::Remaining;
