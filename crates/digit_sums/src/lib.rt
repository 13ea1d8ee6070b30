//! Sums of many cells over a column, to which rows are added by the digits that were read of their numbers: no end of a row is computed.
#![tactic(auto)]

mod cell;
mod ends;
mod moves;
mod numbers;
mod ones;
mod sums;

pub use ends::DigitEnds;
pub use moves::CellMoves;
pub use numbers::digit_ends;
pub use ones::CellOnes;
pub use sums::DigitSums;
