//! Bounds of aggregates, from counts, sums and ends.
#![tactic(auto)]

mod block_words;
mod cell_counts;
mod cell_sums;
mod digits;
mod ends;
mod extreme_rows;
mod extremes;
mod kept_extreme;
mod kept_sum;
mod others;
mod row_sums;
mod running;
mod signs;
mod spans;
mod sums;
mod tally;

pub use block_words::{first_place, is_empty};
pub use cell_counts::CellCounts;
pub use cell_sums::CellSums;
pub use digits::number_planes;
pub use ends::{
    End, ExtremeSpan, greatest_ends, greatest_high, least_ends, least_low, negative_lows,
    positive_highs, sum_ends, sum_highs, sum_lows,
};
pub use extreme_rows::Extreme;
pub use kept_extreme::KeptExtreme;
pub use kept_sum::KeptSum;
pub use others::{OtherRows, sum_others};
pub use running::Running;
pub use spans::{block_span, lows_of_rows, spans_of_rows, top_span};
pub use sums::SumSpan;
pub use tally::{Tally, has_bit, quotient};
