//! What is known of an expression at a row: whether it is null, and where its number lies, by what is known of its columns; and the
//! same of a block of rows, and what these add to a sum.
#![tactic(auto)]

mod block_nulls;
mod block_sums;
mod block_values;
mod nulls;
mod row_ends;
mod shares;
mod short;
mod short_arithmetic;
mod short_ranges;
mod short_spans;
mod short_values;
mod spans;

pub use block_sums::{add_rows, fits_small};
pub use block_values::BlockValues;
pub use nulls::null_of;
pub use short::ShortInterval;
pub use short_values::{ShortValues, fits_cells};
pub use spans::{difference, product, span_of, sum};
