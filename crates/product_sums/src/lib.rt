//! Sums of expressions by counts of rows: each end of a sum of products is added up over a mask's rows without a look at one of them.
#![tactic(auto)]

mod block_sums;
mod column_ends;
mod even_masks;
mod extremes;
mod factors;
mod fetched;
mod fetched_sums;
mod first_numbers;
mod kept_column;
mod kept_pair;
mod kept_planes;
mod kept_product;
mod linear_sums;
mod moved_sums;
mod moves;
mod pair_ends;
mod pair_sums;
mod rows;
mod signs;
mod some_rows;
mod sums;
mod tally;
mod top_sums;
mod wrapping;

pub use kept_product::KeptProduct;
pub use signs::{count_of_counts, is_product_sum, keeps_sign};
pub use tally::{CellOf, CountedRows, kept_tally};
