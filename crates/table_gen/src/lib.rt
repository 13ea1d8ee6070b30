//! The table that a seed stands for: so many rows of drawn numbers, days and names.
#![tactic(auto)]

mod column;
mod draws;
mod exactness;
mod fault;
mod making;
mod names;
mod rows;

pub use exactness::{heads_have_texts, seeds_have_tables, tables_are_one};
pub use fault::GenFault;
pub use making::{MOST_ROWS, make};
