//! What is known of columns after some of their planes: the planes themselves, and marks of the rows that they tell apart.
#![tactic(auto)]

mod blocks;
mod codes;
mod column_block;
mod cutting;
mod known;
mod known_columns;
mod known_rows;
mod lent_columns;
mod marks;
mod octets;
mod row_block;

pub use codes::numbers_of_prefix;
pub use cutting::cut;
pub use known::{Known, OverTop};
pub use known_columns::KnownColumns;
pub use known_rows::KnownRows;
pub use lent_columns::LentColumns;
pub use row_block::{RowBlock, blocks_have_their_rows};
