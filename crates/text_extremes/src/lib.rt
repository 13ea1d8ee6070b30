//! The least and the greatest text over a table that is cut into parts, from what the parts say of theirs.
#![tactic(auto)]

mod combined;
mod copies;
mod extreme;
mod laws;

pub use combined::combine;
pub use copies::{copied, copied_answer};
pub use extreme::Extreme;
pub use laws::{
    answers_are_shown, combinations_contain, combinations_nest, combinations_tell, groups_combine,
    one_part_is_all, order_is_free, shards_are_extremes, shards_become_exact, shards_contain,
    shards_nest,
};
