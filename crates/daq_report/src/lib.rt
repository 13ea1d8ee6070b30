//! The text of a block of a report: the round, and what is known of the answers, by the query's form.
#![tactic(auto)]

mod block;
mod extras;
mod gathered;
mod groups;
mod intervals;
mod items;
mod keys;
mod rankings;
mod round_line;
mod scope;
mod texts;

pub use block::write_block;
pub use texts::written_count;
