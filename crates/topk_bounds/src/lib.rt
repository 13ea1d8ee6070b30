//! What is known of whether each row is among the first in the order of a column.
#![tactic(auto)]

mod cut;
mod laws;
mod order;
mod rivals;
mod search;
mod stop;
mod top;

pub use laws::{searches_go_on, standings_stand};
pub use top::TopK;
