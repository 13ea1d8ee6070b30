//! Lists of reads, worded by names of columns.
#![tactic(auto)]

mod fault;
mod laws;
mod names;
mod reads;

pub use fault::ReadsFault;
pub use laws::{answers_are_one, words_have_answers};
pub use reads::check_reads;
