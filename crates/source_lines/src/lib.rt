//! The lines of a source, read one by one.
#![tactic(auto)]

mod fault;
mod lines;

pub use fault::LineFault;
pub use lines::{MOST_BYTES, MOST_LINE, SourceLines};
