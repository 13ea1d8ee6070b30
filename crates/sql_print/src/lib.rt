//! Queries: a tree to its text.
#![tactic(auto)]

mod printing;

pub use printing::{print, reads_back};
