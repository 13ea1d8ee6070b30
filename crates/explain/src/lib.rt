//! What a person is told below the line of a refusal: where it is, and what to do about it. These are functions of that line, of the
//! words of the command line and of what is known beside them.
#![tactic(auto)]

mod caret;
mod columns;
mod compared;
mod faults;
mod follow;
mod parts;
mod queries;
mod records;
mod reports;
mod scene;
mod tables;
mod usage;

pub use scene::{Scene, Trouble, Wants, explain, wanted_for};
