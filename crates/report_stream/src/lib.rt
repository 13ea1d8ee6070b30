//! The reports of the parts of a table, read from a source line by line, become one report on a sink.
#![tactic(auto)]

mod fault;
mod laws;
mod stream;

pub use fault::{LineRefusal, StreamFault, Tag};
pub use laws::{faults_are_told, reports_are_answered, reports_are_one};
pub use stream::combine_reports;
