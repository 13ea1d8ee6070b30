//! Scripts of sessions: texts that have a query in each line.
#![tactic(auto)]

mod fault;
mod laws;
mod script;

pub use fault::ScriptFault;
pub use laws::{answers_are_one, scripts_have_answers};
pub use script::{MOST_BYTES, MOST_QUERIES, ScriptQuery, queries};
