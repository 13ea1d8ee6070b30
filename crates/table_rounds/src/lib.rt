//! Courses of reads over the planes of a table by a plan: the rounds of a query, and the steps of a session. What holds of them over
//! planes, and over a table.
#![tactic(auto)]

mod laws;
mod longs;
mod session_laws;

pub use laws::{
    full_stages_are_narrow, legal_planes_have_tables, lists_are_read, planes_tell_stages,
    rounds_are_certain, rounds_are_counted, rounds_are_of_tables, rounds_are_one, rounds_begin,
    rounds_have_an_end, rounds_have_planes, rounds_have_tables, tables_are_taken,
    tables_tell_stages,
};
pub use longs::heads_are_of_longs;
pub use session_laws::{
    queries_stand_alone, sessions_are_certain, sessions_are_one, sessions_are_short,
    sessions_begin, sessions_have_an_end,
};
