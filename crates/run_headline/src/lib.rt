//! The headline of `run` in the words of SQL: what the text that it wrote says of the query as it is written.
#![tactic(auto)]

mod laws;
mod two_runs;

pub use laws::{printed_forms_are_of_one_query, runs_hold_answers};
pub use two_runs::{
    equal_planes_give_equal_reports, extras_add_lines, last_rounds_cut_reports, runs_have_rounds,
    runs_inquire,
};
