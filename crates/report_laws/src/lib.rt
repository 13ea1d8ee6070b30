//! What reports show and what is read back: where the ends of an answer are numbers, dates or texts, these are the same, both
//! ways; and so are the keys of groups and the lines of first rows.
#![tactic(auto)]

mod laws;
mod readers;

pub use laws::{
    averages_are_shown, averages_can_be_read, bounds_are_shown, bounds_can_be_read,
    clips_are_shown, exact_averages_are_shown, first_rows_are_shown, groups_are_shown,
    keys_are_shown, rows_are_shown, texts_are_shown,
};
pub use readers::{read_report_average, read_report_bound};
