//! What a report says, in the words of SQL: that its intervals enclose what a query asks for, in each world that has the planes read.
#![tactic(auto)]

mod laws;

pub use laws::{
    blocks_have_lines, equal_planes_give_equal_blocks, intervals_hold_answers,
    intervals_hold_averages, keys_are_told, rounds_are_cut, rows_are_told, rows_have_keys,
};
