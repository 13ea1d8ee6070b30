//! Reports of the parts of a table: what the lines of each have told, and what a line says of the answer over all parts.
#![tactic(auto)]

mod averages;
mod behind;
mod beside;
mod between;
mod block;
mod blocks;
mod closing;
mod combination;
mod combined;
mod completing;
mod ends;
mod entry;
mod fault;
mod forms;
mod group_besides;
mod groups;
mod inside;
mod laws;
mod narrowness;
mod near;
mod opening;
mod over;
mod part;
mod parts;
mod rounds;
mod rows;
mod rows_over;
mod shape;
mod tags;
mod texts;
mod values;

pub use block::Block;
pub use blocks::{written_block, written_opening};
pub use closing::Closing;
pub use combination::{Combination, Until};
pub use combined::combine_item;
pub use ends::{end_behind, may_end};
pub use entry::Entry;
pub use fault::{BlockFault, CombineFault, CourseFault, EndFault, InputFault, LineFault};
pub use laws::{
    answers_contain, answers_nest, answers_tell, averages_report, combined_averages_are_certain,
    combined_besides_are_certain, combined_clips_are_certain, combined_exact_averages_are_certain,
    combined_groups_are_certain, combined_is_certain, combined_rows_are_certain,
    combined_text_clips_are_certain, combined_text_is_one, combined_texts_are_certain,
    ended_reports_stay, lines_only_add, order_of_lines_is_free, reports_only_grow,
    stands_are_combined, tellings_are_one, told_blocks_stay, written_stays,
};
pub use narrowness::is_narrow;
pub use part::{Part, Place};
pub use parts::{Asked, Parts};
pub use rounds::{all_have_block, have_all_ended};
pub use shape::Shape;
pub use tags::untagged;
