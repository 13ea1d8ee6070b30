//! Reports by groups of the parts of a table: what their lines say as cells, and the lines of the report over all parts.
#![tactic(auto)]

mod answers;
mod cells;
mod combined;
mod fault;
mod forms;
mod group;
mod keyed;
mod keys;
mod laws;
mod text_cells;
mod texts;

pub use cells::{cell_of, span_of};
pub use combined::combine;
pub use fault::CombineFault;
pub use forms::{EndsForm, are_alike, told_by_span};
pub use group::{Group, Groups};
pub use keyed::has_key;
pub use laws::{
    combined_can_be, combined_is_whole, faults_are_one, faults_are_whole, groups_contain,
    groups_contain_texts, groups_have_columns, groups_nest, groups_nest_averages,
    groups_nest_texts, groups_report_averages, groups_tell, groups_tell_averages, groups_tell_keys,
    groups_tell_texts, whole_is_combined,
};
pub use text_cells::text_at;
pub use texts::extreme_of;
