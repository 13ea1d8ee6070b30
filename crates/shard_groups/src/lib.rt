//! Reports by groups over a table that is cut into shards.
#![tactic(auto)]

mod averages;
mod cells;
mod combined;
mod fault;
mod keys;
mod laws;
mod lines;
mod merged;
mod order;
mod runs;
mod shares;

pub use cells::{Cell, Cells, ItemBound};
pub use combined::combine_groups;
pub use fault::GroupFault;
pub use keys::{Ends, KeyValue, Keys, Span};
pub use laws::{
    averages_are_one, combined_is_found, lines_are_found, lines_are_one, lines_contain, lines_nest,
    lines_nest_averages, lines_report_averages, lines_tell, lines_tell_averages, lines_tell_keys,
    one_shard_is_all, order_is_free,
};
pub use shares::is_within;
