//! Bounds over a table that is cut into shards.
#![tactic(auto)]

mod averages;
mod combined;
mod ends;
mod exactness;
mod fractions;
mod laws;
mod sums;
mod wide;

pub use averages::{combine_averages, hull_of_averages};
pub use combined::combine;
pub use exactness::{apart, is_exact};
pub use laws::{
    averages_follow, averages_nest, combinations_contain, combinations_look_exact,
    combinations_nest, combinations_report_averages, combinations_tell, combinations_tell_averages,
    combined_is_bound, cuts_keep_values, groups_combine, hulls_contain, hulls_nest,
    lists_give_bounds, lists_report_averages, meets_stand, nothing_is_lost, one_average_is_all,
    one_shard_is_all, order_is_free, order_of_averages_is_free, shards_are_extremes,
    shards_become_exact, shards_become_exact_averages, shards_contain, shards_contain_averages,
    shards_lose_nothing, shards_nest, shards_nest_averages, sums_give_averages,
};
pub use sums::{average_from, meet_of_two};
