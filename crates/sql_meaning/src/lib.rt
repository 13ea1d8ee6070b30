//! What SQL means, in the words of the people who ask: over rows of decimals, dates, texts and nulls.
#![tactic(auto)]

mod laws;

pub use laws::{
    answers_mean_their_trees, arguments_mean_their_trees, attained_ends_mean_their_trees,
    averages_mean_their_trees, conditions_mean_their_trees, decimals_are_ordered,
    intervals_mean_their_trees, intervals_of_averages_mean_their_trees, keys_mean_their_trees,
    named_once_attain, orders_mean_their_trees, results_mean_their_trees, tables_have_values,
    texts_are_of_values,
};
