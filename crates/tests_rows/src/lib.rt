//! What is known of rows: conditions, expressions, and bounds of aggregates, also over the shards of a table.
#![tactic(auto)]

#[cfg(test)]
mod bounds;
#[cfg(test)]
mod ends;
#[cfg(test)]
mod filters;
#[cfg(test)]
mod heads;
#[cfg(test)]
mod kept_sums;
#[cfg(test)]
mod shards;
#[cfg(test)]
mod truths;
#[cfg(test)]
mod value_blocks;
#[cfg(test)]
mod values;
