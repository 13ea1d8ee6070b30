//! Queries in progress over small tables: bounds, nulls, signs, clipped bounds and exact averages, a block's text, sessions, choices of
//! the next column, and a source that tells nothing.
#![tactic(auto)]

#[cfg(test)]
mod averages;
#[cfg(test)]
mod blocks;
#[cfg(test)]
mod clips;
#[cfg(test)]
mod named_reads;
#[cfg(test)]
mod nulls;
#[cfg(test)]
mod opened;
#[cfg(test)]
mod schedules;
#[cfg(test)]
mod sessions;
#[cfg(test)]
mod signed;
#[cfg(test)]
mod small;
#[cfg(test)]
mod untold;
