//! Intervals, masks and planes, columns that are read plane by plane, their blocks of rows and cells, and the first rows in their order.
#![tactic(auto)]

#[cfg(test)]
mod blocks;
#[cfg(test)]
mod cells;
#[cfg(test)]
mod columns;
#[cfg(test)]
mod firsts;
#[cfg(test)]
mod heads;
#[cfg(test)]
mod intervals;
#[cfg(test)]
mod kernel_bytes;
#[cfg(test)]
mod kernels;
