//! Tables where no run shows them: limits that a caller hands in, a text's last room, and the most rows of a generated table.
#![tactic(auto)]

#[cfg(test)]
mod generated;
#[cfg(test)]
mod loaded;
#[cfg(test)]
mod texts;
