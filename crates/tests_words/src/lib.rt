//! Words of command lines, scripts, lines of queries and reports, tokens of SQL, and devices in memory and over the system.
#![tactic(auto)]

#[cfg(test)]
mod commands;
#[cfg(test)]
mod devices;
#[cfg(test)]
mod files;
#[cfg(test)]
mod first_rows;
#[cfg(test)]
mod group_lines;
#[cfg(test)]
mod group_reports;
#[cfg(test)]
mod part_reports;
#[cfg(test)]
mod query_lines;
#[cfg(test)]
mod report_lines;
#[cfg(test)]
mod scripts;
#[cfg(test)]
mod sql_words;
#[cfg(test)]
mod streamed_reports;
#[cfg(test)]
mod text_parts;
