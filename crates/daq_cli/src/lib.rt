//! The commands of `daq`, over devices that are handed in.
#![tactic(auto)]

mod commands;
mod course_report;
mod fault_lines;
mod file_report;
mod inputs;
mod laws;
mod lines;
mod question;
mod refusal;
mod report;
mod report_faults;
mod scripts;
mod session_report;
mod status;
mod stop;
mod stores;
mod together;
mod top;
mod world;

pub use command_line::Words;
pub use laws::{steps_are_complete, steps_are_exact};
pub use session_report::queries_are_shown_alone;
pub use status::{Status, code};
pub use top::run;
pub use world::World;
