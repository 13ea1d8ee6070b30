//! Devices over files and the standard streams.
#![tactic(auto)]

mod faults;
mod files;
mod new_file;
mod places;
mod sinks;
mod target;

pub use faults::{Action, Trouble};
pub use files::{FileSource, FileStore, InputSource, PlaceStore, hold_standard_places};
pub use places::ReadAt;
pub use sinks::{FileSink, OutputSink};
pub use target::Target;
