//! What runs over the planes of a table, a query or a session, and where its planes come from: a table in memory or a file. One reader of
//! the next plane serves both.
#![tactic(auto)]

mod file;
mod file_laws;
mod queries;
mod reading;
mod running;
mod sessions;
mod source;

pub use file::FilePlanes;
pub use file_laws::{files_have_their_planes, files_tell_planes};
pub use queries::ending;
pub use reading::{StepFault, read_next};
pub use running::Running;
pub use sessions::session_ending;
pub use source::PlaneSource;
