//! Several queries over one list of plane reads: each plane is read once and handed to each query that awaits it, and each query stands
//! where it would stand alone.
#![tactic(auto)]

mod columns;
mod limits;
mod member;
mod members;
mod progress;
mod session;

pub use limits::SessionFault;
pub use session::Session;
