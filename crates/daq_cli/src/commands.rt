//! The commands, each in a file of its own.

pub(crate) mod ask;
pub(crate) mod combine;
pub(crate) mod demo;
pub(crate) mod help;
pub(crate) mod info;
pub(crate) mod load;
pub(crate) mod query;
pub(crate) mod session;
pub(crate) mod upgrade;
pub(crate) mod version;
