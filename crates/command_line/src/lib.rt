//! The commands of a command line: its words, and the command that they ask for.
#![tactic(auto)]

mod command;
mod reader;
mod words;

pub use command::{
    Ask, Combine, Command, Demo, Info, Load, Options, Query, ReadOrder, Session, Upgrade, Usage,
    one_command,
};
pub use words::Words;
