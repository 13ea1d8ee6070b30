//! Tokens of an SQL text: where each stands and what it says.
#![tactic(auto)]

mod byte;
mod cut;
mod numeral;
mod sign;
mod string;
mod token;
mod word;

pub use cut::{one_cut, some_cut, tokens};
pub use token::{Fixed, KEYWORDS, Kind, Number, Token};
pub use word::is_plain_name;
