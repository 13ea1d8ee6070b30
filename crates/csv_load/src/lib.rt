//! Tables from CSV texts under a schema: each fault exactly where it belongs, and else the table that the text stands for.
#![tactic(auto)]

mod building;
mod column;
mod exactness;
mod fault;
mod fields;
mod filling;
mod limits;
mod lines;
mod loading;
mod marks;
mod odd_field;
mod place;
mod plain_cells;
mod ranks;
mod reading;
mod record;
mod texts;
mod values;

pub use exactness::{faults_are_exact, heads_have_texts, tables_are_one, texts_have_answers};
pub use fault::TableFault;
pub use limits::Limits;
pub use loading::load;
