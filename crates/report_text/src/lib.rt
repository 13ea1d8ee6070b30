//! Reports read back: what a line of a report says. Each reader answers exactly where the line is one that a report may have, and what it
//! answers is written as the line.
#![tactic(auto)]

mod answers;
mod averages;
mod bounds;
mod counts;
mod dates;
mod digits;
mod extras;
mod forms;
mod groups;
mod intervals;
mod keys;
mod laws;
mod layouts;
mod lines;
mod numbers;
mod quotes;
mod row_blocks;
mod rows;
mod text_answers;

pub use answers::{Answer, read_answer, written_answer};
pub use averages::{Ratio, ShownAverage, read_average, written_average};
pub use bounds::{ShownBound, read_bound, written_bound};
pub use extras::{is_rows_line, read_extra, written_extra};
pub use forms::{Form, has_texts};
pub use groups::{GroupLine, ShownKeys, read_group, written_group};
pub use keys::{ShownEnds, ShownSpan, TextEnds, ValueEnds};
pub use laws::{
    extras_say_one, groups_say_one, lines_say_one, rows_say_one, text_items_say_one,
    texts_are_no_values, tops_say_one,
};
pub use lines::{
    ReportEnd, is_round_line, read_end, read_item, read_parts, text_of_item, written_item,
};
pub use numbers::{Number, read_number};
pub use row_blocks::{RowsBlock, RowsTop};
pub use rows::{RowLine, RowName, TopLine, read_row, read_top, written_row, written_top};
pub use text_answers::{
    TextAnswer, read_text_answer, read_text_item, written_text_answer, written_text_item,
};
