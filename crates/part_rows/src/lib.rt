//! The first rows in an order over all parts of a table, judged from the rows that the parts' reports list.
#![tactic(auto)]

mod combined;
mod fault;
mod forms;
mod laws;
mod listed;
mod order;
mod ranked;
mod row;
mod standings;

pub use combined::combine_rows;
pub use fault::RowsFault;
pub use laws::{
    blocks_are_read_back, columns_can_be_keyed, joined_lines_become_exact, joined_lines_nest,
    later_reports_join, lines_are_right, lines_are_shown, lines_become_exact, lines_hold,
    lines_nest, lines_rise, named_lines_are_right, names_are_apart, order_is_free, parts_are_later,
    reports_become_exact, reports_hold, reports_join, reports_nest, rising_lines_are_listed_once,
    standings_are_right, standings_become_exact, standings_nest, told_rows_hold, told_rows_nest,
};
pub use listed::ListedRows;
pub use row::{PartRow, RowName};
pub use standings::judge;
