//! What a report says of a group.

use daq_table::Listed;
use report_text::{Answer, GroupLine, TextAnswer};

/// The line of a group, and the answers of its items. An item that asks for the least or the greatest text has no answer; the texts tell
/// where its text lies. The list of texts is empty where none is told.
#[derive(Drop, Debug)]
pub struct Group {
    pub line: GroupLine,
    pub answers: Listed<Answer>,
    pub texts: Listed<Option<TextAnswer>>,
}

/// The groups of a block, in order.
pub type Groups = Listed<Group>;
