//! Rows as the reports of parts list them.

use daq_table::Text;
use shard_groups::Span;

/// The name of a row. Of rows with equal keys the one whose name is less comes first.
#[derive(Drop, Debug)]
pub struct RowName {
    /// The place of its part among all parts.
    pub part: usize,
    /// The tag that the part's own report gives it, where that report is of several parts. Else no byte.
    pub tag: Text,
    pub number: u64,
}

/// A row that the report of a part lists: it may be among the first of its part, or is for certain.
#[derive(Drop, Debug)]
pub struct PartRow {
    pub name: RowName,
    pub certain: bool,
    /// The keys that it may have.
    pub key: Span,
}

/// The end of a row's keys that comes first in the order asked, or the one that comes last.
#[derive(Clone, Copy)]
pub(crate) enum End {
    First,
    Last,
}
