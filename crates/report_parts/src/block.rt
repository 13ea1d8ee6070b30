//! What a block says: of totals, of groups, or of first rows.

ghost use Rattle.std.specs.Prelude.{◌≡◌};
ghost use Rattle.report_parts.specs.Blocks.{entries_of, groups_of, is_skip, is_skipped, rows_of};

use crate::entry::Entry;
use daq_table::Listed;
use part_groups::{Group, Groups};
use report_text::{RowLine, RowsBlock, RowsTop};

/// What a block says.
#[derive(Drop)]
pub enum Block {
    /// Of totals: an entry for each item.
    Totals(Listed<Entry>),
    /// Of groups: for each its line, and the answers of its items.
    Groups(Groups),
    /// Of first rows: how many there are, or that none is judged, and the line of each that is listed.
    Rows(RowsBlock),
}

// Whether no row is judged.
fn is_skip(top: Option<RowsTop>) -> bool
    ensures { result ≡ is_skip top }
{
    match top {
        Some(RowsTop::Skipped(_)) => true,
        Some(RowsTop::Counts(_)) | None => false,
    }
}

impl Block {
    /// What it says of the items, where it is of totals.
    pub fn entries(&self) -> &[Entry]
        ensures { result.now ≡ entries_of self.now }
    {
        match self {
            Block::Totals(entries) => entries.as_slice(),
            Block::Groups(_) | Block::Rows(_) => &[],
        }
    }

    /// What it says of groups, where it is of groups.
    pub fn groups(&self) -> &[Group]
        ensures { result.now ≡ groups_of self.now }
    {
        match self {
            Block::Totals(_) | Block::Rows(_) => &[],
            Block::Groups(groups) => groups.as_slice(),
        }
    }

    /// The rows that it lists, where it is of first rows.
    pub fn rows(&self) -> &[RowLine]
        ensures { result.now ≡ rows_of self.now }
    {
        match self {
            Block::Totals(_) | Block::Groups(_) => &[],
            Block::Rows(rows) => rows.rows(),
        }
    }

    /// Whether it is of first rows, and none is judged.
    pub fn is_skipped(&self) -> bool
        ensures { result ≡ is_skipped self.now }
    {
        match self {
            Block::Totals(_) | Block::Groups(_) => false,
            Block::Rows(rows) => is_skip(rows.top()),
        }
    }
}
