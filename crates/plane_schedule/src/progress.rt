//! How far a query has come.

ghost use Rattle.std.specs.Prelude.{◌↔◌, IsTrue};
ghost use Rattle.plane_schedule.specs.Choices.{HasUnread, outlook_of};

/// What a column of a query is read for: the condition, else the groups, else values.
#[derive(Clone, Copy, Debug, PartialEq, Eq)]
pub enum Role {
    Filter,
    Group,
    Value,
}

/// The number of the query's columns; for each of them its unread planes and those that are read (each at most 65), its role, and whether
/// it gives values: whether an argument of an aggregate names it, or rows are ordered by it. At how many rows the condition is unknown,
/// and how many may pass it; and how many rounds are done.
#[derive(Clone, Copy, Debug)]
pub struct Progress {
    pub columns: u8,
    pub unread: [u8; 16],
    pub read: [u8; 16],
    pub role: [Role; 16],
    pub gives_values: [bool; 16],
    pub unknown: u64,
    pub possible: u64,
    pub done: u32,
}

// Whether some column has an unread plane.
pub(crate) fn has_unread(progress: &Progress) -> bool
    ensures { IsTrue result ↔ HasUnread (outlook_of progress.now) }
{
    for column in 0..16usize {
        if column < progress.columns as usize && progress.unread[column] > 0 {
            return true;
        }
    }
    false
}
