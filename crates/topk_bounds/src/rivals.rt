//! The rows that are counted ahead of a row.

/// Of the rows that count, those that come before a row whatever the unread digits are, or those that may come before it.
#[derive(Clone, Copy)]
pub enum Rivals {
    Must,
    May,
}
