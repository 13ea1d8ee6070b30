//! Why words of a plane are not read.

/// Why words of a plane are not read.
#[derive(Clone, Copy, Debug, PartialEq, Eq)]
pub enum WordsFault {
    /// The store failed.
    Fault,
    /// A bit past the last row is 1.
    PadBits,
    /// The store had no byte at one of their places.
    WentShort,
}
