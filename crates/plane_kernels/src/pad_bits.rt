//! What may be wrong with the bytes of a plane.

/// A bit past the last row is 1.
#[derive(Clone, Copy, Debug, PartialEq, Eq)]
pub struct PadBits {
    /// The word with that bit, counted from the plane's first.
    pub word: usize,
}
