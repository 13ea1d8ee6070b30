//! Which text of some is asked for.

/// The least or the greatest, in the order of their bytes.
#[derive(Clone, Copy, Debug, PartialEq, Eq)]
pub enum Extreme {
    Least,
    Greatest,
}
