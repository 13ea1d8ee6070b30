//! Why a text of cases does not read.

use std::alloc::{AllocError, AllocFailed};

/// The line of the text, counted from 1, and what is wrong there.
#[derive(Debug, Drop)]
pub struct CaseFault {
    pub line: usize,
    pub why: &'static str,
}

impl CaseFault {
    /// What is wrong at a line.
    pub fn at(line: usize, why: &'static str) -> CaseFault {
        CaseFault { line, why }
    }
}

impl From<AllocError> for CaseFault {
    fn from(_: AllocError) -> Self {
        CaseFault::at(0, "no memory")
    }
}

impl<T: Drop> From<AllocFailed<T>> for CaseFault {
    fn from(_: AllocFailed<T>) -> Self {
        CaseFault::at(0, "no memory")
    }
}
