//! Why a line has no answer.

use std::alloc::{AllocError, AllocFailed};

/// Why a line has no answer.
#[derive(Debug, Drop)]
pub enum Problem {
    /// It is no call, or it lacks an argument.
    Unreadable,
    Memory,
}

impl From<AllocError> for Problem {
    fn from(_error: AllocError) -> Problem {
        Problem::Memory
    }
}

impl<T: Drop> From<AllocFailed<T>> for Problem {
    fn from(_failed: AllocFailed<T>) -> Problem {
        Problem::Memory
    }
}
