//! Why a text isn't read.
use lf_core::NoMemory;
use std::alloc::{AllocError, AllocFailed};

/// Why a text isn't read.
#[derive(Clone, Copy, Debug, Drop)]
pub enum Unread {
    /// It isn't written in this notation, or doesn't mean what it is used for.
    Malformed,
    NoMemory,
}

impl From<NoMemory> for Unread {
    fn from(_: NoMemory) -> Unread {
        Unread::NoMemory
    }
}

impl From<AllocError> for Unread {
    fn from(_: AllocError) -> Unread {
        Unread::NoMemory
    }
}

impl<T: Drop> From<AllocFailed<T>> for Unread {
    fn from(_: AllocFailed<T>) -> Unread {
        Unread::NoMemory
    }
}
