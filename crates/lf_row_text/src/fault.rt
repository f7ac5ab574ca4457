//! Why a row has no answer.
use lf_base::NoMemory;
use std::alloc::{AllocError, AllocFailed};

/// Why a row has no answer.
#[derive(Clone, Copy, Debug, Drop)]
pub enum RowFault {
    /// It isn't written as its program reads rows.
    Malformed,
    /// Memory ran out.
    NoMemory,
}

impl From<NoMemory> for RowFault {
    fn from(_: NoMemory) -> RowFault {
        RowFault::NoMemory
    }
}

impl From<AllocError> for RowFault {
    fn from(_: AllocError) -> RowFault {
        RowFault::NoMemory
    }
}

impl<T: Drop> From<AllocFailed<T>> for RowFault {
    fn from(_: AllocFailed<T>) -> RowFault {
        RowFault::NoMemory
    }
}
