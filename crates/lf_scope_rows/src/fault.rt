//! Why a row has no answer.
use lf_base::NoMemory;
use lf_text::TextFault;
use std::alloc::AllocError;

/// Why a row has no answer.
#[derive(Clone, Copy, Debug, Drop)]
pub enum Fault {
    /// It isn't written as rows are.
    Malformed,
    NoMemory,
}

impl From<NoMemory> for Fault {
    fn from(_: NoMemory) -> Fault {
        Fault::NoMemory
    }
}

impl From<AllocError> for Fault {
    fn from(_: AllocError) -> Fault {
        Fault::NoMemory
    }
}

impl From<TextFault> for Fault {
    fn from(fault: TextFault) -> Fault {
        match fault {
            TextFault::NoMemory => Fault::NoMemory,
            TextFault::TooLong | TextFault::NotUtf8 { .. } => Fault::Malformed,
        }
    }
}
