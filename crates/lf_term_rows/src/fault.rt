//! Why a row has no value.
use lf_core::NoMemory;
use lf_level::LevelFault;
use lf_meta::MetaFault;
use lf_notation::Unread;
use lf_subst::SubstFault;
use std::alloc::{AllocError, AllocFailed};

/// Why a row has no value: it isn't written as rows are, or the call refuses.
#[derive(Clone, Copy, Debug, Drop)]
pub enum Fault {
    Malformed,
    TooMany,
    TooDeep,
    Units,
    Occurs,
    Scope(u32),
    NoMemory,
}

impl From<NoMemory> for Fault {
    fn from(_: NoMemory) -> Fault {
        Fault::NoMemory
    }
}

impl From<AllocError> for Fault {
    fn from(_: AllocError) -> Fault {
        Fault::NoMemory
    }
}

impl<T: Drop> From<AllocFailed<T>> for Fault {
    fn from(_: AllocFailed<T>) -> Fault {
        Fault::NoMemory
    }
}

impl From<Unread> for Fault {
    fn from(fault: Unread) -> Fault {
        match fault {
            Unread::Malformed => Fault::Malformed,
            Unread::NoMemory => Fault::NoMemory,
        }
    }
}

impl From<LevelFault> for Fault {
    fn from(fault: LevelFault) -> Fault {
        match fault {
            LevelFault::TooMany => Fault::TooMany,
            LevelFault::NoMemory => Fault::NoMemory,
        }
    }
}

impl From<SubstFault> for Fault {
    fn from(fault: SubstFault) -> Fault {
        match fault {
            SubstFault::TooDeep => Fault::TooDeep,
            SubstFault::Units => Fault::Units,
            SubstFault::NoMemory => Fault::NoMemory,
        }
    }
}

impl From<MetaFault> for Fault {
    fn from(fault: MetaFault) -> Fault {
        match fault {
            MetaFault::Occurs => Fault::Occurs,
            MetaFault::Scope(k) => Fault::Scope(k),
            MetaFault::NoMemory => Fault::NoMemory,
        }
    }
}
