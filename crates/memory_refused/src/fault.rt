//! Why a call was not found to answer rightly.
use std::alloc::{AllocError, AllocFailed};
use ufs_spec::{ConfigFault, NoMemory};

/// Why a call was not found to answer rightly: memory was refused before it, or this is wrong.
#[derive(Drop)]
pub enum Fault {
    Before,
    Wrong(&'static str),
}

impl From<AllocError> for Fault {
    fn from(_: AllocError) -> Fault {
        Fault::Before
    }
}

impl<T: Drop> From<AllocFailed<T>> for Fault {
    fn from(_: AllocFailed<T>) -> Fault {
        Fault::Before
    }
}

impl From<NoMemory> for Fault {
    fn from(_: NoMemory) -> Fault {
        Fault::Before
    }
}

impl From<ConfigFault> for Fault {
    fn from(_: ConfigFault) -> Fault {
        Fault::Wrong("the configuration is refused")
    }
}

/// It holds, or the call is wrong in this.
pub fn expect(holds: bool, what: &'static str) -> Result<(), Fault> {
    if holds {
        Ok(())
    } else {
        Err(Fault::Wrong(what))
    }
}
