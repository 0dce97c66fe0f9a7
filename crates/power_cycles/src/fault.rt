//! Why a row of lives ends before its last one.
use std::alloc::{AllocError, AllocFailed};
use ufs_spec::{ConfigFault, NoMemory, RunFault};

/// Why a row of lives ends before its last one: memory was refused, the world refused an event, the device is
/// stuck in this, or a block that was written is lost.
#[derive(Drop)]
pub enum Fault {
    Memory,
    Event,
    Stuck(Wait),
    Lost(u32),
}

/// What a host waits for.
#[derive(Clone, Copy, PartialEq, Eq)]
pub enum Wait {
    Mending,
    Writing,
    Reading,
}

impl Wait {
    /// What the device is stuck in.
    pub fn name(self) -> &'static str {
        match self {
            Wait::Mending => "its mending",
            Wait::Writing => "a write",
            Wait::Reading => "a read",
        }
    }
}

impl From<AllocError> for Fault {
    fn from(_: AllocError) -> Fault {
        Fault::Memory
    }
}

impl<T: Drop> From<AllocFailed<T>> for Fault {
    fn from(_: AllocFailed<T>) -> Fault {
        Fault::Memory
    }
}

impl From<NoMemory> for Fault {
    fn from(_: NoMemory) -> Fault {
        Fault::Memory
    }
}

impl From<ConfigFault> for Fault {
    fn from(_: ConfigFault) -> Fault {
        Fault::Event
    }
}

impl From<RunFault> for Fault {
    fn from(_: RunFault) -> Fault {
        Fault::Event
    }
}
