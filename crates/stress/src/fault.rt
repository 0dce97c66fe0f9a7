//! Why there is no line to print.
use std::alloc::{AllocError, AllocFailed};
use std::io;
use thiserror::Error;
use ufs_spec::{ConfigFault, NoMemory, OpenFault};

/// Why a run ends with no line, as the program prints it after its name.
#[derive(Clone, Copy, Debug, Error)]
pub enum StressFault {
    /// No device has so many dies.
    #[error("config")]
    Config,
    /// Memory was refused.
    #[error("memory")]
    Memory,
    /// A thread could not be started.
    #[error("thread")]
    Thread,
    /// A write of the output failed.
    #[error("output")]
    Output,
}

impl From<AllocError> for StressFault {
    fn from(_: AllocError) -> StressFault {
        StressFault::Memory
    }
}

// What was to be added to a list that could not grow is let go.
impl<T: Drop> From<AllocFailed<T>> for StressFault {
    fn from(_: AllocFailed<T>) -> StressFault {
        StressFault::Memory
    }
}

impl From<NoMemory> for StressFault {
    fn from(_: NoMemory) -> StressFault {
        StressFault::Memory
    }
}

impl From<ConfigFault> for StressFault {
    fn from(_: ConfigFault) -> StressFault {
        StressFault::Config
    }
}

// Over new dies nothing but memory can be refused.
impl From<OpenFault> for StressFault {
    fn from(_: OpenFault) -> StressFault {
        StressFault::Memory
    }
}

impl From<io::Error> for StressFault {
    fn from(_: io::Error) -> StressFault {
        StressFault::Output
    }
}
