//! Why a call is refused. The numbers are what a script prints.
use crate::flash::Place;
use std::alloc::AllocError;
use thiserror::Error;

/// Memory was refused.
#[derive(Clone, Copy, Debug, Error, PartialEq, Eq)]
#[error("out of memory")]
pub struct NoMemory;

impl From<AllocError> for NoMemory {
    fn from(_: AllocError) -> NoMemory {
        NoMemory
    }
}

/// Why numbers are no configuration.
#[derive(Clone, Copy, Debug, Error, PartialEq, Eq)]
pub enum ConfigFault {
    #[error("a number of the configuration is out of its range")]
    Range = 1,
    #[error("the units, the RPMB area and the slots need more blocks than the dies have beside the spare ones")]
    TooLittleSpare = 2,
    #[error("two units have the same boot number")]
    TwoBootUnits = 3,
}

/// Why a message is not taken. The lowest that applies is told (JESD220, 10.5 and 10.6).
#[derive(Clone, Copy, Debug, Error, PartialEq, Eq)]
pub enum HostFault {
    #[error("the message has fewer than 32 bytes")]
    Short = 1,
    #[error("the data segment's length is wrong for the message's kind or for its bytes")]
    Length = 2,
    #[error("a digest is asked for, which this device does not have")]
    Digest = 3,
    #[error("the message has an extra header segment, which this device does not have")]
    Ehs = 4,
    #[error("no message of a host has this transaction code")]
    Code = 5,
    #[error("a reserved byte or bit is set, or a field is outside its set")]
    Reserved = 6,
    #[error("the task tag is in use")]
    TagInUse = 7,
    #[error("no data with this tag, LUN, offset and count were asked for")]
    NotAskedFor = 8,
    #[error("32 short exchanges are open")]
    Backlog = 9,
}

/// Why a device does not open.
#[derive(Clone, Copy, Debug, Error, PartialEq, Eq)]
pub enum OpenFault {
    #[error("out of memory")]
    NoMemory,
    #[error("the read of a page failed")]
    ReadFault(Place),
    #[error("the dies hold another configuration")]
    OtherConfig,
}
