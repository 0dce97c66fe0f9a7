//! The words in which the device is described: its types, each declared once, and their definitions.
//! Section numbers are those of JESD220 (UFS), SPC and SBC.
#![tactic(auto)]

pub mod codes;
mod commands;
mod configs;
mod events;
mod exchanges;
mod faults;
mod flash;
mod layer;
mod messages;
pub mod operations;
mod parameters;
mod plain_device;
mod scsi;
mod volatile;

pub use codes::{GREATEST_COMMAND, MOST_SHORT_EXCHANGES, MOST_TASKS, REGIONS};
pub use commands::Cmd;
pub use configs::{Numbers, UnitSpec};
pub use events::{Event, Leftover, Output, RunFault, RunFaultKind, Trace};
pub use exchanges::{Purpose, ReadState, Status};
pub use faults::{ConfigFault, HostFault, NoMemory, OpenFault};
pub use flash::{
    Fence, GREATEST_GROUP, GREATEST_NUMBER, Job, Key, KeyAndCounter, Opened, Outcome, Page, Place,
    Tag,
};
pub use layer::{Looked, Name, Reader};
pub use messages::{Asked, Data, Message};
pub use operations::{COMMANDS, Fields, Kind, Layout, Row, Takers, Told};
pub use parameters::{Access, Class, Indexes, PARAMETERS, Parameter};
pub use plain_device::{PlainDevice, after_joined_commands, commands_keep_the_shape};
pub use scsi::{Cdb, Sense};
pub use ufs_bytes::{Block, Upiu, read_u16, read_u32, read_u64, write_u16, write_u32, write_u64};
pub use volatile::Volatile;
