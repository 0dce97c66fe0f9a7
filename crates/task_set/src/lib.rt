//! The tasks as they are read off the exchange between a host and a device: the open tasks and what each
//! still owes its host, the exchanges of one reply, and the tags that are in use (JESD220, 10.9).
#![tactic(auto)]

mod frames;
mod open_task;
mod set;
mod tasks;

pub use frames::{AreaPart, AreaReading, Frames};
pub use set::TaskSet;
pub use tasks::{
    AskedFor, BLOCK_BYTES, ComparedWith, Comparing, Meant, Phase, Queried, Sending, Short,
    ShortReply, Task, TaskEvent, Verifying, Wanted,
};
