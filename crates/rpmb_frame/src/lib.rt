//! The frames of the replay protected memory block, 512 bytes each, and their MAC (JESD220, 12.4).
#![tactic(auto)]

pub mod codes;
mod frames;
mod macs;

pub use frames::{Frame, covered};
pub use macs::frames_mac;
