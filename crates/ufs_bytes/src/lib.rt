//! The bytes of a device: a block, a block that stays where it is, the bytes of a UPIU, and numbers inside a row of bytes.
#![tactic(auto)]

mod body;
mod fields;
mod laws;

pub use body::Body;
pub use fields::{Block, Upiu, read_u16, read_u32, read_u64, write_u16, write_u32, write_u64};
pub use laws::{u16_is_read_again, u32_is_read_again, u64_is_read_again};
