//! The MAC of the replay protected memory block: HMAC with SHA-256 (JESD220, 12.4; RFC 2104;
//! FIPS 180-4).
#![tactic(auto)]

mod keys;
mod macs;
mod same;

pub use macs::{Hmac, mac};
pub use same::same_mac;
