//! What the tests and the programs of a device say to it: the configuration of the worked rows and two small
//! ones, and the messages of a host, as the standards lay them out. Nothing here needs a device.
#![tactic(auto)]

mod config;
pub mod frames;
pub mod messages;

pub use config::{row_config, small_config, spared_config};
