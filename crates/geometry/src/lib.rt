//! What the numbers of a device determine: which numbers are a configuration, and the order of its keys.
#![tactic(auto)]

mod configs;
mod keys;
mod laws;

pub use configs::{Config, command_blocks};
pub use keys::{key_at, key_count, key_index, settings_index};
pub use laws::a_profile_is_0_or_1;
