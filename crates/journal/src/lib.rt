//! What a script's host wrote, read off its messages and the replies, and whether what a device shows is what a
//! prefix of the commands that it accepted makes of what its life began with.
#![tactic(auto)]

mod bases;
mod entries;
mod found;
mod kept;
mod messages;
mod queries;
mod requests;
mod settings;
mod tasks;
mod unmaps;
mod writes;

pub use bases::device_holding;
pub use entries::{Entry, Setting};
pub use found::{FoundRegion, FoundRest};
pub use kept::{can_apply, is_kept};
pub use messages::{Journal, block_in};
pub use queries::settings_pass_the_table;
pub use unmaps::unmaps_are_those_accepted;
