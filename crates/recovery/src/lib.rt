//! Reads all pages of the dies and says what they stand for.
#![tactic(auto)]

mod blocks;
mod found;
mod free;
mod kept;
mod keys;
mod outside;
mod pages;
mod reading;
mod settings_found;
mod sizes;
mod workers;

pub use blocks::bad_blocks;
pub use found::{Found, scan};
pub use keys::FoundBlock;
pub use pages::FoundPage;
pub use sizes::fit;
pub use workers::scan_parallel;
