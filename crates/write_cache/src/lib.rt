//! The write cache: the slots of pages that are accepted and not durable yet, and the numbers of their groups.
#![tactic(auto)]

mod cache;
mod claims;
mod pages;
mod rests;
mod slots;

pub use cache::Cache;
pub use rests::{NewPage, OwedSource, Part, Rest, RestSource};
pub use slots::{Claimed, Landed, Pending, WholeGroup, key_at};
