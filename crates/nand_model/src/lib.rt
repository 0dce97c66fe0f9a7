//! Flash dies: what the device asks of one, and one that keeps its pages in memory.
#![tactic(auto)]

mod die;
mod mem_die;
mod works;

pub use die::{Die, DieFault};
pub use mem_die::MemDie;
pub use ufs_spec::{Job, Outcome, Page, Place};
pub use works::work;
