//! Times a device of one to four lanes with as many hosts, each in a thread of its own, and scans
//! by one to four workers, beside SHA-256 alone on as many threads in the same run; and how long
//! the core is held for a block.
mod hashes;
mod held;
mod host;
mod scans;
mod served;

use crate::threads::held::time_held;
use crate::threads::served::time_lanes;
use anyhow::Result;
use std::alloc::Global;
use std::rt::Clock;
use std::sync::Wait;
use std::thread::Threads;

/// How many blocks are written and read, and how many pages a thread hashes.
pub(crate) const COUNT: u32 = 4096;

/// Times lanes, and then for how long the core is held.
pub fn time_threads<R: Threads + Wait + Sync + Clock + Eprint>(
    rt: &R,
    alloc: Global,
) -> Result<()> {
    for lanes in 1..=4u8 {
        time_lanes(rt, alloc, lanes)?;
    }
    time_held(rt, alloc)
}
