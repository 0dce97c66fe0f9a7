//! SHA-256 alone, on several threads.
use crate::clock::{a_second, hash_pages, since};
use crate::threads::COUNT;
use anyhow::{Result, ensure};
use std::alloc::Global;
use std::rt::Clock;
use std::thread::{Threads, map_indices};
use std::time::Instant;

/// How many pages so many threads hash in a second.
pub fn hashed_a_second<R: Threads + Sync + Clock>(
    rt: &R,
    alloc: Global,
    threads: u8,
) -> Result<u64> {
    let hash = |_: usize| -> u64 { hash_pages(COUNT) };
    let start = Instant::now(rt)?;
    let all = map_indices(rt, alloc, usize::from(threads), &hash)?;
    let total = since(rt, start)?;
    ensure!(all.iter().any(|sum| *sum > 0), "no hash was made");
    Ok(a_second(total, COUNT.saturating_mul(u32::from(threads))))
}
