//! What was timed, in numbers.
use anyhow::Result;
use sha2::{Digest, Sha256};
use sha256_lanes::OneHash;
use std::rt::Clock;
use std::time::Instant;

/// So many times one SHA-256 over the 4160 bytes of a page that its check covers.
pub fn hash_pages(count: u32) -> u64 {
    let page = [0x5Au8; 4160];
    let mut all = 0u64;
    for _ in 0..count {
        let mut hasher = Sha256::new();
        hasher.update(&page);
        let digest: [u8; 32] = hasher.finalize();
        all = all.wrapping_add(digest[0] as u64);
    }
    all
}

/// The same by the SHA-256 that a device checks its pages with.
fn check_pages(count: u32) -> u64 {
    let body = [0x5Au8; 4096];
    let front = [0x5Au8; 64];
    let mut all = 0u64;
    for _ in 0..count {
        let mut hash = OneHash::new();
        hash.update(&body);
        let digest = hash.finish(&front);
        all = all.wrapping_add(digest[0] as u64);
    }
    all
}

/// Nanoseconds since then, at least one.
pub fn since<R: Clock>(rt: &R, start: Instant) -> Result<u64> {
    let passed = start.elapsed(rt)?.as_nanos().min(u64::MAX as u128) as u64;
    Ok(passed.max(1))
}

/// How many a second, if so many took this time in nanoseconds together.
pub fn a_second(total: u64, count: u32) -> u64 {
    u64::from(count).saturating_mul(1_000_000_000) / total.max(1)
}

/// The first in percent of the second.
pub fn percent(one: u64, other: u64) -> u64 {
    one.saturating_mul(100) / other.max(1)
}

/// Nanoseconds for each of so many.
pub fn each(total: u64, count: u32) -> u64 {
    total / u64::from(count.max(1))
}

/// What a hash takes now, in nanoseconds, by so many hashes: the machine's speed changes within a run.
pub fn time_hash<R: Clock>(rt: &R, count: u32) -> Result<u64> {
    let start = Instant::now(rt)?;
    let all = hash_pages(count);
    let hash = each(since(rt, start)?, count);
    // The sum is used, so that the hashes are made.
    Ok(if all > 0 { hash } else { 0 })
}

/// The same of the SHA-256 that a device checks its pages with.
pub fn time_check<R: Clock>(rt: &R, count: u32) -> Result<u64> {
    let start = Instant::now(rt)?;
    let all = check_pages(count);
    let check = each(since(rt, start)?, count);
    Ok(if all > 0 { check } else { 0 })
}
