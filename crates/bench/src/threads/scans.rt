//! Scans of written dies by one to four workers.
use crate::clock::{a_second, percent, since};
use crate::threads::COUNT;
use crate::threads::hashes::hashed_a_second;
use anyhow::{Result, bail, ensure};
use geometry::Config;
use nand_model::MemDie;
use recovery::{fit, scan_parallel};
use std::alloc::Global;
use std::rt::Clock;
use std::thread::Threads;
use std::time::Instant;

/// How many written pages a scan by so many workers reads in a second.
fn scanned_a_second<R: Threads + Sync + Clock>(
    rt: &R,
    alloc: Global,
    config: &Config,
    dies: &mut [MemDie],
    workers: u8,
) -> Result<u64> {
    ensure!(fit(config, dies), "the dies do not fit");
    let start = Instant::now(rt)?;
    let Ok(found) = scan_parallel(rt, alloc, dies, config, usize::from(workers)) else {
        bail!("the scan was refused");
    };
    let scanned = since(rt, start)?;
    ensure!(found.kept == u64::from(COUNT), "not all groups were found");
    Ok(a_second(scanned, COUNT))
}

/// Times scans by one to four workers, beside as many threads that hash.
pub fn time_scans<R: Threads + Sync + Clock + Eprint>(
    rt: &R,
    alloc: Global,
    config: &Config,
    dies: &mut [MemDie],
) -> Result<()> {
    for workers in 1..=4u8 {
        let scanned = scanned_a_second(rt, alloc, config, dies, workers)?;
        let hashed = hashed_a_second(rt, alloc, workers)?;
        let to_hashed = percent(scanned, hashed);
        eprintln!(rt;
            "a scan by {workers} workers: {scanned} written pages a second, {hashed} hashed, {to_hashed} %"
        )?;
    }
    Ok(())
}
