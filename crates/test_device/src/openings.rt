//! Dies as stops leave them, scanned and opened by several threads.
use crate::dies::row;
use crate::mendings::{data, expect_mended, marked_dies, put};
use device::Device;
use geometry::Config;
use lanes::open_parallel;
use nand_model::MemDie;
use recovery::{Found, fit, scan, scan_parallel};
use std::alloc::Global;
use std::process::Abort;
use std::thread::Threads;
use ufs_spec::{NoMemory, Page, Upiu};
use workbench::Workbench;

/// How many workers the dies of a test are scanned and opened by.
const WORKERS: [usize; 5] = [0, 1, 2, 3, 8];

/// A page whose check does not match.
fn torn() -> Page {
    let mut page = data(1, 2, 0x22);
    page.body[0] = 0;
    page
}

/// Three groups of a block each were written; the pages of 1 and 3 stand, and a stop tore that of 2.
fn dies_with_a_gap(rt: &impl Abort, alloc: Global) -> Vec<MemDie> {
    let mut dies = marked_dies(rt, alloc);
    put(rt, dies.as_mut_slice(), 0, 1, &data(0, 1, 0x11));
    put(rt, dies.as_mut_slice(), 1, 0, &torn());
    put(rt, dies.as_mut_slice(), 2, 0, &data(2, 3, 0x33));
    dies
}

/// The number of the newest mark; 0 without one.
fn newest_number(found: &Found) -> u64 {
    match &found.newest {
        Some(mark) => mark.number,
        None => 0,
    }
}

/// Whether both tell the same numbers, contents, lost keys and blocks, and marks of one number.
fn are_same(one: &Found, other: &Found) -> bool {
    let numbers = (one.kept, one.greatest_seen, one.first_lost);
    numbers == (other.kept, other.greatest_seen, other.first_lost)
        && newest_number(one) == newest_number(other)
        && one.contents.as_slice() == other.contents.as_slice()
        && one.lost.as_slice() == other.lost.as_slice()
        && one.blocks.as_slice() == other.blocks.as_slice()
        && one.settings == other.settings
}

/// What dies that fit stand for, read by the caller alone.
fn found_by_one(rt: &impl Abort, alloc: Global, config: &Config, dies: &mut [MemDie]) -> Found {
    assert!(rt; fit(config, dies));
    scan(alloc, dies, config).expect(rt, "the dies are scanned")
}

/// The same, read by so many workers.
fn found_by<R: Threads + Abort + Sync>(
    rt: &R,
    alloc: Global,
    config: &Config,
    dies: &mut [MemDie],
    workers: usize,
) -> Found {
    assert!(rt; fit(config, dies));
    scan_parallel(rt, alloc, dies, config, workers).expect(rt, "the dies are scanned")
}

/// A scan by so many workers tells what the caller's tells.
fn expect_scans_agree<R: Threads + Abort + Sync>(
    rt: &R,
    alloc: Global,
    dies: &mut [MemDie],
    workers: usize,
) {
    let config = row(rt);
    let one = found_by_one(rt, alloc, &config, dies);
    let other = found_by(rt, alloc, &config, dies, workers);
    assert!(rt; are_same(&one, &other));
}

/// A device over dies that fit, which so many workers read.
fn device_of<R: Threads + Abort + Sync>(
    rt: &R,
    alloc: Global,
    config: Config,
    dies: &mut [MemDie],
    workers: usize,
) -> Device {
    assert!(rt; fit(&config, dies));
    open_parallel(rt, alloc, config, dies, workers).expect(rt, "the dies are opened")
}

/// A workbench with such a device and its dies.
pub(crate) fn opened_by<R: Threads + Abort + Sync>(
    rt: &R,
    alloc: Global,
    config: Config,
    mut dies: Vec<MemDie>,
    workers: usize,
) -> Workbench {
    let device = device_of(rt, alloc, config, dies.as_mut_slice(), workers);
    Workbench {
        device: Box::new(alloc, device)
            .map_err(|_| NoMemory)
            .expect(rt, "memory"),
        dies,
        reply: Upiu::new(),
    }
}

/// A scan by several threads tells what the caller's tells. The gap is mended the same, however many threads have
/// read the dies: address 0 keeps its block, and addresses 1 and 2 read as zeros.
#[test]
fn a_gap_is_mended_after_threads_read_the_dies(rt: HostRuntime) {
    for workers in WORKERS {
        let mut dies = dies_with_a_gap(&rt, rt.alloc());
        expect_scans_agree(&rt, rt.alloc(), dies.as_mut_slice(), workers);
        let mut bench = opened_by(&rt, rt.alloc(), row(&rt), dies, workers);
        expect_mended(&rt, &mut bench, 3, &[(0, 0x11), (1, 0), (2, 0)]);
        drop(bench);
    }
}
