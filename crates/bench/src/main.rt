//! Times FUA writes and reads of one block through the device's five calls, writes of the replay
//! protected memory block, scans of dies that are written in part, and one SHA-256 over a page, the
//! kit's and the device's own, in one run. It prints the times and their ratios on standard error. With
//! the word `lanes` it times instead a device and scans among threads. With the word `collection`
//! it counts what is programmed and hashed for each block that is written, once collections are
//! due. With the word `sizes` it times each of the five calls by itself, on a small device and on a
//! large one.
#![tactic(auto)]

mod clock;
mod collection;
mod frames;
mod groups;
mod scans;
mod sizes;
mod threads;

use crate::clock::{each, percent, since, time_check, time_hash};
use crate::collection::count_collections;
use crate::frames::time_requests;
use crate::groups::time_groups;
use crate::scans::time_scans;
use crate::sizes::time_sizes;
use crate::threads::time_threads;
use anyhow::{Result, bail, ensure};
use geometry::Config;
use std::alloc::Global;
use std::env;
use std::rt::Clock;
use std::time::Instant;
use ufs_spec::UnitSpec;
use workbench::messages::{FUA, READ, WRITE, block_out, command, good};
use workbench::{Workbench, new_dies};

/// How many blocks are written, read, and how many pages hashed.
const COUNT: u32 = 8192;

/// So many at a time, by turns with as many hashes: the machine's speed changes within a run.
const AT_A_TIME: u32 = 256;

const TIMES: u32 = COUNT / AT_A_TIME;

/// The dies' sizes.
const BLOCKS: u16 = 64;

const PAGES: u16 = 64;

/// A device over new dies in memory, with one unit of so many blocks.
fn open(alloc: Global) -> Result<Workbench> {
    let units = [UnitSpec {
        blocks: COUNT,
        boot: 0,
        protect: 0,
    }];
    let config = Config::new(4, BLOCKS, PAGES, &units, [1, 0, 0, 0], 64, 4)?;
    let dies = new_dies(alloc, 4, BLOCKS, PAGES)?;
    Ok(Workbench::new(alloc, config, dies)?)
}

/// A FUA write of one block: COMMAND, READY TO TRANSFER, DATA OUT, program, RESPONSE. Whether it is
/// GOOD.
fn write(bench: &mut Workbench, address: u32, out: &[u8; 4128]) -> bool {
    bench.send(&command(0, WRITE, FUA, address, 1)).is_ok()
        && bench.hear()
        && bench.send(out).is_ok()
        && is_good(bench, address)
}

/// A read of one block: COMMAND, die read, DATA IN, RESPONSE. Whether it is GOOD.
fn read(bench: &mut Workbench, address: u32) -> bool {
    bench.send(&command(0, READ, 0, address, 1)).is_ok()
        && bench.hear_after_work((address % 4) as u8)
        && bench.reply.len() == 4128
        && is_good(bench, address)
}

/// Whether GOOD comes, after as much work as it needs.
fn is_good(bench: &mut Workbench, address: u32) -> bool {
    bench.hear_after_work((address % 4) as u8) && bench.reply.as_slice() == good(0).as_slice()
}

/// Writes of one block, in nanoseconds together.
fn time_writes<R: Clock>(rt: &R, bench: &mut Workbench, first: u32) -> Result<u64> {
    let out = block_out(0, 0, 0x5A);
    let start = Instant::now(rt)?;
    for index in 0..AT_A_TIME {
        let address = first.saturating_add(index);
        ensure!(write(bench, address, &out), "a write was not GOOD");
    }
    since(rt, start)
}

/// Reads of one block, in nanoseconds together.
fn time_reads<R: Clock>(rt: &R, bench: &mut Workbench, first: u32) -> Result<u64> {
    let start = Instant::now(rt)?;
    for index in 0..AT_A_TIME {
        let address = first.saturating_add(index);
        ensure!(read(bench, address), "a read was not GOOD");
    }
    since(rt, start)
}

/// What was timed by turns, in nanoseconds for each: a block, and a hash.
#[derive(Clone, Copy)]
struct Timed {
    block: u64,
    hash: u64,
}

/// All writes, by turns with hashes.
fn time_all_writes<R: Clock>(rt: &R, bench: &mut Workbench) -> Result<Timed> {
    let mut blocks = 0u64;
    let mut hashes = 0u64;
    for time in 0..TIMES {
        blocks = blocks.saturating_add(time_writes(rt, bench, time * AT_A_TIME)?);
        hashes = hashes.saturating_add(time_hash(rt, AT_A_TIME)?);
    }
    Ok(Timed {
        block: each(blocks, COUNT),
        hash: each(hashes, TIMES),
    })
}

/// All reads, by turns with hashes.
fn time_all_reads<R: Clock>(rt: &R, bench: &mut Workbench) -> Result<Timed> {
    let mut blocks = 0u64;
    let mut hashes = 0u64;
    for time in 0..TIMES {
        blocks = blocks.saturating_add(time_reads(rt, bench, time * AT_A_TIME)?);
        hashes = hashes.saturating_add(time_hash(rt, AT_A_TIME)?);
    }
    Ok(Timed {
        block: each(blocks, COUNT),
        hash: each(hashes, TIMES),
    })
}

/// The device's own hashes of a page, by turns with the kit's.
fn time_checks<R: Clock>(rt: &R) -> Result<Timed> {
    let mut checks = 0u64;
    let mut hashes = 0u64;
    for _ in 0..TIMES {
        checks = checks.saturating_add(time_check(rt, AT_A_TIME)?);
        hashes = hashes.saturating_add(time_hash(rt, AT_A_TIME)?);
    }
    Ok(Timed {
        block: each(checks, TIMES),
        hash: each(hashes, TIMES),
    })
}

/// Prints what a block takes.
fn tell<R: Eprint>(rt: &R, what: &str, timed: Timed) -> Result<()> {
    let Timed { block, hash } = timed;
    let ratio = percent(block, hash);
    eprintln!(rt; "a {what} of one block: {block} ns")?;
    eprintln!(rt; "  to a hash of {hash} ns: {ratio} %")?;
    Ok(())
}

fn run<R: Clock + Eprint>(rt: &R, bench: &mut Workbench) -> Result<()> {
    let checks = time_checks(rt)?;
    tell(rt, "check", checks)?;
    let writes = time_all_writes(rt, bench)?;
    tell(rt, "FUA write", writes)?;
    let reads = time_all_reads(rt, bench)?;
    tell(rt, "read", reads)
}

/// Times writes and reads of one block.
fn time_calls<R: Clock + Eprint>(rt: &R, alloc: Global) -> Result<()> {
    let mut bench = open(alloc)?;
    bench.settle(4, 4);
    run(rt, &mut bench)
}

/// Times what this program times.
fn time_all(rt: &HostRuntime) -> Result<()> {
    time_calls(rt, rt.alloc())?;
    time_requests(rt, rt.alloc())?;
    time_groups(rt, rt.alloc())?;
    time_scans(rt, rt.alloc())
}

fn main(rt: HostRuntime) -> Result<()> {
    let words: Vec<String> = env::args(&rt)?.collect(rt.alloc())?;
    match words.as_slice() {
        [_] => time_all(&rt),
        [_, word] if word.as_str() == "lanes" => time_threads(&rt, rt.alloc()),
        [_, word] if word.as_str() == "collection" => count_collections(&rt, rt.alloc()),
        [_, word] if word.as_str() == "sizes" => time_sizes(&rt, rt.alloc()),
        _ => bail!("usage: bench [lanes | collection | sizes]"),
    }
}
