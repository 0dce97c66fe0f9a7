//! How long the core is held for a block: the time within the device's calls as lanes and ports make them,
//! without the hashes, which lanes make while the core is in its slot.
use crate::clock::{each, percent, since};
use crate::threads::COUNT;
use crate::threads::hashes::hashed_a_second;
use crate::threads::scans::time_scans;
use anyhow::{Result, ensure};
use geometry::Config;
use nand_model::work;
use page_tag::tag_read;
use std::alloc::Global;
use std::rt::Clock;
use std::thread::Threads;
use std::time::Instant;
use ufs_spec::{ConfigFault, UnitSpec};
use workbench::messages::{FUA, READ, WRITE, block_out, command};
use workbench::{Workbench, new_dies};

/// The dies' sizes.
const BLOCKS: u16 = 64;

const PAGES: u16 = 64;

/// A device, and for how many nanoseconds and in how many calls the core was held.
#[derive(Drop)]
struct Bench {
    bench: Workbench,
    held: u64,
    calls: u32,
}

/// Four dies with room for the blocks twice.
fn config() -> Result<Config, ConfigFault> {
    let units = [UnitSpec {
        blocks: COUNT,
        boot: 0,
        protect: 0,
    }];
    Config::new(4, BLOCKS, PAGES, &units, [1, 0, 0, 0], 64, 4)
}

/// A device over four new dies.
fn open(alloc: Global) -> Result<Bench> {
    let config = config()?;
    let dies = new_dies(alloc, 4, BLOCKS, PAGES)?;
    Ok(Bench {
        bench: Workbench::new(alloc, config, dies)?,
        held: 0,
        calls: 0,
    })
}

impl Bench {
    /// A call has held the core since then.
    fn count<R: Clock>(&mut self, rt: &R, start: Instant) -> Result<()> {
        self.held = self.held.saturating_add(since(rt, start)?);
        self.calls = self.calls.saturating_add(1);
        Ok(())
    }

    /// Hands the device a message: whether it takes it.
    fn sends<R: Clock>(&mut self, rt: &R, message: &[u8]) -> Result<bool> {
        let start = Instant::now(rt)?;
        let is_heard = self.bench.send(message).is_ok();
        self.count(rt, start)?;
        Ok(is_heard)
    }

    /// Takes the reply that is due, if one is.
    fn hears<R: Clock>(&mut self, rt: &R) -> Result<bool> {
        let start = Instant::now(rt)?;
        let is_due = self.bench.hear();
        self.count(rt, start)?;
        Ok(is_due)
    }

    /// One job of the die, if it is owed one.
    fn work<R: Clock>(&mut self, rt: &R, die: u8) -> Result<()> {
        let start = Instant::now(rt)?;
        let job = self.bench.device.take_unsealed(die);
        self.count(rt, start)?;
        let Some(job) = job else {
            return Ok(());
        };
        let job = job.sealed();
        let index = usize::from(die);
        if index >= self.bench.dies.len() || !self.bench.dies[index].can_do(&job) {
            return Ok(());
        }
        let outcome = work(&mut self.bench.dies[index], &job);
        let tag = tag_read(&outcome);
        let start = Instant::now(rt)?;
        self.bench.device.done_opened(die, &outcome, &tag);
        self.count(rt, start)
    }

    /// A reply, after one or two jobs of the die: the first page of a block needs an erase too.
    fn hears_after_work<R: Clock>(&mut self, rt: &R, die: u8) -> Result<bool> {
        self.work(rt, die)?;
        if self.hears(rt)? {
            return Ok(true);
        }
        self.work(rt, die)?;
        self.hears(rt)
    }

    /// A FUA write of one block, by one of the dies: whether it is GOOD.
    fn writes<R: Clock>(&mut self, rt: &R, address: u32, out: &[u8; 4128]) -> Result<bool> {
        let is_begun = self.sends(rt, &command(0, WRITE, FUA, address, 1))?
            && self.hears(rt)?
            && self.sends(rt, out)?;
        let is_heard = self.hears_after_work(rt, (address % 4) as u8)?;
        Ok(is_begun && is_heard && self.bench.reply.get(7).copied() == Some(0))
    }

    /// A read of one block: whether it is GOOD.
    fn reads<R: Clock>(&mut self, rt: &R, address: u32) -> Result<bool> {
        let is_begun = self.sends(rt, &command(0, READ, 0, address, 1))?;
        let is_heard = self.hears_after_work(rt, (address % 4) as u8)? && self.hears(rt)?;
        Ok(is_begun && is_heard && self.bench.reply.get(7).copied() == Some(0))
    }

    /// The core was held so long for each block since the last call of this; the clock's own time of so many
    /// nanoseconds a call is taken off.
    fn held_for_each(&mut self, clock: u64) -> u64 {
        let own = clock.saturating_mul(u64::from(self.calls));
        let held = self.held.saturating_sub(own);
        self.held = 0;
        self.calls = 0;
        each(held, COUNT)
    }
}

/// What the clock itself takes, in nanoseconds for each time that is taken.
fn time_clock<R: Clock>(rt: &R) -> Result<u64> {
    let mut all = 0u64;
    for _ in 0..COUNT {
        let start = Instant::now(rt)?;
        all = all.saturating_add(since(rt, start)?);
    }
    Ok(each(all, COUNT))
}

/// For how long the core is held for a block that is written, and for one that is read.
fn measure<R: Clock>(rt: &R, bench: &mut Bench) -> Result<(u64, u64)> {
    bench.bench.settle(4, 4);
    let clock = time_clock(rt)?;
    let out = block_out(0, 0, 0x5A);
    for address in 0..COUNT {
        ensure!(bench.writes(rt, address, &out)?, "a write was not GOOD");
    }
    let written = bench.held_for_each(clock);
    for address in 0..COUNT {
        ensure!(bench.reads(rt, address)?, "a read was not GOOD");
    }
    Ok((written, bench.held_for_each(clock)))
}

/// Prints for how many nanoseconds the core was held for a block written and for one read.
fn tell_held<R: Threads + Sync + Clock + Eprint>(
    rt: &R,
    alloc: Global,
    written: u64,
    read: u64,
) -> Result<()> {
    let hash = 1_000_000_000 / hashed_a_second(rt, alloc, 1)?.max(1);
    let written_percent = percent(written, hash);
    let read_percent = percent(read, hash);
    eprintln!(rt; "the core is held {written} ns for a block written, {read} ns for one read")?;
    eprintln!(rt; "  to a hash of {hash} ns: {written_percent} %, {read_percent} %")?;
    Ok(())
}

/// Times for how long the core is held, and then scans of the written dies.
pub fn time_held<R: Threads + Sync + Clock + Eprint>(rt: &R, alloc: Global) -> Result<()> {
    let config = config()?;
    let mut bench = open(alloc)?;
    let (written, read) = measure(rt, &mut bench)?;
    tell_held(rt, alloc, written, read)?;
    time_scans(rt, alloc, &config, bench.bench.dies.as_mut_slice())
}
