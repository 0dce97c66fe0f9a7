//! Counts what a device programs and hashes for each block that a host writes again and again, and the
//! steps that a FUA write takes from its COMMAND to its GOOD.
use anyhow::Result;
use geometry::Config;
use nand_model::work;
use std::alloc::Global;
use std::rt::Clock;
use std::time::{Duration, Instant};
use ufs_spec::{Job, UnitSpec};
use workbench::messages::{FUA, WRITE, block_out, command};
use workbench::{Workbench, new_dies};

/// The numbers of a device, how large its unit is, in percent of the greatest that it may have, and how
/// often blocks are written again. The second half of these writes is counted.
#[derive(Clone, Copy)]
struct Shape {
    dies: u8,
    blocks: u16,
    pages: u16,
    slots: u16,
    spare: u16,
    percent: u8,
    count: u32,
}

/// How the unit is written again: which addresses, and whether the host waits until the device is at rest
/// after each write.
#[derive(Clone, Copy)]
struct Host {
    is_random: bool,
    is_patient: bool,
}

/// The small device, whose unit is filled as far as this.
fn small(percent: u8) -> Shape {
    Shape {
        dies: 4,
        blocks: 16,
        pages: 64,
        slots: 64,
        spare: 4,
        percent,
        count: 8192,
    }
}

/// A device of so many blocks of few pages, with so many slots, so many spare blocks and the greatest unit.
fn flat(blocks: u16, slots: u16, spare: u16) -> Shape {
    Shape {
        dies: 4,
        blocks,
        pages: 16,
        slots,
        spare,
        percent: 100,
        count: 4096,
    }
}

/// After so many rounds of a turn and a job of each die a write counts as never answered.
const ROUNDS: u32 = 20_000;

/// A device, and what was counted.
#[derive(Drop)]
struct Counted {
    bench: Workbench,
    dies: u8,
    /// The die that is asked first in the next round.
    first: u8,
    dice: u32,
    programs: u64,
    /// Pages programmed and pages read: each takes one SHA-256.
    hashes: u64,
    /// Turns that answered true.
    turns: u64,
    /// These, jobs taken, and jobs done.
    steps: u64,
    longest: u64,
    slowest: Duration,
}

/// The blocks of the greatest unit, with 128 KiB for RPMB, and of this one.
fn unit_of(shape: Shape) -> u32 {
    let all = u32::from(shape.dies) * u32::from(shape.blocks);
    let kept = u32::from(shape.spare) + 4 * u32::from(shape.dies) + 8;
    let pages = all
        .saturating_sub(kept)
        .saturating_mul(u32::from(shape.pages));
    let greatest = pages.saturating_sub(4 * u32::from(shape.slots) + 34);
    greatest.saturating_mul(u32::from(shape.percent)) / 100
}

fn open(alloc: Global, shape: Shape, blocks: u32) -> Result<Counted> {
    let units = [UnitSpec {
        blocks,
        boot: 0,
        protect: 0,
    }];
    let config = Config::new(
        shape.dies,
        shape.blocks,
        shape.pages,
        &units,
        [1, 0, 0, 0],
        shape.slots,
        shape.spare,
    )?;
    let dies = new_dies(alloc, shape.dies, shape.blocks, shape.pages)?;
    Ok(Counted {
        bench: Workbench::new(alloc, config, dies)?,
        dies: shape.dies,
        first: 0,
        dice: 1,
        programs: 0,
        hashes: 0,
        turns: 0,
        steps: 0,
        longest: 0,
        slowest: Duration::ZERO,
    })
}

impl Counted {
    /// One job of the die; false if it is owed none.
    fn work(&mut self, die: u8) -> bool {
        match &self.bench.device.take(die) {
            Some(job) => self.end(die, job),
            None => false,
        }
    }

    /// Counts the job, does it and tells the device.
    fn end(&mut self, die: u8, job: &Job) -> bool {
        match job {
            Job::Program(..) => {
                self.programs = self.programs.saturating_add(1);
                self.hashes = self.hashes.saturating_add(1);
            }
            Job::Read(..) => self.hashes = self.hashes.saturating_add(1),
            Job::Erase { .. } => {}
        }
        self.steps = self.steps.saturating_add(2);
        let index = usize::from(die);
        if index >= self.bench.dies.len() || !self.bench.dies[index].can_do(job) {
            return false;
        }
        let outcome = work(&mut self.bench.dies[index], job);
        self.bench.device.done(die, &outcome)
    }

    /// A turn, and a job of each die; false if there was nothing to do.
    fn round<R: Clock>(&mut self, rt: &R) -> Result<bool> {
        let start = Instant::now(rt)?;
        let mut has_worked = self.bench.device.turn();
        self.slowest = self.slowest.max(start.elapsed(rt)?);
        if has_worked {
            self.turns = self.turns.saturating_add(1);
            self.steps = self.steps.saturating_add(1);
        }
        for step in 0..self.dies {
            let die = (u16::from(self.first) + u16::from(step)) % u16::from(self.dies.max(1));
            has_worked |= self.work(die as u8);
        }
        self.first = self.first.wrapping_add(1) % self.dies.max(1);
        Ok(has_worked)
    }

    /// Rounds until there is nothing to do.
    fn rest<R: Clock>(&mut self, rt: &R) -> Result<()> {
        for _ in 0..ROUNDS {
            if !self.round(rt)? {
                return Ok(());
            }
        }
        Ok(())
    }

    /// A FUA write of one block, up to its data: whether the device takes it.
    fn begin(&mut self, address: u32, out: &[u8; 4128]) -> bool {
        self.turns = 0;
        self.bench.send(&command(0, WRITE, FUA, address, 1)).is_ok()
            && self.bench.hear()
            && self.bench.send(out).is_ok()
    }

    /// A FUA write of one block; false if it was not answered.
    fn write<R: Clock>(&mut self, rt: &R, address: u32, out: &[u8; 4128]) -> Result<bool> {
        let before = self.steps;
        if !self.begin(address, out) {
            return Ok(false);
        }
        for _ in 0..ROUNDS {
            if self.bench.hear() {
                self.longest = self.longest.max(self.steps.saturating_sub(before));
                return Ok(self.bench.reply.get(7).copied() == Some(0));
            }
            self.round(rt)?;
        }
        Ok(false)
    }

    /// The next address that is written again.
    fn address(&mut self, host: Host, count: u32, unit: u32) -> u32 {
        self.dice = self
            .dice
            .wrapping_mul(1_664_525)
            .wrapping_add(1_013_904_223);
        let next = if host.is_random {
            self.dice >> 8
        } else {
            count
        };
        next % unit.max(1)
    }

    /// Nothing is counted yet.
    fn forget(&mut self) {
        self.programs = 0;
        self.hashes = 0;
        self.longest = 0;
    }
}

/// Writes the unit in order, and then so many blocks of it again; how many before one that was not
/// answered, if one was not.
fn play<R: Clock>(
    rt: &R,
    all: &mut Counted,
    host: Host,
    unit: u32,
    often: u32,
) -> Result<Option<u32>> {
    let out = block_out(0, 0, 0x5A);
    all.rest(rt)?;
    for address in 0..unit {
        if !all.write(rt, address, &out)? {
            return Ok(Some(0));
        }
    }
    for count in 0..often {
        if count == often / 2 {
            all.forget();
        }
        let address = all.address(host, count, unit);
        if !all.write(rt, address, &out)? {
            return Ok(Some(count));
        }
        if host.is_patient {
            all.rest(rt)?;
        }
    }
    Ok(None)
}

/// So many pages for a thousand blocks written, of half so many that were written again.
fn for_a_thousand(pages: u64, often: u32) -> u64 {
    pages.saturating_mul(1000) / u64::from((often / 2).max(1))
}

/// Prints what was counted.
fn tell<R: Eprint>(rt: &R, all: &Counted, often: u32, unanswered: Option<u32>) -> Result<()> {
    if let Some(count) = unanswered {
        let turns = all.turns;
        eprintln!(rt;
            "  write {count} was not answered in {ROUNDS} rounds, {turns} turns of which answered yes"
        )?;
        return Ok(());
    }
    let programs = for_a_thousand(all.programs, often);
    let hashes = for_a_thousand(all.hashes, often);
    let longest = all.longest;
    let slowest = all.slowest.as_micros();
    eprintln!(rt; "  {programs} programs and {hashes} hashes for 1000 writes")?;
    eprintln!(rt; "  at most {longest} steps for a write, and {slowest} us for a turn")?;
    Ok(())
}

/// Prints which device it is, and how its unit is written.
fn tell_row<R: Eprint>(rt: &R, shape: Shape, host: Host, unit: u32) -> Result<()> {
    let dies = shape.dies;
    let blocks = shape.blocks;
    let pages = shape.pages;
    let slots = shape.slots;
    let order = if host.is_random {
        "at random"
    } else {
        "in order"
    };
    let manner = if host.is_patient {
        "a rest after each"
    } else {
        "no rest"
    };
    eprintln!(rt;
        "{dies} x {blocks} x {pages}, {slots} slots, a unit of {unit}, writes {order}, {manner}:"
    )?;
    Ok(())
}

/// Counts for a device and a way of writing.
fn count_row<R: Clock + Eprint>(rt: &R, alloc: Global, shape: Shape, host: Host) -> Result<()> {
    let unit = unit_of(shape);
    tell_row(rt, shape, host, unit)?;
    let mut all = open(alloc, shape, unit)?;
    let unanswered = play(rt, &mut all, host, unit, shape.count)?;
    tell(rt, &all, shape.count, unanswered)
}

/// Counts for the small device, filled so far.
fn count_small<R: Clock + Eprint>(rt: &R, alloc: Global, percent: u8) -> Result<()> {
    for number in 0..4u8 {
        let host = Host {
            is_random: number % 2 == 1,
            is_patient: number < 2,
        };
        count_row(rt, alloc, small(percent), host)?;
    }
    Ok(())
}

/// Counts for each device and each way of writing.
pub fn count_collections<R: Clock + Eprint>(rt: &R, alloc: Global) -> Result<()> {
    count_small(rt, alloc, 50)?;
    count_small(rt, alloc, 80)?;
    count_small(rt, alloc, 95)?;
    let host = Host {
        is_random: true,
        is_patient: false,
    };
    count_row(rt, alloc, flat(64, 64, 0), host)?;
    count_row(rt, alloc, flat(256, 64, 4), host)?;
    count_row(rt, alloc, flat(256, 288, 4), host)
}
