//! Times commands of 32 blocks, UNMAP too, and 32 tasks at once: on a small device and on a large one, with few slots
//! and with many. With many slots it times commands of 128 blocks too.
use crate::clock::{each, percent, since, time_hash};
use anyhow::{Result, ensure};
use geometry::Config;
use std::alloc::Global;
use std::rt::Clock;
use std::time::Instant;
use ufs_spec::UnitSpec;
use workbench::messages::{FUA, READ, SYNCHRONIZE, WRITE, block_out, command, unmap, unmap_list};
use workbench::{Workbench, new_dies};

/// How many blocks a command has that any device takes, and one for which a device needs many slots.
const SHORT: u16 = 32;

const LONG: u16 = 128;

/// How many commands of each kind make a row, and how many blocks that are.
const SHORT_COMMANDS: u32 = 64;

const LONG_COMMANDS: u32 = 16;

const COUNT: u32 = 2048;

/// A device with so many slots takes commands of 128 blocks.
const MANY_SLOTS: u16 = 256;

/// The sizes of a device: its dies, their blocks and pages, and its slots.
#[derive(Clone, Copy)]
struct Shape {
    dies: u8,
    blocks: u16,
    pages: u16,
    slots: u16,
}

const SHAPES: [Shape; 4] = [
    Shape {
        dies: 4,
        blocks: 16,
        pages: 256,
        slots: 64,
    },
    Shape {
        dies: 4,
        blocks: 16,
        pages: 256,
        slots: 1024,
    },
    Shape {
        dies: 8,
        blocks: 1024,
        pages: 16,
        slots: 64,
    },
    Shape {
        dies: 8,
        blocks: 1024,
        pages: 16,
        slots: 1024,
    },
];

/// A device of these sizes over new dies, with one unit.
fn open(alloc: Global, shape: Shape) -> Result<Workbench> {
    let units = [UnitSpec {
        blocks: COUNT,
        boot: 0,
        protect: 0,
    }];
    let config = Config::new(
        shape.dies,
        shape.blocks,
        shape.pages,
        &units,
        [1, 0, 0, 0],
        shape.slots,
        4,
    )?;
    let dies = new_dies(alloc, shape.dies, shape.blocks, shape.pages)?;
    Ok(Workbench::new(alloc, config, dies)?)
}

/// Takes a reply after as much work of all dies as it needs; false where none came.
fn hear_working(bench: &mut Workbench, dies: u8) -> bool {
    for _ in 0..200u8 {
        if bench.hear() {
            return true;
        }
        for die in 0..dies {
            bench.work(die);
        }
    }
    false
}

/// Whether GOOD comes, after as much work as it needs.
fn is_good(bench: &mut Workbench, dies: u8) -> bool {
    hear_working(bench, dies) && bench.reply.get(7).copied() == Some(0)
}

/// The data of a write, each block as soon as it is asked for: whether all were.
fn send_blocks(bench: &mut Workbench, out: &mut [u8; 4128], blocks: u16) -> bool {
    for block in 0..blocks {
        if !bench.hear() {
            return false;
        }
        out[3] = bench.reply.get(3).copied().unwrap_or(0);
        out[12..16].copy_from_slice(&(block as u32 * 4096).to_be_bytes());
        if bench.send(out).is_err() {
            return false;
        }
    }
    true
}

/// Commands of equal length, one after another, each of which begins behind the one before it.
#[derive(Clone, Copy)]
struct Commands {
    /// How many there are, and how many blocks each has.
    count: u32,
    blocks: u16,
    /// How many dies work for their answers.
    dies: u8,
}

impl Commands {
    /// The address of the command with this number.
    fn address(&self, index: u32) -> u32 {
        index.saturating_mul(u32::from(self.blocks))
    }
}

/// These WRITE(10).
fn write_all(bench: &mut Workbench, second: u8, commands: Commands, out: &mut [u8; 4128]) -> bool {
    for index in 0..commands.count {
        let address = commands.address(index);
        let message = command(0, WRITE, second, address, commands.blocks);
        if bench.send(&message).is_err()
            || !send_blocks(bench, out, commands.blocks)
            || !is_good(bench, commands.dies)
        {
            return false;
        }
    }
    true
}

/// READ(10) of so many blocks.
fn read(bench: &mut Workbench, dies: u8, address: u32, blocks: u16) -> bool {
    if bench.send(&command(0, READ, 0, address, blocks)).is_err() {
        return false;
    }
    for _ in 0..blocks {
        if !hear_working(bench, dies) || bench.reply.len() != 4128 {
            return false;
        }
    }
    is_good(bench, dies)
}

/// These READ(10).
fn read_all(bench: &mut Workbench, commands: Commands) -> bool {
    for index in 0..commands.count {
        let address = commands.address(index);
        if !read(bench, commands.dies, address, commands.blocks) {
            return false;
        }
    }
    true
}

/// SYNCHRONIZE CACHE(10), which is answered once all is durable that was accepted before it.
fn flush(bench: &mut Workbench, dies: u8) -> bool {
    bench.send(&command(0, SYNCHRONIZE, 0, 0, 0)).is_ok() && is_good(bench, dies)
}

/// UNMAP of so many blocks, which is answered once it is accepted.
fn unmap_blocks(bench: &mut Workbench, address: u32, blocks: u16) -> bool {
    bench.send(&unmap(0)).is_ok()
        && bench.hear()
        && bench.send(&unmap_list(0, address, blocks)).is_ok()
        && is_good(bench, 0)
}

/// These UNMAPs, each of which is made durable by a flush.
fn unmap_all(bench: &mut Workbench, commands: Commands) -> bool {
    for index in 0..commands.count {
        let address = commands.address(index);
        if !unmap_blocks(bench, address, commands.blocks) || !flush(bench, commands.dies) {
            return false;
        }
    }
    true
}

/// 32 FUA writes of a block each are open at once.
fn write_at_once(bench: &mut Workbench, dies: u8, out: &mut [u8; 4128]) -> bool {
    for tag in 0..32u8 {
        if bench
            .send(&command(tag, WRITE, FUA, u32::from(tag), 1))
            .is_err()
        {
            return false;
        }
    }
    for _ in 0..32u8 {
        if !send_blocks(bench, out, 1) {
            return false;
        }
    }
    for _ in 0..32u8 {
        if !is_good(bench, dies) {
            return false;
        }
    }
    true
}

/// What is timed.
#[derive(Clone, Copy)]
enum Row {
    /// Writes with FUA, reads from dies, and UNMAPs that are flushed.
    Durable,
    Read,
    Unmap,
    /// Writes without FUA that fill half the slots, reads of what lies in slots, and one flush.
    Fill,
    Pending,
    Flush,
    /// 32 writes with FUA at once.
    AtOnce,
    /// The same as the first three, of 128 blocks each.
    LongDurable,
    LongRead,
    LongUnmap,
}

/// How many commands fill half the slots.
fn half(shape: Shape) -> u32 {
    u32::from(shape.slots / 64)
}

/// So many commands of 32 blocks, and those of 128 blocks that make a row.
fn short(count: u32, dies: u8) -> Commands {
    Commands {
        count,
        blocks: SHORT,
        dies,
    }
}

fn long(dies: u8) -> Commands {
    Commands {
        count: LONG_COMMANDS,
        blocks: LONG,
        dies,
    }
}

/// The commands of a row: whether each was answered.
fn play(bench: &mut Workbench, shape: Shape, row: Row, out: &mut [u8; 4128]) -> bool {
    let dies = shape.dies;
    match row {
        Row::Durable => write_all(bench, FUA, short(SHORT_COMMANDS, dies), out),
        Row::Read => read_all(bench, short(SHORT_COMMANDS, dies)),
        Row::Unmap => unmap_all(bench, short(SHORT_COMMANDS, dies)),
        Row::Fill => write_all(bench, 0, short(half(shape), 0), out),
        Row::Pending => read_all(bench, short(half(shape), 0)),
        Row::Flush => flush(bench, dies),
        Row::AtOnce => write_at_once(bench, dies, out),
        Row::LongDurable => write_all(bench, FUA, long(dies), out),
        Row::LongRead => read_all(bench, long(dies)),
        Row::LongUnmap => unmap_all(bench, long(dies)),
    }
}

/// How many blocks a row writes or reads.
fn count_of(shape: Shape, row: Row) -> u32 {
    match row {
        Row::Fill | Row::Pending | Row::Flush => u32::from(shape.slots / 64) * 32,
        Row::AtOnce => 32,
        _ => COUNT,
    }
}

/// What a row takes for a block, in nanoseconds.
fn time_row<R: Clock>(
    rt: &R,
    bench: &mut Workbench,
    shape: Shape,
    row: Row,
    out: &mut [u8; 4128],
) -> Result<u64> {
    let start = Instant::now(rt)?;
    ensure!(play(bench, shape, row, out), "a command was not answered");
    Ok(each(since(rt, start)?, count_of(shape, row)))
}

/// What each row took for a block, in hundredths of a hash that was timed right after it.
#[derive(Clone, Copy)]
struct Times {
    durable: u64,
    read: u64,
    unmapped: u64,
    filled: u64,
    pending: u64,
    cached: u64,
    at_once: u64,
}

/// The same of the rows of 128 blocks.
#[derive(Clone, Copy)]
struct LongTimes {
    durable: u64,
    read: u64,
    unmapped: u64,
}

/// What a row takes for a block, in hundredths of a hash that is timed right after it.
fn percent_of_row<R: Clock>(
    rt: &R,
    bench: &mut Workbench,
    shape: Shape,
    row: Row,
    out: &mut [u8; 4128],
) -> Result<u64> {
    let time = time_row(rt, bench, shape, row, out)?;
    Ok(percent(time, time_hash(rt, COUNT)?))
}

/// The rows of 128 blocks, one after another.
fn measure_long<R: Clock>(rt: &R, bench: &mut Workbench, shape: Shape) -> Result<LongTimes> {
    let mut out = block_out(0, 0, 0x5A);
    Ok(LongTimes {
        durable: percent_of_row(rt, bench, shape, Row::LongDurable, &mut out)?,
        read: percent_of_row(rt, bench, shape, Row::LongRead, &mut out)?,
        unmapped: percent_of_row(rt, bench, shape, Row::LongUnmap, &mut out)?,
    })
}

/// The other rows of a device of these sizes, one after another.
fn measure<R: Clock>(rt: &R, bench: &mut Workbench, shape: Shape) -> Result<Times> {
    let mut out = block_out(0, 0, 0x5A);
    let durable = percent_of_row(rt, bench, shape, Row::Durable, &mut out)?;
    let read = percent_of_row(rt, bench, shape, Row::Read, &mut out)?;
    let unmapped = percent_of_row(rt, bench, shape, Row::Unmap, &mut out)?;
    let filled = time_row(rt, bench, shape, Row::Fill, &mut out)?;
    let pending = time_row(rt, bench, shape, Row::Pending, &mut out)?;
    let flushed = time_row(rt, bench, shape, Row::Flush, &mut out)?;
    let hash = time_hash(rt, COUNT)?;
    let at_once = time_row(rt, bench, shape, Row::AtOnce, &mut out)?;
    Ok(Times {
        durable,
        read,
        unmapped,
        filled: percent(filled, hash),
        pending: percent(pending, hash),
        cached: percent(filled.saturating_add(flushed), hash),
        at_once: percent(at_once, hash),
    })
}

/// Prints the rows.
fn tell<R: Eprint>(rt: &R, shape: Shape, times: Times) -> Result<()> {
    let dies = shape.dies;
    let blocks = shape.blocks;
    let slots = shape.slots;
    let durable = times.durable;
    let read = times.read;
    let unmapped = times.unmapped;
    let filled = times.filled;
    let cached = times.cached;
    let pending = times.pending;
    let at_once = times.at_once;
    eprintln!(rt;
        "{dies} dies of {blocks} blocks, {slots} slots, for a block, in percent of a hash:"
    )?;
    eprintln!(rt; "  writes of 32 blocks with FUA {durable}, reads of 32 blocks from dies {read}")?;
    eprintln!(rt; "  UNMAPs of 32 blocks, each with a flush after it {unmapped}")?;
    eprintln!(rt;
        "  writes of 32 blocks without FUA {filled}, and with one flush after them {cached}"
    )?;
    eprintln!(rt;
        "  reads of 32 blocks from slots {pending}, 32 writes of a block at once {at_once}"
    )?;
    Ok(())
}

/// Prints the rows of 128 blocks.
fn tell_long<R: Eprint>(rt: &R, times: LongTimes) -> Result<()> {
    let durable = times.durable;
    let read = times.read;
    let unmapped = times.unmapped;
    eprintln!(rt;
        "  writes of 128 blocks with FUA {durable}, reads of 128 blocks from dies {read}"
    )?;
    eprintln!(rt; "  UNMAPs of 128 blocks, each with a flush after it {unmapped}")?;
    Ok(())
}

/// The rows of a device of these sizes.
fn time_shape<R: Clock + Eprint>(rt: &R, alloc: Global, shape: Shape) -> Result<()> {
    let mut bench = open(alloc, shape)?;
    bench.settle(4, shape.dies);
    let times = measure(rt, &mut bench, shape)?;
    tell(rt, shape, times)?;
    if shape.slots < MANY_SLOTS {
        return Ok(());
    }
    let times = measure_long(rt, &mut bench, shape)?;
    tell_long(rt, times)
}

/// Times each of the devices.
pub fn time_groups<R: Clock + Eprint>(rt: &R, alloc: Global) -> Result<()> {
    for shape in SHAPES {
        time_shape(rt, alloc, shape)?;
    }
    Ok(())
}
