//! A job of one die takes as long as the other die needs for all that a host writes, and a stop comes then.
use crate::collections::power_off;
use geometry::Config;
use nand_model::MemDie;
use std::alloc::Global;
use std::process::Abort;
use ufs_spec::{Job, Page, Place, UnitSpec};
use workbench::collected::{Left, torn};
use workbench::messages::{READ, WRITE, block_out, command, good, is_block, ready};
use workbench::{Workbench, new_dies};

/// How many WRITEs of 32 blocks there are, and how many blocks they write.
const WRITES: u32 = 16;

const WRITTEN: u16 = 512;

/// The sizes of the dies.
const BLOCKS: u16 = 90;

const PAGES: u16 = 16;

/// The operation code of TEST UNIT READY, whose other bytes are zero.
const TEST_UNIT_READY: u8 = 0;

/// Two dies, room in the cache for all of the WRITEs, and nearly the greatest unit.
fn config(rt: &impl Abort) -> Config {
    let units = [UnitSpec {
        blocks: u32::from(WRITTEN),
        boot: 0,
        protect: 0,
    }];
    Config::new(2, BLOCKS, PAGES, &units, [1, 0, 0, 0], WRITTEN, 0).expect(rt, "a configuration")
}

/// A WRITE without FUA of 32 blocks of equal bytes: whether it is answered GOOD.
fn write_32(bench: &mut Workbench, address: u32, byte: u8) -> bool {
    if bench.send(&command(7, WRITE, 0, address, 32)).is_err() {
        return false;
    }
    for block in 0..32u32 {
        let message = block_out(7, block * 4096, byte);
        if !bench.hears(&ready(7, block * 4096)) || bench.send(&message).is_err() {
            return false;
        }
    }
    bench.hears(&good(7))
}

/// Whether the device is mended.
fn is_ready(bench: &mut Workbench) -> bool {
    bench.send(&command(6, TEST_UNIT_READY, 0, 0, 0)).is_ok() && bench.hears(&good(6))
}

/// Rounds of a turn and of one job of each die: whether the device is mended within these, which are enough for
/// a repair of each block that was written and a copy of each page of the dies.
fn is_mended(bench: &mut Workbench) -> bool {
    for _ in 0..4096u16 {
        if is_ready(bench) {
            return true;
        }
        bench.settle(1, 2);
    }
    false
}

/// Rounds in which a die with a job in flight does nothing: enough to program all that is written.
fn work_on(bench: &mut Workbench) {
    for _ in 0..8u8 {
        bench.settle(250, 2);
    }
}

/// The byte of the WRITE with this number among those that begin with this one.
fn byte_of(first: u8, number: u32) -> u8 {
    first.wrapping_add((number % 256) as u8)
}

/// The WRITEs from this one on, one straight after another: whether each is answered GOOD.
fn write_from(bench: &mut Workbench, number: u32, first: u8) -> bool {
    for number in number..WRITES {
        if !write_32(bench, number * 32, byte_of(first, number)) {
            return false;
        }
    }
    true
}

/// Whether each block of these WRITEs is read.
fn reads_all(bench: &mut Workbench, first: u8) -> bool {
    for address in 0..u32::from(WRITTEN) {
        if !bench.reads(address, byte_of(first, address / 32)) {
            return false;
        }
    }
    true
}

/// Reads a block: whether it has this byte, or else the older one; `None` where it has neither.
fn is_newer(bench: &mut Workbench, address: u32, newer: u8, older: u8) -> Option<bool> {
    let is_sent = bench.send(&command(8, READ, 0, address, 1)).is_ok();
    if !is_sent || !bench.hear_after_work(0) {
        return None;
    }
    let has_newer = is_block(bench.reply.as_slice(), 8, 0, newer);
    let is_right = has_newer || is_block(bench.reply.as_slice(), 8, 0, older);
    if is_right && bench.hears(&good(8)) {
        Some(has_newer)
    } else {
        None
    }
}

/// How many of the newer WRITEs are there: the first so many with all of their blocks, and the older ones at each
/// other address; `None` where it is not so.
fn count_there(bench: &mut Workbench, newer: u8, older: u8) -> Option<u32> {
    let mut count = 0u32;
    for address in 0..u32::from(WRITTEN) {
        let number = address / 32;
        let is_there = is_newer(
            bench,
            address,
            byte_of(newer, number),
            byte_of(older, number),
        )?;
        if is_there && count < address {
            return None;
        }
        count = count.saturating_add(u32::from(is_there));
    }
    if count % 32 == 0 {
        Some(count / 32)
    } else {
        None
    }
}

/// A mended device over these dies.
fn mended(rt: &impl Abort, alloc: Global, dies: Vec<MemDie>) -> Workbench {
    let mut bench = Workbench::new(alloc, config(rt), dies).expect(rt, "the dies are opened");
    assert!(rt; is_mended(&mut bench));
    bench
}

/// All of the WRITEs are answered GOOD, and then programmed.
fn write_all(rt: &impl Abort, bench: &mut Workbench, first: u8) {
    assert!(rt; write_from(bench, 0, first));
    work_on(bench);
}

/// A mended device whose blocks were written four times, so that it collects.
fn written(rt: &impl Abort, alloc: Global) -> Workbench {
    let dies = new_dies(alloc, 2, BLOCKS, PAGES).expect(rt, "memory");
    let mut bench = mended(rt, alloc, dies);
    for times in 0..4u8 {
        write_all(rt, &mut bench, times);
    }
    bench
}

/// The program that die 0 is given, after the erase that it may need: it stays in flight.
fn held_program(bench: &mut Workbench) -> Option<(Place, Page)> {
    for _ in 0..2u8 {
        let job = bench.device.take(0)?;
        if let Job::Program(place, page) = job {
            return Some((place, page));
        }
        bench.end(0, &job);
    }
    None
}

/// The power cycle of the dies is over, and the job in flight left its page so.
fn leave(dies: &mut [MemDie], place: Place, page: &Page, left: Left) {
    let die = usize::from(place.die);
    if die < dies.len() && dies[die].can_do(&Job::Read(place)) {
        match left {
            Left::Old => {}
            Left::New => dies[die].set_page(place.block, place.page, page),
            Left::Torn => dies[die].set_page(place.block, place.page, &torn()),
        }
    }
    for die in dies {
        die.end_power_cycle();
    }
}

/// Of the first of the WRITEs die 0 has a page in flight all the time, and die 1 does all that it is given; then a
/// stop leaves that page so. The dies after it.
fn stopped_beside_a_held_die(rt: &impl Abort, mut bench: Workbench, left: Left) -> Vec<MemDie> {
    assert!(rt; write_32(&mut bench, 0, byte_of(0x80, 0)));
    let (place, page) = held_program(&mut bench).expect(rt, "die 0 is given a program");
    assert!(rt; write_from(&mut bench, 1, 0x80));
    work_on(&mut bench);
    let mut dies = power_off(bench);
    leave(dies.as_mut_slice(), place, &page, left);
    dies
}

/// The device is mended after that stop, and takes WRITEs again. It has none of those before if the page is not
/// whole, since that of the first is missing, and else the first so many of them.
fn stop_beside_a_held_die(rt: &impl Abort, alloc: Global, left: Left) {
    let dies = stopped_beside_a_held_die(rt, written(rt, alloc), left);
    let mut bench = mended(rt, alloc, dies);
    let count = count_there(&mut bench, 0x80, 3).expect(rt, "the first so many WRITEs are there");
    assert!(rt; (count > 0) == (left == Left::New));
    write_all(rt, &mut bench, 0xC0);
    assert!(rt; reads_all(&mut bench, 0xC0));
    drop(bench);
}

/// Sixteen WRITEs of 32 blocks while die 0 holds a page of the first, which the stop leaves old.
#[test]
fn a_held_page_is_left_old(rt: HostRuntime) {
    stop_beside_a_held_die(&rt, rt.alloc(), Left::Old);
}

/// The stop tears the page.
#[test]
fn a_held_page_is_torn(rt: HostRuntime) {
    stop_beside_a_held_die(&rt, rt.alloc(), Left::Torn);
}

/// The page is whole.
#[test]
fn a_held_page_is_left_whole(rt: HostRuntime) {
    stop_beside_a_held_die(&rt, rt.alloc(), Left::New);
}
