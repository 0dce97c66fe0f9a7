//! Devices that are written until blocks are collected.
use crate::Workbench;
use nand_model::{Die, MemDie};
use row_messages::messages::{READ, WRITE, block_out, command, good, is_block, ready};
use std::alloc::Global;
use ufs_spec::{Job, NoMemory, Page, Place};

/// Write i, from 0 on, carries the byte i mod 256 to the address i mod 32: whether so many are answered
/// GOOD.
pub fn write_in_turn(bench: &mut Workbench, count: u16) -> bool {
    for index in 0..count {
        if !bench.writes(u32::from(index % 32), (index % 256) as u8) {
            return false;
        }
    }
    true
}

/// Whether each of the 32 addresses reads as the last of so many of these writes left it.
pub fn read_in_turn(bench: &mut Workbench, count: u16) -> bool {
    for index in count.saturating_sub(32)..count {
        if !bench.reads(u32::from(index % 32), (index % 256) as u8) {
            return false;
        }
    }
    true
}

/// A FUA write whose page goes to this die at once, and is answered GOOD: the place of the page.
fn write_on(bench: &mut Workbench, die: u8, address: u32, byte: u8) -> Option<Place> {
    if !bench.begins_write(address, byte) {
        return None;
    }
    let job = bench.device.take(die)?;
    let Job::Program(place, _) = &job else {
        return None;
    };
    let place = *place;
    if bench.end(die, &job) && bench.hear() && bench.has_written() {
        Some(place)
    } else {
        None
    }
}

/// What became of a write that may meet the erase of a block.
#[derive(Clone, Copy, PartialEq, Eq)]
enum Met {
    Answered,
    Erased,
    Neither,
}

/// A turn, and a job of each die, up to the erase of this block of die 0: whether it is in flight.
fn is_erased_in_round(bench: &mut Workbench, collected: u16) -> bool {
    bench.device.turn();
    for die in 0..4u8 {
        let Some(job) = bench.device.take(die) else {
            continue;
        };
        if matches!(job, Job::Erase { die: 0, block } if block == collected) {
            return true;
        }
        bench.end(die, &job);
    }
    false
}

/// A FUA write of CCh, until it is answered or this block of die 0 is being erased.
fn write_beside(bench: &mut Workbench, address: u32, collected: u16) -> Met {
    if !bench.begins_write(address, 0xCC) {
        return Met::Neither;
    }
    for _ in 0..1024u16 {
        if is_erased_in_round(bench, collected) {
            return Met::Erased;
        }
        if bench.hear() {
            return if bench.has_written() {
                Met::Answered
            } else {
                Met::Neither
            };
        }
    }
    Met::Neither
}

/// Writes of the addresses 32 to 63 go on until this block of die 0 is being erased: whether it is.
fn write_until_erased(bench: &mut Workbench, collected: u16) -> bool {
    for index in 0..5000u16 {
        match write_beside(bench, 32 + u32::from(index % 32), collected) {
            Met::Answered => {}
            Met::Erased => return true,
            Met::Neither => return false,
        }
    }
    false
}

/// Address 5 gets AAh on die 0 and, newer, BBh on die 1, and writes go on until the block with the page of
/// AAh was collected and is being erased: that block of die 0. `None` where this does not come about.
pub fn collect_old_page(bench: &mut Workbench) -> Option<u16> {
    let place = write_on(bench, 0, 5, 0xAA)?;
    write_on(bench, 1, 5, 0xBB)?;
    if !write_until_erased(bench, place.block) || !holds(bench.dies.as_slice(), place, 0xAA) {
        return None;
    }
    Some(place.block)
}

/// Whether the page there has these equal bytes.
fn holds(dies: &[MemDie], place: Place, byte: u8) -> bool {
    let die = usize::from(place.die);
    if die >= dies.len() || !dies[die].can_do(&Job::Read(place)) {
        return false;
    }
    dies[die].page_at(place.block, place.page).body == [byte; 4096]
}

/// A WRITE without FUA of 32 blocks of equal bytes from this address on, and 64 rounds of work: whether it is
/// answered GOOD.
fn write_32(bench: &mut Workbench, address: u32, byte: u8) -> bool {
    if bench.send(&command(7, WRITE, 0, address, 32)).is_err() {
        return false;
    }
    for block in 0..32u32 {
        let message = block_out(7, block * 4096, byte);
        if !bench.hears(&ready(7, block * 4096)) || bench.send(&message).is_err() {
            return false;
        }
    }
    let is_good = bench.hears(&good(7));
    bench.settle(64, 4);
    is_good
}

/// A READ of the first 32 blocks: whether these equal bytes come, though after each DATA IN these blocks are
/// overwritten with 66h.
fn read_beside_writes(bench: &mut Workbench, byte: u8) -> bool {
    if bench.send(&command(9, READ, 0, 0, 32)).is_err() {
        return false;
    }
    bench.settle(1, 4);
    for block in 0..32u32 {
        let is_read = bench.hear() && is_block(bench.reply.as_slice(), 9, block * 4096, byte);
        let has_ended = block < 31 || bench.hears(&good(9));
        if !is_read || !has_ended || !write_32(bench, 0, 0x66) {
            return false;
        }
    }
    true
}

/// The first 32 blocks are written with 55h, and the next 32 so many times. A READ of the first gives 55h, though
/// after each DATA IN they are overwritten with 66h: so 33 times 32 pages are programmed while it is open, and
/// blocks are collected. Then each block reads as 66h. Whether all this is so.
pub fn reads_beside_collection(bench: &mut Workbench, times: u8) -> bool {
    if !write_32(bench, 0, 0x55) {
        return false;
    }
    for _ in 0..times {
        if !write_32(bench, 32, 0x11) {
            return false;
        }
    }
    read_beside_writes(bench, 0x55) && read_all(bench, 0x66)
}

/// Whether each of the first 32 blocks reads as these equal bytes.
fn read_all(bench: &mut Workbench, byte: u8) -> bool {
    for address in 0..32u32 {
        if !bench.reads(address, byte) {
            return false;
        }
    }
    true
}

/// What a stop leaves of a page: what it held, what it was to hold, or neither.
#[derive(Clone, Copy, PartialEq, Eq)]
pub enum Left {
    Old,
    New,
    Torn,
}

/// All of these.
pub const EACH_LEFT: [Left; 3] = [Left::Old, Left::New, Left::Torn];

/// A page of bytes FFh.
pub fn blank() -> Page {
    Page {
        body: [0xFF; 4096],
        spare: [0xFF; 96],
    }
}

/// A page whose check does not hold, and which is not blank.
pub fn torn() -> Page {
    Page {
        body: [0x5C; 4096],
        spare: [0; 96],
    }
}

/// Copies of the dies as a stop leaves them inside the erase of this block of die 0: each of its pages so.
pub fn stopped_in_erase(
    alloc: Global,
    dies: &[MemDie],
    block: u16,
    left: Left,
) -> Result<Vec<MemDie>, NoMemory> {
    let mut all = Vec::new(alloc);
    for die in dies {
        all.push(die.copy(alloc)?).map_err(|_| NoMemory)?;
    }
    if let Some(die) = all.first_mut() {
        leave(die, block, left);
    }
    Ok(all)
}

/// Each page of the block is left so.
fn leave(die: &mut MemDie, block: u16, left: Left) {
    let page = match left {
        Left::Old => return,
        Left::New => blank(),
        Left::Torn => torn(),
    };
    for number in 0..die.pages() {
        let place = Place {
            die: 0,
            block,
            page: number,
        };
        if die.can_do(&Job::Read(place)) {
            die.set_page(block, number, &page);
        }
    }
}
