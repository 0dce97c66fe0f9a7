//! Times writes of the replay protected memory block, beside the hashes that they take: of the MAC
//! of the request, of the MAC of its result, and of each page that is programmed.
use crate::clock::{each, percent, since, time_hash};
use anyhow::{Result, ensure};
use geometry::Config;
use rpmb_frame::frames_mac;
use std::alloc::Global;
use std::rt::Clock;
use std::time::Instant;
use ufs_spec::{UnitSpec, Upiu};
use workbench::frames::{
    FrameBytes, Numbers, frame, frames_command, frames_good, frames_out, frames_ready,
};
use workbench::{Workbench, new_dies};

/// How many writes are timed: each goes to a page of the area of its own, so that no page has a
/// rest to read.
const WRITES: u16 = 256;

/// How many blocks of 256 bytes a page of the area has.
const PAGE_BLOCKS: u16 = 16;

/// How many pages a write programs: one of the area, and the settings with the counter.
const PAGES: u64 = 2;

/// The key.
const KEY: [u8; 32] = [0x0B; 32];

/// How often the MACs are made that are timed.
const MACS: u32 = 4096;

/// A device over new dies in memory, with the greatest area.
fn open(alloc: Global) -> Result<Workbench> {
    let units = [UnitSpec {
        blocks: 64,
        boot: 0,
        protect: 0,
    }];
    let config = Config::new(4, 64, 64, &units, [8, 0, 0, 0], 64, 4)?;
    let dies = new_dies(alloc, 4, 64, 64)?;
    Ok(Workbench::new(alloc, config, dies)?)
}

/// The frame that programs the key.
fn key_request() -> FrameBytes {
    let numbers = Numbers {
        counter: 0,
        address: 0,
        count: 0,
        code: 0,
        kind: 1,
    };
    frame(&KEY, 0, numbers)
}

/// The frames of the write with this number, of so many blocks, with their MAC.
fn write_request(number: u16, count: u8) -> [FrameBytes; 8] {
    let numbers = Numbers {
        counter: u32::from(number),
        address: number.saturating_mul(PAGE_BLOCKS),
        count: u16::from(count),
        code: 0,
        kind: 3,
    };
    let mut frames = [frame(&[0; 32], 0x5A, numbers); 8];
    let used = usize::from(count.clamp(1, 8));
    let mac = frames_mac(&KEY, &frames[..used]);
    frames[used - 1] = frame(&mac, 0x5A, numbers);
    frames
}

/// The DATA OUT of each write, of so many blocks.
fn messages(alloc: Global, count: u8) -> Result<Vec<Upiu>> {
    let mut all = Vec::new(alloc);
    let used = usize::from(count.clamp(1, 8));
    for number in 0..WRITES {
        all.push(frames_out(0, &write_request(number, count)[..used]))?;
    }
    Ok(all)
}

/// A write with this DATA OUT, of so many frames: COMMAND, READY TO TRANSFER, DATA OUT, two
/// programs, RESPONSE. Whether it is GOOD.
fn write(bench: &mut Workbench, message: &Upiu, count: u8) -> bool {
    let frames = usize::from(count);
    bench.send(&frames_command(0, frames)).is_ok()
        && bench.hears(&frames_ready(0, frames))
        && bench.send(message.as_slice()).is_ok()
        && bench.hear_after_work(0)
        && bench.reply.as_slice() == frames_good(0).as_slice()
}

/// What a write of so many frames takes, in nanoseconds, on a new device.
fn time_writes<R: Clock>(rt: &R, alloc: Global, count: u8) -> Result<u64> {
    let messages = messages(alloc, count)?;
    let mut bench = open(alloc)?;
    bench.settle(4, 4);
    ensure!(
        bench.requests(0, &[key_request()]),
        "the key was not programmed"
    );
    let start = Instant::now(rt)?;
    for message in messages.as_slice() {
        ensure!(write(&mut bench, message, count), "a write was not GOOD");
    }
    Ok(each(since(rt, start)?, u32::from(WRITES)))
}

/// What the MACs of a write of so many frames take, in nanoseconds: that of the request, and that
/// of its result.
fn time_macs<R: Clock>(rt: &R, count: u8) -> Result<u64> {
    let frames = write_request(0, count);
    let used = usize::from(count.clamp(1, 8));
    let start = Instant::now(rt)?;
    let mut all = 0u64;
    for _ in 0..MACS {
        let asked = frames_mac(&KEY, &frames[..used]);
        let told = frames_mac(&KEY, &frames[..1]);
        all = all.wrapping_add(u64::from(asked[0] ^ told[0]));
    }
    let macs = each(since(rt, start)?, MACS);
    // The sum is used, so that the MACs are made.
    Ok(if all < u64::MAX { macs } else { 0 })
}

/// Times a write of so many frames.
fn time_frames<R: Clock + Eprint>(rt: &R, alloc: Global, count: u8) -> Result<()> {
    let write = time_writes(rt, alloc, count)?;
    let page = time_hash(rt, MACS)?;
    let macs = time_macs(rt, count)?;
    let hashes = page.saturating_mul(PAGES).saturating_add(macs);
    let mac_percent = percent(macs, page);
    let page_percent = percent(write, page);
    let ratio = percent(write, hashes);
    eprintln!(rt;
        "an RPMB write of frames: {count}, {write} ns, in percent of a hash {page_percent}"
    )?;
    eprintln!(rt;
        "  its MACs in percent of a hash {mac_percent}, the write in percent of its hashes {ratio}"
    )?;
    Ok(())
}

/// Times a write of one frame and one of eight.
pub fn time_requests<R: Clock + Eprint>(rt: &R, alloc: Global) -> Result<()> {
    time_frames(rt, alloc, 1)?;
    time_frames(rt, alloc, 8)
}
