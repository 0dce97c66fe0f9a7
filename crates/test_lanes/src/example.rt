//! A device of two dies: each die, and the keeper, is served by a thread of its own, and a host
//! writes a block and reads it back.
ghost use Rattle.std.specs.Prelude.{◌≡◌, None};
ghost use Rattle.std.specs.Thread.{IsSync};

use lanes::{Keeper, Lane, Port};
use nand_model::MemDie;
use std::sync::Wait;
use std::sync::atomic::{AtomicBool, Ordering};
use std::thread;
use std::thread::Threads;
use std::time::Clock;
use ufs_spec::Upiu;

/// A block, 4096 times 5Ah, after this header.
pub(crate) fn with_block(header: &[u8; 32]) -> [u8; 4128] {
    let mut message = [0x5A; 4128];
    message[..32].copy_from_slice(header);
    message
}

/// Sends a message, and waits for a reply: whether this one came.
pub(crate) fn asks<R: Wait + Clock>(
    rt: &R,
    port: &mut Port<MemDie>,
    stop: &AtomicBool,
    message: &[u8],
    reply: &[u8],
) -> bool {
    matches!(port.send(rt, message, stop), Some(Ok(()))) && hears(rt, port, stop, reply)
}

/// Waits for a reply: whether this one came.
fn hears<R: Wait + Clock>(
    rt: &R,
    port: &mut Port<MemDie>,
    stop: &AtomicBool,
    reply: &[u8],
) -> bool {
    let mut heard = Upiu::new();
    port.receive(rt, &mut heard, stop) && heard.as_slice() == reply
}

/// Asks until the unit is ready: over new dies the device first writes a page of its own.
fn waits_until_ready<R: Wait + Clock>(rt: &R, port: &mut Port<MemDie>, stop: &AtomicBool) -> bool {
    let mut good = WRITTEN;
    good[3] = 6;
    for _ in 0..1_000_000u32 {
        if asks(rt, port, stop, &IS_READY, &good) {
            return true;
        }
        thread::yield_now();
    }
    false
}

/// The host: a block is written and read back, and then the flag is set.
fn host<R: Wait + Clock>(rt: &R, port: &mut Port<MemDie>, stop: &AtomicBool) -> bool {
    let is_right = waits_until_ready(rt, port, stop)
        && asks(rt, port, stop, &WRITE, &ASKED)
        && asks(rt, port, stop, &with_block(&DATA_OUT), &WRITTEN)
        && asks(rt, port, stop, &READ, &with_block(&DATA_IN))
        && hears(rt, port, stop, &HAS_READ);
    stop.store(true, Ordering::SeqCst);
    is_right
}

/// The keeper in a thread of its own, beside the host.
fn keep<R: Threads + Wait + Clock + Sync>(
    rt: &R,
    keeper: &mut Keeper<MemDie>,
    port: &mut Port<MemDie>,
    stop: &AtomicBool,
) -> bool {
    thread::join(rt, || keeper.serve(rt, stop), || host(rt, port, stop)).1
}

/// A lane in a thread of its own, beside the keeper and the host.
fn serve_one<R: Threads + Wait + Clock + Sync>(
    rt: &R,
    lane: &mut Lane<MemDie>,
    keeper: &mut Keeper<MemDie>,
    port: &mut Port<MemDie>,
    stop: &AtomicBool,
) -> bool
    requires { lane.old.ended ≡ None }
{
    thread::join(
        rt,
        ||
            requires { IsSync R.row × (lane.now.ended ≡ None) }
        { lane.serve(rt, stop) },
        ||
            requires { IsSync R.row }
        { keep(rt, keeper, port, stop) },
    )
    .1
}

/// Another lane in a thread of its own, beside all of them.
pub(crate) fn serve_both<R: Threads + Wait + Clock + Sync>(
    rt: &R,
    one: &mut Lane<MemDie>,
    other: &mut Lane<MemDie>,
    keeper: &mut Keeper<MemDie>,
    port: &mut Port<MemDie>,
) -> bool
    requires { (one.old.ended ≡ None) × (other.old.ended ≡ None) }
{
    let stop = AtomicBool::new(false);
    thread::join(
        rt,
        ||
            requires { IsSync R.row × (one.now.ended ≡ None) }
        { one.serve(rt, &stop) },
        ||
            requires { IsSync R.row × (other.now.ended ≡ None) }
        { serve_one(rt, other, keeper, port, &stop) },
    )
    .1
}

/// TEST UNIT READY, task tag 6.
pub(crate) const IS_READY: [u8; 32] = [
    0x01, 0x00, 0, 6, 0, 0, 0, 0, 0, 0, 0, 0, 0, 0, 0, 0, 0x00, 0, 0, 0, 0, 0, 0, 0, 0, 0, 0, 0, 0,
    0, 0, 0,
];

/// WRITE(10) with FUA of one block at address 0, task tag 7.
pub(crate) const WRITE: [u8; 32] = [
    0x01, 0x20, 0, 7, 0, 0, 0, 0, 0, 0, 0, 0, 0, 0, 0x10, 0, 0x2A, 0x08, 0, 0, 0, 0, 0, 0, 1, 0, 0,
    0, 0, 0, 0, 0,
];

/// READY TO TRANSFER: the device asks for the block.
pub(crate) const ASKED: [u8; 32] = [
    0x31, 0x00, 0, 7, 0, 0, 0, 0, 0, 0, 0, 0, 0, 0, 0, 0, 0, 0, 0x10, 0, 0, 0, 0, 0, 0, 0, 0, 0, 0,
    0, 0, 0,
];

/// The header of the DATA OUT with the block.
pub(crate) const DATA_OUT: [u8; 32] = [
    0x02, 0x00, 0, 7, 0, 0, 0, 0, 0, 0, 0x10, 0, 0, 0, 0, 0, 0, 0, 0x10, 0, 0, 0, 0, 0, 0, 0, 0, 0,
    0, 0, 0, 0,
];

/// RESPONSE of task 7: GOOD.
pub(crate) const WRITTEN: [u8; 32] = [
    0x21, 0x00, 0, 7, 0, 0, 0, 0, 0, 0, 0, 0, 0, 0, 0, 0, 0, 0, 0, 0, 0, 0, 0, 0, 0, 0, 0, 0, 0, 0,
    0, 0,
];

/// READ(10) of the block, task tag 8.
pub(crate) const READ: [u8; 32] = [
    0x01, 0x40, 0, 8, 0, 0, 0, 0, 0, 0, 0, 0, 0, 0, 0x10, 0, 0x28, 0x00, 0, 0, 0, 0, 0, 0, 1, 0, 0,
    0, 0, 0, 0, 0,
];

/// The header of the DATA IN with the block.
pub(crate) const DATA_IN: [u8; 32] = [
    0x22, 0x00, 0, 8, 0, 0, 0, 0, 0, 0, 0x10, 0, 0, 0, 0, 0, 0, 0, 0x10, 0, 0, 0, 0, 0, 0, 0, 0, 0,
    0, 0, 0, 0,
];

/// RESPONSE of task 8: GOOD.
pub(crate) const HAS_READ: [u8; 32] = [
    0x21, 0x00, 0, 8, 0, 0, 0, 0, 0, 0, 0, 0, 0, 0, 0, 0, 0, 0, 0, 0, 0, 0, 0, 0, 0, 0, 0, 0, 0, 0,
    0, 0,
];
