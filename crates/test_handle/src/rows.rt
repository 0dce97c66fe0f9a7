//! What the tests share: a small device, and a block that is written and read.
use row_messages::messages::{FUA, READ, WRITE, block_out, command, good, is_block, ready};
use std::alloc::Global;
use std::process::Abort;
use ufs_handle::{Handle, PlainConfig, PlainJob, PlainUnit};

/// Two dies of 32 blocks of 16 pages, RPMB region 0, 64 slots and 2 spare blocks.
pub const CONFIG: PlainConfig = PlainConfig {
    dies: 2,
    blocks: 32,
    pages: 16,
    rpmb: [1, 0, 0, 0],
    slots: 64,
    spare: 2,
    profile: 0,
    serial: 1,
};

/// One unit of 32 blocks.
pub const UNITS: [PlainUnit; 1] = [PlainUnit {
    blocks: 32,
    boot: 0,
    protect: 0,
}];

/// A job that no die was given.
pub const NO_JOB: PlainJob = PlainJob {
    kind: 9,
    die: 9,
    block: 9,
    page: 9,
    body: [0; 4096],
    spare: [0; 96],
};

/// A new device.
pub fn opened(rt: &impl Abort, alloc: Global) -> Handle {
    let mut handle = Handle::closed(alloc);
    assert!(rt; handle.open_new(alloc, &CONFIG, &UNITS).is_ok());
    handle
}

/// A new device that has settled.
pub fn settled(rt: &impl Abort, alloc: Global) -> Handle {
    let mut handle = opened(rt, alloc);
    handle.settle(alloc, 8);
    handle
}

/// The next reply is this one.
pub fn expect_reply(rt: &impl Abort, alloc: Global, handle: &mut Handle, expected: &[u8]) {
    let mut room = [0; 4128];
    let mut count = 0;
    let answer = handle.reply_into(alloc, &mut room, &mut count);
    assert!(rt; matches!(answer, Some(Some(true))));
    assert!(rt; room.starts_with(expected) && count == expected.len());
}

/// A WRITE of one block with FUA, up to its data. Its answer waits for a die.
pub fn begin_write(
    rt: &impl Abort,
    alloc: Global,
    handle: &mut Handle,
    tag: u8,
    address: u32,
    byte: u8,
) {
    let heard = handle.host(alloc, &command(tag, WRITE, FUA, address, 1));
    assert!(rt; matches!(heard, Some(Ok(_))));
    expect_reply(rt, alloc, handle, &ready(tag, 0));
    let heard = handle.host(alloc, &block_out(tag, 0, byte));
    assert!(rt; matches!(heard, Some(Ok(_))));
}

/// A WRITE of one block with FUA that is answered.
pub fn write(rt: &impl Abort, alloc: Global, handle: &mut Handle, tag: u8, address: u32, byte: u8) {
    begin_write(rt, alloc, handle, tag, address, byte);
    handle.settle(alloc, 4);
    expect_reply(rt, alloc, handle, &good(tag));
}

/// A READ of one block finds this byte in it.
pub fn expect_block(
    rt: &impl Abort,
    alloc: Global,
    handle: &mut Handle,
    tag: u8,
    address: u32,
    byte: u8,
) {
    let heard = handle.host(alloc, &command(tag, READ, 0, address, 1));
    assert!(rt; matches!(heard, Some(Ok(_))));
    handle.settle(alloc, 4);
    let mut room = [0; 4128];
    let mut count = 0;
    let answer = handle.reply_into(alloc, &mut room, &mut count);
    assert!(rt; matches!(answer, Some(Some(true))));
    assert!(rt; is_block(&room, tag, 0, byte) && count == 4128);
    expect_reply(rt, alloc, handle, &good(tag));
}
