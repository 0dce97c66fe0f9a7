//! Each job of a row of writes and reads fails once, with what it may leave of its page or its
//! block.
use crate::answers::{PROTECTED, READ_FAILED, WRITE_FAILED};
use crate::dies::small_dies;
use crate::players::Player;
use std::alloc::Global;
use std::process::Abort;
use ufs_spec::Upiu;
use workbench::collected::{EACH_LEFT, Left};
use workbench::messages::good;

/// The addresses and the bytes of the writes, one after another.
const WRITES: [(u8, u8); 5] = [(1, 0x11), (2, 0x22), (3, 0x33), (1, 0x44), (6, 0x66)];

/// Whether this is the answer to a write: GOOD, or 3/0C/00 where its job failed, or 7/27/00 where one
/// failed before.
fn is_right(answer: &Upiu, was_locked: bool, is_locked: bool) -> bool {
    match (was_locked, is_locked) {
        (true, _) => answer.as_slice() == PROTECTED.as_slice(),
        (false, true) => answer.as_slice() == WRITE_FAILED.as_slice(),
        (false, false) => answer.as_slice() == good(7).as_slice(),
    }
}

/// A write, which is answered so. What the block holds from then on.
fn written(rt: &impl Abort, player: &mut Player, address: u8, byte: u8, before: u8) -> u8 {
    let was_locked = player.is_locked;
    let answer = player.write(rt, address, byte);
    assert!(rt; is_right(&answer, was_locked, player.is_locked));
    if was_locked { before } else { byte }
}

/// A READ gives these bytes; where its job failed it ends with 3/11/00, and the next one gives
/// them.
fn expect_read(rt: &impl Abort, player: &mut Player, address: u8, byte: u8) {
    let had_failed = player.has_failed_read;
    let mut reply = player.read(rt, address);
    if player.has_failed_read != had_failed {
        assert!(rt; reply.as_slice() == READ_FAILED.as_slice());
        reply = player.read(rt, address);
    }
    player.expect_block(rt, &reply, byte);
}

/// Each block gives its bytes.
fn expect_all(rt: &impl Abort, player: &mut Player, blocks: &[u8; 8]) {
    for (address, byte) in (0..8u8).zip(blocks.iter()) {
        expect_read(rt, player, address, *byte);
    }
}

/// The row, in which a job may fail: what was accepted is read at once, and after all work.
fn play_row(rt: &impl Abort, player: &mut Player) -> [u8; 8] {
    // One die works here, so that later writes meet erases of the others.
    player.settle(rt, 6, 1);
    let mut blocks = [0u8; 8];
    for (address, byte) in WRITES {
        let index = usize::from(address % 8);
        blocks[index] = written(rt, player, address, byte, blocks[index]);
        expect_read(rt, player, address, blocks[index]);
    }
    player.settle(rt, 4, 4);
    expect_all(rt, player, &blocks);
    blocks
}

/// What was accepted is read after a stop too.
fn play_stop(rt: &impl Abort, player: &mut Player, blocks: &[u8; 8]) {
    player.stop(rt, Vec::new(player.alloc));
    player.settle(rt, 4, 4);
    expect_all(rt, player, blocks);
    written(rt, player, 7, 0x77, 0);
}

/// The row over new dies, with this job failing, and a stop after it. How many jobs there were before the
/// stop.
fn play(rt: &impl Abort, alloc: Global, failing: u32, left: Left) -> u32 {
    let mut player = Player::new(rt, alloc, small_dies(rt, alloc), failing, left);
    let blocks = play_row(rt, &mut player);
    assert!(rt; failing == 0 || player.is_locked || player.has_failed_read);
    let jobs = player.jobs;
    play_stop(rt, &mut player, &blocks);
    drop(player);
    jobs
}

/// Each job fails once: the erase and the program of the first mark, each erase, program and read
/// of the row. Without a failure each write is GOOD.
#[test]
fn each_job_fails_once(rt: HostRuntime) {
    let jobs = play(&rt, rt.alloc(), 0, Left::Old);
    // A mark, its erase, five programs of blocks, and their reads.
    assert!(rt; 12 <= jobs && jobs < 64);
    for failing in 1..=jobs {
        for left in EACH_LEFT {
            play(&rt, rt.alloc(), failing, left);
        }
    }
}
