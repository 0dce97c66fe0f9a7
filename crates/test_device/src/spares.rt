//! Devices with spare blocks on which blocks are collected, that are written, stopped and read. Each of
//! their jobs fails once, or two at once, and each write is answered GOOD all the same.
use crate::dies::{opened, power_off};
use crate::players::Player;
use geometry::Config;
use nand_model::MemDie;
use std::alloc::Global;
use std::process::Abort;
use ufs_spec::Upiu;
use workbench::collected::{EACH_LEFT, Left};
use workbench::messages::{FUA, READ, WRITE, block_out, command, good, is_block, ready};
use workbench::{Workbench, new_dies, spared_config};

/// How many writes a life makes, and to how many addresses from 0 on.
const WRITES: u8 = 12;

const ADDRESSES: u8 = 6;

/// The first of the addresses that were written before, each in a life of its own: so each has a block.
const EARLIER: u8 = 16;

/// How many jobs come at least beside the writes: those of three collections, each of which reads and
/// programs a page, programs a mark, and frees a block that is erased.
const OWN_JOBS: u32 = 12;

/// A device of so many dies with so many spare blocks, of which so many blocks were written before: as
/// many as a write may fill without a collection.
#[derive(Clone, Copy)]
struct Shape {
    dies: u8,
    spare: u16,
    written: u8,
}

impl Shape {
    /// Its configuration.
    fn config(self, rt: &impl Abort) -> Config {
        spared_config(self.dies, self.spare).expect(rt, "a configuration")
    }

    /// Its dies: in each of so many lives one page was written, and each opening closed its block. No
    /// collection was begun, since none of these lives had a turn; but the first, that was mended.
    fn worn(self, rt: &impl Abort, alloc: Global) -> Vec<MemDie> {
        let mut dies = new_dies(alloc, self.dies, 20, 16).expect(rt, "memory");
        for write in 0..self.written {
            let mut bench = opened(rt, alloc, self.config(rt), dies);
            if write == 0 {
                bench.settle(4, self.dies);
            }
            let (die, address) = (write % self.dies.max(1), EARLIER.saturating_add(write));
            assert!(rt; write_on(&mut bench, die, address, write));
            dies = power_off(bench);
        }
        dies
    }
}

/// A FUA write of a block of equal bytes, whose page goes to this die: whether it is answered GOOD.
fn write_on(bench: &mut Workbench, die: u8, address: u8, byte: u8) -> bool {
    if !bench.begins_write(u32::from(address), byte) {
        return false;
    }
    // An erase may come before the program.
    bench.work(die);
    let is_heard = bench.hear() || (bench.work(die) && bench.hear());
    is_heard && bench.has_written()
}

/// Copies of the dies.
fn copied(rt: &impl Abort, alloc: Global, dies: &[MemDie]) -> Vec<MemDie> {
    let mut all = Vec::new(alloc);
    for die in dies {
        all.push(die.copy(alloc).expect(rt, "memory"))
            .expect(rt, "memory");
    }
    all
}

/// The next reply, after as many rounds of work as it needs: blocks may have to be collected first.
fn reply(rt: &impl Abort, player: &mut Player, dies: u8) -> Upiu {
    for _ in 0..64u8 {
        if let Some(reply) = player.reply(rt) {
            return reply;
        }
        player.settle(rt, 1, dies);
    }
    panic!(rt; "a reply is due");
}

/// Each of the writes is answered GOOD.
fn write_all(rt: &impl Abort, player: &mut Player, dies: u8) {
    for write in 0..WRITES {
        player.send(rt, &command(7, WRITE, FUA, u32::from(write % ADDRESSES), 1));
        assert!(rt; reply(rt, player, dies).as_slice() == ready(7, 0).as_slice());
        player.send(rt, &block_out(7, 0, write));
        assert!(rt; reply(rt, player, dies).as_slice() == good(7).as_slice());
        player.settle(rt, 1, dies);
    }
}

/// The block of this address is equal bytes.
fn expect_block(rt: &impl Abort, player: &mut Player, dies: u8, address: u8, byte: u8) {
    player.send(rt, &command(8, READ, 0, u32::from(address), 1));
    assert!(rt; is_block(reply(rt, player, dies).as_slice(), 8, 0, byte));
    assert!(rt; reply(rt, player, dies).as_slice() == good(8).as_slice());
}

/// Each address reads as the last write left it.
fn expect_written(rt: &impl Abort, player: &mut Player, dies: u8) {
    for write in WRITES - ADDRESSES..WRITES {
        expect_block(rt, player, dies, write % ADDRESSES, write);
    }
}

/// So do those that were written before.
fn expect_earlier(rt: &impl Abort, player: &mut Player, shape: Shape) {
    for write in 0..shape.written {
        let address = EARLIER.saturating_add(write);
        expect_block(rt, player, shape.dies, address, write);
    }
}

/// A life over copies of these dies in which these jobs fail, and one after it. How many jobs it had
/// before it was read.
fn play(
    rt: &impl Abort,
    alloc: Global,
    shape: Shape,
    worn: &[MemDie],
    failing: [u32; 2],
    left: Left,
) -> u32 {
    let dies = copied(rt, alloc, worn);
    let mut player = Player::over(rt, alloc, shape.config(rt), dies, failing, left);
    player.settle(rt, 4, shape.dies);
    write_all(rt, &mut player, shape.dies);
    let jobs = player.jobs;
    expect_written(rt, &mut player, shape.dies);
    player.stop(rt, Vec::new(alloc));
    player.settle(rt, 8, shape.dies);
    expect_written(rt, &mut player, shape.dies);
    expect_earlier(rt, &mut player, shape);
    drop(player);
    jobs
}

/// A life in which nothing fails: how many jobs it has.
fn jobs_of(rt: &impl Abort, alloc: Global, shape: Shape, worn: &[MemDie]) -> u32 {
    let jobs = play(rt, alloc, shape, worn, [0, 0], Left::Old);
    let least = u32::from(WRITES) + OWN_JOBS;
    assert!(rt; least <= jobs && jobs < 4 * least, "{jobs} jobs");
    jobs
}

/// Each job fails once, and what it leaves of its page or its block is old, new or torn in turn.
#[test]
fn each_job_fails_once_where_one_block_is_spare(rt: HostRuntime) {
    let (alloc, shape) = (
        rt.alloc(),
        Shape {
            dies: 2,
            spare: 1,
            written: 27,
        },
    );
    let worn = shape.worn(&rt, alloc);
    for failing in 1..=jobs_of(&rt, alloc, shape, worn.as_slice()) {
        let left = EACH_LEFT[failing as usize % 3];
        play(&rt, alloc, shape, worn.as_slice(), [failing, 0], left);
    }
}

/// Two jobs that follow each other fail, so that each job does.
#[test]
fn two_jobs_fail_where_four_blocks_are_spare(rt: HostRuntime) {
    let (alloc, shape) = (
        rt.alloc(),
        Shape {
            dies: 3,
            spare: 4,
            written: 43,
        },
    );
    let worn = shape.worn(&rt, alloc);
    for pair in 0..jobs_of(&rt, alloc, shape, worn.as_slice()).div_ceil(2) {
        let failing = pair.saturating_mul(2).saturating_add(1);
        let both = [failing, failing.saturating_add(1)];
        let left = EACH_LEFT[pair as usize % 3];
        play(&rt, alloc, shape, worn.as_slice(), both, left);
    }
}
