//! Stops inside the first mark, and inside erases, page by page of the block.
use crate::dies::small_dies;
use crate::players::Player;
use nand_model::{Die, MemDie};
use std::alloc::Global;
use std::process::Abort;
use ufs_spec::{Event, Job, Leftover, Output};
use workbench::collected::{EACH_LEFT, Left, torn};
use workbench::messages::{FUA, WRITE, block_out, command};

/// What an erase leaves where a stop comes: of one page this, and of the others that.
const MIXTURES: [(Left, Left); 6] = [
    (Left::Old, Left::New),
    (Left::Old, Left::Torn),
    (Left::New, Left::Old),
    (Left::New, Left::Torn),
    (Left::Torn, Left::Old),
    (Left::Torn, Left::New),
];

/// The first block of the die holds what an older stop left: pages that do not open.
fn tear(rt: &impl Abort, die: &mut MemDie) {
    let left = torn();
    for page in 0..16u16 {
        assert!(rt; 0 < die.blocks() && page < die.pages());
        die.set_page(0, page, &left);
    }
}

/// A device at its first step, over small dies with such blocks.
fn begun(rt: &impl Abort, alloc: Global) -> Player {
    let mut dies = small_dies(rt, alloc);
    for die in dies.iter_mut() {
        tear(rt, die);
    }
    Player::new(rt, alloc, dies, 0, Left::Old)
}

/// A stop inside the erase that the die has in flight: one page is left so, the others otherwise.
fn stop_in_erase(rt: &impl Abort, player: &mut Player, job: &Job, odd: u16, lefts: (Left, Left)) {
    let Job::Erase { die, block } = job else {
        panic!(rt; "the die erases");
    };
    let block = player.block_left(rt, *die, *block, odd, lefts);
    player.stop_leaving(rt, block);
    player.settle(rt, 4, 2);
}

/// A write is GOOD.
fn expect_good(rt: &impl Abort, player: &mut Player, address: u8, byte: u8) {
    let answer = player.write(rt, address, byte);
    assert!(rt; answer.len() == 32 && answer.get(7).copied() == Some(0));
}

/// The block is read.
fn expect_read(rt: &impl Abort, player: &mut Player, address: u8, byte: u8) {
    let reply = player.read(rt, address);
    player.expect_block(rt, &reply, byte);
}

/// A write is GOOD, and its block is read.
fn expect_written(rt: &impl Abort, player: &mut Player, address: u8, byte: u8) {
    expect_good(rt, player, address, byte);
    expect_read(rt, player, address, byte);
}

/// A stop in the erase that the first mark needs: one page is left so, the others otherwise.
fn stop_in_the_first_erase(rt: &impl Abort, alloc: Global, odd: u16, lefts: (Left, Left)) {
    let mut player = begun(rt, alloc);
    player.step(rt, &Event::Turn);
    let job = player.take(rt, 0).expect(rt, "an erase is owed");
    stop_in_erase(rt, &mut player, &job, odd, lefts);
    expect_written(rt, &mut player, 3, 0x33);
    drop(player);
}

/// Each page of the erase that the first mark needs is left old, new and torn, the others
/// otherwise: the device opens, and takes a write.
#[test]
fn a_stop_in_the_first_erase(rt: HostRuntime) {
    for odd in 0..16u16 {
        for lefts in MIXTURES {
            stop_in_the_first_erase(&rt, rt.alloc(), odd, lefts);
        }
    }
}

/// A write is acknowledged, and the next one needs the erase of die 1.
fn erase_of_a_write(rt: &impl Abort, player: &mut Player) -> Job {
    player.settle(rt, 4, 1);
    expect_good(rt, player, 0, 0x11);
    player.send(rt, &command(7, WRITE, FUA, 1, 1));
    player.hear(rt, 0);
    player.send(rt, &block_out(7, 0, 0x22));
    player.take(rt, 1).expect(rt, "an erase is owed")
}

/// A stop in that erase: one page is left so, the others otherwise.
fn stop_in_the_erase_of_a_write(rt: &impl Abort, alloc: Global, odd: u16, lefts: (Left, Left)) {
    let mut player = begun(rt, alloc);
    let job = erase_of_a_write(rt, &mut player);
    stop_in_erase(rt, &mut player, &job, odd, lefts);
    expect_read(rt, &mut player, 0, 0x11);
    expect_read(rt, &mut player, 1, 0);
    expect_written(rt, &mut player, 1, 0x33);
    drop(player);
}

/// The same in the erase that a write needs: the write before it, which was acknowledged, is there;
/// the write itself is not, and may be done again.
#[test]
fn a_stop_in_the_erase_of_a_write(rt: HostRuntime) {
    for odd in 0..16u16 {
        for lefts in MIXTURES {
            stop_in_the_erase_of_a_write(&rt, rt.alloc(), odd, lefts);
        }
    }
}

/// A stop in the program of the first mark, which is left so.
fn stop_in_the_first_mark(rt: &impl Abort, player: &mut Player, left: Left) {
    player.step(rt, &Event::Turn);
    player.work(rt, 0);
    let Some(Job::Program(place, page)) = player.take(rt, 0) else {
        panic!(rt; "the program of the mark is owed");
    };
    let page = player.page_left(rt, place, page, left);
    player.stop_leaving(rt, Leftover::Page(place, page));
}

/// The device is mended after that stop, and takes a write. With the whole mark on its die nothing is left to
/// mend.
fn expect_mended(rt: &impl Abort, player: &mut Player, left: Left) {
    let turned = player.step(rt, &Event::Turn);
    assert!(rt; matches!(turned, Output::Turn(due) if due == (left != Left::New)));
    player.settle(rt, 4, 2);
    expect_written(rt, player, 3, 0x33);
}

/// The page of the first mark is left old, new and torn: the device is mended, and takes a write.
#[test]
fn a_stop_in_the_first_mark(rt: HostRuntime) {
    for left in EACH_LEFT {
        let mut player = begun(&rt, rt.alloc());
        stop_in_the_first_mark(&rt, &mut player, left);
        expect_mended(&rt, &mut player, left);
        drop(player);
    }
}
