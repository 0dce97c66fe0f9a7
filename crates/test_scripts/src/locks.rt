//! Bad blocks as scripts: the device goes on while no more blocks are bad than are spare, and takes no
//! write once more are.
use crate::steps::Step::{Block, Command, Good, Lines, Refusal, Send, Settle};
use crate::steps::{Script, Step};

/// A WRITE(10) with FUA of one block, tag 07, that came whole.
const WRITTEN: [Step<'static>; 3] = [
    Settle("4"),
    Command("012000", "07", "00001000", "2a0800000000000001"),
    Send("07", "5a", 1),
];

/// Four blocks go bad, one on each die: each program of the page fails.
const FOUR_BAD: [Step<'static>; 8] = [
    Lines("take 0", "take 0 program 0 1"),
    Lines("done 0 fail", "done 0 yes"),
    Lines("take 1", "take 1 program 0 0"),
    Lines("done 1 fail", "done 1 yes"),
    Lines("take 2", "take 2 program 0 0"),
    Lines("done 2 fail", "done 2 yes"),
    Lines("take 3", "take 3 program 0 0"),
    Lines("done 3 fail", "done 3 yes"),
];

/// Its block is read.
const READ: [Step<'static>; 3] = [
    Command("014000", "09", "00001000", "280000000000000001"),
    Block("09", "5a"),
    Good("09"),
];

/// A READ that owes a die its block.
const READ_FROM_DIE: [Step<'static>; 4] = [
    Command("014000", "09", "00001000", "280000000000000001"),
    Settle("1"),
    Block("09", "5a"),
    Good("09"),
];

/// As many blocks are bad as are spare: the page is programmed elsewhere, and each write is GOOD, also
/// after a stop.
#[test]
fn a_device_goes_on_with_as_many_bad_blocks_as_are_spare(rt: HostRuntime) {
    let mut script = Script::new(rt.alloc());
    script.add(&WRITTEN);
    script.add(&FOUR_BAD);
    script.add(&[Lines("reply", "reply none")]);
    script.add(&READ);
    script.add(&[Settle("4"), Good("07")]);
    script.add(&READ_FROM_DIE);
    script.add(&[Lines("stop", "stop ok"), Settle("16")]);
    script.add(&READ_FROM_DIE);
    script.add(&[
        Command("012000", "07", "00001000", "2a0800000001000001"),
        Send("07", "66", 1),
        Settle("4"),
        Good("07"),
    ]);
    script.run(&rt);
}

/// The fifth bad block locks the device: the write that waits ends with a write error, a further one is
/// refused, and the block is read all the same.
#[test]
fn one_bad_block_more_locks_the_device(rt: HostRuntime) {
    let mut script = Script::new(rt.alloc());
    script.add(&WRITTEN);
    script.add(&FOUR_BAD);
    script.add(&[
        Lines("take 0", "take 0 erase 1"),
        Lines("done 0 ok", "done 0 yes"),
        Lines("take 0", "take 0 program 1 0"),
        Lines("done 0 fail", "done 0 yes"),
        Refusal("210000", "07", "", "03", "0c00"),
        Command("012000", "08", "00001000", "2a0800000001000001"),
        Refusal("212000", "08", "00001000", "07", "2700"),
        Command("012000", "08", "00000018", "420000000000000018"),
        Refusal("212000", "08", "00000018", "07", "2700"),
    ]);
    script.add(&READ);
    // The page waits still: a flush is refused, and once it is programmed a flush is GOOD.
    script.add(&[
        Command("010000", "0a", "", "35"),
        Refusal("210000", "0a", "", "07", "2700"),
        Settle("4"),
        Command("010000", "0a", "", "35"),
        Good("0a"),
    ]);
    script.add(&READ_FROM_DIE);
    script.run(&rt);
}

/// The lock stays over a stop, and what was accepted before it is still read.
#[test]
fn a_lock_stays_over_a_stop(rt: HostRuntime) {
    let mut script = Script::new(rt.alloc());
    script.add(&WRITTEN);
    script.add(&FOUR_BAD);
    script.add(&[
        Lines("take 0", "take 0 erase 1"),
        Lines("done 0 fail", "done 0 yes"),
        Refusal("210000", "07", "", "03", "0c00"),
        Settle("4"),
        Lines("stop", "stop ok"),
        Settle("16"),
        Command("012000", "08", "00001000", "2a0800000001000001"),
        Refusal("212000", "08", "00001000", "07", "2700"),
    ]);
    script.add(&READ_FROM_DIE);
    script.run(&rt);
}
