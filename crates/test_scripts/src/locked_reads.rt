//! A locked device that is not mended, as scripts: what it holds is read, also where no block is free any
//! more. The MAC of the result is that of another HMAC with SHA-256.
use crate::frames::{COUNTER_1, COUNTER_REQUEST, Frame, KEY_REQUEST, RESULT_REQUEST, ZEROS};
use crate::rpmb_write_stopped::{AT_13, EIGHT, READ, READ_NEW};
use crate::steps::Step::{
    Answer, Block, Command, Frames, Good, GoodFrames, Lines, Refusal, Request, Send, Settle,
};
use crate::steps::{Script, Step};

/// One die of 18 blocks of 64 pages, one unit, one step of RPMB, 64 slots, and no spare block.
const ONE_DIE: &str = "config 1 18 64 1 64 0\nunit 64 0 0\n";

/// The first mark is page 0 of block 0, and the key page 1. An RPMB write of eight blocks is pages 2 to 4:
/// two of the area, and the settings with the counter. A WRITE with FUA of one block of 5Ah at address 0
/// is page 5.
const WRITTEN: [Step<'static>; 10] = [
    Settle("4"),
    Frames("01", &[KEY_REQUEST]),
    Settle("1"),
    GoodFrames("01"),
    Frames("02", &EIGHT),
    Settle("4"),
    GoodFrames("02"),
    Command("012000", "07", "00001000", "2a0800000000000001"),
    Send("07", "5a", 1),
    Settle("2"),
];

/// A WRITE of two blocks of 66h at addresses 0 and 1. The program of its first page fails: one block is
/// bad, and the device is locked. That page comes into the next block then, and the power fails inside
/// the program of the second one. So the group is lost.
const LOCKED: [Step<'static>; 12] = [
    Good("07"),
    Command("012000", "08", "00002000", "2a0000000000000002"),
    Send("08", "66", 2),
    Good("08"),
    Lines("take 0", "take 0 program 0 6"),
    Lines("done 0 fail", "done 0 yes"),
    Lines("take 0", "take 0 erase 1"),
    Lines("done 0 ok", "done 0 yes"),
    Lines("take 0", "take 0 program 1 0"),
    Lines("done 0 ok", "done 0 yes"),
    Lines("take 0", "take 0 program 1 1"),
    Lines("stop 0:torn", "stop ok"),
];

/// TEST UNIT READY says that the device is not mended. A WRITE, an UNMAP and an RPMB write meet a locked
/// device, and a flush has nothing to wait for.
const REFUSED: [Step<'static>; 8] = [
    Command("010000", "0b", "", ""),
    Refusal("210000", "0b", "", "02", "0401"),
    Command("012000", "08", "00001000", "2a0800000001000001"),
    Refusal("212000", "08", "00001000", "07", "2700"),
    Command("012000", "08", "00000018", "420000000000000018"),
    Refusal("212000", "08", "00000018", "07", "2700"),
    Command("010000", "0a", "", "35"),
    Good("0a"),
];

/// The block at address 0 is the one before the lost WRITE; nothing of that one is at address 1.
const READS: [Step<'static>; 8] = [
    Command("014000", "09", "00001000", "280000000000000001"),
    Lines("take 0", "take 0 read 0 5"),
    Lines("done 0 ok", "done 0 yes"),
    Block("09", "5a"),
    Good("09"),
    Command("014000", "09", "00001000", "280000000001000001"),
    Block("09", "00"),
    Good("09"),
];

/// The response to an RPMB write that a locked device does not take: write failure.
const FAILED: Frame<'static> = Frame {
    key_or_mac: "156a208b116e43da0c09e03b673f91883f5e0779ee454dd054084c182a36338e",
    counter: "00000001",
    address: "000d",
    result: "0005",
    kind: "0300",
    ..ZEROS
};

/// The counter, the eight blocks of the area, and a write, whose result is asked for.
const RPMB_READS: [Step<'static>; 13] = [
    Request("03", &[COUNTER_REQUEST]),
    Answer("04", &[COUNTER_1]),
    Frames("03", &[READ]),
    Lines("take 0", "take 0 read 0 2"),
    Lines("done 0 ok", "done 0 yes"),
    Lines("take 0", "take 0 read 0 3"),
    Lines("done 0 ok", "done 0 yes"),
    GoodFrames("03"),
    Answer("04", &READ_NEW),
    Frames("05", &[AT_13]),
    GoodFrames("05"),
    Request("06", &[RESULT_REQUEST]),
    Answer("04", &[FAILED]),
];

/// The blocks that are free after the stop, as `take` prints their erases: block 0 is bad, and block 1 has
/// pages of the lost group.
const ERASES: [&str; 16] = [
    "take 0 erase 2",
    "take 0 erase 3",
    "take 0 erase 4",
    "take 0 erase 5",
    "take 0 erase 6",
    "take 0 erase 7",
    "take 0 erase 8",
    "take 0 erase 9",
    "take 0 erase 10",
    "take 0 erase 11",
    "take 0 erase 12",
    "take 0 erase 13",
    "take 0 erase 14",
    "take 0 erase 15",
    "take 0 erase 16",
    "take 0 erase 17",
];

/// All that is asked of a locked device that is not mended.
fn asked(script: &mut Script) {
    script.add(&REFUSED);
    script.add(&READS);
    script.add(&RPMB_READS);
}

/// Right after the stop the locked device is read. Once it is mended TEST UNIT READY is GOOD, and all
/// else is as before.
#[test]
fn a_locked_device_is_read_before_it_is_mended(rt: HostRuntime) {
    let mut script = Script::over(rt.alloc(), ONE_DIE);
    script.add(&WRITTEN);
    script.add(&LOCKED);
    asked(&mut script);
    script.add(&[
        Settle("16"),
        Command("010000", "0b", "", ""),
        Good("0b"),
        Command("012000", "08", "00001000", "2a0800000001000001"),
        Refusal("212000", "08", "00001000", "07", "2700"),
        Command("014000", "09", "00001000", "280000000000000001"),
        Settle("1"),
        Block("09", "5a"),
        Good("09"),
    ]);
    script.run(&rt);
}

/// The mending needs a block for its mark, and each erase fails, so that at last no block is free. All
/// that was durable is read, after two more stops too.
#[test]
fn a_device_without_a_free_block_is_read(rt: HostRuntime) {
    let mut script = Script::over(rt.alloc(), ONE_DIE);
    script.add(&WRITTEN);
    script.add(&LOCKED);
    script.add(&[Lines("turn", "turn yes")]);
    for erase in &ERASES {
        script.add(&[Lines("take 0", erase), Lines("done 0 fail", "done 0 yes")]);
    }
    script.add(&[Lines("take 0", "take 0 none")]);
    for _ in 0..3u8 {
        asked(&mut script);
        script.add(&[Lines("stop", "stop ok")]);
    }
    asked(&mut script);
    script.run(&rt);
}
