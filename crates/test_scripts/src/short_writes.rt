//! WRITEs of a device of profile 1 whose host sends fewer bytes than they have.
use crate::steps::Step::{Block, Command, DataIn, Good, Lines, Refusal, Response, Send, Settle};
use crate::steps::{OFFSETS, Script, Step};

/// The row configuration, and profile 1: each LUN has an attention after each opening.
const PROFILE_1: &str =
    "config 4 16 64 1 64 4\nunit 256 0 0\nunit 64 1 0\nunit 64 2 0\nprofile 1 1\n";

/// The attention of unit 0 ends with a TEST UNIT READY, 6/29/00.
const READY: [Step<'static>; 3] = [
    Settle("4"),
    Command("010000", "01", "", "00"),
    Refusal("210000", "01", "", "06", "2900"),
];

/// Of two blocks one comes: one READY TO TRANSFER, then an overflow of the other block. The second
/// block stays zeros.
#[test]
fn the_whole_blocks_are_written(rt: HostRuntime) {
    let mut script = Script::over(rt.alloc(), PROFILE_1);
    script.add(&READY);
    script.add(&[
        Command("012000", "02", "00001000", "2a0000000001000002"),
        Send("02", "aa", 1),
        Response("214000", "02", "0000", "00001000"),
        Command("014000", "03", "00002000", "280000000001000002"),
        Block("03", "aa"),
        DataIn("03", OFFSETS[1], "1000", "00", 4096),
        Good("03"),
        Lines("reply", "reply none"),
    ]);
    script.run(&rt);
}

/// Of two blocks 8191 bytes come: what is left over is a whole block, and not the byte that is missing.
#[test]
fn a_block_in_part_is_left_over(rt: HostRuntime) {
    let mut script = Script::over(rt.alloc(), PROFILE_1);
    script.add(&READY);
    script.add(&[
        Command("012000", "02", "00001fff", "2a0000000001000002"),
        Send("02", "bb", 1),
        Response("214000", "02", "0000", "00001000"),
    ]);
    script.run(&rt);
}

/// Less than a block comes: no READY TO TRANSFER, and all is left over. A WRITE whose blocks do not lie
/// in the unit, and one with the flag of the other direction, are refused all the same.
#[test]
fn less_than_a_block_is_not_asked_for(rt: HostRuntime) {
    let mut script = Script::over(rt.alloc(), PROFILE_1);
    script.add(&READY);
    script.add(&[
        Command("012000", "02", "00000fff", "2a0000000001000002"),
        Response("214000", "02", "0000", "00002000"),
        Lines("reply", "reply none"),
        Command("012000", "03", "00001000", "2a00000000ff000002"),
        Refusal("212000", "03", "00001000", "05", "2100"),
        Command("014000", "04", "00001000", "2a0000000001000002"),
        Refusal("212000", "04", "00001000", "05", "2400"),
    ]);
    script.run(&rt);
}

/// With FUA the answer waits for the block that came.
#[test]
fn a_forced_one_waits_for_what_came(rt: HostRuntime) {
    let mut script = Script::over(rt.alloc(), PROFILE_1);
    script.add(&READY);
    script.add(&[
        Command("012000", "02", "00001000", "2a0800000001000002"),
        Send("02", "cc", 1),
        Lines("reply", "reply none"),
        Settle("4"),
        Response("214000", "02", "0000", "00001000"),
    ]);
    script.run(&rt);
}

/// A device of profile 0 refuses each of them.
#[test]
fn profile_0_takes_none(rt: HostRuntime) {
    let mut script = Script::new(rt.alloc());
    script.add(&[
        Settle("4"),
        Command("012000", "02", "00001000", "2a0000000001000002"),
        Refusal("212000", "02", "00001000", "05", "2400"),
        Lines("reply", "reply none"),
    ]);
    script.run(&rt);
}
