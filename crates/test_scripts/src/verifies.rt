//! VERIFY(10) of a device of profile 1 (SBC).
use crate::steps::Step::{
    Block, Command, Good, Lines, Refusal, Reply, Response, Send, SendAt, Settle,
};
use crate::steps::{OFFSETS, Script, Step};

/// The row configuration, and profile 1: each LUN has an attention after each opening.
const PROFILE_1: &str =
    "config 4 16 64 1 64 4\nunit 256 0 0\nunit 64 1 0\nunit 64 2 0\nprofile 1 1\n";

/// Two dies, units of 4 and of 2 blocks, and profile 1.
const SMALL: &str = "config 2 20 16 1 64 0\nunit 4 0 0\nunit 2 1 0\nprofile 1 1\n";

/// Before the device is mended a VERIFY is refused, but for the attention of unit 0, which comes first.
const READY: [Step<'static>; 5] = [
    Command("010000", "00", "", "2f0000000000000001"),
    Refusal("210000", "00", "", "06", "2900"),
    Command("010000", "01", "", "2f0000000000000001"),
    Refusal("210000", "01", "", "02", "0401"),
    Settle("4"),
];

/// Two blocks of 11h that are durable, at the first addresses of unit 0.
const WRITTEN: [Step<'static>; 4] = [
    Command("012000", "02", "00002000", "2a0000000000000002"),
    Send("02", "11", 2),
    Good("02"),
    Settle("4"),
];

/// Two pages are read beside each other, by two dies; the third block was never written.
#[test]
fn pages_are_read_at_once(rt: HostRuntime) {
    let mut script = Script::over(rt.alloc(), PROFILE_1);
    script.add(&READY);
    script.add(&WRITTEN);
    script.add(&[
        Command("010000", "03", "", "2f1000000000100003"),
        Lines("reply", "reply none"),
        Settle("1"),
        Good("03"),
        Lines("reply", "reply none"),
    ]);
    script.run(&rt);
}

/// What is still in its slot needs no read, also with flags and an expected length: GOOD at once, and all
/// that was expected is left over.
#[test]
fn blocks_at_hand_are_not_read(rt: HostRuntime) {
    let mut script = Script::over(rt.alloc(), PROFILE_1);
    script.add(&READY);
    script.add(&[
        Command("012000", "02", "00002000", "2a0000000000000002"),
        Send("02", "11", 2),
        Good("02"),
        Command("014000", "03", "00001000", "2f0000000000000002"),
        Response("212000", "03", "0000", "00001000"),
        Command("010000", "04", "", "2f0000000000000000"),
        Good("04"),
        Lines("reply", "reply none"),
    ]);
    script.run(&rt);
}

/// The read of the first of two pages fails: 3/11/00 at once, and the second page is read no more.
#[test]
fn a_failed_read_ends_it(rt: HostRuntime) {
    let mut script = Script::over(rt.alloc(), PROFILE_1);
    script.add(&READY);
    script.add(&WRITTEN);
    script.add(&[
        Command("010000", "03", "00001000", "2f0000000000000002"),
        Lines("take 0", "take 0 read 0 1"),
        Lines("done 0 fail", "done 0 yes"),
        Refusal("212000", "03", "00001000", "03", "1100"),
        Lines("reply", "reply none"),
        Lines("take 1", "take 1 none"),
        Command("014000", "04", "00001000", "280000000000000001"),
        Lines("take 0", "take 0 read 0 1"),
    ]);
    script.run(&rt);
}

/// More blocks than a command may have, blocks past the unit, BYTCHK 01 without data, BYTCHK 10 and 11, and
/// a well-known unit.
#[test]
fn wrong_ones_are_refused(rt: HostRuntime) {
    let mut script = Script::over(rt.alloc(), PROFILE_1);
    script.add(&READY);
    script.add(&[
        Command("010000", "03", "", "2f0000000000000021"),
        Refusal("210000", "03", "", "05", "2400"),
        Command("010000", "04", "", "2f00000000ff000002"),
        Refusal("210000", "04", "", "05", "2100"),
        Command("010000", "05", "", "2f0200000000000001"),
        Refusal("210000", "05", "", "05", "2400"),
        Command("010000", "06", "", "2f0400000000000001"),
        Refusal("210000", "06", "", "05", "2400"),
        Command("012000", "06", "00001000", "2f0600000000000001"),
        Refusal("212000", "06", "00001000", "05", "2400"),
        Command("0100d0", "07", "", ""),
        Refusal("2100d0", "07", "", "06", "2900"),
        Command("0100d0", "08", "", "2f0000000000000001"),
        Refusal("2100d0", "08", "", "05", "2000"),
        Lines("reply", "reply none"),
    ]);
    script.run(&rt);
}

/// With BYTCHK 01 the blocks are asked for one by one: two on dies, each once it was read, and one that
/// was never written. All three are the same.
#[test]
fn the_same_blocks_are_good(rt: HostRuntime) {
    let mut script = Script::over(rt.alloc(), PROFILE_1);
    script.add(&READY);
    script.add(&WRITTEN);
    script.add(&[
        Command("012000", "03", "00003000", "2f1200000000100003"),
        Lines("reply", "reply none"),
        Settle("1"),
        SendAt("03", OFFSETS[0], "11"),
        Lines("reply", "reply none"),
        Settle("1"),
        SendAt("03", OFFSETS[1], "11"),
        SendAt("03", OFFSETS[2], "00"),
        Good("03"),
        Lines("reply", "reply none"),
    ]);
    script.run(&rt);
}

/// Of blocks in their slots the second one is another: E/1D/00 at once, and what is left over begins with
/// the third one. Nothing was written.
#[test]
fn another_block_ends_it(rt: HostRuntime) {
    let mut script = Script::over(rt.alloc(), PROFILE_1);
    script.add(&READY);
    script.add(&[
        Command("012000", "02", "00002000", "2a0000000000000002"),
        Send("02", "11", 2),
        Good("02"),
        Command("012000", "03", "00003000", "2f0200000000000003"),
        SendAt("03", OFFSETS[0], "11"),
        SendAt("03", OFFSETS[1], "22"),
        Refusal("212000", "03", "00001000", "0e", "1d00"),
        Command("012000", "04", "00003000", "2f0200000000000003"),
        SendAt("04", OFFSETS[0], "22"),
        Refusal("212000", "04", "00002000", "0e", "1d00"),
        Command("012000", "05", "00002000", "2f0200000000000002"),
        Send("05", "11", 2),
        Good("05"),
        Lines("reply", "reply none"),
    ]);
    script.run(&rt);
}

/// The READY TO TRANSFER and the DATA OUT of the first block of task 03.
const ASKED: Step<'static> = Reply("3100000300000000000000000000000000001000", "");

const FIRST_11: Step<'static> = Lines(
    "fill 0200000300000000000010000000000000001000000000000000000000000000 11 4096",
    "host ok",
);

/// A WRITE of 22h that is accepted between the COMMAND and the data changes nothing of what is compared.
#[test]
fn what_was_there_at_the_command_is_compared(rt: HostRuntime) {
    let mut script = Script::over(rt.alloc(), PROFILE_1);
    script.add(&READY);
    script.add(&WRITTEN);
    script.add(&[
        Command("012000", "03", "00002000", "2f0200000000000002"),
        Settle("1"),
        ASKED,
        Command("012000", "04", "00002000", "2a0800000000000002"),
        Send("04", "22", 2),
        Settle("4"),
        Good("04"),
        FIRST_11,
        Settle("1"),
        SendAt("03", OFFSETS[1], "11"),
        Good("03"),
        Command("012000", "05", "00002000", "2f0200000000000002"),
        Settle("1"),
        SendAt("05", OFFSETS[0], "22"),
        Settle("1"),
        SendAt("05", OFFSETS[1], "22"),
        Good("05"),
    ]);
    script.run(&rt);
}

/// The same of blocks that are in their slots at the COMMAND.
#[test]
fn what_was_in_its_slot_is_compared(rt: HostRuntime) {
    let mut script = Script::over(rt.alloc(), PROFILE_1);
    script.add(&READY);
    script.add(&[
        Command("012000", "02", "00001000", "2a0000000000000001"),
        Send("02", "11", 1),
        Good("02"),
        Command("012000", "03", "00001000", "2f0200000000000001"),
        ASKED,
        Command("012000", "04", "00001000", "2a0000000000000001"),
        Send("04", "22", 1),
        Good("04"),
        FIRST_11,
        Good("03"),
        Command("012000", "05", "00001000", "2f0200000000000001"),
        Send("05", "11", 1),
        Refusal("210000", "05", "", "0e", "1d00"),
    ]);
    script.run(&rt);
}

/// 3/11/00 stands in the place of the READY TO TRANSFER for a block that cannot be read, the first one or
/// a later one, and what was compared before is carried.
#[test]
fn a_failed_read_ends_a_comparison(rt: HostRuntime) {
    let mut script = Script::over(rt.alloc(), PROFILE_1);
    script.add(&READY);
    script.add(&WRITTEN);
    script.add(&[
        Command("012000", "03", "00002000", "2f0200000000000002"),
        Lines("take 0", "take 0 read 0 1"),
        Lines("done 0 fail", "done 0 yes"),
        Refusal("212000", "03", "00002000", "03", "1100"),
        Lines("take 1", "take 1 none"),
        Command("012000", "04", "00002000", "2f0200000000000002"),
        Settle("1"),
        SendAt("04", OFFSETS[0], "11"),
        Lines("take 1", "take 1 read 0 0"),
        Lines("done 1 fail", "done 1 yes"),
        Refusal("212000", "04", "00001000", "03", "1100"),
        Lines("reply", "reply none"),
    ]);
    script.run(&rt);
}

/// Fewer bytes than the blocks have, the flag of the other direction, more blocks than a command may have,
/// and blocks past the unit. Without blocks it is GOOD at once, and with more bytes the rest is left over.
#[test]
fn lengths_of_a_comparison(rt: HostRuntime) {
    let mut script = Script::over(rt.alloc(), PROFILE_1);
    script.add(&READY);
    script.add(&[
        Command("012000", "03", "00001fff", "2f0200000000000002"),
        Refusal("212000", "03", "00001fff", "05", "2400"),
        Command("014000", "04", "00002000", "2f0200000000000002"),
        Refusal("212000", "04", "00002000", "05", "2400"),
        Command("012000", "05", "00021000", "2f0200000000000021"),
        Refusal("212000", "05", "00021000", "05", "2400"),
        Command("012000", "06", "00002000", "2f02000000ff000002"),
        Refusal("212000", "06", "00002000", "05", "2100"),
        Command("012000", "07", "00001000", "2f0200000000000000"),
        Response("212000", "07", "0000", "00001000"),
        Command("012000", "08", "00001001", "2f0200000000000001"),
        Send("08", "00", 1),
        Response("212000", "08", "0000", "00000001"),
        Lines("reply", "reply none"),
    ]);
    script.run(&rt);
}

/// What a VERIFY brings is not written: a block of 22h is compared, and then one of 11h, and behind the flush
/// a check of each stop finds 11h. The first mark takes two erases and a program, and the WRITE a program:
/// four moments, each with three contents.
#[test]
fn what_is_compared_is_not_written(rt: HostRuntime) {
    let mut script = Script::over(rt.alloc(), SMALL);
    script.add(&[
        Settle("4"),
        Command("010000", "01", "", ""),
        Refusal("210000", "01", "", "06", "2900"),
        Command("012000", "02", "00001000", "2a0000000000000001"),
        Send("02", "11", 1),
        Good("02"),
        Command("012000", "03", "00001000", "2f0200000000000001"),
        Send("03", "22", 1),
        Refusal("210000", "03", "", "0e", "1d00"),
        Command("012000", "04", "00001000", "2f0200000000000001"),
        Send("04", "11", 1),
        Good("04"),
        Command("010000", "05", "", "35"),
        Settle("2"),
        Good("05"),
    ]);
    script.run(&rt);
    script.check(&rt, b"check stops 12 bad 0\n");
}

/// A device of profile 0 has none.
#[test]
fn profile_0_has_none(rt: HostRuntime) {
    let mut script = Script::new(rt.alloc());
    script.add(&[
        Settle("4"),
        Command("010000", "02", "", "2f0000000000000001"),
        Refusal("210000", "02", "", "05", "2000"),
        Command("012000", "02", "00001000", "2f0200000000000001"),
        Refusal("212000", "02", "00001000", "05", "2000"),
    ]);
    script.run(&rt);
}
