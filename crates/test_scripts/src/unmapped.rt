//! UNMAP as scripts: its blocks become zeros, durable as those of a WRITE without FUA (SBC, UNMAP).
use crate::steps::Step::{
    Block, Command, DataIn, Good, Lines, List, Refusal, Response, Send, Settle,
};
use crate::steps::{OFFSETS, Script, Step};

/// Four blocks of bytes 77h from address 4 on.
const WRITTEN: [Step<'static>; 4] = [
    Settle("4"),
    Command("012000", "01", "00004000", "2a0000000004000004"),
    Send("01", "77", 4),
    Good("01"),
];

/// The list that names addresses 5 and 6.
const FIVE_AND_SIX: &str = "001600100000000000000000000000050000000200000000";

/// Addresses 5 and 6 are unmapped, which is answered at once.
const UNMAPPED: [Step<'static>; 2] = [List("02", "18", FIVE_AND_SIX), Good("02")];

/// A READ of the four blocks that finds them all at hand, with these bytes.
fn read_at_once<'a>(middle: &'a str) -> [Step<'a>; 6] {
    [
        Command("014000", "03", "00004000", "280000000004000004"),
        DataIn("03", OFFSETS[0], "1000", "77", 4096),
        DataIn("03", OFFSETS[1], "1000", middle, 4096),
        DataIn("03", OFFSETS[2], "1000", middle, 4096),
        DataIn("03", OFFSETS[3], "1000", "77", 4096),
        Good("03"),
    ]
}

/// The same of blocks that dies read, one after another.
fn read_from_dies<'a>(middle: &'a str) -> [Step<'a>; 10] {
    [
        Command("014000", "03", "00004000", "280000000004000004"),
        Settle("1"),
        DataIn("03", OFFSETS[0], "1000", "77", 4096),
        Settle("1"),
        DataIn("03", OFFSETS[1], "1000", middle, 4096),
        Settle("1"),
        DataIn("03", OFFSETS[2], "1000", middle, 4096),
        Settle("1"),
        DataIn("03", OFFSETS[3], "1000", "77", 4096),
        Good("03"),
    ]
}

/// Addresses 5 and 6 read as zeros, 4 and 7 as before: from the cache, from the dies, and after a stop.
#[test]
fn unmapped_blocks_read_as_zeros(rt: HostRuntime) {
    let mut script = Script::new(rt.alloc());
    script.add(&WRITTEN);
    script.add(&UNMAPPED);
    script.add(&read_at_once("00"));
    script.add(&[Settle("16")]);
    script.add(&read_from_dies("00"));
    script.add(&[Lines("stop", "stop ok"), Settle("16")]);
    script.add(&read_from_dies("00"));
    script.run(&rt);
}

/// A stop right after the answer gives back what was there: the answer does not say that it is durable.
#[test]
fn an_unmap_is_not_durable_at_its_answer(rt: HostRuntime) {
    let mut script = Script::new(rt.alloc());
    script.add(&WRITTEN);
    script.add(&[Settle("8")]);
    script.add(&UNMAPPED);
    script.add(&[Lines("stop", "stop ok"), Settle("16")]);
    script.add(&read_from_dies("77"));
    script.run(&rt);
}

/// A SYNCHRONIZE CACHE waits for it.
#[test]
fn a_flush_makes_an_unmap_durable(rt: HostRuntime) {
    let mut script = Script::new(rt.alloc());
    script.add(&WRITTEN);
    script.add(&[Settle("8")]);
    script.add(&UNMAPPED);
    script.add(&[
        Command("010000", "05", "", "35"),
        Lines("reply", "reply none"),
        Settle("4"),
        Good("05"),
        Lines("stop", "stop ok"),
        Settle("16"),
    ]);
    script.add(&read_from_dies("00"));
    script.run(&rt);
}

/// An UNMAP of eight blocks is one group: after a stop at any moment all of them are as before, or zeros.
#[test]
fn an_unmap_is_all_or_nothing(rt: HostRuntime) {
    let mut script = Script::over(rt.alloc(), "config 2 20 16 1 64 0\nunit 12 0 0\n");
    script.add(&[
        Settle("4"),
        Command("012000", "01", "00008000", "2a0800000000000008"),
        Send("01", "77", 8),
        Settle("8"),
        Good("01"),
        List(
            "02",
            "18",
            "001600100000000000000000000000000000000800000000",
        ),
        Good("02"),
        Settle("8"),
        Command("014000", "03", "00001000", "280000000007000001"),
        Settle("1"),
        Block("03", "00"),
        Good("03"),
    ]);
    script.run(&rt);
    script.check(&rt, b"check stops 57 bad 0\n");
}

/// fPowerOnWPEn protects unit 1, whose blocks are not unmapped then; a list without a descriptor is
/// judged all the same.
#[test]
fn a_protected_unit_is_not_unmapped(rt: HostRuntime) {
    let mut script = Script::over(
        rt.alloc(),
        "config 4 16 64 1 64 4\nunit 256 1 1\nunit 64 0 0\n",
    );
    script.add(&[
        Settle("4"),
        Step::Query("06", "81", "06030000", "", ""),
        Step::Told("06", "8100", "06030000", "", "00000001", ""),
        Command("012000", "02", "00000018", "420000000000000018"),
        Refusal("212000", "02", "00000018", "07", "2700"),
        List("03", "08", "0006000000000000"),
        Good("03"),
    ]);
    script.run(&rt);
}

/// A new device unmaps nothing before it is mended, and a cache without 32 free slots not either.
#[test]
fn an_unmap_waits_for_the_mending_and_for_slots(rt: HostRuntime) {
    let mut script = Script::new(rt.alloc());
    script.add(&[
        Command("012000", "02", "00000018", "420000000000000018"),
        Refusal("212000", "02", "00000018", "02", "0401"),
        Settle("4"),
        Command("012000", "01", "00020000", "2a0000000000000020"),
        Command("012000", "02", "00001000", "2a0000000020000001"),
        Command("012000", "03", "00000018", "420000000000000018"),
        // Tags 01 and 02 ask for their first blocks.
        Lines(
            "reply",
            "reply 3100000100000000000000000000000000001000000000000000000000000000",
        ),
        Lines(
            "reply",
            "reply 3100000200000000000000000000000000001000000000000000000000000000",
        ),
        Response("212000", "03", "0108", "00000018"),
    ]);
    script.run(&rt);
}
