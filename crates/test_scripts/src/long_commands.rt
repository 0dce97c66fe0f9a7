//! Commands of more than 32 blocks: with 256 slots or more a command may have 128, and with fewer
//! it has at most 32.
use crate::steps::Step::{
    Command, DataIn, Good, Lines, List, Refusal, Reply, Response, Send, Settle,
};
use crate::steps::{FIRST_LINES, LATER_OFFSETS, OFFSETS, Script, Step};
use std::alloc::Global;
use std::process::Abort;

/// The row configuration with 256 slots, and with one fewer.
const MANY_SLOTS: &str = "config 4 16 64 1 256 4\nunit 256 0 0\nunit 64 1 0\nunit 64 2 0\n";

const FEW_SLOTS: &str = "config 4 16 64 1 255 4\nunit 256 0 0\nunit 64 1 0\nunit 64 2 0\n";

/// WRITE(10) with FUA of the 128 blocks from address 2 on, the same without FUA, and READ(10) of
/// these blocks.
const WRITE_DURABLE: &str = "2a0800000002000080";

const WRITE: &str = "2a0000000002000080";

const READ: &str = "280000000002000080";

/// How many bytes these blocks have.
const ALL_BYTES: &str = "00080000";

/// Lists of an UNMAP from address 2 on: of 32, 33, 128 and 129 blocks.
const LIST_OF_32: &str = "001600100000000000000000000000020000002000000000";

const LIST_OF_33: &str = "001600100000000000000000000000020000002100000000";

const LIST_OF_128: &str = "001600100000000000000000000000020000008000000000";

const LIST_OF_129: &str = "001600100000000000000000000000020000008100000000";

/// An UNMAP whose list has 24 bytes, up to its list, and that it is asked for.
const BEGIN_UNMAP: Step<'static> = Command("012000", "3e", "00000018", "420000000000000018");

const ASK_FOR_LIST: Step<'static> = Reply("3100003e00000000000000000000000000000018", "");

/// An UNMAP that finds too few free slots, and a WRITE of one block that finds none: the status is
/// 08h, and all that was expected is the residual.
const BUSY_UNMAP: [Step<'static>; 2] = [
    Command("012000", "3d", "00000018", "420000000000000018"),
    Response("212000", "3d", "0108", "00000018"),
];

const BUSY_WRITE: [Step<'static>; 2] = [
    Command("012000", "3c", "00001000", "2a00000000ff000001"),
    Response("212000", "3c", "0108", "00001000"),
];

impl Script {
    /// A WRITE with FUA of 128 blocks of 77h, up to its programs. The first mark is on the dies.
    fn begin_long_group(&mut self) {
        self.add(&[
            Settle("4"),
            Command("012000", "07", ALL_BYTES, WRITE_DURABLE),
            Send("07", "77", 128),
        ]);
    }

    /// A READ of these 128 blocks, all of which are full of one byte.
    fn read_128(&mut self, byte: &str) {
        self.add(&[Command("014000", "08", ALL_BYTES, READ)]);
        self.blocks("08", &OFFSETS, byte);
        self.blocks("08", &LATER_OFFSETS, byte);
        self.add(&[Good("08")]);
    }

    /// A WRITE of so many blocks with this tag, which the device takes: it asks for the first of
    /// them. The expected length is that of 128 blocks.
    fn open_write(&mut self, tag: &str, cdb: &str, asked: &str) {
        self.add(&[Command("012000", tag, ALL_BYTES, cdb), Reply(asked, "")]);
    }
}

/// A WRITE with FUA of 128 blocks is answered once all of them are programmed, and all are read
/// back then. Those beside them are as before.
#[test]
fn a_group_of_128_blocks_is_answered_once(rt: HostRuntime) {
    let mut script = Script::over(rt.alloc(), MANY_SLOTS);
    script.begin_long_group();
    script.add(&[Lines("reply", "reply none"), Settle("31")]);
    script.add(&[Lines("reply", "reply none"), Settle("2"), Good("07")]);
    script.read_128("77");
    script.add(&[
        Command("014000", "09", "00002000", "280000000001000002"),
        DataIn("09", OFFSETS[0], "1000", "00", 4096),
        Settle("1"),
        DataIn("09", OFFSETS[1], "1000", "77", 4096),
        Good("09"),
        Command("014000", "0a", "00002000", "280000000081000002"),
        Settle("1"),
        DataIn("0a", OFFSETS[0], "1000", "77", 4096),
        DataIn("0a", OFFSETS[1], "1000", "00", 4096),
        Good("0a"),
    ]);
    script.run(&rt);
}

/// The READ and the WRITE of so many blocks from address 0 on get 5/24/00, and nothing is carried.
fn expect_refused<'a>(
    rt: &impl Abort,
    alloc: Global,
    first_lines: &str,
    expected: &'a str,
    cdbs: [&'a str; 2],
) {
    let [read, write] = cdbs;
    let mut script = Script::over(alloc, first_lines);
    script.add(&[
        Settle("4"),
        Command("014000", "01", expected, read),
        Refusal("212000", "01", expected, "05", "2400"),
        Command("012000", "02", expected, write),
        Refusal("212000", "02", expected, "05", "2400"),
    ]);
    script.run(rt);
}

/// With 256 slots commands of 129 blocks are refused.
#[test]
fn commands_of_129_blocks_are_refused(rt: HostRuntime) {
    let cdbs = ["280000000000000081", "2a0800000000000081"];
    expect_refused(&rt, rt.alloc(), MANY_SLOTS, "00081000", cdbs);
}

/// With 255 slots, as with 64, commands of 33 blocks are refused.
#[test]
fn commands_of_33_blocks_are_refused_with_few_slots(rt: HostRuntime) {
    let cdbs = ["280000000000000021", "2a0800000000000021"];
    for first_lines in [FEW_SLOTS, FIRST_LINES] {
        expect_refused(&rt, rt.alloc(), first_lines, "00021000", cdbs);
    }
}

/// An UNMAP of 128 blocks makes all of them zeros, and they are zeros after a stop. One of 129
/// changes nothing.
#[test]
fn a_list_of_128_blocks_is_taken(rt: HostRuntime) {
    let mut script = Script::over(rt.alloc(), MANY_SLOTS);
    script.begin_long_group();
    script.add(&[
        Settle("33"),
        Good("07"),
        List("01", "18", LIST_OF_129),
        Refusal("210000", "01", "", "05", "2600"),
    ]);
    script.read_128("77");
    script.add(&[List("02", "18", LIST_OF_128), Good("02"), Settle("40")]);
    script.read_128("00");
    script.add(&[Lines("stop", "stop ok"), Settle("40")]);
    script.read_128("00");
    script.run(&rt);
}

/// With 255 slots a list of 33 blocks is refused, and one of 32 is taken.
#[test]
fn a_list_of_33_blocks_is_refused_with_few_slots(rt: HostRuntime) {
    for first_lines in [FEW_SLOTS, FIRST_LINES] {
        let mut script = Script::over(rt.alloc(), first_lines);
        script.add(&[
            Settle("4"),
            List("01", "18", LIST_OF_33),
            Refusal("210000", "01", "", "05", "2600"),
            List("02", "18", LIST_OF_32),
            Good("02"),
        ]);
        script.run(&rt);
    }
}

/// With 256 slots an UNMAP claims 128 of them: beside a WRITE of 128 blocks there are just so many,
/// and none is left.
#[test]
fn an_unmap_claims_128_slots(rt: HostRuntime) {
    let mut script = Script::over(rt.alloc(), MANY_SLOTS);
    script.add(&[Settle("4")]);
    script.open_write("01", WRITE, "3100000100000000000000000000000000001000");
    script.add(&[BEGIN_UNMAP, ASK_FOR_LIST]);
    script.add(&BUSY_WRITE);
    script.add(&BUSY_UNMAP);
    script.run(&rt);
}

/// With 127 free slots an UNMAP gets the status 08h, and a WRITE of one block is taken.
#[test]
fn an_unmap_with_127_free_slots_is_busy(rt: HostRuntime) {
    let mut script = Script::over(rt.alloc(), MANY_SLOTS);
    script.add(&[Settle("4")]);
    script.open_write("01", WRITE, "3100000100000000000000000000000000001000");
    script.open_write(
        "02",
        "2a00000000ff000001",
        "3100000200000000000000000000000000001000",
    );
    script.add(&BUSY_UNMAP);
    script.open_write(
        "03",
        "2a00000000fe000001",
        "3100000300000000000000000000000000001000",
    );
    script.run(&rt);
}

/// WRITEs of 32 blocks with these tags are open, each of which was asked for its first block.
const OPEN_WRITES: [(&str, &str); 7] = [
    ("01", "3100000100000000000000000000000000001000"),
    ("02", "3100000200000000000000000000000000001000"),
    ("03", "3100000300000000000000000000000000001000"),
    ("04", "3100000400000000000000000000000000001000"),
    ("05", "3100000500000000000000000000000000001000"),
    ("06", "3100000600000000000000000000000000001000"),
    ("07", "3100000700000000000000000000000000001000"),
];

/// With 64 slots and with 255 an UNMAP claims 32: beside one WRITE of 32 blocks, or beside six of
/// them and one of 31, there are just so many, and none is left.
#[test]
fn an_unmap_claims_32_of_few_slots(rt: HostRuntime) {
    for (first_lines, count) in [(FIRST_LINES, 1), (FEW_SLOTS, 7)] {
        let mut script = Script::over(rt.alloc(), first_lines);
        script.add(&[Settle("4")]);
        for (tag, asked) in OPEN_WRITES.iter().take(count) {
            let is_shorter = *tag == "07";
            let cdb = if is_shorter {
                "2a000000000000001f"
            } else {
                "2a0000000000000020"
            };
            script.open_write(tag, cdb, asked);
        }
        script.add(&[BEGIN_UNMAP, ASK_FOR_LIST]);
        script.add(&BUSY_WRITE);
        script.add(&BUSY_UNMAP);
        script.run(&rt);
    }
}

/// What the dies take in the last two of the 32 rounds of a group of 128 pages. The first page of
/// die 0 is a mark.
const LAST_ROUNDS: [&str; 2] = [
    "take 0 program 0 31\ntake 1 program 0 30\ntake 2 program 0 30\ntake 3 program 0 30",
    "take 0 program 0 32\ntake 1 program 0 31\ntake 2 program 0 31\ntake 3 program 0 31",
];

/// A group of 128 pages is programmed up to the jobs of this one of its last two rounds, after so
/// many, and stopped. All its blocks read then as this byte.
fn stop_in_long_group<'a>(
    rt: &impl Abort,
    alloc: Global,
    before: &'a str,
    jobs: &'a str,
    stop: &'a str,
    byte: &str,
) {
    let mut script = Script::over(alloc, MANY_SLOTS);
    script.begin_long_group();
    script.add(&[
        Settle(before),
        Lines("take 0\ntake 1\ntake 2\ntake 3", jobs),
        Lines(stop, "stop ok"),
        Settle("200"),
    ]);
    script.read_128(byte);
    script.run(rt);
}

/// A stop in the last round but one leaves nothing of a group of 128 pages, whatever its pages
/// become. In the last one the group is there if its last four pages are all whole, and else
/// nothing of it.
#[test]
fn a_stop_leaves_a_group_of_128_whole_or_not(rt: HostRuntime) {
    let alloc = rt.alloc();
    let [last_but_one, last] = LAST_ROUNDS;
    let new = "stop 0:new 1:new 2:new 3:new";
    stop_in_long_group(&rt, alloc, "30", last_but_one, new, "00");
    stop_in_long_group(&rt, alloc, "31", last, new, "77");
    let torn = "stop 0:new 1:new 2:torn 3:new";
    stop_in_long_group(&rt, alloc, "31", last, torn, "00");
    let old = "stop 0:old 1:new 2:new 3:new";
    stop_in_long_group(&rt, alloc, "31", last, old, "00");
}
