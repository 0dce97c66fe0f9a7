//! Commands of several blocks: their data, what a stop leaves of a group, and slots.
ghost use Rattle.std.specs.Prelude.{◌<◌};

use crate::steps::Step::{Command, DataIn, Good, Lines, Refusal, Reply, Response, Send, Settle};
use crate::steps::{OFFSETS, Script, expect};
use std::alloc::Global;
use std::process::Abort;

/// WRITE(10) with FUA of 32 blocks from address 0 on, the same without FUA, and READ(10) of these blocks.
const WRITE_DURABLE: &str = "2a0800000000000020";

const WRITE: &str = "2a0000000000000020";

const READ: &str = "280000000000000020";

impl Script {
    /// The DATA IN of whole blocks at these offsets, for each of which a die may have to read.
    pub fn blocks<'a>(&mut self, tag: &'a str, offsets: &[&'a str], byte: &'a str) {
        for offset in offsets {
            self.add(&[Settle("2"), DataIn(tag, offset, "1000", byte, 4096)]);
        }
    }

    /// A READ of the first 32 blocks, all of which are full of one byte.
    fn read_all(&mut self, byte: &str) {
        self.add(&[Command("014000", "08", "00020000", READ)]);
        self.blocks("08", &OFFSETS, byte);
        self.add(&[Good("08")]);
    }
}

/// Of 33 blocks nothing is read: 5/24/00, and all that was expected is the residual.
#[test]
fn a_read_of_33_blocks_is_refused(rt: HostRuntime) {
    expect(
        &rt,
        rt.alloc(),
        &[
            Settle("4"),
            Command("014000", "01", "00021000", "280000000000000021"),
            Refusal("212000", "01", "00021000", "05", "2400"),
        ],
    );
}

/// An address and a length whose sum wraps in four bytes lie past the unit's end.
#[test]
fn an_address_that_wraps_is_past_the_end(rt: HostRuntime) {
    expect(
        &rt,
        rt.alloc(),
        &[
            Settle("4"),
            Command("014000", "03", "00002000", "2800ffffffff000002"),
            Refusal("212000", "03", "00002000", "05", "2100"),
        ],
    );
}

/// A WRITE with FUA of 32 blocks is answered once all of them are programmed, and read back then.
#[test]
fn a_group_of_32_blocks_is_answered_once(rt: HostRuntime) {
    let mut script = Script::new(rt.alloc());
    script.add(&[
        Settle("4"),
        Command("012000", "07", "00020000", WRITE_DURABLE),
        Send("07", "77", 32),
        Lines("reply", "reply none"),
        Settle("10"),
        Good("07"),
    ]);
    script.read_all("77");
    script.run(&rt);
}

/// A READ sees what its addresses held at its COMMAND, in slots too, while later WRITEs go on.
#[test]
fn a_read_beside_writes_sees_its_moment(rt: HostRuntime) {
    let mut script = Script::new(rt.alloc());
    script.add(&[
        Settle("4"),
        Command("012000", "07", "00020000", WRITE),
        Send("07", "55", 32),
        Good("07"),
        Command("014000", "09", "00020000", READ),
    ]);
    script.blocks("09", &OFFSETS[..1], "55");
    script.add(&[Command("012000", "07", "00020000", WRITE), Settle("12")]);
    script.blocks("09", &OFFSETS[1..], "55");
    script.add(&[Good("09"), Send("07", "66", 32), Good("07"), Settle("12")]);
    script.read_all("66");
    script.run(&rt);
}

/// Of 3 blocks a host takes 5000 bytes: one block, and the first 904 bytes of the next.
#[test]
fn a_read_is_cut_at_the_expected_length(rt: HostRuntime) {
    expect(
        &rt,
        rt.alloc(),
        &[
            Settle("4"),
            Command("012000", "07", "00003000", "2a0800000000000003"),
            Send("07", "77", 3),
            Settle("4"),
            Good("07"),
            Command("014000", "09", "00001388", "280000000000000003"),
            Settle("2"),
            DataIn("09", OFFSETS[0], "1000", "77", 4096),
            Settle("2"),
            DataIn("09", OFFSETS[1], "0388", "77", 904),
            Response("214000", "09", "0000", "00001c78"),
        ],
    );
}

/// Two WRITEs of 32 blocks claim all 64 slots. A third of one block gets the status 08h.
#[test]
fn a_write_without_a_free_slot_is_busy(rt: HostRuntime) {
    expect(
        &rt,
        rt.alloc(),
        &[
            Settle("4"),
            Command("012000", "01", "00020000", WRITE),
            Command("012000", "02", "00020000", WRITE),
            // READY TO TRANSFER for the first block of each of them.
            Reply("3100000100000000000000000000000000001000", ""),
            Command("012000", "03", "00001000", "2a08000000ff000001"),
            Reply("3100000200000000000000000000000000001000", ""),
            Response("212000", "03", "0108", "00001000"),
        ],
    );
}

/// What the dies take in each of the eight rounds of a group of 32 pages: each the program of its next page. The
/// first page of die 0 is a mark.
const ROUNDS: [&str; 8] = [
    "take 0 program 0 1\ntake 1 program 0 0\ntake 2 program 0 0\ntake 3 program 0 0",
    "take 0 program 0 2\ntake 1 program 0 1\ntake 2 program 0 1\ntake 3 program 0 1",
    "take 0 program 0 3\ntake 1 program 0 2\ntake 2 program 0 2\ntake 3 program 0 2",
    "take 0 program 0 4\ntake 1 program 0 3\ntake 2 program 0 3\ntake 3 program 0 3",
    "take 0 program 0 5\ntake 1 program 0 4\ntake 2 program 0 4\ntake 3 program 0 4",
    "take 0 program 0 6\ntake 1 program 0 5\ntake 2 program 0 5\ntake 3 program 0 5",
    "take 0 program 0 7\ntake 1 program 0 6\ntake 2 program 0 6\ntake 3 program 0 6",
    "take 0 program 0 8\ntake 1 program 0 7\ntake 2 program 0 7\ntake 3 program 0 7",
];

/// The lines of stops that leave all jobs in flight in one way.
const OLD: &str = "stop 0:old 1:old 2:old 3:old";

const NEW: &str = "stop 0:new 1:new 2:new 3:new";

const TORN: &str = "stop 0:torn 1:torn 2:torn 3:torn";

/// A stop in one of the first four rounds of the programs of a group of 32 pages leaves nothing of it.
#[test]
fn a_stop_early_in_a_group_leaves_nothing_of_it(rt: HostRuntime) {
    for round in 0..4 {
        stops_in_round(&rt, rt.alloc(), round, "00");
    }
}

/// In one of the last four rounds it leaves the group whole or not at all. Only if the jobs of the last round are
/// all left as they were meant, the group is there.
#[test]
fn a_stop_late_in_a_group_leaves_it_whole_or_not(rt: HostRuntime) {
    for round in 4..7 {
        stops_in_round(&rt, rt.alloc(), round, "00");
    }
    stops_in_round(&rt, rt.alloc(), 7, "77");
}

/// With the old content and with torn pages the blocks read as zeros, with the new pages as this byte.
fn stops_in_round(rt: &impl Abort, alloc: Global, round: usize, byte: &str)
    requires { round < 8 }
{
    stop_in_round(rt, alloc, round, OLD, "00");
    stop_in_round(rt, alloc, round, NEW, byte);
    stop_in_round(rt, alloc, round, TORN, "00");
}

/// A group of 77h is programmed up to the jobs of this round, and stopped. All its blocks read then as this byte.
fn stop_in_round(rt: &impl Abort, alloc: Global, round: usize, stop: &str, byte: &str)
    requires { round < 8 }
{
    let mut script = Script::new(alloc);
    script.begin_group(round);
    script.add(&[
        Lines("take 0\ntake 1\ntake 2\ntake 3", ROUNDS[round]),
        Lines(stop, "stop ok"),
        Settle("40"),
    ]);
    script.read_all(byte);
    script.run(rt);
}

impl Script {
    /// A WRITE with FUA of 32 blocks of 77h, and so many rounds of their programs.
    fn begin_group(&mut self, rounds: usize) {
        self.add(&[
            Settle("4"),
            Command("012000", "07", "00020000", WRITE_DURABLE),
            Send("07", "77", 32),
        ]);
        for _ in 0..rounds {
            self.add(&[Settle("1")]);
        }
    }
}
