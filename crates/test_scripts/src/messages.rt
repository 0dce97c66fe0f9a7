//! Messages that the device refuses, by their lowest fault.
use crate::steps::Step::{Block, Command, Good, Host, Lines, Response, Settle};
use crate::steps::{Script, TAGS, expect};

/// Each message is refused with its number, and nothing changes: the READ after them is answered.
#[test]
fn wrong_messages_are_refused_by_their_lowest_fault(rt: HostRuntime) {
    expect(
        &rt,
        rt.alloc(),
        &[
            Settle("4"),
            // 31 and 33 zero bytes.
            Host("", 31, "host fault 1"),
            Host("", 33, "host fault 2"),
            // HD; DD and an extra header segment; that segment alone with an unknown code.
            Host("80000005", 32, "host fault 3"),
            Host("c000000000000000010000", 32, "host fault 3"),
            Host("3f00000000000000010000", 32, "host fault 4"),
            // An unknown code; a RESPONSE; a reserved byte; data that nothing asked for.
            Host("3f", 32, "host fault 5"),
            Host("21000007", 32, "host fault 5"),
            Host("0140000301", 32, "host fault 6"),
            Lines(
                "fill 0200000700000000000010000000000000001000000000000000000000000000 00 4096",
                "host fault 8",
            ),
            // A READ of no block, and another command under its tag.
            Command("014000", "03", "00000000", "28"),
            Host("01400003", 32, "host fault 7"),
            Good("03"),
        ],
    );
}

/// READ(10) of the last block of unit 0, where nothing was written.
const READ: &str = "2800000000ff000001";

/// While 32 tasks are open further commands get the status 28h, and the 33rd of these is refused. A
/// task that ends makes room for another.
#[test]
fn a_33rd_task_finds_the_task_set_full(rt: HostRuntime) {
    let mut script = Script::new(rt.alloc());
    script.add(&[Settle("4")]);
    script.begin_reads(&TAGS);
    script.add(&[
        Host(
            "014000400000000000000000000010002800000000ff000001",
            32,
            "host fault 9",
        ),
        Block("00", "00"),
        Good("00"),
        Command("014000", "40", "00001000", READ),
    ]);
    script.end_reads(&TAGS[1..32]);
    script.end_reads(&["40"]);
    // The first of the READs that found the task set full.
    script.add(&[Response("212000", "20", "0128", "00001000")]);
    script.run(&rt);
}

impl Script {
    /// A READ of this block under each of these tags.
    fn begin_reads(&mut self, tags: &[&str]) {
        for tag in tags {
            self.add(&[Command("014000", tag, "00001000", READ)]);
        }
    }

    /// What the READs with these tags are answered.
    fn end_reads(&mut self, tags: &[&str]) {
        for tag in tags {
            self.add(&[Block(tag, "00"), Good(tag)]);
        }
    }
}
