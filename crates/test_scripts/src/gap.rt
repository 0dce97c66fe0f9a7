//! Writes without FUA, what a stop leaves of them, and the mending of a device with a gap.
use crate::steps::Step::{Block, Command, Good, Lines, Refusal, Send, Settle};
use crate::steps::{Script, Step};
use std::alloc::Global;
use std::process::Abort;

/// A WRITE without FUA of one block at each of the addresses 0 and 1 of new dies. It is answered as soon as its
/// data came.
const TWO_WRITES: [Step<'static>; 7] = [
    Settle("4"),
    Command("012000", "07", "00001000", "2a0000000000000001"),
    Send("07", "11", 1),
    Good("07"),
    Command("012000", "07", "00001000", "2a0000000001000001"),
    Send("07", "22", 1),
    Good("07"),
];

/// A third one at address 2, and a stop that tears the second, the others being on their dies.
const STOP: [Step<'static>; 9] = [
    Command("012000", "07", "00001000", "2a0000000002000001"),
    Send("07", "33", 1),
    Good("07"),
    Lines("take 0", "take 0 program 0 1"),
    Lines("take 1", "take 1 program 0 0"),
    Lines("take 2", "take 2 program 0 0"),
    Lines("done 0 ok", "done 0 yes"),
    Lines("done 2 ok", "done 2 yes"),
    Lines("stop 1:torn", "stop ok"),
];

impl Script {
    /// Three writes to new dies, of which a stop leaves a gap.
    fn gap(&mut self) {
        self.add(&TWO_WRITES);
        self.add(&STOP);
    }

    /// A READ of this CDB: one block, which is full of this byte.
    fn read<'a>(&mut self, cdb: &'a str, byte: &'a str) {
        self.add(&[
            Command("014000", "08", "00001000", cdb),
            Settle("1"),
            Block("08", byte),
            Good("08"),
        ]);
    }

    /// What the addresses 0 and 1 read as.
    fn read_two<'a>(&mut self, first: &'a str, second: &'a str) {
        self.read("280000000000000001", first);
        self.read("280000000001000001", second);
    }

    /// The three addresses read behind the gap as the first write alone.
    fn read_gap(&mut self) {
        self.read_two("11", "00");
        self.read("280000000002000001", "00");
    }
}

/// The second of three writes is lost at a stop, and with it the third, which stood on its die.
#[test]
fn a_gap_keeps_the_first_write_alone(rt: HostRuntime) {
    let mut script = Script::new(rt.alloc());
    script.gap();
    script.add(&[Settle("16")]);
    script.read_gap();
    script.run(&rt);
}

/// The mending step by step: a mark with a fence over the lost numbers, a repair of the address whose
/// lost page is on a die, a mark without a fence.
const MENDING: [Step<'static>; 26] = [
    Lines("turn", "turn yes"),
    Lines("take 0", "take 0 erase 1"),
    Lines("take 1", "take 1 erase 0"),
    Lines("take 2", "take 2 erase 1"),
    Lines("take 3", "take 3 erase 0"),
    Lines("done 0 ok", "done 0 yes"),
    Lines("done 1 ok", "done 1 yes"),
    Lines("done 2 ok", "done 2 yes"),
    Lines("done 3 ok", "done 3 yes"),
    Lines("turn", "turn no"),
    Lines("take 0", "take 0 program 1 0"),
    Lines("take 1", "take 1 none"),
    Lines("done 0 ok", "done 0 yes"),
    Lines("turn", "turn yes"),
    Lines("take 0", "take 0 program 1 1"),
    Lines("take 1", "take 1 none"),
    Lines("done 0 ok", "done 0 yes"),
    // TEST UNIT READY is refused as long as the device is not mended.
    Command("010000", "03", "00000000", "00"),
    Refusal("210000", "03", "00000000", "02", "0401"),
    Lines("turn", "turn yes"),
    Lines("take 0", "take 0 program 1 2"),
    Lines("take 1", "take 1 none"),
    Lines("done 0 ok", "done 0 yes"),
    Lines("turn", "turn no"),
    Command("010000", "03", "00000000", "00"),
    Good("03"),
];

/// A device with a gap is mended by these steps.
#[test]
fn a_gap_is_mended_step_by_step(rt: HostRuntime) {
    let mut script = Script::new(rt.alloc());
    script.gap();
    script.add(&MENDING);
    script.read_gap();
    script.run(&rt);
}

/// A write behind a mended gap is there after a further stop, and the lost ones stay lost.
#[test]
fn a_write_behind_a_mended_gap_stays(rt: HostRuntime) {
    let mut script = Script::new(rt.alloc());
    script.gap();
    script.add(&[
        Settle("16"),
        Command("012000", "07", "00001000", "2a080000000300000100"),
        Send("07", "44", 1),
        Settle("4"),
        Good("07"),
        Lines("stop", "stop ok"),
        Settle("16"),
    ]);
    script.read_gap();
    script.read("280000000003000001", "44");
    script.run(&rt);
}

/// The mending up to each of its programs and erases, and the stops inside it.
const JOBS: [(Step<'static>, [&str; 3]); 7] = [
    (
        Lines("turn\ntake 0", "turn yes\ntake 0 erase 1"),
        ["stop 0:old", "stop 0:new", "stop 0:torn"],
    ),
    (
        Lines("turn\ntake 1", "turn yes\ntake 1 erase 0"),
        ["stop 1:old", "stop 1:new", "stop 1:torn"],
    ),
    (
        Lines("turn\ntake 2", "turn yes\ntake 2 erase 1"),
        ["stop 2:old", "stop 2:new", "stop 2:torn"],
    ),
    (
        Lines("turn\ntake 3", "turn yes\ntake 3 erase 0"),
        ["stop 3:old", "stop 3:new", "stop 3:torn"],
    ),
    (
        Lines("settle 1\ntake 0", "settle 1\ntake 0 program 1 0"),
        ["stop 0:old", "stop 0:new", "stop 0:torn"],
    ),
    (
        Lines(
            "settle 2\nturn\ntake 0",
            "settle 2\nturn yes\ntake 0 program 1 1",
        ),
        ["stop 0:old", "stop 0:new", "stop 0:torn"],
    ),
    (
        Lines(
            "settle 3\nturn\ntake 0",
            "settle 3\nturn yes\ntake 0 program 1 2",
        ),
        ["stop 0:old", "stop 0:new", "stop 0:torn"],
    ),
];

/// A stop inside each program and each erase of the mending, with old, new and torn: the device
/// that opens then reads as the one before it.
#[test]
fn a_stop_in_each_job_of_a_mending_changes_nothing(rt: HostRuntime) {
    for (job, stops) in JOBS {
        stops_in_mending(&rt, rt.alloc(), job, stops);
    }
}

/// Each of these stops inside this job of a mending.
fn stops_in_mending(rt: &impl Abort, alloc: Global, job: Step<'_>, stops: [&str; 3]) {
    for stop in stops {
        let mut script = Script::new(alloc);
        script.gap();
        script.add(&[job]);
        script.add(&[Lines(stop, "stop ok"), Settle("16")]);
        script.read_gap();
        script.run(rt);
    }
}

/// SYNCHRONIZE CACHE with IMMED is answered at once and keeps nothing; without it, it is answered
/// once both writes before it are on dies, and they are there after a stop.
#[test]
fn a_flush_keeps_the_writes_before_it(rt: HostRuntime) {
    let mut script = Script::new(rt.alloc());
    script.add(&TWO_WRITES);
    script.add(&[
        Command("010000", "05", "00000000", "3502"),
        Good("05"),
        Lines("stop", "stop ok"),
        Settle("16"),
    ]);
    script.read_two("00", "00");
    script.run(&rt);
    let mut script = Script::new(rt.alloc());
    script.add(&TWO_WRITES);
    script.add(&[
        Command("010000", "05", "00000000", "35"),
        Lines("reply", "reply none"),
        Lines("take 0", "take 0 program 0 1"),
        Lines("take 1", "take 1 program 0 0"),
        Lines("done 1 ok", "done 1 yes"),
        Lines("reply", "reply none"),
        Lines("done 0 ok", "done 0 yes"),
        Good("05"),
        Lines("stop", "stop ok"),
        Settle("16"),
    ]);
    script.read_two("11", "22");
    script.run(&rt);
}
