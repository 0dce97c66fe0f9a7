//! Stops inside the programs of an RPMB write, as scripts: its blocks and the write counter are old
//! together, or new together. The MACs are those of another HMAC with SHA-256.
use crate::frames::{
    COUNTER_0, COUNTER_1, COUNTER_2, COUNTER_REQUEST, Frame, KEY_REQUEST, NONCE, ZEROS,
};
use crate::steps::Step::{Answer, Frames, GoodFrames, Lines, Request, Settle};
use crate::steps::{Script, Step};
use std::alloc::Global;
use std::process::Abort;

/// A frame of the write of eight blocks from address 12 on.
const PART: Frame<'static> = Frame {
    address: "000c",
    count: "0008",
    kind: "0003",
    ..ZEROS
};

/// A frame of the answer to a request for these eight blocks.
const READ_PART: Frame<'static> = Frame {
    nonce: NONCE,
    kind: "0400",
    ..PART
};

/// The request for them.
pub const READ: Frame<'static> = Frame {
    kind: "0004",
    ..READ_PART
};

/// What it is answered with while they are zeros.
const READ_ZEROS: [Frame<'static>; 8] = [
    READ_PART,
    READ_PART,
    READ_PART,
    READ_PART,
    READ_PART,
    READ_PART,
    READ_PART,
    Frame {
        key_or_mac: "1b8bc5f94428160baa76b3a26414e9c3034c21607792d350d4225e7db4c23b5a",
        ..READ_PART
    },
];

/// The write of eight blocks of bytes A0h to A7h at the addresses 12 to 19, under the counter 0.
pub const EIGHT: [Frame<'static>; 8] = [
    Frame { data: "a0", ..PART },
    Frame { data: "a1", ..PART },
    Frame { data: "a2", ..PART },
    Frame { data: "a3", ..PART },
    Frame { data: "a4", ..PART },
    Frame { data: "a5", ..PART },
    Frame { data: "a6", ..PART },
    Frame {
        key_or_mac: "abb8a12b292925015565efdf804a88cacb12646a999273750e10a602d75621c7",
        data: "a7",
        ..PART
    },
];

/// The same blocks, as a request for them is answered.
pub const READ_NEW: [Frame<'static>; 8] = [
    Frame {
        data: "a0",
        ..READ_PART
    },
    Frame {
        data: "a1",
        ..READ_PART
    },
    Frame {
        data: "a2",
        ..READ_PART
    },
    Frame {
        data: "a3",
        ..READ_PART
    },
    Frame {
        data: "a4",
        ..READ_PART
    },
    Frame {
        data: "a5",
        ..READ_PART
    },
    Frame {
        data: "a6",
        ..READ_PART
    },
    Frame {
        key_or_mac: "24e38b4a1510874d44da0a125a1a2f2550eb69aff746c5f60d7d891e3af7f646",
        data: "a7",
        ..READ_PART
    },
];

/// The same after the write at address 13.
const READ_13: [Frame<'static>; 8] = [
    Frame {
        data: "a0",
        ..READ_PART
    },
    Frame {
        data: "5a",
        ..READ_PART
    },
    Frame {
        data: "a2",
        ..READ_PART
    },
    Frame {
        data: "a3",
        ..READ_PART
    },
    Frame {
        data: "a4",
        ..READ_PART
    },
    Frame {
        data: "a5",
        ..READ_PART
    },
    Frame {
        data: "a6",
        ..READ_PART
    },
    Frame {
        key_or_mac: "0d08c78c01d3d1da8bb1f8dfe5a613b2453e19dd1671c8f1af9d764c2f485c80",
        data: "a7",
        ..READ_PART
    },
];

/// The write of a block of bytes 5Ah at address 13, under the counter 1.
pub const AT_13: Frame<'static> = Frame {
    key_or_mac: "15d2295d89f0d41425aed1490697d84c10717d4d938eb5fd4b8d80eb67f6e9cf",
    data: "5a",
    counter: "00000001",
    address: "000d",
    count: "0001",
    kind: "0003",
    ..ZEROS
};

/// The key is programmed, and the frames of the eight blocks came. Three pages wait: blocks 12 to
/// 15 are the end of one page of the area, and 16 to 19 the begin of the next one; the third has
/// the settings with the counter.
const BEGUN: [Step<'static>; 6] = [
    Settle("4"),
    Frames("01", &[KEY_REQUEST]),
    Settle("1"),
    GoodFrames("01"),
    Frames("02", &EIGHT),
    Lines("reply", "reply none"),
];

/// The three pages one after another, each on a die of its own.
const FIRST: [Step<'static>; 1] = [Lines("take 0", "take 0 program 0 2")];

const SECOND: [Step<'static>; 3] = [
    Lines("take 0", "take 0 program 0 2"),
    Lines("done 0 ok", "done 0 yes"),
    Lines("take 1", "take 1 program 0 0"),
];

const THIRD: [Step<'static>; 5] = [
    Lines("take 0", "take 0 program 0 2"),
    Lines("done 0 ok", "done 0 yes"),
    Lines("take 1", "take 1 program 0 0"),
    Lines("done 1 ok", "done 1 yes"),
    Lines("take 2", "take 2 program 0 0"),
];

/// All three at once.
const ALL: [Step<'static>; 3] = [
    Lines("take 0", "take 0 program 0 2"),
    Lines("take 1", "take 1 program 0 0"),
    Lines("take 2", "take 2 program 0 0"),
];

/// Both are old: the counter is 0, and the blocks are zeros. The device takes the same write then. Both
/// pages of a read may lie on one die, which reads them in two rounds.
const IS_OLD: [Step<'static>; 9] = [
    Request("03", &[COUNTER_REQUEST]),
    Answer("04", &[COUNTER_0]),
    Frames("03", &[READ]),
    Settle("2"),
    GoodFrames("03"),
    Answer("04", &READ_ZEROS),
    Frames("02", &EIGHT),
    Settle("2"),
    GoodFrames("02"),
];

/// Both are new: the counter is 1, and the blocks are those of the write.
const IS_NEW: [Step<'static>; 5] = [
    Request("03", &[COUNTER_REQUEST]),
    Answer("04", &[COUNTER_1]),
    Frames("03", &[READ]),
    Settle("2"),
    GoodFrames("03"),
];

const NEW_BLOCKS: [Step<'static>; 1] = [Answer("04", &READ_NEW)];

/// A stop inside these programs, which leaves this, and then a mended device, which is in this
/// state.
fn stopped(rt: &impl Abort, alloc: Global, programs: &[Step<'_>], stop: &str, is_new: bool) {
    let mut script = Script::new(alloc);
    script.add(&BEGUN);
    script.add(programs);
    script.add(&[Lines(stop, "stop ok"), Settle("16")]);
    if !is_new {
        script.add(&IS_OLD);
    }
    script.add(&IS_NEW);
    script.add(&NEW_BLOCKS);
    script.run(rt);
}

/// A stop inside each of the three programs, with the old page, the new one or a torn one. Only
/// with all three pages is the write there.
#[test]
fn a_stop_leaves_blocks_and_counter_alike(rt: HostRuntime) {
    let alloc = rt.alloc();
    for stop in ["stop 0:old", "stop 0:new", "stop 0:torn"] {
        stopped(&rt, alloc, &FIRST, stop, false);
    }
    for stop in ["stop 1:old", "stop 1:new", "stop 1:torn"] {
        stopped(&rt, alloc, &SECOND, stop, false);
    }
    for stop in ["stop 2:old", "stop 2:torn"] {
        stopped(&rt, alloc, &THIRD, stop, false);
    }
    stopped(&rt, alloc, &THIRD, "stop 2:new", true);
}

/// The same with all three programs in flight: each page but one may be new.
#[test]
fn a_page_of_three_that_is_missing_loses_all(rt: HostRuntime) {
    let alloc = rt.alloc();
    for stop in [
        "stop 0:new 1:new 2:old",
        "stop 0:new 1:torn 2:new",
        "stop 0:old 1:new 2:new",
        "stop 0:torn 1:torn 2:torn",
    ] {
        stopped(&rt, alloc, &ALL, stop, false);
    }
    stopped(&rt, alloc, &ALL, "stop 0:new 1:new 2:new", true);
}

/// The write, answered.
const WRITTEN: [Step<'static>; 2] = [Settle("2"), GoodFrames("02")];

/// Once it is answered both are new, after a stop too.
#[test]
fn an_answered_write_stays(rt: HostRuntime) {
    let mut script = Script::new(rt.alloc());
    script.add(&BEGUN);
    script.add(&WRITTEN);
    script.add(&IS_NEW);
    script.add(&NEW_BLOCKS);
    script.add(&[Lines("stop", "stop ok"), Settle("16")]);
    script.add(&IS_NEW);
    script.add(&NEW_BLOCKS);
    script.run(&rt);
}

/// Blocks 12 to 19 after the write at address 13, and the counter.
const IS_AT_13: [Step<'static>; 6] = [
    Request("03", &[COUNTER_REQUEST]),
    Answer("04", &[COUNTER_2]),
    Frames("03", &[READ]),
    Settle("2"),
    GoodFrames("03"),
    Answer("04", &READ_13),
];

/// A write of block 13 alone takes the rest of its page from the die, by a read that these lines
/// do.
fn rest_is_read(rt: &impl Abort, alloc: Global, read: &[Step<'_>]) {
    let mut script = Script::new(alloc);
    script.add(&BEGUN);
    script.add(&WRITTEN);
    script.add(&[Frames("05", &[AT_13])]);
    script.add(read);
    script.add(&[Settle("2"), GoodFrames("05")]);
    script.add(&IS_AT_13);
    script.add(&[Lines("stop", "stop ok"), Settle("16")]);
    script.add(&IS_AT_13);
    script.run(rt);
}

/// A write to a page of the area that it covers in part keeps the other blocks, also if the first
/// read of the page fails, and after a stop.
#[test]
fn a_page_written_in_part_keeps_its_rest(rt: HostRuntime) {
    let alloc = rt.alloc();
    let well = [
        Lines("take 0", "take 0 read 0 2"),
        Lines("done 0 ok", "done 0 yes"),
    ];
    let failed = [
        Lines("take 0", "take 0 read 0 2"),
        Lines("done 0 fail", "done 0 yes"),
    ];
    rest_is_read(&rt, alloc, &well);
    rest_is_read(&rt, alloc, &failed);
}
