//! Requests to the replay protected memory block that fail or are refused, as scripts. The MACs are
//! those of another HMAC with SHA-256.
use crate::frames::{
    COUNTER_0, COUNTER_1, COUNTER_REQUEST, Frame, KEY_ANSWER, KEY_REQUEST, NO_COUNTER, NONCE,
    RESULT_REQUEST, ZEROS,
};
use crate::steps::Step::{Answer, Command, Frames, GoodFrames, Lines, Refusal, Request, Settle};
use crate::steps::{Script, Step, WITHOUT_SPARE};

/// The write of a block of bytes 5Ah at address 12, under the counter 0.
const WRITE: Frame<'static> = Frame {
    key_or_mac: "9d676ce350f99ddb34578c246917c0a764a7fcef5e1c0fceb39b65e2279edd1f",
    data: "5a",
    address: "000c",
    count: "0001",
    kind: "0003",
    ..ZEROS
};

/// The same under the counter 1.
const NEXT_WRITE: Frame<'static> = Frame {
    key_or_mac: "281fda4a08a444ca87086d030a488ff690684401ad0be4ced402acc917e92dd6",
    counter: "00000001",
    ..WRITE
};

/// The first one with the last bit of its MAC turned.
const WRONG_WRITE: Frame<'static> = Frame {
    key_or_mac: "9d676ce350f99ddb34578c246917c0a764a7fcef5e1c0fceb39b65e2279edd1e",
    ..WRITE
};

/// The data write response to it: operation OK, and the counter is 1.
const WRITTEN: Frame<'static> = Frame {
    key_or_mac: "acaaa84b0d7a1c0f934c604f84c69b2410a87ad0c9b4c3625a9c6cf32dcc7b80",
    counter: "00000001",
    address: "000c",
    kind: "0300",
    ..ZEROS
};

/// The data write response without a key: authentication key not yet programmed. It has no MAC.
const NO_KEY: Frame<'static> = Frame {
    address: "000c",
    result: "0007",
    kind: "0300",
    ..ZEROS
};

/// The same under the key: authentication failure.
const WRONG_MAC: Frame<'static> = Frame {
    key_or_mac: "77ab2037e789628ebb649936e97ee7a4046cc9c416bb998215dbfba083ed1c4e",
    result: "0002",
    ..NO_KEY
};

/// Counter failure, while the counter is 0 and once it is 1.
const WRONG_COUNTER: Frame<'static> = Frame {
    key_or_mac: "0ee846be42034a9e1d0f9f14a9593dfc487dc37dfb604ea4e2b2bdf0e1daf3bc",
    result: "0003",
    ..NO_KEY
};

const REPLAYED: Frame<'static> = Frame {
    key_or_mac: "22cab6b908e10bfbd7471b7a14eee6c8727df4146e519abcbe6b4e529e4a7e41",
    counter: "00000001",
    ..WRONG_COUNTER
};

/// Write failure.
const LOCKED: Frame<'static> = Frame {
    key_or_mac: "51181b6abddb3e6106c4b8dc70c06b37b054d344289584e6f5f3efbd58bf8138",
    counter: "00000001",
    result: "0005",
    ..NO_KEY
};

/// The request for that block.
const READ: Frame<'static> = Frame {
    nonce: NONCE,
    address: "000c",
    count: "0001",
    kind: "0004",
    ..ZEROS
};

/// Its answer without a key: it has no data and no MAC.
const NO_DATA: Frame<'static> = Frame {
    result: "0007",
    kind: "0400",
    ..READ
};

/// The key programming response if a key is programmed already: general failure.
const SECOND_KEY: Frame<'static> = Frame {
    result: "0001",
    kind: "0100",
    ..ZEROS
};

/// Two blocks are asked for from the last address on: the second lies past the end of the area.
const FAR_READ: Frame<'static> = Frame {
    nonce: NONCE,
    address: "01ff",
    count: "0002",
    kind: "0004",
    ..ZEROS
};

/// Its answer: address failure, without data.
const TOO_FAR: Frame<'static> = Frame {
    key_or_mac: "df259d167b2fe87fd0343aab496a0f9e8d74465dc95575dafae658345cac8112",
    result: "0004",
    kind: "0400",
    ..FAR_READ
};

/// Two blocks that are written there.
const FAR_WRITE: Frame<'static> = Frame {
    data: "5a",
    nonce: "",
    kind: "0003",
    ..FAR_READ
};

/// Its answer: address failure.
const WRITTEN_TOO_FAR: Frame<'static> = Frame {
    key_or_mac: "cd31798dec7dc9ce772987801ff2e231ff9930847d43257a0faae89b87ec7595",
    address: "01ff",
    result: "0004",
    kind: "0300",
    ..ZEROS
};

/// Frames that are no request: a type that is none, two requests for the counter in one, two frames
/// of a write whose counts or counters differ, a write that counts more frames than there are, and
/// requests for no block and for nine.
const MALFORMED: [&[Frame<'static>]; 7] = [
    &[Frame {
        kind: "0006",
        ..ZEROS
    }],
    &[COUNTER_REQUEST, COUNTER_REQUEST],
    &[
        Frame {
            count: "0002",
            ..WRITE
        },
        WRITE,
    ],
    &[
        Frame {
            count: "0002",
            ..WRITE
        },
        Frame {
            count: "0002",
            ..NEXT_WRITE
        },
    ],
    &[Frame {
        count: "0002",
        ..WRITE
    }],
    &[Frame { count: "", ..READ }],
    &[Frame {
        count: "0009",
        ..READ
    }],
];

/// The key is programmed: the request is answered once its page is on a die.
const PROGRAMMED: [Step<'static>; 4] = [
    Settle("4"),
    Frames("10", &[KEY_REQUEST]),
    Settle("1"),
    GoodFrames("10"),
];

/// The counter is 0.
const IS_0: [Step<'static>; 2] = [
    Request("11", &[COUNTER_REQUEST]),
    Answer("12", &[COUNTER_0]),
];

/// A SECURITY PROTOCOL IN of one frame for which no response waits.
const NO_RESPONSE: [Step<'static>; 2] = [
    Command("0140c4", "13", "00000200", "a2ec0001000000000200"),
    Refusal("2120c4", "13", "00000200", "05", "2c00"),
];

/// A request for the result where there is none.
const NO_RESULT: [Step<'static>; 2] = [
    Frames("14", &[RESULT_REQUEST]),
    Refusal("2100c4", "14", "00000000", "05", "2c00"),
];

/// Before a key is programmed a write fails, and so do requests for the counter and for data. Each
/// is answered with its result, and without a MAC. The response is handed out once.
#[test]
fn without_a_key_requests_fail(rt: HostRuntime) {
    let mut script = Script::new(rt.alloc());
    script.add(&[
        Settle("4"),
        Request("15", &[COUNTER_REQUEST]),
        Answer("16", &[NO_COUNTER]),
    ]);
    script.add(&NO_RESPONSE);
    script.add(&[
        Request("15", &[WRITE]),
        Request("15", &[RESULT_REQUEST]),
        Answer("16", &[NO_KEY]),
        Request("15", &[READ]),
        Answer("16", &[NO_DATA]),
        Request("15", &[COUNTER_REQUEST]),
        Answer("16", &[NO_COUNTER]),
    ]);
    script.run(&rt);
}

/// Under the key a wrong MAC and a wrong counter are refused, and the counter stays 0. The right
/// write makes it 1, so that the same one is refused when it comes again.
#[test]
fn wrong_macs_and_counters_are_refused(rt: HostRuntime) {
    let mut script = Script::new(rt.alloc());
    script.add(&PROGRAMMED);
    script.add(&[
        Request("15", &[RESULT_REQUEST]),
        Answer("16", &[KEY_ANSWER]),
        Request("15", &[WRONG_WRITE]),
        Request("15", &[RESULT_REQUEST]),
        Answer("16", &[WRONG_MAC]),
    ]);
    script.add(&IS_0);
    script.add(&[
        Request("15", &[NEXT_WRITE]),
        Request("15", &[RESULT_REQUEST]),
        Answer("16", &[WRONG_COUNTER]),
    ]);
    script.add(&IS_0);
    script.add(&[
        Frames("17", &[WRITE]),
        Settle("1"),
        GoodFrames("17"),
        Request("15", &[RESULT_REQUEST]),
        Answer("16", &[WRITTEN]),
        Request("15", &[WRITE]),
        Request("15", &[RESULT_REQUEST]),
        Answer("16", &[REPLAYED]),
        Request("11", &[COUNTER_REQUEST]),
        Answer("12", &[COUNTER_1]),
    ]);
    script.run(&rt);
}

/// A key is programmed once; no block past the end of the area is written or read. Each failure is
/// told.
#[test]
fn a_second_key_and_far_blocks_fail(rt: HostRuntime) {
    let mut script = Script::new(rt.alloc());
    script.add(&PROGRAMMED);
    script.add(&[
        Request("15", &[KEY_REQUEST]),
        Request("15", &[RESULT_REQUEST]),
        Answer("16", &[SECOND_KEY]),
        Request("15", &[FAR_WRITE, FAR_WRITE]),
        Request("15", &[RESULT_REQUEST]),
        Answer("16", &[WRITTEN_TOO_FAR]),
        Request("15", &[FAR_READ]),
        Answer("16", &[TOO_FAR]),
    ]);
    script.add(&IS_0);
    script.run(&rt);
}

/// The frames are no request: parameter list invalid. What waits in the registers stays, and
/// nothing changes.
#[test]
fn malformed_frames_change_nothing(rt: HostRuntime) {
    let mut script = Script::new(rt.alloc());
    script.add(&PROGRAMMED);
    script.add(&[Request("11", &[COUNTER_REQUEST])]);
    for frames in MALFORMED {
        script.add(&[
            Frames("18", frames),
            Refusal("2100c4", "18", "00000000", "05", "2600"),
        ]);
    }
    script.add(&[
        Answer("12", &[COUNTER_0]),
        Request("15", &[RESULT_REQUEST]),
        Answer("16", &[KEY_ANSWER]),
    ]);
    script.run(&rt);
}

/// A program that fails locks a device without spare blocks. The write that waits for it ends with a write error and
/// leaves no result, and each later write has the result write failure.
#[test]
fn a_locked_device_writes_no_frames(rt: HostRuntime) {
    let mut script = Script::over(rt.alloc(), WITHOUT_SPARE);
    script.add(&PROGRAMMED);
    script.add(&[
        Frames("17", &[WRITE]),
        Lines("take 0", "take 0 program 0 2"),
        Lines("done 0 fail", "done 0 yes"),
        Refusal("2100c4", "17", "00000000", "03", "0c00"),
    ]);
    script.add(&NO_RESPONSE);
    script.add(&NO_RESULT);
    script.add(&[
        Request("15", &[NEXT_WRITE]),
        Request("15", &[RESULT_REQUEST]),
        Answer("16", &[LOCKED]),
    ]);
    script.run(&rt);
}
