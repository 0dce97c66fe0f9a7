//! Regions of the replay protected memory block, as scripts (JESD220, 12.4): each has a key, a
//! counter and an area of its own. The MACs are those of another HMAC with SHA-256.
use crate::frames::{
    COUNTER_0, COUNTER_1, COUNTER_REQUEST, Frame, KEY_REQUEST, NO_COUNTER, NONCE, RESULT_REQUEST,
    ZEROS,
};
use crate::scripts::{Outcome, Text};
use crate::steps::Step::{
    Answer, AnswerOf, Command, Frames, FramesTo, GoodFrames, Host, Lines, Refusal, Reply, Request,
    RequestTo, Response, Settle,
};
use crate::steps::{FIRST_LINES, Script, Step};

/// The row configuration with the regions 0 and 1, each of one step.
const TWO_REGIONS: &str = "config 4 16 64 1,1,0,0 64 4\nunit 256 0 0\nunit 64 1 0\nunit 64 2 0\n";

/// That with region 0 alone, which four numbers say.
const ONE_OF_FOUR: &str = "config 4 16 64 1,0,0,0 64 4\nunit 256 0 0\nunit 64 1 0\nunit 64 2 0\n";

/// A small device with region 0 alone, and with regions 0 and 1.
const SMALL: &str = "config 2 20 16 1 64 0\nunit 4 0 0\n";

const SMALL_WITH_TWO: &str = "config 2 20 16 1,1,0,0 64 0\nunit 4 0 0\n";

/// The request that programs another key, 32 bytes 0Ch.
const OTHER_KEY: Frame<'static> = Frame {
    key_or_mac: "0c0c0c0c0c0c0c0c0c0c0c0c0c0c0c0c0c0c0c0c0c0c0c0c0c0c0c0c0c0c0c0c",
    kind: "0001",
    ..ZEROS
};

/// The write of a block of bytes 5Ah at address 12, under the counter 0 and the key.
const WRITE: Frame<'static> = Frame {
    key_or_mac: "9d676ce350f99ddb34578c246917c0a764a7fcef5e1c0fceb39b65e2279edd1f",
    data: "5a",
    address: "000c",
    count: "0001",
    kind: "0003",
    ..ZEROS
};

/// The data write response to it: operation OK, and the counter is 1.
const WRITTEN: Frame<'static> = Frame {
    key_or_mac: "acaaa84b0d7a1c0f934c604f84c69b2410a87ad0c9b4c3625a9c6cf32dcc7b80",
    counter: "00000001",
    address: "000c",
    kind: "0300",
    ..ZEROS
};

/// The data write response of a region without a key.
const NO_KEY: Frame<'static> = Frame {
    address: "000c",
    result: "0007",
    kind: "0300",
    ..ZEROS
};

/// The same under the other key: authentication failure.
const WRONG_MAC: Frame<'static> = Frame {
    key_or_mac: "8737ae79f4a1e3b20969b2bc10b1b88234e2b7b09b92bbe5207909507dff113d",
    result: "0002",
    ..NO_KEY
};

/// The write counter read response with the counter 0, under the other key.
const OTHER_COUNTER_0: Frame<'static> = Frame {
    key_or_mac: "43c0e09af7afa082325efc57d40e2d067f7b15d581ba951e105c504fef2c1720",
    ..COUNTER_0
};

/// The request for the block at address 12, and its answer without a key.
const READ: Frame<'static> = Frame {
    nonce: NONCE,
    address: "000c",
    count: "0001",
    kind: "0004",
    ..ZEROS
};

const NO_DATA: Frame<'static> = Frame {
    result: "0007",
    kind: "0400",
    ..READ
};

/// Its answer with the block that was written, under the key.
const READ_WRITTEN: Frame<'static> = Frame {
    key_or_mac: "4412270ea32c10692df8e05331d9379a36b0d1f1bf8726a0e0e9651e89d787dc",
    data: "5a",
    kind: "0400",
    ..READ
};

/// Its answer with a block of zeros, under the other key.
const READ_ZEROS: Frame<'static> = Frame {
    key_or_mac: "bca37f7d2e6400f834b804a1fa4fb70fbd6d15a9b68307ace48a35331e313ad3",
    kind: "0400",
    ..READ
};

/// The key and the write in region 1, answered.
const REGION_1_WRITTEN: [Step<'static>; 8] = [
    FramesTo("01", "01", &[KEY_REQUEST]),
    Settle("1"),
    GoodFrames("01"),
    FramesTo("01", "02", &[WRITE]),
    Settle("1"),
    GoodFrames("02"),
    RequestTo("01", "03", &[RESULT_REQUEST]),
    AnswerOf("01", "04", &[WRITTEN]),
];

/// Region 1 has them: the counter is 1, and the block is there.
const REGION_1_HAS_THEM: [Step<'static>; 6] = [
    RequestTo("01", "03", &[COUNTER_REQUEST]),
    AnswerOf("01", "04", &[COUNTER_1]),
    FramesTo("01", "03", &[READ]),
    Settle("2"),
    GoodFrames("03"),
    AnswerOf("01", "04", &[READ_WRITTEN]),
];

/// Region 0 has no key, and so tells no block.
const REGION_0_HAS_NO_KEY: [Step<'static>; 5] = [
    Request("05", &[WRITE]),
    Request("05", &[RESULT_REQUEST]),
    Answer("06", &[NO_KEY]),
    Request("05", &[READ]),
    Answer("06", &[NO_DATA]),
];

/// The other key in region 0, for whose page a die erases a block first. There the counter is 0 and
/// the block is zeros, and the write of the first key is refused.
const REGION_0_HAS_ANOTHER: [Step<'static>; 12] = [
    Frames("05", &[OTHER_KEY]),
    Settle("2"),
    GoodFrames("05"),
    Request("05", &[WRITE]),
    Request("05", &[RESULT_REQUEST]),
    Answer("06", &[WRONG_MAC]),
    Request("05", &[COUNTER_REQUEST]),
    Answer("06", &[OTHER_COUNTER_0]),
    Frames("05", &[READ]),
    Settle("2"),
    GoodFrames("05"),
    Answer("06", &[READ_ZEROS]),
];

/// A key and a write in region 1 leave region 0 as it is, also after a stop. It takes a key of its
/// own.
#[test]
fn each_region_has_its_own_key_counter_and_area(rt: HostRuntime) {
    let mut script = Script::over(rt.alloc(), TWO_REGIONS);
    script.add(&[Settle("4")]);
    script.add(&REGION_1_WRITTEN);
    script.add(&REGION_0_HAS_NO_KEY);
    script.add(&[Lines("stop", "stop ok"), Settle("16")]);
    script.add(&REGION_0_HAS_NO_KEY);
    script.add(&REGION_0_HAS_ANOTHER);
    script.add(&REGION_1_HAS_THEM);
    script.run(&rt);
}

/// CDBs whose bytes 2 and 3 name a region that is not there, or none: regions 2, 3 and 4, another
/// number of the protocol, and region 16 in place of 1.
const INVALID: [Step<'static>; 14] = [
    Command("0120c4", "07", "00000200", "b5ec0201000000000200"),
    Refusal("2120c4", "07", "00000200", "05", "2400"),
    Command("0140c4", "07", "00000200", "a2ec0201000000000200"),
    Refusal("2120c4", "07", "00000200", "05", "2400"),
    Command("0120c4", "07", "00000200", "b5ec0301000000000200"),
    Refusal("2120c4", "07", "00000200", "05", "2400"),
    Command("0120c4", "07", "00000200", "b5ec0401000000000200"),
    Refusal("2120c4", "07", "00000200", "05", "2400"),
    Command("0120c4", "07", "00000200", "b5ec0100000000000200"),
    Refusal("2120c4", "07", "00000200", "05", "2400"),
    Command("0120c4", "07", "00000200", "b5ec0102000000000200"),
    Refusal("2120c4", "07", "00000200", "05", "2400"),
    Command("0120c4", "07", "00000200", "b5ec1001000000000200"),
    Refusal("2120c4", "07", "00000200", "05", "2400"),
];

/// A CDB is refused if it names no region that is there.
#[test]
fn cdbs_name_a_region_that_is_there(rt: HostRuntime) {
    let mut script = Script::over(rt.alloc(), TWO_REGIONS);
    script.add(&[Settle("4")]);
    script.add(&INVALID);
    script.run(&rt);
}

/// While a command that brings frames to one region is open, one to another region is refused by
/// BUSY. A response may wait in each region meanwhile.
#[test]
fn one_region_gets_frames_at_a_time(rt: HostRuntime) {
    let mut script = Script::over(rt.alloc(), TWO_REGIONS);
    script.add(&[
        Settle("4"),
        RequestTo("01", "01", &[COUNTER_REQUEST]),
        Command("0120c4", "02", "00000200", "b5ec0001000000000200"),
        Command("0120c4", "03", "00000200", "b5ec0101000000000200"),
        Reply("3100c40200000000000000000000000000000200", ""),
        Response("2120c4", "03", "0108", "00000200"),
        Host("0200c40200000000000002000000000000000200", 544, "host ok"),
        Refusal("2100c4", "02", "00000000", "05", "2600"),
        Request("02", &[READ]),
        AnswerOf("01", "03", &[NO_COUNTER]),
        Answer("03", &[NO_DATA]),
    ]);
    script.run(&rt);
}

/// One number says region 0 alone, and so do four of which the last three are 0: region 0 takes the
/// key, and region 1 is not there.
#[test]
fn one_number_is_region_0_alone(rt: HostRuntime) {
    for first_lines in [FIRST_LINES, ONE_OF_FOUR] {
        let mut script = Script::over(rt.alloc(), first_lines);
        script.add(&[
            Settle("4"),
            Frames("01", &[KEY_REQUEST]),
            Settle("1"),
            GoodFrames("01"),
            Request("02", &[COUNTER_REQUEST]),
            Answer("03", &[COUNTER_0]),
            Command("0120c4", "04", "00000200", "b5ec0101000000000200"),
            Refusal("2120c4", "04", "00000200", "05", "2400"),
        ]);
        script.run(&rt);
    }
}

/// The key and the write in region 0, answered.
const REGION_0_WRITTEN: [Step<'static>; 7] = [
    Settle("4"),
    Frames("01", &[KEY_REQUEST]),
    Settle("1"),
    GoodFrames("01"),
    Frames("02", &[WRITE]),
    Settle("1"),
    GoodFrames("02"),
];

/// Dies of a device with region 0 alone open with regions 0 and 1: region 0 has its key, its counter
/// and its area, and region 1 has no key.
#[test]
fn a_region_comes_to_dies_of_an_earlier_life(rt: HostRuntime) {
    let mut life = Script::new(rt.alloc());
    life.add(&REGION_0_WRITTEN);
    let image = life.save(&rt);
    let mut script = Script::over(rt.alloc(), TWO_REGIONS);
    script.add(&[
        Settle("16"),
        Request("03", &[COUNTER_REQUEST]),
        Answer("04", &[COUNTER_1]),
        Frames("03", &[READ]),
        Settle("2"),
        GoodFrames("03"),
        Answer("04", &[READ_WRITTEN]),
        RequestTo("01", "03", &[WRITE]),
        RequestTo("01", "03", &[RESULT_REQUEST]),
        AnswerOf("01", "04", &[NO_KEY]),
    ]);
    script.load(&rt, image.as_slice());
}

/// Dies of a device with two regions do not open with region 0 alone.
#[test]
fn a_region_does_not_go_again(rt: HostRuntime) {
    let mut life = Script::over(rt.alloc(), TWO_REGIONS);
    life.add(&[Settle("4")]);
    let image = life.save(&rt);
    let mut rest = image.as_slice();
    let mut script = Text::new(rt.alloc());
    script.add(FIRST_LINES);
    let loaded = Outcome::of_load(rt.alloc(), script.bytes(&rt), &mut rest);
    loaded.expect(&rt, b"", b"ufsim: line 4: config\n");
}

/// A key in region 0, and another key and a write in region 1.
const KEYS_AND_A_WRITE: [Step<'static>; 10] = [
    Settle("4"),
    Frames("05", &[OTHER_KEY]),
    Settle("1"),
    GoodFrames("05"),
    FramesTo("01", "01", &[KEY_REQUEST]),
    Settle("1"),
    GoodFrames("01"),
    FramesTo("01", "02", &[WRITE]),
    Settle("1"),
    GoodFrames("02"),
];

/// After each stop each region is told under its own key. The first mark takes two erases and a
/// program, a key one program and the write two: seven moments.
#[test]
fn each_stop_with_two_regions_is_good(rt: HostRuntime) {
    let mut script = Script::over(rt.alloc(), SMALL_WITH_TWO);
    script.add(&KEYS_AND_A_WRITE);
    script.run(&rt);
    script.check(&rt, b"check stops 21 bad 0\n");
}

/// Stops while a region comes to dies of an earlier life, and while it gets its key. As after any
/// stop each die erases a block. A mark with the regions takes a program, and the key another one:
/// four moments.
#[test]
fn each_stop_while_a_region_comes_is_good(rt: HostRuntime) {
    let mut life = Script::over(rt.alloc(), SMALL);
    life.add(&REGION_0_WRITTEN);
    let image = life.save(&rt);
    let mut script = Script::over(rt.alloc(), SMALL_WITH_TWO);
    script.add(&[
        Settle("8"),
        FramesTo("01", "05", &[OTHER_KEY]),
        Settle("2"),
        GoodFrames("05"),
    ]);
    script.load(&rt, image.as_slice());
    script.check_image(&rt, image.as_slice(), b"check stops 12 bad 0\n");
}
