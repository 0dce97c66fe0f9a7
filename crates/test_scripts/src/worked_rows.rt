//! The worked rows of one block, as scripts.
use crate::steps::Step::{Block, Command, DataIn, Good, Lines, Refusal, Response, Send, Settle};
use crate::steps::{OFFSETS, Script, Step, expect};

/// A FUA write at the last address of unit 0: no answer before its program ended.
const WRITE: [Step<'static>; 8] = [
    Settle("4"),
    Command("012000", "07", "00001000", "2a08000000ff000001"),
    Send("07", "FF", 1),
    Lines("reply", "reply none"),
    Lines("take 0", "take 0 program 0 1"),
    Lines("reply", "reply none"),
    Lines("done 0 ok", "done 0 yes"),
    Good("07"),
];

#[test]
fn a_forced_write_is_read_back(rt: HostRuntime) {
    let mut script = Script::new(rt.alloc());
    script.add(&WRITE);
    script.add(&[
        Command("014000", "08", "00001000", "2800000000ff000001"),
        Lines("reply", "reply none"),
        Lines("take 0", "take 0 read 0 1"),
        Lines("done 0 ok", "done 0 yes"),
        Block("08", "ff"),
        Good("08"),
        Lines("reply", "reply none"),
    ]);
    script.run(&rt);
}

#[test]
fn an_empty_write_is_good_at_once(rt: HostRuntime) {
    expect(
        &rt,
        rt.alloc(),
        &[
            Settle("4"),
            Command("012000", "04", "00000000", "2a08"),
            Good("04"),
            Lines("reply", "reply none"),
            Lines("take 0", "take 0 none"),
        ],
    );
}

/// One block is read where 512 bytes are expected.
#[test]
fn a_short_read_tells_its_residual(rt: HostRuntime) {
    let mut script = Script::new(rt.alloc());
    script.add(&WRITE);
    script.add(&[
        Command("014000", "09", "00000200", "2800000000ff000001"),
        Lines("take 0", "take 0 read 0 1"),
        Lines("done 0 ok", "done 0 yes"),
        DataIn("09", OFFSETS[0], "0200", "ff", 512),
        Response("214000", "09", "0000", "00000e00"),
    ]);
    script.run(&rt);
}

/// A READ at the first address past the unit's end, and one of 33 blocks.
#[test]
fn a_read_out_of_range_is_refused(rt: HostRuntime) {
    expect(
        &rt,
        rt.alloc(),
        &[
            Settle("4"),
            Command("014000", "03", "00001000", "280000000100000001"),
            Refusal("212000", "03", "00001000", "05", "2100"),
            Command("014000", "01", "00021000", "280000000000000021"),
            Refusal("212000", "01", "00021000", "05", "2400"),
        ],
    );
}

/// Before the first mark is finished the device is not ready: a READ gets 2/04/01.
#[test]
fn a_new_device_is_not_ready(rt: HostRuntime) {
    expect(
        &rt,
        rt.alloc(),
        &[
            Command("014000", "03", "00001000", "280000000000000001"),
            Refusal("212000", "03", "00001000", "02", "0401"),
            Lines("turn", "turn yes"),
            Lines("take 3", "take 3 erase 0"),
            Lines("take 3", "take 3 none"),
            Lines("turn", "turn no"),
            Lines("done 3 ok", "done 3 yes"),
            Lines("take 003", "take 3 program 0 0"),
            Lines("take 300", "take 300 none"),
            Lines("done 3 ok", "done 3 yes"),
            Lines("turn", "turn no"),
        ],
    );
}
