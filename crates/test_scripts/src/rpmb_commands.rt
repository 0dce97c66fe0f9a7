//! Commands to the unit RPMB, as scripts: what it takes, and which lengths.
use crate::frames::{COUNTER_REQUEST, NO_COUNTER};
use crate::steps::Step::{
    Answer, Command, GoodFrames, Host, Refusal, Reply, Request, Response, Settle,
};
use crate::steps::{Script, Step, expect};

/// The unit takes TEST UNIT READY, REQUEST SENSE and the two SECURITY PROTOCOL commands, and the
/// units with blocks do not take these two. INQUIRY is not there yet.
#[test]
fn the_unit_takes_its_commands(rt: HostRuntime) {
    expect(
        &rt,
        rt.alloc(),
        &[
            Settle("4"),
            Command("0100c4", "01", "", "00"),
            GoodFrames("01"),
            Command("0140c4", "02", "00000004", "0300000004"),
            Reply("2200c40200000000000000040000000000000004", "70000000"),
            GoodFrames("02"),
            Command("0140c4", "03", "00001000", "280000000000000001"),
            Refusal("2120c4", "03", "00001000", "05", "2000"),
            Command("0140c4", "04", "00000010", "a00000000000000000100000"),
            Refusal("2120c4", "04", "00000010", "05", "2000"),
            Command("014000", "05", "00000200", "a2ec0001000000000200"),
            Refusal("212000", "05", "00000200", "05", "2000"),
            Command("012000", "06", "00000200", "b5ec0001000000000200"),
            Refusal("212000", "06", "00000200", "05", "2000"),
        ],
    );
}

/// A device that is not mended takes no SECURITY PROTOCOL command.
#[test]
fn a_new_device_takes_no_frames(rt: HostRuntime) {
    expect(
        &rt,
        rt.alloc(),
        &[
            Command("0120c4", "01", "00000200", "b5ec0001000000000200"),
            Refusal("2120c4", "01", "00000200", "02", "0401"),
            Command("0140c4", "02", "00000200", "a2ec0001000000000200"),
            Refusal("2120c4", "02", "00000200", "02", "0401"),
        ],
    );
}

/// CDBs that are refused: no frame, a part of one, nine frames, another security protocol, another
/// region, and more bytes than the host has.
const INVALID: [Step<'static>; 12] = [
    Command("0120c4", "01", "00000000", "b5ec0001000000000000"),
    Refusal("2100c4", "01", "00000000", "05", "2400"),
    Command("0120c4", "02", "00000300", "b5ec0001000000000300"),
    Refusal("2120c4", "02", "00000300", "05", "2400"),
    Command("0120c4", "03", "00001200", "b5ec0001000000001200"),
    Refusal("2120c4", "03", "00001200", "05", "2400"),
    Command("0120c4", "04", "00000200", "b5000001000000000200"),
    Refusal("2120c4", "04", "00000200", "05", "2400"),
    Command("0120c4", "05", "00000200", "b5ec0101000000000200"),
    Refusal("2120c4", "05", "00000200", "05", "2400"),
    Command("0120c4", "06", "00000200", "b5ec0001000000000400"),
    Refusal("2120c4", "06", "00000200", "05", "2400"),
];

/// A CDB that names no frames, or frames of a region that is not there, is refused.
#[test]
fn cdbs_without_frames_are_refused(rt: HostRuntime) {
    let mut script = Script::new(rt.alloc());
    script.add(&[Settle("4")]);
    script.add(&INVALID);
    script.run(&rt);
}

/// While one command that brings frames is open, up to its RESPONSE, another one is refused by
/// BUSY.
#[test]
fn frames_are_brought_by_one_command_at_a_time(rt: HostRuntime) {
    expect(
        &rt,
        rt.alloc(),
        &[
            Settle("4"),
            Command("0120c4", "01", "00000200", "b5ec0001000000000200"),
            Command("0120c4", "02", "00000200", "b5ec0001000000000200"),
            Reply("3100c40100000000000000000000000000000200", ""),
            Response("2120c4", "02", "0108", "00000200"),
            Host("0200c40100000000000002000000000000000200", 544, "host ok"),
            Command("0120c4", "03", "00000200", "b5ec0001000000000200"),
            Refusal("2100c4", "01", "00000000", "05", "2600"),
            Response("2120c4", "03", "0108", "00000200"),
            Request("04", &[COUNTER_REQUEST]),
        ],
    );
}

/// A SECURITY PROTOCOL IN has the length of the response that waits, else it is refused, and the
/// response waits on. A host that expects less gets the first bytes of it, and then none waits any
/// more.
#[test]
fn a_response_is_fetched_by_its_length(rt: HostRuntime) {
    expect(
        &rt,
        rt.alloc(),
        &[
            Settle("4"),
            Request("01", &[COUNTER_REQUEST]),
            Command("0140c4", "02", "00000400", "a2ec0001000000000400"),
            Refusal("2120c4", "02", "00000400", "05", "2400"),
            Answer("03", &[NO_COUNTER]),
            Request("01", &[COUNTER_REQUEST]),
            Command("0140c4", "04", "00000004", "a2ec0001000000000200"),
            Reply("2200c40400000000000000040000000000000004", "00000000"),
            Response("2140c4", "04", "", "000001fc"),
            Command("0140c4", "05", "00000200", "a2ec0001000000000200"),
            Refusal("2120c4", "05", "00000200", "05", "2c00"),
        ],
    );
}
