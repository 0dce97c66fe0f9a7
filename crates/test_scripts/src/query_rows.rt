//! Queries as scripts: descriptors, attributes and flags, and each response code (JESD220, 10.7.8,
//! 10.7.9 and 14).
use crate::frames::{COUNTER_1, COUNTER_REQUEST, KEY_REQUEST};
use crate::rpmb_write_stopped::EIGHT;
use crate::steps::Step::{Answer, Frames, GoodFrames, Lines, Query, Request, Settle, Told};
use crate::steps::{Script, Step, WITHOUT_SPARE, expect};
use std::alloc::Global;
use std::process::Abort;

/// The descriptor of unit 1, with a zero byte that pads it.
const UNIT_1: &str = "230201010100000000010c000000000000004000000001030000000000000040000000\
                      00";

/// The device descriptor: three units, four well-known ones, two that boot, RPMB, version 2.1.
const DEVICE: &str = "40000000000003040101000000010000\
                      02100000000000000000000000000000\
                      00000000000000000000000000000000\
                      00000000000000000000000000000000";

/// Descriptors are read, whole and in part, before the device is ready too.
#[test]
fn descriptors_are_read(rt: HostRuntime) {
    expect(
        &rt,
        rt.alloc(),
        &[
            Query("09", "01", "01020100", "0023", ""),
            Told("09", "0100", "01020100", "0023", "", UNIT_1),
            Query("0a", "01", "01000000", "00ff", ""),
            Told("0a", "0100", "01000000", "0040", "", DEVICE),
            Query("0b", "01", "01020100", "0003", ""),
            Told("0b", "0100", "01020100", "0003", "", "23020100"),
        ],
    );
}

/// Each response code but success: the first line of the table that applies decides.
#[test]
fn each_response_code_is_told(rt: HostRuntime) {
    expect(
        &rt,
        rt.alloc(),
        &[
            Query("01", "01", "09000000", "", ""),
            Told("01", "01fe", "09000000", "", "", ""),
            Query("01", "81", "03000000", "", ""),
            Told("01", "81fe", "03000000", "", "", ""),
            Query("01", "01", "03010000", "", ""),
            Told("01", "01fd", "03010000", "", "", ""),
            Query("01", "01", "01020300", "0023", ""),
            Told("01", "01fc", "01020300", "", "", ""),
            Query("01", "01", "05030001", "", ""),
            Told("01", "01fb", "05030001", "", "", ""),
            Query("01", "81", "08030000", "", ""),
            Told("01", "81f7", "08030000", "", "", ""),
            Query("01", "01", "01000000", "", ""),
            Told("01", "01f9", "01000000", "", "", ""),
            Query("01", "01", "05030000", "0001", ""),
            Told("01", "01f9", "05030000", "", "", ""),
            Query("01", "81", "04000000", "", "00000003"),
            Told("01", "81fa", "04000000", "", "", ""),
            // The device is not mended yet, so that no setting is accepted.
            Query("01", "81", "04000000", "", "00000001"),
            Told("01", "81ff", "04000000", "", "", ""),
            Query("01", "01", "03000000", "", ""),
            Told("01", "0100", "03000000", "", "", ""),
        ],
    );
}

/// fPermanentWPEn is set once and never cleared; its answer waits for its program.
#[test]
fn permanent_protection_is_set_once(rt: HostRuntime) {
    expect(
        &rt,
        rt.alloc(),
        &[
            Settle("4"),
            Query("01", "81", "06020000", "", ""),
            Lines("reply", "reply none"),
            Lines("take 0", "take 0 program 0 1"),
            Lines("reply", "reply none"),
            Lines("done 0 ok", "done 0 yes"),
            Told("01", "8100", "06020000", "", "00000001", ""),
            Query("01", "81", "06020000", "", ""),
            Told("01", "81f8", "06020000", "", "", ""),
            Query("01", "81", "07020000", "", ""),
            Told("01", "81f7", "07020000", "", "", ""),
            Query("01", "01", "05020000", "", ""),
            Told("01", "0100", "05020000", "", "00000001", ""),
        ],
    );
}

/// fDeviceInit reads 0, and setting it changes nothing; opcode 0 does nothing.
#[test]
fn the_device_is_initialized(rt: HostRuntime) {
    expect(
        &rt,
        rt.alloc(),
        &[
            Query("01", "81", "06010000", "", ""),
            Told("01", "8100", "06010000", "", "", ""),
            Query("01", "01", "05010000", "", ""),
            Told("01", "0100", "05010000", "", "", ""),
            Query("01", "01", "", "", ""),
            Told("01", "0100", "", "", "", ""),
            Lines("take 0", "take 0 none"),
        ],
    );
}

/// A setting that waits is told FFh where a failed program locks the device; it stays accepted.
#[test]
fn a_lock_ends_a_setting_that_waits(rt: HostRuntime) {
    let mut script = Script::over(rt.alloc(), WITHOUT_SPARE);
    script.add(&[
        Settle("4"),
        Query("01", "81", "04000000", "", "00000002"),
        Lines("take 0", "take 0 program 0 1"),
        Lines("done 0 fail", "done 0 yes"),
        Told("01", "81ff", "04000000", "", "", ""),
        Query("02", "01", "03000000", "", ""),
        Told("02", "0100", "03000000", "", "00000002", ""),
        Query("02", "81", "04000000", "", "00000001"),
        Told("02", "81ff", "04000000", "", "", ""),
        Settle("4"),
        Lines("stop", "stop ok"),
        Settle("16"),
        Query("02", "01", "03000000", "", ""),
        Told("02", "0100", "03000000", "", "00000002", ""),
    ]);
    script.run(&rt);
}

/// The boot setting becomes 2, and its page is being programmed.
const SET: [Step<'static>; 3] = [
    Settle("4"),
    Query("01", "81", "04000000", "", "00000002"),
    Lines("take 0", "take 0 program 0 1"),
];

/// The boot setting is read, and is this one.
fn boot_is<'a>(boot: &'a str) -> [Step<'a>; 2] {
    [
        Query("02", "01", "03000000", "", ""),
        Told("02", "0100", "03000000", "", boot, ""),
    ]
}

/// A stop leaves this of the page, and the mended device has this boot setting.
fn stopped(rt: &impl Abort, alloc: Global, stop: &str, boot: &str) {
    let mut script = Script::new(alloc);
    script.add(&SET);
    script.add(&[Lines(stop, "stop ok"), Settle("16")]);
    script.add(&boot_is(boot));
    script.run(rt);
}

/// A stop inside the program of a setting: it is there only if its page is.
#[test]
fn a_stop_in_a_setting_leaves_the_old_one_or_the_new_one(rt: HostRuntime) {
    let alloc = rt.alloc();
    stopped(&rt, alloc, "stop 0:old", "");
    stopped(&rt, alloc, "stop 0:new", "00000002");
    stopped(&rt, alloc, "stop 0:torn", "");
}

/// A key, and then a setting beside an RPMB write of three pages, each of the four programs on a die
/// of its own.
const BESIDE: [Step<'static>; 9] = [
    Settle("4"),
    Frames("01", &[KEY_REQUEST]),
    Settle("1"),
    GoodFrames("01"),
    Frames("02", &EIGHT),
    Query("03", "81", "04000000", "", "00000001"),
    Lines("take 0", "take 0 program 0 2"),
    Lines("take 1", "take 1 program 0 0"),
    Lines("take 2", "take 2 program 0 0"),
];

/// The setting behind the write carries the counter of it, and the write stays in the setting's page.
#[test]
fn a_setting_and_an_rpmb_write_do_not_undo_each_other(rt: HostRuntime) {
    let mut script = Script::new(rt.alloc());
    script.add(&BESIDE);
    script.add(&[
        Lines("take 3", "take 3 program 0 0"),
        Lines("stop 0:new 1:new 2:new 3:new", "stop ok"),
        Settle("16"),
        Query("04", "01", "03000000", "", ""),
        Told("04", "0100", "03000000", "", "00000001", ""),
        Request("05", &[COUNTER_REQUEST]),
        Answer("06", &[COUNTER_1]),
    ]);
    script.run(&rt);
}

/// Where a page of the write is torn, the setting behind it is lost with it.
#[test]
fn a_setting_is_lost_with_the_write_before_it(rt: HostRuntime) {
    let mut script = Script::new(rt.alloc());
    script.add(&BESIDE);
    script.add(&[
        Lines("take 3", "take 3 program 0 0"),
        Lines("stop 0:new 1:torn 2:new 3:new", "stop ok"),
        Settle("16"),
        Query("04", "01", "03000000", "", ""),
        Told("04", "0100", "03000000", "", "", ""),
    ]);
    script.run(&rt);
}
