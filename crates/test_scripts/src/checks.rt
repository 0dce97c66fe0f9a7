//! Stops at each program and each erase of a script, also second ones and different ones on two
//! dies.
use crate::frames::KEY_REQUEST;
use crate::rpmb_write_stopped::{AT_13, EIGHT};
use crate::steps::Step::{
    Command, Frames, Good, GoodFrames, Lines, Manage, Managed, Query, Refusal, Send, Settle, Told,
};
use crate::steps::{Script, Step};
use ufsim::Stops;

/// Two dies, units of 4 and of 2 blocks.
pub const SMALL: &str = "config 2 20 16 1 64 0\nunit 4 0 0\nunit 2 1 0\n";

/// Two writes without FUA, which are answered at once, each in flight on a die of its own; the
/// second is done first.
const TWO_IN_FLIGHT: [Step<'static>; 10] = [
    Settle("4"),
    Command("012000", "01", "00001000", "2a0000000000000001"),
    Send("01", "11", 1),
    Good("01"),
    Command("012000", "01", "00001000", "2a0000000001000001"),
    Send("01", "22", 1),
    Good("01"),
    Lines("take 0", "take 0 program 0 1"),
    Lines("take 1", "take 1 program 0 0"),
    Lines("done 1 ok", "done 1 yes"),
];

/// A stop that tears the first write, and the mending.
const TORN_AND_MENDED: [Step<'static>; 2] = [Lines("stop 0:torn", "stop ok"), Settle("8")];

/// The stops of two writes in flight on two dies. The first mark of new dies takes two erases and a
/// program, and the writes two programs: five moments. A stop that tears the first write leaves a
/// gap, whose mending takes two erases, two marks and a repair: five moments more.
#[test]
fn each_stop_with_two_writes_in_flight_is_good(rt: HostRuntime) {
    let mut script = Script::over(rt.alloc(), SMALL);
    script.add(&TWO_IN_FLIGHT);
    script.add(&TORN_AND_MENDED);
    script.run(&rt);
    script.check_each(&rt, Stops::One, b"check stops 30 bad 0\n");
}

/// At one moment both dies program: nine pairs of contents beside the three that are alike.
#[test]
fn each_pair_of_leftovers_is_good(rt: HostRuntime) {
    let mut script = Script::over(rt.alloc(), SMALL);
    script.add(&TWO_IN_FLIGHT);
    script.check_each(&rt, Stops::Pairs, b"check stops 24 bad 0\n");
}

/// A second stop in each mending. Without a mark on the dies it takes three programs and erases:
/// after six stops inside the first erases and two inside the first mark. With a gap it takes five:
/// after each of the fifteen stops inside its mending but that whose last mark is whole. After that
/// one nothing is mended, but the first blocks of both dies are free, have older pages, and are
/// erased. Each has three contents.
#[test]
fn a_second_stop_in_each_mending_is_good(rt: HostRuntime) {
    let mut script = Script::over(rt.alloc(), SMALL);
    script.add(&TWO_IN_FLIGHT);
    script.add(&TORN_AND_MENDED);
    script.check_each(&rt, Stops::Second, b"check stops 318 bad 0\n");
}

/// The RPMB key is programmed, and a write of eight blocks covers two pages of the area in part.
/// Two of its three pages are in flight at once.
pub const TWO_PAGES_IN_FLIGHT: [Step<'static>; 10] = [
    Settle("4"),
    Frames("01", &[KEY_REQUEST]),
    Settle("1"),
    GoodFrames("01"),
    Frames("02", &EIGHT),
    Lines("take 0", "take 0 program 0 2"),
    Lines("take 1", "take 1 program 0 0"),
    Lines("done 1 ok\ndone 0 ok", "done 1 yes\ndone 0 yes"),
    Settle("1"),
    GoodFrames("02"),
];

/// A stop in the mending of which nothing is written, and a write of one of the eight blocks.
pub const WRITTEN_AFTER_A_STOP: [Step<'static>; 5] = [
    Lines("stop", "stop ok"),
    Settle("8"),
    Frames("02", &[AT_13]),
    Settle("4"),
    GoodFrames("02"),
];

/// The blocks of the RPMB area, the key and the counter come back together. The first mark takes
/// two erases and a program, the key one program and the writes three and two; after the script's
/// own stop each die erases a block once more: eleven moments. At one of them both dies program.
#[test]
fn each_stop_of_rpmb_writes_is_good(rt: HostRuntime) {
    let mut script = Script::over(rt.alloc(), SMALL);
    script.add(&TWO_PAGES_IN_FLIGHT);
    script.add(&WRITTEN_AFTER_A_STOP);
    script.run(&rt);
    script.check_each(&rt, Stops::Pairs, b"check stops 42 bad 0\n");
}

/// A write of block 0, which is answered at once.
const WRITE: [Step<'static>; 3] = [
    Command("012000", "02", "00001000", "2a0000000000000001"),
    Send("02", "11", 1),
    Good("02"),
];

/// bBootLunEn becomes 1, and the page of this setting and that of a write are in flight at once. Then
/// fPermanentWPEn is set. Both answers are told at the end.
const BOOT_IN_FLIGHT: [Step<'static>; 1] = [Query("01", "81", "04000000", "", "00000001")];

const PERMANENT_BEHIND_IT: [Step<'static>; 7] = [
    Lines("take 0", "take 0 program 0 1"),
    Lines("take 1", "take 1 program 0 0"),
    Lines("done 1 ok\ndone 0 ok", "done 1 yes\ndone 0 yes"),
    Told("01", "8100", "04000000", "", "00000001", ""),
    Query("03", "81", "06020000", "", ""),
    Settle("2"),
    Told("03", "8100", "06020000", "", "00000001", ""),
];

/// A stop of the script itself, and then bBootLunEn becomes 2.
const BOOT_AFTER_A_STOP: [Step<'static>; 5] = [
    Lines("stop", "stop ok"),
    Settle("8"),
    Query("01", "81", "04000000", "", "00000002"),
    Settle("2"),
    Told("01", "8100", "04000000", "", "00000002", ""),
];

/// The settings come back in the order of the commands. The first mark takes two erases and a program;
/// two settings and the write a program each: six moments, and at one of them both dies program. After
/// the script's own stop each die erases a block, and the setting takes a program: three moments more.
#[test]
fn each_stop_of_settings_is_good(rt: HostRuntime) {
    let mut script = Script::over(rt.alloc(), SMALL);
    script.add(&[Settle("4")]);
    script.add(&BOOT_IN_FLIGHT);
    script.add(&WRITE);
    script.add(&PERMANENT_BEHIND_IT);
    script.add(&BOOT_AFTER_A_STOP);
    script.run(&rt);
    script.check_each(&rt, Stops::Pairs, b"check stops 36 bad 0\n");
}

/// A setting that came before the device was mended is refused at once. As long as its answer is not
/// handed out the check does not know it, and takes the write behind it with the setting or without.
#[test]
fn a_setting_that_is_not_answered_may_be_missing(rt: HostRuntime) {
    let mut script = Script::over(rt.alloc(), SMALL);
    script.add(&BOOT_IN_FLIGHT);
    script.add(&[Settle("4")]);
    script.add(&WRITE);
    script.add(&[Settle("2"), Told("01", "81ff", "04000000", "", "", "")]);
    script.run(&rt);
    script.check_each(&rt, Stops::One, b"check stops 12 bad 0\n");
}

/// The same dies and units, and profile 1: each LUN has an attention after each opening.
const SMALL_OF_PROFILE_1: &str = "config 2 20 16 1 64 0\nunit 4 0 0\nunit 2 1 0\nprofile 1 7\n";

/// The attention of unit 0 refuses a WRITE with FUA, 6/29/00, UNIT ATTENTION.
const REFUSED_WRITE: [Step<'static>; 3] = [
    Settle("4"),
    Command("012000", "01", "00001000", "2a0800000001000001"),
    Refusal("212000", "01", "00001000", "06", "2900"),
];

/// A reset of unit 0 leaves it another attention, which refuses a SYNCHRONIZE CACHE. Then the page of
/// the write before it is programmed.
const REFUSED_FLUSH: [Step<'static>; 6] = [
    Manage("00", "03", "08", "00"),
    Managed("00", "03", "00"),
    Command("010000", "04", "", "35"),
    Refusal("210000", "04", "", "06", "2900"),
    Lines("take 0", "take 0 program 0 1"),
    Lines("done 0 ok", "done 0 yes"),
];

/// What an attention refuses is neither accepted nor promises anything, and a check reads what is
/// there in spite of attentions. The first mark takes two erases and a program, and the write a
/// program: four moments. After the six stops inside the first erases and after two inside the mark
/// the mending takes three programs and erases, each with three contents.
#[test]
fn each_stop_of_a_device_with_attentions_is_good(rt: HostRuntime) {
    let mut script = Script::over(rt.alloc(), SMALL_OF_PROFILE_1);
    script.add(&REFUSED_WRITE);
    script.add(&WRITE);
    script.add(&REFUSED_FLUSH);
    script.run(&rt);
    script.check_each(&rt, Stops::Second, b"check stops 84 bad 0\n");
}
