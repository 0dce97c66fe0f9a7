//! Stops and failed jobs, as scripts.
use crate::steps::Step::{Block, Command, Good, Lines, Refusal, Send, Settle};
use crate::steps::{Script, Step, WITHOUT_SPARE};
use std::alloc::Global;
use std::process::Abort;

/// A FUA write at the last address of unit 0, up to its program, which is in flight.
const BEGUN: [Step<'static>; 5] = [
    Settle("4"),
    Command("012000", "07", "00001000", "2a08000000ff000001"),
    Send("07", "FF", 1),
    Lines("reply", "reply none"),
    Lines("take 0", "take 0 program 0 1"),
];

/// That program ends well.
const WRITTEN: [Step<'static>; 2] = [Lines("done 0 ok", "done 0 yes"), Good("07")];

/// A READ of that block where it reads as zeros.
const ZEROS_READ: [Step<'static>; 3] = [
    Command("014000", "08", "00001000", "2800000000ff000001"),
    Block("08", "00"),
    Good("08"),
];

/// A READ of that block where it is the one that was written: die 0 reads it.
const BLOCK_READ: [Step<'static>; 6] = [
    Command("014000", "08", "00001000", "2800000000ff000001"),
    Lines("reply", "reply none"),
    Lines("take 0", "take 0 read 0 1"),
    Lines("done 0 ok", "done 0 yes"),
    Block("08", "ff"),
    Good("08"),
];

/// A stop inside the program of a block: with the old content or a torn page the block reads as zeros,
/// with the new page as it was written.
#[test]
fn a_stop_in_a_write_leaves_it_whole_or_not(rt: HostRuntime) {
    let alloc = rt.alloc();
    stop_in_write(&rt, alloc, "stop 0:old", &ZEROS_READ);
    stop_in_write(&rt, alloc, "stop 0:torn", &ZEROS_READ);
    stop_in_write(&rt, alloc, "stop", &ZEROS_READ);
    stop_in_write(&rt, alloc, "stop 0:new", &BLOCK_READ);
}

/// After this stop inside the program the block is read by these steps.
fn stop_in_write(rt: &impl Abort, alloc: Global, stop: &str, read: &[Step<'_>]) {
    let mut script = Script::new(alloc);
    script.add(&BEGUN);
    script.add(&[Lines(stop, "stop ok"), Settle("16")]);
    script.add(read);
    script.run(rt);
}

/// What was answered GOOD is there after a stop, and after a second one straight behind it.
#[test]
fn what_was_good_is_there_after_two_stops(rt: HostRuntime) {
    let mut script = Script::new(rt.alloc());
    script.add(&BEGUN);
    script.add(&WRITTEN);
    script.add(&[Lines("stop\nstop", "stop ok\nstop ok"), Settle("16")]);
    script.add(&BLOCK_READ);
    script.run(&rt);
}

/// New dies up to the erase for their first mark.
const FIRST_ERASE: [Step<'static>; 2] = [
    Lines("turn", "turn yes"),
    Lines("take 0", "take 0 erase 0"),
];

/// New dies up to the program of their first mark.
const FIRST_MARK: [Step<'static>; 4] = [
    Lines("turn", "turn yes"),
    Lines("take 0", "take 0 erase 0"),
    Lines("done 0 ok", "done 0 yes"),
    Lines("take 0", "take 0 program 0 0"),
];

/// Stops inside the first erase and inside the first mark of new dies: the device opens, writes its mark
/// again where it is not there, and takes a write.
#[test]
fn a_stop_in_the_first_mark_is_mended(rt: HostRuntime) {
    let alloc = rt.alloc();
    stop_is_mended(&rt, alloc, &FIRST_ERASE, "stop 0:old");
    stop_is_mended(&rt, alloc, &FIRST_ERASE, "stop 0:new");
    stop_is_mended(&rt, alloc, &FIRST_ERASE, "stop 0:torn");
    stop_is_mended(&rt, alloc, &FIRST_MARK, "stop 0:old");
    stop_is_mended(&rt, alloc, &FIRST_MARK, "stop 0:torn");
}

/// After these steps and this stop the device is mended, and takes a write.
fn stop_is_mended(rt: &impl Abort, alloc: Global, steps: &[Step<'_>], stop: &str) {
    let mut script = Script::new(alloc);
    script.add(steps);
    script.add(&[Lines(stop, "stop ok")]);
    script.add(&BEGUN);
    script.add(&WRITTEN);
    script.run(rt);
}

/// A die of 31 blocks, and more stops than blocks, each of which tears the first mark: none of them uses up a
/// block, and the device is mended after the last one and takes a write.
#[test]
fn forty_torn_marks_use_up_no_block(rt: HostRuntime) {
    let mut script = Script::over(rt.alloc(), "config 1 31 16 1 64 0\nunit 14 0 0\n");
    for _ in 0..40 {
        script.add(&FIRST_MARK);
        script.add(&[Lines("stop 0:torn", "stop ok")]);
    }
    script.add(&[
        Settle("4"),
        Command("012000", "07", "00001000", "2a0800000003000001"),
        Send("07", "FF", 1),
        Settle("2"),
        Good("07"),
    ]);
    script.run(&rt);
}

/// A stop while all dies have a job: each leaves what the line says.
#[test]
fn a_stop_with_all_dies_at_work_is_mended(rt: HostRuntime) {
    let all_at_work = [
        Lines("turn", "turn yes"),
        Lines("take 0", "take 0 erase 0"),
        Lines("take 1", "take 1 erase 0"),
        Lines("take 2", "take 2 erase 0"),
        Lines("take 3", "take 3 erase 0"),
    ];
    stop_is_mended(
        &rt,
        rt.alloc(),
        &all_at_work,
        "stop 3:torn 1:new 0:old 2:torn",
    );
}

/// A program that fails locks a device without spare blocks, and its write ends with a write error; a read
/// that fails ends its READ with a read error.
#[test]
fn failed_jobs_are_told_and_a_failed_program_locks(rt: HostRuntime) {
    let mut script = Script::over(rt.alloc(), WITHOUT_SPARE);
    script.add(&BEGUN);
    script.add(&[
        Lines("done 0 fail", "done 0 yes"),
        Refusal("210000", "07", "00000000", "03", "0c00"),
    ]);
    script.run(&rt);
    let mut script = Script::new(rt.alloc());
    script.add(&BEGUN);
    script.add(&WRITTEN);
    script.add(&[
        Command("014000", "08", "00001000", "2800000000ff000001"),
        Lines("take 0", "take 0 read 0 1"),
        Lines("done 0 fail", "done 0 yes"),
        Refusal("212000", "08", "00001000", "03", "1100"),
    ]);
    script.run(&rt);
}

/// The device comes back rightly from a stop at each program and each erase of these lines: those of the
/// first mark, and the program of a block that is written twice, with a stop of the script's own between.
#[test]
fn each_stop_of_a_script_is_checked(rt: HostRuntime) {
    let first_lines = "config 2 20 16 1 64 0\nunit 4 0 0\nunit 2 1 0\n";
    let mut script = Script::over(rt.alloc(), first_lines);
    script.add(&[
        Settle("4"),
        Command("012000", "07", "00001000", "2a0800000003000001"),
        Send("07", "FF", 1),
        Lines("take 1", "take 1 program 0 0"),
        Lines("stop 1:new", "stop ok"),
        Settle("4"),
        Command("012000", "08", "00001000", "2a0800000003000001"),
        Send("08", "01", 1),
        Settle("2"),
        Good("08"),
    ]);
    script.run(&rt);
    script.check(&rt, b"check stops 21 bad 0\n");
}
