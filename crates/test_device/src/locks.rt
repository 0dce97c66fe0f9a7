//! Bad blocks and failed jobs of a device without spare blocks, which the first bad block locks.
use crate::answers::{PROTECTED, READ_FAILED, WRITE_FAILED};
use crate::dies::{at_rest, small, small_dies};
use nand_model::Die;
use std::process::Abort;
use ufs_spec::{Job, Outcome};
use workbench::Workbench;
use workbench::messages::{FUA, READ, WRITE, command};

/// The device has this write, whose block is at address 3, up to its data.
fn expect_begun(rt: &impl Abort, bench: &mut Workbench) {
    assert!(rt; bench.begins_write(3, 0x44) && !bench.hear());
}

/// The device refuses this write.
fn expect_protected(rt: &impl Abort, bench: &mut Workbench) {
    assert!(rt; bench.send(&command(7, WRITE, FUA, 3, 1)).is_ok() && bench.hears(&PROTECTED));
}

/// The program of this write fails on die 1, and the device takes that it failed, once.
fn fail_program(rt: &impl Abort, bench: &mut Workbench) {
    let job = bench.device.take(1);
    assert!(rt; matches!(job, Some(Job::Program(place, _)) if place.die == 1));
    assert!(rt; !bench.device.done(1, &Outcome::ReadFailed));
    assert!(rt; bench.device.done(1, &Outcome::Failed));
    assert!(rt; !bench.device.done(1, &Outcome::Failed));
}

/// A failed program locks the device: the write that waits is told so, the next is refused, and the
/// block is still programmed elsewhere and read back.
#[test]
fn a_failed_program_locks(rt: HostRuntime) {
    let alloc = rt.alloc();
    let mut bench = at_rest(&rt, alloc, small(&rt), small_dies(&rt, alloc));
    expect_begun(&rt, &mut bench);
    fail_program(&rt, &mut bench);
    assert!(rt; bench.hears(&WRITE_FAILED));
    expect_protected(&rt, &mut bench);
    // Read while its page waits, from the slot, and then from the die that it went to.
    assert!(rt; bench.reads(3, 0x44));
    bench.settle(4, 4);
    assert!(rt; bench.reads(3, 0x44));
    drop(bench);
}

/// A READ of the block is begun, and its read on die 0 fails.
fn fail_read(rt: &impl Abort, bench: &mut Workbench) {
    assert!(rt; bench.send(&command(8, READ, 0, 3, 1)).is_ok() && !bench.hear());
    assert!(rt; matches!(bench.device.take(0), Some(Job::Read(_))));
    assert!(rt; bench.device.done(0, &Outcome::ReadFailed));
}

/// A read that fails ends its READ; the block is read again by the next.
#[test]
fn a_failed_read_ends_its_command(rt: HostRuntime) {
    let alloc = rt.alloc();
    let mut bench = at_rest(&rt, alloc, small(&rt), small_dies(&rt, alloc));
    assert!(rt; bench.writes(3, 0x44));
    fail_read(&rt, &mut bench);
    assert!(rt; bench.hears(&READ_FAILED) && bench.reads(3, 0x44));
    drop(bench);
}

/// New dies may have bad blocks: a device without spare ones is then locked from the start, and reads go
/// on.
#[test]
fn a_bad_block_at_the_start_locks(rt: HostRuntime) {
    let alloc = rt.alloc();
    let mut dies = small_dies(&rt, alloc);
    assert!(rt; 1 < dies.len() && 0 < dies[1].blocks());
    dies[1].set_bad(0);
    let mut bench = at_rest(&rt, alloc, small(&rt), dies);
    expect_protected(&rt, &mut bench);
    assert!(rt; bench.reads(3, 0));
    drop(bench);
}
