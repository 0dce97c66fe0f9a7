//! Dies in memory that lose their power.
use crate::rows::{NO_JOB, begin_write, expect_block, settled, write};
use std::alloc::Global;
use std::process::Abort;
use ufs_handle::Handle;

/// The die on which the program of a block was taken.
fn programming(rt: &impl Abort, alloc: Global, handle: &mut Handle) -> u8 {
    let mut job = NO_JOB;
    if matches!(handle.take_job(alloc, 0, &mut job), Some(true)) {
        return 0;
    }
    assert!(rt; matches!(handle.take_job(alloc, 1, &mut job), Some(true)));
    1
}

/// A block was written, another one is being programmed, and the power goes: `left` says what is left.
fn stopped(rt: &impl Abort, alloc: Global, left: u8) -> Handle {
    let mut handle = settled(rt, alloc);
    write(rt, alloc, &mut handle, 1, 3, 0x11);
    begin_write(rt, alloc, &mut handle, 2, 4, 0x22);
    let die = programming(rt, alloc, &mut handle);
    let lefts = if die == 0 { [left, 0] } else { [0, left] };
    assert!(rt; matches!(handle.stop_with(alloc, &lefts), Some(Some(Ok(_)))));
    handle.settle(alloc, 64);
    handle
}

/// What was answered is there, and a page that was torn or not begun is not.
#[test]
fn a_torn_page_does_not_count(rt: HostRuntime) {
    let mut handle = stopped(&rt, rt.alloc(), 2);
    expect_block(&rt, rt.alloc(), &mut handle, 3, 3, 0x11);
    expect_block(&rt, rt.alloc(), &mut handle, 4, 4, 0x00);
    drop(handle);
}

/// A page whose program was done all but its answer is there.
#[test]
fn a_new_page_counts(rt: HostRuntime) {
    let mut handle = stopped(&rt, rt.alloc(), 1);
    expect_block(&rt, rt.alloc(), &mut handle, 3, 3, 0x11);
    expect_block(&rt, rt.alloc(), &mut handle, 4, 4, 0x22);
    drop(handle);
}

/// A number that says nothing that may be left stops nothing.
#[test]
fn a_number_of_nothing_stops_nothing(rt: HostRuntime) {
    let mut handle = settled(&rt, rt.alloc());
    assert!(rt; handle.stop_with(rt.alloc(), &[0, 3]).is_none());
    write(&rt, rt.alloc(), &mut handle, 1, 3, 0x11);
    drop(handle);
}
