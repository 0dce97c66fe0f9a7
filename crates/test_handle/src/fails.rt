//! Jobs of dies in memory that fail.
use crate::rows::{NO_JOB, begin_write, expect_block, expect_reply, opened, settled, write};
use row_messages::messages::{READ, command, good};
use std::alloc::Global;
use std::process::Abort;
use ufs_handle::{Handle, PlainJob};

/// The next job of any of the dies.
fn next_job(rt: &impl Abort, alloc: Global, handle: &mut Handle) -> PlainJob {
    let mut job = NO_JOB;
    for die in 0..2u8 {
        if matches!(handle.take_job(alloc, die, &mut job), Some(true)) {
            return job;
        }
    }
    assert!(rt; false);
    job
}

/// A block whose program fails is written to another place, and no job goes to the bad block again.
#[test]
fn a_failed_program_is_made_again(rt: HostRuntime) {
    let mut handle = settled(&rt, rt.alloc());
    begin_write(&rt, rt.alloc(), &mut handle, 1, 3, 0x33);
    let failed = next_job(&rt, rt.alloc(), &mut handle);
    assert!(rt; failed.kind == 2);
    assert!(rt; handle.fail_so(rt.alloc(), failed.die, 3).is_none());
    assert!(rt; matches!(handle.fail_so(rt.alloc(), failed.die, 2), Some(Some(true))));
    assert!(rt; matches!(handle.fail_so(rt.alloc(), failed.die, 2), Some(Some(false))));
    let again = next_job(&rt, rt.alloc(), &mut handle);
    assert!(rt; (again.die, again.block) != (failed.die, failed.block));
    handle.work(rt.alloc(), again.die);
    handle.settle(rt.alloc(), 8);
    expect_reply(&rt, rt.alloc(), &mut handle, &good(1));
    expect_block(&rt, rt.alloc(), &mut handle, 2, 3, 0x33);
    drop(handle);
}

/// The block of an erase that failed is not erased again.
#[test]
fn a_failed_erase_makes_its_block_bad(rt: HostRuntime) {
    let mut handle = opened(&rt, rt.alloc());
    handle.turn(rt.alloc());
    let failed = next_job(&rt, rt.alloc(), &mut handle);
    assert!(rt; failed.kind == 3);
    assert!(rt; matches!(handle.fail_so(rt.alloc(), failed.die, 0), Some(Some(true))));
    handle.turn(rt.alloc());
    let again = next_job(&rt, rt.alloc(), &mut handle);
    assert!(rt; again.kind == 3 && (again.die, again.block) != (failed.die, failed.block));
    handle.work(rt.alloc(), again.die);
    handle.settle(rt.alloc(), 8);
    write(&rt, rt.alloc(), &mut handle, 1, 3, 0x11);
    expect_block(&rt, rt.alloc(), &mut handle, 2, 3, 0x11);
    drop(handle);
}

/// A READ whose page cannot be read ends with MEDIUM ERROR, unrecovered read error: 3/11/00, no byte of
/// the block was sent.
#[test]
fn a_failed_read_is_told(rt: HostRuntime) {
    let mut handle = settled(&rt, rt.alloc());
    write(&rt, rt.alloc(), &mut handle, 1, 3, 0x11);
    let heard = handle.host(rt.alloc(), &command(2, READ, 0, 3, 1));
    assert!(rt; matches!(heard, Some(Ok(_))));
    let failed = next_job(&rt, rt.alloc(), &mut handle);
    assert!(rt; failed.kind == 1);
    assert!(rt; matches!(handle.fail_so(rt.alloc(), failed.die, 1), Some(Some(true))));
    let mut answer = [0; 52];
    answer[0] = 0x21;
    answer[1] = 0x20;
    answer[3] = 2;
    answer[6] = 0x01;
    answer[7] = 0x02;
    answer[11] = 0x14;
    answer[14] = 0x10;
    answer[33] = 0x12;
    answer[34] = 0x70;
    answer[36] = 0x03;
    answer[41] = 0x0A;
    answer[46] = 0x11;
    expect_reply(&rt, rt.alloc(), &mut handle, &answer);
    drop(handle);
}
