//! Dies of the program's own.
use crate::rows::{NO_JOB, opened, settled};
use std::process::Abort;

/// A new device erases a block of die 0 first, and its end is told once.
#[test]
fn an_erase_ends_once(rt: HostRuntime) {
    let mut handle = opened(&rt, rt.alloc());
    assert!(rt; handle.give_up_dies(rt.alloc()).is_some());
    handle.turn(rt.alloc());
    let mut job = NO_JOB;
    assert!(rt; matches!(handle.take_job(rt.alloc(), 0, &mut job), Some(true)));
    assert!(rt; job.kind == 3 && job.die == 0 && job.page == 0);
    assert!(rt; matches!(handle.work(rt.alloc(), 0), Some(false)));
    assert!(rt; handle.done_so(rt.alloc(), 0, 4, &[]).is_none());
    assert!(rt; handle.done_so(rt.alloc(), 0, 0, &[0; 4191]).is_none());
    assert!(rt;
        matches!(
            handle.done_so(rt.alloc(), 0, 0, &[0; 4192]),
            Some(Some(false))
        )
    );
    assert!(rt; matches!(handle.done_so(rt.alloc(), 0, 2, &[]), Some(Some(true))));
    assert!(rt; matches!(handle.done_so(rt.alloc(), 0, 2, &[]), Some(Some(false))));
    drop(handle);
}

/// A die in memory ends its jobs by itself.
#[test]
fn a_die_in_memory_is_not_told(rt: HostRuntime) {
    let mut handle = settled(&rt, rt.alloc());
    assert!(rt; matches!(handle.done_so(rt.alloc(), 0, 2, &[]), Some(Some(false))));
    drop(handle);
}
