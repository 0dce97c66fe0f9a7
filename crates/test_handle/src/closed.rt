//! A handle without a device.
use crate::rows::{CONFIG, NO_JOB, UNITS, settled};
use std::process::Abort;
use ufs_handle::{Fault, Handle, copy_text};

/// Each call of it does nothing, and says so.
#[test]
fn a_closed_handle_does_nothing(rt: HostRuntime) {
    let mut handle = Handle::closed(rt.alloc());
    assert!(rt; handle.host(rt.alloc(), &[0; 32]).is_none());
    assert!(rt; handle.turn(rt.alloc()).is_none());
    let mut job = NO_JOB;
    assert!(rt; handle.take_job(rt.alloc(), 0, &mut job).is_none());
    assert!(rt; job.kind == 9);
    assert!(rt; handle.work(rt.alloc(), 0).is_none());
    assert!(rt; matches!(handle.fail_so(rt.alloc(), 0, 0), Some(None)));
    assert!(rt; handle.settle(rt.alloc(), 1).is_none());
    assert!(rt; handle.give_up_dies(rt.alloc()).is_none());
    assert!(rt; !handle.close(rt.alloc()));
}

/// A second opening is refused, and a device that was closed is gone.
#[test]
fn a_handle_holds_one_device(rt: HostRuntime) {
    let mut handle = settled(&rt, rt.alloc());
    let again = handle.open_new(rt.alloc(), &CONFIG, &UNITS);
    assert!(rt; matches!(again, Err(Fault::Open)));
    let again = handle.open_new(rt.alloc(), &CONFIG, &[UNITS[0]; 9]);
    assert!(rt; matches!(again, Err(Fault::Open)));
    assert!(rt; handle.close(rt.alloc()));
    assert!(rt; !handle.is_open());
    drop(handle);
}

/// Nine units are too many, and so is a boot number twice.
#[test]
fn a_configuration_is_refused(rt: HostRuntime) {
    let mut handle = Handle::closed(rt.alloc());
    let nine = handle.open_new(rt.alloc(), &CONFIG, &[UNITS[0]; 9]);
    assert!(rt; matches!(nine, Err(Fault::Range)));
    let mut units = [UNITS[0]; 2];
    units[0].boot = 1;
    units[1].boot = 1;
    let twice = handle.open_new(rt.alloc(), &CONFIG, &units);
    assert!(rt; matches!(twice, Err(Fault::TwoBootUnits)));
    drop(handle);
}

/// A text is cut where the room ends, and ends with a zero byte.
#[test]
fn a_text_is_cut(rt: HostRuntime) {
    let mut room = [0xFF; 8];
    assert_eq!(rt; copy_text(9, &mut room), 7);
    assert!(rt; room == *b"nothing\0");
    assert_eq!(rt; copy_text(9, &mut []), 0);
}
