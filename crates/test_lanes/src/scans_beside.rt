//! Two workers of a scan read two dies beside each other.
use crate::gate_die::{Gate, GateDie, two_gate_dies};
use crate::sharing::two_dies_config;
use recovery::{Found, fit, scan_parallel};
use std::alloc::Global;
use std::process::Abort;
use std::sync::atomic::Ordering;
use std::thread::Threads;

/// What dies that fit stand for, which so many workers read.
fn scanned<R: Threads + Abort + Sync>(
    rt: &R,
    alloc: Global,
    dies: &mut [GateDie],
    workers: usize,
) -> Found {
    let config = two_dies_config(rt);
    assert!(rt; fit(&config, dies));
    scan_parallel(rt, alloc, dies, &config, workers).expect(rt, "the dies are scanned")
}

/// Two dies are scanned by so many workers, where a read of each waits for a read of the other: whether they
/// were read beside each other. Else the wait comes to its end.
fn are_read_beside<R: Threads + Abort + Sync>(rt: &R, alloc: Global, workers: usize) -> bool {
    let gate = Gate::new(rt, alloc);
    let mut dies = two_gate_dies(rt, alloc, &gate);
    gate.has_reads_meet.store(true, Ordering::SeqCst);
    let found = scanned(rt, alloc, dies.as_mut_slice(), workers);
    assert!(rt; found.kept == 0);
    !gate.has_run_out.load(Ordering::SeqCst)
}

/// Two workers read two dies at a time. One worker reads them one after another, so that its first read waits
/// in vain.
#[test]
fn two_workers_read_two_dies_beside_each_other(rt: HostRuntime) {
    assert!(rt; are_read_beside(&rt, rt.alloc(), 2));
    assert!(rt; !are_read_beside(&rt, rt.alloc(), 1));
}
