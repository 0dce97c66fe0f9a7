//! Each job of a long row fails once.
use crate::player::Player;
use crate::rows::{ACTS, LIVES, worn};
use std::alloc::Global;
use std::process::Abort;
use workbench::collected::Left;

/// The row on copies of the dies of this device, with this job failing. Each command is answered as
/// it has to be.
fn play(rt: &impl Abort, alloc: Global, before: &Player, failing: usize, left: Left) -> Player {
    let mut player = before.failing(rt, alloc, failing, left);
    let wrong = player.plays(ACTS);
    assert!(rt; wrong.is_none(), "job {failing}");
    assert!(rt; player.ends() && player.rests(), "job {failing}");
    player
}

/// All is there after the row, and after a stop too. How often a host was told of a failure.
fn expect_all(rt: &impl Abort, alloc: Global, mut player: Player, failing: usize) -> usize {
    assert!(rt; player.has_all(), "job {failing}");
    player.stop(rt, alloc);
    assert!(rt; player.rests() && player.has_all(), "job {failing}");
    let told = player.told;
    drop(player);
    told
}

/// The row in which nothing fails: of each of its jobs whether it is a read.
fn read_jobs(rt: &impl Abort, alloc: Global, before: &Player) -> Vec<bool> {
    let mut player = play(rt, alloc, before, 0, Left::Old);
    let jobs = player.counts.jobs;
    let are_reads = std::mem::replace(&mut player.are_reads, Vec::new(alloc));
    assert!(rt;
        are_reads.len() == jobs && 300 <= jobs && jobs <= 400,
        "{jobs} jobs"
    );
    assert!(rt; expect_all(rt, alloc, player, 0) == 0);
    are_reads
}

/// The row with this job failing: how often a host was told of it.
fn told_in(rt: &impl Abort, alloc: Global, before: &Player, failing: usize, left: Left) -> usize {
    let player = play(rt, alloc, before, failing, left);
    expect_all(rt, alloc, player, failing)
}

/// Each program and each erase fails once, and leaves this.
fn each_write_fails(rt: &impl Abort, alloc: Global, left: Left) {
    let before = worn(rt, alloc, LIVES, None);
    for (index, is_read) in read_jobs(rt, alloc, &before).as_slice().iter().enumerate() {
        if !*is_read {
            assert!(rt; told_in(rt, alloc, &before, index + 1, left) == 0);
        }
    }
    drop(before);
}

/// Each program and each erase fails once, and leaves its page or the pages of its block as they
/// were.
#[test]
fn each_write_fails_and_leaves_all_old(rt: HostRuntime) {
    each_write_fails(&rt, rt.alloc(), Left::Old);
}

/// It leaves them as if it had not failed.
#[test]
fn each_write_fails_and_leaves_all_new(rt: HostRuntime) {
    each_write_fails(&rt, rt.alloc(), Left::New);
}

/// It leaves them torn.
#[test]
fn each_write_fails_and_leaves_all_torn(rt: HostRuntime) {
    each_write_fails(&rt, rt.alloc(), Left::Torn);
}

/// Each read fails once. The host is told of it where a READ, or a request for data of the replay
/// protected memory block, waited for that page; and else, where the page was read for a copy or
/// for a write of such data, it is not.
#[test]
fn each_read_fails(rt: HostRuntime) {
    let alloc = rt.alloc();
    let before = worn(&rt, alloc, LIVES, None);
    let (mut reads, mut told) = (0usize, 0usize);
    for (index, is_read) in read_jobs(&rt, alloc, &before).as_slice().iter().enumerate() {
        if *is_read {
            told = told.saturating_add(told_in(&rt, alloc, &before, index + 1, Left::Old));
            reads = reads.saturating_add(1);
        }
    }
    assert!(rt; 0 < told && told < reads, "{told} of {reads} told");
    drop(before);
}
