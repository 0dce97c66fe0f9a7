//! Small devices that are written until blocks are collected, and stops inside the erase of a collected block.
//! The same over dies of 4,096 pages stands in `test_long`.
use crate::dies::{at_rest, power_off, small, small_dies};
use crate::openings::opened_by;
use std::alloc::Global;
use std::process::Abort;
use std::thread::Threads;
use workbench::Workbench;
use workbench::collected::{
    EACH_LEFT, Left, collect_old_page, read_in_turn, reads_beside_collection, stopped_in_erase,
    write_in_turn,
};

/// A small device over new dies.
fn new_bench(rt: &impl Abort, alloc: Global) -> Workbench {
    at_rest(rt, alloc, small(rt), small_dies(rt, alloc))
}

/// 700 writes on dies of 640 pages: write i, from 0 on, carries the byte i mod 256 to the address i mod 32.
/// All are answered, and the last of each address is read, also after a stop.
#[test]
fn more_writes_than_pages(rt: HostRuntime) {
    let mut bench = new_bench(&rt, rt.alloc());
    assert!(rt; write_in_turn(&mut bench, 700) && read_in_turn(&mut bench, 700));
    let mut bench = at_rest(&rt, rt.alloc(), small(&rt), power_off(bench));
    assert!(rt; read_in_turn(&mut bench, 700));
    drop(bench);
}

/// After a stop inside the erase of this block, which left all of its pages so, the address reads BBh.
fn expect_newer(rt: &impl Abort, alloc: Global, bench: &Workbench, block: u16, left: Left) {
    let dies = stopped_in_erase(alloc, bench.dies.as_slice(), block, left).expect(rt, "memory");
    let mut bench = at_rest(rt, alloc, small(rt), dies);
    assert!(rt; bench.reads(5, 0xBB));
    drop(bench);
}

/// It does so too where the pages are old, and two threads opened the device.
fn expect_newer_by_two<R: Threads + Abort + Sync>(
    rt: &R,
    alloc: Global,
    bench: &Workbench,
    block: u16,
) {
    let dies = bench.dies.as_slice();
    let dies = stopped_in_erase(alloc, dies, block, Left::Old).expect(rt, "memory");
    let mut bench = opened_by(rt, alloc, small(rt), dies, 2);
    bench.settle(64, 4);
    assert!(rt; bench.reads(5, 0xBB));
    drop(bench);
}

/// An address holds AAh, and is overwritten with BBh on another die. The block with the page of AAh is
/// collected. A stop inside its erase leaves all of its pages old, that of AAh too, or new, or torn: the
/// address reads BBh. With old pages it does so too after two threads opened the device.
#[test]
fn a_stop_in_the_erase_of_a_collected_block(rt: HostRuntime) {
    let mut bench = new_bench(&rt, rt.alloc());
    let block = collect_old_page(&mut bench).expect(&rt, "the block is collected and erased");
    for left in EACH_LEFT {
        expect_newer(&rt, rt.alloc(), &bench, block, left);
    }
    expect_newer_by_two(&rt, rt.alloc(), &bench, block);
    drop(bench);
}

/// A READ of 32 blocks gives all of them as they were at its COMMAND, though they are overwritten after
/// each DATA IN, so that blocks are collected on the way.
#[test]
fn a_read_beside_a_collection(rt: HostRuntime) {
    let mut bench = new_bench(&rt, rt.alloc());
    assert!(rt; reads_beside_collection(&mut bench, 4));
    drop(bench);
}
