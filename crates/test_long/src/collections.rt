//! Devices that are written until blocks are collected, and stops inside the erase of a collected block.
use device::Device;
use geometry::Config;
use lanes::open_parallel;
use nand_model::MemDie;
use recovery::fit;
use std::alloc::Global;
use std::process::Abort;
use std::thread::Threads;
use ufs_spec::{NoMemory, Upiu};
use workbench::collected::{
    EACH_LEFT, Left, collect_old_page, read_in_turn, stopped_in_erase, write_in_turn,
};
use workbench::{Workbench, new_dies, row_config};

/// New dies of the row configuration.
pub(crate) fn row_dies(rt: &impl Abort, alloc: Global) -> Vec<MemDie> {
    new_dies(alloc, 4, 16, 64).expect(rt, "memory")
}

/// The row configuration.
fn row(rt: &impl Abort) -> Config {
    row_config().expect(rt, "a configuration")
}

/// A device over these dies.
pub(crate) fn opened(rt: &impl Abort, alloc: Global, dies: Vec<MemDie>) -> Workbench {
    Workbench::new(alloc, row(rt), dies).expect(rt, "the dies are opened")
}

/// The dies of a device whose power goes off.
pub(crate) fn power_off(bench: Workbench) -> Vec<MemDie> {
    bench.dies
}

/// A device over these dies, at rest.
fn at_rest(rt: &impl Abort, alloc: Global, dies: Vec<MemDie>) -> Workbench {
    let mut bench = opened(rt, alloc, dies);
    bench.settle(64, 4);
    bench
}

/// 5,000 writes on dies of 4,096 pages: write i, from 0 on, carries the byte i mod 256 to the address
/// i mod 32. All are answered, and the last of each address is read, also after a stop.
#[test]
fn five_thousand_writes(rt: HostRuntime) {
    let mut bench = at_rest(&rt, rt.alloc(), row_dies(&rt, rt.alloc()));
    assert!(rt; write_in_turn(&mut bench, 5000) && read_in_turn(&mut bench, 5000));
    let mut bench = at_rest(&rt, rt.alloc(), power_off(bench));
    assert!(rt; read_in_turn(&mut bench, 5000));
    drop(bench);
}

/// A device over dies that fit, which so many workers read.
fn device_of<R: Threads + Abort + Sync>(
    rt: &R,
    alloc: Global,
    dies: &mut [MemDie],
    workers: usize,
) -> Device {
    let config = row(rt);
    assert!(rt; fit(&config, dies));
    open_parallel(rt, alloc, config, dies, workers).expect(rt, "the dies are opened")
}

/// A workbench at rest, with such a device and its dies.
fn at_rest_by<R: Threads + Abort + Sync>(
    rt: &R,
    alloc: Global,
    mut dies: Vec<MemDie>,
    workers: usize,
) -> Workbench {
    let device = device_of(rt, alloc, dies.as_mut_slice(), workers);
    let mut bench = Workbench {
        device: Box::new(alloc, device)
            .map_err(|_| NoMemory)
            .expect(rt, "memory"),
        dies,
        reply: Upiu::new(),
    };
    bench.settle(64, 4);
    bench
}

/// Copies of the dies, as a stop leaves them inside the erase of this block: each of its pages so.
fn stopped(
    rt: &impl Abort,
    alloc: Global,
    bench: &Workbench,
    block: u16,
    left: Left,
) -> Vec<MemDie> {
    stopped_in_erase(alloc, bench.dies.as_slice(), block, left).expect(rt, "memory")
}

/// The address reads BBh.
fn expect_newer(rt: &impl Abort, mut bench: Workbench) {
    assert!(rt; bench.reads(5, 0xBB));
    drop(bench);
}

/// An address holds AAh, and is overwritten with BBh on another die. The block with the page of AAh is
/// collected. A stop inside its erase leaves all of its pages old, that of AAh too, or new, or torn: the
/// address reads BBh. With old pages it does so too after several threads opened the device.
#[test]
fn stop_in_collection_erase(rt: HostRuntime) {
    let mut bench = at_rest(&rt, rt.alloc(), row_dies(&rt, rt.alloc()));
    let block = collect_old_page(&mut bench).expect(&rt, "the block is collected and erased");
    for left in EACH_LEFT {
        let dies = stopped(&rt, rt.alloc(), &bench, block, left);
        expect_newer(&rt, at_rest(&rt, rt.alloc(), dies));
    }
    for workers in [0usize, 1, 2, 3, 8] {
        let dies = stopped(&rt, rt.alloc(), &bench, block, Left::Old);
        expect_newer(&rt, at_rest_by(&rt, rt.alloc(), dies, workers));
    }
    drop(bench);
}
