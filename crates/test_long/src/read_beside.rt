//! A READ whose blocks are overwritten while the device collects blocks.
use crate::collections::{opened, row_dies};
use workbench::collected::reads_beside_collection;

/// A READ of 32 blocks gives all of them as they were at its COMMAND, though they are overwritten after
/// each DATA IN. The dies have 4,096 pages, and 143 times 32 are written here without those of marks and
/// copies, so that blocks are collected on the way; those of the READ are not erased before it lets go.
#[test]
fn read_beside_collection(rt: HostRuntime) {
    let mut bench = opened(&rt, rt.alloc(), row_dies(&rt, rt.alloc()));
    bench.settle(4, 4);
    assert!(rt; reads_beside_collection(&mut bench, 110));
    drop(bench);
}
