//! A region of the replay protected memory block comes to the dies of a device that lacked it, and stays
//! (JESD220, 12.4). The MAC is that of another HMAC with SHA-256.
use crate::dies::{at_rest, opened, power_off, row, row_dies};
use crate::rpmb_counter_end::{KEY, NONE, expect_counter, told};
use geometry::Config;
use std::process::Abort;
use ufs_spec::{OpenFault, UnitSpec};
use workbench::Workbench;

/// The MAC of the write counter read response under the counter 0.
const COUNTER_0: [u8; 32] = [
    0x7C, 0xB9, 0xFB, 0x8C, 0x05, 0x50, 0xDF, 0xDE, 0xE2, 0x04, 0xF7, 0x52, 0xF3, 0x2F, 0xE1, 0x1E,
    0xB3, 0xF7, 0x00, 0x56, 0x58, 0x20, 0x9B, 0xE4, 0x33, 0x69, 0xA4, 0x28, 0x77, 0x67, 0x44, 0x74,
];

/// The row configuration, with region 1 beside region 0.
fn row_with_region_1(rt: &impl Abort) -> Config {
    let units = [(256, 0), (64, 1), (64, 2)].map(|(blocks, boot)| UnitSpec {
        blocks,
        boot,
        protect: 0,
    });
    Config::new(4, 16, 64, &units, [1, 1, 0, 0], 64, 4).expect(rt, "a configuration")
}

/// Dies of a device with region 0 alone open with region 1 too. Until the mark is written that says so,
/// they open with region 0 alone again, and from then on no more. Region 0 keeps its key.
#[test]
fn a_region_that_came_stays(rt: HostRuntime) {
    let alloc = rt.alloc();
    let mut bench = at_rest(&rt, alloc, row(&rt), row_dies(&rt, alloc));
    assert!(rt; bench.requests(1, &[told(&KEY, 1, 0, 0, 0)]));
    let unmended = opened(&rt, alloc, row_with_region_1(&rt), power_off(bench));
    let again = opened(&rt, alloc, row(&rt), power_off(unmended));
    let mut bench = at_rest(&rt, alloc, row_with_region_1(&rt), power_off(again));
    let counter = told(&COUNTER_0, 0x0200, 0, 0, 0);
    expect_counter(&rt, &mut bench, &counter);
    match Workbench::new(alloc, row(&rt), power_off(bench)) {
        Err(fault) => assert!(rt; matches!(fault, OpenFault::OtherConfig)),
        Ok(bench) => {
            drop(bench);
            panic!(rt; "region 1 is gone");
        }
    }
}
