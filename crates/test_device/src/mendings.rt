//! Dies whose pages were set by hand, as stops leave them: opened, mended and read.
ghost use Rattle.std.specs.Prelude.{◌≤◌};

use crate::dies::{expect_blocks, opened, power_off, row, row_dies};
use nand_model::{Die, MemDie};
use page_tag::{mark_body, seal};
use std::alloc::Global;
use std::process::Abort;
use ufs_spec::{Fence, Job, Page, Tag};
use workbench::Workbench;

/// The page of a group of one page: a block of equal bytes at an address of unit 0.
pub(crate) fn data(address: u8, number: u8, byte: u8) -> Page
    requires { 1 ≤ number }
{
    let tag = Tag {
        kind: Tag::DATA,
        unit: 0,
        address: u32::from(address),
        number: u64::from(number),
        index: 0,
        size: 1,
        frontier: 0,
    };
    seal(&tag, &[byte; 4096])
}

/// A mark of the row configuration that records this frontier.
fn mark(rt: &impl Abort, number: u8, frontier: u8, fence: Option<Fence>) -> Page
    requires { 1 ≤ number }
{
    let tag = Tag {
        kind: Tag::MARK,
        unit: 0,
        address: 0,
        number: u64::from(number),
        index: 0,
        size: 1,
        frontier: u64::from(frontier),
    };
    seal(&tag, &mark_body(row(rt).numbers(), fence))
}

/// Puts the page at this page of a die's first block.
pub(crate) fn put(rt: &impl Abort, dies: &mut [MemDie], die: usize, page: u16, content: &Page) {
    assert!(rt; die < dies.len() && 0 < dies[die].blocks() && page < dies[die].pages());
    dies[die].set_page(0, page, content);
}

/// New dies with a first mark on die 0.
pub(crate) fn marked_dies(rt: &impl Abort, alloc: Global) -> Vec<MemDie> {
    let mut dies = row_dies(rt, alloc);
    put(rt, dies.as_mut_slice(), 0, 0, &mark(rt, 1, 0, None));
    dies
}

/// Mends the device; how many of its turns ordered a step.
fn mend(bench: &mut Workbench) -> u8 {
    let mut steps = 0u8;
    for _ in 0..32u8 {
        if bench.device.turn() {
            steps = steps.saturating_add(1);
        }
        for die in 0..4u8 {
            bench.work(die);
        }
    }
    steps
}

/// The device is mended in so many steps, and then each of these addresses reads as a block of this byte.
pub(crate) fn expect_mended(
    rt: &impl Abort,
    bench: &mut Workbench,
    steps: u8,
    blocks: &[(u8, u8)],
) {
    assert!(rt; mend(bench) == steps);
    expect_blocks(rt, bench, blocks);
}

/// Groups 1 and 3 stand, and 2 is missing: address 0 keeps 11h, and address 2, whose page has the lost
/// number 3, is repaired with zeros. A mark with a fence, one repair and a mark are ordered. After a
/// second opening nothing is left to mend.
#[test]
fn a_gap_is_mended(rt: HostRuntime) {
    let alloc = rt.alloc();
    let mut dies = marked_dies(&rt, alloc);
    put(&rt, dies.as_mut_slice(), 0, 1, &data(0, 1, 0x11));
    put(&rt, dies.as_mut_slice(), 2, 0, &data(2, 3, 0x33));
    let mut bench = opened(&rt, alloc, row(&rt), dies);
    expect_mended(&rt, &mut bench, 3, &[(0, 0x11), (1, 0), (2, 0)]);
    let mut bench = opened(&rt, alloc, row(&rt), power_off(bench));
    expect_mended(&rt, &mut bench, 0, &[(0, 0x11), (2, 0)]);
    drop(bench);
}

/// The lost page is of an address that has an older one: its repair is read from that page.
#[test]
fn a_repair_is_read(rt: HostRuntime) {
    let alloc = rt.alloc();
    let mut dies = marked_dies(&rt, alloc);
    put(&rt, dies.as_mut_slice(), 3, 0, &data(7, 1, 0x11));
    put(&rt, dies.as_mut_slice(), 1, 0, &data(7, 3, 0x33));
    let mut bench = opened(&rt, alloc, row(&rt), dies);
    expect_mended(&rt, &mut bench, 3, &[(7, 0x11)]);
    drop(bench);
}

/// A stop came in the middle of a mending: the newest mark fences 2 to 3, the repair 4 of address 2
/// stands, and the last mark does not. The device mends again and reads the same.
#[test]
fn half_a_mending_is_mended_again(rt: HostRuntime) {
    let alloc = rt.alloc();
    let mut dies = marked_dies(&rt, alloc);
    let fence = Some(Fence { first: 2, last: 3 });
    put(&rt, dies.as_mut_slice(), 0, 1, &data(0, 1, 0x11));
    put(&rt, dies.as_mut_slice(), 2, 0, &data(2, 3, 0x33));
    put(&rt, dies.as_mut_slice(), 3, 0, &mark(&rt, 2, 3, fence));
    put(&rt, dies.as_mut_slice(), 1, 0, &data(2, 4, 0));
    let mut bench = opened(&rt, alloc, row(&rt), dies);
    expect_mended(&rt, &mut bench, 3, &[(0, 0x11), (2, 0)]);
    drop(bench);
}

/// The dies as a stop left them while two free blocks were still to be erased: in one is an older mark, in the other a
/// page whose address has a newer one. Of two groups behind the newest mark the first is missing.
fn dies_with_two_free_blocks(rt: &impl Abort, alloc: Global) -> Vec<MemDie> {
    let mut dies = marked_dies(rt, alloc);
    put(rt, dies.as_mut_slice(), 1, 0, &data(5, 1, 0x11));
    put(rt, dies.as_mut_slice(), 2, 0, &data(5, 2, 0x22));
    put(rt, dies.as_mut_slice(), 2, 1, &data(7, 4, 0x44));
    put(rt, dies.as_mut_slice(), 3, 0, &mark(rt, 2, 2, None));
    dies
}

/// The die is given this block to erase, and erases it.
fn erase(rt: &impl Abort, bench: &mut Workbench, die: u8) {
    let Some(job) = bench.device.take(die) else {
        panic!(rt; "an erase is owed");
    };
    assert!(rt; matches!(job, Job::Erase { die: at, block: 0 } if at == die));
    assert!(rt; !bench.device.turn());
    assert!(rt; bench.end(die, &job));
}

/// No turn orders a step before both of the free blocks are erased, and no other die has a job till then. The first
/// mark goes into one of them, without a second erase.
#[test]
fn free_blocks_are_erased_before_the_mending(rt: HostRuntime) {
    let alloc = rt.alloc();
    let dies = dies_with_two_free_blocks(&rt, alloc);
    let mut bench = opened(&rt, alloc, row(&rt), dies);
    assert!(rt; !bench.device.turn());
    assert!(rt; bench.device.take(2).is_none() && bench.device.take(3).is_none());
    erase(&rt, &mut bench, 0);
    erase(&rt, &mut bench, 1);
    assert!(rt; bench.device.turn());
    let Some(job) = bench.device.take(0) else {
        panic!(rt; "the mark is owed");
    };
    assert!(rt; matches!(&job, Job::Program(place, _) if place.block == 0 && place.page == 0));
    assert!(rt; bench.end(0, &job));
    expect_mended(&rt, &mut bench, 2, &[(5, 0x22), (7, 0)]);
    drop(bench);
}
