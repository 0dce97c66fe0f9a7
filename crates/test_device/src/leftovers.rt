//! Leftovers that a world refuses, and those that it takes.
use crate::dies::{row, row_dies};
use device::World;
use page_tag::seal;
use std::alloc::Global;
use std::process::Abort;
use ufs_spec::{Event, Leftover, Output, Page, Place, RunFaultKind, Tag};
use workbench::collected::torn;

/// A world over new dies, where die 0 erases its block 0.
fn erasing(rt: &impl Abort, alloc: Global) -> World {
    let Ok(mut world) = World::new(alloc, row(rt), row_dies(rt, alloc)) else {
        panic!(rt; "the dies fit");
    };
    assert!(rt; world.step(&Event::Turn).is_ok() && world.step(&Event::Take(0)).is_ok());
    world
}

/// A page whose check holds: a block of unit 0 with the number 1.
fn sealed() -> Page {
    let tag = Tag {
        kind: Tag::DATA,
        unit: 0,
        address: 0,
        number: 1,
        index: 0,
        size: 1,
        frontier: 0,
    };
    seal(&tag, &[0x11; 4096])
}

/// So many equal pages of a block of die 0.
fn block(rt: &impl Abort, alloc: Global, block: u16, page: Page, count: usize) -> Leftover {
    let mut pages = Vec::new(alloc);
    pages.resize(count, page).expect(rt, "memory");
    Leftover::Block {
        die: 0,
        block,
        pages,
    }
}

/// The first page of die 0.
fn first_page(page: Page) -> Leftover {
    let place = Place {
        die: 0,
        block: 0,
        page: 0,
    };
    Leftover::Page(place, page)
}

/// Why a step is refused.
#[derive(Clone, Copy)]
enum Refusal {
    Wrong,
    Bad,
}

/// Whether a fault is of this kind.
fn is_of(kind: RunFaultKind, wanted: Refusal) -> bool {
    match wanted {
        Refusal::Wrong => matches!(kind, RunFaultKind::WrongEvent),
        Refusal::Bad => matches!(kind, RunFaultKind::BadLeftover),
    }
}

/// Whether the step is refused so, as the event of its world with this number.
fn is_refused(world: &mut World, event: &Event, position: usize, wanted: Refusal) -> bool {
    match world.step(event) {
        Err(fault) => fault.position == position && is_of(fault.kind, wanted),
        Ok(_) => false,
    }
}

/// The event is refused so, and each later one is a wrong event.
fn expect_refused(rt: &impl Abort, alloc: Global, event: &Event, wanted: Refusal) {
    let mut world = erasing(rt, alloc);
    assert!(rt;
        is_refused(&mut world, event, 3, wanted)
            && is_refused(&mut world, &Event::Turn, 4, Refusal::Wrong)
    );
    drop(world);
}

/// A failure of die 0 that leaves this is refused so.
fn expect_failure_refused(rt: &impl Abort, alloc: Global, left: Leftover, wanted: Refusal) {
    expect_refused(rt, alloc, &Event::Fail(0, Some(left)), wanted);
}

/// Failures that do not fit: of a die without a job, without a leftover, with one of a page in place of
/// a block, of another block, and of too few pages. A leftover whose check holds, but which is neither the
/// old content nor an erased block, is bad.
#[test]
fn failures_that_are_refused(rt: HostRuntime) {
    let alloc = rt.alloc();
    let rt = &rt;
    for die in [1, 9, 0] {
        expect_refused(rt, alloc, &Event::Fail(die, None), Refusal::Wrong);
    }
    expect_failure_refused(rt, alloc, first_page(torn()), Refusal::Wrong);
    expect_failure_refused(rt, alloc, block(rt, alloc, 1, torn(), 64), Refusal::Wrong);
    expect_failure_refused(rt, alloc, block(rt, alloc, 0, torn(), 63), Refusal::Wrong);
    expect_failure_refused(rt, alloc, block(rt, alloc, 0, sealed(), 64), Refusal::Bad);
}

/// A stop that leaves this.
fn stop<const N: usize>(rt: &impl Abort, alloc: Global, lefts: [Leftover; N]) -> Event {
    Event::Stop(Vec::from_array(alloc, lefts).expect(rt, "memory"))
}

/// A stop that leaves one block so is refused so.
fn expect_stop_refused(rt: &impl Abort, alloc: Global, left: Leftover, wanted: Refusal) {
    expect_refused(rt, alloc, &stop(rt, alloc, [left]), wanted);
}

/// Stops that do not fit: two leftovers of one die, one of a die without a job, and one of another block; and
/// one with a bad leftover.
#[test]
fn stops_that_are_refused(rt: HostRuntime) {
    let alloc = rt.alloc();
    let rt = &rt;
    let twice = [
        block(rt, alloc, 0, torn(), 64),
        block(rt, alloc, 0, torn(), 64),
    ];
    expect_refused(rt, alloc, &stop(rt, alloc, twice), Refusal::Wrong);
    expect_stop_refused(rt, alloc, block(rt, alloc, 5, torn(), 64), Refusal::Wrong);
    expect_stop_refused(rt, alloc, block(rt, alloc, 0, sealed(), 64), Refusal::Bad);
}

/// A stop may leave the block of an erase torn: it is taken, and the device opens again.
#[test]
fn a_torn_block_is_taken(rt: HostRuntime) {
    let alloc = rt.alloc();
    let good = stop(&rt, alloc, [block(&rt, alloc, 0, torn(), 64)]);
    let mut world = erasing(&rt, alloc);
    assert!(rt; matches!(world.step(&good), Ok(Output::Stopped)));
    assert!(rt; matches!(world.step(&Event::Turn), Ok(Output::Turn(true))));
    drop(world);
}
