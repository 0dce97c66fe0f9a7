//! Worlds that are refused, that end, that run to their end, and that open over a bad block.
use crate::dies::{row, row_dies};
use device::{World, run};
use nand_model::{Die, MemDie};
use std::alloc::Global;
use std::process::Abort;
use ufs_spec::{Event, Job, Output, RunFault, RunFaultKind};

/// A world over these dies of the row configuration.
fn new_world(rt: &impl Abort, alloc: Global, dies: Vec<MemDie>) -> World {
    let Ok(world) = World::new(alloc, row(rt), dies) else {
        panic!(rt; "the dies fit");
    };
    world
}

/// Whether the fault is a wrong event, at this position.
fn is_wrong(fault: &RunFault, position: usize) -> bool {
    matches!(fault.kind, RunFaultKind::WrongEvent) && fault.position == position
}

/// The event is a wrong one, at this position.
fn expect_wrong(rt: &impl Abort, world: &mut World, event: &Event, position: usize) {
    let Err(fault) = world.step(event) else {
        panic!(rt; "the event does not fit");
    };
    assert!(rt; is_wrong(&fault, position));
}

/// The world has a turn, which is the first of a mark.
fn expect_turn(rt: &impl Abort, world: &mut World) {
    assert!(rt; matches!(world.step(&Event::Turn), Ok(Output::Turn(true))));
}

/// A world over dies that do not fit is refused.
#[test]
fn a_world_over_no_dies_is_refused(rt: HostRuntime) {
    let alloc = rt.alloc();
    match World::new(alloc, row(&rt), Vec::new(alloc)) {
        Ok(world) => {
            drop(world);
            panic!(rt; "no dies are too few")
        }
        Err(fault) => assert!(rt; is_wrong(&fault, 0)),
    }
}

/// A step that does not fit ends the world.
#[test]
fn a_step_that_does_not_fit_ends_its_world(rt: HostRuntime) {
    let alloc = rt.alloc();
    let mut world = new_world(&rt, alloc, row_dies(&rt, alloc));
    expect_turn(&rt, &mut world);
    expect_wrong(&rt, &mut world, &Event::Finish(0), 2);
    expect_wrong(&rt, &mut world, &Event::Turn, 3);
    assert!(rt; world.into_dies().len() == 4);
}

/// What comes of these events over new dies.
fn ran<const N: usize>(
    rt: &impl Abort,
    alloc: Global,
    events: [Event; N],
) -> Result<Vec<Output>, RunFault> {
    let events = Vec::from_array(alloc, events).expect(rt, "memory");
    run(alloc, row(rt), row_dies(rt, alloc), events.as_slice())
}

/// A run whose third event does not fit ends there, and shows the first two.
#[test]
fn a_run_ends_at_an_event_that_does_not_fit(rt: HostRuntime) {
    let events = [Event::Turn, Event::Take(0), Event::Finish(1)];
    let Err(fault) = ran(&rt, rt.alloc(), events) else {
        panic!(rt; "die 1 has no job");
    };
    assert!(rt; fault.trace.len() == 2 && is_wrong(&fault, 3));
}

/// Whether these are the outputs of the first mark of new dies, up to its last page.
fn are_first(trace: &[Output]) -> bool {
    matches!(
        trace,
        [
            Output::Turn(true),
            Output::Take(Some(Job::Erase { die: 0, block: 0 })),
            Output::Ended,
            Output::Turn(false),
            Output::Reply(None)
        ]
    )
}

/// A run to its end shows one output for each event: the first mark of new dies, up to its last page.
#[test]
fn a_run_shows_an_output_for_each_event(rt: HostRuntime) {
    let events = [
        Event::Turn,
        Event::Take(0),
        Event::Finish(0),
        Event::Turn,
        Event::Reply,
    ];
    let Ok(trace) = ran(&rt, rt.alloc(), events) else {
        panic!(rt; "each event fits");
    };
    assert!(rt; are_first(trace.as_slice()));
}

/// Whether the output is the erase of block 1 of die 0.
fn is_second_erase(output: &Output) -> bool {
    matches!(output, Output::Take(Some(Job::Erase { die: 0, block: 1 })))
}

/// A world opens over dies with a bad block, and leaves that block out.
#[test]
fn a_world_leaves_out_a_bad_block(rt: HostRuntime) {
    let alloc = rt.alloc();
    let mut dies = row_dies(&rt, alloc);
    assert!(rt; 0 < dies.len() && 0 < dies[0].blocks());
    dies[0].set_bad(0);
    let mut world = new_world(&rt, alloc, dies);
    expect_turn(&rt, &mut world);
    let Ok(taken) = world.step(&Event::Take(0)) else {
        panic!(rt; "the event fits");
    };
    assert!(rt; is_second_erase(&taken));
    drop(world);
}
