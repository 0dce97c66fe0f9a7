//! The calls that take their dies: a world, its stop, and a run.
use crate::dies::{Written, dies_of, hold};
use crate::events::{BEFORE_STOP, are_right, events, plays};
use crate::fault::{Fault, expect};
use device::{World, run};
use std::alloc::Global;
use ufs_spec::{Event, Output, RunFault, RunFaultKind};
use workbench::small_config;

/// Whether memory was refused at this position, and the trace is empty.
fn is_refused(fault: &RunFault, position: usize) -> bool {
    matches!(fault.kind, RunFaultKind::NoMemory)
        && fault.position == position
        && fault.trace.is_empty()
}

/// A world over new dies on which groups stand.
fn world_of_groups(alloc: Global) -> Result<Result<World, RunFault>, Fault> {
    let config = small_config()?;
    let dies = dies_of(alloc, &config, Written::Groups)?;
    Ok(World::new(alloc, config, dies))
}

/// A world, which takes the dies.
pub fn new_world(alloc: Global) -> Result<(), Fault> {
    let events = events(alloc)?;
    let before = events.as_slice().get(..BEFORE_STOP).unwrap_or(&[]);
    match world_of_groups(alloc)? {
        Ok(mut world) => expect(plays(&mut world, before, 0), "the world plays otherwise"),
        Err(fault) if is_refused(&fault, 0) => new_world_again(alloc, before),
        Err(_) => Err(Fault::Wrong("another fault is told")),
    }
}

/// The same, after memory was refused.
fn new_world_again(alloc: Global, before: &[Event]) -> Result<(), Fault> {
    match world_of_groups(alloc)? {
        Ok(mut world) => expect(plays(&mut world, before, 0), "the world plays otherwise"),
        Err(_) => Err(Fault::Wrong("the second call is refused")),
    }
}

/// A step of a world: the stop, which opens the device again. Where memory is refused to it the
/// world is over, and its dies hold what the stop left.
pub fn stop_world(alloc: Global) -> Result<(), Fault> {
    let events = events(alloc)?;
    match world_of_groups(alloc)? {
        Ok(world) => stop_at(alloc, world, events.as_slice()),
        Err(_) => Err(Fault::Before),
    }
}

/// What became of a stop.
#[derive(Clone, Copy, PartialEq, Eq)]
enum Stop {
    Done,
    Refused,
    Wrong,
}

/// Plays the events up to the stop, the first of the rest.
fn play_stop(world: &mut World, before: &[Event], rest: &[Event]) -> Stop {
    let Some(stop) = rest.first() else {
        return Stop::Wrong;
    };
    if !plays(world, before, 0) {
        return Stop::Wrong;
    }
    match world.step(stop) {
        Ok(Output::Stopped) => Stop::Done,
        Err(fault) if is_refused(&fault, BEFORE_STOP + 1) && is_over(world) => Stop::Refused,
        _ => Stop::Wrong,
    }
}

/// Plays all events: whether memory was refused to the stop.
fn stop_at(alloc: Global, mut world: World, events: &[Event]) -> Result<(), Fault> {
    let (Some(before), Some(rest), Some(behind)) = (
        events.get(..BEFORE_STOP),
        events.get(BEFORE_STOP..),
        events.get(BEFORE_STOP + 1..),
    ) else {
        return Err(Fault::Wrong("there is no stop"));
    };
    match play_stop(&mut world, before, rest) {
        Stop::Done => {
            let is_right = plays(&mut world, behind, BEFORE_STOP + 1);
            expect(is_right, "the world plays otherwise after the stop")
        }
        Stop::Refused => open_again(alloc, world, behind),
        Stop::Wrong => Err(Fault::Wrong("the stop is told otherwise")),
    }
}

/// A new world over the dies of one that is over, which hold what the stop left, plays on.
fn open_again(alloc: Global, world: World, behind: &[Event]) -> Result<(), Fault> {
    let config = small_config()?;
    let dies = world.into_dies();
    if !hold(dies.as_slice(), &config, Written::Stopped) {
        return Err(Fault::Wrong("a page of a die is another"));
    }
    match World::new(alloc, config, dies) {
        Ok(mut world) => {
            let is_right = plays(&mut world, behind, BEFORE_STOP + 1);
            expect(is_right, "the world plays otherwise after the stop")
        }
        Err(_) => Err(Fault::Wrong("the second call is refused")),
    }
}

/// Whether the next steps are wrong events.
fn is_over(world: &mut World) -> bool {
    is_wrong(world, &Event::Turn) && is_wrong(world, &Event::Reply)
}

/// Whether this step is a wrong event.
fn is_wrong(world: &mut World, event: &Event) -> bool {
    match world.step(event) {
        Err(fault) => matches!(fault.kind, RunFaultKind::WrongEvent),
        Ok(_) => false,
    }
}

/// What a run of the events shows over new dies on which groups stand.
fn run_over_groups(
    alloc: Global,
    events: &[Event],
) -> Result<Result<Vec<Output>, RunFault>, Fault> {
    let config = small_config()?;
    let dies = dies_of(alloc, &config, Written::Groups)?;
    Ok(run(alloc, config, dies, events))
}

/// A run, which takes the dies. The position counts events from 1, and is 0 at the opening.
pub fn run_events(alloc: Global) -> Result<(), Fault> {
    let events = events(alloc)?;
    let count = events.len();
    match run_over_groups(alloc, events.as_slice())? {
        Ok(trace) => expect(are_right(trace.as_slice(), count), "the trace is another"),
        Err(fault) if is_cut(&fault) => run_again(alloc, events.as_slice()),
        Err(_) => Err(Fault::Wrong("another fault is told")),
    }
}

/// Whether memory was refused, and the trace has what was shown before.
fn is_cut(fault: &RunFault) -> bool {
    matches!(fault.kind, RunFaultKind::NoMemory)
        && are_right(fault.trace.as_slice(), fault.position.saturating_sub(1))
}

/// The same, after memory was refused.
fn run_again(alloc: Global, events: &[Event]) -> Result<(), Fault> {
    match run_over_groups(alloc, events)? {
        Ok(trace) => expect(
            are_right(trace.as_slice(), events.len()),
            "the trace is another",
        ),
        Err(_) => Err(Fault::Wrong("the second call is refused")),
    }
}
