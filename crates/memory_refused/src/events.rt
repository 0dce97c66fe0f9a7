//! Events over the written dies, and what each has to show: a FUA write of a block, a stop inside
//! its program that leaves the whole page, and a read of the block.
use crate::dies::{WRITTEN, written_page};
use crate::fault::Fault;
use device::World;
use std::alloc::Global;
use ufs_spec::{Event, Job, Leftover, Output};
use workbench::messages::{FUA, READ, WRITE, block_out, command, good, is_block};

/// How many events come before the stop.
pub const BEFORE_STOP: usize = 6;

/// The events: a FUA write of a block at address 3 under task tag 7, and a READ of it under 8.
pub fn events(alloc: Global) -> Result<Vec<Event>, Fault> {
    let write = Vec::from_slice(alloc, &command(7, WRITE, FUA, 3, 1))?;
    let block = Vec::from_slice(alloc, &block_out(7, 0, 0x44))?;
    let read = Vec::from_slice(alloc, &command(8, READ, 0, 3, 1))?;
    let lefts = Vec::from_array(alloc, [Leftover::Page(WRITTEN, written_page())])?;
    let all = [
        Event::Host(write),
        Event::Reply,
        Event::Host(block),
        Event::Take(0),
        Event::Finish(0),
        Event::Take(0),
        Event::Stop(lefts),
        Event::Host(read),
        Event::Take(0),
        Event::Finish(0),
        Event::Reply,
        Event::Reply,
    ];
    Ok(Vec::from_array(alloc, all)?)
}

/// Whether the event at this position, counted from 0, has to show this.
fn is_right(position: usize, output: &Output) -> bool {
    match (position, output) {
        (0 | 2 | 7, Output::Host(Ok(()))) => true,
        (1, Output::Reply(Some(reply))) => reply.first().copied() == Some(0x31),
        (3, Output::Take(Some(Job::Erase { die, block }))) => *die == 0 && *block == 1,
        (5, Output::Take(Some(Job::Program(place, page)))) => {
            *place == WRITTEN && *page == written_page()
        }
        (8, Output::Take(Some(Job::Read(place)))) => *place == WRITTEN,
        (4 | 9, Output::Ended) => true,
        (6, Output::Stopped) => true,
        (10, Output::Reply(Some(reply))) => is_block(reply.as_slice(), 8, 0, 0x44),
        (11, Output::Reply(Some(reply))) => reply.as_slice() == good(8).as_slice(),
        _ => false,
    }
}

/// Whether the outputs are what the first so many events have to show.
pub fn are_right(outputs: &[Output], count: usize) -> bool {
    if outputs.len() != count {
        return false;
    }
    for (position, output) in outputs.iter().enumerate() {
        if !is_right(position, output) {
            return false;
        }
    }
    true
}

/// Whether the world shows what these events have to show, of which the first is at this position.
pub fn plays(world: &mut World, events: &[Event], first: usize) -> bool {
    for (index, event) in events.iter().enumerate() {
        let position = first.saturating_add(index);
        let Ok(output) = world.step(event) else {
            return false;
        };
        if !is_right(position, &output) {
            return false;
        }
    }
    true
}
