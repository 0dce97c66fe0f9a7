//! The dies as a stop leaves them, on copies.
ghost use Rattle.std.specs.Prelude.{◌≡◌, if◌then◌else◌};
ghost use Rattle.ufsim.specs.Checked.{given_by};

use crate::commands::Content;
use crate::fault::Word;
use crate::leftovers::leftover;
use device::World;
use nand_model::{Die, MemDie};
use std::alloc::Global;
use ufs_spec::{Job, Leftover, Page};

/// What a page or block may hold after a stop.
pub(crate) const CONTENTS: [Content; 3] = [Content::Old, Content::New, Content::Torn];

/// Equal dies.
pub(crate) fn copied_dies(alloc: Global, dies: &[MemDie]) -> Result<Vec<MemDie>, Word> {
    let mut all = Vec::with_capacity(alloc, dies.len())?;
    for die in dies {
        all.push(die.copy(alloc)?)?;
    }
    Ok(all)
}

/// How many blocks of the dies are bad.
pub(crate) fn bad_blocks(dies: &[MemDie]) -> usize {
    let mut count = 0usize;
    for die in dies {
        count = count.saturating_add(bad_blocks_of(die));
    }
    count
}

fn bad_blocks_of(die: &MemDie) -> usize {
    let mut count = 0usize;
    for block in 0..die.blocks() {
        if die.is_bad(block) {
            count = count.saturating_add(1);
        }
    }
    count
}

/// Whether the die has a program or an erase in flight.
pub(crate) fn is_at_work(world: &World, die: u8) -> bool {
    match world.job(die) {
        None | Some(Job::Read(_)) => false,
        Some(_) => true,
    }
}

/// Whether a die is given a program or an erase with this.
pub(crate) fn is_write(job: &Option<Job>) -> bool
    ensures { given_by job.now ≡ if result then 1 else 0 }
{
    !matches!(job, None | Some(Job::Read(_)))
}

/// Copies of the dies as a stop leaves them with this content in all that is programmed or erased.
pub(crate) fn stopped_dies(
    alloc: Global,
    world: &World,
    content: Content,
) -> Result<Vec<MemDie>, Word> {
    let mut dies = copied_dies(alloc, world.dies())?;
    for (index, die) in dies.iter_mut().enumerate() {
        if let Ok(number) = u8::try_from(index) {
            leave(alloc, world, number, content, die)?;
        }
        die.end_power_cycle();
    }
    Ok(dies)
}

/// Copies of the dies as a stop leaves them with these contents on two dies. The others keep what
/// they had.
pub(crate) fn pair_stopped(
    alloc: Global,
    world: &World,
    first: (u8, Content),
    second: (u8, Content),
) -> Result<Vec<MemDie>, Word> {
    let mut dies = copied_dies(alloc, world.dies())?;
    for (index, die) in dies.iter_mut().enumerate() {
        if index == first.0 as usize {
            leave(alloc, world, first.0, first.1, die)?;
        } else if index == second.0 as usize {
            leave(alloc, world, second.0, second.1, die)?;
        }
        die.end_power_cycle();
    }
    Ok(dies)
}

// What the job in flight of the die with this number leaves, on a copy of the die.
fn leave(
    alloc: Global,
    world: &World,
    number: u8,
    content: Content,
    die: &mut MemDie,
) -> Result<(), Word> {
    match leftover(alloc, world, number, content) {
        Ok(left) => write_left(die, &left),
        Err(Word::Memory) => return Err(Word::Memory),
        Err(_) => {}
    }
    Ok(())
}

// The pages that the leftover names are as it says.
fn write_left(die: &mut MemDie, left: &Leftover) {
    match left {
        Leftover::Page(place, page) => write_page(die, place.block, place.page, page),
        Leftover::Block { block, pages, .. } => write_block(die, *block, pages.as_slice()),
    }
}

fn write_block(die: &mut MemDie, block: u16, pages: &[Page]) {
    for (index, page) in pages.iter().enumerate() {
        if let Ok(at) = u16::try_from(index) {
            write_page(die, block, at, page);
        }
    }
}

fn write_page(die: &mut MemDie, block: u16, page: u16, left: &Page) {
    if block < die.blocks() && page < die.pages() {
        die.set_page(block, page, left);
    }
}
