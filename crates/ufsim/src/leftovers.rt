//! What the jobs in flight leave when a script stops the device or lets a job fail.
use crate::commands::Content;
use crate::fault::Word;
use device::World;
use nand_model::{Die, MemDie};
use std::alloc::Global;
use ufs_spec::{Job, Leftover, Page, Place};

/// A page with zeros in all its bytes: its check does not hold.
const TORN: Page = Page {
    body: [0; 4096],
    spare: [0; 96],
};

/// A page as an erase leaves it.
const BLANK: Page = Page {
    body: [0xFF; 4096],
    spare: [0xFF; 96],
};

/// What the job in flight of the die leaves, with this content in its page or in all pages of its
/// block. It is `Event` where the die has no program and no erase in flight.
pub(crate) fn leftover(
    alloc: Global,
    world: &World,
    die: u8,
    content: Content,
) -> Result<Leftover, Word> {
    match world.job(die) {
        Some(Job::Program(place, page)) => {
            let left = page_left(world.dies(), *place, page, content);
            Ok(Leftover::Page(*place, left))
        }
        Some(Job::Erase { block, .. }) => {
            let pages = block_left(alloc, world.dies(), die, *block, content)?;
            Ok(Leftover::Block {
                die,
                block: *block,
                pages,
            })
        }
        _ => Err(Word::Event),
    }
}

// The page that a job leaves which was to write `new` there.
fn page_left(dies: &[MemDie], place: Place, new: &Page, content: Content) -> Page {
    match content {
        Content::Old => page_at(dies, place),
        Content::New => *new,
        Content::Torn => TORN,
    }
}

// The pages that an erase of the block leaves.
fn block_left(
    alloc: Global,
    dies: &[MemDie],
    die: u8,
    block: u16,
    content: Content,
) -> Result<Vec<Page>, Word> {
    let count = match dies.get(die as usize) {
        Some(die) => die.pages(),
        None => 0,
    };
    let mut pages = Vec::with_capacity(alloc, count as usize)?;
    for page in 0..count {
        let left = page_left(dies, Place { die, block, page }, &BLANK, content);
        pages.push(left)?;
    }
    Ok(pages)
}

// What the dies hold there; a blank page where they have no such place.
fn page_at(dies: &[MemDie], place: Place) -> Page {
    match dies.get(place.die as usize) {
        Some(die) if place.block < die.blocks() && place.page < die.pages() => {
            *die.page_at(place.block, place.page)
        }
        _ => BLANK,
    }
}
