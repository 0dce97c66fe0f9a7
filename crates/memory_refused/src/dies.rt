//! Small dies, and what is written on them.
ghost use Rattle.std.specs.Prelude.{◌≡◌, ◌<◌, ◌≤◌, ◌^◌, IfOk, replicate};
ghost use Rattle.ufs_spec.specs.Dies.{new_die};

use crate::fault::Fault;
use geometry::Config;
use nand_model::{Die, MemDie};
use page_tag::{mark_body, seal};
use std::alloc::Global;
use ufs_spec::{Job, NoMemory, Page, Place, Tag};
use workbench::collected::blank;

/// How many blocks a die has, and how many pages a block: these of the small configuration.
pub const BLOCKS: u16 = 20;

pub const PAGES: u16 = 16;

/// New dies of these sizes.
pub fn new_dies(alloc: Global) -> Result<Vec<MemDie>, NoMemory>
    ensures { IfOk result (λ v. v.items ≡ replicate 2 (new_die 20 16)) }
{
    let mut dies = Vec::with_capacity(alloc, 2)?;
    dies.push_reserved(MemDie::new(alloc, BLOCKS, PAGES)?);
    dies.push_reserved(MemDie::new(alloc, BLOCKS, PAGES)?);
    Ok(dies)
}

/// The page of a group of one page: equal bytes at an address of the unit.
fn data(address: u8, number: u8, frontier: u8, byte: u8) -> Page
    requires { 1 ≤ number }
{
    let tag = Tag {
        kind: Tag::DATA,
        unit: 0,
        address: u32::from(address),
        number: u64::from(number),
        index: 0,
        size: 1,
        frontier: u64::from(frontier),
    };
    seal(&tag, &[byte; 4096])
}

/// A mark without a fence.
fn mark(config: &Config) -> Page {
    let tag = Tag {
        kind: Tag::MARK,
        unit: 0,
        address: 0,
        number: 1,
        index: 0,
        size: 1,
        frontier: 0,
    };
    seal(&tag, &mark_body(config.numbers(), None))
}

/// What stands on the dies.
#[derive(Clone, Copy, PartialEq, Eq)]
pub enum Written {
    /// Nothing.
    New,
    /// A mark, and the groups 1 to 7, of which group N + 1 has the block of address N.
    Groups,
    /// The same, and behind a gap group 9, with the block of address 8.
    Gap,
    /// The groups, and the page of a write that a stop left whole.
    Stopped,
}

/// Where the write's page goes: the die that is asked has one closed block, and opens the next.
pub const WRITTEN: Place = Place {
    die: 0,
    block: 1,
    page: 0,
};

/// The page itself: group 8, and the frontier when it is handed out is 7.
pub fn written_page() -> Page {
    data(3, 8, 7, 0x44)
}

/// What stands there on such dies.
fn page_there(config: &Config, written: Written, place: Place) -> Page {
    let is_new = written == Written::New;
    match (place.die, place.block, place.page) {
        (0, 0, 0) if !is_new => mark(config),
        (1, 0, 0..=6) if !is_new => {
            let address = (place.page % 7) as u8;
            data(address, address + 1, 0, 0x5A)
        }
        (1, 1, 0) if written == Written::Gap => data(8, 9, 0, 0x77),
        (0, 1, 0) if written == Written::Stopped => written_page(),
        _ => blank(),
    }
}

/// Sets the page there, if there is one.
fn put(dies: &mut [MemDie], config: &Config, written: Written, place: Place) {
    let die = usize::from(place.die);
    if die < dies.len() && dies[die].can_do(&Job::Read(place)) {
        let page = page_there(config, written, place);
        dies[die].set_page(place.block, place.page, &page);
    }
}

/// Writes the first two blocks of each die so.
fn write(dies: &mut [MemDie], config: &Config, written: Written) {
    for die in 0..2u8 {
        for block in 0..2u16 {
            for page in 0..PAGES {
                put(dies, config, written, Place { die, block, page });
            }
        }
    }
}

/// Two dies on which this stands.
pub fn dies_of(alloc: Global, config: &Config, written: Written) -> Result<Vec<MemDie>, Fault> {
    let mut dies = new_dies(alloc)?;
    write(dies.as_mut_slice(), config, written);
    Ok(dies)
}

/// Whether there are two dies, and this stands on them, and no block is bad.
pub fn hold(dies: &[MemDie], config: &Config, written: Written) -> bool {
    dies.len() == 2 && holds(&dies[0], 0, config, written) && holds(&dies[1], 1, config, written)
}

/// Whether this stands on the die with this number, and no block is bad.
pub fn holds(die: &MemDie, number: u8, config: &Config, written: Written) -> bool {
    if die.blocks() != BLOCKS || die.pages() != PAGES {
        return false;
    }
    for block in 0..BLOCKS {
        for page in 0..PAGES {
            let place = Place {
                die: number,
                block,
                page,
            };
            let is_there = block < die.blocks() && page < die.pages();
            if !is_there || *die.page_at(block, page) != page_there(config, written, place) {
                return false;
            }
        }
        if die.is_bad(block) {
            return false;
        }
    }
    true
}
