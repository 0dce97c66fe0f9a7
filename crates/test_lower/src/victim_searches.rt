//! The victim of 8 dies of 1,024 blocks, as a plain search finds it, while pages, pins and blocks
//! change, and that of a device of other sizes than its table of blocks.
use block_table::{BlockAt, BlockState, BlockTable, LivePages, OpenBlock, Sizes};
use std::alloc::Global;
use std::test::Fail;
use ufs_spec::Place;

const SIZES: Sizes = Sizes {
    dies: 8,
    blocks: 1024,
    pages: 16,
};

/// The next number of a fixed row.
pub(crate) fn next(number: u64) -> u64 {
    number
        .wrapping_mul(6_364_136_223_846_793_005)
        .wrapping_add(1_442_695_040_888_963_407)
}

/// Blocks that are closed, all of them.
fn closed_blocks(alloc: Global) -> Result<BlockTable, Fail> {
    let states = vec![in alloc; BlockState::Closed; 8 * 1024]?;
    Ok(BlockTable::new(alloc, SIZES, states)?)
}

/// The first pages of the block are live from now on, so many.
fn fill_block(live: &mut LivePages, die: u8, block: u16, pages: u16) {
    for page in 0..pages {
        live.set_live(Place { die, block, page });
    }
}

/// The blocks of the die have from 0 to 16 live pages from now on, in turn.
fn fill_die(live: &mut LivePages, die: u8) {
    for block in 0..1024u16 {
        fill_block(live, die, block, (u16::from(die) * 5 + block * 3) % 17);
    }
}

/// Live pages, from 0 to 16 of each block.
fn filled_blocks(alloc: Global) -> Result<LivePages, Fail> {
    let mut live = LivePages::new(alloc, SIZES)?;
    for die in 0..8u8 {
        fill_die(&mut live, die);
    }
    Ok(live)
}

/// The page of the number.
fn place_of(number: u64) -> Place {
    Place {
        die: ((number >> 32) % 8) as u8,
        block: ((number >> 36) % 1024) as u16,
        page: ((number >> 48) % 16) as u16,
    }
}

/// The change of the number: of a page, of a pin, or of what a block is.
fn change(live: &mut LivePages, blocks: &mut BlockTable, number: u64) {
    let place = place_of(number);
    let last = OpenBlock {
        block: place.block,
        next: 15,
    };
    match number >> 61 {
        0 => live.set_live(place),
        1 => live.set_live(place),
        2 => live.set_dead(place),
        3 => live.pin(place.die, place.block),
        4 => live.unpin(place.die, place.block),
        5 => blocks.page_written(place.die, Some(last)),
        6 => blocks.went_bad(place.die, place.block),
        _ => blocks.freed(place.die, place.block),
    }
}

/// Makes so many changes, from this number of the row on; the number that comes then.
fn change_all(live: &mut LivePages, blocks: &mut BlockTable, number: u64, changes: u32) -> u64 {
    let mut at = number;
    for _ in 0..changes {
        change(live, blocks, at);
        at = next(at);
    }
    at
}

/// A block that may be collected, and how many of its pages are live.
#[derive(Clone, Copy)]
struct Found {
    at: BlockAt,
    live: u16,
}

/// Whether the block has no pin, and is closed and not wholly live while free blocks are scarce, or
/// else bad with live pages.
fn may_be_collected(
    live: &LivePages,
    blocks: &BlockTable,
    scarce: bool,
    die: u8,
    block: u16,
) -> bool {
    let count = live.live_count(die, block);
    let gains = match blocks.state(die, block) {
        BlockState::Closed => scarce && count < 16,
        BlockState::Bad => !scarce && count > 0,
        _ => false,
    };
    gains && !live.is_pinned(die, block)
}

/// The one with the fewest live pages of a block that was found and those of a die.
fn fewest_of_die(
    live: &LivePages,
    blocks: &BlockTable,
    scarce: bool,
    found: Option<Found>,
    die: u8,
) -> Option<Found> {
    let mut best = found;
    for block in 0..1024u16 {
        let count = live.live_count(die, block);
        let fewer = match best {
            Some(other) => count < other.live,
            None => true,
        };
        if fewer && may_be_collected(live, blocks, scarce, die, block) {
            best = Some(Found {
                at: BlockAt { die, block },
                live: count,
            });
        }
    }
    best
}

/// The block with the fewest live pages of all that may be collected, the lowest of several.
fn plain_victim(live: &LivePages, blocks: &BlockTable, scarce: bool) -> Option<BlockAt> {
    let mut best = None;
    for die in 0..8u8 {
        best = fewest_of_die(live, blocks, scarce, best, die);
    }
    match best {
        Some(found) => Some(found.at),
        None => None,
    }
}

/// Whether a bad block without a pin holds live pages.
fn any_bad(live: &LivePages, blocks: &BlockTable) -> bool {
    let mut any = false;
    for die in 0..8u8 {
        any = any || any_bad_of_die(live, blocks, die);
    }
    any
}

/// Whether a bad block of the die without a pin holds live pages.
fn any_bad_of_die(live: &LivePages, blocks: &BlockTable, die: u8) -> bool {
    let mut any = false;
    for block in 0..1024u16 {
        any = any
            || blocks.state(die, block) == BlockState::Bad
                && live.live_count(die, block) > 0
                && !live.is_pinned(die, block);
    }
    any
}

/// The lowest block of the die that is so and has no pin.
fn plain_lowest(live: &LivePages, blocks: &BlockTable, die: u8, state: BlockState) -> Option<u16> {
    for block in 0..1024u16 {
        if blocks.state(die, block) == state && !live.is_pinned(die, block) {
            return Some(block);
        }
    }
    None
}

/// Whether the lowest blocks of a die that are stale, and that are closed, are those that a plain
/// search finds.
fn are_lowest(live: &LivePages, blocks: &BlockTable, die: u8) -> bool {
    let stale = live.lowest_unpinned(blocks, die, BlockState::Stale);
    let closed = live.lowest_unpinned(blocks, die, BlockState::Closed);
    stale == plain_lowest(live, blocks, die, BlockState::Stale)
        && closed == plain_lowest(live, blocks, die, BlockState::Closed)
}

/// The block has a pin more, if there is one, so that it is not found again.
fn pin_victim(live: &mut LivePages, victim: Option<BlockAt>) {
    if let Some(at) = victim {
        live.pin(at.die, at.block);
    }
}

/// After every 10 of 10,000 changes the victim is the one that a plain search finds, and so are the
/// lowest blocks of a die. The victim is pinned.
#[test]
fn a_plain_search_finds_the_same_victim(rt: HostRuntime) -> Result<(), Fail> {
    let mut blocks = closed_blocks(rt.alloc())?;
    let mut live = filled_blocks(rt.alloc())?;
    let mut number = 1;
    for _ in 0..1000u32 {
        number = change_all(&mut live, &mut blocks, number, 10);
        let victim = live.victim(&blocks, true);
        assert!(rt; victim == plain_victim(&live, &blocks, true));
        let bad = live.victim(&blocks, false);
        assert!(rt; bad == plain_victim(&live, &blocks, false));
        assert!(rt; live.has_bad_with_live(&blocks) == any_bad(&live, &blocks));
        assert!(rt; are_lowest(&live, &blocks, place_of(number).die));
        pin_victim(&mut live, victim);
    }
    Ok(())
}

/// A device may have other sizes than its table: each block is what the table says of its numbers.
#[test]
fn a_table_of_other_sizes_is_asked_by_die_and_block(rt: HostRuntime) -> Result<(), Fail> {
    let states = [
        BlockState::Free,
        BlockState::Closed,
        BlockState::Open,
        BlockState::Closed,
        BlockState::Ready,
        BlockState::Closed,
        BlockState::Bad,
        BlockState::Closed,
    ];
    let table = Sizes {
        dies: 2,
        blocks: 4,
        pages: 4,
    };
    let fewer = Sizes {
        dies: 2,
        blocks: 3,
        pages: 4,
    };
    let states = Vec::from_array(rt.alloc(), states)?;
    let blocks = BlockTable::new(rt.alloc(), table, states)?;
    let mut live = LivePages::new(rt.alloc(), fewer)?;
    assert!(rt; live.victim(&blocks, true) == Some(BlockAt { die: 0, block: 1 }));
    live.pin(0, 1);
    assert!(rt; live.victim(&blocks, true) == Some(BlockAt { die: 1, block: 1 }));
    live.pin(1, 1);
    assert!(rt; live.victim(&blocks, true).is_none());
    assert!(rt; live.victim(&blocks, false).is_none());
    live.set_live(Place {
        die: 1,
        block: 2,
        page: 3,
    });
    assert!(rt; live.has_bad_with_live(&blocks));
    assert!(rt; live.victim(&blocks, true).is_none());
    assert!(rt; live.victim(&blocks, false) == Some(BlockAt { die: 1, block: 2 }));
    assert!(rt; live.lowest_unpinned(&blocks, 1, BlockState::Bad) == Some(2));
    assert!(rt;
        live.lowest_unpinned(&blocks, 1, BlockState::Closed)
            .is_none()
    );
    Ok(())
}
