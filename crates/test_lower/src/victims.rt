//! Victims and plans of two dies of four blocks of four pages, by the rule: of the blocks without a
//! pin that are closed and not wholly live, or bad with live pages, the one with the fewest live
//! pages, and of several the lowest.
use block_table::{BlockAt, BlockState, BlockTable, LivePages, Sizes};
use collector::{Plan, PlanStep, PlannedCopy};
use geometry::Config;
use row_messages::row_config;
use std::alloc::Global;
use std::test::Fail;
use ufs_spec::{Key, Name, Place, Tag, UnitSpec};
use unit_map::{Stored, UnitMap};
use write_cache::Cache;

const SIZES: Sizes = Sizes {
    dies: 2,
    blocks: 4,
    pages: 4,
};

/// Blocks that are so, in order by die and block.
fn blocks(alloc: Global) -> Result<BlockTable, Fail> {
    let states = [
        BlockState::Free,
        BlockState::Closed,
        BlockState::Closed,
        BlockState::Closed,
        BlockState::Closed,
        BlockState::Bad,
        BlockState::Closed,
        BlockState::Open,
    ];
    Ok(BlockTable::new(alloc, SIZES, Vec::from_array(alloc, states)?)?)
}

/// The last pages of each block are live, so many of each.
fn lives(alloc: Global, counts: [u16; 8]) -> Result<LivePages, Fail> {
    let mut live = LivePages::new(alloc, SIZES)?;
    for die in 0..2u8 {
        for block in 0..4u16 {
            let count = counts[die as usize * 4 + block as usize];
            for page in 0..4u16 {
                if page >= 4u16.saturating_sub(count) {
                    live.set_live(Place { die, block, page });
                }
            }
        }
    }
    Ok(live)
}

/// The map of a device with one unit, whose third block has its content there.
fn third_block_at(alloc: Global, place: Place, number: u64) -> Result<UnitMap, Fail> {
    let units = [UnitSpec {
        blocks: 4,
        boot: 0,
        protect: 0,
    }];
    let config = Config::new(2, 32, 64, &units, [1, 0, 0, 0], 64, 4)?;
    let name = Name { number, index: 0 };
    let places = [None, None, Some(Stored { name, place })];
    Ok(UnitMap::new(alloc, config, Vec::from_array(alloc, places)?)?)
}

/// A cache with one pending group, whose number is 8: its only page is of this key, and is written
/// there.
fn pending_at(alloc: Global, place: Place, key: Key) -> Result<Cache, Fail> {
    let mut cache = Cache::new(alloc, row_config()?, 2, 7)?;
    if cache.reserve(0, 1) && cache.has_number() {
        let number = cache.append(0, key);
        cache.mark_written(number, 0, place);
    }
    Ok(cache)
}

/// A block of the first unit.
fn block_key(address: u32) -> Key {
    Key {
        kind: Tag::DATA,
        unit: 0,
        address,
    }
}

/// Whether the victim is this block while free blocks are scarce.
fn is_victim(live: &LivePages, blocks: &BlockTable, die: u8, block: u16) -> bool {
    live.victim(blocks, true) == Some(BlockAt { die, block })
}

/// Whether the victim is this block while enough blocks are free.
fn is_bad_victim(live: &LivePages, blocks: &BlockTable, die: u8, block: u16) -> bool {
    live.victim(blocks, false) == Some(BlockAt { die, block })
}

/// Whether no block is a victim, be free blocks scarce or not.
fn has_no_victim(live: &LivePages, blocks: &BlockTable) -> bool {
    live.victim(blocks, true).is_none() && live.victim(blocks, false).is_none()
}

/// Blocks with equally few live pages are taken from the lowest on, unless they are pinned. An open
/// and a free block and those that are wholly live are left, and so is a bad one while free blocks
/// are scarce. While enough are free the bad one is taken.
#[test]
fn the_block_with_the_fewest_live_pages_is_the_victim(rt: HostRuntime) -> Result<(), Fail> {
    let blocks = blocks(rt.alloc())?;
    let mut live = lives(rt.alloc(), [0, 3, 2, 4, 2, 3, 4, 0])?;
    assert!(rt; live.live_count(0, 2) == 2);
    assert!(rt; is_victim(&live, &blocks, 0, 2));
    assert!(rt; is_bad_victim(&live, &blocks, 1, 1));
    live.pin(0, 2);
    live.pin(0, 2);
    live.unpin(0, 2);
    assert!(rt; live.is_pinned(0, 2));
    assert!(rt; is_victim(&live, &blocks, 1, 0));
    live.pin(1, 0);
    assert!(rt; is_victim(&live, &blocks, 0, 1));
    live.pin(0, 1);
    assert!(rt; live.victim(&blocks, true).is_none());
    assert!(rt; is_bad_victim(&live, &blocks, 1, 1));
    assert!(rt; live.has_bad_with_live(&blocks));
    live.pin(1, 1);
    assert!(rt; has_no_victim(&live, &blocks));
    assert!(rt; !live.has_bad_with_live(&blocks));
    live.unpin(0, 2);
    assert!(rt; is_victim(&live, &blocks, 0, 2));
    Ok(())
}

/// A closed block without a live page is taken, a bad one without is not. A page is counted once,
/// and what is not there changes nothing.
#[test]
fn a_page_is_counted_live_once(rt: HostRuntime) -> Result<(), Fail> {
    let blocks = blocks(rt.alloc())?;
    let mut live = lives(rt.alloc(), [0, 4, 4, 4, 4, 0, 4, 0])?;
    assert!(rt; has_no_victim(&live, &blocks));
    let place = Place {
        die: 1,
        block: 1,
        page: 2,
    };
    live.set_live(place);
    live.set_live(place);
    assert!(rt; live.is_live(place));
    assert!(rt; live.live_count(1, 1) == 1);
    assert!(rt; live.next_live(1, 1, 0) == Some(place));
    assert!(rt; live.next_live(1, 1, 3).is_none());
    assert!(rt; is_bad_victim(&live, &blocks, 1, 1));
    live.set_dead(place);
    live.set_dead(place);
    assert!(rt; live.live_count(1, 1) == 0);
    assert!(rt; has_no_victim(&live, &blocks));
    for page in 0..5u16 {
        live.set_dead(Place {
            die: 0,
            block: 3,
            page,
        });
    }
    assert!(rt; live.live_count(1, 0) == 4);
    assert!(rt; is_victim(&live, &blocks, 0, 3));
    live.pin(0, 4);
    assert!(rt; !live.is_pinned(1, 0));
    assert!(rt; live.live_count(2, 0) == 0);
    Ok(())
}

/// Whether the next step of the plan is this copy.
fn is_copy(plan: &Plan, wanted: PlannedCopy) -> bool {
    match plan.next_step() {
        Some(PlanStep::Copy(copy)) => copy == wanted,
        _ => false,
    }
}

/// The pages that were live when the collection began are copied in order, each under the key and
/// the number of its content, whether that is durable or of a pending group. Then comes the mark,
/// and the block is free. A bad block is not.
#[test]
fn a_plan_copies_live_pages_and_then_marks(rt: HostRuntime) -> Result<(), Fail> {
    let mut blocks = blocks(rt.alloc())?;
    let mut live = lives(rt.alloc(), [0, 4, 4, 2, 4, 3, 4, 0])?;
    let first = Place {
        die: 0,
        block: 3,
        page: 2,
    };
    let second = Place {
        die: 0,
        block: 3,
        page: 3,
    };
    let map = third_block_at(rt.alloc(), first, 5)?;
    let cache = pending_at(rt.alloc(), second, block_key(1))?;
    let mut plan = Plan::new(rt.alloc(), 4)?;
    assert!(rt; plan.next_step().is_none());
    assert!(rt; plan.plan(&live, &blocks, true, &map, &cache));
    assert!(rt; plan.victim() == Some(BlockAt { die: 0, block: 3 }));
    live.set_dead(second);
    let durable = PlannedCopy {
        from: first,
        key: block_key(2),
        number: 5,
    };
    assert!(rt; is_copy(&plan, durable));
    plan.copy_ordered();
    let pending = PlannedCopy {
        from: second,
        key: block_key(1),
        number: 8,
    };
    assert!(rt; is_copy(&plan, pending));
    plan.copy_ordered();
    assert!(rt; matches!(plan.next_step(), Some(PlanStep::Mark)));
    plan.end();
    assert!(rt; plan.next_step().is_none());
    blocks.freed(0, 3);
    blocks.freed(1, 1);
    assert!(rt; blocks.free_blocks() == 2);
    assert!(rt; blocks.bad_blocks() == 1);
    live.pin(1, 1);
    assert!(rt; !plan.plan(&live, &blocks, true, &map, &cache));
    assert!(rt; !plan.plan(&live, &blocks, false, &map, &cache));
    assert!(rt; plan.victim().is_none());
    Ok(())
}

/// A page has the name of the content that stands there, and a free page has none.
#[test]
fn a_page_has_the_name_of_its_content(rt: HostRuntime) -> Result<(), Fail> {
    let place = Place {
        die: 1,
        block: 7,
        page: 9,
    };
    let free = Place {
        die: 1,
        block: 7,
        page: 10,
    };
    let map = third_block_at(rt.alloc(), place, 5)?;
    let cache = pending_at(rt.alloc(), place, block_key(1))?;
    let named = map.name_there(place).unwrap_or_default();
    assert!(rt; named.key.address == 2);
    assert!(rt; named.name.number == 5);
    assert!(rt; map.name_there(free).is_none());
    assert!(rt; cache.page_there(place).is_some());
    assert!(rt; cache.page_there(free).is_none());
    Ok(())
}
