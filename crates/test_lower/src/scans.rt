//! What `recovery::scan` tells of dies whose pages were set by hand.
//!
//! The key of address A of unit 0 has the index A, since unit 0 stands first. The device has 417
//! keys: 256, 64 and 64 blocks, 32 pages of the RPMB area, and the settings.
ghost use Rattle.std.specs.Prelude.{◌<◌, ◌≤◌, ◌^◌};

use crate::faulty_die::FaultyDie;
use geometry::Config;
use nand_model::{Die, MemDie};
use page_tag::{mark_body, seal};
use recovery::{Found, FoundBlock, fit, scan};
use row_messages::row_config;
use std::alloc::Global;
use std::process::Abort;
use std::test::Fail;
use ufs_spec::{Block, Fence, Job, OpenFault, Page, Place, Tag, UnitSpec};

/// New dies hold nothing. A block that is bad is told bad, and no other is.
#[test]
fn new_dies_hold_nothing(rt: HostRuntime) -> Result<(), Fail> {
    let mut dies = row_dies(rt.alloc())?;
    assert!(rt; 2 < dies.len() && 5 < dies[2].blocks());
    dies[2].set_bad(5);
    let found = scanned(&rt, rt.alloc(), &row_config()?, dies.as_mut_slice())?;
    assert!(rt; found.newest.is_none());
    assert!(rt; has_numbers(&found, (0, 0, 1)));
    assert!(rt; found.contents.len() == 417);
    assert!(rt; has_no_content(&found));
    assert!(rt; found.lost.is_empty());
    assert!(rt; is_block(&found, 2, 5, FoundBlock::Bad));
    assert!(rt; count_of(&found, FoundBlock::Free) == 63);
    Ok(())
}

/// Of groups 1, 2 and 3 the second is torn, so that the kept number stops at 1, and the page of
/// group 3 is lost. The block of the torn page has nothing else, so it is free, and no page of it
/// opens.
#[test]
fn a_gap_loses_the_group_behind_it(rt: HostRuntime) -> Result<(), Fail> {
    let config = row_config()?;
    let mut dies = row_dies(rt.alloc())?;
    let mut torn = data(1, 2, (0, 1));
    torn.body[9] = 77;
    put(
        &rt,
        dies.as_mut_slice(),
        at(0, 0, 0),
        &mark(&config, (1, 0), None),
    );
    put(&rt, dies.as_mut_slice(), at(0, 1, 0), &data(0, 1, (0, 1)));
    put(&rt, dies.as_mut_slice(), at(1, 0, 0), &torn);
    put(&rt, dies.as_mut_slice(), at(2, 0, 0), &data(2, 3, (0, 1)));
    let found = scanned(&rt, rt.alloc(), &config, dies.as_mut_slice())?;
    assert!(rt; is_newest(&found, 1));
    assert!(rt; has_numbers(&found, (1, 3, 2)));
    assert!(rt; lies_at(&found, 0, at(0, 1, 0)));
    assert!(rt; lies_nowhere(&found, 1) && lies_nowhere(&found, 2));
    assert!(rt; is_only_lost(&found, 2));
    assert!(rt; is_block(&found, 0, 0, FoundBlock::Closed));
    assert!(rt; is_block(&found, 0, 1, FoundBlock::Closed));
    assert!(rt; is_block(&found, 1, 0, FoundBlock::Free));
    assert!(rt; is_block(&found, 2, 0, FoundBlock::Closed));
    assert!(rt; count_of(&found, FoundBlock::Free) == 61);
    Ok(())
}

/// The newest mark has the number 2, records 5 and fences 4 and 5. The older mark stands behind it.
/// Address 5 has a page of group 1 in two blocks: the lower block is free, and the page in the other
/// one is told. Address 6 has pages of groups 3 and 2, and the newer one is told, though it was read
/// first. The page of group 4 lies in the fence, so it is lost. The blocks of the older mark and of
/// the lost page are free too. A page of each of these three opens, so they are stale.
#[test]
fn the_newest_mark_and_pages_are_told(rt: HostRuntime) -> Result<(), Fail> {
    let config = row_config()?;
    let mut dies = row_dies(rt.alloc())?;
    let newest = Some(Fence { first: 4, last: 5 });
    let older = Some(Fence { first: 1, last: 3 });
    put(
        &rt,
        dies.as_mut_slice(),
        at(0, 0, 0),
        &mark(&config, (2, 5), newest),
    );
    put(
        &rt,
        dies.as_mut_slice(),
        at(3, 0, 0),
        &mark(&config, (1, 3), older),
    );
    put(&rt, dies.as_mut_slice(), at(0, 3, 0), &data(5, 1, (0, 1)));
    put(&rt, dies.as_mut_slice(), at(1, 1, 0), &data(5, 1, (0, 1)));
    put(&rt, dies.as_mut_slice(), at(1, 2, 0), &data(6, 3, (0, 1)));
    put(&rt, dies.as_mut_slice(), at(1, 2, 1), &data(6, 2, (0, 1)));
    put(&rt, dies.as_mut_slice(), at(2, 0, 0), &data(7, 4, (0, 1)));
    let found = scanned(&rt, rt.alloc(), &config, dies.as_mut_slice())?;
    assert!(rt; is_newest(&found, 2));
    assert!(rt; has_numbers(&found, (5, 5, 4)));
    assert!(rt; lies_at(&found, 5, at(1, 1, 0)));
    assert!(rt; lies_at(&found, 6, at(1, 2, 0)));
    assert!(rt; lies_nowhere(&found, 7));
    assert!(rt; is_only_lost(&found, 7));
    assert!(rt; is_block(&found, 0, 0, FoundBlock::Closed));
    assert!(rt; is_block(&found, 0, 3, FoundBlock::Stale));
    assert!(rt; is_block(&found, 1, 1, FoundBlock::Closed));
    assert!(rt; is_block(&found, 1, 2, FoundBlock::Closed));
    assert!(rt; is_block(&found, 2, 0, FoundBlock::Stale));
    assert!(rt; is_block(&found, 3, 0, FoundBlock::Stale));
    assert!(rt; count_of(&found, FoundBlock::Stale) == 3);
    assert!(rt; count_of(&found, FoundBlock::Free) == 58);
    Ok(())
}

/// A mark of a device with one unit, and a page behind the last address of unit 0.
#[test]
fn dies_of_another_configuration_are_refused(rt: HostRuntime) -> Result<(), Fail> {
    let config = row_config()?;
    let unit = UnitSpec {
        blocks: 256,
        boot: 1,
        protect: 0,
    };
    let other = Config::new(4, 16, 64, &[unit], [1, 0, 0, 0], 64, 4)?;
    let mut dies = row_dies(rt.alloc())?;
    put(
        &rt,
        dies.as_mut_slice(),
        at(0, 0, 0),
        &mark(&other, (1, 0), None),
    );
    assert!(rt; is_other(scanned(&rt, rt.alloc(), &config, dies.as_mut_slice())));
    put(&rt, dies.as_mut_slice(), at(0, 0, 0), &data(255, 1, (0, 1)));
    assert!(rt; !is_other(scanned(&rt, rt.alloc(), &config, dies.as_mut_slice())));
    put(&rt, dies.as_mut_slice(), at(0, 0, 0), &data(256, 1, (0, 1)));
    assert!(rt; is_other(scanned(&rt, rt.alloc(), &config, dies.as_mut_slice())));
    Ok(())
}

/// The device has regions 0 and 2. A mark of it suits, and so does one of region 0 alone, which was written
/// before there was region 2; a mark of region 1, or of another size of region 0, does not. The first page of
/// region 2 has the index 416: behind 384 blocks and 32 pages of region 0.
#[test]
fn a_mark_of_region_0_alone_suits(rt: HostRuntime) -> Result<(), Fail> {
    let config = with_regions([1, 0, 2, 0])?;
    let mut dies = row_dies(rt.alloc())?;
    put(&rt, dies.as_mut_slice(), at(1, 0, 0), &area(2, 1));
    for (sizes, suits) in [
        ([1, 0, 2, 0], true),
        ([1, 0, 0, 0], true),
        ([1, 1, 0, 0], false),
        ([2, 0, 2, 0], false),
        ([1, 0, 2, 1], false),
    ] {
        let other = with_regions(sizes)?;
        put(
            &rt,
            dies.as_mut_slice(),
            at(0, 0, 0),
            &mark(&other, (1, 0), None),
        );
        match scanned(&rt, rt.alloc(), &config, dies.as_mut_slice()) {
            Ok(found) => assert!(rt;
                suits && says_sizes(&found, sizes) && lies_at(&found, 416, at(1, 0, 0))
            ),
            Err(fault) => assert!(rt; !suits && matches!(fault, OpenFault::OtherConfig)),
        }
    }
    let first = with_regions([1, 0, 0, 0])?;
    put(
        &rt,
        dies.as_mut_slice(),
        at(0, 0, 0),
        &mark(&first, (1, 0), None),
    );
    assert!(rt; is_other(scanned(&rt, rt.alloc(), &first, dies.as_mut_slice())));
    Ok(())
}

/// The row configuration with areas of these sizes.
fn with_regions(rpmb: [u8; 4]) -> Result<Config, Fail> {
    let config = row_config()?;
    let numbers = config.numbers();
    Ok(Config::new(4, 16, 64, numbers.units.as_slice(), rpmb, 64, 4)?)
}

/// Whether the newest mark says these sizes of regions.
fn says_sizes(found: &Found, sizes: [u8; 4]) -> bool {
    match &found.newest {
        Some(mark) => mark.numbers.rpmb == sizes,
        None => false,
    }
}

/// The first page of the area of a region, with its group's number.
fn area(region: u8, number: u64) -> Page
    requires { (region < 4) × (1 ≤ number) × (number ≤ 2 ^ 62) }
{
    let tag = Tag {
        kind: Tag::RPMB_AREA,
        unit: region,
        address: 0,
        number,
        index: 0,
        size: 1,
        frontier: 0,
    };
    seal(&tag, &[0x5A; 4096])
}

/// A group of two pages is kept only if both are there.
#[test]
fn a_group_is_kept_whole_or_not_at_all(rt: HostRuntime) -> Result<(), Fail> {
    let config = row_config()?;
    let mut dies = row_dies(rt.alloc())?;
    put(&rt, dies.as_mut_slice(), at(0, 0, 0), &data(9, 1, (1, 2)));
    let found = scanned(&rt, rt.alloc(), &config, dies.as_mut_slice())?;
    assert!(rt; has_numbers(&found, (0, 1, 1)));
    assert!(rt; lies_nowhere(&found, 9));
    assert!(rt; is_only_lost(&found, 9));
    put(&rt, dies.as_mut_slice(), at(3, 15, 63), &data(8, 1, (0, 2)));
    let found = scanned(&rt, rt.alloc(), &config, dies.as_mut_slice())?;
    assert!(rt; has_numbers(&found, (1, 1, 2)));
    assert!(rt; lies_at(&found, 8, at(3, 15, 63)) && lies_at(&found, 9, at(0, 0, 0)));
    assert!(rt; found.lost.is_empty());
    Ok(())
}

/// The first read of a page of die 2 fails; the other dies counted a failure before. The scan tells
/// the place, and die 2 counts it. The dies stay as they are: a second scan finds what stands, the
/// page of that read too.
#[test]
fn a_read_that_fails(rt: HostRuntime) -> Result<(), Fail> {
    let config = row_config()?;
    let mut good = row_dies(rt.alloc())?;
    put(&rt, good.as_mut_slice(), at(0, 3, 0), &data(5, 1, (0, 1)));
    put(&rt, good.as_mut_slice(), at(2, 7, 1), &data(6, 2, (0, 1)));
    let mut dies = Vec::new(rt.alloc());
    for die in good {
        dies.push(FaultyDie {
            die,
            at: (7, 1),
            failures: u64::from(dies.len() != 2),
        })?;
    }
    assert!(rt;
        is_fault_at(
            scanned(&rt, rt.alloc(), &config, dies.as_mut_slice()),
            at(2, 7, 1)
        )
    );
    assert!(rt; have_failed_once(dies.as_slice()));
    let found = scanned(&rt, rt.alloc(), &config, dies.as_mut_slice())?;
    assert!(rt; have_failed_once(dies.as_slice()));
    assert!(rt; has_numbers(&found, (2, 2, 3)));
    assert!(rt; lies_at(&found, 5, at(0, 3, 0)) && lies_at(&found, 6, at(2, 7, 1)));
    assert!(rt; found.lost.is_empty());
    Ok(())
}

/// A group of 128 pages, which lie on all dies, is kept once its last page is there.
#[test]
fn a_group_of_128_pages_is_kept_once_it_is_whole(rt: HostRuntime) -> Result<(), Fail> {
    let config = row_config()?;
    let mut dies = row_dies(rt.alloc())?;
    for index in 0..127u16 {
        let place = at((index % 4) as u8, 0, index / 4);
        let page = data(u32::from(index), 1, (index, 128));
        put(&rt, dies.as_mut_slice(), place, &page);
    }
    let found = scanned(&rt, rt.alloc(), &config, dies.as_mut_slice())?;
    assert!(rt; has_numbers(&found, (0, 1, 1)) && lies_nowhere(&found, 0));
    put(
        &rt,
        dies.as_mut_slice(),
        at(3, 0, 31),
        &data(127, 1, (127, 128)),
    );
    let found = scanned(&rt, rt.alloc(), &config, dies.as_mut_slice())?;
    assert!(rt; has_numbers(&found, (1, 1, 2)) && found.lost.is_empty());
    assert!(rt; lies_at(&found, 0, at(0, 0, 0)) && lies_at(&found, 127, at(3, 0, 31)));
    Ok(())
}

/// The first page of a group is of version 1, and the second one, of version 2, makes the group whole.
/// The page of version 1 has a copy of version 2, and the one at the lower place is told.
#[test]
fn pages_of_both_versions_are_one_group(rt: HostRuntime) -> Result<(), Fail> {
    let config = row_config()?;
    let mut dies = row_dies(rt.alloc())?;
    put(&rt, dies.as_mut_slice(), at(1, 0, 0), &old_data());
    let found = scanned(&rt, rt.alloc(), &config, dies.as_mut_slice())?;
    assert!(rt; has_numbers(&found, (0, 1, 1)));
    put(&rt, dies.as_mut_slice(), at(2, 0, 0), &data(9, 1, (1, 2)));
    let found = scanned(&rt, rt.alloc(), &config, dies.as_mut_slice())?;
    assert!(rt; has_numbers(&found, (1, 1, 2)) && found.lost.is_empty());
    assert!(rt; lies_at(&found, 8, at(1, 0, 0)) && lies_at(&found, 9, at(2, 0, 0)));
    put(&rt, dies.as_mut_slice(), at(0, 5, 0), &data(8, 1, (0, 2)));
    let found = scanned(&rt, rt.alloc(), &config, dies.as_mut_slice())?;
    assert!(rt; has_numbers(&found, (1, 1, 2)) && lies_at(&found, 8, at(0, 5, 0)));
    Ok(())
}

/// Settings with permanent write protection, and none without a page of them.
#[test]
fn settings_tell_permanent_protection(rt: HostRuntime) -> Result<(), Fail> {
    let config = row_config()?;
    let mut dies = row_dies(rt.alloc())?;
    let found = scanned(&rt, rt.alloc(), &config, dies.as_mut_slice())?;
    assert!(rt; !found.settings.is_permanent);
    put(&rt, dies.as_mut_slice(), at(1, 0, 0), &settings(1, true));
    let found = scanned(&rt, rt.alloc(), &config, dies.as_mut_slice())?;
    assert!(rt; found.settings.is_permanent && lies_at(&found, 416, at(1, 0, 0)));
    put(&rt, dies.as_mut_slice(), at(1, 0, 1), &settings(2, false));
    let found = scanned(&rt, rt.alloc(), &config, dies.as_mut_slice())?;
    assert!(rt; !found.settings.is_permanent && lies_at(&found, 416, at(1, 0, 1)));
    Ok(())
}

pub(crate) fn at(die: u8, block: u16, page: u16) -> Place {
    Place { die, block, page }
}

/// New dies of the row configuration.
pub(crate) fn row_dies(alloc: Global) -> Result<Vec<MemDie>, Fail> {
    let mut dies = Vec::new(alloc);
    for _ in 0..4u8 {
        dies.push(MemDie::new(alloc, 16, 64)?)?;
    }
    Ok(dies)
}

/// A page of unit 0, with its group's number, and its index and the size of its group.
pub(crate) fn data(address: u32, number: u64, part: (u16, u16)) -> Page
    requires { (address < 2 ^ 32) × (1 ≤ number) × (number ≤ 2 ^ 62)
        × (part.0 < part.1) × (part.1 ≤ 128) }
{
    let tag = Tag {
        kind: Tag::DATA,
        unit: 0,
        address,
        number,
        index: part.0,
        size: part.1,
        frontier: 0,
    };
    seal(&tag, &[0x5A; 4096])
}

/// The page of address 8 of unit 0 in version 1: the first of two pages of group 1. Its check is that of
/// another implementation of SHA-256.
fn old_data() -> Page {
    let check: [u8; 32] = [
        0x58, 0x0B, 0x6E, 0x3E, 0x61, 0xF9, 0xF6, 0xE4, 0x56, 0x38, 0xE8, 0x25, 0x81, 0x1D, 0x9D,
        0x14, 0x3E, 0xE8, 0xEE, 0x21, 0x40, 0xDE, 0xAA, 0xDA, 0x1C, 0xEC, 0xD5, 0xBA, 0xE1, 0x24,
        0xC3, 0x13,
    ];
    let mut spare = [0; 96];
    spare[..4].copy_from_slice(b"UFSP");
    spare[4] = 1;
    spare[5] = Tag::DATA;
    spare[11] = 8;
    spare[19] = 1;
    spare[21] = 2;
    spare[64..].copy_from_slice(&check);
    Page {
        body: [0x5A; 4096],
        spare,
    }
}

/// A page of the settings, with its group's number and whether write protection is permanent.
pub(crate) fn settings(number: u64, is_permanent: bool) -> Page
    requires { (1 ≤ number) × (number ≤ 2 ^ 62) }
{
    let mut body = [0; 4096];
    body[1] = u8::from(is_permanent);
    sealed_settings(number, &body)
}

/// A page of the settings, with its group's number and these data.
pub(crate) fn sealed_settings(number: u64, body: &Block) -> Page
    requires { (1 ≤ number) × (number ≤ 2 ^ 62) }
{
    let tag = Tag {
        kind: Tag::SETTINGS,
        unit: 0,
        address: 0,
        number,
        index: 0,
        size: 1,
        frontier: 0,
    };
    seal(&tag, body)
}

/// A mark with its number and what it records.
pub(crate) fn mark(config: &Config, counts: (u64, u64), fence: Option<Fence>) -> Page
    requires { (1 ≤ counts.0) × (counts.0 ≤ 2 ^ 62) × (counts.1 ≤ 2 ^ 62) }
{
    let tag = Tag {
        kind: Tag::MARK,
        unit: 0,
        address: 0,
        number: counts.0,
        index: 0,
        size: 1,
        frontier: counts.1,
    };
    seal(&tag, &mark_body(config.numbers(), fence))
}

/// Sets the page there.
pub(crate) fn put(rt: &impl Abort, dies: &mut [MemDie], place: Place, page: &Page) {
    let die = usize::from(place.die);
    assert!(rt; die < dies.len());
    let die = &mut dies[die];
    assert!(rt; die.can_do(&Job::Read(place)));
    die.set_page(place.block, place.page, page);
}

/// What the dies stand for. They have to fit the configuration.
pub(crate) fn scanned<D: Die>(
    rt: &impl Abort,
    alloc: Global,
    config: &Config,
    dies: &mut [D],
) -> Result<Found, OpenFault> {
    assert!(rt; fit(config, dies));
    scan(alloc, dies, config)
}

/// Whether the scan was refused for another configuration.
fn is_other(found: Result<Found, OpenFault>) -> bool {
    matches!(found, Err(OpenFault::OtherConfig))
}

/// Whether the scan was refused for the read of this place.
fn is_fault_at(found: Result<Found, OpenFault>, place: Place) -> bool {
    match found {
        Err(OpenFault::ReadFault(at)) => at == place,
        _ => false,
    }
}

/// Whether these are the kept number, the greatest seen and the first lost one.
fn has_numbers(found: &Found, numbers: (u64, u64, u64)) -> bool {
    found.kept == numbers.0 && found.greatest_seen == numbers.1 && found.first_lost == numbers.2
}

/// Whether the newest mark has this number.
fn is_newest(found: &Found, number: u64) -> bool {
    match &found.newest {
        Some(mark) => mark.number == number,
        None => false,
    }
}

/// Whether the content of the key with this index lies there.
fn lies_at(found: &Found, index: usize, place: Place) -> bool {
    if index >= found.contents.len() {
        return false;
    }
    match found.contents[index] {
        Some(page) => page.place == place,
        None => false,
    }
}

/// Whether no key has a content.
fn has_no_content(found: &Found) -> bool {
    for content in found.contents.iter() {
        if content.is_some() {
            return false;
        }
    }
    true
}

/// Whether each die has counted one failure.
fn have_failed_once(dies: &[FaultyDie]) -> bool {
    for die in dies {
        if die.failures != 1 {
            return false;
        }
    }
    true
}

/// Whether the key with this index has no content.
fn lies_nowhere(found: &Found, index: usize) -> bool {
    index < found.contents.len() && found.contents[index].is_none()
}

/// Whether the block of this address of unit 0 is lost, and nothing else.
fn is_only_lost(found: &Found, address: u32) -> bool {
    found.lost.len() == 1
        && found.lost[0].kind == Tag::DATA
        && found.lost[0].unit == 0
        && found.lost[0].address == address
}

/// Whether the block of the die is told to be this.
fn is_block(found: &Found, die: usize, block: usize, state: FoundBlock) -> bool {
    let states = found.blocks.as_slice();
    die < 4 && block < 16 && states.len() == 64 && states[16 * die + block] == state
}

/// How many blocks are told to be this.
fn count_of(found: &Found, state: FoundBlock) -> usize {
    let mut count = 0usize;
    for block in found.blocks.iter() {
        if *block == state {
            count = count.saturating_add(1);
        }
    }
    count
}
