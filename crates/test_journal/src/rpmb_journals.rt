//! What a journal takes from requests to the replay protected memory block, and the comparison of
//! what was found of it. The MACs are those of another HMAC with SHA-256.
use crate::journals::{NEW_REGION, first_region, region_of};
use geometry::Config;
use journal::{Entry, FoundRegion, FoundRest, Journal, can_apply, device_holding, is_kept};
use row_messages::frames::{FrameBytes, Numbers, frame, frames_command, frames_good, frames_out};
use std::alloc::Global;
use std::process::Abort;
use std::test::Fail;
use ufs_spec::{Block, Cmd, PlainDevice, UnitSpec, commands_keep_the_shape};

/// The key.
const KEY: [u8; 32] = [0x0B; 32];

/// The MACs of a write of a block of bytes 77h to address 3, under the counter 0 and under the
/// counter 1.
const FIRST: [u8; 32] = [
    0x29, 0x11, 0xE5, 0xE9, 0x43, 0x96, 0x32, 0xF4, 0x5F, 0xE7, 0x6C, 0xB3, 0x0D, 0xFC, 0x67, 0xE7,
    0x3E, 0xA6, 0x77, 0x4C, 0x18, 0xE2, 0x7B, 0x09, 0x77, 0x9C, 0xBC, 0x7C, 0xA5, 0x15, 0x17, 0x76,
];

const NEXT: [u8; 32] = [
    0x47, 0x15, 0x68, 0x25, 0x98, 0x6A, 0xD4, 0xBA, 0xE3, 0x53, 0x11, 0x97, 0x1A, 0x40, 0x51, 0x49,
    0x3F, 0xE8, 0xD0, 0xE7, 0x37, 0x43, 0xE8, 0x86, 0xA1, 0x2F, 0xEC, 0x56, 0x8A, 0x02, 0xC7, 0x75,
];

/// How many bytes the area has.
const AREA: usize = 131_072;

/// The frame that programs the key.
fn key_request() -> FrameBytes {
    let numbers = Numbers {
        counter: 0,
        address: 0,
        count: 0,
        code: 0,
        kind: 1,
    };
    frame(&KEY, 0, numbers)
}

/// The write under this counter, with this MAC.
fn write_request(mac: &[u8; 32], counter: u32) -> FrameBytes {
    let numbers = Numbers {
        counter,
        address: 3,
        count: 1,
        code: 0,
        kind: 3,
    };
    frame(mac, 0x77, numbers)
}

/// The journal hears a request of this frame to region 0, with this tag.
fn bring(alloc: Global, journal: &mut Journal, tag: u8, asked: &FrameBytes) -> Result<(), Fail> {
    bring_to(alloc, journal, (0, tag), asked)
}

/// The same to a region, which byte 2 of the CDB names: byte 18 of the message.
fn bring_to(
    alloc: Global,
    journal: &mut Journal,
    region_and_tag: (u8, u8),
    asked: &FrameBytes,
) -> Result<(), Fail> {
    let (region, tag) = region_and_tag;
    let mut command = frames_command(tag, 1);
    command[18] = region;
    journal.hear(alloc, &command)?;
    Ok(journal.hear(alloc, frames_out(tag, &[*asked]).as_slice())?)
}

/// Compares how many commands the journal has, how many of them are held, and the counter.
fn expect_counts(rt: &impl Abort, journal: &Journal, accepted: usize, held: usize, counter: u32) {
    assert!(rt; journal.entries().len() == accepted);
    assert!(rt; journal.held() == held);
    assert!(rt; journal.region(0).counter == counter);
}

/// A key and a write are accepted with their frames, and each is held once it is answered GOOD. A
/// second key, a wrong MAC, the same write again, and one on a locked device are not accepted.
#[test]
fn accepted_requests_are_noted(rt: HostRuntime) -> Result<(), Fail> {
    let alloc = rt.alloc();
    let mut journal = Journal::new(alloc, config()?.numbers(), first_region());
    bring(alloc, &mut journal, 1, &write_request(&FIRST, 0))?;
    expect_counts(&rt, &journal, 0, 0, 0);
    bring(alloc, &mut journal, 1, &key_request())?;
    expect_counts(&rt, &journal, 1, 0, 0);
    assert!(rt; journal.region(0).key == Some(KEY));
    journal.tell(&frames_good(1));
    expect_counts(&rt, &journal, 1, 1, 0);
    bring(alloc, &mut journal, 2, &key_request())?;
    bring(alloc, &mut journal, 3, &write_request(&NEXT, 0))?;
    bring(alloc, &mut journal, 4, &write_request(&NEXT, 1))?;
    expect_counts(&rt, &journal, 1, 1, 0);
    bring(alloc, &mut journal, 5, &write_request(&FIRST, 0))?;
    bring(alloc, &mut journal, 6, &write_request(&FIRST, 0))?;
    journal.tell(&frames_good(6));
    expect_counts(&rt, &journal, 2, 1, 1);
    journal.tell(&frames_good(5));
    expect_counts(&rt, &journal, 2, 2, 1);
    journal.lock();
    bring(alloc, &mut journal, 7, &write_request(&NEXT, 1))?;
    expect_counts(&rt, &journal, 2, 2, 1);
    Ok(())
}

/// A key and a write go to region 2 while region 0 has neither: the write to region 0 is refused, and each
/// region keeps a key and a counter of its own. A number that no region has is told as one without blocks.
#[test]
fn requests_go_to_their_regions(rt: HostRuntime) -> Result<(), Fail> {
    let alloc = rt.alloc();
    let regions = [region_of(512), region_of(0), region_of(1024), region_of(0)];
    let mut journal = Journal::new(alloc, larger_config()?.numbers(), regions);
    bring_to(alloc, &mut journal, (2, 1), &key_request())?;
    bring_to(alloc, &mut journal, (0, 2), &write_request(&FIRST, 0))?;
    bring_to(alloc, &mut journal, (2, 3), &write_request(&FIRST, 0))?;
    journal.tell(&frames_good(3));
    expect_counts(&rt, &journal, 2, 2, 0);
    assert!(rt; journal.region(0).key.is_none());
    let region = journal.region(2);
    assert!(rt; region.key == Some(KEY) && region.counter == 1 && region.blocks == 1024);
    assert!(rt; journal.region(3).key.is_none() && journal.region(3).counter == 0);
    assert!(rt; journal.region(4).blocks == 0);
    assert!(rt; is_key_of(journal.entries().get(0), 2));
    assert!(rt; is_write_of(journal.entries().get(1), 2));
    Ok(())
}

/// Whether the key of this region is noted.
fn is_key_of(entry: Option<&Entry>, wanted: u8) -> bool {
    match entry {
        Some(Entry::Accepted(Cmd::SetKey { region, .. })) => *region == wanted,
        _ => false,
    }
}

/// Whether a write of this region is noted.
fn is_write_of(entry: Option<&Entry>, wanted: u8) -> bool {
    match entry {
        Some(Entry::Accepted(Cmd::RpmbWrite { region, .. })) => *region == wanted,
        _ => false,
    }
}

/// One unit of one block, and regions 0 and 2, of 128 and 256 KiB.
fn larger_config() -> Result<Config, Fail> {
    let units = [UnitSpec {
        blocks: 1,
        boot: 0,
        protect: 0,
    }];
    Ok(Config::new(2, 32, 64, &units, [1, 0, 2, 0], 64, 4)?)
}

/// One unit of one block.
fn config() -> Result<Config, Fail> {
    let units = [UnitSpec {
        blocks: 1,
        boot: 0,
        protect: 0,
    }];
    Ok(Config::new(2, 32, 64, &units, [1, 0, 0, 0], 64, 4)?)
}

/// The write of two blocks at address 3.
fn rpmb_write(alloc: Global) -> Result<Cmd, Fail> {
    let mut bytes = Vec::new(alloc);
    bytes.resize(512, 0x77)?;
    Ok(Cmd::RpmbWrite {
        region: 0,
        address: 3,
        bytes,
    })
}

/// A key, and that write.
fn key_and_write(alloc: Global) -> Result<Vec<Entry>, Fail> {
    let mut entries = Vec::new(alloc);
    entries.push(Entry::Accepted(Cmd::SetKey {
        region: 0,
        key: KEY,
    }))?;
    entries.push(Entry::Accepted(rpmb_write(alloc)?))?;
    Ok(entries)
}

/// An area of zeros, with so many bytes 77h from address 3 on.
fn area(alloc: Global, written: usize) -> Result<Vec<u8>, Fail> {
    let mut area = Vec::new(alloc);
    area.resize(768, 0)?;
    area.resize(768 + written.min(4096), 0x77)?;
    area.resize(AREA, 0)?;
    Ok(area)
}

/// The unit's block, which nobody wrote.
fn units(alloc: Global) -> Result<Vec<Vec<Block>>, Fail> {
    let mut blocks = Vec::new(alloc);
    blocks.push([0; 4096])?;
    let mut all = Vec::new(alloc);
    all.push(blocks)?;
    Ok(all)
}

/// This first region, and other regions and settings with which nothing was done.
fn rest_with(region: FoundRegion<'_>) -> FoundRest<'_> {
    FoundRest {
        boot: 0,
        is_permanent: false,
        regions: [region, NEW_REGION, NEW_REGION, NEW_REGION],
    }
}

/// Whether this region is found after a prefix of the two commands with so many of them held.
fn keeps(
    alloc: Global,
    held: usize,
    key: Option<[u8; 32]>,
    counter: u32,
    area: &[u8],
) -> Result<bool, Fail> {
    let config = config()?;
    commands_keep_the_shape();
    let base = PlainDevice::new(alloc, config.numbers())?;
    let entries = key_and_write(alloc)?;
    let found = units(alloc)?;
    let rest = rest_with(FoundRegion { key, counter, area });
    let (entries, found) = (entries.as_slice(), found.as_slice());
    Ok(is_kept(config.numbers(), base, entries, held, found, &rest))
}

/// The key, the counter and the bytes go together: each prefix is kept, and no mixture of two.
#[test]
fn a_region_is_kept_as_a_whole(rt: HostRuntime) -> Result<(), Fail> {
    let alloc = rt.alloc();
    let (zeros, half, written) = (area(alloc, 0)?, area(alloc, 256)?, area(alloc, 512)?);
    let (zeros, half, written) = (zeros.as_slice(), half.as_slice(), written.as_slice());
    for held in 0..3usize {
        assert!(rt; keeps(alloc, held, None, 0, &[])? == (held == 0));
        assert!(rt; keeps(alloc, held, Some(KEY), 0, zeros)? == (held < 2));
        assert!(rt; keeps(alloc, held, Some(KEY), 1, written)?);
    }
    assert!(rt; !keeps(alloc, 0, Some(KEY), 1, zeros)?);
    assert!(rt; !keeps(alloc, 0, Some(KEY), 1, half)?);
    assert!(rt; !keeps(alloc, 0, Some(KEY), 0, written)?);
    assert!(rt; !keeps(alloc, 0, Some([0x0C; 32]), 1, written)?);
    assert!(rt; !keeps(alloc, 0, None, 1, &[])?);
    Ok(())
}

/// A life begins over a region that was found: its counter, its key and its bytes are in each
/// prefix.
#[test]
fn a_life_begins_over_a_region(rt: HostRuntime) -> Result<(), Fail> {
    let alloc = rt.alloc();
    let config = config()?;
    let (found, bytes) = (units(alloc)?, area(alloc, 512)?);
    let region = FoundRegion {
        key: Some(KEY),
        counter: 7,
        area: bytes.as_slice(),
    };
    let rest = rest_with(region);
    let Some(base) = device_holding(alloc, config.numbers(), found.as_slice(), &rest)? else {
        panic!(rt; "the area is whole");
    };
    assert!(rt; is_kept(config.numbers(), base, &[], 0, found.as_slice(), &rest));
    let short = rest_with(FoundRegion {
        area: &[],
        ..region
    });
    let none = device_holding(alloc, config.numbers(), found.as_slice(), &short)?;
    assert!(rt; none.is_none());
    Ok(())
}

/// A life begins over region 2 with its key, its counter and its bytes, which another counter is not. What
/// is said of regions 1 and 3, which are not there, counts for nothing.
#[test]
fn a_life_begins_over_the_regions_that_are_there(rt: HostRuntime) -> Result<(), Fail> {
    let alloc = rt.alloc();
    let config = larger_config()?;
    let found = units(alloc)?;
    let mut bytes = Vec::new(alloc);
    bytes.resize(2 * AREA, 0x33)?;
    let keyed = FoundRegion {
        key: Some(KEY),
        counter: 7,
        area: bytes.as_slice(),
    };
    let none = FoundRegion {
        counter: 5,
        ..NEW_REGION
    };
    let rest = rest_of([NEW_REGION, none, keyed, none]);
    let base = device_holding(alloc, config.numbers(), found.as_slice(), &rest)?;
    let Some(base) = base else {
        panic!(rt; "the area of region 2 is whole");
    };
    assert!(rt; base.counter(1) == 0 && base.key(2) == Some(KEY) && base.counter(2) == 7);
    assert!(rt; base.area(2) == bytes.as_slice());
    assert!(rt; is_kept(config.numbers(), base, &[], 0, found.as_slice(), &rest));
    let Some(base) = device_holding(alloc, config.numbers(), found.as_slice(), &rest)? else {
        panic!(rt; "the area of region 2 is whole");
    };
    let other = rest_of([
        NEW_REGION,
        NEW_REGION,
        FoundRegion {
            counter: 8,
            ..keyed
        },
        NEW_REGION,
    ]);
    assert!(rt; !is_kept(config.numbers(), base, &[], 0, found.as_slice(), &other));
    Ok(())
}

/// These regions, and settings with which nothing was done.
fn rest_of(regions: [FoundRegion<'_>; 4]) -> FoundRest<'_> {
    FoundRest {
        boot: 0,
        is_permanent: false,
        regions,
    }
}

/// At its end the counter takes no write any more, and no region but the first is there.
#[test]
fn commands_that_cannot_come(rt: HostRuntime) -> Result<(), Fail> {
    let alloc = rt.alloc();
    let config = config()?;
    commands_keep_the_shape();
    let mut plain = PlainDevice::new(alloc, config.numbers())?;
    let write = rpmb_write(alloc)?;
    let key = Cmd::SetKey {
        region: 1,
        key: KEY,
    };
    assert!(rt; can_apply(config.numbers(), &plain, &write));
    assert!(rt; !can_apply(config.numbers(), &plain, &key));
    plain.set_counter(0, u32::MAX);
    assert!(rt; !can_apply(config.numbers(), &plain, &write));
    Ok(())
}
