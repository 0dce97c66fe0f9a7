//! The comparison, on blocks that are a prefix of what was written and on blocks that are none, and what a
//! journal takes from messages.
use geometry::Config;
use journal::{Entry, FoundRegion, FoundRest, Journal, device_holding, is_kept};
use row_messages::messages::{FUA, SYNCHRONIZE, WRITE, block_out, command, good};
use rpmb::RegionState;
use std::alloc::Global;
use std::process::Abort;
use std::test::Fail;
use ufs_spec::{Block, Cmd, PlainDevice, UnitSpec, commands_keep_the_shape};

/// Two units, of 4 and of 2 blocks.
fn config() -> Result<Config, Fail> {
    let units = [
        UnitSpec {
            blocks: 4,
            boot: 0,
            protect: 0,
        },
        UnitSpec {
            blocks: 2,
            boot: 1,
            protect: 0,
        },
    ];
    Ok(Config::new(2, 32, 64, &units, [1, 0, 0, 0], 64, 4)?)
}

/// The blocks of both units: each of equal bytes.
fn blocks(alloc: Global, first: [u8; 4], second: [u8; 2]) -> Result<Vec<Vec<Block>>, Fail> {
    let mut all = Vec::new(alloc);
    let mut blocks = Vec::new(alloc);
    for byte in first.iter() {
        blocks.push([*byte; 4096])?;
    }
    all.push(blocks)?;
    let mut blocks = Vec::new(alloc);
    for byte in second.iter() {
        blocks.push([*byte; 4096])?;
    }
    all.push(blocks)?;
    Ok(all)
}

fn write(alloc: Global, unit: u8, address: u32, byte: u8) -> Result<Entry, Fail> {
    let blocks = [[byte; 4096]].to_vec(alloc)?;
    Ok(Entry::Accepted(Cmd::Write {
        unit,
        address,
        blocks,
    }))
}

/// Three writes: 11h and 22h to the first two blocks of unit 0, 33h to the last block of unit 1.
fn three_writes(alloc: Global) -> Result<Vec<Entry>, Fail> {
    let mut commands = Vec::new(alloc);
    commands.push(write(alloc, 0, 0, 0x11)?)?;
    commands.push(write(alloc, 0, 1, 0x22)?)?;
    commands.push(write(alloc, 1, 1, 0x33)?)?;
    Ok(commands)
}

/// A region with which nothing was done.
pub(crate) const NEW_REGION: FoundRegion<'static> = FoundRegion {
    key: None,
    counter: 0,
    area: &[],
};

/// What is found beside the blocks where nothing was done with it.
const NEW_REST: FoundRest<'static> = FoundRest {
    boot: 0,
    is_permanent: false,
    regions: [NEW_REGION; 4],
};

/// A region of so many blocks, without a key.
pub(crate) fn region_of(blocks: u32) -> RegionState {
    RegionState {
        key: None,
        counter: 0,
        blocks,
    }
}

/// The regions of a device that has the first one alone, without a key.
pub(crate) fn first_region() -> [RegionState; 4] {
    [region_of(512), region_of(0), region_of(0), region_of(0)]
}

/// Whether these blocks are those that a prefix of the commands, with the held ones in it, makes of a new
/// device.
fn keeps(
    alloc: Global,
    commands: &[Entry],
    held: usize,
    found: &[Vec<Block>],
) -> Result<bool, Fail> {
    let config = config()?;
    commands_keep_the_shape();
    let base = PlainDevice::new(alloc, config.numbers())?;
    Ok(is_kept(config.numbers(), base, commands, held, found, &NEW_REST))
}

/// The same over a device that holds the blocks of the base; `None` where those are not the units'.
fn keeps_over(
    alloc: Global,
    base: &[Vec<Block>],
    commands: &[Entry],
    held: usize,
    found: &[Vec<Block>],
) -> Result<Option<bool>, Fail> {
    let config = config()?;
    let Some(base) = device_holding(alloc, config.numbers(), base, &NEW_REST)? else {
        return Ok(None);
    };
    let kept = is_kept(config.numbers(), base, commands, held, found, &NEW_REST);
    Ok(Some(kept))
}

/// Each prefix that has the held writes is kept.
#[test]
fn prefixes_are_kept(rt: HostRuntime) -> Result<(), Fail> {
    let alloc = rt.alloc();
    let commands = three_writes(alloc)?;
    let prefixes = [
        ([0, 0, 0, 0], [0, 0]),
        ([0x11, 0, 0, 0], [0, 0]),
        ([0x11, 0x22, 0, 0], [0, 0]),
        ([0x11, 0x22, 0, 0], [0, 0x33]),
    ];
    for (count, (first, second)) in prefixes.iter().enumerate() {
        let found = blocks(alloc, *first, *second)?;
        for held in 0..4usize {
            let kept = keeps(alloc, commands.as_slice(), held, found.as_slice())?;
            assert!(rt; kept == (held <= count), "{count} writes, {held} held");
        }
    }
    Ok(())
}

/// Blocks that are those of no prefix: mixtures of two, a block that nobody wrote, too few of them.
#[test]
fn other_blocks_are_not_kept(rt: HostRuntime) -> Result<(), Fail> {
    let alloc = rt.alloc();
    let commands = three_writes(alloc)?;
    let others = [
        ([0, 0x22, 0, 0], [0, 0]),
        ([0x11, 0, 0, 0], [0, 0x33]),
        ([0, 0, 0, 0], [0, 0x33]),
        ([0x11, 0x22, 0x44, 0], [0, 0x33]),
        ([0x11, 0x22, 0, 0], [0x33, 0]),
        ([0x22, 0x11, 0, 0], [0, 0x33]),
    ];
    for (first, second) in others {
        let found = blocks(alloc, first, second)?;
        let kept = keeps(alloc, commands.as_slice(), 0, found.as_slice())?;
        assert!(rt; !kept);
    }
    let mut found = blocks(alloc, [0x11, 0x22, 0, 0], [0, 0x33])?;
    found.truncate(1);
    let kept = keeps(alloc, commands.as_slice(), 0, found.as_slice())?;
    assert!(rt; !kept);
    Ok(())
}

/// A block that is written again: what it held before the held writes is not kept.
#[test]
fn older_content_is_not_kept(rt: HostRuntime) -> Result<(), Fail> {
    let alloc = rt.alloc();
    let mut commands = Vec::new(alloc);
    commands.push(write(alloc, 0, 0, 0x11)?)?;
    commands.push(write(alloc, 0, 0, 0x22)?)?;
    commands.push(write(alloc, 0, 0, 0x11)?)?;
    for (held, byte, is_good) in [
        (2usize, 0x22u8, true),
        (3, 0x22, false),
        (3, 0x11, true),
        (1, 0, false),
    ] {
        let found = blocks(alloc, [byte, 0, 0, 0], [0, 0])?;
        let kept = keeps(alloc, commands.as_slice(), held, found.as_slice())?;
        assert_eq!(rt; kept, is_good, "{held} {byte}");
    }
    Ok(())
}

/// A RESPONSE with this tag, which is not GOOD.
fn failed(tag: u8) -> [u8; 32] {
    let mut message = good(tag);
    message[6] = 1;
    message[7] = 2;
    message
}

/// A WRITE(10) of one block at address 1, with FUA or without.
fn write_10(tag: u8, is_forced: bool) -> [u8; 32] {
    command(tag, WRITE, if is_forced { FUA } else { 0 }, 1, 1)
}

/// A SYNCHRONIZE CACHE(10), with IMMED or without.
fn flush(tag: u8, is_immediate: bool) -> [u8; 32] {
    command(tag, SYNCHRONIZE, if is_immediate { 0x02 } else { 0 }, 0, 0)
}

/// A WRITE(6) of one block, which the host brings. Its address has 21 bits, the highest five of them in the
/// second byte.
fn write_6(tag: u8, second: u8) -> [u8; 32] {
    let mut bytes = command(tag, 0x0A, second, 0x0203_0100, 0);
    bytes[14] = 0x10;
    bytes
}

/// A VERIFY(10) of one block at address 1 with BYTCHK 01, which the host brings.
fn compared(tag: u8) -> [u8; 32] {
    let mut bytes = command(tag, 0x2F, 0x02, 1, 1);
    bytes[1] = 0x20;
    bytes
}

/// A life begins, without a key.
fn begun(alloc: Global) -> Result<Journal, Fail> {
    Ok(Journal::new(alloc, config()?.numbers(), first_region()))
}

/// Compares how many writes the journal has, and how many of them are held.
fn expect_counts(rt: &impl Abort, journal: &Journal, accepted: usize, held: usize) {
    assert!(rt; journal.entries().len() == accepted);
    assert!(rt; journal.held() == held);
}

/// Writes under several tags at once: accepted in the order of their data, and held up to the last one with
/// FUA that was answered GOOD.
#[test]
fn writes_of_several_tasks_are_accepted_in_order(rt: HostRuntime) -> Result<(), Fail> {
    let alloc = rt.alloc();
    let mut journal = begun(alloc)?;
    journal.hear(alloc, &write_10(1, false))?;
    journal.hear(alloc, &write_10(2, true))?;
    journal.hear(alloc, &write_10(3, false))?;
    expect_counts(&rt, &journal, 0, 0);
    journal.hear(alloc, &block_out(3, 0, 0x33))?;
    journal.hear(alloc, &block_out(2, 0, 0x22))?;
    journal.hear(alloc, &block_out(1, 0, 0x11))?;
    expect_counts(&rt, &journal, 3, 0);
    journal.tell(&good(3));
    journal.tell(&good(1));
    expect_counts(&rt, &journal, 3, 0);
    journal.tell(&good(2));
    expect_counts(&rt, &journal, 3, 2);
    // A tag that is used again is another task; one that ends with a fault acknowledges nothing.
    journal.hear(alloc, &write_10(2, true))?;
    journal.tell(&failed(2));
    journal.hear(alloc, &block_out(2, 0, 0x44))?;
    expect_counts(&rt, &journal, 3, 2);
    Ok(())
}

/// A flush holds the writes that were accepted before its COMMAND, and one with IMMED none.
#[test]
fn a_flush_holds_the_writes_before_it(rt: HostRuntime) -> Result<(), Fail> {
    let alloc = rt.alloc();
    let mut journal = begun(alloc)?;
    journal.hear(alloc, &write_10(1, false))?;
    journal.hear(alloc, &block_out(1, 0, 0x11))?;
    journal.hear(alloc, &flush(9, true))?;
    journal.tell(&good(9));
    expect_counts(&rt, &journal, 1, 0);
    journal.hear(alloc, &flush(9, false))?;
    journal.hear(alloc, &write_10(2, false))?;
    journal.hear(alloc, &block_out(2, 0, 0x22))?;
    expect_counts(&rt, &journal, 2, 0);
    journal.tell(&good(9));
    expect_counts(&rt, &journal, 2, 1);
    Ok(())
}

/// The block that a VERIFY brings is compared, and not accepted; its GOOD holds nothing. A WRITE that is
/// open beside it gets its own block alone.
#[test]
fn a_block_that_is_compared_is_not_accepted(rt: HostRuntime) -> Result<(), Fail> {
    let alloc = rt.alloc();
    let mut journal = begun(alloc)?;
    journal.hear(alloc, &write_10(1, false))?;
    journal.hear(alloc, &compared(2))?;
    journal.hear(alloc, &block_out(2, 0, 0x22))?;
    expect_counts(&rt, &journal, 0, 0);
    journal.hear(alloc, &block_out(1, 0, 0x11))?;
    expect_counts(&rt, &journal, 1, 0);
    journal.tell(&good(2));
    expect_counts(&rt, &journal, 1, 0);
    // The tag of a WRITE that is answered is used again by a VERIFY.
    journal.tell(&good(1));
    journal.hear(alloc, &compared(1))?;
    journal.hear(alloc, &block_out(1, 0, 0x33))?;
    journal.tell(&failed(1));
    expect_counts(&rt, &journal, 1, 0);
    Ok(())
}

/// Whether the command is a WRITE to unit 0 at this address.
fn is_write_at(entry: Option<&Entry>, wanted: u32) -> bool {
    match entry {
        Some(Entry::Accepted(Cmd::Write { unit, address, .. })) => *unit == 0 && *address == wanted,
        _ => false,
    }
}

/// WRITE(6) has 21 bits of address; a write of no blocks has no data; a locked device accepts nothing.
#[test]
fn write_6_is_accepted_and_an_empty_or_locked_write_is_not(rt: HostRuntime) -> Result<(), Fail> {
    let alloc = rt.alloc();
    let mut journal = begun(alloc)?;
    journal.hear(alloc, &write_6(1, 0x1F))?;
    journal.hear(alloc, &block_out(1, 0, 0x11))?;
    assert!(rt; is_write_at(journal.entries().first(), 0x1F_0203));
    // A bit above the address: the command is refused.
    journal.hear(alloc, &write_6(1, 0x3F))?;
    journal.hear(alloc, &block_out(1, 0, 0x11))?;
    expect_counts(&rt, &journal, 1, 0);
    journal.hear(alloc, &command(2, WRITE, FUA, 1, 0))?;
    journal.hear(alloc, &block_out(2, 0, 0x22))?;
    journal.tell(&good(2));
    expect_counts(&rt, &journal, 1, 0);
    journal.hear(alloc, &write_10(3, true))?;
    journal.lock();
    journal.hear(alloc, &block_out(3, 0, 0x33))?;
    journal.tell(&failed(3));
    expect_counts(&rt, &journal, 1, 0);
    Ok(())
}

/// What a life begins over is in each prefix, below what the life wrote.
#[test]
fn a_life_holds_the_blocks_that_it_begins_over(rt: HostRuntime) -> Result<(), Fail> {
    let alloc = rt.alloc();
    let base = blocks(alloc, [0, 0x55, 0, 0], [0x66, 0])?;
    let mut commands = Vec::new(alloc);
    commands.push(write(alloc, 0, 1, 0x77)?)?;
    for (held, byte, is_good) in [
        (0usize, 0x55u8, true),
        (0, 0x77, true),
        (0, 0, false),
        (1, 0x55, false),
        (1, 0x77, true),
    ] {
        let found = blocks(alloc, [0, byte, 0, 0], [0x66, 0])?;
        let (base, commands) = (base.as_slice(), commands.as_slice());
        let kept = keeps_over(alloc, base, commands, held, found.as_slice())?;
        assert!(rt; kept == Some(is_good), "{held} {byte}");
    }
    Ok(())
}

/// So many blocks of zeros.
fn zeros(alloc: Global, count: usize) -> Result<Vec<Block>, Fail> {
    let mut all = Vec::new(alloc);
    for _ in 0..count {
        all.push([0; 4096])?;
    }
    Ok(all)
}

/// Whether units of so many blocks are no beginning.
fn begins_none(alloc: Global, counts: &[usize], found: &[Vec<Block>]) -> Result<bool, Fail> {
    let mut base = Vec::new(alloc);
    for count in counts {
        base.push(zeros(alloc, *count)?)?;
    }
    let kept = keeps_over(alloc, base.as_slice(), &[], 0, found)?;
    Ok(kept.is_none())
}

/// Blocks of too few units, of too many, or of too short a unit are no beginning.
#[test]
fn blocks_of_other_units_begin_no_life(rt: HostRuntime) -> Result<(), Fail> {
    let alloc = rt.alloc();
    let found = blocks(alloc, [0, 0, 0, 0], [0, 0])?;
    assert!(rt; begins_none(alloc, &[4], found.as_slice())?);
    assert!(rt; begins_none(alloc, &[4, 1], found.as_slice())?);
    assert!(rt; begins_none(alloc, &[3, 2], found.as_slice())?);
    assert!(rt; begins_none(alloc, &[4, 2, 0], found.as_slice())?);
    Ok(())
}
