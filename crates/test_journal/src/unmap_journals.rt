//! What a journal takes from the lists of UNMAPs and from task management requests.
use crate::journals::first_region;
use geometry::Config;
use journal::{Entry, Journal, unmaps_are_those_accepted};
use row_messages::messages::{FUA, SYNCHRONIZE, WRITE, block_out, command, good};
use std::alloc::Global;
use std::process::Abort;
use std::test::Fail;
use ufs_spec::{Cmd, UnitSpec};

/// A life of a device with one unit of 64 blocks begins, without a key.
fn begun(alloc: Global) -> Result<Journal, Fail> {
    let units = [UnitSpec {
        blocks: 64,
        boot: 0,
        protect: 0,
    }];
    let config = Config::new(2, 32, 64, &units, [1, 0, 0, 0], 64, 4)?;
    Ok(Journal::new(alloc, config.numbers(), first_region()))
}

/// Compares how many entries the journal has, and how many of them are held.
fn expect_counts(rt: &impl Abort, journal: &Journal, entries: usize, held: usize) {
    assert!(rt; journal.entries().len() == entries);
    assert!(rt; journal.held() == held);
}

/// The list of an UNMAP of two blocks from address 5 on (SBC, UNMAP parameter list).
const TWO_BLOCKS: [u8; 24] = [
    0x00, 0x16, 0x00, 0x10, 0, 0, 0, 0, 0, 0, 0, 0, 0, 0, 0, 0x05, 0, 0, 0, 0x02, 0, 0, 0, 0,
];

/// The DATA OUT of a list.
fn list_out(tag: u8, list: &[u8; 24]) -> [u8; 56] {
    let mut message = [0u8; 56];
    message[0] = 0x02;
    message[3] = tag;
    message[11] = 24;
    message[19] = 24;
    message[32..].copy_from_slice(list);
    message
}

/// The DATA OUT of a list without a descriptor.
fn header_out(tag: u8) -> [u8; 40] {
    let mut message = [0u8; 40];
    message[0] = 0x02;
    message[3] = tag;
    message[11] = 8;
    message[19] = 8;
    message[33] = 6;
    message
}

/// The journal hears an UNMAP with this list, and its answer, which is GOOD.
fn unmap(alloc: Global, journal: &mut Journal, tag: u8, list: &[u8; 24]) -> Result<(), Fail> {
    journal.hear(alloc, &command(tag, 0x42, 0, 0, 24))?;
    journal.hear(alloc, &list_out(tag, list))?;
    journal.tell(&good(tag));
    Ok(())
}

/// The journal hears an UNMAP whose list has this byte in this place.
fn unmap_with(alloc: Global, journal: &mut Journal, place: usize, byte: u8) -> Result<(), Fail> {
    let mut list = TWO_BLOCKS;
    if place < 24 {
        list[place] = byte;
    }
    unmap(alloc, journal, 1, &list)
}

/// Whether the entry makes these blocks of unit 0 zeros.
fn are_zeros(entry: Option<&Entry>, from: u32, blocks: u8) -> bool {
    match entry {
        Some(
            Entry::Accepted(
                Cmd::Zero {
                    unit,
                    address,
                    count,
                },
            ),
        ) => *unit == 0 && *address == from && *count == blocks,
        _ => false,
    }
}

/// An UNMAP is accepted with its list. Its GOOD does not say that it is durable, and that of a flush does.
#[test]
fn an_unmap_is_accepted_with_its_list(rt: HostRuntime) -> Result<(), Fail> {
    unmaps_are_those_accepted();
    let alloc = rt.alloc();
    let mut journal = begun(alloc)?;
    unmap(alloc, &mut journal, 1, &TWO_BLOCKS)?;
    expect_counts(&rt, &journal, 1, 0);
    assert!(rt; are_zeros(journal.entries().first(), 5, 2));
    journal.hear(alloc, &command(2, SYNCHRONIZE, 0, 0, 0))?;
    journal.tell(&good(2));
    expect_counts(&rt, &journal, 1, 1);
    // The last two blocks, and 32 of them.
    unmap_with(alloc, &mut journal, 15, 62)?;
    assert!(rt; are_zeros(journal.entries().get(1), 62, 2));
    unmap_with(alloc, &mut journal, 19, 32)?;
    assert!(rt; are_zeros(journal.entries().get(2), 5, 32));
    expect_counts(&rt, &journal, 3, 1);
    Ok(())
}

/// A list with a wrong header, a wrong descriptor, no blocks or blocks past the unit, one that has no
/// descriptor, and one on a locked device.
#[test]
fn other_lists_are_not_accepted(rt: HostRuntime) -> Result<(), Fail> {
    let alloc = rt.alloc();
    let mut journal = begun(alloc)?;
    for (place, byte) in [
        (0usize, 1u8),
        (1, 0x15),
        (3, 0x20),
        (4, 1),
        (7, 1),
        (8, 1),
        (14, 1),
        (15, 63),
        (16, 1),
        (19, 0),
        (19, 33),
        (20, 1),
        (23, 1),
    ] {
        unmap_with(alloc, &mut journal, place, byte)?;
        assert!(rt; journal.entries().is_empty(), "{place} {byte}");
    }
    journal.hear(alloc, &command(2, 0x42, 0, 0, 8))?;
    journal.hear(alloc, &header_out(2))?;
    journal.lock();
    unmap(alloc, &mut journal, 3, &TWO_BLOCKS)?;
    expect_counts(&rt, &journal, 0, 0);
    Ok(())
}

/// A TASK MANAGEMENT REQUEST for this LUN and the task with this tag (JESD220, 10.7.6).
fn manage(function: u8, lun: u8, meant: u8) -> [u8; 32] {
    let mut message = [0u8; 32];
    message[0] = 0x04;
    message[2] = lun;
    message[3] = 0x77;
    message[5] = function;
    message[15] = lun;
    message[19] = meant;
    message
}

/// The functions that abort the task 1 of unit 0, and those that leave it: its data are accepted then.
#[test]
fn an_aborted_write_is_not_accepted(rt: HostRuntime) -> Result<(), Fail> {
    let alloc = rt.alloc();
    for (function, lun, meant, is_aborted) in [
        (0x01u8, 0u8, 1u8, true),
        (0x02, 0, 9, true),
        (0x04, 0, 9, true),
        (0x08, 0, 9, true),
        (0x01, 0, 2, false),
        (0x01, 1, 1, false),
        (0x08, 1, 1, false),
        (0x80, 0, 1, false),
        (0x81, 0, 1, false),
        (0x10, 0, 1, false),
    ] {
        let mut journal = begun(alloc)?;
        journal.hear(alloc, &command(1, WRITE, FUA, 3, 1))?;
        journal.hear(alloc, &manage(function, lun, meant))?;
        journal.hear(alloc, &block_out(1, 0, 0x11))?;
        assert!(rt; journal.entries().is_empty() == is_aborted, "{function}");
    }
    Ok(())
}

/// What an aborted command had accepted stays accepted, and no later answer under its tag holds it. A setting
/// is aborted by nothing.
#[test]
fn an_abort_takes_nothing_back(rt: HostRuntime) -> Result<(), Fail> {
    let alloc = rt.alloc();
    let mut journal = begun(alloc)?;
    journal.hear(alloc, &command(1, WRITE, FUA, 3, 1))?;
    journal.hear(alloc, &block_out(1, 0, 0x11))?;
    let mut set_boot = [0u8; 32];
    set_boot[0] = 0x16;
    set_boot[3] = 2;
    set_boot[5] = 0x81;
    set_boot[12] = 0x04;
    set_boot[23] = 1;
    journal.hear(alloc, &set_boot)?;
    journal.hear(alloc, &manage(0x08, 0, 0))?;
    journal.tell(&good(1));
    expect_counts(&rt, &journal, 2, 0);
    let mut answer = set_boot;
    answer[0] = 0x36;
    journal.tell(&answer);
    expect_counts(&rt, &journal, 2, 2);
    assert!(rt;
        matches!(
            journal.entries().get(1),
            Some(Entry::Accepted(Cmd::SetBoot(1)))
        )
    );
    Ok(())
}
