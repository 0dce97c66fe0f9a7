//! What a journal takes from queries and their answers, and the comparison of the settings that were
//! found.
use crate::journals::{NEW_REGION, first_region};
use geometry::Config;
use journal::{
    Entry, FoundRest, Journal, Setting, device_holding, is_kept, settings_pass_the_table,
};
use row_messages::messages::{FUA, SYNCHRONIZE, WRITE, block_out, command, good};
use std::alloc::Global;
use std::process::Abort;
use std::test::Fail;
use ufs_spec::{Block, Cmd, PlainDevice, UnitSpec, commands_keep_the_shape};

/// A QUERY REQUEST with this function, opcode and IDN, and this value.
fn query(tag: u8, function: u8, opcode: u8, idn: u8, value: u8) -> [u8; 32] {
    let mut message = [0u8; 32];
    message[0] = 0x16;
    message[3] = tag;
    message[5] = function;
    message[12] = opcode;
    message[13] = idn;
    message[23] = value;
    message
}

/// bBootLunEn is to become this.
fn set_boot(tag: u8, boot: u8) -> [u8; 32] {
    query(tag, 0x81, 0x04, 0x00, boot)
}

/// fPermanentWPEn is to be set.
fn set_permanent(tag: u8) -> [u8; 32] {
    query(tag, 0x81, 0x06, 0x02, 0)
}

/// The QUERY RESPONSE to a setting, with this response code.
fn answer(tag: u8, code: u8) -> [u8; 32] {
    let mut message = query(tag, 0x81, 0x04, 0x00, 0);
    message[0] = 0x36;
    message[6] = code;
    message
}

/// A life begins, without a key.
fn begun(alloc: Global) -> Result<Journal, Fail> {
    Ok(Journal::new(alloc, config()?.numbers(), first_region()))
}

/// Whether it is noted that bBootLunEn became this.
fn is_boot(entry: Option<&Entry>, wanted: u8) -> bool {
    match entry {
        Some(Entry::Accepted(Cmd::SetBoot(boot))) => *boot == wanted,
        _ => false,
    }
}

/// Compares how many entries the journal has, and how many of them are held.
fn expect_counts(rt: &impl Abort, journal: &Journal, entries: usize, held: usize) {
    assert!(rt; journal.entries().len() == entries);
    assert!(rt; journal.held() == held);
}

/// A setting is in doubt until its answer. 00h acknowledges it and all that was accepted before it.
#[test]
fn an_answered_setting_is_held(rt: HostRuntime) -> Result<(), Fail> {
    settings_pass_the_table();
    let alloc = rt.alloc();
    let mut journal = begun(alloc)?;
    journal.hear(alloc, &command(1, WRITE, 0, 1, 1))?;
    journal.hear(alloc, &block_out(1, 0, 0x11))?;
    journal.hear(alloc, &set_boot(2, 1))?;
    journal.hear(alloc, &set_permanent(3))?;
    expect_counts(&rt, &journal, 3, 0);
    assert!(rt;
        matches!(
            journal.entries().get(1),
            Some(Entry::Doubted(Setting::Boot(1)))
        )
    );
    journal.tell(&answer(2, 0x00));
    expect_counts(&rt, &journal, 3, 2);
    assert!(rt; is_boot(journal.entries().get(1), 1));
    assert!(rt;
        matches!(
            journal.entries().get(2),
            Some(Entry::Doubted(Setting::Permanent))
        )
    );
    journal.tell(&answer(3, 0x00));
    expect_counts(&rt, &journal, 3, 3);
    assert!(rt;
        matches!(
            journal.entries().get(2),
            Some(Entry::Accepted(Cmd::SetPermanent))
        )
    );
    Ok(())
}

/// A refused setting is there in no prefix, and neither it nor what was accepted before it is held.
/// What is no setting, or is refused whatever the device holds, is not noted.
#[test]
fn a_refused_setting_is_none(rt: HostRuntime) -> Result<(), Fail> {
    let alloc = rt.alloc();
    let mut journal = begun(alloc)?;
    journal.hear(alloc, &query(1, 0x01, 0x03, 0x00, 0))?;
    journal.hear(alloc, &query(1, 0x81, 0x06, 0x03, 0))?;
    journal.hear(alloc, &query(1, 0x81, 0x08, 0x02, 0))?;
    journal.hear(alloc, &query(1, 0x81, 0x04, 0x01, 1))?;
    journal.hear(alloc, &query(1, 0x01, 0x04, 0x00, 1))?;
    journal.hear(alloc, &set_boot(1, 3))?;
    for place in [14usize, 15, 18, 19, 20] {
        let mut wrong = set_boot(1, 1);
        wrong[place] = 1;
        journal.hear(alloc, &wrong)?;
    }
    expect_counts(&rt, &journal, 0, 0);
    for code in [0xFFu8, 0xF8] {
        journal.hear(alloc, &set_permanent(4))?;
        journal.tell(&answer(4, code));
    }
    expect_counts(&rt, &journal, 2, 0);
    for entry in journal.entries() {
        assert!(rt; matches!(entry, Entry::Refused));
    }
    Ok(())
}

/// Once the device is locked each setting is refused. One that waited then is answered FFh too, and stays
/// in doubt, unless it was durable before.
#[test]
fn a_lock_leaves_a_setting_in_doubt(rt: HostRuntime) -> Result<(), Fail> {
    let alloc = rt.alloc();
    let mut journal = begun(alloc)?;
    journal.hear(alloc, &set_boot(1, 1))?;
    journal.hear(alloc, &set_boot(2, 2))?;
    journal.lock();
    journal.hear(alloc, &set_permanent(3))?;
    journal.tell(&answer(3, 0xFF));
    journal.tell(&answer(2, 0xFF));
    journal.tell(&answer(1, 0x00));
    expect_counts(&rt, &journal, 2, 1);
    assert!(rt; is_boot(journal.entries().first(), 1));
    assert!(rt;
        matches!(
            journal.entries().get(1),
            Some(Entry::Doubted(Setting::Boot(2)))
        )
    );
    Ok(())
}

/// A flush holds the settings that were accepted before its COMMAND, and a write with FUA those before
/// its data. A RESPONSE is no answer to a setting, and a QUERY RESPONSE none to a write.
#[test]
fn other_answers_hold_the_settings_before_them(rt: HostRuntime) -> Result<(), Fail> {
    let alloc = rt.alloc();
    let mut journal = begun(alloc)?;
    journal.hear(alloc, &set_boot(1, 1))?;
    journal.hear(alloc, &command(2, SYNCHRONIZE, 0, 0, 0))?;
    journal.hear(alloc, &command(3, WRITE, FUA, 1, 1))?;
    journal.hear(alloc, &block_out(3, 0, 0x11))?;
    journal.hear(alloc, &set_permanent(4))?;
    expect_counts(&rt, &journal, 3, 0);
    journal.tell(&good(2));
    expect_counts(&rt, &journal, 3, 1);
    journal.tell(&good(4));
    journal.tell(&answer(3, 0x00));
    expect_counts(&rt, &journal, 3, 1);
    assert!(rt;
        matches!(
            journal.entries().get(2),
            Some(Entry::Doubted(Setting::Permanent))
        )
    );
    Ok(())
}

/// One unit of one block.
fn config() -> Result<Config, Fail> {
    let units = [UnitSpec {
        blocks: 1,
        boot: 0,
        protect: 0,
    }];
    Ok(Config::new(2, 32, 64, &units, [1, 0, 0, 0], 64, 4)?)
}

/// The unit's block, of such bytes.
fn units(alloc: Global, byte: u8) -> Result<Vec<Vec<Block>>, Fail> {
    let mut blocks = Vec::new(alloc);
    blocks.push([byte; 4096])?;
    let mut all = Vec::new(alloc);
    all.push(blocks)?;
    Ok(all)
}

/// These settings, and regions with which nothing was done.
fn rest_with(boot: u8, is_permanent: bool) -> FoundRest<'static> {
    FoundRest {
        boot,
        is_permanent,
        regions: [NEW_REGION; 4],
    }
}

/// A setting, then a write of a block of bytes 11h, and then fPermanentWPEn is set.
fn around_a_write(alloc: Global, setting: Entry) -> Result<Vec<Entry>, Fail> {
    let mut entries = Vec::new(alloc);
    entries.push(setting)?;
    entries.push(Entry::Accepted(Cmd::Write {
        unit: 0,
        address: 0,
        blocks: [[0x11; 4096]].to_vec(alloc)?,
    }))?;
    entries.push(Entry::Accepted(Cmd::SetPermanent))?;
    Ok(entries)
}

/// Whether the block and the settings are those of a prefix with so many entries held.
fn keeps(
    alloc: Global,
    entries: &[Entry],
    held: usize,
    byte: u8,
    rest: &FoundRest<'_>,
) -> Result<bool, Fail> {
    let config = config()?;
    commands_keep_the_shape();
    let base = PlainDevice::new(alloc, config.numbers())?;
    let found = units(alloc, byte)?;
    Ok(is_kept(
        config.numbers(),
        base,
        entries,
        held,
        found.as_slice(),
        rest,
    ))
}

/// Both settings come in the order of the commands: what comes after a setting is not there without
/// it.
#[test]
fn settings_are_kept_in_order(rt: HostRuntime) -> Result<(), Fail> {
    let alloc = rt.alloc();
    let entries = around_a_write(alloc, Entry::Accepted(Cmd::SetBoot(1)))?;
    let entries = entries.as_slice();
    for held in 0..4usize {
        assert!(rt; keeps(alloc, entries, held, 0, &rest_with(0, false))? == (held == 0));
        assert!(rt; keeps(alloc, entries, held, 0, &rest_with(1, false))? == (held < 2));
        assert!(rt; keeps(alloc, entries, held, 0x11, &rest_with(1, false))? == (held < 3));
        assert!(rt; keeps(alloc, entries, held, 0x11, &rest_with(1, true))?);
    }
    assert!(rt; !keeps(alloc, entries, 0, 0x11, &rest_with(0, false))?);
    assert!(rt; !keeps(alloc, entries, 0, 0x11, &rest_with(2, true))?);
    assert!(rt; !keeps(alloc, entries, 0, 0, &rest_with(1, true))?);
    Ok(())
}

/// A setting in doubt is there or not in each prefix behind it, and a refused one in none.
#[test]
fn a_setting_in_doubt_may_be_missing(rt: HostRuntime) -> Result<(), Fail> {
    let alloc = rt.alloc();
    let doubted = around_a_write(alloc, Entry::Doubted(Setting::Boot(1)))?;
    let refused = around_a_write(alloc, Entry::Refused)?;
    for boot in 0..3u8 {
        let rest = rest_with(boot, true);
        assert!(rt; keeps(alloc, doubted.as_slice(), 3, 0x11, &rest)? == (boot < 2));
        assert!(rt; keeps(alloc, refused.as_slice(), 0, 0x11, &rest)? == (boot == 0));
    }
    let permanent = around_a_write(alloc, Entry::Doubted(Setting::Permanent))?;
    for held in 0..3usize {
        for is_permanent in [false, true] {
            let rest = rest_with(0, is_permanent);
            assert!(rt; keeps(alloc, permanent.as_slice(), held, 0x11, &rest)?);
        }
    }
    assert!(rt; !keeps(alloc, permanent.as_slice(), 3, 0x11, &rest_with(0, false))?);
    Ok(())
}

/// A life begins over settings that were found, if the boot setting is one.
#[test]
fn a_life_begins_over_settings(rt: HostRuntime) -> Result<(), Fail> {
    let alloc = rt.alloc();
    let config = config()?;
    let found = units(alloc, 0x11)?;
    let found = found.as_slice();
    for boot in 0..4u8 {
        let rest = rest_with(boot, true);
        match device_holding(alloc, config.numbers(), found, &rest)? {
            Some(base) => {
                assert!(rt; is_kept(config.numbers(), base, &[], 0, found, &rest));
            }
            None => {
                assert!(rt; boot == 3);
            }
        }
    }
    Ok(())
}
