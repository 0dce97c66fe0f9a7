//! Configurations with RPMB regions of different sizes, the keys of their areas, and the CDBs that name
//! a region.
use crate::crates_once::is_refused;
use geometry::{Config, key_at, key_count, key_index, settings_index};
use std::test::Fail;
use ufs_spec::{Cdb, ConfigFault, Key, PlainDevice, Sense, Tag, UnitSpec};

/// The dies and units of the worked rows, with areas of so many steps, and so many spare blocks.
fn config_of(rpmb: [u8; 4], spare: u16) -> Result<Config, ConfigFault> {
    let unit = UnitSpec {
        blocks: 256,
        boot: 0,
        protect: 0,
    };
    let small = UnitSpec { blocks: 64, ..unit };
    Config::new(4, 16, 64, &[unit, small, small], rpmb, 64, spare)
}

fn has_range_fault(rpmb: [u8; 4]) -> bool {
    matches!(config_of(rpmb, 4), Err(ConfigFault::Range))
}

fn area_key(region: u8, page: u32) -> Key {
    Key {
        kind: Tag::RPMB_AREA,
        unit: region,
        address: page,
    }
}

/// The key at an index, if there are so many.
fn key_there(config: &Config, index: usize) -> Option<Key> {
    if index < key_count(config.numbers()) {
        Some(key_at(config.numbers(), index))
    } else {
        None
    }
}

/// Region 0 has a step, and no region more than eight.
#[test]
fn region_sizes_have_their_ranges(rt: HostRuntime) -> Result<(), Fail> {
    assert!(rt; has_range_fault([0, 0, 0, 0]));
    assert!(rt; has_range_fault([0, 1, 1, 1]));
    assert!(rt; has_range_fault([9, 0, 0, 0]));
    assert!(rt; has_range_fault([1, 9, 0, 0]));
    assert!(rt; has_range_fault([1, 0, 9, 0]));
    assert!(rt; has_range_fault([1, 0, 0, 255]));
    let config = config_of([1, 0, 0, 8], 4)?;
    assert!(rt; config.numbers().rpmb == [1, 0, 0, 8]);
    // 384 blocks, 32 times 32 pages, 2 and 4 times 64 pages take 27 blocks of 64, and 24 are left free.
    let full = config_of([8, 8, 8, 8], 13)?;
    assert!(rt; full.numbers().rpmb == [8, 8, 8, 8]);
    assert!(rt;
        matches!(
            config_of([8, 8, 8, 8], 14),
            Err(ConfigFault::TooLittleSpare)
        )
    );
    Ok(())
}

/// Of 64 blocks those of the pages that are kept are needed, and 24 more. One region of a step makes 418
/// pages, with 256 for the slots 674: 11 blocks. Two regions make 450, with these 706: 12 blocks.
#[test]
fn each_region_needs_its_room(rt: HostRuntime) -> Result<(), Fail> {
    let one = config_of([1, 0, 0, 0], 29)?;
    assert!(rt; one.numbers().spare == 29);
    let two = config_of([1, 1, 0, 0], 28)?;
    assert!(rt; two.numbers().spare == 28);
    for rpmb in [[1, 1, 0, 0], [1, 0, 1, 0], [1, 0, 0, 1], [2, 0, 0, 0]] {
        assert!(rt; matches!(config_of(rpmb, 29), Err(ConfigFault::TooLittleSpare)));
    }
    Ok(())
}

/// The pages of the areas stand behind 384 blocks: 32 of region 0, none of region 1, 64 of region 2 and
/// 256 of region 3. The settings are behind them.
#[test]
fn keys_of_regions_stand_behind_one_another(rt: HostRuntime) -> Result<(), Fail> {
    let config = config_of([1, 0, 2, 8], 4)?;
    let pages = [
        (0, 0, Some(384)),
        (0, 31, Some(415)),
        (0, 32, None),
        (1, 0, None),
        (2, 0, Some(416)),
        (2, 63, Some(479)),
        (2, 64, None),
        (3, 0, Some(480)),
        (3, 255, Some(735)),
        (3, 256, None),
        (4, 0, None),
    ];
    for (region, page, index) in pages {
        let key = area_key(region, page);
        assert!(rt; key_index(config.numbers(), key) == index);
        if let Some(index) = index {
            assert!(rt; key_there(&config, index) == Some(key));
        }
    }
    assert!(rt; settings_index(config.numbers()) == 736);
    let settings = Key {
        kind: Tag::SETTINGS,
        unit: 0,
        address: 0,
    };
    assert!(rt; key_there(&config, 736) == Some(settings));
    assert!(rt; key_count(config.numbers()) == 737);
    Ok(())
}

/// The area of a region has 128 KiB a step, and no byte where the region is not there.
#[test]
fn areas_are_as_long_as_their_steps_say(rt: HostRuntime) -> Result<(), Fail> {
    let config = config_of([1, 0, 2, 0], 4)?;
    let plain = PlainDevice::new(rt.alloc(), config.numbers())?;
    assert!(rt; plain.area(0).len() == 131_072);
    assert!(rt; plain.area(1).is_empty());
    assert!(rt; plain.area(2).len() == 262_144);
    assert!(rt; plain.area(3).is_empty());
    Ok(())
}

/// The specific field of the protocol ECh, bytes 2 and 3, is the number of a region and 01h (JESD220,
/// 12.4). Four regions are numbered.
#[test]
fn cdbs_name_one_of_four_regions(rt: HostRuntime) {
    let mut sent = [0xB5, 0xEC, 0, 1, 0, 0, 0, 0, 2, 0, 0, 0, 0, 0, 0, 0];
    for number in 0..4u8 {
        sent[2] = number;
        let command = Cdb::SecurityOut {
            region: number,
            length: 512,
        };
        assert!(rt; matches!(scsi_cdb::read(&sent), Ok(cdb) if cdb == command));
    }
    for number in [4, 5, 255] {
        sent[2] = number;
        assert!(rt; is_refused(&sent, Sense::INVALID_FIELD));
    }
    let asked = [0xA2, 0xEC, 2, 1, 0, 0, 0, 0, 4, 0, 0, 0, 0, 0, 0, 0];
    let command = Cdb::SecurityIn {
        region: 2,
        length: 1024,
    };
    assert!(rt; scsi_cdb::bytes_of(&command) == asked);
    for code in [0, 2] {
        let mut other = asked;
        other[3] = code;
        assert!(rt; is_refused(&other, Sense::INVALID_FIELD));
    }
}
