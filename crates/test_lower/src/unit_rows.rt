//! Units and what is told of them, as worked by hand, over the configuration of the worked rows: the
//! bytes are those of SPC, and the LUN bytes those of JESD220, 10.8.5.
use lun_route::{
    Lun, device_type, has_page, inquiry_bytes, is_passing, luns_bytes, route_of, units_listed,
};
use row_messages::row_config;
use scsi_cdb::row_of;
use std::test::Fail;
use ufs_spec::{Row, Sense};

/// READ(10), SYNCHRONIZE CACHE(10), and UNMAP.
const READ: u8 = 0x28;

const SYNCHRONIZE: u8 = 0x35;

const UNMAP: u8 = 0x42;

/// REQUEST SENSE, INQUIRY, and REPORT LUNS.
const REQUEST_SENSE: u8 = 0x03;

const INQUIRY: u8 = 0x12;

const REPORT_LUNS: u8 = 0xA0;

/// The row of the command with this operation code.
fn row(operation: u8) -> Option<Row> {
    let mut bytes = [0; 16];
    bytes[0] = operation;
    row_of(&bytes)
}

/// INQUIRY tells 36 bytes, and of a well-known unit another device type.
#[test]
fn inquiry_tells_what_a_unit_is(rt: HostRuntime) {
    let told = [
        0x00, 0x00, 0x06, 0x02, 0x1F, 0x00, 0x00, 0x02, 0x50, 0x52, 0x4F, 0x46, 0x49, 0x4C, 0x45,
        0x20, 0x55, 0x46, 0x53, 0x20, 0x50, 0x52, 0x4F, 0x46, 0x49, 0x4C, 0x45, 0x20, 0x32, 0x2E,
        0x31, 0x20, 0x30, 0x30, 0x30, 0x31,
    ];
    assert!(rt; inquiry_bytes(device_type(7)) == told);
    assert!(rt; inquiry_bytes(device_type(0xD0))[0] == 0x1E);
    assert!(rt; inquiry_bytes(0x7F)[0] == 0x7F);
}

/// REPORT LUNS lists three units, four well-known ones, or all seven.
#[test]
fn units_are_listed(rt: HostRuntime) -> Result<(), Fail> {
    let config = row_config()?;
    let numbers = config.numbers();
    let names = [
        [0x00, 0x00],
        [0x00, 0x01],
        [0x00, 0x02],
        [0xC1, 0x01],
        [0xC1, 0x30],
        [0xC1, 0x44],
        [0xC1, 0x50],
    ];
    let mut all = [0; 64];
    all[3] = 0x38;
    for place in 0..7usize {
        all[8 + 8 * place] = names[place][0];
        all[9 + 8 * place] = names[place][1];
    }
    assert!(rt; luns_bytes(numbers, 2).as_slice() == &all[..]);
    assert!(rt; units_listed(numbers, 2) == 7);
    let units = luns_bytes(numbers, 0);
    assert!(rt; units.as_slice()[..4] == [0, 0, 0, 0x18]);
    assert!(rt; units.as_slice()[8..] == all[8..32]);
    let others = luns_bytes(numbers, 1);
    assert!(rt; others.as_slice()[..4] == [0, 0, 0, 0x20]);
    assert!(rt; others.as_slice()[8..] == all[32..]);
    Ok(())
}

/// The boot setting says whose blocks are read on B0h; without a boot unit there are none.
#[test]
fn the_boot_setting_names_a_unit(rt: HostRuntime) -> Result<(), Fail> {
    let config = row_config()?;
    let numbers = config.numbers();
    for boot in 1..3u8 {
        let route = route_of(numbers, boot, 0xB0, row(READ));
        assert!(rt; matches!(route, Ok(route) if route.unit == Some(boot)));
    }
    assert!(rt; matches!(route_of(numbers, 0, 0xB0, row(READ)), Err(Sense::NO_UNIT)));
    assert!(rt; matches!(route_of(numbers, 0, 3, row(READ)), Err(Sense::NO_UNIT)));
    let device = route_of(numbers, 0, 0xD0, row(READ));
    assert!(rt; matches!(device, Ok(route) if !route.takes(numbers, row(READ))));
    assert!(rt; matches!(device, Ok(route) if route.takes(numbers, row(SYNCHRONIZE))));
    assert!(rt; matches!(device, Ok(route) if matches!(route.lun, Some(Lun::Device))));
    Ok(())
}

/// UNMAP is for the units of the configuration alone, not for the unit that boots on B0h.
#[test]
fn units_of_the_configuration_take_unmap(rt: HostRuntime) -> Result<(), Fail> {
    let config = row_config()?;
    let numbers = config.numbers();
    for unit in 0..3u8 {
        let route = route_of(numbers, 0, unit, row(UNMAP));
        assert!(rt; matches!(route, Ok(route) if route.unit == Some(unit)));
        assert!(rt; matches!(route, Ok(route) if route.takes(numbers, row(UNMAP))));
    }
    assert!(rt; matches!(route_of(numbers, 0, 3, row(UNMAP)), Err(Sense::NO_UNIT)));
    for byte in [0x81u8, 0xB0, 0xC4, 0xD0] {
        let route = route_of(numbers, 1, byte, row(UNMAP));
        assert!(rt; matches!(route, Ok(route) if !route.takes(numbers, row(UNMAP))));
    }
    Ok(())
}

/// A device of profile 1 answers INQUIRY and REQUEST SENSE also where there is no such LUN.
#[test]
fn luns_that_are_not_there_are_told(rt: HostRuntime) -> Result<(), Fail> {
    let config = row_config()?;
    let refused = route_of(config.numbers(), 0, 3, row(INQUIRY));
    assert!(rt; matches!(refused, Err(Sense::NO_UNIT)));
    let config = config.with_profile(1, 1)?;
    let numbers = config.numbers();
    for operation in [REQUEST_SENSE, INQUIRY] {
        let route = route_of(numbers, 0, 3, row(operation));
        assert!(rt; matches!(route, Ok(route) if route.lun.is_none() && route.unit.is_none()));
        assert!(rt; matches!(route, Ok(route) if route.attention_place().is_none()));
    }
    let refused = route_of(numbers, 0, 3, row(REPORT_LUNS));
    assert!(rt; matches!(refused, Err(Sense::NO_UNIT)));
    assert!(rt; has_page(numbers, 2, 0xB0));
    assert!(rt; has_page(numbers, 0xD0, 0x83));
    assert!(rt; !has_page(numbers, 0xD0, 0xB0));
    assert!(rt; !has_page(numbers, 3, 0x00));
    Ok(())
}

/// The attentions of the units stand first, and then those of the well-known units; three commands do
/// not meet them.
#[test]
fn attentions_have_places(rt: HostRuntime) -> Result<(), Fail> {
    let config = row_config()?;
    let numbers = config.numbers();
    for (byte, place) in [(2u8, 2usize), (0x81, 8), (0xB0, 9), (0xC4, 10), (0xD0, 11)] {
        let route = route_of(numbers, 0, byte, row(INQUIRY));
        assert!(rt; matches!(route, Ok(route) if route.attention_place() == Some(place)));
    }
    for operation in [REQUEST_SENSE, INQUIRY, REPORT_LUNS] {
        assert!(rt; is_passing(row(operation)));
    }
    assert!(rt; !is_passing(row(READ)));
    assert!(rt; !is_passing(None));
    Ok(())
}
