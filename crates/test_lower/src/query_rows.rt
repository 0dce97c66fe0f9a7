//! Queries and their answers as worked by hand, over the configuration of the worked rows: offsets
//! and codes are those of JESD220, 10.7.9 and 14.1.4.
use descriptors::{
    Descriptor, QueryAnswer, QueryRequest, QuerySettings, Setting, answer,
    configuration_descriptor, descriptor_told, device_descriptor, rpmb_descriptor, unit_descriptor,
};
use row_messages::row_config;
use std::test::Fail;
use ufs_spec::{Asked, Numbers, Volatile};

/// The settings of a new device.
const NEW: QuerySettings = QuerySettings {
    boot: 0,
    is_permanent: false,
    volatile: Volatile::NEW,
    is_mended: true,
};

/// A query with this opcode, IDN, index and length, and this value; its selector is 0.
fn query(opcode: u8, idn: u8, index: u8, length: u16, value: u32) -> QueryRequest {
    let is_read = matches!(opcode, 1 | 3 | 5);
    QueryRequest {
        function: if is_read { 0x01 } else { 0x81 },
        asked: Asked {
            opcode,
            idn,
            index,
            selector: 0,
        },
        length,
        value,
    }
}

/// The response code of the answer on a new device; `None` if it is more than a code.
fn code(numbers: &Numbers, query: &QueryRequest) -> Option<u8> {
    match answer(numbers, NEW, true, query) {
        QueryAnswer::Code(code) => Some(code.byte()),
        _ => None,
    }
}

/// The bytes that are told on a new device, none if nothing is told.
fn bytes_told(numbers: &Numbers, query: &QueryRequest) -> Descriptor {
    match answer(numbers, NEW, true, query) {
        QueryAnswer::Told(_) => descriptor_told(numbers, query.asked, query.length),
        _ => Descriptor::new(),
    }
}

/// The device descriptor, and that of unit 1, of which 35 bytes are read and then 3.
#[test]
fn descriptors_are_told(rt: HostRuntime) -> Result<(), Fail> {
    let config = row_config()?;
    let numbers = config.numbers();
    let mut device = [0; 64];
    device[..18].copy_from_slice(&[
        0x40, 0, 0, 0, 0, 0, 3, 4, 1, 1, 0, 0, 0, 1, 0, 0, 0x02, 0x10,
    ]);
    assert!(rt; device_descriptor(numbers) == device);
    let unit = [
        0x23, 0x02, 0x01, 0x01, 0x01, 0, 0, 0, 0, 0x01, 0x0C, 0, 0, 0, 0, 0, 0, 0, 0x40, 0, 0, 0,
        0x01, 0x03, 0, 0, 0, 0, 0, 0, 0, 0x40, 0, 0, 0,
    ];
    assert!(rt; unit_descriptor(1, &numbers.units.as_slice()[1]) == unit);
    assert!(rt; bytes_told(numbers, &query(1, 2, 1, 0x23, 0)).as_slice() == &unit[..]);
    assert!(rt; bytes_told(numbers, &query(1, 2, 1, 3, 0)).as_slice() == &unit[..3]);
    Ok(())
}

/// Each line of the table refuses a query.
#[test]
fn queries_are_refused(rt: HostRuntime) -> Result<(), Fail> {
    let config = row_config()?;
    let numbers = config.numbers();
    assert!(rt; code(numbers, &query(9, 0, 0, 0, 0)) == Some(0xFE));
    assert!(rt; code(numbers, &query(0, 0, 0, 0, 0)) == Some(0x00));
    assert!(rt; code(numbers, &query(1, 1, 0, 64, 0)) == Some(0xFD));
    assert!(rt; code(numbers, &query(1, 2, 3, 35, 0)) == Some(0xFC));
    assert!(rt; code(numbers, &query(7, 2, 0, 0, 0)) == Some(0xF7));
    assert!(rt; code(numbers, &query(1, 0, 0, 0, 0)) == Some(0xF9));
    assert!(rt; code(numbers, &query(4, 0, 0, 0, 3)) == Some(0xFA));
    let set = QuerySettings {
        is_permanent: true,
        ..NEW
    };
    let again = answer(numbers, set, true, &query(6, 2, 0, 0, 0));
    assert!(rt; matches!(again, QueryAnswer::Code(code) if code.byte() == 0xF8));
    let shut = answer(numbers, NEW, false, &query(4, 0, 0, 0, 2));
    assert!(rt; matches!(shut, QueryAnswer::Code(code) if code.byte() == 0xFF));
    Ok(())
}

/// Settings wait to be accepted; fPowerOnWPEn is set at once, and told as it is then.
#[test]
fn settings_are_told_apart(rt: HostRuntime) -> Result<(), Fail> {
    let config = row_config()?;
    let numbers = config.numbers();
    let boot = answer(numbers, NEW, true, &query(4, 0, 0, 0, 2));
    assert!(rt; matches!(boot, QueryAnswer::Setting(Setting::Boot(2))));
    assert!(rt; Setting::Boot(2).value() == 2);
    let permanent = answer(numbers, NEW, true, &query(6, 2, 0, 0, 0));
    assert!(rt; matches!(permanent, QueryAnswer::Setting(Setting::Permanent)));
    let power_on = answer(numbers, NEW, true, &query(6, 3, 0, 0, 0));
    assert!(rt;
        matches!(&power_on, QueryAnswer::Told(told) if told.volatile.power_on && told.value == 1)
    );
    Ok(())
}

/// In profile 1 fDeviceInit is 1 from when it is set until the device is mended; in profile 0 it is 0.
#[test]
fn a_device_is_initialized_until_it_is_mended(rt: HostRuntime) -> Result<(), Fail> {
    let config = row_config()?;
    let unmended = QuerySettings {
        is_mended: false,
        ..NEW
    };
    let plain = answer(config.numbers(), unmended, true, &query(6, 1, 0, 0, 0));
    assert!(rt; matches!(&plain, QueryAnswer::Told(told) if told.value == 0));
    let config = config.with_profile(1, 1)?;
    let numbers = config.numbers();
    let unset = answer(numbers, unmended, true, &query(5, 1, 0, 0, 0));
    assert!(rt; matches!(&unset, QueryAnswer::Told(told) if told.value == 0));
    let at_once = answer(numbers, NEW, true, &query(6, 1, 0, 0, 0));
    assert!(rt; matches!(&at_once, QueryAnswer::Told(told) if told.value == 0));
    let set = answer(numbers, unmended, true, &query(6, 1, 0, 0, 0));
    assert!(rt;
        matches!(&set, QueryAnswer::Told(told) if told.volatile.initializing && told.value == 1)
    );
    let initializing = QuerySettings {
        volatile: Volatile {
            initializing: true,
            ..Volatile::NEW
        },
        ..unmended
    };
    let still = answer(numbers, initializing, true, &query(5, 1, 0, 0, 0));
    assert!(rt; matches!(&still, QueryAnswer::Told(told) if told.value == 1));
    let mended = QuerySettings {
        is_mended: true,
        ..initializing
    };
    let done = answer(numbers, mended, true, &query(5, 1, 0, 0, 0));
    assert!(rt;
        matches!(&done, QueryAnswer::Told(told) if !told.volatile.initializing && told.value == 0)
    );
    Ok(())
}

/// The query with this selector.
fn selected(selector: u8, query: &QueryRequest) -> QueryRequest {
    QueryRequest {
        asked: Asked {
            selector,
            ..query.asked
        },
        ..*query
    }
}

/// The value that is told with these settings; `None` if the query is refused or is a setting.
fn value_of(numbers: &Numbers, settings: QuerySettings, query: &QueryRequest) -> Option<u32> {
    match answer(numbers, settings, true, query) {
        QueryAnswer::Told(told) => Some(told.value),
        _ => None,
    }
}

/// The settings behind a query on a new device of these numbers.
fn after(numbers: &Numbers, query: &QueryRequest) -> QuerySettings {
    match answer(numbers, NEW, true, query) {
        QueryAnswer::Told(told) => QuerySettings {
            volatile: told.volatile,
            ..NEW
        },
        _ => NEW,
    }
}

/// The configuration descriptor of three units, of which unit 1 is A and unit 2 is B.
#[test]
fn the_configuration_is_told(rt: HostRuntime) -> Result<(), Fail> {
    let config = row_config()?.with_profile(1, 1)?;
    let numbers = config.numbers();
    let mut bytes = [0; 144];
    bytes[..7].copy_from_slice(&[0x90, 0x01, 0, 0x01, 0x01, 0x01, 0x7F]);
    bytes[16..27].copy_from_slice(&[0x01, 0, 0, 0, 0, 0, 0x01, 0, 0x01, 0x0C, 0x03]);
    bytes[32..43].copy_from_slice(&[0x01, 0x01, 0, 0, 0, 0, 0, 0x40, 0x01, 0x0C, 0x03]);
    bytes[48..59].copy_from_slice(&[0x01, 0x02, 0, 0, 0, 0, 0, 0x40, 0x01, 0x0C, 0x03]);
    assert!(rt; configuration_descriptor(numbers).as_slice() == &bytes[..]);
    assert!(rt; bytes_told(numbers, &query(1, 1, 0, 0xFF, 0)).as_slice() == &bytes[..]);
    assert!(rt; bytes_told(numbers, &query(1, 1, 0, 17, 0)).as_slice() == &bytes[..17]);
    Ok(())
}

/// The descriptors of a unit that is not there and of the RPMB unit, which has 512 frames.
#[test]
fn absent_and_rpmb_units_are_told(rt: HostRuntime) -> Result<(), Fail> {
    let config = row_config()?.with_profile(1, 1)?;
    let numbers = config.numbers();
    let absent = [
        0x23, 0x02, 0x07, 0, 0, 0, 0, 0, 0, 0x01, 0x0C, 0, 0, 0, 0, 0, 0, 0, 0, 0, 0, 0, 0x01,
        0x03, 0, 0, 0, 0, 0, 0, 0, 0, 0, 0, 0,
    ];
    assert!(rt; bytes_told(numbers, &query(1, 2, 7, 0xFF, 0)).as_slice() == &absent[..]);
    let rpmb = [
        0x23, 0x02, 0xC4, 0x01, 0, 0, 0x01, 0, 0x0F, 0, 0x08, 0, 0, 0, 0, 0, 0, 0x02, 0, 0, 0, 0,
        0, 0, 0, 0, 0, 0, 0, 0, 0x02, 0, 0, 0, 0,
    ];
    assert!(rt; rpmb_descriptor(numbers) == rpmb);
    assert!(rt; bytes_told(numbers, &query(1, 2, 0xC4, 0xFF, 0)).as_slice() == &rpmb[..]);
    Ok(())
}

/// The interconnect, the power parameters, and the five strings, the third of which is the serial
/// number 0123456789ABCDEFh.
#[test]
fn strings_link_and_power_are_told(rt: HostRuntime) -> Result<(), Fail> {
    let config = row_config()?.with_profile(1, 0x0123_4567_89AB_CDEF)?;
    let numbers = config.numbers();
    let link = [0x06, 0x04, 0x01, 0x60, 0x03, 0x00];
    assert!(rt; bytes_told(numbers, &query(1, 4, 0, 0xFF, 0)).as_slice() == &link[..]);
    let mut power = [0; 98];
    power[..2].copy_from_slice(&[0x62, 0x08]);
    assert!(rt; bytes_told(numbers, &query(1, 8, 0, 0xFF, 0)).as_slice() == &power[..]);
    let maker = b"\x12\x05\0P\0R\0O\0F\0I\0L\0E\0 ";
    assert!(rt; bytes_told(numbers, &query(1, 5, 1, 0xFF, 0)).as_slice() == &maker[..]);
    let product = b"\x22\x05\0U\0F\0S\0 \0P\0R\0O\0F\0I\0L\0E\0 \x002\0.\x001\0 ";
    assert!(rt; bytes_told(numbers, &query(1, 5, 2, 0xFF, 0)).as_slice() == &product[..]);
    let serial = [
        0x22, 0x05, 0, 0x30, 0, 0x31, 0, 0x32, 0, 0x33, 0, 0x34, 0, 0x35, 0, 0x36, 0, 0x37, 0,
        0x38, 0, 0x39, 0, 0x61, 0, 0x62, 0, 0x63, 0, 0x64, 0, 0x65, 0, 0x66,
    ];
    assert!(rt; bytes_told(numbers, &query(1, 5, 3, 0xFF, 0)).as_slice() == &serial[..]);
    assert!(rt; bytes_told(numbers, &query(1, 5, 4, 0xFF, 0)).as_slice() == &maker[..]);
    let revision = [0x0A, 0x05, 0, 0x30, 0, 0x30, 0, 0x30, 0, 0x31];
    assert!(rt; bytes_told(numbers, &query(1, 5, 5, 0xFF, 0)).as_slice() == &revision[..]);
    assert!(rt; bytes_told(numbers, &query(1, 5, 5, 5, 0)).as_slice() == &revision[..5]);
    Ok(())
}

/// What is reserved, and what names none of several, is refused in profile 1.
#[test]
fn what_is_not_there_is_refused(rt: HostRuntime) -> Result<(), Fail> {
    let config = row_config()?.with_profile(1, 1)?;
    let numbers = config.numbers();
    // Descriptors 03h and 06h, attributes 01h and 17h, flags 00h and 07h.
    assert!(rt; code(numbers, &query(1, 3, 0, 35, 0)) == Some(0xFD));
    assert!(rt; code(numbers, &query(1, 6, 0, 35, 0)) == Some(0xFD));
    assert!(rt; code(numbers, &query(3, 0x01, 0, 0, 0)) == Some(0xFD));
    assert!(rt; code(numbers, &query(3, 0x17, 0, 0, 0)) == Some(0xFD));
    assert!(rt; code(numbers, &query(5, 0x00, 0, 0, 0)) == Some(0xFD));
    assert!(rt; code(numbers, &query(6, 0x07, 0, 0, 0)) == Some(0xFD));
    // A second configuration; units 8 and C5h; strings 0 and 6; attributes of unit 3.
    assert!(rt; code(numbers, &query(1, 1, 1, 144, 0)) == Some(0xFC));
    assert!(rt; code(numbers, &query(1, 2, 8, 35, 0)) == Some(0xFC));
    assert!(rt; code(numbers, &query(1, 2, 0xC5, 35, 0)) == Some(0xFC));
    assert!(rt; code(numbers, &query(1, 5, 0, 35, 0)) == Some(0xFC));
    assert!(rt; code(numbers, &query(1, 5, 6, 35, 0)) == Some(0xFC));
    assert!(rt; code(numbers, &query(3, 0x09, 3, 0, 0)) == Some(0xFC));
    assert!(rt; code(numbers, &selected(1, &query(3, 0x10, 3, 0, 0))) == Some(0xFC));
    // Contexts 0 and 16 of unit 2, and a selector of what has none.
    assert!(rt; code(numbers, &query(3, 0x10, 2, 0, 0)) == Some(0xFB));
    assert!(rt; code(numbers, &selected(16, &query(3, 0x10, 2, 0, 0))) == Some(0xFB));
    assert!(rt; code(numbers, &selected(1, &query(3, 0x02, 0, 0, 0))) == Some(0xFB));
    Ok(())
}

/// What is only written is not read, what is only read is not written, and a value has its bounds.
#[test]
fn what_may_not_be_done_is_refused(rt: HostRuntime) -> Result<(), Fail> {
    let config = row_config()?.with_profile(1, 1)?;
    let numbers = config.numbers();
    // dSecondsPassed and fPurgeEnable are read.
    assert!(rt; code(numbers, &query(3, 0x0F, 0, 0, 0)) == Some(0xF6));
    assert!(rt; code(numbers, &query(5, 0x06, 0, 0, 0)) == Some(0xF6));
    // The configuration, bCurrentPowerMode, dDynCapNeeded and bPSAState are written.
    assert!(rt; code(numbers, &query(2, 1, 0, 144, 0)) == Some(0xF7));
    assert!(rt; code(numbers, &query(4, 0x02, 0, 0, 0x11)) == Some(0xF7));
    assert!(rt; code(numbers, &query(4, 0x09, 2, 0, 0)) == Some(0xF7));
    assert!(rt; code(numbers, &query(4, 0x15, 0, 0, 0)) == Some(0xF7));
    // fDeviceLifeSpanModeEn is set and toggled; fPurgeEnable is set and cleared; fBusyRTC and
    // fPermanentlyDisableFwUpdate are set.
    assert!(rt; code(numbers, &query(6, 0x05, 0, 0, 0)) == Some(0xF7));
    assert!(rt; code(numbers, &query(8, 0x05, 0, 0, 0)) == Some(0xF7));
    assert!(rt; code(numbers, &query(6, 0x06, 0, 0, 0)) == Some(0xF7));
    assert!(rt; code(numbers, &query(7, 0x06, 0, 0, 0)) == Some(0xF7));
    assert!(rt; code(numbers, &query(6, 0x09, 0, 0, 0)) == Some(0xF7));
    assert!(rt; code(numbers, &query(6, 0x0B, 0, 0, 0)) == Some(0xF7));
    // bConfigDescrLock was written before.
    assert!(rt; code(numbers, &query(4, 0x0B, 0, 0, 0)) == Some(0xF8));
    // An attribute with a length, and a string without one.
    assert!(rt; code(numbers, &query(3, 0x03, 0, 1, 0)) == Some(0xF9));
    assert!(rt; code(numbers, &query(1, 5, 1, 0, 0)) == Some(0xF9));
    // One more than the greatest value, and less than the least.
    assert!(rt; code(numbers, &query(4, 0x03, 0, 0, 16)) == Some(0xFA));
    assert!(rt; code(numbers, &query(4, 0x04, 0, 0, 1)) == Some(0xFA));
    assert!(rt; code(numbers, &query(4, 0x07, 0, 0, 7)) == Some(0xFA));
    assert!(rt; code(numbers, &query(4, 0x08, 0, 0, 9)) == Some(0xFA));
    assert!(rt; code(numbers, &query(4, 0x0A, 0, 0, 4)) == Some(0xFA));
    assert!(rt; code(numbers, &selected(15, &query(4, 0x10, 2, 0, 1))) == Some(0xFA));
    Ok(())
}

/// The attributes of a new device: it is active, its data come in blocks, its clock has 26 MHz, and
/// its configuration is locked. What is written is told from then on.
#[test]
fn attributes_are_told(rt: HostRuntime) -> Result<(), Fail> {
    let config = row_config()?.with_profile(1, 1)?;
    let numbers = config.numbers();
    assert!(rt; value_of(numbers, NEW, &query(3, 0x00, 0, 0, 0)) == Some(0));
    assert!(rt; value_of(numbers, NEW, &query(3, 0x02, 0, 0, 0)) == Some(0x11));
    assert!(rt; value_of(numbers, NEW, &query(3, 0x03, 0, 0, 0)) == Some(0));
    assert!(rt; value_of(numbers, NEW, &query(3, 0x07, 0, 0, 0)) == Some(8));
    assert!(rt; value_of(numbers, NEW, &query(3, 0x08, 0, 0, 0)) == Some(8));
    assert!(rt; value_of(numbers, NEW, &query(3, 0x09, 2, 0, 0)) == Some(0));
    assert!(rt; value_of(numbers, NEW, &query(3, 0x0A, 0, 0, 0)) == Some(1));
    assert!(rt; value_of(numbers, NEW, &query(3, 0x0B, 0, 0, 0)) == Some(1));
    assert!(rt; value_of(numbers, NEW, &query(4, 0x0F, 0, 0, u32::MAX)) == Some(0));
    assert!(rt; value_of(numbers, NEW, &selected(1, &query(4, 0x10, 2, 0, 0))) == Some(0));
    assert!(rt; value_of(numbers, NEW, &query(4, 0x03, 0, 0, 15)) == Some(15));
    let leveled = after(numbers, &query(4, 0x03, 0, 0, 15));
    assert!(rt; value_of(numbers, leveled, &query(3, 0x03, 0, 0, 0)) == Some(15));
    assert!(rt; value_of(numbers, leveled, &query(3, 0x0A, 0, 0, 0)) == Some(1));
    let clocked = after(numbers, &query(4, 0x0A, 0, 0, 3));
    assert!(rt; value_of(numbers, clocked, &query(3, 0x0A, 0, 0, 0)) == Some(3));
    assert!(rt; value_of(numbers, clocked, &query(3, 0x03, 0, 0, 0)) == Some(0));
    Ok(())
}

/// fBackgroundOpsEn is 1 on a new device, and is set, cleared and toggled. What cannot be set is 0.
#[test]
fn flags_are_told(rt: HostRuntime) -> Result<(), Fail> {
    let config = row_config()?.with_profile(1, 1)?;
    let numbers = config.numbers();
    assert!(rt; value_of(numbers, NEW, &query(5, 0x04, 0, 0, 0)) == Some(1));
    assert!(rt; value_of(numbers, NEW, &query(7, 0x04, 0, 0, 0)) == Some(0));
    assert!(rt; value_of(numbers, NEW, &query(8, 0x04, 0, 0, 0)) == Some(0));
    let cleared = after(numbers, &query(7, 0x04, 0, 0, 0));
    assert!(rt; value_of(numbers, cleared, &query(5, 0x04, 0, 0, 0)) == Some(0));
    assert!(rt; value_of(numbers, cleared, &query(6, 0x04, 0, 0, 0)) == Some(1));
    assert!(rt; value_of(numbers, cleared, &query(8, 0x04, 0, 0, 0)) == Some(1));
    assert!(rt; value_of(numbers, NEW, &query(5, 0x05, 0, 0, 0)) == Some(0));
    assert!(rt; value_of(numbers, NEW, &query(7, 0x08, 0, 0, 0)) == Some(0));
    assert!(rt; value_of(numbers, NEW, &query(5, 0x09, 0, 0, 0)) == Some(0));
    assert!(rt; value_of(numbers, NEW, &query(5, 0x0B, 0, 0, 0)) == Some(0));
    Ok(())
}
