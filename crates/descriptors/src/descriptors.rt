//! The bytes of the descriptors (JESD220, 14.1.4).
ghost use Rattle.std.specs.Prelude.{◌≡◌, ◌≤◌, ◌^◌, ◌+◌, ◌*◌, ◌∷◌, ◌++◌, length, slice_get, sum_by};
ghost use Rattle.std.specs.Prelude.{take};
ghost use Rattle.arrayvec.specs.ArrayVec.{array_vec_len};
ghost use Rattle.byteorder.specs.Endian.{big_bytes};
ghost use Rattle.hex.specs.Hex.{encode_lower};
ghost use Rattle.ufs_spec.specs.Descriptors.{absent_unit_descriptor, configuration_descriptor};
ghost use Rattle.ufs_spec.specs.Descriptors.{device_descriptor};
ghost use Rattle.ufs_spec.specs.Descriptors.{geometry_descriptor, has_boot};
ghost use Rattle.ufs_spec.specs.Descriptors.{interconnect_descriptor};
ghost use Rattle.ufs_spec.specs.Descriptors.{long_device_descriptor, power_descriptor, rpmb_blocks};
ghost use Rattle.ufs_spec.specs.Descriptors.{rpmb_descriptor};
ghost use Rattle.ufs_spec.specs.Descriptors.{short_device_descriptor, string_descriptor};
ghost use Rattle.ufs_spec.specs.Descriptors.{unit_configuration};
ghost use Rattle.ufs_spec.specs.Descriptors.{unit_configuration_at, unit_descriptor};
ghost use Rattle.ufs_spec.specs.Descriptors.{unit_descriptor_at};
ghost use Rattle.ufs_spec.specs.Descriptors.{unit_or_rpmb_descriptor, wide};
ghost use Rattle.ufs_spec.specs.Queries.{Query, descriptor_told};
ghost use Rattle.descriptors.specs.Bytes.{configuration_head};

use crate::codes::{
    CONFIGURATION_DESCRIPTOR, DEVICE_DESCRIPTOR, GEOMETRY_DESCRIPTOR, INTERCONNECT_DESCRIPTOR,
    POWER_DESCRIPTOR, READ_DESCRIPTOR, RPMB_UNIT, STRING_DESCRIPTOR,
};
use arrayvec::ArrayVec;
use ufs_spec::{Asked, Numbers, UnitSpec, write_u32, write_u64};

/// How many bytes the device descriptor has.
const DEVICE_LENGTH: usize = 64;

/// How many bytes the configuration descriptor has, the longest that there is.
const CONFIGURATION_LENGTH: usize = 144;

/// How many bytes the geometry descriptor has.
const GEOMETRY_LENGTH: usize = 72;

/// How many bytes the descriptor of a unit has.
const UNIT_LENGTH: usize = 35;

/// How many bytes the power parameters descriptor has.
const POWER_LENGTH: usize = 98;

/// The interconnect descriptor: UniPro 1.60 and M-PHY 3.0, in BCD (JESD220, 14.1.4.8).
const INTERCONNECT: [u8; 6] = [0x06, 0x04, 0x01, 0x60, 0x03, 0x00];

/// The bytes of a descriptor, as many as were asked for.
pub type Descriptor = ArrayVec<u8, CONFIGURATION_LENGTH>;

/// The device descriptor (JESD220, 14.1.4.2).
pub fn device_descriptor(numbers: &Numbers) -> [u8; 64]
    ensures { result ≡ device_descriptor numbers.now }
{
    if numbers.profile == 0 {
        short_device_descriptor(numbers)
    } else {
        long_device_descriptor(numbers)
    }
}

// The device descriptor of profile 0.
fn short_device_descriptor(numbers: &Numbers) -> [u8; 64]
    ensures { result ≡ short_device_descriptor numbers.now }
{
    let mut bytes = [0; DEVICE_LENGTH];
    // bLength; bDescriptorIDN is 00h.
    bytes[0x00] = 0x40;
    // bNumberLU and bNumberWLU.
    bytes[0x06] = numbers.units.len() as u8;
    bytes[0x07] = 4;
    // bBootEnable.
    bytes[0x08] = u8::from(has_boot(numbers));
    // bDescrAccessEn.
    bytes[0x09] = 1;
    // bSecurityLU: there is an RPMB.
    bytes[0x0D] = 1;
    // wSpecVersion: 2.1.
    bytes[0x10] = 0x02;
    bytes[0x11] = 0x10;
    bytes
}

// The device descriptor of profile 1: that of profile 0, with more fields told.
fn long_device_descriptor(numbers: &Numbers) -> [u8; 64]
    ensures { result ≡ long_device_descriptor numbers.now }
{
    let mut bytes = short_device_descriptor(numbers);
    // bDeviceSubClass: whether it is a device that does not boot.
    bytes[0x04] = u8::from(!has_boot(numbers));
    // bInitPowerMode: active after power-on.
    bytes[0x0A] = 0x01;
    // bHighPriorityLUN: no unit.
    bytes[0x0B] = 0x7F;
    // bBackgroundOpsTermLat: 10 ms.
    bytes[0x0E] = 0x01;
    // wManufactureDate: month and year, BCD.
    bytes[0x12] = 0x11;
    bytes[0x13] = 0x25;
    // iManufacturerName, iProductName, iSerialNumber and iOemID.
    bytes[0x14] = 1;
    bytes[0x15] = 2;
    bytes[0x16] = 3;
    bytes[0x17] = 4;
    // bUD0BaseOffset and bUDConfigPLength.
    bytes[0x1A] = 0x10;
    bytes[0x1B] = 0x10;
    // bDeviceRTTCap.
    bytes[0x1C] = 32;
    // bQueueDepth: one queue for all units.
    bytes[0x21] = 32;
    // wDeviceVersion.
    bytes[0x23] = 0x01;
    // iProductRevisionLevel.
    bytes[0x2A] = 5;
    bytes
}

// Whether a unit has a boot number.
fn has_boot(numbers: &Numbers) -> bool
    ensures { result ≡ has_boot numbers.now }
{
    numbers.units.as_slice().iter().any(|unit| unit.boot != 0)
}

/// The geometry descriptor, which profile 1 alone tells (JESD220, 14.1.4.4).
pub fn geometry_descriptor(numbers: &Numbers) -> [u8; 72]
    ensures { result ≡ geometry_descriptor numbers.now }
{
    let mut bytes = [0; GEOMETRY_LENGTH];
    // bLength and bDescriptorIDN.
    bytes[0x00] = 0x48;
    bytes[0x01] = 0x07;
    // qTotalRawDeviceCapacity: the blocks of all units, in 512 bytes. bMaxNumberLU is 0: eight units.
    write_u64(&mut bytes, 0x04, 8 * block_count(&numbers.units));
    // dSegmentSize: a block, in 512 bytes.
    write_u32(&mut bytes, 0x0D, 8);
    // bAllocationUnitSize: a segment.
    bytes[0x11] = 1;
    // bMinAddrBlockSize, bOptimalReadBlockSize and bOptimalWriteBlockSize: a block, in 512 bytes.
    bytes[0x12] = 8;
    bytes[0x13] = 8;
    bytes[0x14] = 8;
    // bMaxInBufferSize and bMaxOutBufferSize: a block, in 512 bytes.
    bytes[0x15] = 8;
    bytes[0x16] = 8;
    // bRPMB_ReadWriteSize: frames of a command.
    bytes[0x17] = 8;
    // bMaxContexIDNumber.
    bytes[0x1A] = 5;
    // bSupportedSecRTypes: by an erase.
    bytes[0x1D] = 1;
    // wSupportedMemoryTypes: normal memory and RPMB.
    bytes[0x1E] = 0x80;
    bytes[0x1F] = 0x01;
    bytes
}

// How many blocks the units have together.
fn block_count(units: &[UnitSpec]) -> u64
    requires { length units.now ≤ 8 }
    ensures count { result ≡ sum_by (λ u. u.blocks) units.now }
    ensures small { result ≤ 2 ^ 35 }
{
    let mut count = 0;
    for unit in units {
        count += u64::from(unit.blocks);
    }
    count
}

/// The descriptor of the unit with this index (JESD220, 14.1.4.5).
pub fn unit_descriptor(index: u8, unit: &UnitSpec) -> [u8; 35]
    ensures { result ≡ unit_descriptor index unit.now }
{
    let mut bytes = [0; UNIT_LENGTH];
    // bLength and bDescriptorIDN.
    bytes[0x00] = 0x23;
    bytes[0x01] = 0x02;
    // bUnitIndex, and bLUEnable.
    bytes[0x02] = index;
    bytes[0x03] = 1;
    // bBootLunID and bLUWriteProtect.
    bytes[0x04] = unit.boot;
    bytes[0x05] = unit.protect;
    // bDataReliability.
    bytes[0x09] = 1;
    // bLogicalBlockSize: 2 to the power of 12 bytes.
    bytes[0x0A] = 12;
    // qLogicalBlockCount.
    write_u64(&mut bytes, 0x0B, u64::from(unit.blocks));
    // dEraseBlockSize.
    write_u32(&mut bytes, 0x13, 1);
    // bProvisioningType: thin provisioning, and unmapped blocks read as zeros.
    bytes[0x17] = 3;
    // qPhyMemResourceCount.
    write_u64(&mut bytes, 0x18, u64::from(unit.blocks));
    bytes
}

// The descriptor of a unit that is not there: it is not enabled, and has no blocks.
fn absent_unit_descriptor(index: u8) -> [u8; 35]
    ensures { result ≡ absent_unit_descriptor index }
{
    let nothing = UnitSpec {
        blocks: 0,
        boot: 0,
        protect: 0,
    };
    let mut bytes = unit_descriptor(index, &nothing);
    // bLUEnable.
    bytes[0x03] = 0;
    bytes
}

/// The descriptor of the RPMB unit (JESD220, 14.1.4.6).
pub fn rpmb_descriptor(numbers: &Numbers) -> [u8; 35]
    ensures { result ≡ rpmb_descriptor numbers.now }
{
    let blocks = rpmb_blocks(numbers);
    let mut bytes = [0; UNIT_LENGTH];
    // bLength, bDescriptorIDN, bUnitIndex and bLUEnable.
    bytes[0x00] = 0x23;
    bytes[0x01] = 0x02;
    bytes[0x02] = RPMB_UNIT;
    bytes[0x03] = 1;
    // bLUQueueDepth: one command at a time.
    bytes[0x06] = 1;
    // bMemoryType: RPMB.
    bytes[0x08] = 0x0F;
    // bLogicalBlockSize: 2 to the power of 8 bytes.
    bytes[0x0A] = 8;
    // qLogicalBlockCount and qPhyMemResourceCount.
    write_u64(&mut bytes, 0x0B, blocks);
    write_u64(&mut bytes, 0x18, blocks);
    bytes
}

// How many frames of 256 bytes the area of the first RPMB region has: 512 a step of 128 KiB.
fn rpmb_blocks(numbers: &Numbers) -> u64
    ensures { result ≡ rpmb_blocks numbers.now }
{
    512 * u64::from(numbers.rpmb[0])
}

/// The configuration descriptor (JESD220, 14.1.4.3).
pub fn configuration_descriptor(numbers: &Numbers) -> Descriptor
    ensures { result.items ≡ configuration_descriptor numbers.now }
{
    let mut told = configuration_head(numbers);
    for number in 0..8 {
        put_unit(&mut told, numbers, number);
    }
    told
}

// What it has before the units.
fn configuration_head(numbers: &Numbers) -> Descriptor
    ensures bytes { result.items ≡ configuration_head numbers.now }
    ensures length { array_vec_len result ≡ 16 }
{
    let mut bytes = [0; 16];
    // bLength and bDescriptorIDN; bConfDescContinue is 0: no other follows.
    bytes[0x00] = 0x90;
    bytes[0x01] = 0x01;
    // bBootEnable and bDescrAccessEn.
    bytes[0x03] = u8::from(has_boot(numbers));
    bytes[0x04] = 1;
    // bInitPowerMode and bHighPriorityLUN, as in the device descriptor.
    bytes[0x05] = 0x01;
    bytes[0x06] = 0x7F;
    let mut told = ArrayVec::new();
    let _ = told.try_extend_from_slice(&bytes);
    told
}

// Puts the parameters of the unit with this number behind the others.
fn put_unit(told: &mut Descriptor, numbers: &Numbers, number: u8)
    requires { array_vec_len told.old ≤ 128 }
    ensures bytes { told.new.items
        ≡ told.old.items ++ unit_configuration_at (slice_get numbers.now.units.items number) }
    ensures length { array_vec_len told.new ≡ array_vec_len told.old + 16 }
{
    let bytes = unit_configuration_at(numbers, number);
    let _ = told.try_extend_from_slice(&bytes);
}

// The parameters of the unit with this number; zeros if there is no such unit.
fn unit_configuration_at(numbers: &Numbers, number: u8) -> [u8; 16]
    ensures { result ≡ unit_configuration_at (slice_get numbers.now.units.items number) }
{
    match numbers.units.as_slice().get(usize::from(number)) {
        None => [0; 16],
        Some(unit) => unit_configuration(unit),
    }
}

// What a host may configure of a unit.
fn unit_configuration(unit: &UnitSpec) -> [u8; 16]
    ensures { result ≡ unit_configuration unit.now }
{
    let mut bytes = [0; 16];
    // bLUEnable, bBootLunID and bLUWriteProtect; bMemoryType is 0: normal memory.
    bytes[0x0] = 1;
    bytes[0x1] = unit.boot;
    bytes[0x2] = unit.protect;
    // dNumAllocUnits: an allocation unit is a block.
    write_u32(&mut bytes, 0x4, unit.blocks);
    // bDataReliability.
    bytes[0x8] = 1;
    // bLogicalBlockSize: 2 to the power of 12 bytes.
    bytes[0x9] = 12;
    // bProvisioningType: thin provisioning, and unmapped blocks read as zeros.
    bytes[0xA] = 3;
    bytes
}

/// The string descriptor with this index (JESD220, 14.1.4.9): the maker, the product, the serial
/// number, the customer, who is told as the maker, and the revision.
pub fn string_descriptor(numbers: &Numbers, index: u8) -> Descriptor
    ensures { result.items ≡ string_descriptor numbers.now index }
{
    match index {
        2 => string_of(b"UFS PROFILE 2.1 "),
        3 => string_of(&serial_digits(numbers.serial)),
        5 => string_of(b"0001"),
        _ => string_of(b"PROFILE "),
    }
}

// The sixteen digits of the serial number.
fn serial_digits(serial: u64) -> [u8; 16]
    ensures { result ≡ encode_lower (big_bytes 8 serial) }
{
    let mut bytes = [0; 8];
    write_u64(&mut bytes, 0, serial);
    let mut digits = [0; 16];
    hex::encode_to_slice(&bytes[..], &mut digits).unwrap();
    digits
}

// The string descriptor of these characters: its length, its IDN, and the characters in UTF-16.
fn string_of(characters: &[u8]) -> Descriptor
    requires { length characters.now ≤ 16 }
    ensures { result.items ≡ (2 + 2 * length characters.now) ∷ 0x05 ∷ wide characters.now }
{
    let mut told = ArrayVec::new();
    let _ = told.try_extend_from_slice(&[2 + 2 * characters.len() as u8, STRING_DESCRIPTOR]);
    for character in characters.iter() {
        let _ = told.try_extend_from_slice(&[0, *character]);
    }
    told
}

/// The power parameters descriptor (JESD220, 14.1.4.7): nothing is told of sixteen levels of three
/// supplies.
pub fn power_descriptor() -> [u8; 98]
    ensures { result ≡ power_descriptor }
{
    let mut bytes = [0; POWER_LENGTH];
    // bLength and bDescriptorIDN.
    bytes[0x00] = 0x62;
    bytes[0x01] = 0x08;
    bytes
}

/// The first bytes of the descriptor that is read, as many as are asked for; none if none is read.
/// A query that succeeds tells them. They hang on nothing that changes, so they are the same at the
/// query and when its response is handed out.
pub fn descriptor_told(numbers: &Numbers, asked: Asked, length: u16) -> Descriptor
    ensures { (q : Query) → q.asked ≡ asked → q.length ≡ length →
        result.items ≡ descriptor_told numbers.now q }
{
    if asked.opcode != READ_DESCRIPTOR {
        return ArrayVec::new();
    }
    match asked.idn {
        DEVICE_DESCRIPTOR => front(&device_descriptor(numbers), length),
        CONFIGURATION_DESCRIPTOR => { front(configuration_descriptor(numbers).as_slice(), length) }
        INTERCONNECT_DESCRIPTOR => front(&INTERCONNECT, length),
        STRING_DESCRIPTOR => front(string_descriptor(numbers, asked.index).as_slice(), length),
        GEOMETRY_DESCRIPTOR => front(&geometry_descriptor(numbers), length),
        POWER_DESCRIPTOR => front(&power_descriptor(), length),
        _ => unit_told(numbers, asked.index, length),
    }
}

// The first bytes of the unit descriptor with this index, as many as are asked for.
fn unit_told(numbers: &Numbers, index: u8, length: u16) -> Descriptor
    ensures { result.items ≡ take length (unit_or_rpmb_descriptor numbers.now index) }
{
    if index == RPMB_UNIT {
        front(&rpmb_descriptor(numbers), length)
    } else {
        front(&unit_descriptor_at(numbers, index), length)
    }
}

// The descriptor of the unit with this index, also if there is no such unit.
fn unit_descriptor_at(numbers: &Numbers, index: u8) -> [u8; 35]
    ensures { result ≡ unit_descriptor_at index (slice_get numbers.now.units.items index) }
{
    match numbers.units.as_slice().get(usize::from(index)) {
        None => absent_unit_descriptor(index),
        Some(unit) => unit_descriptor(index, unit),
    }
}

// The first bytes of a descriptor, as many as are asked for.
fn front(descriptor: &[u8], asked: u16) -> Descriptor
    requires { length descriptor.now ≤ 144 }
    ensures { result.items ≡ take asked descriptor.now }
{
    let mut told = ArrayVec::new();
    let count = usize::from(asked).min(descriptor.len());
    let _ = told.try_extend_from_slice(&descriptor[..count]);
    told
}
