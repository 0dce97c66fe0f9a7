//! What INQUIRY and REPORT LUNS tell (SPC), and READ CAPACITY(16) (SBC).
ghost use Rattle.std.specs.Prelude.{◌≡◌, ◌+◌, ◌-◌, ◌*◌, ◌++◌, ◌∷◌, ◌≤◌, [], ℕ, map};
ghost use Rattle.std.specs.List.{flat_map};
ghost use Rattle.arrayvec.specs.ArrayVec.{array_vec_len};
ghost use Rattle.byteorder.specs.Endian.{big_bytes};
ghost use Rattle.ufs_spec.specs.Identities.{device_type, inquiry_bytes, luns_bytes, unit_entry};
ghost use Rattle.ufs_spec.specs.Messages.{zeros};
ghost use Rattle.ufs_spec.specs.Refusals.{units_listed};
ghost use Rattle.ufs_spec.specs.declared.Cdb.TheVariants.{Tell};
ghost use Rattle.ufs_spec.specs.declared.Told.TheVariants.{Units};
ghost use Rattle.lun_route.specs.Lists.{numbered_entries, ordinary_entries, ordinary_listed};
ghost use Rattle.lun_route.specs.Lists.{other_entries, others_listed, well_known_entries};

use arrayvec::ArrayVec;
use ufs_spec::{Numbers, write_u32, write_u64};

/// REPORT LUNS selects the units of the configuration alone.
const ORDINARY: u32 = 0x00;

/// REPORT LUNS selects the well-known units alone.
const WELL_KNOWN: u32 = 0x01;

/// How many well-known units there are.
const WELL_KNOWN_UNITS: u8 = 4;

/// How many bytes a block has.
const BLOCK_LENGTH: u32 = 4096;

/// The most bytes that REPORT LUNS tells: 8, and 8 for each of twelve units.
const LIST_LENGTH: usize = 104;

/// The bytes that REPORT LUNS tells.
pub type UnitList = ArrayVec<u8, LIST_LENGTH>;

/// What INQUIRY tells of a unit of this peripheral device type (SPC, standard INQUIRY data).
pub fn inquiry_bytes(peripheral_type: u8) -> [u8; 36]
    ensures { result ≡ inquiry_bytes peripheral_type }
{
    let mut bytes = [0; 36];
    bytes[0] = peripheral_type;
    // Version, response data format, and additional length.
    bytes[2] = 0x06;
    bytes[3] = 0x02;
    bytes[4] = 0x1F;
    // CMDQUE: commands are queued.
    bytes[7] = 0x02;
    // Vendor, product and revision.
    bytes[8..16].copy_from_slice(b"PROFILE ");
    bytes[16..32].copy_from_slice(b"UFS PROFILE 2.1 ");
    bytes[32..36].copy_from_slice(b"0001");
    bytes
}

/// The peripheral device type of the unit with this LUN byte: direct access, or a well-known unit (SPC).
pub fn device_type(byte: u8) -> u8
    ensures { result ≡ device_type byte }
{
    if byte < 8 { 0x00 } else { 0x1E }
}

/// What READ CAPACITY(16) tells of a unit of so many blocks (SBC, READ CAPACITY (16) parameter data). A
/// unit has a block.
pub fn long_capacity_bytes(blocks: u32) -> [u8; 32]
    ensures { result ≡ big_bytes 8 (blocks - 1) ++ big_bytes 4 4096 ++ (0 ∷ 0 ∷ 0xC0 ∷ []) ++ zeros 17 }
{
    let mut bytes = [0; 32];
    write_u64(&mut bytes, 0, u64::from(blocks.saturating_sub(1)));
    write_u32(&mut bytes, 8, BLOCK_LENGTH);
    // LBPME and LBPRZ: blocks may be unmapped, and read as zeros then.
    bytes[14] = 0xC0;
    bytes
}

/// How many units REPORT LUNS lists with this selection.
pub fn units_listed(numbers: &Numbers, select: u32) -> u8
    ensures { (allocation : ℕ) → result ≡ units_listed numbers.now (Tell Units select allocation) }
{
    units_selected(numbers, select)
}

// The same, and how many they are at most.
pub(crate) fn units_selected(numbers: &Numbers, select: u32) -> u8
    ensures is { result ≡ units_listed numbers.now (Tell Units select 0) }
    ensures few { result ≤ 12 }
{
    let ordinary = numbers.units.len() as u8;
    match select {
        ORDINARY => ordinary,
        WELL_KNOWN => WELL_KNOWN_UNITS,
        _ => ordinary + WELL_KNOWN_UNITS,
    }
}

/// What REPORT LUNS tells with this selection: 00h the units of the configuration, 01h the
/// well-known ones, and else both (SPC, REPORT LUNS parameter data).
pub fn luns_bytes(numbers: &Numbers, select: u32) -> UnitList
    ensures bytes { result.items ≡ luns_bytes numbers.now select }
    ensures count { (allocation : ℕ) →
        array_vec_len result ≡ 8 + 8 * units_listed numbers.now (Tell Units select allocation) }
{
    let mut list = header(units_listed(numbers, select));
    put_ordinary(&mut list, numbers, select);
    put_others(&mut list, select);
    list
}

// How many bytes the entries of so many units have, and four zeros.
fn header(units: u8) -> UnitList
    ensures bytes { result.items ≡ big_bytes 4 (8 * units) ++ zeros 4 }
    ensures length { array_vec_len result ≡ 8 }
{
    let mut bytes = [0; 8];
    write_u32(&mut bytes, 0, 8 * u32::from(units));
    let mut list = ArrayVec::new();
    let _ = list.try_extend_from_slice(&bytes);
    list
}

// Puts the units of the configuration behind the others, if they are selected.
fn put_ordinary(list: &mut UnitList, numbers: &Numbers, select: u32)
    requires { array_vec_len list.old ≤ 8 }
    ensures entries { list.new.items ≡ list.old.items ++ ordinary_entries numbers.now select }
    ensures length { array_vec_len list.new
        ≡ array_vec_len list.old + 8 * ordinary_listed numbers.now select }
    ensures most { array_vec_len list.new ≤ array_vec_len list.old + 64 }
{
    if select != WELL_KNOWN {
        put_units(list, numbers.units.len() as u8);
    }
}

// Puts the first so many units of the configuration behind the others.
fn put_units(list: &mut UnitList, units: u8)
    requires { array_vec_len list.old + 8 * units ≤ 104 }
    ensures entries { list.new.items ≡ list.old.items ++ numbered_entries units }
    ensures length { array_vec_len list.new ≡ array_vec_len list.old + 8 * units }
{
    for unit in 0..units {
        put_entry(list, 0x00, unit);
    }
}

// Puts the well-known units behind the others, if they are selected.
fn put_others(list: &mut UnitList, select: u32)
    requires { array_vec_len list.old ≤ 72 }
    ensures entries { list.new.items ≡ list.old.items ++ other_entries select }
    ensures length { array_vec_len list.new ≡ array_vec_len list.old + 8 * others_listed select }
{
    if select != ORDINARY {
        put_well_known(list);
    }
}

// Puts the well-known units behind the others: REPORT LUNS, BOOT, RPMB and UFS DEVICE.
fn put_well_known(list: &mut UnitList)
    requires { array_vec_len list.old ≤ 72 }
    ensures entries { list.new.items ≡ list.old.items ++ well_known_entries }
    ensures length { array_vec_len list.new ≡ array_vec_len list.old + 32 }
{
    put_entry(list, 0xC1, 0x01);
    put_entry(list, 0xC1, 0x30);
    put_entry(list, 0xC1, 0x44);
    put_entry(list, 0xC1, 0x50);
}

// Puts an entry behind the others.
fn put_entry(list: &mut UnitList, high: u8, low: u8)
    requires { array_vec_len list.old ≤ 96 }
    ensures entry { list.new.items ≡ list.old.items ++ unit_entry high low }
    ensures length { array_vec_len list.new ≡ array_vec_len list.old + 8 }
{
    let _ = list.try_extend_from_slice(&[high, low, 0, 0, 0, 0, 0, 0]);
}
