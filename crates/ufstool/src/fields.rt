//! The fields of descriptors, of INQUIRY data and of UNMAP's list in words, each in a line of its
//! own.
ghost use Rattle.std.specs.Prelude.{◌≡◌};
ghost use Rattle.ufstool.specs.UnmapLists.{is_right_field};

use crate::query_names::{boot_words, descriptor_name};
use std::io::Write;
use std::{fmt, io};
use ufs_spec::GREATEST_COMMAND;

/// How many blocks a command may have where there are fewer than 256 slots.
const SHORT_COMMAND: u64 = 32;

/// How many bytes the configuration descriptor has of the device, and of each unit.
const CONFIGURATION_PART: usize = 16;

/// A layout of bytes that has fields.
#[derive(Clone, Copy)]
pub enum Layout {
    /// The device descriptor (JESD220, 14.1.4.2).
    Device,
    /// The descriptor of a unit (JESD220, 14.1.4.5).
    Unit,
    /// The geometry descriptor (JESD220, 14.1.4.4).
    Geometry,
    /// The configuration descriptor (JESD220, 14.1.4.3).
    Configuration,
    /// What the configuration descriptor says of a unit.
    ConfiguredUnit,
    /// The descriptor of the RPMB unit (JESD220, 14.1.4.6).
    RpmbUnit,
    /// The power parameters descriptor (JESD220, 14.1.4.7), whose currents have no names.
    Power,
    /// The interconnect descriptor (JESD220, 14.1.4.8).
    Interconnect,
    /// A string descriptor (JESD220, 14.1.4.9).
    Characters,
    /// INQUIRY data (SPC, standard INQUIRY data).
    Inquiry,
    /// UNMAP's list (SBC, UNMAP parameter list), of so many bytes.
    UnmapList(usize),
}

// How a field is told.
#[derive(Clone, Copy)]
enum Shape {
    // A number that counts.
    Count,
    // A code.
    Code,
    // The IDN of a descriptor.
    Idn,
    // So many bytes are 2 to the power of it.
    Power,
    // A version: a byte, and two half bytes.
    Version,
    // A peripheral device type, and in the highest three bits a peripheral qualifier.
    Device,
    // Characters.
    Text,
    // Characters of two bytes each, as many as there are.
    WideText,
    // What is told only if it is not zero.
    Quiet,
}

// A field: its name, how many bytes it has, and how it is told. One comes right after another.
type Field = (&'static str, usize, Shape);

const DEVICE_FIELDS: [Field; 35] = [
    ("bLength", 1, Shape::Count),
    ("bDescriptorIDN", 1, Shape::Idn),
    ("bDevice", 1, Shape::Code),
    ("bDeviceClass", 1, Shape::Code),
    ("bDeviceSubClass", 1, Shape::Code),
    ("bProtocol", 1, Shape::Code),
    ("bNumberLU", 1, Shape::Count),
    ("bNumberWLU", 1, Shape::Count),
    ("bBootEnable", 1, Shape::Code),
    ("bDescrAccessEn", 1, Shape::Code),
    ("bInitPowerMode", 1, Shape::Code),
    ("bHighPriorityLUN", 1, Shape::Code),
    ("bSecureRemovalType", 1, Shape::Code),
    ("bSecurityLU", 1, Shape::Code),
    ("bBackgroundOpsTermLat", 1, Shape::Count),
    ("bInitActiveICCLevel", 1, Shape::Code),
    ("wSpecVersion", 2, Shape::Version),
    ("wManufactureDate", 2, Shape::Code),
    ("iManufacturerName", 1, Shape::Code),
    ("iProductName", 1, Shape::Code),
    ("iSerialNumber", 1, Shape::Code),
    ("iOemID", 1, Shape::Code),
    ("wManufacturerID", 2, Shape::Code),
    ("bUD0BaseOffset", 1, Shape::Count),
    ("bUDConfigPLength", 1, Shape::Count),
    ("bDeviceRTTCap", 1, Shape::Count),
    ("wPeriodicRTCUpdate", 2, Shape::Code),
    ("bUFSFeaturesSupport", 1, Shape::Code),
    ("bFFUTimeout", 1, Shape::Count),
    ("bQueueDepth", 1, Shape::Count),
    ("wDeviceVersion", 2, Shape::Code),
    ("bNumSecureWPArea", 1, Shape::Count),
    ("dPSAMaxDataSize", 4, Shape::Count),
    ("bPSAStateTimeout", 1, Shape::Count),
    ("iProductRevisionLevel", 1, Shape::Code),
];

const UNIT_FIELDS: [Field; 17] = [
    ("bLength", 1, Shape::Count),
    ("bDescriptorIDN", 1, Shape::Idn),
    ("bUnitIndex", 1, Shape::Count),
    ("bLUEnable", 1, Shape::Code),
    ("bBootLunID", 1, Shape::Code),
    ("bLUWriteProtect", 1, Shape::Code),
    ("bLUQueueDepth", 1, Shape::Count),
    ("bPSASensitive", 1, Shape::Code),
    ("bMemoryType", 1, Shape::Code),
    ("bDataReliability", 1, Shape::Code),
    ("bLogicalBlockSize", 1, Shape::Power),
    ("qLogicalBlockCount", 8, Shape::Count),
    ("dEraseBlockSize", 4, Shape::Count),
    ("bProvisioningType", 1, Shape::Code),
    ("qPhyMemResourceCount", 8, Shape::Count),
    ("wContextCapabilities", 2, Shape::Code),
    ("bLargeUnitGranularity_M1", 1, Shape::Count),
];

const GEOMETRY_FIELDS: [Field; 34] = [
    ("bLength", 1, Shape::Count),
    ("bDescriptorIDN", 1, Shape::Idn),
    ("bMediaTechnology", 1, Shape::Code),
    ("byte 3", 1, Shape::Quiet),
    ("qTotalRawDeviceCapacity", 8, Shape::Count),
    ("bMaxNumberLU", 1, Shape::Code),
    ("dSegmentSize", 4, Shape::Count),
    ("bAllocationUnitSize", 1, Shape::Count),
    ("bMinAddrBlockSize", 1, Shape::Count),
    ("bOptimalReadBlockSize", 1, Shape::Count),
    ("bOptimalWriteBlockSize", 1, Shape::Count),
    ("bMaxInBufferSize", 1, Shape::Count),
    ("bMaxOutBufferSize", 1, Shape::Count),
    ("bRPMB_ReadWriteSize", 1, Shape::Count),
    ("bDynamicCapacityResourcePolicy", 1, Shape::Code),
    ("bDataOrdering", 1, Shape::Code),
    ("bMaxContexIDNumber", 1, Shape::Count),
    ("bSysDataTagUnitSize", 1, Shape::Count),
    ("bSysDataTagResSize", 1, Shape::Count),
    ("bSupportedSecRTypes", 1, Shape::Code),
    ("wSupportedMemoryTypes", 2, Shape::Code),
    ("dSystemCodeMaxNAllocU", 4, Shape::Count),
    ("wSystemCodeCapAdjFac", 2, Shape::Count),
    ("dNonPersistMaxNAllocU", 4, Shape::Count),
    ("wNonPersistCapAdjFac", 2, Shape::Count),
    ("dEnhanced1MaxNAllocU", 4, Shape::Count),
    ("wEnhanced1CapAdjFac", 2, Shape::Count),
    ("dEnhanced2MaxNAllocU", 4, Shape::Count),
    ("wEnhanced2CapAdjFac", 2, Shape::Count),
    ("dEnhanced3MaxNAllocU", 4, Shape::Count),
    ("wEnhanced3CapAdjFac", 2, Shape::Count),
    ("dEnhanced4MaxNAllocU", 4, Shape::Count),
    ("wEnhanced4CapAdjFac", 2, Shape::Count),
    ("dOptimalLogicalBlockSize", 4, Shape::Count),
];

const CONFIGURATION_FIELDS: [Field; 11] = [
    ("bLength", 1, Shape::Count),
    ("bDescriptorIDN", 1, Shape::Idn),
    ("bConfDescContinue", 1, Shape::Code),
    ("bBootEnable", 1, Shape::Code),
    ("bDescrAccessEn", 1, Shape::Code),
    ("bInitPowerMode", 1, Shape::Code),
    ("bHighPriorityLUN", 1, Shape::Code),
    ("bSecureRemovalType", 1, Shape::Code),
    ("bInitActiveICCLevel", 1, Shape::Code),
    ("wPeriodicRTCUpdate", 2, Shape::Code),
    ("bytes 11 to 15", 5, Shape::Quiet),
];

const CONFIGURED_UNIT_FIELDS: [Field; 10] = [
    ("bLUEnable", 1, Shape::Code),
    ("bBootLunID", 1, Shape::Code),
    ("bLUWriteProtect", 1, Shape::Code),
    ("bMemoryType", 1, Shape::Code),
    ("dNumAllocUnits", 4, Shape::Count),
    ("bDataReliability", 1, Shape::Code),
    ("bLogicalBlockSize", 1, Shape::Power),
    ("bProvisioningType", 1, Shape::Code),
    ("wContextCapabilities", 2, Shape::Code),
    ("its bytes 13 to 15", 3, Shape::Quiet),
];

const RPMB_UNIT_FIELDS: [Field; 16] = [
    ("bLength", 1, Shape::Count),
    ("bDescriptorIDN", 1, Shape::Idn),
    ("bUnitIndex", 1, Shape::Code),
    ("bLUEnable", 1, Shape::Code),
    ("bBootLunID", 1, Shape::Code),
    ("bLUWriteProtect", 1, Shape::Code),
    ("bLUQueueDepth", 1, Shape::Count),
    ("bPSASensitive", 1, Shape::Code),
    ("bMemoryType", 1, Shape::Code),
    ("byte 9", 1, Shape::Quiet),
    ("bLogicalBlockSize", 1, Shape::Power),
    ("qLogicalBlockCount", 8, Shape::Count),
    ("dEraseBlockSize", 4, Shape::Count),
    ("bProvisioningType", 1, Shape::Code),
    ("qPhyMemResourceCount", 8, Shape::Count),
    ("bytes 32 to 34", 3, Shape::Quiet),
];

const POWER_FIELDS: [Field; 2] = [
    ("bLength", 1, Shape::Count),
    ("bDescriptorIDN", 1, Shape::Idn),
];

const INTERCONNECT_FIELDS: [Field; 4] = [
    ("bLength", 1, Shape::Count),
    ("bDescriptorIDN", 1, Shape::Idn),
    ("bcdUniproVersion", 2, Shape::Version),
    ("bcdMphyVersion", 2, Shape::Version),
];

const STRING_FIELDS: [Field; 3] = [
    ("bLength", 1, Shape::Count),
    ("bDescriptorIDN", 1, Shape::Idn),
    ("characters", 253, Shape::WideText),
];

const INQUIRY_FIELDS: [Field; 11] = [
    ("peripheral device type", 1, Shape::Device),
    ("byte 1", 1, Shape::Quiet),
    ("version", 1, Shape::Code),
    ("response data format", 1, Shape::Code),
    ("additional length", 1, Shape::Count),
    ("byte 5", 1, Shape::Quiet),
    ("byte 6", 1, Shape::Quiet),
    ("byte 7", 1, Shape::Code),
    ("vendor identification", 8, Shape::Text),
    ("product identification", 16, Shape::Text),
    ("product revision level", 4, Shape::Text),
];

const LIST_FIELDS: [Field; 6] = [
    ("UNMAP data length", 2, Shape::Count),
    ("UNMAP block descriptor data length", 2, Shape::Count),
    ("bytes 4 to 7", 4, Shape::Quiet),
    ("UNMAP logical block address", 8, Shape::Count),
    ("number of logical blocks", 4, Shape::Count),
    ("bytes 20 to 23", 4, Shape::Quiet),
];

/// Says in a line for each what the fields are, as far as the bytes go. Of bytes behind the last
/// field those are told that are not zero.
pub fn write_fields<W: Write>(out: &mut W, layout: Layout, bytes: &[u8]) -> io::Result<()> {
    match layout {
        Layout::Device => write_each(out, layout, &DEVICE_FIELDS, bytes),
        Layout::Unit => write_each(out, layout, &UNIT_FIELDS, bytes),
        Layout::Geometry => write_each(out, layout, &GEOMETRY_FIELDS, bytes),
        Layout::Configuration => write_configuration(out, bytes),
        Layout::ConfiguredUnit => write_each(out, layout, &CONFIGURED_UNIT_FIELDS, bytes),
        Layout::RpmbUnit => write_each(out, layout, &RPMB_UNIT_FIELDS, bytes),
        Layout::Power => write_each(out, layout, &POWER_FIELDS, bytes),
        Layout::Interconnect => write_each(out, layout, &INTERCONNECT_FIELDS, bytes),
        Layout::Characters => write_each(out, layout, &STRING_FIELDS, bytes),
        Layout::Inquiry => write_each(out, layout, &INQUIRY_FIELDS, bytes),
        Layout::UnmapList(_) => write_each(out, layout, &LIST_FIELDS, bytes),
    }
}

// The configuration descriptor: what it says of the device, and then of each unit.
fn write_configuration<W: Write>(out: &mut W, bytes: &[u8]) -> io::Result<()> {
    let (of_device, of_units) = bytes.split_at(CONFIGURATION_PART.min(bytes.len()));
    write_each(out, Layout::Configuration, &CONFIGURATION_FIELDS, of_device)?;
    let mut number = 0u8;
    for of_unit in of_units.chunks(CONFIGURATION_PART) {
        writeln!(out, "    unit {number}:")?;
        write_each(
            out,
            Layout::ConfiguredUnit,
            &CONFIGURED_UNIT_FIELDS,
            of_unit,
        )?;
        number = number.saturating_add(1);
    }
    Ok(())
}

fn write_each<W: Write>(
    out: &mut W,
    layout: Layout,
    fields: &[Field],
    bytes: &[u8],
) -> io::Result<()> {
    let mut rest = bytes;
    let mut place = 0usize;
    for (name, width, shape) in fields {
        if rest.is_empty() {
            return Ok(());
        }
        let (bytes, more) = rest.split_at((*width).min(rest.len()));
        let words = FieldWords {
            layout,
            place,
            name: *name,
            width: *width,
            shape: *shape,
            bytes,
        };
        write_told(out, &words)?;
        rest = more;
        place = place.saturating_add(*width);
    }
    write_rest(out, place, rest)
}

// A field, if it is one to be told.
fn write_told<W: Write>(out: &mut W, words: &FieldWords<'_>) -> io::Result<()> {
    if words.is_quiet() {
        return Ok(());
    }
    writeln!(out, "    {words}")
}

// The bytes behind the last field, up to the last one that is not zero.
fn write_rest<W: Write>(out: &mut W, place: usize, rest: &[u8]) -> io::Result<()> {
    let mut place = place;
    for byte in rest {
        if *byte != 0 {
            writeln!(out, "    byte {place}: {byte:02X}h")?;
        }
        place = place.saturating_add(1);
    }
    Ok(())
}

// A field with its bytes.
#[derive(Clone, Copy)]
struct FieldWords<'a> {
    layout: Layout,
    // Where it begins.
    place: usize,
    name: &'static str,
    width: usize,
    shape: Shape,
    // Its bytes, or the first of them.
    bytes: &'a [u8],
}

impl FieldWords<'_> {
    // Whether it is not told.
    fn is_quiet(&self) -> bool {
        matches!(self.shape, Shape::Quiet) && self.bytes.iter().all(|byte| *byte == 0)
    }
}

impl fmt::Display for FieldWords<'_> {
    fn fmt<W: fmt::Write>(&self, f: &mut fmt::Formatter<W>) -> fmt::Result {
        let name = self.name;
        write!(f, "{name}: ")?;
        if matches!(self.shape, Shape::WideText) {
            return write_wide_text(f, self.bytes);
        }
        let count = self.bytes.len();
        if count < self.width {
            let width = self.width;
            write!(f, "cut short after {count} of {width} bytes: ")?;
            return write_digits(f, self.bytes);
        }
        match self.shape {
            Shape::Text => write_text(f, self.bytes),
            _ => self.write_number(f, number_of(self.bytes)),
        }
    }
}

impl FieldWords<'_> {
    // The number that the bytes are, and what it says.
    fn write_number<W: fmt::Write>(&self, f: &mut fmt::Formatter<W>, value: u64) -> fmt::Result {
        match self.shape {
            Shape::Count => write!(f, "{value}")?,
            Shape::Power => write_power(f, value)?,
            Shape::Device => write_device(f, first_of(self.bytes))?,
            Shape::Version => write_version(f, self.bytes)?,
            _ => write_code(f, self.bytes)?,
        }
        let words = match self.shape {
            Shape::Idn => descriptor_name(first_of(self.bytes)),
            _ => words_of(self.layout, self.place, value),
        };
        match words {
            "" => Ok(()),
            _ => write!(f, ", {words}"),
        }
    }
}

// A code, in hexadecimal digits.
fn write_code<W: fmt::Write>(f: &mut fmt::Formatter<W>, bytes: &[u8]) -> fmt::Result {
    for byte in bytes {
        write!(f, "{byte:02X}")?;
    }
    f.write_str("h")
}

// The bytes one by one.
fn write_digits<W: fmt::Write>(f: &mut fmt::Formatter<W>, bytes: &[u8]) -> fmt::Result {
    let mut between = "";
    for byte in bytes {
        write!(f, "{between}{byte:02X}")?;
        between = " ";
    }
    Ok(())
}

// Characters, each that is not printable ASCII as a point.
fn write_text<W: fmt::Write>(f: &mut fmt::Formatter<W>, bytes: &[u8]) -> fmt::Result {
    f.write_str("'")?;
    for byte in bytes {
        let is_plain = 0x20 <= *byte && *byte < 0x7F;
        let shown = char::from(if is_plain { *byte } else { b'.' });
        write!(f, "{shown}")?;
    }
    f.write_str("'")
}

// Characters of two bytes each, the higher one first. Each that is not printable ASCII is told as a
// point, and so is a byte without its second.
fn write_wide_text<W: fmt::Write>(f: &mut fmt::Formatter<W>, bytes: &[u8]) -> fmt::Result {
    f.write_str("'")?;
    for pair in bytes.chunks(2) {
        let low = last_of(pair);
        let is_plain = pair.len() == 2 && first_of(pair) == 0 && 0x20 <= low && low < 0x7F;
        let shown = char::from(if is_plain { low } else { b'.' });
        write!(f, "{shown}")?;
    }
    f.write_str("'")
}

// 2 to the power of the value.
fn write_power<W: fmt::Write>(f: &mut fmt::Formatter<W>, value: u64) -> fmt::Result {
    write!(f, "{value}")?;
    if value < 64 {
        let size = 1u64 << value;
        write!(f, ", {size} bytes")?;
    }
    Ok(())
}

// A version: the first byte, then two half bytes, of which the last is told if it is not zero.
fn write_version<W: fmt::Write>(f: &mut fmt::Formatter<W>, bytes: &[u8]) -> fmt::Result {
    write_code(f, bytes)?;
    let major = first_of(bytes);
    let last = last_of(bytes);
    let minor = last >> 4;
    let suffix = last & 0x0F;
    write!(f, ", version {major:X}.{minor:X}")?;
    if suffix != 0 {
        write!(f, ".{suffix:X}")?;
    }
    Ok(())
}

// A peripheral device type, with the qualifier if it is not zero.
fn write_device<W: fmt::Write>(f: &mut fmt::Formatter<W>, byte: u8) -> fmt::Result {
    let kind = byte & 0x1F;
    write!(f, "{kind:02X}h")?;
    match kind {
        0x00 => f.write_str(", direct access block device")?,
        0x1E => f.write_str(", well known logical unit")?,
        0x1F => f.write_str(", unknown or no device type")?,
        _ => {}
    }
    let qualifier = byte >> 5;
    if qualifier != 0 {
        write!(f, ", peripheral qualifier {qualifier}")?;
    }
    Ok(())
}

fn first_of(bytes: &[u8]) -> u8 {
    bytes.first().copied().unwrap_or(0)
}

fn last_of(bytes: &[u8]) -> u8 {
    bytes.last().copied().unwrap_or(0)
}

// The number that the bytes are, the highest byte first. Of more than eight bytes the last eight
// count.
fn number_of(bytes: &[u8]) -> u64 {
    let mut number = 0u64;
    for byte in bytes {
        number = (number << 8) | u64::from(*byte);
    }
    number
}

// What the value of the field at this place says; empty where it says no more than its number.
fn words_of(layout: Layout, place: usize, value: u64) -> &'static str {
    match layout {
        Layout::Device => device_words(place, value),
        Layout::Unit => unit_words(place, value),
        Layout::Geometry => geometry_words(place, value),
        Layout::Configuration => configuration_words(place, value),
        Layout::ConfiguredUnit => configured_words(place, value),
        Layout::RpmbUnit => rpmb_words(place, value),
        Layout::Power | Layout::Interconnect | Layout::Characters => "",
        Layout::Inquiry => inquiry_words(place, value),
        Layout::UnmapList(length) => list_words(length, place, value),
    }
}

fn device_words(place: usize, value: u64) -> &'static str {
    match (place, value) {
        (0x02, 0x00) => "device",
        (0x03, 0x00) => "mass storage",
        (0x04, 0x01) => "no unit boots",
        (0x05, 0x00) => "SCSI",
        (0x08, 0x00) => "boot feature disabled",
        (0x08, 0x01) => "boot feature enabled",
        (0x09, 0x00) => "not readable during the boot sequence",
        (0x09, 0x01) => "readable during the boot sequence",
        (0x0A, 0x00) => "UFS-Sleep mode",
        (0x0A, 0x01) => "active mode",
        (0x0B, 0x7F) => "no unit has priority",
        (0x0D, 0x00) => "not supported",
        (0x0D, 0x01) => "RPMB",
        _ => "",
    }
}

fn unit_words(place: usize, value: u64) -> &'static str {
    match (place, value) {
        (0x03, 0x00) => "unit disabled",
        (0x03, 0x01) => "unit enabled",
        (0x04, _) => boot_words(value),
        (0x05, 0x00) => "never protected",
        (0x05, 0x01) => "protected by fPowerOnWPEn",
        (0x05, 0x02) => "protected by fPermanentWPEn",
        (0x07, 0x00) => "not sensitive to soldering",
        (0x07, 0x01) => "sensitive to soldering",
        (0x08, 0x00) => "normal memory",
        (0x09, 0x00) => "not protected when the power fails",
        (0x09, 0x01) => "protected when the power fails",
        (0x17, 0x00) => "no thin provisioning",
        (0x17, 0x02) => "thin provisioning",
        (0x17, 0x03) => "thin provisioning, unmapped blocks read as zeros",
        _ => "",
    }
}

// The configuration descriptor says of the device and of a unit what their own descriptors say, in
// other places.
fn configuration_words(place: usize, value: u64) -> &'static str {
    match place {
        0x03..=0x06 => device_words(place + 5, value),
        _ => "",
    }
}

fn configured_words(place: usize, value: u64) -> &'static str {
    match place {
        0x00..=0x02 => unit_words(place + 3, value),
        0x03 => unit_words(0x08, value),
        0x08 => unit_words(0x09, value),
        0x0A => unit_words(0x17, value),
        _ => "",
    }
}

fn rpmb_words(place: usize, value: u64) -> &'static str {
    match (place, value) {
        (0x02, 0xC4) | (0x08, 0x0F) => "RPMB",
        (0x03..=0x05 | 0x17, _) => unit_words(place, value),
        _ => "",
    }
}

fn geometry_words(place: usize, value: u64) -> &'static str {
    match (place, value) {
        (0x04, _) => "in 512 bytes",
        (0x0C, 0x00) => "8 units",
        (0x0C, 0x01) => "32 units",
        (0x1E, 0x8001) => "normal memory and RPMB",
        _ => "",
    }
}

fn inquiry_words(place: usize, value: u64) -> &'static str {
    match (place, value) {
        (2, 0x05) => "SPC-3",
        (2, 0x06) => "SPC-4",
        (7, 0x02) => "CMDQUE: commands are queued",
        _ => "",
    }
}

fn list_words(length: usize, place: usize, value: u64) -> &'static str {
    if is_right_field(length, place, value) {
        return right_list_words(place, value);
    }
    match place {
        0 => "malformed: it has to count the bytes behind this field",
        2 => "malformed: it has to count the bytes behind the header",
        16 => "malformed: a command has at most 128 blocks",
        _ => "malformed: they have to be zero",
    }
}

// What is to be said of a field of UNMAP's list that some device takes: a count may be too great
// for others.
fn right_list_words(place: usize, value: u64) -> &'static str {
    if place == 16 && value > SHORT_COMMAND {
        "a device with fewer than 256 slots refuses more than 32"
    } else {
        ""
    }
}

// Whether a field of UNMAP's list is as it has to be, in a list of so many bytes.
fn is_right_field(length: usize, place: usize, value: u64) -> bool
    ensures { result ≡ is_right_field length place value }
{
    match place {
        0 => value == length.saturating_sub(2) as u64,
        2 => value == length.saturating_sub(8) as u64,
        16 => value <= u64::from(GREATEST_COMMAND),
        4 | 20 => value == 0,
        _ => true,
    }
}
