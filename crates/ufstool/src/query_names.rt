//! The names that the standard gives to what queries ask for (JESD220, 14).
use crate::names::name_in;

/// The names of the descriptors (JESD220, 14.1), in the order of their IDNs.
pub const DESCRIPTOR_NAMES: [&str; 8] = [
    "DEVICE",
    "CONFIGURATION",
    "UNIT",
    "INTERCONNECT",
    "STRING",
    "GEOMETRY",
    "POWER",
    "DEVICE HEALTH",
];

/// The IDN of each of these names.
const DESCRIPTOR_IDNS: [u8; 8] = [0x00, 0x01, 0x02, 0x04, 0x05, 0x07, 0x08, 0x09];

/// The names of the attributes (JESD220, 14.3), in the order of their IDNs.
pub const ATTRIBUTE_NAMES: [&str; 19] = [
    "bBootLunEn",
    "bCurrentPowerMode",
    "bActiveICCLevel",
    "bOutOfOrderDataEn",
    "bBackgroundOpStatus",
    "bPurgeStatus",
    "bMaxDataInSize",
    "bMaxDataOutSize",
    "dDynCapNeeded",
    "bRefClkFreq",
    "bConfigDescrLock",
    "bMaxNumOfRTT",
    "wExceptionEventControl",
    "wExceptionEventStatus",
    "dSecondsPassed",
    "wContextConf",
    "bDeviceFFUStatus",
    "bPSAState",
    "dPSADataSize",
];

/// The IDN of each of these names.
const ATTRIBUTE_IDNS: [u8; 19] = [
    0x00, 0x02, 0x03, 0x04, 0x05, 0x06, 0x07, 0x08, 0x09, 0x0A, 0x0B, 0x0C, 0x0D, 0x0E, 0x0F, 0x10,
    0x14, 0x15, 0x16,
];

/// The names of the flags (JESD220, 14.2), in the order of their IDNs.
pub const FLAG_NAMES: [&str; 9] = [
    "fDeviceInit",
    "fPermanentWPEn",
    "fPowerOnWPEn",
    "fBackgroundOpsEn",
    "fDeviceLifeSpanModeEn",
    "fPurgeEnable",
    "fPhyResourceRemoval",
    "fBusyRTC",
    "fPermanentlyDisableFwUpdate",
];

/// The IDN of each of these names.
const FLAG_IDNS: [u8; 9] = [0x01, 0x02, 0x03, 0x04, 0x05, 0x06, 0x08, 0x09, 0x0B];

/// The name of a descriptor.
pub fn descriptor_name(idn: u8) -> &'static str {
    name_of(&DESCRIPTOR_IDNS, &DESCRIPTOR_NAMES, idn).unwrap_or("a descriptor without a name")
}

/// The name of an attribute.
pub fn attribute_name(idn: u8) -> &'static str {
    name_of(&ATTRIBUTE_IDNS, &ATTRIBUTE_NAMES, idn).unwrap_or("an attribute without a name")
}

/// The name of a flag.
pub fn flag_name(idn: u8) -> &'static str {
    name_of(&FLAG_IDNS, &FLAG_NAMES, idn).unwrap_or("a flag without a name")
}

/// The IDN of the descriptor with this name, if there is one.
pub fn descriptor_idn(name: &str) -> Option<u8> {
    idn_of(&DESCRIPTOR_IDNS, &DESCRIPTOR_NAMES, name)
}

/// The IDN of the attribute with this name, if there is one.
pub fn attribute_idn(name: &str) -> Option<u8> {
    idn_of(&ATTRIBUTE_IDNS, &ATTRIBUTE_NAMES, name)
}

/// The IDN of the flag with this name, if there is one.
pub fn flag_idn(name: &str) -> Option<u8> {
    idn_of(&FLAG_IDNS, &FLAG_NAMES, name)
}

// The name that stands where this IDN does.
fn name_of(idns: &[u8], names: &[&'static str], idn: u8) -> Option<&'static str> {
    for (known, name) in idns.iter().zip(names.iter()) {
        if *known == idn {
            return Some(*name);
        }
    }
    None
}

// The IDN that stands where this name does.
fn idn_of(idns: &[u8], names: &[&'static str], name: &str) -> Option<u8> {
    for (idn, known) in idns.iter().zip(names.iter()) {
        if *known == name {
            return Some(*idn);
        }
    }
    None
}

const FUNCTIONS: [(u8, &str); 2] = [(0x01, "standard read"), (0x81, "standard write")];

/// The name of a query function (JESD220, 10.7.8).
pub fn query_function_name(function: u8) -> &'static str {
    name_in(&FUNCTIONS, function).unwrap_or("a function without a name")
}

/// What a value of bBootLunEn says, or of the boot number of a unit (JESD220, 14.3 and 14.1.4.5).
pub fn boot_words(boot: u64) -> &'static str {
    match boot {
        0 => "no boot unit",
        1 => "boot unit A",
        2 => "boot unit B",
        _ => "",
    }
}

/// What a value of an attribute says; empty where it says no more than its number (JESD220, 14.3).
pub fn attribute_words(idn: u8, value: u32) -> &'static str {
    match (idn, value) {
        (0x00, _) => boot_words(u64::from(value)),
        (0x02, 0x11) => "active",
        (0x02, 0x22) => "sleep",
        (0x02, 0x33) => "power down",
        (0x0A, 0) => "19.2 MHz",
        (0x0A, 1) => "26 MHz",
        (0x0A, 2) => "38.4 MHz",
        (0x0A, 3) => "52 MHz",
        (0x0B, 0) => "not locked",
        (0x0B, 1) => "locked",
        _ => "",
    }
}

/// What a value of a flag says.
pub fn flag_words(flag: u64) -> &'static str {
    match flag {
        0 => "clear",
        1 => "set",
        _ => "",
    }
}
