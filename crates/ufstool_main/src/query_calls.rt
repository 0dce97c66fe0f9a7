//! Which query the words ask for.
use crate::asked::{MISSING, WordFault, byte_in, long_in, short_in};
use clap::ArgMatches;
use ufstool::{FlagCall, HostQuery, Named, attribute_idn, descriptor_idn, flag_idn};

/// The IDN of the device descriptor.
const DEVICE: u8 = 0x00;

/// The IDN of the unit descriptors.
const UNIT: u8 = 0x02;

/// The IDN of bBootLunEn.
const BOOT_LUN_EN: u8 = 0x00;

/// The query of this name, if there is one.
pub fn read_query(name: &str, matches: &ArgMatches<'_>) -> Result<Option<HostQuery>, WordFault> {
    match name {
        "read-descriptor" | "read-device-descriptor" | "read-unit-descriptor" => {
            Ok(Some(HostQuery::ReadDescriptor {
                descriptor: read_descriptor(name, matches)?,
                length: short_in(matches, "length"),
            }))
        }
        "read-attribute" | "read-boot-lun-en" => Ok(Some(HostQuery::ReadAttribute {
            attribute: read_attribute(name, matches)?,
        })),
        "write-attribute" | "write-boot-lun-en" => Ok(Some(HostQuery::WriteAttribute {
            attribute: read_attribute(name, matches)?,
            value: long_in(matches, "value"),
        })),
        _ => match flag_call(name) {
            Some(call) => Ok(Some(HostQuery::Flag {
                call,
                flag: read_flag(matches)?,
            })),
            None => Ok(None),
        },
    }
}

// The descriptor that the command is about.
fn read_descriptor(name: &str, matches: &ArgMatches<'_>) -> Result<Named, WordFault> {
    match name {
        "read-device-descriptor" => Ok(only(DEVICE)),
        "read-unit-descriptor" => Ok(Named {
            index: byte_in(matches, "index"),
            ..only(UNIT)
        }),
        _ => {
            let name = matches.get_str("descriptor").ok_or(MISSING)?;
            Ok(indexed(descriptor_idn(name).ok_or(MISSING)?, matches))
        }
    }
}

// The attribute that the command is about.
fn read_attribute(name: &str, matches: &ArgMatches<'_>) -> Result<Named, WordFault> {
    match name {
        "read-boot-lun-en" | "write-boot-lun-en" => Ok(only(BOOT_LUN_EN)),
        _ => {
            let name = matches.get_str("attribute").ok_or(MISSING)?;
            Ok(indexed(attribute_idn(name).ok_or(MISSING)?, matches))
        }
    }
}

// The flag of an option. Names that no flag has were refused.
fn read_flag(matches: &ArgMatches<'_>) -> Result<Named, WordFault> {
    let name = matches.get_str("flag").ok_or(MISSING)?;
    Ok(indexed(flag_idn(name).ok_or(MISSING)?, matches))
}

fn flag_call(name: &str) -> Option<FlagCall> {
    match name {
        "read-flag" => Some(FlagCall::Read),
        "set-flag" => Some(FlagCall::Set),
        "clear-flag" => Some(FlagCall::Clear),
        "toggle-flag" => Some(FlagCall::Toggle),
        _ => None,
    }
}

// What has this IDN, with index 0 and selector 0.
fn only(idn: u8) -> Named {
    Named {
        idn,
        index: 0,
        selector: 0,
    }
}

// What has this IDN, with the index and the selector of the options.
fn indexed(idn: u8, matches: &ArgMatches<'_>) -> Named {
    Named {
        idn,
        index: byte_in(matches, "index"),
        selector: byte_in(matches, "selector"),
    }
}
