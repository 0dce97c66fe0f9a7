//! Queries in words (JESD220, 10.7.8, 10.7.9 and 14).
use crate::messages::write_contents;
use crate::names::{query_name, query_response_name};
use crate::query_names::{
    attribute_name, attribute_words, descriptor_name, flag_name, flag_words, query_function_name,
};
use std::fmt;
use ufs_spec::Asked;

/// The response of a query that succeeds.
const SUCCESS: u8 = 0x00;

/// The opcode WRITE ATTRIBUTE, alone among those with a value that the host gives.
const WRITE_ATTRIBUTE: u8 = 0x4;

// What the opcode of a query is about.
#[derive(Clone, Copy)]
enum Class {
    Descriptor,
    Attribute,
    Flag,
    Neither,
}

fn class_of(opcode: u8) -> Class {
    match opcode {
        0x1 | 0x2 => Class::Descriptor,
        0x3 | 0x4 => Class::Attribute,
        0x5..=0x8 => Class::Flag,
        _ => Class::Neither,
    }
}

/// The fields of a query beside what it asks.
#[derive(Clone, Copy)]
pub struct QueryFields<'a> {
    pub function: u8,
    pub asked: Asked,
    pub length: u16,
    pub value: u32,
    pub data: &'a [u8],
}

/// What a QUERY REQUEST asks.
pub fn write_request<W: fmt::Write>(
    f: &mut fmt::Formatter<W>,
    query: &QueryFields<'_>,
) -> fmt::Result {
    write_function(f, query.function)?;
    f.write_str(": ")?;
    write_asked(f, query.asked)?;
    write_length(f, query)?;
    write_value(f, query, query.asked.opcode == WRITE_ATTRIBUTE)?;
    write_segment(f, query.data)
}

/// What a QUERY RESPONSE answers. It tells a value only of an attribute or a flag, if the query
/// succeeds.
pub fn write_response<W: fmt::Write>(
    f: &mut fmt::Formatter<W>,
    response: u8,
    query: &QueryFields<'_>,
) -> fmt::Result {
    write_function(f, query.function)?;
    let name = query_response_name(response);
    write!(f, ": {name} ({response:02X}h) to ")?;
    write_asked(f, query.asked)?;
    let is_success = response == SUCCESS;
    if is_success || query.length != 0 {
        write_length(f, query)?;
    }
    write_value(f, query, is_success)?;
    write_segment(f, query.data)
}

fn write_function<W: fmt::Write>(f: &mut fmt::Formatter<W>, function: u8) -> fmt::Result {
    let name = query_function_name(function);
    write!(f, ", {name} ({function:02X}h)")
}

// The opcode, and what it is about, with index and selector.
fn write_asked<W: fmt::Write>(f: &mut fmt::Formatter<W>, asked: Asked) -> fmt::Result {
    let Asked {
        opcode,
        idn,
        index,
        selector,
    } = asked;
    let name = query_name(opcode);
    let about = match class_of(opcode) {
        Class::Descriptor => descriptor_name(idn),
        Class::Attribute => attribute_name(idn),
        Class::Flag => flag_name(idn),
        Class::Neither => "IDN",
    };
    write!(
        f,
        "{name} ({opcode:02X}h), {about} ({idn:02X}h), index {index:02X}h, selector {selector:02X}h"
    )
}

// The length field. Queries of attributes and flags have none that says anything.
fn write_length<W: fmt::Write>(f: &mut fmt::Formatter<W>, query: &QueryFields<'_>) -> fmt::Result {
    let length = query.length;
    match class_of(query.asked.opcode) {
        Class::Descriptor => write!(f, ", length {length}"),
        _ if length != 0 => write!(f, ", length {length}"),
        _ => Ok(()),
    }
}

// The value, with what it says where it is one of an attribute or a flag. Another one is told only
// if it is not 0.
fn write_value<W: fmt::Write>(
    f: &mut fmt::Formatter<W>,
    query: &QueryFields<'_>,
    is_told: bool,
) -> fmt::Result {
    let value = query.value;
    let words = match class_of(query.asked.opcode) {
        Class::Attribute if is_told => attribute_words(query.asked.idn, value),
        Class::Flag if is_told => flag_words(u64::from(value)),
        _ if value == 0 => return Ok(()),
        _ => "",
    };
    write!(f, ", value {value}")?;
    match words {
        "" => Ok(()),
        _ => write!(f, ": {words}"),
    }
}

// The data segment, if there is one.
fn write_segment<W: fmt::Write>(f: &mut fmt::Formatter<W>, data: &[u8]) -> fmt::Result {
    if data.is_empty() {
        return Ok(());
    }
    let count = data.len();
    write!(f, ", {count} bytes")?;
    write_contents(f, data)
}
