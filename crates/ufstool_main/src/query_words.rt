//! The words of queries, and of the commands that ask what there is.
use crate::program::{Made, flag, option, plain, task, with, with_arg};
use clap::builder::ValueParser;
use clap::{Arg, Command, value_parser};
use std::alloc::Global;
use ufstool::{ATTRIBUTE_NAMES, DESCRIPTOR_NAMES, FLAG_NAMES};

/// The values of mode pages.
const VALUES: [&str; 4] = ["current", "changeable", "default", "saved"];

/// The command with what tells of the device: INQUIRY, REPORT LUNS, MODE SENSE, REPORT SUPPORTED
/// OPERATION CODES and READ CAPACITY(16).
pub fn with_inquiries<'a>(alloc: Global, host: Made<'a>) -> Made<'a> {
    let host = with(host, inquiry(alloc));
    let host = with(host, report_luns(alloc));
    let long = allocation(alloc).value_parser(value_parser!(u16));
    let host = with(
        host,
        mode_sense(alloc, "mode-sense", "MODE SENSE(10)", long),
    );
    let short = allocation(alloc).value_parser(value_parser!(u8));
    let host = with(
        host,
        mode_sense(alloc, "mode-sense-6", "MODE SENSE(6)", short),
    );
    let host = with(host, report_operations(alloc));
    with(host, long_capacity(alloc))
}

/// The command with the queries.
pub fn with_queries<'a>(alloc: Global, host: Made<'a>) -> Made<'a> {
    let host = with(host, device_descriptor(alloc));
    let host = with(host, unit_descriptor(alloc));
    let host = with(host, any_descriptor(alloc));
    let host = with_attributes(alloc, host);
    let host = with(host, flag_query(alloc, "read-flag", "QUERY: READ FLAG"));
    let host = with(host, flag_query(alloc, "set-flag", "QUERY: SET FLAG"));
    let host = with(host, flag_query(alloc, "clear-flag", "QUERY: CLEAR FLAG"));
    with(host, flag_query(alloc, "toggle-flag", "QUERY: TOGGLE FLAG"))
}

// The command with the queries of attributes.
fn with_attributes<'a>(alloc: Global, host: Made<'a>) -> Made<'a> {
    let about = "QUERY: READ ATTRIBUTE of bBootLunEn";
    let host = with(host, query(alloc, "read-boot-lun-en", about));
    let host = with(host, write_boot_lun_en(alloc));
    let about = "QUERY: READ ATTRIBUTE";
    let host = with(host, attribute_query(alloc, "read-attribute", about));
    let value = option(
        alloc,
        "value",
        "N",
        "What the attribute is to be, in decimal",
    )
    .value_parser(value_parser!(u32))
    .required(true);
    let about = "QUERY: WRITE ATTRIBUTE";
    let write = attribute_query(alloc, "write-attribute", about);
    with(host, with_arg(write, value))
}

fn allocation<'a>(alloc: Global) -> Arg<'a> {
    option(alloc, "allocation", "BYTES", "The allocation length").default_value("64")
}

fn inquiry<'a>(alloc: Global) -> Made<'a> {
    let help = "The page of vital product data, in decimal; 0 lists them [default: none]";
    let page = option(alloc, "page", "PAGE", help).value_parser(value_parser!(u8));
    let allocation = option(alloc, "allocation", "BYTES", "The allocation length")
        .value_parser(value_parser!(u16))
        .default_value("36");
    with_arg(
        with_arg(plain(alloc, "inquiry", "INQUIRY"), page),
        allocation,
    )
}

// MODE SENSE, with this allocation length.
fn mode_sense<'a>(alloc: Global, name: &'a str, about: &'a str, allocation: Arg<'a>) -> Made<'a> {
    let help = "The mode page, in decimal: 1, 8, 10, or 63 for all";
    let page = option(alloc, "page", "PAGE", help)
        .value_parser(value_parser!(u8).range(0..=63))
        .default_value("63");
    let subpage = option(alloc, "subpage", "N", "The subpage, in decimal")
        .value_parser(value_parser!(u8))
        .default_value("0");
    let values = option(alloc, "values", "WHICH", "Which values are asked for")
        .value_parser(ValueParser::Names(&VALUES))
        .default_value("current");
    let command = with_arg(plain(alloc, name, about), page);
    with_arg(with_arg(with_arg(command, subpage), values), allocation)
}

// REPORT SUPPORTED OPERATION CODES, of all commands or of one.
fn report_operations<'a>(alloc: Global) -> Made<'a> {
    let help = "The operation code of the command, in decimal [default: all commands]";
    let code = option(alloc, "code", "CODE", help).value_parser(value_parser!(u8));
    let help = "The service action of the command, in decimal [default: none]";
    let action = option(alloc, "action", "N", help)
        .value_parser(value_parser!(u16))
        .requires_arg("code")?;
    let help = "Sets RCTD: command timeouts are asked for too";
    let timeouts = flag(alloc, "timeouts", help);
    let allocation = option(alloc, "allocation", "BYTES", "The allocation length")
        .value_parser(value_parser!(u32))
        .default_value("484");
    let about = "REPORT SUPPORTED OPERATION CODES";
    let command = with_arg(plain(alloc, "report-operations", about), code);
    with_arg(with_arg(with_arg(command, action), timeouts), allocation)
}

fn long_capacity<'a>(alloc: Global) -> Made<'a> {
    let allocation = option(alloc, "allocation", "BYTES", "The allocation length")
        .value_parser(value_parser!(u32))
        .default_value("32");
    with_arg(
        plain(alloc, "read-capacity-16", "READ CAPACITY(16)"),
        allocation,
    )
}

fn report_luns<'a>(alloc: Global) -> Made<'a> {
    let help = "0 lists the units that are not well known, 1 the well known ones, 2 all";
    let select = option(alloc, "select", "N", help)
        .value_parser(value_parser!(u8))
        .default_value("0");
    let allocation = option(alloc, "allocation", "BYTES", "The allocation length")
        .value_parser(value_parser!(u32))
        .default_value("104");
    let report = with_arg(plain(alloc, "report-luns", "REPORT LUNS"), select);
    with_arg(report, allocation)
}

// A query.
fn query<'a>(alloc: Global, name: &'a str, about: &'a str) -> Made<'a> {
    Command::new(alloc, name).about(about).arg(task(alloc))
}

fn device_descriptor<'a>(alloc: Global) -> Made<'a> {
    let about = "QUERY: READ DESCRIPTOR of the device";
    with_arg(
        query(alloc, "read-device-descriptor", about),
        length(alloc).default_value("64"),
    )
}

fn unit_descriptor<'a>(alloc: Global) -> Made<'a> {
    let about = "QUERY: READ DESCRIPTOR of a unit";
    let index = option(alloc, "index", "N", "The index of the unit")
        .value_parser(value_parser!(u8))
        .required(true);
    let read = with_arg(query(alloc, "read-unit-descriptor", about), index);
    with_arg(read, length(alloc).default_value("35"))
}

fn write_boot_lun_en<'a>(alloc: Global) -> Made<'a> {
    let about = "QUERY: WRITE ATTRIBUTE of bBootLunEn";
    let help = "0 for no boot unit, 1 for A, 2 for B";
    let value = option(alloc, "value", "N", help)
        .value_parser(value_parser!(u32))
        .required(true);
    with_arg(query(alloc, "write-boot-lun-en", about), value)
}

// READ DESCRIPTOR, of any that there is.
fn any_descriptor<'a>(alloc: Global) -> Made<'a> {
    let descriptor = option(alloc, "descriptor", "NAME", "The descriptor")
        .value_parser(ValueParser::Names(&DESCRIPTOR_NAMES))
        .required(true);
    let about = "QUERY: READ DESCRIPTOR";
    let read = with_arg(query(alloc, "read-descriptor", about), descriptor);
    with_arg(with_index(alloc, read), length(alloc).default_value("255"))
}

fn attribute_query<'a>(alloc: Global, name: &'a str, about: &'a str) -> Made<'a> {
    let attribute = option(alloc, "attribute", "NAME", "The attribute")
        .value_parser(ValueParser::Names(&ATTRIBUTE_NAMES))
        .required(true);
    with_index(alloc, with_arg(query(alloc, name, about), attribute))
}

fn flag_query<'a>(alloc: Global, name: &'a str, about: &'a str) -> Made<'a> {
    let flag = option(alloc, "flag", "NAME", "The flag")
        .value_parser(ValueParser::Names(&FLAG_NAMES))
        .required(true);
    with_index(alloc, with_arg(query(alloc, name, about), flag))
}

// The query with an index and a selector.
fn with_index<'a>(alloc: Global, query: Made<'a>) -> Made<'a> {
    let index = option(alloc, "index", "N", "The index, in decimal")
        .value_parser(value_parser!(u8))
        .default_value("0");
    let selector = option(alloc, "selector", "N", "The selector, in decimal")
        .value_parser(value_parser!(u8))
        .default_value("0");
    with_arg(with_arg(query, index), selector)
}

fn length<'a>(alloc: Global) -> Arg<'a> {
    let help = "How many bytes of the descriptor are asked for";
    option(alloc, "length", "BYTES", help).value_parser(value_parser!(u16))
}
