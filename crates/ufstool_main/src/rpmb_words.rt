//! The words of requests to the unit RPMB.
use crate::program::{Made, fill, option, task, with, with_arg};
use clap::{Arg, Command, value_parser};
use std::alloc::Global;

/// The command with the requests to the unit RPMB.
pub fn with_rpmb<'a>(alloc: Global, host: Made<'a>) -> Made<'a> {
    let about = "RPMB: the key is to be programmed";
    let host = with(host, with_key(alloc, rpmb(alloc, "rpmb-key", about), true));
    let host = with(host, rpmb_write(alloc));
    let host = with(host, rpmb_read(alloc));
    let about = "RPMB: the write counter is asked for";
    let counter = with_arg(rpmb(alloc, "rpmb-counter", about), nonce(alloc));
    let about = "RPMB: the result of the last key or write is asked for";
    with(with(host, counter), rpmb(alloc, "rpmb-result", about))
}

// A request to the unit RPMB.
fn rpmb<'a>(alloc: Global, name: &'a str, about: &'a str) -> Made<'a> {
    let command = Command::new(alloc, name).about(about);
    with_arg(command.arg(task(alloc)), region(alloc))
}

// The region that a request is sent to.
fn region<'a>(alloc: Global) -> Arg<'a> {
    option(alloc, "region", "NUMBER", "The RPMB region, 0 to 3")
        .value_parser(value_parser!(u8).range(0..=3))
        .default_value("0")
}

fn rpmb_write<'a>(alloc: Global) -> Made<'a> {
    let about = "RPMB: blocks of 256 bytes are to be written";
    let write = with_arg(rpmb(alloc, "rpmb-write", about), area_address(alloc));
    let help = "The present write counter";
    let counter = option(alloc, "counter", "COUNT", help)
        .value_parser(value_parser!(u32))
        .required(true);
    let write = with_arg(write, counter);
    let data = option(alloc, "data", "FILE", "A file with the blocks, 1 to 8");
    let data = data.conflicts_with("fill")?.conflicts_with("blocks")?;
    let write = with_arg(write, data);
    let write = with_arg(write, fill(alloc));
    with_key(alloc, with_arg(write, area_blocks(alloc)), true)
}

fn rpmb_read<'a>(alloc: Global) -> Made<'a> {
    let about = "RPMB: blocks of 256 bytes are asked for";
    let read = with_arg(rpmb(alloc, "rpmb-read", about), area_address(alloc));
    with_arg(with_arg(read, area_blocks(alloc)), nonce(alloc))
}

/// The command with the key of the unit RPMB, in digits or in a file.
pub fn with_key<'a>(alloc: Global, command: Made<'a>, is_required: bool) -> Made<'a> {
    let help = "The key of an RPMB region, as 64 hexadecimal digits";
    let digits = option(alloc, "key", "HEX", help).conflicts_with("key-file")?;
    let digits = if is_required {
        digits.required_unless_present("key-file")?
    } else {
        digits
    };
    let help = "A file with the 32 bytes of the key";
    with_arg(
        with_arg(command, digits),
        option(alloc, "key-file", "FILE", help),
    )
}

fn nonce<'a>(alloc: Global) -> Arg<'a> {
    let help = "The nonce that the response repeats, as 32 hexadecimal digits";
    option(alloc, "nonce", "HEX", help).required(true)
}

fn area_address<'a>(alloc: Global) -> Arg<'a> {
    option(
        alloc,
        "address",
        "BLOCK",
        "The address of the first block of 256 bytes",
    )
    .value_parser(value_parser!(u16))
    .required(true)
}

fn area_blocks<'a>(alloc: Global) -> Arg<'a> {
    option(
        alloc,
        "blocks",
        "COUNT",
        "How many blocks of 256 bytes, 1 to 8",
    )
    .value_parser(value_parser!(u16).range(1..=8))
    .default_value("1")
}
