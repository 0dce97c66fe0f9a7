//! The words of the program.
use crate::query_words::{with_inquiries, with_queries};
use crate::rpmb_words::{with_key, with_rpmb};
use crate::unit_words::{with_tasks, with_unmap};
use clap::{Arg, ArgAction, Command, value_parser};
use std::alloc::{AllocError, Global};

/// A command that is being made; making one may want memory.
pub type Made<'a> = Result<Command<'a>, AllocError>;

/// The program with its commands.
pub fn program<'a>(alloc: Global) -> Made<'a> {
    let program = Command::new(alloc, "ufstool")
        .bin_name("ufstool")?
        .version("0.1.0")
        .about(
            "Explains scripts of ufsim and their outputs, writes their lines, and draws the dies",
        )
        .subcommand_required(true)
        .arg_required_else_help(true);
    let program = with(Ok(program), explain_command(alloc));
    let program = with(program, host_command(alloc));
    with(program, draw_command(alloc))
}

/// The command with one more below it.
pub fn with<'a>(command: Made<'a>, below: Made<'a>) -> Made<'a> {
    command?.subcommand(below?)
}

/// The command with one more argument.
pub fn with_arg<'a>(command: Made<'a>, arg: Arg<'a>) -> Made<'a> {
    command?.arg(arg)
}

fn script<'a>(alloc: Global) -> Arg<'a> {
    Arg::new(alloc, "SCRIPT")
        .help("The script, as ufsim reads it")
        .required(true)
}

fn explain_command<'a>(alloc: Global) -> Made<'a> {
    let output = Arg::new(alloc, "OUTPUT").help("What 'ufsim run SCRIPT' printed");
    let explain = Command::new(alloc, "explain").about(
        "Says line by line what a script asks for and what was answered",
    );
    let explain = with_arg(explain.arg(script(alloc)), output);
    let help =
        "The script has frames in hexadecimal digits, one or more in a line, in place of events";
    let explain = with_arg(explain, flag(alloc, "frames", help));
    let image = image(alloc)
        .conflicts_with("OUTPUT")?
        .conflicts_with("frames")?;
    let image = image.conflicts_with("key")?.conflicts_with("key-file")?;
    with_key(alloc, with_arg(explain, image), false)
}

fn draw_command<'a>(alloc: Global) -> Made<'a> {
    let draw = Command::new(alloc, "draw").about(
        "Draws the dies that a script leaves, with their blocks and pages",
    );
    let draw = with_arg(draw.arg(script(alloc)), line(alloc));
    let draw = with_arg(draw, image(alloc).conflicts_with("line")?);
    with_arg(draw, flag(alloc, "svg", "Draws SVG in place of text"))
}

fn image<'a>(alloc: Global) -> Arg<'a> {
    let help = "The file is an image of dies, as 'ufsim image save' writes it, and no script";
    flag(alloc, "image", help)
}

fn line<'a>(alloc: Global) -> Arg<'a> {
    option(
        alloc,
        "line",
        "N",
        "Runs the lines up to this one alone [default: all]",
    )
    .value_parser(value_parser!(usize))
}

fn host_command<'a>(alloc: Global) -> Made<'a> {
    let host = Command::new(alloc, "host")
        .about("Writes the line of a script that hands the device a message")
        .subcommand_required(true)
        .arg_required_else_help(true);
    let host = with_transfers(alloc, Ok(host));
    let host = with_unmap(alloc, host);
    let host = with_flush(alloc, host);
    let host = with_others(alloc, host);
    let host = with_tasks(alloc, host);
    let host = with_queries(alloc, host);
    with_rpmb(alloc, host)
}

// The command with the READs and WRITEs.
fn with_transfers<'a>(alloc: Global, host: Made<'a>) -> Made<'a> {
    let host = with(host, transfer(alloc, "read6", "READ(6)"));
    let host = with(host, transfer(alloc, "write6", "WRITE(6)"));
    let host = with(host, forced_transfer(alloc, "read10", "READ(10)"));
    with(host, forced_transfer(alloc, "write10", "WRITE(10)"))
}

// The command with VERIFY, and with those that have no data: the flush, PRE-FETCH, and the questions
// whether the unit is ready and the device in order.
fn with_flush<'a>(alloc: Global, host: Made<'a>) -> Made<'a> {
    let host = with(host, flush(alloc));
    let host = with(host, verify(alloc));
    let host = with(host, prefetch(alloc));
    let host = with(host, diagnostic(alloc));
    with(host, plain(alloc, "test-unit-ready", "TEST UNIT READY"))
}

// The command with all other messages.
fn with_others<'a>(alloc: Global, host: Made<'a>) -> Made<'a> {
    let host = with(host, request_sense(alloc));
    let host = with(host, plain(alloc, "read-capacity", "READ CAPACITY(10)"));
    let host = with_inquiries(alloc, host);
    let host = with(host, nop(alloc));
    let host = with(
        host,
        reset(alloc, "hardware-reset", "LINK EVENT: hardware reset"),
    );
    let host = with(
        host,
        reset(
            alloc,
            "link-reset",
            "LINK EVENT: reset of the link or the controller",
        ),
    );
    with(host, data_out(alloc))
}

/// A command with its unit, its task and how many bytes are expected.
pub fn plain<'a>(alloc: Global, name: &'a str, about: &'a str) -> Made<'a> {
    let command = Command::new(alloc, name).about(about);
    let command = with_arg(command.arg(unit(alloc)), task(alloc));
    with_arg(command, expected(alloc))
}

// A READ or WRITE.
fn transfer<'a>(alloc: Global, name: &'a str, about: &'a str) -> Made<'a> {
    let command = with_arg(plain(alloc, name, about), address(alloc));
    let blocks = blocks(alloc).value_parser(value_parser!(u8));
    with_arg(command, blocks)
}

// A READ or WRITE with FUA.
fn forced_transfer<'a>(alloc: Global, name: &'a str, about: &'a str) -> Made<'a> {
    let command = with_arg(plain(alloc, name, about), address(alloc));
    let command = with_arg(command, blocks(alloc).value_parser(value_parser!(u16)));
    let help = "Sets FUA: a WRITE is answered once its blocks are durable";
    with_arg(command, flag(alloc, "fua", help))
}

fn flush<'a>(alloc: Global) -> Made<'a> {
    let flush = plain(alloc, "synchronize-cache", "SYNCHRONIZE CACHE(10)")?;
    let help = "Sets IMMED: it is answered at once";
    with_arg(flush.visible_alias("flush"), flag(alloc, "immediate", help))
}

fn verify<'a>(alloc: Global) -> Made<'a> {
    let command = with_arg(plain(alloc, "verify", "VERIFY(10)"), address(alloc));
    let command = with_arg(command, blocks(alloc).value_parser(value_parser!(u16)));
    let help = "Sets BYTCHK 01: the blocks are compared with what the host sends";
    with_arg(command, flag(alloc, "compare", help))
}

fn prefetch<'a>(alloc: Global) -> Made<'a> {
    let command = with_arg(plain(alloc, "prefetch", "PRE-FETCH(10)"), address(alloc));
    let help = "How many blocks; 0 for all up to the unit's end";
    let blocks = option(alloc, "blocks", "COUNT", help)
        .value_parser(value_parser!(u16))
        .default_value("1");
    with_arg(command, blocks)
}

fn diagnostic<'a>(alloc: Global) -> Made<'a> {
    let help = "Sets SELFTEST: a device that is locked is not in order";
    let test = flag(alloc, "self-test", help);
    with_arg(plain(alloc, "send-diagnostic", "SEND DIAGNOSTIC"), test)
}

fn request_sense<'a>(alloc: Global) -> Made<'a> {
    let allocation = option(alloc, "allocation", "BYTES", "The allocation length")
        .value_parser(value_parser!(u8))
        .default_value("18");
    with_arg(plain(alloc, "request-sense", "REQUEST SENSE"), allocation)
}

// A LINK EVENT, which has no task.
fn reset<'a>(alloc: Global, name: &'a str, about: &'a str) -> Made<'a> {
    Ok(Command::new(alloc, name).about(about))
}

fn nop<'a>(alloc: Global) -> Made<'a> {
    Command::new(alloc, "nop").about("NOP OUT").arg(task(alloc))
}

fn data_out<'a>(alloc: Global) -> Made<'a> {
    let command = Command::new(alloc, "data-out").about("DATA OUT with equal bytes");
    let command = with_arg(command.arg(unit(alloc)), task(alloc));
    let command = with_arg(command, offset(alloc));
    let command = with_arg(command, bytes(alloc));
    with_arg(command, fill(alloc))
}

/// The option `--NAME VALUE`.
pub fn option<'a>(alloc: Global, name: &'a str, value: &'a str, help: &'a str) -> Arg<'a> {
    Arg::new(alloc, name)
        .long(name)
        .value_name(value)
        .help(help)
}

/// The option `--NAME`.
pub fn flag<'a>(alloc: Global, name: &'a str, help: &'a str) -> Arg<'a> {
    Arg::new(alloc, name)
        .long(name)
        .help(help)
        .action(ArgAction::SetTrue)
}

fn expected<'a>(alloc: Global) -> Arg<'a> {
    let help = "How many bytes the host sends or has room for [default: those of the command]";
    option(alloc, "expected", "BYTES", help).value_parser(value_parser!(u32))
}

fn blocks<'a>(alloc: Global) -> Arg<'a> {
    let help = "How many blocks; the device takes up to 128, or 32 with fewer than 256 slots";
    option(alloc, "blocks", "COUNT", help).default_value("1")
}

fn offset<'a>(alloc: Global) -> Arg<'a> {
    let help = "Where the data are in those of the command, as READY TO TRANSFER says";
    option(alloc, "offset", "BYTES", help)
        .value_parser(value_parser!(u32))
        .default_value("0")
}

fn bytes<'a>(alloc: Global) -> Arg<'a> {
    option(alloc, "bytes", "COUNT", "How many bytes, 1 to 4096")
        .value_parser(value_parser!(u16).range(1..=4096))
        .default_value("4096")
}

/// The byte of which all data are.
pub fn fill<'a>(alloc: Global) -> Arg<'a> {
    let help = "The byte of which all data are, as two hexadecimal digits";
    option(alloc, "fill", "BYTE", help).default_value("00")
}

/// The LUN of the unit.
pub fn unit<'a>(alloc: Global) -> Arg<'a> {
    option(alloc, "unit", "LUN", "The LUN of the unit, 0 to 255")
        .value_parser(value_parser!(u8))
        .default_value("0")
}

/// The task tag.
pub fn task<'a>(alloc: Global) -> Arg<'a> {
    option(alloc, "task", "TAG", "The task tag, 0 to 255 in decimal")
        .value_parser(value_parser!(u8))
        .default_value("0")
}

fn address<'a>(alloc: Global) -> Arg<'a> {
    option(alloc, "address", "BLOCK", "The address of the first block")
        .value_parser(value_parser!(u32))
        .required(true)
}
