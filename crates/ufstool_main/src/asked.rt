//! What the words of the program ask for.
use crate::query_calls::read_query;
use crate::unit_calls::{read_tasks, read_unmap};
use clap::ArgMatches;
use die_map::Form;
use ufstool::{HostCdb, HostMessage, HostUnmap, LinkReset, RpmbRequest, spelled};

/// What the program is asked to do.
#[derive(Clone, Copy)]
pub enum Call<'a> {
    /// Say in words what a script and its output tell.
    Explain {
        script: &'a str,
        output: Option<&'a str>,
        key: Option<KeySource<'a>>,
    },
    /// Say in words what the frames in a file are.
    ExplainFrames {
        file: &'a str,
        key: Option<KeySource<'a>>,
    },
    /// Say in words what an image of dies is.
    ExplainImage {
        file: &'a str,
    },
    /// Draw what a script leaves on the dies, up to the line with the number `last`.
    Draw {
        script: &'a str,
        last: usize,
        form: Form,
    },
    /// Draw the dies of an image.
    DrawImage {
        file: &'a str,
        form: Form,
    },
    /// Write the line of a script that hands a device this message.
    Host(HostMessage),
    /// Write the lines of a script that bring this UNMAP to a device.
    Unmap(HostUnmap),
    /// Write the lines of a script that bring this request to the unit RPMB.
    Rpmb {
        task: RpmbTask,
        call: RpmbCall<'a>,
    },
}

/// The tag of a request to the unit RPMB, and the region that it is sent to.
#[derive(Clone, Copy)]
pub struct RpmbTask {
    pub tag: u8,
    pub region: u8,
}

/// Where the key of the unit RPMB is.
#[derive(Clone, Copy)]
pub enum KeySource<'a> {
    /// It was given in digits.
    Digits([u8; 32]),
    /// A file has it.
    File(&'a str),
}

/// Where blocks of 256 bytes are.
#[derive(Clone, Copy)]
pub enum BlockSource<'a> {
    /// A file has them.
    File(&'a str),
    /// All their bytes are the same.
    Filled { fill: u8, count: u16 },
}

/// A request to the unit RPMB, of which no file was read yet.
#[derive(Clone, Copy)]
pub enum RpmbCall<'a> {
    /// A request without a key.
    Plain(RpmbRequest<'a>),
    ProgramKey {
        key: KeySource<'a>,
    },
    WriteData {
        key: KeySource<'a>,
        counter: u32,
        address: u16,
        blocks: BlockSource<'a>,
    },
}

/// What is wrong with a word that clap takes.
pub type WordFault = &'static str;

/// A word is missing that had to be there.
pub const MISSING: WordFault = "a word is missing";

const FILL: WordFault = "--fill takes two hexadecimal digits";

const KEY: WordFault = "--key takes 64 hexadecimal digits";

const NONCE: WordFault = "--nonce takes 32 hexadecimal digits";

/// What the matches of the program ask for.
pub fn read_call<'a>(matches: &ArgMatches<'a>) -> Result<Call<'a>, WordFault> {
    if let Some(explain) = matches.subcommand_matches("explain") {
        return read_explain(explain);
    }
    if let Some(draw) = matches.subcommand_matches("draw") {
        return read_draw(draw);
    }
    let host = matches.subcommand_matches("host").ok_or(MISSING)?;
    let (name, matches) = host.subcommand().ok_or(MISSING)?;
    if name.starts_with("rpmb-") {
        return Ok(Call::Rpmb {
            task: RpmbTask {
                tag: byte_in(matches, "task"),
                region: byte_in(matches, "region"),
            },
            call: read_rpmb(name, matches)?,
        });
    }
    match name {
        "unmap" => Ok(Call::Unmap(read_unmap(matches))),
        _ => Ok(Call::Host(read_host(name, matches)?)),
    }
}

fn read_draw<'a>(matches: &ArgMatches<'a>) -> Result<Call<'a>, WordFault> {
    let file = matches.get_str("SCRIPT").ok_or(MISSING)?;
    let is_svg = matches.get_flag("svg");
    let form = if is_svg { Form::Svg } else { Form::Text };
    if matches.get_flag("image") {
        return Ok(Call::DrawImage { file, form });
    }
    Ok(Call::Draw {
        script: file,
        last: matches.get_one("line").unwrap_or(usize::MAX),
        form,
    })
}

fn read_explain<'a>(matches: &ArgMatches<'a>) -> Result<Call<'a>, WordFault> {
    let script = matches.get_str("SCRIPT").ok_or(MISSING)?;
    if matches.get_flag("image") {
        return Ok(Call::ExplainImage { file: script });
    }
    let key = read_key(matches)?;
    if matches.get_flag("frames") {
        return Ok(Call::ExplainFrames { file: script, key });
    }
    Ok(Call::Explain {
        script,
        output: matches.get_str("OUTPUT"),
        key,
    })
}

// The key, if one is given.
fn read_key<'a>(matches: &ArgMatches<'a>) -> Result<Option<KeySource<'a>>, WordFault> {
    if let Some(name) = matches.get_str("key-file") {
        return Ok(Some(KeySource::File(name)));
    }
    match matches.get_str("key") {
        Some(digits) => Ok(Some(KeySource::Digits(spelled(digits).ok_or(KEY)?))),
        None => Ok(None),
    }
}

fn read_rpmb<'a>(name: &str, matches: &ArgMatches<'a>) -> Result<RpmbCall<'a>, WordFault> {
    match name {
        "rpmb-key" => Ok(RpmbCall::ProgramKey {
            key: read_key(matches)?.ok_or(MISSING)?,
        }),
        "rpmb-write" => Ok(RpmbCall::WriteData {
            key: read_key(matches)?.ok_or(MISSING)?,
            counter: long_in(matches, "counter"),
            address: short_in(matches, "address"),
            blocks: read_blocks(matches)?,
        }),
        "rpmb-read" => Ok(RpmbCall::Plain(RpmbRequest::ReadData {
            address: short_in(matches, "address"),
            count: short_in(matches, "blocks"),
            nonce: read_nonce(matches)?,
        })),
        "rpmb-counter" => Ok(RpmbCall::Plain(RpmbRequest::ReadCounter {
            nonce: read_nonce(matches)?,
        })),
        _ => Ok(RpmbCall::Plain(RpmbRequest::ReadResult)),
    }
}

fn read_nonce(matches: &ArgMatches<'_>) -> Result<[u8; 16], WordFault> {
    spelled(matches.get_str("nonce").ok_or(MISSING)?).ok_or(NONCE)
}

fn read_blocks<'a>(matches: &ArgMatches<'a>) -> Result<BlockSource<'a>, WordFault> {
    match matches.get_str("data") {
        Some(name) => Ok(BlockSource::File(name)),
        None => Ok(BlockSource::Filled {
            fill: read_fill(matches)?,
            count: short_in(matches, "blocks"),
        }),
    }
}

// The byte that --fill gives.
fn read_fill(matches: &ArgMatches<'_>) -> Result<u8, WordFault> {
    let fill: [u8; 1] = spelled(matches.get_str("fill").ok_or(MISSING)?).ok_or(FILL)?;
    Ok(fill[0])
}

fn read_host(name: &str, matches: &ArgMatches<'_>) -> Result<HostMessage, WordFault> {
    let task = byte_in(matches, "task");
    if let Some(query) = read_query(name, matches)? {
        return Ok(HostMessage::Query { task, query });
    }
    if let Some(call) = read_tasks(name, matches) {
        let unit = byte_in(matches, "unit");
        return Ok(HostMessage::Tasks { unit, task, call });
    }
    match name {
        "nop" => Ok(HostMessage::NopOut { task }),
        "hardware-reset" => Ok(HostMessage::LinkEvent {
            reset: LinkReset::Hardware,
        }),
        "link-reset" => Ok(HostMessage::LinkEvent {
            reset: LinkReset::Link,
        }),
        "data-out" => Ok(HostMessage::DataOut {
            unit: byte_in(matches, "unit"),
            task,
            offset: long_in(matches, "offset"),
            count: short_in(matches, "bytes"),
            fill: read_fill(matches)?,
        }),
        _ => Ok(HostMessage::Command {
            unit: byte_in(matches, "unit"),
            task,
            cdb: read_cdb(name, matches),
            expected: matches.get_one("expected"),
        }),
    }
}

fn read_cdb(name: &str, matches: &ArgMatches<'_>) -> HostCdb {
    match name {
        "synchronize-cache" => HostCdb::SynchronizeCache10 {
            immediate: matches.get_flag("immediate"),
        },
        "request-sense" => HostCdb::RequestSense {
            allocation: byte_in(matches, "allocation"),
        },
        "read-capacity" => HostCdb::ReadCapacity10,
        "inquiry" => read_inquiry(matches),
        "report-luns" => HostCdb::ReportLuns {
            select: byte_in(matches, "select"),
            allocation: long_in(matches, "allocation"),
        },
        "test-unit-ready" => HostCdb::TestUnitReady,
        "verify" => HostCdb::Verify10 {
            address: long_in(matches, "address"),
            blocks: short_in(matches, "blocks"),
            compared: matches.get_flag("compare"),
        },
        "prefetch" => HostCdb::Prefetch10 {
            address: long_in(matches, "address"),
            blocks: short_in(matches, "blocks"),
        },
        "send-diagnostic" => HostCdb::SendDiagnostic {
            tests: matches.get_flag("self-test"),
        },
        "read-capacity-16" => HostCdb::ReadCapacity16 {
            allocation: long_in(matches, "allocation"),
        },
        "mode-sense-6" => HostCdb::ModeSense6 {
            select: modes_in(matches),
            allocation: byte_in(matches, "allocation"),
        },
        "mode-sense" => HostCdb::ModeSense10 {
            select: modes_in(matches),
            allocation: short_in(matches, "allocation"),
        },
        "report-operations" => read_operations(matches),
        _ => read_transfer(name, matches),
    }
}

// INQUIRY, of a page of vital product data if one is given.
fn read_inquiry(matches: &ArgMatches<'_>) -> HostCdb {
    let allocation = short_in(matches, "allocation");
    match matches.get_one("page") {
        Some(page) => HostCdb::InquiryPage { page, allocation },
        None => HostCdb::Inquiry { allocation },
    }
}

// Which mode pages are asked for, as bytes 2 and 3 of MODE SENSE say it. Other names of values were
// refused.
fn modes_in(matches: &ArgMatches<'_>) -> u16 {
    let control = match matches.get_str("values") {
        Some("changeable") => 0x4000,
        Some("default") => 0x8000,
        Some("saved") => 0xC000,
        _ => 0,
    };
    let page = u16::from(byte_in(matches, "page") & 0x3F) << 8;
    control | page | u16::from(byte_in(matches, "subpage"))
}

// REPORT SUPPORTED OPERATION CODES.
fn read_operations(matches: &ArgMatches<'_>) -> HostCdb {
    HostCdb::ReportOperations {
        select: operations_in(matches),
        allocation: long_in(matches, "allocation"),
    }
}

// Which commands are reported, as bytes 2 to 5 of REPORT SUPPORTED OPERATION CODES say it: all of
// them, or one by its operation code, or by its service action too.
fn operations_in(matches: &ArgMatches<'_>) -> u32 {
    let rctd: u32 = if matches.get_flag("timeouts") {
        1 << 31
    } else {
        0
    };
    match matches.get_one("code") {
        Some(code) => rctd | one_operation(code, matches.get_one("action")),
        None => rctd,
    }
}

fn one_operation(code: u8, action: Option<u16>) -> u32 {
    let operation = u32::from(code) << 16;
    match action {
        Some(action) => 0x0200_0000 | operation | u32::from(action),
        None => 0x0100_0000 | operation,
    }
}

fn read_transfer(name: &str, matches: &ArgMatches<'_>) -> HostCdb {
    let address = long_in(matches, "address");
    match name {
        "read6" => HostCdb::Read6 {
            address,
            blocks: byte_in(matches, "blocks"),
        },
        "write6" => HostCdb::Write6 {
            address,
            blocks: byte_in(matches, "blocks"),
        },
        "read10" => HostCdb::Read10 {
            address,
            blocks: short_in(matches, "blocks"),
            forced: matches.get_flag("fua"),
        },
        _ => HostCdb::Write10 {
            address,
            blocks: short_in(matches, "blocks"),
            forced: matches.get_flag("fua"),
        },
    }
}

/// The number of an option, of 8 bits. The words were refused if it is missing or does not fit its
/// type, so no 0 stands for another number here; so with the next two.
pub fn byte_in(matches: &ArgMatches<'_>, name: &str) -> u8 {
    matches.get_one(name).unwrap_or(0)
}

/// The number of an option, of 16 bits.
pub fn short_in(matches: &ArgMatches<'_>, name: &str) -> u16 {
    matches.get_one(name).unwrap_or(0)
}

/// The number of an option, of 32 bits.
pub fn long_in(matches: &ArgMatches<'_>, name: &str) -> u32 {
    matches.get_one(name).unwrap_or(0)
}
