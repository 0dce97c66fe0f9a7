//! Runs `ufstool host rpmb-..`.
use crate::asked::{BlockSource, RpmbCall, RpmbTask};
use crate::files::{file_bytes, key_bytes, unread};
use std::io;
use std::process::ExitCode;
use ufstool::{RpmbRequest, write_rpmb_lines};

/// Writes the lines of the request. The status is told also where a file could not be read.
pub fn run_rpmb(
    rt: &HostRuntime,
    task: RpmbTask,
    call: &RpmbCall<'_>,
) -> Result<ExitCode, ExitCode> {
    match *call {
        RpmbCall::Plain(request) => Ok(write_lines(rt, task, &request)),
        RpmbCall::ProgramKey { key } => {
            let key = key_bytes(rt, key)?;
            Ok(write_lines(rt, task, &RpmbRequest::ProgramKey { key: &key }))
        }
        RpmbCall::WriteData {
            key,
            counter,
            address,
            blocks,
        } => {
            let key = key_bytes(rt, key)?;
            run_write(rt, task, &key, counter, address, blocks)
        }
    }
}

fn run_write(
    rt: &HostRuntime,
    task: RpmbTask,
    key: &[u8; 32],
    counter: u32,
    address: u16,
    source: BlockSource<'_>,
) -> Result<ExitCode, ExitCode> {
    match source {
        BlockSource::Filled { fill, count } => {
            let blocks = [[fill; 256]; 8];
            let count = usize::from(count).min(blocks.len());
            Ok(write_blocks(rt, task, key, counter, address, &blocks[..count]))
        }
        BlockSource::File(name) => {
            let bytes = file_bytes(rt, name)?;
            let (blocks, rest) = bytes.as_slice().as_chunks::<256>();
            if !rest.is_empty() || blocks.is_empty() || blocks.len() > 8 {
                return Err(unread(rt, name, "it has to have 1 to 8 blocks of 256 bytes"));
            }
            Ok(write_blocks(rt, task, key, counter, address, blocks))
        }
    }
}

fn write_blocks(
    rt: &HostRuntime,
    task: RpmbTask,
    key: &[u8; 32],
    counter: u32,
    address: u16,
    blocks: &[[u8; 256]],
) -> ExitCode {
    let request = RpmbRequest::WriteData {
        key,
        counter,
        address,
        blocks,
    };
    write_lines(rt, task, &request)
}

fn write_lines(rt: &HostRuntime, task: RpmbTask, request: &RpmbRequest<'_>) -> ExitCode {
    let RpmbTask { tag, region } = task;
    let mut out = io::writer(rt);
    let mut faults = rt.stderr();
    let status = write_rpmb_lines(rt.alloc(), tag, region, request, &mut out, &mut faults);
    ExitCode::from(status)
}
