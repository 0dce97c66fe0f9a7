//! The words of UNMAP and of task management.
use crate::program::{Made, option, task, unit, with, with_arg};
use clap::{Command, value_parser};
use std::alloc::Global;

/// The command with UNMAP.
pub fn with_unmap<'a>(alloc: Global, host: Made<'a>) -> Made<'a> {
    let address = option(alloc, "address", "BLOCK", "The address of the first block")
        .value_parser(value_parser!(u64))
        .required(true);
    let blocks = option(
        alloc,
        "blocks",
        "COUNT",
        "How many blocks; the device takes up to 128, or 32 with fewer than 256 slots",
    )
    .value_parser(value_parser!(u32))
    .default_value("1");
    let about = "UNMAP: blocks become zeros; its COMMAND and its list";
    let unmap = with_arg(of_unit(alloc, "unmap", about), address);
    with(host, with_arg(unmap, blocks))
}

/// The command with task management.
pub fn with_tasks<'a>(alloc: Global, host: Made<'a>) -> Made<'a> {
    let host = with(host, of_task(alloc, "abort-task", "TASK: ABORT TASK"));
    let host = with(
        host,
        of_unit(alloc, "abort-task-set", "TASK: ABORT TASK SET"),
    );
    let host = with(
        host,
        of_unit(alloc, "clear-task-set", "TASK: CLEAR TASK SET"),
    );
    let host = with(
        host,
        of_unit(alloc, "reset-unit", "TASK: LOGICAL UNIT RESET"),
    );
    let host = with(host, of_task(alloc, "query-task", "TASK: QUERY TASK"));
    with(
        host,
        of_unit(alloc, "query-task-set", "TASK: QUERY TASK SET"),
    )
}

// A message with its unit and its task.
fn of_unit<'a>(alloc: Global, name: &'a str, about: &'a str) -> Made<'a> {
    let command = Command::new(alloc, name).about(about);
    with_arg(command.arg(unit(alloc)), task(alloc))
}

// A function for one task.
fn of_task<'a>(alloc: Global, name: &'a str, about: &'a str) -> Made<'a> {
    let help = "The tag of the task that is meant, 0 to 255 in decimal";
    let meant = option(alloc, "meant", "TAG", help)
        .value_parser(value_parser!(u8))
        .required(true);
    with_arg(of_unit(alloc, name, about), meant)
}
