//! Which UNMAP or task management the words ask for.
use crate::asked::{byte_in, long_in};
use clap::ArgMatches;
use ufstool::{HostUnmap, TaskCall};

/// The UNMAP.
pub fn read_unmap(matches: &ArgMatches<'_>) -> HostUnmap {
    HostUnmap {
        unit: byte_in(matches, "unit"),
        task: byte_in(matches, "task"),
        // The words were refused if it is missing or no such number.
        address: matches.get_one("address").unwrap_or(0),
        blocks: long_in(matches, "blocks"),
    }
}

/// The task management function of this name, if there is one.
pub fn read_tasks(name: &str, matches: &ArgMatches<'_>) -> Option<TaskCall> {
    let meant = byte_in(matches, "meant");
    match name {
        "abort-task" => Some(TaskCall::AbortTask { meant }),
        "abort-task-set" => Some(TaskCall::AbortTaskSet),
        "clear-task-set" => Some(TaskCall::ClearTaskSet),
        "reset-unit" => Some(TaskCall::ResetUnit),
        "query-task" => Some(TaskCall::QueryTask { meant }),
        "query-task-set" => Some(TaskCall::QueryTaskSet),
        _ => None,
    }
}
