//! The task management requests that lines can be written for (JESD220, 10.7.6).
ghost use Rattle.std.specs.Prelude.{◌≡◌};
ghost use Rattle.ufs_spec.specs.Messages.{spelling, IsMessage};
ghost use Rattle.ufstool.specs.HostTasks.{tag_meant, task_function, task_spelled};

use ufs_spec::Message;
use ufs_spec::codes::{
    ABORT_TASK, ABORT_TASK_SET, CLEAR_TASK_SET, LOGICAL_UNIT_RESET, QUERY_TASK, QUERY_TASK_SET,
};

/// A task management function. It is one of a unit's tasks that is meant, with its tag, or all.
#[derive(Clone, Copy)]
pub enum TaskCall {
    /// ABORT TASK.
    AbortTask { meant: u8 },
    /// ABORT TASK SET.
    AbortTaskSet,
    /// CLEAR TASK SET.
    ClearTaskSet,
    /// LOGICAL UNIT RESET.
    ResetUnit,
    /// QUERY TASK.
    QueryTask { meant: u8 },
    /// QUERY TASK SET.
    QueryTaskSet,
}

/// The TASK MANAGEMENT REQUEST for the tasks of this unit, with a task tag of its own.
pub fn task_message(unit: u8, task: u8, call: TaskCall) -> Message
    ensures message { IsMessage result }
    ensures spelled { spelling result ≡ task_spelled unit task call }
{
    Message::TaskRequest {
        lun: unit,
        tag: task,
        function: function_of(call),
        meant: meant_by(call),
    }
}

// The function's code.
fn function_of(call: TaskCall) -> u8
    ensures { result ≡ task_function call }
{
    match call {
        TaskCall::AbortTask { .. } => ABORT_TASK,
        TaskCall::AbortTaskSet => ABORT_TASK_SET,
        TaskCall::ClearTaskSet => CLEAR_TASK_SET,
        TaskCall::ResetUnit => LOGICAL_UNIT_RESET,
        TaskCall::QueryTask { .. } => QUERY_TASK,
        TaskCall::QueryTaskSet => QUERY_TASK_SET,
    }
}

// The tag that is meant, or 0 if all tasks of the unit are.
fn meant_by(call: TaskCall) -> u8
    ensures { result ≡ tag_meant call }
{
    match call {
        TaskCall::AbortTask { meant } | TaskCall::QueryTask { meant } => meant,
        _ => 0,
    }
}
