//! The commands and settings of a host that have no answer yet (JESD220, 10.7).
ghost use Rattle.std.specs.Prelude.{◌≡◌, ◌<◌, IfSome, length, position};
ghost use Rattle.journal.specs.Tasks.{has_tag, is_aborted, left_open, open_with, without};

use crate::writes::OpenWrite;
use ufs_spec::codes::{ABORT_TASK, ABORT_TASK_SET, CLEAR_TASK_SET, LOGICAL_UNIT_RESET};

/// By what a task management request names a command: the LUN and the tag of its COMMAND.
#[derive(Clone, Copy)]
pub(crate) struct TaskName {
    pub lun: u8,
    pub tag: u8,
}

/// A command or a setting whose answer was not handed out yet.
#[derive(Drop)]
pub(crate) struct OpenTask {
    pub name: TaskName,
    pub awaited: Awaited,
    /// How many entries, from the first one on, the GOOD of a command acknowledges as durable.
    pub promised: usize,
}

/// What is still to come for a command or a setting, beside the RESPONSE of a command.
#[derive(Drop)]
pub(crate) enum Awaited {
    /// Nothing: the data came, or it has none.
    Nothing,
    /// The blocks of a write.
    Blocks(OpenWrite),
    /// The list of an UNMAP.
    UnmapList,
    /// The frames of a request to this region of the replay protected memory block.
    Frames(u8),
    /// The QUERY RESPONSE to a setting, which tells whether the device accepted it: the entry at this place.
    Verdict(usize),
}

/// Takes out the one with this tag.
pub(crate) fn close(tasks: &mut Vec<OpenTask>, tag: u8) -> Option<OpenTask>
    ensures which { result ≡ open_with tag tasks.old.items }
    ensures rest { tasks.new.items ≡ without tag tasks.old.items }
{
    match place_of(tasks.as_slice(), tag) {
        Some(at) => Some(tasks.remove(at)),
        None => None,
    }
}

// Which of them has the tag.
fn place_of(tasks: &[OpenTask], tag: u8) -> Option<usize>
    ensures place { result ≡ position (has_tag tag) tasks.now }
    ensures within { IfSome result (λ at. at < length tasks.now) }
{
    tasks.iter().position(|task| task.name.tag == tag)
}

/// The commands that this function aborts are open no more, where it is carried out for the LUN and the tag that is
/// meant (JESD220, 10.7.6).
pub(crate) fn abort(tasks: &mut Vec<OpenTask>, function: u8, lun: u8, meant: u8)
    ensures { tasks.new.items ≡ left_open function lun meant tasks.old.items }
{
    tasks.retain(|task| !is_aborted(task, function, lun, meant));
}

// Whether the function aborts it.
fn is_aborted(task: &OpenTask, function: u8, lun: u8, meant: u8) -> bool
    ensures { result ≡ is_aborted function lun meant task.now }
{
    if task.name.lun != lun || matches!(task.awaited, Awaited::Verdict(_)) {
        return false;
    }
    match function {
        ABORT_TASK => task.name.tag == meant,
        ABORT_TASK_SET | CLEAR_TASK_SET | LOGICAL_UNIT_RESET => true,
        _ => false,
    }
}
