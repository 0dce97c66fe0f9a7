//! The transaction codes of the twelve kinds of messages, bits 5 to 0 of byte 0 (JESD220, 10.5; LINK
//! EVENT is this profile's), the codes of task management (JESD220, 10.7.6 and 10.7.7), and how many
//! exchanges may be open at once (this profile).

/// A host asks whether the device answers at all.
pub const NOP_OUT: u8 = 0x00;

/// A host hands over a CDB.
pub const COMMAND: u8 = 0x01;

/// A host sends data that were asked for.
pub const DATA_OUT: u8 = 0x02;

/// A host asks for a task management function.
pub const TASK_REQUEST: u8 = 0x04;

/// A host asks for a descriptor, an attribute or a flag.
pub const QUERY_REQUEST: u8 = 0x16;

/// What stands between a host and the device tells it of a reset. A host itself sends none.
pub const LINK_EVENT: u8 = 0x1F;

/// A device answers a NOP OUT.
pub const NOP_IN: u8 = 0x20;

/// A device ends a command with its status.
pub const RESPONSE: u8 = 0x21;

/// A device sends data.
pub const DATA_IN: u8 = 0x22;

/// A device answers a task management request.
pub const TASK_RESPONSE: u8 = 0x24;

/// A device says which data the host may send now.
pub const READY_TO_TRANSFER: u8 = 0x31;

/// A device answers a query.
pub const QUERY_RESPONSE: u8 = 0x36;

/// A task management function: the task with this LUN and tag is aborted.
pub const ABORT_TASK: u8 = 0x01;

/// A task management function: all tasks of the LUN are aborted.
pub const ABORT_TASK_SET: u8 = 0x02;

/// The same, of several hosts; there is one host here.
pub const CLEAR_TASK_SET: u8 = 0x04;

/// The same, and no more in this profile.
pub const LOGICAL_UNIT_RESET: u8 = 0x08;

/// A task management function: is the task with this LUN and tag open?
pub const QUERY_TASK: u8 = 0x80;

/// A task management function: is any task of the LUN open?
pub const QUERY_TASK_SET: u8 = 0x81;

/// A kind of LINK EVENT: a hardware reset.
pub const HARDWARE_RESET: u8 = 0x01;

/// A kind of LINK EVENT: a reset of the link or of the host's controller.
pub const LINK_RESET: u8 = 0x02;

/// A service response: the function was carried out, or the task that was asked for is not there.
pub const FUNCTION_COMPLETE: u8 = 0x00;

/// A service response: there is no such function here.
pub const FUNCTION_NOT_SUPPORTED: u8 = 0x04;

/// A service response: the task that was asked for is there.
pub const FUNCTION_SUCCEEDED: u8 = 0x08;

/// A service response: there is no such unit.
pub const INCORRECT_LUN: u8 = 0x09;

/// How many tasks may be open.
pub const MOST_TASKS: usize = 32;

/// How many exchanges of one reply may be open.
pub const MOST_SHORT_EXCHANGES: usize = 32;

/// How many blocks one command may write, read or unmap at most, so how many pages its group may have. A
/// configuration of few slots allows fewer.
pub const GREATEST_COMMAND: u16 = 128;

/// How many RPMB regions are numbered (JESD220, 12.4.2). One whose area has no bytes is not there.
pub const REGIONS: u8 = 4;
