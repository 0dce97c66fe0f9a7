//! Task management as scripts: tasks are asked for and aborted (JESD220, 10.7.6 and 10.7.7).
use crate::frames::{COUNTER_REQUEST, NO_COUNTER};
use crate::steps::Step::{
    Answer, Block, Command, Frames, Good, Host, Lines, Manage, Managed, Refusal, Request, Response,
    Send, Settle,
};
use crate::steps::{Script, Step, expect};

/// The READY TO TRANSFER for the first block of the WRITE with tag 07.
const ASKED: Step<'static> = Lines(
    "reply",
    "reply 3100000700000000000000000000000000001000000000000000000000000000",
);

/// A WRITE(10) with FUA of one block, tag 07, which is asked for its block.
const BEGUN: [Step<'static>; 3] = [
    Settle("4"),
    Command("012000", "07", "00001000", "2a0800000000000001"),
    ASKED,
];

/// Nothing more is due.
const SILENT: Step<'static> = Lines("reply", "reply none");

/// Query task finds an open task until its RESPONSE was handed out, and query task set does too.
#[test]
fn an_open_task_is_found(rt: HostRuntime) {
    let mut script = Script::new(rt.alloc());
    script.add(&[
        Settle("4"),
        Command("012000", "07", "00001000", "2a0800000000000001"),
        Host("040000090080000000000000000000000000000700", 32, "host ok"),
        ASKED,
        Managed("00", "09", "08"),
        Manage("00", "0a", "81", "00"),
        Managed("00", "0a", "08"),
        Manage("00", "0b", "80", "06"),
        Managed("00", "0b", "00"),
        Manage("01", "0c", "80", "07"),
        Managed("01", "0c", "00"),
        Manage("01", "0d", "81", "07"),
        Managed("01", "0d", "00"),
    ]);
    script.run(&rt);
}

/// Once it is answered it is not found.
#[test]
fn an_answered_task_is_not_found(rt: HostRuntime) {
    expect(
        &rt,
        rt.alloc(),
        &[
            Settle("4"),
            Command("012000", "07", "00001000", "2a0800000000000001"),
            Send("07", "77", 1),
            Settle("4"),
            Good("07"),
            Host("040000090080000000000000000000000000000700", 32, "host ok"),
            Managed("00", "09", "00"),
        ],
    );
}

/// A write that was accepted stays accepted, though its task is aborted: no reply of it follows, its tag
/// is free at once, and its block is read back.
#[test]
fn an_aborted_write_stays_accepted(rt: HostRuntime) {
    expect(
        &rt,
        rt.alloc(),
        &[
            Settle("4"),
            Command("012000", "07", "00001000", "2a0800000000000001"),
            Send("07", "77", 1),
            Manage("00", "09", "01", "07"),
            Command("014000", "07", "00001000", "280000000000000001"),
            Block("07", "77"),
            Good("07"),
            Managed("00", "09", "00"),
            Settle("4"),
            SILENT,
            Command("014000", "07", "00001000", "280000000000000001"),
            Settle("1"),
            Block("07", "77"),
            Good("07"),
        ],
    );
}

/// A WRITE that is aborted before its data takes no more of them, and gives its slots back.
#[test]
fn an_aborted_write_takes_no_data(rt: HostRuntime) {
    let mut script = Script::new(rt.alloc());
    script.add(&[
        Settle("4"),
        Command("012000", "06", "00020000", "2a0000000000000020"),
        Command("012000", "07", "00020000", "2a0000000020000020"),
        Command("012000", "08", "00001000", "2a0000000040000001"),
        Manage("00", "09", "01", "07"),
        Lines(
            "reply",
            "reply 3100000600000000000000000000000000001000000000000000000000000000",
        ),
        // Tag 08 found no slot free at its COMMAND, and is told so still.
        Response("212000", "08", "0108", "00001000"),
        Managed("00", "09", "00"),
        Lines(
            "fill 0200000700000000000010000000000000001000000000000000000000000000 77 4096",
            "host fault 8",
        ),
        Command("012000", "07", "00020000", "2a0000000020000020"),
        Lines(
            "reply",
            "reply 3100000700000000000000000000000000001000000000000000000000000000",
        ),
    ]);
    script.run(&rt);
}

/// Abort task set, clear task set and LUN reset abort the tasks of their LUN alone; abort task aborts one.
#[test]
fn a_function_aborts_the_tasks_that_it_names(rt: HostRuntime) {
    for function in ["02", "04", "08"] {
        let mut script = Script::new(rt.alloc());
        script.add(&BEGUN);
        script.add(&[
            Command("012000", "08", "00001000", "2a0800000001000001"),
            Command("010001", "0a", "", ""),
            Manage("00", "09", function, "ff"),
            Response("210001", "0a", "", ""),
            Managed("00", "09", "00"),
            SILENT,
            Manage("00", "09", "81", ""),
            Managed("00", "09", "00"),
        ]);
        script.run(&rt);
    }
}

#[test]
fn abort_task_aborts_one_task(rt: HostRuntime) {
    let mut script = Script::new(rt.alloc());
    script.add(&BEGUN);
    script.add(&[
        Command("010000", "08", "", ""),
        Manage("00", "09", "01", "07"),
        Good("08"),
        Managed("00", "09", "00"),
        SILENT,
        // A task that is not there is aborted all the same.
        Manage("00", "09", "01", "07"),
        Managed("00", "09", "00"),
    ]);
    script.run(&rt);
}

/// A LUN that is not there has no task to abort, and an unknown function does nothing.
#[test]
fn other_units_and_functions_abort_nothing(rt: HostRuntime) {
    let mut script = Script::new(rt.alloc());
    script.add(&BEGUN);
    script.add(&[
        Manage("03", "09", "02", "07"),
        Managed("03", "09", "09"),
        Manage("00", "0a", "03", "07"),
        Managed("00", "0a", "04"),
        Manage("b0", "0b", "02", "07"),
        Managed("b0", "0b", "00"),
        Manage("00", "0c", "80", "07"),
        Managed("00", "0c", "08"),
        // The tag of a request is in use like any other.
        Host(
            "040000070001000000000000000000000000000700",
            32,
            "host fault 7",
        ),
        Lines(
            "fill 0200000700000000000010000000000000001000000000000000000000000000 77 4096",
            "host ok",
        ),
        Settle("4"),
        Good("07"),
    ]);
    script.run(&rt);
}

/// A READ that is aborted hands out no more of its blocks.
#[test]
fn an_aborted_read_sends_no_more(rt: HostRuntime) {
    expect(
        &rt,
        rt.alloc(),
        &[
            Settle("4"),
            Command("014000", "08", "00002000", "280000000000000002"),
            Block("08", "00"),
            Manage("00", "09", "01", "08"),
            Managed("00", "09", "00"),
            SILENT,
            Command("014000", "08", "00001000", "280000000000000001"),
            Block("08", "00"),
            Good("08"),
        ],
    );
}

/// SECURITY PROTOCOL IN of one frame, and its refusal where none waits.
const FETCH: Step<'static> = Command("0140c4", "02", "00000200", "a2ec0001000000000200");

const NONE_WAITS: Step<'static> = Refusal("2120c4", "02", "00000200", "05", "2c00");

/// An aborted SECURITY PROTOCOL OUT leaves no response, though its GOOD was due; the abort of another task
/// of the unit leaves the one that waits.
#[test]
fn an_aborted_request_leaves_no_response(rt: HostRuntime) {
    let mut script = Script::new(rt.alloc());
    script.add(&[
        Settle("4"),
        Frames("01", &[COUNTER_REQUEST]),
        Manage("c4", "09", "01", "01"),
        Managed("c4", "09", "00"),
        FETCH,
        NONE_WAITS,
        Request("01", &[COUNTER_REQUEST]),
        Command("0100c4", "03", "", ""),
        Manage("c4", "09", "01", "03"),
        Managed("c4", "09", "00"),
        Answer("02", &[NO_COUNTER]),
    ]);
    script.run(&rt);
}
