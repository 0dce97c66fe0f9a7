//! The lists of UNMAPs, as scripts: each field is judged in its turn, and what was claimed is given back
//! (SBC, UNMAP parameter list).
use crate::steps::Step::{Command, Good, Lines, List, Refusal, Settle};
use crate::steps::{Script, Step, expect};

/// Lists of 24 bytes with a wrong header, more than 32 blocks, or a last byte that is not zero.
const MALFORMED: [&str; 6] = [
    "001500100000000000000000000000050000000200000000",
    "001600110000000000000000000000050000000200000000",
    "001600100000000100000000000000050000000200000000",
    "001600100000000000000000000000050000002100000000",
    "001600100000000000000000000000050000000200000001",
    "001600100000000000000000000001000000002100000000",
];

/// Lists of 24 bytes that name a block past the 256 of unit 0, or an address past them.
const PAST_THE_UNIT: [&str; 4] = [
    "001600100000000000000000000000ff0000000200000000",
    "001600100000000000000000000001010000000000000000",
    "001600100000000001000000000000050000000200000000",
    "0016001000000000ffffffffffffffff0000000100000000",
];

/// A list whose header or descriptor is wrong, and one that names a block that is not there.
#[test]
fn each_field_of_a_list_is_judged(rt: HostRuntime) {
    let mut script = Script::new(rt.alloc());
    script.add(&[Settle("4")]);
    for list in MALFORMED {
        script.add(&[
            List("01", "18", list),
            Refusal("210000", "01", "", "05", "2600"),
        ]);
    }
    for list in PAST_THE_UNIT {
        script.add(&[
            List("01", "18", list),
            Refusal("210000", "01", "", "05", "2100"),
        ]);
    }
    script.run(&rt);
}

/// A list without a descriptor, or with one that counts no block, is done at once.
#[test]
fn lists_that_name_no_block_are_good(rt: HostRuntime) {
    expect(
        &rt,
        rt.alloc(),
        &[
            Settle("4"),
            List("01", "08", "0006000000000000"),
            Good("01"),
            List("02", "08", "0006000800000000"),
            Refusal("210000", "02", "", "05", "2600"),
            List(
                "03",
                "18",
                "001600100000000000000000000001000000000000000000",
            ),
            Good("03"),
            Command("010000", "04", "", "42"),
            Good("04"),
            Lines("take 0", "take 0 none"),
        ],
    );
}

/// A list of another length, or without the flag of its direction, is refused at the COMMAND.
#[test]
fn lists_of_another_length_are_refused(rt: HostRuntime) {
    expect(
        &rt,
        rt.alloc(),
        &[
            Settle("4"),
            Command("012000", "01", "00000010", "420000000000000010"),
            Refusal("212000", "01", "00000010", "05", "1a00"),
            Command("014000", "02", "00000018", "420000000000000018"),
            Refusal("212000", "02", "00000018", "05", "2400"),
            Command("012000", "03", "00000017", "420000000000000018"),
            Refusal("212000", "03", "00000017", "05", "2400"),
        ],
    );
}

/// All 64 slots are free: two WRITEs of 32 blocks ask for their data.
const ALL_SLOTS: [Step<'static>; 4] = [
    Command("012000", "05", "00020000", "2a0000000000000020"),
    Lines(
        "reply",
        "reply 3100000500000000000000000000000000001000000000000000000000000000",
    ),
    Command("012000", "06", "00020000", "2a0000000020000020"),
    Lines(
        "reply",
        "reply 3100000600000000000000000000000000001000000000000000000000000000",
    ),
];

/// The slots that an UNMAP claimed for its list are free again once its list is refused.
#[test]
fn a_refused_list_gives_its_slots_back(rt: HostRuntime) {
    for (list, code) in [(MALFORMED[0], "2600"), (PAST_THE_UNIT[0], "2100")] {
        let mut script = Script::new(rt.alloc());
        script.add(&[
            Settle("4"),
            List("01", "18", list),
            Refusal("210000", "01", "", "05", code),
        ]);
        script.add(&ALL_SLOTS);
        script.run(&rt);
    }
}
