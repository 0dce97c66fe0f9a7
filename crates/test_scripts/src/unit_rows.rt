//! What a host is told of the units, and which unit its commands reach, as scripts: INQUIRY, REPORT
//! LUNS, the boot unit and write protection (JESD220, 10.8.5, 13.1 and 14.1.4.5; SPC).
use crate::steps::Step::{
    BlockOf, Command, Good, Lines, Query, Refusal, Reply, Response, SendTo, Settle, Told,
};
use crate::steps::{Script, Step, expect};

/// What INQUIRY tells of a unit with blocks, and of a well-known one.
const DISK: &str = "000006021f00000250524f46494c45205546532050524f46494c4520322e312030303031";

const WELL_KNOWN: &str = "1e0006021f00000250524f46494c45205546532050524f46494c4520322e312030303031";

/// INQUIRY of a unit that expects more than is told.
#[test]
fn inquiry_tells_of_a_unit(rt: HostRuntime) {
    expect(
        &rt,
        rt.alloc(),
        &[
            Settle("4"),
            Command("014000", "12", "00000040", "1200000024"),
            Reply("2200001200000000000000240000000000000024", DISK),
            Response("212000", "12", "", "0000001c"),
            Lines("reply", "reply none"),
        ],
    );
}

/// A new device tells of its units before it is ready: the well-known ones are not disks.
#[test]
fn a_device_that_is_not_ready_tells_of_its_units(rt: HostRuntime) {
    expect(
        &rt,
        rt.alloc(),
        &[
            Command("0140d0", "13", "00000024", "1200000024"),
            Reply("2200d01300000000000000240000000000000024", WELL_KNOWN),
            Response("2100d0", "13", "", ""),
            Command("0140c4", "14", "00000005", "1200000005"),
            Reply(
                "2200c41400000000000000050000000000000005",
                "1e0006021f000000",
            ),
            Response("2100c4", "14", "", ""),
            Command("0100d0", "15", "", ""),
            Refusal("2100d0", "15", "", "02", "0401"),
            Command("014081", "16", "00000010", "a00000000000000000100000"),
            Reply(
                "2200811600000000000000100000000000000010",
                "00000018000000000000000000000000",
            ),
            Response("210081", "16", "", ""),
        ],
    );
}

/// REPORT LUNS lists the three units of the configuration and the four well-known ones.
#[test]
fn report_luns_lists_all_units(rt: HostRuntime) {
    expect(
        &rt,
        rt.alloc(),
        &[
            Settle("4"),
            Command("014081", "17", "00000040", "a00002000000000000400000"),
            Reply(
                "2200811700000000000000400000000000000040",
                "0000003800000000000000000000000000010000000000000002000000000000\
                 c101000000000000c130000000000000c144000000000000c150000000000000",
            ),
            Response("210081", "17", "", ""),
        ],
    );
}

/// Each unit takes its own commands alone, and there is no other unit.
#[test]
fn units_take_their_own_commands(rt: HostRuntime) {
    expect(
        &rt,
        rt.alloc(),
        &[
            Settle("4"),
            Command("0140d0", "21", "00001000", "280000000000000001"),
            Refusal("2120d0", "21", "00001000", "05", "2000"),
            Command("014081", "22", "00000008", "25"),
            Refusal("212081", "22", "00000008", "05", "2000"),
            Command("0120b0", "23", "00001000", "2a0000000000000001"),
            Refusal("2120b0", "23", "00001000", "05", "2000"),
            Command("014003", "24", "00000024", "1200000024"),
            Refusal("212003", "24", "00000024", "05", "2500"),
            Command("0100d0", "25", "", "35"),
            Response("2100d0", "25", "", ""),
            Command("0100b0", "26", "", ""),
            Response("2100b0", "26", "", ""),
        ],
    );
}

/// Block 0 of unit 1 is bytes 11h, and that of unit 2 bytes 22h.
const WRITTEN: [Step<'static>; 9] = [
    Settle("4"),
    Command("012001", "01", "00001000", "2a0800000000000001"),
    SendTo("01", "01", "11"),
    Settle("4"),
    Response("210001", "01", "", ""),
    Command("012002", "02", "00001000", "2a0800000000000001"),
    SendTo("02", "02", "22"),
    Settle("4"),
    Response("210002", "02", "", ""),
];

/// READ(10) of block 0 of the boot unit.
const READ_BOOT: Step<'static> = Command("0140b0", "03", "00001000", "280000000000000001");

/// It is refused where no unit boots.
const NO_BOOT: Step<'static> = Refusal("2120b0", "03", "00001000", "05", "2500");

/// The boot setting is written with this value, which is answered once it is durable.
fn set_boot<'a>(value: &'a str) -> [Step<'a>; 4] {
    [
        Query("04", "81", "04000000", "", value),
        Lines("reply", "reply none"),
        Settle("4"),
        Told("04", "8100", "04000000", "", value, ""),
    ]
}

/// It names the unit of this byte.
fn boots(byte: &str) -> [Step<'_>; 4] {
    [
        READ_BOOT,
        Settle("1"),
        BlockOf("b0", "03", byte),
        Response("2100b0", "03", "", ""),
    ]
}

/// bBootLunEn says whose blocks B0h has; 3 is no boot unit, and a stop keeps the setting.
#[test]
fn the_boot_setting_names_the_boot_unit(rt: HostRuntime) {
    let mut script = Script::new(rt.alloc());
    script.add(&WRITTEN);
    script.add(&[READ_BOOT, NO_BOOT]);
    script.add(&set_boot("00000001"));
    script.add(&boots("11"));
    script.add(&set_boot("00000002"));
    script.add(&boots("22"));
    script.add(&[
        Query("05", "81", "04000000", "", "00000003"),
        Told("05", "81fa", "04000000", "", "", ""),
        Lines("stop", "stop ok"),
        Settle("16"),
        Query("05", "01", "03000000", "", ""),
        Told("05", "0100", "03000000", "", "00000002", ""),
    ]);
    script.add(&boots("22"));
    script.add(&set_boot("00000000"));
    script.add(&[READ_BOOT, NO_BOOT]);
    script.run(&rt);
}

/// The first lines of the worked rows, with a unit that may be protected until the next power cycle
/// and one that may be protected for ever.
const PROTECTED: &str = "config 4 16 64 1 64 4\nunit 256 0 0\nunit 64 1 1\nunit 64 2 2\n";

/// WRITE(10) with FUA of a block of a unit, and its refusal.
const WRITE_1: Step<'static> = Command("012001", "01", "00001000", "2a0800000000000001");

const WRITE_2: Step<'static> = Command("012002", "02", "00001000", "2a0800000000000001");

const REFUSED_1: Step<'static> = Refusal("212001", "01", "00001000", "07", "2700");

const REFUSED_2: Step<'static> = Refusal("212002", "02", "00001000", "07", "2700");

/// The block comes, and is durable.
const TAKEN_1: [Step<'static>; 3] = [
    SendTo("01", "01", "11"),
    Settle("4"),
    Response("210001", "01", "", ""),
];

const TAKEN_2: [Step<'static>; 3] = [
    SendTo("02", "02", "22"),
    Settle("4"),
    Response("210002", "02", "", ""),
];

/// fPowerOnWPEn protects unit 1 until the next power cycle.
#[test]
fn a_unit_is_protected_until_the_next_power_cycle(rt: HostRuntime) {
    let mut script = Script::over(rt.alloc(), PROTECTED);
    script.add(&[
        Settle("4"),
        Query("06", "81", "06030000", "", ""),
        Told("06", "8100", "06030000", "", "00000001", ""),
        Query("06", "81", "06030000", "", ""),
        Told("06", "8100", "06030000", "", "00000001", ""),
        WRITE_1,
        REFUSED_1,
        WRITE_2,
    ]);
    script.add(&TAKEN_2);
    script.add(&[
        Lines("stop", "stop ok"),
        Settle("16"),
        Query("06", "01", "05030000", "", ""),
        Told("06", "0100", "05030000", "", "", ""),
        WRITE_1,
    ]);
    script.add(&TAKEN_1);
    script.run(&rt);
}

/// fPermanentWPEn protects unit 2 for ever, from its QUERY REQUEST on.
#[test]
fn a_unit_is_protected_for_ever(rt: HostRuntime) {
    let mut script = Script::over(rt.alloc(), PROTECTED);
    script.add(&[
        Settle("4"),
        Query("06", "81", "06020000", "", ""),
        WRITE_2,
        REFUSED_2,
        Lines("reply", "reply none"),
        Settle("4"),
        Told("06", "8100", "06020000", "", "00000001", ""),
        WRITE_1,
    ]);
    script.add(&TAKEN_1);
    script.add(&[Lines("stop", "stop ok"), Settle("16"), WRITE_2, REFUSED_2]);
    script.run(&rt);
}

/// A READ from a unit that is protected goes on, as does a flush of the device.
#[test]
fn a_protected_unit_is_read(rt: HostRuntime) {
    let mut script = Script::over(rt.alloc(), PROTECTED);
    script.add(&[Settle("4"), WRITE_2]);
    script.add(&TAKEN_2);
    script.add(&[
        Query("06", "81", "06020000", "", ""),
        Settle("4"),
        Told("06", "8100", "06020000", "", "00000001", ""),
        Command("014002", "03", "00001000", "280000000000000001"),
        Settle("1"),
        BlockOf("02", "03", "22"),
        Response("210002", "03", "", ""),
        Command("010000", "04", "", "35"),
        Good("04"),
    ]);
    script.run(&rt);
}
