//! The table of the commands: one row an operation code (SPC, SBC).

/// SPC, TEST UNIT READY.
pub const TEST_UNIT_READY: u8 = 0x00;

/// SPC, REQUEST SENSE.
pub const REQUEST_SENSE: u8 = 0x03;

/// SBC, READ(6).
pub const READ_6: u8 = 0x08;

/// SBC, WRITE(6).
pub const WRITE_6: u8 = 0x0A;

/// SPC, INQUIRY.
pub const INQUIRY: u8 = 0x12;

/// SBC, READ CAPACITY(10).
pub const READ_CAPACITY_10: u8 = 0x25;

/// SBC, READ(10).
pub const READ_10: u8 = 0x28;

/// SBC, WRITE(10).
pub const WRITE_10: u8 = 0x2A;

/// SBC, VERIFY(10).
pub const VERIFY_10: u8 = 0x2F;

/// SBC, SYNCHRONIZE CACHE(10).
pub const SYNCHRONIZE_CACHE_10: u8 = 0x35;

/// SBC, UNMAP.
pub const UNMAP: u8 = 0x42;

/// SPC, REPORT LUNS.
pub const REPORT_LUNS: u8 = 0xA0;

/// SPC, MODE SENSE(6).
pub const MODE_SENSE_6: u8 = 0x1A;

/// SPC, SEND DIAGNOSTIC.
pub const SEND_DIAGNOSTIC: u8 = 0x1D;

/// SBC, PRE-FETCH(10).
pub const PRE_FETCH_10: u8 = 0x34;

/// SPC, MODE SENSE(10).
pub const MODE_SENSE_10: u8 = 0x5A;

/// SBC, READ(16).
pub const READ_16: u8 = 0x88;

/// SBC, WRITE(16).
pub const WRITE_16: u8 = 0x8A;

/// SBC, PRE-FETCH(16).
pub const PRE_FETCH_16: u8 = 0x90;

/// SBC, SYNCHRONIZE CACHE(16).
pub const SYNCHRONIZE_CACHE_16: u8 = 0x91;

/// SPC, SERVICE ACTION IN(16): bits 4..0 of byte 1 say which command it is.
pub const SERVICE_ACTION_IN_16: u8 = 0x9E;

/// SBC, READ CAPACITY(16), a service action of SERVICE ACTION IN(16).
pub const READ_CAPACITY_16: u8 = 0x10;

/// SPC, SECURITY PROTOCOL IN.
pub const SECURITY_IN: u8 = 0xA2;

/// SPC, MAINTENANCE IN: bits 4..0 of byte 1 say which command it is.
pub const MAINTENANCE_IN: u8 = 0xA3;

/// SPC, REPORT SUPPORTED OPERATION CODES, a service action of MAINTENANCE IN.
pub const REPORT_OPERATIONS: u8 = 0x0C;

/// SPC, SECURITY PROTOCOL OUT.
pub const SECURITY_OUT: u8 = 0xB5;

/// FUA, bit 3 of byte 1 of READ and WRITE of ten and sixteen bytes (SBC).
pub const FUA: u8 = 0x08;

/// IMMED, bit 1 of byte 1 of SYNCHRONIZE CACHE and of PRE-FETCH (SBC).
pub const IMMED: u8 = 0x02;

/// DPO, bit 4 of byte 1 of READ and WRITE of ten and sixteen bytes, and of VERIFY (SBC).
pub const DPO: u8 = 0x10;

/// The lower bit of BYTCHK, bit 1 of byte 1 of VERIFY (SBC): the host sends what the blocks are compared
/// with.
pub const BYTCHK: u8 = 0x02;

/// EVPD, bit 0 of byte 1 of INQUIRY (SPC): a page of vital product data is asked for.
pub const EVPD: u8 = 0x01;

/// LLBAA and DBD, bits 4 and 3 of byte 1 of MODE SENSE (SPC): a device without block descriptors sends
/// the same with and without them.
pub const MODE_OPTIONS: u8 = 0x18;

/// SELFTEST, bit 2 of byte 1 of SEND DIAGNOSTIC (SPC).
pub const SELF_TEST: u8 = 0x04;

/// SELFTEST, and PF, bit 4 of byte 1 of SEND DIAGNOSTIC (SPC).
pub const TEST_OPTIONS: u8 = 0x14;

/// The bits of byte 1 that hold a service action (SPC).
pub const ACTION: u8 = 0x1F;

/// RCTD and the reporting options, bits 7 and 2..0 of byte 2 of REPORT SUPPORTED OPERATION CODES (SPC).
pub const REPORTING: u8 = 0x87;

/// Where the fields of a CDB lie (SPC, SBC). Byte 0 is the operation code.
#[derive(Clone, Copy, Debug, PartialEq, Eq)]
pub enum Layout {
    /// It has no fields but options in byte 1.
    Bare,
    /// The six-byte form of SBC: the address in bits 4..0 of byte 1 and in bytes 2 and 3, the count
    /// of blocks in byte 4, where 0 means 256.
    Six,
    /// The ten-byte form of SBC: options in byte 1, the address in bytes 2 to 5, the group number in
    /// bits 4..0 of byte 6, the count of blocks in bytes 7 and 8.
    Ten,
    /// The sixteen-byte form of SBC: options in byte 1, the address in bytes 2 to 9, the count of
    /// blocks in bytes 10 to 13, the group number in bits 4..0 of byte 14.
    Sixteen,
    /// SPC, REQUEST SENSE: the allocation length in byte 4.
    SenseRequest,
    /// SPC, INQUIRY: EVPD in byte 1, the page in byte 2, the allocation length in bytes 3 and 4.
    UnitRequest,
    /// SBC, READ CAPACITY(16): the service action in byte 1, the allocation length in bytes 10 to 13.
    ActionRequest,
    /// SPC, MODE SENSE(6): the page with what is asked of it in byte 2, the subpage in byte 3, the
    /// allocation length in byte 4.
    ModesSix,
    /// SPC, MODE SENSE(10): the same with the allocation length in bytes 7 and 8.
    ModesTen,
    /// SBC, UNMAP: the length of the parameter list in bytes 7 and 8.
    ParameterList,
    /// SPC, REPORT LUNS: the selection in byte 2, the allocation length in bytes 6 to 9.
    Selection,
    /// SPC, SECURITY PROTOCOL IN and OUT: the protocol in byte 1, the specific field in bytes 2 and
    /// 3, the length in bytes 6 to 9.
    Security,
    /// SPC, REPORT SUPPORTED OPERATION CODES: the service action in byte 1, RCTD and the reporting
    /// options in byte 2, the operation code that is asked for in byte 3, its service action in bytes 4
    /// and 5, the allocation length in bytes 6 to 9.
    OperationsRequest,
}

/// What a command tells of the device, in data that are known at once (SPC, SBC).
#[derive(Clone, Copy, Debug, PartialEq, Eq)]
pub enum Told {
    /// SPC, fixed format sense data.
    Sense,
    /// SPC, standard INQUIRY data.
    Identity,
    /// SBC, READ CAPACITY(10) parameter data.
    Capacity,
    /// SPC, REPORT LUNS parameter data: the selection says of which units.
    Units,
    /// SBC, READ CAPACITY(16) parameter data.
    LongCapacity,
    /// SPC, the page of vital product data that is selected.
    Page,
    /// SPC, the mode pages that are selected, behind the mode parameter header(10).
    Modes,
    /// The same behind the mode parameter header(6).
    ShortModes,
    /// SPC, REPORT SUPPORTED OPERATION CODES parameter data: of all commands that a unit takes, or of
    /// the one that is selected.
    Operations,
}

/// What a command does, whatever its CDB looks like: all commands of one kind begin in one way.
#[derive(Clone, Copy, Debug, PartialEq, Eq)]
pub enum Kind {
    /// It is answered, and does nothing else.
    Nothing,
    /// It sends data that are known at once.
    Tell(Told),
    /// It sends blocks of a unit.
    Read,
    /// It brings blocks of a unit.
    Write,
    /// It makes durable what was accepted.
    Flush,
    /// It looks whether blocks of a unit can be read, or are those that it brings.
    Verify,
    /// It names blocks that may be read soon, and has no data.
    Prefetch,
    /// It asks whether the device is in order.
    Diagnose,
    /// It brings a list of blocks that become zeros.
    Unmap,
    /// It sends frames of the RPMB (JESD220, 12.4).
    SecurityIn,
    /// It brings frames of the RPMB (JESD220, 12.4).
    SecurityOut,
}

/// Which LUNs take a command (this profile; JESD220, 10.8.5).
#[derive(Clone, Copy, Debug, PartialEq, Eq)]
pub struct Takers {
    /// The units of the configuration.
    pub units: bool,
    /// 81h, the well-known unit REPORT LUNS.
    pub report_luns: bool,
    /// B0h, the well-known unit BOOT.
    pub boot: bool,
    /// C4h, the well-known unit RPMB.
    pub rpmb: bool,
    /// D0h, the well-known unit UFS DEVICE.
    pub device: bool,
}

impl Takers {
    /// Every LUN.
    pub const ALL: Takers = Takers {
        units: true,
        report_luns: true,
        boot: true,
        rpmb: true,
        device: true,
    };

    /// The units of the configuration alone.
    pub const UNITS: Takers = Takers {
        units: true,
        report_luns: false,
        boot: false,
        rpmb: false,
        device: false,
    };

    /// What has blocks that are read: the units of the configuration and the unit that boots.
    pub const READERS: Takers = Takers {
        units: true,
        report_luns: false,
        boot: true,
        rpmb: false,
        device: false,
    };

    /// The units of the configuration, and the one that lists units.
    pub const LISTERS: Takers = Takers {
        units: true,
        report_luns: true,
        boot: false,
        rpmb: false,
        device: false,
    };

    /// The units of the configuration, and the device as a whole.
    pub const FLUSHERS: Takers = Takers {
        units: true,
        report_luns: false,
        boot: false,
        rpmb: false,
        device: true,
    };

    /// The replay protected memory block alone.
    pub const RPMB: Takers = Takers {
        units: false,
        report_luns: false,
        boot: false,
        rpmb: true,
        device: false,
    };
}

/// A command of the table.
#[derive(Clone, Copy, Debug, PartialEq, Eq)]
pub struct Row {
    /// Byte 0 of its CDB.
    pub operation: u8,
    /// The service action in byte 1, if commands share the operation code.
    pub action: Option<u8>,
    /// The first profile that has it.
    pub profile: u8,
    /// Where its fields lie.
    pub layout: Layout,
    /// The bits of byte 1 that each of the two profiles takes.
    pub options: [u8; 2],
    /// The one of them that says how it is done; the others change nothing.
    pub option: u8,
    /// Which LUNs take it.
    pub takers: Takers,
    /// What it does.
    pub kind: Kind,
}

/// What the fields of a CDB hold. A field that its layout has not holds 0, but the count then
/// limits nothing.
#[derive(Clone, Copy, Debug, PartialEq, Eq)]
pub struct Fields {
    /// The first address.
    pub address: u64,
    /// The count of blocks, or of bytes of data.
    pub count: u32,
    /// What is selected: units, a region of the RPMB, a page of vital product data, mode pages, or a
    /// command.
    pub select: u32,
    /// The security protocol, and then the low byte of its specific field.
    pub protocol: u16,
    /// The group number (SBC).
    pub group: u8,
    /// Whether its option is set: FUA, IMMED, BYTCHK, EVPD or SELFTEST.
    pub option: bool,
}

/// The commands that a device knows.
pub const COMMANDS: [Row; 24] = [
    Row {
        operation: TEST_UNIT_READY,
        action: None,
        profile: 0,
        layout: Layout::Bare,
        options: [0, 0],
        option: 0,
        takers: Takers::ALL,
        kind: Kind::Nothing,
    },
    Row {
        operation: REQUEST_SENSE,
        action: None,
        profile: 0,
        layout: Layout::SenseRequest,
        options: [0, 0],
        option: 0,
        takers: Takers::ALL,
        kind: Kind::Tell(Told::Sense),
    },
    Row {
        operation: READ_6,
        action: None,
        profile: 0,
        layout: Layout::Six,
        options: [0, 0],
        option: 0,
        takers: Takers::READERS,
        kind: Kind::Read,
    },
    Row {
        operation: WRITE_6,
        action: None,
        profile: 0,
        layout: Layout::Six,
        options: [0, 0],
        option: 0,
        takers: Takers::UNITS,
        kind: Kind::Write,
    },
    Row {
        operation: INQUIRY,
        action: None,
        profile: 0,
        layout: Layout::UnitRequest,
        options: [0, EVPD],
        option: EVPD,
        takers: Takers::ALL,
        kind: Kind::Tell(Told::Identity),
    },
    Row {
        operation: MODE_SENSE_6,
        action: None,
        profile: 1,
        layout: Layout::ModesSix,
        options: [0, MODE_OPTIONS],
        option: 0,
        takers: Takers::UNITS,
        kind: Kind::Tell(Told::ShortModes),
    },
    Row {
        operation: SEND_DIAGNOSTIC,
        action: None,
        profile: 1,
        layout: Layout::Bare,
        options: [0, TEST_OPTIONS],
        option: SELF_TEST,
        takers: Takers::FLUSHERS,
        kind: Kind::Diagnose,
    },
    Row {
        operation: READ_CAPACITY_10,
        action: None,
        profile: 0,
        layout: Layout::Bare,
        options: [0, 0],
        option: 0,
        takers: Takers::READERS,
        kind: Kind::Tell(Told::Capacity),
    },
    Row {
        operation: READ_10,
        action: None,
        profile: 0,
        layout: Layout::Ten,
        options: [FUA, FUA | DPO],
        option: FUA,
        takers: Takers::READERS,
        kind: Kind::Read,
    },
    Row {
        operation: WRITE_10,
        action: None,
        profile: 0,
        layout: Layout::Ten,
        options: [FUA, FUA | DPO],
        option: FUA,
        takers: Takers::UNITS,
        kind: Kind::Write,
    },
    Row {
        operation: VERIFY_10,
        action: None,
        profile: 1,
        layout: Layout::Ten,
        options: [0, DPO | BYTCHK],
        option: BYTCHK,
        takers: Takers::UNITS,
        kind: Kind::Verify,
    },
    Row {
        operation: PRE_FETCH_10,
        action: None,
        profile: 1,
        layout: Layout::Ten,
        options: [0, IMMED],
        option: 0,
        takers: Takers::UNITS,
        kind: Kind::Prefetch,
    },
    Row {
        operation: SYNCHRONIZE_CACHE_10,
        action: None,
        profile: 0,
        layout: Layout::Ten,
        options: [IMMED, IMMED],
        option: IMMED,
        takers: Takers::FLUSHERS,
        kind: Kind::Flush,
    },
    Row {
        operation: UNMAP,
        action: None,
        profile: 0,
        layout: Layout::ParameterList,
        options: [0, 0],
        option: 0,
        takers: Takers::UNITS,
        kind: Kind::Unmap,
    },
    Row {
        operation: MODE_SENSE_10,
        action: None,
        profile: 1,
        layout: Layout::ModesTen,
        options: [0, MODE_OPTIONS],
        option: 0,
        takers: Takers::UNITS,
        kind: Kind::Tell(Told::Modes),
    },
    Row {
        operation: READ_16,
        action: None,
        profile: 1,
        layout: Layout::Sixteen,
        options: [0, FUA | DPO],
        option: FUA,
        takers: Takers::READERS,
        kind: Kind::Read,
    },
    Row {
        operation: WRITE_16,
        action: None,
        profile: 1,
        layout: Layout::Sixteen,
        options: [0, FUA | DPO],
        option: FUA,
        takers: Takers::UNITS,
        kind: Kind::Write,
    },
    Row {
        operation: PRE_FETCH_16,
        action: None,
        profile: 1,
        layout: Layout::Sixteen,
        options: [0, IMMED],
        option: 0,
        takers: Takers::UNITS,
        kind: Kind::Prefetch,
    },
    Row {
        operation: SYNCHRONIZE_CACHE_16,
        action: None,
        profile: 1,
        layout: Layout::Sixteen,
        options: [0, IMMED],
        option: IMMED,
        takers: Takers::FLUSHERS,
        kind: Kind::Flush,
    },
    Row {
        operation: SERVICE_ACTION_IN_16,
        action: Some(READ_CAPACITY_16),
        profile: 1,
        layout: Layout::ActionRequest,
        options: [0, ACTION],
        option: 0,
        takers: Takers::READERS,
        kind: Kind::Tell(Told::LongCapacity),
    },
    Row {
        operation: REPORT_LUNS,
        action: None,
        profile: 0,
        layout: Layout::Selection,
        options: [0, 0],
        option: 0,
        takers: Takers::LISTERS,
        kind: Kind::Tell(Told::Units),
    },
    Row {
        operation: SECURITY_IN,
        action: None,
        profile: 0,
        layout: Layout::Security,
        options: [0, 0],
        option: 0,
        takers: Takers::RPMB,
        kind: Kind::SecurityIn,
    },
    Row {
        operation: MAINTENANCE_IN,
        action: Some(REPORT_OPERATIONS),
        profile: 1,
        layout: Layout::OperationsRequest,
        options: [0, ACTION],
        option: 0,
        takers: Takers::UNITS,
        kind: Kind::Tell(Told::Operations),
    },
    Row {
        operation: SECURITY_OUT,
        action: None,
        profile: 0,
        layout: Layout::Security,
        options: [0, 0],
        option: 0,
        takers: Takers::RPMB,
        kind: Kind::SecurityOut,
    },
];
