//! SCSI commands and sense data (SPC, SBC).
use crate::operations::Told;

/// A command as its CDB asks for it, whatever operation code spells it (SPC, command descriptor
/// block).
#[derive(Clone, Copy, Debug, PartialEq, Eq)]
pub enum Cdb {
    /// SPC, TEST UNIT READY: it is answered, and does nothing else.
    Nothing,
    /// SPC, REQUEST SENSE, INQUIRY, MODE SENSE, REPORT LUNS and REPORT SUPPORTED OPERATION CODES; SBC,
    /// READ CAPACITY: it sends what it tells of the device, no more than `allocation` bytes. REPORT LUNS
    /// selects units by `select`, INQUIRY a page of vital product data, MODE SENSE mode pages by its
    /// bytes 2 and 3, and REPORT SUPPORTED OPERATION CODES commands by its bytes 2 to 5.
    Tell {
        told: Told,
        select: u32,
        allocation: u32,
    },
    /// SBC, READ: so many blocks, from an address on. Its FUA bit changes nothing.
    Read {
        address: u64,
        blocks: u32,
    },
    /// SBC, WRITE: so many blocks, from an address on. With FUA (`forced`) it is answered once its
    /// blocks are durable.
    Write {
        address: u64,
        blocks: u32,
        forced: bool,
    },
    /// SBC, SYNCHRONIZE CACHE: with IMMED (`immediate`) it is answered at once. Its address and its
    /// count of blocks change nothing.
    Flush {
        immediate: bool,
    },
    /// SBC, VERIFY: so many blocks, from an address on, are read and not sent. With BYTCHK 01
    /// (`compared`) they are compared with what the host sends.
    Verify {
        address: u64,
        blocks: u32,
        compared: bool,
    },
    /// SBC, PRE-FETCH: so many blocks, from an address on; 0 stands for all up to the unit's end.
    /// Nothing is read.
    Prefetch {
        address: u64,
        blocks: u32,
    },
    /// SPC, SEND DIAGNOSTIC, with SELFTEST (`tests`) or without.
    Diagnose {
        tests: bool,
    },
    /// SBC, UNMAP: `list` is the length of its parameter list.
    Unmap {
        list: u32,
    },
    /// SPC, SECURITY PROTOCOL IN, of the protocol ECh (JESD220, RPMB): the region, which is the
    /// high byte of the specific field above 01h, and the length of its data.
    SecurityIn {
        region: u8,
        length: u32,
    },
    /// SPC, SECURITY PROTOCOL OUT, of the protocol ECh (JESD220, RPMB): the region, which is the
    /// high byte of the specific field above 01h, and the length of its data.
    SecurityOut {
        region: u8,
        length: u32,
    },
}

/// What went wrong: the sense key, the additional sense code and its qualifier (SPC, sense data).
#[derive(Clone, Copy, Debug, Default, PartialEq, Eq)]
pub struct Sense {
    pub key: u8,
    pub asc: u8,
    pub ascq: u8,
}

impl Sense {
    /// ILLEGAL REQUEST, parameter list length error (SPC, sense key and additional sense code definitions).
    pub const LIST_LENGTH: Sense = Sense {
        key: 0x05,
        asc: 0x1A,
        ascq: 0x00,
    };

    /// ILLEGAL REQUEST, invalid command operation code.
    pub const INVALID_OPCODE: Sense = Sense {
        key: 0x05,
        asc: 0x20,
        ascq: 0x00,
    };

    /// ILLEGAL REQUEST, logical block address out of range.
    pub const OUT_OF_RANGE: Sense = Sense {
        key: 0x05,
        asc: 0x21,
        ascq: 0x00,
    };

    /// ILLEGAL REQUEST, invalid field in CDB.
    pub const INVALID_FIELD: Sense = Sense {
        key: 0x05,
        asc: 0x24,
        ascq: 0x00,
    };

    /// ILLEGAL REQUEST, logical unit not supported.
    pub const NO_UNIT: Sense = Sense {
        key: 0x05,
        asc: 0x25,
        ascq: 0x00,
    };

    /// ILLEGAL REQUEST, invalid field in parameter list.
    pub const INVALID_LIST_FIELD: Sense = Sense {
        key: 0x05,
        asc: 0x26,
        ascq: 0x00,
    };

    /// UNIT ATTENTION, power on, reset, or bus device reset occurred.
    pub const UNIT_ATTENTION: Sense = Sense {
        key: 0x06,
        asc: 0x29,
        ascq: 0x00,
    };

    /// ABORTED COMMAND, invalid message error.
    pub const MESSAGE_ERROR: Sense = Sense {
        key: 0x0B,
        asc: 0x49,
        ascq: 0x00,
    };

    /// NO SENSE: there is nothing to tell.
    pub const NO_SENSE: Sense = Sense {
        key: 0x00,
        asc: 0x00,
        ascq: 0x00,
    };

    /// ILLEGAL REQUEST, saving parameters not supported.
    pub const SAVING_UNSUPPORTED: Sense = Sense {
        key: 0x05,
        asc: 0x39,
        ascq: 0x00,
    };

    /// HARDWARE ERROR, logical unit failed self-test.
    pub const SELF_TEST_FAILED: Sense = Sense {
        key: 0x04,
        asc: 0x3E,
        ascq: 0x03,
    };

    /// ILLEGAL REQUEST, command sequence error.
    pub const COMMAND_SEQUENCE: Sense = Sense {
        key: 0x05,
        asc: 0x2C,
        ascq: 0x00,
    };

    /// NOT READY, in process of becoming ready.
    pub const NOT_READY: Sense = Sense {
        key: 0x02,
        asc: 0x04,
        ascq: 0x01,
    };

    /// DATA PROTECT, write protected.
    pub const WRITE_PROTECTED: Sense = Sense {
        key: 0x07,
        asc: 0x27,
        ascq: 0x00,
    };

    /// MEDIUM ERROR, unrecovered read error.
    pub const READ_ERROR: Sense = Sense {
        key: 0x03,
        asc: 0x11,
        ascq: 0x00,
    };

    /// MISCOMPARE, miscompare during verify operation.
    pub const MISCOMPARE: Sense = Sense {
        key: 0x0E,
        asc: 0x1D,
        ascq: 0x00,
    };

    /// MEDIUM ERROR, write error.
    pub const WRITE_ERROR: Sense = Sense {
        key: 0x03,
        asc: 0x0C,
        ascq: 0x00,
    };
}
