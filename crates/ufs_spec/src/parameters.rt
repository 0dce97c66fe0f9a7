//! The table of what queries name: one row a descriptor, an attribute or a flag (JESD220, 14).

/// What the opcode of a query is about.
#[derive(Clone, Copy, Debug, PartialEq, Eq)]
pub enum Class {
    Descriptor,
    Attribute,
    Flag,
}

/// Which index and which selector name one of those that a row stands for.
#[derive(Clone, Copy, Debug, PartialEq, Eq)]
pub enum Indexes {
    /// There is one: both are 0.
    One,
    /// There is one for each unit: the index is its number, and the selector is 0.
    Units,
    /// There is one for each unit that a device may have, 0 to 7, and one for the RPMB unit, C4h. A
    /// device of profile 0 has those of its units alone. The selector is 0.
    AllUnits,
    /// There are five: the index is 1 to 5, and the selector is 0.
    Strings,
    /// There are fifteen for each unit: the index is its number, and the selector is 1 to Fh.
    Contexts,
}

/// What a query may do.
#[derive(Clone, Copy, Debug, PartialEq, Eq)]
pub struct Access {
    /// Read it: opcodes 1, 3 and 5.
    pub reads: bool,
    /// Write or set it: opcodes 2, 4 and 6.
    pub writes: bool,
    /// Clear it: opcode 7.
    pub clears: bool,
    /// Toggle it: opcode 8.
    pub toggles: bool,
}

impl Access {
    /// Nothing at all.
    pub const NONE: Access = Access {
        reads: false,
        writes: false,
        clears: false,
        toggles: false,
    };

    /// Read it.
    pub const READ: Access = Access {
        reads: true,
        writes: false,
        clears: false,
        toggles: false,
    };

    /// Write it.
    pub const WRITE: Access = Access {
        reads: false,
        writes: true,
        clears: false,
        toggles: false,
    };

    /// Read it, and write or set it.
    pub const BOTH: Access = Access {
        reads: true,
        writes: true,
        clears: false,
        toggles: false,
    };

    /// Read and clear it.
    pub const CLEARED: Access = Access {
        reads: true,
        writes: false,
        clears: true,
        toggles: false,
    };

    /// Read, set, clear and toggle it.
    pub const SWITCH: Access = Access {
        reads: true,
        writes: true,
        clears: true,
        toggles: true,
    };
}

/// A descriptor, an attribute or a flag.
#[derive(Clone, Copy, Debug, PartialEq, Eq)]
pub struct Parameter {
    pub class: Class,
    pub idn: u8,
    /// The profile from which on a device has it.
    pub profile: u8,
    pub indexes: Indexes,
    pub access: Access,
    /// The least and the greatest value that an attribute may be written.
    pub least: u32,
    pub greatest: u32,
}

/// All that queries name.
pub const PARAMETERS: [Parameter; 31] = [
    // The device descriptor (14.1.4.2).
    Parameter {
        class: Class::Descriptor,
        idn: 0x00,
        profile: 0,
        indexes: Indexes::One,
        access: Access::READ,
        least: 0,
        greatest: 0,
    },
    // The configuration descriptor (14.1.4.3).
    Parameter {
        class: Class::Descriptor,
        idn: 0x01,
        profile: 1,
        indexes: Indexes::One,
        access: Access::READ,
        least: 0,
        greatest: 0,
    },
    // The unit descriptors (14.1.4.5) and that of the RPMB unit (14.1.4.6).
    Parameter {
        class: Class::Descriptor,
        idn: 0x02,
        profile: 0,
        indexes: Indexes::AllUnits,
        access: Access::READ,
        least: 0,
        greatest: 0,
    },
    // The interconnect descriptor (14.1.4.8).
    Parameter {
        class: Class::Descriptor,
        idn: 0x04,
        profile: 1,
        indexes: Indexes::One,
        access: Access::READ,
        least: 0,
        greatest: 0,
    },
    // The string descriptors (14.1.4.9).
    Parameter {
        class: Class::Descriptor,
        idn: 0x05,
        profile: 1,
        indexes: Indexes::Strings,
        access: Access::READ,
        least: 0,
        greatest: 0,
    },
    // The geometry descriptor (14.1.4.4).
    Parameter {
        class: Class::Descriptor,
        idn: 0x07,
        profile: 1,
        indexes: Indexes::One,
        access: Access::READ,
        least: 0,
        greatest: 0,
    },
    // The power parameters descriptor (14.1.4.7).
    Parameter {
        class: Class::Descriptor,
        idn: 0x08,
        profile: 1,
        indexes: Indexes::One,
        access: Access::READ,
        least: 0,
        greatest: 0,
    },
    // bBootLunEn.
    Parameter {
        class: Class::Attribute,
        idn: 0x00,
        profile: 0,
        indexes: Indexes::One,
        access: Access::BOTH,
        least: 0,
        greatest: 2,
    },
    // bCurrentPowerMode.
    Parameter {
        class: Class::Attribute,
        idn: 0x02,
        profile: 1,
        indexes: Indexes::One,
        access: Access::READ,
        least: 0,
        greatest: 0,
    },
    // bActiveICCLevel.
    Parameter {
        class: Class::Attribute,
        idn: 0x03,
        profile: 1,
        indexes: Indexes::One,
        access: Access::BOTH,
        least: 0,
        greatest: 0xF,
    },
    // bOutOfOrderDataEn: data come in order.
    Parameter {
        class: Class::Attribute,
        idn: 0x04,
        profile: 1,
        indexes: Indexes::One,
        access: Access::BOTH,
        least: 0,
        greatest: 0,
    },
    // bPurgeStatus.
    Parameter {
        class: Class::Attribute,
        idn: 0x06,
        profile: 1,
        indexes: Indexes::One,
        access: Access::READ,
        least: 0,
        greatest: 0,
    },
    // bMaxDataInSize, in 512 bytes: no other can be set.
    Parameter {
        class: Class::Attribute,
        idn: 0x07,
        profile: 1,
        indexes: Indexes::One,
        access: Access::BOTH,
        least: 8,
        greatest: 8,
    },
    // bMaxDataOutSize, likewise.
    Parameter {
        class: Class::Attribute,
        idn: 0x08,
        profile: 1,
        indexes: Indexes::One,
        access: Access::BOTH,
        least: 8,
        greatest: 8,
    },
    // dDynCapNeeded of a unit.
    Parameter {
        class: Class::Attribute,
        idn: 0x09,
        profile: 1,
        indexes: Indexes::Units,
        access: Access::READ,
        least: 0,
        greatest: 0,
    },
    // bRefClkFreq.
    Parameter {
        class: Class::Attribute,
        idn: 0x0A,
        profile: 1,
        indexes: Indexes::One,
        access: Access::BOTH,
        least: 0,
        greatest: 3,
    },
    // bConfigDescrLock: it was written when the device was made.
    Parameter {
        class: Class::Attribute,
        idn: 0x0B,
        profile: 1,
        indexes: Indexes::One,
        access: Access::BOTH,
        least: 0,
        greatest: u32::MAX,
    },
    // dSecondsPassed, of which no note is kept.
    Parameter {
        class: Class::Attribute,
        idn: 0x0F,
        profile: 1,
        indexes: Indexes::One,
        access: Access::WRITE,
        least: 0,
        greatest: u32::MAX,
    },
    // wContextConf of a context of a unit: no context can be set up.
    Parameter {
        class: Class::Attribute,
        idn: 0x10,
        profile: 1,
        indexes: Indexes::Contexts,
        access: Access::BOTH,
        least: 0,
        greatest: 0,
    },
    // bDeviceFFUStatus.
    Parameter {
        class: Class::Attribute,
        idn: 0x14,
        profile: 1,
        indexes: Indexes::One,
        access: Access::READ,
        least: 0,
        greatest: 0,
    },
    // bPSAState.
    Parameter {
        class: Class::Attribute,
        idn: 0x15,
        profile: 1,
        indexes: Indexes::One,
        access: Access::READ,
        least: 0,
        greatest: 0,
    },
    // dPSADataSize.
    Parameter {
        class: Class::Attribute,
        idn: 0x16,
        profile: 1,
        indexes: Indexes::One,
        access: Access::READ,
        least: 0,
        greatest: 0,
    },
    // fDeviceInit.
    Parameter {
        class: Class::Flag,
        idn: 0x01,
        profile: 0,
        indexes: Indexes::One,
        access: Access::BOTH,
        least: 0,
        greatest: 0,
    },
    // fPermanentWPEn.
    Parameter {
        class: Class::Flag,
        idn: 0x02,
        profile: 0,
        indexes: Indexes::One,
        access: Access::BOTH,
        least: 0,
        greatest: 0,
    },
    // fPowerOnWPEn.
    Parameter {
        class: Class::Flag,
        idn: 0x03,
        profile: 0,
        indexes: Indexes::One,
        access: Access::BOTH,
        least: 0,
        greatest: 0,
    },
    // fBackgroundOpsEn.
    Parameter {
        class: Class::Flag,
        idn: 0x04,
        profile: 1,
        indexes: Indexes::One,
        access: Access::SWITCH,
        least: 0,
        greatest: 0,
    },
    // fDeviceLifeSpanModeEn, which cannot be set.
    Parameter {
        class: Class::Flag,
        idn: 0x05,
        profile: 1,
        indexes: Indexes::One,
        access: Access::CLEARED,
        least: 0,
        greatest: 0,
    },
    // fPurgeEnable: no purge can be begun, and it is not read.
    Parameter {
        class: Class::Flag,
        idn: 0x06,
        profile: 1,
        indexes: Indexes::One,
        access: Access::NONE,
        least: 0,
        greatest: 0,
    },
    // fPhyResourceRemoval, which cannot be set.
    Parameter {
        class: Class::Flag,
        idn: 0x08,
        profile: 1,
        indexes: Indexes::One,
        access: Access::CLEARED,
        least: 0,
        greatest: 0,
    },
    // fBusyRTC.
    Parameter {
        class: Class::Flag,
        idn: 0x09,
        profile: 1,
        indexes: Indexes::One,
        access: Access::READ,
        least: 0,
        greatest: 0,
    },
    // fPermanentlyDisableFwUpdate, which cannot be set.
    Parameter {
        class: Class::Flag,
        idn: 0x0B,
        profile: 1,
        indexes: Indexes::One,
        access: Access::READ,
        least: 0,
        greatest: 0,
    },
];
