//! What a command that passed all checks does.
use task_set::Wanted;
use ufs_spec::{Key, Sense};

/// What a command tells of the device and of its units.
#[derive(Clone, Copy, Debug, PartialEq, Eq)]
pub enum Identity {
    /// What is wrong at the LUN, or that nothing is (SPC, REQUEST SENSE).
    Sense { sense: Sense },
    /// What the unit is: its device type (SPC, INQUIRY).
    Unit { device_type: u8 },
    /// How many blocks the unit has, and how long a block is (SBC, READ CAPACITY).
    Capacity { blocks: u32 },
    /// Which units there are, of those that are selected (SPC, REPORT LUNS).
    Luns { select: u32 },
    /// The same as `Capacity` in a longer form (SBC, READ CAPACITY(16)).
    LongCapacity { blocks: u32 },
    /// A page of vital product data of the unit with this LUN byte (SPC, INQUIRY).
    Page { lun: u8, page: u32 },
    /// Mode pages, and whether the unit takes no writes now (SPC, MODE SENSE(10)).
    Modes { select: u32, is_guarded: bool },
    /// The same behind a shorter header (SPC, MODE SENSE(6)).
    ShortModes { select: u32, is_guarded: bool },
    /// Which commands a unit takes, of those that are selected (SPC, REPORT SUPPORTED OPERATION CODES).
    Operations { select: u32 },
}

/// Where the data come from that a task keeps and sends in one DATA IN.
#[derive(Clone, Copy, Debug, PartialEq, Eq)]
pub enum Source {
    /// It tells this.
    Identity { told: Identity },
    /// It takes the frames that wait in the response register of this region of the RPMB (JESD220, 12.4).
    Response { region: u8 },
}

/// What a command that passed all checks does.
#[derive(Clone, Copy, Debug, PartialEq, Eq)]
pub enum Plan {
    /// It is answered GOOD at once: it has no block, or its host takes none.
    Nothing {
        length: u32,
    },
    /// It is a WRITE of so many bytes of which its host brings no whole block: it is answered GOOD at once.
    Drop {
        length: u32,
    },
    /// It sends so many blocks from this address on, of a command of so many bytes.
    Read {
        key: Key,
        blocks: u16,
        length: u32,
    },
    /// It looks whether so many blocks from this address on can be read, and sends none of them.
    Verify {
        key: Key,
        blocks: u16,
    },
    /// It compares so many blocks from this address on with those that it asks its host for.
    Compare {
        key: Key,
        blocks: u16,
    },
    /// It claims so many slots of the write cache, and asks its host for this.
    Gather {
        wanted: Wanted,
        slots: u16,
    },
    /// It sends the first so many bytes of what comes from there, of which its host takes so many.
    Send {
        from: Source,
        length: u32,
        taken: u32,
    },
    /// It is answered GOOD once all that was accepted before it is durable.
    Flush,
}
