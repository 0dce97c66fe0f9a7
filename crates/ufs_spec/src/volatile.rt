//! What a device knows until the next power cycle.

/// How many LUNs a device may have: eight units, and the four well-known ones.
pub const LUNS: usize = 12;

/// What a device knows until the next power cycle, and not behind it.
#[derive(Clone, Copy, Debug, PartialEq, Eq)]
pub struct Volatile {
    /// fPowerOnWPEn: the units are protected whose protection lasts until the next power cycle
    /// (JESD220, 14.2).
    pub power_on: bool,
    /// fDeviceInit was set (JESD220, 14.2). A device of profile 0 has nothing to initialize, and keeps
    /// no note of it.
    pub initializing: bool,
    /// bActiveICCLevel: the greatest current that the host allows while the device is active (JESD220,
    /// 14.3). The device draws none that it knows of.
    pub current_level: u8,
    /// bRefClkFreq: the frequency of the reference clock (JESD220, 14.3), which is the link's.
    pub clock: u8,
    /// fBackgroundOpsEn: the device may do background operations (JESD220, 14.2). It does those alone that
    /// it needs for room, whatever this says.
    pub background: bool,
    /// Which LUNs have a unit attention that no host was told of (SAM): those of the units by their
    /// numbers, and then 81h, B0h, C4h and D0h. A device of profile 0 tells none.
    pub attentions: [bool; LUNS],
}

impl Volatile {
    /// As a life begins: each LUN has an attention, since the power came.
    pub const NEW: Volatile = Volatile {
        power_on: false,
        initializing: false,
        current_level: 0,
        clock: 1,
        background: true,
        attentions: [true; LUNS],
    };
}
