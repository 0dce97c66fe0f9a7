//! What a query asks, and the settings that it finds.
use ufs_spec::{Asked, Volatile};

/// A QUERY REQUEST without its tag and its data (JESD220, 10.7.8).
#[derive(Clone, Copy)]
pub struct QueryRequest {
    /// Standard read (01h) or standard write (81h).
    pub function: u8,
    /// The opcode with IDN, index and selector.
    pub asked: Asked,
    /// How many bytes of a descriptor are asked for.
    pub length: u16,
    /// What an attribute is written with.
    pub value: u32,
}

/// What a query finds of the settings, durable or not (JESD220, 14.2 and 14.3).
#[derive(Clone, Copy)]
pub struct QuerySettings {
    /// bBootLunEn: 0 none, 1 A, 2 B.
    pub boot: u8,
    /// fPermanentWPEn.
    pub is_permanent: bool,
    /// What lasts until the next power cycle.
    pub volatile: Volatile,
    /// Whether all that was lost is mended.
    pub is_mended: bool,
}
