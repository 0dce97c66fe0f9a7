//! What was found on a device after a stop, beside the blocks of its units.

/// What was found of a region of the replay protected memory block.
#[derive(Clone, Copy)]
pub struct FoundRegion<'a> {
    /// The key, if one is set.
    pub key: Option<[u8; 32]>,
    /// How many writes the area has had.
    pub counter: u32,
    /// The bytes of the area, if a key is set: without one none can be read.
    pub area: &'a [u8],
}

/// What was found beside the blocks of the units.
#[derive(Clone, Copy)]
pub struct FoundRest<'a> {
    /// bBootLunEn.
    pub boot: u8,
    /// fPermanentWPEn.
    pub is_permanent: bool,
    /// The regions of the replay protected memory block, by their numbers. What is said of a region that
    /// is not there counts for nothing.
    pub regions: [FoundRegion<'a>; 4],
}
