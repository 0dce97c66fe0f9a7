//! What is written down of the pages that were read.
use ufs_spec::{Place, Tag};

/// A page of a group: where it lies, and what its tag says.
#[derive(Clone, Copy, Debug, Default, PartialEq, Eq)]
pub struct FoundPage {
    pub place: Place,
    pub tag: Tag,
}

/// A mark: where it lies, its number among marks, and the frontier that it records.
#[derive(Clone, Copy)]
pub struct FoundMark {
    pub place: Place,
    pub number: u64,
    pub records: u64,
}
