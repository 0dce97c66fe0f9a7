//! What the translation layer writes down of the mending and of its steps.
use ufs_spec::{Fence, Key, Place, Tag};
use unit_map::Stored;
use write_cache::Part;

/// A page that a command brings under a key of its own: the blocks of 256 bytes that it has of the page,
/// and their bytes.
#[derive(Clone, Copy)]
pub struct Brought<'a> {
    pub key: Key,
    pub part: Part,
    pub bytes: &'a [u8],
}

/// How far the mending is.
#[derive(Clone, Copy, Debug, PartialEq, Eq)]
pub enum Mending {
    /// The first mark of this life is not finished. It has this fence.
    Unmarked(Option<Fence>),
    /// It is finished, and the keys with a lost page are repaired one after another. A mark without a
    /// fence comes last.
    Repairing,
    /// A mark without a fence is finished.
    Mended,
}

/// The step of the mending or of a collection that is under way.
#[derive(Clone, Copy, Debug, PartialEq, Eq)]
pub enum Step {
    /// A mark with this number and this fence.
    Mark {
        number: u64,
        fence: Option<Fence>,
    },
    /// The repair of a key, under this number: its content stands on that page, or is zeros. It can be
    /// programmed once its content is there.
    Repair {
        number: u64,
        key: Key,
        from: Option<Stored>,
        is_there: bool,
    },
    /// The copy of the page there, which is of this key and of the group with this number. It can be
    /// programmed once it was read: its tag is known then.
    Copy {
        number: u64,
        key: Key,
        from: Place,
        tag: Option<Tag>,
    },
}

/// What waits to be programmed: the page of the step under way, or that of this index in the pending group
/// of this number.
#[derive(Clone, Copy, Debug, PartialEq, Eq)]
pub enum Waiting {
    Step,
    Group { number: u64, index: u16 },
}
