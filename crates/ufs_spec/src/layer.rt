//! What the translation layer calls the pages of groups, for whom it reads a page, and where it finds
//! what is looked up.
use crate::flash::Place;

/// A page of a group, by the group's number and the page's index in the group.
#[derive(Clone, Copy, Debug, Default, PartialEq, Eq)]
pub struct Name {
    pub number: u64,
    pub index: u16,
}

/// For whom a page is read.
#[derive(Clone, Copy, Debug, PartialEq, Eq)]
pub enum Reader {
    /// The block with this index of the READ with this tag.
    ForTask { tag: u8, index: u16 },
    /// The step of mending or collection that is under way.
    ForStep,
    /// The page of a group, by number and index, that a command has only in part: the rest of it is read.
    ForRest { number: u64, index: u16 },
    /// Whoever wanted it has let go of it since the read was given: nothing follows from its end.
    ForNobody,
}

/// Where a content is found that was looked up.
#[derive(Clone, Copy, Debug, Default, PartialEq, Eq)]
pub enum Looked {
    /// Nowhere: it was never written, and is zeros.
    #[default]
    Unwritten,
    /// In a slot of the write cache, since the group of this page is not durable yet.
    InSlot(Name),
    /// On the page of this name, which is at this place.
    OnPage(Name, Place),
}
