//! What hosts have drawn from the device.
ghost use Rattle.std.specs.Prelude.{◌≡◌, ◌<◌, ℕ, [], Some, true, slice_get, slice_set};
ghost use Rattle.stress.specs.Queues.{OthersStay};

use crate::aborts::Aborts;
use crate::replies::Replies;
use std::alloc::{AllocError, Global};

/// The replies that a host drew for another one, and the tasks that were aborted.
#[derive(Drop)]
pub(crate) struct Drawn {
    pub replies: Replies,
    pub aborts: Aborts,
}

impl Drawn {
    /// Nothing is drawn yet.
    pub fn new(alloc: Global) -> Result<Drawn, AllocError> {
        Ok(Drawn {
            replies: Replies::new(alloc)?,
            aborts: Aborts::new(),
        })
    }

    /// The task of this tag is aborted: what was drawn of it before is dropped, and each reply that is
    /// drawn with its tag from now on is late.
    pub fn abort(&mut self, tag: u8)
        ensures dropped { slice_get self.new.replies tag ≡ Some [] }
        ensures others { OthersStay self.old.replies tag self.new.replies }
        ensures begun { self.new.aborts.are_aborted ≡ slice_set self.old.aborts.are_aborted tag true }
        ensures late { self.new.aborts.late ≡ self.old.aborts.late }
    {
        self.replies.clear(tag);
        self.aborts.begin(tag);
    }

    /// How many replies nobody waited for, or came of aborted tasks.
    pub fn left(&self) -> u64 {
        self.replies.left().saturating_add(self.aborts.late())
    }
}
