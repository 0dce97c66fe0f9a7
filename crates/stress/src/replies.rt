//! Replies that one host drew from the device for another one.
ghost use Rattle.std.specs.Prelude.{◌≡◌, ◌<◌, ℕ, [], Some, IfOk, slice_get, slice_index};
ghost use Rattle.stress.specs.Queues.{IsPut, IsTaken, OthersStay};

use std::alloc::{AllocError, Global};
use std::collections::VecDeque;
use std::marker::Model;
use ufs_spec::Upiu;

/// Replies that were drawn and are not taken yet: for each task tag a queue of its own.
#[derive(Drop)]
pub(crate) struct Replies {
    queues: Vec<VecDeque<Upiu>>,
}

impl Model for Replies {
    ghost use Rattle.std.specs.Prelude.{◌≡◌, ℕ, List, map, vec_len};
    ghost use Rattle.arrayvec.specs.ArrayVec.{ArrayVec};

    ghost Value = { List (List (ArrayVec ℕ)) };

    ghost view = { λ r. map (λ q. q.items) r.queues.items };

    ghost invariant = { λ r. vec_len r.queues ≡ 256 };
}

/// The task tag of a reply.
pub(crate) fn tag_of(reply: &[u8]) -> u8
    ensures { result ≡ slice_index reply.now 3 }
{
    match reply.get(3) {
        Some(tag) => *tag,
        None => 0,
    }
}

/// The transaction code of a reply.
pub(crate) fn code_of(reply: &[u8]) -> u8
    ensures { result ≡ slice_index reply.now 0 }
{
    match reply.get(0) {
        Some(code) => *code,
        None => 0,
    }
}

impl Replies {
    /// Empty queues.
    pub fn new(alloc: Global) -> Result<Replies, AllocError>
        ensures { IfOk result (λ r. (tag : ℕ) → tag < 256 → slice_get r tag ≡ Some []) }
    {
        let mut queues = Vec::with_capacity(alloc, 256)?;
        for _ in 0..256usize {
            queues.push(VecDeque::new(alloc))?;
        }
        Ok(Replies { queues })
    }

    /// The first reply with this tag that was put by.
    pub fn take(&mut self, tag: u8) -> Option<Upiu>
        ensures taken { IsTaken self.old tag result self.new }
        ensures others { OthersStay self.old tag self.new }
    {
        self.queues[tag as usize].pop_front()
    }

    /// Puts a reply by, after all others with its tag.
    pub fn put(&mut self, reply: Upiu) -> Result<(), AllocError>
        ensures put { IfOk result (λ _. IsPut self.old (slice_index reply.items 3) reply self.new) }
        ensures others { OthersStay self.old (slice_index reply.items 3) self.new }
    {
        let tag = tag_of(reply.as_slice());
        if self.queues[tag as usize].push_back(reply).is_err() {
            return Err(AllocError);
        }
        Ok(())
    }

    /// Drops the replies with this tag that were put by.
    pub fn clear(&mut self, tag: u8)
        ensures cleared { slice_get self.new tag ≡ Some [] }
        ensures others { OthersStay self.old tag self.new }
    {
        self.queues[tag as usize].clear();
    }

    /// How many replies nobody took.
    pub fn left(&self) -> u64 {
        let mut left = 0u64;
        for queue in self.queues.as_slice() {
            left = left.saturating_add(queue.len() as u64);
        }
        left
    }
}
