//! Pages whose rests come by one read.
ghost use Rattle.std.specs.Prelude.{◌≡◌, ◌^◌, ◌<◌, ◌≤◌, length, option_and_then, option_map};
ghost use Rattle.std.specs.Prelude.{slice_get};
ghost use Rattle.std.specs.VecDeque.{deque_capacity};
ghost use Rattle.word_set.specs.Flags.{passes};
ghost use Rattle.write_cache.specs.declared.slots.Pending.{Pending};
ghost use Rattle.write_cache.specs.Ready.{AreTold, is_ready};
ghost use Rattle.write_cache.specs.Rests.{awaits, base_behind, completed_at, rests_filled, waits};

use crate::slots::Pending;
use std::collections::VecDeque;
use ufs_spec::{Block, Name};
use word_set::QueueSet;

/// Each page that waits for that read has its content. Its place is no more among those that wait,
/// and is ready then if it is not written. It looks only at pages that wait.
pub(super) fn fill_pages(
    pages: &mut VecDeque<Pending>,
    ready: &mut QueueSet,
    waiting: &mut QueueSet,
    name: Name,
    block: &[u8],
)
    requires long { length block.now ≡ 4096 }
    requires few { length pages.old.items < 2 ^ 16 }
    requires room { length pages.old.items ≤ length ready.old }
    requires waiting_room { length pages.old.items ≤ length waiting.old }
    requires told { AreTold is_ready ready.old pages.old.items }
    requires waiting_told { AreTold waits waiting.old pages.old.items }
    ensures after { pages.new.items ≡ rests_filled name block.now pages.old.items }
    ensures pages_room { deque_capacity pages.new ≡ deque_capacity pages.old }
    ensures places { length ready.new ≡ length ready.old }
    ensures waiting_places { length waiting.new ≡ length waiting.old }
    ensures tells { AreTold is_ready ready.new pages.new.items }
    ensures waiting_tells { AreTold waits waiting.new pages.new.items }
{
    let mut filled = None;
    let mut from = 0;
    while let Some(at) = waiting.first_from(from) {
        if awaits_at(pages, at, name) {
            complete_behind(pages, at, filled, block);
            ready.set(at, is_ready_at(pages, at));
            waiting.set(at, false);
            filled = Some(at);
        }
        from = at + 1;
    }
}

/// Whether the page at this position waits for that read.
fn awaits_at(pages: &VecDeque<Pending>, at: usize, name: Name) -> bool
    ensures { result ≡ passes (awaits name) pages.now.items at }
{
    match pages.get(at) {
        Some(page) => page.awaits(name),
        None => false,
    }
}

/// Whether the page at this position can be programmed now.
fn is_ready_at(pages: &VecDeque<Pending>, at: usize) -> bool
    ensures { result ≡ passes is_ready pages.now.items at }
{
    match pages.get(at) {
        Some(page) => page.is_ready(),
        None => false,
    }
}

/// The page at this position has its content: its rest is from the page that was filled last, or
/// from what was read.
fn complete_behind(pages: &mut VecDeque<Pending>, at: usize, filled: Option<usize>, block: &[u8])
    requires { length block.now ≡ 4096 }
    ensures after { pages.new.items ≡ completed_at (base_behind block.now pages.old.items filled)
        pages.old.items at (slice_get pages.old.items at) }
    ensures room { deque_capacity pages.new ≡ deque_capacity pages.old }
{
    match body_at(pages, filled) {
        Some(base) => complete_at(pages, at, &base),
        None => complete_at(pages, at, block),
    }
}

/// The bytes in the slot of the page at this position, if there is one.
fn body_at(pages: &VecDeque<Pending>, at: Option<usize>) -> Option<Block>
    ensures { result ≡
        option_map (λ (p : Pending). p.body) (option_and_then (slice_get pages.now.items) at) }
{
    let page = pages.get(at?)?;
    Some(*page.body.block())
}

/// The page at this position has its content, with its rest from these bytes.
fn complete_at(pages: &mut VecDeque<Pending>, at: usize, base: &[u8])
    requires { length base.now ≡ 4096 }
    ensures after { pages.new.items ≡
        completed_at base.now pages.old.items at (slice_get pages.old.items at) }
    ensures room { deque_capacity pages.new ≡ deque_capacity pages.old }
{
    if let Some(page) = pages.get_mut(at) {
        page.complete(base);
    }
}
