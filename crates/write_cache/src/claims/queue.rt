//! What becomes of claims that stand one behind another in a queue.
ghost use Rattle.std.specs.Prelude.{◌≡◌, ◌+◌, ◌≤◌, ◌++◌, length, map, take, vec_capacity};
ghost use Rattle.std.specs.VecDeque.{deque_capacity};
ghost use Rattle.write_cache.specs.Slots.{claim_filled, claims_of, is_claim_behind, page_claimed};
ghost use Rattle.write_cache.specs.Slots.{turned, turned_but, without_claims};
ghost use Rattle.write_cache.specs.Slots.{without_claims_behind};

use crate::pages::Pages;
use crate::slots::Claimed;
use std::collections::VecDeque;
use ufs_bytes::Body;
use ufs_spec::Key;

/// A group that is accepted: its first address, its number and how many pages it has.
#[derive(Clone, Copy)]
pub(crate) struct NewGroup {
    pub(crate) key: Key,
    pub(crate) number: u64,
    pub(crate) size: u16,
}

/// The slots that the reader has claimed become pages of the group, in their order; the other
/// claims stay.
pub(super) fn move_claims(
    claims: &mut VecDeque<Claimed>,
    pages: &mut Pages,
    reader: u8,
    group: NewGroup,
)
    requires room { length pages.old.items + length claims.old.items ≤ pages.old.room }
    requires newer { pages.old.newest ≤ group.number }
    ensures left { claims.new.items ≡ without_claims claims.old.items reader }
    ensures claim_room { deque_capacity claims.new ≡ deque_capacity claims.old }
    ensures moved { pages.new.items ≡ pages.old.items
        ++ map (page_claimed group.key group.number group.size)
        (claims_of claims.old.items reader) }
    ensures page_room { pages.new.room ≡ pages.old.room }
    ensures not_newer { pages.new.newest ≤ group.number }
    ensures as_many { length pages.new.items + length claims.new.items ≡
        length pages.old.items + length claims.old.items }
{
    for _ in 0..claims.len() {
        move_claim(claims, pages, reader, group);
    }
}

/// The first claim becomes a page of the group, if the reader has claimed it; else it is the last
/// from then on.
fn move_claim(claims: &mut VecDeque<Claimed>, pages: &mut Pages, reader: u8, group: NewGroup)
    requires room { length pages.old.items + length claims.old.items ≤ pages.old.room }
    requires newer { pages.old.newest ≤ group.number }
    ensures left { claims.new.items ≡ turned reader claims.old.items }
    ensures claim_room { deque_capacity claims.new ≡ deque_capacity claims.old }
    ensures moved { pages.new.items ≡ pages.old.items
        ++ map (page_claimed group.key group.number group.size)
        (claims_of (take 1 claims.old.items) reader) }
    ensures page_room { pages.new.room ≡ pages.old.room }
    ensures not_newer { pages.new.newest ≤ group.number }
    ensures as_many { length pages.new.items + length claims.new.items ≡
        length pages.old.items + length claims.old.items }
{
    if let Some(claim) = claims.pop_front() {
        if claim.is_of(reader) {
            pages.push(claim.into_page(group.key, group.number, group.size));
        } else {
            claims.push_back_reserved(claim);
        }
    }
}

/// The slots that the reader has claimed for blocks behind its first so many are free; the other
/// claims stay.
pub(super) fn free_claims(
    claims: &mut VecDeque<Claimed>,
    free: &mut Vec<Body>,
    reader: u8,
    count: u16,
)
    requires { length free.old.items + length claims.old.items ≤ vec_capacity free.old }
    ensures left { claims.new.items ≡ without_claims_behind claims.old.items reader count }
    ensures claim_room { deque_capacity claims.new ≡ deque_capacity claims.old }
    ensures room { vec_capacity free.new ≡ vec_capacity free.old }
    ensures as_many { length free.new.items + length claims.new.items ≡
        length free.old.items + length claims.old.items }
{
    for _ in 0..claims.len() {
        free_claim(claims, free, reader, count);
    }
}

/// The slot of the first claim is free, if the reader has claimed it for a block behind its first
/// so many; else the claim is the last from then on.
fn free_claim(claims: &mut VecDeque<Claimed>, free: &mut Vec<Body>, reader: u8, count: u16)
    requires { length free.old.items + length claims.old.items ≤ vec_capacity free.old }
    ensures left { claims.new.items ≡ turned_but (is_claim_behind reader count) claims.old.items }
    ensures claim_room { deque_capacity claims.new ≡ deque_capacity claims.old }
    ensures room { vec_capacity free.new ≡ vec_capacity free.old }
    ensures as_many { length free.new.items + length claims.new.items ≡
        length free.old.items + length claims.old.items }
{
    if let Some(claim) = claims.pop_front() {
        if claim.is_behind(reader, count) {
            free.push_reserved(claim.body);
        } else {
            claims.push_back_reserved(claim);
        }
    }
}

/// What came lies in the slot that is claimed for the block of this index of the reader.
pub(super) fn fill_claims(claims: &mut [Claimed], reader: u8, index: u16, block: &[u8])
    requires { length block.now ≡ 4096 }
    ensures { claims.new ≡ map (claim_filled reader index block.now) claims.old }
{
    for claim in claims.iter_mut() {
        claim.fill(reader, index, block);
    }
}

/// How many of the claims are of the reader.
pub(super) fn count_claims(claims: &VecDeque<Claimed>, reader: u8) -> usize
    ensures { result ≡ length (claims_of claims.now.items reader) }
{
    claims.iter().filter(|claim| claim.is_of(reader)).count()
}
