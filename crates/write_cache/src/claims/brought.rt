//! What becomes of claims in a queue when a command brings their pages.
ghost use Rattle.std.specs.Prelude.{◌≡◌, ◌+◌, ◌^◌, ◌<◌, ◌≤◌, ◌++◌, All, filter_map, length, map};
ghost use Rattle.std.specs.Prelude.{take, vec_capacity};
ghost use Rattle.std.specs.VecDeque.{deque_capacity};
ghost use Rattle.write_cache.specs.Rests.{IsPart, claim_brought, page_moved};
ghost use Rattle.write_cache.specs.Slots.{claims_of, turned, without_claims};

use crate::pages::Pages;
use crate::rests::NewPage;
use crate::slots::Claimed;
use std::collections::VecDeque;
use ufs_bytes::Body;

/// The bytes of each of these pages lie in the slot that the reader claimed for it.
pub(super) fn bring_all(claims: &mut [Claimed], pending: &Pages, reader: u8, pages: &[NewPage<'_>])
    requires { All IsPart pages.now }
    ensures { claims.new ≡ map (claim_brought pending.now.items reader pages.now) claims.old }
{
    for claim in claims.iter_mut() {
        bring_one(claim, pending, reader, pages);
    }
}

/// The bytes of the page lie in the slot that was claimed for it, if the reader claimed this slot.
fn bring_one(claim: &mut Claimed, pending: &Pages, reader: u8, pages: &[NewPage<'_>])
    requires { All IsPart pages.now }
    ensures { claim.new ≡ claim_brought pending.now.items reader pages.now claim.old }
{
    if claim.is_of(reader) {
        if let Some(page) = pages.get(claim.index as usize) {
            claim.bring(page, pending);
        }
    }
}

/// The slots that the reader claimed become pages of the group, in their order, or are free where
/// the group has no page of their index; the other claims stay.
pub(super) fn move_pages(
    claims: &mut VecDeque<Claimed>,
    pending: &mut Pages,
    free: &mut Vec<Body>,
    reader: u8,
    number: u64,
    pages: &[NewPage<'_>],
)
    requires few { length pages.now < 2 ^ 16 }
    requires room { length pending.old.items + length claims.old.items ≤ pending.old.room }
    requires newer { pending.old.newest ≤ number }
    requires free_room { length free.old.items + length claims.old.items ≤ vec_capacity free.old }
    ensures left { claims.new.items ≡ without_claims claims.old.items reader }
    ensures claim_room { deque_capacity claims.new ≡ deque_capacity claims.old }
    ensures moved { pending.new.items ≡ pending.old.items
        ++ filter_map (page_moved number pages.now) (claims_of claims.old.items reader) }
    ensures page_room { pending.new.room ≡ pending.old.room }
    ensures not_newer { pending.new.newest ≤ number }
    ensures free_stays { vec_capacity free.new ≡ vec_capacity free.old }
    ensures as_many { length free.new.items + length pending.new.items + length claims.new.items
        ≡ length free.old.items + length pending.old.items + length claims.old.items }
    ensures pages_fit { length pending.new.items + length claims.new.items ≤
        length pending.old.items + length claims.old.items }
    ensures free_fit { length free.new.items + length claims.new.items ≤
        length free.old.items + length claims.old.items }
{
    for _ in 0..claims.len() {
        move_page(claims, pending, free, reader, number, pages);
    }
}

/// The first claim becomes a page of the group or is free, if the reader claimed it; else it is
/// the last from then on.
fn move_page(
    claims: &mut VecDeque<Claimed>,
    pending: &mut Pages,
    free: &mut Vec<Body>,
    reader: u8,
    number: u64,
    pages: &[NewPage<'_>],
)
    requires few { length pages.now < 2 ^ 16 }
    requires room { length pending.old.items + length claims.old.items ≤ pending.old.room }
    requires newer { pending.old.newest ≤ number }
    requires free_room { length free.old.items + length claims.old.items ≤ vec_capacity free.old }
    ensures left { claims.new.items ≡ turned reader claims.old.items }
    ensures claim_room { deque_capacity claims.new ≡ deque_capacity claims.old }
    ensures moved { pending.new.items ≡ pending.old.items
        ++ filter_map (page_moved number pages.now) (claims_of (take 1 claims.old.items) reader) }
    ensures page_room { pending.new.room ≡ pending.old.room }
    ensures not_newer { pending.new.newest ≤ number }
    ensures free_stays { vec_capacity free.new ≡ vec_capacity free.old }
    ensures as_many { length free.new.items + length pending.new.items + length claims.new.items
        ≡ length free.old.items + length pending.old.items + length claims.old.items }
    ensures pages_fit { length pending.new.items + length claims.new.items ≤
        length pending.old.items + length claims.old.items }
    ensures free_fit { length free.new.items + length claims.new.items ≤
        length free.old.items + length claims.old.items }
{
    if let Some(claim) = claims.pop_front() {
        if !claim.is_of(reader) {
            claims.push_back_reserved(claim);
        } else if let Some(page) = pages.get(claim.index as usize) {
            pending.push(claim.into_new_page(page, number, pages.len() as u16));
        } else {
            free.push_reserved(claim.body);
        }
    }
}
