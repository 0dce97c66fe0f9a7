//! The claims of all readers, in the order in which their slots were claimed.
ghost use Rattle.std.specs.Prelude.{◌≡◌, ◌+◌, ◌^◌, ◌<◌, ◌≤◌, ◌++◌, ◌∷◌, [], All, IfOk};
ghost use Rattle.std.specs.Prelude.{MatchOption, filter_map, length, map, vec_capacity};
ghost use Rattle.std.specs.VecDeque.{deque_capacity};
ghost use Rattle.write_cache.specs.ClaimRows.{ClaimQueue, all_claims};
ghost use Rattle.write_cache.specs.Rests.{IsPart, claim_brought, page_moved};
ghost use Rattle.write_cache.specs.Slots.{claim_filled, claims_of, page_claimed, without_claims};
ghost use Rattle.write_cache.specs.Slots.{without_claims_behind};

mod brought;
mod queue;
mod row;
mod rows;

use self::brought::{bring_all, move_pages};
pub(crate) use self::queue::NewGroup;
use self::queue::{count_claims, fill_claims, free_claims, move_claims};
use self::rows::ClaimRows;
use crate::pages::Pages;
use crate::rests::NewPage;
use crate::slots::Claimed;
use std::alloc::{AllocError, Global};
use std::collections::VecDeque;
use std::marker::Model;
use ufs_bytes::Body;

/// The claims of all readers, in the order in which their slots were claimed. All memory is taken
/// by `new`, and each claim stays in the row or queue where it was put.
///
/// The claims in rows come before all in `rest`, which has room for each claim that there may be.
/// So a call for a reader looks at the claims of other readers only where they stand in `rest`.
#[derive(Drop)]
pub(crate) struct Claims {
    /// The claims in rows of one reader each.
    rows: ClaimRows,
    /// The claims behind those in rows: no row had room for the first of them.
    rest: VecDeque<Claimed>,
}

impl Model for Claims {
    ghost Value = { ClaimQueue };

    ghost view = { λ c. record {
      room = deque_capacity c.rest;
      items = all_claims c.rows ++ c.rest.items;
    } };
}

impl Claims {
    /// Room for so many claims, and none yet.
    ///
    /// # Errors
    ///
    /// Only if memory was refused.
    pub(crate) fn new(alloc: Global, room: u16) -> Result<Claims, AllocError>
        ensures { IfOk result (λ c. c ≡ record { room = room; items = [] }) }
    {
        let rows = ClaimRows::new(alloc)?;
        Ok(Claims {
            rows,
            rest: VecDeque::with_capacity(alloc, room as usize)?,
        })
    }

    /// Puts a claim behind all others.
    pub(crate) fn push(&mut self, claim: Claimed)
        requires { length self.old.items < self.old.room }
        ensures { self.new ≡ record self.old { items = self.old.items ++ claim ∷ [] } }
    {
        if let Some(left) = self.push_in_rows(claim) {
            self.rest.push_back_reserved(left);
        }
    }

    /// Puts a claim behind all others, into a row, if none stands behind the rows and one of them
    /// can take it; else gives it back.
    fn push_in_rows(&mut self, claim: Claimed) -> Option<Claimed>
        ensures { MatchOption result
            (self.new ≡ record self.old { items = self.old.items ++ claim ∷ [] })
            (λ c. (c ≡ claim) × (self.new ≡ self.old)) }
    {
        if self.rest.is_empty() {
            self.rows.push(claim)
        } else {
            Some(claim)
        }
    }

    /// How many of the claims are of the reader.
    pub(crate) fn count(&self, reader: u8) -> usize
        requires { length self.now.items < 2 ^ 16 }
        ensures { result ≡ length (claims_of self.now.items reader) }
    {
        self.rows.count(reader) + count_claims(&self.rest, reader)
    }

    /// What came lies in the slot that is claimed for the block of this index of the reader.
    pub(crate) fn fill(&mut self, reader: u8, index: u16, block: &[u8])
        requires { length block.now ≡ 4096 }
        ensures { self.new ≡ record self.old {
          items = map (claim_filled reader index block.now) self.old.items;
        } }
    {
        self.rows.fill(reader, index, block);
        fill_claims(self.rest.make_contiguous(), reader, index, block);
    }

    /// The bytes of each of these pages lie in the slot that the reader claimed for it.
    pub(crate) fn bring(&mut self, pending: &Pages, reader: u8, pages: &[NewPage<'_>])
        requires { All IsPart pages.now }
        ensures { self.new ≡ record self.old {
          items = map (claim_brought pending.now.items reader pages.now) self.old.items;
        } }
    {
        self.rows.bring(pending, reader, pages);
        bring_all(self.rest.make_contiguous(), pending, reader, pages);
    }

    /// The slots that the reader has claimed become pages of the group, in their order; the other
    /// claims stay.
    pub(crate) fn move_claims(&mut self, pages: &mut Pages, reader: u8, group: NewGroup)
        requires room { length pages.old.items + length self.old.items ≤ pages.old.room }
        requires newer { pages.old.newest ≤ group.number }
        ensures left { self.new ≡ record self.old {
          items = without_claims self.old.items reader;
        } }
        ensures moved { pages.new.items ≡ pages.old.items
            ++ map (page_claimed group.key group.number group.size)
            (claims_of self.old.items reader) }
        ensures page_room { pages.new.room ≡ pages.old.room }
        ensures not_newer { pages.new.newest ≤ group.number }
        ensures as_many { length pages.new.items + length self.new.items ≡
            length pages.old.items + length self.old.items }
    {
        self.rows.move_claims(pages, reader, group);
        move_claims(&mut self.rest, pages, reader, group);
    }

    /// The slots that the reader has claimed for blocks behind its first so many are free; the
    /// other claims stay.
    pub(crate) fn free_claims(&mut self, free: &mut Vec<Body>, reader: u8, count: u16)
        requires { length free.old.items + length self.old.items ≤ vec_capacity free.old }
        ensures left { self.new ≡ record self.old {
          items = without_claims_behind self.old.items reader count;
        } }
        ensures room { vec_capacity free.new ≡ vec_capacity free.old }
        ensures as_many { length free.new.items + length self.new.items ≡
            length free.old.items + length self.old.items }
    {
        self.rows.free_claims(free, reader, count);
        free_claims(&mut self.rest, free, reader, count);
    }

    /// The slots that the reader claimed become pages of the group, in their order, or are free
    /// where the group has no page of their index; the other claims stay.
    pub(crate) fn move_pages(
        &mut self,
        pending: &mut Pages,
        free: &mut Vec<Body>,
        reader: u8,
        number: u64,
        pages: &[NewPage<'_>],
    )
        requires few { length pages.now < 2 ^ 16 }
        requires room { length pending.old.items + length self.old.items ≤ pending.old.room }
        requires newer { pending.old.newest ≤ number }
        requires free_room { length free.old.items + length self.old.items
            ≤ vec_capacity free.old }
        ensures left { self.new ≡ record self.old {
          items = without_claims self.old.items reader;
        } }
        ensures moved { pending.new.items ≡ pending.old.items
            ++ filter_map (page_moved number pages.now) (claims_of self.old.items reader) }
        ensures page_room { pending.new.room ≡ pending.old.room }
        ensures not_newer { pending.new.newest ≤ number }
        ensures free_stays { vec_capacity free.new ≡ vec_capacity free.old }
        ensures as_many { length free.new.items + length pending.new.items
            + length self.new.items
            ≡ length free.old.items + length pending.old.items + length self.old.items }
        ensures pages_fit { length pending.new.items + length self.new.items ≤
            length pending.old.items + length self.old.items }
        ensures free_fit { length free.new.items + length self.new.items ≤
            length free.old.items + length self.old.items }
    {
        self.rows.move_pages(pending, free, reader, number, pages);
        move_pages(&mut self.rest, pending, free, reader, number, pages);
    }
}
