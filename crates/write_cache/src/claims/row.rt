//! The claims of one reader.
ghost use Rattle.std.specs.Prelude.{◌≡◌, ◌+◌, ◌^◌, ◌<◌, ◌≤◌, ◌++◌, ◌∷◌, [], ◌==◌, ◌⊎◌, All, IfOk};
ghost use Rattle.std.specs.Prelude.{IsSome, List, MatchOption, filter_map, length, map};
ghost use Rattle.std.specs.Prelude.{vec_capacity};
ghost use Rattle.std.specs.VecDeque.{deque_capacity};
ghost use Rattle.ufs_spec.specs.Plain.{greatest_command};
ghost use Rattle.write_cache.specs.ClaimRows.{AreOf};
ghost use Rattle.write_cache.specs.Rests.{IsPart, claim_brought, page_moved};
ghost use Rattle.write_cache.specs.Slots.{claim_filled, claims_of, page_claimed, without_claims};
ghost use Rattle.write_cache.specs.Slots.{without_claims_behind};
ghost use Rattle.write_cache.specs.declared.slots.Claimed.{Claimed};

use super::brought::{bring_all, move_pages};
use super::queue::{NewGroup, fill_claims, free_claims, move_claims};
use crate::pages::Pages;
use crate::rests::NewPage;
use crate::slots::Claimed;
use std::alloc::{AllocError, Global};
use std::collections::VecDeque;
use std::marker::Model;
use ufs_bytes::Body;
use ufs_spec::GREATEST_COMMAND;

/// Claims of one reader, in their order. A call for another reader touches none of them.
///
/// All claims are of the row's reader, and there is room for as many as one command has blocks.
#[derive(Drop)]
pub(super) struct ClaimRow {
    reader: u8,
    claims: VecDeque<Claimed>,
}

impl Model for ClaimRow {
    ghost Value = { List Claimed };

    ghost view = { λ r. r.claims.items };

    ghost invariant = { λ r. AreOf r.reader r.claims.items
        × (greatest_command ≤ deque_capacity r.claims) };
}

impl ClaimRow {
    /// A row without a claim.
    ///
    /// # Errors
    ///
    /// Only if memory was refused.
    pub(super) fn new(alloc: Global) -> Result<ClaimRow, AllocError>
        ensures { IfOk result (λ r. r ≡ []) }
    {
        let claims = VecDeque::with_capacity(alloc, GREATEST_COMMAND as usize)?;
        Ok(ClaimRow { reader: 0, claims })
    }

    /// Whether the row has no claim.
    pub(super) fn is_empty(&self) -> bool
        ensures { result ≡ (length self.now == 0) }
    {
        self.claims.is_empty()
    }

    /// The claim is the first one, and the row is of its reader from then on.
    pub(super) fn begin(&mut self, claim: Claimed)
        requires { self.old ≡ [] }
        ensures { self.new ≡ claim ∷ [] }
    {
        self.reader = claim.reader;
        self.claims.push_back_reserved(claim);
    }

    /// Puts the claim behind the others, if the row is of its reader and has room; else gives it
    /// back.
    pub(super) fn push(&mut self, claim: Claimed) -> Option<Claimed>
        ensures where_it_is { MatchOption result (self.new ≡ self.old ++ claim ∷ [])
            (λ c. (c ≡ claim) × (self.new ≡ self.old)) }
        // It is given back only where the row is full or has none of its reader.
        ensures refused { IsSome result →
            (claims_of self.old claim.reader ≡ []) ⊎ (greatest_command ≤ length self.old) }
    {
        if claim.reader == self.reader && self.claims.len() < GREATEST_COMMAND as usize {
            self.claims.push_back_reserved(claim);
            None
        } else {
            Some(claim)
        }
    }

    /// How many of the claims are of the reader.
    pub(super) fn count(&self, reader: u8) -> usize
        ensures { result ≡ length (claims_of self.now reader) }
    {
        if self.reader == reader {
            self.claims.len()
        } else {
            0
        }
    }

    /// What came lies in the slot that is claimed for the block of this index of the reader.
    pub(super) fn fill(&mut self, reader: u8, index: u16, block: &[u8])
        requires { length block.now ≡ 4096 }
        ensures { self.new ≡ map (claim_filled reader index block.now) self.old }
    {
        if self.reader == reader {
            fill_claims(self.claims.make_contiguous(), reader, index, block);
        }
    }

    /// The bytes of each of these pages lie in the slot that the reader claimed for it.
    pub(super) fn bring(&mut self, pending: &Pages, reader: u8, pages: &[NewPage<'_>])
        requires { All IsPart pages.now }
        ensures { self.new ≡ map (claim_brought pending.now.items reader pages.now) self.old }
    {
        if self.reader == reader {
            bring_all(self.claims.make_contiguous(), pending, reader, pages);
        }
    }

    /// The slots that the reader has claimed become pages of the group, in their order; the other
    /// claims stay.
    pub(super) fn move_claims(&mut self, pages: &mut Pages, reader: u8, group: NewGroup)
        requires room { length pages.old.items + length self.old ≤ pages.old.room }
        requires newer { pages.old.newest ≤ group.number }
        ensures left { self.new ≡ without_claims self.old reader }
        ensures moved { pages.new.items ≡ pages.old.items
            ++ map (page_claimed group.key group.number group.size) (claims_of self.old reader) }
        ensures page_room { pages.new.room ≡ pages.old.room }
        ensures not_newer { pages.new.newest ≤ group.number }
        ensures as_many { length pages.new.items + length self.new ≡
            length pages.old.items + length self.old }
    {
        if self.reader == reader {
            move_claims(&mut self.claims, pages, reader, group);
        }
    }

    /// The slots that the reader has claimed for blocks behind its first so many are free; the
    /// other claims stay.
    pub(super) fn free_claims(&mut self, free: &mut Vec<Body>, reader: u8, count: u16)
        requires { length free.old.items + length self.old ≤ vec_capacity free.old }
        ensures left { self.new ≡ without_claims_behind self.old reader count }
        ensures room { vec_capacity free.new ≡ vec_capacity free.old }
        ensures as_many { length free.new.items + length self.new ≡
            length free.old.items + length self.old }
    {
        if self.reader == reader {
            free_claims(&mut self.claims, free, reader, count);
        }
    }

    /// The slots that the reader claimed become pages of the group, in their order, or are free
    /// where the group has no page of their index; the other claims stay.
    pub(super) fn move_pages(
        &mut self,
        pending: &mut Pages,
        free: &mut Vec<Body>,
        reader: u8,
        number: u64,
        pages: &[NewPage<'_>],
    )
        requires few { length pages.now < 2 ^ 16 }
        requires room { length pending.old.items + length self.old ≤ pending.old.room }
        requires newer { pending.old.newest ≤ number }
        requires free_room { length free.old.items + length self.old ≤ vec_capacity free.old }
        ensures left { self.new ≡ without_claims self.old reader }
        ensures moved { pending.new.items ≡ pending.old.items
            ++ filter_map (page_moved number pages.now) (claims_of self.old reader) }
        ensures page_room { pending.new.room ≡ pending.old.room }
        ensures not_newer { pending.new.newest ≤ number }
        ensures free_stays { vec_capacity free.new ≡ vec_capacity free.old }
        ensures as_many { length free.new.items + length pending.new.items + length self.new
            ≡ length free.old.items + length pending.old.items + length self.old }
        ensures pages_fit { length pending.new.items + length self.new ≤
            length pending.old.items + length self.old }
        ensures free_fit { length free.new.items + length self.new ≤
            length free.old.items + length self.old }
    {
        if self.reader == reader {
            move_pages(&mut self.claims, pending, free, reader, number, pages);
        }
    }
}
