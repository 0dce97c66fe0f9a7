//! Rows of claims, each of one reader.
ghost use Rattle.std.specs.Prelude.{◌≡◌, ◌+◌, ◌^◌, ◌<◌, ◌≤◌, ◌++◌, ◌∷◌, [], All, IfOk, IsSome, List};
ghost use Rattle.std.specs.Prelude.{MatchOption, drop, filter_map, length, map, slice_index_or};
ghost use Rattle.std.specs.Prelude.{take, vec_capacity};
ghost use Rattle.std.specs.VecDeque.{deque_capacity};
ghost use Rattle.write_cache.specs.ClaimRows.{AreBare, all_claims, kept_row, kept_rows};
ghost use Rattle.write_cache.specs.ClaimRows.{used_rows};
ghost use Rattle.write_cache.specs.Rests.{IsPart, claim_brought, page_moved};
ghost use Rattle.write_cache.specs.Slots.{claim_filled, claims_but, claims_of, is_claim_behind};
ghost use Rattle.write_cache.specs.Slots.{is_claim_of, page_claimed};
ghost use Rattle.write_cache.specs.declared.slots.Claimed.{Claimed};

use super::queue::NewGroup;
use super::row::ClaimRow;
use crate::pages::Pages;
use crate::rests::NewPage;
use crate::slots::Claimed;
use std::alloc::{AllocError, Global};
use std::collections::VecDeque;
use std::marker::Model;
use ufs_bytes::Body;
use ufs_spec::MOST_TASKS;

/// Claims in rows of one reader each. A reader may have several rows.
///
/// The rows in use and those that are spare are as many as tasks may be open, and there is room for
/// all of them on either side. No spare row has a claim.
#[derive(Drop)]
pub(super) struct ClaimRows {
    /// The rows in use, in the order in which their first claim was made.
    rows: VecDeque<ClaimRow>,
    /// The rows without a claim that wait for their use.
    spare: Vec<ClaimRow>,
}

impl Model for ClaimRows {
    ghost Value = { List (List Claimed) };

    ghost view = { λ r. r.rows.items };

    ghost invariant = { λ r. AreBare r.spare.items
        × (length r.rows.items + length r.spare.items ≡ 32)
        × (32 ≤ deque_capacity r.rows) × (32 ≤ vec_capacity r.spare) };
}

impl ClaimRows {
    /// No claim yet, and all rows spare.
    ///
    /// # Errors
    ///
    /// Only if memory was refused.
    pub(super) fn new(alloc: Global) -> Result<ClaimRows, AllocError>
        ensures { IfOk result (λ r. r ≡ []) }
    {
        let rows = VecDeque::with_capacity(alloc, MOST_TASKS)?;
        Ok(ClaimRows {
            rows,
            spare: spare_rows(alloc)?,
        })
    }

    /// Puts the claim behind all others, into the last row or a spare one, if one of them can take
    /// it; else gives it back.
    pub(super) fn push(&mut self, claim: Claimed) -> Option<Claimed>
        ensures where_it_is { MatchOption result
            (all_claims self.new ≡ all_claims self.old ++ claim ∷ [])
            (λ c. (c ≡ claim) × (self.new ≡ self.old)) }
        // It is given back only where all rows are in use.
        ensures full { IsSome result → length self.old ≡ 32 }
    {
        let left = push_last(&mut self.rows, claim)?;
        begin_row(&mut self.rows, &mut self.spare, left)
    }

    /// How many of the claims are of the reader.
    pub(super) fn count(&self, reader: u8) -> usize
        requires { length (all_claims self.now) < 2 ^ 16 }
        ensures { result ≡ length (claims_of (all_claims self.now) reader) }
    {
        count_in_rows(&self.rows, reader)
    }

    /// What came lies in the slot that is claimed for the block of this index of the reader.
    pub(super) fn fill(&mut self, reader: u8, index: u16, block: &[u8])
        requires { length block.now ≡ 4096 }
        ensures { self.new ≡ map (map (claim_filled reader index block.now)) self.old }
    {
        fill_rows(&mut self.rows, reader, index, block);
    }

    /// The bytes of each of these pages lie in the slot that the reader claimed for it.
    pub(super) fn bring(&mut self, pending: &Pages, reader: u8, pages: &[NewPage<'_>])
        requires { All IsPart pages.now }
        ensures { self.new ≡ map (map (claim_brought pending.now.items reader pages.now)) self.old }
    {
        bring_rows(&mut self.rows, pending, reader, pages);
    }

    /// The slots that the reader has claimed become pages of the group, in their order; the other
    /// claims stay. A row without a claim is spare.
    pub(super) fn move_claims(&mut self, pages: &mut Pages, reader: u8, group: NewGroup)
        requires room { length pages.old.items + length (all_claims self.old) ≤ pages.old.room }
        requires newer { pages.old.newest ≤ group.number }
        ensures left { self.new ≡ kept_rows (is_claim_of reader) self.old }
        ensures moved { pages.new.items ≡ pages.old.items
            ++ map (page_claimed group.key group.number group.size)
            (claims_of (all_claims self.old) reader) }
        ensures page_room { pages.new.room ≡ pages.old.room }
        ensures not_newer { pages.new.newest ≤ group.number }
        ensures as_many { length pages.new.items + length (all_claims self.new) ≡
            length pages.old.items + length (all_claims self.old) }
    {
        move_from_rows(&mut self.rows, pages, reader, group);
        shed(&mut self.rows, &mut self.spare);
    }

    /// The slots that the reader has claimed for blocks behind its first so many are free; the
    /// other claims stay. A row without a claim is spare.
    pub(super) fn free_claims(&mut self, free: &mut Vec<Body>, reader: u8, count: u16)
        requires { length free.old.items + length (all_claims self.old) ≤ vec_capacity free.old }
        ensures left { self.new ≡ kept_rows (is_claim_behind reader count) self.old }
        ensures room { vec_capacity free.new ≡ vec_capacity free.old }
        ensures as_many { length free.new.items + length (all_claims self.new) ≡
            length free.old.items + length (all_claims self.old) }
    {
        free_from_rows(&mut self.rows, free, reader, count);
        shed(&mut self.rows, &mut self.spare);
    }

    /// The slots that the reader claimed become pages of the group, in their order, or are free
    /// where the group has no page of their index; the other claims stay. A row without a claim is
    /// spare.
    pub(super) fn move_pages(
        &mut self,
        pending: &mut Pages,
        free: &mut Vec<Body>,
        reader: u8,
        number: u64,
        pages: &[NewPage<'_>],
    )
        requires few { length pages.now < 2 ^ 16 }
        requires room { length pending.old.items + length (all_claims self.old) ≤ pending.old.room }
        requires newer { pending.old.newest ≤ number }
        requires free_room { length free.old.items + length (all_claims self.old)
            ≤ vec_capacity free.old }
        ensures left { self.new ≡ kept_rows (is_claim_of reader) self.old }
        ensures moved { pending.new.items ≡ pending.old.items
            ++ filter_map (page_moved number pages.now) (claims_of (all_claims self.old) reader) }
        ensures page_room { pending.new.room ≡ pending.old.room }
        ensures not_newer { pending.new.newest ≤ number }
        ensures free_stays { vec_capacity free.new ≡ vec_capacity free.old }
        ensures as_many { length free.new.items + length pending.new.items
            + length (all_claims self.new)
            ≡ length free.old.items + length pending.old.items + length (all_claims self.old) }
        ensures pages_fit { length pending.new.items + length (all_claims self.new) ≤
            length pending.old.items + length (all_claims self.old) }
        ensures free_fit { length free.new.items + length (all_claims self.new) ≤
            length free.old.items + length (all_claims self.old) }
    {
        move_pages_from_rows(&mut self.rows, pending, free, reader, number, pages);
        shed(&mut self.rows, &mut self.spare);
    }
}

/// All rows, without a claim.
fn spare_rows(alloc: Global) -> Result<Vec<ClaimRow>, AllocError>
    ensures bare { IfOk result (λ v. AreBare v.items) }
    ensures long { IfOk result (λ v. length v.items ≡ 32) }
    ensures room { IfOk result (λ v. 32 ≤ vec_capacity v) }
{
    let mut spare = Vec::with_capacity(alloc, MOST_TASKS)?;
    for _ in 0..MOST_TASKS {
        spare.push_reserved(ClaimRow::new(alloc)?);
    }
    Ok(spare)
}

/// Puts the claim behind all others, into the last row, if that takes it; else gives it back.
fn push_last(rows: &mut VecDeque<ClaimRow>, claim: Claimed) -> Option<Claimed>
    ensures where_it_is { MatchOption result
        (all_claims rows.new.items ≡ all_claims rows.old.items ++ claim ∷ [])
        (λ c. (c ≡ claim) × (rows.new.items ≡ rows.old.items)) }
    ensures as_many { length rows.new.items ≡ length rows.old.items }
    ensures room { deque_capacity rows.new ≡ deque_capacity rows.old }
{
    let Some(mut last) = rows.pop_back() else {
        return Some(claim);
    };
    let left = last.push(claim);
    rows.push_back_reserved(last);
    left
}

/// Puts the claim behind all others, into a row that is spare, if one is; else gives it back.
fn begin_row(
    rows: &mut VecDeque<ClaimRow>,
    spare: &mut Vec<ClaimRow>,
    claim: Claimed,
) -> Option<Claimed>
    requires bare { AreBare spare.old.items }
    requires room { length rows.old.items + length spare.old.items ≤ deque_capacity rows.old }
    ensures where_it_is { MatchOption result
        (rows.new.items ≡ rows.old.items ++ (claim ∷ []) ∷ [])
        (λ c. (c ≡ claim) × (rows.new.items ≡ rows.old.items)) }
    ensures none_spare { IsSome result → length spare.old.items ≡ 0 }
    ensures bare { AreBare spare.new.items }
    ensures as_many { length rows.new.items + length spare.new.items ≡
        length rows.old.items + length spare.old.items }
    ensures room { deque_capacity rows.new ≡ deque_capacity rows.old }
    ensures spare_room { vec_capacity spare.new ≡ vec_capacity spare.old }
{
    let Some(mut row) = spare.pop() else {
        return Some(claim);
    };
    row.begin(claim);
    rows.push_back_reserved(row);
    None
}

/// The rows without a claim are spare, and the others stay in their order.
fn shed(rows: &mut VecDeque<ClaimRow>, spare: &mut Vec<ClaimRow>)
    requires bare { AreBare spare.old.items }
    requires room { length rows.old.items + length spare.old.items ≤ vec_capacity spare.old }
    ensures left { rows.new.items ≡ used_rows rows.old.items }
    ensures bare { AreBare spare.new.items }
    ensures as_many { length rows.new.items + length spare.new.items ≡
        length rows.old.items + length spare.old.items }
    ensures room { deque_capacity rows.new ≡ deque_capacity rows.old }
    ensures spare_room { vec_capacity spare.new ≡ vec_capacity spare.old }
{
    let mut at = 0;
    for _ in 0..rows.len() {
        at = shed_row(rows, spare, at);
    }
}

/// The row at this place is spare, if it has no claim. Answers where the next one is then.
fn shed_row(rows: &mut VecDeque<ClaimRow>, spare: &mut Vec<ClaimRow>, at: usize) -> usize
    requires there { at < length rows.old.items }
    requires bare { AreBare spare.old.items }
    requires room { length rows.old.items + length spare.old.items ≤ vec_capacity spare.old }
    ensures next { result ≡ at + length (kept_row (slice_index_or rows.old.items at [])) }
    ensures left { rows.new.items ≡ take at rows.old.items
        ++ kept_row (slice_index_or rows.old.items at []) ++ drop (at + 1) rows.old.items }
    ensures bare { AreBare spare.new.items }
    ensures as_many { length rows.new.items + length spare.new.items ≡
        length rows.old.items + length spare.old.items }
    ensures room { deque_capacity rows.new ≡ deque_capacity rows.old }
    ensures spare_room { vec_capacity spare.new ≡ vec_capacity spare.old }
{
    if !rows[at].is_empty() {
        return at + 1;
    }
    if let Some(row) = rows.remove(at) {
        spare.push_reserved(row);
    }
    at
}

/// How many of the claims in the rows are of the reader.
fn count_in_rows(rows: &VecDeque<ClaimRow>, reader: u8) -> usize
    requires { length (all_claims rows.now.items) < 2 ^ 16 }
    ensures { result ≡ length (claims_of (all_claims rows.now.items) reader) }
{
    let mut count = 0;
    for at in 0..rows.len() {
        count += rows[at].count(reader);
    }
    count
}

/// What came lies in the slot of a row that is claimed for the block of this index of the reader.
fn fill_rows(rows: &mut VecDeque<ClaimRow>, reader: u8, index: u16, block: &[u8])
    requires { length block.now ≡ 4096 }
    ensures made { rows.new.items ≡ map (map (claim_filled reader index block.now)) rows.old.items }
    ensures room { deque_capacity rows.new ≡ deque_capacity rows.old }
{
    for at in 0..rows.len() {
        rows[at].fill(reader, index, block);
    }
}

/// The bytes of each of these pages lie in the slot of a row that the reader claimed for it.
fn bring_rows(rows: &mut VecDeque<ClaimRow>, pending: &Pages, reader: u8, pages: &[NewPage<'_>])
    requires { All IsPart pages.now }
    ensures made { rows.new.items ≡
        map (map (claim_brought pending.now.items reader pages.now)) rows.old.items }
    ensures room { deque_capacity rows.new ≡ deque_capacity rows.old }
{
    for at in 0..rows.len() {
        rows[at].bring(pending, reader, pages);
    }
}

/// The slots that the reader has claimed become pages of the group, in their order; the other
/// claims stay, and all rows.
fn move_from_rows(rows: &mut VecDeque<ClaimRow>, pages: &mut Pages, reader: u8, group: NewGroup)
    requires room { length pages.old.items + length (all_claims rows.old.items) ≤ pages.old.room }
    requires newer { pages.old.newest ≤ group.number }
    ensures left { rows.new.items ≡ map (claims_but (is_claim_of reader)) rows.old.items }
    ensures row_room { deque_capacity rows.new ≡ deque_capacity rows.old }
    ensures moved { pages.new.items ≡ pages.old.items
        ++ map (page_claimed group.key group.number group.size)
        (claims_of (all_claims rows.old.items) reader) }
    ensures page_room { pages.new.room ≡ pages.old.room }
    ensures not_newer { pages.new.newest ≤ group.number }
    ensures as_many { length pages.new.items + length (all_claims rows.new.items) ≡
        length pages.old.items + length (all_claims rows.old.items) }
{
    for at in 0..rows.len() {
        rows[at].move_claims(pages, reader, group);
    }
}

/// The slots that the reader has claimed for blocks behind its first so many are free; the other
/// claims stay, and all rows.
fn free_from_rows(rows: &mut VecDeque<ClaimRow>, free: &mut Vec<Body>, reader: u8, count: u16)
    requires { length free.old.items + length (all_claims rows.old.items) ≤ vec_capacity free.old }
    ensures left { rows.new.items ≡ map (claims_but (is_claim_behind reader count)) rows.old.items }
    ensures row_room { deque_capacity rows.new ≡ deque_capacity rows.old }
    ensures room { vec_capacity free.new ≡ vec_capacity free.old }
    ensures as_many { length free.new.items + length (all_claims rows.new.items) ≡
        length free.old.items + length (all_claims rows.old.items) }
{
    for at in 0..rows.len() {
        rows[at].free_claims(free, reader, count);
    }
}

/// The slots that the reader claimed become pages of the group, in their order, or are free where
/// the group has no page of their index; the other claims stay, and all rows.
fn move_pages_from_rows(
    rows: &mut VecDeque<ClaimRow>,
    pending: &mut Pages,
    free: &mut Vec<Body>,
    reader: u8,
    number: u64,
    pages: &[NewPage<'_>],
)
    requires few { length pages.now < 2 ^ 16 }
    requires room { length pending.old.items + length (all_claims rows.old.items)
        ≤ pending.old.room }
    requires newer { pending.old.newest ≤ number }
    requires free_room { length free.old.items + length (all_claims rows.old.items)
        ≤ vec_capacity free.old }
    ensures left { rows.new.items ≡ map (claims_but (is_claim_of reader)) rows.old.items }
    ensures row_room { deque_capacity rows.new ≡ deque_capacity rows.old }
    ensures moved { pending.new.items ≡ pending.old.items
        ++ filter_map (page_moved number pages.now)
        (claims_of (all_claims rows.old.items) reader) }
    ensures page_room { pending.new.room ≡ pending.old.room }
    ensures not_newer { pending.new.newest ≤ number }
    ensures free_stays { vec_capacity free.new ≡ vec_capacity free.old }
    ensures as_many { length free.new.items + length pending.new.items
        + length (all_claims rows.new.items)
        ≡ length free.old.items + length pending.old.items + length (all_claims rows.old.items) }
    ensures pages_fit { length pending.new.items + length (all_claims rows.new.items) ≤
        length pending.old.items + length (all_claims rows.old.items) }
    ensures free_fit { length free.new.items + length (all_claims rows.new.items) ≤
        length free.old.items + length (all_claims rows.old.items) }
{
    for at in 0..rows.len() {
        rows[at].move_pages(pending, free, reader, number, pages);
    }
}
