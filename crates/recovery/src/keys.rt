//! The page that has the content of each key, and the keys with a lost page.
ghost use Rattle.std.specs.Prelude.{◌≡◌, ◌↔◌, ℕ, ◌≤◌, Bool, true, false, None, replicate, IfOk, IsTrue, Option, Some, List, length, slice_get};
ghost use Rattle.ufs_spec.specs.Cells.{Cells, GroupPage, Mark, key_of};
ghost use Rattle.ufs_spec.specs.Kept.{fence_in};
ghost use Rattle.ufs_spec.specs.Openings.{AreLost};
ghost use Rattle.ufs_spec.specs.Plain.{shape_of_numbers};
ghost use Rattle.ufs_spec.specs.declared.flash.Place.{Place};
ghost use Rattle.ufs_spec.specs.declared.flash.Key.{Key};
ghost use Rattle.ufs_spec.specs.declared.flash.Tag.{Tag};
ghost use Rattle.geometry.specs.Keys.{IsIndex, key_total};
ghost use Rattle.recovery.specs.KeysInOrder.{AreKnown, AreMarked, IsLostAmong, found_block, is_fenced, is_newer, with_page};
ghost use Rattle.recovery.specs.Listed.{AreListed, IsContentPage};

use crate::pages::FoundPage;
use geometry::{key_at, key_count, key_index};
use std::alloc::{AllocError, Global};
use ufs_spec::{Fence, Key, Numbers, Tag};

/// What a block is when a device is opened over written dies.
#[derive(Clone, Copy, Debug, PartialEq, Eq)]
pub enum FoundBlock {
    /// No page of it opens: it may be erased.
    Free,
    /// Pages of it open, and none of them is needed: it may be erased.
    Stale,
    /// One of its pages is needed.
    Closed,
    /// It is bad.
    Bad,
}

/// Whose content the page holds.
pub(crate) fn key_of(tag: Tag) -> Key
    ensures { result ≡ key_of tag }
{
    Key {
        kind: tag.kind,
        unit: tag.unit,
        address: tag.address,
    }
}

/// Whether the device has the key of each page.
pub fn are_known(pages: &[FoundPage], numbers: &Numbers) -> bool
    ensures { let s = shape_of_numbers numbers.now in (c : Cells) → AreListed c pages.now →
        IsTrue result ↔ AreKnown s c }
{
    for page in pages {
        if key_index(numbers, key_of(page.tag)).is_none() {
            return false;
        }
    }
    true
}

/// The page that has the content of each key, in the order of the keys: of the pages that have a
/// number outside the fence and no greater than the kept one, the newest, at the lowest of its
/// places; `None` for a key without such a page.
pub fn content_pages(
    alloc: Global,
    pages: &[FoundPage],
    fence: Option<Fence>,
    kept: u64,
    numbers: &Numbers,
) -> Result<Vec<Option<FoundPage>>, AllocError>
    ensures each_key { let s = shape_of_numbers numbers.now in
        IfOk result (λ entries. length entries.items ≡ key_total s) }
    ensures content { let s = shape_of_numbers numbers.now in
        IfOk result (λ entries. (c : Cells) (m : Option Mark) → AreListed c pages.now →
        fence_in m ≡ fence → (k : Key) (i : ℕ) → IsIndex s k i →
        (e : Option FoundPage) × (slice_get entries.items i ≡ Some e)
        × IsContentPage c m kept k e) }
{
    let mut entries = nowhere(alloc, key_count(numbers))?;
    for page in pages {
        note(entries.as_mut_slice(), *page, fence, kept, numbers);
    }
    Ok(entries)
}

/// No key has a page.
fn nowhere(alloc: Global, count: usize) -> Result<Vec<Option<FoundPage>>, AllocError>
    ensures { IfOk result (λ v. v.items ≡ replicate count None) }
{
    let mut all = Vec::with_capacity(alloc, count)?;
    for _ in 0..count {
        all.push(None)?;
    }
    Ok(all)
}

/// The page takes its key's place if it has the key's content among the pages so far.
fn note(
    entries: &mut [Option<FoundPage>],
    page: FoundPage,
    fence: Option<Fence>,
    kept: u64,
    numbers: &Numbers,
)
    requires { length entries.old ≡ key_total (shape_of_numbers numbers.now) }
    ensures { let s = shape_of_numbers numbers.now in
        (k : Key) (i : ℕ) (e : Option FoundPage) → IsIndex s k i →
        slice_get entries.old i ≡ Some e →
        slice_get entries.new i ≡ Some (with_page fence kept k page e) }
{
    if is_fenced(fence, page.tag.number) || page.tag.number > kept {
        return;
    }
    if let Some(index) = key_index(numbers, key_of(page.tag)) {
        if is_newer(page, entries[index]) {
            entries[index] = Some(page);
        }
    }
}

/// Whether the number lies within the fence.
pub(crate) fn is_fenced(fence: Option<Fence>, number: u64) -> bool
    ensures { result ≡ is_fenced fence number }
{
    match fence {
        Some(fence) => fence.first <= number && number <= fence.last,
        None => false,
    }
}

/// Whether there is no older page, or its number is smaller.
fn is_newer(page: FoundPage, old: Option<FoundPage>) -> bool
    ensures { result ≡ is_newer page old }
{
    match old {
        Some(old) => old.tag.number < page.tag.number,
        None => true,
    }
}

/// The keys with a page whose number is not below the first lost one, each once, in order.
///
/// No page has a number above the greatest seen, so these are the keys with a lost page.
pub fn lost_keys(
    alloc: Global,
    pages: &[FoundPage],
    low: u64,
    numbers: &Numbers,
) -> Result<Vec<Key>, AllocError>
    ensures { let s = shape_of_numbers numbers.now in
        IfOk result (λ keys. (c : Cells) (top : ℕ) → AreListed c pages.now →
        ((p : Place) (t : Tag) (body : List ℕ) → c p ≡ GroupPage t body → t.number ≤ top) →
        AreKnown s c → AreLost c low top keys.items) }
{
    let marked = lost_marks(alloc, pages, low, numbers)?;
    marked_keys(alloc, marked.as_slice(), numbers)
}

/// For each key in order whether one of its pages has a number that is not below this one.
fn lost_marks(
    alloc: Global,
    pages: &[FoundPage],
    low: u64,
    numbers: &Numbers,
) -> Result<Vec<bool>, AllocError>
    ensures each_key { let s = shape_of_numbers numbers.now in
        IfOk result (λ marked. length marked.items ≡ key_total s) }
    ensures lost { let s = shape_of_numbers numbers.now in
        IfOk result (λ marked. (k : Key) (i : ℕ) → IsIndex s k i →
        (slice_get marked.items i ≡ Some true) ↔ IsLostAmong pages.now (length pages.now) low k) }
{
    let mut marked = unmarked(alloc, key_count(numbers))?;
    for page in pages {
        mark(marked.as_mut_slice(), page.tag, low, numbers);
    }
    Ok(marked)
}

/// No key is marked.
fn unmarked(alloc: Global, count: usize) -> Result<Vec<bool>, AllocError>
    ensures { IfOk result (λ v. v.items ≡ replicate count false) }
{
    let mut all = Vec::with_capacity(alloc, count)?;
    for _ in 0..count {
        all.push(false)?;
    }
    Ok(all)
}

/// Marks the key of a page whose number is not below this one, if the device has the key.
fn mark(marked: &mut [bool], tag: Tag, low: u64, numbers: &Numbers)
    requires { length marked.old ≡ key_total (shape_of_numbers numbers.now) }
    ensures same { let s = shape_of_numbers numbers.now in
        (k : Key) (i : ℕ) → IsIndex s k i → (k ≡ key_of tag → low ≤ tag.number → ⊥) →
        slice_get marked.new i ≡ slice_get marked.old i }
    ensures here { let s = shape_of_numbers numbers.now in
        low ≤ tag.number → (i : ℕ) → IsIndex s (key_of tag) i → slice_get marked.new i ≡ Some true }
{
    if tag.number < low {
        return;
    }
    if let Some(index) = key_index(numbers, key_of(tag)) {
        marked[index] = true;
    }
}

/// The keys that are marked, in order.
fn marked_keys(alloc: Global, marked: &[bool], numbers: &Numbers) -> Result<Vec<Key>, AllocError>
    requires { length marked.now ≡ key_total (shape_of_numbers numbers.now) }
    ensures { let s = shape_of_numbers numbers.now in
        IfOk result (λ keys. AreMarked s marked.now (length marked.now) keys.items) }
{
    let mut keys = Vec::new(alloc);
    for (index, is_marked) in marked.iter().enumerate() {
        if *is_marked {
            keys.push(key_at(numbers, index))?;
        }
    }
    Ok(keys)
}

/// What each block is, by whether it is free, whether a page of it opens, and whether it is bad.
pub fn block_states(
    alloc: Global,
    free: &[bool],
    opening: &[bool],
    bad: &[bool],
) -> Result<Vec<FoundBlock>, AllocError>
    requires free { length free.now ≡ length bad.now }
    requires opening { length opening.now ≡ length bad.now }
    ensures each_block { IfOk result (λ states. length states.items ≡ length bad.now) }
    ensures states { IfOk result (λ states. (i : ℕ) (is_free opens is_bad : Bool) →
        slice_get free.now i ≡ Some is_free → slice_get opening.now i ≡ Some opens →
        slice_get bad.now i ≡ Some is_bad → slice_get states.items i ≡ Some (found_block is_free opens is_bad)) }
{
    let mut states = Vec::with_capacity(alloc, bad.len())?;
    for (index, is_bad) in bad.iter().enumerate() {
        states.push(found_block(free[index], opening[index], *is_bad))?;
    }
    Ok(states)
}

/// What a block is, of which a page opens or none does.
fn found_block(is_free: bool, opens: bool, is_bad: bool) -> FoundBlock
    ensures { result ≡ found_block is_free opens is_bad }
{
    if is_bad {
        FoundBlock::Bad
    } else if !is_free {
        FoundBlock::Closed
    } else if opens {
        FoundBlock::Stale
    } else {
        FoundBlock::Free
    }
}
