//! Which blocks are free when a device is opened over written dies: those of which no page is needed.
ghost use Rattle.std.specs.Prelude.{◌≡◌, ◌+◌, ◌*◌, ◌<◌, ◌≤◌, ◌⊎◌, ◌↔◌, ◌&&◌, ℕ, suc, Bool, true, false, List, Option, Some, None, [], IfOk, IsTrue, length, map, not, nat_lt, option_map, slice_get, slice_index_or};
ghost use Rattle.ufs_spec.specs.Cells.{AreWithin, Cells, key_of};
ghost use Rattle.ufs_spec.specs.Disk.{Spot};
ghost use Rattle.ufs_spec.specs.Kept.{IsNewestMark};
ghost use Rattle.ufs_spec.specs.Plain.{shape_of_numbers};
ghost use Rattle.ufs_spec.specs.Sound.{CellsSuit};
ghost use Rattle.ufs_spec.specs.Translation.{spots};
ghost use Rattle.geometry.specs.Keys.{IsIndex, key_total};
ghost use Rattle.page_tag.specs.Contents.{mark_of};
ghost use Rattle.recovery.specs.Frees.{AreAged, AreByAge, AreDecided, AreFoundFree, AreGreatest, AreHeld, AreNeeded, AreOpening, AreRising, AreSamePages, AreUnused};
ghost use Rattle.recovery.specs.Frees.{HasOther, IsCutAt, IsKeptCopy, IsNeededIn, PagesRecord, RecordsUpTo, TellsNeed, block_number, block_of, is_free_in, is_older};
ghost use Rattle.recovery.specs.KeysInOrder.{is_fenced};
ghost use Rattle.recovery.specs.Listed.{AreListed, AreMarksListed};
ghost use Rattle.recovery.specs.declared.free.Aged.{Aged};
ghost use Rattle.recovery.specs.declared.pages.FoundMark.{FoundMark};
ghost use Rattle.recovery.specs.declared.pages.FoundPage.{FoundPage};

use crate::keys::{content_pages, is_fenced, key_of};
use crate::pages::{FoundMark, FoundPage};
use geometry::key_index;
use page_tag::Mark;
use std::alloc::{AllocError, Global};
use ufs_spec::{Fence, Key, Numbers, Place, Tag};

/// A block, by its number among all blocks, with the greatest frontier that a page of it records.
#[derive(Clone, Copy)]
struct Aged {
    latest: u64,
    block: usize,
}

/// Where the block of the place stands among all blocks, die by die, of which each has so many.
pub(crate) fn block_number(place: Place, blocks: u16) -> usize
    ensures { result ≡ block_number blocks place }
{
    usize::from(place.die) * usize::from(blocks) + usize::from(place.block)
}

/// For each of so many blocks the greatest frontier that one of the pages in it records.
fn latest_of_pages(
    alloc: Global,
    pages: &[FoundPage],
    blocks: u16,
    count: usize,
) -> Result<Vec<u64>, AllocError>
    ensures long { IfOk result (λ v. length v.items ≡ count) }
    ensures greatest { IfOk result (λ v. AreGreatest (PagesRecord blocks pages.now (length pages.now)) v.items) }
{
    let mut latests = vec![in alloc; 0u64; count]?;
    for page in pages {
        raise(
            &mut latests,
            block_number(page.place, blocks),
            page.tag.frontier,
        );
    }
    Ok(latests)
}

/// The block records this frontier too, if there is such a block.
fn raise(latests: &mut Vec<u64>, block: usize, frontier: u64)
    ensures long { length latests.new.items ≡ length latests.old.items }
    ensures other { (k : ℕ) → (k ≡ block → ⊥) → slice_get latests.new.items k ≡ slice_get latests.old.items k }
    ensures here { (x : ℕ) → slice_get latests.new.items block ≡ Some x →
        (y : ℕ) × (slice_get latests.old.items block ≡ Some y) × (y ≤ x) × (frontier ≤ x) × ((x ≡ y) ⊎ (x ≡ frontier)) }
{
    if block < latests.len() && latests[block] < frontier {
        latests[block] = frontier;
    }
}

/// Each block records what the marks in it record too.
fn raise_by_marks(latests: &mut Vec<u64>, marks: &[FoundMark], blocks: u16)
    ensures long { length latests.new.items ≡ length latests.old.items }
    ensures greatest { (pages : List FoundPage) →
        AreGreatest (PagesRecord blocks pages (length pages)) latests.old.items →
        AreGreatest (RecordsUpTo blocks pages marks.now (length marks.now)) latests.new.items }
{
    for mark in marks {
        raise(latests, block_number(mark.place, blocks), mark.records);
    }
}

/// Each block with what it records last, in the order of the blocks.
fn with_ages(alloc: Global, latests: &[u64]) -> Result<Vec<Aged>, AllocError>
    ensures { IfOk result (λ v. AreAged latests.now (length latests.now) v.items) }
{
    let mut all = Vec::new(alloc);
    for (block, latest) in latests.iter().enumerate() {
        let latest = *latest;
        all.push(Aged { latest, block })?;
    }
    Ok(all)
}

/// The blocks from the oldest on: by what they record last, the least first, and of those that
/// record as much the lower first.
fn by_age(alloc: Global, latests: &[u64]) -> Result<Vec<Aged>, AllocError>
    ensures { IfOk result (λ v. AreByAge latests.now v.items) }
{
    let mut order = with_ages(alloc, latests)?;
    order.sort_by_key(|aged| aged.latest)?;
    Ok(order)
}

/// The blocks from the oldest on, of so many, by what the pages and marks in them record.
fn oldest_first(
    alloc: Global,
    pages: &[FoundPage],
    marks: &[FoundMark],
    blocks: u16,
    count: usize,
) -> Result<Vec<Aged>, AllocError>
    ensures { IfOk result (λ v. (latests : List ℕ) × (length latests ≡ count)
        × AreGreatest (RecordsUpTo blocks pages.now marks.now (length marks.now)) latests × AreByAge latests v.items) }
{
    let mut latests = latest_of_pages(alloc, pages, blocks, count)?;
    raise_by_marks(&mut latests, marks, blocks);
    by_age(alloc, latests.as_slice())
}

/// Writes the answer of the block, if there is such a block.
fn answer(list: &mut Vec<bool>, block: usize, yes: bool)
    ensures long { length list.new.items ≡ length list.old.items }
    ensures other { (k : ℕ) → (k ≡ block → ⊥) → slice_get list.new.items k ≡ slice_get list.old.items k }
    ensures here { (x : Bool) → slice_get list.new.items block ≡ Some x → x ≡ yes }
{
    if block < list.len() {
        list[block] = yes;
    }
}

/// For each block whether it is bad, or holds a mark with a number that is not below this one.
fn held_blocks(
    alloc: Global,
    bad: &[bool],
    marks: &[FoundMark],
    number: u64,
    blocks: u16,
) -> Result<Vec<bool>, AllocError>
    ensures { IfOk result (λ v. AreHeld blocks bad.now marks.now (length marks.now) number v.items) }
{
    let mut held = Vec::from_slice(alloc, bad)?;
    for mark in marks {
        if mark.number >= number {
            answer(&mut held, block_number(mark.place, blocks), true);
        }
    }
    Ok(held)
}

/// Whether the page of the key is newer than one with this tag.
fn is_older(tag: Tag, newest: Option<FoundPage>) -> bool
    ensures { result ≡ is_older tag newest }
{
    match newest {
        Some(page) => tag.number < page.tag.number,
        None => false,
    }
}

/// Whether a page with this tag is needed: its number is not in the fence, and it is not older than
/// the page of its key among these.
fn is_needed(
    contents: &[Option<FoundPage>],
    tag: Tag,
    fence: Option<Fence>,
    numbers: &Numbers,
) -> bool
    requires { length contents.now ≡ key_total (shape_of_numbers numbers.now) }
    ensures { TellsNeed (shape_of_numbers numbers.now) fence contents.now tag result }
{
    match key_index(numbers, key_of(tag)) {
        Some(index) => !is_fenced(fence, tag.number) && !is_older(tag, contents[index]),
        None => true,
    }
}

/// For each page whether it is needed.
fn needed_pages(
    alloc: Global,
    pages: &[FoundPage],
    contents: &[Option<FoundPage>],
    fence: Option<Fence>,
    numbers: &Numbers,
) -> Result<Vec<bool>, AllocError>
    requires { length contents.now ≡ key_total (shape_of_numbers numbers.now) }
    ensures long { IfOk result (λ v. length v.items ≡ length pages.now) }
    ensures told { let s = shape_of_numbers numbers.now in
        IfOk result (λ v. AreNeeded s fence contents.now pages.now (length pages.now) v.items) }
{
    let mut needed = Vec::with_capacity(alloc, pages.len())?;
    for page in pages {
        needed.push(is_needed(contents, page.tag, fence, numbers))?;
    }
    Ok(needed)
}

/// The pages by the numbers of their groups, the least first.
fn by_number(alloc: Global, pages: &[FoundPage]) -> Result<Vec<FoundPage>, AllocError>
    ensures same { IfOk result (λ v. AreSamePages pages.now v.items) }
    ensures rising { IfOk result (λ v. AreRising (λ e. e.tag.number) v.items) }
{
    let mut named = Vec::from_slice(alloc, pages)?;
    named.sort_unstable_by_key(|page| page.tag.number);
    Ok(named)
}

/// Where the pages of the block begin.
fn first_in(pages: &[FoundPage], blocks: u16, block: usize) -> usize
    ensures bound { result ≤ length pages.now }
    ensures cut { AreRising (block_of blocks) pages.now → IsCutAt (block_of blocks) pages.now block result }
{
    pages.partition_point(|page| block_number(page.place, blocks) < block)
}

/// Where those of the blocks behind it begin.
fn end_of(pages: &[FoundPage], blocks: u16, block: usize) -> usize
    ensures bound { result ≤ length pages.now }
    ensures cut { AreRising (block_of blocks) pages.now → IsCutAt (block_of blocks) pages.now (suc block) result }
{
    pages.partition_point(|page| block_number(page.place, blocks) <= block)
}

/// Where the pages of the group with the number begin.
fn first_of_group(named: &[FoundPage], number: u64) -> usize
    ensures bound { result ≤ length named.now }
    ensures cut { AreRising (λ e. e.tag.number) named.now → IsCutAt (λ e. e.tag.number) named.now number result }
{
    named.partition_point(|page| page.tag.number < number)
}

/// Where those of the groups behind it begin.
fn end_of_group(named: &[FoundPage], number: u64) -> usize
    ensures bound { result ≤ length named.now }
    ensures cut { AreRising (λ e. e.tag.number) named.now → IsCutAt (λ e. e.tag.number) named.now (suc number) result }
{
    named.partition_point(|page| page.tag.number <= number)
}

/// Whether the list says that the block is free; of a block that is not there it says no.
pub(crate) fn is_free(free: &[bool], block: usize) -> bool
    ensures { result ≡ slice_index_or free.now block false }
{
    match free.get(block) {
        Some(is) => *is,
        None => false,
    }
}

/// Whether the other page of the group has the index too, and lies in another block that is not free.
fn is_kept_copy(other: FoundPage, page: FoundPage, free: &[bool], blocks: u16) -> bool
    ensures { IsTrue result ↔ IsKeptCopy blocks free.now other page }
{
    let block = block_number(other.place, blocks);
    other.tag.index == page.tag.index
        && block != block_number(page.place, blocks)
        && !is_free(free, block)
}

/// Whether a page of this name lies in another block that is not free.
fn has_other(named: &[FoundPage], page: FoundPage, free: &[bool], blocks: u16) -> bool
    ensures goes { result ≡ true → AreRising (λ e. e.tag.number) named.now → HasOther blocks named.now free.now page }
    ensures stays { result ≡ false → AreRising (λ e. e.tag.number) named.now →
        HasOther blocks named.now free.now page → ⊥ }
{
    let end = end_of_group(named, page.tag.number);
    for index in first_of_group(named, page.tag.number)..end {
        if is_kept_copy(named[index], page, free, blocks) {
            return true;
        }
    }
    false
}

/// Whether each needed page of the block has another that is not in a free block.
fn all_go(
    pages: &[FoundPage],
    needed: &[bool],
    named: &[FoundPage],
    free: &[bool],
    blocks: u16,
    block: usize,
) -> bool
    requires { length needed.now ≡ length pages.now }
    ensures goes { result ≡ true → AreRising (block_of blocks) pages.now → AreRising (λ e. e.tag.number) named.now →
        (i : ℕ) (e : FoundPage) → IsNeededIn blocks pages.now needed.now block i e →
        HasOther blocks named.now free.now e }
    ensures stays { result ≡ false → AreRising (block_of blocks) pages.now → AreRising (λ e. e.tag.number) named.now →
        (i : ℕ) × (e : FoundPage) × IsNeededIn blocks pages.now needed.now block i e
        × (HasOther blocks named.now free.now e → ⊥) }
{
    let end = end_of(pages, blocks, block);
    for index in first_in(pages, blocks, block)..end {
        if needed[index] && !has_other(named, pages[index], free, blocks) {
            return false;
        }
    }
    true
}

/// Whether the block is free, where this list says so of those before it: it is not held, and each
/// needed page of it has another that is not in a free block.
fn is_spare(
    held: &[bool],
    pages: &[FoundPage],
    needed: &[bool],
    named: &[FoundPage],
    free: &[bool],
    blocks: u16,
    block: usize,
) -> bool
    requires long { length needed.now ≡ length pages.now }
    requires inside { block < length held.now }
    ensures goes { result ≡ true → AreRising (block_of blocks) pages.now → AreRising (λ e. e.tag.number) named.now →
        (slice_get held.now block ≡ Some false)
        × ((i : ℕ) (e : FoundPage) → IsNeededIn blocks pages.now needed.now block i e →
        HasOther blocks named.now free.now e) }
    ensures stays { result ≡ false → AreRising (block_of blocks) pages.now → AreRising (λ e. e.tag.number) named.now →
        (slice_get held.now block ≡ Some true)
        ⊎ ((i : ℕ) × (e : FoundPage) × IsNeededIn blocks pages.now needed.now block i e
        × (HasOther blocks named.now free.now e → ⊥)) }
{
    if held[block] {
        return false;
    }
    all_go(pages, needed, named, free, blocks, block)
}

/// Which blocks are free, as they are gone through in this order: each that is not held, and of
/// which each needed page has another that is not in a free block.
fn free_in_order(
    alloc: Global,
    order: &[Aged],
    held: &[bool],
    pages: &[FoundPage],
    needed: &[bool],
    named: &[FoundPage],
    blocks: u16,
) -> Result<Vec<bool>, AllocError>
    requires long { length needed.now ≡ length pages.now }
    requires inside { (i : ℕ) (a : Aged) → slice_get order.now i ≡ Some a → a.block < length held.now }
    ensures as_many { IfOk result (λ v. length v.items ≡ length held.now) }
    ensures decided { IfOk result (λ v. (latests : List ℕ) → AreByAge latests order.now →
        AreRising (block_of blocks) pages.now → AreRising (λ e. e.tag.number) named.now →
        AreDecided blocks latests held.now pages.now needed.now named.now v.items) }
{
    let mut free = vec![in alloc; false; held.len()]?;
    for aged in order {
        let block = aged.block;
        let goes = is_spare(held, pages, needed, named, free.as_slice(), blocks, block);
        answer(&mut free, block, goes);
    }
    Ok(free)
}

/// Which blocks are free by the newest mark.
fn free_behind(
    alloc: Global,
    mark: &Mark,
    pages: &[FoundPage],
    marks: &[FoundMark],
    bad: &[bool],
    numbers: &Numbers,
) -> Result<Vec<bool>, AllocError>
    ensures as_many { IfOk result (λ v. length v.items ≡ length bad.now) }
    ensures free { let m = Some (mark_of mark.now) in let n = numbers.now in
        IfOk result (λ v. (c : Cells) (is_bad : Spot → Bool) → AreListed c pages.now → AreMarksListed c marks.now →
        AreWithin n c → CellsSuit n c m → bad.now ≡ map is_bad (spots n) →
        AreFoundFree c m is_bad (is_free_in n is_bad v.items)) }
{
    let blocks = numbers.blocks;
    let contents = content_pages(alloc, pages, mark.fence, mark.records, numbers)?;
    let needed = needed_pages(alloc, pages, contents.as_slice(), mark.fence, numbers)?;
    let named = by_number(alloc, pages)?;
    let held = held_blocks(alloc, bad, marks, mark.number, blocks)?;
    let order = oldest_first(alloc, pages, marks, blocks, bad.len())?;
    free_in_order(
        alloc,
        order.as_slice(),
        held.as_slice(),
        pages,
        needed.as_slice(),
        named.as_slice(),
        blocks,
    )
}

/// For each block whether it is not bad.
fn good_blocks(alloc: Global, bad: &[bool]) -> Result<Vec<bool>, AllocError>
    ensures { IfOk result (λ v. v.items ≡ map not bad.now) }
{
    let mut good = Vec::with_capacity(alloc, bad.len())?;
    for is_bad in bad {
        good.push(!*is_bad)?;
    }
    Ok(good)
}

/// For each block whether it is not bad and holds none of these pages.
fn unused_blocks(
    alloc: Global,
    pages: &[FoundPage],
    bad: &[bool],
    blocks: u16,
) -> Result<Vec<bool>, AllocError>
    ensures { IfOk result (λ v. AreUnused blocks bad.now pages.now (length pages.now) v.items) }
{
    let mut free = good_blocks(alloc, bad)?;
    for page in pages {
        answer(&mut free, block_number(page.place, blocks), false);
    }
    Ok(free)
}

/// For each block whether it is free: it is not bad, and none of its pages is needed by the newest
/// mark. Blocks are gone through by the greatest frontier that a page of them records, the least
/// first; a page is not needed if its number is in the mark's fence, a newer page of its key counts
/// at or under what the mark records, or a copy lies in another block that was not found free before.
/// A page of the same number and index is taken as a copy, so tags alone decide it. Marks that are
/// older than the newest are not needed. Without a mark each page is needed.
///
/// It takes time in proportion to the pages, the marks and the keys but for sorting and for going
/// through the pages of a group and their copies for each page.
pub(crate) fn free_blocks(
    alloc: Global,
    newest: &Option<Mark>,
    pages: &[FoundPage],
    marks: &[FoundMark],
    bad: &[bool],
    numbers: &Numbers,
) -> Result<Vec<bool>, AllocError>
    ensures as_many { IfOk result (λ v. length v.items ≡ length bad.now) }
    ensures free { let m = option_map mark_of newest.now in let n = numbers.now in
        IfOk result (λ v. (c : Cells) (is_bad : Spot → Bool) → AreListed c pages.now → AreMarksListed c marks.now →
        IsNewestMark c m → AreWithin n c → CellsSuit n c m → bad.now ≡ map is_bad (spots n) →
        AreFoundFree c m is_bad (is_free_in n is_bad v.items)) }
{
    match newest {
        Some(mark) => free_behind(alloc, mark, pages, marks, bad, numbers),
        None => unused_blocks(alloc, pages, bad, numbers.blocks),
    }
}

/// For each of so many blocks whether a page of it opens: one of these pages or marks lies in it.
pub(crate) fn opening_blocks(
    alloc: Global,
    pages: &[FoundPage],
    marks: &[FoundMark],
    blocks: u16,
    count: usize,
) -> Result<Vec<bool>, AllocError>
    ensures as_many { IfOk result (λ v. length v.items ≡ count) }
    ensures opening { IfOk result (λ v.
        AreOpening blocks pages.now (length pages.now) marks.now (length marks.now) v.items) }
{
    let mut opening = vec![in alloc; false; count]?;
    for page in pages {
        answer(&mut opening, block_number(page.place, blocks), true);
    }
    for mark in marks {
        answer(&mut opening, block_number(mark.place, blocks), true);
    }
    Ok(opening)
}
