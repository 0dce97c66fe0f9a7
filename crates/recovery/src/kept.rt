//! The greatest numbers that pages say, and the number up to which every group is whole.
ghost use Rattle.std.specs.Prelude.{◌≡◌, ◌⊎◌, ◌↔◌, ℕ, ◌+◌, ◌*◌, ◌^◌, ◌<◌, ◌≤◌, IsTrue, IfOk};
ghost use Rattle.std.specs.Prelude.{Option, Some, false, length, replicate, slice_get};
ghost use Rattle.ufs_spec.specs.Cells.{Cells, Mark};
ghost use Rattle.ufs_spec.specs.Kept.{IsFenced, IsKept, IsRecorded, fence_in};
ghost use Rattle.ufs_spec.specs.Openings.{IsGreatestSeen, lost_from};
ghost use Rattle.ufs_spec.specs.Pages.{greatest_number, group_bound};
ghost use Rattle.recovery.specs.Buckets.{AreBuckets, HasIndex, HasRoom, IsNotedAt, IsWholeBucket};
ghost use Rattle.recovery.specs.Buckets.{noted, nothing_noted};
ghost use Rattle.recovery.specs.Greatest.{FrontiersWithin, NumbersWithin, fence_end};
ghost use Rattle.recovery.specs.Listed.{AreListed, IsMarksRecord};
ghost use Rattle.recovery.specs.declared.kept.Bucket.{Bucket};

use crate::pages::FoundPage;
use std::alloc::{AllocError, Global};
use ufs_spec::{Fence, GREATEST_GROUP, GREATEST_NUMBER, Tag};
use word_set::WordSet;

/// How many pages a group may have that is found, which may be more than the device accepts as one.
const LONGEST_GROUP: usize = GREATEST_GROUP as usize;

/// Whether the number lies within the fence.
fn is_fenced(fence: Option<Fence>, number: u64) -> bool
    ensures { IsTrue result ↔ IsFenced fence number }
{
    match fence {
        None => false,
        Some(range) => range.first <= number && number <= range.last,
    }
}

/// The greatest frontier that a page which counts records, marks included. Here `marks` is the
/// greatest that a mark records. A page counts if its number is not within the fence.
pub(crate) fn recorded_frontier(pages: &[FoundPage], fence: Option<Fence>, marks: u64) -> u64
    ensures recorded { (c : Cells) (m : Option Mark) → AreListed c pages.now → fence_in m ≡ fence → IsMarksRecord c marks → IsRecorded c m result }
    ensures bounded { (limit : ℕ) → FrontiersWithin pages.now limit → marks ≤ limit → result ≤ limit }
{
    let mut greatest = marks;
    for page in pages {
        if !is_fenced(fence, page.tag.number) {
            greatest = greatest.max(page.tag.frontier);
        }
    }
    greatest
}

/// The last number of the fence, and 0 without a fence.
fn fence_end(fence: Option<Fence>) -> u64
    ensures { result ≡ fence_end fence }
{
    match fence {
        None => 0,
        Some(range) => range.last,
    }
}

/// The greatest number seen: of a page's group, of a frontier that a page or a mark records, or of
/// the fence. Here `marks` is the greatest frontier that a mark records.
pub(crate) fn greatest_seen(pages: &[FoundPage], fence: Option<Fence>, marks: u64) -> u64
    ensures top { (c : Cells) (m : Option Mark) → AreListed c pages.now → fence_in m ≡ fence → IsMarksRecord c marks → IsGreatestSeen c m result }
    ensures bounded { (limit : ℕ) → NumbersWithin pages.now limit → FrontiersWithin pages.now limit → marks ≤ limit → fence_end fence ≤ limit → result ≤ limit }
{
    let mut greatest = marks.max(fence_end(fence));
    for page in pages {
        greatest = greatest.max(page.tag.number).max(page.tag.frontier);
    }
    greatest
}

/// The first number that is lost: that of the old fence, or the one behind the kept number.
pub(crate) fn first_lost(fence: Option<Fence>, kept: u64) -> u64
    requires { kept ≤ greatest_number }
    ensures { result ≡ lost_from fence kept }
{
    match fence {
        None => kept + 1,
        Some(range) => range.first,
    }
}

/// What is noted of the pages of one group: the size that they say (0 for no page), and whether one
/// of them says another size.
#[derive(Clone, Copy)]
struct Bucket {
    size: u16,
    mixed: bool,
}

/// What is noted of no page.
const EMPTY: Bucket = Bucket {
    size: 0,
    mixed: false,
};

impl Bucket {
    /// Notes the size that a page of the group says.
    #[tactic(auto, unfolding(crate::specs::Buckets::noted))]
    fn note(&mut self, size: u16)
        ensures { self.new ≡ noted self.old size }
    {
        if self.size == 0 {
            self.size = size;
        } else if self.size != size {
            self.mixed = true;
        }
    }

    /// Whether the pages say one size, and each index below it is there. Here `seen` has the
    /// indexes of all buckets, and `at` is the place of this one among them.
    fn is_whole(&self, seen: &WordSet, at: usize) -> bool
        requires there { (at + 1) * group_bound ≤ length seen.now }
        requires few { length seen.now < 2 ^ 64 }
        ensures { IsTrue result ↔ IsWholeBucket self.now (HasIndex seen.now at) }
    {
        let size = usize::from(self.size);
        if self.mixed || size == 0 || size > LONGEST_GROUP {
            return false;
        }
        for index in 0..size {
            if !seen.has(at * LONGEST_GROUP + index) {
                return false;
            }
        }
        true
    }
}

/// Notes the index of a page of the group whose bucket is at this place. No group has an index from
/// `LONGEST_GROUP` on, and such a one is not noted.
fn note_index(seen: &mut WordSet, at: usize, index: usize)
    requires there { (at + 1) * group_bound ≤ length seen.old }
    requires few { length seen.old < 2 ^ 64 }
    ensures same { length seen.new ≡ length seen.old }
    ensures what { (k x : ℕ) → x < group_bound →
        (HasIndex seen.new k x ↔ HasIndex seen.old k x ⊎ ((k ≡ at) × (x ≡ index))) }
{
    if index < LONGEST_GROUP {
        seen.set(at * LONGEST_GROUP + index, true);
    }
}

/// What is noted of the pages of groups whose numbers follow one another: a bucket for each group,
/// and which indexes its pages have.
///
/// One set has the indexes of all buckets, with a bit for each, since there may be as many buckets
/// as pages. The index `i` of the bucket `k` is the number `k * LONGEST_GROUP + i` there.
#[derive(Drop)]
struct Groups {
    buckets: Vec<Bucket>,
    seen: WordSet,
}

impl Groups {
    /// So many buckets, in which no page is noted.
    fn new(alloc: Global, count: usize) -> Result<Groups, AllocError>
        ensures buckets { IfOk result (λ g. g.buckets.items ≡ replicate count nothing_noted) }
        ensures seen { IfOk result (λ g. g.seen ≡ replicate (count * group_bound) false) }
        ensures few { IfOk result (λ g. count * group_bound < 2 ^ 64) }
    {
        // No memory has room for so many indexes that 64 bits cannot count them.
        let Some(indexes) = count.checked_mul(LONGEST_GROUP) else {
            return Err(AllocError);
        };
        let buckets = vec![in alloc; EMPTY; count]?;
        let seen = WordSet::new(alloc, indexes)?;
        Ok(Groups { buckets, seen })
    }

    /// Notes the page in the bucket of its number, if there is one.
    fn note(&mut self, from: u64, tag: Tag)
        requires { HasRoom self.old }
        ensures { IsNotedAt self.old from tag self.new }
    {
        if tag.number > from {
            let at = (tag.number - from - 1) as usize;
            if at < self.buckets.len() {
                self.buckets[at].note(tag.size);
                note_index(&mut self.seen, at, usize::from(tag.index));
            }
        }
    }

    /// How many of the groups are whole before the first that is not.
    fn whole_count(&self) -> usize
        requires { HasRoom self.now }
        ensures within { result ≤ length self.now.buckets.items }
        ensures whole { (k : ℕ) (b : Bucket) → k < result →
            slice_get self.now.buckets.items k ≡ Some b →
            IsWholeBucket b (HasIndex self.now.seen k) }
        ensures stops { (b : Bucket) → slice_get self.now.buckets.items result ≡ Some b →
            IsWholeBucket b (HasIndex self.now.seen result) → ⊥ }
    {
        for (count, bucket) in self.buckets.iter().enumerate() {
            if !bucket.is_whole(&self.seen, count) {
                return count;
            }
        }
        self.buckets.len()
    }
}

/// A bucket for each number behind this one, with what the pages say. There are as many as pages,
/// since no more whole groups can follow the number, but none for a number above the highest.
fn groups_behind(alloc: Global, pages: &[FoundPage], from: u64) -> Result<Groups, AllocError>
    requires { from ≤ greatest_number }
    ensures { IfOk result (λ g. AreBuckets pages.now from g) }
{
    let count = pages.len().min((GREATEST_NUMBER - from) as usize);
    let mut groups = Groups::new(alloc, count)?;
    for page in pages {
        groups.note(from, page.tag);
    }
    Ok(groups)
}

/// The kept number: the last, from the greatest recorded frontier on, at or under which each group
/// is whole. It takes time and memory in proportion to the pages.
pub(crate) fn kept_number(alloc: Global, pages: &[FoundPage], from: u64) -> Result<u64, AllocError>
    requires { from ≤ greatest_number }
    ensures kept { IfOk result (λ k. (c : Cells) (m : Option Mark) → AreListed c pages.now → IsRecorded c m from → IsKept c m k) }
    ensures bounded { IfOk result (λ k. k ≤ greatest_number) }
{
    let groups = groups_behind(alloc, pages, from)?;
    Ok(from + groups.whole_count() as u64)
}
