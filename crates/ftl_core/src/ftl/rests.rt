//! Groups of pages with keys of their own, and the rests that their pages wait for.
ghost use Rattle.std.specs.Prelude.{◌≡◌, ℕ, ◌≤◌, All, IsTrue, List, [], Option, find, length, option_copied, option_map};
ghost use Rattle.std.specs.Prelude.{◌-◌, Some, drop, min, replicate, slice_get};
ghost use Rattle.ftl_core.specs.Moves.{has_number, next_number, rest_look};
ghost use Rattle.ftl_core.specs.Rests.{IsPartBrought, accepted_pages, awaited, new_page, own_name, rests_filled};
ghost use Rattle.ftl_core.specs.Rests.{slot_source, source_for, stored_source, with_rest};
ghost use Rattle.ftl_core.specs.Gives.{IsRestRead};
ghost use Rattle.write_cache.specs.Slots.{is_named, landed, page_written};
ghost use Rattle.ufs_spec.specs.Keys.{Group};
ghost use Rattle.ufs_spec.specs.Ledger.{next_number as next_of_layer};
ghost use Rattle.ufs_spec.specs.Moves.{Accept, IsAllowedMove, moved};
ghost use Rattle.ufs_spec.specs.Plain.{zero_block};
ghost use Rattle.ufs_spec.specs.Translation.{Translation};
ghost use Rattle.ftl_core.specs.Describes.{Describes};
ghost use Rattle.ftl_core.specs.Public.{AreClaimed, AreClaimedBy, Claims, with_claimed};
ghost use Rattle.ftl_core.specs.Stops.{StopsRight};
ghost use Rattle.ftl_core.specs.Tells.{IsGroupBrought};
ghost use Rattle.page_tag.specs.Jobs.{IsTagRead};

use super::Ftl;
use super::ends::body_looked;
use super::pin_counts::{pin_rests, unpin_first, unpin_rests};
use crate::books::Brought;
use ufs_spec::{Block, Key, Looked, Name, Outcome, Place, Tag};
use unit_map::Stored;
use write_cache::{Landed, NewPage, OwedSource, Pending, Rest, RestSource};

/// The page that is read for the rest, as what is looked at.
pub(super) fn rest_look(rest: &Option<Rest>) -> Looked
    ensures { result ≡ rest_look rest.now }
{
    match rest {
        Some(
            Rest {
                source: OwedSource::Page { name, place },
                ..
            },
        ) => Looked::OnPage(*name, *place),
        _ => Looked::Unwritten,
    }
}

/// Where the rest comes from of a page that follows this pending one.
fn slot_source(page: &Pending) -> RestSource
    ensures { result ≡ slot_source (own_name page.now) (awaited page.now) }
{
    match page.awaited() {
        Some(read) => RestSource::Owed(read),
        None => RestSource::Slot(page.name()),
    }
}

/// Where the rest of a page comes from whose key has this durable content.
fn stored_source(stored: Option<Stored>) -> RestSource
    ensures { result ≡ stored_source stored }
{
    match stored {
        Some(stored) => RestSource::Page {
            name: stored.name,
            place: stored.place,
        },
        None => RestSource::Nothing,
    }
}

/// What the end of its read gives for the rest of the pending page.
fn rest_given<'a>(outcome: &'a Outcome, tag: &Option<Tag>, page: &Pending) -> Option<&'a Block>
    requires { IsTagRead outcome.now tag.now }
    ensures { IsRestRead (Some page.now) outcome.now (option_copied result) }
{
    match outcome {
        Outcome::Read(read) => body_looked(read, tag, page.key, &rest_look(&page.rest)),
        _ => None,
    }
}

impl Ftl {
    /// Puts the group of these pages, one to three, behind all that are pending, in the place of the slots
    /// that the reader claimed, and answers its number. A page of an RPMB area may come in part: its rest is
    /// what its key has after all groups, and is read where that is a page. Slots that are left are free.
    pub fn accept_pages(&mut self, reader: u8, pages: &[Brought<'_>]) -> u64
        requires numbered { IsTrue (has_number self.old) }
        requires parts { All IsPartBrought pages.now }
        requires some { 1 ≤ length pages.now }
        requires few { length pages.now ≤ 3 }
        ensures number { result ≡ next_number self.old }
        ensures after { self.new ≡ accepted_pages self.old reader pages.now }
        ensures described { (t : Translation) (g : Group) (claimed : ℕ) → Describes self.old t →
            AreClaimedBy self.old reader (replicate claimed zero_block) → IsGroupBrought t g pages.now →
            IsAllowedMove t (Accept claimed g) → Describes self.new (moved t (Accept claimed g)) }
        // Whatever a stop leaves then is right.
        ensures stop { (t : Translation) (g : Group) (claimed : ℕ) → Describes self.old t →
            AreClaimedBy self.old reader (replicate claimed zero_block) → IsGroupBrought t g pages.now →
            IsAllowedMove t (Accept claimed g) → StopsRight self.new (moved t (Accept claimed g)) }
        ensures described_number { (t : Translation) → Describes self.old t → result ≡ next_of_layer t.ledger }
        ensures claims { (claims : Claims) → AreClaimed self.old claims →
            AreClaimed self.new (with_claimed claims reader []) }
    {
        self.has_few_units();
        self.append_pages(reader, pages)
    }

    /// Puts the group behind all that are pending. Blocks from which rests are to be read have their pins.
    fn append_pages(&mut self, reader: u8, pages: &[Brought<'_>]) -> u64
        requires numbered { IsTrue (has_number self.old) }
        requires parts { All IsPartBrought pages.now }
        requires some { 1 ≤ length pages.now }
        requires few { length pages.now ≤ 3 }
        ensures number { result ≡ next_number self.old }
        ensures after { self.new ≡ accepted_pages self.old reader pages.now }
    {
        let new = [
            self.new_page_at(pages, 0),
            self.new_page_at(pages, 1),
            self.new_page_at(pages, 2),
        ];
        self.has_few_slots();
        let before = self.cache.pending();
        let number = self.cache.append_pages(reader, &new[..pages.len()]);
        pin_rests(&mut self.live, &self.cache, before);
        number
    }

    /// The page of this index, or the last one where there is none, with where its rest comes from.
    fn new_page_at<'a>(&self, pages: &[Brought<'a>], index: usize) -> NewPage<'a>
        requires { 1 ≤ length pages.now }
        ensures { option_map (new_page self.now) (slice_get pages.now (min index (length pages.now - 1))) ≡ Some result }
    {
        self.new_page(&pages[index.min(pages.len() - 1)])
    }

    /// The page, with where its rest comes from.
    fn new_page<'a>(&self, page: &Brought<'a>) -> NewPage<'a>
        ensures { result ≡ new_page self.now page.now }
    {
        NewPage {
            key: page.key,
            part: page.part,
            bytes: page.bytes,
            source: self.source_for(page.key),
        }
    }

    /// Where the rest of a page of the key comes from that is accepted now: only a page of an RPMB area has
    /// one.
    fn source_for(&self, key: Key) -> RestSource
        ensures { result ≡ source_for self.now key }
    {
        if key.kind != Tag::RPMB_AREA {
            return RestSource::Nothing;
        }
        match self.cache.last_page(key) {
            Some(page) => slot_source(page),
            None => stored_source(self.stored(key)),
        }
    }

    /// The page of a pending group is written there.
    pub(super) fn note_written(&mut self, number: u64, index: u16, place: Place)
        ensures { self.new ≡ record self.old { pages = page_written self.old.pages number index place } }
    {
        self.cache.mark_written(number, index, place);
    }

    /// Takes the first pending page out of its slot. Its block has no pin for its rest any more.
    pub(super) fn land(&mut self) -> Option<Landed>
        ensures where_it_is { result ≡ option_map landed (slice_get self.old.pages 0) }
        ensures after { self.new ≡ record self.old { pages = drop 1 self.old.pages } }
    {
        unpin_first(&mut self.live, &self.cache);
        self.cache.land()
    }

    /// What the end of its read gives for the rest of the page of this name.
    fn rest_for<'a>(&self, name: Name, outcome: &'a Outcome, tag: &Option<Tag>) -> Option<&'a Block>
        requires { IsTagRead outcome.now tag.now }
        ensures { IsRestRead (find (is_named name.number name.index) self.now.pages) outcome.now (option_copied result) }
    {
        match self.cache.page_named(name.number, name.index) {
            Some(page) => rest_given(outcome, tag, page),
            None => None,
        }
    }

    /// Each page that waits for the read of this name has its content, where the page is the one that it is
    /// read from; else it is owed again.
    pub(super) fn take_rest(&mut self, name: Name, outcome: &Outcome, tag: &Option<Tag>)
        requires { IsTagRead outcome.now tag.now }
        ensures { (body : Option (List ℕ))
            × IsRestRead (find (is_named name.number name.index) self.old.pages) outcome.now body
            × (self.new ≡ with_rest self.old name body) }
    {
        if let Some(body) = self.rest_for(name, outcome, tag) {
            self.fill_rests(name, body);
        }
    }

    /// Each page that waits for the read of this name has its content, and nothing is read for it any more.
    fn fill_rests(&mut self, name: Name, body: &Block)
        ensures { self.new ≡ record self.old { pages = rests_filled name body.now self.old.pages } }
    {
        unpin_rests(&mut self.live, &self.cache, name);
        self.cache.fill_rests(name, body.as_slice());
    }
}
