//! Pages of which a command brings only some blocks of 256 bytes, and the rest that they wait for.
ghost use Rattle.std.specs.Prelude.{◌≡◌, ◌+◌, ◌*◌, Some, find, length, min, option_and_then};
ghost use Rattle.std.specs.Prelude.{option_copied};
ghost use Rattle.write_cache.specs.Ready.{is_ready};
ghost use Rattle.write_cache.specs.Rests.{IsPart, awaited, awaits, base_in, claim_with, completed};
ghost use Rattle.write_cache.specs.Rests.{content_of, own_name, page_of, part_of, read_by, rest_by};
ghost use Rattle.write_cache.specs.Rests.{waits, with_part_of};
ghost use Rattle.write_cache.specs.Slots.{is_named};

use crate::pages::Pages;
use crate::slots::{Claimed, Pending};
use ufs_bytes::Body;
use ufs_spec::{Block, Key, Name, Place};

/// Some of the sixteen blocks of 256 bytes of a page, one after another: which is the first, and
/// how many there are.
#[derive(Clone, Copy)]
pub struct Part {
    pub first: u8,
    pub blocks: u8,
}

/// Where a rest comes from that a pending page waits for. One read may bring the rests of several
/// pages, one over another; it is called by the name of the first, for which it is done.
#[derive(Clone, Copy)]
pub enum OwedSource {
    /// From the page of this name, which is at this place: it is read for the pending page itself.
    Page { name: Name, place: Place },
    /// From the slot of a page that waits itself: by the read that is done for the pending page of
    /// this name.
    Slot(Name),
}

/// What a page waits for of which a command brought only this part.
#[derive(Clone, Copy)]
pub struct Rest {
    pub source: OwedSource,
    pub part: Part,
}

/// Where the rest of a page comes from that a command brings.
#[derive(Clone, Copy)]
pub enum RestSource {
    /// From nothing: its key was never written, or the command brings the whole page. The rest is
    /// what lies in the claimed slot, which is zeros.
    Nothing,
    /// From the pending page of this name, whose content is all there.
    Slot(Name),
    /// From the page of this name, which is at this place: it is to be read for the new page.
    Page { name: Name, place: Place },
    /// From a pending page whose content is not all there: by the read that this page awaits
    /// (`Pending::awaited`), and that is done for the pending page of this name.
    Owed(Name),
}

/// A page of a group as a command brings it: its key, the blocks of it that the command has, their
/// bytes, and where the rest comes from.
#[derive(Clone, Copy)]
pub struct NewPage<'a> {
    pub key: Key,
    pub part: Part,
    pub bytes: &'a [u8],
    pub source: RestSource,
}

impl Part {
    /// Where the part begins in its page; a page ends after 4096 bytes.
    fn start(self) -> usize
        ensures { result ≡ min (256 * self.first) 4096 }
    {
        (256 * self.first as usize).min(4096)
    }

    /// Where the part ends in its page.
    fn end(self) -> usize
        ensures { result ≡ min (256 * (self.first + self.blocks)) 4096 }
    {
        (256 * (self.first as usize + self.blocks as usize)).min(4096)
    }
}

impl OwedSource {
    /// The pending page whose read brings the rest of the page of this name.
    fn read_by(self, own: Name) -> Name
        ensures { result ≡ read_by own self }
    {
        match self {
            OwedSource::Page { .. } => own,
            OwedSource::Slot(name) => name,
        }
    }
}

impl RestSource {
    /// What a page waits for that has this part, if its rest is still to be read.
    fn rest(self, part: Part) -> Option<Rest>
        ensures { result ≡ rest_by part self }
    {
        let source = match self {
            RestSource::Nothing | RestSource::Slot(_) => return None,
            RestSource::Page { name, place } => OwedSource::Page { name, place },
            RestSource::Owed(name) => OwedSource::Slot(name),
        };
        Some(Rest { source, part })
    }
}

impl Pending {
    /// Its 4096 bytes, which a READ gets and a program writes; `None` while it waits for its rest.
    pub fn content(&self) -> Option<&Block>
        ensures { option_copied result ≡ content_of self.now }
    {
        match self.rest {
            Some(_) => None,
            None => Some(self.body.block()),
        }
    }

    /// Its name: the number of its group, and its index there.
    pub fn name(&self) -> Name
        ensures { result ≡ own_name self.now }
    {
        let (number, index) = (self.number, self.index);
        Name { number, index }
    }

    /// Whether it waits for its rest.
    pub(crate) fn waits(&self) -> bool
        ensures { result ≡ waits self.now }
    {
        self.rest.is_some()
    }

    /// Whether it can be programmed now: it is not written, and it waits for no rest.
    pub(crate) fn is_ready(&self) -> bool
        ensures { result ≡ is_ready self.now }
    {
        self.written.is_none() && !self.waits()
    }

    /// The pending page whose read brings the rest that it waits for, which may be itself; `None`
    /// if its content is all there.
    pub fn awaited(&self) -> Option<Name>
        ensures { result ≡ awaited self.now }
    {
        let rest = self.rest?;
        Some(rest.source.read_by(self.name()))
    }

    /// Whether it waits for the read that is done for the page of this name.
    pub(crate) fn awaits(&self, name: Name) -> bool
        ensures { result ≡ awaits name self.now }
    {
        match self.awaited() {
            Some(read) => read == name,
            None => false,
        }
    }

    /// Its content is there, if it waits for its rest: its own blocks stay, and the rest is from
    /// these bytes.
    pub(crate) fn complete(&mut self, base: &[u8])
        requires { length base.now ≡ 4096 }
        ensures { self.new ≡ completed base.now self.old }
    {
        if let Some(rest) = self.rest {
            take_around(&mut self.body, rest.part, base);
            self.rest = None;
        }
    }
}

impl Claimed {
    /// The bytes of the page lie in the slot: its own blocks over their base.
    pub(crate) fn bring(&mut self, page: &NewPage<'_>, pages: &Pages)
        requires { IsPart page.now }
        ensures { self.new ≡ claim_with pages.now.items (Some page.now) self.old }
    {
        take_base(&mut self.body, page.source, pages);
        self.body.set_part(page.part.start(), page.bytes);
    }

    /// The page of a group of so many pages whose bytes lie in the slot.
    pub(crate) fn into_new_page(self, page: &NewPage<'_>, number: u64, size: u16) -> Pending
        ensures { result ≡ page_of number size self self.body page.now }
    {
        Pending {
            key: page.key,
            number,
            index: self.index,
            size,
            written: None,
            rest: page.source.rest(page.part),
            body: self.body,
        }
    }
}

/// The slot holds the content of the pending page that is the source, if one is; else what it held.
fn take_base(body: &mut Body, source: RestSource, pages: &Pages)
    ensures { body.new ≡ base_in pages.now.items body.old source }
{
    if let RestSource::Slot(name) = source {
        if let Some(block) = content_named(pages, name) {
            body.set(block);
        }
    }
}

/// The content of the page of this name, if it is pending and all there.
fn content_named(pages: &Pages, name: Name) -> Option<&Block>
    ensures { option_copied result ≡
        option_and_then content_of (find (is_named name.number name.index) pages.now.items) }
{
    let page = page_named(pages, name)?;
    page.content()
}

/// The page of this name, if it is pending.
fn page_named(pages: &Pages, name: Name) -> Option<&Pending>
    ensures { option_copied result ≡ find (is_named name.number name.index) pages.now.items }
{
    let at = pages.place_named(name.number, name.index)?;
    pages.page(at)
}

/// All but the part is from these bytes from now on.
fn take_around(body: &mut Body, part: Part, base: &[u8])
    requires { length base.now ≡ 4096 }
    ensures { body.new ≡ with_part_of part (part_of part body.old) base.now }
{
    let end = part.end();
    // A body holds 4096 bytes.
    let _bytes: &[u8] = body.block();
    body.set_part(0, &base[..part.start()]);
    body.set_part(end, &base[end..]);
}
