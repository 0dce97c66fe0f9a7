//! Reads whose pages are all wanted at once: those of the RPMB area for a request for data, with
//! what was read of them (JESD220, 12.4), and those of a VERIFY (SBC).
ghost use Rattle.std.specs.Prelude.{◌≡◌, ◌≤◌, ◌<◌, ◌+◌, ◌-◌, ◌/◌, ◌++◌, ◌&&◌, ℕ, IfSome, None};
ghost use Rattle.std.specs.Prelude.{Some, find, length, option_copied, option_map, slice_get, true};
ghost use Rattle.arrayvec.specs.ArrayVec.{ArrayVec as Items};
ghost use Rattle.ufs_spec.specs.Keys.{area_key};
ghost use Rattle.ufs_spec.specs.Moves.{is_pin_of};
ghost use Rattle.ufs_spec.specs.Replies.{is_at_hand};
ghost use Rattle.ufs_spec.specs.Translation.{Translation, is_mended};
ghost use Rattle.power_loss.specs.Book.{book};
ghost use Rattle.power_loss.specs.Invariant.{LookedRight};
ghost use Rattle.ufs_spec.specs.declared.layer.Looked.TheVariants.{InSlot};
ghost use Rattle.ufs_spec.specs.declared.layer.Name.{Name};
ghost use Rattle.ftl_core.specs.Public.{Claims, Describes as IsLayer};
ghost use Rattle.device.specs.Frames.{HasKeptArea, area_data, data_for, is_page_there};
ghost use Rattle.device.specs.Frames.{is_second_there, part_read, second_part};
ghost use Rattle.device.specs.Kept.{IsLayerWith};
ghost use Rattle.device.specs.Replies.{are_verified, block_at, block_for, is_verified};
ghost use Rattle.task_set.specs.Frames.{area_part};
ghost use Rattle.task_set.specs.Kept.{OpenTask, task_in};

use crate::device::Device;
use crate::replies::zeros;
use arrayvec::ArrayVec;
use ftl_core::Ftl;
use rpmb::AreaBlocks;
use task_set::{AreaReading, Phase, Task, TaskEvent};
use ufs_spec::{Block, Key, Looked, ReadState, Tag};

/// How many blocks of the area a page has.
pub(crate) const PAGE_BLOCKS: u16 = 16;

/// How many blocks a request may ask for.
const MOST_BLOCKS: u16 = 8;

/// The data that a request asks for, in one piece.
pub(crate) type AreaData = ArrayVec<u8, 2048>;

/// The key of a page of the area of a region.
pub(crate) fn area_key(region: u8, page: u16) -> Key
    ensures { result ≡ area_key region page }
{
    Key {
        kind: Tag::RPMB_AREA,
        unit: region,
        address: u32::from(page),
    }
}

/// In how many pages these blocks lie: one or two, as they are at most eight.
fn pages_of(asked: AreaBlocks) -> u16
    ensures named { 1 ≤ asked.count → asked.count ≤ 8 →
        result ≡ (asked.address + asked.count - 1) / 16 + 1 - asked.address / 16 }
    ensures few { result ≤ 2 }
{
    if asked.address % PAGE_BLOCKS + asked.count.min(MOST_BLOCKS) > PAGE_BLOCKS {
        2
    } else {
        1
    }
}

/// The parts of a request's two pages in one piece.
fn joined(first: &[u8], second: &[u8]) -> AreaData
    requires { length first.now + length second.now ≤ 2048 }
    ensures { result.items ≡ first.now ++ second.now }
{
    let mut data = AreaData::new();
    let _ = data.try_extend_from_slice(first);
    let _ = data.try_extend_from_slice(second);
    data
}

/// What the task of this tag keeps of its block or page of this index, where this needs no read.
pub(crate) fn at_hand(ftl: &Ftl, tag: u8, index: u16) -> Option<&Block>
    ensures { (t : Translation) → IsLayer ftl.now t →
        option_copied result ≡ block_for t None tag index }
{
    let looked = ftl.pinned(tag, index)?;
    block_there(ftl, looked)
}

/// What was looked up, where it needs no read: it is in a slot that has its content, or was never
/// written.
fn block_there(ftl: &Ftl, looked: Looked) -> Option<&Block>
    ensures { (t : Translation) → IsLayer ftl.now t →
        ((name : Name) → looked ≡ InSlot name → is_mended t.work.mending ≡ true) →
        LookedRight (book t) t.ledger.frontier t.disk.cells t.disk.finished t.disk.erasing
        looked →
        option_copied result ≡ block_at t.work.rests t.ledger None looked }
{
    match looked {
        Looked::Unwritten => Some(zeros()),
        Looked::InSlot(name) => ftl.slot(name),
        Looked::OnPage(_, _) => None,
    }
}

impl Device {
    /// The pages in which these blocks of the area of a region lie are kept, and all of them are wanted. There
    /// is always room for them: each other task keeps at most 128 blocks.
    pub(crate) fn ask_area(
        &mut self,
        tag: u8,
        region: u8,
        code: u16,
        asked: AreaBlocks,
    ) -> TaskEvent
        ensures left { self.new ≡ record self.old { ftl = self.new.ftl } }
        ensures event { result ≡ TaskEvent.AreaAsked code asked.address asked.count }
        ensures kept { (t : Translation) (claims : Claims) → IsLayerWith self.old.ftl t claims →
            HasKeptArea self.new.ftl t claims tag region asked }
    {
        let key = area_key(region, asked.address / PAGE_BLOCKS);
        self.ftl.keep_area(tag, key, pages_of(asked));
        TaskEvent::AreaAsked {
            code,
            address: asked.address,
            count: asked.count,
        }
    }

    /// Whether no page of the area needs a read any more that the task of this tag asks for.
    pub(crate) fn is_area_there(&self, tag: u8, reading: AreaReading) -> bool
        ensures { (t : Translation) → IsLayer self.now.ftl t →
            result ≡ is_page_there t tag 0 reading.first && is_second_there t tag reading.second }
    {
        self.is_page_there(tag, 0, reading.first) && self.is_second_there(tag, reading.second)
    }

    /// The same of the second page, if there is one.
    fn is_second_there(&self, tag: u8, second: Option<ReadState>) -> bool
        ensures { (t : Translation) → IsLayer self.now.ftl t →
            result ≡ is_second_there t tag second }
    {
        match second {
            None => true,
            Some(how) => self.is_page_there(tag, 1, how),
        }
    }

    /// The same of the page of this index.
    fn is_page_there(&self, tag: u8, index: u16, how: ReadState) -> bool
        ensures { (t : Translation) → IsLayer self.now.ftl t →
            result ≡ is_page_there t tag index how }
    {
        match how {
            ReadState::Unread => self.is_at_hand(tag, index),
            ReadState::WasRead => true,
            ReadState::NotRead => true,
        }
    }

    /// Whether the page of this index needs no read: the task of this tag keeps nothing of it, or
    /// what it keeps is at hand.
    fn is_at_hand(&self, tag: u8, index: u16) -> bool
        ensures { (t : Translation) → IsLayer self.now.ftl t →
            result ≡ is_at_hand t.work.rests (find (is_pin_of tag index) t.pins) }
    {
        match self.ftl.pinned(tag, index) {
            None => true,
            Some(looked) => block_there(&self.ftl, looked).is_some(),
        }
    }

    /// Whether none of so many blocks of the task of this tag, a VERIFY, needs a read any more.
    pub(crate) fn are_verified(&self, tag: u8, blocks: u16) -> bool
        ensures { (t : Translation) → IsLayer self.now.ftl t →
            result ≡ are_verified t tag blocks }
    {
        for index in 0..blocks {
            if !self.is_verified(tag, index) {
                return false;
            }
        }
        true
    }

    /// The same of the block of this index: it was read, so that its page is wanted no more, or it
    /// is at hand.
    fn is_verified(&self, tag: u8, index: u16) -> bool
        ensures { (t : Translation) → IsLayer self.now.ftl t →
            result ≡ is_verified t tag index }
    {
        !self.ftl.wants(tag, index) || self.is_at_hand(tag, index)
    }

    /// What was read for the request of the task at this position, of which the task says this:
    /// nothing, unless it asks for data. `None` if a page could not be read.
    pub(crate) fn data_for(&self, index: usize, task: &Task) -> Option<AreaData>
        requires { index < length self.now.tasks }
        ensures { (t : Translation) (kept : OpenTask) → IsLayer self.now.ftl t →
            slice_get self.now.tasks index ≡ Some kept → task_in kept ≡ task.now →
            option_map (λ (x : Items ℕ). x.items) result ≡ data_for t kept task.now.phase }
    {
        match task.phase {
            Phase::ReadArea { reading } => self.area_data(index, task.tag, reading),
            _ => Some(AreaData::new()),
        }
    }

    /// The data that the task of this position and tag asks for, in one piece. `None` if a page of
    /// them could not be read.
    fn area_data(&self, index: usize, tag: u8, reading: AreaReading) -> Option<AreaData>
        requires { index < length self.now.tasks }
        ensures { (t : Translation) (kept : OpenTask) → IsLayer self.now.ftl t →
            slice_get self.now.tasks index ≡ Some kept → kept.tag ≡ tag →
            option_map (λ (x : Items ℕ). x.items) result ≡ area_data t kept reading }
    {
        let first = self.part_read(index, tag, reading, 0, reading.first)?;
        let second = self.second_part(index, tag, reading)?;
        Some(joined(first, second))
    }

    /// The part that is asked for of the second page: nothing if all blocks lie in the first one.
    fn second_part(&self, index: usize, tag: u8, reading: AreaReading) -> Option<&[u8]>
        requires { index < length self.now.tasks }
        ensures read { (t : Translation) (kept : OpenTask) → IsLayer self.now.ftl t →
            slice_get self.now.tasks index ≡ Some kept → kept.tag ≡ tag →
            option_copied result ≡ second_part t kept reading reading.second }
        ensures long { IfSome result (λ part. length part.now ≤ (area_part reading 1).length) }
    {
        match reading.second {
            None => Some(&[]),
            Some(how) => self.part_read(index, tag, reading, 1, how),
        }
    }

    /// The part that is asked for of the page of this index: from the task's own block if the page
    /// was read, from what the task keeps if the page is at hand.
    fn part_read(
        &self,
        index: usize,
        tag: u8,
        reading: AreaReading,
        page: u16,
        how: ReadState,
    ) -> Option<&[u8]>
        requires { index < length self.now.tasks }
        ensures read { (t : Translation) (kept : OpenTask) → IsLayer self.now.ftl t →
            slice_get self.now.tasks index ≡ Some kept → kept.tag ≡ tag →
            option_copied result ≡ part_read t kept reading page how }
        ensures long { IfSome result (λ part. length part.now ≡ (area_part reading page).length) }
    {
        let part = reading.part(page);
        match how {
            ReadState::WasRead => {
                let held = self.set.held(index)?;
                Some(&held[part.at..part.at + part.length])
            }
            ReadState::Unread => {
                let block = at_hand(&self.ftl, tag, page)?;
                Some(&block[part.from..part.from + part.length])
            }
            ReadState::NotRead => None,
        }
    }
}
