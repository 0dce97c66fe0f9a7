//! The translation layer and its calls.
ghost use Rattle.std.specs.Prelude.{◌≡◌, ℕ, ◌<◌, ◌≤◌, ◌+◌, length, IsTrue, IfOk, IsSome, Some, nat_le, nat_lt, ◌-◌, [], if◌then◌else◌, map, None, true, option_copied, replicate, Bool, false, find, option_map, fold, List, take};
ghost use Rattle.std.specs.List.{list_any};
ghost use Rattle.ftl_core.specs.Moves.{accepted, first_fence, first_mending, is_own};
ghost use Rattle.ftl_core.specs.Moves.{is_over, mark_number_behind, opened, state_of_found};
ghost use Rattle.ftl_core.specs.Moves.{stored_of_found, slot_of, looked_by, wants_page, looked_on, pin_of, next_wanted, unpinned, look_of, stored_of, free_slots, is_locked, has_number, next_number, without_reader, without_block};
ghost use Rattle.ftl_core.specs.Moves.{claims_for, claimed_all, released, released_behind, filled};
ghost use Rattle.ufs_spec.specs.Ledger.{next_number as next_of_layer, Entry, before_accepted, entry_of};
ghost use Rattle.ufs_spec.specs.Moves.{Accept, Acknowledge, Claim, IsAllowedMove, LetGo, LetGoAll, Release, WantPage, moved, is_pin_of as is_layer_pin_of};
ghost use Rattle.ufs_spec.specs.Pages.{greatest_number};
ghost use Rattle.ufs_spec.specs.declared.layer.Looked.TheVariants.{InSlot};
ghost use Rattle.ufs_spec.specs.declared.layer.Name.{Name};
ghost use Rattle.ufs_spec.specs.Plain.{zero_block};
ghost use Rattle.ufs_spec.specs.Translation.{Translation, free_slots as layer_slots, is_live as is_live_page, is_locked as is_layer_locked, is_mended, is_rest_of, has_pending};
ghost use Rattle.ufs_spec.specs.Cells.{AreWithin, Cells};
ghost use Rattle.ufs_spec.specs.Sound.{CellsSound};
ghost use Rattle.power_loss.specs.Book.{CellsRight, book};
ghost use Rattle.power_loss.specs.Invariant.{PinsRight};
ghost use Rattle.recovery.specs.Found.{IsFound};
ghost use Rattle.ufs_spec.specs.Disk.{Spot};
ghost use Rattle.ufs_spec.specs.Openings.{IsOpenedTranslation};
ghost use Rattle.ftl_core.specs.Describes.{Describes};
ghost use Rattle.ftl_core.specs.Stops.{StopsRight};
ghost use Rattle.ftl_core.specs.KnownLive.{live_moved, none_live, page_moved, with_stored};
ghost use Rattle.block_table.specs.Lives.{is_live};
ghost use Rattle.ftl_core.specs.Tells.{group_of_blocks, is_page_wanted, looked_of};
ghost use Rattle.ftl_core.specs.Public.{AreClaimed, Claims, AreClaimedBy, with_block, with_claimed};

mod ends;
mod facts;
mod keeps;
mod pin_counts;
mod rests;
mod room;
mod takes;
mod turns;

use crate::books::{Mending, Step};
use block_table::{BlockState, BlockTable, LivePages, Sizes};
use collector::Plan;
use geometry::{Config, key_count};
use page_tag::{Mark, ZeroSeal};
use readers::{Pin, Pins};
use recovery::{Found, FoundBlock, FoundPage};
use std::alloc::{AllocError, Global};
use std::marker::Model;
use ufs_spec::{Block, Fence, GREATEST_NUMBER, Key, Looked, Name, Numbers, Place};
use unit_map::{Stored, UnitMap, stored_at};
use write_cache::Cache;

/// How a job ended, for whoever waits for it: a read gives its reader the block of this index, or nothing
/// where it failed or the page is not the one that was looked up.
#[derive(Clone, Copy)]
pub enum Ended<'a> {
    Read {
        reader: u8,
        index: u16,
        body: Option<&'a Block>,
    },
    Other,
}

/// The translation layer of a device. What is in flight is in `blocks` and nowhere else.
#[derive(Drop)]
pub struct Ftl {
    /// The configuration, which never changes; it has at most 8 units.
    config: Config,
    /// What each block is, and of each die which block it fills and which job it has in flight.
    blocks: BlockTable,
    /// Where the durable content of each key is.
    places: UnitMap,
    /// Which pages are live: those where such a content stands, and those written for pending groups;
    /// and how many pins each block has: one for each page of it that a reader keeps, and one for each
    /// that is still to be read for a rest.
    live: LivePages,
    /// The slots: pages of pending groups, and claims for groups to come; and their numbers.
    cache: Cache,
    /// The collection that is begun, if one is: its block is closed or bad, and its live pages are
    /// copied before the block is free.
    plan: Plan,
    /// What readers keep, each block of a reader once: at most 4096, with room for all of them.
    pins: Pins,
    /// How far the mending is.
    mending: Mending,
    /// The keys with a lost page, each once, in order.
    lost: Vec<Key>,
    /// How many of them have a repair, or are being repaired.
    repaired: usize,
    /// The step of the mending or of the collection that is under way. Beside a repair no group is
    /// pending.
    step: Option<Step>,
    /// What the page of the repair or copy under way holds, once it is there.
    content: Block,
    /// The number of the next mark, from 1 to the greatest and one more; the last means that none is left.
    next_mark: u64,
    /// What pages are sealed with whose block is zeros, as those of an UNMAP are.
    zeros: ZeroSeal,
}

impl Model for Ftl {
    ghost use Rattle.ftl_core.specs.Core.{Core};

    ghost Value = { Core };

    ghost use Rattle.ftl_core.specs.Rooms.{core_of, IsRoomy};

    ghost view = { core_of };

    ghost invariant = { IsRoomy };
}

/// What is looked at where the durable content of an address stands, or nowhere.
fn looked_on(stored: Option<Stored>) -> Looked
    ensures { result ≡ looked_on stored }
{
    match stored {
        Some(stored) => Looked::OnPage(stored.name, stored.place),
        None => Looked::Unwritten,
    }
}

/// What the blocks are when the layer is opened.
fn states_of(alloc: Global, blocks: &[FoundBlock]) -> Result<Vec<BlockState>, AllocError>
    ensures { IfOk result (λ v. v.items ≡ map state_of_found blocks.now) }
{
    blocks
        .iter()
        .map(|block| state_of_found(*block))
        .collect(alloc)
}

/// What a block is that was found so.
fn state_of_found(block: FoundBlock) -> BlockState
    ensures { result ≡ state_of_found block }
{
    match block {
        FoundBlock::Free => BlockState::Free,
        FoundBlock::Stale => BlockState::Stale,
        FoundBlock::Closed => BlockState::Closed,
        FoundBlock::Bad => BlockState::Bad,
    }
}

/// Where the content of each key stands when the layer is opened.
fn places_of(alloc: Global, pages: &[Option<FoundPage>]) -> Result<Vec<Option<Stored>>, AllocError>
    ensures { IfOk result (λ v. v.items ≡ map (option_map stored_of_found) pages.now) }
{
    pages.iter().map(|page| stored_in(*page)).collect(alloc)
}

/// Where a content stands whose page was found, if one was.
fn stored_in(page: Option<FoundPage>) -> Option<Stored>
    ensures { result ≡ option_map stored_of_found page }
{
    match page {
        Some(page) => Some(stored_of_found(page)),
        None => None,
    }
}

/// Where the content of this page stands.
fn stored_of_found(page: FoundPage) -> Stored
    ensures { result ≡ stored_of_found page }
{
    let name = Name {
        number: page.tag.number,
        index: page.tag.index,
    };
    Stored {
        name,
        place: page.place,
    }
}

/// The pages where the contents of the first keys stand, so many of them, are live.
fn live_at(
    alloc: Global,
    sizes: Sizes,
    places: &[Option<Stored>],
    keys: usize,
) -> Result<LivePages, AllocError>
    ensures { IfOk result (λ l. l ≡ fold with_stored (none_live sizes) (take keys places.now)) }
{
    let mut live = LivePages::new(alloc, sizes)?;
    for index in 0..keys {
        set_stored(&mut live, stored_at(places, index));
    }
    Ok(live)
}

/// The page of the content is live from now on, if it stands anywhere.
fn set_stored(live: &mut LivePages, stored: Option<Stored>)
    ensures { live.new ≡ with_stored live.old stored }
{
    if let Some(stored) = stored {
        live.set_live(stored.place);
    }
}

/// A content that stood there, or nowhere, stands here from now on: of its pages only this one is
/// live.
fn move_live(live: &mut LivePages, old: Option<Stored>, place: Place)
    ensures { live.new ≡ live_moved live.old old place }
{
    if let Some(old) = old {
        live.set_dead(old.place);
    }
    live.set_live(place);
}

/// A page that was written there, or nowhere, is written here from now on: of both only this one is
/// live.
fn move_page(live: &mut LivePages, old: Option<Place>, written: Place)
    ensures { live.new ≡ page_moved live.old old written }
{
    if let Some(old) = old {
        live.set_dead(old);
    }
    live.set_live(written);
}

/// The fence of the first mark: over the lost numbers, if there are any.
fn first_fence(found: &Found) -> Option<Fence>
    ensures { result ≡ first_fence found.now }
{
    if found.first_lost > found.greatest_seen {
        return None;
    }
    Some(Fence {
        first: found.first_lost,
        last: found.greatest_seen,
    })
}

/// Whether a mark stands and has the numbers of the device, as a mark holds them: whatever the profile
/// and the serial number of the device are. A mark that suits the device can differ from it in the sizes
/// of RPMB regions 1 to 3 alone.
fn is_own(mark: &Option<Mark>, numbers: &Numbers) -> bool
    ensures { result ≡ is_own numbers.now mark.now }
{
    match mark {
        Some(mark) => {
            let sizes = mark.numbers.rpmb;
            sizes[1] == numbers.rpmb[1]
                && sizes[2] == numbers.rpmb[2]
                && sizes[3] == numbers.rpmb[3]
        }
        None => false,
    }
}

/// How far the mending is when the layer is opened: it is over where a mark with the device's numbers
/// stands and nothing is lost.
fn first_mending(found: &Found, numbers: &Numbers) -> Mending
    ensures { result ≡ first_mending numbers.now found.now }
{
    match first_fence(found) {
        Some(fence) => Mending::Unmarked(Some(fence)),
        None if is_own(&found.newest, numbers) => Mending::Mended,
        None => Mending::Unmarked(None),
    }
}

/// The number of the next mark.
fn mark_number_behind(found: &Found) -> u64
    ensures is { result ≡ mark_number_behind found.now }
    ensures least { 1 ≤ result }
    ensures greatest { result ≤ greatest_number + 1 }
{
    match &found.newest {
        Some(mark) => mark.number.min(GREATEST_NUMBER) + 1,
        None => 1,
    }
}

/// A block of zeros, as a key reads that was never written.
#[tactic(auto, unfolding(ufs_spec::specs::Plain::zero_block))]
fn zeros() -> Block
    ensures { result ≡ zero_block }
{
    [0; 4096]
}

impl Ftl {
    /// The layer over the dies of which a scan found this.
    pub fn new(alloc: Global, config: Config, found: Found) -> Result<Ftl, AllocError>
        ensures core { IfOk result (λ f. f ≡ opened config found) }
        // Over sound pages of which this was found it is the layer that the definitions open over them.
        ensures described { IfOk result (λ f. (cells : Cells) (is_bad : Spot → Bool) (t : Translation) →
            1 ≤ config.pages → CellsRight cells → AreWithin config cells → CellsSound cells t.ledger.newest →
            IsFound config cells is_bad found → IsOpenedTranslation config cells is_bad t → Describes f t) }
        // Whatever a stop leaves then is right.
        ensures stop { IfOk result (λ f. (cells : Cells) (is_bad : Spot → Bool) (t : Translation) →
            1 ≤ config.pages → CellsRight cells → AreWithin config cells → CellsSound cells t.ledger.newest →
            IsFound config cells is_bad found → IsOpenedTranslation config cells is_bad t → StopsRight f t) }
        ensures claims { IfOk result (λ f. AreClaimed f (λ reader. [])) }
    {
        config.has_no_fault();
        let numbers = config.numbers();
        let slots = numbers.slots;
        let keys = key_count(numbers);
        let sizes = Sizes {
            dies: numbers.dies,
            blocks: numbers.blocks,
            pages: numbers.pages,
        };
        let states = states_of(alloc, found.blocks.as_slice())?;
        let places = places_of(alloc, found.contents.as_slice())?;
        let mending = first_mending(&found, numbers);
        let next_mark = mark_number_behind(&found);
        let last = found.greatest_seen.min(GREATEST_NUMBER);
        Ok(Ftl {
            blocks: BlockTable::new(alloc, sizes, states)?,
            live: live_at(alloc, sizes, places.as_slice(), keys)?,
            places: UnitMap::new(alloc, config.copied(), places)?,
            cache: Cache::new(alloc, config.copied(), slots, last)?,
            plan: Plan::new(alloc, sizes.pages)?,
            config,
            pins: Pins::new(alloc)?,
            mending,
            lost: found.lost,
            repaired: 0,
            step: None,
            content: zeros(),
            next_mark,
            zeros: ZeroSeal::new(),
        })
    }

    /// Whether a mark without a fence is finished, so that commands are taken.
    pub fn is_mended(&self) -> bool
        ensures core { result ≡ is_over self.now.mending }
        ensures described { (t : Translation) → Describes self.now t → result ≡ is_mended t.work.mending }
    {
        match self.mending {
            Mending::Unmarked(_) => false,
            Mending::Repairing => false,
            Mending::Mended => true,
        }
    }

    /// Whether writes are refused from now on: more blocks are bad than the configuration has spare
    /// ones, or no number is left.
    #[tactic(auto, using(crate::proofs::small_calls::SmallCalls::locks_right))]
    pub fn is_locked(&self) -> bool
        ensures core { result ≡ is_locked self.now }
        ensures described { (t : Translation) → Describes self.now t → result ≡ is_layer_locked t }
        // A layer that is not locked has a number left.
        ensures numbered { result ≡ false → IsTrue (has_number self.now) }
    {
        self.blocks.bad_blocks() > self.config.numbers().spare as usize || !self.cache.has_number()
    }

    /// The greatest number that was given: every pending group has one, and so has the repair under way.
    /// What waits for it waits for all that was accepted.
    #[tactic(auto, using(crate::proofs::look_and_accept::Numbers::numbers_right))]
    pub fn last_number(&self) -> u64
        ensures core { result ≡ self.now.last }
        ensures described { (t : Translation) → Describes self.now t → result + 1 ≡ next_of_layer t.ledger }
    {
        self.cache.last_number()
    }

    /// The number at or under which every group is durable.
    pub fn frontier(&self) -> u64
        ensures core { result ≡ self.now.frontier }
        ensures described { (t : Translation) → Describes self.now t → result ≡ t.ledger.frontier }
        // What waits for no later number may be acknowledged as durable.
        ensures told { (t : Translation) (count : ℕ) → Describes self.now t →
            before_accepted t.ledger + count ≤ t.ledger.frontier →
            Describes self.now (moved t (Acknowledge count)) }
    {
        self.cache.frontier()
    }

    /// Whether something was accepted and is not durable.
    #[tactic(auto, using(crate::proofs::small_calls::SmallCalls::pending_right))]
    pub fn has_pending(&self) -> bool
        ensures core { result ≡ nat_lt 0 (length self.now.pages) }
        ensures described { (t : Translation) → Describes self.now t → result ≡ has_pending t }
    {
        self.cache.pending() > 0
    }

    /// How many slots neither a pending group nor a claim holds.
    #[tactic(auto, using(crate::proofs::small_calls::SmallCalls::slots_right))]
    pub fn free_slots(&self) -> usize
        ensures core { result ≡ free_slots self.now }
        ensures described { (t : Translation) → Describes self.now t → result ≡ layer_slots t }
    {
        self.cache.free_slots()
    }

    /// The numbers of the configuration.
    #[tactic(auto, using(crate::proofs::small_calls::SmallCalls::numbers_kept))]
    pub fn numbers(&self) -> &Numbers
        ensures core { result.now ≡ self.now.numbers }
        ensures described { (t : Translation) → Describes self.now t → result.now ≡ t.numbers }
    {
        self.config.numbers()
    }

    /// Claims a slot for each of so many blocks of this reader, where as many are free; else nothing.
    pub fn reserve(&mut self, reader: u8, blocks: u16) -> bool
        ensures found { result ≡ nat_le blocks (free_slots self.old) }
        ensures after { self.new ≡ (if result then claimed_all self.old reader blocks else self.old) }
        ensures described_found { (t : Translation) → Describes self.old t → result ≡ nat_le blocks (layer_slots t) }
        ensures described { (t : Translation) → Describes self.old t →
            Describes self.new (if result then moved t (Claim blocks) else t) }
        // Whatever a stop leaves then is right.
        ensures stop { (t : Translation) → Describes self.old t →
            StopsRight self.new (if result then moved t (Claim blocks) else t) }
        // The slots of a reader who had claimed none hold zeros, and those of the others what they held.
        ensures claims { (claims : Claims) → AreClaimed self.old claims → claims reader ≡ [] → AreClaimed self.new
            (if result then with_claimed claims reader (replicate blocks zero_block) else claims) }
        // It takes no number.
        ensures number { has_number self.new ≡ has_number self.old }
    {
        self.claim_slots(reader, blocks)
    }

    /// Claims the slots.
    fn claim_slots(&mut self, reader: u8, blocks: u16) -> bool
        ensures found { result ≡ nat_le blocks (free_slots self.old) }
        ensures after { self.new ≡ (if result then claimed_all self.old reader blocks else self.old) }
    {
        self.cache.reserve(reader, blocks)
    }

    /// Gives back all slots that the reader has claimed.
    pub fn release(&mut self, reader: u8)
        ensures after { self.new ≡ released self.old reader }
        ensures described { (t : Translation) → Describes self.old t →
            Describes self.new (moved t (Release (length (claims_for self.old reader)))) }
        // As many slots are given back as blocks lie in them.
        ensures described_blocks { (t : Translation) (blocks : List (List ℕ)) → Describes self.old t →
            AreClaimedBy self.old reader blocks → Describes self.new (moved t (Release (length blocks))) }
        // Whatever a stop leaves then is right.
        ensures stop { (t : Translation) → Describes self.old t →
            StopsRight self.new (moved t (Release (length (claims_for self.old reader)))) }
        ensures claims { (claims : Claims) → AreClaimed self.old claims →
            AreClaimed self.new (with_claimed claims reader []) }
    {
        self.release_slots(reader);
    }

    /// Gives the slots back.
    fn release_slots(&mut self, reader: u8)
        ensures { self.new ≡ released self.old reader }
    {
        self.cache.release(reader);
    }

    /// Gives back the slots that the reader has claimed from this index on, and keeps those of its
    /// first `count` blocks.
    pub fn release_behind(&mut self, reader: u8, count: u16)
        ensures after { self.new ≡ released_behind self.old reader count }
        ensures described { (t : Translation) (blocks : List (List ℕ)) → Describes self.old t →
            AreClaimedBy self.old reader blocks →
            Describes self.new (moved t (Release (length blocks - count))) }
        // Whatever a stop leaves then is right.
        ensures stop { (t : Translation) (blocks : List (List ℕ)) → Describes self.old t →
            AreClaimedBy self.old reader blocks →
            StopsRight self.new (moved t (Release (length blocks - count))) }
        ensures claims { (claims : Claims) → AreClaimed self.old claims →
            AreClaimed self.new (with_claimed claims reader (take count (claims reader))) }
        // It takes no number.
        ensures number { has_number self.new ≡ has_number self.old }
    {
        self.release_slots_behind(reader, count);
    }

    /// Gives the slots back.
    fn release_slots_behind(&mut self, reader: u8, count: u16)
        ensures { self.new ≡ released_behind self.old reader count }
    {
        self.cache.release_behind(reader, count);
    }

    /// Puts the 4096 bytes of a block that came into the slot that was claimed for it: that of this index of
    /// the reader.
    pub fn fill(&mut self, reader: u8, index: u16, body: &[u8])
        requires { length body.now ≡ 4096 }
        ensures after { self.new ≡ filled self.old reader index body.now }
        // What is claimed shows in the layer by its number alone.
        ensures described { (t : Translation) → Describes self.old t → Describes self.new t }
        // Whatever a stop leaves then is right.
        ensures stop { (t : Translation) → Describes self.old t → StopsRight self.new t }
        ensures claims { (claims : Claims) → AreClaimed self.old claims →
            AreClaimed self.new (with_block claims reader index body.now) }
    {
        self.fill_slot(reader, index, body);
    }

    /// Puts the block into its slot.
    fn fill_slot(&mut self, reader: u8, index: u16, body: &[u8])
        requires { length body.now ≡ 4096 }
        ensures { self.new ≡ filled self.old reader index body.now }
    {
        self.cache.fill(reader, index, body);
    }

    /// What holds the content of the address after all pending groups: the slot of the last page of these,
    /// or its page, or nothing (it reads as zeros).
    fn look(&self, key: Key) -> Looked
        ensures { result ≡ look_of self.now key }
    {
        match self.cache.last_page(key) {
            Some(page) => Looked::InSlot(Name {
                number: page.number,
                index: page.index,
            }),
            None => looked_on(self.stored(key)),
        }
    }

    /// Where the durable content of the address stands.
    pub(super) fn stored(&self, key: Key) -> Option<Stored>
        ensures { result ≡ stored_of self.now key }
    {
        self.places.get(key)
    }

    /// Whether the page is live: the durable content of some key stands there, or it is written for a
    /// pending group.
    #[tactic(auto, using(crate::proofs::live_pages::NamesLive::live_named))]
    pub fn is_live(&self, place: Place) -> bool
        ensures core { result ≡ is_live self.now.live place }
        ensures described { (t : Translation) → Describes self.now t → result ≡ is_live_page t place }
    {
        self.live.is_live(place)
    }

    /// The reader keeps nothing any more.
    pub fn unpin(&mut self, reader: u8)
        ensures after { self.new ≡ unpinned self.old reader }
        ensures described { (t : Translation) → Describes self.old t → Describes self.new (moved t (LetGoAll reader)) }
        // Whatever a stop leaves then is right.
        ensures stop { (t : Translation) → Describes self.old t → StopsRight self.new (moved t (LetGoAll reader)) }
        // What it waited for may be acknowledged, once it is durable.
        ensures described_told { (t : Translation) (count : ℕ) → Describes self.old t →
            before_accepted t.ledger + count ≤ t.ledger.frontier →
            Describes self.new (moved (moved t (Acknowledge count)) (LetGoAll reader)) }
        ensures claims { (claims : Claims) → AreClaimed self.old claims → AreClaimed self.new claims }
    {
        self.forget(reader);
        self.pins.drop_all(&mut self.live, reader);
    }

    /// No die reads for the reader any more.
    fn forget(&mut self, reader: u8)
        ensures { self.new ≡ record self.old { rows = map (without_reader reader) self.old.rows } }
    {
        self.blocks.forget_reader(reader);
    }

    /// The reader keeps this block no more, and wants the next one.
    pub fn want_next(&mut self, reader: u8, index: u16)
        ensures after { self.new ≡ next_wanted self.old reader index }
        ensures described { (t : Translation) → Describes self.old t →
            Describes self.new (moved (moved t (LetGo reader index)) (WantPage reader (index + 1))) }
        // Whatever a stop leaves then is right.
        ensures stop { (t : Translation) → Describes self.old t →
            StopsRight self.new (moved (moved t (LetGo reader index)) (WantPage reader (index + 1))) }
        ensures claims { (claims : Claims) → AreClaimed self.old claims → AreClaimed self.new claims }
    {
        self.forget_one(reader, index);
        self.pins.drop_one(&mut self.live, reader, index);
        self.pins.want(reader, index as usize + 1);
    }

    /// No die reads for this block of the reader any more.
    fn forget_one(&mut self, reader: u8, index: u16)
        ensures { self.new ≡ record self.old { rows = map (without_block reader index) self.old.rows } }
    {
        self.blocks.forget_block(reader, index);
    }

    /// What is looked at for this block of the reader; `None` where nothing is kept.
    #[tactic(auto, using(crate::proofs::small_calls::PinCalls::pinned_right, crate::proofs::small_calls::PinCalls::keeps_mended, crate::proofs::small_calls::PinCalls::pins_there))]
    pub fn pinned(&self, reader: u8, index: u16) -> Option<Looked>
        ensures core { result ≡ looked_by reader index self.now.pins }
        ensures described { (t : Translation) → Describes self.now t →
            result ≡ option_map looked_of (find (is_layer_pin_of reader index) t.pins) }
        // Readers keep slots only once the device is mended.
        ensures described_mended { (t : Translation) (name : Name) → Describes self.now t →
            result ≡ Some (InSlot name) → is_mended t.work.mending ≡ true }
        // What readers keep is there: a page that opens, or a page of a group that is not durable.
        ensures described_there { (t : Translation) → Describes self.now t → PinsRight (book t) t.ledger.frontier
            t.disk.cells t.disk.finished t.disk.erasing t.pins }
    {
        self.looked_by(reader, index)
    }

    /// What is looked at for this block of the reader.
    fn looked_by(&self, reader: u8, index: u16) -> Option<Looked>
        ensures { result ≡ looked_by reader index self.now.pins }
    {
        let pin = self.pins.find(reader, index)?;
        Some(pin.looked)
    }

    /// Whether the page of this block of the reader is still to be read. Where nothing is kept
    /// nothing is.
    #[tactic(auto, using(crate::proofs::small_calls::PinCalls::wanted_right))]
    pub fn wants(&self, reader: u8, index: u16) -> bool
        ensures core { result ≡ wants_page reader index self.now.pins }
        ensures described { (t : Translation) → Describes self.now t →
            result ≡ is_page_wanted (find (is_layer_pin_of reader index) t.pins) }
    {
        self.is_wanted(reader, index)
    }

    /// Whether what is kept of this block of the reader is still to be read.
    fn is_wanted(&self, reader: u8, index: u16) -> bool
        ensures { result ≡ wants_page reader index self.now.pins }
    {
        match self.pins.find(reader, index) {
            Some(pin) => pin.wanted,
            None => false,
        }
    }

    /// What is kept of this block of the reader.
    fn pin_of(&self, reader: u8, index: u16) -> Option<Pin>
        ensures { result ≡ pin_of self.now reader index }
    {
        self.pins.find(reader, index)
    }

    /// The block in the slot of the page of this name; `None` where no pending group has it, or its content
    /// is not all there.
    pub fn slot(&self, name: Name) -> Option<&Block>
        ensures core { option_copied result ≡ slot_of self.now name }
        ensures described { (t : Translation) (e : Entry) → Describes self.now t → is_mended t.work.mending ≡ true →
            t.ledger.frontier < name.number → entry_of t.ledger name ≡ Some e →
            list_any (is_rest_of name) t.work.rests ≡ false → option_copied result ≡ Some e.item.body }
        // A page that waits for its rest has nothing to show.
        ensures described_waiting { (t : Translation) → Describes self.now t →
            list_any (is_rest_of name) t.work.rests ≡ true → option_copied result ≡ None }
    {
        let page = self.cache.page_named(name.number, name.index)?;
        page.content()
    }

    /// Puts the group of the blocks that came for this reader behind all that are pending, in the place of
    /// the slots that it claimed, from an address on, and answers its number.
    pub fn accept(&mut self, reader: u8, key: Key) -> u64
        requires numbered { IsTrue (has_number self.old) }
        ensures number { result ≡ next_number self.old }
        ensures after { self.new ≡ accepted self.old reader key }
        ensures described { (t : Translation) (bodies : List (List ℕ)) → Describes self.old t →
            key.kind ≡ 1 → key.unit ≤ 7 → AreClaimedBy self.old reader bodies →
            IsAllowedMove t (Accept (length bodies) (group_of_blocks key bodies)) →
            Describes self.new (moved t (Accept (length bodies) (group_of_blocks key bodies))) }
        // Whatever a stop leaves then is right.
        ensures stop { (t : Translation) (bodies : List (List ℕ)) → Describes self.old t →
            key.kind ≡ 1 → key.unit ≤ 7 → AreClaimedBy self.old reader bodies →
            IsAllowedMove t (Accept (length bodies) (group_of_blocks key bodies)) →
            StopsRight self.new (moved t (Accept (length bodies) (group_of_blocks key bodies))) }
        ensures described_number { (t : Translation) → Describes self.old t → result ≡ next_of_layer t.ledger }
        ensures claims { (claims : Claims) → AreClaimed self.old claims →
            AreClaimed self.new (with_claimed claims reader []) }
    {
        self.has_numbers_in_range();
        self.append(reader, key)
    }

    /// Puts the group behind all that are pending.
    fn append(&mut self, reader: u8, key: Key) -> u64
        requires { IsTrue (has_number self.old) }
        ensures number { result ≡ next_number self.old }
        ensures after { self.new ≡ accepted self.old reader key }
    {
        self.cache.append(reader, key)
    }
}
