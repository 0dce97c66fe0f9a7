//! Which job a die is given next.
ghost use Rattle.std.specs.Prelude.{◌≡◌, ℕ, ◌<◌, ◌≤◌, ◌+◌, IfNone, length, slice_get, Some, None};
ghost use Rattle.std.specs.Prelude.{true, false, option_and_then, option_map};
ghost use Rattle.std.specs.List.{list_any};
ghost use Rattle.ufs_spec.specs.Pages.{IsTag, greatest_number, group_bound};
ghost use Rattle.ftl_core.specs.Takes.{copy_program, core_taken, erase_of, first_owed, flight_into, group_job};
ghost use Rattle.ftl_core.specs.Takes.{is_group_page, is_sealable, is_step_there, job_of, job_taken, lowest};
ghost use Rattle.ftl_core.specs.Takes.{mark_program, next_place, opening_flight, owed_flight, owed_read, page_flight};
ghost use Rattle.ftl_core.specs.Takes.{page_of_group, page_waiting, page_waits, read_of};
ghost use Rattle.ftl_core.specs.Takes.{repair_job, repair_program, writes_step};
ghost use Rattle.ftl_core.specs.Takes.{step_job, step_read, step_waits, step_wants, waiting_flight, waiting_of};
ghost use Rattle.ftl_core.specs.Takes.{own_read, owes_rest, rest_read, rest_read_of, unread_flight, waiting_page};
ghost use Rattle.ftl_core.specs.Moves.{begins, first_page, in_flight};
ghost use Rattle.readers.specs.Pins.{looks_on};
ghost use Rattle.ftl_core.specs.Moves.{reads_for, single_tag, started, started_with, tag_of_page};
ghost use Rattle.ufs_spec.specs.Translation.{Translation};
ghost use Rattle.ftl_core.specs.Describes.{Describes, IsTaken, spot_at};
ghost use Rattle.ftl_core.specs.Public.{AreClaimed, Claims};
ghost use Rattle.ftl_core.specs.Stops.{MayGo, StopsRightGiven};
ghost use Rattle.ufs_spec.specs.declared.flash.Job.TheVariants as job;
ghost use Rattle.ufs_spec.specs.declared.layer.Reader.TheVariants.{ForStep};
ghost use Rattle.block_table.specs.declared.BlockState.TheVariants as state;

use super::Ftl;
use super::rests::rest_look;
use crate::books::{Step, Waiting};
use block_table::{BlockState, BlockTable, DieRow, Flight, OpenBlock};
use page_tag::{OwedJob, UnsealedJob};
use readers::{Pin, looks_on};
use ufs_spec::{
    Block, Fence, GREATEST_GROUP, GREATEST_NUMBER, Job, Key, Looked, Place, REGIONS, Reader, Tag,
};
use write_cache::Pending;

/// The read of the page that the reader keeps, if it keeps one.
fn read_of(pin: &Pin) -> Option<Flight>
    ensures { result ≡ read_of pin.now }
{
    match pin.looked {
        Looked::OnPage(_, place) => Some(Flight::Read {
            place,
            reader: Reader::ForTask {
                tag: pin.reader,
                index: pin.index,
            },
        }),
        _ => None,
    }
}

/// The read of the page from which the rest of this one is taken.
fn rest_read_of(page: &Pending) -> Option<Flight>
    ensures { result ≡ rest_read_of page.now }
{
    match rest_look(&page.rest) {
        Looked::OnPage(_, place) => Some(Flight::Read {
            place,
            reader: Reader::ForRest {
                number: page.number,
                index: page.index,
            },
        }),
        _ => None,
    }
}

/// What waits, if it is this page.
fn waiting_page(page: &Pending) -> Waiting
    ensures { result ≡ waiting_page page.now }
{
    Waiting::Group {
        number: page.number,
        index: page.index,
    }
}

/// Where the page stands that the step under way is still to be read from.
fn step_wants(step: &Option<Step>) -> Option<Place>
    ensures { result ≡ step_wants step.now }
{
    match step {
        Some(
            Step::Repair {
                from: Some(stored),
                is_there: false,
                ..
            },
        ) => Some(stored.place),
        Some(
            Step::Copy {
                from,
                tag: None,
                ..
            },
        ) => Some(*from),
        _ => None,
    }
}

/// Whether the page of the step under way can be programmed: its content is there.
fn is_step_there(step: &Option<Step>) -> bool
    ensures { result ≡ is_step_there step.now }
{
    match step {
        Some(Step::Mark { .. }) => true,
        Some(Step::Repair { is_there, .. }) => *is_there,
        Some(Step::Copy { tag, .. }) => tag.is_some(),
        None => false,
    }
}

/// Whether a tag can name the key.
fn is_sealable(key: &Key) -> bool
    ensures { result ≡ is_sealable key.now }
{
    match key.kind {
        Tag::DATA => key.unit <= 7,
        Tag::RPMB_AREA => key.unit < REGIONS,
        Tag::SETTINGS => key.unit == 0 && key.address == 0,
        _ => false,
    }
}

/// Whether a tag can name the page.
fn is_group_page(page: &Pending) -> bool
    ensures { result ≡ is_group_page page.now }
{
    is_sealable(&page.key)
        && page.number >= 1
        && page.number <= GREATEST_NUMBER
        && page.index < page.size
        && page.size <= GREATEST_GROUP
}

/// The tag of a group of one page, or of a mark.
fn tag_of(key: Key, number: u64, frontier: u64) -> Tag
    ensures { result ≡ single_tag key number frontier }
{
    Tag {
        kind: key.kind,
        unit: key.unit,
        address: key.address,
        number,
        index: 0,
        size: 1,
        frontier,
    }
}

/// The tag of a page of a pending group.
fn tag_of_page(page: &Pending, frontier: u64) -> Tag
    ensures { result ≡ tag_of_page page.now.key page.now.number page.now.index page.now.size frontier }
{
    Tag {
        kind: page.key.kind,
        unit: page.key.unit,
        address: page.key.address,
        number: page.number,
        index: page.index,
        size: page.size,
        frontier,
    }
}

/// The next page of the open block.
fn next_place(die: u8, filled: OpenBlock) -> Place
    ensures { result ≡ next_place die filled }
{
    Place {
        die,
        block: filled.block,
        page: filled.next,
    }
}

/// The program of what waits.
fn page_flight(place: Place, waiting: Waiting) -> Flight
    ensures { result ≡ page_flight place waiting }
{
    match waiting {
        Waiting::Step => Flight::Step { place },
        Waiting::Group { number, index } => Flight::Group {
            place,
            number,
            index,
        },
    }
}

/// The block as one that is filled from its first page on.
fn first_page(block: u16) -> OpenBlock
    ensures { result ≡ first_page block }
{
    OpenBlock { block, next: 0 }
}

/// The block that a die begins to fill with this job: that of a program, where the die fills none.
fn begins(filling: Option<OpenBlock>, flight: Flight) -> Option<u16>
    ensures { result ≡ begins filling flight }
{
    match (filling, flight) {
        (None, Flight::Step { place }) => Some(place.block),
        (None, Flight::Group { place, .. }) => Some(place.block),
        _ => None,
    }
}

impl Ftl {
    /// What is known of the die; `None` if there is no such die.
    pub(super) fn row(&self, die: u8) -> Option<DieRow>
        ensures { result ≡ slice_get self.now.rows die }
    {
        self.blocks.row(die)
    }

    /// This is in flight of the die from now on, if there is such a die.
    pub(super) fn set_flight(&mut self, die: u8, flight: Option<Flight>)
        ensures { self.new ≡ in_flight self.old die flight }
    {
        self.blocks.set_flight(die, flight);
    }

    /// The lowest block of the die that is so and has no pin: of which no reader keeps a page, and no
    /// page is still to be read for a rest.
    fn lowest(&self, die: u8, state: BlockState) -> Option<u16>
        requires { die < length self.now.rows }
        ensures { result ≡ lowest self.now die state }
    {
        self.live.lowest_unpinned(&self.blocks, die, state)
    }

    /// The erase of the lowest block of the die that is so and has no pin.
    fn erase_of(&self, die: u8, state: BlockState) -> Option<Flight>
        requires { die < length self.now.rows }
        ensures { result ≡ erase_of self.now die state }
    {
        let block = self.lowest(die, state)?;
        Some(Flight::Erase { block })
    }

    /// Whether some die writes the page of the step under way.
    fn is_step_written(&self) -> bool
        ensures { result ≡ list_any writes_step self.now.rows }
    {
        self.blocks.writes_step()
    }

    /// Whether some die reads for the step under way.
    fn is_step_read(&self) -> bool
        ensures { result ≡ list_any (reads_for ForStep) self.now.rows }
    {
        self.blocks.reads_for(Reader::ForStep)
    }

    /// Whether the page is neither written nor in flight, and its content is all there.
    fn page_waits(&self, page: &Pending) -> bool
        ensures { result ≡ page_waits self.now.rows page.now }
    {
        page.written.is_none()
            && !self.blocks.writes_page(page.number, page.index)
            && page.rest.is_none()
    }

    /// The page of a group that waits first. It looks only at pages that can be programmed now, of
    /// which those in flight are passed over: a die has one at most.
    fn waiting_group(&self) -> Option<Waiting>
        ensures { result ≡ option_map waiting_page (page_waiting self.now) }
    {
        let mut from = 0;
        while let Some(at) = self.cache.first_ready(from) {
            let page = self.cache.page(at)?;
            if self.page_waits(page) {
                return Some(waiting_page(page));
            }
            from = at + 1;
        }
        None
    }

    /// Whether the page of the step under way waits.
    fn step_waits(&self) -> bool
        ensures { result ≡ step_waits self.now }
    {
        is_step_there(&self.step) && !self.is_step_written()
    }

    /// What waits first: the page of a step goes before those of groups, and these in order of
    /// number and index, where there is room for them.
    fn waiting(&self) -> Option<Waiting>
        ensures { result ≡ waiting_of self.now }
    {
        if self.step_waits() {
            Some(Waiting::Step)
        } else if self.has_room_for_groups() {
            self.waiting_group()
        } else {
            None
        }
    }

    /// The program of a mark: the configuration and this fence. Until the device is mended the
    /// frontier is the greatest number seen, which is the last of the fence.
    fn mark_program(&self, place: Place, number: u64, fence: Option<Fence>) -> OwedJob<'_>
        requires { (1 ≤ number) × (number ≤ greatest_number) }
        ensures { result ≡ mark_program self.now place number fence }
    {
        let key = Key {
            kind: Tag::MARK,
            unit: 0,
            address: 0,
        };
        let tag = tag_of(key, number, self.cache.frontier());
        OwedJob::mark(place, tag, self.config.numbers(), fence)
    }

    /// The program of a repair.
    fn repair_program(&self, place: Place, number: u64, key: Key) -> OwedJob<'_>
        requires numbered { (1 ≤ number) × (number ≤ greatest_number) }
        requires named { is_sealable key ≡ true }
        ensures { result ≡ repair_program self.now place number key }
    {
        let tag = tag_of(key, number, self.cache.frontier());
        OwedJob::program(&self.zeros, place, tag, &self.content)
    }

    /// The program of the repair, if a tag can name its key.
    fn repair_job(&self, place: Place, number: u64, key: Key) -> Option<OwedJob<'_>>
        requires { (1 ≤ number) × (number ≤ greatest_number) }
        ensures { result ≡ repair_job self.now place number key }
    {
        if is_sealable(&key) {
            Some(self.repair_program(place, number, key))
        } else {
            None
        }
    }

    /// The program of the copy of a page that was read with this tag: it has the same data and tag, but
    /// for the frontier that it records.
    fn copy_program<'a>(&'a self, place: Place, tag: &Tag) -> OwedJob<'a>
        requires { IsTag tag.now }
        ensures { result ≡ copy_program self.now place tag.now }
    {
        let copy = Tag {
            kind: tag.kind,
            unit: tag.unit,
            address: tag.address,
            number: tag.number,
            index: tag.index,
            size: tag.size,
            frontier: self.cache.frontier(),
        };
        OwedJob::program(&self.zeros, place, copy, &self.content)
    }

    /// The program of the page of the step under way.
    fn step_job(&self, place: Place) -> Option<OwedJob<'_>>
        ensures { result ≡ step_job self.now place self.now.step }
    {
        match self.step {
            Some(Step::Mark { number, fence }) => Some(self.mark_program(place, number, fence)),
            Some(Step::Repair { number, key, .. }) => self.repair_job(place, number, key),
            Some(Step::Copy { tag: Some(tag), .. }) => Some(self.copy_program(place, &tag)),
            Some(Step::Copy { tag: None, .. }) => None,
            None => None,
        }
    }

    /// The program of the page with this number and index, if it is pending and its content is all
    /// there.
    fn group_job(&self, place: Place, number: u64, index: u16) -> Option<OwedJob<'_>>
        ensures { result ≡ group_job self.now place number index }
    {
        let page = self.cache.page_named(number, index)?;
        if !is_group_page(page) {
            return None;
        }
        let body = page.content()?;
        Some(self.group_program(place, page, body))
    }

    /// The program of the page of a group with this content.
    fn group_program<'a>(&'a self, place: Place, page: &Pending, body: &'a Block) -> OwedJob<'a>
        requires numbered { (1 ≤ page.now.number) × (page.now.number ≤ greatest_number) }
        requires named { is_sealable page.now.key ≡ true }
        requires sized { (page.now.index < page.now.size) × (page.now.size ≤ group_bound) }
        ensures { result ≡ page_of_group self.now place page.now body.now }
    {
        let tag = tag_of_page(page, self.cache.frontier());
        OwedJob::program(&self.zeros, place, tag, body)
    }

    /// What the die is told to do.
    fn job_of(&self, die: u8, flight: Flight) -> Option<OwedJob<'_>>
        ensures { result ≡ job_of self.now die flight }
    {
        match flight {
            Flight::Read { place, .. } => Some(OwedJob::read(place)),
            Flight::Step { place } => self.step_job(place),
            Flight::Group {
                place,
                number,
                index,
            } => self.group_job(place, number, index),
            Flight::Erase { block } => Some(OwedJob::erase(die, block)),
        }
    }

    /// The erase of the lowest stale block of the die without a pin. No block is looked at where none is
    /// stale.
    fn stale_erase(&self, die: u8) -> Option<Flight>
        requires { die < length self.now.rows }
        ensures { result ≡ erase_of self.now die state.Stale }
    {
        if self.blocks.has_stale() {
            self.erase_of(die, BlockState::Stale)
        } else {
            None
        }
    }

    /// The program of what waits into this block, which was erased in this life; without one the
    /// erase of a block that is free.
    fn flight_into(&self, die: u8, waiting: Waiting, ready: Option<u16>) -> Option<Flight>
        requires { die < length self.now.rows }
        ensures { result ≡ flight_into self.now die waiting ready }
    {
        match ready {
            Some(block) => Some(page_flight(next_place(die, first_page(block)), waiting)),
            None => self.erase_of(die, BlockState::Free),
        }
    }

    /// What opens a block of the die for what waits, where one may be opened for it: the lowest block
    /// that was erased in this life is filled, else one is erased.
    fn opening_flight(&self, die: u8, waiting: Waiting) -> Option<Flight>
        requires { die < length self.now.rows }
        ensures { result ≡ opening_flight self.now die waiting }
    {
        if self.may_open(waiting) {
            self.flight_into(die, waiting, self.lowest(die, BlockState::Ready))
        } else {
            None
        }
    }

    /// The job of what waits: it goes to the next page of the open block, and a block is opened for
    /// it if none is open.
    fn waiting_flight(&self, die: u8, row: DieRow, waiting: Waiting) -> Option<Flight>
        requires { die < length self.now.rows }
        ensures { result ≡ waiting_flight self.now die row.filling waiting }
    {
        match row.filling {
            Some(open) => Some(page_flight(next_place(die, open), waiting)),
            None => self.opening_flight(die, waiting),
        }
    }

    /// The job of an idle die that is owed no read: the erase of a stale block, else that of what
    /// waits first.
    fn unread_flight(&self, die: u8, row: DieRow) -> Option<Flight>
        requires { die < length self.now.rows }
        ensures { result ≡ unread_flight self.now die row.filling (erase_of self.now die state.Stale) }
    {
        match self.stale_erase(die) {
            Some(flight) => Some(flight),
            None => match self.waiting() {
                Some(waiting) => self.waiting_flight(die, row, waiting),
                None => None,
            },
        }
    }

    /// The read that the step under way is owed of a page of this die.
    fn step_read(&self, die: u8) -> Option<Flight>
        ensures { result ≡ step_read self.now die }
    {
        let place = step_wants(&self.step)?;
        if place.die != die || self.is_step_read() {
            return None;
        }
        Some(Flight::Read {
            place,
            reader: Reader::ForStep,
        })
    }

    /// Whether the page waits for its rest from a page of this die, and no die reads for it.
    fn owes_rest(&self, page: &Pending, die: u8) -> bool
        ensures { result ≡ owes_rest self.now.rows die page.now }
    {
        let reader = Reader::ForRest {
            number: page.number,
            index: page.index,
        };
        looks_on(&rest_look(&page.rest), die) && !self.blocks.reads_for(reader)
    }

    /// The read that the first pending page is owed that waits for its rest from a page of this die. It looks
    /// only at pages that wait.
    fn rest_read(&self, die: u8) -> Option<Flight>
        ensures { result ≡ rest_read self.now die }
    {
        let mut from = 0;
        while let Some(at) = self.cache.first_waiting(from) {
            let page = self.cache.page(at)?;
            if self.owes_rest(page, die) {
                return rest_read_of(page);
            }
            from = at + 1;
        }
        None
    }

    /// The read that the device owes itself of a page of this die: for the step under way, else for a page
    /// that waits for its rest.
    fn own_read(&self, die: u8) -> Option<Flight>
        ensures { result ≡ own_read (step_read self.now die) (rest_read self.now die) }
    {
        match self.step_read(die) {
            Some(flight) => Some(flight),
            None => self.rest_read(die),
        }
    }

    /// The read that is owed to the die: to a reader, else to the device itself.
    fn owed_read(&self, die: u8) -> Option<Flight>
        ensures { result ≡ owed_read self.now die (first_owed self.now die) }
    {
        match self.pins.first_owed(&self.blocks, die) {
            Some(pin) => read_of(&pin),
            None => self.own_read(die),
        }
    }

    /// The job that an idle die is owed: a read, else the erase of a stale block, else that of what
    /// waits first.
    fn owed_flight(&self, die: u8, row: DieRow) -> Option<Flight>
        requires { die < length self.now.rows }
        ensures { result ≡ owed_flight self.now die row.filling (owed_read self.now die (first_owed self.now die)) }
    {
        match self.owed_read(die) {
            Some(flight) => Some(flight),
            None => self.unread_flight(die, row),
        }
    }

    /// The die has this job in flight from now on, and fills the block that the job begins, if it
    /// begins one.
    fn begin(&mut self, die: u8, row: DieRow, flight: Flight)
        requires { slice_get self.old.rows die ≡ Some row }
        ensures { self.new ≡ started self.old die row flight }
    {
        match begins(row.filling, flight) {
            Some(block) => self.begin_block(die, row, block, flight),
            None => self.set_flight(die, Some(flight)),
        }
    }

    /// The die fills this block from its first page on, and has this job in flight.
    fn begin_block(&mut self, die: u8, row: DieRow, block: u16, flight: Flight)
        requires { slice_get self.old.rows die ≡ Some row }
        ensures { self.new ≡ started_with self.old die row.filling flight (Some block) }
    {
        self.blocks.opened(die, block);
        self.set_flight(die, Some(flight));
    }

    /// The job that the die has in flight from now on, where it is owed one: a read that is owed, else the
    /// erase of a block whose pages open and may go, else the program of the first waiting page, else the
    /// erase of a block to put it into. It is never inlined: where it is, the compiler gives up on the room
    /// for a page in `take`, sets it and copies the page once more.
    #[inline(never)]
    fn next_flight(&mut self, die: u8) -> Option<Flight>
        ensures nothing { IfNone result (self.new ≡ self.old) }
        // What is to be programmed is the same once the job is in flight.
        ensures job { option_and_then (job_of self.new die) result ≡ job_taken self.old die }
        ensures after { self.new ≡ core_taken self.old die }
        ensures described { (t : Translation) → Describes self.old t → IsTaken t die (job_taken self.old die) self.new }
        ensures stop { (t : Translation) → Describes self.old t → StopsRightGiven t die (job_taken self.old die) self.new }
        ensures erase { (t : Translation) (at block : ℕ) → Describes self.old t →
            job_taken self.old die ≡ Some (job.Erase at block) → MayGo t die (spot_at at block) }
        ensures claims { (claims : Claims) → AreClaimed self.old claims → AreClaimed self.new claims }
    {
        self.has_few_units();
        let row = self.row(die)?;
        if row.flight.is_some() {
            return None;
        }
        let flight = self.owed_flight(die, row)?;
        if self.job_of(die, flight).is_none() {
            return None;
        }
        self.begin(die, row, flight);
        Some(flight)
    }

    /// The next job of the die, which is then in flight: a read that is owed, else the erase of a
    /// block whose pages open and may go, else the program of the first waiting page, else the erase
    /// of a block to put it into. `None` where the die is not one of the device, has a job in flight,
    /// or is owed nothing. A page that is programmed is sealed, which takes one SHA-256.
    pub fn take(&mut self, die: u8) -> Option<Job>
        ensures nothing { IfNone result (self.new ≡ self.old) }
        ensures job { result ≡ job_taken self.old die }
        ensures after { self.new ≡ core_taken self.old die }
        // It is one that the layer owes to the die, in the order of what is owed, and none where none is.
        ensures described { (t : Translation) → Describes self.old t → IsTaken t die result self.new }
        // Whatever a stop leaves then is right, with the job in flight.
        ensures stop { (t : Translation) → Describes self.old t → StopsRightGiven t die result self.new }
        // An erase is of a block that no pin is in, and of which each page that opens is spent.
        ensures erase { (t : Translation) (at block : ℕ) → Describes self.old t → result ≡ Some (job.Erase at block) →
            MayGo t die (spot_at at block) }
        ensures claims { (claims : Claims) → AreClaimed self.old claims → AreClaimed self.new claims }
    {
        let flight = self.next_flight(die)?;
        self.job_of(die, flight)?.sealed()
    }

    /// The job that `take` hands out, before its page is sealed: it takes no SHA-256, and whoever has it
    /// seals its page.
    pub fn take_unsealed(&mut self, die: u8) -> Option<UnsealedJob>
        ensures nothing { IfNone result (self.new ≡ self.old) }
        ensures job { result ≡ job_taken self.old die }
        ensures after { self.new ≡ core_taken self.old die }
        ensures described { (t : Translation) → Describes self.old t → IsTaken t die result self.new }
        ensures stop { (t : Translation) → Describes self.old t → StopsRightGiven t die result self.new }
        ensures erase { (t : Translation) (at block : ℕ) → Describes self.old t → result ≡ Some (job.Erase at block) →
            MayGo t die (spot_at at block) }
        ensures claims { (claims : Claims) → AreClaimed self.old claims → AreClaimed self.new claims }
    {
        let flight = self.next_flight(die)?;
        self.job_of(die, flight)?.unsealed()
    }
}
