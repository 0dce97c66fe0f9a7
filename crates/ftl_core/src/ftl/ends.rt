//! How a job in flight ends, and what a step of the device's own orders.
ghost use Rattle.std.specs.Prelude.{◌≡◌, ℕ, ◌<◌, ◌≤◌, IfNone, List, Option, length, option_map, is_some, slice_get, Some, None, find, option_copied};
ghost use Rattle.ftl_core.specs.Ends.{noted, page_durable, page_landed, pages_landed, risen, settled, pins_moved};
ghost use Rattle.ftl_core.specs.Ends.{copy_durable, copy_over, copy_pending, index_in};
ghost use Rattle.ftl_core.specs.Ends.{mark_over, mending_after, plan_over, repair_over, step_failed, step_there, step_written};
ghost use Rattle.ftl_core.specs.Ends.{with_content};
ghost use Rattle.ftl_core.specs.Gives.{Gives, GivesIf, IsBodyLooked, IsBodyOf, IsGiven, change_after, change_ended, ending, erase_ended, group_ended, is_read, names, other_for, IsGivenTo};
ghost use Rattle.ftl_core.specs.Gives.{IsContentOf, IsContentRead, IsReadAfter, IsReadOver, step_ended};
ghost use Rattle.ftl_core.specs.Done.{FlightEnds, IsCoreEnded, IsEnded, IsFlightAfter};
ghost use Rattle.ftl_core.specs.Moves.{erased, page_written, went_bad, pin_of, stored_of};
ghost use Rattle.write_cache.specs.Slots.{is_named};
ghost use Rattle.ufs_spec.specs.Moves.{EndJob, Ending, IsEndingOf, MayEnd, moved, outcome_fits};
ghost use Rattle.ufs_spec.specs.Translation.{Translation};
ghost use Rattle.ufs_spec.specs.Disk.{Reading};
ghost use Rattle.ufs_spec.specs.declared.layer.Reader.{Reader};
ghost use Rattle.ufs_spec.specs.declared.flash.Place.{Place};
ghost use Rattle.ftl_core.specs.Describes.{Describes, IsTold};
ghost use Rattle.ftl_core.specs.Public.{AreClaimed, Claims};
ghost use Rattle.ftl_core.specs.Stops.{StopsRight};
ghost use Rattle.page_tag.specs.Jobs.{IsTagOf, IsTagRead};
ghost use Rattle.ftl_core.specs.Tells.{IsReadOf};
ghost use Rattle.ftl_core.specs.Ended.{EndedNow, ended_now};

use super::facts::bytes_are_a_block;
use super::{Ended, Ftl, move_live, move_page};
use crate::books::{Mending, Step};
use block_table::{DieRow, Flight};
use page_tag::one_seal;
use readers::Pin;
use ufs_spec::{Block, Key, Looked, Name, Outcome, Page, Place, Reader, Tag};
use unit_map::Stored;
use write_cache::Landed;

/// Whether the tag is of this address and this number.
fn names(tag: &Tag, key: Key, number: u64) -> bool
    ensures { result ≡ names tag.now key number }
{
    tag.kind == key.kind
        && tag.unit == key.unit
        && tag.address == key.address
        && tag.number == number
}

/// The block of the page, which was sealed with this tag, where it is the page of this address with this
/// number.
fn body_of<'a>(page: &'a Page, tag: &Option<Tag>, key: Key, number: u64) -> Option<&'a Block>
    requires { IsTagOf page.now tag.now }
    ensures { IsBodyOf page.now key number (option_copied result) }
{
    one_seal();
    let Some(tag) = tag else {
        return None;
    };
    bytes_are_a_block(page.body.as_slice());
    if names(tag, key, number) {
        Some(&page.body)
    } else {
        None
    }
}

/// The block of the page, where a page is looked at for the address and this is it.
pub(super) fn body_looked<'a>(
    page: &'a Page,
    tag: &Option<Tag>,
    key: Key,
    looked: &Looked,
) -> Option<&'a Block>
    requires { IsTagOf page.now tag.now }
    ensures { IsBodyLooked page.now key looked.now (option_copied result) }
{
    match looked {
        Looked::OnPage(name, _) => body_of(page, tag, key, name.number),
        _ => None,
    }
}

/// What the end of its read gives to the pin's reader.
fn body_given<'a>(outcome: &'a Outcome, tag: &Option<Tag>, pin: &Pin) -> Option<&'a Block>
    requires { IsTagRead outcome.now tag.now }
    ensures { IsGiven outcome.now pin.now (option_copied result) }
{
    match outcome {
        Outcome::Read(page) => body_looked(page, tag, pin.key, &pin.looked),
        _ => None,
    }
}

/// Whether the outcome is a read's.
fn is_read(outcome: &Outcome) -> bool
    ensures { result ≡ is_read outcome.now }
{
    match outcome {
        Outcome::Read(_) => true,
        Outcome::ReadFailed => true,
        _ => false,
    }
}

/// Whether a program or an erase ended well; `None` where the outcome is a read's.
fn ending(outcome: &Outcome) -> Option<bool>
    ensures { result ≡ ending outcome.now }
{
    match outcome {
        Outcome::Done => Some(true),
        Outcome::Failed => Some(false),
        Outcome::Read(_) => None,
        Outcome::ReadFailed => None,
    }
}

/// How far the mending is once its mark is finished: one with a fence is followed by the repairs.
fn mending_after(mending: Mending) -> Mending
    ensures { result ≡ mending_after mending }
{
    match mending {
        Mending::Unmarked(Some(_)) => Mending::Repairing,
        _ => Mending::Mended,
    }
}

/// The block that the end of a read gives to the step under way, where the page is the one that it is read
/// from.
fn content_read<'a>(
    step: &Option<Step>,
    outcome: &'a Outcome,
    tag: &Option<Tag>,
) -> Option<&'a Block>
    requires { IsTagRead outcome.now tag.now }
    ensures { IsContentRead step.now outcome.now (option_copied result) }
{
    match outcome {
        Outcome::Read(page) => content_of_page(step, page, tag),
        _ => None,
    }
}

/// The block of the page, where it is the one that the step under way is read from.
fn content_of_page<'a>(step: &Option<Step>, page: &'a Page, tag: &Option<Tag>) -> Option<&'a Block>
    requires { IsTagOf page.now tag.now }
    ensures { IsContentOf step.now page.now (option_copied result) }
{
    match step {
        Some(
            Step::Repair {
                key,
                from: Some(stored),
                ..
            },
        ) => body_of(page, tag, *key, stored.name.number),
        Some(Step::Copy { number, key, .. }) => body_of(page, tag, *key, *number),
        _ => None,
    }
}

/// The content of the step is there: it was read from a page with this tag, which a copy of it has too.
fn step_there(step: Option<Step>, tag: &Option<Tag>) -> Option<Step>
    ensures { result ≡ step_there tag.now step }
{
    match step {
        Some(
            Step::Repair {
                number,
                key,
                from,
                ..
            },
        ) => Some(Step::Repair {
            number,
            key,
            from,
            is_there: true,
        }),
        Some(
            Step::Copy {
                number,
                key,
                from,
                ..
            },
        ) => Some(Step::Copy {
            number,
            key,
            from,
            tag: *tag,
        }),
        _ => step,
    }
}

/// The index that a copy has in its group, by the tag of the page that was read.
fn index_in(tag: &Option<Tag>) -> u16
    ensures { result ≡ index_in tag.now }
{
    match tag {
        Some(tag) => tag.index,
        None => 0,
    }
}

impl Ftl {
    /// The die has no job in flight any more, and its open block has one page less.
    fn page_written(&mut self, die: u8, row: DieRow)
        ensures { self.new ≡ page_written self.old die row row.filling }
    {
        self.blocks.page_written(die, row.filling);
    }

    /// The block is bad from now on. The die has no job, and fills this block no more.
    fn went_bad(&mut self, die: u8, block: u16)
        ensures { self.new ≡ went_bad self.old die block }
    {
        self.blocks.went_bad(die, block);
    }

    /// The block is empty and may be filled. The die has no job, and fills the block that it filled.
    fn erase_done(&mut self, die: u8, block: u16)
        ensures { self.new ≡ erased self.old die block }
    {
        self.blocks.erased(die, block);
    }

    /// The page of the step under way is written, and the step is over.
    fn step_written(&mut self, die: u8, row: DieRow, place: Place)
        ensures { self.new ≡ step_written self.old die row place }
    {
        match self.step {
            Some(Step::Mark { .. }) => self.mark_written(die, row),
            Some(Step::Repair { key, .. }) => self.repair_written(die, row, key, place),
            Some(
                Step::Copy {
                    number,
                    key,
                    tag,
                    ..
                },
            ) => {
                self.copy_written(die, row, number, key, index_in(&tag), place);
            }
            None => self.page_written(die, row),
        }
    }

    /// A mark is written. If it is that of a collection, the collected block is free, and to be erased.
    fn mark_written(&mut self, die: u8, row: DieRow)
        ensures { self.new ≡ plan_over (page_written (mark_over self.old) die row row.filling) }
    {
        self.mark_over();
        self.page_written(die, row);
        self.plan_over();
    }

    /// The collection that is begun, if one is, is over: its block is free and to be erased, unless it
    /// is bad.
    fn plan_over(&mut self)
        ensures { self.new ≡ plan_over self.old }
    {
        if let Some(at) = self.plan.victim() {
            self.blocks.freed(at.die, at.block);
            self.plan.end();
        }
    }

    /// The page of a repair is written.
    fn repair_written(&mut self, die: u8, row: DieRow, key: Key, place: Place)
        ensures { self.new ≡ page_written (repair_over self.old key place) die row row.filling }
    {
        self.repair_over(key, place);
        self.page_written(die, row);
    }

    /// A copy is written. No group becomes durable by it, since its page stood before: `settle` finds
    /// nothing to do, and keeps one clause for all pages of groups.
    fn copy_written(
        &mut self,
        die: u8,
        row: DieRow,
        number: u64,
        key: Key,
        index: u16,
        place: Place,
    )
        ensures { self.new ≡
            settled (page_written (copy_over self.old number key index place) die row row.filling) }
    {
        self.copy_over(number, key, index, place);
        self.page_written(die, row);
        self.settle();
    }

    /// The copy of a page stands there: the page is found there from now on, if it is needed still.
    fn copy_over(&mut self, number: u64, key: Key, index: u16, place: Place)
        ensures { self.new ≡ copy_over self.old number key index place }
    {
        self.step = None;
        if number <= self.cache.frontier() {
            self.copy_durable(number, key, place);
        } else {
            self.copy_pending(number, index, place);
        }
    }

    /// The key reads from the copy of its page, if no newer page of it is durable.
    fn copy_durable(&mut self, number: u64, key: Key, place: Place)
        ensures { self.new ≡ copy_durable self.old number key place (stored_of self.old key) }
    {
        if let Some(stored) = self.stored(key) {
            let name = stored.name;
            if name.number == number {
                self.note_place(key, Stored { name, place });
            }
        }
    }

    /// The page of a pending group is written where its copy is, and no more where it was.
    fn copy_pending(&mut self, number: u64, index: u16, place: Place)
        ensures { self.new ≡
            copy_pending self.old number index place (find (is_named number index) self.old.pages) }
    {
        let Some(page) = self.cache.page_named(number, index) else {
            return;
        };
        let old = page.written;
        self.note_written(number, index, place);
        move_page(&mut self.live, old, place);
    }

    /// The mark is finished: repairs follow, or the mending is over.
    fn mark_over(&mut self)
        ensures { self.new ≡ mark_over self.old }
    {
        self.step = None;
        self.mending = mending_after(self.mending);
    }

    /// The repair is durable: its key reads from this place.
    fn repair_over(&mut self, key: Key, place: Place)
        ensures { self.new ≡ repair_over self.old key place }
    {
        self.step = None;
        self.rise();
        let name = Name {
            number: self.cache.frontier(),
            index: 0,
        };
        self.note_place(key, Stored { name, place });
    }

    /// In place of a failed mark waits one with the next number and the same fence. A failed repair or
    /// copy waits again by itself.
    fn step_failed(&mut self, die: u8, place: Place)
        ensures { self.new ≡ step_failed self.old die place }
    {
        if let Some(Step::Mark { fence, .. }) = self.step {
            self.order_mark(fence);
        }
        self.went_bad(die, place.block);
    }

    /// The frontier is the next number, if that was given.
    fn rise(&mut self)
        ensures { self.new ≡ record self.old { frontier = risen self.old } }
    {
        self.cache.rise();
    }

    /// The page of a group is durable: its address now reads from where it is written, and so does who
    /// keeps its slot.
    fn page_durable(&mut self, key: Key, stored: Stored)
        ensures { self.new ≡ pins_moved (noted self.old key stored) stored }
    {
        self.note_place(key, stored);
        self.has_few_slots();
        self.pins.move_to(&mut self.live, stored);
    }

    /// A page that left its slot is durable, if it is written.
    fn landed(&mut self, page: Landed)
        ensures { self.new ≡ page_landed self.old page }
    {
        if let Some(place) = page.written {
            let name = Name {
                number: page.number,
                index: page.index,
            };
            self.page_durable(page.key, Stored { name, place });
        }
    }

    /// So many pages at the front are durable and pending no more.
    fn pages_durable(&mut self, pages: usize)
        requires { pages ≤ length self.old.pages }
        ensures { self.new ≡ pages_landed self.old pages }
    {
        for _ in 0..pages {
            if let Some(page) = self.land() {
                self.landed(page);
            }
        }
    }

    /// The durable content of the address stands there from now on: this page is live, and no more
    /// the one where it stood.
    fn note_place(&mut self, key: Key, stored: Stored)
        ensures { self.new ≡ noted self.old key stored }
    {
        let old = self.stored(key);
        move_live(&mut self.live, old, stored.place);
        self.places.set(key, stored);
    }

    /// Every group at the front that is wholly written is durable.
    fn settle(&mut self)
        ensures { self.new ≡ settled self.old }
    {
        while let Some(group) = self.cache.front_written() {
            self.pages_durable(group.pages);
            self.rise();
        }
    }

    /// The end of the program of a group's page; the page waits again by itself, if it failed.
    fn group_ended(
        &mut self,
        die: u8,
        row: DieRow,
        place: Place,
        number: u64,
        index: u16,
        is_done: bool,
    )
        ensures { self.new ≡ group_ended self.old die row place number index is_done }
    {
        if is_done {
            self.note_written(number, index, place);
            self.live.set_live(place);
            self.page_written(die, row);
            self.settle();
        } else {
            self.went_bad(die, place.block);
        }
    }

    /// The end of the program of the page of the step under way.
    fn step_ended(&mut self, die: u8, row: DieRow, place: Place, is_done: bool)
        ensures { self.new ≡ step_ended self.old die row place is_done }
    {
        if is_done {
            self.step_written(die, row, place);
        } else {
            self.step_failed(die, place);
        }
    }

    /// The end of an erase.
    fn erase_ended(&mut self, die: u8, block: u16, is_done: bool)
        ensures { self.new ≡ erase_ended self.old die block is_done }
    {
        if is_done {
            self.erase_done(die, block);
        } else {
            self.went_bad(die, block);
        }
    }

    /// What the end of a program or an erase changes.
    fn change_ended(&mut self, die: u8, row: DieRow, flight: Flight, is_done: bool)
        ensures { self.new ≡ change_ended self.old die row flight is_done }
    {
        match flight {
            Flight::Read { .. } => {}
            Flight::Step { place } => self.step_ended(die, row, place, is_done),
            Flight::Group {
                place,
                number,
                index,
            } => self.group_ended(die, row, place, number, index, is_done),
            Flight::Erase { block } => self.erase_ended(die, block, is_done),
        }
    }

    /// The end of a program or an erase.
    fn change_done<'a>(
        &mut self,
        die: u8,
        row: DieRow,
        flight: Flight,
        outcome: &'a Outcome,
    ) -> Option<Ended<'a>>
        ensures answer { option_map ended_now result ≡ option_map other_for (ending outcome.now) }
        ensures after { self.new ≡ change_after self.old die row flight (ending outcome.now) }
    {
        let is_done = ending(outcome)?;
        self.change_ended(die, row, flight, is_done);
        Some(Ended::Other)
    }

    /// The block that the end of its read gives to the reader.
    fn body_for<'a>(
        &self,
        reader: u8,
        index: u16,
        outcome: &'a Outcome,
        tag: &Option<Tag>,
    ) -> Option<&'a Block>
        requires { IsTagRead outcome.now tag.now }
        ensures { IsGivenTo outcome.now (pin_of self.now reader index) (option_copied result) }
    {
        match self.pin_of(reader, index) {
            Some(pin) => body_given(outcome, tag, &pin),
            None => None,
        }
    }

    /// What the end of the read gives: to its reader the block, where the page is the one that was looked
    /// up; to the step under way its content; to a page that waits for it its rest.
    fn give<'a>(
        &mut self,
        reader: Reader,
        outcome: &'a Outcome,
        tag_found: &Option<Tag>,
    ) -> Ended<'a>
        requires { IsTagRead outcome.now tag_found.now }
        ensures answer { Gives self.old outcome.now reader (ended_now result) }
        ensures after { IsReadOver self.old outcome.now tag_found.now reader self.new }
    {
        match reader {
            Reader::ForTask { tag, index } => {
                let body = self.body_for(tag, index, outcome, tag_found);
                self.pins.end_wants(tag, index);
                Ended::Read {
                    reader: tag,
                    index,
                    body,
                }
            }
            Reader::ForStep => {
                self.take_content(outcome, tag_found);
                Ended::Other
            }
            Reader::ForRest { number, index } => {
                self.take_rest(Name { number, index }, outcome, tag_found);
                Ended::Other
            }
            Reader::ForNobody => Ended::Other,
        }
    }

    /// The content of the step under way is there, where the page is the one that it is read from; else it
    /// is owed again.
    fn take_content(&mut self, outcome: &Outcome, tag: &Option<Tag>)
        requires { IsTagRead outcome.now tag.now }
        ensures { (body : Option (List ℕ)) × IsContentRead self.old.step outcome.now body
            × (self.new ≡ with_content self.old tag.now body) }
    {
        if let Some(body) = content_read(&self.step, outcome, tag) {
            self.content = *body;
            self.step = step_there(self.step, tag);
        }
    }

    /// The end of a read.
    fn read_ended<'a>(
        &mut self,
        die: u8,
        row: DieRow,
        reader: Reader,
        outcome: &'a Outcome,
        tag: &Option<Tag>,
    ) -> Option<Ended<'a>>
        requires row { slice_get self.old.rows die ≡ Some row }
        requires tag { IsTagRead outcome.now tag.now }
        ensures answer { GivesIf (is_read outcome.now) self.old outcome.now reader (option_map ended_now result) }
        ensures after { IsReadAfter (is_read outcome.now) self.old die row outcome.now tag.now reader self.new }
    {
        if !is_read(outcome) {
            return None;
        }
        self.set_flight(die, None);
        Some(self.give(reader, outcome, tag))
    }

    /// The end of the job that the die has in flight, if it has one.
    fn job_ended<'a>(
        &mut self,
        die: u8,
        row: DieRow,
        outcome: &'a Outcome,
        tag: &Option<Tag>,
    ) -> Option<Ended<'a>>
        requires row { slice_get self.old.rows die ≡ Some row }
        requires tag { IsTagRead outcome.now tag.now }
        ensures nothing { IfNone result (self.new ≡ self.old) }
        ensures answer { FlightEnds self.old row.flight outcome.now (option_map ended_now result) }
        ensures after { IsFlightAfter self.old die row row.flight outcome.now tag.now self.new }
    {
        match row.flight? {
            Flight::Read { reader, .. } => self.read_ended(die, row, reader, outcome, tag),
            flight => self.change_done(die, row, flight, outcome),
        }
    }

    /// Ends the job in flight of the die. `None`, and nothing changes, where the die has no job in
    /// flight or the outcome is not of its kind. It takes no SHA-256: the tag of the page that was read is
    /// known (`page_tag::tag_read`).
    pub fn done<'a>(
        &mut self,
        die: u8,
        outcome: &'a Outcome,
        tag: &Option<Tag>,
    ) -> Option<Ended<'a>>
        requires { IsTagRead outcome.now tag.now }
        ensures nothing { IfNone result (self.new ≡ self.old) }
        ensures answer { IsEnded self.old die outcome.now (option_map ended_now result) }
        ensures after { IsCoreEnded self.old die outcome.now tag.now self.new }
        // It is known exactly where the outcome is of the kind of the job in flight.
        ensures known { (t : Translation) → Describes self.old t → is_some result ≡ outcome_fits (t.disk.flights die) outcome.now }
        // What is kept then describes what the end makes of the layer, and the answer tells what it gave.
        ensures described { (t : Translation) (ending : Ending) → Describes self.old t →
            IsEndingOf t.disk.cells (t.disk.flights die) outcome.now ending → MayEnd t.disk die (t.disk.flights die) ending →
            Describes self.new (moved t (EndJob die ending)) }
        // Whatever a stop leaves then is right.
        ensures stop { (t : Translation) (ending : Ending) → Describes self.old t →
            IsEndingOf t.disk.cells (t.disk.flights die) outcome.now ending → MayEnd t.disk die (t.disk.flights die) ending →
            StopsRight self.new (moved t (EndJob die ending)) }
        ensures told { (t : Translation) (ending : Ending) → Describes self.old t →
            IsEndingOf t.disk.cells (t.disk.flights die) outcome.now ending →
            (e : EndedNow) × (option_map ended_now result ≡ Some e) × IsTold t.disk.cells (t.disk.flights die) ending e }
        // A read was for a reader who keeps its page and waits for it, for a rest that is owed, for the step
        // under way, or for nobody.
        ensures read { (t : Translation) (who : Reader) (place : Place) → Describes self.old t →
            t.disk.flights die ≡ Some (Reading who place) → IsReadOf t place who }
        ensures claims { (claims : Claims) → AreClaimed self.old claims → AreClaimed self.new claims }
    {
        let row = self.row(die)?;
        self.job_ended(die, row, outcome, tag)
    }
}
