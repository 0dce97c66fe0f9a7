//! The pins of one reader.
ghost use Rattle.std.specs.Prelude.{◌≡◌, ◌≤◌, ◌==◌, [], IfOk, None, Some, count_by, drop, filter, find, fold};
ghost use Rattle.std.specs.Prelude.{if◌then◌else◌, length, map, not, option_copied, take};
ghost use Rattle.std.specs.VecDeque.{deque_capacity};
ghost use Rattle.ufs_spec.specs.Plain.{greatest_command};
ghost use Rattle.readers.specs.Pins.{is_of_reader, is_owed_by, is_pin_of, let_go, moved_pin};
ghost use Rattle.readers.specs.Pins.{pin_moves, wanted_no_more, wanted_now};
ghost use Rattle.readers.specs.Rows.{first_let_go, first_set, is_slotted, is_wanted, row_of, starts_at, takes};
ghost use Rattle.readers.specs.Rows.{with_pin, with_pins};

use crate::counts::{pin_moves, unpin_block, unpin_block_of, unpin_blocks};
use crate::pin::Pin;
use crate::walks::{end_wants, move_pins, want};
use block_table::{BlockTable, LivePages};
use std::alloc::{AllocError, Global};
use std::collections::VecDeque;
use std::marker::Model;
use ufs_spec::GREATEST_COMMAND;
use unit_map::Stored;

/// How many pins a row has room for: the blocks of a command.
const MOST_IN_ROW: usize = GREATEST_COMMAND as usize;

/// Pins of one reader, at most 128, whose indices rise, with room for all of them. It tells how many
/// of them are wanted and how many look into a slot, so that a walk may pass over it.
#[derive(Drop)]
pub(crate) struct Row {
    /// Whose pins they are.
    reader: u8,
    /// No pin has this index or one above it.
    next: usize,
    /// The pins in their order.
    pins: VecDeque<Pin>,
    /// How many of them are wanted.
    wanted: usize,
    /// How many of them look into a slot.
    slots: usize,
}

impl Model for Row {
    ghost use Rattle.readers.specs.Rows.{RowPins};

    ghost Value = { RowPins };

    ghost use Rattle.readers.specs.RowInside.{row_seen, IsRow};

    ghost view = { row_seen };

    ghost invariant = { IsRow };
}

/// How many of the pins are wanted.
fn count_wanted(pins: &VecDeque<Pin>) -> usize
    ensures { result ≡ count_by is_wanted pins.now.items }
{
    pins.iter().filter(|pin| pin.wanted).count()
}

/// How many of the pins look into a slot.
fn count_slots(pins: &VecDeque<Pin>) -> usize
    ensures { result ≡ count_by is_slotted pins.now.items }
{
    pins.iter().filter(|pin| pin.is_slotted()).count()
}

/// The pin of this block of the reader; `None` where there is none. It is never inlined, so that a walk
/// over rows of other readers stays short.
#[inline(never)]
fn pin_among(pins: &VecDeque<Pin>, reader: u8, index: u16) -> Option<&Pin>
    ensures { option_copied result ≡ find (is_pin_of reader index) pins.now.items }
{
    pins.iter().find(|pin| pin.is_of(reader, index))
}

/// The first pin whose reader is owed the read of a page of this die.
fn owed_among<'a>(pins: &'a VecDeque<Pin>, blocks: &BlockTable, die: u8) -> Option<&'a Pin>
    ensures { option_copied result ≡ find (is_owed_by blocks.now.rows die) pins.now.items }
{
    pins.iter().find(|pin| pin.is_owed(blocks, die))
}

/// The pin, if its reader is owed the read of a page of this die.
fn owed_alone(pin: &Pin, blocks: &BlockTable, die: u8) -> Option<Pin>
    ensures { result ≡ (if is_owed_by blocks.now.rows die pin.now then Some pin.now else None) }
{
    if pin.is_owed(blocks, die) {
        Some(*pin)
    } else {
        None
    }
}

/// This block of the reader is kept no more.
fn drop_among(pins: &mut VecDeque<Pin>, reader: u8, index: u16)
    ensures left { pins.new.items ≡ filter (λ p. not (is_pin_of reader index p)) pins.old.items }
    ensures room { deque_capacity pins.new ≡ deque_capacity pins.old }
    ensures fewer { length pins.new.items ≤ length pins.old.items }
{
    pins.retain(|pin| !pin.is_of(reader, index));
}

impl Row {
    /// Room for the pins of a command, and none yet.
    pub(crate) fn new(alloc: Global) -> Result<Row, AllocError>
        ensures { IfOk result (λ r. r.pins ≡ []) }
    {
        Ok(Row {
            reader: 0,
            next: 0,
            pins: VecDeque::with_capacity(alloc, MOST_IN_ROW)?,
            wanted: 0,
            slots: 0,
        })
    }

    /// How many pins it holds.
    pub(crate) fn len(&self) -> usize
        ensures is { result ≡ length self.now.pins }
        ensures few { result ≤ greatest_command }
    {
        self.pins.len()
    }

    /// It holds this pin alone from now on, and is a row of its reader.
    pub(crate) fn begin(&mut self, pin: Pin)
        ensures { self.new ≡ row_of pin }
    {
        self.pins.clear();
        self.pins.push_back_reserved(pin);
        self.reader = pin.reader;
        self.next = pin.index as usize + 1;
        self.wanted = pin.wants();
        self.slots = pin.slots();
    }

    /// One pin more, behind all others, and whether there was room: the pin is of the reader, its
    /// index is above all that were here, and there are fewer than 128.
    pub(crate) fn push(&mut self, pin: Pin) -> bool
        ensures is { result ≡ takes self.old pin }
        ensures after { self.new ≡ (if result then with_pin self.old pin else self.old) }
    {
        if self.reader != pin.reader
            || self.next > pin.index as usize
            || self.pins.len() >= MOST_IN_ROW
        {
            return false;
        }
        self.pins.push_back_reserved(pin);
        self.next = pin.index as usize + 1;
        self.wanted += pin.wants();
        self.slots += pin.slots();
        true
    }

    /// The pin of this block of the reader; `None` where there is none.
    pub(crate) fn find(&self, reader: u8, index: u16) -> Option<Pin>
        ensures { result ≡ find (is_pin_of reader index) self.now.pins }
    {
        if self.reader != reader {
            return None;
        }
        pin_among(&self.pins, reader, index).copied()
    }

    /// The first pin whose reader is owed the read of a page of this die.
    pub(crate) fn first_owed(&self, blocks: &BlockTable, die: u8) -> Option<Pin>
        ensures { result ≡ find (is_owed_by blocks.now.rows die) self.now.pins }
    {
        if self.wanted == 0 {
            return None;
        }
        // A READ wants one block after the other, and lets each go: mostly the first pin alone is wanted.
        match self.pins.front() {
            Some(first) if first.wants() == self.wanted => owed_alone(first, blocks, die),
            _ => owed_among(&self.pins, blocks, die).copied(),
        }
    }

    /// The page of this block of the reader is wanted from now on.
    pub(crate) fn want(&mut self, reader: u8, index: usize)
        ensures { self.new ≡ with_pins self.old (map (wanted_now reader index) self.old.pins) }
    {
        if self.reader == reader {
            if self.starts_at(index) {
                self.set_first(true);
            } else {
                self.want_within(reader, index);
            }
        }
    }

    /// The page of this block of the reader is wanted from now on, wherever its pin stands.
    fn want_within(&mut self, reader: u8, index: usize)
        ensures { self.new ≡ with_pins self.old (map (wanted_now reader index) self.old.pins) }
    {
        want(self.pins.make_contiguous(), reader, index);
        self.wanted = count_wanted(&self.pins);
    }

    /// The page of this block of the reader is no longer to be read.
    pub(crate) fn end_wants(&mut self, reader: u8, index: u16)
        ensures { self.new ≡ with_pins self.old (map (wanted_no_more reader index) self.old.pins) }
    {
        if self.reader == reader {
            if self.starts_at(index as usize) {
                self.set_first(false);
            } else {
                self.end_wants_within(reader, index);
            }
        }
    }

    /// The page of this block of the reader is no longer to be read, wherever its pin stands.
    fn end_wants_within(&mut self, reader: u8, index: u16)
        ensures { self.new ≡ with_pins self.old (map (wanted_no_more reader index) self.old.pins) }
    {
        end_wants(self.pins.make_contiguous(), reader, index);
        self.wanted = count_wanted(&self.pins);
    }

    /// Who kept the slot of this page keeps its place from now on, and is a pin of its block.
    pub(crate) fn move_to(&mut self, live: &mut LivePages, stored: Stored)
        ensures moved { self.new ≡ with_pins self.old (map (moved_pin stored) self.old.pins) }
        ensures blocks { live.new ≡ fold (pin_moves stored) live.old self.old.pins }
    {
        if self.slots == 0 {
            return;
        }
        let pins = self.pins.make_contiguous();
        pin_moves(live, pins, stored);
        move_pins(pins, stored);
        self.slots = count_slots(&self.pins);
    }

    /// The reader keeps nothing here any more: the block of each of its pins has one pin less. It
    /// tells whether no pin is left.
    pub(crate) fn drop_all(&mut self, live: &mut LivePages, reader: u8) -> bool
        ensures is { result ≡ (length self.new.pins == 0) }
        ensures left { self.new ≡
            with_pins self.old (filter (λ p. not (is_of_reader reader p)) self.old.pins) }
        ensures blocks { live.new ≡ fold (let_go (is_of_reader reader)) live.old self.old.pins }
    {
        if self.reader != reader {
            return self.pins.is_empty();
        }
        unpin_blocks(live, self.pins.make_contiguous(), reader);
        self.pins.clear();
        self.wanted = 0;
        self.slots = 0;
        true
    }

    /// This block of the reader is kept no more: its block has one pin less.
    pub(crate) fn drop_one(&mut self, live: &mut LivePages, reader: u8, index: u16)
        ensures left { self.new ≡
            with_pins self.old (filter (λ p. not (is_pin_of reader index p)) self.old.pins) }
        ensures blocks { live.new ≡ fold (let_go (is_pin_of reader index)) live.old self.old.pins }
    {
        if self.reader == reader {
            if self.starts_at(index as usize) {
                self.drop_first(live);
            } else {
                self.drop_within(live, reader, index);
            }
        }
    }

    /// Whether its first pin has this index.
    fn starts_at(&self, index: usize) -> bool
        ensures { result ≡ starts_at index self.now.pins }
    {
        match self.pins.front() {
            Some(pin) => pin.index as usize == index,
            None => false,
        }
    }

    /// The page of the first pin is wanted from now on, or no longer to be read.
    fn set_first(&mut self, wanted: bool)
        ensures { self.new ≡ with_pins self.old (first_set wanted self.old.pins) }
    {
        if let Some(pin) = self.pins.pop_front() {
            self.wanted -= pin.wants();
            let mut now = pin;
            now.wanted = wanted;
            self.wanted += now.wants();
            self.pins.push_front_reserved(now);
        }
    }

    /// The first pin is kept no more: its block has one pin less.
    fn drop_first(&mut self, live: &mut LivePages)
        ensures left { self.new ≡ with_pins self.old (drop 1 self.old.pins) }
        ensures blocks { live.new ≡ fold first_let_go live.old (take 1 self.old.pins) }
    {
        if let Some(first) = self.pins.pop_front() {
            unpin_block(live, &first.looked);
            self.wanted -= first.wants();
            self.slots -= first.slots();
        }
    }

    /// This block of the reader is kept no more, wherever its pin stands.
    fn drop_within(&mut self, live: &mut LivePages, reader: u8, index: u16)
        ensures left { self.new ≡
            with_pins self.old (filter (λ p. not (is_pin_of reader index p)) self.old.pins) }
        ensures blocks { live.new ≡ fold (let_go (is_pin_of reader index)) live.old self.old.pins }
    {
        unpin_block_of(live, self.pins.make_contiguous(), reader, index);
        drop_among(&mut self.pins, reader, index);
        self.wanted = count_wanted(&self.pins);
        self.slots = count_slots(&self.pins);
    }
}
