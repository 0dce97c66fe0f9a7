//! What readers keep: each block of a reader once, in the order in which they were kept.
ghost use Rattle.std.specs.Prelude.{◌≡◌, ◌<◌, ◌++◌, ◌∷◌, [], IfOk, filter, find, fold, length};
ghost use Rattle.std.specs.Prelude.{List, map, not};
ghost use Rattle.readers.specs.Pins.{is_of_reader, is_owed_by, is_pin_of, let_go, most_pins};
ghost use Rattle.readers.specs.Pins.{moved_pin, pin_moves, wanted_no_more, wanted_now, without_pins};

use crate::counts::{pin_moves, unpin_block_of, unpin_blocks};
use crate::pin::Pin;
use crate::row::Row;
use crate::rows::{
    count_in, drop_all_in, drop_one_in, end_wants_in, find_in, first_owed_in, move_in, push_in,
    spare_rows, want_in,
};
use crate::walks::{drop_pin, drop_pins, end_wants, move_pins, owed_in, pin_found, want};
use block_table::{BlockTable, LivePages};
use std::alloc::{AllocError, Global};
use std::marker::Model;
use ufs_spec::{GREATEST_COMMAND, MOST_TASKS};
use unit_map::Stored;

/// How many blocks readers may keep: each task those of a command.
pub const MOST_PINS: usize = MOST_TASKS * GREATEST_COMMAND as usize;

/// What readers keep, each block of a reader once, in the order in which they came: at most 4096,
/// with room for all of them. They lie in at most 32 rows of one reader each, so that a call looks
/// into those of its reader alone. All memory is taken by `new`.
#[derive(Drop)]
pub struct Pins {
    /// The rows in use, in the order in which their first pins came.
    rows: Vec<Row>,
    /// The rows that are not in use: with those in use they are at most 32.
    spare: Vec<Row>,
    /// The pins that came once no row had room: they are behind those of all rows.
    rest: Vec<Pin>,
}

impl Model for Pins {
    ghost use Rattle.std.specs.Prelude.{List};
    ghost use Rattle.readers.specs.declared.pin.Pin.{Pin};

    ghost Value = { List Pin };

    ghost use Rattle.readers.specs.PinRows.{pins_of, HasRoom};

    ghost view = { pins_of };

    ghost invariant = { HasRoom };
}

impl Pins {
    /// Room for all pins, and none yet.
    pub fn new(alloc: Global) -> Result<Pins, AllocError>
        ensures { IfOk result (λ p. p ≡ []) }
    {
        Ok(Pins {
            rows: Vec::with_capacity(alloc, MOST_TASKS)?,
            spare: spare_rows(alloc)?,
            rest: Vec::with_capacity(alloc, MOST_PINS)?,
        })
    }

    /// How many there are.
    pub fn len(&self) -> usize
        ensures { result ≡ length self.now }
    {
        count_in(self.rows.as_slice()) + self.rest.len()
    }

    /// One pin more, behind all others.
    pub fn push(&mut self, pin: Pin)
        requires room { length self.old < most_pins }
        ensures { self.new ≡ self.old ++ pin ∷ [] }
    {
        if !self.rest.is_empty() || !push_in(&mut self.rows, &mut self.spare, pin) {
            self.rest.push_reserved(pin);
        }
    }

    /// The pin of this block of the reader; `None` where there is none.
    pub fn find(&self, reader: u8, index: u16) -> Option<Pin>
        ensures { result ≡ find (is_pin_of reader index) self.now }
    {
        let found = find_in(self.rows.as_slice(), reader, index);
        if found.is_some() {
            return found;
        }
        pin_found(self.rest.as_slice(), reader, index).copied()
    }

    /// The first pin whose reader is owed the read of a page of this die.
    pub fn first_owed(&self, blocks: &BlockTable, die: u8) -> Option<Pin>
        ensures { result ≡ find (is_owed_by blocks.now.rows die) self.now }
    {
        let found = first_owed_in(self.rows.as_slice(), blocks, die);
        if found.is_some() {
            return found;
        }
        owed_in(self.rest.as_slice(), blocks, die).copied()
    }

    /// The page of this block of the reader is wanted from now on.
    pub fn want(&mut self, reader: u8, index: usize)
        ensures { self.new ≡ map (wanted_now reader index) self.old }
    {
        want_in(self.rows.as_mut_slice(), reader, index);
        want(self.rest.as_mut_slice(), reader, index);
    }

    /// The page of this block of the reader is no longer to be read.
    pub fn end_wants(&mut self, reader: u8, index: u16)
        ensures { self.new ≡ map (wanted_no_more reader index) self.old }
    {
        end_wants_in(self.rows.as_mut_slice(), reader, index);
        end_wants(self.rest.as_mut_slice(), reader, index);
    }

    /// The reader keeps nothing any more: the block of each of its pins has one pin less.
    pub fn drop_all(&mut self, live: &mut LivePages, reader: u8)
        ensures left { self.new ≡ filter (λ p. not (is_of_reader reader p)) self.old }
        ensures blocks { live.new ≡ fold (let_go (is_of_reader reader)) live.old self.old }
        ensures same { without_pins live.new ≡ without_pins live.old }
    {
        drop_all_in(&mut self.rows, &mut self.spare, live, reader);
        unpin_blocks(live, self.rest.as_slice(), reader);
        drop_pins(&mut self.rest, reader);
    }

    /// This block of the reader is kept no more: its block has one pin less.
    pub fn drop_one(&mut self, live: &mut LivePages, reader: u8, index: u16)
        ensures left { self.new ≡ filter (λ p. not (is_pin_of reader index p)) self.old }
        ensures blocks { live.new ≡ fold (let_go (is_pin_of reader index)) live.old self.old }
        ensures same { without_pins live.new ≡ without_pins live.old }
    {
        drop_one_in(self.rows.as_mut_slice(), live, reader, index);
        unpin_block_of(live, self.rest.as_slice(), reader, index);
        drop_pin(&mut self.rest, reader, index);
    }

    /// Who kept the slot of this page keeps its place from now on, and is a pin of its block.
    pub fn move_to(&mut self, live: &mut LivePages, stored: Stored)
        ensures moved { self.new ≡ map (moved_pin stored) self.old }
        ensures blocks { live.new ≡ fold (pin_moves stored) live.old self.old }
        ensures same { without_pins live.new ≡ without_pins live.old }
    {
        move_in(self.rows.as_mut_slice(), live, stored);
        pin_moves(live, self.rest.as_slice(), stored);
        move_pins(self.rest.as_mut_slice(), stored);
    }
}
