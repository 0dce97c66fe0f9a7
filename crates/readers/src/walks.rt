//! Walks over pins that lie in one row of memory.
ghost use Rattle.std.specs.Prelude.{◌≡◌, ◌≤◌, filter, find, length, map, not, option_copied};
ghost use Rattle.std.specs.Prelude.{vec_capacity};
ghost use Rattle.readers.specs.Pins.{is_of_reader, is_owed_by, is_pin_of, moved_pin};
ghost use Rattle.readers.specs.Pins.{wanted_no_more, wanted_now};

use crate::pin::Pin;
use block_table::BlockTable;
use unit_map::Stored;

/// The reader keeps nothing any more.
pub(crate) fn drop_pins(pins: &mut Vec<Pin>, reader: u8)
    ensures left { pins.new.items ≡ filter (λ p. not (is_of_reader reader p)) pins.old.items }
    ensures room { vec_capacity pins.new ≡ vec_capacity pins.old }
    ensures fewer { length pins.new.items ≤ length pins.old.items }
{
    pins.retain(|pin| !pin.is_of_reader(reader));
}

/// This block of the reader is kept no more.
pub(crate) fn drop_pin(pins: &mut Vec<Pin>, reader: u8, index: u16)
    ensures left { pins.new.items ≡ filter (λ p. not (is_pin_of reader index p)) pins.old.items }
    ensures room { vec_capacity pins.new ≡ vec_capacity pins.old }
    ensures fewer { length pins.new.items ≤ length pins.old.items }
{
    pins.retain(|pin| !pin.is_of(reader, index));
}

/// The page of this block of the reader is wanted from now on.
pub(crate) fn want(pins: &mut [Pin], reader: u8, index: usize)
    ensures { pins.new ≡ map (wanted_now reader index) pins.old }
{
    for pin in pins.iter_mut() {
        *pin = pin.wanted_now(reader, index);
    }
}

/// The page of this block of the reader is no longer to be read.
pub(crate) fn end_wants(pins: &mut [Pin], reader: u8, index: u16)
    ensures { pins.new ≡ map (wanted_no_more reader index) pins.old }
{
    for pin in pins.iter_mut() {
        *pin = pin.wanted_no_more(reader, index);
    }
}

/// Who kept the slot of this page keeps its place from now on.
pub(crate) fn move_pins(pins: &mut [Pin], stored: Stored)
    ensures { pins.new ≡ map (moved_pin stored) pins.old }
{
    for pin in pins.iter_mut() {
        *pin = pin.moved(stored);
    }
}

/// The pin of this block of the reader; `None` where there is none.
pub(crate) fn pin_found(pins: &[Pin], reader: u8, index: u16) -> Option<&Pin>
    ensures { option_copied result ≡ find (is_pin_of reader index) pins.now }
{
    pins.iter().find(|pin| pin.is_of(reader, index))
}

/// The first pin whose reader is owed the read of a page of this die.
pub(crate) fn owed_in<'a>(pins: &'a [Pin], blocks: &BlockTable, die: u8) -> Option<&'a Pin>
    ensures { option_copied result ≡ find (is_owed_by blocks.now.rows die) pins.now }
{
    pins.iter().find(|pin| pin.is_owed(blocks, die))
}
