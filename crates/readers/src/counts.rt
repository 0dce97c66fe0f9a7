//! How many pins each block has: one for each page of it that a reader keeps.
ghost use Rattle.std.specs.Prelude.{◌≡◌, fold};
ghost use Rattle.readers.specs.Pins.{block_pinned, block_unpinned, is_of_reader, is_pin_of, is_slot_of};
ghost use Rattle.readers.specs.Pins.{let_go, pin_moves, without_pins};

use crate::pin::Pin;
use block_table::LivePages;
use ufs_spec::Looked;
use unit_map::Stored;

/// The block of the page that is looked at has one pin more, if a page is looked at.
pub fn pin_block(live: &mut LivePages, looked: &Looked)
    ensures is { live.new ≡ block_pinned live.old looked.now }
    ensures same { without_pins live.new ≡ without_pins live.old }
{
    if let Looked::OnPage(_, place) = looked {
        live.pin(place.die, place.block);
    }
}

/// The block of the page that is looked at has one pin less, if a page is looked at.
pub fn unpin_block(live: &mut LivePages, looked: &Looked)
    ensures is { live.new ≡ block_unpinned live.old looked.now }
    ensures same { without_pins live.new ≡ without_pins live.old }
{
    if let Looked::OnPage(_, place) = looked {
        live.unpin(place.die, place.block);
    }
}

/// A pin of this reader goes.
fn let_go(live: &mut LivePages, pin: &Pin, reader: u8)
    ensures { live.new ≡ let_go (is_of_reader reader) live.old pin.now }
{
    if pin.is_of_reader(reader) {
        unpin_block(live, &pin.looked);
    }
}

/// A pin of this block of the reader goes.
fn let_go_of(live: &mut LivePages, pin: &Pin, reader: u8, index: u16)
    ensures { live.new ≡ let_go (is_pin_of reader index) live.old pin.now }
{
    if pin.is_of(reader, index) {
        unpin_block(live, &pin.looked);
    }
}

/// The pins of this reader go.
pub(crate) fn unpin_blocks(live: &mut LivePages, pins: &[Pin], reader: u8)
    ensures is { live.new ≡ fold (let_go (is_of_reader reader)) live.old pins.now }
{
    for pin in pins.iter() {
        let_go(live, pin, reader);
    }
}

/// The pins of this block of the reader go.
pub(crate) fn unpin_block_of(live: &mut LivePages, pins: &[Pin], reader: u8, index: u16)
    ensures is { live.new ≡ fold (let_go (is_pin_of reader index)) live.old pins.now }
{
    for pin in pins.iter() {
        let_go_of(live, pin, reader, index);
    }
}

/// Whether the slot of this page is looked at.
fn is_slot_of(looked: &Looked, stored: Stored) -> bool
    ensures { result ≡ is_slot_of stored looked.now }
{
    match *looked {
        Looked::InSlot(name) => name == stored.name,
        _ => false,
    }
}

/// A pin of the slot of this page is one of the block where the page stands now.
fn pin_moves_to(live: &mut LivePages, pin: &Pin, stored: Stored)
    ensures { live.new ≡ pin_moves stored live.old pin.now }
{
    if is_slot_of(&pin.looked, stored) {
        live.pin(stored.place.die, stored.place.block);
    }
}

/// The pins of the slot of this page are those of the block where the page stands now.
pub(crate) fn pin_moves(live: &mut LivePages, pins: &[Pin], stored: Stored)
    ensures is { live.new ≡ fold (pin_moves stored) live.old pins.now }
{
    for pin in pins.iter() {
        pin_moves_to(live, pin, stored);
    }
}
