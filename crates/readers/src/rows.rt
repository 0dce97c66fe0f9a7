//! Walks over rows of pins, one row behind the other.
ghost use Rattle.std.specs.Prelude.{◌≡◌, ◌+◌, ◌++◌, ◌≤◌, ◌∷◌, ◌||◌, [], IfOk, filter, find, fold};
ghost use Rattle.std.specs.Prelude.{if◌then◌else◌, length, map, nat_lt, not, vec_capacity};
ghost use Rattle.ufs_spec.specs.Exchanges.{most_tasks};
ghost use Rattle.readers.specs.Pins.{is_of_reader, is_owed_by, is_pin_of, let_go, most_pins};
ghost use Rattle.readers.specs.Pins.{moved_pin, pin_moves, wanted_no_more, wanted_now};
ghost use Rattle.readers.specs.Rows.{AreFilled, last_takes, pins_in};

use crate::pin::Pin;
use crate::row::Row;
use block_table::{BlockTable, LivePages};
use std::alloc::{AllocError, Global};
use ufs_spec::MOST_TASKS;
use unit_map::Stored;

/// Rows that hold no pin: one for each task.
pub(crate) fn spare_rows(alloc: Global) -> Result<Vec<Row>, AllocError>
    ensures long { IfOk result (λ v. length v.items ≡ most_tasks) }
    ensures room { IfOk result (λ v. most_tasks ≤ vec_capacity v) }
{
    let mut rows = Vec::with_capacity(alloc, MOST_TASKS)?;
    for _ in 0..MOST_TASKS {
        rows.push_reserved(Row::new(alloc)?);
    }
    Ok(rows)
}

/// How many pins the rows hold.
pub(crate) fn count_in(rows: &[Row]) -> usize
    requires { length rows.now ≤ most_tasks }
    ensures is { result ≡ length (pins_in rows.now) }
    ensures few { result ≤ most_pins }
{
    let mut count = 0;
    for row in rows.iter() {
        count += row.len();
    }
    count
}

/// The pin is behind all that the rows hold, if there is room: in the last row, if that takes it,
/// else in a row that was spare.
pub(crate) fn push_in(rows: &mut Vec<Row>, spare: &mut Vec<Row>, pin: Pin) -> bool
    requires few { length rows.old.items + length spare.old.items ≤ most_tasks }
    requires room { most_tasks ≤ vec_capacity rows.old }
    ensures is { result ≡
        (last_takes rows.old.items pin || nat_lt 0 (length spare.old.items)) }
    ensures pins { pins_in rows.new.items ≡
        pins_in rows.old.items ++ (if result then pin ∷ [] else []) }
    ensures as_many { length rows.new.items + length spare.new.items ≡
        length rows.old.items + length spare.old.items }
    ensures rows_room { vec_capacity rows.new ≡ vec_capacity rows.old }
    ensures spare_room { vec_capacity spare.new ≡ vec_capacity spare.old }
{
    if push_in_last(rows.as_mut_slice(), pin) {
        return true;
    }
    match spare.pop() {
        Some(mut row) => {
            row.begin(pin);
            rows.push_reserved(row);
            true
        }
        None => false,
    }
}

/// The pin is behind all that the rows hold, if the last row takes it.
fn push_in_last(rows: &mut [Row], pin: Pin) -> bool
    ensures is { result ≡ last_takes rows.old pin }
    ensures pins { pins_in rows.new ≡ pins_in rows.old ++ (if result then pin ∷ [] else []) }
{
    let count = rows.len();
    if count == 0 {
        return false;
    }
    rows[count - 1].push(pin)
}

/// The pin of this block of the reader; `None` where there is none.
pub(crate) fn find_in(rows: &[Row], reader: u8, index: u16) -> Option<Pin>
    ensures { result ≡ find (is_pin_of reader index) (pins_in rows.now) }
{
    for row in rows.iter() {
        let found = row.find(reader, index);
        if found.is_some() {
            return found;
        }
    }
    None
}

/// The first pin whose reader is owed the read of a page of this die.
pub(crate) fn first_owed_in(rows: &[Row], blocks: &BlockTable, die: u8) -> Option<Pin>
    ensures { result ≡ find (is_owed_by blocks.now.rows die) (pins_in rows.now) }
{
    for row in rows.iter() {
        let found = row.first_owed(blocks, die);
        if found.is_some() {
            return found;
        }
    }
    None
}

/// The page of this block of the reader is wanted from now on.
pub(crate) fn want_in(rows: &mut [Row], reader: u8, index: usize)
    ensures { pins_in rows.new ≡ map (wanted_now reader index) (pins_in rows.old) }
{
    for row in rows.iter_mut() {
        row.want(reader, index);
    }
}

/// The page of this block of the reader is no longer to be read.
pub(crate) fn end_wants_in(rows: &mut [Row], reader: u8, index: u16)
    ensures { pins_in rows.new ≡ map (wanted_no_more reader index) (pins_in rows.old) }
{
    for row in rows.iter_mut() {
        row.end_wants(reader, index);
    }
}

/// Who kept the slot of this page keeps its place from now on, and is a pin of its block.
pub(crate) fn move_in(rows: &mut [Row], live: &mut LivePages, stored: Stored)
    ensures moved { pins_in rows.new ≡ map (moved_pin stored) (pins_in rows.old) }
    ensures blocks { live.new ≡ fold (pin_moves stored) live.old (pins_in rows.old) }
{
    for row in rows.iter_mut() {
        row.move_to(live, stored);
    }
}

/// This block of the reader is kept no more: its block has one pin less.
pub(crate) fn drop_one_in(rows: &mut [Row], live: &mut LivePages, reader: u8, index: u16)
    ensures left { pins_in rows.new ≡
        filter (λ p. not (is_pin_of reader index p)) (pins_in rows.old) }
    ensures blocks { live.new ≡ fold (let_go (is_pin_of reader index)) live.old (pins_in rows.old) }
{
    for row in rows.iter_mut() {
        row.drop_one(live, reader, index);
    }
}

/// The reader keeps nothing any more: the block of each of its pins has one pin less. Each row that
/// then holds no pin is spare.
pub(crate) fn drop_all_in(
    rows: &mut Vec<Row>,
    spare: &mut Vec<Row>,
    live: &mut LivePages,
    reader: u8,
)
    requires few { length rows.old.items + length spare.old.items ≤ most_tasks }
    requires room { most_tasks ≤ vec_capacity spare.old }
    ensures left { pins_in rows.new.items ≡
        filter (λ p. not (is_of_reader reader p)) (pins_in rows.old.items) }
    ensures blocks { live.new ≡
        fold (let_go (is_of_reader reader)) live.old (pins_in rows.old.items) }
    ensures filled { AreFilled rows.new.items }
    ensures as_many { length rows.new.items + length spare.new.items ≡
        length rows.old.items + length spare.old.items }
    ensures rows_room { vec_capacity rows.new ≡ vec_capacity rows.old }
    ensures spare_room { vec_capacity spare.new ≡ vec_capacity spare.old }
{
    let mut at = 0;
    while at < rows.len() {
        if rows[at].drop_all(live, reader) {
            spare.push_reserved(rows.remove(at));
        } else {
            at += 1;
        }
    }
}
