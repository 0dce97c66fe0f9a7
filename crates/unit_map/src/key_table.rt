//! The table from pages to keys: of which key a content was last noted on each page of the dies.
ghost use Rattle.std.specs.Prelude.{◌≡◌, ◌+◌, ◌<◌, ◌||◌, IfOk, length};
ghost use Rattle.geometry.specs.Keys.{key_total};
ghost use Rattle.ufs_spec.specs.Configs.{InRange};
ghost use Rattle.ufs_spec.specs.Plain.{shape_of_numbers};
ghost use Rattle.unit_map.specs.Tables.{IsTable, IsTableOf, is_other_there, is_taken, key_there, keys_noted, page_index, page_total};

use crate::{Stored, name_at, stored_at};
use geometry::key_count;
use std::alloc::{AllocError, Global};
use ufs_spec::{Numbers, Place};

/// Of each page of the dies the key whose content was last noted there. It takes 4 bytes a page.
///
/// Nothing is ever taken out of it: an entry counts only while the content of its key still stands
/// on that page. Its invariant (`IsTable`): it has an entry for each page, which is the index of a
/// key; and unless it is shared, each key whose content stands on a page of the dies is the one
/// that it has there.
#[derive(Drop)]
pub struct KeyTable {
    /// The index of that key among all keys, and 0 where none was noted yet, in order of die, block
    /// and page.
    keys: Vec<u32>,
    /// Whether a key was ever noted on a page where the content of another one still stood. It then
    /// stays so.
    shared: bool,
}

impl KeyTable {
    /// The table of contents that stand so, in the order of keys.
    ///
    /// # Errors
    ///
    /// Only if memory was refused.
    pub fn new(
        alloc: Global,
        numbers: &Numbers,
        places: &[Option<Stored>],
    ) -> Result<KeyTable, AllocError>
        requires { InRange numbers.now }
        ensures { IfOk result (λ t. IsTable numbers.now places.now t) }
    {
        let mut table = KeyTable {
            keys: vec![in alloc; 0; page_count(numbers)]?,
            shared: false,
        };
        for index in 0..key_count(numbers) {
            table.note_next(numbers, places, index);
        }
        Ok(table)
    }

    /// The next key is noted where its content stands, if it has one.
    fn note_next(&mut self, numbers: &Numbers, places: &[Option<Stored>], index: usize)
        requires in_range { InRange numbers.now }
        requires known { index < key_total (shape_of_numbers numbers.now) }
        requires before { IsTableOf numbers.now places.now index self.old }
        ensures { IsTableOf numbers.now places.now (index + 1) self.new }
    {
        if let Some(stored) = stored_at(places, index) {
            self.note(numbers, places, index, stored.place);
        }
    }

    /// The key with this index has its content there from now on. The contents of all other keys
    /// stand so.
    pub fn note(&mut self, numbers: &Numbers, places: &[Option<Stored>], index: usize, place: Place)
        requires in_range { InRange numbers.now }
        requires known { index < key_total (shape_of_numbers numbers.now) }
        requires room { length self.old.keys.items ≡ page_total numbers.now }
        ensures keys { self.new.keys.items ≡
            keys_noted self.old.keys.items (page_index numbers.now place) index }
        ensures shared { self.new.shared ≡ (self.old.shared
            || is_taken places.now self.old.keys.items (page_index numbers.now place) place index) }
    {
        let Some(page) = page_index(numbers, place) else {
            return;
        };
        let last = self.keys[page] as usize;
        self.shared |= is_other_there(places, place, index, last);
        self.keys[page] = index as u32;
    }

    /// The index of the only key whose content may stand there; `None` if the table cannot tell.
    pub fn key_there(&self, numbers: &Numbers, place: Place) -> Option<usize>
        ensures { result ≡ key_there numbers.now self.now place }
    {
        if self.shared {
            return None;
        }
        let page = page_index(numbers, place)?;
        let key = self.keys.get(page).copied()?;
        Some(key as usize)
    }
}

/// Whether the last key is another one than the one with this index, and its content stands there.
fn is_other_there(places: &[Option<Stored>], place: Place, index: usize, last: usize) -> bool
    ensures { result ≡ is_other_there places.now place index last }
{
    last != index && name_at(places, last, place).is_some()
}

/// How many pages the dies have.
fn page_count(numbers: &Numbers) -> usize
    ensures { result ≡ page_total numbers.now }
{
    numbers.dies as usize * numbers.blocks as usize * numbers.pages as usize
}

/// The index of the page among all pages of the dies, which stand by die, then by block; `None` if
/// there is no such page.
fn page_index(numbers: &Numbers, place: Place) -> Option<usize>
    ensures { result ≡ page_index numbers.now place }
{
    if place.die < numbers.dies && place.block < numbers.blocks && place.page < numbers.pages {
        let block = place.die as usize * numbers.blocks as usize + place.block as usize;
        Some(block * numbers.pages as usize + place.page as usize)
    } else {
        None
    }
}
