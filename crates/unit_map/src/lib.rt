//! The unit map: where the durable content of each key is.
#![tactic(auto)]

ghost use Rattle.std.specs.Prelude.{◌≡◌, ◌≢◌, ◌<◌, ◌≤◌, IfOk, IfSome, None, Some, length, slice_get};
ghost use Rattle.geometry.specs.Keys.{key_total};
ghost use Rattle.ufs_spec.specs.Keys.{IsKey};
ghost use Rattle.ufs_spec.specs.Plain.{shape_of_numbers};
ghost use Rattle.ufs_spec.specs.declared.flash.Key.{Key};
ghost use Rattle.unit_map.specs.Places.{flat, name_there, places_noted, position_of, stored_in};
ghost use Rattle.unit_map.specs.declared.Stored.{Stored};

mod key_table;

use self::key_table::KeyTable;
use geometry::{Config, key_at, key_count, key_index};
use std::alloc::{AllocError, Global};
use std::marker::Model;
use ufs_spec::{Key, Name, Place};

/// The page with the newest durable content of a key: its name, and where it stands.
#[derive(Clone, Copy, Debug, Default, PartialEq, Eq)]
pub struct Stored {
    pub name: Name,
    pub place: Place,
}

/// Of which key the content stands there, with the name of its page.
#[derive(Clone, Copy, Debug, Default, PartialEq, Eq)]
pub struct KeyedName {
    pub key: Key,
    pub name: Name,
}

/// A map from each key of a device (kind, unit and address) to the page that has its durable content,
/// if one has, and back. It takes 4 bytes for each page of the dies beside what it keeps of each key.
///
/// Its invariant (`IsNoted`): the table finds each key by the page of its content.
#[derive(Drop)]
pub struct UnitMap {
    /// The configuration, which says what keys there are.
    config: Config,
    /// Where the content of each key is, in the order of keys.
    places: Vec<Option<Stored>>,
    /// Which key has its content on a page.
    table: KeyTable,
}

impl Model for UnitMap {
    ghost use Rattle.unit_map.specs.Places.{UnitMap as Map};

    ghost Value = { Map };

    ghost use Rattle.unit_map.specs.Rooms.{IsNoted, map_of};

    ghost view = { map_of };

    ghost invariant = { IsNoted };
}

impl UnitMap {
    /// The map over a list of all keys' places, in the order of keys. A key behind its end has none.
    /// It looks at each key once.
    ///
    /// # Errors
    ///
    /// Only if memory was refused.
    pub fn new(
        alloc: Global,
        config: Config,
        places: Vec<Option<Stored>>,
    ) -> Result<UnitMap, AllocError>
        ensures { IfOk result (λ m. m ≡ record { numbers = config; places = places.items }) }
    {
        let table = KeyTable::new(alloc, config.numbers(), places.as_slice())?;
        Ok(UnitMap {
            config,
            places,
            table,
        })
    }

    /// Where the content of the key is; `None` if it is nowhere, or if the device has not this key.
    pub fn get(&self, key: Key) -> Option<Stored>
        ensures { result ≡ stored_in self.now.numbers self.now.places key }
    {
        let index = key_index(self.config.numbers(), key)?;
        stored_at(self.places.as_slice(), index)
    }

    /// Which key's content is on the page there, if one's is. It looks at one key, unless two were
    /// ever noted on one page, or the dies have no such page: then it looks at all.
    pub fn name_there(&self, place: Place) -> Option<KeyedName>
        ensures found { IfSome result (λ n. stored_in self.now.numbers self.now.places n.key ≡
            Some (record { name = n.name; place = place })) }
        ensures none { result ≡ None → (k : Key) → (s : Stored) →
            stored_in self.now.numbers self.now.places k ≡ Some s → s.place ≡ place → ⊥ }
    {
        match self.table.key_there(self.config.numbers(), place) {
            Some(index) => self.named_at(index, place),
            None => self.search(place),
        }
    }

    /// Which key's content is on the page there, if one's is. It looks at the keys in order until
    /// it is found.
    fn search(&self, place: Place) -> Option<KeyedName>
        ensures found { IfSome result (λ n. stored_in self.now.numbers self.now.places n.key ≡
            Some (record { name = n.name; place = place })) }
        ensures none { result ≡ None → (k : Key) → (s : Stored) →
            stored_in self.now.numbers self.now.places k ≡ Some s → s.place ≡ place → ⊥ }
    {
        for index in 0..key_count(self.config.numbers()) {
            if let Some(named) = self.named_at(index, place) {
                return Some(named);
            }
        }
        None
    }

    /// The key with this index and the name of its content's page, if that is the page there.
    fn named_at(&self, index: usize, place: Place) -> Option<KeyedName>
        requires { index < key_total (shape_of_numbers self.now.numbers) }
        ensures found { IfSome result (λ n. stored_in self.now.numbers self.now.places n.key ≡
            Some (record { name = n.name; place = place })) }
        ensures none { result ≡ None → name_there place (slice_get self.now.places index) ≡ None }
    {
        let name = name_at(self.places.as_slice(), index, place)?;
        let key = key_at(self.config.numbers(), index);
        Some(KeyedName { key, name })
    }

    /// The content of the key is there from now on. Of a key that the device has not, nothing is noted.
    pub fn set(&mut self, key: Key, stored: Stored)
        ensures after { self.new ≡ record self.old {
          places = places_noted self.old.places stored (position_of self.old.numbers key);
        } }
        ensures there { key_total (shape_of_numbers self.old.numbers) ≤ length self.old.places →
            IsKey (shape_of_numbers self.old.numbers) key →
            stored_in self.new.numbers self.new.places key ≡ Some stored }
        ensures others { (other : Key) → other ≢ key →
            stored_in self.new.numbers self.new.places other ≡ stored_in self.old.numbers self.old.places other }
    {
        if let Some(index) = key_index(self.config.numbers(), key) {
            if index < self.places.len() {
                let places = self.places.as_slice();
                self.table
                    .note(self.config.numbers(), places, index, stored.place);
                self.places[index] = Some(stored);
            }
        }
    }
}

/// Where the content of the key with this index is, by a list of all keys' places, in the order of
/// keys; `None` if it is nowhere.
pub fn stored_at(places: &[Option<Stored>], index: usize) -> Option<Stored>
    ensures { result ≡ flat (slice_get places.now index) }
{
    places.get(index).copied().flatten()
}

/// The name of the content's page, if the content of the key with this index is on the page there.
fn name_at(places: &[Option<Stored>], index: usize, place: Place) -> Option<Name>
    ensures { result ≡ name_there place (slice_get places.now index) }
{
    let stored = stored_at(places, index)?;
    if stored.place == place {
        Some(stored.name)
    } else {
        None
    }
}
