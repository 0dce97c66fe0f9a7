//! Where the newest pending page of each key stands.
ghost use Rattle.std.specs.Prelude.{◌≡◌, ◌<◌, IfOk, IfSome, length, option_copied, position};
ghost use Rattle.std.specs.Prelude.{replicate, reverse, slice_get};
ghost use Rattle.geometry.specs.Keys.{key_total};
ghost use Rattle.ufs_spec.specs.Plain.{shape_of_numbers};
ghost use Rattle.write_cache.specs.Newest.{index_in, page_if, place_noted, positions_noted};
ghost use Rattle.write_cache.specs.Slots.{is_page_of, last_page};

use crate::slots::Pending;
use geometry::{Config, key_count, key_index};
use std::alloc::{AllocError, Global};
use std::collections::VecDeque;
use ufs_spec::Key;

/// At which position the newest pending page of each key stands, if one is pending. It takes two
/// bytes a key.
///
/// Nothing is ever taken out of it: an entry counts only while the page at its position is of its
/// key. The queue of pages keeps what it rests on (`IsNewest`): each key of the configuration has
/// an entry, and while a page of the key is pending, the entry is the position of the last one.
#[derive(Drop)]
pub(crate) struct Newest {
    /// The configuration, which says what keys there are.
    config: Config,
    /// The position that was noted last for each key, and 0 where none was yet, in the order of
    /// keys.
    at: Vec<u16>,
}

impl Newest {
    /// The table of a queue that has no page.
    ///
    /// # Errors
    ///
    /// Only if memory was refused.
    pub(crate) fn new(alloc: Global, config: Config) -> Result<Newest, AllocError>
        ensures at { IfOk result (λ t. t.at.items ≡
            replicate (key_total (shape_of_numbers config)) 0) }
        ensures config { IfOk result (λ t. t.config ≡ config) }
    {
        let at = vec![in alloc; 0; key_count(config.numbers())]?;
        Ok(Newest { config, at })
    }

    /// The newest page of the key stands at this position from now on. Of a key that no device of
    /// this configuration has nothing is noted.
    pub(crate) fn note_at(&mut self, key: Key, position: u16)
        ensures at { self.new.at.items ≡
            positions_noted self.old.at.items position (index_in self.old key) }
        ensures config { self.new.config ≡ self.old.config }
    {
        if let Some(index) = key_index(self.config.numbers(), key) {
            if let Some(entry) = self.at.get_mut(index) {
                *entry = position;
            }
        }
    }

    /// How far behind the first page, which stands at this position, the page stands that was
    /// noted last for the key, if that is still pending. `None` if no device of this configuration
    /// has the key.
    pub(crate) fn place_of(&self, key: Key, landed: u16) -> Option<usize>
        ensures { result ≡ place_noted self.now landed key }
    {
        let index = key_index(self.config.numbers(), key)?;
        let position = self.at.get(index).copied()?;
        Some(position.wrapping_sub(landed) as usize)
    }
}

/// The page at this place, if it is of the key.
pub(super) fn page_if_of(pages: &VecDeque<Pending>, at: usize, key: Key) -> Option<&Pending>
    ensures { option_copied result ≡ page_if key (slice_get pages.now.items at) }
{
    let page = pages.get(at)?;
    if page.is_of(key) { Some(page) } else { None }
}

/// The last of the pages that is of the key. It looks at them from behind.
pub(super) fn last_among(pages: &VecDeque<Pending>, key: Key) -> Option<&Pending>
    ensures { option_copied result ≡ last_page key pages.now.items }
{
    let behind = pages_behind(pages, key)?;
    pages.get(pages.len() - 1 - behind)
}

/// How many pages are behind the last one that is of the key.
fn pages_behind(pages: &VecDeque<Pending>, key: Key) -> Option<usize>
    ensures what { result ≡ position (is_page_of key) (reverse pages.now.items) }
    ensures less { IfSome result (λ k. k < length pages.now.items) }
{
    pages.iter().rev().position(|page| page.is_of(key))
}
