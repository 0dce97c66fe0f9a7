//! Which pending page is written at a place of the dies, and which waits for its rest, as plain
//! searches find them, while pages come, are written, have their rests, and leave.
use crate::cache_rests::{area_page, settings_page, write};
use crate::victim_searches::next;
use row_messages::row_config;
use std::test::Fail;
use ufs_spec::{Name, Place};
use write_cache::{Cache, RestSource};

/// The place of the number, on one of four dies or on a fifth, which the device has not.
fn place_of(number: u64) -> Place {
    Place {
        die: (number % 5) as u8,
        block: (number / 5 % 16) as u16,
        page: (number / 80 % 64) as u16,
    }
}

/// The name of the first pending page that is written there.
fn name_there(cache: &Cache, place: Place) -> Option<Name> {
    for at in 0..cache.pending() {
        let page = cache.page(at)?;
        if page.written == Some(place) {
            return Some(page.name());
        }
    }
    None
}

/// The first position from this one on whose page waits for its rest.
fn waiting_from(cache: &Cache, from: usize) -> Option<usize> {
    for at in from..cache.pending() {
        if cache.page(at)?.awaited().is_some() {
            return Some(at);
        }
    }
    None
}

/// Whether the page that the cache has there is the one that the search finds.
fn is_alike_there(cache: &Cache, place: Place) -> bool {
    let found = name_there(cache, place);
    match cache.page_there(place) {
        Some(page) => found == Some(page.name()),
        None => found.is_none(),
    }
}

/// Whether it is so at the places of this number and the 79 before it.
fn are_alike_there(cache: &Cache, number: u64) -> bool {
    for behind in 0..80u64 {
        if !is_alike_there(cache, place_of(number.saturating_sub(behind))) {
            return false;
        }
    }
    true
}

/// Whether the cache tells which pages wait, from each position on, as the search does.
fn are_waiting_alike(cache: &Cache) -> bool {
    for from in 0..41usize {
        if cache.first_waiting(from) != waiting_from(cache, from) {
            return false;
        }
    }
    true
}

/// A group comes of a page that waits for its rest and one that does not.
fn accept(cache: &mut Cache) {
    let name = Name {
        number: 2,
        index: 1,
    };
    let place = Place {
        die: 0,
        block: 3,
        page: 4,
    };
    let source = RestSource::Page { name, place };
    let pages = [
        area_page(5, 15, 1, &[0xA1; 256], source),
        settings_page(&[0x11; 4096]),
    ];
    let _number = write(cache, &pages);
}

/// The first page from this position on that waits has its rest.
fn fill(cache: &mut Cache, from: usize) {
    if let Some(at) = cache.first_waiting(from) {
        if let Some(page) = cache.page(at) {
            let name = page.name();
            cache.fill_rests(name, &[0xC1; 4096]);
        }
    }
}

/// The page at this position is written there.
fn mark(cache: &mut Cache, at: Option<usize>, place: Place) {
    if let Some(at) = at {
        if let Some(page) = cache.page(at) {
            let Name { number, index } = page.name();
            cache.mark_written(number, index, place);
        }
    }
}

/// The change of the number: a group comes, a rest comes, a page leaves, or one that can be
/// programmed is written there.
fn change(cache: &mut Cache, number: u64, place: Place) {
    let at = (number >> 32) as usize % 8;
    match number >> 61 {
        0 => accept(cache),
        1 => accept(cache),
        2 => fill(cache, at),
        3 => {
            let _page = cache.land();
        }
        _ => {
            let ready = cache.first_ready(at);
            mark(cache, ready, place);
        }
    }
}

/// Makes so many changes, with each page at a place of its own, or else now and then one at a place
/// of another or one that is written twice. How many were made before the cache and the searches
/// differed.
fn changes_alike(cache: &mut Cache, apart: bool) -> u64 {
    let mut number = 1;
    for step in 0..400u64 {
        number = next(number);
        change(cache, number, place_of(step));
        if !apart && step % 8 == 0 {
            mark(
                cache,
                Some((number >> 40) as usize % 16),
                place_of(step / 16),
            );
        }
        if !are_alike_there(cache, step) || !are_waiting_alike(cache) {
            return step;
        }
    }
    400
}

#[test]
fn pages_are_found_as_plain_searches_find_them(rt: HostRuntime) -> Result<(), Fail> {
    let mut cache = Cache::new(rt.alloc(), row_config()?, 40, 7)?;
    assert!(rt; changes_alike(&mut cache, true) == 400);
    assert!(rt; cache.pending() > 8 && cache.has_rests());
    Ok(())
}

#[test]
fn pages_that_share_a_place_are_found_as_well(rt: HostRuntime) -> Result<(), Fail> {
    let mut cache = Cache::new(rt.alloc(), row_config()?, 40, 7)?;
    assert!(rt; changes_alike(&mut cache, false) == 400);
    assert!(rt; cache.pending() > 8 && cache.has_rests());
    Ok(())
}
