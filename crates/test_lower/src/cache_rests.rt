//! Pages of the RPMB area that commands bring in part: what they wait for, and what the read of
//! their rest makes of them. An area page holds sixteen blocks of 256 bytes.
ghost use Rattle.std.specs.Prelude.{◌≡◌, ◌+◌, ◌*◌, ◌^◌, ◌<◌, ◌≤◌, All, length};
ghost use Rattle.write_cache.specs.Rests.{IsPart};

use row_messages::row_config;
use std::test::Fail;
use ufs_spec::{Key, Name, Place, Tag};
use write_cache::{Cache, NewPage, Part, RestSource};

/// Blocks of a page of the RPMB area as a command brings them, from this one on.
pub(crate) fn area_page<'a>(
    address: u32,
    first: u8,
    blocks: u8,
    bytes: &'a [u8],
    source: RestSource,
) -> NewPage<'a>
    requires long { length bytes.now ≡ 256 * blocks }
    requires within { first + blocks ≤ 16 }
    ensures { IsPart result }
{
    NewPage {
        key: Key {
            kind: Tag::RPMB_AREA,
            unit: 0,
            address,
        },
        part: Part { first, blocks },
        bytes,
        source,
    }
}

/// The settings page, which a command brings whole.
pub(crate) fn settings_page<'a>(bytes: &'a [u8]) -> NewPage<'a>
    requires { length bytes.now ≡ 4096 }
    ensures { IsPart result }
{
    NewPage {
        key: Key {
            kind: Tag::SETTINGS,
            unit: 0,
            address: 0,
        },
        part: Part {
            first: 0,
            blocks: 16,
        },
        bytes,
        source: RestSource::Nothing,
    }
}

/// A task claims three slots, and its group has these pages: the group's number.
pub(crate) fn write(cache: &mut Cache, pages: &[NewPage<'_>]) -> Option<u64>
    requires parts { All IsPart pages.now }
    requires few { length pages.now < 2 ^ 16 }
{
    if cache.reserve(3, 3) && cache.has_number() {
        Some(cache.append_pages(3, pages))
    } else {
        None
    }
}

/// Whether the content of the page with this number and index is all there, with this byte there.
fn has(cache: &Cache, number: u64, index: u16, at: usize, byte: u8) -> bool {
    match cache.page_named(number, index) {
        Some(page) => match page.content() {
            Some(block) => block.get(at).copied() == Some(byte),
            None => false,
        },
        None => false,
    }
}

/// Whether the page with this number and index is pending, and waits for its rest.
fn waits(cache: &Cache, number: u64, index: u16) -> bool {
    match cache.page_named(number, index) {
        Some(page) => page.rest.is_some() && page.content().is_none(),
        None => false,
    }
}

/// Writes over the area page in the slot of the second write, whose rest is there. The number.
fn write_over_the_slot(cache: &mut Cache) -> Option<u64> {
    let there = RestSource::Slot(Name {
        number: 9,
        index: 0,
    });
    write(
        cache,
        &[
            area_page(5, 0, 1, &[0xD1; 256], there),
            settings_page(&[0x33; 4096]),
        ],
    )
}

/// The first write has two area pages, of which one waits for the read of its page, and the
/// settings page. The second has another block of the same page, and waits for the same read; it
/// leaves a slot of its claim. The third comes when the read has ended.
#[test]
fn writes_of_one_area_page_stand_one_over_another(rt: HostRuntime) -> Result<(), Fail> {
    let mut cache = Cache::new(rt.alloc(), row_config()?, 8, 7)?;
    let name = Name {
        number: 8,
        index: 0,
    };
    let on_page = RestSource::Page {
        name: Name {
            number: 2,
            index: 1,
        },
        place: Place {
            die: 0,
            block: 3,
            page: 4,
        },
    };
    assert!(rt; !cache.has_rests());
    let first = write(
        &mut cache,
        &[
            area_page(5, 15, 1, &[0xA1; 256], on_page),
            area_page(6, 0, 2, &[0xA2; 512], RestSource::Nothing),
            settings_page(&[0x11; 4096]),
        ],
    );
    assert!(rt; first == Some(8));
    assert!(rt; cache.free_slots() == 5);
    assert!(rt; waits(&cache, 8, 0) && cache.has_rests());
    assert!(rt; has(&cache, 8, 1, 511, 0xA2) && has(&cache, 8, 1, 512, 0));
    assert!(rt; has(&cache, 8, 2, 4095, 0x11));
    let second = write(
        &mut cache,
        &[
            area_page(5, 14, 1, &[0xB1; 256], RestSource::Owed(name)),
            settings_page(&[0x22; 4096]),
        ],
    );
    assert!(rt; second == Some(9));
    assert!(rt; cache.free_slots() == 3 && cache.pending() == 5);
    assert!(rt; waits(&cache, 9, 0) && has(&cache, 9, 1, 0, 0x22));
    cache.fill_rests(name, &[0xC1; 4096]);
    assert!(rt; !cache.has_rests());
    assert!(rt; has(&cache, 8, 0, 3839, 0xC1) && has(&cache, 8, 0, 3840, 0xA1));
    assert!(rt; has(&cache, 9, 0, 3583, 0xC1) && has(&cache, 9, 0, 3584, 0xB1));
    assert!(rt; has(&cache, 9, 0, 3839, 0xB1) && has(&cache, 9, 0, 3840, 0xA1));
    assert!(rt; write_over_the_slot(&mut cache) == Some(10));
    assert!(rt; has(&cache, 10, 0, 255, 0xD1) && has(&cache, 10, 0, 256, 0xC1));
    assert!(rt; has(&cache, 10, 0, 3584, 0xB1) && has(&cache, 10, 0, 3840, 0xA1));
    assert!(rt; has(&cache, 9, 0, 0, 0xC1));
    Ok(())
}

/// A group takes the slots that its shortened claim has left, and the other slots are free. The
/// claim of another task stays.
#[test]
fn a_shortened_claim_keeps_its_first_slots(rt: HostRuntime) -> Result<(), Fail> {
    let mut cache = Cache::new(rt.alloc(), row_config()?, 8, 7)?;
    assert!(rt; cache.reserve(3, 5) && cache.reserve(4, 2));
    cache.release_behind(3, 2);
    assert!(rt; cache.free_slots() == 4);
    let key = Key {
        kind: Tag::DATA,
        unit: 0,
        address: 9,
    };
    if cache.has_number() {
        assert!(rt; cache.append(3, key) == 8);
    }
    assert!(rt; cache.pending() == 2 && cache.free_slots() == 4);
    cache.release_behind(4, 0);
    assert!(rt; cache.free_slots() == 6);
    Ok(())
}
