//! The newest pending page of a key, while pages of it come and leave.
use row_messages::row_config;
use std::test::Fail;
use ufs_spec::{Key, Tag};
use write_cache::Cache;

/// A block of a unit.
fn block_key(unit: u8, address: u32) -> Key {
    Key {
        kind: Tag::DATA,
        unit,
        address,
    }
}

/// A group of so many blocks is accepted, from this block of the unit on.
fn write(cache: &mut Cache, blocks: u16, unit: u8, address: u32) {
    if cache.reserve(3, blocks) && cache.has_number() {
        let _number = cache.append(3, block_key(unit, address));
    }
}

/// Whether the newest pending page of the block is of the group with this number.
fn is_newest(cache: &Cache, unit: u8, address: u32, number: u64) -> bool {
    match cache.last_page(block_key(unit, address)) {
        Some(page) => page.number == number,
        None => false,
    }
}

/// Whether no page of the block is pending.
fn has_none(cache: &Cache, unit: u8, address: u32) -> bool {
    cache.last_page(block_key(unit, address)).is_none()
}

/// The second group writes over two of the three blocks of the first, and the third writes the last
/// block of a unit and one behind it, which no unit has. Pages leave until the second group has one
/// left.
#[test]
fn the_newest_page_of_a_block_is_found(rt: HostRuntime) -> Result<(), Fail> {
    let mut cache = Cache::new(rt.alloc(), row_config()?, 8, 7)?;
    assert!(rt; has_none(&cache, 0, 5));
    write(&mut cache, 3, 0, 5);
    write(&mut cache, 2, 0, 6);
    write(&mut cache, 2, 1, 63);
    assert!(rt; cache.pending() == 7);
    assert!(rt; is_newest(&cache, 0, 5, 8));
    assert!(rt; is_newest(&cache, 0, 6, 9) && is_newest(&cache, 0, 7, 9));
    assert!(rt; is_newest(&cache, 1, 63, 10) && is_newest(&cache, 1, 64, 10));
    assert!(rt; has_none(&cache, 2, 0) && has_none(&cache, 0, 0) && has_none(&cache, 9, 5));
    for _ in 0..4 {
        let _page = cache.land();
    }
    assert!(rt; has_none(&cache, 0, 5) && has_none(&cache, 0, 6));
    assert!(rt; is_newest(&cache, 0, 7, 9) && is_newest(&cache, 1, 64, 10));
    Ok(())
}
