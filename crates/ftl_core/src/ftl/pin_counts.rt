//! The pins of blocks from which rests are still to be read: one for each such page.
ghost use Rattle.std.specs.Prelude.{◌≡◌, ◌≤◌, drop, fold, length, slice_get};
ghost use Rattle.readers.specs.Pins.{without_pins};
ghost use Rattle.ftl_core.specs.Rests.{first_unpinned, rest_pinned, rest_pinned_at, rest_unpinned, rest_unpinned_at};

use super::rests::rest_look;
use block_table::LivePages;
use readers::{pin_block, unpin_block};
use ufs_spec::Name;
use write_cache::Cache;

/// The block from which the rest of the page at this position is to be read has one pin more.
fn pin_rest(live: &mut LivePages, cache: &Cache, at: usize)
    ensures { live.new ≡ rest_pinned_at live.old (slice_get cache.now.pages at) }
{
    if let Some(page) = cache.page(at) {
        pin_block(live, &rest_look(&page.rest));
    }
}

/// The blocks from which the rests of pages behind so many are to be read have their pins.
pub(super) fn pin_rests(live: &mut LivePages, cache: &Cache, before: usize)
    requires { before ≤ length cache.now.pages }
    ensures is { live.new ≡ fold rest_pinned live.old (drop before cache.now.pages) }
    ensures same { without_pins live.new ≡ without_pins live.old }
{
    for at in before..cache.pending() {
        pin_rest(live, cache, at);
    }
}

/// The block from which the rest of the page at this position was to be read has one pin less, if the
/// page is of this name.
fn unpin_rest(live: &mut LivePages, cache: &Cache, name: Name, at: usize)
    ensures { live.new ≡ rest_unpinned_at name live.old (slice_get cache.now.pages at) }
{
    if let Some(page) = cache.page(at) {
        if page.number == name.number && page.index == name.index {
            unpin_block(live, &rest_look(&page.rest));
        }
    }
}

/// The blocks from which rests were to be read for the page of this name have no pins for it any more. Only
/// pages that wait are looked at.
pub(super) fn unpin_rests(live: &mut LivePages, cache: &Cache, name: Name)
    ensures is { live.new ≡ fold (rest_unpinned name) live.old cache.now.pages }
    ensures same { without_pins live.new ≡ without_pins live.old }
{
    let mut from = 0;
    while let Some(at) = cache.first_waiting(from) {
        unpin_rest(live, cache, name, at);
        from = at + 1;
    }
}

/// The block from which the rest of the first page was to be read has one pin less.
pub(super) fn unpin_first(live: &mut LivePages, cache: &Cache)
    ensures is { live.new ≡ first_unpinned live.old (slice_get cache.now.pages 0) }
    ensures same { without_pins live.new ≡ without_pins live.old }
{
    if let Some(page) = cache.page(0) {
        unpin_block(live, &rest_look(&page.rest));
    }
}
