//! What the dies stand for when a device is opened over them.
ghost use Rattle.std.specs.Prelude.{◌≡◌, ◌≤◌, ◌^◌, ◌↔◌, ◌==◌, ◌⊎◌, ◌∷◌, [], ℕ, suc, Bool, List, Some, Err, IfErr, IfOk, IsTrue, length, map, option_map, slice_get, slice_index};
ghost use Rattle.ufs_spec.specs.Pages.{greatest_number};
ghost use Rattle.ufs_spec.specs.Cells as cells;
ghost use Rattle.ufs_spec.specs.Cells.{AreWithin, Cells, Shows};
ghost use Rattle.ufs_spec.specs.Disk.{Spot};
ghost use Rattle.ufs_spec.specs.Keys.{settings_key};
ghost use Rattle.ufs_spec.specs.Kept.{Holds, fence_in};
ghost use Rattle.ufs_spec.specs.Lives.{Fit, array_of, bad_of};
ghost use Rattle.ufs_spec.specs.Plain.{Plain};
ghost use Rattle.ufs_spec.specs.Sound.{CellsSound, CellsSuit, MarkSuits, Sound};
ghost use Rattle.ufs_spec.specs.Translation.{spots};
ghost use Rattle.settings.specs.Told.{settings_in};
ghost use Rattle.page_tag.specs.Contents.{mark_of};
ghost use Rattle.recovery.specs.Found.{IsFound, IsScanFault, newest_found};
ghost use Rattle.recovery.specs.Scanned.{IsFaultOn, IsFoundOn, IsTableOver};
ghost use Rattle.recovery.specs.Listed.{AreInRange};
ghost use Rattle.recovery.specs.Reading.{IsTable, newest_in};
ghost use Rattle.recovery.specs.Stood.{AreReadSettings, IsStoodFor};
ghost use Rattle.recovery.specs.declared.pages.FoundPage.{FoundPage};

use crate::blocks::bad_blocks;
use crate::free::{free_blocks, opening_blocks};
use crate::kept::{first_lost, greatest_seen, kept_number, recorded_frontier};
use crate::keys::{FoundBlock, are_known, block_states, content_pages, lost_keys};
use crate::outside::outside_pages;
use crate::pages::FoundPage;
use crate::reading::{Table, read_all};
use crate::settings_found::found_settings;
use geometry::Config;
use nand_model::Die;
use page_tag::Mark;
use settings::Settings;
use std::alloc::{AllocError, Global};
use ufs_spec::{Fence, Key, Numbers, OpenFault};

/// What the dies stand for.
#[derive(Drop)]
pub struct Found {
    /// The newest mark; `None` on dies without a mark. It may say other sizes of RPMB regions 1 to 3 than
    /// the configuration: none of each.
    pub newest: Option<Mark>,
    /// The kept number: from the greatest recorded frontier on, every group up to it is whole.
    pub kept: u64,
    /// The greatest number that a page, a mark or the fence says.
    pub greatest_seen: u64,
    /// The first number that is lost; above `greatest_seen` if none is.
    pub first_lost: u64,
    /// For each key of the device, in order, the page that has its content; `None` if it reads as zeros.
    pub contents: Vec<Option<FoundPage>>,
    /// The keys with a lost page, each once, in order.
    pub lost: Vec<Key>,
    /// For each block of each die, in order, what it is.
    pub blocks: Vec<FoundBlock>,
    /// The settings, with the key and the write counter of each RPMB region; those of a new device if no
    /// page has them.
    pub settings: Settings,
}

/// Reads all pages of the dies, bad blocks too, each once, then again the page that has the settings'
/// content, and tells what they stand for. It writes nothing, and after an error the dies are as
/// before too. The dies are as many and as large as the configuration says.
///
/// # Errors
///
/// `NoMemory` if memory was refused; `ReadFault` if the read of that place failed in this call;
/// else `OtherConfig` if the newest mark is of another configuration, or a page is of a unit, a region
/// or an address that the configuration has not. A mark of the same numbers with RPMB region 0 alone is
/// not of another one: it was written before the device had other regions. The dies of a device of one
/// profile are those of a device of another, and its serial number stands on no page.
pub fn scan<D: Die>(alloc: Global, dies: &mut [D], config: &Config) -> Result<Found, OpenFault>
    requires { Fit config.now (map D.state dies.old) }
    ensures same { map D.state dies.new ≡ map D.state dies.old }
    ensures found { IfOk result (λ f. (c : Cells) → Shows (array_of (map D.state dies.old)) c →
        IsFound config.now c (bad_of (map D.state dies.old)) f) }
    // Over sound pages what was found has the contents of the plain state that the dies stand
    // for, and they stand for no other.
    ensures stands { IfOk result (λ f. Sound (array_of (map D.state dies.old)) →
        (p : Plain) × IsStoodFor config.now (array_of (map D.state dies.old)) f p) }
    // Its settings are those that the page says that was found for them.
    ensures read { IfOk result (λ f.
        AreReadSettings config.now (array_of (map D.state dies.old)) f.contents.items f.settings) }
    // Over sound pages its settings are those that the content of their key says.
    ensures settings { IfOk result (λ f. (c : Cells) → Shows (array_of (map D.state dies.old)) c →
        CellsSound c (newest_found f) → (x : List ℕ) →
        Holds c (newest_found f) (suc f.kept) settings_key x → f.settings ≡ settings_in x) }
    ensures fault { IfErr result (λ e. (c : Cells) → Shows (array_of (map D.state dies.old)) c →
        IsScanFault config.now c (map D.failed dies.old) (map D.failed dies.new) e) }
{
    let numbers = config.numbers();
    match read_all(alloc, dies, numbers) {
        Ok(table) => found_over(alloc, table, dies, config),
        Err(fault) => Err(fault),
    }
}

/// What the dies stand for, of all pages of which this table was read. It reads the page that has the
/// settings' content, and tells what `scan` tells.
///
/// # Errors
///
/// Those of `scan`.
pub(crate) fn found_over<D: Die>(
    alloc: Global,
    table: Table,
    dies: &mut [D],
    config: &Config,
) -> Result<Found, OpenFault>
    requires fit { Fit config.now (map D.state dies.old) }
    requires read { IsTableOver config.now (map D.state dies.old) table }
    ensures same { map D.state dies.new ≡ map D.state dies.old }
    ensures told { IfOk result (IsFoundOn config.now (map D.state dies.old)) }
    // Dies of another configuration are told as such, and as nothing else.
    ensures unsuited { (c : Cells) → Shows (array_of (map D.state dies.old)) c →
        (CellsSuit config.now c (newest_in table) → ⊥) → result ≡ Err OpenFault.OtherConfig }
    ensures fault { IfErr result (IsFaultOn config.now (map D.state dies.old) (map D.failed dies.old)
        (map D.failed dies.new)) }
{
    let numbers = config.numbers();
    if !is_of_config(&table, numbers) {
        return Err(OpenFault::OtherConfig);
    }
    let Ok(bad) = bad_blocks(alloc, dies, numbers) else {
        return Err(OpenFault::NoMemory);
    };
    let Ok(mut found) = found_in(alloc, table, bad.as_slice(), numbers) else {
        return Err(OpenFault::NoMemory);
    };
    match found_settings(dies, numbers, &found) {
        Ok(settings) => found.settings = settings,
        Err(fault) => return Err(fault),
    }
    Ok(found)
}

/// Whether the newest mark, if there is one, suits these numbers, and the device has the key of each page.
fn is_of_config(table: &Table, numbers: &Numbers) -> bool
    ensures { (c : Cells) → IsTable numbers.now c table.now →
        IsTrue result ↔ CellsSuit numbers.now c (newest_in table.now) }
{
    does_mark_suit(&table.newest, numbers) && are_known(table.pages.as_slice(), numbers)
}

/// Whether the mark, if there is one, suits these numbers.
fn does_mark_suit(mark: &Option<Mark>, numbers: &Numbers) -> bool
    ensures { IsTrue result ↔ ((m : cells.Mark) → option_map mark_of mark.now ≡ Some m →
        MarkSuits numbers.now m.numbers) }
{
    match mark {
        Some(mark) => do_numbers_suit(&mark.numbers, numbers),
        None => true,
    }
}

/// Whether a mark with these numbers suits the others, whatever the profile and the serial number of the
/// device: they are the same, or the same with RPMB region 0 alone, as before the device had others.
fn do_numbers_suit(said: &Numbers, numbers: &Numbers) -> bool
    ensures { IsTrue result ↔ MarkSuits numbers.now said.now }
{
    are_same_but_regions(said, numbers) && do_regions_suit(said.rpmb, numbers.rpmb)
}

/// Whether a mark's numbers are the others as a mark holds them, whatever the sizes of RPMB regions are.
/// A mark has profile 0 and serial number 1, so these of the device are not asked for.
fn are_same_but_regions(said: &Numbers, numbers: &Numbers) -> bool
    ensures { let s = said.now in let n = numbers.now in IsTrue result ↔
        ((s.dies ≡ n.dies) × (s.blocks ≡ n.blocks) × (s.pages ≡ n.pages) × (s.units ≡ n.units)
        × (s.slots ≡ n.slots) × (s.spare ≡ n.spare) × (s.profile ≡ 0) × (s.serial ≡ 1)) }
{
    said.dies == numbers.dies
        && said.blocks == numbers.blocks
        && said.pages == numbers.pages
        && have_same_units(said, numbers)
        && said.slots == numbers.slots
        && said.spare == numbers.spare
        && said.profile == 0
        && said.serial == 1
}

/// Whether their units are the same.
fn have_same_units(said: &Numbers, numbers: &Numbers) -> bool
    ensures { IsTrue result ↔ (said.now.units ≡ numbers.now.units) }
{
    said.units == numbers.units
}

/// Whether the sizes of RPMB regions are the others, or those of region 0 alone.
fn do_regions_suit(said: [u8; 4], sizes: [u8; 4]) -> bool
    ensures { IsTrue result ↔ ((said ≡ sizes) ⊎ (said ≡ slice_index sizes 0 ∷ 0 ∷ 0 ∷ 0 ∷ [])) }
{
    said == sizes || said == [sizes[0], 0, 0, 0]
}

/// The fence of the newest mark, if it has one.
fn fence_of(mark: &Option<Mark>) -> Option<Fence>
    ensures { result ≡ fence_in (option_map mark_of mark.now) }
{
    match mark {
        Some(mark) => mark.fence,
        None => None,
    }
}

/// What the table of all pages stands for, with which blocks are bad.
fn found_in(
    alloc: Global,
    table: Table,
    bad: &[bool],
    numbers: &Numbers,
) -> Result<Found, AllocError>
    requires pages { (i : ℕ) (e : FoundPage) → slice_get table.pages.items i ≡ Some e → e.tag.frontier ≤ greatest_number }
    requires marks { table.recorded ≤ greatest_number }
    ensures { IfOk result (λ f. (c : Cells) (is_bad : Spot → Bool) → IsTable numbers.now c table → AreInRange c →
        AreWithin numbers.now c → CellsSuit numbers.now c (newest_in table) → bad.now ≡ map is_bad (spots numbers.now) →
        IsFound numbers.now c is_bad f) }
{
    let fence = fence_of(&table.newest);
    let pages = table.pages.as_slice();
    let recorded = recorded_frontier(pages, fence, table.recorded);
    let kept = kept_number(alloc, pages, recorded)?;
    let first_lost = first_lost(fence, kept);
    let greatest_seen = greatest_seen(pages, fence, table.recorded);
    let lost = lost_keys(alloc, pages, first_lost, numbers)?;
    let marks = table.marks.as_slice();
    let free = free_blocks(alloc, &table.newest, pages, marks, bad, numbers)?;
    let outside = outside_pages(alloc, pages, free.as_slice(), numbers.blocks)?;
    let contents = content_pages(alloc, outside.as_slice(), fence, kept, numbers)?;
    let opening = opening_blocks(alloc, pages, marks, numbers.blocks, bad.len())?;
    let blocks = block_states(alloc, free.as_slice(), opening.as_slice(), bad)?;
    Ok(Found {
        newest: table.newest,
        kept,
        greatest_seen,
        first_lost,
        contents,
        lost,
        blocks,
        settings: Settings::new(),
    })
}
