//! The settings that were found.
ghost use Rattle.std.specs.Prelude.{◌≡◌, ◌+◌, ◌<◌, ℕ, suc, List, Option, Some, IfErr, IfOk, length, map, slice_get, slice_index_or, sum};
ghost use Rattle.ufs_spec.specs.Cells.{Cells, Shows};
ghost use Rattle.ufs_spec.specs.Dies.{LiesOnDie, new_die};
ghost use Rattle.ufs_spec.specs.Keys.{area_pages, settings_key};
ghost use Rattle.ufs_spec.specs.Kept.{Holds};
ghost use Rattle.ufs_spec.specs.Lives.{Fit, array_of, bad_of};
ghost use Rattle.ufs_spec.specs.Plain.{shape_of_numbers};
ghost use Rattle.ufs_spec.specs.Sound.{CellsSound};
ghost use Rattle.settings.specs.Told.{settings_in};
ghost use Rattle.recovery.specs.Found.{HasSettings, newest_found};
ghost use Rattle.recovery.specs.Reading.{IsReadingFault};
ghost use Rattle.recovery.specs.Stood.{AreReadSettings};
ghost use Rattle.recovery.specs.declared.pages.FoundPage.{FoundPage};

use crate::found::Found;
use crate::pages::FoundPage;
use crate::reading::fetch;
use geometry::settings_index;
use nand_model::Die;
use settings::Settings;
use ufs_spec::{Numbers, OpenFault, Page, Place};

/// The settings that were found. It reads the page that has their content, if there is one; without
/// one they are those of a new device.
///
/// # Errors
///
/// `ReadFault` if this read failed.
pub(crate) fn found_settings<D: Die>(
    dies: &mut [D],
    numbers: &Numbers,
    found: &Found,
) -> Result<Settings, OpenFault>
    requires fit { Fit numbers.now (map D.state dies.old) }
    requires settings { (c : Cells) → Shows (array_of (map D.state dies.old)) c →
        HasSettings numbers.now c (bad_of (map D.state dies.old)) found.now }
    ensures same { map D.state dies.new ≡ map D.state dies.old }
    // They are what the page says that was found for them.
    ensures read { IfOk result (AreReadSettings numbers.now (array_of (map D.state dies.old))
        found.now.contents.items) }
    // Over sound pages they are what the content of their key says.
    ensures told { IfOk result (λ s. (c : Cells) → Shows (array_of (map D.state dies.old)) c →
        CellsSound c (newest_found found.now) → (x : List ℕ) →
        Holds c (newest_found found.now) (suc found.now.kept) settings_key x → s ≡ settings_in x) }
    ensures fault { IfErr result (IsReadingFault (map D.failed dies.old) (map D.failed dies.new)) }
{
    match settings_page(found.contents.as_slice(), numbers) {
        Some(content) => settings_at(dies, content.place),
        None => Ok(Settings::new()),
    }
}

/// The page that has the content of the settings, if there is one.
fn settings_page(contents: &[Option<FoundPage>], numbers: &Numbers) -> Option<FoundPage>
    ensures { let s = shape_of_numbers numbers.now in (e : Option FoundPage) →
        slice_get contents.now (sum s.blocks + area_pages s) ≡ Some e → result ≡ e }
{
    match contents.get(settings_index(numbers)) {
        Some(content) => *content,
        None => None,
    }
}

/// What the settings page there says.
fn settings_at<D: Die>(dies: &mut [D], place: Place) -> Result<Settings, OpenFault>
    requires die { place.die < length dies.old }
    requires there { let state = slice_index_or (map D.state dies.old) place.die (new_die 0 0) in
        LiesOnDie state place.block place.page }
    ensures same { map D.state dies.new ≡ map D.state dies.old }
    ensures told { IfOk result (λ s. s ≡ settings_in (array_of (map D.state dies.old) place).body) }
    ensures fault { IfErr result (IsReadingFault (map D.failed dies.old) (map D.failed dies.new)) }
{
    let mut page = Page {
        body: [0; 4096],
        spare: [0; 96],
    };
    if let Err(fault) = fetch(dies, place, &mut page) {
        return Err(fault);
    }
    Ok(Settings::from_page(&page.body))
}
