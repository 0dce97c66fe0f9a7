//! Arrays of pages, and what they stand for.
ghost use Rattle.std.specs.Prelude.{◌≡◌, ◌⊎◌, ◌++◌, ◌≤◌, ℕ, List, Option, slice_index};
ghost use Rattle.ufs_spec.specs.declared.Key.{Key};
ghost use Rattle.ufs_spec.specs.declared.Numbers.{Numbers};
ghost use Rattle.ufs_spec.specs.declared.Page.{Page};
ghost use Rattle.ufs_spec.specs.declared.Place.{Place};
ghost use Rattle.ufs_spec.specs.declared.Tag.{Tag};
ghost use Rattle.ufs_spec.specs.Cells.{AreWithin, Array, Cell, Cells, IsCell, IsPlace, Mark, Opens, Shows};
ghost use Rattle.ufs_spec.specs.Dies.{blank_page};
ghost use Rattle.ufs_spec.specs.Kept.{Holds, IsKept, IsNewestMark, IsRecorded, StandsFor};
ghost use Rattle.ufs_spec.specs.Keys.{IsBlock};
ghost use Rattle.ufs_spec.specs.Pages.{IsTag, check_of, old_front, seal_page};
ghost use Rattle.ufs_spec.specs.Plain.{Plain, zero};
ghost use Rattle.ufs_spec.specs.Sound.{CellsSound, Sound, Suits};

/// Each page is one cell, and no other.
pub fn page_is_one_cell()
    ensures there { (page : Page) → (c : Cell) × IsCell page c }
    ensures one { (page : Page) (c d : Cell) → IsCell page c → IsCell page d → c ≡ d }
{}

/// A page that opens is of version 2 or 1, as its spare byte 4 says, and a group has at most 128 pages in the one and
/// 32 in the other. What is programmed is of version 2, and opens. A page of version 1 opens as well.
pub fn page_opens_in_two_versions()
    ensures version { (page : Page) (t : Tag) (b : List ℕ) → Opens page t b →
        ((slice_index page.spare 4 ≡ 2) × (t.size ≤ 128)) ⊎ ((slice_index page.spare 4 ≡ 1) × (t.size ≤ 32)) }
    ensures written { (t : Tag) (b : List ℕ) → IsTag t → IsBlock b →
        Opens (seal_page t b) t b × (slice_index (seal_page t b).spare 4 ≡ 2) }
    ensures old { (t : Tag) (b : List ℕ) → IsTag t → t.size ≤ 32 → IsBlock b →
        Opens (record { body = b; spare = old_front t ++ check_of b (old_front t) }) t b }
{}

/// For every array of the dies' size there is a newest mark or none, a greatest recorded frontier, a kept number, and a
/// content of each key; a sound array that suits the numbers stands for a plain state.
pub fn array_stands_for_something()
    ensures mark { (n : Numbers) (c : Cells) → AreWithin n c → (m : Option Mark) × IsNewestMark c m }
    ensures recorded { (n : Numbers) (c : Cells) → AreWithin n c → (m : Option Mark) → (r : ℕ) × IsRecorded c m r }
    ensures kept { (n : Numbers) (c : Cells) → AreWithin n c → (m : Option Mark) → (k : ℕ) × IsKept c m k }
    ensures content { (n : Numbers) (c : Cells) → AreWithin n c → (m : Option Mark) (bound : ℕ) (k : Key) →
        (x : List ℕ) × Holds c m bound k x }
    ensures plain { (n : Numbers) (array : Array) → ((p : Place) → (IsPlace n p → ⊥) → array p ≡ blank_page) →
        Sound array → Suits n array → (p : Plain) × StandsFor n array p }
{}

/// A sound array has one newest mark at most, one greatest recorded frontier, one kept number and one content of each
/// key: it stands for one plain state.
pub fn sound_array_stands_for_one()
    ensures mark { (c : Cells) (m a b : Option Mark) → CellsSound c m → IsNewestMark c a → IsNewestMark c b → a ≡ b }
    ensures recorded { (c : Cells) (m : Option Mark) (r s : ℕ) → IsRecorded c m r → IsRecorded c m s → r ≡ s }
    ensures kept { (c : Cells) (m : Option Mark) (j k : ℕ) → IsKept c m j → IsKept c m k → j ≡ k }
    ensures content { (c : Cells) (m : Option Mark) (bound : ℕ) (k : Key) (x y : List ℕ) → CellsSound c m →
        Holds c m bound k x → Holds c m bound k y → x ≡ y }
    ensures plain { (n : Numbers) (array : Array) (p q : Plain) → Sound array →
        StandsFor n array p → StandsFor n array q → p ≡ q }
{}

/// New dies are sound, suit every configuration and stand for a new device.
pub fn new_dies_stand_for_zero()
    ensures sound { (array : Array) → ((p : Place) → array p ≡ blank_page) → Sound array }
    ensures suits { (n : Numbers) (array : Array) → ((p : Place) → array p ≡ blank_page) → Suits n array }
    ensures zero { (n : Numbers) (array : Array) → ((p : Place) → array p ≡ blank_page) → StandsFor n array (zero n) }
{}
