//! The laws of what is kept: what a task looked up, and where the rest of a page comes from that a command has in part.
ghost use Rattle.std.specs.Prelude.{◌≡◌, ◌≢◌, ◌<◌, ◌++◌, ℕ, Bool, true, false, All, Contains, List, [], Option, Some, slice_get};
ghost use Rattle.ufs_spec.specs.Cells.{GroupPage, IsCell, Opens, key_of};
ghost use Rattle.ufs_spec.specs.Disk.{Erasing, Reading, Spot, spot_of};
ghost use Rattle.ufs_spec.specs.Keys.{Group, Item};
ghost use Rattle.ufs_spec.specs.Ledger.{Entry, entry_of, look, next_number};
ghost use Rattle.ufs_spec.specs.Moves.{Accept, IsEndingOf, ReadRight, ReadWrong, moved};
ghost use Rattle.ufs_spec.specs.Translation.{FromPage, MayTake, Pin, Rest, Source, Translation, is_in_part, rests_of, source_of};
ghost use Rattle.ufs_spec.specs.declared.flash.Outcome.TheVariants as outcome;
ghost use Rattle.ufs_spec.specs.declared.flash.Page.{Page};
ghost use Rattle.ufs_spec.specs.declared.flash.Place.{Place};
ghost use Rattle.ufs_spec.specs.declared.flash.Tag.{Tag};
ghost use Rattle.ufs_spec.specs.declared.layer.Looked.TheVariants.{InSlot, OnPage};
ghost use Rattle.ufs_spec.specs.declared.layer.Name.{Name};
ghost use Rattle.ufs_spec.specs.declared.layer.Reader.{Reader};
ghost use Rattle.ufs_spec.specs.declared.layer.Reader.TheVariants.{ForRest, ForStep, ForTask};
ghost use Rattle.power_loss.specs.Invariant.{IsGroupPage, Valid};
ghost use Rattle.power_loss.specs.Rests.{IsRestOf};

/// A group that is accepted has rests for its pages of the RPMB area alone, each from where the page's key is looked up
/// then, and for each of these whose content is not at hand.
pub fn rests_are_found_at_the_accept()
    ensures none { (t : Translation) (g : Group) → All (λ (item : Item). is_in_part item.key ≡ false) g → rests_of t g ≡ [] }
    ensures added { (t : Translation) (claimed : ℕ) (g : Group) →
        (moved t (Accept claimed g)).work.rests ≡ t.work.rests ++ rests_of t g }
    ensures each { (t : Translation) (g : Group) (rest : Rest) → Contains (rests_of t g) rest → IsRestOf t g rest }
    ensures all { (t : Translation) (g : Group) (i : ℕ) (item : Item) (source : Source) →
        slice_get g i ≡ Some item → is_in_part item.key ≡ true → source_of t.work.rests (look t.ledger item.key) ≡ Some source →
        Contains (rests_of t g) (record { name = record { number = next_number t.ledger; index = i }; source = source }) }
{}

/// What a task keeps stays there: a page is the finished page of its name, in a block that is not being erased and is not
/// given to be, and has what is known under the name; a slot is of a group above the frontier.
pub fn kept_pages_stay()
    ensures page { (t : Translation) (pin : Pin) (name : Name) (place : Place) →
        Valid t → Contains t.pins pin → pin.looked ≡ OnPage name place →
        IsGroupPage t.disk.cells t.disk.finished t.disk.erasing name place }
    ensures content { (t : Translation) (name : Name) (place : Place) →
        Valid t → (g : IsGroupPage t.disk.cells t.disk.finished t.disk.erasing name place) →
        entry_of t.ledger name ≡ Some (record { item = record { key = key_of g.tag; body = g.body }; size = g.tag.size }) }
    ensures slot { (t : Translation) (pin : Pin) (name : Name) → Valid t → Contains t.pins pin → pin.looked ≡ InSlot name →
        (t.ledger.frontier < name.number) × ((e : Entry) × (entry_of t.ledger name ≡ Some e)) }
    ensures not_erased { (t : Translation) (die : ℕ) (s : Spot) (pin : Pin) (name : Name) (place : Place) →
        Valid t → MayTake t die (Some (Erasing s)) → Contains t.pins pin → pin.looked ≡ OnPage name place → spot_of place ≢ s }
{}

/// A page that the rest of another is still to be read from is a group's finished page, in a block that is not being erased
/// and is not given to be.
pub fn a_rest_keeps_its_page()
    ensures page { (t : Translation) (rest : Rest) (place : Place) →
        Valid t → Contains t.work.rests rest → rest.source ≡ FromPage place →
        (name : Name) × IsGroupPage t.disk.cells t.disk.finished t.disk.erasing name place }
    ensures not_erased { (t : Translation) (die : ℕ) (s : Spot) (rest : Rest) (place : Place) →
        Valid t → MayTake t die (Some (Erasing s)) → Contains t.work.rests rest → rest.source ≡ FromPage place → spot_of place ≢ s }
{}

/// A read that a die may be given, or does, is of a group's page: so it ends if it gives this page or none of its
/// key and number, or fails.
pub fn a_page_that_is_read_is_a_groups()
    ensures task { (t : Translation) (die tag index : ℕ) (place : Place) →
        Valid t → MayTake t die (Some (Reading (ForTask tag index) place)) →
        (page : Tag) × (body : List ℕ) × (t.disk.cells place ≡ GroupPage page body) }
    ensures rest { (t : Translation) (die number index : ℕ) (place : Place) →
        Valid t → MayTake t die (Some (Reading (ForRest number index) place)) →
        (page : Tag) × (body : List ℕ) × (t.disk.cells place ≡ GroupPage page body) }
    ensures step { (t : Translation) (die : ℕ) (place : Place) →
        Valid t → MayTake t die (Some (Reading ForStep place)) →
        (page : Tag) × (body : List ℕ) × (t.disk.cells place ≡ GroupPage page body) }
    ensures flying { (t : Translation) (die : ℕ) (reader : Reader) (place : Place) →
        Valid t → t.disk.flights die ≡ Some (Reading reader place) →
        (page : Tag) × (body : List ℕ) × (t.disk.cells place ≡ GroupPage page body) }
    ensures at_home { (t : Translation) (die : ℕ) (reader : Reader) (place : Place) →
        Valid t → t.disk.flights die ≡ Some (Reading reader place) → place.die ≡ die }
    ensures not_erased { (t : Translation) (die other : ℕ) (reader : Reader) (place : Place) (s : Spot) →
        Valid t → t.disk.flights die ≡ Some (Reading reader place) → MayTake t other (Some (Erasing s)) →
        spot_of place ≢ s }
    ensures wanted { (t : Translation) (die : ℕ) (reader : Reader) (place : Place) (page : Page) →
        t.disk.flights die ≡ Some (Reading reader place) → IsCell page (t.disk.cells place) →
        IsEndingOf t.disk.cells (t.disk.flights die) (outcome.Read page) ReadRight }
    ensures another { (t : Translation) (die : ℕ) (reader : Reader) (place : Place) (page : Page) →
        Valid t → t.disk.flights die ≡ Some (Reading reader place) →
        ((tag other : Tag) (body bytes : List ℕ) → t.disk.cells place ≡ GroupPage tag body → Opens page other bytes →
        key_of other ≡ key_of tag → other.number ≡ tag.number → ⊥) →
        IsEndingOf t.disk.cells (t.disk.flights die) (outcome.Read page) ReadWrong }
    ensures failed { (t : Translation) (die : ℕ) (reader : Reader) (place : Place) →
        t.disk.flights die ≡ Some (Reading reader place) →
        IsEndingOf t.disk.cells (t.disk.flights die) outcome.ReadFailed ReadWrong }
{}
