//! The law of slots that were looked up.
ghost use Rattle.std.specs.Prelude.{◌≡◌, ◌<◌, ◌≤◌, ℕ, List, Option, Some, slice_get};
ghost use Rattle.ufs_spec.specs.Cells.{GroupPage};
ghost use Rattle.ufs_spec.specs.Disk.{Programming};
ghost use Rattle.ufs_spec.specs.Moves.{EndJob, WentWell, moved};
ghost use Rattle.ufs_spec.specs.Translation.{Pin, Translation};
ghost use Rattle.ufs_spec.specs.declared.flash.Place.{Place};
ghost use Rattle.ufs_spec.specs.declared.flash.Tag.{Tag};
ghost use Rattle.ufs_spec.specs.declared.layer.Looked.TheVariants.{InSlot, OnPage};
ghost use Rattle.ufs_spec.specs.declared.layer.Name.{Name};

/// A task that keeps a slot keeps the slot's page as soon as its group is durable: after the end of a page's program no
/// slot is kept that is at or under the frontier.
pub fn a_durable_slot_becomes_its_page()
    ensures slot { (t : Translation) (die : ℕ) (p : Place) (tag : Tag) (body : List ℕ) (j : ℕ) (pin : Pin) (name : Name) →
        t.disk.flights die ≡ Some (Programming p (GroupPage tag body)) →
        slice_get (moved t (EndJob die WentWell)).pins j ≡ Some pin → pin.looked ≡ InSlot name →
        (moved t (EndJob die WentWell)).ledger.frontier < name.number }
    ensures page { (t : Translation) (die : ℕ) (p q : Place) (tag : Tag) (body : List ℕ) (j : ℕ) (pin : Pin) (name : Name) →
        t.disk.flights die ≡ Some (Programming p (GroupPage tag body)) →
        slice_get t.pins j ≡ Some pin → pin.looked ≡ InSlot name →
        name.number ≤ (moved t (EndJob die WentWell)).ledger.frontier →
        (moved t (EndJob die WentWell)).ledger.standing name.number name.index ≡ Some q →
        slice_get (moved t (EndJob die WentWell)).pins j ≡ Some (record pin { looked = OnPage name q }) }
{}
