//! The law of the fence: it falls last.
ghost use Rattle.std.specs.Prelude.{◌≡◌, ◌+◌, ℕ, true, List, [], ◌∷◌, Option, Some, None};
ghost use Rattle.ufs_spec.specs.Cells.{Mark, MarkPage};
ghost use Rattle.ufs_spec.specs.Disk.{Programming};
ghost use Rattle.ufs_spec.specs.Moves.{EndJob, WentWell, moved};
ghost use Rattle.ufs_spec.specs.Translation.{MarkStep, MayTake, Repairing, Step, Translation, has_mark_number, is_mended, turned};
ghost use Rattle.ufs_spec.specs.declared.flash.Fence.{Fence};
ghost use Rattle.ufs_spec.specs.declared.flash.Key.{Key};
ghost use Rattle.ufs_spec.specs.declared.flash.Place.{Place};
ghost use Rattle.power_loss.specs.Book.{IsPlainMark, book, last_number};
ghost use Rattle.power_loss.specs.Invariant.{Valid};

/// A mark without a fence is given to a die only if each key with a lost page has a repair at or under what the mark
/// records, and it is ordered at last: once no key is left to repair, each repair is durable and the next turn orders
/// it. With its program mending ends.
pub fn the_fence_falls_last()
    ensures given { (t : Translation) (die : ℕ) (p : Place) (m : Mark) →
        Valid t → MayTake t die (Some (Programming p (MarkPage m))) → m.fence ≡ None → IsPlainMark (book t) m }
    ensures not_before { (t : Translation) (key : Key) (left : List Key) (number : ℕ) (fence : Option Fence) (step : Step) →
        Valid t → t.work.mending ≡ Repairing (key ∷ left) → t.work.step ≡ Some step →
        step.kind ≡ MarkStep number fence → ⊥ }
    ensures durable { (t : Translation) →
        Valid t → t.work.mending ≡ Repairing [] → t.work.step ≡ None → t.ledger.frontier ≡ last_number (book t) }
    ensures ordered { (t : Translation) →
        Valid t → t.work.mending ≡ Repairing [] → t.work.step ≡ None → has_mark_number t ≡ true →
        (turned t).work.step ≡ Some (record { kind = MarkStep (t.ledger.marks + 1) None; there = true }) }
    ensures ends { (t : Translation) (die : ℕ) (p : Place) (m : Mark) →
        Valid t → t.disk.flights die ≡ Some (Programming p (MarkPage m)) → m.fence ≡ None →
        is_mended (moved t (EndJob die WentWell)).work.mending ≡ true }
{}
