//! The law of rests: what the page holds from which the rest of an area page is read.
ghost use Rattle.std.specs.Prelude.{◌≡◌, ◌<◌, ℕ, Bool, Contains, Some};
ghost use Rattle.ufs_spec.specs.Cells.{Cells};
ghost use Rattle.ufs_spec.specs.Disk.{Spot};
ghost use Rattle.ufs_spec.specs.Ledger.{Entry, entry_of};
ghost use Rattle.ufs_spec.specs.Moves.{IsAllowedMove, Move, moved};
ghost use Rattle.ufs_spec.specs.Openings.{IsOpenedTranslation};
ghost use Rattle.ufs_spec.specs.Refusals.{State};
ghost use Rattle.ufs_spec.specs.Translation.{FromPage, FromSlot, Rest, Translation, awaited_read};
ghost use Rattle.ufs_spec.specs.declared.configs.Numbers.{Numbers};
ghost use Rattle.ufs_spec.specs.declared.flash.Place.{Place};
ghost use Rattle.ufs_spec.specs.declared.layer.Name.{Name};
ghost use Rattle.power_loss.specs.Book.{book};
ghost use Rattle.power_loss.specs.Exchange.{IsTied};
ghost use Rattle.power_loss.specs.Invariant.{Valid};
ghost use Rattle.power_loss.specs.LaidRests.{HoldsBelow, IsOfFirst, NoneBetween, RestsLaid, contents_below};

/// The page from which the rest of an area page is read holds the content that the page's key had below its group. Of
/// the groups that wait for one read, each begins with what the one before it gave the key. So their parts, laid over
/// the page that is read one after another, give each group's own content. It is so from the opening on, at each moment
/// of a life.
pub fn rests_are_laid_over_one_page()
    ensures opened { (n : Numbers) (c : Cells) (bad : Spot → Bool) (t : Translation) →
        IsOpenedTranslation n c bad t → RestsLaid t }
    ensures moved { (t : Translation) (move : Move) → Valid t → RestsLaid t → IsAllowedMove t move → RestsLaid (moved t move) }
    ensures tied { (s : State) → IsTied s → RestsLaid s.translation }
    // The page that is read holds the content below the group.
    ensures page { (t : Translation) (rest : Rest) (place : Place) (e : Entry) → Valid t → RestsLaid t →
        Contains t.work.rests rest → rest.source ≡ FromPage place → entry_of t.ledger rest.name ≡ Some e →
        HoldsBelow (book t) t.disk.cells rest.name e.item.key place }
    // A rest from a slot waits for the read of an older page of its key, whose own rest is read from a page.
    ensures slot { (t : Translation) (rest : Rest) (other : Name) (e : Entry) → RestsLaid t →
        Contains t.work.rests rest → rest.source ≡ FromSlot other → entry_of t.ledger rest.name ≡ Some e →
        IsOfFirst (book t) t.work.rests rest.name other e.item.key }
    // Of two that wait for one read, with none between them, the later one begins with the content of the earlier one.
    ensures next { (t : Translation) (a b : Rest) (read : Name) (x y : Entry) → Valid t → RestsLaid t →
        Contains t.work.rests a → Contains t.work.rests b → awaited_read a ≡ read → awaited_read b ≡ read →
        entry_of t.ledger a.name ≡ Some x → entry_of t.ledger b.name ≡ Some y → a.name.number < b.name.number →
        NoneBetween t.work.rests read a.name.number b.name.number →
        (x.item.key ≡ y.item.key) × (contents_below (book t) b.name.number y.item.key ≡ x.item.body) }
{}
