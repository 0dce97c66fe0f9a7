//! The law of mending: how many turns a life needs before the device takes commands.
ghost use Rattle.std.specs.Prelude.{◌≡◌, ◌≤◌, ℕ, suc, ◌+◌, Bool, true, false, List, length};
ghost use Rattle.ufs_spec.specs.Cells.{AreWithin, Array, Cells};
ghost use Rattle.ufs_spec.specs.Configs.{IsConfig};
ghost use Rattle.ufs_spec.specs.Dies.{blank_page};
ghost use Rattle.ufs_spec.specs.Disk.{Spot};
ghost use Rattle.ufs_spec.specs.Lives.{IsOpened, Life};
ghost use Rattle.ufs_spec.specs.Moves.{IsAllowedMove, Move, moved};
ghost use Rattle.ufs_spec.specs.Openings.{AreLost, IsOpenedTranslation};
ghost use Rattle.ufs_spec.specs.Sound.{CellsSound, Sound};
ghost use Rattle.ufs_spec.specs.Refusals.{State, mended};
ghost use Rattle.ufs_spec.specs.Translation.{Translation, is_mended, is_step_due, turned};
ghost use Rattle.ufs_spec.specs.declared.configs.Numbers.{Numbers};
ghost use Rattle.ufs_spec.specs.declared.events.Event.{Event};
ghost use Rattle.ufs_spec.specs.declared.events.Output.{Output};
ghost use Rattle.ufs_spec.specs.declared.flash.Key.{Key};
ghost use Rattle.ufs_spec.specs.declared.flash.Place.{Place};
ghost use Rattle.power_loss.specs.Book.{CellsRight};
ghost use Rattle.power_loss.specs.Exchange.{IsArrayOf};
ghost use Rattle.power_loss.specs.Invariant.{Valid};
ghost use Rattle.power_loss.specs.Mending.{AreAllowedMoves, mending_turns, moved_by, true_turns, turns_left};

/// Before the device is mended, at most two turns of a life more than there are keys with a lost page find a step due.
/// No move adds to the turns that are left, and each of these turns takes one of them.
pub fn mending_ends_soon()
    ensures at_the_opening { (n : Numbers) (c : Cells) (bad : Spot → Bool) (t : Translation) (lost : List Key) →
        IsOpenedTranslation n c bad t → AreLost c t.ledger.first_lost t.ledger.greatest_seen lost → turns_left t ≤ length lost + 2 }
    ensures turn { (t : Translation) →
        Valid t → is_mended t.work.mending ≡ false → is_step_due t ≡ true → suc (turns_left (turned t)) ≤ turns_left t }
    ensures each_move { (t : Translation) (move : Move) →
        Valid t → IsAllowedMove t move → turns_left (moved t move) ≤ turns_left t }
    ensures moves { (t : Translation) (moves : List Move) →
        Valid t → AreAllowedMoves t moves → mending_turns t moves + turns_left (moved_by t moves) ≤ turns_left t }
    ensures life { (n : Numbers) (c : Cells) (bad : Spot → Bool) (t : Translation) (lost : List Key) (moves : List Move) →
        1 ≤ n.pages → CellsRight c → AreWithin n c → CellsSound c t.ledger.newest → IsOpenedTranslation n c bad t →
        AreLost c t.ledger.first_lost t.ledger.greatest_seen lost → AreAllowedMoves t moves → mending_turns t moves ≤ length lost + 2 }
{}

/// In a life that is not mended at its end, at most two turns more than there are keys with a lost page were answered
/// true; over new dies at most two.
pub fn a_life_is_mended_soon()
    ensures life { (n : Numbers) (array : Array) (bad : Spot → Bool) (s t : State) (es : List Event) (os : List Output)
        (lost : List Key) →
        IsConfig n → IsArrayOf n array → Sound array → (opened : IsOpened n array bad s) →
        AreLost opened.cells s.translation.ledger.first_lost s.translation.ledger.greatest_seen lost →
        Life s es os t → mended t ≡ false → true_turns os ≤ length lost + 2 }
    ensures new_dies { (n : Numbers) (array : Array) (bad : Spot → Bool) (s t : State) (es : List Event) (os : List Output) →
        IsConfig n → ((p : Place) → array p ≡ blank_page) → IsOpened n array bad s → Life s es os t → mended t ≡ false →
        true_turns os ≤ 2 }
{}
