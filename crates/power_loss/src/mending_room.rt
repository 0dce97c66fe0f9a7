//! The law of the mending's room: a mending that begins with enough of it is never stuck.
ghost use Rattle.std.specs.Prelude.{◌≡◌, ◌+◌, ◌-◌, ◌*◌, ◌≤◌, ◌∷◌, ℕ, All, Bool, false, List, length};
ghost use Rattle.std.specs.List.{count_by};
ghost use Rattle.ufs_spec.specs.Cells.{AreWithin, Array, Cells};
ghost use Rattle.ufs_spec.specs.Configs.{IsConfig};
ghost use Rattle.ufs_spec.specs.Dies.{DieState};
ghost use Rattle.ufs_spec.specs.Disk.{Spot};
ghost use Rattle.ufs_spec.specs.Lives.{IsOpened, Life, Lived, Lives, Runs, array_of, bad_of};
ghost use Rattle.ufs_spec.specs.Moves.{IsAllowedMove, Move, moved};
ghost use Rattle.ufs_spec.specs.Openings.{AreLost, IsOpenedTranslation};
ghost use Rattle.ufs_spec.specs.Sound.{CellsSound, Sound};
ghost use Rattle.ufs_spec.specs.Refusals.{State, mended};
ghost use Rattle.ufs_spec.specs.Translation.{Translation, count_blocks, is_free, is_mended, least_room};
ghost use Rattle.ufs_spec.specs.declared.configs.Numbers.{Numbers};
ghost use Rattle.ufs_spec.specs.declared.events.Event.{Event};
ghost use Rattle.ufs_spec.specs.declared.events.Output.{Output};
ghost use Rattle.ufs_spec.specs.declared.flash.Key.{Key};
ghost use Rattle.power_loss.specs.Book.{CellsRight};
ghost use Rattle.power_loss.specs.Exchange.{IsArrayOf};
ghost use Rattle.power_loss.specs.FewRepairs.{ArrayHasFewLost};
ghost use Rattle.power_loss.specs.Invariant.{Valid};
ghost use Rattle.power_loss.specs.Mending.{AreAllowedMoves, moved_by};
ghost use Rattle.power_loss.specs.MendingRoom.{HasRoom, IsNeverStuck, MayGoOn, MendsAlone, failures_of, fails_job, makes_bad};
ghost use Rattle.power_loss.specs.Runs.{AreNewDies};

/// A mending is never stuck before the device is mended, if it begins with room for two pages more
/// than there are keys with a lost page, and with a block more for each program or erase that
/// fails. What the device's own pages need, less one for each die, is room for as many keys as the
/// cache has slots.
pub fn mending_with_room_goes_on()
    ensures at_the_opening { (n : Numbers) (c : Cells) (bad : Spot → Bool) (t : Translation) (lost : List Key) (failures : ℕ) →
        IsOpenedTranslation n c bad t → AreLost c t.ledger.first_lost t.ledger.greatest_seen lost →
        length lost + 2 + failures * n.pages ≤ n.pages * count_blocks t is_free → HasRoom failures t }
    ensures least_room { (n : Numbers) (c : Cells) (bad : Spot → Bool) (t : Translation) (lost : List Key) (failures : ℕ) →
        1 ≤ n.pages → IsOpenedTranslation n c bad t → AreLost c t.ledger.first_lost t.ledger.greatest_seen lost →
        length lost ≤ n.slots → least_room n - n.dies + failures ≤ count_blocks t is_free → HasRoom failures t }
    ensures cache { (n : Numbers) → 1 ≤ n.pages → n.slots + 2 ≤ n.pages * (least_room n - n.dies) }
    ensures alone { (n : Numbers) (c : Cells) (bad : Spot → Bool) (t : Translation) →
        IsOpenedTranslation n c bad t → MendsAlone t }
    ensures each_move { (t : Translation) (move : Move) (failures : ℕ) →
        Valid t → is_mended t.work.mending ≡ false → MendsAlone t → HasRoom (failures + failures_of move) t →
        IsAllowedMove t move → MendsAlone (moved t move) × HasRoom failures (moved t move) }
    ensures moves { (t : Translation) (moves : List Move) (failures : ℕ) →
        Valid t → MendsAlone t → HasRoom (failures + count_by fails_job moves) t → AreAllowedMoves t moves →
        is_mended (moved_by t moves).work.mending ≡ false →
        MendsAlone (moved_by t moves) × HasRoom failures (moved_by t moves) }
    ensures goes_on { (t : Translation) →
        Valid t → is_mended t.work.mending ≡ false → MendsAlone t → HasRoom 0 t → MayGoOn t }
    ensures life { (n : Numbers) (c : Cells) (bad : Spot → Bool) (t : Translation) (lost : List Key) (moves : List Move) →
        1 ≤ n.pages → CellsRight c → AreWithin n c → CellsSound c t.ledger.newest → IsOpenedTranslation n c bad t →
        AreLost c t.ledger.first_lost t.ledger.greatest_seen lost →
        length lost + 2 + count_by fails_job moves * n.pages ≤ n.pages * count_blocks t is_free →
        AreAllowedMoves t moves → is_mended (moved_by t moves).work.mending ≡ false → MayGoOn (moved_by t moves) }
{}

/// So a life that begins with such room is not stuck before the device is mended, whatever a host
/// sends and however reads end.
pub fn a_life_with_room_goes_on()
    ensures life { (n : Numbers) (array : Array) (bad : Spot → Bool) (s t : State) (es : List Event) (os : List Output)
        (lost : List Key) →
        IsConfig n → IsArrayOf n array → Sound array → (opened : IsOpened n array bad s) →
        AreLost opened.cells s.translation.ledger.first_lost s.translation.ledger.greatest_seen lost →
        length lost + 2 + count_by makes_bad es * n.pages ≤ n.pages * count_blocks s.translation is_free →
        Life s es os t → mended t ≡ false → MayGoOn t.translation }
    ensures least_room { (n : Numbers) (array : Array) (bad : Spot → Bool) (s t : State) (es : List Event)
        (os : List Output) (lost : List Key) →
        IsConfig n → IsArrayOf n array → Sound array → (opened : IsOpened n array bad s) →
        AreLost opened.cells s.translation.ledger.first_lost s.translation.ledger.greatest_seen lost →
        length lost ≤ n.slots → least_room n - n.dies + count_by makes_bad es ≤ count_blocks s.translation is_free →
        Life s es os t → mended t ≡ false → MayGoOn t.translation }
{}

/// Over any number of lives that began with new dies, a life is never stuck before it is mended, if
/// it finds as many blocks free as the device's own pages need, less one for each die. It needs one
/// more for each program or erase that fails in it.
pub fn lives_with_room_go_on()
    ensures few_lost { (n : Numbers) (array : Array) (bad : Spot → Bool) (s t : State) (es : List Event)
        (os : List Output) → IsConfig n → IsArrayOf n array → Sound array → ArrayHasFewLost n array →
        IsOpened n array bad s → least_room n - n.dies + count_by makes_bad es ≤ count_blocks s.translation is_free →
        Life s es os t → mended t ≡ false → MayGoOn t.translation }
    ensures lives { (n : Numbers) (array : Array) (bad : Spot → Bool) (first : Lived) (later : List Lived)
        (es : List Event) (os : List Output) → IsConfig n → IsArrayOf n array → Sound array →
        ArrayHasFewLost n array → Lives n array bad first later es os → All (IsNeverStuck n) (first ∷ later) }
    ensures runs { (n : Numbers) (dies : List DieState) (s t : State) (es : List Event) (os : List Output) →
        IsConfig n → AreNewDies n dies → IsOpened n (array_of dies) (bad_of dies) s → Runs n s es os t →
        (first : Lived) × (later : List Lived) × Lives n (array_of dies) (bad_of dies) first later es os
        × All (IsNeverStuck n) (first ∷ later) }
{}
