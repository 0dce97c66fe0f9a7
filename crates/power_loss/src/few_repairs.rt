//! The laws of repairs: a mending has no more keys to repair than the write cache has slots.
ghost use Rattle.std.specs.Prelude.{◌≡◌, ◌+◌, ◌∷◌, ◌≤◌, ℕ, Bool, false, All, List, Option, length};
ghost use Rattle.ufs_spec.specs.Cells.{AreWithin, Array, Cells, Mark, Nothing};
ghost use Rattle.ufs_spec.specs.Configs.{IsConfig};
ghost use Rattle.ufs_spec.specs.Dies.{DieState, blank_page};
ghost use Rattle.ufs_spec.specs.Disk.{CellCrash, Spot};
ghost use Rattle.ufs_spec.specs.Kept.{IsNewestMark};
ghost use Rattle.ufs_spec.specs.Lives.{IsOpened, Life, Lived, Lives, Runs, Stops, array_of, bad_of};
ghost use Rattle.ufs_spec.specs.Moves.{IsAllowedMove, Move, moved};
ghost use Rattle.ufs_spec.specs.Openings.{IsOpenedTranslation};
ghost use Rattle.ufs_spec.specs.Refusals.{State, mended};
ghost use Rattle.ufs_spec.specs.Sound.{CellsSound, Sound};
ghost use Rattle.ufs_spec.specs.Translation.{Translation};
ghost use Rattle.ufs_spec.specs.declared.configs.Numbers.{Numbers};
ghost use Rattle.ufs_spec.specs.declared.events.Event.{Event};
ghost use Rattle.ufs_spec.specs.declared.events.Leftover.{Leftover};
ghost use Rattle.ufs_spec.specs.declared.events.Output.{Output};
ghost use Rattle.ufs_spec.specs.declared.flash.Place.{Place};
ghost use Rattle.power_loss.specs.Book.{CellsRight};
ghost use Rattle.power_loss.specs.Exchange.{IsArrayOf};
ghost use Rattle.power_loss.specs.FewRepairs.{ArrayHasFewLost, HasFewLost, HasFewRepairs, MendsSoon, still_lost};
ghost use Rattle.power_loss.specs.Invariant.{Valid};
ghost use Rattle.power_loss.specs.Mending.{AreAllowedMoves, moved_by, true_turns};
ghost use Rattle.power_loss.specs.Runs.{AreNewDies};

/// In new dies no key has a lost page. If a life begins with no more such keys than the write cache
/// has slots, a stop at any moment leaves no more. Until the life is mended they are keys that it
/// had to repair itself. Afterwards they are keys of pages that are pending, and each of those has a
/// slot. Nothing is assumed of the host.
pub fn a_stop_leaves_few_repairs()
    ensures new_dies { (n : Numbers) (c : Cells) (m : Option Mark) → ((p : Place) → c p ≡ Nothing) → HasFewLost n c m }
    // A life begins in such a state, and each move keeps it.
    ensures opened { (n : Numbers) (c : Cells) (bad : Spot → Bool) (t : Translation) →
        1 ≤ n.pages → CellsRight c → AreWithin n c → CellsSound c t.ledger.newest → HasFewLost n c t.ledger.newest →
        IsOpenedTranslation n c bad t → HasFewRepairs t }
    ensures each_move { (t : Translation) (move : Move) → Valid t → IsAllowedMove t move → HasFewRepairs t →
        HasFewRepairs (moved t move) }
    ensures stop { (t : Translation) (left : Cells) (m : Option Mark) → Valid t → HasFewRepairs t →
        CellCrash t.disk.cells t.disk.flights left → IsNewestMark left m → HasFewLost t.numbers left m }
    // So it is of a whole life, whatever moves come.
    ensures life { (n : Numbers) (c left : Cells) (bad : Spot → Bool) (t : Translation) (m : Option Mark)
        (moves : List Move) → 1 ≤ n.pages → CellsRight c → AreWithin n c → CellsSound c t.ledger.newest →
        HasFewLost n c t.ledger.newest → IsOpenedTranslation n c bad t → AreAllowedMoves t moves →
        CellCrash (moved_by t moves).disk.cells (moved_by t moves).disk.flights left → IsNewestMark left m →
        HasFewLost n left m }
{}

/// Over any number of lives that began with new dies, each life begins with no more keys to repair
/// than the write cache has slots, and at most two turns more than slots are answered true before
/// the device is mended.
pub fn each_mending_is_short()
    ensures new_dies { (n : Numbers) (array : Array) → ((p : Place) → array p ≡ blank_page) → ArrayHasFewLost n array }
    ensures keys { (n : Numbers) (array : Array) (bad : Spot → Bool) (s : State) →
        ArrayHasFewLost n array → IsOpened n array bad s → length (still_lost s.translation.work.mending) ≤ n.slots }
    ensures turns { (n : Numbers) (array : Array) (bad : Spot → Bool) (s t : State) (es : List Event)
        (os : List Output) → IsConfig n → IsArrayOf n array → Sound array → ArrayHasFewLost n array →
        IsOpened n array bad s → Life s es os t → mended t ≡ false → true_turns os ≤ n.slots + 2 }
    ensures stop { (n : Numbers) (array : Array) (bad : Spot → Bool) (s t : State) (es : List Event)
        (os : List Output) (lefts : List Leftover) (left : Array) →
        IsConfig n → IsArrayOf n array → Sound array → ArrayHasFewLost n array → IsOpened n array bad s →
        Life s es os t → Stops t lefts left → ArrayHasFewLost n left }
    // So it goes on over any number of stops.
    ensures lives { (n : Numbers) (array : Array) (bad : Spot → Bool) (first : Lived) (later : List Lived)
        (es : List Event) (os : List Output) → IsConfig n → IsArrayOf n array → Sound array →
        ArrayHasFewLost n array → Lives n array bad first later es os → All (MendsSoon n) (first ∷ later) }
    ensures runs { (n : Numbers) (dies : List DieState) (s t : State) (es : List Event) (os : List Output) →
        IsConfig n → AreNewDies n dies → IsOpened n (array_of dies) (bad_of dies) s → Runs n s es os t →
        (first : Lived) × (later : List Lived) × Lives n (array_of dies) (bad_of dies) first later es os
        × All (MendsSoon n) (first ∷ later) }
{}
