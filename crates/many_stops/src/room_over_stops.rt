//! The laws of room over stops: each opening finds room for its mending, so no device is ever locked out.
ghost use Rattle.std.specs.Prelude.{◌≡◌, ◌+◌, ◌*◌, ◌≤◌, ◌∷◌, ℕ, All, Bool, false, List, count_by};
ghost use Rattle.ufs_spec.specs.Cells.{AreWithin, Array, Cells, Nothing};
ghost use Rattle.ufs_spec.specs.Configs.{IsConfig};
ghost use Rattle.ufs_spec.specs.Dies.{DieState};
ghost use Rattle.ufs_spec.specs.Disk.{CellCrash, Spot};
ghost use Rattle.ufs_spec.specs.Lives.{IsOpened, Life, Lived, Lives, Runs, Stops, array_of, bad_in, bad_of};
ghost use Rattle.ufs_spec.specs.Moves.{Move};
ghost use Rattle.ufs_spec.specs.Openings.{IsOpenedTranslation};
ghost use Rattle.ufs_spec.specs.Refusals.{State, mended};
ghost use Rattle.ufs_spec.specs.Sound.{CellsSound, Sound};
ghost use Rattle.ufs_spec.specs.Translation.{Translation, is_bad, least_room, spots};
ghost use Rattle.ufs_spec.specs.declared.configs.Numbers.{Numbers};
ghost use Rattle.ufs_spec.specs.declared.events.Event.{Event};
ghost use Rattle.ufs_spec.specs.declared.events.Leftover.{Leftover};
ghost use Rattle.ufs_spec.specs.declared.events.Output.{Output};
ghost use Rattle.ufs_spec.specs.declared.flash.Place.{Place};
ghost use Rattle.power_loss.specs.Book.{CellsRight};
ghost use Rattle.power_loss.specs.Exchange.{IsArrayOf};
ghost use Rattle.power_loss.specs.FewRepairs.{ArrayHasFewLost, HasFewLost};
ghost use Rattle.power_loss.specs.Mending.{AreAllowedMoves, moved_by};
ghost use Rattle.power_loss.specs.MendingRoom.{MayGoOn, makes_bad};
ghost use Rattle.power_loss.specs.Runs.{AreNewDies};
ghost use Rattle.many_stops.specs.BorneFailures.{AreBorne, AreBorneMoves, IsBorneLife};
ghost use Rattle.many_stops.specs.RoomOfGroups.{mending_blocks};
ghost use Rattle.many_stops.specs.RoomOverStops.{FindsRoom, OpensWithRoom, more_bad};

/// New dies of which no more blocks are bad than there are spare ones have room for their mending,
/// and if an opening finds room, so does the next one, at whatever moment a stop comes. A device
/// that is not mended at once finds free as many blocks as one mending may need, and one for each
/// block that may still go bad. And so many besides are free or hold only what is lost as another
/// mending may need: those are free at the next opening, once the first mark is finished.
///
/// Programs and erases may fail meanwhile, up to the spare blocks, also while the device mends
/// (`IsBorne`): for each one block was free. What stays open is an erase of a block with pages that
/// may go that fails beside another such block.
pub fn each_opening_finds_room()
    ensures blocks { (n : Numbers) → IsConfig n →
        (n.slots + 2 ≤ n.pages * mending_blocks n) × (least_room n ≡ n.dies + 2 * mending_blocks n) }
    ensures new_dies { (n : Numbers) (c : Cells) (bad : Spot → Bool) (t : Translation) →
        IsConfig n → ((p : Place) → c p ≡ Nothing) → count_by bad (spots n) ≤ n.spare →
        IsOpenedTranslation n c bad t → FindsRoom t }
    ensures life { (n : Numbers) (c left : Cells) (bad : Spot → Bool) (t next : Translation)
        (moves : List Move) → IsConfig n → CellsRight c → AreWithin n c →
        CellsSound c t.ledger.newest → HasFewLost n c t.ledger.newest →
        IsOpenedTranslation n c bad t → FindsRoom t →
        AreAllowedMoves t moves → AreBorneMoves t moves →
        CellCrash (moved_by t moves).disk.cells (moved_by t moves).disk.flights left →
        IsOpenedTranslation n left (λ s. is_bad ((moved_by t moves).disk.blocks s)) next →
        FindsRoom next }
{}

/// So over any number of stops, from new dies on of which no more blocks are bad than there are
/// spare ones, no device is locked out: a life may go on until it is mended, whatever a host sends,
/// however reads end, and wherever the lives before it stopped. No more programs and erases may fail
/// in it than blocks may still go bad. The failures of the lives before it are borne.
pub fn no_life_is_locked_out()
    ensures goes_on { (n : Numbers) (array : Array) (bad : Spot → Bool) (s t : State)
        (es : List Event) (os : List Output) → IsConfig n → IsArrayOf n array → Sound array →
        ArrayHasFewLost n array → IsOpened n array bad s → FindsRoom s.translation →
        Life s es os t → count_by makes_bad es ≤ more_bad s.translation → mended t ≡ false →
        MayGoOn t.translation }
    ensures stop { (n : Numbers) (array : Array) (bad : Spot → Bool) (s t next : State)
        (es : List Event) (os : List Output) (lefts : List Leftover) (left : Array) →
        IsConfig n → IsArrayOf n array → Sound array → ArrayHasFewLost n array →
        IsOpened n array bad s → FindsRoom s.translation → Life s es os t →
        AreBorne s es os → Stops t lefts left →
        IsOpened n left (bad_in t) next → FindsRoom next.translation }
    ensures lives { (n : Numbers) (array : Array) (bad : Spot → Bool) (first : Lived)
        (later : List Lived) (es : List Event) (os : List Output) → IsConfig n →
        IsArrayOf n array → Sound array → ArrayHasFewLost n array →
        FindsRoom first.start.translation → Lives n array bad first later es os →
        All IsBorneLife (first ∷ later) → All OpensWithRoom (first ∷ later) }
    ensures runs { (n : Numbers) (dies : List DieState) (s t : State) (es : List Event)
        (os : List Output) → IsConfig n → AreNewDies n dies →
        count_by (bad_of dies) (spots n) ≤ n.spare → IsOpened n (array_of dies) (bad_of dies) s →
        Runs n s es os t →
        (first : Lived) × (later : List Lived)
        × Lives n (array_of dies) (bad_of dies) first later es os
        × (All IsBorneLife (first ∷ later) → All OpensWithRoom (first ∷ later)) }
{}
