//! The law of free blocks over stops: a stop costs none.
ghost use Rattle.std.specs.Prelude.{◌≡◌, ◌<◌, ◌≤◌, ℕ, Bool, true, List};
ghost use Rattle.std.specs.List.{count_by};
ghost use Rattle.ufs_spec.specs.Cells.{AreWithin, Cells, Nothing};
ghost use Rattle.ufs_spec.specs.Disk.{CellCrash, Free, Spot, spot_of};
ghost use Rattle.ufs_spec.specs.Moves.{IsAllowedMove, Move, TakeStep, moved};
ghost use Rattle.ufs_spec.specs.Openings.{IsOpenedTranslation};
ghost use Rattle.ufs_spec.specs.Sound.{CellsSound};
ghost use Rattle.ufs_spec.specs.Translation.{Translation, count_blocks, is_bad, is_free, is_step_due};
ghost use Rattle.ufs_spec.specs.declared.configs.Numbers.{Numbers};
ghost use Rattle.ufs_spec.specs.declared.flash.Place.{Place};
ghost use Rattle.power_loss.specs.Book.{CellsRight};
ghost use Rattle.many_stops.specs.FreeOverStops.{FailsStale, KeepsFree, NoneFailsStale};
ghost use Rattle.power_loss.specs.Invariant.{AreNoneStale, Valid};
ghost use Rattle.power_loss.specs.Mending.{AreAllowedMoves, moved_by};
ghost use Rattle.power_loss.specs.MendingRoom.{fails_job};

/// The next opening after a stop finds no fewer blocks free than there were, whatever the stop
/// left. Before the first step each block that was free is so again. Afterwards one free block at
/// most has pages that may go; if such a page has to be kept at the next opening, it is since
/// another block that was not free is free then.
pub fn a_stop_costs_no_free_block()
    // A life begins in such a state, and each move keeps it, unless it is the failed end of an erase
    // of pages that may go while another free block has such pages. After that a stop may cost free
    // blocks until the next step is ordered, or none has such pages.
    ensures opened { (n : Numbers) (c : Cells) (bad : Spot → Bool) (t : Translation) →
        IsOpenedTranslation n c bad t → KeepsFree t }
    ensures each_move { (t : Translation) (move : Move) →
        Valid t → IsAllowedMove t move → (FailsStale t move → ⊥) → KeepsFree t → KeepsFree (moved t move) }
    ensures no_failure { (t : Translation) (moves : List Move) → count_by fails_job moves ≡ 0 → NoneFailsStale t moves }
    // Whatever failed before, from the next step on it is so again.
    ensures at_order { (t : Translation) → is_step_due t ≡ true → KeepsFree (moved t TakeStep) }
    ensures stop { (t : Translation) (left : Cells) (next : Translation) →
        Valid t → KeepsFree t → CellCrash t.disk.cells t.disk.flights left →
        IsOpenedTranslation t.numbers left (λ s. is_bad (t.disk.blocks s)) next →
        count_blocks t is_free ≤ count_blocks next is_free }
    // A free block in which nothing opens is free again, and so is each where none has pages that may go.
    ensures blank { (t : Translation) (left : Cells) (next : Translation) (s : Spot) →
        IsOpenedTranslation t.numbers left (λ a. is_bad (t.disk.blocks a)) next → t.disk.blocks s ≡ Free →
        ((p : Place) → spot_of p ≡ s → left p ≡ Nothing) → next.disk.blocks s ≡ Free }
    ensures none_stale { (t : Translation) (left : Cells) (next : Translation) (s : Spot) →
        Valid t → AreNoneStale t.numbers t.disk.blocks t.disk.vacancies → CellCrash t.disk.cells t.disk.flights left →
        IsOpenedTranslation t.numbers left (λ a. is_bad (t.disk.blocks a)) next →
        s.die < t.numbers.dies → s.block < t.numbers.blocks → t.disk.blocks s ≡ Free → next.disk.blocks s ≡ Free }
    // So it is of a whole life, whatever moves come.
    ensures life { (n : Numbers) (c left : Cells) (bad : Spot → Bool) (t next : Translation) (moves : List Move) →
        1 ≤ n.pages → CellsRight c → AreWithin n c → CellsSound c t.ledger.newest → IsOpenedTranslation n c bad t →
        AreAllowedMoves t moves → NoneFailsStale t moves →
        CellCrash (moved_by t moves).disk.cells (moved_by t moves).disk.flights left →
        IsOpenedTranslation n left (λ s. is_bad ((moved_by t moves).disk.blocks s)) next →
        count_blocks (moved_by t moves) is_free ≤ count_blocks next is_free }
{}
