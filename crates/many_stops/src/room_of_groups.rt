//! The laws of the room that groups leave: once a life has programmed for its host, a stop finds as
//! many blocks free as the next mending may need; and a life that has not leaves nothing to mend.
ghost use Rattle.std.specs.Prelude.{◌≡◌, ◌⊎◌, ◌+◌, ◌*◌, ◌≤◌, Bool, true};
ghost use Rattle.ufs_spec.specs.Cells.{Cells};
ghost use Rattle.ufs_spec.specs.Disk.{CellCrash, Spot};
ghost use Rattle.ufs_spec.specs.Moves.{IsAllowedMove, Move, moved};
ghost use Rattle.ufs_spec.specs.Openings.{IsOpenedTranslation};
ghost use Rattle.ufs_spec.specs.Translation.{Translation, count_blocks, is_bad, is_free, is_mended, may_go_bad};
ghost use Rattle.ufs_spec.specs.declared.configs.Numbers.{Numbers};
ghost use Rattle.power_loss.specs.FewRepairs.{HasFewRepairs};
ghost use Rattle.power_loss.specs.Invariant.{Valid};
ghost use Rattle.many_stops.specs.RoomOfGroups.{HasHandedOut, HasNothingToMend, IsWithinSpare, LeavesOwnRoom, mending_blocks};

/// While no more blocks are bad than are spare, a life that has handed a page of an accepted command
/// to a die leaves the device's own pages their room, whatever fails. For each block that may still
/// go bad one is kept free. Below the room a block is opened only where none is being filled, and a
/// plan of a block that is not bad takes no more pages than a block has: so the plan ends in the
/// block that it opened, and frees another. A plan of a bad block frees none, and may open two
/// blocks. But it begins only where more blocks are free than the room by those two; and while it is
/// under way groups leave these as well.
pub fn groups_leave_their_room_at_each_stop()
    ensures opened { (n : Numbers) (c : Cells) (bad : Spot → Bool) (t : Translation) →
        IsOpenedTranslation n c bad t → LeavesOwnRoom t }
    ensures each_move { (t : Translation) (move : Move) → Valid t → IsAllowedMove t move → IsWithinSpare t move →
        LeavesOwnRoom t → LeavesOwnRoom (moved t move) }
    ensures stop { (t : Translation) → LeavesOwnRoom t → HasHandedOut t →
        2 * mending_blocks t.numbers + may_go_bad t.numbers (count_blocks t is_bad) ≤ count_blocks t is_free }
    // Which of the two it is can be told from its accepted groups, and from what the dies hold.
    ensures either { (t : Translation) → Valid t → HasHandedOut t ⊎ (HasHandedOut t → ⊥) }
{}

/// A mended life that has handed no page of an accepted command to a die leaves nothing to mend: over
/// whatever a stop leaves of it the next life, with the same numbers, is mended from its start.
pub fn an_idle_life_leaves_nothing_to_mend()
    ensures stop { (t next : Translation) (left : Cells) (bad : Spot → Bool) →
        Valid t → HasFewRepairs t → is_mended t.work.mending ≡ true → (HasHandedOut t → ⊥) →
        CellCrash t.disk.cells t.disk.flights left → IsOpenedTranslation t.numbers left bad next →
        HasNothingToMend next }
{}
