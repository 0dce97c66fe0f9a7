//! The law of erasing: what may be erased may go, at any moment.
ghost use Rattle.std.specs.Prelude.{ℕ, Bool, Option};
ghost use Rattle.ufs_spec.specs.Cells.{AreWithin, Cells, Mark};
ghost use Rattle.ufs_spec.specs.Disk.{CellCrash, MayErase, Spot};
ghost use Rattle.ufs_spec.specs.Kept.{IsKept, IsNewestMark};
ghost use Rattle.ufs_spec.specs.Moves.{IsAllowedMove, Move, moved};
ghost use Rattle.ufs_spec.specs.Openings.{IsOpenedTranslation};
ghost use Rattle.ufs_spec.specs.Sound.{CellsSound, CellsSuit};
ghost use Rattle.ufs_spec.specs.Translation.{Translation};
ghost use Rattle.ufs_spec.specs.declared.configs.Numbers.{Numbers};
ghost use Rattle.power_loss.specs.Invariant.{IsPrefix, Valid};
ghost use Rattle.power_loss.specs.Losing.{IsStartRight, LosesIn};

/// A block of which each page may go may lose its pages at any moment, whether or not it is erased or is due to be,
/// and a stop may come as well: what is left is sound, suits the device, and stands for a prefix of the accepted
/// commands that has each acknowledged one and each durable one.
pub fn erasing_what_may_go_loses_nothing()
    // A life begins in such a state, and each move keeps it.
    ensures opened { (n : Numbers) (c : Cells) (bad : Spot → Bool) (t : Translation) →
        IsOpenedTranslation n c bad t → IsStartRight t }
    ensures keeps { (t : Translation) (move : Move) → Valid t → IsAllowedMove t move → IsStartRight t →
        IsStartRight (moved t move) }
    ensures within { (t : Translation) (s : Spot) (c left : Cells) →
        Valid t → CellCrash t.disk.cells t.disk.flights c → LosesIn s c left → AreWithin t.numbers left }
    ensures sound { (t : Translation) (s : Spot) (c left : Cells) (m : Option Mark) →
        Valid t → IsStartRight t → MayErase t.disk s → CellCrash t.disk.cells t.disk.flights c → LosesIn s c left →
        IsNewestMark left m → CellsSound left m }
    ensures suits { (t : Translation) (s : Spot) (c left : Cells) (m : Option Mark) →
        Valid t → IsStartRight t → MayErase t.disk s → CellCrash t.disk.cells t.disk.flights c → LosesIn s c left →
        IsNewestMark left m → CellsSuit t.numbers left m }
    ensures prefix { (t : Translation) (s : Spot) (c left : Cells) (m : Option Mark) (kept : ℕ) →
        Valid t → IsStartRight t → MayErase t.disk s → CellCrash t.disk.cells t.disk.flights c → LosesIn s c left →
        IsNewestMark left m → IsKept left m kept → IsPrefix t left m kept }
{}
