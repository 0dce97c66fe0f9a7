//! The law of pending groups: how accepted groups become durable.
ghost use Rattle.std.specs.Prelude.{◌≡◌, ℕ, ◌+◌, ◌<◌, ◌≤◌, Bool, false, List, [], ◌∷◌, ◌++◌, drop, length, slice_get, take, Option, Some, None};
ghost use Rattle.ufs_spec.specs.Cells.{Cells};
ghost use Rattle.ufs_spec.specs.Disk.{Spot};
ghost use Rattle.ufs_spec.specs.Keys.{Group, put_groups};
ghost use Rattle.ufs_spec.specs.Ledger.{all_contents, before_accepted, durable_contents, pending};
ghost use Rattle.ufs_spec.specs.Moves.{IsAllowedMove, Move, moved};
ghost use Rattle.ufs_spec.specs.Openings.{IsOpenedTranslation};
ghost use Rattle.ufs_spec.specs.Translation.{Translation};
ghost use Rattle.ufs_spec.specs.declared.configs.Numbers.{Numbers};
ghost use Rattle.power_loss.specs.Invariant.{Valid};
ghost use Rattle.power_loss.specs.Pending.{FrontierStops, PendingStays, accepted_by, brings_page};

/// An accepted group is pending, after all others. A move makes a front of the pending groups durable, in their
/// order, and only if it ends well the program of a page that stood nowhere: any other move, as a turn, a copy, a
/// read or a failed job, leaves what is pending and what is durable.
pub fn pending_groups_become_durable_in_order()
    ensures accept { (t : Translation) (move : Move) (g : Group) → Valid t → IsAllowedMove t move →
        accepted_by move ≡ Some g →
        (pending (moved t move).ledger ≡ pending t.ledger ++ g ∷ [])
        × (durable_contents (moved t move).ledger ≡ durable_contents t.ledger) }
    ensures front { (t : Translation) (move : Move) → Valid t → IsAllowedMove t move → accepted_by move ≡ None →
        (k : ℕ) × (pending (moved t move).ledger ≡ drop k (pending t.ledger))
        × (durable_contents (moved t move).ledger ≡ put_groups (durable_contents t.ledger) (take k (pending t.ledger))) }
    ensures others { (t : Translation) (move : Move) → Valid t → IsAllowedMove t move → FrontierStops t.ledger →
        accepted_by move ≡ None → brings_page t move ≡ false → PendingStays t.ledger (moved t move).ledger }
    // The group after the frontier always has a page that does not stand; so has the first pending one once the repairs
    // are durable.
    ensures stops { (t : Translation) (move : Move) → Valid t → IsAllowedMove t move → FrontierStops t.ledger →
        FrontierStops (moved t move).ledger }
    ensures opened { (n : Numbers) (c : Cells) (bad : Spot → Bool) (t : Translation) →
        IsOpenedTranslation n c bad t → FrontierStops t.ledger }
    ensures first { (t : Translation) (g : Group) → Valid t → FrontierStops t.ledger →
        before_accepted t.ledger ≤ t.ledger.frontier → slice_get (pending t.ledger) 0 ≡ Some g →
        (i : ℕ) × (i < length g) × (t.ledger.standing (t.ledger.frontier + 1) i ≡ None) }
    // What is durable and what is pending are all there is.
    ensures all { (t : Translation) → Valid t →
        put_groups (durable_contents t.ledger) (pending t.ledger) ≡ all_contents t.ledger }
{}
