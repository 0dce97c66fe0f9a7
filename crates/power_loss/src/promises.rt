//! What an answer promises: GOOD of a write with FUA and of a flush, and the reply of a short exchange that waits.
ghost use Rattle.std.specs.Prelude.{◌≡◌, ◌⊎◌, ◌≤◌, ℕ, true, false, List, Some, length};
ghost use Rattle.ufs_spec.specs.Exchanges.{Short};
ghost use Rattle.ufs_spec.specs.Lives.{Life, held};
ghost use Rattle.ufs_spec.specs.Refusals.{Request, State, blocks_brought, numbers_of};
ghost use Rattle.ufs_spec.specs.declared.Cdb.TheVariants as cdb;
ghost use Rattle.ufs_spec.specs.declared.Event.{Event};
ghost use Rattle.ufs_spec.specs.declared.Message.{Message};
ghost use Rattle.ufs_spec.specs.declared.Output.{Output};
ghost use Rattle.power_loss.specs.Exchange.{ValidState};
ghost use Rattle.power_loss.specs.Promises.{IsAnsweredGood, IsHeldWrite, IsReplied, StaysOpen, WasLocked, short_of};

/// GOOD of a flush without IMMED comes only once all commands accepted before its COMMAND are held. GOOD of a write with
/// FUA comes only once its own command is held, with the data that the host sent: of all its blocks, or on a device of
/// profile 1 of those that came. A short exchange that waits for n
/// commands is replied only once these are held; if the device locks before, it gets its other reply. What is held stays
/// held.
pub fn good_promises_durability()
    ensures flush { (s t u : State) (r : Request) (bytes : List ℕ)
        (es : List Event) (os : List Output) →
        ValidState s → r.cdb ≡ Some (cdb.Flush false) → IsAnsweredGood s r bytes t →
        Life t es os u → length s.accepted ≤ held u }
    ensures forced_write { (s t u : State) (r : Request) (bytes : List ℕ) (address blocks : ℕ)
        (es : List Event) (os : List Output) →
        ValidState s → r.cdb ≡ Some (cdb.Write address blocks true) → 1 ≤ blocks_brought r.expected blocks →
        IsAnsweredGood s r bytes t → Life t es os u →
        IsHeldWrite s r address (blocks_brought r.expected blocks) bytes u }
    ensures whole_write { (s t u : State) (r : Request) (bytes : List ℕ) (address blocks : ℕ)
        (es : List Event) (os : List Output) →
        ValidState s → (numbers_of s).profile ≡ 0 → r.cdb ≡ Some (cdb.Write address blocks true) → 1 ≤ blocks →
        IsAnsweredGood s r bytes t → Life t es os u → IsHeldWrite s r address blocks bytes u }
    ensures short { (s t u v : State) (short : Short) (n : ℕ) (m : Message)
        (es fs : List Event) (os ps : List Output) →
        ValidState s → short_of short.tag s ≡ Some short → short.awaits ≡ Some n → StaysOpen short.tag s es os t →
        IsReplied t short.tag m u → Life u fs ps v → ((m ≡ short.reply) × (n ≤ held v))
        ⊎ ((m ≡ short.locked_reply) × WasLocked s t) }
{}
