//! The laws of a device with its dies, in events and bytes.
ghost use Rattle.std.specs.Prelude.{◌≡◌, ◌≤◌, ℕ, Bool, List, length, take};
ghost use Rattle.ufs_spec.specs.Cells.{Array};
ghost use Rattle.ufs_spec.specs.Configs.{IsConfig};
ghost use Rattle.ufs_spec.specs.Disk.{Spot};
ghost use Rattle.ufs_spec.specs.Kept.{StandsFor};
ghost use Rattle.ufs_spec.specs.Lives.{Chain, IsOpened, Leads, Life, Lived, Lives, Stops, held};
ghost use Rattle.ufs_spec.specs.Machine.{Allowed, Answer, Call, durable, observe};
ghost use Rattle.ufs_spec.specs.Plain.{Plain, after};
ghost use Rattle.ufs_spec.specs.Sound.{Sound, Suits};
ghost use Rattle.ufs_spec.specs.Refusals.{State, numbers_of};
ghost use Rattle.ufs_spec.specs.declared.Event.{Event};
ghost use Rattle.ufs_spec.specs.declared.Leftover.{Leftover};
ghost use Rattle.ufs_spec.specs.declared.Numbers.{Numbers};
ghost use Rattle.ufs_spec.specs.declared.Output.{Output};
ghost use Rattle.power_loss.specs.Exchange.{IsArrayOf, IsTied, MayCome, ValidState};

/// A device that was opened over a sound array is in a valid state.
pub fn opened_state_is_valid()
    ensures { (n : Numbers) (array : Array) (bad : Spot → Bool) (s : State) →
        IsConfig n → IsArrayOf n array → Sound array → IsOpened n array bad s → ValidState s }
{}

/// Each event that is answered rightly keeps the state valid, and so does a whole life.
pub fn each_event_keeps()
    ensures one { (s t : State) (e : Event) (o : Output) → ValidState s → Leads s e o t → ValidState t }
    ensures many { (s t : State) (es : List Event) (os : List Output) → ValidState s → Life s es os t → ValidState t }
{}

/// Each call that is answered rightly keeps the state tied to its dies and commands, whatever a failed job leaves.
pub fn each_call_keeps()
    ensures { (s : State) (call : Call) (answer : Answer) →
        IsTied s → MayCome s call → Allowed s call answer → IsTied (observe s call answer) }
{}

/// What a stop leaves of a valid state is sound and suits the device; and a device that is opened over it has the plain
/// state after a prefix of the accepted commands that holds every one acknowledged as durable, and every durable one.
pub fn next_life_begins_with_a_prefix()
    ensures sound { (s : State) (lefts : List Leftover) (left : Array) → ValidState s → Stops s lefts left → Sound left }
    ensures suits { (s : State) (lefts : List Leftover) (left : Array) → ValidState s → Stops s lefts left →
        Suits (numbers_of s) left }
    ensures within { (s : State) (lefts : List Leftover) (left : Array) → ValidState s → IsArrayOf (numbers_of s) s.array →
        Stops s lefts left → IsArrayOf (numbers_of s) left }
    ensures prefix { (s t : State) (lefts : List Leftover) (left : Array) (bad : Spot → Bool) →
        ValidState s → Stops s lefts left → IsOpened (numbers_of s) left bad t →
        (k : ℕ) × (held s ≤ k) × (durable s ≤ k) × (k ≤ length s.accepted) × (t.base ≡ after s.base (take k s.accepted)) }
{}

/// Over any number of lives, events and stops, each life's base is what a prefix of the commands accepted before its stop
/// makes of the base before it, and the prefix holds every command acknowledged as durable.
pub fn lives_are_chained()
    ensures { (n : Numbers) (array : Array) (bad : Spot → Bool) (first : Lived) (later : List Lived)
        (es : List Event) (os : List Output) (base : Plain) →
        IsConfig n → IsArrayOf n array → Sound array → StandsFor n array base → Lives n array bad first later es os →
        (ks : List ℕ) × Chain base first later ks }
{}
