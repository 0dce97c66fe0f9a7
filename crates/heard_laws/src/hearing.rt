//! What a journal hears of one life.
ghost use Rattle.std.specs.Prelude.{◌≡◌, Bool, List};
ghost use Rattle.ufs_spec.specs.Cells.{Array};
ghost use Rattle.ufs_spec.specs.Configs.{IsConfig};
ghost use Rattle.ufs_spec.specs.Disk.{Spot};
ghost use Rattle.ufs_spec.specs.Lives.{IsOpened, Leads, Life, held};
ghost use Rattle.ufs_spec.specs.Refusals.{State};
ghost use Rattle.ufs_spec.specs.declared.Event.{Event};
ghost use Rattle.ufs_spec.specs.declared.Numbers.{Numbers};
ghost use Rattle.ufs_spec.specs.declared.Output.{Output};
ghost use Rattle.power_loss.specs.Runs.{MayBeOpened};
ghost use Rattle.rpmb.specs.declared.RegionState.{RegionState};
ghost use Rattle.journal.specs.Heard.{Heard};
ghost use Rattle.heard_laws.specs.Listening.{AreRegionsOf, IsNoMessage, Listens, begun_in};
ghost use Rattle.heard_laws.specs.Resolving.{AreAmong, Resolves};

/// A journal can begin with each base over which a life begins. Each life can be heard, and what is heard is a life.
pub fn each_life_is_heard()
    ensures begins { (n : Numbers) (array : Array) (bad : Spot → Bool) (s : State) →
        IsConfig n → MayBeOpened n array → IsOpened n array bad s →
        (regions : List RegionState) × AreRegionsOf regions s.base }
    ensures heard { (s t : State) (j : Heard) (es : List Event) (os : List Output) →
        Life s es os t → (k : Heard) × Listens s j es os t k }
    ensures life { (s t : State) (j k : Heard) (es : List Event) (os : List Output) →
        Listens s j es os t k → Life s es os t }
{}

/// Nothing but a message of the host has a command accepted: no reply, no job of a die and no turn does.
pub fn a_message_alone_accepts()
    ensures { (s t : State) (e : Event) (o : Output) → IsNoMessage e → Leads s e o t → t.accepted ≡ s.accepted }
{}

/// A journal notes the commands that the device accepted, in their order, from the messages of a life and its replies
/// alone. A setting that it has in doubt was accepted or was not, and one that it has as refused was not. The device
/// holds what the journal has as acknowledged.
pub fn what_is_heard_is_accepted()
    ensures accepted { (n : Numbers) (array : Array) (bad : Spot → Bool) (s t : State) (regions : List RegionState)
        (es : List Event) (os : List Output) (j : Heard) →
        IsConfig n → MayBeOpened n array → IsOpened n array bad s → AreRegionsOf regions s.base →
        Listens s (begun_in s regions) es os t j → Resolves j.entries t.accepted }
    ensures acknowledged { (n : Numbers) (array : Array) (bad : Spot → Bool) (s t : State) (regions : List RegionState)
        (es : List Event) (os : List Output) (j : Heard) →
        IsConfig n → MayBeOpened n array → IsOpened n array bad s → AreRegionsOf regions s.base →
        Listens s (begun_in s regions) es os t j → AreAmong j.entries j.held t.accepted (held t) }
{}
