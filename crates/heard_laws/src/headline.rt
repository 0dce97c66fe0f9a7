//! The promise of power loss, in what was heard.
ghost use Rattle.std.specs.Prelude.{List};
ghost use Rattle.ufs_spec.specs.Configs.{IsConfig};
ghost use Rattle.ufs_spec.specs.Dies.{DieState};
ghost use Rattle.ufs_spec.specs.Lives.{Headline, array_of, bad_of};
ghost use Rattle.ufs_spec.specs.declared.Event.{Event};
ghost use Rattle.ufs_spec.specs.declared.Numbers.{Numbers};
ghost use Rattle.ufs_spec.specs.declared.Output.{Output};
ghost use Rattle.power_loss.specs.Runs.{LivesRight};
ghost use Rattle.heard_laws.specs.HeardHeadline.{HeardHeadline};

/// Over any number of stops each life begins with what the first commands of the life before it make of that life's
/// base. The bytes of the host's messages and of the replies tell which commands these are, and which were acknowledged
/// and so are among them.
pub fn the_promise_is_read_off_the_bytes()
    ensures { (n : Numbers) (dies : List DieState) (events : List Event) (trace : List Output) →
        IsConfig n → (h : Headline n dies events trace) →
        LivesRight n (array_of dies) (bad_of dies) h.first h.later → HeardHeadline n dies events trace }
{}
