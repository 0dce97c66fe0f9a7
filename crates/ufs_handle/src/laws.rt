//! What holds of the definitions themselves. Each function does nothing: its contract is a law.
ghost use Rattle.std.specs.Prelude.{◌≡◌, ◌≤◌, ◌+◌, ◌*◌, ℕ, List, Some, length, replicate};
ghost use Rattle.std.specs.declared.alloc.Global.{Global};
ghost use Rattle.ufs_spec.specs.Dies.{DieState, new_die};
ghost use Rattle.ufs_spec.specs.Lives.{IsOpened, array_of, bad_of};
ghost use Rattle.ufs_spec.specs.Pages.{IsCheckRight};
ghost use Rattle.ufs_spec.specs.Refusals.{State};
ghost use Rattle.ufs_spec.specs.Sound.{Sound};
ghost use Rattle.ufs_spec.specs.declared.configs.Numbers.{Numbers};
ghost use Rattle.ufs_spec.specs.declared.flash.Page.{Page};
ghost use Rattle.ufs_handle.specs.Calls.{GivesUp, IsOpen};
ghost use Rattle.ufs_handle.specs.Kept.{HeldState};
ghost use Rattle.ufs_handle.specs.Left.{torn_page};
ghost use Rattle.ufs_handle.specs.OwnDies.{AreAnOwnRun, FitsOwn, IsOwnEvent, OwnCall, OwnMakeAll, OwnMakes};
ghost use Rattle.ufs_handle.specs.Runs.{AreARun, Call, FitsHeld, IsEvent, MakeAll, Makes, StandsAt};
ghost use Rattle.ufs_handle.specs.Steps.{settle_steps};

/// Rounds over so many dies are a turn and two steps of each die, each time.
pub fn rounds_are_counted()
    ensures { (dies rounds : ℕ) → length (settle_steps dies rounds) ≡ rounds * (1 + 2 * dies) }
{}

/// A torn page fails its check, whatever its bytes are: its check is the right one but for a bit. So what a stop or a
/// failed job leaves of a torn page is what the premises of the promise allow.
pub fn a_torn_page_fails_its_check()
    ensures { (page : Page) → 64 ≤ length page.spare → IsCheckRight (torn_page page) → ⊥ }
{}

/// A device that a handle opens over sound dies is the one that the definitions open over them. From then on each call
/// is the event of a run that it shows, and the handle stands at the state that this event leads to: a message, a
/// reply, a turn, a job and its end or its failure, a stop, also one after which the power stays off, and a save whose
/// image a handle opens again. The heap is that of the lists in events.
pub fn each_call_is_an_event()
    ensures opened { (n : Numbers) (dies : List DieState) (h : HeldState) (s : State) → IsOpen n dies (Some h) →
        Sound (array_of dies) → IsOpened n (array_of dies) (bad_of dies) s → FitsHeld h s }
    ensures called { (heap : Global) (c : Call) (h after : HeldState) (s : State) → StandsAt h s → Makes c h after →
        IsEvent c s after }
{}

/// The same of a handle whose dies are the program's own. What the program owes is that each die did its job in flight, or
/// failed at it, as was reported (`DidOn`), that nothing else changed a die, and that it opens a handle over its dies
/// again behind a power cut, which leaves each page that a job touched as it was, as intended or torn (`MayBeCut`).
pub fn calls_over_own_dies_keep_the_promise()
    ensures called { (heap : Global) (c : OwnCall) (h after : HeldState) (dies others : List DieState) (s : State) →
        FitsOwn h dies s → OwnMakes c h dies after others → IsOwnEvent c s after others }
    ensures promised { (heap : Global) (n : Numbers) (dies others : List DieState) (calls : List OwnCall)
        (first h after : HeldState) → Sound (array_of dies) → IsOpen n dies (Some first) → GivesUp first tt h →
        OwnMakeAll calls h dies after others → AreAnOwnRun n dies calls others }
{}

/// Whatever calls a program makes of a handle with dies in memory, they are a run: stopped at any moment, the device that
/// opens afterwards has its units, settings, RPMB area, key and counter as after a prefix of the accepted commands, and
/// this prefix holds every command that was acknowledged as durable. The dies were sound when the handle was opened,
/// as new ones are and those that any such calls leave.
pub fn calls_keep_the_promise()
    ensures promised { (heap : Global) (n : Numbers) (dies : List DieState) (calls : List Call)
        (first after : HeldState) → Sound (array_of dies) → IsOpen n dies (Some first) → MakeAll calls first after →
        AreARun n dies calls after }
    ensures over_new_dies { (heap : Global) (n : Numbers) (calls : List Call) (first after : HeldState) →
        IsOpen n (replicate n.dies (new_die n.blocks n.pages)) (Some first) → MakeAll calls first after →
        AreARun n (replicate n.dies (new_die n.blocks n.pages)) calls after }
{}
