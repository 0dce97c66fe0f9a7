//! The laws of what threads do: it is a life of the specified device, and a stop may come at any
//! moment of it.
ghost use Rattle.std.specs.Prelude.{◌≤◌, ◌∷◌, ◌++◌, ℕ, [], All, List, map};
ghost use Rattle.std.specs.Global.{Vec};
ghost use Rattle.atomic_table.specs.Table as tables;
ghost use Rattle.ufs_spec.specs.Dies.{CanDo, Did, DieState, IsOfSize};
ghost use Rattle.ufs_spec.specs.Lives.{IsOpened, array_of, bad_of};
ghost use Rattle.ufs_spec.specs.Refusals.{State};
ghost use Rattle.ufs_spec.specs.Sound.{Sound};
ghost use Rattle.ufs_spec.specs.declared.Job.{Job};
ghost use Rattle.ufs_spec.specs.declared.Leftover.{Leftover};
ghost use Rattle.ufs_spec.specs.declared.Numbers.{Numbers};
ghost use Rattle.ufs_spec.specs.declared.Outcome.{Outcome};
ghost use Rattle.power_loss.specs.Runs.{AreNewDies};
ghost use Rattle.device.specs.Describes.{Describes};
ghost use Rattle.device.specs.Kept.{DeviceCore};
ghost use Rattle.lanes.specs.Aborted.{Aborts, AbortsBehind, IsReplyOf, IsTakenOf};
ghost use Rattle.lanes.specs.Legal.{Legal};
ghost use Rattle.lanes.specs.Promised.{IsAsLeft, IsLife, IsStoppedSafely, KeepsItsPromise};
ghost use Rattle.lanes.specs.Promised.{KeepsItsPromiseStopped, MayBeStopped};
ghost use Rattle.lanes.specs.Rule.{IsLegal, IsOpening, IsOpeningOf, IsStart, Kept};
ghost use Rattle.lanes.specs.declared.view.Entry.{Entry};
ghost use Rattle.lanes.specs.declared.view.Opening.{Opening};
ghost use Rattle.lanes.specs.declared.view.View.{View};

use nand_model::Die;

/// A device that was opened over new dies may be shared among threads.
pub fn a_device_over_new_dies_may_be_shared<D: Die>()
    ensures { (core : DeviceCore) (dies : List D) (config : Numbers) →
        AreNewDies config (map D.state dies) →
        ((s : State) → Sound (array_of (map D.state dies)) →
        IsOpened config (array_of (map D.state dies)) (bad_of (map D.state dies)) s →
        Describes core s) →
        IsOpeningOf D.state core dies }
{}

/// A legal list of steps is a life of the specified device: each step is an event, and its answer
/// is what the event shows.
pub fn legal_steps_are_a_life()
    ensures { (s t : State) (list : List Entry) → Legal s list t → IsLife s list t }
{}

/// What a caller has seen, from the opening on, keeps the promise: each reply, job and turn in it
/// is right.
pub fn what_was_seen_keeps_the_promise<D: Die>()
    ensures { (opening : Opening D) (list : List Entry) → IsOpening D.state opening →
        IsLegal D.state opening list → KeepsItsPromise D.state opening list [] [] }
{}

/// No reply of an aborted task is handed out, at whichever port and whatever the other threads do. The
/// device takes a request that aborts a task (JESD220, 10.7.6): behind this step no reply has the tag of
/// the task, up to the next message with this tag that the device takes. Task management has tags of its
/// own: what has the tag and is of task management is not meant.
pub fn no_reply_of_an_aborted_task_is_handed_out<D: Die>()
    ensures steps { (opening : Opening D) (start s end : State) (before between after : List Entry)
        (abort reply : Entry) (tag : ℕ) → IsOpening D.state opening →
        IsStart D.state opening start → Legal start before s → Aborts s tag abort.made →
        All (λ e. IsTakenOf tag e.made → ⊥) between →
        Legal s (abort ∷ between ++ reply ∷ after) end → IsReplyOf tag reply.made → ⊥ }
    // So it is in whatever a caller has seen.
    ensures seen { (opening : Opening D) (before between after : List Entry)
        (abort reply : Entry) (tag : ℕ) → IsOpening D.state opening →
        IsLegal D.state opening (before ++ (abort ∷ between ++ reply ∷ after)) →
        AbortsBehind D.state opening before tag abort.made →
        All (λ e. IsTakenOf tag e.made → ⊥) between → IsReplyOf tag reply.made → ⊥ }
{}

/// Stopped at any moment, inside any job of any lane and under every order of the threads' steps,
/// the device that opens afterwards has the plain state after a prefix of the accepted commands,
/// and this prefix holds every command that was acknowledged as durable.
///
/// At each moment the table keeps its rule, and so there is a list of all steps that were made.
/// With the stop at its end it keeps the promise. Each die holds what its lane knows, save the one
/// job in flight, of which a leftover is found.
pub fn a_stop_among_threads_leaves_a_prefix<D: Die>()
    ensures promise { (opening : Opening D) (t : tables.State DeviceCore (View D)) (kept : Kept
        D.state opening t)
        (lefts : Vec Leftover) → MayBeStopped kept.world lefts.items →
        KeepsItsPromiseStopped D.state opening kept.list lefts }
    ensures prefix { (opening : Opening D) (t : tables.State DeviceCore (View D)) (kept : Kept
        D.state opening t)
        (lefts : Vec Leftover) (start : State) → MayBeStopped kept.world lefts.items →
        IsStart D.state opening start →
        IsStoppedSafely D.state opening kept.list kept.world lefts.items start }
{}

/// A die that has done its job, well or not, holds what an interruption of the job may leave. So a
/// stop after the work, before the lane has ended the job, is one of those above.
pub fn a_job_that_is_done_may_be_left()
    ensures { (failed now pages blocks : ℕ) (before after : DieState) (j : Job) (o : Outcome) →
        pages ≤ 256 →
        IsOfSize blocks pages before → CanDo before j → Did failed now before j o after →
        IsAsLeft pages before j after }
{}
