//! The law of the RPMB area that is read: what a request for data reads shows the area as it is.
ghost use Rattle.std.specs.Prelude.{◌≡◌, ℕ, ◌∷◌, Bool, List, Some};
ghost use Rattle.ufs_spec.specs.Cells.{Array};
ghost use Rattle.ufs_spec.specs.Disk.{Spot};
ghost use Rattle.ufs_spec.specs.Exchanges.{ReadBlock, ReadingArea, RpmbRequest, Task, task_of};
ghost use Rattle.ufs_spec.specs.Frames.{Frame};
ghost use Rattle.ufs_spec.specs.Lives.{IsOpened, Life};
ghost use Rattle.ufs_spec.specs.Machine.{Answer, Call, behind, observe};
ghost use Rattle.ufs_spec.specs.Refusals.{State, plain_now};
ghost use Rattle.ufs_spec.specs.declared.configs.Numbers.{Numbers};
ghost use Rattle.ufs_spec.specs.declared.events.Event.{Event};
ghost use Rattle.ufs_spec.specs.declared.events.Output.{Output};
ghost use Rattle.power_loss.specs.AreaReads.{ArePagesOf, AreaReads};
ghost use Rattle.power_loss.specs.Exchange.{IsTied, ValidState};

/// The pages that a request for RPMB data reads were found at its last data, and its response is made
/// once all of them are read (JESD220, 12.4). They are still the pages of the area then: from the
/// opening of a device to the end of its life at most one open task brings frames, and nothing else
/// changes the area.
pub fn a_request_reads_the_area_as_it_is()
    ensures opened { (n : Numbers) (array : Array) (bad : Spot → Bool) (s : State) →
        IsOpened n array bad s → AreaReads s }
    // Registers are filled from the state that a call leaves behind, before the lock is applied.
    ensures behind { (s : State) (call : Call) (answer : Answer) →
        IsTied s → AreaReads s → AreaReads (behind s call answer) }
    ensures call { (s : State) (call : Call) (answer : Answer) →
        IsTied s → AreaReads s → AreaReads (observe s call answer) }
    ensures life { (s t : State) (es : List Event) (os : List Output) →
        ValidState s → AreaReads s → Life s es os t → AreaReads t }
    // So they are the pages that the request names, with their content now.
    ensures pages { (s : State) (tag : ℕ) (task : Task) (pages : List ReadBlock)
        (request : RpmbRequest) (f : Frame) (fs : List Frame) →
        AreaReads s → task_of tag s.tasks ≡ Some task → task.deed ≡ ReadingArea pages →
        task.request ≡ Some request → request.frames ≡ f ∷ fs →
        ArePagesOf (plain_now s) request.region f pages }
{}
