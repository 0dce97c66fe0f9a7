//! The laws of what is kept for a READ or a request for RPMB data: it shows what is sent.
ghost use Rattle.std.specs.Prelude.{◌≡◌, ℕ, Bool, true, Contains, List, Some, slice_get};
ghost use Rattle.ufs_spec.specs.Cells.{Array};
ghost use Rattle.ufs_spec.specs.Disk.{Spot};
ghost use Rattle.ufs_spec.specs.Exchanges.{Comparing, ReadBlock, ReadingArea, Sending, Task, block_message, task_of};
ghost use Rattle.ufs_spec.specs.declared.exchanges.ReadState.TheVariants.{WasRead};
ghost use Rattle.ufs_spec.specs.Keys.{IsKey, content};
ghost use Rattle.ufs_spec.specs.Lives.{IsOpened, Life};
ghost use Rattle.ufs_spec.specs.Machine.{Allowed, Answer, Call, deed_reply, observe};
ghost use Rattle.ufs_spec.specs.Moves.{look_now};
ghost use Rattle.ufs_spec.specs.Plain.{shape_of_numbers};
ghost use Rattle.ufs_spec.specs.Refusals.{State, numbers_of, plain_now};
ghost use Rattle.ufs_spec.specs.Translation.{Pin};
ghost use Rattle.ufs_spec.specs.declared.configs.Numbers.{Numbers};
ghost use Rattle.ufs_spec.specs.declared.events.Event.{Event};
ghost use Rattle.ufs_spec.specs.declared.events.Output.{Output};
ghost use Rattle.ufs_spec.specs.declared.flash.Key.{Key};
ghost use Rattle.ufs_spec.specs.declared.flash.Place.{Place};
ghost use Rattle.ufs_spec.specs.declared.layer.Looked.TheVariants.{OnPage};
ghost use Rattle.ufs_spec.specs.declared.layer.Name.{Name};
ghost use Rattle.power_loss.specs.Exchange.{IsTied, MayCome, ValidState};
ghost use Rattle.power_loss.specs.Invariant.{IsGroupPage};
ghost use Rattle.power_loss.specs.Shown.{IsShown, ShowsReads};

/// What is looked up of each key of the device shows the key's content now, whether it is mended or not. Each pin is of an open
/// task, and if the task is a READ, the pin shows the block of its index, at each moment of a life. So the page that is
/// kept for a block has the bytes of its DATA IN. It is likewise with the area pages that a request for RPMB data reads.
pub fn kept_content_is_what_is_sent()
    ensures looked { (s : State) (k : Key) → IsTied s → IsKey (shape_of_numbers (numbers_of s)) k →
        IsShown s.translation.ledger k (look_now s.translation k) (content (plain_now s) k) }
    ensures opened { (n : Numbers) (array : Array) (bad : Spot → Bool) (s : State) →
        IsOpened n array bad s → ShowsReads s }
    ensures call { (s : State) (call : Call) (answer : Answer) →
        IsTied s → MayCome s call → Allowed s call answer → ShowsReads s → ShowsReads (observe s call answer) }
    ensures life { (s t : State) (es : List Event) (os : List Output) →
        ValidState s → ShowsReads s → Life s es os t → ShowsReads t }
    // The page of each block that is still to be sent has the block's body.
    ensures page { (s : State) (pin : Pin) (task : Task) (blocks : List ReadBlock) (sent : ℕ) (block : ReadBlock)
        (name : Name) (place : Place) → IsTied s → ShowsReads s → Contains s.translation.pins pin →
        task_of pin.tag s.tasks ≡ Some task → task.deed ≡ Sending blocks sent →
        slice_get blocks pin.index ≡ Some block → pin.looked ≡ OnPage name place →
        (g : IsGroupPage s.translation.disk.cells s.translation.disk.finished s.translation.disk.erasing name place) →
        g.body ≡ block.body }
    // And the page that a request for RPMB data reads of the area has the body that is kept of it.
    ensures area { (s : State) (pin : Pin) (task : Task) (pages : List ReadBlock) (page : ReadBlock) (name : Name)
        (place : Place) → IsTied s → ShowsReads s → Contains s.translation.pins pin →
        task_of pin.tag s.tasks ≡ Some task → task.deed ≡ ReadingArea pages →
        slice_get pages pin.index ≡ Some page → pin.looked ≡ OnPage name place →
        (g : IsGroupPage s.translation.disk.cells s.translation.disk.finished s.translation.disk.erasing name place) →
        g.body ≡ page.body }
    // And so has the page of each block that is still to be compared.
    ensures compared { (s : State) (pin : Pin) (task : Task) (blocks : List ReadBlock) (compared : ℕ) (asked : Bool)
        (block : ReadBlock) (name : Name) (place : Place) → IsTied s → ShowsReads s →
        Contains s.translation.pins pin → task_of pin.tag s.tasks ≡ Some task →
        task.deed ≡ Comparing blocks compared asked → slice_get blocks pin.index ≡ Some block →
        pin.looked ≡ OnPage name place →
        (g : IsGroupPage s.translation.disk.cells s.translation.disk.finished s.translation.disk.erasing name place) →
        g.body ≡ block.body }
    // Once the page of a block was read, the next reply of its READ carries it.
    ensures sent { (s : State) (pin : Pin) (task : Task) (blocks : List ReadBlock) (sent : ℕ) (block : ReadBlock)
        (name : Name) (place : Place) → IsTied s → ShowsReads s → Contains s.translation.pins pin → pin.index ≡ sent →
        task_of pin.tag s.tasks ≡ Some task → task.deed ≡ Sending blocks sent → slice_get blocks sent ≡ Some block →
        block.state ≡ WasRead → pin.looked ≡ OnPage name place →
        (g : IsGroupPage s.translation.disk.cells s.translation.disk.finished s.translation.disk.erasing name place) →
        deed_reply s task task.deed ≡ Some (block_message task sent g.body) }
{}
