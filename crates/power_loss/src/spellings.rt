//! Every reply is a message of the grammar, of at most 4128 bytes.
ghost use Rattle.std.specs.Prelude.{◌≡◌, ◌≤◌, ℕ, Bool, List, length, slice_get, Some};
ghost use Rattle.ufs_laws.specs.Exchange.{IsSpoken};
ghost use Rattle.ufs_laws.specs.Replies.{ShortsSpeak, TaskSpeaks};
ghost use Rattle.ufs_spec.specs.Cells.{Array};
ghost use Rattle.ufs_spec.specs.Disk.{Spot};
ghost use Rattle.ufs_spec.specs.Exchanges.{Short, Task};
ghost use Rattle.ufs_spec.specs.Lives.{IsOpened, Life};
ghost use Rattle.ufs_spec.specs.Machine.{Allowed, Answer, Call, Due, deed_reply, observe};
ghost use Rattle.ufs_spec.specs.Messages.{IsMessage, spelling};
ghost use Rattle.ufs_spec.specs.Refusals.{State};
ghost use Rattle.ufs_spec.specs.declared.Event.{Event};
ghost use Rattle.ufs_spec.specs.declared.Message.{Message};
ghost use Rattle.ufs_spec.specs.declared.Numbers.{Numbers};
ghost use Rattle.ufs_spec.specs.declared.Output.{Output};
ghost use Rattle.power_loss.specs.Exchange.{IsTied, ValidState};
ghost use Rattle.power_loss.specs.WaitingFrames.{TasksSpeak};

/// A message is spelled in at most 4128 bytes. Each reply that is due is one, from the opening of a device to the end
/// of its life: a task's LUN, tag and numbers fit their fields, each block that it sends is 4096 bytes, and what waits
/// in the registers of the RPMB are one to eight frames of 512 bytes; the reply of a short exchange has its fields from
/// the message that opened it, and the reply to a query its value and its descriptor from the device.
pub fn replies_can_be_spelled()
    ensures size { (m : Message) → IsMessage m → length (spelling m) ≤ 4128 }
    ensures task { (s : State) (task : Task) (m : Message) → TaskSpeaks task → deed_reply s task task.deed ≡ Some m →
        IsMessage m }
    ensures open { (n : Numbers) (array : Array) (bad : Spot → Bool) (s : State) → IsOpened n array bad s →
        TasksSpeak s }
    ensures call { (s : State) (call : Call) (answer : Answer) → IsTied s → IsSpoken call → Allowed s call answer →
        TasksSpeak s → TasksSpeak (observe s call answer) }
    ensures life { (s : State) (es : List Event) (os : List Output) (t : State) → ValidState s → TasksSpeak s →
        Life s es os t → TasksSpeak t }
    ensures short { (s : State) (k : ℕ) (short : Short) → ShortsSpeak s → slice_get s.shorts k ≡ Some short →
        IsMessage short.reply }
    ensures shorts_open { (n : Numbers) (array : Array) (bad : Spot → Bool) (s : State) → IsOpened n array bad s →
        ShortsSpeak s }
    ensures shorts_call { (s : State) (call : Call) (answer : Answer) → IsTied s → IsSpoken call →
        Allowed s call answer → ShortsSpeak s → ShortsSpeak (observe s call answer) }
    ensures shorts_life { (s : State) (es : List Event) (os : List Output) (t : State) → ValidState s → ShortsSpeak s →
        Life s es os t → ShortsSpeak t }
    ensures due { (s : State) (m : Message) → TasksSpeak s → ShortsSpeak s → Due s m →
        IsMessage m × (length (spelling m) ≤ 4128) }
{}
