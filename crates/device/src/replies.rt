//! Replies: which are due, what they say, and what becomes of their tasks.
ghost use Rattle.std.specs.Prelude.{◌≡◌, ◌<◌, ◌≤◌, ◌+◌, ℕ, List, false, length, nat_le, position, true, slice_get};
ghost use Rattle.std.specs.Prelude.{if◌then◌else◌, IfSome, IfNone, Some, None, option_copied, option_map};
ghost use Rattle.ufs_spec.specs.Ledger.{before_accepted};
ghost use Rattle.ufs_spec.specs.Machine.{Reply, OfReply};
ghost use Rattle.ufs_spec.specs.Messages.{spelling};
ghost use Rattle.ufs_spec.specs.Moves.{Acknowledge, LetGo, LetGoAll, WantPage, moved};
ghost use Rattle.ufs_spec.specs.Plain.{zero_block};
ghost use Rattle.ufs_spec.specs.Refusals.{State};
ghost use Rattle.ufs_spec.specs.Translation.{Translation, is_mended};
ghost use Rattle.ufs_spec.specs.declared.layer.Looked.TheVariants.{InSlot};
ghost use Rattle.power_loss.specs.Book.{book};
ghost use Rattle.power_loss.specs.Invariant.{LookedRight};
ghost use Rattle.ufs_spec.specs.declared.layer.Name.{Name};
ghost use Rattle.ftl_core.specs.Public.{AreClaimed, Claims, Describes as IsLayer};
ghost use Rattle.device.specs.Kept.{IsLayerWith};
ghost use Rattle.task_set.specs.declared.tasks.Short.{Short};
ghost use Rattle.device.specs.Describes.{Describes, IsAnswered, IsReplied};
ghost use Rattle.device.specs.Hears.{with_event};
ghost use Rattle.device.specs.Replies.{HasMoved, IsWritten, answer_of, block_at, block_for, block_message, short_message};
ghost use Rattle.task_set.specs.Kept.{OpenTask};
ghost use Rattle.task_set.specs.Lists.{held_at, read_at, task_at};
ghost use Rattle.device.specs.Replies.{IsShortReplied, area_reply, frames_message, moved_on, owed_by, owed_in};
ghost use Rattle.device.specs.Replies.{are_verified, block_wanted_message, verify_reply, with_own_block};
ghost use Rattle.device.specs.Replies.{without_short, without_task};
ghost use Rattle.task_set.specs.Shorts.{is_short_due};
ghost use Rattle.std.specs.Prelude.{length as count_tasks};

use crate::area::at_hand;
use crate::device::Device;
use crate::responses::{
    write_answer, write_block, write_block_wanted, write_frames, write_ready, write_short,
};
use task_set::{Comparing, Frames, Phase, Sending, Task, TaskEvent, Verifying};
use ufs_spec::{Block, Looked, Name, Sense, Status, Upiu};

/// A block of zeros, as an address reads that was never written.
static ZEROS: Block = [0; 4096];

/// What an address reads that was never written.
#[tactic(auto, unfolding(ufs_spec::specs::Plain::zero_block))]
pub(crate) fn zeros() -> &'static Block
    ensures { result.now ≡ zero_block }
{
    &ZEROS
}

/// A task that owed a reply, and its position among the tasks.
#[derive(Clone, Copy)]
struct DueReply {
    index: usize,
    task: Task,
}

/// Writes the GOOD of a request for data, of a command of so many bytes, once it filled its register.
fn write_area_read(task: &Task, length: u32, into: &mut Upiu) -> bool
    ensures nothing { result ≡ false → into.new ≡ into.old }
    ensures owed { IsWritten result into.new.items (area_reply task.now length) }
{
    if task.frames != Frames::Answered {
        return false;
    }
    write_answer(task, Status::Good, length, into);
    true
}

impl Device {
    /// Hands out a reply that is due; false, and nothing changes, where none is due. The replies of one
    /// tag come in order.
    pub fn reply(&mut self, into: &mut Upiu) -> bool
        ensures nothing { result ≡ false → (self.new ≡ self.old) × (into.new ≡ into.old) }
        // What is handed out is a reply that is due, in its one spelling; and false says that none is.
        ensures replied { (s : State) → Describes self.old s → result ≡ true → IsReplied s into.new.items self.new }
        ensures silent { (s : State) → Describes self.old s → result ≡ false → IsAnswered s Reply (OfReply None) self.new }
    {
        if let Some(due) = self.due(into) {
            self.move_on(due.index, due.task);
            return true;
        }
        self.reply_short(into)
    }

    /// Writes the reply of the first task that owes one now, and answers which task this is.
    fn due(&self, into: &mut Upiu) -> Option<DueReply>
        ensures within { IfSome result (λ due. due.index < length self.now.tasks) }
        ensures there { IfSome result (λ due. task_at self.now.tasks due.index ≡ Some due.task) }
        ensures owed { IfSome result (λ due. (t : Translation) → IsLayer self.now.ftl t → IsWritten true into.new.items
            (owed_in t (read_at self.now.tasks due.index) (held_at self.now.tasks due.index) due.task
            due.task.phase)) }
        ensures nothing { IfNone result (into.new ≡ into.old) }
        ensures none { IfNone result ((t : Translation) (k : ℕ) (task : OpenTask) → IsLayer self.now.ftl t →
            slice_get self.now.tasks k ≡ Some task → owed_by t task ≡ None) }
    {
        for index in 0..self.set.count() {
            let task = self.set.task(index);
            if self.write_reply(index, &task, into) {
                return Some(DueReply { index, task });
            }
        }
        None
    }

    /// Writes the reply that the task at this position owes now; false if it owes none.
    fn write_reply(&self, index: usize, task: &Task, into: &mut Upiu) -> bool
        requires { index < length self.now.tasks }
        ensures nothing { result ≡ false → into.new ≡ into.old }
        ensures owed { (t : Translation) → IsLayer self.now.ftl t → IsWritten result into.new.items
            (owed_in t (read_at self.now.tasks index) (held_at self.now.tasks index) task.now task.now.phase) }
    {
        match task.phase {
            Phase::Ask { wanted } => {
                write_ready(task, wanted, into);
                true
            }
            Phase::Await { wanted: _ } => false,
            Phase::AwaitFrontier { number, length } => {
                self.write_durable(task, number, length, into)
            }
            Phase::ReadArea { reading } => write_area_read(task, reading.length, into),
            Phase::Verify { verifying } => self.write_verified(task, verifying, into),
            Phase::AskBlock { comparing } => self.write_wanted(index, task, comparing, into),
            Phase::AwaitBlock { comparing: _ } => false,
            Phase::SendBlocks { sending } => self.write_next(index, task, sending, into),
            Phase::SendHeld { length } => self.write_held(index, task, length, into),
            Phase::Answer { status, length } => {
                write_answer(task, status, length, into);
                true
            }
        }
    }

    /// Writes the answer of a command of so many bytes, if the group of this number is durable.
    fn write_durable(&self, task: &Task, number: u64, length: u32, into: &mut Upiu) -> bool
        ensures nothing { result ≡ false → into.new ≡ into.old }
        ensures owed { (t : Translation) → IsLayer self.now.ftl t → IsWritten result into.new.items
            (if nat_le number t.ledger.frontier then Some (answer_of task.now Status.Good length) else None) }
    {
        if number > self.ftl.frontier() {
            return false;
        }
        write_answer(task, Status::Good, length, into);
        true
    }

    /// Writes the answer of a VERIFY: that a block could not be read, or GOOD once none needs a read
    /// any more.
    fn write_verified(&self, task: &Task, verifying: Verifying, into: &mut Upiu) -> bool
        ensures nothing { result ≡ false → into.new ≡ into.old }
        ensures owed { (t : Translation) → IsLayer self.now.ftl t → IsWritten result into.new.items
            (verify_reply task.now verifying.failed (are_verified t task.now.tag verifying.blocks)) }
    {
        if verifying.failed {
            write_answer(task, Status::CheckCondition(Sense::READ_ERROR), 0, into);
            return true;
        }
        if self.are_verified(task.tag, verifying.blocks) {
            write_answer(task, Status::Good, 0, into);
            return true;
        }
        false
    }

    /// Writes the DATA IN of the next block of the task at this position, if this block is there.
    fn write_next(&self, index: usize, task: &Task, sending: Sending, into: &mut Upiu) -> bool
        requires { index < length self.now.tasks }
        ensures nothing { result ≡ false → into.new ≡ into.old }
        ensures owed { (t : Translation) → IsLayer self.now.ftl t → IsWritten result into.new.items
            (option_map (block_message task.now sending)
            (block_for t (read_at self.now.tasks index) task.now.tag sending.sent)) }
    {
        let Some(block) = self.block(index, task.tag, sending.sent) else {
            return false;
        };
        write_block(task, sending, block, into);
        true
    }

    /// Writes the READY TO TRANSFER for the block with which the task at this position compares its next one,
    /// if that is there.
    fn write_wanted(&self, index: usize, task: &Task, comparing: Comparing, into: &mut Upiu) -> bool
        requires { index < length self.now.tasks }
        ensures nothing { result ≡ false → into.new ≡ into.old }
        ensures owed { (t : Translation) → IsLayer self.now.ftl t → IsWritten result into.new.items
            (option_map (λ (block : List ℕ). block_wanted_message task.now comparing)
            (block_for t (read_at self.now.tasks index) task.now.tag comparing.compared)) }
    {
        if self.block(index, task.tag, comparing.compared).is_none() {
            return false;
        }
        write_block_wanted(task, comparing, into);
        true
    }

    /// Writes the DATA IN of what the task at this position keeps to send.
    fn write_held(&self, index: usize, task: &Task, length: u32, into: &mut Upiu) -> bool
        requires { index < count_tasks self.now.tasks }
        ensures nothing { result ≡ false → into.new ≡ into.old }
        ensures owed { IsWritten result into.new.items
            (option_map (frames_message task.now length) (held_at self.now.tasks index)) }
    {
        let Some(held) = self.set.held(index) else {
            return false;
        };
        write_frames(task, length, held, into);
        true
    }

    /// The block that the task of this position and tag sends or compares as the one of this index, once it
    /// is there.
    fn block(&self, index: usize, tag: u8, sent: u16) -> Option<&Block>
        requires { index < length self.now.tasks }
        ensures { (t : Translation) → IsLayer self.now.ftl t →
            option_copied result ≡ block_for t (read_at self.now.tasks index) tag sent }
    {
        let looked = self.ftl.pinned(tag, sent)?;
        self.block_looked(index, looked)
    }

    /// The block that the task at this position looked up, once it is there.
    fn block_looked(&self, index: usize, looked: Looked) -> Option<&Block>
        requires { index < length self.now.tasks }
        ensures { (t : Translation) → IsLayer self.now.ftl t →
            ((name : Name) → looked ≡ InSlot name → is_mended t.work.mending ≡ true) →
            LookedRight (book t) t.ledger.frontier t.disk.cells t.disk.finished t.disk.erasing looked →
            option_copied result ≡ block_at t.work.rests t.ledger (read_at self.now.tasks index) looked }
    {
        match looked {
            Looked::Unwritten => Some(zeros()),
            Looked::InSlot(name) => self.block_in_slot(index, name),
            Looked::OnPage(_, _) => self.block_read(index),
        }
    }

    /// The block in the slot of this name. Of a slot that waits for its rest it is the one that a die read
    /// for the task at this position.
    fn block_in_slot(&self, index: usize, name: Name) -> Option<&Block>
        requires { index < length self.now.tasks }
        ensures { (t : Translation) → IsLayer self.now.ftl t → is_mended t.work.mending ≡ true →
            LookedRight (book t) t.ledger.frontier t.disk.cells t.disk.finished t.disk.erasing (InSlot name) →
            option_copied result ≡ block_at t.work.rests t.ledger (read_at self.now.tasks index) (InSlot name) }
    {
        match self.ftl.slot(name) {
            Some(block) => Some(block),
            None => self.block_read(index),
        }
    }

    /// The block that a die read for the task at this position.
    fn block_read(&self, index: usize) -> Option<&Block>
        requires { index < length self.now.tasks }
        ensures { option_copied result ≡ read_at self.now.tasks index }
    {
        self.set.block(index)
    }

    /// What becomes of the task at this position, which has handed out its reply.
    fn move_on(&mut self, index: usize, task: Task)
        requires { index < length self.old.tasks }
        ensures left { (t : Translation) → IsLayer self.old.ftl t →
            self.new ≡ record (moved_on t self.old index task.tag task.phase) { ftl = self.new.ftl } }
        ensures moved { (t : Translation) (claims : Claims) → IsLayerWith self.old.ftl t claims →
            HasMoved self.new.ftl t claims task.tag task.phase }
    {
        match task.phase {
            Phase::Ask { wanted: _ } => self.happen(index, TaskEvent::DataAskedFor),
            Phase::Await { wanted: _ } => {}
            Phase::SendHeld { length: _ } => {
                self.happen(index, TaskEvent::DataSent);
            }
            Phase::ReadArea { reading: _ } => self.end_task(index, task.tag),
            Phase::Verify { verifying: _ } => self.end_task(index, task.tag),
            Phase::AskBlock { comparing } => self.ask_block(index, task.tag, comparing.compared),
            Phase::AwaitBlock { comparing: _ } => {}
            Phase::SendBlocks { sending } => {
                self.block_sent(index, task.tag, sending.sent);
            }
            Phase::AwaitFrontier {
                number: _,
                length: _,
            } => self.end_task(index, task.tag),
            Phase::Answer {
                status: _,
                length: _,
            } => self.end_task(index, task.tag),
        }
    }

    /// The task of this position and tag handed out this block of its READ, and wants the next one.
    fn block_sent(&mut self, index: usize, tag: u8, sent: u16)
        requires { index < length self.old.tasks }
        ensures left { self.new ≡ record (with_event self.old index TaskEvent.BlockSent) { ftl = self.new.ftl } }
        ensures one { (t : Translation) → IsLayer self.old.ftl t →
            IsLayer self.new.ftl (moved (moved t (LetGo tag sent)) (WantPage tag (sent + 1))) }
        ensures claims { (claims : Claims) → AreClaimed self.old.ftl claims → AreClaimed self.new.ftl claims }
    {
        self.ftl.want_next(tag, sent);
        self.happen(index, TaskEvent::BlockSent);
    }

    /// The task of this position and tag asked its host for a block, and keeps its own one of this index from
    /// now on: the slot in which it may lie is free once its group is on the dies.
    fn ask_block(&mut self, index: usize, tag: u8, compared: u16)
        requires { index < length self.old.tasks }
        ensures { (t : Translation) → IsLayer self.old.ftl t →
            self.new ≡ with_event (with_own_block self.old index (block_for t None tag compared)) index
            TaskEvent.BlockAskedFor }
    {
        if let Some(block) = at_hand(&self.ftl, tag, compared) {
            self.set.keep_block(index, block);
        }
        self.happen(index, TaskEvent::BlockAskedFor);
    }

    /// The task of this position and tag has ended and keeps nothing.
    fn end_task(&mut self, index: usize, tag: u8)
        requires { index < length self.old.tasks }
        ensures left { self.new ≡ record (without_task self.old index) { ftl = self.new.ftl } }
        ensures all { (t : Translation) → IsLayer self.old.ftl t → IsLayer self.new.ftl (moved t (LetGoAll tag)) }
        ensures told { (t : Translation) (count : ℕ) → IsLayer self.old.ftl t →
            before_accepted t.ledger + count ≤ t.ledger.frontier →
            IsLayer self.new.ftl (moved (moved t (Acknowledge count)) (LetGoAll tag)) }
        ensures claims { (claims : Claims) → AreClaimed self.old.ftl claims → AreClaimed self.new.ftl claims }
    {
        self.ftl.unpin(tag);
        self.set.end(index);
    }

    /// Hands out the reply of the first short exchange that is due; false, and nothing changes, where none
    /// is.
    fn reply_short(&mut self, into: &mut Upiu) -> bool
        ensures nothing { result ≡ false → (self.new ≡ self.old) × (into.new ≡ into.old) }
        ensures none { result ≡ false → (t : Translation) → IsLayer self.old.ftl t →
            position (is_short_due t.ledger.frontier) self.old.shorts ≡ None }
        ensures replied { result ≡ true → IsShortReplied self.old self.new into.new.items }
    {
        let frontier = self.ftl.frontier();
        let Some(index) = self.set.due_short(frontier) else {
            return false;
        };
        self.hand_out_short(index, into);
        true
    }

    /// Hands out the reply of the short exchange at this position, which is over then.
    fn hand_out_short(&mut self, index: usize, into: &mut Upiu)
        requires { index < length self.old.shorts }
        ensures after { self.new ≡ without_short self.old index }
        ensures said { (t : Translation) (short : Short) → IsLayer self.old.ftl t →
            slice_get self.old.shorts index ≡ Some short → into.new.items ≡ spelling (short_message t.numbers short) }
    {
        let short = self.set.take_short(index);
        write_short(self.ftl.numbers(), &short, into);
    }
}
