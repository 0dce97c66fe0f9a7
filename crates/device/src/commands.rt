//! Messages of the host: a COMMAND opens a task, a DATA OUT brings what a task asked for.
ghost use Rattle.std.specs.Prelude.{◌≡◌, ◌<◌, ◌≤◌, ◌+◌, length, ◌∷◌, ◌++◌, []};
ghost use Rattle.std.specs.Prelude.{Err, IfOk, IfSome, None, OnErr, OnOk, Some, false, true, ◌==◌};
ghost use Rattle.device.specs.Calls.{HasBegun, HasClaimedFor, HasGathered, HasKept, HasKeptAll, HasTaken};
ghost use Rattle.device.specs.Calls.{comparing_first, flush_phase, sending_first};
ghost use Rattle.device.specs.Hears.{HasBlock, HasCome, IsBlockHeard, IsDataHeard, IsTaskOpened, asked_for};
ghost use Rattle.device.specs.Hears.{compared_with, is_block_kept};
ghost use Rattle.task_set.specs.Lists.{read_at};
ghost use Rattle.ufs_spec.specs.Moves.{LetGo, LetGoAll, WantPage, moved};
ghost use Rattle.task_set.specs.Tasks.{wanted_count};
ghost use Rattle.task_set.specs.declared.tasks.Phase.TheVariants.{Ask};
ghost use Rattle.device.specs.Hears.{short_answer, with_event, uses, with_short, with_task};
ghost use Rattle.task_set.specs.Kept.{newly_open};
ghost use Rattle.ufs_spec.specs.Exchanges.{most_short_exchanges, most_tasks};
ghost use Rattle.task_set.specs.Shorts.{manages};
ghost use Rattle.ufs_spec.specs.Machine.{has_attribute};
ghost use Rattle.ufs_spec.specs.Refusals.{State};
ghost use Rattle.device.specs.Describes.{Describes, IsHeardAs};
ghost use Rattle.std.specs.Prelude.{ℕ, List, nat_le};
ghost use Rattle.arrayvec.specs.ArrayVec.{ArrayVec};
ghost use Rattle.ufs_spec.specs.Codes.{link_event_code};
ghost use Rattle.ufs_spec.specs.Messages.{Spells, code_of, host_fault_of};
ghost use Rattle.ufs_spec.specs.declared.faults.HostFault.{HostFault};
ghost use Rattle.ufs_spec.specs.declared.faults.HostFault.TheVariants.{Reserved};
ghost use Rattle.ufs_spec.specs.Translation.{Translation};
ghost use Rattle.ftl_core.specs.Public.{Claims, Describes as IsLayer};
ghost use Rattle.device.specs.Kept.{IsLayerWith};
ghost use Rattle.device.specs.Queries.{at_once};
ghost use Rattle.ufs_spec.specs.declared.Message.{Message};
ghost use Rattle.ufs_spec.specs.Begins.{expected_of_write};
ghost use Rattle.device.specs.Plans.{counted_for, expected_for};

use crate::device::Device;
use crate::plans::Plan;
use crate::queries::at_once;
use crate::requests::{frames_of, held_phase, region_of};
use crate::targets::key_of;
use descriptors::STANDARD_WRITE;
use task_set::{
    AskedFor, BLOCK_BYTES, ComparedWith, Comparing, Phase, Queried, Sending, ShortReply, Task,
    TaskEvent, Verifying, Wanted,
};
use ufs_spec::{HostFault, Key, Message, Purpose, Sense, Status};

/// The flags of a COMMAND that are its priority and its task attribute (JESD220, 10.7.1).
const ATTRIBUTES: u8 = 0x07;

/// What counts as expected of a WRITE of so many bytes: where the host sends fewer, the whole blocks of
/// what it sends.
fn whole_blocks(expected: u32, length: u32) -> u32
    ensures { result ≡ expected_of_write expected length }
{
    if expected < length {
        BLOCK_BYTES * (expected / BLOCK_BYTES)
    } else {
        expected
    }
}

/// The same of a task that asks for this.
fn counted_for(expected: u32, wanted: Wanted) -> u32
    ensures { result ≡ counted_for expected wanted.purpose wanted.length }
{
    match wanted.purpose {
        Purpose::ForWrite { .. } => whole_blocks(expected, wanted.length),
        Purpose::ForUnmap { .. } | Purpose::ForFrames { .. } => expected,
    }
}

/// How many bytes count as expected of a task for which this was planned.
fn counted(expected: u32, planned: Result<Plan, Status>) -> u32
    ensures { result ≡ expected_for expected planned }
{
    match planned {
        Ok(Plan::Gather { wanted, slots: _ }) => counted_for(expected, wanted),
        Ok(Plan::Drop { length }) => whole_blocks(expected, length),
        _ => expected,
    }
}

/// How far a READ of so many blocks is that begins, of a command of so many bytes.
fn sending_first(blocks: u16, length: u32) -> Phase
    ensures { result ≡ sending_first blocks length }
{
    let sending = Sending {
        blocks,
        sent: 0,
        length,
    };
    Phase::SendBlocks { sending }
}

/// How far a VERIFY is that begins and compares so many blocks.
fn comparing_first(blocks: u16) -> Phase
    ensures { result ≡ comparing_first blocks }
{
    let comparing = Comparing {
        blocks,
        compared: 0,
    };
    Phase::AskBlock { comparing }
}

impl Device {
    /// Takes a message of the host.
    ///
    /// # Errors
    ///
    /// The lowest fault that applies; nothing changes then.
    pub fn host(&mut self, bytes: &[u8]) -> Result<(), HostFault>
        ensures refused { OnErr result (self.new ≡ self.old) }
        // The bytes are heard as the one message or fault that they are, and answered as the
        // specified device answers it.
        ensures heard { (s : State) → Describes self.old s → IsHeardAs s bytes.now result self.new }
    {
        if let Some(said) = upiu::read_data_out(bytes) {
            let data = &bytes[upiu::HEADER..upiu::HEADER + said.count];
            return self.data_out(said.lun, said.tag, said.offset, data);
        }
        if let Some(said) = upiu::read_command(bytes) {
            return self.command(said.flags, said.lun, said.tag, said.expected, &said.cdb);
        }
        self.hear_other(bytes)
    }

    /// Takes bytes of the host that are neither a COMMAND nor a DATA OUT. They are read as a message
    /// of any kind, which has room for the longest data: a call of this clears that room.
    fn hear_other(&mut self, bytes: &[u8]) -> Result<(), HostFault>
        requires no_data_out { (lun tag offset : ℕ) (sent : ArrayVec ℕ) →
            Spells (Message.DataOut lun tag offset sent) bytes.now → ⊥ }
        requires no_command { (flags lun tag expected : ℕ) (cdb : List ℕ) →
            Spells (Message.Command flags lun tag expected cdb) bytes.now → ⊥ }
        ensures refused { OnErr result (self.new ≡ self.old) }
        ensures heard { (s : State) → Describes self.old s → IsHeardAs s bytes.now result self.new }
    {
        match upiu::read_host(bytes) {
            Ok(message) => self.hear(&message),
            Err(fault) => Err(self.told(bytes, fault)),
        }
    }

    /// The fault that is told for bytes that were read with this fault.
    fn told(&self, bytes: &[u8], fault: HostFault) -> HostFault
        requires first { (told : HostFault) → host_fault_of bytes.now ≡ Some told → fault ≡ told }
        requires reserved { host_fault_of bytes.now ≡ None →
            (fault ≡ Reserved) × ((m : Message) → Spells m bytes.now → ⊥) }
        ensures { (s : State) → Describes self.now s → IsHeardAs s bytes.now (Err result) self.now }
    {
        if self.is_unknown(bytes) {
            return HostFault::Code;
        }
        fault
    }

    /// Whether the bytes have the transaction code of LINK EVENT, which a device of profile 0 does not
    /// know.
    fn is_unknown(&self, bytes: &[u8]) -> bool
        ensures event { result ≡ true →
            (host_fault_of bytes.now ≡ None) × (code_of bytes.now ≡ link_event_code) }
        ensures zero { (t : Translation) → IsLayer self.now.ftl t → result ≡ true →
            (t.numbers.profile == 0) ≡ true }
        ensures other { (t : Translation) → IsLayer self.now.ftl t → result ≡ false →
            host_fault_of bytes.now ≡ None → code_of bytes.now ≡ link_event_code →
            (t.numbers.profile == 0) ≡ false }
    {
        if upiu::has_event_code(bytes) {
            return self.is_of_profile_0();
        }
        false
    }

    /// Takes a message that is neither a COMMAND nor a DATA OUT. NOP OUT, TASK MANAGEMENT REQUEST
    /// and QUERY REQUEST open a short exchange, and a LINK EVENT ends all that is open.
    fn hear(&mut self, message: &Message) -> Result<(), HostFault>
        requires no_data_out { (lun tag offset : ℕ) (sent : ArrayVec ℕ) →
            message.now ≡ Message.DataOut lun tag offset sent → ⊥ }
        requires no_command { (flags lun tag expected : ℕ) (cdb : List ℕ) →
            message.now ≡ Message.Command flags lun tag expected cdb → ⊥ }
        ensures refused { OnErr result (self.new ≡ self.old) }
        ensures heard { (s : State) (bytes : List ℕ) → Describes self.old s →
            Spells message.now bytes → host_fault_of bytes ≡ None →
            IsHeardAs s bytes result self.new }
    {
        match message {
            Message::NopOut { tag } => self.open_short(*tag, ShortReply::NopIn),
            Message::TaskRequest {
                lun,
                tag,
                function,
                meant,
            } => self.manage(*lun, *tag, *function, *meant),
            Message::QueryRequest {
                tag,
                function,
                asked,
                length,
                value,
                ..
            } => {
                let query = Queried {
                    writing: *function == STANDARD_WRITE,
                    asked: *asked,
                    length: *length,
                };
                self.query(*tag, query, *value)
            }
            Message::LinkEvent { kind } => self.link_event(*kind),
            _ => Err(HostFault::Code),
        }
    }

    /// Whether the device is one of profile 0, where all exchanges have one set of tags.
    pub(crate) fn is_of_profile_0(&self) -> bool
        ensures { (t : Translation) → IsLayer self.now.ftl t → result ≡ (t.numbers.profile == 0) }
    {
        self.ftl.numbers().profile == 0
    }

    /// Whether the tag of a COMMAND is in use.
    fn uses(&self, tag: u8) -> bool
        ensures { (t : Translation) → IsLayer self.now.ftl t → result ≡ uses self.now t.numbers false tag }
    {
        let one_set = self.is_of_profile_0();
        self.set.uses(one_set, false, tag)
    }

    /// Whether one more short exchange of this tag may be open, one of task management or not.
    ///
    /// # Errors
    ///
    /// `TagInUse` if the tag is in use, else `Backlog` if as many short exchanges are open as may be.
    pub(crate) fn may_open_short(&self, manages: bool, tag: u8) -> Result<(), HostFault>
        ensures answer { (t : Translation) → IsLayer self.now.ftl t →
            result ≡ short_answer self.now t.numbers manages tag }
        ensures room { IfOk result (λ _. length self.now.shorts < most_short_exchanges) }
    {
        let one_set = self.is_of_profile_0();
        self.set.may_open_short(one_set, manages, tag)
    }

    /// Whether as many tasks are open as may be.
    fn is_full(&self) -> bool
        ensures { result ≡ nat_le most_tasks (length self.now.tasks) }
    {
        self.set.is_full()
    }

    /// Whether a COMMAND with these flags has a priority or a task attribute, which a device of profile 0
    /// does not take (JESD220, 10.7.1).
    fn has_attribute(&self, flags: u8) -> bool
        ensures { (t : Translation) → IsLayer self.now.ftl t → result ≡ has_attribute t.numbers flags }
    {
        self.ftl.numbers().profile == 0 && flags & ATTRIBUTES != 0
    }

    /// A COMMAND opens a task, or a short exchange if too many tasks are open. Its CDB is read only
    /// once its tag is free and a task may be opened.
    fn command(
        &mut self,
        flags: u8,
        lun: u8,
        tag: u8,
        expected: u32,
        cdb: &[u8; 16],
    ) -> Result<(), HostFault>
        ensures refused { OnErr result (self.new ≡ self.old) }
        ensures heard { (s : State) (bytes : List ℕ) → Describes self.old s →
            Spells (Message.Command flags lun tag expected cdb.now) bytes →
            host_fault_of bytes ≡ None → IsHeardAs s bytes result self.new }
    {
        if self.has_attribute(flags) {
            return Err(HostFault::Reserved);
        }
        if self.is_full() {
            return self.open_short(tag, ShortReply::TaskSetFull { lun, expected });
        }
        if self.uses(tag) {
            return Err(HostFault::TagInUse);
        }
        self.open_task(flags, lun, tag, expected, cdb);
        Ok(())
    }

    /// A command becomes a task, refused or not. The attention of its LUN ends, if it tells it.
    fn open_task(&mut self, flags: u8, lun: u8, tag: u8, expected: u32, cdb: &[u8; 16])
        requires { length self.old.tasks < most_tasks }
        ensures { IsTaskOpened self.old self.new flags lun tag expected cdb.now }
    {
        let planned = self.plan(lun, flags, expected, cdb);
        let phase = self.begin(tag, planned);
        self.end_attention(lun, planned);
        self.push_task(Task {
            tag,
            lun,
            expected: counted(expected, planned),
            phase,
            frames: frames_of(planned),
            region: region_of(planned),
        });
        self.keep_sent(planned);
    }

    /// One task more.
    fn push_task(&mut self, task: Task)
        requires { length self.old.tasks < most_tasks }
        ensures { self.new ≡ with_task self.old (newly_open task) }
    {
        self.set.open(task);
    }

    /// An exchange whose reply is due at once is open from now on, if its tag is free and fewer are open
    /// than may be.
    fn open_short(&mut self, tag: u8, reply: ShortReply) -> Result<(), HostFault>
        ensures refused { OnErr result (self.new ≡ self.old) }
        ensures answer { (t : Translation) → IsLayer self.old.ftl t →
            result ≡ short_answer self.old t.numbers (manages reply) tag }
        ensures after { OnOk result (self.new ≡ with_short self.old (at_once tag reply)) }
    {
        self.may_open_short(reply.manages(), tag)?;
        self.push_short(at_once(tag, reply));
        Ok(())
    }

    /// Begins what a command does, or answers why it does not.
    fn begin(&mut self, tag: u8, planned: Result<Plan, Status>) -> Phase
        ensures left { self.new ≡ record self.old { ftl = self.new.ftl } }
        ensures begun { (t : Translation) (claims : Claims) → IsLayerWith self.old.ftl t claims →
            HasBegun self.new.ftl t claims tag planned result }
    {
        match planned {
            Ok(Plan::Nothing { length }) => Phase::good(length),
            Ok(Plan::Drop { length }) => Phase::good(length),
            Ok(
                Plan::Read {
                    key,
                    blocks,
                    length,
                },
            ) => self.begin_read(tag, key, blocks, sending_first(blocks, length)),
            Ok(Plan::Compare { key, blocks }) => {
                self.begin_read(tag, key, blocks, comparing_first(blocks))
            }
            Ok(Plan::Verify { key, blocks }) => self.begin_verify(tag, key, blocks),
            Ok(Plan::Gather { wanted, slots }) => self.begin_gather(tag, wanted, slots),
            Ok(
                Plan::Send {
                    from: _,
                    length,
                    taken,
                },
            ) => held_phase(length, taken),
            Ok(Plan::Flush) => self.begin_flush(),
            Err(status) => Phase::Answer { status, length: 0 },
        }
    }

    /// A flush waits for the last command that was accepted. Before the device is mended there is none.
    fn begin_flush(&self) -> Phase
        ensures { (t : Translation) → IsLayer self.now.ftl t → result ≡ flush_phase t }
    {
        if self.ftl.is_mended() {
            Phase::AwaitFrontier {
                number: self.ftl.last_number(),
                length: 0,
            }
        } else {
            Phase::good(0)
        }
    }

    /// A READ, or a VERIFY that compares its blocks, keeps what it looks up, and is so far then.
    fn begin_read(&mut self, tag: u8, key: Key, blocks: u16, first: Phase) -> Phase
        ensures left { self.new ≡ record self.old { ftl = self.new.ftl } }
        ensures begun { (t : Translation) (claims : Claims) → IsLayerWith self.old.ftl t claims →
            HasKept self.new.ftl t claims tag key blocks first result }
    {
        if self.ftl.keep(tag, key, blocks) {
            first
        } else {
            Phase::Answer {
                status: Status::Busy,
                length: 0,
            }
        }
    }

    /// A VERIFY that compares nothing keeps its blocks as a READ does, but the pages of all of them are
    /// wanted.
    fn begin_verify(&mut self, tag: u8, key: Key, blocks: u16) -> Phase
        ensures left { self.new ≡ record self.old { ftl = self.new.ftl } }
        ensures begun { (t : Translation) (claims : Claims) → IsLayerWith self.old.ftl t claims →
            HasKeptAll self.new.ftl t claims tag key blocks result }
    {
        if self.ftl.keep_area(tag, key, blocks) {
            let verifying = Verifying {
                blocks,
                failed: false,
            };
            Phase::Verify { verifying }
        } else {
            Phase::Answer {
                status: Status::Busy,
                length: 0,
            }
        }
    }

    /// A command whose host brings data claims its slots and asks for them.
    fn begin_gather(&mut self, tag: u8, wanted: Wanted, slots: u16) -> Phase
        ensures left { self.new ≡ record self.old { ftl = self.new.ftl } }
        ensures begun { (t : Translation) (claims : Claims) → IsLayerWith self.old.ftl t claims →
            HasClaimedFor self.new.ftl t claims tag slots (Ask wanted) result }
    {
        if self.ftl.reserve(tag, slots) {
            Phase::Ask { wanted }
        } else {
            Phase::Answer {
                status: Status::Busy,
                length: 0,
            }
        }
    }

    /// The task that asked for these data, and what it asked for.
    fn asked_for(&self, lun: u8, tag: u8, offset: u32, count: usize) -> Option<AskedFor>
        ensures what { result ≡ asked_for self.now lun tag offset count }
        ensures within { IfSome result (λ asked. asked.index < length self.now.tasks) }
        ensures long { IfSome result (λ asked. count ≡ wanted_count asked.wanted) }
    {
        self.set.asked_for(lun, tag, offset, count)
    }

    /// A DATA OUT brings the block that a task asked for, or all its frames or its list.
    fn data_out(&mut self, lun: u8, tag: u8, offset: u32, data: &[u8]) -> Result<(), HostFault>
        requires few { length «data».now ≤ 4096 }
        ensures refused { OnErr result (self.new ≡ self.old) }
        ensures heard { IsDataHeard self.old self.new tag data.now
            (asked_for self.old lun tag offset (length data.now))
            (compared_with self.old lun tag offset (length data.now)) result }
    {
        let Some(asked) = self.asked_for(lun, tag, offset, data.len()) else {
            return self.compare(lun, tag, offset, data);
        };
        self.take_data(asked.index, tag, asked.wanted, data);
        self.fill_register();
        self.end_waiting();
        Ok(())
    }

    /// A DATA OUT brings the block with which a VERIFY compares its next one. Nothing is accepted.
    fn compare(&mut self, lun: u8, tag: u8, offset: u32, data: &[u8]) -> Result<(), HostFault>
        requires few { length «data».now ≤ 4096 }
        ensures refused { OnErr result (self.new ≡ self.old) }
        ensures heard { IsBlockHeard self.old self.new tag «data».now
            (compared_with self.old lun tag offset (length «data».now)) result }
    {
        let Some(found) = self.compared_with(lun, tag, offset, data.len()) else {
            return Err(HostFault::NotAskedFor);
        };
        if self.keeps_block(found.index, data) {
            self.block_same(found.index, tag, found.comparing.compared);
        } else {
            self.block_differs(found.index, tag);
        }
        Ok(())
    }

    /// The VERIFY that compares these data next, and how far it is.
    fn compared_with(&self, lun: u8, tag: u8, offset: u32, count: usize) -> Option<ComparedWith>
        ensures what { result ≡ compared_with self.now lun tag offset count }
        ensures within { IfSome result (λ found. found.index < length self.now.tasks) }
    {
        self.set.compared_with(lun, tag, offset, count)
    }

    /// Whether the block that the task at this position keeps has these bytes.
    fn keeps_block(&self, index: usize, bytes: &[u8]) -> bool
        requires { index < length self.now.tasks }
        ensures { result ≡ is_block_kept bytes.now (read_at self.now.tasks index) }
    {
        match self.set.block(index) {
            Some(block) => bytes == &block[..],
            None => false,
        }
    }

    /// The block of the VERIFY of this position and tag is the one that came: it is let go, and the next one is
    /// wanted.
    fn block_same(&mut self, index: usize, tag: u8, compared: u16)
        requires { index < length self.old.tasks }
        ensures left { self.new ≡ record (with_event self.old index TaskEvent.BlockSame) { ftl = self.new.ftl } }
        ensures layer { (t : Translation) (claims : Claims) → IsLayerWith self.old.ftl t claims →
            IsLayerWith self.new.ftl (moved (moved t (LetGo tag compared)) (WantPage tag (compared + 1))) claims }
    {
        self.ftl.want_next(tag, compared);
        self.happen(index, TaskEvent::BlockSame);
    }

    /// The block of the VERIFY of this position and tag is another one than came: it keeps nothing any more.
    fn block_differs(&mut self, index: usize, tag: u8)
        requires { index < length self.old.tasks }
        ensures left { self.new ≡ record (with_event self.old index TaskEvent.BlockDiffers) { ftl = self.new.ftl } }
        ensures layer { (t : Translation) (claims : Claims) → IsLayerWith self.old.ftl t claims →
            IsLayerWith self.new.ftl (moved t (LetGoAll tag)) claims }
    {
        self.ftl.unpin(tag);
        self.happen(index, TaskEvent::BlockDiffers);
    }

    /// What the task of this position and tag asked for came.
    fn take_data(&mut self, index: usize, tag: u8, wanted: Wanted, bytes: &[u8])
        requires there { index < length self.old.tasks }
        requires long { length bytes.now ≡ wanted_count wanted }
        requires few { length bytes.now ≤ 4096 }
        ensures { HasCome self.old self.new tag index wanted bytes.now }
    {
        match wanted.purpose {
            Purpose::ForWrite { unit, address, .. } => {
                let key = key_of(unit, address);
                self.hear_block(index, tag, wanted, key, bytes)
            }
            Purpose::ForFrames { region: _ } => self.hear_frames(index, tag, bytes),
            Purpose::ForUnmap { unit } => self.hear_list(index, tag, unit, bytes),
        }
    }

    /// The block came that the WRITE of this position and tag asked for, whose first block has this key.
    fn hear_block(&mut self, index: usize, tag: u8, wanted: Wanted, key: Key, block: &[u8])
        requires there { index < length self.old.tasks }
        requires long { length block.now ≡ 4096 }
        ensures { HasBlock self.old self.new tag index wanted key block.now }
    {
        let event = self.gather(tag, wanted, key, block);
        self.happen(index, event);
    }

    /// This happened to the task at this position.
    pub(crate) fn happen(&mut self, index: usize, event: TaskEvent)
        requires { index < length self.old.tasks }
        ensures { self.new ≡ with_event self.old index event }
    {
        self.set.happen(index, event);
    }

    /// A block that came lies in the slot that was claimed for it. With the last one the group is
    /// accepted.
    fn gather(&mut self, tag: u8, wanted: Wanted, key: Key, bytes: &[u8]) -> TaskEvent
        requires { length bytes.now ≡ 4096 }
        ensures left { self.new ≡ record self.old { ftl = self.new.ftl } }
        ensures taken { (t : Translation) (claims : Claims) → IsLayerWith self.old.ftl t claims →
            HasGathered self.new.ftl t claims tag wanted key bytes.now result }
    {
        self.ftl.fill(tag, wanted.block(), bytes);
        if wanted.next().is_some() {
            TaskEvent::BlockGathered
        } else {
            self.accept(tag, key)
        }
    }

    /// Accepts the blocks that came for the task of this tag as a group, from this address on, unless the
    /// device is locked. A device that is not locked has a number left.
    fn accept(&mut self, tag: u8, key: Key) -> TaskEvent
        ensures left { self.new ≡ record self.old { ftl = self.new.ftl } }
        ensures taken { (t : Translation) (claims : Claims) → IsLayerWith self.old.ftl t claims →
            HasTaken self.new.ftl t claims tag key result }
    {
        if self.ftl.is_locked() {
            self.ftl.release(tag);
            return TaskEvent::DataRefused {
                sense: Sense::WRITE_ERROR,
            };
        }
        let number = self.ftl.accept(tag, key);
        TaskEvent::GroupAccepted { number }
    }
}
