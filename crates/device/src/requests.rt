//! The frames of a SECURITY PROTOCOL OUT: what is decided of them, and what answers them
//! (JESD220, 12.4).
ghost use Rattle.std.specs.Prelude.{◌≡◌, ◌≤◌, ◌<◌, ◌||◌, ℕ, IfSome, IsTrue, Some, false, length, not, option_copied};
ghost use Rattle.std.specs.Prelude.{slice_get};
ghost use Rattle.ufs_spec.specs.declared.exchanges.Status.TheVariants.{CheckCondition};
ghost use Rattle.ufs_spec.specs.Moves.{LetGoAll, moved};
ghost use Rattle.ufs_spec.specs.Translation.{Translation, is_locked, is_mended};
ghost use Rattle.ftl_core.specs.Public.{Claims, Describes as IsLayer, has_number};
ghost use Rattle.device.specs.Calls.{held_phase, with_event};
ghost use Rattle.device.specs.Frames.{HasAnswered, HasDecided, HasFilled, HasRefused, HasRequested};
ghost use Rattle.device.specs.Frames.{HasResponded, IsDecided, data_for, frames_brought, frames_for, region_brought};
ghost use Rattle.device.specs.Frames.{capacity_told, handed_over, identity_bytes, is_due_to, region_for, sent_kept};
ghost use Rattle.device.specs.Frames.{source_kept, to_answer};
ghost use Rattle.device.specs.Frames.{waiting_in_block, with_held, with_none_waiting, with_zeros};
ghost use Rattle.rpmb.specs.Answers.{AreFew};
ghost use Rattle.rpmb.specs.Kept.{machine_at, with_machine};
ghost use Rattle.device.specs.Groups.{HasNumberFor};
ghost use Rattle.device.specs.Kept.{IsLayerWith};
ghost use Rattle.rpmb.specs.Outcomes.{MayChange};
ghost use Rattle.rpmb.specs.Requests.{frames_of};
ghost use Rattle.task_set.specs.Kept.{OpenTask};

use crate::device::Device;
use crate::plans::{Identity, Plan, Source};
use crate::replies::zeros;
use lun_route::{
    inquiry_bytes, long_capacity_bytes, luns_bytes, modes_told, operations_told, page_bytes,
    short_modes_told,
};
use rpmb::{Accepted, Machines, Outcome, asked_area};
use scsi_cdb::sense_bytes;
use task_set::{BLOCK_BYTES, Frames, Phase, TaskEvent};
use ufs_spec::{Block, Purpose, Sense, Status, write_u32};

/// How many bytes a frame has.
const FRAME: usize = 512;

/// How far a command is that begins with what its task keeps to send, so many bytes of which its host
/// takes so many: where that is none, it is done.
pub(crate) fn held_phase(length: u32, taken: u32) -> Phase
    ensures { result ≡ held_phase length taken }
{
    if taken == 0 {
        Phase::good(length)
    } else {
        Phase::SendHeld { length }
    }
}

/// What a task has to do with frames for which this was planned.
pub(crate) fn frames_of(planned: Result<Plan, Status>) -> Frames
    ensures { result ≡ frames_brought planned }
{
    match planned {
        Ok(Plan::Gather { wanted, slots: _ }) => frames_for(wanted.purpose),
        _ => Frames::NotBrought,
    }
}

/// The RPMB region to which a task brings frames for which this was planned; 0 if it brings none.
pub(crate) fn region_of(planned: Result<Plan, Status>) -> u8
    ensures { result ≡ region_brought planned }
{
    match planned {
        Ok(Plan::Gather { wanted, slots: _ }) => region_for(wanted.purpose),
        _ => 0,
    }
}

/// What a task has to do with frames that gathers data for this purpose: none of its own were decided.
fn frames_for(purpose: Purpose) -> Frames
    ensures { result ≡ frames_for purpose }
{
    match purpose {
        Purpose::ForFrames { region: _ } => Frames::Undecided,
        _ => Frames::NotBrought,
    }
}

/// The RPMB region that the data are for; 0 if they are for none.
fn region_for(purpose: Purpose) -> u8
    ensures { result ≡ region_for purpose }
{
    match purpose {
        Purpose::ForFrames { region } => region,
        _ => 0,
    }
}

/// A block in which these bytes stand, with zeros behind them.
#[tactic(auto, unfolding(ufs_spec::specs::Plain::zero_block))]
fn block_of(bytes: &[u8]) -> Block
    requires { length bytes.now ≤ 4096 }
    ensures { result ≡ with_zeros bytes.now }
{
    let mut block = [0; 4096];
    block[..bytes.len()].copy_from_slice(bytes);
    block
}

/// What waits in the region stands in the block, as much as there is room for, and waits no longer.
fn take_waiting(rpmb: &mut Machines, region: u8, into: &mut Block)
    ensures block { into.new ≡ waiting_in_block (machine_at rpmb.old region) into.old }
    ensures emptied { rpmb.new
        ≡ with_machine rpmb.old region (with_none_waiting (machine_at rpmb.old region)) }
{
    rpmb.input(region, into);
}

/// The last address of a unit of so many blocks and the length of a block (SBC, READ CAPACITY (10)
/// parameter data). A unit has a block.
fn capacity_bytes(blocks: u32) -> [u8; 8]
    ensures { result ≡ capacity_told blocks }
{
    let mut bytes = [0; 8];
    write_u32(&mut bytes, 0, blocks.saturating_sub(1));
    write_u32(&mut bytes, 4, BLOCK_BYTES);
    bytes
}

impl Device {
    /// The last task keeps what it sends, if this was planned for it.
    pub(crate) fn keep_sent(&mut self, planned: Result<Plan, Status>)
        requires { 0 < length self.old.tasks }
        ensures { (t : Translation) → IsLayer self.old.ftl t →
            self.new ≡ sent_kept t.numbers self.old planned }
    {
        let last = self.set.count() - 1;
        if let Ok(
            Plan::Send {
                from,
                length: _,
                taken: _,
            },
        ) = planned
        {
            self.keep_source(last, from);
        }
    }

    /// The task at this position keeps what comes from there: what it tells, or the frames that wait, of which
    /// the response register is empty from now on.
    fn keep_source(&mut self, index: usize, from: Source)
        requires { index < length self.old.tasks }
        ensures { (t : Translation) → IsLayer self.old.ftl t →
            self.new ≡ source_kept t.numbers self.old index from }
    {
        match from {
            Source::Identity { told } => self.keep_identity(index, told),
            Source::Response { region } => self.hand_over(index, region),
        }
    }

    /// The task at this position keeps what it tells, with zeros behind it.
    fn keep_identity(&mut self, index: usize, told: Identity)
        requires { index < length self.old.tasks }
        ensures { (t : Translation) → IsLayer self.old.ftl t →
            self.new ≡ with_held self.old index (with_zeros (identity_bytes t.numbers told)) }
    {
        match told {
            Identity::Sense { sense } => self.keep_bytes(index, &sense_bytes(&sense)),
            Identity::Unit { device_type } => {
                self.keep_bytes(index, &inquiry_bytes(device_type));
            }
            Identity::Capacity { blocks } => self.keep_bytes(index, &capacity_bytes(blocks)),
            Identity::Luns { select } => {
                let list = luns_bytes(self.ftl.numbers(), select);
                self.keep_bytes(index, list.as_slice());
            }
            Identity::LongCapacity { blocks } => {
                self.keep_bytes(index, &long_capacity_bytes(blocks));
            }
            Identity::Page { lun, page } => {
                let told = page_bytes(self.ftl.numbers(), lun, page);
                self.keep_bytes(index, told.as_slice());
            }
            Identity::Modes { select, is_guarded } => {
                self.keep_bytes(index, modes_told(select, is_guarded).as_slice());
            }
            Identity::ShortModes { select, is_guarded } => {
                self.keep_bytes(index, short_modes_told(select, is_guarded).as_slice());
            }
            Identity::Operations { select } => {
                self.keep_bytes(index, operations_told(select).as_slice());
            }
        }
    }

    /// The frames that wait in the region go to the task at this position.
    fn hand_over(&mut self, index: usize, region: u8)
        requires { index < length self.old.tasks }
        ensures { self.new ≡ handed_over self.old index region }
    {
        let mut frames: Block = *zeros();
        take_waiting(&mut self.rpmb, region, &mut frames);
        self.set.keep(index, &frames);
    }

    /// All frames of the task of this position and tag came.
    #[tactic(auto, using(crate::proofs::host_messages::RequestPut::number_left))]
    pub(crate) fn hear_frames(&mut self, index: usize, tag: u8, frames: &[u8])
        requires there { index < length self.old.tasks }
        requires few { length frames.now ≤ 4096 }
        ensures { HasDecided self.old self.new tag index frames.now }
    {
        let accepts_nothing = self.accepts_nothing();
        let region = self.set.task(index).region;
        match self.rpmb.out(region, frames, accepts_nothing) {
            Outcome::Refused(why) => self.refuse_frames(index, tag, why.sense()),
            Outcome::Results { result, accepted } => {
                self.begin_request(index, tag, region, frames, result, &accepted);
            }
        }
    }

    /// Whether nothing can be accepted now: the device is locked, or not mended yet.
    fn accepts_nothing(&self) -> bool
        ensures described { (t : Translation) → IsLayer self.now.ftl t →
            result ≡ is_locked t || not (is_mended t.work.mending) }
        ensures numbered { result ≡ false → IsTrue (has_number self.now.ftl) }
    {
        self.ftl.is_locked() || !self.ftl.is_mended()
    }

    /// The frames are refused with this sense, and change nothing.
    fn refuse_frames(&mut self, index: usize, tag: u8, sense: Sense)
        requires { index < length self.old.tasks }
        ensures { HasRefused self.old self.new tag index sense }
    {
        self.ftl.release(tag);
        self.happen(index, TaskEvent::DataRefused { sense });
    }

    /// The frames are a request to the region with this result, of which this is accepted.
    fn begin_request(
        &mut self,
        index: usize,
        tag: u8,
        region: u8,
        frames: &[u8],
        code: u16,
        accepted: &Accepted,
    )
        requires there { index < length self.old.tasks }
        requires few { length frames.now ≤ 4096 }
        requires may { MayChange accepted.now (machine_at self.old.rpmb region).region }
        requires numbered { HasNumberFor accepted.now self.old.ftl }
        ensures { HasRequested self.old self.new tag index region frames.now code accepted.now }
    {
        self.keep_bytes(index, frames);
        let event = self.decide(tag, region, frames, code, accepted);
        self.rpmb.begin(region, frames);
        self.happen(index, event);
    }

    /// The task at this position keeps these bytes, with zeros behind them.
    fn keep_bytes(&mut self, index: usize, bytes: &[u8])
        requires there { index < length self.old.tasks }
        requires few { length bytes.now ≤ 4096 }
        ensures { self.new ≡ with_held self.old index (with_zeros bytes.now) }
    {
        self.set.keep(index, &block_of(bytes));
    }

    /// What a request with this result does: what is accepted is put behind all that was accepted;
    /// any other request is answered, or reads what it asks for.
    fn decide(
        &mut self,
        tag: u8,
        region: u8,
        frames: &[u8],
        code: u16,
        accepted: &Accepted,
    ) -> TaskEvent
        requires few { length frames.now ≤ 4096 }
        requires may { MayChange accepted.now (machine_at self.old.rpmb region).region }
        requires numbered { HasNumberFor accepted.now self.old.ftl }
        ensures left { self.new ≡ record self.old { ftl = self.new.ftl; rpmb = self.new.rpmb } }
        ensures done { IsDecided self.old self.new tag region (frames_of frames.now) code
            accepted.now result }
    {
        match accepted {
            Accepted::Nothing => self.answer_request(tag, region, frames, code),
            Accepted::Key(_) => self.accept_request(tag, region, frames, code, accepted),
            Accepted::Write { .. } => self.accept_request(tag, region, frames, code, accepted),
        }
    }

    /// A request that accepts nothing gives its slots back. One for data that passed its checks
    /// reads its pages; any other is answered at once.
    fn answer_request(&mut self, tag: u8, region: u8, frames: &[u8], code: u16) -> TaskEvent
        ensures left { self.new ≡ record self.old { ftl = self.new.ftl } }
        ensures answered { HasAnswered self.old.ftl self.new.ftl tag region (frames_of frames.now)
            code result }
    {
        self.ftl.release(tag);
        match asked_area(frames, code) {
            None => TaskEvent::RequestAnswered { code },
            Some(asked) => self.ask_area(tag, region, code, asked),
        }
    }

    /// The position of the task whose request has its GOOD due now and is yet to fill its register.
    fn to_answer(&self) -> Option<usize>
        ensures what { (t : Translation) → IsLayer self.now.ftl t → result ≡ to_answer t self.now }
        ensures within { IfSome result (λ k. k < length self.now.tasks) }
    {
        let index = self.set.decided()?;
        self.is_good_due(index).then_some(index)
    }

    /// A request whose GOOD is due fills its register, and its task keeps nothing any more.
    pub(crate) fn fill_register(&mut self)
        ensures { HasFilled self.old self.new }
    {
        if let Some(index) = self.to_answer() {
            self.answer(index);
            self.end_request(index);
        }
    }

    /// The request of the task at this position has filled its register, and its task keeps nothing
    /// any more.
    fn end_request(&mut self, index: usize)
        requires { index < length self.old.tasks }
        ensures left { self.new
            ≡ record (with_event self.old index TaskEvent.RegisterFilled) { ftl = self.new.ftl } }
        ensures layer { (t : Translation) (claims : Claims) (task : OpenTask) →
            IsLayerWith self.old.ftl t claims → slice_get self.old.tasks index ≡ Some task →
            IsLayerWith self.new.ftl (moved t (LetGoAll task.tag)) claims }
    {
        let task = self.set.task(index);
        self.ftl.unpin(task.tag);
        self.happen(index, TaskEvent::RegisterFilled);
    }

    /// The request of the task at this position fills its register.
    fn answer(&mut self, index: usize)
        requires { index < length self.old.tasks }
        ensures left { self.new ≡ record self.old { rpmb = self.new.rpmb } }
        ensures responded { (t : Translation) (task : OpenTask) (code : ℕ) →
            IsLayer self.old.ftl t → slice_get self.old.tasks index ≡ Some task →
            task.frames ≡ Frames.Decided code →
            HasResponded self.old.rpmb self.new.rpmb task code (data_for t task task.phase) }
    {
        let task = self.set.task(index);
        if let Frames::Decided { code } = task.frames {
            match self.data_for(index, &task) {
                None => self.respond(index, task.region, code, None),
                Some(data) => self.respond(index, task.region, code, Some(data.as_slice())),
            }
        }
    }

    /// The request of the task at this position, to this region and with this result, fills its register
    /// by these data that were read for it: none if a page of them could not be read.
    fn respond(&mut self, index: usize, region: u8, code: u16, data: Option<&[u8]>)
        requires there { index < length self.old.tasks }
        requires few { AreFew (option_copied «data») }
        ensures left { self.new ≡ record self.old { rpmb = self.new.rpmb } }
        ensures responded { (task : OpenTask) → slice_get self.old.tasks index ≡ Some task →
            task.region ≡ region →
            HasResponded self.old.rpmb self.new.rpmb task code (option_copied «data».entry) }
    {
        if let Some(held) = self.set.held(index) {
            self.rpmb.respond(region, &held[..FRAME], code, data);
        }
    }

    /// Whether GOOD is due to the task at this position.
    fn is_good_due(&self, index: usize) -> bool
        requires { index < length self.now.tasks }
        ensures { (t : Translation) → IsLayer self.now.ftl t →
            result ≡ is_due_to t (slice_get self.now.tasks index) }
    {
        let task = self.set.task(index);
        match task.phase {
            Phase::AwaitFrontier { number, length: _ } => number <= self.ftl.frontier(),
            Phase::ReadArea { reading } => self.is_area_there(task.tag, reading),
            Phase::Answer {
                status: Status::Good,
                length: _,
            } => true,
            _ => false,
        }
    }
}
