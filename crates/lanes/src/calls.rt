//! One attempt at each of the five calls, at a seat.
ghost use Rattle.std.specs.Prelude.{◌≡◌, None, false};
ghost use Rattle.page_tag.specs.Jobs.{IsTagRead};
ghost use Rattle.lanes.specs.Attempts.{IfBusy, IfDid};
ghost use Rattle.lanes.specs.Legal.{shown};
ghost use Rattle.lanes.specs.Rule.{Did, HasDone, IsLaneOf, IsSeatOf, Rests, WasOut, lane_ended};
ghost use Rattle.lanes.specs.Rule.{lane_given};
ghost use Rattle.lanes.specs.declared.view.Made.TheVariants as made;

use crate::facts::is_in_memory;
use crate::place::{Core, Place, put_back, seize};
use crate::tried::Tried;
use nand_model::Die;
use page_tag::UnsealedJob;
use std::marker::Brand;
use ufs_spec::{HostFault, Job, Outcome, Tag, Upiu};

/// One attempt to hear a message.
pub(crate) fn try_host<D: Die>(
    core: &Core<D>,
    seat: &mut Place<D>,
    bytes: &[u8],
) -> Tried<Result<(), HostFault>>
    requires seat { IsSeatOf core.now.table_id seat.old × Rests seat.old.me }
    requires lane { seat.old.me.0.lane ≡ None }
    ensures seat { IsSeatOf core.now.table_id seat.new × (seat.new.id ≡ seat.old.id)
        × Rests seat.new.me }
    ensures busy { IfBusy result (seat.new.me ≡ seat.old.me) }
    ensures was_out { IfBusy result (WasOut D.state seat.old.me.0) }
    ensures did { IfDid result (λ answer. Did D.state seat.old.me.0 (made.Host bytes.now answer)
        None seat.new.me.0) }
{
    is_in_memory(bytes);
    if !seize(core, seat) {
        return Tried::Busy;
    }
    let result = seat.slot_mut(core, 0).host(bytes);
    put_back::<D, Brand, &[u8], Result<(), HostFault>>(core, seat, &bytes, &result);
    Tried::Did(result)
}

/// One attempt to hand out a reply: false if none is due.
pub(crate) fn try_reply<D: Die>(core: &Core<D>, seat: &mut Place<D>, into: &mut Upiu) -> Tried<bool>
    requires seat { IsSeatOf core.now.table_id seat.old × Rests seat.old.me }
    requires lane { seat.old.me.0.lane ≡ None }
    ensures seat { IsSeatOf core.now.table_id seat.new × (seat.new.id ≡ seat.old.id)
        × Rests seat.new.me }
    ensures busy { IfBusy result ((seat.new.me ≡ seat.old.me) × (into.new ≡ into.old)) }
    ensures was_out { IfBusy result (WasOut D.state seat.old.me.0) }
    ensures did { IfDid result (λ due. Did D.state seat.old.me.0 (made.Reply (shown due
        into.new.items)) None seat.new.me.0) }
    ensures nothing { IfDid result (λ due. due ≡ false → into.new ≡ into.old) }
{
    if !seize(core, seat) {
        return Tried::Busy;
    }
    let due = seat.slot_mut(core, 0).reply(into);
    put_back::<D, Brand, Upiu, bool>(core, seat, into, &due);
    Tried::Did(due)
}

/// One attempt to have the next job of a die. Its page is sealed after the core is back in its slot. It is
/// never inlined, so that the page lies in the room of one answer up to here.
#[inline(never)]
pub(crate) fn try_take<D: Die>(core: &Core<D>, seat: &mut Place<D>, die: u8) -> Tried<Option<Job>>
    requires seat { IsSeatOf core.now.table_id seat.old × Rests seat.old.me }
    requires lane { IsLaneOf seat.old.me.0.lane die }
    ensures seat { IsSeatOf core.now.table_id seat.new × (seat.new.id ≡ seat.old.id)
        × Rests seat.new.me }
    ensures busy { IfBusy result (seat.new.me ≡ seat.old.me) }
    ensures was_out { IfBusy result (WasOut D.state seat.old.me.0) }
    ensures did { IfDid result (λ job. Did D.state seat.old.me.0 (made.Take die job) (lane_given
        seat.old.me.0.lane job) seat.new.me.0) }
{
    if !seize(core, seat) {
        return Tried::Busy;
    }
    let job = seat.slot_mut(core, 0).take_unsealed(die);
    put_back::<D, Brand, u8, Option<UnsealedJob>>(core, seat, &die, &job);
    Tried::Did(sealed(job))
}

/// The job, with its page sealed.
fn sealed(job: Option<UnsealedJob>) -> Option<Job>
    ensures { result ≡ job }
{
    let job = job?;
    Some(job.sealed())
}

/// One attempt to do the next step of mending or collection: false if none is due.
pub(crate) fn try_turn<D: Die>(core: &Core<D>, seat: &mut Place<D>) -> Tried<bool>
    requires seat { IsSeatOf core.now.table_id seat.old × Rests seat.old.me }
    requires lane { seat.old.me.0.lane ≡ None }
    ensures seat { IsSeatOf core.now.table_id seat.new × (seat.new.id ≡ seat.old.id)
        × Rests seat.new.me }
    ensures busy { IfBusy result (seat.new.me ≡ seat.old.me) }
    ensures was_out { IfBusy result (WasOut D.state seat.old.me.0) }
    ensures did { IfDid result (λ due. Did D.state seat.old.me.0 (made.Turn due) None
        seat.new.me.0) }
{
    if !seize(core, seat) {
        return Tried::Busy;
    }
    let due = seat.slot_mut(core, 0).turn();
    put_back::<D, Brand, (), bool>(core, seat, &(), &due);
    Tried::Did(due)
}

/// One attempt to end the job of a die, which the die has done, well or not. The tag of a page that
/// was read is known.
pub(crate) fn try_done<D: Die>(
    core: &Core<D>,
    seat: &mut Place<D>,
    number: u8,
    outcome: &Outcome,
    tag: &Option<Tag>,
    die: &D,
) -> Tried<bool>
    requires tag { IsTagRead outcome.now tag.now }
    requires seat { IsSeatOf core.now.table_id seat.old × Rests seat.old.me }
    requires lane { HasDone D.state D.failed seat.old.me.0.lane number die.now outcome.now }
    ensures seat { IsSeatOf core.now.table_id seat.new × (seat.new.id ≡ seat.old.id)
        × Rests seat.new.me }
    ensures busy { IfBusy result (seat.new.me ≡ seat.old.me) }
    ensures was_out { IfBusy result (WasOut D.state seat.old.me.0) }
    ensures did { IfDid result (λ known. Did D.state seat.old.me.0 (made.Done number outcome.now
        known) (lane_ended seat.old.me.0.lane die.now) seat.new.me.0) }
{
    if !seize(core, seat) {
        return Tried::Busy;
    }
    let known = seat.slot_mut(core, 0).done_opened(number, outcome, tag);
    put_back::<D, Brand, (u8, &Outcome, &D), bool>(core, seat, &(number, outcome, die), &known);
    Tried::Did(known)
}
