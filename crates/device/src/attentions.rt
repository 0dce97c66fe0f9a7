//! Unit attentions: each LUN has one after each opening and each reset of it, which a host is told once
//! (SAM, unit attention condition).
ghost use Rattle.std.specs.Prelude.{◌≡◌, ◌<◌, IfSome, false, slice_get, unwrap_or};
ghost use Rattle.ufs_spec.specs.Refusals.{lun_of};
ghost use Rattle.ufs_spec.specs.Translation.{Translation, is_mended};
ghost use Rattle.ftl_core.specs.Public.{Describes as IsLayer};
ghost use Rattle.lun_route.specs.Luns.{place_of};
ghost use Rattle.device.specs.Attentions.{attended_at, attention_set, is_attention, sense_by, sense_of, sense_there};
ghost use Rattle.device.specs.Attentions.{tells_attention, tells_sense, volatile_left, with_attention_at};

use crate::device::Device;
use crate::plans::{Identity, Plan, Source};
use lun_route::named_lun;
use ufs_spec::{Sense, Status, Volatile};

/// Whether a command of which this was planned tells the attention of its LUN: it is refused with it, or is
/// REQUEST SENSE.
fn tells_attention(planned: Result<Plan, Status>) -> bool
    ensures { result ≡ tells_attention planned }
{
    match planned {
        Ok(plan) => tells_sense(plan),
        Err(status) => is_attention(status),
    }
}

/// Whether it is the plan of REQUEST SENSE.
fn tells_sense(plan: Plan) -> bool
    ensures { result ≡ tells_sense plan }
{
    matches!(
        plan,
        Plan::Send {
            from: Source::Identity {
                told: Identity::Sense { .. }
            },
            ..
        }
    )
}

/// Whether the status tells an attention: UNIT ATTENTION is the sense key of nothing else.
fn is_attention(status: Status) -> bool
    ensures { result ≡ is_attention status }
{
    match status {
        Status::CheckCondition(sense) => sense.key == Sense::UNIT_ATTENTION.key,
        _ => false,
    }
}

/// Whether there is an attention at this place.
fn has_one_at(volatile: Volatile, place: usize) -> bool
    ensures { result ≡ unwrap_or (slice_get volatile.attentions place) false }
{
    volatile.attentions.get(place).copied().unwrap_or(false)
}

/// What is volatile once the LUN whose attention stands at this place has one, or none any more; if it has
/// a place.
fn with_attention_at(volatile: Volatile, place: Option<usize>, has_one: bool) -> Volatile
    requires { IfSome place (λ p. p < 12) }
    ensures { result ≡ with_attention_at place has_one volatile }
{
    let mut after = volatile;
    if let Some(place) = place {
        after.attentions[place] = has_one;
    }
    after
}

/// What REQUEST SENSE tells at a LUN that is there (SPC), by whether it has an attention, and whether the
/// device is mended.
fn sense_there(is_attended: bool, is_mended: bool) -> Sense
    ensures { result ≡ sense_there is_attended is_mended }
{
    if is_attended {
        Sense::UNIT_ATTENTION
    } else if is_mended {
        Sense::NO_SENSE
    } else {
        Sense::NOT_READY
    }
}

/// The same at a LUN whose attention stands at this place, if there is such a LUN.
fn sense_by(place: Option<usize>, is_attended: bool, is_mended: bool) -> Sense
    ensures { result ≡ sense_by place is_attended is_mended }
{
    match place {
        Some(_) => sense_there(is_attended, is_mended),
        None => Sense::NO_UNIT,
    }
}

impl Device {
    /// Whether a LUN has an attention that stands at this place, if it has a place. A device of profile 0
    /// tells none.
    pub(crate) fn has_attention(&self, place: Option<usize>) -> bool
        ensures { (t : Translation) → IsLayer self.now.ftl t →
            result ≡ attended_at t.numbers self.now.volatile place }
    {
        match place {
            Some(place) => self.ftl.numbers().profile > 0 && has_one_at(self.volatile, place),
            None => false,
        }
    }

    /// What REQUEST SENSE tells at a LUN whose attention stands at this place, if there is such a LUN (SPC):
    /// that there is none, its attention, or that the device is not mended yet. On a device of profile 0
    /// there is nothing to tell.
    pub(crate) fn sense_told(&self, place: Option<usize>) -> Sense
        ensures { (t : Translation) → IsLayer self.now.ftl t → result ≡ sense_of t.numbers place
            (attended_at t.numbers self.now.volatile place) (is_mended t.work.mending) }
    {
        if self.ftl.numbers().profile == 0 {
            return Sense::NO_SENSE;
        }
        sense_by(place, self.has_attention(place), self.ftl.is_mended())
    }

    /// The attention of the LUN with this byte ends, if what was planned for a command tells it.
    pub(crate) fn end_attention(&mut self, lun: u8, planned: Result<Plan, Status>)
        ensures left { self.new ≡ record self.old { volatile = self.new.volatile } }
        ensures ended { (t : Translation) → IsLayer self.old.ftl t →
            self.new.volatile ≡ volatile_left t.numbers lun planned self.old.volatile }
    {
        if tells_attention(planned) {
            self.set_attention(lun, false);
        }
    }

    /// The LUN with this byte has an attention from now on, or none any more, if there is such a LUN.
    pub(crate) fn set_attention(&mut self, lun: u8, has_one: bool)
        ensures left { self.new ≡ record self.old { volatile = self.new.volatile } }
        ensures after { (t : Translation) → IsLayer self.old.ftl t →
            self.new.volatile ≡ attention_set t.numbers lun has_one self.old.volatile }
    {
        let place = self.place_of_attention(lun);
        self.volatile = with_attention_at(self.volatile, place, has_one);
    }

    /// Where the attention of the LUN with this byte stands among those of all LUNs, if there is such a LUN.
    fn place_of_attention(&self, lun: u8) -> Option<usize>
        ensures is { (t : Translation) → IsLayer self.now.ftl t → result ≡ place_of (lun_of t.numbers lun) }
        ensures within { IfSome result (λ p. p < 12) }
    {
        let lun = named_lun(self.ftl.numbers(), lun)?;
        Some(lun.attention_place())
    }
}
