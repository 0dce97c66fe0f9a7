//! Taking the core out of its slot, and putting it back.
ghost use Rattle.std.specs.Prelude.{◌≡◌, false, true};
ghost use Rattle.lanes.specs.Rule.{HasTaken, IsAt, IsSeatOf, Meets, Rests, Stepped, WasOut};

use crate::view::{OneList, Opening, Said, View};
use atomic_table::{Play, Seat, Shared, Table};
use device::Device;
use nand_model::Die;
use std::alloc::Global;
use std::marker::PhantomData;

pub(crate) type Core<D> = Shared<Device, View<D>, Opening<D>, OneList<D>>;

pub(crate) type Board<D> = Table<Device, View<D>, Opening<D>, OneList<D>, Global>;

pub(crate) type Place<D> = Seat<Device, View<D>>;

/// The attempt to take the core.
pub(crate) struct Seizes;

impl<D: Die> Play<Device, View<D>> for Seizes {
    ghost use Rattle.lanes.specs.Rule.{Seized};

    ghost then = { λ _ before found after. Seized D.state before found after };
}

/// The core is put back after a step.
pub(crate) struct PutsBack<W> {
    said: PhantomData<W>,
}

impl<D: Die, W: Said<D>> Play<Device, View<D>> for PutsBack<W> {
    ghost use Rattle.lanes.specs.Rule.{Stepped};

    ghost then = { λ _ before _ after. Stepped D.state before.0 W.made W.lane after };
}

/// One attempt to take the core; false if it is out.
pub(crate) fn seize<D: Die>(core: &Core<D>, seat: &mut Place<D>) -> bool
    requires { IsSeatOf core.now.table_id seat.old × Rests seat.old.me }
    ensures seat { IsSeatOf core.now.table_id seat.new × (seat.new.id ≡ seat.old.id) }
    ensures taken { result ≡ true → HasTaken seat.old.me seat.new.me }
    ensures busy { result ≡ false → seat.new.me ≡ seat.old.me }
    ensures was_out { result ≡ false → WasOut D.state seat.old.me.0 }
{
    core.swap::<Seizes>(seat, 0, 1) == 0
}

/// Puts the core back after a call of it, with what this call was and what it answered.
pub(crate) fn put_back<D: Die, W: Said<D>, A, B>(
    core: &Core<D>,
    seat: &mut Place<D>,
    _call: &A,
    _answer: &B,
)
    requires own { IsSeatOf core.now.table_id seat.old }
    requires steps { seat.old.me.0.steps ≡ true }
    requires step { IsAt seat.old.me (λ before after. Meets D.state before W.made after
        seat.old.me.0.lane W.lane) }
    ensures seat { IsSeatOf core.now.table_id seat.new × (seat.new.id ≡ seat.old.id) }
    ensures stepped { Stepped D.state seat.old.me.0 W.made W.lane seat.new.me }
{
    core.store::<PutsBack<W>>(seat, 0, 0);
}
