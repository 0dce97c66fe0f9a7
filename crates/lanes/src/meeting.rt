//! What one caller has seen is told to another.
ghost use Rattle.std.specs.Prelude.{◌≡◌};
ghost use Rattle.lanes.specs.Rule.{HasHeard, HasMet, IsSeatOf, Rests, longer};

use crate::place::{Core, Place};
use crate::port::Port;
use crate::view::View;
use atomic_table::{Join, Play, Split};
use device::Device;
use nand_model::Die;

/// A messenger is sent, with what the seat has seen.
struct Tells;

impl<D> Split<View<D>> for Tells {
    ghost use Rattle.lanes.specs.Rule.{messenger};

    ghost left = { λ v. v };

    ghost right = { λ v. messenger v.seen };
}

/// A messenger is heard.
struct Hears;

impl<D> Join<View<D>> for Hears {
    ghost use Rattle.lanes.specs.Rule.{both, spent};

    ghost both = { both };

    ghost spent = { spent };
}

/// What was heard is compared with the list.
struct Looks;

impl<D> Play<Device, View<D>> for Looks {
    ghost use Rattle.lanes.specs.Rule.{Looked};

    ghost then = { λ _ before _ after. Looked before after };
}

/// Tells one seat what another has seen.
pub(crate) fn tell<D: Die>(core: &Core<D>, from: &mut Place<D>, to: &mut Place<D>)
    requires from { IsSeatOf core.now.table_id from.old × Rests from.old.me }
    requires to { IsSeatOf core.now.table_id to.old × Rests to.old.me }
    ensures from { (from.new.table_id ≡ from.old.table_id) × (from.new.id ≡ from.old.id)
        × (from.new.me ≡ from.old.me) }
    ensures to { IsSeatOf core.now.table_id to.new × Rests to.new.me × (to.new.id ≡ to.old.id) }
    ensures heard { HasHeard from.old.me.0.seen to.old.me.0 to.new.me.0 }
{
    let messenger = core.split_seat::<Tells>(from);
    core.join_seat::<Hears>(to, messenger);
    core.load::<Looks>(to, 0);
}

/// Tells each of two ports of one device what the other has seen: both have the longer of their two
/// lists then.
pub fn meet<D: Die>(one: &mut Port<D>, other: &mut Port<D>)
    requires { one.old.table ≡ other.old.table }
    ensures table { (one.new.table ≡ one.old.table) × (other.new.table ≡ other.old.table) }
    ensures longer { (one.new.view.seen ≡ longer other.old.view.seen one.old.view.seen)
        × (other.new.view.seen ≡ one.new.view.seen) }
    ensures one { HasMet other.old.view.seen one.old.view one.new.view }
    ensures other { HasMet one.old.view.seen other.old.view other.new.view }
{
    let core = &one.board.shared;
    tell(core, &mut one.seat, &mut other.seat);
    tell(core, &mut other.seat, &mut one.seat);
}
