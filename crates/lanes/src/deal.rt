//! Dealing seats.
ghost use Rattle.std.specs.Prelude.{◌≡◌, ◌<◌, []};
ghost use Rattle.lanes.specs.Rule.{IsDealer, IsSeatOf, lane_dealt, new_lane, new_port, port_dealt};

use crate::place::{Core, Place};
use crate::view::View;
use atomic_table::Split;
use nand_model::Die;

/// A seat with the next number.
pub(crate) struct DealsPort;

impl<D> Split<View<D>> for DealsPort {
    ghost use Rattle.lanes.specs.Rule.{new_port, port_dealt};

    ghost left = { port_dealt };

    ghost right = { new_port };
}

/// The same, with the last die that was not dealt.
pub(crate) struct DealsLane;

impl<D> Split<View<D>> for DealsLane {
    ghost use Rattle.lanes.specs.Rule.{lane_dealt, new_lane};

    ghost left = { lane_dealt };

    ghost right = { new_lane };
}

pub(crate) fn deal_port<D: Die>(core: &Core<D>, dealer: &mut Place<D>) -> Place<D>
    requires { IsDealer core.now.table_id dealer.old }
    ensures dealer { IsDealer core.now.table_id dealer.new
        × (dealer.new.me ≡ (port_dealt dealer.old.me.0, dealer.old.me.1)) }
    ensures seat { IsSeatOf core.now.table_id result
        × (result.me ≡ (new_port dealer.old.me.0, [])) }
{
    core.split_seat::<DealsPort>(dealer)
}

pub(crate) fn deal_lane<D: Die>(core: &Core<D>, dealer: &mut Place<D>) -> Place<D>
    requires dealer { IsDealer core.now.table_id dealer.old }
    requires some { 0 < dealer.old.me.0.lanes }
    ensures dealer { IsDealer core.now.table_id dealer.new
        × (dealer.new.me ≡ (lane_dealt dealer.old.me.0, dealer.old.me.1)) }
    ensures seat { IsSeatOf core.now.table_id result
        × (result.me ≡ (new_lane dealer.old.me.0, [])) }
{
    core.split_seat::<DealsLane>(dealer)
}
