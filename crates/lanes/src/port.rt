//! A host's end of the device.
ghost use Rattle.std.specs.Prelude.{◌≡◌, None, false};
ghost use Rattle.lanes.specs.Attempts.{IfBusy, IfDid};
ghost use Rattle.lanes.specs.Legal.{shown};
ghost use Rattle.lanes.specs.Rule.{Did, WasOut};
ghost use Rattle.lanes.specs.declared.view.Made.TheVariants as made;

use crate::calls::{try_host, try_reply};
use crate::place::{Board, Place};
use crate::tried::Tried;
use nand_model::Die;
use std::alloc::Global;
use std::marker::Model;
use std::sync::Arc;
use ufs_spec::{HostFault, Upiu};

/// A host's end of the device. Contracts see at which table it is, and what its seat knows.
#[derive(Drop)]
pub struct Port<D: Die> {
    pub(crate) board: Arc<Board<D>, Global>,
    pub(crate) seat: Place<D>,
}

impl<D: Die> Model for Port<D> {
    ghost use Rattle.std.specs.Prelude.{◌≡◌, None};
    ghost use Rattle.std.specs.Arc.{arc_value};
    ghost use Rattle.lanes.specs.Callers.{Caller};
    ghost use Rattle.lanes.specs.Rule.{IsSeatOf, Rests};

    ghost Value = { Caller D };

    ghost view = { λ p. record { table = p.seat.table_id; view = p.seat.me.0 } };

    ghost invariant = { λ p. IsSeatOf (arc_value p.board).shared.table_id p.seat
        × Rests p.seat.me × (p.seat.me.0.lane ≡ None) };
}

impl<D: Die> Port<D> {
    /// One attempt to hear a message.
    pub fn try_host(&mut self, bytes: &[u8]) -> Tried<Result<(), HostFault>>
        ensures table { self.new.table ≡ self.old.table }
        ensures busy { IfBusy result (self.new ≡ self.old) }
        ensures was_out { IfBusy result (WasOut D.state self.old.view) }
        ensures did { IfDid result (λ answer. Did D.state self.old.view (made.Host bytes.now
            answer) None self.new.view) }
    {
        try_host(&self.board.shared, &mut self.seat, bytes)
    }

    /// One attempt to hand out a reply: false, and nothing is written, if none is due.
    pub fn try_reply(&mut self, into: &mut Upiu) -> Tried<bool>
        ensures table { self.new.table ≡ self.old.table }
        ensures busy { IfBusy result ((self.new ≡ self.old) × (into.new ≡ into.old)) }
        ensures was_out { IfBusy result (WasOut D.state self.old.view) }
        ensures did { IfDid result (λ due. Did D.state self.old.view (made.Reply (shown due
            into.new.items)) None self.new.view) }
        ensures nothing { IfDid result (λ due. due ≡ false → into.new ≡ into.old) }
    {
        try_reply(&self.board.shared, &mut self.seat, into)
    }
}
