//! Who has the steps of mending and collection done.
ghost use Rattle.std.specs.Prelude.{◌≡◌, None};
ghost use Rattle.lanes.specs.Attempts.{IfBusy, IfDid};
ghost use Rattle.lanes.specs.Rule.{Did, WasOut};
ghost use Rattle.lanes.specs.declared.view.Made.TheVariants as made;

use crate::calls::try_turn;
use crate::place::{Board, Place};
use crate::tried::Tried;
use nand_model::Die;
use std::alloc::Global;
use std::marker::Model;
use std::sync::Arc;

/// Who has the steps of mending and collection done.
#[derive(Drop)]
pub struct Keeper<D: Die> {
    pub(crate) board: Arc<Board<D>, Global>,
    pub(crate) seat: Place<D>,
}

impl<D: Die> Model for Keeper<D> {
    ghost use Rattle.std.specs.Prelude.{◌≡◌, None};
    ghost use Rattle.std.specs.Arc.{arc_value};
    ghost use Rattle.lanes.specs.Callers.{Caller};
    ghost use Rattle.lanes.specs.Rule.{IsSeatOf, Rests};

    ghost Value = { Caller D };

    ghost view = { λ p. record { table = p.seat.table_id; view = p.seat.me.0 } };

    ghost invariant = { λ p. IsSeatOf (arc_value p.board).shared.table_id p.seat
        × Rests p.seat.me × (p.seat.me.0.lane ≡ None) };
}

impl<D: Die> Keeper<D> {
    /// One attempt to do the next step of mending or collection: false if none is due.
    pub fn try_turn(&mut self) -> Tried<bool>
        ensures table { self.new.table ≡ self.old.table }
        ensures busy { IfBusy result (self.new ≡ self.old) }
        ensures was_out { IfBusy result (WasOut D.state self.old.view) }
        ensures did { IfDid result (λ due. Did D.state self.old.view (made.Turn due) None
            self.new.view) }
    {
        try_turn(&self.board.shared, &mut self.seat)
    }
}
