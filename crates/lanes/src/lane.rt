//! A die with the one who has its jobs done.
ghost use Rattle.std.specs.Prelude.{◌≡◌, ◌<◌, IfSome, None, Some, true};
ghost use Rattle.lanes.specs.Attempts.{IfBusy, IfDid};
ghost use Rattle.lanes.specs.Callers.{FailedOnlyIf, job_of};
ghost use Rattle.lanes.specs.Rule.{Did, WasOut, lane_ended, lane_given};
ghost use Rattle.lanes.specs.declared.view.Made.TheVariants as made;

use crate::calls::{try_done, try_take};
use crate::place::{Board, Place};
use crate::tried::Tried;
use crate::went::Went;
use nand_model::{Die, work};
use page_tag::tag_read;
use std::alloc::Global;
use std::marker::Model;
use std::sync::Arc;
use ufs_spec::{Job, Outcome, Tag};

/// A die with the one who has its jobs done. Only `work` touches the die, outside the slot of the
/// core.
#[derive(Drop)]
pub struct Lane<D: Die> {
    pub(crate) board: Arc<Board<D>, Global>,
    pub(crate) seat: Place<D>,
    pub(crate) number: u8,
    pub(crate) die: D,
    pub(crate) ended: Option<Went>,
    /// The tag of the page that the job read which was worked last.
    pub(crate) tag: Option<Tag>,
}

impl<D: Die> Model for Lane<D> {
    ghost use Rattle.std.specs.Prelude.{◌≡◌, option_map};
    ghost use Rattle.std.specs.Arc.{arc_value};
    ghost use Rattle.lanes.specs.Callers.{HasDie, KnowsTag, LaneCaller, outcome_in};
    ghost use Rattle.lanes.specs.Rule.{CanWork, IsSeatOf, Rests};

    ghost Value = { LaneCaller D };

    ghost view = { λ p. record {
      table = p.seat.table_id;
      view = p.seat.me.0;
      number = p.number;
      die = p.die;
      ended = outcome_in p.ended;
    } };

    ghost invariant = { λ p.
        IsSeatOf (arc_value p.board).shared.table_id p.seat
        × Rests p.seat.me
        × HasDie D.state D.failed p.seat.me.0.lane p.number p.die (outcome_in p.ended)
        × CanWork D.state p.seat.me.0.lane
        × KnowsTag (outcome_in p.ended) p.tag };
}

impl<D: Die> Lane<D> {
    /// One attempt to have the next job. If it is a program its page is sealed after the attempt, which
    /// takes one SHA-256.
    pub fn try_take(&mut self) -> Tried<Option<Job>>
        requires { self.old.ended ≡ None }
        ensures table { (self.new.table ≡ self.old.table) × (self.new.die ≡ self.old.die)
            × (self.new.ended ≡ None) × (self.new.number ≡ self.old.number) }
        ensures busy { IfBusy result (self.new ≡ self.old) }
        ensures was_out { IfBusy result (WasOut D.state self.old.view) }
        ensures given { IfDid result (λ job. IfSome job (λ j. job_of self.new.view.lane ≡ Some j)) }
        ensures did { IfDid result (λ job. Did D.state self.old.view (made.Take self.old.number
            job) (lane_given self.old.view.lane job) self.new.view) }
    {
        try_take(&self.board.shared, &mut self.seat, self.number)
    }

    /// Does the job that was handed out last. `Failed` and `ReadFailed` come only if the die's
    /// failures rose. It takes one SHA-256 if a page was read.
    pub fn work(&mut self, job: &Job) -> Outcome
        requires job { job_of self.old.view.lane ≡ Some job.now }
        requires not_ended { self.old.ended ≡ None }
        ensures same { (self.new.table ≡ self.old.table) × (self.new.view ≡ self.old.view)
            × (self.new.number ≡ self.old.number) }
        ensures ended { self.new.ended ≡ Some result }
        ensures failed { FailedOnlyIf result (D.failed self.old.die < D.failed self.new.die) }
    {
        let outcome = work(&mut self.die, job);
        self.ended = Some(Went::of(&outcome));
        self.tag = tag_read(&outcome);
        outcome
    }

    /// One attempt to end the job that was worked, however it went.
    pub fn try_done(&mut self, outcome: &Outcome) -> Tried<bool>
        requires ended { self.old.ended ≡ Some outcome.now }
        ensures table { (self.new.table ≡ self.old.table) × (self.new.die ≡ self.old.die)
            × (self.new.number ≡ self.old.number) }
        ensures busy { IfBusy result (self.new ≡ self.old) }
        ensures was_out { IfBusy result (WasOut D.state self.old.view) }
        ensures did { IfDid result (λ known. Did D.state self.old.view (made.Done self.old.number
            outcome.now known) (lane_ended self.old.view.lane self.old.die) self.new.view) }
        ensures idle { IfDid result (λ known. self.new.ended ≡ None) }
    {
        let tried = try_done(
            &self.board.shared,
            &mut self.seat,
            self.number,
            outcome,
            &self.tag,
            &self.die,
        );
        match tried {
            Tried::Busy => Tried::Busy,
            Tried::Did(known) => {
                self.ended = None;
                Tried::Did(known)
            }
        }
    }
}
