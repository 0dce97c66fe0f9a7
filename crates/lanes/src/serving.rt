//! Lanes and the keeper, each in a thread of its own.
ghost use Rattle.std.specs.Prelude.{◌≡◌, None, Some};
ghost use Rattle.lanes.specs.Callers.{job_of};
ghost use Rattle.lanes.specs.Serving.{HasFinished, HasServed, HasTurned};

use crate::keeper::Keeper;
use crate::lane::Lane;
use crate::patience::Patience;
use crate::tried::Tried;
use nand_model::Die;
use std::sync::Wait;
use std::sync::atomic::{AtomicBool, Ordering};
use std::thread;
use std::time::Clock;
use ufs_spec::Job;

impl<D: Die> Lane<D> {
    /// Does the job that the lane was given last, and ends it, well or not. It tries again while
    /// another caller has the core.
    pub fn finish<R: Wait + Clock>(&mut self, rt: &R, job: &Job)
        requires job { job_of self.old.view.lane ≡ Some job.now }
        requires not_ended { self.old.ended ≡ None }
        ensures ended { self.new.ended ≡ None }
        ensures table { (self.new.table ≡ self.old.table) × (self.new.number ≡ self.old.number) }
        ensures idle { job_of self.new.view.lane ≡ None }
        ensures did { HasFinished D.state self.old.number self.old.view self.new.view }
    {
        let outcome = self.work(job);
        let mut patience = Patience::new();
        for _ in rt.forever() {
            match self.try_done(&outcome) {
                Tried::Did(_) => return,
                Tried::Busy => patience.did_nothing(rt),
            }
        }
        unreachable!()
    }

    /// Does jobs until the flag is set. It ends the job that it has then, well or not, before it
    /// comes back.
    pub fn serve<R: Wait + Clock>(&mut self, rt: &R, stop: &AtomicBool)
        requires { self.old.ended ≡ None }
        ensures ended { self.new.ended ≡ None }
        ensures table { (self.new.table ≡ self.old.table) × (self.new.number ≡ self.old.number) }
        ensures idle { job_of self.old.view.lane ≡ None → job_of self.new.view.lane ≡ None }
        ensures served { HasServed D.state self.old.number self.old.view self.new.view }
    {
        let mut patience = Patience::new();
        for _ in rt.forever() {
            if stop.load(Ordering::SeqCst) {
                return;
            }
            match self.try_take() {
                Tried::Did(Some(job)) => {
                    self.finish(rt, &job);
                    patience.did();
                }
                Tried::Did(None) => patience.did_nothing(rt),
                Tried::Busy => patience.did_nothing(rt),
            }
        }
    }
}

impl<D: Die> Keeper<D> {
    /// Has steps of mending and collection done until the flag is set.
    pub fn serve<R: Wait + Clock>(&mut self, rt: &R, stop: &AtomicBool)
        ensures table { self.new.table ≡ self.old.table }
        ensures turned { HasTurned D.state self.old.view self.new.view }
    {
        let mut patience = Patience::new();
        for _ in rt.forever() {
            if stop.load(Ordering::SeqCst) {
                return;
            }
            match self.try_turn() {
                Tried::Did(true) => {
                    // What it had done waits for a lane first.
                    patience.did();
                    thread::yield_now();
                }
                Tried::Did(false) => patience.did_nothing(rt),
                Tried::Busy => patience.did_nothing(rt),
            }
        }
        unreachable!()
    }
}
