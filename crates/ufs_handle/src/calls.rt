//! Calls of the device that a handle holds. Where it holds none, or the power is off, they do nothing and
//! answer `None`; `stop` alone brings the power back.
ghost use Rattle.std.specs.Prelude.{◌≡◌, ◌≤◌, None, IfErr, OnErr, OnOk, is_some, length};
ghost use Rattle.ufs_handle.specs.Calls.{Called, Ends, Fails, GivesUp, Hears, IsNotOpened, IsOpen, StopsSo, Turns};
ghost use Rattle.ufs_handle.specs.Calls.{Works};
ghost use Rattle.ufs_handle.specs.Exports.{GivesJob, GivesReply, most_reply};
ghost use Rattle.ufs_handle.specs.Steps.{Settles};

use crate::fault::Fault;
use crate::handle::Handle;
use crate::held::Held;
use crate::left::Left;
use crate::plain::PlainJob;
use geometry::Config;
use nand_model::MemDie;
use std::alloc::Global;
use ufs_spec::{HostFault, Outcome};

impl Handle {
    /// Opens a device over these dies in memory, where the handle holds none.
    ///
    /// # Errors
    ///
    /// `Open` where it holds one; else those of `Held::open`. Nothing changes then, and the dies
    /// are given up.
    pub fn open(&mut self, alloc: Global, config: Config, dies: Vec<MemDie>) -> Result<(), Fault>
        ensures opened { OnOk result (IsOpen config dies.items self.new.value) }
        ensures held_none { OnOk result (self.old.value ≡ None) }
        ensures refused { OnErr result (self.new.value ≡ self.old.value) }
        ensures why { IfErr result (IsNotOpened config dies.items self.old.value) }
    {
        if self.is_open() {
            return Err(Fault::Open);
        }
        self.put(Held::open(alloc, config, dies)?);
        Ok(())
    }

    /// Gives up the device and its dies; false where the handle holds none. It holds none
    /// afterwards.
    pub fn close(&mut self, alloc: Global) -> bool
        ensures closed { self.new.value ≡ None }
        ensures was { result ≡ is_some self.old.value }
    {
        self.take(alloc).is_some()
    }

    /// Hands the device a message, as `Held::host` does.
    pub fn host(&mut self, alloc: Global, message: &[u8]) -> Option<Result<(), HostFault>>
        ensures { Called (Hears message.now) self.old.value result self.new.value }
    {
        let mut held = self.take_on(alloc)?;
        let answer = held.host(message);
        self.put(held);
        Some(answer)
    }

    /// Takes a reply into the front of the room, as `Held::reply` does.
    pub fn reply(&mut self, alloc: Global, into: &mut [u8], count: &mut usize) -> Option<bool>
        requires { most_reply ≤ length into.old }
        ensures { GivesReply into.old into.new count.old count.new self.old.value result self.new.value }
    {
        let mut held = self.take_on(alloc)?;
        let answer = held.reply(into, count);
        self.put(held);
        Some(answer)
    }

    /// Takes a step of mending or of collection, as `Held::turn` does.
    pub fn turn(&mut self, alloc: Global) -> Option<bool>
        ensures { Called Turns self.old.value result self.new.value }
    {
        let mut held = self.take_on(alloc)?;
        let answer = held.turn();
        self.put(held);
        Some(answer)
    }

    /// A job for the die as numbers and bytes, as `Held::take` gives it.
    pub fn take_job(&mut self, alloc: Global, die: u8, shown: &mut PlainJob) -> Option<bool>
        ensures { GivesJob die shown.old shown.new self.old.value result self.new.value }
    {
        let mut held = self.take_on(alloc)?;
        let answer = held.take(die, shown);
        self.put(held);
        Some(answer)
    }

    /// Ends the job in flight of a die of the program's own, as `Held::done` does.
    pub fn done(&mut self, alloc: Global, die: u8, outcome: &Outcome) -> Option<bool>
        ensures { Called (Ends die outcome.now) self.old.value result self.new.value }
    {
        let mut held = self.take_on(alloc)?;
        let answer = held.done(die, outcome);
        self.put(held);
        Some(answer)
    }

    /// The die in memory does its job in flight, as `Held::work` says.
    pub fn work(&mut self, alloc: Global, die: u8) -> Option<bool>
        ensures { Called (Works die) self.old.value result self.new.value }
    {
        let mut held = self.take_on(alloc)?;
        let answer = held.work(die);
        self.put(held);
        Some(answer)
    }

    /// The job in flight of the die in memory fails, as `Held::fail` says.
    pub fn fail(&mut self, alloc: Global, die: u8, left: Left) -> Option<bool>
        ensures { Called (Fails die left) self.old.value result self.new.value }
    {
        let mut held = self.take_on(alloc)?;
        let answer = held.fail(die, left);
        self.put(held);
        Some(answer)
    }

    /// Rounds of a turn and of one job of each die in memory, as `Held::settle` does them.
    pub fn settle(&mut self, alloc: Global, rounds: u16) -> Option<()>
        ensures { Called (Settles rounds) self.old.value result self.new.value }
    {
        let mut held = self.take_on(alloc)?;
        held.settle(rounds);
        self.put(held);
        Some(())
    }

    /// From now on the dies are the program's own: those in memory are given up.
    pub fn give_up_dies(&mut self, alloc: Global) -> Option<()>
        ensures { Called GivesUp self.old.value result self.new.value }
    {
        let mut held = self.take_on(alloc)?;
        held.give_up_dies();
        self.put(held);
        Some(())
    }

    /// The power goes away, and the device is opened again over what the dies in memory then hold,
    /// as `Held::stop` says.
    ///
    /// # Errors
    ///
    /// `OwnDies` where there are no dies in memory: nothing changes then. Else those of
    /// `Held::stop`: the handle keeps the dies, and a further call may open the device.
    pub fn stop(&mut self, alloc: Global, lefts: &[Left]) -> Option<Result<(), Fault>>
        ensures { StopsSo lefts.now self.old.value result self.new.value }
    {
        let mut held = self.take(alloc)?;
        if held.dies().is_empty() {
            self.put(held);
            return Some(Err(Fault::OwnDies));
        }
        let answer = held.stop(lefts);
        self.put(held);
        Some(answer)
    }
}
