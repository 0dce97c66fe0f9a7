//! What tests and programs share: a device over dies in memory, driven by its five calls alone. After `new`
//! the device takes no memory. What is said to it is `row_messages`, which is passed on here.
#![tactic(auto)]

ghost use Rattle.std.specs.Prelude.{IfOk};
ghost use Rattle.ufs_spec.specs.Lives.{IsOpened, array_of, bad_of};
ghost use Rattle.ufs_spec.specs.Refusals.{State};
ghost use Rattle.ufs_spec.specs.Sound.{Sound};
ghost use Rattle.device.specs.Describes.{Describes};

mod blocks;
pub mod collected;
mod requests;

use device::Device;
use geometry::Config;
use nand_model::{MemDie, work};
use recovery::fit;
pub use row_messages::{frames, messages, row_config, small_config, spared_config};
use std::alloc::Global;
use ufs_spec::{HostFault, Job, NoMemory, OpenFault, Upiu};

/// The device, its dies, and the reply that was handed out last.
#[derive(Drop)]
pub struct Workbench {
    /// The device, in one place: whoever gives a workbench up lets go of a pointer, and not of each part.
    pub device: Box<Device>,
    pub dies: Vec<MemDie>,
    pub reply: Upiu,
}

/// New dies of these sizes.
pub fn new_dies(alloc: Global, dies: u8, blocks: u16, pages: u16) -> Result<Vec<MemDie>, NoMemory> {
    let mut all = Vec::with_capacity(alloc, dies as usize)?;
    for _ in 0..dies {
        all.push(MemDie::new(alloc, blocks, pages)?)
            .map_err(|_| NoMemory)?;
    }
    Ok(all)
}

impl Workbench {
    /// Opens a device over these dies.
    ///
    /// # Errors
    ///
    /// `OtherConfig` where the dies are not as many and as large as the configuration says, and else what
    /// `Device::open` answers. The dies are given up.
    pub fn new(alloc: Global, config: Config, dies: Vec<MemDie>) -> Result<Workbench, OpenFault>
        ensures { IfOk result (λ w. (s : State) → Sound (array_of dies.items) →
            IsOpened config (array_of dies.items) (bad_of dies.items) s → Describes w.device.value s) }
    {
        let mut dies = dies;
        if !fit(&config, dies.as_slice()) {
            return Err(OpenFault::OtherConfig);
        }
        let device = Device::open(alloc, config, dies.as_mut_slice())?;
        let Ok(device) = Box::new(alloc, device) else {
            return Err(OpenFault::NoMemory);
        };
        Ok(Workbench {
            device,
            dies,
            reply: Upiu::new(),
        })
    }

    /// One job of the die, done well; false where the die is owed none. The job is moved out of the
    /// answer, which is not copied where there is none.
    pub fn work(&mut self, die: u8) -> bool {
        match self.device.take(die) {
            Some(job) => self.end(die, &job),
            None => false,
        }
    }

    /// Does the job on the die, and tells the device how it ended; false where the device gave no such job.
    /// It is never inlined, so that the page of a job lies in the room of one answer up to here.
    #[inline(never)]
    pub fn end(&mut self, die: u8, job: &Job) -> bool {
        let index = die as usize;
        if index >= self.dies.len() || !self.dies[index].can_do(job) {
            return false;
        }
        self.device.done(die, &work(&mut self.dies[index], job))
    }

    /// Rounds of a turn and of one job of each of the first `dies` dies.
    pub fn settle(&mut self, rounds: u8, dies: u8) {
        for _ in 0..rounds {
            self.device.turn();
            for die in 0..dies {
                self.work(die);
            }
        }
    }

    /// Hands the device a message.
    pub fn send(&mut self, message: &[u8]) -> Result<(), HostFault> {
        self.device.host(message)
    }

    /// Takes a reply, where one is due.
    pub fn hear(&mut self) -> bool {
        self.device.reply(&mut self.reply)
    }

    /// Takes a reply, after as much work of the four dies from this one on as it needs; false where none
    /// came.
    pub fn hear_after_work(&mut self, first: u8) -> bool {
        for turn in 0..8u8 {
            if self.hear() {
                return true;
            }
            self.work((first % 4 + turn) % 4);
        }
        false
    }
}
