//! The machines of all regions, by their numbers.
ghost use Rattle.std.specs.Prelude.{◌≡◌, ◌≢◌, ◌<◌, ◌≤◌, ◌*◌, ◌++◌, ℕ, [], IfOk, List, drop, length, map, min, option_copied, take};
ghost use Rattle.rpmb.specs.Answers.{AreFew, IsRead, waiting_in};
ghost use Rattle.rpmb.specs.Kept.{IsKept, forgotten, idle_machines, machine_at, said_kept, with_machine};
ghost use Rattle.rpmb.specs.Outcomes.{AcceptsUnlocked, MayChange, MayFollow, command_of, outcome_of};
ghost use Rattle.rpmb.specs.Requests.{frames_of};
ghost use Rattle.ufs_spec.specs.Exchanges.{empty_registers};
ghost use Rattle.ufs_spec.specs.declared.exchanges.ReadState.{ReadState};
ghost use Rattle.ufs_spec.specs.Frames.{Frame};
ghost use Rattle.ufs_spec.specs.Plain.{regions};
ghost use Rattle.ufs_spec.specs.Rpmb.{Region, applied, rpmb_outcome};
ghost use Rattle.ufs_spec.specs.RpmbResponses.{emptied_by, filled_with, with_reads};

use crate::machine::Rpmb;
use crate::outcomes::{Accepted, Outcome, Refusal};
use crate::regions::RegionState;
use std::alloc::{AllocError, Global};
use std::marker::Model;
use ufs_spec::{KeyAndCounter, REGIONS};

/// The machines of the RPMB regions, by their numbers (JESD220, 12.4.2). A region that is not there
/// has an area of no blocks. Of a number that no region has they keep nothing. All memory is taken
/// by `new`. Its invariant: there is a machine for each number of a region.
#[derive(Drop)]
pub struct Machines {
    all: Vec<Rpmb>,
}

impl Model for Machines {
    ghost use Rattle.std.specs.Prelude.{List};
    ghost use Rattle.rpmb.specs.Kept.{Machine};

    ghost Value = { List Machine };

    ghost use Rattle.rpmb.specs.Rooms.{machines_of, HasEach};

    ghost view = { machines_of };

    ghost invariant = { HasEach };
}

impl Machines {
    /// The machines of regions of which this is kept, with empty registers.
    ///
    /// # Errors
    ///
    /// Only if memory was refused.
    pub fn new(alloc: Global, states: &[RegionState; 4]) -> Result<Machines, AllocError>
        ensures is { IfOk result (λ m. m ≡ idle_machines states.now) }
        ensures each { IfOk result (λ m. length m ≡ regions) }
    {
        let mut all = Vec::with_capacity(alloc, states.len())?;
        for state in states {
            all.push(Rpmb::new(alloc, state.key, state.counter, state.blocks)?)?;
        }
        Ok(Machines { all })
    }

    /// What the settings say of each region: its key, once it is set, and its write counter.
    pub fn said(&self) -> [KeyAndCounter; 4]
        ensures { result ≡ map said_kept self.now }
    {
        [
            said_of(&self.all[0]),
            said_of(&self.all[1]),
            said_of(&self.all[2]),
            said_of(&self.all[3]),
        ]
    }

    /// What is kept of a region beside its area.
    pub fn region(&self, number: u8) -> RegionState
        ensures { result ≡ (machine_at self.now number).region }
    {
        if number < REGIONS {
            self.all[number as usize].region()
        } else {
            RegionState {
                key: None,
                counter: 0,
                blocks: 0,
            }
        }
    }

    /// What SECURITY PROTOCOL OUT to a region does with its data, as `Rpmb::out`. It changes nothing
    /// yet.
    pub fn out(&self, number: u8, frames: &[u8], locked: bool) -> Outcome
        ensures outcome { (region : Region) → number < regions → IsKept (machine_at self.now number).region region →
            rpmb_outcome number region (machine_at self.now number).registers locked (frames_of frames.now)
            ≡ outcome_of number (frames_of frames.now) result }
        ensures may_change { MayFollow result (machine_at self.now number).region }
        ensures unlocked { AcceptsUnlocked locked result }
    {
        if number < REGIONS {
            self.all[number as usize].out(frames, locked)
        } else {
            Outcome::Refused(Refusal::Malformed)
        }
    }

    /// What was accepted changes what is kept of the region, as `Rpmb::apply`.
    pub fn apply(&mut self, number: u8, accepted: &Accepted)
        requires { MayChange accepted.now (machine_at self.old number).region }
        ensures region { (region : Region) (fs : List Frame) → number < regions →
            IsKept (machine_at self.old number).region region →
            length (applied region (command_of number fs accepted.now)).area ≡ length region.area →
            IsKept (machine_at self.new number).region (applied region (command_of number fs accepted.now)) }
        ensures registers { (other : ℕ) → (machine_at self.new other).registers ≡ (machine_at self.old other).registers }
        ensures each { length self.new ≡ length self.old }
        ensures others { (other : ℕ) → other ≢ number → machine_at self.new other ≡ machine_at self.old other }
    {
        if number < REGIONS {
            self.all[number as usize].apply(accepted);
        }
    }

    /// A request to the region that is not refused empties its registers, as `Rpmb::begin`.
    pub fn begin(&mut self, number: u8, frames: &[u8])
        ensures { self.new ≡ with_machine self.old number (record (machine_at self.old number) {
          registers = emptied_by (frames_of frames.now) (machine_at self.old number).registers;
        }) }
    {
        if number < REGIONS {
            self.all[number as usize].begin(frames);
        }
    }

    /// Both registers of the region are emptied, as by an abort of a request.
    pub fn forget(&mut self, number: u8)
        ensures { self.new
            ≡ with_machine self.old number (record (machine_at self.old number) { registers = empty_registers }) }
    {
        if number < REGIONS {
            self.all[number as usize].forget();
        }
    }

    /// The registers of each region are emptied, as by a reset of the link.
    pub fn forget_all(&mut self)
        ensures { self.new ≡ map forgotten self.old }
    {
        forget_each(self.all.as_mut_slice());
    }

    /// What the GOOD of a request leaves in the registers of its region, as `Rpmb::respond`.
    pub fn respond(&mut self, number: u8, frames: &[u8], code: u16, blocks: Option<&[u8]>)
        requires { AreFew (option_copied blocks) }
        ensures { (region : Region) (pages : List ReadState) → number < regions →
            IsKept (machine_at self.old number).region region →
            IsRead region (frames_of frames.now) code pages (option_copied blocks.entry) →
            self.new ≡ with_machine self.old number (record (machine_at self.old number) {
              registers = filled_with region (frames_of frames.now) (with_reads pages code)
                  (machine_at self.old number).registers;
            }) }
    {
        if number < REGIONS {
            self.all[number as usize].respond(frames, code, blocks);
        }
    }

    /// How many bytes wait for SECURITY PROTOCOL IN of the region; 0 if no response waits.
    pub fn waiting(&self, number: u8) -> usize
        ensures bytes { result ≡ length (waiting_in (machine_at self.now number).registers) }
        ensures frames { result ≡ 512 * length (machine_at self.now number).registers.response }
        ensures most { result ≤ 4096 }
    {
        if number < REGIONS {
            self.all[number as usize].waiting()
        } else {
            0
        }
    }

    /// Puts what waits for SECURITY PROTOCOL IN of the region into `bytes`, as `Rpmb::input`.
    pub fn input(&mut self, number: u8, bytes: &mut [u8]) -> usize
        ensures count { result ≡ min (length (waiting_in (machine_at self.old number).registers)) (length bytes.old) }
        ensures bytes { bytes.new
            ≡ take result (waiting_in (machine_at self.old number).registers) ++ drop result bytes.old }
        ensures emptied { self.new ≡ with_machine self.old number (record (machine_at self.old number) {
          registers = record (machine_at self.old number).registers { response = [] };
        }) }
    {
        if number < REGIONS {
            self.all[number as usize].input(bytes)
        } else {
            0
        }
    }
}

// What the settings say of the region of a machine.
fn said_of(machine: &Rpmb) -> KeyAndCounter
    ensures { result ≡ said_kept machine.now }
{
    let region = machine.region();
    KeyAndCounter {
        key: region.key,
        counter: region.counter,
    }
}

/// Both registers of each machine are emptied.
fn forget_each(machines: &mut [Rpmb])
    ensures { machines.new ≡ map forgotten machines.old }
{
    for machine in machines.iter_mut() {
        machine.forget();
    }
}
