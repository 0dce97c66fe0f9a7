//! A region, and the checks of requests in their order.
ghost use Rattle.std.specs.Prelude.{◌≡◌, ◌<◌, ◌==◌, ◌&&◌, ◌∷◌, ℕ, List, Option, Some, length, map};
ghost use Rattle.std.specs.Prelude.{option_map};
ghost use Rattle.std.specs.Prelude.{if◌then◌else◌, bit_or, Bool, true, false, is_some, None};
ghost use Rattle.rpmb.specs.Checks.{asked_checks, key_checks, read_checks, write_checks, is_past};
ghost use Rattle.rpmb.specs.Kept.{IsKept};
ghost use Rattle.ufs_spec.specs.Commands.{Command};
ghost use Rattle.rpmb.specs.Outcomes.{AcceptsUnlocked, MayChange, MayFollow, code_of};
ghost use Rattle.rpmb.specs.Outcomes.{command_of, outcome_of};
ghost use Rattle.rpmb.specs.Requests.{IsRequest, MayPass, PassesUnlocked};
ghost use Rattle.ufs_spec.specs.Frames.{Frame, frame_in};
ghost use Rattle.ufs_spec.specs.Plain.{counter_end};
ghost use Rattle.ufs_spec.specs.Rpmb as rules;
ghost use Rattle.ufs_spec.specs.Rpmb.{Region, applied, checks, command_in, first_failed};
ghost use Rattle.ufs_spec.specs.Rpmb.{has_wrong_mac};
ghost use Rattle.ufs_spec.specs.Rpmb.{outcome_after, with_end_bit};

use crate::macs::has_wrong_mac;
use crate::outcomes::{Accepted, Failure, Outcome};
use crate::requests::Request;
use rpmb_frame::codes;

/// What is kept of a region beside its area.
#[derive(Clone, Copy)]
pub struct RegionState {
    /// The key, once it is set.
    pub key: Option<[u8; 32]>,
    /// How many writes the area has had.
    pub counter: u32,
    /// How many blocks of 256 bytes the area has.
    pub blocks: u32,
}

impl RegionState {
    /// The outcome of a well-formed request that does not lack a result.
    pub fn outcome(&self, request: &Request, frames: &[[u8; 512]], locked: bool) -> Outcome
        ensures outcome { (number : ℕ) (region : Region) (f : Frame) (fs : List Frame) →
            IsKept self.now region → f ∷ fs ≡ map frame_in frames.now → IsRequest request.now f →
            outcome_after region (command_in number f fs) (first_failed (checks region locked f fs))
            ≡ outcome_of number (f ∷ fs) result }
        ensures may_change { MayFollow result self.now }
        ensures unlocked { AcceptsUnlocked locked result }
    {
        match self.failure(request, frames, locked) {
            Some(failure) => self.failed(failure),
            None => self.passed(request),
        }
    }

    // The first check that fails, if one does.
    fn failure(&self, request: &Request, frames: &[[u8; 512]], locked: bool) -> Option<Failure>
        ensures first { (f : Frame) (fs : List Frame) → f ∷ fs ≡ map frame_in frames.now →
            first_failed (asked_checks self.now locked request.now f fs)
            ≡ option_map code_of result }
        ensures may_pass { result ≡ None → MayPass request.now self.now }
        ensures unlocked { result ≡ None → PassesUnlocked locked request.now }
    {
        match request {
            Request::ProgramKey { .. } => self.key_failure(locked),
            Request::ReadCounter => self.no_key(),
            Request::Write {
                counter,
                address,
                count,
            } => { self.write_failure(*counter, *address, *count, frames, locked) }
            Request::Read { address, count } => self.read_failure(*address, *count),
            Request::ReadResult => None,
        }
    }

    // The first check of a key that fails.
    fn key_failure(&self, locked: bool) -> Option<Failure>
        ensures first { first_failed (key_checks self.now locked) ≡ option_map code_of result }
        ensures unlocked { result ≡ None → locked ≡ false }
    {
        if self.key.is_some() {
            Some(Failure::KeySet)
        } else if locked {
            Some(Failure::Write)
        } else {
            None
        }
    }

    // That no key is set, where none is.
    fn no_key(&self) -> Option<Failure>
        ensures { option_map code_of result ≡ (if is_some self.now.key then None else Some 7) }
    {
        if self.key.is_some() {
            None
        } else {
            Some(Failure::NoKey)
        }
    }

    // The first check of a write that fails.
    fn write_failure(
        &self,
        counter: u32,
        address: u16,
        count: u16,
        frames: &[[u8; 512]],
        locked: bool,
    ) -> Option<Failure>
        ensures first { (f : Frame) (fs : List Frame) → f ∷ fs ≡ map frame_in frames.now →
            first_failed (write_checks self.now locked counter address count f fs)
            ≡ option_map code_of result }
        ensures below_end { result ≡ None → self.now.counter < counter_end }
        ensures unlocked { result ≡ None → locked ≡ false }
    {
        if self.key.is_none() {
            Some(Failure::NoKey)
        } else if self.counter == u32::MAX {
            Some(Failure::Write)
        } else if self.is_past(address, count) {
            Some(Failure::Address)
        } else if self.has_wrong_mac(frames) {
            Some(Failure::Authentication)
        } else if counter != self.counter {
            Some(Failure::Counter)
        } else if locked {
            Some(Failure::Write)
        } else {
            None
        }
    }

    // The first check of a request for data that fails.
    fn read_failure(&self, address: u16, count: u16) -> Option<Failure>
        ensures { first_failed (read_checks self.now address count) ≡ option_map code_of result }
    {
        match self.no_key() {
            Some(failure) => Some(failure),
            None if self.is_past(address, count) => Some(Failure::Address),
            None => None,
        }
    }

    // Whether blocks are named past the end of the area.
    fn is_past(&self, address: u16, count: u16) -> bool
        ensures { result ≡ is_past self.now address count }
    {
        self.blocks < u32::from(address) + u32::from(count)
    }

    // Whether the MAC in the last frame is not that of all frames under the key. Without a key none
    // is right.
    fn has_wrong_mac(&self, frames: &[[u8; 512]]) -> bool
        ensures { (f : Frame) (fs : List Frame) → f ∷ fs ≡ map frame_in frames.now →
            result ≡ has_wrong_mac self.now.key f fs }
    {
        match &self.key {
            None => true,
            Some(key) => has_wrong_mac(key, frames),
        }
    }

    // The outcome of a request that failed a check: nothing is accepted.
    fn failed(&self, failure: Failure) -> Outcome
        ensures outcome { (number : ℕ) (region : Region) (fs : List Frame) (c : Option Command) →
            IsKept self.now region →
            outcome_after region c (Some (code_of failure)) ≡ outcome_of number fs result }
        ensures may_change { MayFollow result self.now }
        ensures unlocked { (locked : Bool) → AcceptsUnlocked locked result }
    {
        Outcome::Results {
            result: with_end_bit(self.key.is_some(), u64::from(self.counter), failure.code()),
            accepted: Accepted::Nothing,
        }
    }

    // The outcome of a request that passed its checks.
    fn passed(&self, request: &Request) -> Outcome
        ensures outcome { (number : ℕ) (region : Region) (f : Frame) (fs : List Frame) →
            IsKept self.now region → IsRequest request.now f →
            outcome_after region (command_in number f fs) None ≡ outcome_of number (f ∷ fs) result }
        ensures may_change { MayPass request.now self.now → MayFollow result self.now }
        ensures unlocked { (locked : Bool) → PassesUnlocked locked request.now → AcceptsUnlocked locked result }
    {
        let key_set = self.key.is_some();
        let counter = u64::from(self.counter);
        match request {
            Request::ProgramKey { key } => Outcome::Results {
                result: with_end_bit(true, counter, codes::OPERATION_OK),
                accepted: Accepted::Key(*key),
            },
            Request::Write { address, .. } => Outcome::Results {
                result: with_end_bit(key_set, counter + 1, codes::OPERATION_OK),
                accepted: Accepted::Write { address: *address },
            },
            _ => Outcome::Results {
                result: with_end_bit(key_set, counter, codes::OPERATION_OK),
                accepted: Accepted::Nothing,
            },
        }
    }

    /// What was accepted changes what is kept: the key is set, or the counter rises by one.
    pub fn apply(&mut self, accepted: &Accepted)
        requires { MayChange accepted.now self.old }
        ensures { (number : ℕ) (region : Region) (fs : List Frame) → IsKept self.old region →
            length (applied region (command_of number fs accepted.now)).area ≡ length region.area →
            IsKept self.new (applied region (command_of number fs accepted.now)) }
    {
        match accepted {
            Accepted::Nothing => {}
            Accepted::Key(key) => self.key = Some(*key),
            Accepted::Write { .. } => self.counter += 1,
        }
    }
}

// The result, with the bit that the counter is at its end where a key is set and it is.
fn with_end_bit(key_set: bool, counter: u64, code: u16) -> u16
    ensures { result
        ≡ (if key_set && (counter == counter_end) then bit_or code 0x80 else code) }
{
    if key_set && counter == u64::from(u32::MAX) {
        code | codes::COUNTER_EXPIRED
    } else {
        code
    }
}
