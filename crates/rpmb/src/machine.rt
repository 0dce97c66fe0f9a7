//! The machine of a region and its calls.
ghost use Rattle.std.specs.Prelude.{◌≡◌, ◌≤◌, ◌*◌, ◌∷◌, ◌++◌, ℕ, [], IfOk, List, Some, drop, is_some};
ghost use Rattle.std.specs.Prelude.{length, map, min, option_copied, take};
ghost use Rattle.rpmb.specs.Answers.{AreFew, HasAskedData, HasPlaces, IsRead, registered};
ghost use Rattle.rpmb.specs.Answers.{waiting_in};
ghost use Rattle.rpmb.specs.Kept.{IsKept};
ghost use Rattle.rpmb.specs.Outcomes.{AcceptsUnlocked, MayChange, MayFollow, command_of};
ghost use Rattle.rpmb.specs.Outcomes.{outcome_formed, outcome_of};
ghost use Rattle.rpmb.specs.Requests.{IsRequest, frames_of};
ghost use Rattle.rpmb_frame.specs.Fields.{frame_of};
ghost use Rattle.ufs_spec.specs.Exchanges.{empty_registers};
ghost use Rattle.ufs_spec.specs.declared.exchanges.ReadState.{ReadState};
ghost use Rattle.ufs_spec.specs.Frames as defined;
ghost use Rattle.ufs_spec.specs.Frames.{frame_bytes, frame_in};
ghost use Rattle.ufs_spec.specs.Rpmb.{Region, applied, lacks_result, rpmb_outcome};
ghost use Rattle.ufs_spec.specs.RpmbResponses.{emptied_by, filled_with, has_result_register};
ghost use Rattle.ufs_spec.specs.RpmbResponses.{signed, with_reads};

use crate::outcomes::{Accepted, Outcome, Refusal};
use crate::regions::RegionState;
use crate::requests::{Request, request_in, request_of, whole_frames};
use crate::responses::{
    answer_read, bytes_of, counter_response, key_response, signed, write_response,
};
use rpmb_frame::{Frame, codes};
use std::alloc::{AllocError, Global};
use std::marker::Model;

// How many frames the response register has room for.
const MOST_FRAMES: usize = 8;

/// What the device keeps of a region beside its area, and the registers in which answers wait. All
/// memory is taken by `new`.
#[derive(Drop)]
pub struct Rpmb {
    region: RegionState,
    /// The result register: the response to the last key or write.
    result: Option<[u8; 512]>,
    /// The response register: the frames that wait for SECURITY PROTOCOL IN.
    response: Vec<[u8; 512]>,
}

impl Model for Rpmb {
    ghost use Rattle.rpmb.specs.Kept.{Machine};

    ghost Value = { Machine };

    ghost use Rattle.rpmb.specs.Rooms.{machine_of, IsRoomy};

    ghost view = { machine_of };

    ghost invariant = { IsRoomy };
}

impl Rpmb {
    /// The machine of a region with this key, if it is set, this counter, and an area of so many
    /// blocks of 256 bytes. The registers are empty.
    ///
    /// # Errors
    ///
    /// Only if memory was refused.
    pub fn new(
        alloc: Global,
        key: Option<[u8; 32]>,
        counter: u32,
        blocks: u32,
    ) -> Result<Rpmb, AllocError>
        ensures { IfOk result (λ m. m ≡ record {
          region = record { key = key; counter = counter; blocks = blocks };
          registers = empty_registers;
        }) }
    {
        Ok(Rpmb {
            region: RegionState {
                key,
                counter,
                blocks,
            },
            result: None,
            response: Vec::with_capacity(alloc, MOST_FRAMES)?,
        })
    }

    /// What is kept of the region beside its area.
    pub fn region(&self) -> RegionState
        ensures { result ≡ self.now.region }
    {
        self.region
    }

    /// Whether the key is set.
    pub fn key_set(&self) -> bool
        ensures { result ≡ is_some self.now.region.key }
    {
        self.region.key.is_some()
    }

    /// How many writes the area has had.
    pub fn counter(&self) -> u32
        ensures { result ≡ self.now.region.counter }
    {
        self.region.counter
    }

    /// How many blocks of 256 bytes the area has.
    pub fn blocks(&self) -> u32
        ensures { result ≡ self.now.region.blocks }
    {
        self.region.blocks
    }

    /// What SECURITY PROTOCOL OUT does with its data, whole frames of 512 bytes, while the device
    /// is locked or not: a locked device accepts nothing. It changes nothing yet.
    pub fn out(&self, frames: &[u8], locked: bool) -> Outcome
        ensures outcome { (number : ℕ) (region : Region) → IsKept self.now.region region →
            rpmb_outcome number region self.now.registers locked (frames_of frames.now)
            ≡ outcome_of number (frames_of frames.now) result }
        ensures may_change { MayFollow result self.now.region }
        ensures unlocked { AcceptsUnlocked locked result }
    {
        self.outcome(whole_frames(frames), locked)
    }

    // The outcome of these frames.
    fn outcome(&self, frames: &[[u8; 512]], locked: bool) -> Outcome
        ensures outcome { (number : ℕ) (region : Region) → IsKept self.now.region region →
            rpmb_outcome number region self.now.registers locked (map frame_in frames.now)
            ≡ outcome_of number (map frame_in frames.now) result }
        ensures may_change { MayFollow result self.now.region }
        ensures unlocked { AcceptsUnlocked locked result }
    {
        match request_of(frames) {
            None => Outcome::Refused(Refusal::Malformed),
            Some(request) => self.outcome_formed(&request, frames, locked),
        }
    }

    // The outcome of a well-formed request.
    fn outcome_formed(&self, request: &Request, frames: &[[u8; 512]], locked: bool) -> Outcome
        ensures outcome { (number : ℕ) (region : Region) (f : defined.Frame)
            (fs : List defined.Frame) → IsKept self.now.region region →
            f ∷ fs ≡ map frame_in frames.now → IsRequest request.now f →
            outcome_formed number region self.now.registers locked f fs
            ≡ outcome_of number (f ∷ fs) result }
        ensures may_change { MayFollow result self.now.region }
        ensures unlocked { AcceptsUnlocked locked result }
    {
        if self.lacks_result(request) {
            Outcome::Refused(Refusal::NoResult)
        } else {
            self.region.outcome(request, frames, locked)
        }
    }

    // Whether a result is asked for, and none is there.
    fn lacks_result(&self, request: &Request) -> bool
        ensures { (f : defined.Frame) → IsRequest request.now f →
            result ≡ lacks_result f self.now.registers }
    {
        match request {
            Request::ReadResult => self.result.is_none(),
            _ => false,
        }
    }

    /// What was accepted changes what is kept of the region: the key is set, or the counter rises
    /// by one.
    pub fn apply(&mut self, accepted: &Accepted)
        requires { MayChange accepted.now self.old.region }
        ensures region { (number : ℕ) (region : Region) (fs : List defined.Frame) →
            IsKept self.old.region region →
            length (applied region (command_of number fs accepted.now)).area ≡ length region.area →
            IsKept self.new.region (applied region (command_of number fs accepted.now)) }
        ensures registers { self.new.registers ≡ self.old.registers }
    {
        self.region.apply(accepted);
    }

    /// A request that is not refused empties the response register, and a key or a write the result
    /// register too.
    pub fn begin(&mut self, frames: &[u8])
        ensures { self.new ≡ record self.old {
          registers = emptied_by (frames_of frames.now) self.old.registers;
        } }
    {
        match whole_frames(frames) {
            [] => {}
            [first, ..] => self.empty_for(&Frame::read(first)),
        }
    }

    // The registers are emptied for a request with this first frame.
    fn empty_for(&mut self, asked: &Frame)
        ensures { self.new ≡ record self.old {
          registers = emptied_by (frame_of asked.now ∷ []) self.old.registers;
        } }
    {
        if has_result_register(asked.message_type) {
            self.result = None;
        }
        self.empty_response();
    }

    /// Both registers are emptied, as by an abort of a request.
    pub fn forget(&mut self)
        ensures { self.new ≡ record self.old { registers = empty_registers } }
    {
        self.result = None;
        self.empty_response();
    }

    /// What the GOOD of a request leaves in the registers, once it is due: `code` is its result,
    /// and `blocks` are the data that it asks for, if it asks for data; `None` if a page of them
    /// could not be read.
    pub fn respond(&mut self, frames: &[u8], code: u16, blocks: Option<&[u8]>)
        requires { AreFew (option_copied blocks) }
        ensures { (region : Region) (pages : List ReadState) → IsKept self.old.region region →
            IsRead region (frames_of frames.now) code pages (option_copied blocks.entry) →
            self.new ≡ record self.old {
              registers = filled_with region (frames_of frames.now) (with_reads pages code)
                  self.old.registers;
            } }
    {
        match blocks {
            None => self.fill(frames, code | codes::READ_FAILURE, &[]),
            Some(blocks) => self.fill(frames, code, blocks),
        }
    }

    // A register is filled.
    fn fill(&mut self, frames: &[u8], code: u16, blocks: &[u8])
        requires { length blocks.now ≤ 2048 }
        ensures { (region : Region) → IsKept self.old.region region →
            HasAskedData region (frames_of frames.now) code blocks.now →
            self.new ≡ record self.old {
              registers = filled_with region (frames_of frames.now) code self.old.registers;
            } }
    {
        match whole_frames(frames) {
            [] => {}
            [first, ..] => self.answer(&Frame::read(first), code, blocks),
        }
    }

    // A register is filled for a request with this first frame.
    fn answer(&mut self, asked: &Frame, code: u16, blocks: &[u8])
        requires { length blocks.now ≤ 2048 }
        ensures { (region : Region) → IsKept self.old.region region →
            HasAskedData region (frame_of asked.now ∷ []) code blocks.now →
            self.new ≡ record self.old {
              registers = filled_with region (frame_of asked.now ∷ []) code self.old.registers;
            } }
    {
        match request_in(asked) {
            None => self.empty_response(),
            Some(request) => self.answer_request(&request, asked, code, blocks),
        }
    }

    // The same of a request of a known kind.
    fn answer_request(&mut self, request: &Request, asked: &Frame, code: u16, blocks: &[u8])
        requires { length blocks.now ≤ 2048 }
        ensures { (region : Region) → IsKept self.old.region region →
            IsRequest request.now (frame_of asked.now) →
            HasAskedData region (frame_of asked.now ∷ []) code blocks.now →
            self.new ≡ record self.old {
              registers = filled_with region (frame_of asked.now ∷ []) code self.old.registers;
            } }
    {
        match request {
            Request::ProgramKey { .. } => self.keep_result(bytes_of(&key_response(code))),
            Request::ReadCounter => {
                let frame = self.signed(&counter_response(self.region.counter, &asked.nonce, code));
                self.put_one(frame);
            }
            Request::Write { address, .. } => {
                let frame = self.signed(&write_response(self.region.counter, *address, code));
                self.keep_result(frame);
            }
            Request::Read { .. } => {
                answer_read(&mut self.response, &self.region.key, asked, code, blocks);
            }
            Request::ReadResult => self.hand_out_result(),
        }
    }

    // The bytes of a frame that is the whole response.
    fn signed(&self, frame: &Frame) -> [u8; 512]
        ensures { HasPlaces (frame_of frame.now) →
            result ∷ [] ≡ map frame_bytes (signed self.now.region.key (frame_of frame.now ∷ [])) }
    {
        signed(&self.region.key, frame)
    }

    // The result register has this frame from now on.
    fn keep_result(&mut self, frame: [u8; 512])
        ensures { self.new ≡ record self.old {
          registers = record self.old.registers { result = Some frame };
        } }
    {
        self.result = Some(frame);
    }

    // The response register has this frame alone.
    fn put_one(&mut self, frame: [u8; 512])
        ensures { self.new ≡ record self.old {
          registers = record self.old.registers { response = frame ∷ [] };
        } }
    {
        self.empty_response();
        self.response.push_reserved(frame);
    }

    // The frame of the result register is handed out, if one is there.
    fn hand_out_result(&mut self)
        ensures { self.new ≡ record self.old {
          registers = record self.old.registers { response = registered self.old.registers.result };
        } }
    {
        match self.result {
            None => self.empty_response(),
            Some(frame) => self.put_one(frame),
        }
    }

    // No response waits.
    fn empty_response(&mut self)
        ensures { self.new ≡ record self.old {
          registers = record self.old.registers { response = [] };
        } }
    {
        self.response.clear();
    }

    /// How many bytes wait for SECURITY PROTOCOL IN; 0 if no response waits.
    pub fn waiting(&self) -> usize
        ensures bytes { result ≡ length (waiting_in self.now.registers) }
        ensures frames { result ≡ 512 * length self.now.registers.response }
        ensures most { result ≤ 4096 }
    {
        self.response.as_flattened().len()
    }

    /// Puts what waits for SECURITY PROTOCOL IN into `bytes`, as much as there is room for, and
    /// says how much. The response register is emptied.
    pub fn input(&mut self, bytes: &mut [u8]) -> usize
        ensures count { result ≡ min (length (waiting_in self.old.registers)) (length bytes.old) }
        ensures bytes { bytes.new
            ≡ take result (waiting_in self.old.registers) ++ drop result bytes.old }
        ensures emptied { self.new ≡ record self.old {
          registers = record self.old.registers { response = [] };
        } }
    {
        let count = copy_front(bytes, self.response.as_flattened());
        self.empty_response();
        count
    }
}

// Copies as many of the first bytes as there is room for, and says how many.
fn copy_front(to: &mut [u8], from: &[u8]) -> usize
    ensures count { result ≡ min (length from.now) (length to.old) }
    ensures bytes { to.new ≡ take result from.now ++ drop result to.old }
{
    let count = from.len().min(to.len());
    to[..count].copy_from_slice(&from[..count]);
    count
}

// Whether the response to this message type stands in the result register.
fn has_result_register(message_type: u16) -> bool
    ensures { result ≡ has_result_register message_type }
{
    message_type == codes::KEY_PROGRAMMING_REQUEST || message_type == codes::DATA_WRITE_REQUEST
}
