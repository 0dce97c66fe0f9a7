//! What becomes of a request.
ghost use Rattle.std.specs.Prelude.{◌≡◌};
ghost use Rattle.ufs_spec.specs.declared.exchanges.Status.TheVariants.{CheckCondition};
ghost use Rattle.rpmb.specs.Outcomes.{code_of, status_of};

use rpmb_frame::codes;
use ufs_spec::Sense;

/// What SECURITY PROTOCOL OUT does with its frames.
#[derive(Clone, Copy)]
pub enum Outcome {
    /// It is refused, and changes nothing.
    Refused(Refusal),
    /// It has this result, one of `rpmb_frame::codes`; and this is accepted.
    Results { result: u16, accepted: Accepted },
}

/// Why frames are refused.
#[derive(Clone, Copy)]
pub enum Refusal {
    /// They are no request.
    Malformed,
    /// A result is asked for, and none is there.
    NoResult,
}

/// What a request that passed its checks changes.
#[derive(Clone, Copy)]
pub enum Accepted {
    Nothing,
    /// This key is set.
    Key([u8; 32]),
    /// The data of all frames of the request are written to the blocks from this address on, and
    /// the counter rises by one.
    Write { address: u16 },
}

/// Why a request fails.
#[derive(Clone, Copy)]
pub enum Failure {
    /// A key is set already.
    KeySet,
    /// The MAC is wrong.
    Authentication,
    /// The counter is not the present one.
    Counter,
    /// Blocks lie past the end of the area.
    Address,
    /// The counter is at its end, or the device takes no writes any more.
    Write,
    /// No key is set yet.
    NoKey,
}

impl Refusal {
    /// The sense that tells it.
    pub fn sense(self) -> Sense
        ensures { CheckCondition result ≡ status_of self }
    {
        match self {
            Refusal::Malformed => Sense::INVALID_LIST_FIELD,
            Refusal::NoResult => Sense::COMMAND_SEQUENCE,
        }
    }
}

impl Failure {
    /// The result that tells it.
    pub fn code(self) -> u16
        ensures { result ≡ code_of self }
    {
        match self {
            Failure::KeySet => codes::GENERAL_FAILURE,
            Failure::Authentication => codes::AUTHENTICATION_FAILURE,
            Failure::Counter => codes::COUNTER_FAILURE,
            Failure::Address => codes::ADDRESS_FAILURE,
            Failure::Write => codes::WRITE_FAILURE,
            Failure::NoKey => codes::KEY_NOT_PROGRAMMED,
        }
    }
}
