//! The codes in frames: message types and results (JESD220, 12.4).
ghost use Rattle.std.specs.Prelude.{◌≡◌, ◌==◌, ◌∷◌, ℕ, [], Bool, List, None, Some, not};
ghost use Rattle.ufs_spec.specs.declared.exchanges.ReadState.TheVariants.{NotRead};
ghost use Rattle.ufs_spec.specs.Frames.{Frame};
ghost use Rattle.ufs_spec.specs.Plain.{counter_end};
ghost use Rattle.ufs_spec.specs.Rpmb.{Region, Results, checks, fails_if, has_key, has_wrong_mac, is_past_area};
ghost use Rattle.ufs_spec.specs.Rpmb.{outcome_after, program_key, read_counter, read_data, read_result};
ghost use Rattle.ufs_spec.specs.Rpmb.{with_end_bit, write_data};
ghost use Rattle.ufs_spec.specs.RpmbResponses.{counter_response, data_response, key_response, with_reads};
ghost use Rattle.ufs_spec.specs.RpmbResponses.{write_response};

/// The authentication key is to be programmed.
pub const KEY_PROGRAMMING_REQUEST: u16 = 1;

/// The write counter is asked for.
pub const COUNTER_READ_REQUEST: u16 = 2;

/// Data are to be written.
pub const DATA_WRITE_REQUEST: u16 = 3;

/// Data are asked for.
pub const DATA_READ_REQUEST: u16 = 4;

/// The result of the last key or write is asked for.
pub const RESULT_READ_REQUEST: u16 = 5;

/// What became of a key.
pub const KEY_PROGRAMMING_RESPONSE: u16 = 0x0100;

/// The write counter.
pub const COUNTER_READ_RESPONSE: u16 = 0x0200;

/// What became of a write.
pub const DATA_WRITE_RESPONSE: u16 = 0x0300;

/// The data.
pub const DATA_READ_RESPONSE: u16 = 0x0400;

/// The request did what it asked for.
pub const OPERATION_OK: u16 = 0;

/// A key is programmed already.
pub const GENERAL_FAILURE: u16 = 1;

/// The MAC is wrong.
pub const AUTHENTICATION_FAILURE: u16 = 2;

/// The write counter is not the present one.
pub const COUNTER_FAILURE: u16 = 3;

/// Blocks lie past the end of the area.
pub const ADDRESS_FAILURE: u16 = 4;

/// The counter is at its end, or the device takes no writes any more.
pub const WRITE_FAILURE: u16 = 5;

/// A page could not be read.
pub const READ_FAILURE: u16 = 6;

/// No key is programmed yet.
pub const KEY_NOT_PROGRAMMED: u16 = 7;

/// The bit that each result has once the counter is at its end.
pub const COUNTER_EXPIRED: u16 = 0x0080;

/// A law: message types are those of the definitions. No code calls it.
pub fn message_types_are_right()
    ensures key_request { KEY_PROGRAMMING_REQUEST ≡ program_key }
    ensures counter_request { COUNTER_READ_REQUEST ≡ read_counter }
    ensures write_request { DATA_WRITE_REQUEST ≡ write_data }
    ensures read_request { DATA_READ_REQUEST ≡ read_data }
    ensures result_request { RESULT_READ_REQUEST ≡ read_result }
    ensures key_response { (result : ℕ) → (key_response result).kind ≡ KEY_PROGRAMMING_RESPONSE }
    ensures counter_response { (region : Region) (asked : Frame) (result : ℕ) →
        (counter_response region asked result).kind ≡ COUNTER_READ_RESPONSE }
    ensures write_response { (region : Region) (asked : Frame) (result : ℕ) →
        (write_response region asked result).kind ≡ DATA_WRITE_RESPONSE }
    ensures read_response { (asked : Frame) (result : ℕ) (payload : List ℕ) →
        (data_response asked result payload).kind ≡ DATA_READ_RESPONSE }
{}

/// A law: results are those of the definitions. No code calls it.
pub fn results_are_right()
    ensures ok { (region : Region) →
        outcome_after region None None ≡ Results (with_end_bit region OPERATION_OK) None }
    ensures key { (region : Region) (locked : Bool) (f : Frame) →
        checks region locked (record f { kind = program_key }) []
        ≡ fails_if (has_key region) GENERAL_FAILURE ∷ fails_if locked WRITE_FAILURE ∷ [] }
    ensures write { (region : Region) (locked : Bool) (f : Frame) (fs : List Frame) →
        let asked = record f { kind = write_data } in
        checks region locked asked fs
        ≡ fails_if (not (has_key region)) KEY_NOT_PROGRAMMED ∷ fails_if (region.counter == counter_end) WRITE_FAILURE
        ∷ fails_if (is_past_area region asked) ADDRESS_FAILURE
        ∷ fails_if (has_wrong_mac region.key asked fs) AUTHENTICATION_FAILURE
        ∷ fails_if (not (asked.counter == region.counter)) COUNTER_FAILURE ∷ fails_if locked WRITE_FAILURE ∷ [] }
    ensures read { with_reads (NotRead ∷ []) 0 ≡ READ_FAILURE }
    ensures expired { (region : Region) (key : List ℕ) →
        with_end_bit (record region { key = Some key; counter = counter_end }) 0 ≡ COUNTER_EXPIRED }
{}
