//! The replay protected memory block: frames as bytes, their MAC, requests, and what answers them.
ghost use Rattle.std.specs.Prelude.{◌≡◌, ◌≢◌, ◌*◌, ◌<◌, ◌++◌, ◌∷◌, ℕ, [], All, Bool, List, None, Some, drop, length, map, nat_lt};
ghost use Rattle.std.specs.Prelude.{replicate, take, true, false};
ghost use Rattle.std.specs.List.{flat_map};
ghost use Rattle.sha2.specs.Sha256.{sha256};
ghost use Rattle.ufs_spec.specs.Commands.{Command, RpmbWrite};
ghost use Rattle.ufs_spec.specs.Exchanges.{Registers, Task, empty_registers};
ghost use Rattle.ufs_spec.specs.declared.exchanges.ReadState.TheVariants.{NotRead, Unread, WasRead};
ghost use Rattle.ufs_spec.specs.Exchanges.{invalid_list_field, sequence_error};
ghost use Rattle.ufs_spec.specs.Frames.{Frame, IsFrame, covered_bytes, frame_bytes, frame_in, frames_in};
ghost use Rattle.ufs_spec.specs.Machine.{registers_after};
ghost use Rattle.ufs_spec.specs.Messages.{AreBytes, zeros};
ghost use Rattle.ufs_spec.specs.Plain.{Plain, apply};
ghost use Rattle.ufs_spec.specs.Rpmb.{Refused, Region, Results, changed_by, frames_mac, last_mac, mac, region_of, rpmb_outcome};
ghost use Rattle.ufs_spec.specs.Rpmb.{with_end_bit};
ghost use Rattle.ufs_spec.specs.RpmbResponses.{emptied_by, filled_with, response_frame, response_frames, with_reads};
ghost use Rattle.ufs_spec.specs.declared.Cdb.TheVariants.{SecurityOut};
ghost use Rattle.ufs_laws.specs.RpmbWrites.{IsRightWrite, region_named};

/// A command makes of the region that it names what `changed_by` says, and leaves all other regions.
#[tactic(auto, using(crate::proofs::rpmb_frames::Regions::named_changed, crate::proofs::rpmb_frames::Regions::others_stay))]
pub fn a_command_changes_its_region()
    ensures named { (p : Plain) (c : Command) (number : ℕ) → number < length p.regions →
        region_named c ≡ Some number → region_of (apply p c) number ≡ changed_by (region_of p number) c }
    ensures others { (p : Plain) (c : Command) (number : ℕ) → (region_named c ≡ Some number → ⊥) →
        region_of (apply p c) number ≡ region_of p number }
{}

/// 512 bytes are one frame, and a frame is 512 bytes: each is read off the other, and so are several of them.
pub fn frames_are_their_bytes()
    ensures frame { (f : Frame) → IsFrame f → frame_in (frame_bytes f) ≡ f }
    ensures bytes { (b : List ℕ) → length b ≡ 512 → AreBytes b → frame_bytes (frame_in b) ≡ b }
    ensures is_frame { (b : List ℕ) → length b ≡ 512 → AreBytes b → IsFrame (frame_in b) }
    ensures frames { (fs : List Frame) → All IsFrame fs → frames_in (length fs) (flat_map frame_bytes fs) ≡ fs }
    ensures all_bytes { (n : ℕ) (b : List ℕ) → length b ≡ 512 * n → AreBytes b →
        flat_map frame_bytes (frames_in n b) ≡ b }
    ensures are_frames { (n : ℕ) (b : List ℕ) → length b ≡ 512 * n → AreBytes b → All IsFrame (frames_in n b) }
{}

/// A MAC is over bytes 228 to 511 of every frame. It is HMAC of RFC 2104: 5Ch outside and 36h inside, here for a key of
/// twenty bytes 0Bh, as in case 1 of RFC 4231; a key of more than 64 bytes counts as its SHA-256.
pub fn a_mac_covers_every_frame()
    ensures covered { (b : List ℕ) → length b ≡ 512 → AreBytes b → covered_bytes (frame_in b) ≡ drop 228 b }
    ensures every_frame { (key a b : List ℕ) → length a ≡ 512 → AreBytes a → length b ≡ 512 → AreBytes b →
        frames_mac key (frame_in a ∷ frame_in b ∷ []) ≡ mac key (drop 228 a ++ (drop 228 b ++ [])) }
    ensures pads { (m : List ℕ) → mac (replicate 20 0x0B) m ≡ sha256 ((replicate 20 0x57 ++ replicate 44 0x5C)
        ++ sha256 ((replicate 20 0x3D ++ replicate 44 0x36) ++ m)) }
    ensures long_key { (key m : List ℕ) → nat_lt 64 (length key) ≡ true → mac key m ≡ mac (sha256 key) m }
{}

/// The MACs of cases 1 and 2 of RFC 4231: of `Hi There` under twenty bytes 0Bh, and of `what do ya want for nothing?`
/// under the key `Jefe`.
pub fn worked_macs()
    ensures case_1 { mac (replicate 20 0x0B) (0x48 ∷ 0x69 ∷ 0x20 ∷ 0x54 ∷ 0x68 ∷ 0x65 ∷ 0x72 ∷ 0x65 ∷ []) ≡
        0xB0 ∷ 0x34 ∷ 0x4C ∷ 0x61 ∷ 0xD8 ∷ 0xDB ∷ 0x38 ∷ 0x53 ∷ 0x5C ∷ 0xA8 ∷ 0xAF ∷ 0xCE ∷ 0xAF ∷ 0x0B ∷ 0xF1 ∷ 0x2B
        ∷ 0x88 ∷ 0x1D ∷ 0xC2 ∷ 0x00 ∷ 0xC9 ∷ 0x83 ∷ 0x3D ∷ 0xA7 ∷ 0x26 ∷ 0xE9 ∷ 0x37 ∷ 0x6C ∷ 0x2E ∷ 0x32 ∷ 0xCF ∷ 0xF7
        ∷ [] }
    ensures case_2 { mac (0x4A ∷ 0x65 ∷ 0x66 ∷ 0x65 ∷ [])
        (0x77 ∷ 0x68 ∷ 0x61 ∷ 0x74 ∷ 0x20 ∷ 0x64 ∷ 0x6F ∷ 0x20 ∷ 0x79 ∷ 0x61 ∷ 0x20 ∷ 0x77 ∷ 0x61 ∷ 0x6E ∷ 0x74 ∷ 0x20
        ∷ 0x66 ∷ 0x6F ∷ 0x72 ∷ 0x20 ∷ 0x6E ∷ 0x6F ∷ 0x74 ∷ 0x68 ∷ 0x69 ∷ 0x6E ∷ 0x67 ∷ 0x3F ∷ [])
        ≡
        0x5B ∷ 0xDC ∷ 0xC1 ∷ 0x46 ∷ 0xBF ∷ 0x60 ∷ 0x75 ∷ 0x4E ∷ 0x6A ∷ 0x04 ∷ 0x24 ∷ 0x26 ∷ 0x08 ∷ 0x95 ∷ 0x75 ∷ 0xC7
        ∷ 0x5A ∷ 0x00 ∷ 0x3F ∷ 0x08 ∷ 0x9D ∷ 0x27 ∷ 0x39 ∷ 0x83 ∷ 0x9D ∷ 0xEC ∷ 0x58 ∷ 0xB9 ∷ 0x64 ∷ 0xEC ∷ 0x38 ∷ 0x43
        ∷ [] }
{}

/// A write is accepted only with the present counter, below its end, and with the MAC of all its frames under the key;
/// it lies in the area, its frames agree and are as many as it counts, and the device is not locked. Then the data of
/// all its frames are written from its address on, in the region that they were sent to.
pub fn an_accepted_write_is_right()
    ensures right { (number : ℕ) (region : Region) (r : Registers) (locked : Bool) (f : Frame) (fs : List Frame)
        (result named address : ℕ) (bytes : List ℕ) →
        rpmb_outcome number region r locked (f ∷ fs) ≡ Results result (Some (RpmbWrite named address bytes)) →
        IsRightWrite region f fs }
    ensures unlocked { (number : ℕ) (region : Region) (r : Registers) (locked : Bool) (f : Frame) (fs : List Frame)
        (result named address : ℕ) (bytes : List ℕ) →
        rpmb_outcome number region r locked (f ∷ fs) ≡ Results result (Some (RpmbWrite named address bytes)) →
        locked ≡ false }
    ensures written { (number : ℕ) (region : Region) (r : Registers) (locked : Bool) (f : Frame) (fs : List Frame)
        (result named address : ℕ) (bytes : List ℕ) →
        rpmb_outcome number region r locked (f ∷ fs) ≡ Results result (Some (RpmbWrite named address bytes)) →
        (number ≡ named) × (f.address ≡ address) × (flat_map (λ (g : Frame). g.payload) (f ∷ fs) ≡ bytes) }
{}

/// A right write is accepted, unless the device is locked: with result 0, or 0080h if it brings the counter to its end.
pub fn a_right_write_is_accepted()
    ensures { (number : ℕ) (region : Region) (r : Registers) (f : Frame) (fs : List Frame) →
        IsRightWrite region f fs → (written : Command) →
        written ≡ RpmbWrite number f.address (flat_map (λ (g : Frame). g.payload) (f ∷ fs)) →
        rpmb_outcome number region r false (f ∷ fs)
        ≡ Results (with_end_bit (changed_by region written) 0) (Some written) }
{}

/// The results of a write that is no right one, or comes to a locked device. One that would be right under another key,
/// whatever its counter, has result 2, and one that would be right with another counter 3. The counter of the region is
/// not at its end. On a locked device a right write has result 5, and so has the first key.
pub fn worked_failures()
    ensures wrong_mac { (number : ℕ) (region : Region) (r : Registers) (locked : Bool) (f : Frame) (fs : List Frame)
        (key other : List ℕ) (counter : ℕ) → region.key ≡ Some key → region.counter ≢ 0xFFFFFFFF →
        last_mac f fs ≢ frames_mac key (f ∷ fs) →
        IsRightWrite (record region { key = Some other; counter = counter }) f fs →
        rpmb_outcome number region r locked (f ∷ fs) ≡ Results 2 None }
    ensures wrong_counter { (number : ℕ) (region : Region) (r : Registers) (locked : Bool) (f : Frame) (fs : List Frame)
        (counter : ℕ) → region.counter ≢ 0xFFFFFFFF → counter ≢ region.counter →
        IsRightWrite (record region { counter = counter }) f fs →
        rpmb_outcome number region r locked (f ∷ fs) ≡ Results 3 None }
    ensures locked_write { (number : ℕ) (region : Region) (r : Registers) (f : Frame) (fs : List Frame) →
        IsRightWrite region f fs → rpmb_outcome number region r true (f ∷ fs) ≡ Results 5 None }
    ensures locked_key { (number : ℕ) (region : Region) (r : Registers) (f : Frame) →
        rpmb_outcome number (record region { key = None }) r true (record f { kind = 1 } ∷ []) ≡ Results 5 None }
{}

/// Requests and their outcomes, whatever is not named: frames whose counts or counters differ, a result read without a
/// result, requests before a key, a second key, the last blocks of an area of two, and the end of the counter.
pub fn worked_requests()
    ensures counts_differ { (region : Region) (r : Registers) (locked : Bool) (f g : Frame) →
        rpmb_outcome 0 region r locked (record f { kind = 3; counter = 5; address = 0; count = 2 }
        ∷ record g { kind = 3; counter = 5; address = 0; count = 1 } ∷ []) ≡ Refused invalid_list_field }
    ensures counters_differ { (region : Region) (r : Registers) (locked : Bool) (f g : Frame) →
        rpmb_outcome 0 region r locked (record f { kind = 3; counter = 5; address = 0; count = 2 }
        ∷ record g { kind = 3; counter = 6; address = 0; count = 2 } ∷ []) ≡ Refused invalid_list_field }
    ensures no_result { (region : Region) (r : Registers) (locked : Bool) (f : Frame) →
        rpmb_outcome 0 region (record r { result = None }) locked (record f { kind = 5 } ∷ [])
        ≡ Refused sequence_error }
    ensures counter_before_key { (region : Region) (r : Registers) (locked : Bool) (f : Frame) →
        rpmb_outcome 0 (record region { key = None }) r locked (record f { kind = 2 } ∷ []) ≡ Results 7 None }
    ensures write_before_key { (region : Region) (r : Registers) (locked : Bool) (f : Frame) →
        rpmb_outcome 0 (record region { key = None }) r locked (record f { kind = 3; count = 1 } ∷ [])
        ≡ Results 7 None }
    ensures read_before_key { (region : Region) (r : Registers) (locked : Bool) (f : Frame) →
        rpmb_outcome 0 (record region { key = None }) r locked (record f { kind = 4; count = 1 } ∷ [])
        ≡ Results 7 None }
    ensures second_key { (region : Region) (r : Registers) (locked : Bool) (f : Frame) (key : List ℕ) →
        rpmb_outcome 0 (record region { key = Some key; counter = 0 }) r locked (record f { kind = 1 } ∷ [])
        ≡ Results 1 None }
    ensures in_area { (r : Registers) (locked : Bool) (f : Frame) (key : List ℕ) →
        rpmb_outcome 0 (record { key = Some key; area = zeros 512; counter = 0 }) r locked
        (record f { kind = 4; address = 1; count = 1 } ∷ []) ≡ Results 0 None }
    ensures past_area { (r : Registers) (locked : Bool) (f : Frame) (key : List ℕ) →
        rpmb_outcome 0 (record { key = Some key; area = zeros 512; counter = 0 }) r locked
        (record f { kind = 4; address = 1; count = 2 } ∷ []) ≡ Results 4 None }
    ensures last_write { (region : Region) (key bytes : List ℕ) (address : ℕ) → with_end_bit
        (changed_by (record region { key = Some key; counter = 0xFFFFFFFE }) (RpmbWrite 0 address bytes)) 0 ≡ 0x80 }
    ensures no_more_writes { (region : Region) (r : Registers) (locked : Bool) (f : Frame) (key : List ℕ) →
        rpmb_outcome 0 (record region { key = Some key; counter = 0xFFFFFFFF }) r locked
        (record f { kind = 3; count = 1 } ∷ []) ≡ Results 0x85 None }
    ensures one_more_write { (r : Registers) (locked : Bool) (f : Frame) (key : List ℕ) →
        rpmb_outcome 0 (record { key = Some key; area = []; counter = 0xFFFFFFFE }) r locked
        (record f { kind = 3; count = 1; address = 0 } ∷ []) ≡ Results 4 None }
{}

/// Response frames. Before a key, a request for the counter with nonce 01h to 10h is answered with this nonce, counter
/// 0 and result 0007h. The response to a key has no MAC, whether or not a key is set. Two blocks come in two frames,
/// each with the nonce, address and count that were asked for, and the last has the MAC of both; without a key none has
/// one. If a request for data fails, one frame without data answers it.
pub fn worked_responses()
    ensures counter_before_key { (region : Region) (f : Frame) → map frame_bytes
        (response_frames (record region { key = None; counter = 0 }) (record f {
          kind = 2;
          nonce =
              1 ∷ 2 ∷ 3 ∷ 4 ∷ 5 ∷ 6 ∷ 7 ∷ 8 ∷ 9 ∷ 10 ∷ 11 ∷ 12 ∷ 13 ∷ 14 ∷ 15 ∷ 16 ∷ [];
        }) 7)
        ≡ (zeros 484 ++ (1 ∷ 2 ∷ 3 ∷ 4 ∷ 5 ∷ 6 ∷ 7 ∷ 8 ∷ 9 ∷ 10 ∷ 11 ∷ 12 ∷ 13 ∷ 14 ∷ 15 ∷ 16 ∷ [])
        ++ zeros 8 ++ (0 ∷ 7 ∷ 2 ∷ 0 ∷ [])) ∷ [] }
    ensures key { (region : Region) (f : Frame) (result : ℕ) →
        response_frames region (record f { kind = 1 }) result ≡ response_frame 0x0100 result ∷ [] }
    ensures counter { (region : Region) (f : Frame) (key : List ℕ) (result : ℕ) →
        response_frames (record region { key = Some key }) (record f { kind = 2 }) result
        ≡ record (response_frame 0x0200 result) {
          nonce = f.nonce;
          counter = region.counter;
          key_or_mac = frames_mac key
              (record (response_frame 0x0200 result) { nonce = f.nonce; counter = region.counter } ∷ []);
        } ∷ [] }
    ensures write { (region : Region) (f : Frame) (key : List ℕ) (result : ℕ) →
        response_frames (record region { key = Some key }) (record f { kind = 3 }) result
        ≡ record (response_frame 0x0300 result) {
          address = f.address;
          counter = region.counter;
          key_or_mac = frames_mac key
              (record (response_frame 0x0300 result) { address = f.address; counter = region.counter } ∷ []);
        } ∷ [] }
    ensures blocks { (region : Region) (f : Frame) (key : List ℕ) → map (λ (g : Frame). g.payload)
        (response_frames (record region { key = Some key }) (record f { kind = 4; address = 3; count = 2 }) 0)
        ≡ take 256 (drop 768 region.area) ∷ take 256 (drop 1024 region.area) ∷ [] }
    ensures at_the_end { (region : Region) (f : Frame) (key : List ℕ) → map (λ (g : Frame). g.payload)
        (response_frames (record region { key = Some key }) (record f { kind = 4; address = 3; count = 1 }) 0x80)
        ≡ take 256 (drop 768 region.area) ∷ [] }
    ensures as_asked { (region : Region) (f : Frame) (key : List ℕ) →
        map (λ (g : Frame). record g { payload = []; key_or_mac = [] })
        (response_frames (record region { key = Some key }) (record f { kind = 4; address = 3; count = 2 }) 0)
        ≡ replicate 2 (record (response_frame 0x0400 0) {
          payload = [];
          key_or_mac = [];
          nonce = f.nonce;
          address = 3;
          count = 2;
        }) }
    ensures last_mac { (region : Region) (f : Frame) (key : List ℕ) → map (λ (g : Frame). g.key_or_mac)
        (response_frames (record region { key = Some key }) (record f { kind = 4; address = 3; count = 2 }) 0)
        ≡ zeros 32 ∷ frames_mac key
        (response_frames (record region { key = Some key }) (record f { kind = 4; address = 3; count = 2 }) 0) ∷ [] }
    ensures no_mac { (region : Region) (f : Frame) → map (λ (g : Frame). g.key_or_mac)
        (response_frames (record region { key = None }) (record f { kind = 4; address = 3; count = 2 }) 0)
        ≡ zeros 32 ∷ zeros 32 ∷ [] }
    ensures failed { (region : Region) (f : Frame) (key : List ℕ) → map (λ (g : Frame). g.payload)
        (response_frames (record region { key = Some key }) (record f { kind = 4; address = 3; count = 2 }) 6)
        ≡ zeros 256 ∷ [] }
    ensures failed_at_the_end { (region : Region) (f : Frame) (key : List ℕ) → map (λ (g : Frame). g.payload)
        (response_frames (record region { key = Some key }) (record f { kind = 4; address = 3; count = 2 }) 0x84)
        ≡ zeros 256 ∷ [] }
    ensures result { (region : Region) (f : Frame) (result : ℕ) →
        response_frames region (record f { kind = 5 }) result ≡ [] }
{}

/// Registers. The last data of a key or a write empty both, those of other kinds the response register. A key and a
/// write fill the result register alone, other kinds the response register alone; a result read hands out what the
/// result register has. An abort of a SECURITY PROTOCOL OUT empties both. Result 6, a page could not be read, is joined
/// to the result by or, and bit 0080h stays.
pub fn worked_registers()
    ensures emptied_by_key { (f : Frame) (fs : List Frame) (r : Registers) →
        emptied_by (record f { kind = 1 } ∷ fs) r ≡ empty_registers }
    ensures emptied_by_counter { (f : Frame) (fs : List Frame) (r : Registers) →
        emptied_by (record f { kind = 2 } ∷ fs) r ≡ record r { response = [] } }
    ensures emptied_by_write { (f : Frame) (fs : List Frame) (r : Registers) →
        emptied_by (record f { kind = 3 } ∷ fs) r ≡ empty_registers }
    ensures emptied_by_read { (f : Frame) (fs : List Frame) (r : Registers) →
        emptied_by (record f { kind = 4 } ∷ fs) r ≡ record r { response = [] } }
    ensures emptied_by_result { (f : Frame) (fs : List Frame) (r : Registers) →
        emptied_by (record f { kind = 5 } ∷ fs) r ≡ record r { response = [] } }
    ensures filled_by_key { (region : Region) (f : Frame) (fs : List Frame) (result : ℕ) (r : Registers) →
        filled_with region (record f { kind = 1 } ∷ fs) result r
        ≡ record r { result = Some (frame_bytes (response_frame 0x0100 result)) } }
    ensures filled_by_counter { (region : Region) (f : Frame) (fs : List Frame) (result : ℕ) (r : Registers) →
        filled_with region (record f { kind = 2 } ∷ fs) result r
        ≡ record r { response = map frame_bytes (response_frames region (record f { kind = 2 }) result) } }
    ensures filled_by_write { (region : Region) (f : Frame) (fs : List Frame) (result : ℕ) (r : Registers) →
        filled_with (record region { key = None }) (record f { kind = 3 } ∷ fs) result r
        ≡ record r {
          result = Some (frame_bytes (record (response_frame 0x0300 result) {
            address = f.address;
            counter = region.counter;
          }));
        } }
    ensures filled_by_read { (region : Region) (f : Frame) (fs : List Frame) (result : ℕ) (r : Registers) →
        filled_with region (record f { kind = 4 } ∷ fs) result r
        ≡ record r { response = map frame_bytes (response_frames region (record f { kind = 4 }) result) } }
    ensures filled_by_result { (region : Region) (f : Frame) (fs : List Frame) (result : ℕ) (r : Registers)
        (bytes : List ℕ) → filled_with region (record f { kind = 5 } ∷ fs) result (record r { result = Some bytes })
        ≡ record { result = Some bytes; response = bytes ∷ [] } }
    ensures aborted { (task : Task) (tasks : List Task) (n : ℕ) (r : ℕ → Registers) →
        registers_after (record task { command = Some (SecurityOut 0 n) } ∷ tasks) r 0 ≡ empty_registers }
    ensures not_read { with_reads (WasRead ∷ NotRead ∷ Unread ∷ []) 0 ≡ 6 }
    ensures not_read_at_the_end { with_reads (NotRead ∷ []) 0x80 ≡ 0x86 }
    ensures read { (result : ℕ) → with_reads (WasRead ∷ Unread ∷ []) result ≡ result }
{}
