//! What RPMB requests make of the machine: of its registers, of its slots and of what is accepted.
ghost use Rattle.std.specs.Prelude.{◌≡◌, ◌≢◌, ◌⊎◌, ◌<◌, ◌+◌, ◌-◌, ◌%◌, ◌++◌, ◌∷◌, [], ℕ, Bool, true, false, List, bit_or, length, map, slice_get, Option, Some, None};
ghost use Rattle.std.specs.List.{flat_map, list_any};
ghost use Rattle.ufs_laws.specs.FrameLaws.{IsKeyOrWrite, IsOwed, IsSuccess, IsThere, outcome_in};
ghost use Rattle.ufs_laws.specs.Table.{asks};
ghost use Rattle.ufs_spec.specs.declared.Cdb.{Cdb};
ghost use Rattle.ufs_spec.specs.declared.Cdb.TheVariants as cdb;
ghost use Rattle.ufs_spec.specs.declared.Message.{Message};
ghost use Rattle.ufs_spec.specs.Begins.{sending_bytes};
ghost use Rattle.ufs_spec.specs.Changes.{given_back};
ghost use Rattle.ufs_spec.specs.Commands.{Command};
ghost use Rattle.ufs_spec.specs.Exchanges.{Deed, Gathering, ReadBlock, ReadingArea, Registers, RpmbRequest, Task, empty_registers, invalid_field, response};
ghost use Rattle.ufs_spec.specs.declared.exchanges.ReadState.TheVariants.{NotRead};
ghost use Rattle.ufs_spec.specs.declared.exchanges.Status.{Status};
ghost use Rattle.ufs_spec.specs.declared.exchanges.Status.TheVariants.{Busy, Good};
ghost use Rattle.ufs_spec.specs.declared.exchanges.Purpose.TheVariants.{ForFrames};
ghost use Rattle.ufs_spec.specs.FrameRequests.{area_read, filled_registers, frames_complete, keeps_area, page_kept, pages_named, requested, result_now};
ghost use Rattle.ufs_spec.specs.Frames.{Frame, frame_bytes};
ghost use Rattle.ufs_spec.specs.Machine.{Answer, Call, begun, behind, deed_reply, fills, is_good_due, is_to_fill, lock_applied, observe, replied, task_filled, with_moves, without_tasks};
ghost use Rattle.ufs_spec.specs.Refusals.{Request, State, first_line, lines_for, mended, numbers_of, plain_now};
ghost use Rattle.ufs_spec.specs.Plain.{steps_of};
ghost use Rattle.ufs_spec.specs.Rpmb.{Refused, Results, region_of};
ghost use Rattle.ufs_spec.specs.RpmbResponses.{frames_of, response_frames};

/// A register is filled once, when the GOOD of its request becomes due: not before, never again,
/// and not by handing out the answer. A GOOD that is due in the call that begins the lock fills its
/// register too. Kinds 1 and 3 fill the result register, the others the response register, and both
/// only of the request's region.
pub fn a_register_is_filled_once()
    ensures not_before { (s : State) (task : Task) → is_good_due s task task.deed ≡ false → is_to_fill s task ≡ false }
    ensures due { (s : State) (front back : List Task) (task : Task) → s.tasks ≡ front ++ task ∷ back →
        list_any (is_to_fill s) front ≡ false → is_to_fill s task ≡ true → list_any (is_to_fill s) back ≡ false →
        (fills s).registers ≡ filled_registers s task s.registers }
    ensures never_again { (s later : State) (task : Task) → is_to_fill s task ≡ true →
        is_to_fill later (task_filled s task) ≡ false }
    ensures handed_out { (s : State) (m : Message) → (replied s m).registers ≡ s.registers }
    ensures lock { (s : State) (call : Call) (answer : Answer) →
        (observe s call answer).registers ≡ (fills (behind s call answer)).registers }
    ensures order { (s : State) → (fills (lock_applied s)).registers ≡ (fills s).registers }
    ensures key_or_write { (s : State) (task : Task) (request : RpmbRequest) (f : Frame) (fs : List Frame)
        (r : ℕ → Registers) → task.request ≡ Some request → request.frames ≡ f ∷ fs → IsKeyOrWrite f →
        filled_registers s task r request.region ≡ record (r request.region) {
          result = slice_get (map frame_bytes
              (response_frames (region_of (plain_now s) request.region) f (result_now task.deed request.result))) 0;
        } }
    ensures counter_or_data { (s : State) (task : Task) (request : RpmbRequest) (f : Frame) (fs : List Frame)
        (r : ℕ → Registers) → task.request ≡ Some request → request.frames ≡ f ∷ fs →
        (f.kind ≡ 2) ⊎ (f.kind ≡ 4) → filled_registers s task r request.region ≡ record (r request.region) {
          response = map frame_bytes
              (response_frames (region_of (plain_now s) request.region) f (result_now task.deed request.result));
        } }
    ensures result { (s : State) (task : Task) (request : RpmbRequest) (f : Frame) (fs : List Frame)
        (r : ℕ → Registers) → task.request ≡ Some request → request.frames ≡ f ∷ fs → f.kind ≡ 5 →
        filled_registers s task r request.region
        ≡ record (r request.region) { response = frames_of (r request.region).result } }
    ensures other_regions { (s : State) (task : Task) (request : RpmbRequest) (r : ℕ → Registers) (other : ℕ) →
        task.request ≡ Some request → other ≢ request.region → filled_registers s task r other ≡ r other }
{}

/// The last data of a request that is not refused empty the response register of its region, those
/// of kinds 1 and 3 the result register too. A refused one changes neither, and no request those of
/// another region.
pub fn last_data_empty_the_registers()
    ensures key_or_write { (s : State) (task : Task) (region : ℕ) (f : Frame) (fs : List Frame) (result : ℕ)
        (c : Option Command) → outcome_in s region (f ∷ fs) ≡ Results result c → IsKeyOrWrite f →
        (frames_complete s task region (f ∷ fs)).registers region ≡ empty_registers }
    ensures other_kinds { (s : State) (task : Task) (region : ℕ) (f : Frame) (fs : List Frame) (result : ℕ)
        (c : Option Command) → outcome_in s region (f ∷ fs) ≡ Results result c → (IsKeyOrWrite f → ⊥) →
        (frames_complete s task region (f ∷ fs)).registers region ≡ record (s.registers region) { response = [] } }
    ensures refused { (s : State) (task : Task) (region : ℕ) (frames : List Frame) (status : Status) →
        outcome_in s region frames ≡ Refused status →
        (frames_complete s task region frames).registers ≡ s.registers }
    ensures other_regions { (s : State) (task : Task) (region : ℕ) (frames : List Frame) (other : ℕ) → other ≢ region →
        (frames_complete s task region frames).registers other ≡ s.registers other }
{}

/// A SECURITY PROTOCOL OUT that is aborted and was not refused leaves both registers of its region
/// empty, whatever it was doing. The registers of every other region stay; a refused one has no
/// command, so that it empties none.
pub fn an_abort_empties_the_registers()
    ensures emptied { (s : State) (is : Task → Bool) (k : ℕ) (task : Task) (region n : ℕ) →
        slice_get s.tasks k ≡ Some task → is task ≡ true → task.command ≡ Some (cdb.SecurityOut region n) →
        (without_tasks s is).registers region ≡ empty_registers }
    ensures others { (s : State) (is : Task → Bool) (region : ℕ) →
        ((k : ℕ) (task : Task) (n : ℕ) → slice_get s.tasks k ≡ Some task → is task ≡ true →
        task.command ≢ Some (cdb.SecurityOut region n)) →
        (without_tasks s is).registers region ≡ s.registers region }
{}

/// SECURITY PROTOCOL IN sends the frames that wait in the response register of its region, and
/// empties that register at its COMMAND; the result register and all other regions stay.
pub fn frames_are_handed_out_once()
    ensures told { (s : State) (r : Request) (unit region n : ℕ) → (begun s r unit (cdb.SecurityIn region n)).tasks
        ≡ s.tasks ++ record {
          lun = r.lun;
          tag = r.tag;
          expected = r.expected;
          command = Some (cdb.SecurityIn region n);
          length = length (flat_map (λ frame. frame) (s.registers region).response);
          deed = sending_bytes r (flat_map (λ frame. frame) (s.registers region).response);
          request = None;
        } ∷ [] }
    ensures emptied { (s : State) (r : Request) (unit region n : ℕ) →
        (begun s r unit (cdb.SecurityIn region n)).registers region ≡ record (s.registers region) { response = [] } }
    ensures others { (s : State) (r : Request) (unit region n other : ℕ) → other ≢ region →
        (begun s r unit (cdb.SecurityIn region n)).registers other ≡ s.registers other }
{}

/// While a SECURITY PROTOCOL OUT is open every other one is refused with BUSY, whatever its region,
/// if that is there.
/// It claims three slots, and has none of them any more once its data are decided. Lengths of no
/// whole frames, or of more than eight, are refused.
pub fn one_request_is_open()
    ensures busy { (s : State) (tag region k : ℕ) (task : Task) (other n : ℕ) →
        0 < steps_of (numbers_of s) region → mended s ≡ true → slice_get s.tasks k ≡ Some task → task.command ≡ Some (cdb.SecurityOut other n) →
        first_line (lines_for s (asks 0x20 0xC4 tag (cdb.SecurityOut region 512)) (cdb.SecurityOut region 512))
        ≡ Some Busy }
    ensures claims { (s : State) (r : Request) (unit region n : ℕ) →
        (begun s r unit (cdb.SecurityOut region n)).translation.claims ≡ s.translation.claims + 3 }
    ensures gives_back { (s : State) (task : Task) (region n : ℕ) (gathered : List ℕ) (asked : Bool)
        (frames : List Frame) → task.command ≡ Some (cdb.SecurityOut region n) →
        task.deed ≡ Gathering (ForFrames region) gathered asked →
        (frames_complete s task region frames).translation.claims ≡ s.translation.claims - 3 }
    ensures too_long { (s : State) (r : Request) (region n : ℕ) → 4096 < n →
        first_line (lines_for s r (cdb.SecurityOut region n)) ≡ Some invalid_field }
    ensures no_frames { (s : State) (r : Request) (region n : ℕ) → n % 512 ≢ 0 →
        first_line (lines_for s r (cdb.SecurityOut region n)) ≡ Some invalid_field }
    ensures too_long_to_read { (s : State) (r : Request) (region n : ℕ) → 4096 < n →
        first_line (lines_for s r (cdb.SecurityIn region n)) ≡ Some invalid_field }
    ensures no_frames_to_read { (s : State) (r : Request) (region n : ℕ) → n % 512 ≢ 0 →
        first_line (lines_for s r (cdb.SecurityIn region n)) ≡ Some invalid_field }
{}

/// A request for data that passes its checks keeps each of its pages, and wants each at once. Its
/// GOOD is due once each page is at hand, was read or could not be read, and not before. If one
/// could not be read, 6 is joined to its result by or, so that bit 0080h stays; else the result
/// stays.
pub fn a_request_for_data_reads_its_pages()
    ensures reads { (s : State) (task : Task) (region : ℕ) (f : Frame) (fs : List Frame) (result : ℕ) →
        outcome_in s region (f ∷ fs) ≡ Results result None → f.kind ≡ 4 → IsSuccess result →
        frames_complete s task region (f ∷ fs)
        ≡ requested (with_moves (given_back s task) (keeps_area s task.tag region f)) task region (f ∷ fs) result
        (ReadingArea (area_read s region f)) }
    ensures wanted { (s : State) (tag region : ℕ) (f : Frame) (i : ℕ) → (page_kept s tag region f i).wanted ≡ true }
    ensures one_page { (f : Frame) → pages_named (record f { address = 16; count = 8 }) ≡ 1 }
    ensures two_pages { (f : Frame) → pages_named (record f { address = 15; count = 2 }) ≡ 2 }
    ensures waits { (s : State) (task : Task) (request : RpmbRequest) (pages : List ReadBlock) (k : ℕ)
        (page : ReadBlock) → task.request ≡ Some request →
        slice_get pages k ≡ Some page → IsOwed s task k page →
        deed_reply s task (ReadingArea pages) ≡ None }
    ensures due { (s : State) (task : Task) (request : RpmbRequest) (pages : List ReadBlock) →
        task.request ≡ Some request →
        ((k : ℕ) (page : ReadBlock) → slice_get pages k ≡ Some page → IsThere s task k page) →
        deed_reply s task (ReadingArea pages)
        ≡ Some (response task.lun task.tag task.expected task.length Good) }
    ensures lost { (pages : List ReadBlock) (k : ℕ) (page : ReadBlock) (result : ℕ) → slice_get pages k ≡ Some page →
        page.state ≡ NotRead → result_now (ReadingArea pages) result ≡ bit_or result 6 }
    ensures end_bit { bit_or 0x80 6 ≡ 0x86 }
    ensures read { (pages : List ReadBlock) (result : ℕ) →
        ((k : ℕ) (page : ReadBlock) → slice_get pages k ≡ Some page → page.state ≢ NotRead) →
        result_now (ReadingArea pages) result ≡ result }
{}

/// A request that fails a check accepts nothing: the accepted commands, the groups of the layer,
/// and so all that the device holds, stay as they were.
pub fn a_failed_request_changes_nothing()
    ensures commands { (s : State) (task : Task) (region : ℕ) (f : Frame) (fs : List Frame) (result : ℕ)
        (c : Option Command) → outcome_in s region (f ∷ fs) ≡ Results result c → (IsSuccess result → ⊥) →
        (frames_complete s task region (f ∷ fs)).accepted ≡ s.accepted }
    ensures groups { (s : State) (task : Task) (region : ℕ) (f : Frame) (fs : List Frame) (result : ℕ)
        (c : Option Command) → outcome_in s region (f ∷ fs) ≡ Results result c → (IsSuccess result → ⊥) →
        (frames_complete s task region (f ∷ fs)).translation.ledger ≡ s.translation.ledger }
    ensures contents { (s : State) (task : Task) (region : ℕ) (f : Frame) (fs : List Frame) (result : ℕ)
        (c : Option Command) → outcome_in s region (f ∷ fs) ≡ Results result c → (IsSuccess result → ⊥) →
        plain_now (frames_complete s task region (f ∷ fs)) ≡ plain_now s }
{}
