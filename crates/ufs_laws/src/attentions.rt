//! Unit attentions, task attributes, and LUNs that are not there (SAM, SPC; JESD220, 10.7 and 10.8).
ghost use Rattle.std.specs.Prelude.{◌≡◌, ◌≢◌, ◌<◌, ◌≤◌, ◌++◌, ◌∷◌, [], ℕ, Bool, List, true, false, bit_and, length, map, replicate, Some, None};
ghost use Rattle.ufs_laws.specs.Runs.{heard};
ghost use Rattle.ufs_laws.specs.Table.{asks, heard_as, profile_1_row, spells_none};
ghost use Rattle.ufs_laws.specs.TaskRequests.{IsNoReset};
ghost use Rattle.ufs_spec.specs.declared.Cdb.TheVariants as cdb;
ghost use Rattle.ufs_spec.specs.declared.Message.TheVariants as message;
ghost use Rattle.ufs_spec.specs.declared.Numbers.{Numbers};
ghost use Rattle.ufs_spec.specs.declared.exchanges.Status.TheVariants.{CheckCondition};
ghost use Rattle.ufs_spec.specs.declared.faults.HostFault.TheVariants.{Reserved};
ghost use Rattle.ufs_spec.specs.declared.operations.Told.TheVariants as told;
ghost use Rattle.ufs_spec.specs.Begins.{begun, told_bytes};
ghost use Rattle.ufs_spec.specs.Cdbs.{fixed_sense};
ghost use Rattle.ufs_spec.specs.Cells.{Array};
ghost use Rattle.ufs_spec.specs.Disk.{Spot};
ghost use Rattle.ufs_spec.specs.Exchanges.{invalid_field, message_error, most_tasks, no_unit, unit_attention};
ghost use Rattle.ufs_spec.specs.Identities.{device_type, inquiry_bytes};
ghost use Rattle.ufs_spec.specs.Lives.{IsOpened};
ghost use Rattle.ufs_spec.specs.Machine.{Answer, Call, Host, message_fault, observe, opening_fault, opens_short};
ghost use Rattle.ufs_spec.specs.Management.{managed};
ghost use Rattle.ufs_spec.specs.Refusals.{BootUnit, DeviceUnit, Lun, ReportLunsUnit, Request, RpmbUnit, State, UnitOf};
ghost use Rattle.ufs_spec.specs.Refusals.{attention_place, has_attention, lun_of, meets_attention, mended};
ghost use Rattle.ufs_spec.specs.Refusals.{numbers_of, refusal, refused_state};

/// The lines of the table that came with unit attentions (SAM) and task attributes (JESD220, 10.7.1): for each a request
/// that a later line would refuse with another status. An attention is told before a wrong attribute, and that before an
/// operation code that is not taken; that there is no such unit comes before both. A COMMAND may have a priority if its
/// attribute is SIMPLE. A device of profile 0 takes no COMMAND with an attribute or a priority.
pub fn attentions_and_attributes_are_told_first()
    // TEST UNIT READY with HEAD OF QUEUE, of a unit that has an attention, before the device is mended or after.
    ensures attention { (s : State) (tag : ℕ) → numbers_of s ≡ profile_1_row → has_attention s (UnitOf 0) ≡ true →
        refusal s (asks 0x01 0 tag cdb.Nothing) ≡ Some unit_attention }
    ensures attention_sense { unit_attention ≡ CheckCondition (record { key = 0x06; asc = 0x29; ascq = 0x00 }) }
    // An operation code that is not taken, with HEAD OF QUEUE, ORDERED, and the attribute behind them.
    ensures head_of_queue { (s : State) (tag : ℕ) (rest : List ℕ) → numbers_of s ≡ profile_1_row →
        has_attention s (UnitOf 0) ≡ false → refusal s (spells_none 0x01 0 tag (0xFF ∷ rest)) ≡ Some message_error }
    ensures ordered { (s : State) (tag : ℕ) (rest : List ℕ) → numbers_of s ≡ profile_1_row →
        has_attention s (UnitOf 0) ≡ false → refusal s (spells_none 0x42 0 tag (0xFF ∷ rest)) ≡ Some message_error }
    ensures contingent { (s : State) (tag : ℕ) (rest : List ℕ) → numbers_of s ≡ profile_1_row →
        has_attention s (UnitOf 0) ≡ false → refusal s (spells_none 0x03 0 tag (0xFF ∷ rest)) ≡ Some message_error }
    ensures attribute_sense { message_error ≡ CheckCondition (record { key = 0x0B; asc = 0x49; ascq = 0x00 }) }
    // The same of unit 3, which is not there.
    ensures no_unit { (s : State) (tag : ℕ) (rest : List ℕ) → numbers_of s ≡ profile_1_row →
        refusal s (spells_none 0x01 3 tag (0xFF ∷ rest)) ≡ Some no_unit }
    ensures priority { (s : State) (tag : ℕ) → numbers_of s ≡ profile_1_row → has_attention s (UnitOf 0) ≡ false →
        mended s ≡ true → refusal s (asks 0x04 0 tag cdb.Nothing) ≡ None }
    ensures profile_0 { (s : State) (flags lun tag expected : ℕ) (bytes : List ℕ) → (numbers_of s).profile ≡ 0 →
        bit_and flags 0x07 ≢ 0 → message_fault s (message.Command flags lun tag expected bytes) ≡ Some Reserved }
    ensures plain { (s : State) (flags lun tag expected : ℕ) (bytes : List ℕ) → bit_and flags 0x07 ≡ 0 →
        message_fault s (message.Command flags lun tag expected bytes)
        ≡ opening_fault s false tag (opens_short s (message.Command flags lun tag expected bytes)) }
    ensures profile_1 { (s : State) (flags lun tag expected : ℕ) (bytes : List ℕ) → 0 < (numbers_of s).profile →
        message_fault s (message.Command flags lun tag expected bytes)
        ≡ opening_fault s false tag (opens_short s (message.Command flags lun tag expected bytes)) }
{}

/// INQUIRY and REQUEST SENSE are answered by a device of profile 1 also where there is no unit: INQUIRY tells device type
/// 7Fh, and REQUEST SENSE 5/25/00 (SPC). A page of vital product data is refused there as a wrong field, and every other
/// command as before. A device of profile 0 refuses each command.
pub fn a_lun_that_is_not_there_tells_so()
    ensures inquiry { (s : State) (tag : ℕ) → numbers_of s ≡ profile_1_row →
        refusal s (asks 0x40 3 tag (cdb.Tell told.Identity 0 36)) ≡ None }
    ensures identity { (s : State) (r : Request) (select : ℕ) → lun_of (numbers_of s) r.lun ≡ None →
        told_bytes s r told.Identity select ≡ inquiry_bytes 0x7F }
    ensures identity_of_a_unit { (s : State) (r : Request) (select : ℕ) (lun : Lun) → lun_of (numbers_of s) r.lun ≡ Some lun →
        told_bytes s r told.Identity select ≡ inquiry_bytes (device_type r.lun) }
    ensures sense { (s : State) (tag : ℕ) → numbers_of s ≡ profile_1_row →
        refusal s (asks 0x40 3 tag (cdb.Tell told.Sense 0 18)) ≡ None }
    ensures sense_told { (s : State) (r : Request) (select : ℕ) → 0 < (numbers_of s).profile →
        lun_of (numbers_of s) r.lun ≡ None →
        told_bytes s r told.Sense select ≡ fixed_sense (record { key = 0x05; asc = 0x25; ascq = 0x00 }) }
    ensures page { (s : State) (tag : ℕ) → numbers_of s ≡ profile_1_row →
        refusal s (asks 0x40 3 tag (cdb.Tell told.Page 0x80 64)) ≡ Some invalid_field }
    ensures other { (s : State) (tag : ℕ) → numbers_of s ≡ profile_1_row →
        refusal s (asks 0x00 3 tag cdb.Nothing) ≡ Some no_unit }
    ensures profile_0 { (s : State) (r : Request) → (numbers_of s).profile ≡ 0 → lun_of (numbers_of s) r.lun ≡ None →
        refusal s r ≡ Some no_unit }
{}

/// Each LUN has an attention once a device of profile 1 is opened. It ends with the first COMMAND that is refused by it,
/// and is told once: the LUN has none then, and no COMMAND to it is refused so again, the same one neither. Those of other
/// LUNs stay. No call but a logical unit reset makes one (SAM).
pub fn an_attention_is_told_once()
    ensures opened { (n : Numbers) (array : Array) (bad : Spot → Bool) (s : State) (byte : ℕ) (lun : Lun) →
        IsOpened n array bad s → 0 < n.profile → length n.units.items ≤ 8 → lun_of n byte ≡ Some lun →
        has_attention s lun ≡ true }
    // Each LUN has one of its own.
    ensures of_units { (unit : ℕ) → attention_place (UnitOf unit) ≡ unit }
    ensures of_well_known { map attention_place (ReportLunsUnit ∷ BootUnit ∷ RpmbUnit ∷ DeviceUnit ∷ [])
        ≡ 8 ∷ 9 ∷ 10 ∷ 11 ∷ [] }
    ensures met { (s : State) (r : Request) → refusal s r ≡ Some unit_attention →
        meets_attention s r (lun_of (numbers_of s) r.lun) ≡ true }
    ensures ends { (s : State) (r : Request) (lun : Lun) → lun_of (numbers_of s) r.lun ≡ Some lun →
        refusal s r ≡ Some unit_attention → has_attention (refused_state s r) lun ≡ false }
    ensures others { (s : State) (r : Request) (lun other : Lun) → lun_of (numbers_of s) r.lun ≡ Some lun →
        attention_place other ≢ attention_place lun → refusal s r ≡ Some unit_attention →
        has_attention (refused_state s r) other ≡ has_attention s other }
    ensures taken { (s : State) (r : Request) (lun : Lun) → lun_of (numbers_of s) r.lun ≡ Some lun →
        refusal s r ≡ Some unit_attention → length s.tasks < most_tasks →
        has_attention (observe s (Host (heard_as r)) heard) lun ≡ false }
    ensures again { (s : State) (r q : Request) (lun : Lun) → lun_of (numbers_of s) r.lun ≡ Some lun → q.lun ≡ r.lun →
        refusal s r ≡ Some unit_attention → length s.tasks < most_tasks →
        refusal (observe s (Host (heard_as r)) heard) q ≢ Some unit_attention }
    ensures none_comes { (s : State) (call : Call) (answer : Answer) (lun : Lun) → IsNoReset call →
        has_attention (observe s call answer) lun ≡ true → has_attention s lun ≡ true }
{}

/// INQUIRY and REPORT LUNS are answered whatever attention their LUN has, and never end one. REQUEST SENSE is answered
/// too: it tells the attention as 6/29/00, and ends it; where there is none it tells that the device is not mended,
/// 2/04/01, or that there is nothing to tell (SPC).
pub fn some_commands_pass_an_attention()
    ensures inquiry { (s : State) (tag : ℕ) → numbers_of s ≡ profile_1_row →
        refusal s (asks 0x40 0 tag (cdb.Tell told.Identity 0 36)) ≡ None }
    ensures luns { (s : State) (tag : ℕ) → numbers_of s ≡ profile_1_row →
        refusal s (asks 0x40 0 tag (cdb.Tell told.Units 0 32)) ≡ None }
    ensures sense { (s : State) (tag : ℕ) → numbers_of s ≡ profile_1_row →
        refusal s (asks 0x40 0 tag (cdb.Tell told.Sense 0 18)) ≡ None }
    ensures inquiry_leaves { (s : State) (r : Request) (unit select allocation : ℕ) →
        (begun s r unit (cdb.Tell told.Identity select allocation)).volatile ≡ s.volatile }
    ensures page_leaves { (s : State) (r : Request) (unit select allocation : ℕ) →
        (begun s r unit (cdb.Tell told.Page select allocation)).volatile ≡ s.volatile }
    ensures luns_leave { (s : State) (r : Request) (unit select allocation : ℕ) →
        (begun s r unit (cdb.Tell told.Units select allocation)).volatile ≡ s.volatile }
    ensures sense_ends { (s : State) (r : Request) (unit select allocation : ℕ) (lun : Lun) →
        lun_of (numbers_of s) r.lun ≡ Some lun →
        has_attention (begun s r unit (cdb.Tell told.Sense select allocation)) lun ≡ false }
    ensures sense_tells { (s : State) (r : Request) (select : ℕ) (lun : Lun) → lun_of (numbers_of s) r.lun ≡ Some lun →
        has_attention s lun ≡ true →
        told_bytes s r told.Sense select ≡ fixed_sense (record { key = 0x06; asc = 0x29; ascq = 0x00 }) }
    ensures not_ready { (s : State) (r : Request) (select : ℕ) (lun : Lun) → lun_of (numbers_of s) r.lun ≡ Some lun →
        0 < (numbers_of s).profile → has_attention s lun ≡ false → mended s ≡ false →
        told_bytes s r told.Sense select ≡ fixed_sense (record { key = 0x02; asc = 0x04; ascq = 0x01 }) }
    ensures nothing { (s : State) (r : Request) (select : ℕ) (lun : Lun) → lun_of (numbers_of s) r.lun ≡ Some lun →
        has_attention s lun ≡ false → mended s ≡ true →
        told_bytes s r told.Sense select ≡ fixed_sense (record { key = 0x00; asc = 0x00; ascq = 0x00 }) }
{}

/// A logical unit reset (08h) leaves its LUN an attention, and no other LUN; no other function of task management leaves
/// one, nor does a reset of a LUN that is not there (SAM).
pub fn a_reset_leaves_an_attention()
    ensures left { (s : State) (byte meant : ℕ) (lun : Lun) → lun_of (numbers_of s) byte ≡ Some lun →
        0 < (numbers_of s).profile → attention_place lun < length s.volatile.attentions →
        has_attention (managed s byte 0x08 meant) lun ≡ true }
    ensures others { (s : State) (byte meant : ℕ) (lun other : Lun) → lun_of (numbers_of s) byte ≡ Some lun →
        attention_place other ≢ attention_place lun →
        has_attention (managed s byte 0x08 meant) other ≡ has_attention s other }
    ensures no_other { (s : State) (byte function meant : ℕ) → function ≢ 0x08 →
        (managed s byte function meant).volatile ≡ s.volatile }
    ensures no_unit { (s : State) (byte function meant : ℕ) → lun_of (numbers_of s) byte ≡ None →
        (managed s byte function meant).volatile ≡ s.volatile }
{}

/// A device of profile 0 tells no attention, whatever is volatile: no LUN has one, no COMMAND gets 6/29/00, and REQUEST
/// SENSE has nothing to tell, mended or not.
pub fn profile_0_tells_no_attention()
    ensures none { (s : State) (lun : Lun) → (numbers_of s).profile ≡ 0 → has_attention s lun ≡ false }
    ensures refused { (s : State) (r : Request) → (numbers_of s).profile ≡ 0 → refusal s r ≢ Some unit_attention }
    ensures sense { (s : State) (r : Request) (select : ℕ) → (numbers_of s).profile ≡ 0 →
        told_bytes s r told.Sense select ≡ (0x70 ∷ replicate 6 0) ++ (0x0A ∷ replicate 10 0) }
{}
