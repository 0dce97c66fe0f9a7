//! The table of queries, and what a query tells.
ghost use Rattle.std.specs.Prelude.{◌≡◌, ◌<◌, ◌≤◌, ◌&&◌, ◌∷◌, ◌++◌, ◌==◌, ◌^◌, [], ℕ, Bool, true, false, List, None};
ghost use Rattle.std.specs.Prelude.{length, not, replicate, take};
ghost use Rattle.ufs_spec.specs.Configs.{with_profile};
ghost use Rattle.ufs_spec.specs.LinkEvents.{volatile_reset};
ghost use Rattle.ufs_laws.specs.AskedQueries.{boot_row, query};
ghost use Rattle.ufs_spec.specs.declared.Event.{Event};
ghost use Rattle.ufs_spec.specs.declared.Numbers.{Numbers};
ghost use Rattle.ufs_spec.specs.declared.Output.{Output};
ghost use Rattle.ufs_spec.specs.Cells.{Array};
ghost use Rattle.ufs_spec.specs.Disk.{Spot};
ghost use Rattle.ufs_spec.specs.Keys.{flag_byte};
ghost use Rattle.ufs_spec.specs.Lives.{IsOpened, Life};
ghost use Rattle.ufs_laws.specs.TaskRequests.{IsNoLinkEvent};
ghost use Rattle.ufs_spec.specs.Machine.{Answer, Call, observe};
ghost use Rattle.ufs_spec.specs.Plain.{Plain};
ghost use Rattle.byteorder.specs.Endian.{big_bytes};
ghost use Rattle.hex.specs.Hex.{encode_lower};
ghost use Rattle.ufs_spec.specs.Descriptors.{descriptor, string_of};
ghost use Rattle.ufs_spec.specs.Queries.{descriptor_told, Query, query_code, setting_of, sets_power_on, value_told, volatile_after, writes_attribute};
ghost use Rattle.ufs_spec.specs.Refusals.{State, mended, numbers_of};
ghost use Rattle.ufs_spec.specs.declared.volatile.Volatile.{Volatile};

/// If two lines of the query table apply, the one that stands first decides (JESD220, 10.7.9).
pub fn each_line_of_the_query_table_counts()
    // An opcode that is none, and one of the other function; the IDN is wrong too.
    ensures unknown { (n : Numbers) (p : Plain) (may : Bool) →
        (function index selector size value : ℕ) →
        query_code n p may (query function 9 9 index selector size value) ≡ 0xFE }
    ensures read_by_a_write { (n : Numbers) (p : Plain) (may : Bool) →
        (index selector size value : ℕ) →
        query_code n p may (query 0x81 1 9 index selector size value) ≡ 0xFE }
    ensures write_by_a_read { (n : Numbers) (p : Plain) (may : Bool) →
        (index selector size value : ℕ) →
        query_code n p may (query 0x01 4 9 index selector size value) ≡ 0xFE }
    // No operation, whatever it names.
    ensures nothing { (n : Numbers) (p : Plain) (may : Bool) →
        (function idn index selector size value : ℕ) →
        query_code n p may (query function 0 idn index selector size value) ≡ 0x00 }
    // A descriptor, an attribute and a flag that are not there, with any index.
    ensures no_descriptor { (n : Numbers) (p : Plain) (may : Bool) →
        (index selector size value : ℕ) →
        query_code n p may (query 0x01 1 3 index selector size value) ≡ 0xFD }
    ensures no_attribute { (n : Numbers) (p : Plain) (may : Bool) →
        (index selector size value : ℕ) →
        query_code n p may (query 0x81 4 1 index selector size value) ≡ 0xFD }
    ensures no_flag { (n : Numbers) (p : Plain) (may : Bool) (index selector size value : ℕ) →
        query_code n p may (query 0x01 5 0 index selector size value) ≡ 0xFD }
    // There are three units; and an attribute has no index. The selector is any.
    ensures no_unit { (p : Plain) (may : Bool) (selector size value : ℕ) →
        query_code boot_row p may (query 0x01 1 2 3 selector size value) ≡ 0xFC }
    ensures index { (n : Numbers) (p : Plain) (may : Bool) (selector size value : ℕ) →
        query_code n p may (query 0x81 4 0 1 selector size value) ≡ 0xFC }
    // A selector, of a flag that may not be cleared.
    ensures selector { (n : Numbers) (p : Plain) (may : Bool) (size value : ℕ) →
        query_code n p may (query 0x81 7 2 0 1 size value) ≡ 0xFB }
    // A descriptor is written, and a flag is cleared or toggled, with any length.
    ensures written { (n : Numbers) (p : Plain) (may : Bool) (size value : ℕ) →
        query_code n p may (query 0x81 2 0 0 0 size value) ≡ 0xF7 }
    ensures cleared { (n : Numbers) (p : Plain) (may : Bool) (size value : ℕ) →
        query_code n p may (query 0x81 7 2 0 0 size value) ≡ 0xF7 }
    ensures toggled { (n : Numbers) (p : Plain) (may : Bool) (size value : ℕ) →
        query_code n p may (query 0x81 8 2 0 0 size value) ≡ 0xF7 }
    // A descriptor is read with no length; an attribute with any value, and a flag that may be
    // set already, have one.
    ensures no_length { (n : Numbers) (p : Plain) (may : Bool) (value : ℕ) →
        query_code n p may (query 0x01 1 0 0 0 0 value) ≡ 0xF9 }
    ensures length { (n : Numbers) (p : Plain) (may : Bool) (value : ℕ) →
        query_code n p may (query 0x81 4 0 0 0 1 value) ≡ 0xF9 }
    ensures length_of_a_flag { (n : Numbers) (p : Plain) (may : Bool) (value : ℕ) →
        query_code n p may (query 0x81 6 2 0 0 1 value) ≡ 0xF9 }
    // A boot setting of 3, and a flag that is set, whether or not a setting can be accepted.
    ensures value { (n : Numbers) (p : Plain) (may : Bool) →
        query_code n p may (query 0x81 4 0 0 0 0 3) ≡ 0xFA }
    ensures set_again { (n : Numbers) (p : Plain) (may : Bool) → p.permanent ≡ true →
        query_code n p may (query 0x81 6 2 0 0 0 0) ≡ 0xF8 }
    // What reads is taken while no setting can be accepted, and so is setting fPowerOnWPEn.
    ensures read { (n : Numbers) (p : Plain) (value : ℕ) →
        query_code n p false (query 0x01 3 0 0 0 0 value) ≡ 0x00 }
    ensures power_on { (n : Numbers) (p : Plain) (value : ℕ) →
        query_code n p false (query 0x81 6 3 0 0 0 value) ≡ 0x00 }
{}

/// So it is of what a device of profile 1 has beside that; and a device of profile 0 has none of it.
pub fn each_line_counts_for_what_profile_1_has()
    ensures no_descriptor { (n : Numbers) (p : Plain) (may : Bool) (index selector size value : ℕ) →
        query_code (with_profile n 0 1) p may (query 0x01 1 5 index selector size value) ≡ 0xFD }
    ensures no_attribute { (n : Numbers) (p : Plain) (may : Bool) (index selector size value : ℕ) →
        query_code (with_profile n 0 1) p may (query 0x81 4 3 index selector size value) ≡ 0xFD }
    ensures no_flag { (n : Numbers) (p : Plain) (may : Bool) (index selector size value : ℕ) →
        query_code (with_profile n 0 1) p may (query 0x81 6 4 index selector size value) ≡ 0xFD }
    // There are eight units and that of the RPMB, five strings, and no dynamic capacity of a unit that is not there.
    ensures no_unit { (n : Numbers) (p : Plain) (may : Bool) (selector size value : ℕ) →
        query_code (with_profile n 1 1) p may (query 0x01 1 2 8 selector size value) ≡ 0xFC }
    ensures no_string { (n : Numbers) (p : Plain) (may : Bool) (selector size value : ℕ) →
        query_code (with_profile n 1 1) p may (query 0x01 1 5 0 selector size value) ≡ 0xFC }
    ensures no_such_string { (n : Numbers) (p : Plain) (may : Bool) (selector size value : ℕ) →
        query_code (with_profile n 1 1) p may (query 0x01 1 5 6 selector size value) ≡ 0xFC }
    ensures no_configured_unit { (p : Plain) (may : Bool) (selector size value : ℕ) →
        query_code (with_profile boot_row 1 1) p may (query 0x01 3 9 3 selector size value) ≡ 0xFC }
    // A context has a selector, and nothing else has one.
    ensures no_context { (p : Plain) (may : Bool) (size value : ℕ) →
        query_code (with_profile boot_row 1 1) p may (query 0x81 4 0x10 2 0 size value) ≡ 0xFB }
    ensures no_such_context { (p : Plain) (may : Bool) (size value : ℕ) →
        query_code (with_profile boot_row 1 1) p may (query 0x81 4 0x10 2 16 size value) ≡ 0xFB }
    ensures selector { (n : Numbers) (p : Plain) (may : Bool) (size value : ℕ) →
        query_code (with_profile n 1 1) p may (query 0x01 3 0x0F 0 1 size value) ≡ 0xFB }
    // What is only written is read, and what is only read is written, set, cleared or toggled, with any length.
    ensures read { (n : Numbers) (p : Plain) (may : Bool) (size value : ℕ) →
        query_code (with_profile n 1 1) p may (query 0x01 3 0x0F 0 0 size value) ≡ 0xF6 }
    ensures read_flag { (n : Numbers) (p : Plain) (may : Bool) (size value : ℕ) →
        query_code (with_profile n 1 1) p may (query 0x01 5 6 0 0 size value) ≡ 0xF6 }
    ensures written { (n : Numbers) (p : Plain) (may : Bool) (size value : ℕ) →
        query_code (with_profile n 1 1) p may (query 0x81 4 2 0 0 size value) ≡ 0xF7 }
    ensures set { (n : Numbers) (p : Plain) (may : Bool) (size value : ℕ) →
        query_code (with_profile n 1 1) p may (query 0x81 6 5 0 0 size value) ≡ 0xF7 }
    ensures cleared { (n : Numbers) (p : Plain) (may : Bool) (size value : ℕ) →
        query_code (with_profile n 1 1) p may (query 0x81 7 6 0 0 size value) ≡ 0xF7 }
    ensures toggled { (n : Numbers) (p : Plain) (may : Bool) (size value : ℕ) →
        query_code (with_profile n 1 1) p may (query 0x81 8 5 0 0 size value) ≡ 0xF7 }
    // A flag that may be cleared has a length; a value is too great or another one than can be had; a lock is written
    // with any value. No setting can be accepted for this to be told.
    ensures length { (n : Numbers) (p : Plain) (may : Bool) (value : ℕ) →
        query_code (with_profile n 1 1) p may (query 0x81 7 5 0 0 1 value) ≡ 0xF9 }
    ensures value { (n : Numbers) (p : Plain) (may : Bool) →
        query_code (with_profile n 1 1) p may (query 0x81 4 3 0 0 0 16) ≡ 0xFA }
    ensures other_value { (n : Numbers) (p : Plain) (may : Bool) →
        query_code (with_profile n 1 1) p may (query 0x81 4 7 0 0 0 7) ≡ 0xFA }
    ensures lock { (n : Numbers) (p : Plain) (value : ℕ) → value < 2 ^ 32 →
        query_code (with_profile n 1 1) p false (query 0x81 4 0x0B 0 0 0 value) ≡ 0xF8 }
    ensures taken { (n : Numbers) (p : Plain) (value : ℕ) → value ≤ 15 →
        query_code (with_profile n 1 1) p false (query 0x81 4 3 0 0 0 value) ≡ 0x00 }
    ensures taken_flag { (n : Numbers) (p : Plain) (value : ℕ) →
        query_code (with_profile n 1 1) p false (query 0x81 8 4 0 0 0 value) ≡ 0x00 }
    // The descriptors of the last unit that may be, whether it is there or not, and of the RPMB; the last string; the last
    // context of the last of three units.
    ensures last_unit { (n : Numbers) (p : Plain) (value : ℕ) →
        query_code (with_profile n 1 1) p false (query 0x01 1 2 7 0 35 value) ≡ 0x00 }
    ensures rpmb_unit { (n : Numbers) (p : Plain) (value : ℕ) →
        query_code (with_profile n 1 1) p false (query 0x01 1 2 0xC4 0 35 value) ≡ 0x00 }
    ensures last_string { (n : Numbers) (p : Plain) (value : ℕ) →
        query_code (with_profile n 1 1) p false (query 0x01 1 5 5 0 10 value) ≡ 0x00 }
    ensures last_context { (p : Plain) →
        query_code (with_profile boot_row 1 1) p false (query 0x81 4 0x10 2 15 0 0) ≡ 0x00 }
{}

/// What a query writes, sets, clears or toggles is told from then on until another one does; no other query changes it. An
/// attribute that has one value tells it (JESD220, 14.2 and 14.3). None of it is a command.
pub fn what_is_told_is_what_was_set()
    ensures level { (n : Numbers) (p : Plain) (is_mended : Bool) (volatile : Volatile) (value other : ℕ) →
        value_told p (volatile_after n is_mended volatile (query 0x81 4 3 0 0 0 value)) (query 0x01 3 3 0 0 0 other)
        ≡ value }
    ensures level_stays { (n : Numbers) (is_mended : Bool) (volatile : Volatile) (q : Query) →
        writes_attribute 3 q ≡ false →
        (volatile_after n is_mended volatile q).current_level ≡ volatile.current_level }
    ensures clock { (n : Numbers) (p : Plain) (is_mended : Bool) (volatile : Volatile) (value other : ℕ) →
        value_told p (volatile_after n is_mended volatile (query 0x81 4 0x0A 0 0 0 value)) (query 0x01 3 0x0A 0 0 0 other)
        ≡ value }
    ensures clock_stays { (n : Numbers) (is_mended : Bool) (volatile : Volatile) (q : Query) →
        writes_attribute 0x0A q ≡ false → (volatile_after n is_mended volatile q).clock ≡ volatile.clock }
    ensures clock_after_a_reset { (kind : ℕ) (volatile : Volatile) →
        (volatile_reset kind volatile).clock ≡ volatile.clock }
    ensures level_after_a_reset { (kind : ℕ) (volatile : Volatile) → (volatile_reset kind volatile).current_level ≡ 0 }
    ensures set { (n : Numbers) (p : Plain) (is_mended : Bool) (volatile : Volatile) (value other : ℕ) →
        value_told p (volatile_after n is_mended volatile (query 0x81 6 4 0 0 0 value)) (query 0x01 5 4 0 0 0 other)
        ≡ 1 }
    ensures cleared { (n : Numbers) (p : Plain) (is_mended : Bool) (volatile : Volatile) (value other : ℕ) →
        value_told p (volatile_after n is_mended volatile (query 0x81 7 4 0 0 0 value)) (query 0x01 5 4 0 0 0 other)
        ≡ 0 }
    ensures toggled { (n : Numbers) (p : Plain) (is_mended : Bool) (volatile : Volatile) (value other : ℕ) →
        value_told p (volatile_after n is_mended volatile (query 0x81 8 4 0 0 0 value)) (query 0x01 5 4 0 0 0 other)
        ≡ flag_byte (not volatile.background) }
    ensures background_stays { (n : Numbers) (is_mended : Bool) (volatile : Volatile) (q : Query) →
        (q.asked.idn == 4) ≡ false → (volatile_after n is_mended volatile q).background ≡ volatile.background }
    ensures background_after_a_reset { (kind : ℕ) (volatile : Volatile) →
        (volatile_reset kind volatile).background ≡ true }
    ensures active { (p : Plain) (volatile : Volatile) (value : ℕ) →
        value_told p volatile (query 0x01 3 2 0 0 0 value) ≡ 0x11 }
    ensures sizes { (p : Plain) (volatile : Volatile) (value : ℕ) →
        (value_told p volatile (query 0x01 3 7 0 0 0 value) ≡ 8)
        × (value_told p volatile (query 0x01 3 8 0 0 0 value) ≡ 8) }
    ensures locked { (p : Plain) (volatile : Volatile) (value : ℕ) →
        value_told p volatile (query 0x01 3 0x0B 0 0 0 value) ≡ 1 }
    ensures no_command { (idn index selector size value : ℕ) → (idn == 0) ≡ false →
        setting_of (query 0x81 4 idn index selector size value) ≡ None }
{}

/// A query that reads an attribute or a flag tells what is set. One that reads a descriptor tells
/// its first bytes, as many as it asks for (JESD220, 14). Setting fPowerOnWPEn is no command.
pub fn a_query_tells_what_is_set()
    ensures boot { (p : Plain) (volatile : Volatile) (value : ℕ) →
        value_told p volatile (query 0x01 3 0 0 0 0 value) ≡ p.boot }
    ensures initialized { (p : Plain) (volatile : Volatile) (value : ℕ) →
        value_told p volatile (query 0x01 5 1 0 0 0 value) ≡ flag_byte volatile.initializing }
    ensures permanent { (p : Plain) (volatile : Volatile) (value : ℕ) →
        value_told p volatile (query 0x01 5 2 0 0 0 value) ≡ flag_byte p.permanent }
    ensures power_on { (p : Plain) (volatile : Volatile) (value : ℕ) →
        value_told p volatile (query 0x01 5 3 0 0 0 value) ≡ flag_byte volatile.power_on }
    ensures set_power_on { (p : Plain) (volatile : Volatile) (value : ℕ) →
        value_told p (record volatile { power_on = true }) (query 0x81 6 3 0 0 0 value) ≡ 1 }
    ensures power_on_set { (n : Numbers) (is_mended : Bool) (volatile : Volatile) (value : ℕ) →
        volatile_after n is_mended volatile (query 0x81 6 3 0 0 0 value)
        ≡ record volatile { power_on = true; initializing = volatile.initializing && not is_mended } }
    ensures power_on_stays { (n : Numbers) (is_mended : Bool) (volatile : Volatile) (value : ℕ) →
        volatile_after n is_mended volatile (query 0x01 5 3 0 0 0 value)
        ≡ record volatile { initializing = volatile.initializing && not is_mended } }
    ensures attentions_stay { (n : Numbers) (is_mended : Bool) (volatile : Volatile) (q : Query) →
        (volatile_after n is_mended volatile q).attentions ≡ volatile.attentions }
    ensures sets_power_on { (value : ℕ) → sets_power_on (query 0x81 6 3 0 0 0 value) ≡ true }
    ensures reads_power_on { (value : ℕ) → sets_power_on (query 0x01 5 3 0 0 0 value) ≡ false }
    ensures no_command { (value : ℕ) → setting_of (query 0x81 6 3 0 0 0 value) ≡ None }
    ensures cut { (n : Numbers) (value : ℕ) →
        descriptor_told n (query 0x01 1 0 0 0 3 value) ≡ 0x40 ∷ 0 ∷ 0 ∷ [] }
    ensures whole { (value : ℕ) →
        descriptor_told boot_row (query 0x01 1 2 1 0 0xFF value)
        ≡ descriptor boot_row (record { opcode = 1; idn = 2; index = 1; selector = 0 }) }
    ensures no_data { (n : Numbers) (size value : ℕ) →
        descriptor_told n (query 0x01 3 0 0 0 size value) ≡ [] }
{}

/// fDeviceInit reads 1 from when it is set on a device of profile 1 until the device is mended, whatever calls come
/// between, and 0 from then on (JESD220, 14.2). On a device of profile 0 it always reads 0.
pub fn a_device_initializes_until_it_is_mended()
    // Before the device is mended.
    ensures set { (n : Numbers) (volatile : Volatile) (value : ℕ) → 0 < n.profile →
        (volatile_after n false volatile (query 0x81 6 1 0 0 0 value)).initializing ≡ true }
    ensures set_tells { (n : Numbers) (p : Plain) (volatile : Volatile) (value : ℕ) → 0 < n.profile →
        value_told p (volatile_after n false volatile (query 0x81 6 1 0 0 0 value)) (query 0x81 6 1 0 0 0 value) ≡ 1 }
    ensures read { (n : Numbers) (p : Plain) (volatile : Volatile) (value : ℕ) → volatile.initializing ≡ true →
        value_told p (volatile_after n false volatile (query 0x01 5 1 0 0 0 value)) (query 0x01 5 1 0 0 0 value) ≡ 1 }
    ensures stays { (s : State) (call : Call) (answer : Answer) → IsNoLinkEvent call → mended s ≡ false →
        s.volatile.initializing ≡ true →
        (observe s call answer).volatile.initializing ≡ true }
    // Once it is mended, also by the query that sets it.
    ensures read_mended { (n : Numbers) (p : Plain) (volatile : Volatile) (value : ℕ) →
        value_told p (volatile_after n true volatile (query 0x01 5 1 0 0 0 value)) (query 0x01 5 1 0 0 0 value) ≡ 0 }
    ensures set_mended { (n : Numbers) (p : Plain) (volatile : Volatile) (value : ℕ) →
        value_told p (volatile_after n true volatile (query 0x81 6 1 0 0 0 value)) (query 0x81 6 1 0 0 0 value) ≡ 0 }
    // From an opening to the end of a life in profile 0.
    ensures opened { (n : Numbers) (array : Array) (bad : Spot → Bool) (s : State) → IsOpened n array bad s →
        s.volatile.initializing ≡ false }
    ensures profile_0 { (s : State) (es : List Event) (os : List Output) (t : State) → (numbers_of s).profile ≡ 0 →
        s.volatile.initializing ≡ false → Life s es os t → t.volatile.initializing ≡ false }
    ensures profile_0_reads { (n : Numbers) (p : Plain) (is_mended : Bool) (volatile : Volatile) (value : ℕ) →
        n.profile ≡ 0 → volatile.initializing ≡ false →
        value_told p (volatile_after n is_mended volatile (query 0x01 5 1 0 0 0 value)) (query 0x01 5 1 0 0 0 value) ≡ 0 }
    ensures profile_0_sets { (n : Numbers) (p : Plain) (is_mended : Bool) (volatile : Volatile) (value : ℕ) →
        n.profile ≡ 0 → volatile.initializing ≡ false →
        value_told p (volatile_after n is_mended volatile (query 0x81 6 1 0 0 0 value)) (query 0x81 6 1 0 0 0 value) ≡ 0 }
{}

/// The device descriptor of three units, two of which boot; and the descriptor of unit 1, which is
/// the boot unit B (JESD220, 14.1.4). In profile 1 the descriptors of a unit that is not there and of the RPMB unit, strings
/// 1, 2, 4 and 5, what string 3 says, the interconnect, and the first bytes of the configuration and of the power parameters.
pub fn worked_descriptors()
    ensures device { descriptor boot_row (record { opcode = 1; idn = 0; index = 0; selector = 0 })
        ≡ (0x40 ∷ 0 ∷ 0 ∷ 0 ∷ 0 ∷ 0 ∷ 3 ∷ 4 ∷ 1 ∷ 1 ∷ 0 ∷ 0 ∷ 0 ∷ 1 ∷ 0 ∷ 0 ∷ 0x02 ∷ 0x10 ∷ [])
        ++ replicate 46 0 }
    ensures unit { descriptor boot_row (record { opcode = 1; idn = 2; index = 1; selector = 0 })
        ≡ (0x23 ∷ 2 ∷ 1 ∷ 1 ∷ 2 ∷ 0 ∷ 0 ∷ 0 ∷ 0 ∷ 1 ∷ 0x0C ∷ [])
        ++ (0 ∷ 0 ∷ 0 ∷ 0 ∷ 0 ∷ 0 ∷ 0 ∷ 0x40 ∷ 0 ∷ 0 ∷ 0 ∷ 1 ∷ 3 ∷ [])
        ++ (0 ∷ 0 ∷ 0 ∷ 0 ∷ 0 ∷ 0 ∷ 0 ∷ 0x40 ∷ 0 ∷ 0 ∷ 0 ∷ []) }
    ensures absent { descriptor boot_row (record { opcode = 1; idn = 2; index = 7; selector = 0 })
        ≡ (0x23 ∷ 2 ∷ 7 ∷ 0 ∷ 0 ∷ 0 ∷ 0 ∷ 0 ∷ 0 ∷ 1 ∷ 0x0C ∷ []) ++ replicate 11 0 ++ (1 ∷ 3 ∷ []) ++ replicate 11 0 }
    ensures rpmb { descriptor boot_row (record { opcode = 1; idn = 2; index = 0xC4; selector = 0 })
        ≡ (0x23 ∷ 2 ∷ 0xC4 ∷ 1 ∷ 0 ∷ 0 ∷ 1 ∷ 0 ∷ 0x0F ∷ 0 ∷ 8 ∷ []) ++ replicate 6 0 ++ (2 ∷ 0 ∷ [])
        ++ replicate 11 0 ++ (2 ∷ 0 ∷ 0 ∷ 0 ∷ 0 ∷ []) }
    ensures maker { descriptor boot_row (record { opcode = 1; idn = 5; index = 1; selector = 0 })
        ≡ 0x12 ∷ 5 ∷ 0 ∷ 0x50 ∷ 0 ∷ 0x52 ∷ 0 ∷ 0x4F ∷ 0 ∷ 0x46 ∷ 0 ∷ 0x49 ∷ 0 ∷ 0x4C ∷ 0 ∷ 0x45 ∷ 0 ∷ 0x20 ∷ [] }
    ensures product { descriptor boot_row (record { opcode = 1; idn = 5; index = 2; selector = 0 })
        ≡ (0x22 ∷ 5 ∷ 0 ∷ 0x55 ∷ 0 ∷ 0x46 ∷ 0 ∷ 0x53 ∷ 0 ∷ 0x20 ∷ 0 ∷ 0x50 ∷ 0 ∷ 0x52 ∷ 0 ∷ 0x4F ∷ 0 ∷ 0x46 ∷ [])
        ++ (0 ∷ 0x49 ∷ 0 ∷ 0x4C ∷ 0 ∷ 0x45 ∷ 0 ∷ 0x20 ∷ 0 ∷ 0x32 ∷ 0 ∷ 0x2E ∷ 0 ∷ 0x31 ∷ 0 ∷ 0x20 ∷ []) }
    ensures customer { (n : Numbers) → descriptor n (record { opcode = 1; idn = 5; index = 4; selector = 0 })
        ≡ descriptor n (record { opcode = 1; idn = 5; index = 1; selector = 0 }) }
    ensures serial_number { (n : Numbers) → string_of n 3 ≡ encode_lower (big_bytes 8 n.serial) }
    ensures revision { descriptor boot_row (record { opcode = 1; idn = 5; index = 5; selector = 0 })
        ≡ 0x0A ∷ 5 ∷ 0 ∷ 0x30 ∷ 0 ∷ 0x30 ∷ 0 ∷ 0x30 ∷ 0 ∷ 0x31 ∷ [] }
    ensures interconnect { descriptor boot_row (record { opcode = 1; idn = 4; index = 0; selector = 0 })
        ≡ 6 ∷ 4 ∷ 1 ∷ 0x60 ∷ 3 ∷ 0 ∷ [] }
    ensures configuration { take 48 (descriptor boot_row (record { opcode = 1; idn = 1; index = 0; selector = 0 }))
        ≡ (0x90 ∷ 1 ∷ 0 ∷ 1 ∷ 1 ∷ 1 ∷ 0x7F ∷ []) ++ replicate 9 0
        ++ (1 ∷ 0 ∷ 0 ∷ 0 ∷ 0 ∷ 0 ∷ 1 ∷ 0 ∷ 1 ∷ 0x0C ∷ 3 ∷ []) ++ replicate 5 0
        ++ (1 ∷ 2 ∷ 0 ∷ 0 ∷ 0 ∷ 0 ∷ 0 ∷ 0x40 ∷ 1 ∷ 0x0C ∷ 3 ∷ []) ++ replicate 5 0 }
    ensures lengths { (n : Numbers) →
        (length (descriptor n (record { opcode = 1; idn = 1; index = 0; selector = 0 })) ≡ 144)
        × (length (descriptor n (record { opcode = 1; idn = 8; index = 0; selector = 0 })) ≡ 98) }
{}
