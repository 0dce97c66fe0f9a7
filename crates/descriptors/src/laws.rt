//! What holds of the definitions themselves. Each function does nothing: its contract is a law.
ghost use Rattle.std.specs.Prelude.{◌≡◌, ◌∷◌, ◌++◌, ◌==◌, ◌&&◌, [], ℕ, Bool, not, replicate};
ghost use Rattle.ufs_spec.specs.Configs.{with_profile};
ghost use Rattle.ufs_spec.specs.Plain.{Plain};
ghost use Rattle.ufs_spec.specs.Descriptors.{device_descriptor};
ghost use Rattle.ufs_spec.specs.Queries.{Query, descriptor_told};
ghost use Rattle.ufs_spec.specs.Descriptors.{geometry_descriptor};
ghost use Rattle.ufs_spec.specs.Queries.{query_code};
ghost use Rattle.ufs_spec.specs.declared.Numbers.{Numbers};
ghost use Rattle.ufs_spec.specs.QueryAnswers.{query_answered};
ghost use Rattle.ufs_spec.specs.Refusals.{State, mended, numbers_of, plain_now};
ghost use Rattle.descriptors.specs.Answers.{Says, code_of, succeeds};
ghost use Rattle.descriptors.specs.Rows.{query, row, row_without_boot};
ghost use Rattle.descriptors.specs.States.{answered_by};
ghost use Rattle.descriptors.specs.declared.answers.QueryAnswer.{QueryAnswer};

/// An answer with the right response code, which says what it has to, decides what the query makes
/// of the state.
pub fn answers_decide_the_state()
    ensures { (s : State) (tag code : ℕ) (q : Query) (answer : QueryAnswer) →
        code_of answer ≡ code →
        succeeds answer ≡ (code == 0x00) && not (q.asked.opcode == 0) →
        Says (plain_now s) (numbers_of s) (mended s) s.volatile q answer →
        query_answered s tag q code ≡ answered_by s tag q answer }
{}

/// The device descriptor of three units, two of which boot, in both profiles; and in profile 1 that of one
/// unit, which does not boot (JESD220, 14.1.4.2). The serial number is not told in it.
pub fn profile_1_tells_more_of_the_device()
    ensures profile_0 { (serial : ℕ) → device_descriptor (row 0 serial)
        ≡ (0x40 ∷ 0 ∷ 0 ∷ 0 ∷ 0 ∷ 0 ∷ 3 ∷ 4 ∷ 1 ∷ 1 ∷ 0 ∷ 0 ∷ 0 ∷ 1 ∷ 0 ∷ 0 ∷ 0x02 ∷ 0x10 ∷ [])
        ++ replicate 46 0 }
    ensures profile_1 { (serial : ℕ) → device_descriptor (row 1 serial)
        ≡ (0x40 ∷ 0 ∷ 0 ∷ 0 ∷ 0 ∷ 0 ∷ 0x03 ∷ 0x04 ∷ 0x01 ∷ 0x01 ∷ 0x01 ∷ 0x7F ∷ 0x00 ∷ 0x01 ∷ [])
        ++ (0x01 ∷ 0x00 ∷ 0x02 ∷ 0x10 ∷ 0x11 ∷ 0x25 ∷ 0x01 ∷ 0x02 ∷ 0x03 ∷ 0x04 ∷ 0x00 ∷ 0x00 ∷ [])
        ++ (0x10 ∷ 0x10 ∷ 0x20 ∷ 0 ∷ 0 ∷ 0 ∷ 0 ∷ 0x20 ∷ 0x00 ∷ 0x01 ∷ []) ++ replicate 6 0
        ++ 0x05 ∷ replicate 21 0 }
    ensures no_boot_unit { (serial : ℕ) → device_descriptor (row_without_boot 1 serial)
        ≡ (0x40 ∷ 0 ∷ 0 ∷ 0 ∷ 0x01 ∷ 0 ∷ 0x01 ∷ 0x04 ∷ 0x00 ∷ 0x01 ∷ 0x01 ∷ 0x7F ∷ 0x00 ∷ 0x01 ∷ [])
        ++ (0x01 ∷ 0x00 ∷ 0x02 ∷ 0x10 ∷ 0x11 ∷ 0x25 ∷ 0x01 ∷ 0x02 ∷ 0x03 ∷ 0x04 ∷ 0x00 ∷ 0x00 ∷ [])
        ++ (0x10 ∷ 0x10 ∷ 0x20 ∷ 0 ∷ 0 ∷ 0 ∷ 0 ∷ 0x20 ∷ 0x00 ∷ 0x01 ∷ []) ++ replicate 6 0
        ++ 0x05 ∷ replicate 21 0 }
{}

/// The geometry descriptor of the same three units, whose 384 blocks are 3072 (0C00h) times 512 bytes
/// (JESD220, 14.1.4.4).
pub fn worked_geometry()
    ensures { (serial : ℕ) → geometry_descriptor (row 1 serial)
        ≡ (0x48 ∷ 0x07 ∷ []) ++ replicate 8 0
        ++ (0x0C ∷ 0x00 ∷ 0x00 ∷ 0x00 ∷ 0x00 ∷ 0x00 ∷ 0x08 ∷ 0x01 ∷ 0x08 ∷ 0x08 ∷ 0x08 ∷ 0x08 ∷ 0x08 ∷ [])
        ++ (0x08 ∷ 0x00 ∷ 0x00 ∷ 0x05 ∷ 0x00 ∷ 0x00 ∷ 0x01 ∷ 0x80 ∷ 0x01 ∷ []) ++ replicate 40 0 }
{}

/// The geometry descriptor is read in profile 1 alone. It has no index but 0, it is not written, and no
/// flag has its IDN (JESD220, 10.7.8).
pub fn profile_1_reads_the_geometry()
    ensures refused_in_profile_0 { (n : Numbers) (p : Plain) (may : Bool) →
        (serial index size value : ℕ) →
        query_code (with_profile n 0 serial) p may (query 0x01 1 7 index size value) ≡ 0xFD }
    ensures read { (n : Numbers) (p : Plain) (may : Bool) (serial value : ℕ) →
        query_code (with_profile n 1 serial) p may (query 0x01 1 7 0 72 value) ≡ 0x00 }
    ensures told { (n : Numbers) (value : ℕ) →
        descriptor_told n (query 0x01 1 7 0 72 value) ≡ geometry_descriptor n }
    ensures told_in_part { (n : Numbers) (value : ℕ) →
        descriptor_told n (query 0x01 1 7 0 3 value) ≡ 0x48 ∷ 0x07 ∷ 0 ∷ [] }
    ensures index { (n : Numbers) (p : Plain) (may : Bool) (serial size value : ℕ) →
        query_code (with_profile n 1 serial) p may (query 0x01 1 7 1 size value) ≡ 0xFC }
    ensures written { (n : Numbers) (p : Plain) (may : Bool) (serial size value : ℕ) →
        query_code (with_profile n 1 serial) p may (query 0x81 2 7 0 size value) ≡ 0xF7 }
    ensures no_flag { (n : Numbers) (p : Plain) (may : Bool) (serial size value : ℕ) →
        query_code (with_profile n 1 serial) p may (query 0x01 5 7 0 size value) ≡ 0xFD }
{}
