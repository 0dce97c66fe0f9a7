//! The tables of queries, of RPMB requests and of sense data.
ghost use Rattle.std.specs.Prelude.{◌≡◌, ◌⊎◌, ◌∷◌, ◌++◌, [], ℕ, Bool, true, false, List, Some, replicate};
ghost use Rattle.ufs_spec.specs.declared.Numbers.{Numbers};
ghost use Rattle.ufs_spec.specs.Cdbs.{fixed_sense};
ghost use Rattle.ufs_spec.specs.Commands.{Command};
ghost use Rattle.ufs_spec.specs.Exchanges.{Registers};
ghost use Rattle.ufs_spec.specs.Plain.{Plain};
ghost use Rattle.ufs_spec.specs.Descriptors.{unit_descriptor};
ghost use Rattle.ufs_spec.specs.Queries.{query_code};
ghost use Rattle.ufs_spec.specs.Frames.{Frame};
ghost use Rattle.ufs_spec.specs.Rpmb.{Region, Results, rpmb_outcome};

/// The descriptor of unit 1, of 64 blocks with boot number 1; setting fPermanentWPEn succeeds, again it is refused, and
/// clearing it always is; a boot setting of 3 is refused.
pub fn worked_queries()
    ensures unit { unit_descriptor 1 (record { blocks = 64; boot = 1; protect = 0 })
        ≡ (0x23 ∷ 2 ∷ 1 ∷ 1 ∷ 1 ∷ 0 ∷ 0 ∷ 0 ∷ 0 ∷ 1 ∷ 0x0C ∷ 0 ∷ 0 ∷ 0 ∷ 0 ∷ 0 ∷ 0 ∷ 0 ∷ 0x40 ∷ [])
        ++ (0 ∷ 0 ∷ 0 ∷ 1 ∷ 3 ∷ 0 ∷ 0 ∷ 0 ∷ 0 ∷ 0 ∷ 0 ∷ 0 ∷ 0x40 ∷ 0 ∷ 0 ∷ 0 ∷ []) }
    ensures set { (n : Numbers) (p : Plain) → p.permanent ≡ false → query_code n p true
        (record { function = 0x81; asked = record { opcode = 6; idn = 2; index = 0; selector = 0 }; length = 0; value = 0 }) ≡ 0x00 }
    ensures set_again { (n : Numbers) (p : Plain) → p.permanent ≡ true → query_code n p true
        (record { function = 0x81; asked = record { opcode = 6; idn = 2; index = 0; selector = 0 }; length = 0; value = 0 }) ≡ 0xF8 }
    ensures clear { (n : Numbers) (p : Plain) (may : Bool) → query_code n p may
        (record { function = 0x81; asked = record { opcode = 7; idn = 2; index = 0; selector = 0 }; length = 0; value = 0 }) ≡ 0xF7 }
    ensures boot { (n : Numbers) (p : Plain) (may : Bool) → query_code n p may
        (record { function = 0x81; asked = record { opcode = 4; idn = 0; index = 0; selector = 0 }; length = 0; value = 3 }) ≡ 0xFA }
{}

/// An RPMB request with a result other than 0 and 0080h accepts nothing.
pub fn failed_request_accepts_nothing()
    ensures { (number : ℕ) (region : Region) (r : Registers) (locked : Bool) (frames : List Frame) (result : ℕ)
        (c : Command) → rpmb_outcome number region r locked frames ≡ Results result (Some c) →
        (result ≡ 0) ⊎ (result ≡ 0x80) }
{}

/// The eighteen bytes of fixed sense data: 70h, the key in byte 2, 0Ah in byte 7, the code in byte 12 and its qualifier
/// in byte 13, of an invalid field in the CDB and of a unit that becomes ready.
pub fn worked_sense()
    ensures invalid_field { fixed_sense (record { key = 5; asc = 0x24; ascq = 0 })
        ≡ 0x70 ∷ 0 ∷ 5 ∷ 0 ∷ 0 ∷ 0 ∷ 0 ∷ 0x0A ∷ 0 ∷ 0 ∷ 0 ∷ 0 ∷ 0x24 ∷ 0 ∷ 0 ∷ 0 ∷ 0 ∷ 0 ∷ [] }
    ensures becoming_ready { fixed_sense (record { key = 2; asc = 4; ascq = 1 })
        ≡ 0x70 ∷ 0 ∷ 2 ∷ 0 ∷ 0 ∷ 0 ∷ 0 ∷ 0x0A ∷ 0 ∷ 0 ∷ 0 ∷ 0 ∷ 4 ∷ 1 ∷ 0 ∷ 0 ∷ 0 ∷ 0 ∷ [] }
{}
