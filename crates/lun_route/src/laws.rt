//! What holds of the definitions themselves. The functions do nothing: their contracts are laws.
ghost use Rattle.std.specs.Prelude.{◌≡◌, ◌∷◌, ◌++◌, [], ℕ, List, Option, Some, drop, filter, false, take, true};
ghost use Rattle.ufs_spec.specs.Configs.{numbers_of as numbers_named, with_profile};
ghost use Rattle.ufs_spec.specs.Counting.{below};
ghost use Rattle.ufs_spec.specs.Identities.{is_reported, long_capacity_bytes, modes_told, operations_told};
ghost use Rattle.ufs_spec.specs.Identities.{page_bytes, short_modes_told, unit_commands};
ghost use Rattle.ufs_spec.specs.Messages.{zeros};
ghost use Rattle.ufs_spec.specs.Refusals.{BootUnit, DeviceUnit, Lun, ReportLunsUnit, Request, RpmbUnit, State};
ghost use Rattle.ufs_spec.specs.Refusals.{UnitOf, lacks_unit, not_taken, numbers_of, plain_now, row_in, takes_row};
ghost use Rattle.ufs_spec.specs.Refusals.{unit_in};
ghost use Rattle.ufs_spec.specs.declared.Numbers.{Numbers};
ghost use Rattle.ufs_spec.specs.declared.Row.{Row};
ghost use Rattle.ufs_spec.specs.declared.operations.TheConstants.{COMMANDS};
ghost use Rattle.ufs_spec.specs.declared.UnitSpec.{UnitSpec};
ghost use Rattle.lun_route.specs.Routes.{actions_taken, codes_taken, lacks_unit_at, needs_unit, needs_unit_for};
ghost use Rattle.lun_route.specs.Routes.{not_taken_by, unit_at};

/// The lines of the table by which a command is refused that look at its LUN and its operation code. The
/// numbers, the boot setting and the row of the operation code decide whether a unit is lacking; the unit
/// and the row, whether the unit takes it; the boot setting, whose blocks are read or written.
pub fn routes_are_the_first_lines()
    ensures unit { (s : State) (r : Request) (lun : Option Lun) → lacks_unit s r lun
        ≡ lacks_unit_at (numbers_of s) (plain_now s).boot (row_in r) lun }
    ensures operation { (n : Numbers) (r : Request) (lun : Option Lun) →
        not_taken n r lun ≡ not_taken_by n (row_in r) lun }
    ensures blocks { (s : State) (r : Request) (lun : Option Lun) →
        unit_in s r lun ≡ unit_at (numbers_of s) (plain_now s).boot lun }
{}

/// All operation codes that each LUN takes, and no others: on a device of profile 0 and on one of profile
/// 1, whatever its other numbers. SERVICE ACTION IN(16) (9Eh) and MAINTENANCE IN (A3h) stand in none of
/// these lists, since their service actions decide.
pub fn each_lun_takes_its_commands()
    ensures unit { (n : Numbers) (serial : ℕ) (unit : ℕ) → codes_taken (with_profile n 0 serial) (UnitOf unit)
        ≡ 0x00 ∷ 0x03 ∷ 0x08 ∷ 0x0A ∷ 0x12 ∷ 0x25 ∷ 0x28 ∷ 0x2A ∷ 0x35 ∷ 0x42 ∷ 0xA0 ∷ [] }
    ensures report_luns { (n : Numbers) (serial : ℕ) → codes_taken (with_profile n 0 serial) ReportLunsUnit
        ≡ 0x00 ∷ 0x03 ∷ 0x12 ∷ 0xA0 ∷ [] }
    ensures boot { (n : Numbers) (serial : ℕ) → codes_taken (with_profile n 0 serial) BootUnit
        ≡ 0x00 ∷ 0x03 ∷ 0x08 ∷ 0x12 ∷ 0x25 ∷ 0x28 ∷ [] }
    ensures rpmb { (n : Numbers) (serial : ℕ) → codes_taken (with_profile n 0 serial) RpmbUnit
        ≡ 0x00 ∷ 0x03 ∷ 0x12 ∷ 0xA2 ∷ 0xB5 ∷ [] }
    ensures device { (n : Numbers) (serial : ℕ) → codes_taken (with_profile n 0 serial) DeviceUnit
        ≡ 0x00 ∷ 0x03 ∷ 0x12 ∷ 0x35 ∷ [] }
    // Profile 1 adds the longer forms, VERIFY, PRE-FETCH, SEND DIAGNOSTIC and MODE SENSE.
    ensures unit_of_more { (n : Numbers) (serial : ℕ) (unit : ℕ) → codes_taken (with_profile n 1 serial) (UnitOf unit)
        ≡ 0x00 ∷ 0x03 ∷ 0x08 ∷ 0x0A ∷ 0x12 ∷ 0x1A ∷ 0x1D ∷ 0x25 ∷ 0x28 ∷ 0x2A ∷ 0x2F
        ∷ 0x34 ∷ 0x35 ∷ 0x42 ∷ 0x5A ∷ 0x88 ∷ 0x8A ∷ 0x90 ∷ 0x91 ∷ 0xA0 ∷ [] }
    ensures report_luns_of_more { (n : Numbers) (serial : ℕ) → codes_taken (with_profile n 1 serial) ReportLunsUnit
        ≡ 0x00 ∷ 0x03 ∷ 0x12 ∷ 0xA0 ∷ [] }
    ensures boot_of_more { (n : Numbers) (serial : ℕ) → codes_taken (with_profile n 1 serial) BootUnit
        ≡ 0x00 ∷ 0x03 ∷ 0x08 ∷ 0x12 ∷ 0x25 ∷ 0x28 ∷ 0x88 ∷ [] }
    ensures rpmb_of_more { (n : Numbers) (serial : ℕ) → codes_taken (with_profile n 1 serial) RpmbUnit
        ≡ 0x00 ∷ 0x03 ∷ 0x12 ∷ 0xA2 ∷ 0xB5 ∷ [] }
    ensures device_of_more { (n : Numbers) (serial : ℕ) → codes_taken (with_profile n 1 serial) DeviceUnit
        ≡ 0x00 ∷ 0x03 ∷ 0x12 ∷ 0x1D ∷ 0x35 ∷ 0x91 ∷ [] }
{}

/// Of SERVICE ACTION IN(16) the LUNs with blocks take READ CAPACITY(16) (10h), and of MAINTENANCE IN the
/// units of the configuration REPORT SUPPORTED OPERATION CODES (0Ch), on a device of profile 1 alone.
pub fn each_lun_takes_its_actions()
    ensures none { (n : Numbers) (serial : ℕ) (lun : Lun) →
        actions_taken (with_profile n 0 serial) lun 0x9E ≡ [] }
    ensures unit { (n : Numbers) (serial unit : ℕ) →
        actions_taken (with_profile n 1 serial) (UnitOf unit) 0x9E ≡ 0x10 ∷ [] }
    ensures boot { (n : Numbers) (serial : ℕ) → actions_taken (with_profile n 1 serial) BootUnit 0x9E ≡ 0x10 ∷ [] }
    ensures report_luns { (n : Numbers) (serial : ℕ) →
        actions_taken (with_profile n 1 serial) ReportLunsUnit 0x9E ≡ [] }
    ensures rpmb { (n : Numbers) (serial : ℕ) → actions_taken (with_profile n 1 serial) RpmbUnit 0x9E ≡ [] }
    ensures device { (n : Numbers) (serial : ℕ) → actions_taken (with_profile n 1 serial) DeviceUnit 0x9E ≡ [] }
    ensures maintenance_none { (n : Numbers) (serial : ℕ) (lun : Lun) →
        actions_taken (with_profile n 0 serial) lun 0xA3 ≡ [] }
    ensures maintenance_unit { (n : Numbers) (serial unit : ℕ) →
        actions_taken (with_profile n 1 serial) (UnitOf unit) 0xA3 ≡ 0x0C ∷ [] }
    ensures maintenance_boot { (n : Numbers) (serial : ℕ) →
        actions_taken (with_profile n 1 serial) BootUnit 0xA3 ≡ [] }
    ensures maintenance_report_luns { (n : Numbers) (serial : ℕ) →
        actions_taken (with_profile n 1 serial) ReportLunsUnit 0xA3 ≡ [] }
    ensures maintenance_rpmb { (n : Numbers) (serial : ℕ) →
        actions_taken (with_profile n 1 serial) RpmbUnit 0xA3 ≡ [] }
    ensures maintenance_device { (n : Numbers) (serial : ℕ) →
        actions_taken (with_profile n 1 serial) DeviceUnit 0xA3 ≡ [] }
{}

/// What a unit tells of its commands is of those that it takes on a device of profile 1, and of no others.
pub fn units_tell_what_they_take()
    ensures { (n : Numbers) (serial unit : ℕ) →
        filter (λ (row : Row). takes_row (with_profile n 1 serial) (UnitOf unit) (Some row)) COMMANDS ≡ unit_commands }
{}

/// READ and READ CAPACITY need blocks that can be read, whatever their forms, and no other command does. On
/// a device of profile 0 the longer forms are no such commands.
pub fn reads_need_blocks()
    ensures codes { (n : Numbers) (serial : ℕ) →
        filter (needs_unit (with_profile n 0 serial)) (below 256) ≡ 0x08 ∷ 0x25 ∷ 0x28 ∷ [] }
    ensures codes_of_more { (n : Numbers) (serial : ℕ) →
        filter (needs_unit (with_profile n 1 serial)) (below 256) ≡ 0x08 ∷ 0x25 ∷ 0x28 ∷ 0x88 ∷ [] }
    ensures actions { (n : Numbers) (serial : ℕ) →
        filter (needs_unit_for (with_profile n 0 serial) 0x9E) (below 32) ≡ [] }
    ensures actions_of_more { (n : Numbers) (serial : ℕ) →
        filter (needs_unit_for (with_profile n 1 serial) 0x9E) (below 32) ≡ 0x10 ∷ [] }
{}

/// Pages of vital product data, as worked by hand (SPC; SBC for B0h to B2h).
#[tactic(auto, unfolding(hex::specs::Hex::encode_with))]
pub fn worked_pages()
    // Supported pages, of a unit and of the device as a whole.
    ensures supported { (n : Numbers) → page_bytes n 0 0x00
        ≡ 0x00 ∷ 0x00 ∷ 0x00 ∷ 0x07 ∷ 0x00 ∷ 0x80 ∷ 0x83 ∷ 0x87 ∷ 0xB0 ∷ 0xB1 ∷ 0xB2 ∷ [] }
    ensures supported_of_all { (n : Numbers) → page_bytes n 0xD0 0x00
        ≡ 0x1E ∷ 0x00 ∷ 0x00 ∷ 0x04 ∷ 0x00 ∷ 0x80 ∷ 0x83 ∷ 0x87 ∷ [] }
    // Serial number 1 in sixteen digits, and BEEF in lower case.
    ensures serial { (n : Numbers) → page_bytes (with_profile n 1 1) 0 0x80
        ≡ 0x00 ∷ 0x80 ∷ 0x00 ∷ 0x10 ∷ 0x30 ∷ 0x30 ∷ 0x30 ∷ 0x30 ∷ 0x30 ∷ 0x30 ∷ 0x30 ∷ 0x30 ∷ 0x30 ∷ 0x30 ∷ 0x30 ∷ 0x30
        ∷ 0x30 ∷ 0x30 ∷ 0x30 ∷ 0x31 ∷ [] }
    ensures serial_with_letters { (n : Numbers) → page_bytes (with_profile n 1 0xBEEF000000000000) 0xC4 0x80
        ≡ 0x1E ∷ 0x80 ∷ 0x00 ∷ 0x10 ∷ 0x62 ∷ 0x65 ∷ 0x65 ∷ 0x66 ∷ 0x30 ∷ 0x30 ∷ 0x30 ∷ 0x30 ∷ 0x30 ∷ 0x30 ∷ 0x30 ∷ 0x30
        ∷ 0x30 ∷ 0x30 ∷ 0x30 ∷ 0x30 ∷ [] }
    // Unit 2 of serial number 1, and of one whose upper half is not told.
    ensures identification { (n : Numbers) → page_bytes (with_profile n 1 1) 2 0x83
        ≡ 0x00 ∷ 0x83 ∷ 0x00 ∷ 0x0C ∷ 0x01 ∷ 0x03 ∷ 0x00 ∷ 0x08 ∷ 0x30 ∷ 0x46 ∷ 0x53 ∷ 0x00 ∷ 0x00 ∷ 0x00 ∷ 0x01 ∷ 0x02
        ∷ [] }
    ensures identification_of_low_half { (n : Numbers) → page_bytes (with_profile n 1 0x0102030405060708) 0xD0 0x83
        ≡ 0x1E ∷ 0x83 ∷ 0x00 ∷ 0x0C ∷ 0x01 ∷ 0x03 ∷ 0x00 ∷ 0x08 ∷ 0x30 ∷ 0x46 ∷ 0x53 ∷ 0x05 ∷ 0x06 ∷ 0x07 ∷ 0x08 ∷ 0xD0
        ∷ [] }
    ensures mode_policy { (n : Numbers) → page_bytes n 0 0x87
        ≡ 0x00 ∷ 0x87 ∷ 0x00 ∷ 0x04 ∷ 0x3F ∷ 0xFF ∷ 0x00 ∷ 0x00 ∷ [] }
    ensures characteristics { (n : Numbers) → page_bytes n 0 0xB1
        ≡ (0x00 ∷ 0xB1 ∷ 0x00 ∷ 0x3C ∷ 0x00 ∷ 0x01 ∷ []) ++ zeros 58 }
    ensures provisioning { (n : Numbers) → page_bytes n 0 0xB2
        ≡ 0x00 ∷ 0xB2 ∷ 0x00 ∷ 0x04 ∷ 0x00 ∷ 0x84 ∷ 0x02 ∷ 0x00 ∷ [] }
    // Pages that a unit and the device as a whole do not have.
    ensures absent { (n : Numbers) → page_bytes n 0 0x86 ≡ [] }
    ensures absent_of_all { (n : Numbers) → page_bytes n 0xD0 0xB0 ≡ [] }
{}

/// The page of block limits as worked by hand, where a command has at most 32 blocks, and where it has 128
/// (SBC).
pub fn worked_limits()
    ensures short { (dies blocks pages spare : ℕ) (units : List UnitSpec) (rpmb : List ℕ) →
        page_bytes (numbers_named dies blocks pages units rpmb 64 spare) 0 0xB0
        ≡ (0x00 ∷ 0xB0 ∷ 0x00 ∷ 0x3C ∷ 0x00 ∷ 0x00 ∷ 0x00 ∷ 0x01 ∷ []) ++ zeros 3 ++ (0x20 ∷ []) ++ zeros 3
        ++ (0x20 ∷ []) ++ zeros 7 ++ (0x20 ∷ []) ++ zeros 3 ++ (0x01 ∷ []) ++ zeros 3
        ++ (0x01 ∷ 0x80 ∷ []) ++ zeros 31 }
    ensures long { (dies blocks pages spare : ℕ) (units : List UnitSpec) (rpmb : List ℕ) →
        page_bytes (numbers_named dies blocks pages units rpmb 256 spare) 0 0xB0
        ≡ (0x00 ∷ 0xB0 ∷ 0x00 ∷ 0x3C ∷ 0x00 ∷ 0x00 ∷ 0x00 ∷ 0x01 ∷ []) ++ zeros 3 ++ (0x80 ∷ []) ++ zeros 3
        ++ (0x80 ∷ []) ++ zeros 7 ++ (0x80 ∷ []) ++ zeros 3 ++ (0x01 ∷ []) ++ zeros 3
        ++ (0x01 ∷ 0x80 ∷ []) ++ zeros 31 }
{}

/// What MODE SENSE tells, as worked by hand (SPC, SBC).
pub fn worked_modes()
    // MODE SENSE(10) of page 08h, of a unit that takes writes and of one that takes none.
    ensures caching { modes_told 0x0800 false
        ≡ (0x00 ∷ 0x1A ∷ 0x00 ∷ 0x10 ∷ 0x00 ∷ 0x00 ∷ 0x00 ∷ 0x00 ∷ 0x08 ∷ 0x12 ∷ 0x04 ∷ []) ++ zeros 17 }
    ensures guarded { modes_told 0x0800 true
        ≡ (0x00 ∷ 0x1A ∷ 0x00 ∷ 0x90 ∷ 0x00 ∷ 0x00 ∷ 0x00 ∷ 0x00 ∷ 0x08 ∷ 0x12 ∷ 0x04 ∷ []) ++ zeros 17 }
    // All pages: current, at delivery, and what may be changed.
    ensures all { modes_told 0x3F00 false
        ≡ (0x00 ∷ 0x32 ∷ 0x00 ∷ 0x10 ∷ []) ++ zeros 4 ++ (0x01 ∷ 0x0A ∷ 0x80 ∷ []) ++ zeros 9
        ++ (0x08 ∷ 0x12 ∷ 0x04 ∷ []) ++ zeros 17
        ++ (0x0A ∷ 0x0A ∷ 0x00 ∷ 0x10 ∷ 0x00 ∷ 0x00 ∷ 0x00 ∷ 0x00 ∷ 0xFF ∷ 0xFF ∷ 0x00 ∷ 0x00 ∷ []) }
    ensures delivered { modes_told 0xBFFF false ≡ modes_told 0x3F00 false }
    ensures changeable { modes_told 0x7F00 false
        ≡ (0x00 ∷ 0x32 ∷ 0x00 ∷ 0x10 ∷ []) ++ zeros 4 ++ (0x01 ∷ 0x0A ∷ []) ++ zeros 10
        ++ (0x08 ∷ 0x12 ∷ []) ++ zeros 18 ++ (0x0A ∷ 0x0A ∷ []) ++ zeros 10 }
    // MODE SENSE(6), whose header has four bytes.
    ensures recovery { short_modes_told 0x0100 false
        ≡ (0x0F ∷ 0x00 ∷ 0x10 ∷ 0x00 ∷ 0x01 ∷ 0x0A ∷ 0x80 ∷ []) ++ zeros 9 }
    ensures control { short_modes_told 0x4A00 true
        ≡ (0x0F ∷ 0x00 ∷ 0x90 ∷ 0x00 ∷ 0x0A ∷ 0x0A ∷ []) ++ zeros 10 }
{}

/// What READ CAPACITY(16) tells of a unit of 256 blocks, as worked by hand (SBC).
pub fn worked_capacity()
    ensures { (boot protect : ℕ) → long_capacity_bytes (Some (record { blocks = 256; boot = boot; protect = protect }))
        ≡ zeros 7 ++ (0xFF ∷ 0x00 ∷ 0x00 ∷ 0x10 ∷ 0x00 ∷ 0x00 ∷ 0x00 ∷ 0xC0 ∷ []) ++ zeros 17 }
{}

/// What REPORT SUPPORTED OPERATION CODES tells, as worked by hand (SPC). Its selection is bytes 2 to 5 of the
/// CDB: RCTD and the reporting options, the operation code, and the service action.
pub fn worked_operations()
    // All commands: 176 bytes follow, eight for each of 22.
    ensures all { operations_told 0x00000000 ≡ (0x00 ∷ 0x00 ∷ 0x00 ∷ 0xB0 ∷ [])
        ++ (0x00 ∷ 0 ∷ 0 ∷ 0 ∷ 0 ∷ 0 ∷ 0 ∷ 6 ∷ []) ++ (0x03 ∷ 0 ∷ 0 ∷ 0 ∷ 0 ∷ 0 ∷ 0 ∷ 6 ∷ [])
        ++ (0x08 ∷ 0 ∷ 0 ∷ 0 ∷ 0 ∷ 0 ∷ 0 ∷ 6 ∷ []) ++ (0x0A ∷ 0 ∷ 0 ∷ 0 ∷ 0 ∷ 0 ∷ 0 ∷ 6 ∷ [])
        ++ (0x12 ∷ 0 ∷ 0 ∷ 0 ∷ 0 ∷ 0 ∷ 0 ∷ 6 ∷ []) ++ (0x1A ∷ 0 ∷ 0 ∷ 0 ∷ 0 ∷ 0 ∷ 0 ∷ 6 ∷ [])
        ++ (0x1D ∷ 0 ∷ 0 ∷ 0 ∷ 0 ∷ 0 ∷ 0 ∷ 6 ∷ []) ++ (0x25 ∷ 0 ∷ 0 ∷ 0 ∷ 0 ∷ 0 ∷ 0 ∷ 10 ∷ [])
        ++ (0x28 ∷ 0 ∷ 0 ∷ 0 ∷ 0 ∷ 0 ∷ 0 ∷ 10 ∷ []) ++ (0x2A ∷ 0 ∷ 0 ∷ 0 ∷ 0 ∷ 0 ∷ 0 ∷ 10 ∷ [])
        ++ (0x2F ∷ 0 ∷ 0 ∷ 0 ∷ 0 ∷ 0 ∷ 0 ∷ 10 ∷ []) ++ (0x34 ∷ 0 ∷ 0 ∷ 0 ∷ 0 ∷ 0 ∷ 0 ∷ 10 ∷ [])
        ++ (0x35 ∷ 0 ∷ 0 ∷ 0 ∷ 0 ∷ 0 ∷ 0 ∷ 10 ∷ []) ++ (0x42 ∷ 0 ∷ 0 ∷ 0 ∷ 0 ∷ 0 ∷ 0 ∷ 10 ∷ [])
        ++ (0x5A ∷ 0 ∷ 0 ∷ 0 ∷ 0 ∷ 0 ∷ 0 ∷ 10 ∷ []) ++ (0x88 ∷ 0 ∷ 0 ∷ 0 ∷ 0 ∷ 0 ∷ 0 ∷ 16 ∷ [])
        ++ (0x8A ∷ 0 ∷ 0 ∷ 0 ∷ 0 ∷ 0 ∷ 0 ∷ 16 ∷ []) ++ (0x90 ∷ 0 ∷ 0 ∷ 0 ∷ 0 ∷ 0 ∷ 0 ∷ 16 ∷ [])
        ++ (0x91 ∷ 0 ∷ 0 ∷ 0 ∷ 0 ∷ 0 ∷ 0 ∷ 16 ∷ []) ++ (0x9E ∷ 0 ∷ 0 ∷ 0x10 ∷ 0 ∷ 1 ∷ 0 ∷ 16 ∷ [])
        ++ (0xA0 ∷ 0 ∷ 0 ∷ 0 ∷ 0 ∷ 0 ∷ 0 ∷ 12 ∷ []) ++ (0xA3 ∷ 0 ∷ 0 ∷ 0x0C ∷ 0 ∷ 1 ∷ 0 ∷ 12 ∷ []) }
    // With RCTD each has twelve more, and CTDP: 440 bytes follow. The first, and the last two.
    ensures all_timed { take 24 (operations_told 0x80000000) ≡ (0x00 ∷ 0x00 ∷ 0x01 ∷ 0xB8 ∷ [])
        ++ (0x00 ∷ 0 ∷ 0 ∷ 0 ∷ 0 ∷ 2 ∷ 0 ∷ 6 ∷ 0x00 ∷ 0x0A ∷ []) ++ zeros 10 }
    ensures last_timed { drop 404 (operations_told 0x80000000)
        ≡ (0xA0 ∷ 0 ∷ 0 ∷ 0 ∷ 0 ∷ 2 ∷ 0 ∷ 12 ∷ 0x00 ∷ 0x0A ∷ []) ++ zeros 10
        ++ (0xA3 ∷ 0 ∷ 0 ∷ 0x0C ∷ 0 ∷ 3 ∷ 0 ∷ 12 ∷ 0x00 ∷ 0x0A ∷ []) ++ zeros 10 }
    // READ(10), of which DPO, FUA and the group number are looked at; VERIFY(10), of which DPO,
    // the lower bit of BYTCHK and the group number are; INQUIRY with EVPD and a page; UNMAP.
    ensures read { operations_told 0x01280000
        ≡ 0x00 ∷ 0x03 ∷ 0x00 ∷ 0x0A ∷ 0x28 ∷ 0x18 ∷ 0xFF ∷ 0xFF ∷ 0xFF ∷ 0xFF ∷ 0x1F ∷ 0xFF ∷ 0xFF ∷ 0x00 ∷ [] }
    ensures verify { operations_told 0x012F0000
        ≡ 0x00 ∷ 0x03 ∷ 0x00 ∷ 0x0A ∷ 0x2F ∷ 0x12 ∷ 0xFF ∷ 0xFF ∷ 0xFF ∷ 0xFF ∷ 0x1F ∷ 0xFF ∷ 0xFF ∷ 0x00 ∷ [] }
    ensures inquiry { operations_told 0x01120000
        ≡ 0x00 ∷ 0x03 ∷ 0x00 ∷ 0x06 ∷ 0x12 ∷ 0x01 ∷ 0xFF ∷ 0xFF ∷ 0xFF ∷ 0x00 ∷ [] }
    ensures unmap { operations_told 0x01420000
        ≡ 0x00 ∷ 0x03 ∷ 0x00 ∷ 0x0A ∷ 0x42 ∷ 0 ∷ 0 ∷ 0 ∷ 0 ∷ 0 ∷ 0 ∷ 0xFF ∷ 0xFF ∷ 0x00 ∷ [] }
    // Option 1 looks at no service action.
    ensures action_left { operations_told 0x01120001 ≡ operations_told 0x01120000 }
    // Of READ CAPACITY(16), and of this command itself, byte 1 is the service action; with RCTD.
    ensures capacity { operations_told 0x029E0010
        ≡ (0x00 ∷ 0x03 ∷ 0x00 ∷ 0x10 ∷ 0x9E ∷ 0x10 ∷ []) ++ zeros 8
        ++ (0xFF ∷ 0xFF ∷ 0xFF ∷ 0xFF ∷ 0x00 ∷ 0x00 ∷ []) }
    ensures itself { operations_told 0x82A3000C
        ≡ (0x00 ∷ 0x83 ∷ 0x00 ∷ 0x0C ∷ 0xA3 ∷ 0x0C ∷ 0x87 ∷ 0xFF ∷ 0xFF ∷ 0xFF ∷ 0xFF ∷ 0xFF ∷ 0xFF ∷ 0xFF ∷ 0x00 ∷ 0x00
        ∷ []) ++ (0x00 ∷ 0x0A ∷ []) ++ zeros 10 }
    // GET LBA STATUS, WRITE SAME(10) and SECURITY PROTOCOL IN, which no unit takes, are not there; with RCTD.
    ensures no_action { operations_told 0x029E0012 ≡ 0x00 ∷ 0x01 ∷ 0x00 ∷ 0x00 ∷ [] }
    ensures no_long_action { operations_told 0x029E0110 ≡ 0x00 ∷ 0x01 ∷ 0x00 ∷ 0x00 ∷ [] }
    ensures no_operation { operations_told 0x01410000 ≡ 0x00 ∷ 0x01 ∷ 0x00 ∷ 0x00 ∷ [] }
    ensures no_frames { operations_told 0x81A20000 ≡ (0x00 ∷ 0x81 ∷ 0x00 ∷ 0x00 ∷ 0x00 ∷ 0x0A ∷ []) ++ zeros 10 }
{}

/// Which selections are reported: READ(10) by its code alone, READ CAPACITY(16) and the command itself by
/// their service actions alone, also one that is not there; a code that is not there by itself; no option
/// above 2.
pub fn worked_selections()
    ensures all { is_reported 0x80FFFFFF ≡ true }
    ensures code { is_reported 0x01280000 ≡ true }
    ensures no_code { is_reported 0x01FF0000 ≡ true }
    ensures code_with_actions { is_reported 0x019E0000 ≡ false }
    ensures code_with_one_action { is_reported 0x01A3000C ≡ false }
    ensures action { is_reported 0x029E0010 ≡ true }
    ensures no_action { is_reported 0x82A30005 ≡ true }
    ensures action_of_none { is_reported 0x02280000 ≡ false }
    ensures action_of_no_code { is_reported 0x02FF0000 ≡ false }
    ensures third { is_reported 0x03280000 ≡ false }
    ensures seventh { is_reported 0x07000000 ≡ false }
{}
