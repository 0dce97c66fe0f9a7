//! What holds of the definitions themselves. The functions do nothing: their contracts are laws.
ghost use Rattle.std.specs.Prelude.{◌≡◌, ◌∷◌, ◌++◌, ◌*◌, [], ℕ, List, length, replicate, slice_index};
ghost use Rattle.std.specs.Prelude.{◌<◌, ◌≤◌, ◌^◌, true, false, Option, Some, None};
ghost use Rattle.byteorder.specs.Endian.{big_bytes};
ghost use Rattle.ufs_spec.specs.CdbFields.{row_of, spelled_cdb, kind_of, no_limit};
ghost use Rattle.ufs_spec.specs.Cdbs.{IsCdb, SpellsCdb, ToDevice, carried, cdb_bytes, direction_of};
ghost use Rattle.ufs_spec.specs.Cdbs.{fixed_sense, length_of, residual_of};
ghost use Rattle.ufs_spec.specs.Begins.{nothing_wrong};
ghost use Rattle.ufs_spec.specs.Refusals.{goes_beyond};
ghost use Rattle.ufs_spec.specs.declared.configs.Numbers.{Numbers};
ghost use Rattle.ufs_spec.specs.declared.scsi.TheConstants.Sense.{INVALID_FIELD};
ghost use Rattle.ufs_spec.specs.declared.Cdb.{Cdb};
ghost use Rattle.ufs_spec.specs.declared.Cdb.TheVariants.{Diagnose, Flush, Nothing, Prefetch, Read, SecurityIn, SecurityOut};
ghost use Rattle.ufs_spec.specs.declared.Cdb.TheVariants.{Tell, Unmap, Verify, Write};
ghost use Rattle.ufs_spec.specs.declared.Row.{Row};
ghost use Rattle.ufs_spec.specs.declared.operations.Told.TheVariants as told;
ghost use Rattle.scsi_cdb.specs.Lists.{list_read};
ghost use Rattle.scsi_cdb.specs.declared.unmap_list.UnmapList.TheVariants.{Descriptor, HeaderOnly};
ghost use Rattle.scsi_cdb.specs.declared.unmap_list.UnmapList.TheVariants.{Malformed};

/// No sixteen bytes spell two commands, and no two commands are written in the same bytes.
pub fn one_cdb()
    ensures spelled { (bytes : List ℕ) (first second : Cdb) → SpellsCdb first bytes → SpellsCdb second bytes →
        first ≡ second }
    ensures written { (first second : Cdb) → IsCdb first → IsCdb second →
        cdb_bytes first ≡ cdb_bytes second → first ≡ second }
{}

/// Each command that a host writes has sixteen bytes, and they spell it; its operation code has a row,
/// which is of its kind.
pub fn one_operation()
    ensures sixteen { (cdb : Cdb) → length (cdb_bytes cdb) ≡ 16 }
    ensures spelled { (cdb : Cdb) → IsCdb cdb → SpellsCdb cdb (cdb_bytes cdb) }
    ensures known { (bytes : List ℕ) (cdb : Cdb) → SpellsCdb cdb bytes →
        (row : Row) × (row_of bytes ≡ Some row) × (row.kind ≡ kind_of cdb) }
{}

/// What some bytes spell: a FUA write of one block at address FFh, reads of 33 blocks and of the last
/// address that ten bytes name, a read and a write of six bytes of 256 blocks, TEST UNIT READY, INQUIRY for
/// 36 bytes, REQUEST SENSE for 4, READ CAPACITY, SYNCHRONIZE CACHE with IMMED and without, UNMAP with a list
/// of 24 bytes, REPORT LUNS of all units for 64 bytes, one frame sent to RPMB region 0 and one asked of
/// region 3. The bytes of an invalid field in a CDB, and of nothing to tell.
pub fn worked_bytes()
    ensures write { SpellsCdb (Write 0xFF 1 true) (0x2A ∷ 8 ∷ 0 ∷ 0 ∷ 0 ∷ 0xFF ∷ 0 ∷ 0 ∷ 1 ∷ replicate 7 0) }
    ensures read { SpellsCdb (Read 0 33) (0x28 ∷ 0 ∷ 0 ∷ 0 ∷ 0 ∷ 0 ∷ 0 ∷ 0 ∷ 0x21 ∷ replicate 7 0) }
    ensures last { SpellsCdb (Read 0xFFFFFFFF 0xFFFF)
        (0x28 ∷ 8 ∷ replicate 4 0xFF ++ 0 ∷ 0xFF ∷ 0xFF ∷ replicate 7 0) }
    ensures read_6 { SpellsCdb (Read 0x1F0203 256) (0x08 ∷ 0x1F ∷ 2 ∷ 3 ∷ replicate 12 0) }
    ensures write_6 { SpellsCdb (Write 0x10203 5 false) (0x0A ∷ 1 ∷ 2 ∷ 3 ∷ 5 ∷ replicate 11 0) }
    ensures ready { SpellsCdb Nothing (replicate 16 0) }
    ensures inquiry { SpellsCdb (Tell told.Identity 0 36) (0x12 ∷ 0 ∷ 0 ∷ 0 ∷ 0x24 ∷ replicate 11 0) }
    ensures request { SpellsCdb (Tell told.Sense 0 4) (3 ∷ 0 ∷ 0 ∷ 0 ∷ 4 ∷ replicate 11 0) }
    ensures capacity { SpellsCdb (Tell told.Capacity 0 no_limit) (0x25 ∷ replicate 15 0) }
    ensures synchronize { SpellsCdb (Flush true) (0x35 ∷ 2 ∷ replicate 14 0) }
    ensures flush { SpellsCdb (Flush false) (0x35 ∷ 0 ∷ 0 ∷ 0 ∷ 0 ∷ 9 ∷ 0 ∷ 0 ∷ 1 ∷ replicate 7 0) }
    ensures unmap { SpellsCdb (Unmap 24) (0x42 ∷ 0 ∷ 0 ∷ 0 ∷ 0 ∷ 0 ∷ 0 ∷ 0 ∷ 0x18 ∷ replicate 7 0) }
    ensures list { SpellsCdb (Tell told.Units 2 64)
        (0xA0 ∷ 0 ∷ 2 ∷ 0 ∷ 0 ∷ 0 ∷ 0 ∷ 0 ∷ 0 ∷ 0x40 ∷ replicate 6 0) }
    ensures frame_out { SpellsCdb (SecurityOut 0 512)
        (0xB5 ∷ 0xEC ∷ 0 ∷ 1 ∷ 0 ∷ 0 ∷ 0 ∷ 0 ∷ 2 ∷ replicate 7 0) }
    ensures frame_in { SpellsCdb (SecurityIn 3 512)
        (0xA2 ∷ 0xEC ∷ 3 ∷ 1 ∷ 0 ∷ 0 ∷ 0 ∷ 0 ∷ 2 ∷ replicate 7 0) }
    ensures sense { fixed_sense INVALID_FIELD
        ≡ 0x70 ∷ 0 ∷ 5 ∷ 0 ∷ 0 ∷ 0 ∷ 0 ∷ 0x0A ∷ 0 ∷ 0 ∷ 0 ∷ 0 ∷ 0x24 ∷ replicate 5 0 }
    ensures nothing { fixed_sense nothing_wrong ≡ 0x70 ∷ 0 ∷ 0 ∷ 0 ∷ 0 ∷ 0 ∷ 0 ∷ 0x0A ∷ replicate 10 0 }
    // FUA stands in no WRITE(6), and IMMED in no WRITE(10); a bit of FUA is not one of IMMED; the byte behind a
    // READ(10) is zero; READ CAPACITY has no fields.
    ensures no_force { spelled_cdb (0x0A ∷ 0x28 ∷ replicate 14 0) ≡ None }
    ensures no_immediate { spelled_cdb (0x2A ∷ 2 ∷ replicate 14 0) ≡ None }
    ensures no_other_bit { spelled_cdb (0x35 ∷ 8 ∷ replicate 14 0) ≡ None }
    ensures no_byte { spelled_cdb (0x28 ∷ replicate 14 0 ++ 1 ∷ []) ≡ None }
    ensures no_field { spelled_cdb (0x25 ∷ 0 ∷ 1 ∷ replicate 13 0) ≡ None }
    // REPORT LUNS has no field in byte 1, and no fourth selection; FORMAT UNIT is none of the table.
    ensures no_protocol { spelled_cdb (0xA0 ∷ 1 ∷ 2 ∷ replicate 13 0) ≡ None }
    ensures no_selection { spelled_cdb (0xA0 ∷ 0 ∷ 3 ∷ replicate 13 0) ≡ None }
    ensures no_operation { spelled_cdb (0x04 ∷ replicate 15 0) ≡ None }
{}

/// What some bytes spell that profile 1 alone takes: READ CAPACITY(16) for 32 bytes; MODE SENSE(10) of
/// page 08h for 28 bytes, with DBD, and (6) of all pages and subpages for 255; INQUIRY of page B0h for
/// 64; READ(16) of a block whose address has 64 bits, with FUA and DPO in group 10h; WRITE(16) with FUA;
/// SYNCHRONIZE CACHE(16) with IMMED; VERIFY of two blocks, with BYTCHK 00 and 01; PRE-FETCH of 512
/// blocks, in both forms; SEND DIAGNOSTIC with SELFTEST and PF; REPORT SUPPORTED OPERATION CODES of READ
/// CAPACITY(16) with RCTD for 64.
pub fn worked_bytes_of_profile_1()
    ensures capacity { SpellsCdb (Tell told.LongCapacity 0 32)
        (0x9E ∷ 0x10 ∷ replicate 8 0 ++ (0 ∷ 0 ∷ 0 ∷ 0x20 ∷ 0 ∷ 0 ∷ [])) }
    ensures modes { SpellsCdb (Tell told.Modes 0x0800 28)
        (0x5A ∷ 8 ∷ 8 ∷ 0 ∷ 0 ∷ 0 ∷ 0 ∷ 0 ∷ 0x1C ∷ replicate 7 0) }
    ensures short_modes { SpellsCdb (Tell told.ShortModes 0x3FFF 255)
        (0x1A ∷ 0 ∷ 0x3F ∷ 0xFF ∷ 0xFF ∷ replicate 11 0) }
    ensures page { SpellsCdb (Tell told.Page 0xB0 64) (0x12 ∷ 1 ∷ 0xB0 ∷ 0 ∷ 0x40 ∷ replicate 11 0) }
    ensures read_16 { SpellsCdb (Read 0x0102030405060708 1)
        (0x88 ∷ 0x18 ∷ 1 ∷ 2 ∷ 3 ∷ 4 ∷ 5 ∷ 6 ∷ 7 ∷ 8 ∷ 0 ∷ 0 ∷ 0 ∷ 1 ∷ 0x10 ∷ 0 ∷ []) }
    ensures write_16 { SpellsCdb (Write 9 2 true)
        (0x8A ∷ 8 ∷ replicate 7 0 ++ (9 ∷ 0 ∷ 0 ∷ 0 ∷ 2 ∷ 0 ∷ 0 ∷ [])) }
    ensures flush_16 { SpellsCdb (Flush true) (0x91 ∷ 2 ∷ replicate 14 0) }
    ensures verify { SpellsCdb (Verify 5 2 false)
        (0x2F ∷ 0x10 ∷ 0 ∷ 0 ∷ 0 ∷ 5 ∷ 0x10 ∷ 0 ∷ 2 ∷ replicate 7 0) }
    ensures compare { SpellsCdb (Verify 5 2 true) (0x2F ∷ 2 ∷ 0 ∷ 0 ∷ 0 ∷ 5 ∷ 0 ∷ 0 ∷ 2 ∷ replicate 7 0) }
    ensures prefetch { SpellsCdb (Prefetch 5 512) (0x34 ∷ 2 ∷ 0 ∷ 0 ∷ 0 ∷ 5 ∷ 0 ∷ 2 ∷ 0 ∷ replicate 7 0) }
    ensures prefetch_16 { SpellsCdb (Prefetch 5 512)
        (0x90 ∷ 0 ∷ replicate 7 0 ++ (5 ∷ 0 ∷ 0 ∷ 2 ∷ 0 ∷ 0 ∷ 0 ∷ [])) }
    ensures diagnostic { SpellsCdb (Diagnose true) (0x1D ∷ 0x14 ∷ replicate 14 0) }
    ensures operations { SpellsCdb (Tell told.Operations 0x829E0010 64)
        (0xA3 ∷ 0x0C ∷ 0x82 ∷ 0x9E ∷ 0 ∷ 0x10 ∷ 0 ∷ 0 ∷ 0 ∷ 0x40 ∷ replicate 6 0) }
    // Another service action, another mode page, a subpage of one page, and a group above 10h are none.
    ensures no_action { spelled_cdb (0x9E ∷ 0x12 ∷ replicate 14 0) ≡ None }
    ensures no_mode_page { spelled_cdb (0x5A ∷ 0 ∷ 0x1C ∷ replicate 13 0) ≡ None }
    ensures no_subpage { spelled_cdb (0x5A ∷ 0 ∷ 0x08 ∷ 0x01 ∷ replicate 12 0) ≡ None }
    ensures no_group { spelled_cdb (0x28 ∷ 0 ∷ 0 ∷ 0 ∷ 0 ∷ 0 ∷ 0x11 ∷ replicate 9 0) ≡ None }
    ensures no_length { spelled_cdb (0x1D ∷ 4 ∷ 0 ∷ 0 ∷ 1 ∷ replicate 11 0) ≡ None }
    // Another service action of MAINTENANCE IN, a reserved bit beside the reporting options, and one behind the
    // allocation length are none.
    ensures no_maintenance { spelled_cdb (0xA3 ∷ 0x0A ∷ replicate 14 0) ≡ None }
    ensures no_reporting { spelled_cdb (0xA3 ∷ 0x0C ∷ 0x08 ∷ replicate 13 0) ≡ None }
    ensures no_control { spelled_cdb (0xA3 ∷ 0x0C ∷ replicate 9 0 ++ 1 ∷ replicate 4 0) ≡ None }
{}

/// DPO, a group number, EVPD and a page are what profile 0 does not take of commands that it has; FUA
/// and IMMED it takes.
pub fn profile_0_takes_fewer_bits()
    ensures pushed_out { goes_beyond (0x28 ∷ 0x10 ∷ replicate 14 0) (row_of (0x28 ∷ [])) ≡ true }
    ensures group { goes_beyond (0x2A ∷ 0 ∷ 0 ∷ 0 ∷ 0 ∷ 0 ∷ 1 ∷ replicate 9 0) (row_of (0x2A ∷ [])) ≡ true }
    ensures page { goes_beyond (0x12 ∷ 1 ∷ replicate 14 0) (row_of (0x12 ∷ [])) ≡ true }
    ensures page_code { goes_beyond (0x12 ∷ 0 ∷ 0x80 ∷ replicate 13 0) (row_of (0x12 ∷ [])) ≡ true }
    ensures forced { goes_beyond (0x2A ∷ 8 ∷ replicate 14 0) (row_of (0x2A ∷ [])) ≡ false }
    ensures immediate { goes_beyond (0x35 ∷ 2 ∷ replicate 14 0) (row_of (0x35 ∷ [])) ≡ false }
{}

/// A command may name each of four RPMB regions, and no other one. Bytes 1 to 3 say which: the protocol
/// ECh, its number and 01h.
pub fn four_regions()
    ensures each { (region length : ℕ) → region < 4 → length < 2 ^ 32 →
        SpellsCdb (SecurityIn region length)
        (0xA2 ∷ 0xEC ∷ region ∷ 1 ∷ 0 ∷ 0 ∷ big_bytes 4 length ++ replicate 6 0)
        × SpellsCdb (SecurityOut region length)
        (0xB5 ∷ 0xEC ∷ region ∷ 1 ∷ 0 ∷ 0 ∷ big_bytes 4 length ++ replicate 6 0) }
    ensures no_other { (bytes : List ℕ) (region length : ℕ) → 4 ≤ region →
        (SpellsCdb (SecurityIn region length) bytes → ⊥) × (SpellsCdb (SecurityOut region length) bytes → ⊥) }
    ensures no_protocol { spelled_cdb (0xA2 ∷ 0xED ∷ 0 ∷ 1 ∷ 0 ∷ 0 ∷ 0 ∷ 0 ∷ 2 ∷ replicate 7 0) ≡ None }
    ensures no_specific { spelled_cdb (0xB5 ∷ 0xEC ∷ 0 ∷ 2 ∷ 0 ∷ 0 ∷ 0 ∷ 0 ∷ 2 ∷ replicate 7 0) ≡ None }
{}

/// Some lengths and residuals: READ of 256 blocks; INQUIRY for 64 bytes, which has
/// 36; REPORT LUNS for 64, where there are 32; REQUEST SENSE for 4; UNMAP
/// with a list of 24 bytes, which the host sends; PRE-FETCH of 512 blocks, which has none; two blocks
/// of which nothing was carried; a block of which 512 bytes were expected.
pub fn worked_residuals()
    ensures blocks { length_of 0 (Read 0 256) ≡ 256 * 4096 }
    ensures inquiry { length_of 36 (Tell told.Identity 0 64) ≡ 36 }
    ensures list { length_of 32 (Tell told.Units 0 64) ≡ 32 }
    ensures request { length_of 18 (Tell told.Sense 0 4) ≡ 4 }
    ensures prefetch { length_of 0 (Prefetch 0 512) ≡ 0 }
    ensures verify { length_of 0 (Verify 0 2 false) ≡ 0 }
    ensures compare { length_of 0 (Verify 0 2 true) ≡ 8192 }
    ensures compare_direction { direction_of (Verify 0 2 true) ≡ ToDevice }
    ensures unmap { length_of 0 (Unmap 24) ≡ 24 }
    ensures direction { direction_of (Unmap 24) ≡ ToDevice }
    ensures nothing { residual_of 8192 0 ≡ record { flags = 0x20; count = 8192 } }
    ensures cut { residual_of 512 4096 ≡ record { flags = 0x40; count = 3584 } }
    ensures carried { carried 512 4096 ≡ 512 }
    ensures whole { residual_of 4096 4096 ≡ record { flags = 0x00; count = 0 } }
{}

/// Some lists of UNMAP: two blocks from address 5 on; a header alone; a header that counts its
/// first two bytes; 129 blocks, and 33 where there are fewer than 256 slots; a last byte that is not zero.
pub fn worked_lists()
    ensures blocks { (n : Numbers) → list_read n ((0 ∷ 0x16 ∷ 0 ∷ 0x10 ∷ replicate 11 0)
        ++ (5 ∷ 0 ∷ 0 ∷ 0 ∷ 2 ∷ replicate 4 0)) ≡ Descriptor 5 2 }
    ensures header { (n : Numbers) → list_read n (0 ∷ 6 ∷ replicate 6 0) ≡ HeaderOnly }
    ensures length { (n : Numbers) → list_read n (0 ∷ 8 ∷ replicate 6 0) ≡ Malformed }
    ensures many { (n : Numbers) → list_read n ((0 ∷ 0x16 ∷ 0 ∷ 0x10 ∷ replicate 11 0)
        ++ (5 ∷ 0 ∷ 0 ∷ 0 ∷ 129 ∷ replicate 4 0)) ≡ Malformed }
    ensures many_of_few_slots { (n : Numbers) → n.slots < 256 →
        list_read n ((0 ∷ 0x16 ∷ 0 ∷ 0x10 ∷ replicate 11 0)
        ++ (5 ∷ 0 ∷ 0 ∷ 0 ∷ 33 ∷ replicate 4 0)) ≡ Malformed }
    ensures last { (n : Numbers) → list_read n ((0 ∷ 0x16 ∷ 0 ∷ 0x10 ∷ replicate 11 0)
        ++ (5 ∷ 0 ∷ 0 ∷ 0 ∷ 2 ∷ 0 ∷ 0 ∷ 0 ∷ 1 ∷ [])) ≡ Malformed }
{}
