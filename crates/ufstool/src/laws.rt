//! What holds of the definitions themselves. The functions do nothing: their contracts are laws.
ghost use Rattle.std.specs.Prelude.{◌≡◌, ◌<◌, ◌≤◌, ◌^◌, ◌&&◌, not, ℕ, IsTrue, List, length};
ghost use Rattle.ufs_bytes.specs.Fields.{field_at};
ghost use Rattle.ufs_spec.specs.Configs.{command_blocks};
ghost use Rattle.ufs_spec.specs.DataOuts.{has_list_header, is_wrong_descriptor};
ghost use Rattle.ufs_spec.specs.declared.configs.Numbers.{Numbers};
ghost use Rattle.scsi_cdb.specs.Lists.{list_read};
ghost use Rattle.scsi_cdb.specs.declared.unmap_list.UnmapList.TheVariants.{Descriptor};
ghost use Rattle.ufstool.specs.HostUnmaps.{unmap_list};
ghost use Rattle.ufstool.specs.UnmapLists.{is_right_field};

/// The list of an UNMAP that is written is read as what it was made of, if a command may have so
/// many blocks.
pub fn a_list_is_read_again()
    ensures { (n : Numbers) (address blocks : ℕ) → address < 2 ^ 64 → blocks ≤ command_blocks n →
        list_read n (unmap_list address blocks) ≡ Descriptor address blocks }
{}

/// An explanation says of a field that it is malformed exactly where a device refuses the list for
/// it: in a header the two lengths and four zeros, in a descriptor the count and four zeros. With
/// fewer than 256 slots a device refuses lower counts too.
pub fn a_list_is_refused_for_a_field()
    ensures header { (list : List ℕ) → has_list_header list
        ≡ (is_right_field (length list) 0 (field_at 2 0 list)
        && is_right_field (length list) 2 (field_at 2 2 list)
        && is_right_field (length list) 4 (field_at 4 4 list)) }
    ensures descriptor { (n : Numbers) (list : List ℕ) → 256 ≤ n.slots → not (is_wrong_descriptor n list)
        ≡ (is_right_field (length list) 16 (field_at 4 16 list)
        && is_right_field (length list) 20 (field_at 4 20 list)) }
    ensures address { (long value : ℕ) → IsTrue (is_right_field long 8 value) }
{}
