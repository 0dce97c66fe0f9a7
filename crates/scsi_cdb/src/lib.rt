//! Reads the commands of a host from the sixteen bytes of a CDB, reads UNMAP's parameter list, and
//! writes sense data (SPC, SBC).
#![tactic(auto)]

ghost use Rattle.std.specs.Prelude.{◌≡◌, IfOk, IfErr, None, Some};
ghost use Rattle.ufs_spec.specs.Cdbs.{fixed_sense, IsKnownOperation, SpellsCdb};
ghost use Rattle.ufs_spec.specs.CdbFields.{row_of};
ghost use Rattle.ufs_spec.specs.declared.Cdb.{Cdb};

pub use demands::{address_of, blocks_brought, blocks_meant, blocks_of, brought, length_of};
pub use laws::{
    four_regions, one_cdb, one_operation, profile_0_takes_fewer_bits, worked_bytes,
    worked_bytes_of_profile_1, worked_lists, worked_residuals,
};
pub use rows::{goes_beyond, row_of, spelled, usage};
pub use spelling::{bytes_of, ten_bytes_of};
use ufs_spec::{Cdb, Sense};
pub use unmap_list::{UnmapList, read_unmap_list};

mod demands;
mod laws;
mod rows;
mod spelling;
mod unmap_list;

/// Reads a CDB.
///
/// # Errors
///
/// [`Sense::INVALID_OPCODE`] where the operation code in byte 0 is not one of the table, else
/// [`Sense::INVALID_FIELD`] where a byte or a bit that no field names is not zero, or a field has a
/// value that the table does not know.
pub fn read(bytes: &[u8; 16]) -> Result<Cdb, Sense>
    // What is read is spelled so, each byte of it.
    ensures read { IfOk result (λ cdb. SpellsCdb cdb bytes.now) }
    // What is spelled so is read.
    ensures every { (cdb : Cdb) → SpellsCdb cdb bytes.now → result ≡ Ok cdb }
    ensures operation { row_of bytes.now ≡ None → result ≡ Err Sense.INVALID_OPCODE }
    ensures field { IfErr result (λ sense. IsKnownOperation bytes.now →
        (sense ≡ Sense.INVALID_FIELD) × ((cdb : Cdb) → SpellsCdb cdb bytes.now → ⊥)) }
{
    let row = row_of(bytes).ok_or(Sense::INVALID_OPCODE)?;
    spelled(&row, bytes).ok_or(Sense::INVALID_FIELD)
}

/// The eighteen bytes of fixed sense data (SPC, fixed format sense data).
pub fn sense_bytes(sense: &Sense) -> [u8; 18]
    ensures { result ≡ fixed_sense sense.now }
{
    let mut bytes = [0; 18];
    bytes[0] = 0x70;
    bytes[2] = sense.key;
    bytes[7] = 0x0A;
    bytes[12] = sense.asc;
    bytes[13] = sense.ascq;
    bytes
}
