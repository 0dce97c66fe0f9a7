//! Bytes that are put into a buffer of a C program.
ghost use Rattle.ufs_handle.specs.Buffers.{IsPut};

use crate::fault::Fault;

/// Puts the bytes into the front of the buffer, where they go into it.
///
/// # Errors
///
/// `Room` where the buffer is shorter than they are. It stays as it is then.
pub fn put_front(bytes: &[u8], into: &mut [u8]) -> Result<(), Fault>
    ensures { IsPut bytes.now result into.old into.new }
{
    if bytes.len() > into.len() {
        return Err(Fault::Room);
    }
    into[..bytes.len()].copy_from_slice(bytes);
    Ok(())
}
