//! Facts that a caller's proof needs: each function here does nothing, and its contract says the fact.
ghost use Rattle.std.specs.Prelude.{◌<◌, ◌^◌, length};

/// What lies in memory is shorter than half of it.
pub(crate) fn is_in_memory(bytes: &[u8])
    ensures { length bytes.now < 2 ^ 63 }
{
    let _ = bytes.len();
}
