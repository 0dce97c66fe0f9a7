//! Writing a message.
ghost use Rattle.std.specs.Prelude.{◌≡◌, ◌≤◌, ◌+◌, ◌++◌, length};
ghost use Rattle.ufs_spec.specs.Messages.{padding, spelling, zeros, IsMessage};

use crate::headers::{header_bytes, segment_bytes};
use ufs_spec::{Message, Upiu};

/// Writes the one spelling of a message in place of what was there (JESD220, 10.5 to 10.7). The
/// fields have to be in their sets. It allocates nothing.
pub fn write(message: &Message, into: &mut Upiu)
    requires { IsMessage message.now }
    ensures { into.new.items ≡ spelling message.now }
{
    fill(into, &header_bytes(message), segment_bytes(message));
}

// Writes a header and a data segment, with its padding, in place of what was there.
pub(crate) fn fill(into: &mut Upiu, header: &[u8; 32], segment: &[u8])
    requires { length segment.now ≤ 4096 }
    ensures { into.new.items ≡ header.now ++ segment.now ++ zeros (padding (length segment.now)) }
{
    into.clear();
    append(into, header);
    append(into, segment);
    append(into, padding_bytes(segment.len()));
}

// Puts bytes behind what is there.
fn append(into: &mut Upiu, bytes: &[u8])
    requires { length into.old.items + length bytes.now ≤ 4128 }
    ensures { into.new.items ≡ into.old.items ++ bytes.now }
{
    let _ = into.try_extend_from_slice(bytes);
}

// The zero bytes that pad a segment of this length to a multiple of four.
fn padding_bytes(segment: usize) -> &'static [u8]
    ensures { result.now ≡ zeros (padding segment) }
{
    match segment % 4 {
        1 => &[0; 3],
        2 => &[0; 2],
        3 => &[0; 1],
        _ => &[],
    }
}
