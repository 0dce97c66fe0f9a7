//! What each host writes, and where.
ghost use Rattle.std.specs.Prelude.{◌≡◌, length};
ghost use Rattle.stress.specs.Writes.{address_of, content_of};

use ufs_spec::Data;

/// The address of this write: each host has 32 of its own, and takes them in turn.
pub(crate) fn address_of(host: u8, write: u8) -> u32
    ensures { result ≡ address_of host write }
{
    u32::from(host) * 32 + u32::from(write % 32)
}

/// The block of this write: its first half is bytes with the host's number, its second half bytes
/// with the number of the write.
#[tactic(auto, unfolding(crate::specs::Writes::content_of))]
pub(crate) fn content_of(host: u8, write: u8) -> Data
    ensures content { result.items ≡ content_of host write }
    ensures size { length result.items ≡ 4096 }
{
    let mut content = Data::new();
    let _ = content.try_extend_from_slice(&[host; 2048]);
    let _ = content.try_extend_from_slice(&[write; 2048]);
    content
}
