//! The end of a message, from its last whole block on, with its padding (FIPS 180-4, 5.1.1).
ghost use Rattle.std.specs.Prelude.{◌≡◌, ℕ, ◌*◌, ◌/◌, ◌%◌, ◌^◌, ◌++◌, drop, length, take};
ghost use Rattle.sha2.specs.Sha256.{padding};
ghost use Rattle.sha256_lanes.specs.Lanes.{tail_size};

/// How many bytes come after the last whole block of so many, with the padding: one block, or two
/// where the message's length does not fit into the first.
pub fn tail_len(length: usize) -> usize
    ensures { result ≡ tail_size length }
{
    if length % 64 < 56 { 64 } else { 128 }
}

/// The bytes of a message's last part after its last whole block, a bit 1, zeros, and the length
/// of the message in bits. So many bytes the message has, with the whole blocks before this part.
pub fn tail(part: &[u8], total: u64) -> [u8; 128]
    ensures { (n : ℕ) → n % 64 ≡ length part.now % 64 → total ≡ n % 2 ^ 64
        → take (tail_size (length part.now)) result
        ≡ drop (length part.now / 64 * 64) part.now ++ padding n }
{
    let whole = part.len() / 64 * 64;
    let used = part.len() - whole;
    let end = tail_len(part.len());
    let bits = total.wrapping_mul(8);
    let mut bytes = [0; 128];
    bytes[..used].copy_from_slice(&part[whole..]);
    bytes[used] = 0x80;
    bytes[end - 8..end].copy_from_slice(&bits.to_be_bytes());
    bytes
}
