//! Bytes that hexadecimal digits spell.
ghost use Rattle.std.specs.Prelude.{◌≡◌, ◌*◌, ◌↔◌, IfSome, IsSome, Ok, length};
ghost use Rattle.std.specs.List.{AllPass};
ghost use Rattle.hex.specs.Hex.{decode_of, is_hex_digit};

use hex::FromHex;

/// The `N` bytes that the digits spell, two a byte.
pub fn spelled<const N: usize>(digits: &str) -> Option<[u8; N]>
    ensures value { IfSome result (λ bytes. decode_of digits.now ≡ Ok bytes) }
    ensures found { IsSome result
        ↔ ((length digits.now ≡ 2 * N) × AllPass is_hex_digit digits.now) }
{
    <[u8; N] as FromHex>::from_hex(digits).ok()
}
