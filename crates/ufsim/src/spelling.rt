//! Bytes as hexadecimal text.
ghost use Rattle.std.specs.Prelude.{◌≡◌, ◌*◌, ◌⊎◌, ◌↔◌, Some, None, IfOk, IfErr, IsErrOf, length};
ghost use Rattle.std.specs.List.{list_all};
ghost use Rattle.hex.specs.Hex.{encode_lower, is_hex_digit};
ghost use Rattle.ufsim.specs.Spelling.{spelled_bytes, spells};
ghost use Rattle.ufsim.specs.declared.fault.Word.TheVariants.{Hex, Memory};

use crate::fault::Word;
use hex::FromHexError;
use std::alloc::Global;

/// The bytes that a script's HEX spells: two hexadecimal digits a byte, in either case, and one
/// byte at least. It is `Hex` exactly where the text spells none, and else `Memory` where memory is
/// refused.
pub fn bytes(alloc: Global, text: &str) -> Result<Vec<u8>, Word>
    ensures value { IfOk result (λ found. spelled_bytes text.now ≡ Some found.items) }
    ensures refused { IsErrOf result Word.Hex ↔ (spelled_bytes text.now ≡ None) }
    ensures other { IfErr result (λ word. (word ≡ Hex) ⊎ (word ≡ Memory)) }
{
    decoded(alloc, text.as_bytes())
}

// `bytes` for the bytes of a text.
pub(crate) fn decoded(alloc: Global, digits: &[u8]) -> Result<Vec<u8>, Word>
    ensures value { IfOk result (λ found. spelled_bytes digits.now ≡ Some found.items) }
    ensures refused { IsErrOf result Word.Hex ↔ (spelled_bytes digits.now ≡ None) }
    ensures other { IfErr result (λ word. (word ≡ Hex) ⊎ (word ≡ Memory)) }
{
    // `decode` takes its memory before it looks at the digits, so these are looked at first.
    if !is_spelling(digits) {
        return Err(Word::Hex);
    }
    match hex::decode(alloc, digits) {
        Ok(found) => Ok(found),
        Err(FromHexError::OutOfMemory) => Err(Word::Memory),
        Err(_) => Err(Word::Hex),
    }
}

// Whether the digits spell bytes.
fn is_spelling(digits: &[u8]) -> bool
    ensures { result ≡ spells digits.now }
{
    if digits.is_empty() || digits.len() % 2 != 0 {
        return false;
    }
    all_are_digits(digits)
}

fn all_are_digits(text: &[u8]) -> bool
    ensures { result ≡ list_all is_hex_digit text.now }
{
    text.iter().all(|digit| is_digit(*digit))
}

fn is_digit(digit: u8) -> bool
    ensures { result ≡ is_hex_digit digit }
{
    match digit {
        b'A'..=b'F' | b'a'..=b'f' | b'0'..=b'9' => true,
        _ => false,
    }
}

/// Writes the bytes as lower-case hexadecimal digits, two a byte.
pub fn text(bytes: &[u8], into: &mut [u8])
    requires { length into.old ≡ 2 * length bytes.now }
    ensures { into.new ≡ encode_lower bytes.now }
{
    hex::encode_to_slice(bytes, into).unwrap();
}
