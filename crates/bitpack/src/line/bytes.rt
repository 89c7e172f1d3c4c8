//! Parsing bytes: pairs of hexadecimal digits.

ghost use Rattle.std.specs.Prelude.{◌≡◌, ◌%◌, ◌<◌, ◌↔◌, IsTrue, length};
ghost use Rattle.std.specs.List.{AllPass};
ghost use Rattle.hex.specs.Hex.{is_hex_digit};
ghost use Rattle.bitpack.specs.Grammar.{SpellsBytes};
ghost use Rattle.bitpack.specs.inner.Found.{Parses};

use super::error::ParseError;
use std::alloc::Global;

/// Whether the string is one or more pairs of digits.
fn is_pairs(string: &str) -> bool
    ensures { IsTrue result
        ↔ ((0 < length string.now) × (length string.now % 2 ≡ 0) × AllPass is_hex_digit string.now) }
{
    !string.is_empty()
        && string.len() % 2 == 0
        && string
            .as_bytes()
            .iter()
            .all(|digit| digit.is_ascii_hexdigit())
}

/// The bytes that a string spells. Its digits are tested before memory is reserved.
pub(crate) fn parse_bytes(alloc: Global, string: &str) -> Result<Vec<u8>, ParseError>
    ensures { Parses (λ bytes. bytes.items) (SpellsBytes string.now) result }
{
    if string == "-" {
        return Ok(Vec::new(alloc));
    }
    if !is_pairs(string) {
        return Err(ParseError::Spelling);
    }
    let mut bytes = vec![in alloc; 0u8; string.len() / 2]?;
    match hex::decode_to_slice(string, bytes.as_mut_slice()) {
        Ok(()) => Ok(bytes),
        Err(_) => Err(ParseError::Spelling),
    }
}
