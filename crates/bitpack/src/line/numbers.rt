//! Parsing numbers: decimal digits, with no sign and no leading zero.

ghost use Rattle.std.specs.Prelude.{◌↔◌, IsTrue};
ghost use Rattle.bitpack.specs.Grammar.{IsCount, IsSmall, IsWord, SpellsNumber};
ghost use Rattle.bitpack.specs.inner.Found.{BeginsNumber, Finds};

use super::LINE_LIMIT;

/// The least and the most repeats of a value.
const LEAST_COUNT: u32 = 1;

const MOST_COUNT: u32 = LINE_LIMIT as u32;

/// The greatest number of a width field.
const MOST_SMALL: u32 = 255;

/// Whether the string begins like a number. `parse` accepts `+1` and `01` too.
fn begins_number(string: &str) -> bool
    ensures { IsTrue result ↔ BeginsNumber string.now }
{
    match string.as_bytes() {
        [b'0'] => true,
        [b'1'..=b'9', ..] => true,
        _ => false,
    }
}

/// A number of at most 255.
pub(crate) fn parse_width(string: &str) -> Option<u8>
    ensures { Finds (SpellsNumber IsSmall string.now) result }
{
    let number = parse_word(string)?;
    if number > MOST_SMALL {
        return None;
    }
    Some(number as u8)
}

/// A number of at most `u32::MAX`.
pub(crate) fn parse_word(string: &str) -> Option<u32>
    ensures { Finds (SpellsNumber IsWord string.now) result }
{
    if begins_number(string) {
        string.parse().ok()
    } else {
        None
    }
}

/// How often a value is repeated.
pub(crate) fn parse_count(string: &str) -> Option<u32>
    ensures { Finds (SpellsNumber IsCount string.now) result }
{
    let count = parse_word(string)?;
    if count < LEAST_COUNT || count > MOST_COUNT {
        return None;
    }
    Some(count)
}
