//! Tests the encoding of a wide set. The bytes are untrusted.
//!
//! FORMAT.md, "Wide sets" and "Faults of a wide set":
//!
//! ```text
//! in words      8 | n | W | sizes | high words | ends | sums | id sets
//! spread out    9 | n | a sorted column of the high words | n low words of four bytes
//! ```

ghost use Rattle.std.specs.Prelude.{◌≡◌, ℕ, ◌≤◌, ◌<◌, ◌^◌, ◌*◌, IfOk, None, drop, length};
ghost use Rattle.bitpack_groups.specs.Faults.{FindsFault};
ghost use Rattle.bitpack_groups.specs.Numbers.{number_end, number_fault, number_value};
ghost use Rattle.bitpack_wide.specs.Faults.{count_fault, fault, in_spread_fault, in_words_fault, number_error, of, word_count_fault};
ghost use Rattle.bitpack_wide.specs.Reads.{after_number};
ghost use Rattle.bitpack_wide.specs.Stated.{States};

use crate::spread::test_spread;
use crate::testing::test_words;
use crate::wide_error::WideError;
use bitpack_groups::{GroupError, test_number, unpack_number};

/// The most ids of a wide set.
const MOST_IDS: usize = 1 << 28;

/// What the first bytes of an encoding state, and what is after them.
///
/// A caller who stores it beside the bytes has the set again by [`WideSet::from_parts`](crate::WideSet::from_parts).
#[derive(Clone, Copy)]
pub struct Parts<'a> {
    /// How many ids there are.
    pub count: usize,
    /// How many high words there are, of a set in words.
    pub words: usize,
    /// The bytes after the counts.
    pub rest: &'a [u8],
}

/// Tests all bytes.
#[tactic(auto, unfolding(crate::specs::Faults::fault))]
pub(crate) fn test_encoding<'a>(bytes: &'a [u8]) -> Result<Parts<'a>, WideError>
    ensures fault { FindsFault result (fault bytes.now) }
    ensures states { IfOk result (λ parts. States bytes.now parts.count parts.words parts.rest.now) }
{
    let [form, later @ ..] = bytes else {
        return Err(WideError::Short);
    };
    match *form {
        8 => test_in_words(later),
        9 => test_in_spread(later),
        other => Err(WideError::BadVersion(other)),
    }
}

/// What the first bytes of an encoding without a fault state, and what is after them.
pub(crate) fn read_parts<'a>(bytes: &'a [u8]) -> Parts<'a>
    requires { fault bytes.now ≡ None }
    ensures { States bytes.now result.count result.words result.rest.now }
{
    let form = bytes[0];
    let later = &bytes[1..];
    let (count, end) = unpack_number(later);
    let count = count as usize;
    let rest = &later[end..];
    if form != 8 {
        return Parts {
            count,
            words: 0,
            rest,
        };
    }
    let (words, end) = unpack_number(rest);
    Parts {
        count,
        words: words as usize,
        rest: &rest[end..],
    }
}

/// A fault of a number as one of wide sets.
fn as_wide_error(error: GroupError) -> WideError
    ensures { result ≡ number_error error }
{
    match error {
        GroupError::Short => WideError::Short,
        _ => WideError::BadNumber,
    }
}

/// Tests the number at the front of the bytes, and returns it and how many bytes it has.
fn open_number(bytes: &[u8]) -> Result<(usize, usize), WideError>
    ensures fault { FindsFault result (of (number_fault bytes.now)) }
    ensures value { IfOk result (λ found. found.0 ≡ number_value bytes.now) }
    ensures end { IfOk result (λ found. found.1 ≡ number_end bytes.now) }
    ensures within { IfOk result (λ found. found.1 ≤ length bytes.now) }
{
    match test_number(bytes) {
        Ok((value, end)) => Ok((value as usize, end)),
        Err(error) => Err(as_wide_error(error)),
    }
}

/// Tests the number at the front of the bytes as the count of ids. Returns it, and how many bytes it has.
#[tactic(auto, unfolding(crate::specs::Faults::count_fault))]
fn open_count(bytes: &[u8]) -> Result<(usize, usize), WideError>
    ensures fault { FindsFault result (count_fault bytes.now) }
    ensures value { IfOk result (λ found. (found.0 ≡ number_value bytes.now) × (found.0 ≤ 2 ^ 28)) }
    ensures end { IfOk result (λ found. (found.1 ≡ number_end bytes.now) × (found.1 ≤ length bytes.now)) }
{
    let (count, end) = open_number(bytes)?;
    if count > MOST_IDS {
        return Err(WideError::TooLong(count));
    }
    Ok((count, end))
}

/// Tests the number at the front of the bytes as the count of high words of `count` ids. Returns it, and how many bytes it has.
#[tactic(auto, unfolding(crate::specs::Faults::word_count_fault))]
fn open_word_count(count: usize, bytes: &[u8]) -> Result<(usize, usize), WideError>
    requires { count ≤ 2 ^ 28 }
    ensures fault { FindsFault result (word_count_fault count bytes.now) }
    ensures value { IfOk result (λ found. (found.0 ≡ number_value bytes.now) × (0 < found.0) × (8 * found.0 ≤ count)) }
    ensures end { IfOk result (λ found. (found.1 ≡ number_end bytes.now) × (found.1 ≤ length bytes.now)) }
{
    let (words, end) = open_number(bytes)?;
    if words == 0 || words > count / 8 {
        return Err(WideError::BadNumber);
    }
    Ok((words, end))
}

/// Tests what is after byte 0 of a set that is spread out.
#[tactic(auto, unfolding(crate::specs::Faults::in_spread_fault))]
fn test_in_spread<'a>(bytes: &'a [u8]) -> Result<Parts<'a>, WideError>
    ensures fault { FindsFault result (in_spread_fault bytes.now) }
    ensures count { IfOk result (λ parts. parts.count ≡ number_value bytes.now) }
    ensures rest { IfOk result (λ parts. parts.rest.now ≡ after_number bytes.now) }
{
    let (count, end) = open_count(bytes)?;
    let rest = &bytes[end..];
    test_spread(count, rest)?;
    Ok(Parts {
        count,
        words: 0,
        rest,
    })
}

/// Tests what is after byte 0 of a set in words.
#[tactic(auto, unfolding(crate::specs::Faults::in_words_fault))]
fn test_in_words<'a>(bytes: &'a [u8]) -> Result<Parts<'a>, WideError>
    ensures fault { FindsFault result (in_words_fault bytes.now) }
    ensures count { IfOk result (λ parts. parts.count ≡ number_value bytes.now) }
    ensures words { IfOk result (λ parts. parts.words ≡ number_value (after_number bytes.now)) }
    ensures rest { IfOk result (λ parts. parts.rest.now ≡ after_number (after_number bytes.now)) }
{
    let (count, end) = open_count(bytes)?;
    let later = &bytes[end..];
    let (words, end) = open_word_count(count, later)?;
    let rest = &later[end..];
    test_words(count, words, rest)?;
    Ok(Parts { count, words, rest })
}
