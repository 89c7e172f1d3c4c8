//! The directory of a wide set in words: high words, ends and sums.
//!
//! FORMAT.md, "Wide sets", after n and W:
//!
//! ```text
//! e + 16 * z | W high words of four bytes | W ends of e bytes | W sums of z bytes | W id sets
//! ```

ghost use Rattle.std.specs.Prelude.{◌≡◌, ◌+◌, ◌*◌, ◌/◌, ◌%◌, ◌^◌, ◌<◌, ◌≤◌, ◌&&◌, ◌||◌, ◌==◌, not, nat_le, nat_lt, drop, length};
ghost use Rattle.std.proofs.Props.{props};
ghost use Rattle.bitpacking.specs.Bits.{AreBytes};
ghost use Rattle.bitpack_groups.specs.Faults.{FindsFault};
ghost use Rattle.bitpack_groups.specs.Numbers as numbers;
ghost use Rattle.bitpack_wide.specs.Directory.{before};
ghost use Rattle.bitpack_wide.specs.Faults.{entry_fault, first_of, loose_sizes_fault, sizes_fault};
ghost use Rattle.bitpack_wide.specs.Sound.{HasDirectory, IsRest};

use crate::wide_error::WideError;
use bitpack_groups::{byte_count, read_integer};

/// The directory of a wide set in words, with the id sets after it. They were tested.
#[derive(Clone, Copy)]
pub(crate) struct Directory<'a> {
    // How many ids and how many high words there are.
    pub(crate) count: usize,
    pub(crate) words: usize,
    // What is after these counts.
    pub(crate) rest: &'a [u8],
    ghost are_bytes: { AreBytes rest.now },
    ghost sound: { IsRest count words rest.now } by { Prim.hlevel props },
}

/// A high word.
#[inline(always)]
pub(crate) fn high_at(words: usize, rest: &[u8], word: usize) -> u32
    requires directory { HasDirectory words rest.now }
    requires within { word < words }
    ensures { result ≡ Rattle.bitpack_wide.specs.Directory.high_at rest.now word }
{
    read_integer(4, rest, 1, word)
}

/// The end of the set of a high word.
#[inline(always)]
pub(crate) fn end_at(words: usize, rest: &[u8], word: usize) -> u32
    requires directory { HasDirectory words rest.now }
    requires within { word < words }
    ensures { result ≡ Rattle.bitpack_wide.specs.Directory.end_at words rest.now word }
{
    read_integer((rest[0] % 16) as usize, rest, 1 + 4 * words, word)
}

/// How many ids have a high word or one before it.
#[inline(always)]
pub(crate) fn sum_at(words: usize, rest: &[u8], word: usize) -> u32
    requires directory { HasDirectory words rest.now }
    requires within { word < words }
    ensures { result ≡ Rattle.bitpack_wide.specs.Directory.sum_at words rest.now word }
{
    let start = 1 + (4 + (rest[0] % 16) as usize) * words;
    read_integer((rest[0] / 16) as usize, rest, start, word)
}

/// Where the set of a high word begins among the sets.
#[inline(always)]
pub(crate) fn begin_at(words: usize, rest: &[u8], word: usize) -> u32
    requires directory { HasDirectory words rest.now }
    requires within { word ≤ words }
    ensures { result ≡ before (Rattle.bitpack_wide.specs.Directory.end_at words rest.now) word }
{
    if word == 0 {
        0
    } else {
        end_at(words, rest, word - 1)
    }
}

/// How many ids the high words before one have.
#[inline(always)]
pub(crate) fn count_before(words: usize, rest: &[u8], word: usize) -> u32
    requires directory { HasDirectory words rest.now }
    requires within { word ≤ words }
    ensures { result ≡ before (Rattle.bitpack_wide.specs.Directory.sum_at words rest.now) word }
{
    if word == 0 {
        0
    } else {
        sum_at(words, rest, word - 1)
    }
}

/// Where the sets of `words` high words begin.
#[inline(always)]
pub(crate) fn bodies_start(words: usize, rest: &[u8]) -> usize
    requires some { 1 ≤ length rest.now }
    requires few { words ≤ 2 ^ 28 }
    ensures { result ≡ Rattle.bitpack_wide.specs.Directory.bodies_start words rest.now }
{
    1 + (4 + rest[0] % 16 + rest[0] / 16) as usize * words
}

/// Tests the byte of the sizes.
#[tactic(auto, unfolding(crate::specs::Faults::sizes_fault))]
pub(crate) fn test_sizes(rest: &[u8]) -> Result<(), WideError>
    ensures { FindsFault result (sizes_fault rest.now) }
{
    if rest.is_empty() {
        return Err(WideError::Short);
    }
    let sizes = rest[0];
    if are_sizes(sizes % 16, sizes / 16) {
        return Ok(());
    }
    Err(WideError::BadSizes(sizes))
}

/// Both sizes are from 1 to 4.
fn are_sizes(end_size: u8, sum_size: u8) -> bool
    ensures { result ≡ (nat_lt 0 end_size && nat_le end_size 4 && nat_lt 0 sum_size && nat_le sum_size 4) }
{
    if end_size == 0 {
        return false;
    }
    if end_size > 4 {
        return false;
    }
    if sum_size == 0 {
        return false;
    }
    sum_size <= 4
}

/// Tests whether the sizes are the least.
#[tactic(auto, unfolding(crate::specs::Faults::loose_sizes_fault))]
pub(crate) fn test_least(count: usize, words: usize, rest: &[u8]) -> Result<(), WideError>
    requires count { count ≤ 2 ^ 28 }
    requires directory { HasDirectory words rest.now }
    ensures { FindsFault result (loose_sizes_fault count words rest.now) }
{
    let sizes = rest[0];
    let end = begin_at(words, rest, words);
    if are_least(sizes, end, count as u32) {
        return Ok(());
    }
    Err(WideError::BadSizes(sizes))
}

/// The sizes are the least for the last end and the count.
fn are_least(sizes: u8, end: u32, count: u32) -> bool
    ensures { result ≡ ((sizes % 16 == numbers.byte_count end) && (sizes / 16 == numbers.byte_count count)) }
{
    if (sizes % 16) as usize != byte_count(end) {
        return false;
    }
    (sizes / 16) as usize == byte_count(count)
}

/// Tests the high words, and the sum and the end of each.
pub(crate) fn test_entries(count: usize, words: usize, rest: &[u8]) -> Result<(), WideError>
    requires { HasDirectory words rest.now }
    ensures { FindsFault result (first_of (entry_fault count words rest.now) words) }
{
    for word in 0..words {
        test_entry(count, words, rest, word)?;
    }
    Ok(())
}

/// Tests a high word, its sum and its end.
#[tactic(auto, unfolding(crate::specs::Faults::entry_fault))]
#[inline(always)]
fn test_entry(count: usize, words: usize, rest: &[u8], word: usize) -> Result<(), WideError>
    requires directory { HasDirectory words rest.now }
    requires within { word < words }
    ensures { FindsFault result (entry_fault count words rest.now word) }
{
    if high_falls(words, rest, word) {
        return Err(WideError::BadKey(word));
    }
    let sum = sum_at(words, rest, word) as usize;
    let own = sum.saturating_sub(count_before(words, rest, word) as usize);
    if is_bad_count(own, word + 1 == words, sum == count) {
        return Err(WideError::BadSum(word));
    }
    let end = end_at(words, rest, word) as usize;
    let size = end.saturating_sub(begin_at(words, rest, word) as usize);
    if is_bad_size(size, own) {
        return Err(WideError::BadOffset(word));
    }
    Ok(())
}

/// A high word is not above the one before.
#[inline(always)]
fn high_falls(words: usize, rest: &[u8], word: usize) -> bool
    requires directory { HasDirectory words rest.now }
    requires within { word < words }
    ensures { result ≡ (nat_lt 0 word
        && nat_le (Rattle.bitpack_wide.specs.Directory.high_at rest.now word) (before (Rattle.bitpack_wide.specs.Directory.high_at rest.now) word)) }
{
    if word == 0 {
        return false;
    }
    high_at(words, rest, word) <= high_at(words, rest, word - 1)
}

/// A high word has no id; or it is the last, and its sum is not the count of ids.
#[inline(always)]
fn is_bad_count(own: usize, is_last: bool, is_count: bool) -> bool
    ensures { result ≡ ((own == 0) || (is_last && not is_count)) }
{
    if own == 0 {
        return true;
    }
    is_last & !is_count
}

/// An id set has no byte, or more than one of `own` ids can have.
#[inline(always)]
fn is_bad_size(size: usize, own: usize) -> bool
    requires { own < 2 ^ 32 }
    ensures { result ≡ ((size == 0) || nat_lt (9 * own / 2 + 10) size) }
{
    if size == 0 {
        return true;
    }
    size > 9 * own / 2 + 10
}
