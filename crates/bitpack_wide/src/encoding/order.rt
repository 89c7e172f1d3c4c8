//! Which ids a writer refuses, and their high words and low words.

ghost use Rattle.std.specs.Prelude.{◌≡◌, false, ℕ, ◌+◌, ◌^◌, ◌<◌, ◌≤◌, ◌++◌, IfOk, IfSome, OnOk, length, slice_index};
ghost use Rattle.bitpack_groups.specs.Faults.{FindsFault};
ghost use Rattle.bitpack_slices.specs.Bodies.{IsRising};
ghost use Rattle.bitpack_slices.specs.Slices.{first_fall};
ghost use Rattle.bitpack_sets.specs.Written.{IsRun};
ghost use Rattle.bitpack_wide.specs.Wide as wide;
ghost use Rattle.bitpack_wide.specs.Wide.{IsWide, highs, words_of};
ghost use Rattle.bitpack_wide.specs.Written.{refusal};

use crate::spread::WORD;
use crate::wide_error::WideError;
use bitpack_sets::encoding::order::LONGEST_SET;

/// Tests that ids are a set: not too many, and each above the one before it. Copies the low word of each, and returns how many high words there
/// are. It reads the ids once, since they may be many.
pub(crate) fn split_ids(ids: &[u64], lows: &mut [u32]) -> Result<usize, WideError>
    requires { length lows.old ≡ length ids.now }
    ensures fault { FindsFault result (refusal ids.now) }
    ensures set { OnOk result (IsWide ids.now) }
    ensures words { IfOk result (λ words. words ≡ length (words_of ids.now)) }
    ensures few { IfOk result (λ words. words ≤ length ids.now) }
    ensures lows { OnOk result (lows.new ≡ wide.lows ids.now) }
{
    if ids.len() > LONGEST_SET {
        return Err(WideError::TooLong(ids.len()));
    }
    let (falls, words) = split_words(ids, lows);
    match first_unsorted(falls, ids) {
        Some(position) => Err(WideError::NotSorted(position)),
        None => Ok(words),
    }
}

/// Copies the low word of each id. Returns whether an id is not above the one before it, and how often a high word is another than the one before.
///
/// No branch depends on an id, so that the compiler compares several at once.
#[inline(always)]
fn split_words(ids: &[u64], lows: &mut [u32]) -> (bool, usize)
    requires size { length lows.old ≡ length ids.now }
    requires few { length ids.now ≤ 2 ^ 28 }
    ensures rises { result.0 ≡ false → (k : ℕ) → k + 1 < length ids.now → slice_index ids.now k < slice_index ids.now (k + 1) }
    ensures words { result.1 ≡ length (words_of ids.now) }
    ensures few { result.1 ≤ length ids.now }
    ensures lows { lows.new ≡ wide.lows ids.now }
{
    if ids.len() == 0 {
        return (false, 0);
    }
    lows[0] = (ids[0] % WORD) as u32;
    let mut falls = false;
    let mut words: u32 = 1;
    for index in 1..ids.len() {
        falls |= ids[index] <= ids[index - 1];
        words += (ids[index] / WORD != ids[index - 1] / WORD) as u32;
        lows[index] = (ids[index] % WORD) as u32;
    }
    (falls, words as usize)
}

/// The first position whose id is not above the one before it. None is looked for unless one `falls`.
fn first_unsorted(falls: bool, ids: &[u64]) -> Option<usize>
    requires { falls ≡ false → (k : ℕ) → k + 1 < length ids.now → slice_index ids.now k < slice_index ids.now (k + 1) }
    ensures found { result ≡ first_fall 0 ids.now }
    ensures within { IfSome result (λ position. position < length ids.now) }
{
    if !falls {
        return None;
    }
    for index in 1..ids.len() {
        if ids[index] <= ids[index - 1] {
            return Some(index);
        }
    }
    None
}

/// Whether an id is not above the one before it. No branch depends on an id, so that the compiler compares several at once.
#[inline(always)]
fn falls(ids: &[u64]) -> bool
    ensures { result ≡ false → (k : ℕ) → k + 1 < length ids.now → slice_index ids.now k < slice_index ids.now (k + 1) }
{
    let mut falls = false;
    for index in 1..ids.len() {
        falls |= ids[index] <= ids[index - 1];
    }
    falls
}

/// Tests that ids can follow the ids of a set so far.
pub(crate) fn test_pushed(so_far: &[u64], pushed: &[u64]) -> Result<(), WideError>
    requires { IsWide so_far.now }
    ensures fault { FindsFault result (refusal (so_far.now ++ pushed.now)) }
    ensures set { OnOk result (IsWide (so_far.now ++ pushed.now)) }
{
    let count = so_far.len();
    if pushed.len() > LONGEST_SET - count {
        return Err(WideError::TooLong(count + pushed.len()));
    }
    if pushed.is_empty() {
        return Ok(());
    }
    if count > 0 && pushed[0] <= so_far[count - 1] {
        return Err(WideError::NotSorted(count));
    }
    match first_unsorted(falls(pushed), pushed) {
        Some(position) => Err(WideError::NotSorted(count + position)),
        None => Ok(()),
    }
}

/// A set of `count` ids with `words` high words is spread out.
pub(crate) fn is_spread(count: usize, words: usize) -> bool
    requires { words ≤ 2 ^ 28 }
    ensures { result ≡ Rattle.bitpack_wide.specs.Wide.is_spread count words }
{
    if count == 0 {
        return true;
    }
    count < 8 * words
}

/// How many ids at the front have the high word of the first one. It goes on in steps that double, and then by halves.
pub(crate) fn word_len(ids: &[u64]) -> usize
    requires rising { IsRising 0 (2 ^ 64) ids.now }
    requires some { 0 < length ids.now }
    ensures { IsRun (2 ^ 32) ids.now result }
{
    let shared = ids[0] / WORD;
    let mut low = 0;
    let mut high = ids.len();
    while high - low > 1 {
        let half = (high - low) / 2;
        let middle = low + half.min(low + 2);
        if ids[middle] / WORD == shared {
            low = middle;
        } else {
            high = middle;
        }
    }
    high
}

/// Copies the high word of each id.
pub(crate) fn copy_highs(ids: &[u64], out: &mut [u32])
    requires { length out.old ≡ length ids.now }
    ensures { out.new ≡ highs ids.now }
{
    for index in 0..out.len() {
        out[index] = (ids[index] / WORD) as u32;
    }
}

/// Copies the low word of each id.
pub(crate) fn copy_lows(ids: &[u64], out: &mut [u32])
    requires { length out.old ≡ length ids.now }
    ensures { out.new ≡ wide.lows ids.now }
{
    for index in 0..out.len() {
        out[index] = (ids[index] % WORD) as u32;
    }
}
