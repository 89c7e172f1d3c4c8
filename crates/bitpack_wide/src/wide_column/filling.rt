//! Tests what missing values have in a chunk: the difference of the value before them, or of the first.

ghost use Rattle.std.specs.Prelude.{◌≡◌, ◌≢◌, ◌⊎◌, ℕ, ◌+◌, ◌-◌, ◌*◌, ◌^◌, ◌<◌, ◌≤◌, Bool, false, true, IfSome, None, Option, Some, length, slice_index};
ghost use Rattle.bitpack_slices.specs.Reads.{has, rank};
ghost use Rattle.bitpack_sets.specs.Opened.{ids};
ghost use Rattle.bitpack_wide.specs.WideColumnFaults.{each_below, is_filled, is_front};
ghost use Rattle.bitpack_wide.specs.inner.WideColumnSteps.{IsLast, difference_of, is_as_before, is_first_same, same_at};
ghost use Rattle.bitpack_wide.specs.WideColumnSound.{IsPart};

use super::chunk::{Chunk, PART, read_differences};
use bitpack_sets::IdSet;

/// Tests the differences of missing values of a chunk that begins at a position. Returns whether all are missing, or nothing if one has another
/// difference than it must have.
pub(super) fn test_filled(chunk: &Chunk, begin: usize, missing: &IdSet) -> Option<bool>
    requires { begin + chunk.now.len ≤ 2 ^ 28 }
    ensures some { IfSome result (λ empty. each_below (is_filled (λ k. has (begin + k) (ids missing.now)) (difference_of chunk.now)) chunk.now.len ≡ true) }
    ensures empty { IfSome result (λ empty. empty ≡ is_front (λ k. has (begin + k) (ids missing.now)) chunk.now.len) }
    ensures none { result ≡ None → each_below (is_filled (λ k. has (begin + k) (ids missing.now)) (difference_of chunk.now)) chunk.now.len ≡ false }
{
    let count = count_between(missing, begin, begin + chunk.len);
    if count == 0 {
        return Some(false);
    }
    if !are_as_before(chunk, begin, missing) || !is_front_same(chunk, begin, missing) {
        return None;
    }
    Some(count == chunk.len)
}

/// How many ids are from one on and below another.
#[inline(always)]
pub(super) fn count_between(missing: &IdSet, begin: usize, end: usize) -> usize
    requires order { begin ≤ end }
    requires few { end ≤ 2 ^ 28 }
    ensures count { rank begin (ids missing.now) + result ≡ rank end (ids missing.now) }
    ensures few { begin + result ≤ end }
{
    missing.rank(end as u32) - missing.rank(begin as u32)
}

/// Whether each missing value, but the first of the chunk, has the difference of the one before it.
fn are_as_before(chunk: &Chunk, begin: usize, missing: &IdSet) -> bool
    requires { begin + chunk.now.len ≤ 2 ^ 28 }
    ensures { result ≡ each_below (is_as_before (λ k. has (begin + k) (ids missing.now)) (difference_of chunk.now)) chunk.now.len }
{
    let mut part = [0; PART];
    let mut last = None;
    let mut from = 0;
    while from < chunk.len {
        let len = PART.min(chunk.len - from);
        match test_next(chunk, begin, from, len, missing, last, &mut part[..len]) {
            Some(next) => last = Some(next),
            None => return false,
        }
        from += len;
    }
    true
}

/// Tests `len` differences from a position on, which are written to a slice as long. Returns the last of them, or nothing if one is not as it must be.
fn test_next(
    chunk: &Chunk,
    begin: usize,
    from: usize,
    len: usize,
    missing: &IdSet,
    last: Option<u64>,
    part: &mut [u64],
) -> Option<u64>
    requires room { len ≡ length part.old }
    requires some { 0 < len }
    requires few { len ≤ 1024 }
    requires within { from + len ≤ chunk.now.len }
    requires small { begin + chunk.now.len ≤ 2 ^ 28 }
    requires last { IsLast (difference_of chunk.now) from last }
    requires right { each_below (is_as_before (λ k. has (begin + k) (ids missing.now)) (difference_of chunk.now)) from ≡ true }
    ensures some { IfSome result (λ next. each_below (is_as_before (λ k. has (begin + k) (ids missing.now)) (difference_of chunk.now)) (from + len) ≡ true) }
    ensures last { IfSome result (λ next. next ≡ difference_of chunk.now (from + len - 1)) }
    ensures none { result ≡ None → each_below (is_as_before (λ k. has (begin + k) (ids missing.now)) (difference_of chunk.now)) (from + len) ≡ false }
{
    read_differences(chunk, from, part);
    if !are_as_before_in(missing, begin + from, last, part) {
        return None;
    }
    Some(part[part.len() - 1])
}

/// Tests the differences from a position on, after one if there is one.
fn are_as_before_in(missing: &IdSet, position: usize, last: Option<u64>, part: &[u64]) -> bool
    requires some { 0 < length part.now }
    requires few { length part.now ≤ 1024 }
    requires within { position + length part.now ≤ 2 ^ 28 }
    ensures { (number : ℕ → ℕ) (begin from : ℕ) → IsPart number from part.now → begin + from ≡ position → IsLast number from last
        → each_below (is_as_before (λ k. has (begin + k) (ids missing.now)) number) from ≡ true
        → result ≡ each_below (is_as_before (λ k. has (begin + k) (ids missing.now)) number) (from + length part.now) }
{
    let first = missing.rank(position as u32);
    let count = count_between(missing, position, position + part.len());
    let mut ids = [0; PART];
    are_same_ids(
        missing,
        first,
        count,
        position,
        last,
        part,
        &mut ids[..count],
    )
}

/// Tests the differences of `count` ids from one on, which are written to a slice as long.
fn are_same_ids(
    missing: &IdSet,
    first: usize,
    count: usize,
    position: usize,
    last: Option<u64>,
    part: &[u64],
    found: &mut [u32],
) -> bool
    requires room { count ≡ length found.old }
    requires there { first + count ≤ length (ids missing.now) }
    requires least { (j : ℕ) → j < count → position ≤ slice_index (ids missing.now) (first + j) }
    requires most { (j : ℕ) → j < count → slice_index (ids missing.now) (first + j) < position + length part.now }
    ensures { (number : ℕ → ℕ) (begin from : ℕ) → IsPart number from part.now → begin + from ≡ position → IsLast number from last
        → result ≡ each_below (same_at number begin (ids missing.now) first) count }
{
    missing.copy_range(first, found);
    are_same(position, last, part, found)
}

/// Whether the differences at these positions are as the ones before them.
fn are_same(position: usize, last: Option<u64>, part: &[u64], found: &[u32]) -> bool
    requires least { (j : ℕ) → j < length found.now → position ≤ slice_index found.now j }
    requires most { (j : ℕ) → j < length found.now → slice_index found.now j < position + length part.now }
    ensures { (number : ℕ → ℕ) (begin from : ℕ) → IsPart number from part.now → begin + from ≡ position → IsLast number from last
        → result ≡ each_below (same_at number begin found.now 0) (length found.now) }
{
    let mut right = true;
    for index in 0..found.len() {
        let at = found[index] as usize - position;
        right &= part[at] == before(last, part, at);
    }
    right
}

/// The number before one, or this one if there is none before it.
#[inline(always)]
fn before(last: Option<u64>, part: &[u64], at: usize) -> u64
    requires { at < length part.now }
    ensures { (number : ℕ → ℕ) (from : ℕ) → IsPart number from part.now → IsLast number from last → result ≡ number (from + at - 1) }
{
    if at > 0 {
        return part[at - 1];
    }
    match last {
        Some(last) => last,
        None => part[0],
    }
}

/// Whether the first value that is there has the difference of a missing one before it, if there are both.
fn is_front_same(chunk: &Chunk, begin: usize, missing: &IdSet) -> bool
    requires { begin + chunk.now.len ≤ 2 ^ 28 }
    ensures { result ≡ each_below (is_first_same (λ k. has (begin + k) (ids missing.now)) (difference_of chunk.now)) chunk.now.len }
{
    if !missing.contains(begin as u32) {
        return true;
    }
    let front = count_front(missing, begin, chunk.len);
    if front == chunk.len {
        return true;
    }
    let mut two = [0; 2];
    read_differences(chunk, front - 1, &mut two);
    two[1] == two[0]
}

/// How many ids follow each other from a position on, at most this many. The search goes by halves.
fn count_front(missing: &IdSet, begin: usize, most: usize) -> usize
    requires { begin + most ≤ 2 ^ 28 }
    ensures front { is_front (λ k. has (begin + k) (ids missing.now)) result ≡ true }
    ensures most { result ≤ most }
    ensures next { result < most → has (begin + result) (ids missing.now) ≡ false }
{
    let mut front = 0;
    let mut left = most;
    while left > 0 {
        let half = (left + 1) / 2;
        if count_between(missing, begin, begin + front + half) == front + half {
            front += half;
            left -= half;
        } else {
            left = half - 1;
        }
    }
    front
}
