//! Tests whether bytes are slices.
//! FORMAT.md, "Chunks".

ghost use Rattle.std.specs.Prelude.{◌≡◌, ℕ, ◌+◌, ◌*◌, ◌<◌, ◌≤◌, drop, length, slice_index, take, true};
ghost use Rattle.std.specs.List.Sorted.{IsStrictlyIncreasing};
ghost use Rattle.std.specs.Bool.{Decides};
ghost use Rattle.bitpack_slices.specs.Falls.{edges, falls};
ghost use Rattle.bitpack_slices.specs.Slices.{AreSlices, IsSlice, bits_in, numbers_in, slice_len};

use crate::slice::byte_len;
use crate::slice::reading::word_at;
use std::simd::prelude::*;

/// Whether bytes are a slice of `count` numbers.
pub(crate) fn is_slice(count: usize, bytes: &[u8]) -> bool
    requires count { count ≤ 256 }
    requires size { length bytes.now ≡ slice_len count }
    ensures { Decides result (IsSlice count bytes.now) }
{
    if count < 32 {
        is_increasing(bytes)
    } else if count < 256 {
        count_in_words(bytes) == count
    } else {
        true
    }
}

/// Whether the bytes after a first one are slices end to end. Each count less 1 is given, and the sum of the counts.
pub(crate) fn are_slices(counts: &[u8], numbers: usize, window: &[u8]) -> bool
    requires numbers { numbers ≡ numbers_in counts.now }
    requires few { length counts.now ≤ 256 }
    requires some { 1 ≤ length window.now }
    ensures { Decides result (AreSlices counts.now (drop 1 window.now)) }
{
    let bytes = &window[1..];
    if bytes.len() == numbers && are_bytes(counts) {
        // Only the first byte of a slice may be at most the byte before.
        return count_falls(window) == count_edges(counts, window);
    }
    if bytes.len() == 32 * counts.len() && are_wide(counts) {
        return are_bits(counts, bytes);
    }
    are_mixed(counts, bytes)
}

/// Whether each slice is bytes; each count less 1 is given. Only the time depends on an answer of `false`.
fn are_bytes(counts: &[u8]) -> bool
    requires { length counts.now ≤ 256 }
    ensures { result ≡ true → (k : ℕ) → k < length counts.now → slice_index counts.now k < 31 }
{
    let mut others: u32 = 0;
    for less in counts {
        others += (*less >= 31) as u32;
    }
    others == 0
}

/// Whether each slice is bits; each count less 1 is given. Only the time depends on an answer of `false`.
fn are_wide(counts: &[u8]) -> bool
    requires { length counts.now ≤ 256 }
    ensures { result ≡ true → (k : ℕ) → k < length counts.now → (31 ≤ slice_index counts.now k) × (slice_index counts.now k < 255) }
{
    let mut others: u32 = 0;
    for less in counts {
        others += (*less < 31 || *less == 255) as u32;
    }
    others == 0
}

/// How many bytes after the first are not above the one before.
fn count_falls(window: &[u8]) -> usize
    requires some { 1 ≤ length window.now }
    requires few { length window.now ≤ 65536 }
    ensures { result ≡ falls (slice_index window.now 0) (drop 1 window.now) }
{
    let mut count: u16 = 0;
    for i in 1..window.len() {
        count += (window[i] <= window[i - 1]) as u16;
    }
    count as usize
}

/// How many slices of bytes, end to end after a first byte, begin with one that is not above the byte before. Each count less 1 is given.
fn count_edges(counts: &[u8], window: &[u8]) -> usize
    requires { length window.now ≡ 1 + numbers_in counts.now }
    ensures { result ≡ edges counts.now window.now }
{
    let mut count = 0;
    let mut at = 0;
    for less in counts {
        count += (window[at + 1] <= window[at]) as usize;
        at += *less as usize + 1;
    }
    count
}

/// Whether bytes are slices of bits end to end; each count less 1 is given.
fn are_bits(counts: &[u8], bytes: &[u8]) -> bool
    requires size { length bytes.now ≡ 32 * length counts.now }
    requires wide { (k : ℕ) → k < length counts.now → (31 ≤ slice_index counts.now k) × (slice_index counts.now k < 255) }
    ensures { Decides result (AreSlices counts.now bytes.now) }
{
    let mut offset = 0;
    for less in counts {
        if count_in_words(&bytes[offset..offset + 32]) != *less as usize + 1 {
            return false;
        }
        offset += 32;
    }
    offset == bytes.len()
}

/// Whether bytes are slices end to end; each count less 1 is given.
fn are_mixed(counts: &[u8], bytes: &[u8]) -> bool
    ensures { Decides result (AreSlices counts.now bytes.now) }
{
    let mut offset = 0;
    for less in counts {
        let count = *less as usize + 1;
        let size = byte_len(count);
        if bytes.len() - offset < size {
            return false;
        }
        if !is_slice_from(count, bytes, offset) {
            return false;
        }
        offset += size;
    }
    offset == bytes.len()
}

/// Whether the bytes from `start` on begin with a slice of `count` numbers.
#[inline(always)]
fn is_slice_from(count: usize, bytes: &[u8], start: usize) -> bool
    requires some { 1 ≤ count }
    requires count { count ≤ 256 }
    requires size { start + slice_len count ≤ length bytes.now }
    ensures { Decides result (IsSlice count (take (slice_len count) (drop start bytes.now))) }
{
    if count < 32 && bytes.len() > 32 {
        return is_increasing_from(count, bytes, start);
    }
    is_slice(count, &bytes[start..start + byte_len(count)])
}

/// Whether `count` bytes from `start` on increase. It compares 32 bytes and the 32 that begin one later, or the last ones there are.
#[inline(always)]
fn is_increasing_from(count: usize, bytes: &[u8], start: usize) -> bool
    requires some { 1 ≤ count }
    requires count { count < 32 }
    requires size { start + count ≤ length bytes.now }
    requires room { 33 ≤ length bytes.now }
    ensures { Decides result (IsStrictlyIncreasing (take count (drop start bytes.now))) }
{
    let from = start.min(bytes.len() - 33);
    let these = u8x32::from_slice(&bytes[from..]);
    let next = u8x32::from_slice(&bytes[from + 1..]);
    let falls = next.simd_le(these).to_bitmask();
    falls >> (start - from) & ((1 << (count - 1)) - 1) == 0
}

/// How many bits of 32 bytes are 1, by words.
fn count_in_words(bytes: &[u8]) -> usize
    requires { length bytes.now ≡ 32 }
    ensures { result ≡ bits_in bytes.now }
{
    let mut count = 0;
    for i in 0..4 {
        count += word_at(bytes, i).count_ones() as usize;
    }
    count
}

/// How many numbers slices have; each count less 1 is given.
#[inline(always)]
pub(crate) fn count_numbers(counts: &[u8]) -> usize
    requires { length counts.now ≤ 256 }
    ensures { result ≡ numbers_in counts.now }
{
    let mut count: u32 = 0;
    for less in counts {
        count += *less as u32 + 1;
    }
    count as usize
}

/// Whether bytes increase.
fn is_increasing(bytes: &[u8]) -> bool
    ensures { Decides result (IsStrictlyIncreasing bytes.now) }
{
    for i in 1..bytes.len() {
        if bytes[i] <= bytes[i - 1] {
            return false;
        }
    }
    true
}
