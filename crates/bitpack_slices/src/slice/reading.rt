//! Unpacks the numbers of slices, in order.
//! FORMAT.md, "Chunks".

ghost use Rattle.std.specs.Prelude.{◌≡◌, ℕ, ◌+◌, ◌*◌, ◌/◌, ◌^◌, ◌<◌, ◌≤◌, ◌++◌, drop, length, map, min, slice_index, take, ◌-◌};
ghost use Rattle.std.specs.List.{range_with_len};
ghost use Rattle.bitpack_slices.specs.Bitmaps.{has_bit};
ghost use Rattle.bitpack_slices.specs.Reads.{has};
ghost use Rattle.bitpack_slices.specs.Slices.{IsSlice, number_of, ones_from, slice_len, slice_numbers};

use crate::bitmap::unpacking::unpack_many;
use crate::slice::byte_len;
use crate::slice::positions::{unpack_8, unpack_32};

/// Writes the numbers of the slice of `count` that begins at `start`, each with `base` added. Returns the index after the last.
///
/// It reads a short slice as 32 bytes if there are that many, without a branch, so up to 31 items after the end may change too. `few` says that most
/// slices have at most eight numbers: then it reads these as eight bytes.
#[inline(always)]
pub(crate) fn unpack_from(
    few: bool,
    count: usize,
    slices: &[u8],
    start: usize,
    base: u32,
    out: &mut [u32],
    at: usize,
) -> usize
    requires count { count ≤ 256 }
    requires size { start + slice_len count ≤ length slices.now }
    requires slice { IsSlice count (take (slice_len count) (drop start slices.now)) }
    requires fits { base + 256 ≤ 2 ^ 32 }
    requires room { at + count ≤ length out.old }
    ensures end { result ≡ at + count }
    ensures values { take result out.new
        ≡ take at out.old ++ map (λ i. base + i) (slice_numbers count (take (slice_len count) (drop start slices.now))) }
{
    if few && count <= 8 && slices.len() - start >= 8 && out.len() - at >= 8 {
        unpack_8(&slices[start..start + 8], base, out, at);
        return at + count;
    }
    if count < 32 && slices.len() - start >= 32 && out.len() - at >= 32 {
        unpack_32(&slices[start..start + 32], base, out, at);
        return at + count;
    }
    unpack_within(
        count,
        &slices[start..start + byte_len(count)],
        base,
        out,
        at,
    )
}

/// Writes the numbers of a slice of `count`, each with `base` added, also if there is only room for them. Returns the index after the last.
pub(crate) fn unpack_within(
    count: usize,
    bytes: &[u8],
    base: u32,
    out: &mut [u32],
    at: usize,
) -> usize
    requires count { count ≤ 256 }
    requires size { length bytes.now ≡ slice_len count }
    requires slice { IsSlice count bytes.now }
    requires fits { base + 256 ≤ 2 ^ 32 }
    requires room { at + count ≤ length out.old }
    ensures end { result ≡ at + count }
    ensures values { take result out.new ≡ take at out.old ++ map (λ i. base + i) (slice_numbers count bytes.now) }
{
    if count < 32 {
        return unpack_bytes(bytes, base, out, at);
    }
    if out.len() - at >= 256 {
        return unpack_slice(count, bytes, base, out, at);
    }
    unpack_last(count, bytes, base, out, at)
}

/// Writes the numbers of a slice if there is room only for these numbers. Not inlined, since each call clears its own buffer.
#[inline(never)]
fn unpack_last(count: usize, bytes: &[u8], base: u32, out: &mut [u32], at: usize) -> usize
    requires count { count ≤ 256 }
    requires size { length bytes.now ≡ slice_len count }
    requires slice { IsSlice count bytes.now }
    requires fits { base + 256 ≤ 2 ^ 32 }
    requires room { at + count ≤ length out.old }
    ensures end { result ≡ at + count }
    ensures values { take result out.new ≡ take at out.old ++ map (λ i. base + i) (slice_numbers count bytes.now) }
{
    let mut numbers = [0; 256];
    let end = unpack_slice(count, bytes, base, &mut numbers, 0);
    out[at..at + end].copy_from_slice(&numbers[..end]);
    at + end
}

/// Writes the numbers of the slice of `count` that begins at `start`, from a position on, as many as there is room for, each with `base` added.
/// Returns the index after the last.
///
/// `few` is as for `unpack_from`, and up to 31 items after the end may change too.
#[inline(always)]
pub(crate) fn unpack_some(
    few: bool,
    count: usize,
    slices: &[u8],
    start: usize,
    base: u32,
    from: usize,
    out: &mut [u32],
    at: usize,
) -> usize
    requires count { count ≤ 256 }
    requires size { start + slice_len count ≤ length slices.now }
    requires slice { IsSlice count (take (slice_len count) (drop start slices.now)) }
    requires fits { base + 256 ≤ 2 ^ 32 }
    requires from { from ≤ count }
    requires room { at ≤ length out.old }
    ensures end { result ≡ at + min (count - from) (length out.old - at) }
    ensures values { take result out.new
        ≡ take at out.old ++ map (λ i. base + i) (take (result - at) (drop from (slice_numbers count (take (slice_len count) (drop start slices.now))))) }
{
    if from == 0 && count <= out.len() - at {
        return unpack_from(few, count, slices, start, base, out, at);
    }
    let wanted = (count - from).min(out.len() - at);
    let bytes = &slices[start..start + byte_len(count)];
    unpack_slice_from(count, bytes, base, from, &mut out[at..at + wanted]);
    at + wanted
}

/// Writes the numbers of a slice of `count` from a position on, as many as there is room for, each with `base` added.
pub(crate) fn unpack_slice_from(count: usize, bytes: &[u8], base: u32, from: usize, out: &mut [u32])
    requires count { count ≤ 256 }
    requires size { length bytes.now ≡ slice_len count }
    requires slice { IsSlice count bytes.now }
    requires fits { base + 256 ≤ 2 ^ 32 }
    requires within { from + length out.old ≤ count }
    ensures { out.new ≡ map (λ i. base + i) (take (length out.old) (drop from (slice_numbers count bytes.now))) }
{
    if count < 32 {
        unpack_bytes(&bytes[from..from + out.len()], base, out, 0);
        return;
    }
    let mut numbers = [0; 256];
    unpack_slice(count, bytes, base, &mut numbers, 0);
    out.copy_from_slice(&numbers[from..from + out.len()]);
}

/// Writes the numbers of a slice of `count`, each with `base` added. Returns the index after the last.
pub(crate) fn unpack_slice(
    count: usize,
    bytes: &[u8],
    base: u32,
    out: &mut [u32],
    at: usize,
) -> usize
    requires count { count ≤ 256 }
    requires size { length bytes.now ≡ slice_len count }
    requires fits { base + 256 ≤ 2 ^ 32 }
    requires room { at + 256 ≤ length out.old }
    ensures few { result ≤ at + 256 }
    ensures values { take result out.new ≡ take at out.old ++ map (λ i. base + i) (slice_numbers count bytes.now) }
{
    if count < 32 {
        unpack_bytes(bytes, base, out, at)
    } else if count < 256 {
        unpack_many(&words_of(bytes), base, out, at)
    } else {
        unpack_full(base, out, at)
    }
}

/// Writes bytes, each with `base` added. Returns the index after the last.
#[inline(always)]
fn unpack_bytes(bytes: &[u8], base: u32, out: &mut [u32], at: usize) -> usize
    requires fits { base + 256 ≤ 2 ^ 32 }
    requires room { at + length bytes.now ≤ length out.old }
    ensures end { result ≡ at + length bytes.now }
    ensures values { take result out.new ≡ take at out.old ++ map (λ i. base + i) bytes.now }
{
    let positions = &mut out[at..at + bytes.len()];
    for i in 0..bytes.len() {
        positions[i] = base + bytes[i] as u32;
    }
    at + bytes.len()
}

/// Writes 256 numbers from `base` on. Returns the index after the last.
fn unpack_full(base: u32, out: &mut [u32], at: usize) -> usize
    requires fits { base + 256 ≤ 2 ^ 32 }
    requires room { at + 256 ≤ length out.old }
    ensures end { result ≡ at + 256 }
    ensures values { take result out.new ≡ take at out.old ++ map (λ i. base + i) (range_with_len 0 256) }
{
    for i in 0..256 {
        out[at + i] = base + i as u32;
    }
    at + 256
}

/// Writes the numbers of the bits of a word that are 1, in order, each with `base` added. Returns the index after the last.
///
/// It writes four at a time, so up to three items after the end may change too.
#[inline(always)]
pub(crate) fn unpack_ones(word: u64, base: u32, out: &mut [u32], at: usize) -> usize
    requires fits { base + 64 ≤ 2 ^ 32 }
    requires room { at + 64 ≤ length out.old }
    ensures end { result ≡ at + length (ones_from word 0 64) }
    ensures values { take result out.new ≡ take at out.old ++ map (λ i. base + i) (ones_from word 0 64) }
{
    let end = at + word.count_ones() as usize;
    let mut next = at;
    let mut left = word;
    while left != 0 {
        let four = &mut out[next..next + 4];
        for i in 0..4 {
            four[i] = base.wrapping_add(left.trailing_zeros());
            left &= left.wrapping_sub(1);
        }
        next += 4;
    }
    end
}

/// The words of 32 bytes.
#[inline(always)]
pub(crate) fn words_of(bytes: &[u8]) -> [u64; 4]
    requires { length bytes.now ≡ 32 }
    ensures { (i : ℕ) → i < 256 → has_bit result i ≡ has i (ones_from (number_of bytes.now) 0 256) }
{
    [
        word_at(bytes, 0),
        word_at(bytes, 1),
        word_at(bytes, 2),
        word_at(bytes, 3),
    ]
}

/// Word i of some bytes.
#[inline(always)]
pub fn word_at(bytes: &[u8], i: usize) -> u64
    requires { 8 * i + 8 ≤ length bytes.now }
    ensures { result ≡ number_of (take 8 (drop (8 * i) bytes.now)) }
{
    let word = &bytes[8 * i..8 * i + 8];
    u64::from_le_bytes([
        word[0], word[1], word[2], word[3], word[4], word[5], word[6], word[7],
    ])
}
