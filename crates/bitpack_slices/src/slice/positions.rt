//! Writes the numbers of bits, and bytes whose bits are 1, by vectors.
//! FORMAT.md, "Chunks": slices.

ghost use Rattle.std.specs.Prelude.{◌≡◌, ◌+◌, ◌^◌, ◌≤◌, ◌++◌, length, map, replicate, slice_index, take};
ghost use Rattle.bitpack_slices.specs.Selections.{matched};
ghost use Rattle.bitpack_slices.specs.Slices.{ones_from};

use crate::slice::rows::positions_in;
use std::simd::prelude::*;

/// Writes the numbers of the bits of a byte that are 1, in order. Each lane of `base` is the number of bit 0. Returns the index after the last.
///
/// It always writes eight, so up to eight items after the end may change too.
#[inline(always)]
fn unpack_byte(byte: u8, base: u32x8, out: &mut [u32], at: usize) -> usize
    requires base { base ≡ replicate 8 (slice_index base 0) }
    requires fits { slice_index base 0 + 8 ≤ 2 ^ 32 }
    requires room { at + 8 ≤ length out.old }
    ensures end { result ≡ at + length (ones_from byte 0 8) }
    ensures values { take result out.new ≡ take at out.old ++ map (λ i. slice_index base 0 + i) (ones_from byte 0 8) }
{
    let positions: u32x8 = u8x8::from_array(positions_in(byte)).cast();
    (positions + base).copy_to_slice(&mut out[at..]);
    at + byte.count_ones() as usize
}

/// Writes the numbers of the bits of a word that are 1, in order, each with `base` added. Returns the index after the last.
///
/// Does so by bytes, which takes the same time for any word.
#[inline(always)]
pub(crate) fn unpack_bytes_of(word: u64, base: u32, out: &mut [u32], at: usize) -> usize
    requires fits { base + 64 ≤ 2 ^ 32 }
    requires room { at + 64 ≤ length out.old }
    ensures end { result ≡ at + length (ones_from word 0 64) }
    ensures values { take result out.new ≡ take at out.old ++ map (λ i. base + i) (ones_from word 0 64) }
{
    at + unpack_window(word, base, &mut out[at..at + 64])
}

/// Writes the numbers of the bits of a word that are 1 to the start of 64 items, each with `base` added. Returns how many there are.
#[inline(always)]
fn unpack_window(word: u64, base: u32, window: &mut [u32]) -> usize
    requires fits { base + 64 ≤ 2 ^ 32 }
    requires room { length window.old ≡ 64 }
    ensures count { result ≡ length (ones_from word 0 64) }
    ensures values { take result window.new ≡ map (λ i. base + i) (ones_from word 0 64) }
{
    let mut next = 0;
    let mut lanes = u32x8::splat(base);
    for i in 0..8u32 {
        let byte = (word >> (8 * i) & 255) as u8;
        next = unpack_byte(byte, lanes, window, next);
        lanes = lanes + u32x8::splat(8);
    }
    next
}

/// Writes the bytes whose bit is 1, of eight, in order. Each lane of `base` is added to one. Returns the index after the last.
///
/// It always writes eight, so up to eight items after the end may change too.
#[inline(always)]
fn unpack_eight(bytes: u8x8, matches: u8, base: u32x8, out: &mut [u32], at: usize) -> usize
    requires base { base ≡ replicate 8 (slice_index base 0) }
    requires fits { slice_index base 0 + 256 ≤ 2 ^ 32 }
    requires room { at + 8 ≤ length out.old }
    ensures end { result ≡ at + length (ones_from matches 0 8) }
    ensures values { take result out.new ≡ take at out.old ++ map (λ i. slice_index base 0 + i) (map (slice_index bytes) (ones_from matches 0 8)) }
{
    let chosen: u32x8 = bytes
        .swizzle_dyn(u8x8::from_array(positions_in(matches)))
        .cast();
    (chosen + base).copy_to_slice(&mut out[at..]);
    at + matches.count_ones() as usize
}

/// Writes 32 bytes, each with `base` added.
///
/// Does so by vectors, since a compiler that cannot tell that the slices lie apart makes none of a loop over bytes.
#[inline(always)]
pub(crate) fn unpack_32(bytes: &[u8], base: u32, out: &mut [u32], at: usize)
    requires size { length bytes.now ≡ 32 }
    requires fits { base + 256 ≤ 2 ^ 32 }
    requires room { at + 32 ≤ length out.old }
    ensures { take (at + 32) out.new ≡ take at out.old ++ map (λ i. base + i) bytes.now }
{
    for i in 0..4 {
        put_eight(
            u8x8::from_slice(&bytes[8 * i..]),
            u32x8::splat(base),
            out,
            at + 8 * i,
        );
    }
}

/// Writes eight bytes, each with `base` added.
#[inline(always)]
pub(crate) fn unpack_8(bytes: &[u8], base: u32, out: &mut [u32], at: usize)
    requires size { length bytes.now ≡ 8 }
    requires fits { base + 256 ≤ 2 ^ 32 }
    requires room { at + 8 ≤ length out.old }
    ensures { take (at + 8) out.new ≡ take at out.old ++ map (λ i. base + i) bytes.now }
{
    put_eight(u8x8::from_slice(bytes), u32x8::splat(base), out, at);
}

/// Writes eight bytes, in order. Each lane of `base` is added to one.
#[inline(always)]
fn put_eight(bytes: u8x8, base: u32x8, out: &mut [u32], at: usize)
    requires base { base ≡ replicate 8 (slice_index base 0) }
    requires fits { slice_index base 0 + 256 ≤ 2 ^ 32 }
    requires room { at + 8 ≤ length out.old }
    ensures { take (at + 8) out.new ≡ take at out.old ++ map (λ i. slice_index base 0 + i) bytes }
{
    let eight: u32x8 = bytes.cast();
    (eight + base).copy_to_slice(&mut out[at..]);
}

/// Writes the bytes whose bit is 1, in order, each with `base` added. Returns the index after the last.
///
/// Does so by eight bytes, which takes the same time for any matches.
#[inline(always)]
pub(crate) fn unpack_chosen(
    bytes: &[u8],
    matches: u32,
    base: u32,
    out: &mut [u32],
    at: usize,
) -> usize
    requires size { length bytes.now ≡ 32 }
    requires fits { base + 256 ≤ 2 ^ 32 }
    requires room { at + 32 ≤ length out.old }
    ensures end { result ≡ at + length (matched matches bytes.now) }
    ensures values { take result out.new ≡ take at out.old ++ map (λ i. base + i) (matched matches bytes.now) }
{
    if matches == 0 {
        return at;
    }
    let mut next = at;
    for i in 0..4 {
        let some = (matches >> (8 * i) & 255) as u8;
        let eight = u8x8::from_slice(&bytes[8 * i..]);
        next = unpack_eight(eight, some, u32x8::splat(base), out, next);
    }
    next
}

/// Writes the bytes whose bit is 1, in order. Returns the index after the last.
///
/// It writes eight at a time, up to the last whose bit is 1.
#[inline(always)]
pub(crate) fn put_chosen(bytes: &[u8], matches: u32, out: &mut [u8], at: usize) -> usize
    requires size { length bytes.now ≡ 32 }
    requires room { at + 32 ≤ length out.old }
    ensures end { result ≡ at + length (matched matches bytes.now) }
    ensures values { take result out.new ≡ take at out.old ++ matched matches bytes.now }
{
    let mut next = at;
    for i in 0..4 {
        let left = matches >> (8 * i);
        if left == 0 {
            return next;
        }
        let eight = u8x8::from_slice(&bytes[8 * i..]);
        next = put_some(eight, (left & 255) as u8, out, next);
    }
    next
}

/// Writes the bytes whose bit is 1, of eight, in order. Returns the index after the last.
///
/// It always writes eight, so up to eight bytes after the end may change too.
#[inline(always)]
fn put_some(bytes: u8x8, matches: u8, out: &mut [u8], at: usize) -> usize
    requires room { at + 8 ≤ length out.old }
    ensures end { result ≡ at + length (ones_from matches 0 8) }
    ensures values { take result out.new ≡ take at out.old ++ map (slice_index bytes) (ones_from matches 0 8) }
{
    bytes
        .swizzle_dyn(u8x8::from_array(positions_in(matches)))
        .copy_to_slice(&mut out[at..]);
    at + matches.count_ones() as usize
}
