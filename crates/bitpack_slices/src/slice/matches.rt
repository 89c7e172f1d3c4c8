//! Which bytes of a slice another slice has: a bit for each.
//! FORMAT.md, "Chunks".

ghost use Rattle.std.specs.Prelude.{◌≡◌, ℕ, ◌+◌, ◌/◌, ◌%◌, ◌^◌, ◌<◌, ◌≤◌, ◌&&◌, ◌==◌, ◌++◌, if◌then◌else◌, length, nat_lt, slice_index, take};
ghost use Rattle.std.specs.Int.{bit_at};
ghost use Rattle.bitpack_slices.specs.Bodies.{IsRising};
ghost use Rattle.bitpack_slices.specs.Reads.{has, rank};
ghost use Rattle.bitpack_slices.specs.Slices.{number_of, ones_from};

use std::simd::prelude::*;

/// The 32 bytes from an index on, zeros after the last.
#[inline(always)]
pub(crate) fn bytes_from(bytes: &[u8], start: usize) -> u8x32
    requires { start ≤ length bytes.now }
    ensures length { length result ≡ 32 }
    ensures bytes { (i : ℕ) → i < 32 → start + i < length bytes.now → slice_index result i ≡ slice_index bytes.now (start + i) }
{
    if bytes.len() - start >= 32 {
        return u8x32::from_slice(&bytes[start..]);
    }
    last_bytes(&bytes[start..])
}

/// At most 31 bytes, and zeros after them.
#[inline(never)]
fn last_bytes(bytes: &[u8]) -> u8x32
    requires { length bytes.now < 32 }
    ensures length { length result ≡ 32 }
    ensures bytes { (i : ℕ) → i < length bytes.now → slice_index result i ≡ slice_index bytes.now i }
{
    let mut all = [0; 32];
    all[..bytes.len()].copy_from_slice(bytes);
    u8x32::from_array(all)
}

/// Sets the bit of each byte that is among others, of the first `count`.
#[inline(always)]
pub(crate) fn matches_of_bytes(bytes: u8x32, count: usize, others: &[u8]) -> u32
    requires length { length bytes ≡ 32 }
    requires count { count < 32 }
    ensures { (i : ℕ) → i < 32 → (bit_at result i == 1) ≡ (nat_lt i count && has (slice_index bytes i) others.now) }
{
    if others.len() == 0 {
        return 0;
    }
    // The last step takes one to four others, so that it is always taken: a branch that is hard to predict costs more.
    let full = (others.len() - 1) / 4;
    let mut found = equal_to_four(bytes, &four_of(&others[4 * full..]));
    for step in 0..full {
        found = found | equal_to_four(bytes, &others[4 * step..4 * step + 4]);
    }
    let matches = found.simd_eq(u8x32::splat(255)).to_bitmask();
    matches as u32 & ((1 << count) - 1)
}

/// How many of the first `count` bytes, which increase, are below a number.
#[inline(always)]
pub(crate) fn rank_of_bytes(bytes: u8x32, count: usize, number: u8) -> usize
    requires length { length bytes ≡ 32 }
    requires count { count < 32 }
    requires rising { IsRising 0 256 (take count bytes) }
    ensures { result ≡ rank number (take count bytes) }
{
    let others = u8x32::splat(number).simd_le(bytes).to_bitmask();
    (others.trailing_zeros() as usize).min(count)
}

/// All bits of each byte that is one of four others, and no bit of the rest.
#[inline(always)]
fn equal_to_four(bytes: u8x32, others: &[u8]) -> u8x32
    requires length { length bytes ≡ 32 }
    requires four { length others.now ≡ 4 }
    ensures length { length result ≡ 32 }
    ensures bytes { (i : ℕ) → i < 32 → slice_index result i ≡ (if has (slice_index bytes i) others.now then 255 else 0) }
{
    let one = bytes.simd_eq(u8x32::splat(others[0]));
    let two = bytes.simd_eq(u8x32::splat(others[1]));
    let three = bytes.simd_eq(u8x32::splat(others[2]));
    let four = bytes.simd_eq(u8x32::splat(others[3]));
    (one | two | (three | four)).select(u8x32::splat(255), u8x32::splat(0))
}

/// One to four bytes as four: the last again, if they are fewer.
#[inline(always)]
pub(crate) fn four_of(bytes: &[u8]) -> [u8; 4]
    requires some { 0 < length bytes.now }
    requires few { length bytes.now ≤ 4 }
    ensures { (x : ℕ) → has x result ≡ has x bytes.now }
{
    let last = bytes.len() - 1;
    [
        bytes[0],
        bytes[last.min(1)],
        bytes[last.min(2)],
        bytes[last.min(3)],
    ]
}

/// Sets the bit of each byte whose bit of `bits` is 1, of the first `count`.
#[inline(always)]
pub(crate) fn matches_in_bits(bytes: u8x32, count: usize, bits: &[u8]) -> u32
    requires length { length bytes ≡ 32 }
    requires count { count < 32 }
    requires bits { length bits.now ≡ 32 }
    ensures { (i : ℕ) → i < 32 → (bit_at result i == 1) ≡ (nat_lt i count && has (slice_index bytes i) (ones_from (number_of bits.now) 0 256)) }
{
    let first = half_in_bits(bytes.extract::<0, 16>(), bits);
    let last = half_in_bits(bytes.extract::<16, 16>(), bits);
    (first | last << 16) as u32 & ((1 << count) - 1)
}

/// Sets the bit of each of 16 bytes whose bit of `bits` is 1.
#[inline(always)]
fn half_in_bits(bytes: u8x16, bits: &[u8]) -> u64
    requires { length bits.now ≡ 32 }
    ensures few { result < 2 ^ 16 }
    ensures matches { (i : ℕ) → i < 16 → (bit_at result i == 1) ≡ has (slice_index bytes i) (ones_from (number_of bits.now) 0 256) }
{
    let low = u8x16::from_slice(bits);
    let high = u8x16::from_slice(&bits[16..]);
    let ones = ones_of(bytes);
    (bytes_with(low, high, bytes) & ones)
        .simd_eq(ones)
        .to_bitmask()
}

/// The byte of 32 that the bit of each number is in.
#[inline(always)]
fn bytes_with(low: u8x16, high: u8x16, numbers: u8x16) -> u8x16
    ensures { (i : ℕ) → i < 16 → slice_index result i ≡ slice_index (low ++ high) (slice_index numbers i / 8) }
{
    let index = numbers >> u8x16::splat(3) & u8x16::splat(15);
    let in_low = low.swizzle_dyn(index);
    let in_high = high.swizzle_dyn(index);
    numbers.simd_lt(u8x16::splat(128)).select(in_low, in_high)
}

/// The bit of each number in its byte.
#[inline(always)]
fn ones_of(numbers: u8x16) -> u8x16
    ensures { (i : ℕ) → i < 16 → slice_index result i ≡ 2 ^ (slice_index numbers i % 8) }
{
    let ones = u8x16::from_array([1, 2, 4, 8, 16, 32, 64, 128, 1, 2, 4, 8, 16, 32, 64, 128]);
    ones.swizzle_dyn(numbers & u8x16::splat(7))
}
