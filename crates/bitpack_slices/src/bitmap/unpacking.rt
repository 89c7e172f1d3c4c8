//! Unpacks and counts the numbers of bitmaps.

ghost use Rattle.std.specs.Prelude.{◌≡◌, ◌+◌, ◌*◌, ◌^◌, ◌<◌, ◌≤◌, ◌++◌, length, map, slice_index, take};
ghost use Rattle.std.specs.List.{All};
ghost use Rattle.bitpack_slices.specs.Bitmaps.{bitmap_numbers, has_bit};
ghost use Rattle.bitpack_slices.specs.Operations.{those};
ghost use Rattle.bitpack_slices.specs.Reads.{ids_from};
ghost use Rattle.bitpack_slices.specs.Bodies.{IsRising};

use crate::slice::positions::unpack_bytes_of;
use crate::slice::reading::unpack_ones;

/// With more numbers than this, they are written byte by byte. On a Xeon of model 85, a call takes 1.6 to 2.2 times as long with 0 for 6 to
/// 14 numbers, 0.75 times with 32 for 24, 1.08 times with 32 for 31, and 1.3 times with 256 for 87.
const FEW: usize = 16;

/// Writes the numbers of bits that are 1, of 256, each with `base` added. Returns the index after the last.
#[inline(always)]
pub fn unpack_bits(bits: &[u64], base: u32, out: &mut [u32], at: usize) -> usize
    requires size { length bits.now ≡ 4 }
    requires fits { base + 256 ≤ 2 ^ 32 }
    requires room { at + 256 ≤ length out.old }
    ensures end { result ≡ at + length (those 256 (has_bit bits.now)) }
    ensures values { take result out.new ≡ take at out.old ++ map (λ i. base + i) (those 256 (has_bit bits.now)) }
{
    if count_bits(bits) > FEW {
        unpack_many(bits, base, out, at)
    } else {
        unpack_few(bits, base, out, at)
    }
}

/// Writes the numbers of the bits, as `unpack_bits`, word by word, one number after the other.
#[inline(always)]
fn unpack_few(bits: &[u64], base: u32, out: &mut [u32], at: usize) -> usize
    requires size { length bits.now ≡ 4 }
    requires fits { base + 256 ≤ 2 ^ 32 }
    requires room { at + 256 ≤ length out.old }
    ensures end { result ≡ at + length (those 256 (has_bit bits.now)) }
    ensures values { take result out.new ≡ take at out.old ++ map (λ i. base + i) (those 256 (has_bit bits.now)) }
{
    let mut next = at;
    for i in 0..4 {
        next = unpack_ones(bits[i], base + 64 * i as u32, out, next);
    }
    next
}

/// Writes the numbers of the bits, as `unpack_bits`, byte by byte.
#[inline(always)]
pub(crate) fn unpack_many(bits: &[u64], base: u32, out: &mut [u32], at: usize) -> usize
    requires size { length bits.now ≡ 4 }
    requires fits { base + 256 ≤ 2 ^ 32 }
    requires room { at + 256 ≤ length out.old }
    ensures end { result ≡ at + length (those 256 (has_bit bits.now)) }
    ensures values { take result out.new ≡ take at out.old ++ map (λ i. base + i) (those 256 (has_bit bits.now)) }
{
    let mut next = at;
    for i in 0..4 {
        next = unpack_bytes_of(bits[i], base + 64 * i as u32, out, next);
    }
    next
}

/// Writes the numbers of the bits, as `unpack_bits`, also if there is room only for these numbers.
pub(crate) fn unpack_bits_within(bits: &[u64], base: u32, out: &mut [u32], at: usize) -> usize
    requires size { length bits.now ≡ 4 }
    requires fits { base + 256 ≤ 2 ^ 32 }
    requires room { at + length (those 256 (has_bit bits.now)) ≤ length out.old }
    ensures end { result ≡ at + length (those 256 (has_bit bits.now)) }
    ensures values { take result out.new ≡ take at out.old ++ map (λ i. base + i) (those 256 (has_bit bits.now)) }
{
    if out.len() - at >= 256 {
        return unpack_bits(bits, base, out, at);
    }
    unpack_last(bits, base, out, at)
}

/// Writes the numbers of the bits if there is room only for these numbers. Not inlined, since each call clears its own buffer.
#[inline(never)]
fn unpack_last(bits: &[u64], base: u32, out: &mut [u32], at: usize) -> usize
    requires size { length bits.now ≡ 4 }
    requires fits { base + 256 ≤ 2 ^ 32 }
    requires room { at + length (those 256 (has_bit bits.now)) ≤ length out.old }
    ensures end { result ≡ at + length (those 256 (has_bit bits.now)) }
    ensures values { take result out.new ≡ take at out.old ++ map (λ i. base + i) (those 256 (has_bit bits.now)) }
{
    let mut numbers = [0; 256];
    let end = unpack_bits(bits, base, &mut numbers, 0);
    out[at..at + end].copy_from_slice(&numbers[..end]);
    at + end
}

/// Writes the numbers from `least` on, as many as there is room for. Returns the index after the last, and the first number that it did not write.
pub fn unpack_bits_from(
    bits: &[u64],
    base: u32,
    least: u32,
    out: &mut [u32],
    at: usize,
) -> (usize, u64)
    requires size { length bits.now ≡ 4 }
    requires fits { base + 256 ≤ 2 ^ 32 }
    requires least { (base ≤ least) × (least < base + 256) }
    requires room { at < length out.old }
    ensures room { result.0 ≤ length out.old }
    ensures later { least < result.1 }
    ensures within { result.1 ≤ base + 256 }
    ensures ids { let numbers = map (λ i. base + i) (those 256 (has_bit bits.now)) in
        take result.0 out.new ++ ids_from result.1 numbers ≡ take at out.old ++ ids_from least numbers }
{
    if least == base && out.len() - at >= 256 {
        return (unpack_bits(bits, base, out, at), base as u64 + 256);
    }
    let mut numbers = [0; 256];
    let count = unpack_bits(bits, base, &mut numbers, 0);
    let numbers = &numbers[..count];
    let first = count_below(numbers, least);
    let written = (count - first).min(out.len() - at);
    out[at..at + written].copy_from_slice(&numbers[first..first + written]);
    let end = first + written;
    if end < count {
        return (at + written, numbers[end] as u64);
    }
    (at + written, base as u64 + 256)
}

/// How many of increasing numbers are below `bound`.
fn count_below(numbers: &[u32], bound: u32) -> usize
    ensures within { result ≤ length numbers.now }
    ensures below { All (λ x. x < bound) (take result numbers.now) }
    ensures above { result < length numbers.now → bound ≤ slice_index numbers.now result }
{
    let mut count = 0;
    while count < numbers.len() && numbers[count] < bound {
        count += 1;
    }
    count
}

/// Writes the numbers of a bitmap that have these high bytes, each with `base` added. Returns the index after the last.
pub fn unpack_bitmap(
    highs: &[u32],
    words: &[u64; 1024],
    base: u32,
    out: &mut [u32],
    at: usize,
) -> usize
    requires highs { IsRising 0 256 highs.now }
    requires fits { base + 65536 ≤ 2 ^ 32 }
    requires room { at + length (bitmap_numbers highs.now words.now) ≤ length out.old }
    ensures end { result ≡ at + length (bitmap_numbers highs.now words.now) }
    ensures values { take result out.new ≡ take at out.old ++ map (λ i. base + i) (bitmap_numbers highs.now words.now) }
{
    let mut next = at;
    for high in highs {
        let from = 4 * *high as usize;
        next = unpack_bits_within(&words[from..from + 4], base + 256 * *high, out, next);
    }
    next
}

/// How many numbers a bitmap has that have these high bytes.
pub fn count_bitmap(highs: &[u32], words: &[u64; 1024]) -> usize
    requires { IsRising 0 256 highs.now }
    ensures { result ≡ length (bitmap_numbers highs.now words.now) }
{
    let mut count = 0;
    for high in highs {
        let from = 4 * *high as usize;
        count += count_bits(&words[from..from + 4]);
    }
    count
}

/// How many of 256 bits are 1.
#[inline(always)]
pub(crate) fn count_bits(bits: &[u64]) -> usize
    requires { length bits.now ≡ 4 }
    ensures { result ≡ length (those 256 (has_bit bits.now)) }
{
    let mut count = 0;
    for word in bits {
        count += word.count_ones() as usize;
    }
    count
}
