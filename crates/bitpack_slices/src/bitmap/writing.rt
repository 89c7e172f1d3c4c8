//! Writes the numbers of a bitmap as blocks.
//!
//! FORMAT.md, "Chunks":
//!
//! ```text
//! r - 1 | slice of the r high bytes that occur | r counts, each less 1 | r slices of low bytes
//! ```

ghost use Rattle.std.specs.Prelude.{◌≡◌, ℕ, ◌+◌, ◌-◌, ◌*◌, ◌<◌, ◌≤◌, ◌++◌, ◌==◌, length, map, nat_lt, slice_index, take};
ghost use Rattle.std.specs.Int.{bit_at};
ghost use Rattle.std.specs.List.{flat_map};
ghost use Rattle.bitpack_slices.specs.Bitmaps.{has_bit, high_lows};
ghost use Rattle.bitpack_slices.specs.Bodies.{IsRising, bits, blocks, le_bytes, slice};
ghost use Rattle.bitpack_slices.specs.Operations.{those};
ghost use Rattle.bitpack_slices.specs.Slices.{ones_from, slice_len};

use crate::bitmap::unpacking::{count_bits, unpack_bits};
use crate::slice::byte_len;
use crate::slice::rows::positions_in;

/// The most bytes that blocks have: the number of high bytes, 256 counts, and 256 slices of 32 bytes.
pub const LONGEST_BLOCKS: usize = 8449;

/// With more numbers than this, a short slice is written byte by byte of the bits. On a Xeon of model 85, `write_blocks` takes 1.4 times as long
/// with 8 for 12 numbers of each high byte, and 1.15 times with 31 for 24.
const FEW: usize = 16;

/// The room for a short slice that is written several bytes at a time: 31 bytes, and as many after them as a word has bits.
const ROOM: usize = 96;

/// Writes the blocks of the numbers whose bits are 1. Returns how many bytes it wrote.
pub fn write_blocks(words: &[u64; 1024], out: &mut [u8; LONGEST_BLOCKS]) -> usize
    requires some { 0 < length (those 65536 (has_bit words.now)) }
    ensures few { result ≤ 8449 }
    ensures written { take result out.new ≡ blocks (those 65536 (has_bit words.now)) }
{
    let bits = high_bits(words);
    let mut room = [0; 256];
    let count = unpack_bits(&bits, 0, &mut room, 0);
    let size = byte_len(count);
    let (head, rest) = out.split_at_mut(1);
    let (first, parts) = rest.split_at_mut(size);
    let (counts, slices) = parts.split_at_mut(count);
    let len = put_slices(words, &room[..count], counts, slices);
    put_slice(&bits, count, first);
    head[0] = (count - 1) as u8;
    1 + size + count + len
}

/// The high bytes of the numbers, as bits.
fn high_bits(words: &[u64; 1024]) -> [u64; 4]
    ensures { (h : ℕ) → h < 256 → has_bit result h ≡ nat_lt 0 (length (high_lows words.now h)) }
{
    [
        high_word(words, 0),
        high_word(words, 64),
        high_word(words, 128),
        high_word(words, 192),
    ]
}

/// Which of 64 high bytes, from one on, the numbers have.
#[inline(always)]
fn high_word(words: &[u64], first: usize) -> u64
    requires size { length words.now ≡ 1024 }
    requires within { first + 64 ≤ 256 }
    ensures { (i : ℕ) → i < 64 → (bit_at result i == 1) ≡ nat_lt 0 (length (high_lows words.now (first + i))) }
{
    let mut bits = 0;
    for i in 0..64 {
        let at = 4 * (first + i);
        let any = words[at] | words[at + 1] | words[at + 2] | words[at + 3];
        bits |= ((any != 0) as u64) << i;
    }
    bits
}

/// Writes for each of these high bytes how many numbers have it, less 1, and the slice of their low bytes. Returns how many bytes the slices have.
fn put_slices(words: &[u64; 1024], highs: &[u32], counts: &mut [u8], slices: &mut [u8]) -> usize
    requires highs { IsRising 0 256 highs.now }
    requires some { (i : ℕ) → i < length highs.now → 0 < length (high_lows words.now (slice_index highs.now i)) }
    requires counts { length counts.old ≡ length highs.now }
    requires room { 32 * length highs.now ≤ length slices.old }
    ensures few { result ≤ 32 * length highs.now }
    ensures counts { counts.new ≡ map (λ high. length (high_lows words.now high) - 1) highs.now }
    ensures slices { take result slices.new ≡ flat_map (λ high. slice (high_lows words.now high)) highs.now }
{
    let mut end = 0;
    for index in 0..highs.len() {
        let from = 4 * highs[index] as usize;
        let bits = &words[from..from + 4];
        let count = count_bits(bits);
        counts[index] = (count - 1) as u8;
        end = put_slice_at(bits, count, slices, end);
    }
    end
}

/// Writes the slice of the numbers of bits that are 1, of 256, from an index on. Returns the index after the last byte.
///
/// If there is room, it writes several bytes of a short slice at a time, so up to eight bytes after the end may change too.
#[inline(always)]
pub(crate) fn put_slice_at(bits: &[u64], count: usize, out: &mut [u8], at: usize) -> usize
    requires bits { length bits.now ≡ 4 }
    requires count { count ≡ length (those 256 (has_bit bits.now)) }
    requires room { at + slice_len count ≤ length out.old }
    ensures end { result ≡ at + slice_len count }
    ensures written { take result out.new ≡ take at out.old ++ slice (those 256 (has_bit bits.now)) }
{
    if count < 32 && out.len() - at >= ROOM {
        return put_short(bits, count, out, at);
    }
    let end = at + byte_len(count);
    put_slice(bits, count, &mut out[at..end]);
    end
}

/// Writes the numbers of bits that are 1, of 256, if they are few. Returns the index after the last.
#[inline(always)]
fn put_short(bits: &[u64], count: usize, out: &mut [u8], at: usize) -> usize
    requires bits { length bits.now ≡ 4 }
    requires room { at + length (those 256 (has_bit bits.now)) + 64 ≤ length out.old }
    ensures end { result ≡ at + length (those 256 (has_bit bits.now)) }
    ensures values { take result out.new ≡ take at out.old ++ those 256 (has_bit bits.now) }
{
    if count > FEW {
        put_bytes(bits, out, at)
    } else {
        put_fours(bits, out, at)
    }
}

/// Writes the numbers of bits that are 1, of 256, four at a time. Returns the index after the last.
#[inline(always)]
fn put_fours(bits: &[u64], out: &mut [u8], at: usize) -> usize
    requires bits { length bits.now ≡ 4 }
    requires room { at + length (those 256 (has_bit bits.now)) + 64 ≤ length out.old }
    ensures end { result ≡ at + length (those 256 (has_bit bits.now)) }
    ensures values { take result out.new ≡ take at out.old ++ those 256 (has_bit bits.now) }
{
    let mut next = at;
    for i in 0..4 {
        next = put_four(bits[i], 64 * i as u8, out, next);
    }
    next
}

/// Writes the numbers of the bits of a word that are 1, in order, each with `base` added. Returns the index after the last.
///
/// It writes four at a time, so up to three bytes after the end may change too.
#[inline(always)]
fn put_four(word: u64, base: u8, out: &mut [u8], at: usize) -> usize
    requires fits { base + 64 ≤ 256 }
    requires room { at + 64 ≤ length out.old }
    ensures end { result ≡ at + length (ones_from word 0 64) }
    ensures values { take result out.new ≡ take at out.old ++ map (λ i. base + i) (ones_from word 0 64) }
{
    let end = at + word.count_ones() as usize;
    let mut next = at;
    let mut left = word;
    while left != 0 {
        let four = &mut out[next..next + 4];
        for i in 0..4 {
            four[i] = base.wrapping_add(left.trailing_zeros() as u8);
            left &= left.wrapping_sub(1);
        }
        next += 4;
    }
    end
}

/// Writes the numbers of bits that are 1, of 256, byte by byte. Returns the index after the last. Not inlined, so that fewer numbers take less time.
#[inline(never)]
fn put_bytes(bits: &[u64], out: &mut [u8], at: usize) -> usize
    requires bits { length bits.now ≡ 4 }
    requires room { at + length (those 256 (has_bit bits.now)) + 8 ≤ length out.old }
    ensures end { result ≡ at + length (those 256 (has_bit bits.now)) }
    ensures values { take result out.new ≡ take at out.old ++ those 256 (has_bit bits.now) }
{
    let mut next = at;
    for i in 0..4 {
        next = put_word(bits[i], 64 * i as u8, out, next);
    }
    next
}

/// Writes the numbers of the bits of a word that are 1, byte by byte, each with `base` added. Returns the index after the last.
#[inline(always)]
fn put_word(word: u64, base: u8, out: &mut [u8], at: usize) -> usize
    requires fits { base + 64 ≤ 256 }
    requires room { at + length (ones_from word 0 64) + 8 ≤ length out.old }
    ensures end { result ≡ at + length (ones_from word 0 64) }
    ensures values { take result out.new ≡ take at out.old ++ map (λ i. base + i) (ones_from word 0 64) }
{
    let mut next = at;
    for i in 0..8u8 {
        let byte = (word >> (8 * i) & 255) as u8;
        next = put_byte(byte, base + 8 * i, out, next);
    }
    next
}

/// Writes the numbers of the bits of a byte that are 1, in order, each with `base` added. Returns the index after the last.
///
/// It always writes eight, so up to eight bytes after the end may change too.
#[inline(always)]
fn put_byte(byte: u8, base: u8, out: &mut [u8], at: usize) -> usize
    requires fits { base + 8 ≤ 256 }
    requires room { at + 8 ≤ length out.old }
    ensures end { result ≡ at + length (ones_from byte 0 8) }
    ensures values { take result out.new ≡ take at out.old ++ map (λ i. base + i) (ones_from byte 0 8) }
{
    let row = positions_in(byte);
    let window = &mut out[at..at + 8];
    for i in 0..8 {
        window[i] = base + row[i];
    }
    at + byte.count_ones() as usize
}

/// Writes the slice of the numbers of bits that are 1, of 256.
#[inline(always)]
pub(crate) fn put_slice(bits: &[u64], count: usize, out: &mut [u8])
    requires bits { length bits.now ≡ 4 }
    requires count { count ≡ length (those 256 (has_bit bits.now)) }
    requires size { length out.old ≡ slice_len count }
    ensures { out.new ≡ slice (those 256 (has_bit bits.now)) }
{
    if count < 32 {
        put_last(bits, count, out);
    } else if count < 256 {
        write_words(bits, out);
    }
}

/// Writes the bytes of words, the lowest first.
#[inline(always)]
pub fn write_words(words: &[u64], out: &mut [u8])
    requires { length out.old ≡ 8 * length words.now }
    ensures { out.new ≡ le_bytes (8 * length words.now) (bits (those (64 * length words.now) (has_bit words.now))) }
{
    for index in 0..words.len() {
        out[8 * index..8 * index + 8].copy_from_slice(&words[index].to_le_bytes());
    }
}

/// Writes the numbers of bits that are 1, of 256, if there is room only for these numbers. Not inlined, since each call clears its own buffer.
#[inline(never)]
fn put_last(bits: &[u64], count: usize, out: &mut [u8])
    requires bits { length bits.now ≡ 4 }
    requires few { length (those 256 (has_bit bits.now)) < 32 }
    requires size { length out.old ≡ length (those 256 (has_bit bits.now)) }
    ensures { out.new ≡ those 256 (has_bit bits.now) }
{
    let mut room = [0; ROOM];
    let end = put_short(bits, count, &mut room, 0);
    out.copy_from_slice(&room[..end]);
}
