//! From the bitmap of a chunk to its body.
//! FORMAT.md, "Chunks".

ghost use Rattle.std.specs.Prelude.{◌≡◌, ◌+◌, ◌*◌, ◌<◌, ◌≤◌, ◌++◌, IfSome, IsNone, length, map, take};
ghost use Rattle.std.specs.Int.{bit_at};
ghost use Rattle.bitpack_slices.specs.Bitmaps.{has_bit};
ghost use Rattle.bitpack_slices.specs.Bodies.{numbers};
ghost use Rattle.bitpack_slices.specs.Body.{body};
ghost use Rattle.bitpack_slices.specs.Operations.{those};
ghost use Rattle.bitpack_slices.specs.Runs.{boundaries};
ghost use Rattle.bitpack_slices.specs.Slices.{ones_from};

use crate::bitmap::writing::{LONGEST_BLOCKS, write_blocks};
use crate::chunk::bounds::{MOST_BOUNDS, most_bounds};
use crate::chunk::writing::write_bounds;
use bitpack_groups::write_at;

/// How many bits are 1.
pub fn count_words(words: &[u64; 1024]) -> usize
    ensures count { result ≡ length (those 65536 (has_bit words.now)) }
    ensures few { result ≤ 65536 }
{
    let mut count = 0;
    for word in words {
        count += ones_in(*word);
    }
    count
}

/// How many bits of a word are 1.
#[inline(always)]
fn ones_in(word: u64) -> usize
    ensures few { result ≤ 64 }
    ensures count { result ≡ length (ones_from word 0 64) }
{
    word.count_ones() as usize
}

/// The highest bit of a word.
#[inline(always)]
pub fn highest_bit(word: u64) -> u64
    ensures { result ≡ bit_at word 63 }
{
    word >> 63
}

/// Writes the body of the `count` numbers whose bits are 1. Returns how many bytes it has. The bytes after it may change too.
pub fn write_body(words: &[u64; 1024], count: usize, out: &mut [u8; LONGEST_BLOCKS]) -> usize
    requires count { count ≡ length (those 65536 (has_bit words.now)) }
    requires some { 0 < count }
    ensures few { result ≤ 8449 }
    ensures written { take result out.new ≡ body (those 65536 (has_bit words.now)) }
{
    let mut bounds = [0; MOST_BOUNDS];
    if let Some(len) = find_bounds(words, most_bounds(count), &mut bounds) {
        let size = 2 + 2 * len;
        write_bounds(&bounds[..len], &mut out[..size]);
        return size;
    }
    let size = write_blocks(words, out);
    if size < 2 * count {
        return size;
    }
    write_numbers(words, &mut out[..2 * count]);
    2 * count
}

/// Writes the boundaries of the numbers whose bits are 1, if these are at most `most`. Returns how many there are.
fn find_bounds(words: &[u64; 1024], most: usize, out: &mut [u32; MOST_BOUNDS]) -> Option<usize>
    requires most { most ≤ 64 }
    ensures found { IfSome result (λ len. (len ≤ most) × (take len out.new ≡ boundaries (those 65536 (has_bit words.now)))) }
    ensures many { IsNone result → most < length (boundaries (those 65536 (has_bit words.now))) }
{
    let mut len = 0;
    let mut before = 0;
    for index in 0..1024 {
        let word = words[index];
        // A bit that is not as the one before it.
        let changes = word ^ (word << 1 | before);
        if len + ones_in(changes) > most {
            return None;
        }
        len = put_ones(changes, 64 * index as u32, out, len);
        before = highest_bit(word);
    }
    Some(len)
}

/// Writes the numbers of the bits of a word that are 1, in order, each with `base` added. Returns the index after the last.
#[inline(always)]
fn put_ones(word: u64, base: u32, out: &mut [u32; MOST_BOUNDS], at: usize) -> usize
    requires fits { base + 64 ≤ 65536 }
    requires room { at + length (ones_from word 0 64) ≤ 64 }
    ensures end { result ≡ at + length (ones_from word 0 64) }
    ensures values { take result out.new ≡ take at out.old ++ map (λ i. base + i) (ones_from word 0 64) }
{
    let mut next = at;
    let mut left = word;
    while left != 0 {
        out[next] = base + left.trailing_zeros();
        left &= left.wrapping_sub(1);
        next += 1;
    }
    next
}

/// Writes the numbers whose bits are 1, two bytes for each.
fn write_numbers(words: &[u64; 1024], out: &mut [u8])
    requires size { length out.old ≡ 2 * length (those 65536 (has_bit words.now)) }
    ensures { out.new ≡ numbers (those 65536 (has_bit words.now)) }
{
    let mut next = 0;
    for index in 0..1024 {
        next = write_ones(words[index], 64 * index as u32, out, next);
    }
}

/// Writes the numbers of the bits of a word that are 1, two bytes for each, each with `base` added. Returns the index after the last.
#[inline(always)]
fn write_ones(word: u64, base: u32, out: &mut [u8], at: usize) -> usize
    requires fits { base + 64 ≤ 65536 }
    requires room { 2 * (at + length (ones_from word 0 64)) ≤ length out.old }
    ensures len { length out.new ≡ length out.old }
    ensures end { result ≡ at + length (ones_from word 0 64) }
    ensures values { take (2 * result) out.new ≡ take (2 * at) out.old ++ numbers (map (λ i. base + i) (ones_from word 0 64)) }
{
    let mut next = at;
    let mut left = word;
    while left != 0 {
        write_at(next, 2, base + left.trailing_zeros(), out);
        left &= left.wrapping_sub(1);
        next += 1;
    }
    next
}
