//! Counts the boundaries of numbers: where runs begin, and the first number after each.
//!
//! No branch depends on a number, so that the compiler compares several at once. Each run but one that goes on to 65535 has two boundaries.

ghost use Rattle.std.specs.Prelude.{◌≡◌, ℕ, ◌+◌, ◌-◌, ◌%◌, ◌/◌, ◌<◌, ◌≤◌, ◌==◌, ◌&&◌, not, if◌then◌else◌, length, map, nat_le, nat_lt, slice_index};
ghost use Rattle.std.specs.Int.{bit_at};
ghost use Rattle.std.specs.List.{filter};
ghost use Rattle.bitpack_slices.specs.Bitmaps.{has_bit};
ghost use Rattle.bitpack_slices.specs.Bodies.{IsRising};
ghost use Rattle.bitpack_slices.specs.Operations.{those};
ghost use Rattle.bitpack_slices.specs.Reads.{has};
ghost use Rattle.bitpack_slices.specs.Runs.{are_few, boundaries};
ghost use Rattle.bitpack_slices.specs.Slices.{pairs_of, slice_len, slice_numbers};

use crate::bitmap::single_bits::{slice_bits, test_bit};
use crate::bitmap::unpacking::count_bits;
use crate::chunk::parts::Parts;
use crate::chunk::search::number_at;
use crate::slice::byte_len;
use crate::slice::reading::unpack_slice;

/// The most boundaries of a body of runs.
pub const MOST_BOUNDS: usize = 64;

/// The least numbers for each boundary of a body of runs.
const LEAST_NUMBERS: usize = 8;

/// The most boundaries of a body of runs of `count` numbers.
#[inline(always)]
pub fn most_bounds(count: usize) -> usize
    ensures most { result ≤ 64 }
    ensures few { (bounds : ℕ) → are_few bounds count ≡ nat_le bounds result }
{
    (count / LEAST_NUMBERS).min(MOST_BOUNDS)
}

/// How many boundaries the numbers of a body of numbers have.
pub(crate) fn count_in_numbers(body: &[u8]) -> usize
    requires rising { IsRising 0 65536 (pairs_of body.now) }
    requires some { 2 ≤ length body.now }
    ensures { result ≡ length (boundaries (pairs_of body.now)) }
{
    let last = body.len() / 2 - 1;
    // As wide as the numbers: each run ends two numbers or more before the next one ends.
    let mut runs: u16 = 1;
    for index in 0..last {
        runs += (number_at(body, index + 1) != number_at(body, index) + 1) as u16;
    }
    2 * runs as usize - (number_at(body, last) == 65535) as usize
}

/// How many boundaries the low 16 bits of increasing ids of one chunk have.
pub fn count_in_ids(ids: &[u32]) -> usize
    requires rising { IsRising 0 65536 (map (λ id. id % 65536) ids.now) }
    requires shared { (k : ℕ) → k < length ids.now → slice_index ids.now k / 65536 ≡ slice_index ids.now 0 / 65536 }
    requires some { 0 < length ids.now }
    ensures { result ≡ length (boundaries (map (λ id. id % 65536) ids.now)) }
{
    let later = &ids[1..];
    let mut runs: u32 = 1;
    for index in 0..later.len() {
        runs += (later[index] != ids[index] + 1) as u32;
    }
    2 * runs as usize - (ids[ids.len() - 1] % 65536 == 65535) as usize
}

/// A number that is after no number of a chunk.
const NO_END: u32 = 65537;

impl<'a> Parts<'a> {
    ghost use Rattle.std.specs.Prelude.{◌≡◌, ◌≤◌, nat_le, length};
    ghost use Rattle.bitpack_slices.specs.Parts.{numbers_in_parts};
    ghost use Rattle.bitpack_slices.specs.Runs.{boundaries};

    /// Whether the numbers of the body have at most `most` boundaries.
    pub(crate) fn has_few_bounds(self, most: usize) -> bool
        requires { most ≤ 64 }
        ensures { result ≡ nat_le (length (boundaries (numbers_in_parts self.entry))) most }
    {
        // Each slice that is not full has a boundary.
        if count_partial(self.counts) > most {
            return false;
        }
        let mut highs = [0; 256];
        unpack_slice(self.counts.len(), self.highs, 0, &mut highs, 0);
        let mut runs = 0;
        let mut offset = 0;
        let mut end = NO_END;
        for i in 0..self.counts.len() {
            let count = self.counts[i] as usize + 1;
            let size = byte_len(count);
            let first = 256 * highs[i];
            let slice = &self.slices[offset..offset + size];
            let (more, goes_on) = runs_in(count, slice, end == first);
            runs += more;
            if 2 * runs > most + 1 {
                return false;
            }
            offset += size;
            end = if goes_on { first + 256 } else { NO_END };
        }
        2 * runs - (end == 65536) as usize <= most
    }
}

/// How many slices are not full; each count less 1 is given.
fn count_partial(counts: &[u8]) -> usize
    requires { length counts.now ≤ 256 }
    ensures { result ≡ length (filter (λ less. nat_lt less 255) counts.now) }
{
    let mut count: u16 = 0;
    for less in counts {
        count += (*less < 255) as u16;
    }
    count as usize
}

/// How many runs begin in a slice, and whether it has 255. A number 0 begins none if the number before it is in the chunk.
fn runs_in(count: usize, bytes: &[u8], joined: bool) -> (usize, bool)
    requires count { count ≤ 256 }
    requires size { length bytes.now ≡ slice_len count }
    ensures runs { let numbers = slice_numbers count bytes.now in
        result.0 ≡ length (those 256 (λ i. has i numbers && not (if i == 0 then joined else has (i - 1) numbers))) }
    ensures last { result.1 ≡ has 255 (slice_numbers count bytes.now) }
{
    if count == 256 {
        return (!joined as usize, true);
    }
    let bits = slice_bits(count, bytes);
    (count_bits(&begins(&bits, joined)), test_bit(&bits, 255))
}

/// The bits that are 1 after a bit that is 0. The bit before the first is given.
#[inline(always)]
fn begins(bits: &[u64; 4], before: bool) -> [u64; 4]
    ensures first { has_bit result 0 ≡ (has_bit bits.now 0 && not before) }
    ensures later { (i : ℕ) → i < 255 → has_bit result (i + 1) ≡ (has_bit bits.now (i + 1) && not (has_bit bits.now i)) }
{
    [
        begins_in(bits[0], before),
        begins_in(bits[1], test_bit(bits, 63)),
        begins_in(bits[2], test_bit(bits, 127)),
        begins_in(bits[3], test_bit(bits, 191)),
    ]
}

/// The bits of a word that are 1 after a bit that is 0. The bit before the first is given.
#[inline(always)]
fn begins_in(word: u64, before: bool) -> u64
    ensures first { (bit_at result 0 == 1) ≡ ((bit_at word 0 == 1) && not before) }
    ensures later { (i : ℕ) → i < 63 → (bit_at result (i + 1) == 1) ≡ ((bit_at word (i + 1) == 1) && not (bit_at word i == 1)) }
{
    word & !(word << 1 | before as u64)
}
