//! Unpacks the numbers of bodies, in order.
//! FORMAT.md, "Chunks".

ghost use Rattle.std.specs.Prelude.{◌≡◌, ◌+◌, ◌*◌, ◌/◌, ◌^◌, ◌<◌, ◌≤◌, ◌++◌, drop, length, map, slice_index, take};
ghost use Rattle.bitpack_slices.specs.Slices.{AreSlices, IsBlocks, IsSlice, block_numbers, numbers_in, numbers_of, pairs_of, slice_len, slice_numbers, slices_len};

use crate::chunk::parts::Parts;
use crate::chunk::place::Place;
use crate::chunk::search::number_at;
use crate::slice::byte_len;
use crate::slice::reading::{unpack_from, unpack_slice, unpack_some};

/// With at most this many bytes a slice on average, most slices have at most eight numbers. On a Xeon of model 85, a call takes 1.3 times as long
/// with 0 for 2.6 numbers of each slice.
const FEW: usize = 6;

/// Writes the numbers of a body of blocks, each with `base` added. Returns the index after the last. `rest` begins with the body, and may go on: its
/// bytes after the body are read, and have no effect.
pub fn unpack_blocks(body: &[u8], rest: &[u8], base: u32, out: &mut [u32], at: usize) -> usize
    requires blocks { IsBlocks (length (block_numbers body.now)) body.now }
    requires front { take (length body.now) rest.now ≡ body.now }
    requires fits { base + 65536 ≤ 2 ^ 32 }
    requires room { at + length (block_numbers body.now) ≤ length out.old }
    ensures end { result ≡ at + length (block_numbers body.now) }
    ensures values { take result out.new ≡ take at out.old ++ map (λ i. base + i) (block_numbers body.now) }
{
    let parts = Parts::new(body);
    let slices = &rest[body.len() - parts.slices.len()..];
    if parts.slices.len() <= FEW * parts.counts.len() {
        return unpack_parts(true, parts.highs, parts.counts, slices, base, out, at);
    }
    unpack_parts(false, parts.highs, parts.counts, slices, base, out, at)
}

/// Writes the numbers of slices end to end, each with `base` added: their high bytes, of each the count less 1, and bytes that begin with the
/// slices. Returns the index after the last. `few` says that most slices have at most eight numbers: the compiler makes code of its own for each.
#[inline(always)]
fn unpack_parts(
    few: bool,
    highs: &[u8],
    counts: &[u8],
    rest: &[u8],
    base: u32,
    out: &mut [u32],
    at: usize,
) -> usize
    requires few { length counts.now ≤ 256 }
    requires size { length highs.now ≡ slice_len (length counts.now) }
    requires highs { IsSlice (length counts.now) highs.now }
    requires slices { AreSlices counts.now (take (slices_len counts.now) rest.now) }
    requires fits { base + 65536 ≤ 2 ^ 32 }
    requires room { at + numbers_in counts.now ≤ length out.old }
    ensures end { result ≡ at + numbers_in counts.now }
    ensures values { take result out.new
        ≡ take at out.old ++ map (λ i. base + i)
        (numbers_of (slice_numbers (length counts.now) highs.now) counts.now (take (slices_len counts.now) rest.now)) }
{
    let mut firsts = [0; 256];
    unpack_slice(counts.len(), highs, 0, &mut firsts, 0);
    let mut next = at;
    let mut offset = 0;
    for i in 0..counts.len() {
        let count = counts[i] as usize + 1;
        let first = base + 256 * firsts[i];
        next = unpack_from(few, count, rest, offset, first, out, next);
        offset += byte_len(count);
    }
    next
}

impl<'a> Parts<'a> {
    ghost use Rattle.bitpack_slices.specs.Parts.{numbers_in_parts};
    ghost use Rattle.bitpack_slices.specs.Places.{IsPlace};

    /// Writes the numbers from a position on, as many as there is room for, each with `base` added. It begins at a slice that is not after the
    /// position, and returns one that is not after the end.
    pub(crate) fn unpack_at(self, place: Place, base: u32, from: usize, out: &mut [u32]) -> Place
        requires place { IsPlace self.counts.now place }
        requires after { place.before ≤ from }
        requires fits { base + 65536 ≤ 2 ^ 32 }
        requires begin { from < numbers_in self.counts.now }
        requires within { from + length out.old ≤ numbers_in self.counts.now }
        ensures numbers { out.new ≡ map (λ i. base + i) (take (length out.old) (drop from (numbers_in_parts self.entry))) }
        ensures place { IsPlace self.entry.counts.now result }
        ensures after { result.before ≤ from + length out.old }
    {
        let few = self.slices.len() <= FEW * self.counts.len();
        let mut firsts = [0; 256];
        unpack_slice(self.counts.len(), self.highs, 0, &mut firsts, 0);
        let mut here = self.place_at(place, from);
        let (mut index, mut offset, mut left) = (here.index, here.offset, from - here.before);
        let mut next = 0;
        while next < out.len() {
            here = Place {
                index,
                offset,
                before: from + next - left,
            };
            let count = self.counts[index] as usize + 1;
            let first = base + 256 * firsts[index];
            next = unpack_some(few, count, self.slices, offset, first, left, out, next);
            offset += byte_len(count);
            index += 1;
            left = 0;
        }
        here
    }
}

/// Writes the numbers of a body of numbers, each with `base` added. Returns the index after the last.
pub fn unpack_numbers(body: &[u8], base: u32, out: &mut [u32], at: usize) -> usize
    requires fits { base + 65536 ≤ 2 ^ 32 }
    requires room { at + length body.now / 2 ≤ length out.old }
    ensures end { result ≡ at + length body.now / 2 }
    ensures values { take result out.new ≡ take at out.old ++ map (λ i. base + i) (pairs_of body.now) }
{
    let many = body.len() / 2;
    for i in 0..many {
        out[at + i] = base + number_at(body, i) as u32;
    }
    at + many
}

/// Writes the numbers of a body of numbers from a position on, as many as there is room for, each with `base` added.
pub(crate) fn unpack_numbers_from(body: &[u8], base: u32, from: usize, out: &mut [u32])
    requires fits { base + 65536 ≤ 2 ^ 32 }
    requires within { from + length out.old ≤ length (pairs_of body.now) }
    ensures { out.new ≡ map (λ i. base + i) (take (length out.old) (drop from (pairs_of body.now))) }
{
    unpack_numbers(&body[2 * from..2 * (from + out.len())], base, out, 0);
}
