//! A slice of a body of blocks, from which later ones are found without passing those before it.

ghost use Rattle.std.specs.Prelude.{◌≡◌, ℕ, ◌+◌, ◌<◌, ◌≤◌, List, length, max, slice_get, slice_index, take};
ghost use Rattle.bitpack_slices.specs.Reads.{rank};
ghost use Rattle.bitpack_slices.specs.Slices.{numbers_in, slices_len};

use crate::chunk::parts::Parts;
use crate::chunk::search::slice_of;
use crate::slice::search::{in_slice, rank_in_slice};
use crate::slice::{byte_len, size_of};

/// A slice of a body of blocks, or the end of its slices. Other bodies have no slices, and only the first `Place`.
#[repr(C)]
#[derive(Clone, Copy)]
pub struct Place {
    // Its index, its offset among the slices, and how many numbers are before it.
    pub(crate) index: usize,
    pub(crate) offset: usize,
    pub(crate) before: usize,
}

impl Place {
    ghost use Rattle.bitpack_slices.specs.Places.{IsPlace, before_of};

    /// The first slice.
    #[inline(always)]
    pub fn first() -> Place
        ensures place { (counts : List ℕ) → IsPlace counts result }
        ensures before { before_of result ≡ 0 }
    {
        Place {
            index: 0,
            offset: 0,
            before: 0,
        }
    }

    /// How many numbers are before the slice.
    #[inline(always)]
    pub fn before(self) -> usize
        ensures { result ≡ before_of self }
    {
        self.before
    }
}

/// How many numbers slices have, and how many bytes. Each count less 1 is given.
// In one loop: each loop of few steps ends in a branch that is hard to predict.
#[inline(always)]
fn sums_of(counts: &[u8]) -> (usize, usize)
    requires { length counts.now ≤ 256 }
    ensures numbers { result.0 ≡ numbers_in counts.now }
    ensures bytes { result.1 ≡ slices_len counts.now }
{
    let mut numbers: u32 = 0;
    let mut bytes: u32 = 0;
    for less in counts {
        numbers += *less as u32 + 1;
        bytes += size_of(*less) as u32;
    }
    (numbers as usize, bytes as usize)
}

impl<'a> Parts<'a> {
    ghost use Rattle.bitpack_slices.specs.Parts.{numbers_in_parts};
    ghost use Rattle.bitpack_slices.specs.Places.{IsPlace};

    /// The slice with an index, which is not before this one.
    #[inline(always)]
    fn place_of(self, place: Place, index: usize) -> Place
        requires place { IsPlace self.counts.now place }
        requires later { place.index ≤ index }
        requires within { index ≤ length self.counts.now }
        ensures place { IsPlace self.entry.counts.now result }
        ensures index { result.index ≡ index }
    {
        if index == place.index {
            return place;
        }
        let (numbers, bytes) = sums_of(&self.counts[place.index..index]);
        Place {
            index,
            offset: place.offset + bytes,
            before: place.before + numbers,
        }
    }

    /// The slice that has the number at a position, which is not before this one.
    #[inline(always)]
    pub(crate) fn place_at(self, place: Place, position: usize) -> Place
        requires place { IsPlace self.counts.now place }
        requires after { place.before ≤ position }
        requires within { position < numbers_in self.counts.now }
        ensures place { IsPlace self.entry.counts.now result }
        ensures slice { result.index < length self.entry.counts.now }
        ensures after { result.before ≤ position }
        ensures own { position ≤ result.before + slice_index self.entry.counts.now result.index }
    {
        let left = position - place.before;
        if left <= self.counts[place.index] as usize {
            return place;
        }
        let (more, _) = slice_of(&self.counts[place.index..], left);
        self.place_of(place, place.index + more)
    }

    /// How many numbers are below `number`, or before a slice if these are more; and the number at this position, if there is one. Also returns a slice
    /// that is not after it.
    #[inline(always)]
    pub(crate) fn seek_at(self, place: Place, number: u16) -> (Place, usize, Option<u16>)
        requires place { IsPlace self.counts.now place }
        ensures place { IsPlace self.entry.counts.now result.0 }
        ensures after { result.0.before ≤ result.1 }
        ensures within { result.1 ≤ numbers_in self.entry.counts.now }
        ensures rank { result.1 ≡ max place.before (rank number (numbers_in_parts self.entry)) }
        ensures first { result.2 ≡ slice_get (numbers_in_parts self.entry) result.1 }
    {
        let high = (number / 256) as u8;
        let index = rank_in_slice(self.counts.len(), self.highs, high);
        if index < place.index {
            return (
                place,
                place.before,
                self.first_at(place.index, place.offset),
            );
        }
        let here = self.place_of(place, index);
        if !in_slice(self.counts.len(), self.highs, high) {
            return (
                here,
                here.before,
                self.first_from(index, here.offset, high as usize),
            );
        }
        let slice = self.slice_from(index, here.offset);
        let low = (number % 256) as u8;
        let left = slice.rank(low);
        if left >= slice.count {
            let end = slice.start + byte_len(slice.count);
            return (
                here,
                here.before + left,
                self.first_from(index + 1, end, high as usize + 1),
            );
        }
        let first = slice.next(left, low) as u16;
        (here, here.before + left, Some(256 * high as u16 + first))
    }
}
