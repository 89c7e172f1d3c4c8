//! Slices: some of the numbers 0 to 255, as bytes.
//!
//! FORMAT.md, "Chunks":
//!
//! ```text
//! c below 32     c bytes, increasing
//! c below 256    32 bytes: bit i is 1 if the slice has i
//! c = 256        no byte
//! ```

pub(crate) mod matches;
pub(crate) mod positions;
pub mod reading;
pub(crate) mod rows;
pub(crate) mod search;
pub(crate) mod selecting;
pub(crate) mod testing;
pub mod writing;

ghost use Rattle.std.specs.Prelude.{◌≡◌, ◌+◌};
ghost use Rattle.std.proofs.Props.{props};
ghost use Rattle.bitpack_slices.specs.Props.{rising_prop};
ghost use Rattle.bitpack_slices.specs.Slices.{HasSlice, slice_len};

use crate::bitmap::single_bits::slice_bits;
use crate::slice::matches::{bytes_from, matches_of_bytes, rank_of_bytes};
use crate::slice::reading::unpack_from;
use crate::slice::search::{in_slice, next_in_slice, rank_in_bits};

/// How many bytes the slice of `count` numbers has.
#[inline(always)]
pub fn byte_len(count: usize) -> usize
    ensures { result ≡ slice_len count }
{
    if count < 32 {
        count
    } else if count < 256 {
        32
    } else {
        0
    }
}

/// How many bytes a slice has, by its count less 1.
#[inline(always)]
pub(crate) fn size_of(less: u8) -> u8
    ensures { result ≡ slice_len (less + 1) }
{
    if less == 255 { 0 } else { less.min(31) + 1 }
}

/// One of several slices.
#[derive(Clone, Copy)]
pub struct Slice<'a> {
    // The bytes of all, where this one begins, and how many numbers it has, 0 if there is no such slice.
    pub(crate) slices: &'a [u8],
    pub(crate) start: usize,
    pub(crate) count: usize,
    ghost there: { HasSlice slices.now start count } by { Prim.hlevel (props, rising_prop) },
}

impl<'a> Slice<'a> {
    ghost use Rattle.std.specs.Prelude.{◌≡◌, ℕ, ◌+◌, ◌^◌, ◌<◌, ◌≤◌, ◌++◌, length, map, slice_index, take};
    ghost use Rattle.bitpack_slices.specs.Bitmaps.{has_bit};
    ghost use Rattle.bitpack_slices.specs.Reads.{has, rank};
    ghost use Rattle.bitpack_slices.specs.Selections.{bytes_of, numbers_at};

    /// The bytes of the slice.
    #[inline(always)]
    pub(crate) fn bytes(self) -> &'a [u8]
        ensures { result.now ≡ bytes_of self.entry }
    {
        &self.slices[self.start..self.start + byte_len(self.count)]
    }

    /// Whether the slice has this number.
    #[inline(always)]
    pub(crate) fn contains(self, number: u8) -> bool
        ensures { result ≡ has number (numbers_at self.entry) }
    {
        if self.count < 32 {
            let bytes = bytes_from(self.slices, self.start);
            return matches_of_bytes(bytes, self.count, &[number]) != 0;
        }
        in_slice(self.count, self.bytes(), number)
    }

    /// How many numbers of the slice are below this one.
    #[inline(always)]
    pub(crate) fn rank(self, number: u8) -> usize
        ensures { result ≡ rank number (numbers_at self.entry) }
    {
        if self.count < 32 {
            return rank_of_bytes(bytes_from(self.slices, self.start), self.count, number);
        }
        if self.count < 256 {
            return rank_in_bits(self.bytes(), number);
        }
        number as usize
    }

    /// The first number of the slice that is not below this one. Its position is given.
    #[inline(always)]
    pub(crate) fn next(self, position: usize, number: u8) -> u8
        requires position { position ≡ rank number (numbers_at self) }
        requires within { position < self.count }
        ensures { result ≡ slice_index (numbers_at self.entry) position }
    {
        next_in_slice(self.count, self.bytes(), position, number as usize)
    }

    /// The numbers of the slice, as bits.
    #[inline(always)]
    pub(crate) fn bits(self) -> [u64; 4]
        ensures { (i : ℕ) → i < 256 → has_bit result i ≡ has i (numbers_at self.entry) }
    {
        slice_bits(self.count, self.bytes())
    }

    /// Writes the numbers of the slice, each with `base` added. Returns the index after the last. Up to 31 items from there on may change too.
    #[inline(always)]
    pub(crate) fn unpack(self, base: u32, out: &mut [u32], at: usize) -> usize
        requires fits { base + 256 ≤ 2 ^ 32 }
        requires room { at + self.count ≤ length out.old }
        ensures end { result ≡ at + self.entry.count }
        ensures values { take result out.new ≡ take at out.old ++ map (λ i. base + i) (numbers_at self.entry) }
    {
        unpack_from(false, self.count, self.slices, self.start, base, out, at)
    }

    /// Writes the bytes of the slice. Returns the index after the last. Up to 32 bytes from there on may change too.
    #[inline(always)]
    pub(crate) fn copy_bytes(self, out: &mut [u8], at: usize) -> usize
        requires room { at + 32 ≤ length out.old }
        ensures end { result ≡ at + slice_len self.entry.count }
        ensures bytes { take result out.new ≡ take at out.old ++ bytes_of self.entry }
    {
        bytes_from(self.slices, self.start).copy_to_slice(&mut out[at..]);
        at + byte_len(self.count)
    }
}
