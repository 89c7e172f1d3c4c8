//! Bodies of blocks, whose slices are found by their high bytes.
//!
//! FORMAT.md, "Chunks":
//!
//! ```text
//! r - 1 | slice of the r high bytes that occur | r counts, each less 1 | r slices of low bytes
//! ```

pub(crate) mod combining;
pub mod loading;
pub mod writing;

ghost use Rattle.std.specs.Prelude.{◌≡◌, ℕ, ◌+◌, ◌*◌, ◌<◌, ◌≤◌, length, slice_index, take};
ghost use Rattle.std.proofs.Props.{props};
ghost use Rattle.bitpack_slices.specs.Bitmaps.{has_bit};
ghost use Rattle.bitpack_slices.specs.Operations.{those};
ghost use Rattle.bitpack_slices.specs.Props.{slices_prop};
ghost use Rattle.bitpack_slices.specs.Slices.{AreSlices, slice_len, slices_len};

use crate::bitmap::single_bits::{counts_before, rank_of_bit, test_bit};
use crate::chunk::parts::Parts;
use crate::slice::{Slice, size_of};
use bitpacking_register::Register;
use std::simd::prelude::*;

/// The parts of a body of blocks.
#[derive(Clone, Copy)]
pub struct Blocks<'a> {
    // Which high bytes occur.
    pub(crate) highs: [u64; 4],
    // How many occur that are below 0, 64, 128 and 192.
    before: [usize; 4],
    // For each of these how many numbers have it, less 1, and where its slice begins.
    counts: &'a [u8],
    starts: &'a [u32; 257],
    slices: &'a [u8],
    ghost ranks: { (word : ℕ) → word < 4 → slice_index before word ≡ length (those (64 * word) (has_bit highs)) },
    ghost few: { length counts.now ≤ 256 },
    ghost size: { length (those 256 (has_bit highs)) ≡ length counts.now },
    ghost are: { AreSlices counts.now slices.now } by { Prim.hlevel (props, slices_prop) },
    ghost passed: { (index : ℕ) → index < length counts.now → slice_index starts.now index ≡ slices_len (take index counts.now) },
}

impl<'a> Blocks<'a> {
    ghost use Rattle.std.specs.Prelude.{◌+◌, ◌*◌, true};
    ghost use Rattle.bitpack_slices.specs.Reads.{has};
    ghost use Rattle.bitpack_slices.specs.Selections.{numbers_at, parts_numbers};
    ghost use Rattle.bitpack_slices.specs.Slices.{IsBlocks, block_numbers};

    /// The parts of a body. Writes where its slices begin.
    pub fn new(body: &'a [u8], starts: &'a mut [u32; 257]) -> Blocks<'a>
        requires { IsBlocks (length (block_numbers body.now)) body.now }
        ensures { parts_numbers result ≡ block_numbers body.now }
    {
        let parts = Parts::new(body);
        fill_starts(parts.counts, starts);
        let highs = parts.high_bits();
        Blocks {
            highs,
            before: counts_before(&highs),
            counts: parts.counts,
            starts,
            slices: parts.slices,
        }
    }

    /// The slice of a high byte, which has no numbers if the high byte does not occur.
    #[inline(always)]
    pub(crate) fn slice(&self, high: usize) -> Slice<'a>
        requires { high < 256 }
        ensures { (i : ℕ) → i < 256 → has i (numbers_at result) ≡ has (256 * high + i) (parts_numbers self.now) }
    {
        if !test_bit(&self.highs, high) {
            return Slice {
                slices: self.slices,
                start: 0,
                count: 0,
            };
        }
        self.slice_at(high)
    }

    /// The slice of a high byte. `occurs` says that the caller knows that the byte occurs.
    #[inline(always)]
    pub(crate) fn slice_of(&self, high: usize, occurs: bool) -> Slice<'a>
        requires within { high < 256 }
        requires occurs { occurs ≡ true → has_bit self.now.highs high ≡ true }
        ensures { (i : ℕ) → i < 256 → has i (numbers_at result) ≡ has (256 * high + i) (parts_numbers self.now) }
    {
        if occurs {
            return self.slice_at(high);
        }
        self.slice(high)
    }

    /// The slice of a high byte that occurs.
    #[inline(always)]
    fn slice_at(&self, high: usize) -> Slice<'a>
        requires within { high < 256 }
        requires occurs { has_bit self.now.highs high ≡ true }
        ensures { (i : ℕ) → i < 256 → has i (numbers_at result) ≡ has (256 * high + i) (parts_numbers self.now) }
    {
        let index = rank_of_bit(&self.highs, &self.before, high);
        Slice {
            slices: self.slices,
            start: self.starts[index] as usize,
            count: self.counts[index] as usize + 1,
        }
    }
}

/// Where each slice begins among slices end to end. Each count less 1 is given.
fn fill_starts(counts: &[u8], starts: &mut [u32; 257])
    requires few { length counts.now ≤ 256 }
    ensures { (index : ℕ) → index < length counts.now → slice_index starts.new index ≡ slices_len (take index counts.now) }
{
    let sizes = sizes_of(counts);
    starts[0] = 0;
    let mut ends = u32x8::splat(0);
    for step in 0..counts.len().div_ceil(8) {
        let sums = u32x8::integrate(ends, eight_of(&sizes, 8 * step));
        sums.to_words(&mut starts[8 * step + 1..8 * step + 9]);
        ends = sums;
    }
}

/// Eight sizes from an index on.
#[inline(always)]
fn eight_of(sizes: &[u8; 256], at: usize) -> u32x8
    requires { at + 8 ≤ 256 }
    ensures { (k : ℕ) → k < 8 → slice_index result k ≡ slice_index sizes.now (at + k) }
{
    u8x8::from_slice(&sizes[at..]).cast()
}

/// How many bytes each slice has. Each count less 1 is given.
#[inline(always)]
fn sizes_of(counts: &[u8]) -> [u8; 256]
    requires few { length counts.now ≤ 256 }
    ensures { (index : ℕ) → index < length counts.now → slice_index result index ≡ slice_len (slice_index counts.now index + 1) }
{
    let mut sizes = [0; 256];
    for index in 0..counts.len() {
        sizes[index] = size_of(counts[index]);
    }
    sizes
}
