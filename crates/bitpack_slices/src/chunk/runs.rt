//! Bodies of runs: the boundaries of the runs of a chunk.
//!
//! FORMAT.md, "Chunks":
//!
//! ```text
//! 01 FF | t boundaries of two bytes, increasing
//! ```

ghost use Rattle.std.specs.Prelude.{◌≡◌, ℕ, ◌+◌, ◌^◌, ◌≤◌, length};
ghost use Rattle.std.specs.List.{range_with_len};
ghost use Rattle.std.proofs.Props.{props};
ghost use Rattle.bitpack_slices.specs.Bodies.{IsRising};
ghost use Rattle.bitpack_slices.specs.Props.{rising_prop};
ghost use Rattle.bitpack_slices.specs.Runs.{runs_from};
ghost use Rattle.bitpack_slices.specs.Slices.{pairs_of};

use crate::bitmap::loading::clear;
use crate::bitmap::ranges::set_range;
use crate::bitmap::writing::{LONGEST_BLOCKS, write_blocks};
use crate::chunk::search::number_at;

/// Whether a body is runs, if it is no body of numbers.
#[inline(always)]
pub fn begins_runs(body: &[u8]) -> bool
    ensures { result ≡ Rattle.bitpack_slices.specs.Runs.begins_runs body.now }
{
    body.len() >= 2 && body[0] == 1 && body[1] == 255
}

/// The boundaries of a body of runs, which were tested.
#[derive(Clone, Copy)]
pub struct Runs<'a> {
    // Two bytes each: the first number of a run, the first number after it, and so on. The last run may have no end.
    pub(crate) bounds: &'a [u8],
    ghost rising: { IsRising 0 65536 (pairs_of bounds.now) } by { Prim.hlevel (props, rising_prop) },
}

impl<'a> Runs<'a> {
    ghost use Rattle.std.specs.Prelude.{◌+◌, ◌-◌, ◌*◌, ◌/◌, ◌^◌, ◌<◌, ◌++◌, ◌||◌, drop, map, slice_get, slice_index, take, true};
    ghost use Rattle.std.specs.List.{range_with_len};
    ghost use Rattle.bitpack_slices.specs.Bitmaps.{Represents, has_bit, has_high};
    ghost use Rattle.bitpack_slices.specs.Slices.{IsBlocks, block_numbers};
    ghost use Rattle.bitpack_slices.specs.Reads.{has, rank};
    ghost use Rattle.bitpack_slices.specs.Runs.{begins_runs};

    /// The runs of a body.
    #[inline(always)]
    pub fn new(body: &'a [u8]) -> Runs<'a>
        requires begins { begins_runs body.now ≡ true }
        requires rising { IsRising 0 65536 (pairs_of (drop 2 body.now)) }
        ensures { result.bounds.now ≡ drop 2 body.now }
    {
        Runs { bounds: &body[2..] }
    }

    /// How many runs there are.
    #[inline(always)]
    fn count(self) -> usize
        ensures below { (index : ℕ) → index < result → 2 * index < length self.entry.bounds.now / 2 }
        ensures all { length self.entry.bounds.now / 2 ≤ 2 * result }
    {
        (self.bounds.len() / 2).div_ceil(2)
    }

    /// Where a run begins, and the first number after it.
    #[inline(always)]
    fn run(self, index: usize) -> (usize, usize)
        requires within { 2 * index < length self.bounds.now / 2 }
        ensures some { result.0 < result.1 }
        ensures fits { result.1 ≤ 65536 }
        ensures first { runs_from index self.entry.bounds.now ≡ range_with_len result.0 (result.1 - result.0) ++ runs_from (index + 1) self.entry.bounds.now }
    {
        let begin = number_at(self.bounds, 2 * index) as usize;
        if 2 * index + 1 < self.bounds.len() / 2 {
            return (begin, number_at(self.bounds, 2 * index + 1) as usize);
        }
        (begin, 65536)
    }

    /// How many numbers there are.
    pub(crate) fn len(self) -> usize
        ensures few { result ≤ 65536 }
        ensures len { result ≡ length (runs_from 0 self.entry.bounds.now) }
    {
        let mut count = 0;
        for index in 0..self.count() {
            let (begin, end) = self.run(index);
            count += end - begin;
        }
        count
    }

    /// Whether a run has this number.
    pub(crate) fn contains(self, number: u16) -> bool
        ensures { result ≡ has number (runs_from 0 self.entry.bounds.now) }
    {
        let mut found = false;
        for index in 0..self.count() {
            let (begin, end) = self.run(index);
            found |= (begin <= number as usize) & ((number as usize) < end);
        }
        found
    }

    /// How many numbers are below `number`.
    pub(crate) fn rank(self, number: u16) -> usize
        ensures { result ≡ rank number (runs_from 0 self.entry.bounds.now) }
    {
        let mut below = 0;
        for index in 0..self.count() {
            let (begin, end) = self.run(index);
            below += end.min(number as usize) - begin.min(number as usize);
        }
        below
    }

    /// How many numbers are below `number`, and the first that is not, if there is one.
    pub(crate) fn seek(self, number: u16) -> (usize, Option<u16>)
        ensures rank { result.0 ≡ rank number (runs_from 0 self.entry.bounds.now) }
        ensures first { result.1 ≡ slice_get (runs_from 0 self.entry.bounds.now) result.0 }
    {
        let mut below = 0;
        for index in 0..self.count() {
            let (begin, end) = self.run(index);
            if (number as usize) < end {
                let first = begin.max(number as usize);
                return (below + first - begin, Some(first as u16));
            }
            below += end - begin;
        }
        (below, None)
    }

    /// The run that has the number at a position, and the position of the number in it.
    fn run_of(self, position: usize) -> (usize, usize)
        requires within { position < length (runs_from 0 self.bounds.now) }
        ensures run { 2 * result.0 < length self.entry.bounds.now / 2 }
        ensures from { drop position (runs_from 0 self.entry.bounds.now) ≡ drop result.1 (runs_from result.0 self.entry.bounds.now) }
        ensures own { result.1 + length (runs_from (result.0 + 1) self.entry.bounds.now) < length (runs_from result.0 self.entry.bounds.now) }
    {
        let mut index = 0;
        let mut left = position;
        loop {
            let (begin, end) = self.run(index);
            if left < end - begin {
                return (index, left);
            }
            left -= end - begin;
            index += 1;
        }
    }

    /// The number at this position.
    pub(crate) fn select(self, position: usize) -> u16
        requires within { position < length (runs_from 0 self.bounds.now) }
        ensures { result ≡ slice_index (runs_from 0 self.entry.bounds.now) position }
    {
        let (index, left) = self.run_of(position);
        (self.run(index).0 + left) as u16
    }

    /// The high bytes that occur, as bits.
    pub(crate) fn high_bits(self) -> [u64; 4]
        ensures { (h : ℕ) → h < 256 → has_bit result h ≡ has_high h (runs_from 0 self.entry.bounds.now) }
    {
        let mut highs = [0; 4];
        for index in 0..self.count() {
            let (begin, end) = self.run(index);
            set_range(&mut highs, begin / 256, (end - 1) / 256 + 1);
        }
        highs
    }

    /// Loads the numbers that have these high bytes into a bitmap.
    pub(crate) fn load(self, highs: &[u32], words: &mut [u64; 1024])
        requires highs { IsRising 0 256 highs.now }
        ensures { Represents highs.now words.new (runs_from 0 self.entry.bounds.now) }
    {
        clear(highs, words);
        self.set_bits(words);
    }

    /// Sets the bit of each number.
    pub(crate) fn set_bits(self, words: &mut [u64; 1024])
        ensures { (x : ℕ) → x < 65536 → has_bit words.new x ≡ (has x (runs_from 0 self.entry.bounds.now) || has_bit words.old x) }
    {
        for index in 0..self.count() {
            let (begin, end) = self.run(index);
            set_range(words, begin, end);
        }
    }

    /// Writes the numbers from a position on, as many as there is room for, each with `base` added.
    pub fn unpack_from(self, base: u32, from: usize, out: &mut [u32])
        requires fits { base + 65536 ≤ 2 ^ 32 }
        requires begin { from < length (runs_from 0 self.bounds.now) }
        requires within { from + length out.old ≤ length (runs_from 0 self.bounds.now) }
        ensures { out.new ≡ map (λ i. base + i) (take (length out.old) (drop from (runs_from 0 self.entry.bounds.now))) }
    {
        let (mut index, mut left) = self.run_of(from);
        let mut next = 0;
        while next < out.len() {
            let (begin, end) = self.run(index);
            let wanted = (end - begin - left).min(out.len() - next);
            fill_range(base + (begin + left) as u32, &mut out[next..next + wanted]);
            next += wanted;
            index += 1;
            left = 0;
        }
    }

    /// Writes the blocks of the numbers. Returns how many bytes they have.
    #[inline(never)]
    pub(crate) fn write_blocks(self, out: &mut [u8; LONGEST_BLOCKS]) -> usize
        requires some { 0 < length (runs_from 0 self.bounds.now) }
        ensures few { result ≤ 8449 }
        ensures are { IsBlocks (length (block_numbers (take result out.new))) (take result out.new) }
        ensures numbers { block_numbers (take result out.new) ≡ runs_from 0 self.entry.bounds.now }
    {
        let mut words = [0; 1024];
        self.set_bits(&mut words);
        write_blocks(&words, out)
    }
}

/// Fills in numbers from one on.
#[inline(always)]
pub fn fill_range(first: u32, out: &mut [u32])
    requires fits { first + length out.old ≤ 2 ^ 32 }
    ensures { out.new ≡ range_with_len first (length out.old) }
{
    for index in 0..out.len() {
        out[index] = first + index as u32;
    }
}
