//! Looks ids up in wide sets that are spread out.
//! FORMAT.md, "Wide sets".

ghost use Rattle.std.specs.Prelude.{◌≡◌, ℕ, ◌+◌, ◌*◌, ◌^◌, ◌<◌, ◌≤◌, Some, length, slice_get, slice_index};
ghost use Rattle.bitpack_columns.specs.Opened.{values};
ghost use Rattle.bitpack_columns.specs.Ranges.{first_from};
ghost use Rattle.bitpack_slices.specs.Reads.{has, rank};
ghost use Rattle.bitpack_slices.specs.Slices.{quads_of};
ghost use Rattle.bitpack_wide.specs.Forms.{Seeks, spread_ids};

use crate::spread::{Spread, WORD, id_of};
use bitpack_sets::array::rank_in_array;
use bitpack_slices::integers::id_at;

impl<'a> Spread<'a> {
    /// Whether the set has this id.
    #[inline(always)]
    pub(crate) fn contains(self, id: u64) -> bool
        ensures { result ≡ has id (spread_ids self.entry) }
    {
        self.place_of(id).1
    }

    /// How many ids are below `id`.
    #[inline(always)]
    pub(crate) fn rank(self, id: u64) -> usize
        ensures { result ≡ rank id (spread_ids self.entry) }
    {
        self.place_of(id).0
    }

    /// The first id that is at least `target`, with its position.
    #[inline(always)]
    pub(crate) fn seek(self, target: u64) -> Option<(usize, u64)>
        ensures { Seeks target (spread_ids self.entry) result }
    {
        let position = self.place_of(target).0;
        match self.select(position) {
            Some(id) => Some((position, id)),
            None => None,
        }
    }

    /// The id at a position.
    #[inline(always)]
    pub(crate) fn select(self, position: usize) -> Option<u64>
        ensures { result ≡ slice_get (spread_ids self.entry) position }
    {
        match self.column.get(position) {
            Some(high) => Some(id_of(high, id_at(self.lows, position))),
            None => None,
        }
    }

    /// How many ids are below `id`, and whether the set has it.
    fn place_of(self, id: u64) -> (usize, bool)
        ensures rank { result.0 ≡ rank id (spread_ids self.entry) }
        ensures there { result.1 ≡ has id (spread_ids self.entry) }
    {
        let high = (id / WORD) as u32;
        match self.first_high(high) {
            Some((begin, found)) => {
                if found != high {
                    return (begin, false);
                }
                self.place_in(begin, high, (id % WORD) as u32)
            }
            None => (self.column.len(), false),
        }
    }

    /// The first high word that is at least another, with its position.
    #[inline(always)]
    fn first_high(self, high: u32) -> Option<(usize, u32)>
        ensures { result ≡ first_from high 0 (values self.entry.column) }
    {
        self.column.seek(high).unwrap()
    }

    /// How many ids are below one, and whether the set has it. The ids with its high word begin at a position. Most high words have one id:
    /// the first is looked at before the others are counted.
    fn place_in(self, begin: usize, high: u32, low: u32) -> (usize, bool)
        requires first { first_from high 0 (values self.column) ≡ Some (begin, high) }
        ensures rank { result.0 ≡ rank (high * 2 ^ 32 + low) (spread_ids self.entry) }
        ensures there { result.1 ≡ has (high * 2 ^ 32 + low) (spread_ids self.entry) }
    {
        let first = id_at(self.lows, begin);
        if first >= low {
            return (begin, first == low);
        }
        let count = self.end_of(high) - begin;
        let left = rank_in_array(&self.lows[4 * begin..4 * (begin + count)], low);
        if left == count {
            return (begin + left, false);
        }
        (begin + left, id_at(self.lows, begin + left) == low)
    }

    /// The position after the ids with a high word or one below it.
    fn end_of(self, high: u32) -> usize
        ensures within { result ≤ length (values self.entry.column) }
        ensures below { (k : ℕ) → k < result → slice_index (values self.entry.column) k ≤ high }
        ensures above { result < length (values self.entry.column) → high < slice_index (values self.entry.column) result }
    {
        if high == u32::MAX {
            return self.column.len();
        }
        match self.first_high(high + 1) {
            Some((end, _)) => end,
            None => self.column.len(),
        }
    }
}
