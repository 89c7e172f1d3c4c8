//! Where the values of a column are that are within a range, both ends included.

ghost use Rattle.std.specs.Prelude.{◌≡◌, Some, None, true, false, ◌+◌, ◌-◌, ◌*◌, ◌/◌, ◌<◌, ◌≤◌, length, min, take};
ghost use Rattle.bitpack_columns.specs.declared.column_kind.ColumnKind.TheVariants.{Plain, Sorted};
ghost use Rattle.bitpack_columns.specs.Counted.{ReadsRange, ReadsSearches, UnpacksUntold};
ghost use Rattle.bitpack_columns.specs.Opened.{blocks_of, kind_of, values};
ghost use Rattle.bitpack_columns.specs.Ranges.{positions_between};
ghost use Rattle.bitpack_columns.specs.Searches.{AreWithin, FindsPositions, IsLowerBound, decided, greatest_in, least_in, positions_in_range};

use crate::column::within::{count_in, count_up, find_in};
use crate::column::{BLOCK_LEN, Column};
use crate::column_kind::ColumnKind;
use crate::reads::Reads;

impl<'a> Column<'a> {
    /// Returns how many values are within a range, both ends included.
    ///
    /// In a sorted column it looks for both ends, as `seek` does. In a plain one it unpacks the blocks whose bounds do not decide, and the tail.
    // claim: columns/8 how many values are in a range, ends included; two searches, if plain the tail and blocks whose bounds do not tell
    pub fn count_between(&self, low: u32, high: u32) -> usize
        ensures { result ≡ length (positions_between low high 0 (values self.now)) }
    {
        self.count_between_counted(low, high, &mut Reads::new())
    }

    // As `count_between`.
    fn count_between_counted(&self, low: u32, high: u32, reads: &mut Reads) -> usize
        ensures count { result ≡ length (positions_between low high 0 (values self.now)) }
        ensures reads { ReadsRange self.now low high 0 reads.old reads.new }
    {
        match self.kind {
            ColumnKind::Plain => self.count_by_blocks(low, high, reads),
            ColumnKind::Sorted => {
                let (from, end) = self.ends_of(low, high, reads);
                end.saturating_sub(from)
            }
        }
    }

    /// Writes the positions, from one on, of values that are within a range, both ends included, in increasing order, as many as fit.
    /// Returns how many these are. The rest of the slice is unchanged.
    ///
    /// If the slice is full, a caller goes on from the position after the last. It unpacks what `count_between` unpacks, up to the last
    /// position that it writes.
    // claim: columns/9 the positions of these values, from a position on, as many as fit; unpacks as `columns/8`, and nothing for an empty
    //   slice
    pub fn positions_between(&self, low: u32, high: u32, from: usize, out: &mut [usize]) -> usize
        ensures { FindsPositions low high from (values self.now) result out.old out.new }
    {
        self.positions_between_counted(low, high, from, out, &mut Reads::new())
    }

    // As `positions_between`.
    fn positions_between_counted(
        &self,
        low: u32,
        high: u32,
        from: usize,
        out: &mut [usize],
        reads: &mut Reads,
    ) -> usize
        ensures found { FindsPositions low high from (values self.now) result out.old out.new }
        ensures reads { ReadsRange self.now low high (from / 128) reads.old reads.new }
        ensures none { length out.old ≡ 0 → reads.new.blocks ≡ reads.old.blocks }
    {
        if out.is_empty() {
            return 0;
        }
        match self.kind {
            ColumnKind::Plain => self.find_by_blocks(low, high, from, out, reads),
            ColumnKind::Sorted => self.find_by_ends(low, high, from, out, reads),
        }
    }

    // ---- sorted columns

    // The position of the first value that is within the range, and of the first after it that is above: the first may be greater if no
    // value is within.
    fn ends_of(&self, low: u32, high: u32, reads: &mut Reads) -> (usize, usize)
        requires { kind_of self.now ≡ Sorted }
        ensures from { IsLowerBound (values self.now) low result.0 }
        ensures end { IsLowerBound (values self.now) (high + 1) result.1 }
        ensures reads { ReadsSearches 2 self.now reads.old reads.new }
    {
        let mut block = [0; BLOCK_LEN];
        let from = self.lower_bound(low as u64, &mut block, reads);
        let end = self.lower_bound(high as u64 + 1, &mut block, reads);
        (from, end)
    }

    // As `positions_between`.
    fn find_by_ends(
        &self,
        low: u32,
        high: u32,
        from: usize,
        out: &mut [usize],
        reads: &mut Reads,
    ) -> usize
        requires { kind_of self.now ≡ Sorted }
        ensures found { FindsPositions low high from (values self.now) result out.old out.new }
        ensures reads { ReadsSearches 2 self.now reads.old reads.new }
    {
        let (first, end) = self.ends_of(low, high, reads);
        let start = first.max(from);
        let count = end.saturating_sub(start).min(out.len());
        count_up(start, &mut out[..count]);
        count
    }

    // ---- plain columns

    // As `count_between`.
    fn count_by_blocks(&self, low: u32, high: u32, reads: &mut Reads) -> usize
        requires { kind_of self.now ≡ Plain }
        ensures count { result ≡ length (positions_between low high 0 (values self.now)) }
        ensures reads { UnpacksUntold self.now low high 0 (blocks_of self.now + 1) reads.old reads.new }
    {
        let mut room = [0; BLOCK_LEN];
        let mut count = 0;
        for block in 0..self.blocks() + 1 {
            count += self.count_in_block(block, low, high, &mut room, reads);
        }
        count
    }

    // How many values of a block are within the range. The count of blocks means the tail.
    fn count_in_block(
        &self,
        block: usize,
        low: u32,
        high: u32,
        room: &mut [u32; 128],
        reads: &mut Reads,
    ) -> usize
        requires plain { kind_of self.now ≡ Plain }
        requires block { block ≤ blocks_of self.now }
        ensures count { result ≡ length (positions_in_range low high
            (128 * block) (min 128 (length (values self.now) - 128 * block)) (values self.now)) }
        ensures reads { UnpacksUntold self.now low high block 1 reads.old reads.new }
    {
        match self.decide(block, low, high, reads) {
            Some(true) => BLOCK_LEN,
            Some(false) => 0,
            None => {
                let len = reads.unpack_block(self, block, room);
                count_in(&room[..len], low, high)
            }
        }
    }

    // As `positions_between`.
    fn find_by_blocks(
        &self,
        low: u32,
        high: u32,
        from: usize,
        out: &mut [usize],
        reads: &mut Reads,
    ) -> usize
        requires { kind_of self.now ≡ Plain }
        ensures found { FindsPositions low high from (values self.now) result out.old out.new }
        ensures reads { UnpacksUntold self.now low high
            (from / 128) (blocks_of self.now + 1 - from / 128) reads.old reads.new }
    {
        if from >= self.len() {
            return 0;
        }
        let mut room = [0; BLOCK_LEN];
        let mut found = [0; BLOCK_LEN];
        let mut done = 0;
        for block in from / BLOCK_LEN..self.blocks() + 1 {
            if done == out.len() {
                return done;
            }
            let index = from.saturating_sub(BLOCK_LEN * block);
            let more = self.find_in_block(block, index, low, high, &mut room, &mut found, reads);
            let fits = more.min(out.len() - done);
            out[done..done + fits].copy_from_slice(&found[..fits]);
            done += fits;
        }
        done
    }

    // Writes the positions of the values of a block, from an index on, that are within the range, at the start of the slice. Returns how
    // many these are. The count of blocks means the tail.
    fn find_in_block(
        &self,
        block: usize,
        index: usize,
        low: u32,
        high: u32,
        room: &mut [u32; 128],
        found: &mut [usize; 128],
        reads: &mut Reads,
    ) -> usize
        requires plain { kind_of self.now ≡ Plain }
        requires block { block ≤ blocks_of self.now }
        requires index { index ≤ min 128 (length (values self.now) - 128 * block) }
        ensures few { result ≤ 128 }
        ensures found { take result found.new ≡ positions_in_range low high
            (128 * block + index) (min 128 (length (values self.now) - 128 * block) - index) (values self.now) }
        ensures reads { UnpacksUntold self.now low high block 1 reads.old reads.new }
    {
        let start = BLOCK_LEN * block + index;
        match self.decide(block, low, high, reads) {
            Some(true) => {
                count_up(start, &mut found[..BLOCK_LEN - index]);
                BLOCK_LEN - index
            }
            Some(false) => 0,
            None => {
                let len = reads.unpack_block(self, block, room);
                find_in(&room[index..len], start, low, high, found)
            }
        }
    }

    // Whether all values of a block are within the range, or none is, if its bounds decide. Of the tail, which has the count of blocks,
    // nothing is decided.
    fn decide(&self, block: usize, low: u32, high: u32, reads: &mut Reads) -> Option<bool>
        requires plain { kind_of self.now ≡ Plain }
        requires block { block ≤ blocks_of self.now }
        ensures block { block < blocks_of self.now
            → result ≡ decided low high (least_in self.now block) (greatest_in self.now block) }
        ensures tail { block ≡ blocks_of self.now → result ≡ None }
        ensures all { result ≡ Some true → AreWithin true low high block (values self.now) }
        ensures none { result ≡ Some false → AreWithin false low high block (values self.now) }
        ensures reads { reads.new.blocks ≡ reads.old.blocks }
    {
        if block >= self.blocks() {
            return None;
        }
        let (least, greatest) = self.plain_bounds(block, reads);
        if greatest < low || high < least {
            Some(false)
        } else if low <= least && greatest <= high {
            Some(true)
        } else {
            None
        }
    }
}
