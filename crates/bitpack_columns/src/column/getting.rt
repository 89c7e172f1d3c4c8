//! The values at positions of a column.
//! FORMAT.md, "Columns" and "Layout".

ghost use Rattle.std.specs.Prelude.{◌≡◌, ℕ, ◌+◌, ◌-◌, ◌*◌, ◌/◌, ◌%◌, ◌^◌, ◌<◌, ◌≤◌, ◌++◌, IfErr, MatchOption, OnErr, OnOk, drop, length, replicate, slice_get, slice_index, true};
ghost use Rattle.bitpack_columns.specs.declared.column_kind.ColumnKind.TheVariants.{Plain, Sorted};
ghost use Rattle.bitpack_columns.specs.Gathering.{AreWithin, CachesBlock, HasValues};
ghost use Rattle.bitpack_columns.specs.Columns.{block_of};
ghost use Rattle.bitpack_columns.specs.Counted.{runs};
ghost use Rattle.bitpack_columns.specs.Opened.{blocks_of, kind_of, values};
ghost use Rattle.bitpack_columns.specs.Ranges.{HasAll, IsFirstBeyond};
ghost use Rattle.bitpack_columns.specs.Reads.{values_of};

use crate::column::{BLOCK_LEN, Column};
use crate::column_kind::ColumnKind;
use crate::reads::Reads;

/// A block of a plain column is unpacked only if this many positions after each other may be in it.
const FEW: usize = 8;

impl<'a> Column<'a> {
    /// The value at a position, which begins at 0. It is `None` exactly if the position is not below the number of values.
    ///
    /// In a plain column the value of a whole block is read by its bits, and nothing is unpacked.
    pub fn get(&self, position: usize) -> Option<u32>
        ensures { result ≡ slice_get (values self.now) position }
    {
        if position >= self.count {
            return None;
        }
        Some(self.value_at(position, &mut Reads::new()))
    }

    // claim: columns/4 the value at a position; unpacks one block, none in whole plain blocks
    fn value_at(&self, position: usize, reads: &mut Reads) -> u32
        requires { position < length (values self.now) }
        ensures value { result ≡ slice_index (values self.now) position }
        ensures blocks { reads.new.blocks ≤ reads.old.blocks + 1 }
        ensures plain { kind_of self.now ≡ Plain → position < 128 * blocks_of self.now
            → reads.new.blocks ≡ reads.old.blocks }
    {
        let block = position / BLOCK_LEN;
        if block < self.blocks() {
            return self.value_in_block(block, position % BLOCK_LEN, reads);
        }
        reads.value_in_tail(self, position % BLOCK_LEN)
    }

    // The value at an index of a block.
    #[inline(always)]
    fn value_in_block(&self, block: usize, index: usize, reads: &mut Reads) -> u32
        requires block { block < blocks_of self.now }
        requires index { index < 128 }
        ensures value { result ≡ slice_index (block_of block (values self.now)) index }
        ensures blocks { reads.new.blocks ≤ reads.old.blocks + 1 }
        ensures plain { kind_of self.now ≡ Plain → reads.new.blocks ≡ reads.old.blocks }
    {
        match self.kind {
            ColumnKind::Plain => reads.read_value(self, block, index),
            ColumnKind::Sorted => {
                let mut codes = [0; BLOCK_LEN];
                reads.unpack_codes(self, block, &mut codes);
                sum(reads.read_before(self, block), &codes, index)
            }
        }
    }

    /// Writes the value at each position to the same index of a slice. Later values of the slice are unchanged.
    ///
    /// The positions may be in any order, and one may come twice. If one of them is not in the column, nothing is written or unpacked, and
    /// the error is the index of the first such position.
    ///
    /// A block is unpacked at most once for each run of positions that are in it.
    pub fn gather(&self, positions: &[usize], out: &mut [u32]) -> Result<(), usize>
        requires room { length positions.now ≤ length out.old }
        ensures ok { OnOk result (HasAll (values self.now) positions.now out.new) }
        ensures within { OnOk result (AreWithin (length (values self.now)) positions.now) }
        // claim: columns/5 the values at positions, or the first position past the end; unpacks a block for each run of positions
        ensures err { IfErr result (λ index. IsFirstBeyond (values self.now) positions.now index) }
        ensures rest { drop (length positions.now) out.new ≡ drop (length positions.now) out.old }
        ensures unchanged { OnErr result (out.new ≡ out.old) }
    {
        if let Some(index) = first_beyond(positions, self.count) {
            return Err(index);
        }
        self.gather_all(positions, out, &mut Reads::new());
        Ok(())
    }

    // Writes the values at these positions, which are all in the column.
    fn gather_all(&self, positions: &[usize], out: &mut [u32], reads: &mut Reads)
        requires within { AreWithin self.now.count positions.now }
        requires room { length positions.now ≤ length out.old }
        ensures all { HasAll (values self.now) positions.now out.new }
        ensures rest { drop (length positions.now) out.new ≡ drop (length positions.now) out.old }
        ensures reads { reads.new.blocks ≤ reads.old.blocks + runs positions.now }
    {
        let mut last = LastBlock::none();
        for index in 0..positions.len() {
            out[index] = self.next_value(&positions[index..], &mut last, reads);
        }
    }

    // The value at the first of these positions. Unless it is alone, its block is unpacked, if it was not the last.
    #[inline(always)]
    fn next_value(&self, positions: &[usize], last: &mut LastBlock, reads: &mut Reads) -> u32
        requires some { 0 < length positions.now }
        requires within { slice_index positions.now 0 < length (values self.now) }
        requires last { HasValues (values self.now) last.old }
        ensures value { result ≡ slice_index (values self.now) (slice_index positions.now 0) }
        ensures last { HasValues (values self.now) last.new }
        ensures reads { CachesBlock (slice_index positions.now 0 / 128) last.old last.new reads.old reads.new }
    {
        let block = positions[0] / BLOCK_LEN;
        let index = positions[0] % BLOCK_LEN;
        if last.block == block {
            return last.values[index];
        }
        if self.is_alone(block, positions) {
            return self.value_in_block(block, index, reads);
        }
        self.cache(block, last, reads);
        last.values[index]
    }

    // Whether the first of these positions is in a block of a plain column, and a position soon after it is not.
    #[inline(always)]
    fn is_alone(&self, block: usize, positions: &[usize]) -> bool
        ensures plain { result ≡ true → kind_of self.now ≡ Plain }
        ensures block { result ≡ true → block < blocks_of self.now }
    {
        self.kind == ColumnKind::Plain
            && block < self.blocks()
            && (positions.len() < FEW || positions[FEW - 1] / BLOCK_LEN != block)
    }

    // Unpacks a block, or the tail, unless it was unpacked last.
    #[inline(always)]
    fn cache(&self, block: usize, last: &mut LastBlock, reads: &mut Reads)
        requires block { block ≤ blocks_of self.now }
        requires values { HasValues (values self.now) last.old }
        ensures block { last.new.block ≡ block }
        ensures values { HasValues (values self.now) last.new }
        ensures reads { CachesBlock block last.old last.new reads.old reads.new }
    {
        if last.block != block {
            reads.unpack_block(self, block, &mut last.values);
            last.block = block;
        }
    }
}

/// The block that was unpacked last. Before any is, it has a number that no column reaches.
#[derive(Drop)]
struct LastBlock {
    block: usize,
    values: [u32; BLOCK_LEN],
}

impl LastBlock {
    fn none() -> LastBlock
        ensures { result.block ≡ 2 ^ 64 - 1 }
    {
        LastBlock {
            block: usize::MAX,
            values: [0; BLOCK_LEN],
        }
    }
}

/// The sum of a number and the codes up to an index, modulo 2 to the power of 32. It adds all codes, and those after the index as 0, so that the
/// compiler adds several at once.
#[inline(never)]
fn sum(before: u32, codes: &[u32; 128], last: usize) -> u32
    requires { last < 128 }
    ensures { result ≡ slice_index (values_of Sorted before codes.now) last }
{
    let masks = masks_up_to(last);
    let mut value = before;
    for index in 0..BLOCK_LEN {
        value = value.wrapping_add(codes[index] & masks[index]);
    }
    value
}

/// Of 128 numbers the first up to an index have all bits, the others none.
#[inline(always)]
fn masks_up_to(last: usize) -> &'static [u32]
    requires { last < 128 }
    ensures len { length result.now ≡ 128 }
    ensures all { (k : ℕ) → k ≤ last → slice_index result.now k ≡ 2 ^ 32 - 1 }
    ensures none { (k : ℕ) → last < k → k < 128 → slice_index result.now k ≡ 0 }
{
    &masks()[127 - last..255 - last]
}

#[inline(always)]
fn masks() -> &'static [u32; 256]
    ensures { result.now ≡ replicate 128 (2 ^ 32 - 1) ++ replicate 128 0 }
{
    &MASKS
}

const ALL: u32 = u32::MAX;

static MASKS: [u32; 256] = [
    ALL, ALL, ALL, ALL, ALL, ALL, ALL, ALL, ALL, ALL, ALL, ALL, ALL, ALL, ALL, ALL, ALL, ALL, ALL,
    ALL, ALL, ALL, ALL, ALL, ALL, ALL, ALL, ALL, ALL, ALL, ALL, ALL, ALL, ALL, ALL, ALL, ALL, ALL,
    ALL, ALL, ALL, ALL, ALL, ALL, ALL, ALL, ALL, ALL, ALL, ALL, ALL, ALL, ALL, ALL, ALL, ALL, ALL,
    ALL, ALL, ALL, ALL, ALL, ALL, ALL, ALL, ALL, ALL, ALL, ALL, ALL, ALL, ALL, ALL, ALL, ALL, ALL,
    ALL, ALL, ALL, ALL, ALL, ALL, ALL, ALL, ALL, ALL, ALL, ALL, ALL, ALL, ALL, ALL, ALL, ALL, ALL,
    ALL, ALL, ALL, ALL, ALL, ALL, ALL, ALL, ALL, ALL, ALL, ALL, ALL, ALL, ALL, ALL, ALL, ALL, ALL,
    ALL, ALL, ALL, ALL, ALL, ALL, ALL, ALL, ALL, ALL, ALL, ALL, ALL, ALL, 0, 0, 0, 0, 0, 0, 0, 0,
    0, 0, 0, 0, 0, 0, 0, 0, 0, 0, 0, 0, 0, 0, 0, 0, 0, 0, 0, 0, 0, 0, 0, 0, 0, 0, 0, 0, 0, 0, 0, 0,
    0, 0, 0, 0, 0, 0, 0, 0, 0, 0, 0, 0, 0, 0, 0, 0, 0, 0, 0, 0, 0, 0, 0, 0, 0, 0, 0, 0, 0, 0, 0, 0,
    0, 0, 0, 0, 0, 0, 0, 0, 0, 0, 0, 0, 0, 0, 0, 0, 0, 0, 0, 0, 0, 0, 0, 0, 0, 0, 0, 0, 0, 0, 0, 0,
    0, 0, 0, 0, 0, 0, 0, 0, 0, 0, 0, 0, 0, 0, 0, 0, 0, 0, 0, 0, 0, 0, 0, 0,
];

/// The index of the first position that is not below a count, or `None` if all are.
fn first_beyond(positions: &[usize], count: usize) -> Option<usize>
    ensures { MatchOption result (AreWithin count positions.now) (λ index. (index < length positions.now)
        × (count ≤ slice_index positions.now index)
        × ((k : ℕ) → k < index → slice_index positions.now k < count)) }
{
    for index in 0..positions.len() {
        if positions[index] >= count {
            return Some(index);
        }
    }
    None
}
