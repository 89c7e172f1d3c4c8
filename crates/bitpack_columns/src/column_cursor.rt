//! A cursor over a column: a position that moves, with the values of its block.

ghost use Rattle.std.specs.Prelude.{◌≡◌, ◌+◌, ◌-◌, ◌*◌, ◌<◌, ◌≤◌, length, min, take};
ghost use Rattle.bitpack_columns.specs.Columns.{block_of};
ghost use Rattle.bitpack_columns.specs.Opened.{blocks_of, values};

use crate::column::{BLOCK_LEN, Column};
use crate::reads::Reads;

/// A position in a column. It has the values of the block that the position is in, and so takes about half a KB.
///
/// Moving within a block unpacks nothing, and moving to another one unpacks that block alone.
#[derive(Drop)]
pub struct ColumnCursor<'a> {
    column: Column<'a>,
    // The block, or the tail after all blocks; the index in it, which is its length only at the end; and its values.
    block: usize,
    index: usize,
    len: usize,
    unpacked: [u32; BLOCK_LEN],
    reads: Reads,
    ghost within: { block ≤ blocks_of column },
    ghost long: { len ≡ min 128 (length (values column) - 128 * block) },
    ghost inside: { index ≤ len },
    ghost whole: { block < blocks_of column → index < 128 },
    ghost values: { take len unpacked ≡ block_of block (values column) },
}

impl<'a> Column<'a> {
    ghost use Rattle.bitpack_columns.specs.Cursors.{all_of, position_of, unpacked_by};

    /// A cursor at the first value. Unpacks the first block.
    pub fn cursor(&self) -> ColumnCursor<'a>
        ensures all { all_of result ≡ values self.now }
        ensures position { position_of result ≡ 0 }
        ensures unpacks { unpacked_by result ≡ 1 }
    {
        let mut unpacked = [0; BLOCK_LEN];
        let mut reads = Reads::new();
        let len = reads.unpack_block(self, 0, &mut unpacked);
        ColumnCursor {
            column: *self,
            block: 0,
            index: 0,
            len,
            unpacked,
            reads,
        }
    }
}

impl<'a> ColumnCursor<'a> {
    ghost use Rattle.std.specs.Prelude.{◌/◌, ◌%◌, slice_get};
    ghost use Rattle.bitpack_columns.specs.Cursors.{Unpacks, all_of, left_of, position_of};

    /// The number of values before the cursor.
    pub fn position(&self) -> usize
        ensures at { result ≡ position_of self.now }
        ensures within { result ≤ length (all_of self.now) }
    {
        BLOCK_LEN * self.block + self.index
    }

    /// The value here, or `None` after the last.
    #[inline(always)]
    pub fn value(&self) -> Option<u32>
        ensures { result ≡ slice_get (all_of self.now) (position_of self.now) }
    {
        if self.index >= self.len {
            return None;
        }
        Some(self.unpacked[self.index])
    }

    /// The values from here to the end of the block. The slice is empty only after the last value.
    #[inline(always)]
    pub fn block(&self) -> &[u32]
        // claim: columns/11-12 a cursor: value, rest of the block; moves by these or to a position; unpacks a block only if it comes from
        //   another
        ensures values { result.now ≡ take (128 - position_of self.now % 128) (left_of self.now) }
        ensures some { position_of self.now < length (all_of self.now) → 0 < length result.now }
    {
        &self.unpacked[self.index..self.len]
    }

    /// Moves to the next value. After the last value it stays.
    #[inline(always)]
    pub fn advance(&mut self)
        ensures all { all_of self.new ≡ all_of self.old }
        ensures position { position_of self.new ≡ min (position_of self.old + 1) (length (all_of self.old)) }
        ensures unpacks { Unpacks self.old self.new }
    {
        if self.index + 1 < self.len {
            self.index += 1;
        } else {
            self.skip_block();
        }
    }

    /// Moves past the values of `block`, to the next block or to the end.
    #[inline(always)]
    pub fn skip_block(&mut self)
        ensures all { all_of self.new ≡ all_of self.old }
        ensures position { position_of self.new
            ≡ min (128 * (position_of self.old / 128 + 1)) (length (all_of self.old)) }
        ensures unpacks { Unpacks self.old self.new }
    {
        if self.block < self.column.blocks() {
            self.enter(self.block + 1, 0);
        } else {
            self.index = self.len;
        }
    }

    /// Moves to a position, or to the end if the column has no such position.
    pub fn move_to(&mut self, position: usize)
        ensures all { all_of self.new ≡ all_of self.old }
        ensures position { position_of self.new ≡ min position (length (all_of self.old)) }
        ensures unpacks { Unpacks self.old self.new }
    {
        let to = position.min(self.column.count);
        self.enter(to / BLOCK_LEN, to % BLOCK_LEN);
    }

    // Moves to an index of a block, and unpacks the block if that is another one.
    #[inline(always)]
    fn enter(&mut self, block: usize, index: usize)
        requires block { block ≤ blocks_of self.old.column }
        requires index { index < 128 }
        requires within { 128 * block + index ≤ length (all_of self.old) }
        ensures all { all_of self.new ≡ all_of self.old }
        ensures position { position_of self.new ≡ 128 * block + index }
        ensures unpacks { Unpacks self.old self.new }
    {
        if block != self.block {
            self.len = self
                .reads
                .unpack_block(&self.column, block, &mut self.unpacked);
            self.block = block;
        }
        self.index = index;
    }
}
