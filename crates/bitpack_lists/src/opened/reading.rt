//! The blocks of an opened list and their kinds, counted in `Reads`.

ghost use Rattle.std.specs.Prelude.{◌≡◌};

use super::ListBlock;
use crate::blocks::reads::{PackedList, Reads};
use crate::list_kind::next_kind;
use bitpacking::{BitPacker, Kind};

impl<'a, P: BitPacker> PackedList<'a, P> {
    ghost use Rattle.std.specs.Prelude.{◌+◌, ◌<◌, ◌≤◌, length, take};
    ghost use Rattle.bitpack_lists.specs.inner.Searching.{IsListBlock, ReadsEntries, block_of_list, blocks_of, kind_of_list};

    /// The kind of a block, which goes on from the skip key of the block before.
    pub(super) fn kind_of_block(&self, block: usize, reads: &mut Reads) -> Kind
        requires { block < blocks_of self.now }
        ensures kind { result ≡ kind_of_list self.now block }
        ensures reads { ReadsEntries reads.old reads.new }
        ensures one { reads.new.entries ≤ reads.old.entries + 1 }
    {
        let first = self.kind.first();
        if block == 0 {
            return first;
        }
        next_kind(first, self.skip_key(block - 1, reads))
    }

    /// Unpacks a block, whose body is in the bytes.
    pub(super) fn unpack_block(&self, block: ListBlock, values: &mut [u32], reads: &mut Reads)
        requires block { IsListBlock self.now block }
        requires room { P.BLOCK_LEN ≤ length values.old }
        ensures block { take P.BLOCK_LEN values.new ≡ block_of_list self.now block.number }
        ensures entries { reads.new.entries ≡ reads.old.entries }
        ensures blocks { reads.new.blocks ≡ reads.old.blocks + 1 }
    {
        self.unpack_block_as(block.number, block.kind, values, reads);
    }
}
