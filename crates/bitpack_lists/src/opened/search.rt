//! The first value of a packed list that is at least another, found by halves over the skip keys.

ghost use Rattle.std.specs.Prelude.{◌≡◌, ◌+◌, ◌*◌, ◌^◌, ◌<◌, ◌≤◌, ℕ, length};
ghost use Rattle.bitpack_lists.specs.LowerBounds.{InOrder};
ghost use Rattle.bitpack_lists.specs.Search.{first_reaching};
ghost use Rattle.bitpack_lists.specs.inner.Seeking.{IsFirstIn};

use super::in_slice::count_below;
use super::{CachedBlock, ListBlock};
use crate::blocks::reads::{PackedList, Reads};
use bitpacking::{BitPacker, MAX_BLOCK_LEN};

/// The length of the blocks of four lanes. Less room is cleared for these.
pub(super) const SHORT_BLOCK_LEN: usize = 128;

/// The number of no block.
const NO_BLOCK: usize = usize::MAX;

impl CachedBlock {
    /// No block.
    pub(crate) fn new() -> CachedBlock
        ensures { result.number ≡ NO_BLOCK }
    {
        CachedBlock {
            number: NO_BLOCK,
            values: [0; MAX_BLOCK_LEN],
        }
    }
}

impl<'a, P: BitPacker> PackedList<'a, P> {
    ghost use Rattle.std.specs.Prelude.{◌≢◌, ◌-◌, true, false};
    ghost use Rattle.bitpack_lists.specs.declared.list_kind.ListKind.{ListKind};
    ghost use Rattle.bitpack_lists.specs.Opened.{kind_of, values};
    ghost use Rattle.bitpack_lists.specs.Search.{IsSearched, first_at_least, in_whole_block};
    ghost use Rattle.bitpack_lists.specs.inner.Searching.{CachesBlock, CachesOne, IsCached, IsFirstBlock, IsInBlock, IsListBlock, UnpacksOne, blocks_of, value_of};

    /// The first value that is at least the target, with its position, or `None` if every value is below it.
    ///
    /// The list has to be sorted or strictly sorted. The search halves its skip entries. Unpacks at most one block.
    // claim: lists2/8 no count of `Reads` falls
    pub fn seek(&self, target: u32, reads: &mut Reads) -> Option<(usize, u32)>
        requires { kind_of self.now ≢ ListKind.Plain }
        ensures found { result ≡ first_at_least (values self.now) target }
        // A search reads at most as many skip entries as the count of whole blocks has binary digits.
        // claim: lists2/5-7 the first value of an ordered list from a target on; reads digits(B) entries, unpacks one block, none for the
        //   tail
        ensures reads { IsSearched P.lanes (length (values self.now)) result reads.old reads.new }
    {
        match self.find_by_halves(target, reads) {
            Some(block) => self.seek_in_first_block(block, target, reads),
            None => self.seek_in_tail(target),
        }
    }

    /// As `seek`, if this is the first block whose skip key is at least the target.
    fn seek_in_first_block(
        &self,
        block: ListBlock,
        target: u32,
        reads: &mut Reads,
    ) -> Option<(usize, u32)>
        requires ordered { self.now.kind ≢ ListKind.Plain }
        requires block { IsFirstBlock self.now target block }
        ensures found { result ≡ first_reaching (value_of self.now) self.now.count target }
        ensures reads { UnpacksOne reads.old reads.new }
    {
        let len = P::BLOCK_LEN;
        if len <= SHORT_BLOCK_LEN {
            self.seek_in_room(block, target, &mut [0; SHORT_BLOCK_LEN], reads)
        } else {
            self.seek_in_room(block, target, &mut [0; MAX_BLOCK_LEN], reads)
        }
    }

    /// As `seek_in_first_block`, with room for the values of the block.
    fn seek_in_room(
        &self,
        block: ListBlock,
        target: u32,
        room: &mut [u32],
        reads: &mut Reads,
    ) -> Option<(usize, u32)>
        requires ordered { self.now.kind ≢ ListKind.Plain }
        requires block { IsFirstBlock self.now target block }
        requires room { P.BLOCK_LEN ≤ length room.old }
        ensures found { result ≡ first_reaching (value_of self.now) self.now.count target }
        ensures reads { UnpacksOne reads.old reads.new }
    {
        self.unpack_block(block, room, reads);
        let len = P::BLOCK_LEN;
        first_in_block(&room[..len], len * block.number, target)
    }

    /// As `seek`, with the cached block that was unpacked last.
    pub(crate) fn seek_cached(
        &self,
        target: u32,
        cached: &mut CachedBlock,
        reads: &mut Reads,
    ) -> Option<(usize, u32)>
        requires ordered { self.now.kind ≢ ListKind.Plain }
        requires cached { IsCached self.now cached.old }
        ensures found { result ≡ first_reaching (value_of self.now) self.now.count target }
        ensures cached { CachesOne self.now result cached.old cached.new reads.old reads.new }
    {
        match self.find_by_halves(target, reads) {
            Some(block) => self.seek_in_block(block, target, cached, reads),
            None => self.seek_in_tail(target),
        }
    }

    /// As `seek_cached`, if this is the first block whose skip key is at least the target.
    fn seek_in_block(
        &self,
        block: ListBlock,
        target: u32,
        cached: &mut CachedBlock,
        reads: &mut Reads,
    ) -> Option<(usize, u32)>
        requires ordered { self.now.kind ≢ ListKind.Plain }
        requires block { IsFirstBlock self.now target block }
        requires cached { IsCached self.now cached.old }
        ensures found { result ≡ first_reaching (value_of self.now) self.now.count target }
        ensures inside { in_whole_block P.lanes self.now.count result ≡ true }
        ensures within { IsInBlock self.now block.number result }
        ensures cached { CachesBlock self.now block.number cached.old cached.new reads.old reads.new }
    {
        self.cache_block(block, cached, reads);
        let len = P::BLOCK_LEN;
        first_in_block(&cached.values[..len], len * block.number, target)
    }

    /// Unpacks a block, unless it is the cached one.
    pub(crate) fn cache_block(&self, block: ListBlock, cached: &mut CachedBlock, reads: &mut Reads)
        requires block { IsListBlock self.now block }
        requires cached { IsCached self.now cached.old }
        ensures cached { CachesBlock self.now block.number cached.old cached.new reads.old reads.new }
    {
        if cached.number != block.number {
            self.unpack_block(block, &mut cached.values, reads);
            cached.number = block.number;
        }
    }

    /// The first value of the tail that is at least the target, with its position. Those of the whole blocks are below it. Reads
    /// the whole tail.
    fn seek_in_tail(&self, target: u32) -> Option<(usize, u32)>
        requires { self.now.kind ≢ ListKind.Plain }
        ensures found { ((k : ℕ) → k < 32 * P.lanes * blocks_of self.now → value_of self.now k < target)
            → result ≡ first_reaching (value_of self.now) self.now.count target }
        ensures outside { in_whole_block P.lanes self.now.count result ≡ false }
    {
        let mut values = [0; MAX_BLOCK_LEN];
        let len = self.read_tail(&mut values);
        first_in_block(&values[..len], self.count - len, target)
    }
}

/// The first value of a block that is at least the target, with its position. The values are in order, and no
/// branch depends on one.
fn first_in_block(values: &[u32], start: usize, target: u32) -> Option<(usize, u32)>
    requires few { start + length values.now < 2 ^ 64 }
    requires order { (length values.now ≤ MAX_BLOCK_LEN) × InOrder values.now }
    ensures { IsFirstIn values.now start target result }
{
    let index = count_below(values, target);
    if index < values.len() {
        Some((start + index, values[index]))
    } else {
        None
    }
}
