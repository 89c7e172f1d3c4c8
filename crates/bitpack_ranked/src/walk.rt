//! A walk through the blocks of a word.

ghost use Rattle.std.specs.Prelude.{◌≡◌, ℕ, ◌+◌, ◌-◌, ◌*◌, ◌^◌, ◌<◌, ◌≤◌, length, min, slice_index, take};
ghost use Rattle.bitpack_ranked.specs.inner.Walks.{AreOfBlock, IsLow, IsMost};

use crate::as_term::AsTerm;

/// How many positions a block has.
pub(crate) const BLOCK: usize = 128;

/// Room for a block of a word while a query is answered. It may hold anything before.
#[repr(C)]
#[derive(Clone, Copy)]
pub struct Walk {
    // How many blocks of counts were unpacked to rank the documents of the word.
    unpacked: usize,
    // How many positions the block has.
    len: usize,
    // No id of a later block is below it.
    low: u32,
    counts: [u32; 128],
    ids: [u32; 128],
}

impl Walk {
    ghost use Rattle.bitpack_ranked.specs.inner.Walks.{IsUnpacked};

    /// Room for a block.
    pub fn new() -> Walk {
        Walk {
            unpacked: 0,
            len: 0,
            low: 0,
            counts: [0; 128],
            ids: [0; 128],
        }
    }

    /// How many blocks of counts the last query unpacked to rank the documents of the word. Blocks in which documents of other words are looked
    /// up do not count.
    pub fn unpacked(&self) -> usize
        ensures { result ≡ self.now.unpacked }
    {
        self.unpacked
    }

    /// No blocks were unpacked.
    pub(crate) fn clear(&mut self)
        ensures { self.new.unpacked ≡ 0 }
    {
        self.unpacked = 0;
    }

    /// Begins before the first block.
    pub(crate) fn start(&mut self)
        ensures { self.new.low ≡ 0 }
    {
        self.low = 0;
    }

    /// What no id from the next block on is below.
    pub(crate) fn low(&self) -> u32
        ensures { result ≡ self.now.low }
    {
        self.low
    }

    /// How many positions the block has.
    #[inline(always)]
    pub(crate) fn len(&self) -> usize
        ensures { result ≡ self.now.len }
    {
        self.len
    }

    /// The ids of the block.
    pub(crate) fn ids(&self) -> &[u32]
        requires { self.now.len ≤ 128 }
        ensures { result.now ≡ take self.now.len self.now.ids }
    {
        &self.ids[..self.len]
    }

    /// The id at an index of the block, and its count.
    #[inline(always)]
    pub(crate) fn at(&self, index: usize) -> (u32, u32)
        requires { index < 128 }
        ensures id { result.0 ≡ slice_index self.now.ids index }
        ensures count { result.1 ≡ slice_index self.now.counts index }
    {
        (self.ids[index], self.counts[index])
    }

    /// Unpacks the counts of a block. Returns what no part of it is above.
    pub(crate) fn unpack_counts<T: AsTerm>(&mut self, term: &T, block: usize) -> u32
        requires within { 128 * block < length (T.its_word term.now).ids }
        ensures len { self.new.len ≡ min 128 (length (T.its_word term.now).ids - 128 * block) }
        ensures counts { AreOfBlock (T.its_word term.now).counts block self.new.len self.new.counts }
        ensures most { IsMost result (T.its_word term.now) block }
        ensures low { self.new.low ≡ self.old.low }
        ensures unpacked { self.old.unpacked + 1 < 2 ^ 64 → self.new.unpacked ≡ self.old.unpacked + 1 }
    {
        self.unpacked = self.unpacked.wrapping_add(1);
        self.len = term.counts().copy_range(BLOCK * block, &mut self.counts);
        term.parts().most(greatest(&self.counts[..self.len]))
    }

    /// Unpacks the ids of the block, so that it can be read.
    pub(crate) fn unpack_ids<T: AsTerm>(&mut self, term: &T, block: usize)
        requires within { 128 * block < length (T.its_word term.now).ids }
        requires len { self.old.len ≡ min 128 (length (T.its_word term.now).ids - 128 * block) }
        requires counts { AreOfBlock (T.its_word term.now).counts block self.old.len self.old.counts }
        ensures low { IsLow self.new.low (T.its_word term.now) (block + 1) }
        ensures block { IsUnpacked (T.its_word term.now) block self.new }
    {
        self.len = term.ids().copy_range(BLOCK * block, &mut self.ids);
        self.low = self.ids[self.len - 1].saturating_add(1);
    }
}

/// What no part of a block is above, before its counts are unpacked.
pub(crate) fn most_of<T: AsTerm>(term: &T, block: usize) -> u32
    ensures { IsMost result (T.its_word term.now) block }
{
    let counts = term.counts();
    if block >= counts.blocks() {
        return term.parts().greatest();
    }
    term.parts().most(counts.bounds(block).1)
}

/// The greatest of some values.
pub(crate) fn greatest(values: &[u32]) -> u32
    ensures { (k : ℕ) → k < length values.now → slice_index values.now k ≤ result }
{
    let mut most = 0;
    for index in 0..values.len() {
        most = most.max(values[index]);
    }
    most
}
