//! The ids of a set that share a key, found once to look several of them up.

ghost use Rattle.std.specs.Prelude.{◌≡◌, ℕ, ◌/◌, ◌<◌, length};
ghost use Rattle.std.specs.List.{range_with_len};
ghost use Rattle.bitpack_sets.specs.Chunks.{AreBetween, Knows, ids_from};
ghost use Rattle.bitpack_slices.specs.Reads.{has};

use crate::chunks::Chunks;
use bitpack_slices::bitmap::single_bits::test_bit;
use bitpack_slices::blocks::Blocks;
use bitpack_slices::listed::filtering::is_member;

/// The ids of a key.
#[derive(Clone, Copy)]
pub enum Own<'a> {
    /// The ids between two positions.
    Between(usize, usize),
    /// The ids of a body whose slices were found.
    Blocks(Blocks<'a>),
    /// The ids whose bit is 1.
    Bits(&'a [u64; 1024]),
}

impl<'a> Own<'a> {
    /// Whether the set has an id of the key.
    #[inline(always)]
    pub fn has(self, set: &Chunks, id: u32) -> bool
        requires { Knows set.now (id / 65536) self }
        ensures { result ≡ has id (ids_from set.now 0) }
    {
        let low = (id % 65536) as usize;
        match self {
            Own::Between(position, end) => set.has_between(position, end, id),
            Own::Blocks(blocks) => is_member(&blocks, low),
            Own::Bits(words) => test_bit(words, low),
        }
    }
}

/// Between which positions the ids of a key are.
pub fn span(set: &Chunks, key: u32) -> (usize, usize)
    requires { key < 65536 }
    ensures { AreBetween set.now key result.0 result.1 }
{
    let position = set.seek(0, key);
    (position, set.end(position, key))
}

/// Loads the bitmap of the ids of a key.
pub fn load<'a>(set: &Chunks, key: u32, words: &'a mut [u64; 1024]) -> Own<'a>
    requires { key < 65536 }
    ensures { Knows set.now key result }
{
    let (position, end) = span(set, key);
    set.load(position, end, &all_highs(), words);
    Own::Bits(words)
}

/// Whether at least `count` ids after an index have its key, if they increase. Only the time depends on it.
pub fn many_from(ids: &[u32], index: usize, count: usize) -> bool
    requires { index < length ids.now }
{
    let left = &ids[index..];
    left.len() > count && left[count] >> 16 == left[0] >> 16
}

/// All high bytes.
fn all_highs() -> [u32; 256]
    ensures { result ≡ range_with_len 0 256 }
{
    let mut highs = [0; 256];
    for high in 0..256 {
        highs[high] = high as u32;
    }
    highs
}
