//! The chunks of a set, one after the other.

ghost use Rattle.std.specs.Prelude.{◌≡◌, ◌^◌, ◌<◌, ℕ, List};
ghost use Rattle.bitpack_sets.specs.Chunks.{ids_from, positions};
ghost use Rattle.bitpack_slices.specs.Bodies.{IsRising};
ghost use Rattle.bitpack_roaring.specs.inner.Walks.{IsAt, IsPart};

use bitpack_sets::chunks::Chunks;

/// A chunk of a set: its key, between which positions it is, how many ids are before it, and how many it has.
#[derive(Clone, Copy)]
pub(crate) struct Part {
    pub(crate) key: u32,
    pub(crate) begin: usize,
    pub(crate) end: usize,
    pub(crate) from: usize,
    pub(crate) count: usize,
}

/// The chunk that begins at a position, after `from` ids.
#[inline(always)]
pub(crate) fn part_at(chunks: &Chunks, position: usize, from: usize) -> Part
    requires within { position < positions chunks.now }
    requires rising { IsRising 0 (2 ^ 32) (ids_from chunks.now position) }
    ensures begin { result.begin ≡ position }
    ensures from { result.from ≡ from }
    ensures part { (ids : List ℕ) → IsAt ids chunks.now position from → IsPart ids chunks.now result }
{
    let key = chunks.key(position);
    let end = chunks.end(position, key);
    let count = chunks.count(position, end);
    Part {
        key,
        begin: position,
        end,
        from,
        count,
    }
}
