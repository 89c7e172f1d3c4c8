//! A slice of a set in chunks, from which later ones are found without passing those before it.

ghost use Rattle.std.specs.Prelude.{◌≡◌, ℕ, ◌/◌, ◌<◌, ◌≤◌, List, max, slice_get};
ghost use Rattle.bitpack_sets.specs.Forms.{directory_ids};
ghost use Rattle.bitpack_slices.specs.Reads.{rank};
ghost use Rattle.bitpack_sets.specs.Directory as entries;

use crate::directory::{Directory, count_before, key_at, sum_at};
use bitpack_slices::chunk::place::Place;

/// A chunk, and a slice of its body.
#[repr(C)]
#[derive(Clone, Copy)]
pub(crate) struct ChunkPlace {
    pub(crate) chunk: usize,
    pub(crate) place: Place,
}

impl ChunkPlace {
    ghost use Rattle.bitpack_sets.specs.Places.{IsChunkPlace, first_of};

    /// The first slice of the first chunk.
    #[inline(always)]
    pub(crate) fn first() -> ChunkPlace
        ensures place { (chunks : ℕ) (rest : List ℕ) → 0 < chunks → IsChunkPlace chunks rest result }
        ensures first { (chunks : ℕ) (rest : List ℕ) → first_of chunks rest result ≡ 0 }
    {
        ChunkPlace {
            chunk: 0,
            place: Place::first(),
        }
    }
}

impl<'a> Directory<'a> {
    ghost use Rattle.bitpack_sets.specs.Places.{IsChunkPlace, first_of};

    /// The chunk that has the id at a position, which is not before a slice, and a slice of it that is not after the id.
    #[inline(always)]
    pub(crate) fn chunk_at(self, at: ChunkPlace, position: usize) -> ChunkPlace
        requires place { IsChunkPlace self.chunks self.rest.now at }
        requires after { first_of self.chunks self.rest.now at ≤ position }
        requires within { position < self.count }
        ensures place { IsChunkPlace self.entry.chunks self.entry.rest.now result }
        ensures after { first_of self.entry.chunks self.entry.rest.now result ≤ position }
        ensures below { position < entries.sum_at self.entry.chunks self.entry.rest.now result.chunk }
    {
        if position < sum_at(self.chunks, self.rest, at.chunk) as usize {
            return at;
        }
        ChunkPlace {
            chunk: self.chunk_of(position),
            place: Place::first(),
        }
    }

    /// How many ids are below `target`, or before a slice if these are more, and the id at this position, if there is one. The chunk of the slice has the
    /// key of `target`. Also returns a slice that is not after the position.
    #[inline(always)]
    fn seek_in(self, at: ChunkPlace, target: u32) -> (ChunkPlace, usize, Option<u32>)
        requires place { IsChunkPlace self.chunks self.rest.now at }
        requires key { entries.key_at self.rest.now at.chunk ≡ target / 65536 }
        ensures place { IsChunkPlace self.entry.chunks self.entry.rest.now result.0 }
        ensures after { first_of self.entry.chunks self.entry.rest.now result.0 ≤ result.1 }
        ensures rank { result.1 ≡ max (first_of self.entry.chunks self.entry.rest.now at) (rank target (directory_ids self.entry)) }
        ensures first { result.2 ≡ slice_get (directory_ids self.entry) result.1 }
    {
        let key = (target / 65536) as u16;
        let before = count_before(self.chunks, self.rest, at.chunk) as usize;
        let (place, left, low) = self
            .lows(at.chunk)
            .seek_at(at.place, (target % 65536) as u16);
        let here = ChunkPlace {
            chunk: at.chunk,
            place,
        };
        match low {
            Some(low) => (here, before + left, Some(key as u32 * 65536 + low as u32)),
            None => (here, before + left, self.first_at(at.chunk + 1)),
        }
    }

    /// How many ids are below `target`, or at most as many as are before a slice, and the id at this position, if there is one. Also returns a slice that
    /// is not after it, or this one.
    #[inline(always)]
    pub(crate) fn seek_at(self, at: ChunkPlace, target: u32) -> (ChunkPlace, usize, Option<u32>)
        requires place { IsChunkPlace self.chunks self.rest.now at }
        ensures place { IsChunkPlace self.entry.chunks self.entry.rest.now result.0 }
        ensures after { first_of self.entry.chunks self.entry.rest.now result.0 ≤ max (first_of self.entry.chunks self.entry.rest.now at) result.1 }
        ensures least { rank target (directory_ids self.entry) ≤ result.1 }
        ensures most { result.1 ≤ max (first_of self.entry.chunks self.entry.rest.now at) (rank target (directory_ids self.entry)) }
        ensures first { result.2 ≡ slice_get (directory_ids self.entry) result.1 }
    {
        let key = (target / 65536) as u16;
        if key_at(self.chunks, self.rest, at.chunk) == key {
            return self.seek_in(at, target);
        }
        let (chunk, there) = self.find(key);
        if there {
            let start = ChunkPlace {
                chunk,
                place: Place::first(),
            };
            return self.seek_in(start, target);
        }
        let before = count_before(self.chunks, self.rest, chunk) as usize;
        (at, before, self.first_at(chunk))
    }
}
