//! Looks ids up in sets in chunks.
//! FORMAT.md, "Chunks".

ghost use Rattle.std.specs.Prelude.{◌≡◌, ◌+◌, ◌*◌, ◌/◌, ◌%◌, ◌^◌, ◌<◌, ◌≤◌, drop, length, slice_get, slice_index, take};
ghost use Rattle.bitpack_sets.specs.Directory.{before, body_at, body_numbers_of, count_at};
ghost use Rattle.bitpack_sets.specs.Forms.{directory_ids};
ghost use Rattle.bitpack_slices.specs.Lows.{AreLows, lows};
ghost use Rattle.bitpack_slices.specs.Places.{counts_of};
ghost use Rattle.bitpack_slices.specs.Reads.{has, rank};
ghost use Rattle.bitpack_slices.specs.Slices.{pairs_of};

use crate::directory::{Directory, begin_at, bodies_start, count_before, end_at, key_at, sum_at};
use bitpack_slices::chunk::Lows;
use bitpack_slices::chunk::runs::{Runs, begins_runs};
use bitpack_slices::chunk::search::{number_at, rank_in_numbers};

impl<'a> Directory<'a> {
    ghost use Rattle.bitpack_sets.specs.inner.BodyForms.{IsReadBy};
    ghost use Rattle.bitpack_sets.specs.Places.{body_counts_of};

    /// How many chunks have a lower key, and whether a chunk has this key.
    #[inline(always)]
    pub(crate) fn find(self, key: u16) -> (usize, bool)
        ensures few { result.0 ≤ self.entry.chunks }
        ensures chunk { result.0 ≡ rank key (pairs_of (take (2 * self.entry.chunks) (drop 1 self.entry.rest.now))) }
        ensures there { result.1 ≡ has key (pairs_of (take (2 * self.entry.chunks) (drop 1 self.entry.rest.now))) }
    {
        let keys = &self.rest[1..1 + 2 * self.chunks];
        // Most sets have each chunk from their first to this one.
        let first = number_at(keys, 0);
        let guess = key.wrapping_sub(first) as usize;
        if guess < self.chunks && number_at(keys, guess) == key {
            return (guess, true);
        }
        let chunk = rank_in_numbers(keys, key);
        if chunk >= self.chunks {
            return (chunk, false);
        }
        (chunk, number_at(keys, chunk) == key)
    }

    /// Whether the set has this id.
    #[inline(always)]
    pub(crate) fn contains(self, id: u32) -> bool
        ensures { result ≡ has id (directory_ids self.entry) }
    {
        let (chunk, there) = self.find((id / 65536) as u16);
        if !there {
            return false;
        }
        self.lows(chunk).contains((id % 65536) as u16)
    }

    /// How many ids are below `id`.
    #[inline(always)]
    pub(crate) fn rank(self, id: u32) -> usize
        ensures { result ≡ rank id (directory_ids self.entry) }
    {
        let (chunk, there) = self.find((id / 65536) as u16);
        let before = count_before(self.chunks, self.rest, chunk) as usize;
        if !there {
            return before;
        }
        before + self.lows(chunk).rank((id % 65536) as u16)
    }

    /// How many ids are below `target`, and the first that is not, if there is one.
    #[inline(always)]
    pub(crate) fn seek(self, target: u32) -> (usize, Option<u32>)
        ensures rank { result.0 ≡ rank target (directory_ids self.entry) }
        ensures first { result.1 ≡ slice_get (directory_ids self.entry) result.0 }
    {
        let key = (target / 65536) as u16;
        let (chunk, there) = self.find(key);
        let before = count_before(self.chunks, self.rest, chunk) as usize;
        if !there {
            return (before, self.first_at(chunk));
        }
        let (left, low) = self.lows(chunk).seek((target % 65536) as u16);
        match low {
            Some(low) => (before + left, Some(key as u32 * 65536 + low as u32)),
            None => (before + left, self.first_at(chunk + 1)),
        }
    }

    /// The first id of a chunk, if there is such a chunk.
    pub(crate) fn first_at(self, chunk: usize) -> Option<u32>
        requires within { chunk ≤ self.chunks }
        ensures { result ≡ slice_get (directory_ids self.entry) (before (Rattle.bitpack_sets.specs.Directory.sum_at self.entry.chunks self.entry.rest.now) chunk) }
    {
        if chunk >= self.chunks {
            return None;
        }
        let key = key_at(self.chunks, self.rest, chunk) as u32;
        Some(key * 65536 + self.lows(chunk).select(0) as u32)
    }

    /// The id at a position.
    #[inline(always)]
    pub(crate) fn select(self, position: usize) -> u32
        requires within { position < self.count }
        ensures { result ≡ slice_index (directory_ids self.entry) position }
    {
        let chunk = self.chunk_of(position);
        let left = position - count_before(self.chunks, self.rest, chunk) as usize;
        let key = key_at(self.chunks, self.rest, chunk) as u32;
        key * 65536 + self.lows(chunk).select(left) as u32
    }

    /// The chunk that has the id at a position, by halves.
    #[inline(always)]
    pub(crate) fn chunk_of(self, position: usize) -> usize
        requires within { position < self.count }
        ensures chunk { result < self.entry.chunks }
        ensures from { before (Rattle.bitpack_sets.specs.Directory.sum_at self.entry.chunks self.entry.rest.now) result ≤ position }
        ensures below { position < Rattle.bitpack_sets.specs.Directory.sum_at self.entry.chunks self.entry.rest.now result }
    {
        let mut chunk = 0;
        let mut left = self.chunks;
        while left > 1 {
            let half = left / 2;
            if count_before(self.chunks, self.rest, chunk + half) as usize <= position {
                chunk += half;
                left -= half;
            } else {
                left = half;
            }
        }
        chunk
    }

    /// How many ids a chunk has.
    #[inline(always)]
    pub(crate) fn count_of(self, chunk: usize) -> usize
        requires { chunk < self.chunks }
        ensures { result ≡ count_at self.entry.chunks self.entry.rest.now chunk }
    {
        let sum = sum_at(self.chunks, self.rest, chunk);
        (sum - count_before(self.chunks, self.rest, chunk)) as usize
    }

    /// The numbers of a chunk, by the form of its body.
    #[inline(always)]
    pub(crate) fn lows(self, chunk: usize) -> Lows<'a>
        requires within { chunk < self.chunks }
        ensures are { AreLows result }
        ensures count { length (lows result) ≡ count_at self.entry.chunks self.entry.rest.now chunk }
        ensures counts { counts_of result ≡ body_counts_of (count_at self.entry.chunks self.entry.rest.now chunk) (body_at self.entry.chunks self.entry.rest.now chunk) }
        ensures lows { lows result ≡ body_numbers_of (count_at self.entry.chunks self.entry.rest.now chunk) (body_at self.entry.chunks self.entry.rest.now chunk) }
        ensures form { IsReadBy (body_numbers_of (count_at self.entry.chunks self.entry.rest.now chunk) (body_at self.entry.chunks self.entry.rest.now chunk)) result }
    {
        let body = self.body(chunk);
        if body.len() == 2 * self.count_of(chunk) {
            return Lows::Numbers(body);
        }
        if begins_runs(body) {
            return Lows::Runs(Runs::new(body));
        }
        Lows::Blocks(body)
    }

    /// The body of a chunk.
    #[inline(always)]
    pub(crate) fn body(self, chunk: usize) -> &'a [u8]
        requires within { chunk < self.chunks }
        ensures { result.now ≡ body_at self.entry.chunks self.entry.rest.now chunk }
    {
        let start = bodies_start(self.chunks, self.rest);
        let begin = begin_at(self.chunks, self.rest, chunk) as usize;
        let end = end_at(self.chunks, self.rest, chunk) as usize;
        &self.rest[start + begin..start + end]
    }
}
