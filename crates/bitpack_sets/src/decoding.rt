//! Unpacks the ids of sets in chunks.
//! FORMAT.md, "Chunks".

ghost use Rattle.std.specs.Prelude.{◌≡◌, ◌+◌, ◌*◌, ◌<◌, ◌≤◌, ◌++◌, drop, length, map, take};
ghost use Rattle.bitpack_sets.specs.Directory.{body_at, body_numbers_of, count_at};
ghost use Rattle.bitpack_sets.specs.Forms.{directory_ids};
ghost use Rattle.bitpack_slices.specs.Places.{before_of};

use crate::directory::{Directory, begin_at, bodies_start, count_before, end_at, key_at};
use crate::place::ChunkPlace;
use bitpack_slices::chunk::place::Place;
use bitpack_slices::chunk::reading::{unpack_blocks, unpack_numbers};
use bitpack_slices::chunk::runs::{Runs, begins_runs};

impl<'a> Directory<'a> {
    ghost use Rattle.bitpack_sets.specs.Places.{IsChunkPlace, first_of};

    /// Writes all ids.
    pub(crate) fn unpack(self, out: &mut [u32])
        requires room { length out.old ≡ self.count }
        ensures { out.new ≡ directory_ids self.entry }
    {
        let start = bodies_start(self.chunks, self.rest);
        let mut next = 0;
        for chunk in 0..self.chunks {
            next = self.unpack_chunk(start, chunk, out, next);
        }
    }

    /// Writes the ids from a position on, as many as there is room for.
    pub(crate) fn unpack_from(self, from: usize, out: &mut [u32])
        requires begin { from < self.count }
        requires within { from + length out.old ≤ self.count }
        ensures { out.new ≡ take (length out.old) (drop from (directory_ids self.entry)) }
    {
        self.unpack_at(ChunkPlace::first(), from, out);
    }

    /// Writes the ids from a position on, as many as there is room for. It begins at a slice that is not after the position, and returns one that is
    /// not after the end.
    pub(crate) fn unpack_at(self, at: ChunkPlace, from: usize, out: &mut [u32]) -> ChunkPlace
        requires place { IsChunkPlace self.chunks self.rest.now at }
        requires after { first_of self.chunks self.rest.now at ≤ from }
        requires begin { from < self.count }
        requires within { from + length out.old ≤ self.count }
        ensures ids { out.new ≡ take (length out.old) (drop from (directory_ids self.entry)) }
        ensures place { IsChunkPlace self.entry.chunks self.entry.rest.now result }
        ensures after { first_of self.entry.chunks self.entry.rest.now result ≤ from + length out.old }
    {
        let mut here = self.chunk_at(at, from);
        let mut left = from - count_before(self.chunks, self.rest, here.chunk) as usize;
        let mut start = here;
        let mut next = 0;
        while next < out.len() {
            let own = self.count_of(start.chunk);
            let wanted = (own - left).min(out.len() - next);
            here = self.unpack_chunk_at(start, own, left, &mut out[next..next + wanted]);
            next += wanted;
            start = ChunkPlace {
                chunk: start.chunk + 1,
                place: Place::first(),
            };
            left = 0;
        }
        here
    }

    /// Writes the ids of a chunk of `own` ids from a position on, which is not before a slice of it, as many as there is room for.
    /// Returns a slice of the chunk that is not after the end.
    fn unpack_chunk_at(self, at: ChunkPlace, own: usize, from: usize, out: &mut [u32]) -> ChunkPlace
        requires place { IsChunkPlace self.chunks self.rest.now at }
        requires after { before_of at.place ≤ from }
        requires own { own ≡ count_at self.chunks self.rest.now at.chunk }
        requires begin { from < count_at self.chunks self.rest.now at.chunk }
        requires within { from + length out.old ≤ count_at self.chunks self.rest.now at.chunk }
        ensures ids { out.new ≡ map (λ low. Rattle.bitpack_sets.specs.Directory.key_at self.entry.rest.now at.chunk * 65536 + low)
            (take (length out.old) (drop from (body_numbers_of (count_at self.entry.chunks self.entry.rest.now at.chunk) (body_at self.entry.chunks self.entry.rest.now at.chunk)))) }
        ensures place { IsChunkPlace self.entry.chunks self.entry.rest.now result }
        ensures chunk { result.chunk ≡ at.chunk }
        ensures after { before_of result.place ≤ from + length out.old }
    {
        if out.len() == own {
            let start = bodies_start(self.chunks, self.rest);
            self.unpack_chunk(start, at.chunk, out, 0);
            return at;
        }
        let base = key_at(self.chunks, self.rest, at.chunk) as u32 * 65536;
        ChunkPlace {
            chunk: at.chunk,
            place: self.lows(at.chunk).unpack_at(at.place, base, from, out),
        }
    }

    /// Writes the ids of a chunk. Returns the index after the last.
    fn unpack_chunk(self, start: usize, chunk: usize, out: &mut [u32], at: usize) -> usize
        requires start { start ≡ Rattle.bitpack_sets.specs.Directory.bodies_start self.chunks self.rest.now }
        requires within { chunk < self.chunks }
        requires room { at + count_at self.chunks self.rest.now chunk ≤ length out.old }
        ensures end { result ≡ at + count_at self.entry.chunks self.entry.rest.now chunk }
        ensures values { take result out.new ≡ take at out.old
            ++ map (λ low. Rattle.bitpack_sets.specs.Directory.key_at self.entry.rest.now chunk * 65536 + low)
            (body_numbers_of (count_at self.entry.chunks self.entry.rest.now chunk) (body_at self.entry.chunks self.entry.rest.now chunk)) }
    {
        let begin = begin_at(self.chunks, self.rest, chunk) as usize;
        let end = end_at(self.chunks, self.rest, chunk) as usize;
        let body = &self.rest[start + begin..start + end];
        let base = key_at(self.chunks, self.rest, chunk) as u32 * 65536;
        if body.len() == 2 * self.count_of(chunk) {
            return unpack_numbers(body, base, out, at);
        }
        if begins_runs(body) {
            let end = at + self.count_of(chunk);
            Runs::new(body).unpack_from(base, 0, &mut out[at..end]);
            return end;
        }
        unpack_blocks(body, &self.rest[start + begin..], base, out, at)
    }
}
