//! A position among the ids of a set.

ghost use Rattle.std.specs.Prelude.{◌≡◌, ℕ, ◌+◌, ◌-◌, ◌<◌, ◌≤◌, drop, length, max, min, slice_get, slice_index, take};
ghost use Rattle.std.proofs.Props.{props};
ghost use Rattle.bitpack_sets.specs.Opened.{encoding_of, ids};
ghost use Rattle.bitpack_sets.specs.Places.{Holds};
ghost use Rattle.bitpack_slices.specs.Reads.{rank};

use crate::form::Form;
use crate::id_set::IdSet;
use crate::place::ChunkPlace;

/// A position among the ids of a set. It remembers the slice that it reached, so that nothing after it is searched from the first one again.
#[derive(Clone, Copy)]
pub struct Cursor<'a> {
    pub(crate) set: IdSet<'a>,
    pub(crate) position: usize,
    // A slice that is not after the position, if the set is in chunks.
    pub(crate) at: ChunkPlace,
    ghost within: { position ≤ length (ids set) },
    ghost holds: { slice_index (encoding_of set) 0 ≡ 5 → Holds set.chunks set.rest.now at position } by { Prim.hlevel props },
}

impl<'a> Cursor<'a> {
    /// The position of the first id of a set.
    #[inline(always)]
    pub(crate) fn new(set: IdSet<'a>) -> Cursor<'a>
        ensures set { result.set ≡ set.entry }
        ensures position { result.position ≡ 0 }
    {
        Cursor::from_place(set, 0, ChunkPlace::first())
    }

    /// A position whose slice, or one before it, was found.
    #[inline(always)]
    pub(crate) fn from_place(set: IdSet<'a>, position: usize, at: ChunkPlace) -> Cursor<'a>
        requires within { position ≤ length (ids set) }
        requires holds { slice_index (encoding_of set) 0 ≡ 5 → Holds set.chunks set.rest.now at position }
        ensures set { result.set ≡ set.entry }
        ensures position { result.position ≡ position }
    {
        Cursor { set, position, at }
    }

    /// How many ids are before the position.
    #[inline(always)]
    pub fn position(&self) -> usize
        ensures { result ≡ self.now.position }
    {
        self.position
    }

    /// Moves to a position, which may be an earlier one: the next search begins at the first slice then.
    #[inline(always)]
    pub fn move_to(&mut self, position: usize)
        requires { position ≤ length (ids self.old.set) }
        ensures set { self.new.set ≡ self.old.set }
        ensures position { self.new.position ≡ position }
    {
        if position < self.position {
            self.at = ChunkPlace::first();
        }
        self.position = position;
    }

    /// Writes the ids from the position on at the start of the slice, as many as there are and it has room for, and moves after them. Returns how many
    /// it wrote, which is 0 only after the last id or if there is no room.
    ///
    /// The rest of the slice is unchanged. Allocates nothing, and looks only into bodies that have such ids.
    // Not inlined: with this code in it, an iterator takes longer for each id.
    #[inline(never)]
    pub fn fill(&mut self, out: &mut [u32]) -> usize
        ensures set { self.new.set ≡ self.old.set }
        ensures len { result ≡ min (length out.old) (length (ids self.old.set) - self.old.position) }
        ensures ids { take result out.new ≡ take result (drop self.old.position (ids self.old.set)) }
        ensures rest { drop result out.new ≡ drop result out.old }
        ensures position { self.new.position ≡ self.old.position + result }
    {
        let count = out.len().min(self.set.len() - self.position);
        if count == 0 {
            return 0;
        }
        self.at = self.unpack(&mut out[..count]);
        self.position += count;
        count
    }

    /// Writes the ids from the position on. Returns a slice that is not after their end.
    fn unpack(&self, out: &mut [u32]) -> ChunkPlace
        requires some { self.now.position < length (ids self.now.set) }
        requires within { self.now.position + length out.old ≤ length (ids self.now.set) }
        ensures ids { out.new ≡ take (length out.old) (drop self.now.position (ids self.now.set)) }
        ensures holds { slice_index (encoding_of self.now.set) 0 ≡ 5 → Holds self.now.set.chunks self.now.set.rest.now result (self.now.position + length out.old) }
    {
        if let Form::Chunks(directory) = self.set.form() {
            return directory.unpack_at(self.at, self.position, out);
        }
        self.set.unpack_from(self.position, out);
        self.at
    }

    /// Moves to the first id from the position on that is at least `target`, and returns it. It is `None`, and the position after the last id, exactly
    /// if there is none. Does not move if the id at the position is at least `target`.
    pub fn seek(&mut self, target: u32) -> Option<u32>
        ensures set { self.new.set ≡ self.old.set }
        ensures position { self.new.position ≡ max self.old.position (rank target (ids self.old.set)) }
        ensures id { result ≡ slice_get (ids self.old.set) self.new.position }
    {
        let (at, position, id) = self.set.seek_from(self.at, self.position, target);
        self.at = at;
        self.position = position;
        id
    }
}

impl<'a> IdSet<'a> {
    ghost use Rattle.bitpack_sets.specs.Places.{IsChunkPlace, first_of};

    /// The position of the first id from a position on that is at least `target`, and the id, if there is one. Takes a slice that is not after the
    /// position, and returns one that is not after the id.
    // A copy of the set or a cursor in memory takes longer than the search.
    #[inline(always)]
    pub(crate) fn seek_from(
        &self,
        at: ChunkPlace,
        from: usize,
        target: u32,
    ) -> (ChunkPlace, usize, Option<u32>)
        requires within { from ≤ length (ids self.now) }
        requires holds { slice_index (encoding_of self.now) 0 ≡ 5 → Holds self.now.chunks self.now.rest.now at from }
        ensures holds { slice_index (encoding_of self.now) 0 ≡ 5 → Holds self.now.chunks self.now.rest.now result.0 result.1 }
        ensures within { result.1 ≤ length (ids self.now) }
        ensures position { result.1 ≡ max from (rank target (ids self.now)) }
        ensures id { result.2 ≡ slice_get (ids self.now) result.1 }
    {
        if from >= self.len() {
            return (at, from, None);
        }
        let (place, position, id) = self.find(at, target);
        if position < from {
            return (at, from, self.select(from));
        }
        (place, position, id)
    }

    /// How many ids are below `target`, or at most as many as are before a slice, and the id there, if there is one. Also returns a slice that is not
    /// after it, or this one.
    #[inline(always)]
    fn find(&self, at: ChunkPlace, target: u32) -> (ChunkPlace, usize, Option<u32>)
        requires { slice_index (encoding_of self.now) 0 ≡ 5 → IsChunkPlace self.now.chunks self.now.rest.now at }
        ensures holds { (from : ℕ) → slice_index (encoding_of self.now) 0 ≡ 5 → first_of self.now.chunks self.now.rest.now at ≤ from
            → Holds self.now.chunks self.now.rest.now result.0 (max from result.1) }
        ensures least { rank target (ids self.now) ≤ result.1 }
        ensures most { (from : ℕ) → (slice_index (encoding_of self.now) 0 ≡ 5 → first_of self.now.chunks self.now.rest.now at ≤ from)
            → result.1 ≤ max from (rank target (ids self.now)) }
        ensures first { result.2 ≡ slice_get (ids self.now) result.1 }
    {
        if let Form::Chunks(directory) = self.form() {
            return directory.seek_at(at, target);
        }
        let (position, id) = self.place_of(target);
        (at, position, id)
    }
}
