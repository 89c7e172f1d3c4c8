//! Ids of a set that are unpacked, and which of them is next.

ghost use Rattle.std.specs.Prelude.{◌≡◌, ℕ, ◌+◌, ◌-◌, ◌<◌, ◌≤◌, List, Some, drop, length, max, min, slice_get, slice_index, take};
ghost use Rattle.bitpack_sets.specs.Opened.{encoding_of, ids};
ghost use Rattle.bitpack_sets.specs.Reads.{ids_in};
ghost use Rattle.bitpack_slices.specs.Reads.{rank};

use crate::cursor::Cursor;
use crate::few::MOST_FEW;
use crate::id_set::IdSet;
use crate::place::ChunkPlace;
use crate::sought::rank_in_ids;

/// How many ids are unpacked at once. On a Xeon of model 85, it takes 1.3 to 1.6 times as long to add 20,000 ids or more with 64, 1.1 to 1.3
/// times with 128, and 0.9 to 1.0 times with 1,024.
const MOST_UNPACKED: usize = 256;

/// How many ids are unpacked after a seek that passed many.
const FEW_UNPACKED: usize = 16;

/// A seek that passes at most this many ids after those that are unpacked unpacks more.
const NEAR: usize = 16;

/// Up to 256 ids of a set, which one of them is next, and what finds the ids after them. A window borrows nothing: each call is given the set that
/// it was made for. With all fields 0 it is a window of the empty set.
#[repr(C)]
#[derive(Clone, Copy)]
pub struct Window {
    // The positions of the next id and of the first unpacked id, and the position after the last unpacked id.
    pub(crate) next: usize,
    begin: usize,
    end: usize,
    // How many ids are unpacked next.
    most: usize,
    // A slice that is not after the end, if the set is in chunks.
    at: ChunkPlace,
    unpacked: [u32; MOST_UNPACKED],
    ghost after: { begin ≤ next },
    ghost before: { next ≤ end },
    ghost room: { end ≤ begin + 256 },
    ghost few: { most ≤ 256 },
}

impl Window {
    ghost use Rattle.bitpack_sets.specs.inner.Windows.{IsWindow};

    /// All ids of a set. Unpacks the first, or all of a set of few.
    pub fn new(set: &IdSet<'_>) -> Window
        ensures window { IsWindow (encoding_of set.now) result }
        ensures next { result.next ≡ 0 }
    {
        let mut window = Window {
            next: 0,
            begin: 0,
            end: 0,
            most: if set.len() <= MOST_FEW { MOST_FEW } else { 1 },
            at: ChunkPlace::first(),
            unpacked: [0; MOST_UNPACKED],
        };
        window.unpack_from(&mut Cursor::new(*set));
        window
    }

    /// Unpacks the ids from the position of a cursor on. The first of them is next.
    #[inline(always)]
    fn unpack_from(&mut self, cursor: &mut Cursor<'_>)
        requires some { 0 < length (ids cursor.old.set) → 0 < self.old.most }
        ensures window { IsWindow (encoding_of cursor.old.set) self.new }
        ensures next { self.new.next ≡ cursor.old.position }
    {
        let position = cursor.position();
        unpack(cursor, self.most, &mut self.unpacked);
        self.next = position;
        self.begin = position;
        self.end = cursor.position();
        self.most = MOST_UNPACKED;
        self.at = cursor.at;
    }

    /// The next id. It does not pass over it.
    #[inline(always)]
    pub fn value(&self) -> Option<u32>
        ensures { (bytes : List ℕ) → IsWindow bytes self.now → result ≡ slice_get (ids_in bytes) self.now.next }
    {
        if self.next >= self.end {
            return None;
        }
        Some(self.unpacked[self.next - self.begin])
    }

    /// How many ids are before the next one.
    #[inline(always)]
    pub fn position(&self) -> usize
        ensures { result ≡ self.now.next }
    {
        self.next
    }

    /// Passes over the next id, if there is one, and returns the one after it.
    #[inline(always)]
    pub fn advance(&mut self, set: &IdSet<'_>) -> Option<u32>
        requires window { IsWindow (encoding_of set.now) self.old }
        ensures window { IsWindow (encoding_of set.now) self.new }
        ensures next { self.new.next ≡ min (length (ids set.now)) (self.old.next + 1) }
        ensures id { result ≡ slice_get (ids set.now) self.new.next }
    {
        if self.end - self.next > 1 {
            self.next += 1;
            return Some(self.unpacked[self.next - self.begin]);
        }
        self.advance_after(*set)
    }

    /// Passes over the last id that is unpacked, and unpacks more.
    // It takes the set itself, so that a caller whose next id is unpacked needs none in memory.
    #[inline(never)]
    fn advance_after(&mut self, set: IdSet<'_>) -> Option<u32>
        requires window { IsWindow (encoding_of set) self.old }
        requires last { self.old.end ≤ self.old.next + 1 }
        ensures window { IsWindow (encoding_of set.entry) self.new }
        ensures next { self.new.next ≡ min (length (ids set.entry)) (self.old.next + 1) }
        ensures id { result ≡ slice_get (ids set.entry) self.new.next }
    {
        self.unpack_from(&mut self.after(&set));
        self.value()
    }

    /// The position after the ids that are unpacked.
    #[inline(always)]
    fn after<'a>(&self, set: &IdSet<'a>) -> Cursor<'a>
        requires window { IsWindow (encoding_of set.now) self.now }
        ensures set { result.set ≡ set.now }
        ensures position { result.position ≡ self.now.end }
    {
        Cursor::from_place(*set, self.end, self.at)
    }

    /// Moves to the first id from the next one on that is at least `target`, and returns it. It does not pass over it. It is `None`, and no id is left,
    /// exactly if there is none.
    #[inline(always)]
    pub fn seek(&mut self, set: &IdSet<'_>, target: u32) -> Option<u32>
        requires window { IsWindow (encoding_of set.now) self.old }
        ensures window { IsWindow (encoding_of set.now) self.new }
        ensures next { self.new.next ≡ max self.old.next (rank target (ids set.now)) }
        ensures id { result ≡ slice_get (ids set.now) self.new.next }
    {
        if self.next >= self.end {
            return None;
        }
        let id = self.unpacked[self.next - self.begin];
        if target <= id {
            return Some(id);
        }
        if target <= self.unpacked[self.end - self.begin - 1] {
            return Some(self.seek_unpacked(set, target));
        }
        self.seek_after(set, target)
    }

    /// Moves to the first id that is at least `target`, if the last one that is unpacked is.
    #[inline(always)]
    fn seek_unpacked(&mut self, set: &IdSet<'_>, target: u32) -> u32
        requires window { IsWindow (encoding_of set.now) self.old }
        requires some { self.old.next < self.old.end }
        requires last { target ≤ slice_index self.old.unpacked (self.old.end - self.old.begin - 1) }
        ensures window { IsWindow (encoding_of set.now) self.new }
        ensures next { self.new.next ≡ max self.old.next (rank target (ids set.now)) }
        ensures id { slice_get (ids set.now) self.new.next ≡ Some result }
    {
        let from = self.next - self.begin;
        let passed = rank_in_ids(&self.unpacked[from..self.end - self.begin], target);
        self.next += passed;
        self.unpacked[from + passed]
    }

    /// Moves to the first id that is at least `target`, if all that are unpacked are below it. If it passes few, it unpacks more from there on, and
    /// else no other.
    #[inline(never)]
    fn seek_after(&mut self, set: &IdSet<'_>, target: u32) -> Option<u32>
        requires window { IsWindow (encoding_of set.now) self.old }
        requires some { self.old.next < self.old.end }
        requires last { slice_index self.old.unpacked (self.old.end - self.old.begin - 1) < target }
        ensures window { IsWindow (encoding_of set.now) self.new }
        ensures next { self.new.next ≡ max self.old.next (rank target (ids set.now)) }
        ensures id { result ≡ slice_get (ids set.now) self.new.next }
    {
        let (at, position, found) = set.seek_from(self.at, self.end, target);
        if position - self.end > NEAR
            && let Some(id) = found
        {
            self.unpacked[0] = id;
            self.next = position;
            self.begin = position;
            self.end = position + 1;
            self.most = FEW_UNPACKED;
            self.at = at;
            return found;
        }
        self.unpack_from(&mut Cursor::from_place(*set, position, at));
        found
    }

    /// Writes the next ids at the start of the slice, as many as there are and it has room for, and passes over them. Returns how many it wrote.
    ///
    /// The rest of the slice is unchanged. Allocates nothing.
    pub fn fill(&mut self, set: &IdSet<'_>, out: &mut [u32]) -> usize
        requires window { IsWindow (encoding_of set.now) self.old }
        ensures window { IsWindow (encoding_of set.now) self.new }
        ensures len { result ≡ min (length out.old) (length (ids set.now) - self.old.next) }
        ensures ids { take result out.new ≡ take result (drop self.old.next (ids set.now)) }
        ensures rest { drop result out.new ≡ drop result out.old }
        ensures next { self.new.next ≡ self.old.next + result }
    {
        let from = self.next - self.begin;
        let count = out.len().min(self.end - self.next);
        out[..count].copy_from_slice(&self.unpacked[from..from + count]);
        if count < self.end - self.next {
            self.next += count;
            return count;
        }
        let mut cursor = self.after(set);
        let more = cursor.fill(&mut out[count..]);
        self.unpack_from(&mut cursor);
        count + more
    }
}

/// Writes the ids from a position on at the start of the room, at most this many, and moves after them.
#[inline(always)]
fn unpack(cursor: &mut Cursor<'_>, most: usize, out: &mut [u32; MOST_UNPACKED])
    requires few { most ≤ 256 }
    ensures set { cursor.new.set ≡ cursor.old.set }
    ensures position { cursor.new.position ≡ cursor.old.position + min most (length (ids cursor.old.set) - cursor.old.position) }
    ensures ids { take (cursor.new.position - cursor.old.position) out.new ≡ take (cursor.new.position - cursor.old.position) (drop cursor.old.position (ids cursor.old.set)) }
{
    cursor.fill(&mut out[..most]);
}
