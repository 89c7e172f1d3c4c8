//! The ids of a set, one after the other.

ghost use Rattle.std.specs.Prelude.{◌≡◌, ◌+◌, ◌-◌, drop, length, max, min, slice_get, take};
ghost use Rattle.std.proofs.Props.{props};
ghost use Rattle.bitpack_sets.specs.Opened.{encoding_of, ids};
ghost use Rattle.bitpack_sets.specs.inner.Windows.{IsWindow};
ghost use Rattle.bitpack_slices.specs.Reads.{rank};

use crate::id_set::IdSet;
use crate::window::Window;

/// An iterator over the ids of a set, in increasing order, which also moves to the first id from a number on. It unpacks up to 256 at once, and so takes
/// about 1 KB.
#[derive(Clone, Copy)]
pub struct Ids<'a> {
    pub(crate) set: IdSet<'a>,
    pub(crate) window: Window,
    ghost reads: { IsWindow (encoding_of set) window } by { Prim.hlevel props },
}

impl<'a> Ids<'a> {
    /// All ids of a set. Unpacks the first, or all of a set of few.
    pub(crate) fn new(set: IdSet<'a>) -> Ids<'a>
        ensures set { result.set ≡ set.entry }
        ensures next { result.window.next ≡ 0 }
    {
        Ids {
            set,
            window: Window::new(&set),
        }
    }

    /// The next id. It does not pass over it.
    #[inline(always)]
    pub fn value(&self) -> Option<u32>
        ensures { result ≡ slice_get (ids self.now.set) self.now.window.next }
    {
        self.window.value()
    }

    /// How many ids are before the next one.
    #[inline(always)]
    pub fn position(&self) -> usize
        ensures { result ≡ self.now.window.next }
    {
        self.window.position()
    }

    /// Passes over the next id, if there is one, and returns the one after it.
    #[inline(always)]
    pub fn advance(&mut self) -> Option<u32>
        ensures set { self.new.set ≡ self.old.set }
        ensures next { self.new.window.next ≡ min (length (ids self.old.set)) (self.old.window.next + 1) }
        ensures id { result ≡ slice_get (ids self.old.set) self.new.window.next }
    {
        self.window.advance(&self.set)
    }

    /// Moves to the first id from the next one on that is at least `target`, and returns it. It does not pass over it. It is `None`, and no id is left,
    /// exactly if there is none.
    #[inline(always)]
    pub fn seek(&mut self, target: u32) -> Option<u32>
        ensures set { self.new.set ≡ self.old.set }
        ensures next { self.new.window.next ≡ max self.old.window.next (rank target (ids self.old.set)) }
        ensures id { result ≡ slice_get (ids self.old.set) self.new.window.next }
    {
        self.window.seek(&self.set, target)
    }

    /// Writes the next ids at the start of the slice, as many as there are and it has room for, and passes over them. Returns how many it wrote.
    ///
    /// The rest of the slice is unchanged. Allocates nothing.
    pub fn fill(&mut self, out: &mut [u32]) -> usize
        ensures set { self.new.set ≡ self.old.set }
        ensures len { result ≡ min (length out.old) (length (ids self.old.set) - self.old.window.next) }
        ensures ids { take result out.new ≡ take result (drop self.old.window.next (ids self.old.set)) }
        ensures rest { drop result out.new ≡ drop result out.old }
        ensures next { self.new.window.next ≡ self.old.window.next + result }
    {
        self.window.fill(&self.set, out)
    }
}

/// The ids that did not come yet, in increasing order.
impl<'a> Iterator for Ids<'a> {
    ghost use Rattle.std.specs.Iterator.{YieldsFirst, item_count};

    type Item = u32;

    ghost next_gives = { YieldsFirst (λ iterator. drop iterator.window.next (ids iterator.set)) };

    ghost remaining = { item_count (λ iterator. drop iterator.window.next (ids iterator.set)) };

    #[inline(always)]
    fn next(&mut self) -> Option<u32> {
        let id = self.value()?;
        self.advance();
        Some(id)
    }

    fn size_hint(&self) -> (usize, Option<usize>) {
        let left = self.set.len() - self.window.next;
        (left, Some(left))
    }
}
