//! How many ids are within limits.

ghost use Rattle.std.specs.Prelude.{◌≡◌, ◌+◌, ◌&&◌, length, nat_le};
ghost use Rattle.std.specs.List.{filter};
ghost use Rattle.bitpack_sets.specs.Opened.{ids};
ghost use Rattle.bitpack_slices.specs.Reads.{rank};

use crate::id_set::IdSet;

impl<'a> IdSet<'a> {
    /// How many ids are from `low` to `high`, both included: 0 if `high` is below `low`. Looks into the chunks of both alone.
    pub fn count_between(&self, low: u32, high: u32) -> usize
        // claim: sets/30 counts the ids within limits
        ensures { result ≡ length (filter (λ x. nat_le low x && nat_le x high) (ids self.now)) }
    {
        if high < low {
            return 0;
        }
        self.rank_after(high) - self.rank(low)
    }

    /// How many ids are at most `id`.
    fn rank_after(&self, id: u32) -> usize
        ensures { result ≡ rank (id + 1) (ids self.now) }
    {
        if id == u32::MAX {
            return self.len();
        }
        self.rank(id + 1)
    }
}
