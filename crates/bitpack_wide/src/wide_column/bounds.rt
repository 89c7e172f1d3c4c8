//! The least and the greatest value of a wide column, and of a chunk.

ghost use Rattle.std.specs.Prelude.{◌≡◌, ℕ, ◌+◌, ◌^◌, ◌≤◌};
ghost use Rattle.bitpack_slices.specs.Reads.{has};
ghost use Rattle.bitpack_sets.specs.Opened.{ids};
ghost use Rattle.bitpack_wide.specs.WideColumnFaults.{is_front};
ghost use Rattle.bitpack_wide.specs.inner.WideColumnSteps.{join_bounds};

use super::WideColumn;
use super::filling::count_between;
use super::tables::{CHUNK_LEN, bound_at, chunks_of};
use bitpack_sets::IdSet;

impl<'a> WideColumn<'a> {
    ghost use Rattle.std.specs.Option.{option_map};
    ghost use Rattle.bitpack_wide.specs.WideColumns.{chunk_of, there};
    ghost use Rattle.bitpack_wide.specs.WideOpened.{bounds_of, values};

    /// The least and the greatest value of a chunk: of the at most 65,536 positions from `65536 * chunk` on. It is `None` exactly if none of them
    /// has a value. Reads no value.
    pub fn bounds(&self, chunk: usize) -> Option<(u64, u64)>
        // claim: wide_columns/7 the least and the greatest value, also of each 65,536 positions
        ensures { result ≡ bounds_of (there (chunk_of chunk (values self.now))) }
    {
        let chunks = chunks_of(self.count);
        if chunk >= chunks {
            return None;
        }
        let begin = CHUNK_LEN * chunk;
        if are_missing(&self.missing, begin, CHUNK_LEN.min(self.count - begin)) {
            return None;
        }
        let least = bound_at(chunks, self.rest, 2 * chunk);
        let greatest = bound_at(chunks, self.rest, 2 * chunk + 1);
        Some((least, greatest))
    }

    /// The least value. It is `None` exactly if no position has a value. Reads the bounds of each chunk, and no value.
    pub fn min(&self) -> Option<u64>
        ensures { result ≡ option_map (λ bounds. bounds.0) (bounds_of (there (values self.now))) }
    {
        match self.all_bounds() {
            Some((least, _)) => Some(least),
            None => None,
        }
    }

    /// The greatest value. It is `None` exactly if no position has a value. Reads the bounds of each chunk, and no value.
    pub fn max(&self) -> Option<u64>
        ensures { result ≡ option_map (λ bounds. bounds.1) (bounds_of (there (values self.now))) }
    {
        match self.all_bounds() {
            Some((_, greatest)) => Some(greatest),
            None => None,
        }
    }

    // The bounds of all values.
    fn all_bounds(&self) -> Option<(u64, u64)>
        ensures { result ≡ bounds_of (there (values self.now)) }
    {
        let mut all = None;
        for chunk in 0..chunks_of(self.count) {
            all = joined(all, self.bounds(chunk));
        }
        all
    }
}

/// Whether `len` positions from one on are all missing.
fn are_missing(missing: &IdSet, begin: usize, len: usize) -> bool
    requires { begin + len ≤ 2 ^ 28 }
    ensures { result ≡ is_front (λ k. has (begin + k) (ids missing.now)) len }
{
    count_between(missing, begin, begin + len) == len
}

/// The bounds of two lists of values together.
fn joined(one: Option<(u64, u64)>, other: Option<(u64, u64)>) -> Option<(u64, u64)>
    ensures { result ≡ join_bounds one other }
{
    match (one, other) {
        (None, other) => other,
        (one, None) => one,
        (Some((least, greatest)), Some((low, high))) => Some((least.min(low), greatest.max(high))),
    }
}
