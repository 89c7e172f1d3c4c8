//! The value at a position of a wide column.

ghost use Rattle.std.specs.Prelude.{◌≡◌, ◌+◌, ◌*◌, ◌/◌, ◌%◌, ◌^◌, ◌<◌, ◌≤◌, None, slice_get, slice_index};
ghost use Rattle.bitpack_columns.specs.Faults as column_faults;
ghost use Rattle.bitpack_columns.specs.Stated as column_reads;
ghost use Rattle.bitpack_wide.specs.WideColumnFaults.{chunk_fault};
ghost use Rattle.bitpack_wide.specs.WideColumnReads.{difference_at, least_at};
ghost use Rattle.bitpack_wide.specs.WideColumnSound.{HasParts};
ghost use Rattle.bitpack_wide.specs.WideColumns as columns;

use super::WideColumn;
use super::chunks::has_high;
use super::tables::{CHUNK_LEN, bound_at, chunks_of, part_at};
use bitpack_columns::Column;
use bitpack_sets::IdSet;

impl<'a> WideColumn<'a> {
    ghost use Rattle.bitpack_sets.specs.Opened.{ids};
    ghost use Rattle.bitpack_wide.specs.WideColumns.{missing_from};
    ghost use Rattle.bitpack_wide.specs.WideOpened.{values};

    /// The value at a position, which begins at 0; `Some(None)` if it is missing. It is `None` exactly if the position is not below the number of
    /// values.
    // claim: wide_columns/3 the number of values, the value at a position
    pub fn get(&self, position: usize) -> Option<Option<u64>>
        ensures { result ≡ slice_get (values self.now) position }
    {
        if position >= self.count {
            return None;
        }
        if self.missing.contains(position as u32) {
            return Some(None);
        }
        Some(Some(value_at(self.count, self.rest, position)))
    }

    /// The positions without a value.
    pub fn missing(&self) -> IdSet<'a>
        // claim: wide_columns/4 the set of the positions without a value
        ensures { ids result ≡ missing_from 0 (values self.now) }
    {
        self.missing
    }
}

/// The value at a position that has one.
fn value_at(count: usize, rest: &[u8], position: usize) -> u64
    requires few { count ≤ 2 ^ 28 }
    requires parts { HasParts (columns.chunks_of count) rest.now }
    requires within { position < count }
    requires right { chunk_fault count rest.now (position / 65536) ≡ None }
    ensures { result ≡ least_at rest.now (position / 65536) + difference_at (columns.chunks_of count) rest.now (position / 65536) (position % 65536) }
{
    let chunks = chunks_of(count);
    let index = position / CHUNK_LEN;
    let at = position % CHUNK_LEN;
    let least = bound_at(chunks, rest, 2 * index);
    let greatest = bound_at(chunks, rest, 2 * index + 1);
    let low = number_at(part_at(chunks, rest, 2 * index + 1), at);
    if !has_high(least, greatest) {
        return least + low as u64;
    }
    let high = number_at(part_at(chunks, rest, 2 * index + 2), at);
    least + (low as u64 + ((high as u64) << 32))
}

/// The number at a position of a column, 0 after its last.
fn number_at(part: &[u8], position: usize) -> u32
    requires { column_faults.fault part.now ≡ None }
    ensures { result ≡ slice_index (column_reads.values_in part.now) position }
{
    match Column::of_tested(part).get(position) {
        Some(value) => value,
        None => 0,
    }
}
