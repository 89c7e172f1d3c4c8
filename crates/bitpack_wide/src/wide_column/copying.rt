//! The values of a range of positions of a wide column.

ghost use Rattle.std.specs.Prelude.{◌≡◌, ℕ, ◌+◌, ◌-◌, ◌%◌, ◌^◌, ◌<◌, ◌≤◌, ◌==◌, ◌&&◌, nat_lt, if◌then◌else◌, drop, length, min, slice_index, take};
ghost use Rattle.bitpack_slices.specs.Reads.{has};
ghost use Rattle.bitpack_sets.specs.Opened.{ids};

use super::WideColumn;
use super::chunk::{PART, read_differences};
use super::chunks::read_chunk;
use super::tables::CHUNK_LEN;
use bitpack_sets::IdSet;

impl<'a> WideColumn<'a> {
    ghost use Rattle.bitpack_wide.specs.WideOpened.{values, with_fill};

    /// Writes the values from a position on at the start of the slice, as many as there are and it has room for, and returns how many it
    /// wrote. For each missing value it writes `fill`. It writes none if the position is not below the number of values.
    ///
    /// The rest of the slice is unchanged. Allocates nothing.
    pub fn copy_range(&self, from: usize, out: &mut [u64], fill: u64) -> usize
        ensures len { result ≡ min (length out.old) (length (values self.now) - from) }
        // claim: wide_columns/8 as `sets/4`, of values, with a number for the missing ones
        ensures values { take result out.new ≡ take result (drop from (with_fill fill (values self.now))) }
        ensures rest { drop result out.new ≡ drop result out.old }
    {
        if from >= self.count {
            return 0;
        }
        let count = out.len().min(self.count - from);
        self.unpack_from(from, &mut out[..count], fill);
        count
    }

    // Writes the values from a position on, part by part.
    fn unpack_from(&self, from: usize, out: &mut [u64], fill: u64)
        requires { from + length out.old ≤ self.now.count }
        ensures { out.new ≡ take (length out.old) (drop from (with_fill fill (values self.now))) }
    {
        let mut done = 0;
        while done < out.len() {
            let more = (PART - (from + done) % PART).min(out.len() - done);
            self.unpack_part(from + done, &mut out[done..done + more], fill);
            done += more;
        }
    }

    // Writes the values from a position on, of one part of 1,024.
    fn unpack_part(&self, from: usize, out: &mut [u64], fill: u64)
        requires some { 0 < length out.old }
        requires few { from % 1024 + length out.old ≤ 1024 }
        requires within { from + length out.old ≤ self.now.count }
        ensures { out.new ≡ take (length out.old) (drop from (with_fill fill (values self.now))) }
    {
        let chunk = read_chunk(self.count, self.rest, from / CHUNK_LEN);
        read_differences(&chunk, from % CHUNK_LEN, out);
        add_least(chunk.least, &self.missing, from, out, fill);
    }
}

/// Adds the least value to each difference, or writes `fill` if the position is missing. The first position is `from`.
fn add_least(least: u64, missing: &IdSet, from: usize, out: &mut [u64], fill: u64)
    requires few { length out.old ≤ 1024 }
    requires within { from + length out.old ≤ 2 ^ 28 }
    requires fits { (k : ℕ) → k < length out.old → least + slice_index out.old k < 2 ^ 64 }
    ensures { (k : ℕ) → k < length out.old → slice_index out.new k ≡ (if has (from + k) (ids missing.now) then fill else least + slice_index out.old k) }
{
    let mut absent = [0; PART];
    let first = missing.rank(from as u32);
    let found = missing.copy_range(first, &mut absent);
    let mut next = 0;
    for index in 0..out.len() {
        let is_absent = is_at(&absent[..found], next, from + index);
        out[index] = either(is_absent, fill, least + out[index]);
        next += is_absent as usize;
    }
}

/// Whether an id has this position.
#[inline(always)]
fn is_at(absent: &[u32], next: usize, position: usize) -> bool
    ensures { result ≡ (nat_lt next (length absent.now) && (slice_index absent.now next == position)) }
{
    next < absent.len() && absent[next] as usize == position
}

#[inline(always)]
fn either(is_absent: bool, fill: u64, value: u64) -> u64
    ensures { result ≡ (if is_absent then fill else value) }
{
    if is_absent { fill } else { value }
}
