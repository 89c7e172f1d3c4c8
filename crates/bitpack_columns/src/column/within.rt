//! Which values of a slice are within a range, both ends included.

ghost use Rattle.std.specs.Prelude.{◌≡◌, ◌+◌, ◌*◌, ◌/◌, ◌^◌, ◌<◌, ◌≤◌, ◌++◌, length, map, slice_index, take};
ghost use Rattle.std.specs.List.{filter, range_with_len};
ghost use Rattle.bitpack_columns.specs.Ranges.{is_between, positions_between};
ghost use Rattle.bitpack_columns.specs.Searches.{HasFound, ones_in};

use std::simd::prelude::*;

/// How many of these values are within a range. No branch depends on a value, so that the compiler compares several at once.
#[inline(always)]
pub(super) fn count_in(values: &[u32], low: u32, high: u32) -> usize
    requires { length values.now ≤ 128 }
    ensures { result ≡ length (positions_between low high 0 values.now) }
{
    let mut count = 0u32;
    for index in 0..values.len() {
        count += if within(low, high, values[index]) {
            1
        } else {
            0
        };
    }
    count as usize
}

/// Writes the positions of these values that are within a range at the start of the slice, and others after them. The first value has the
/// position `start`. Returns how many are within the range.
#[inline(always)]
pub(super) fn find_in(
    values: &[u32],
    start: usize,
    low: u32,
    high: u32,
    found: &mut [usize; 128],
) -> usize
    requires few { length values.now ≤ 128 }
    requires start { start + length values.now < 2 ^ 64 }
    ensures { HasFound low high values.now start (length values.now) result found.new }
{
    let next = find_by_eight(values, start, low, high, found);
    find_rest(values, start, low, high, next, found)
}

/// As `find_in`, for the values in groups of eight. Up to seven after them are left.
#[inline(always)]
fn find_by_eight(
    values: &[u32],
    start: usize,
    low: u32,
    high: u32,
    found: &mut [usize; 128],
) -> usize
    requires few { length values.now ≤ 128 }
    requires start { start + length values.now < 2 ^ 64 }
    ensures { HasFound low high values.now start (length values.now / 8 * 8) result found.new }
{
    let mut next = 0;
    for group in 0..values.len() / 8 {
        let at = 8 * group;
        let bits = matches_of_eight(values, at, low, high);
        next = put_ones(bits, start + at, next, found);
    }
    next
}

/// As `find_in`, for the values after the groups of eight. Those before account for the first `done` positions.
#[inline(always)]
fn find_rest(
    values: &[u32],
    start: usize,
    low: u32,
    high: u32,
    done: usize,
    found: &mut [usize; 128],
) -> usize
    requires few { length values.now ≤ 128 }
    requires start { start + length values.now < 2 ^ 64 }
    requires found { HasFound low high values.now start (length values.now / 8 * 8) done found.old }
    ensures { HasFound low high values.now start (length values.now) result found.new }
{
    let mut next = done;
    for index in values.len() / 8 * 8..values.len() {
        found[next] = start + index;
        next += if within(low, high, values[index]) {
            1
        } else {
            0
        };
    }
    next
}

/// Which of eight values from an index on are within a range: a bit for each.
#[inline(always)]
fn matches_of_eight(values: &[u32], at: usize, low: u32, high: u32) -> u8
    requires { at + 8 ≤ length values.now }
    ensures { ones_in result
        ≡ filter (λ k. is_between low high (slice_index values.now (at + k))) (range_with_len 0 8) }
{
    let eight = u32x8::from_slice(&values[at..]);
    let reach = eight.simd_ge(u32x8::splat(low)) & eight.simd_le(u32x8::splat(high));
    reach.to_bitmask() as u8
}

/// Writes the numbers of the bits that are 1, each with `start` added, from an index on, and others after them. Returns where they end. The
/// one branch asks whether there is any.
#[inline(always)]
fn put_ones(bits: u8, start: usize, at: usize, found: &mut [usize; 128]) -> usize
    requires room { at + 8 ≤ 128 }
    requires start { start + 8 < 2 ^ 64 }
    ensures end { result ≡ at + length (ones_in bits) }
    ensures found { take result found.new ≡ take at found.old ++ map (λ bit. start + bit) (ones_in bits) }
{
    if bits == 0 {
        return at;
    }
    let mut next = at;
    for bit in 0..8 {
        found[next] = start + bit;
        next += (bits >> bit) as usize % 2;
    }
    next
}

/// Writes the numbers from one on.
#[inline(always)]
pub(super) fn count_up(start: usize, out: &mut [usize])
    requires { start + length out.old ≤ 2 ^ 64 }
    ensures { out.new ≡ range_with_len start (length out.old) }
{
    for index in 0..out.len() {
        out[index] = start + index;
    }
}

/// Whether a value is within a range.
#[inline(always)]
fn within(low: u32, high: u32, value: u32) -> bool
    ensures { result ≡ is_between low high value }
{
    low <= value && value <= high
}
