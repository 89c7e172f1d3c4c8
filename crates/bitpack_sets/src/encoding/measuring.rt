//! How many bytes the bodies of a set have.
//! FORMAT.md, "Chunks".

ghost use Rattle.std.specs.Prelude.{◌≡◌, ℕ, List, ◌*◌, ◌<◌, ◌≤◌, IfSome, IsNone, false, length, true};
ghost use Rattle.std.specs.List.{concat};
ghost use Rattle.bitpack_slices.specs.Bodies.{parts};
ghost use Rattle.bitpack_slices.specs.Runs.{are_few, boundaries};
ghost use Rattle.bitpack_sets.specs.Sets.{IsSet, body};
ghost use Rattle.bitpack_sets.specs.Written.{IsChunk, bodies, capped, lows, slices};

use crate::encoding::runs::{CHUNK_BITS, run_len};
use bitpack_slices::chunk::bounds::{count_in_ids, most_bounds};
use bitpack_slices::slice::byte_len;

/// How many chunks a set has.
///
/// No branch depends on an id, so that the compiler compares several at once.
pub(crate) fn count_chunks(ids: &[u32]) -> usize
    requires { IsSet ids.now }
    ensures count { result ≡ length (parts 65536 ids.now) }
    ensures few { result ≤ length ids.now }
{
    if ids.len() == 0 {
        return 0;
    }
    let mut count: u32 = 1;
    for index in 1..ids.len() {
        count += (ids[index] / 65536 != ids[index - 1] / 65536) as u32;
    }
    count as usize
}

/// How many bytes the bodies of the chunks of a set have.
pub(crate) fn measure_bodies(ids: &[u32]) -> usize
    requires { IsSet ids.now }
    ensures size { result ≡ length (concat (bodies ids.now)) }
    ensures small { result ≤ 2 * length ids.now }
{
    let mut left = ids;
    let mut bodies = 0;
    while !left.is_empty() {
        let run = run_len(CHUNK_BITS, left);
        bodies += measure_body(&left[..run]).1;
        left = &left[run..];
    }
    bodies
}

/// The number of slices of a chunk, or `None` if its body is runs; and how many bytes its body has.
pub(crate) fn measure_body(ids: &[u32]) -> (Option<usize>, usize)
    requires chunk { IsChunk ids.now }
    requires some { 0 < length ids.now }
    requires few { length ids.now ≤ 65536 }
    ensures size { result.1 ≡ length (body (lows ids.now)) }
    ensures small { result.1 ≤ 2 * length ids.now }
    ensures runs { IsNone result.0 → are_few (length (boundaries (lows ids.now))) (length ids.now) ≡ true }
    ensures blocks { IfSome result.0 (λ count. (count ≡ length (parts 256 (lows ids.now))) × (are_few (length (boundaries (lows ids.now))) (length ids.now) ≡ false)) }
{
    let bounds = count_in_ids(ids);
    if bounds <= most_bounds(ids.len()) {
        return (None, 2 + 2 * bounds);
    }
    let (count, slices) = measure_slices(ids);
    (Some(count), body_len(ids.len(), count, slices))
}

/// The number of slices of a chunk, and of their bytes. A slice has a byte for each id, at most 32, and none for 256 ids.
pub(crate) fn measure_slices(ids: &[u32]) -> (usize, usize)
    requires { IsChunk ids.now }
    ensures count { result.0 ≡ length (parts 256 (lows ids.now)) }
    ensures size { result.1 ≡ length (slices (parts 256 (lows ids.now))) }
    ensures few { result.0 ≤ length ids.now }
    ensures small { result.1 ≤ length ids.now }
{
    let count = count_within(1, ids);
    let short = count_within(32, ids);
    let full = ids.len() - count_within(255, ids);
    (count, short - 32 * full)
}

/// How many ids a chunk has, if each slice counts at most `most`. They are the ids with no id of their slice `most` ids later.
///
/// No branch depends on an id, so that the compiler compares several at once.
#[inline(always)]
fn count_within(most: usize, ids: &[u32]) -> usize
    requires chunk { IsChunk ids.now }
    requires some { 0 < most }
    ensures { result ≡ capped most (parts 256 (lows ids.now)) }
{
    if ids.len() <= most {
        return ids.len();
    }
    let later = &ids[most..];
    let mut count: u32 = 0;
    for index in 0..later.len() {
        count += (later[index] / 256 != ids[index] / 256) as u32;
    }
    most + count as usize
}

/// How many bytes the body of a chunk has that is no runs, of `len` ids in `count` slices, which have `size` bytes.
pub(crate) fn body_len(len: usize, count: usize, size: usize) -> usize
    requires len { len ≤ 65536 }
    requires count { count ≤ len }
    requires size { size ≤ len }
    ensures few { result ≤ 2 * len }
    ensures len { (numbers : List ℕ) → are_few (length (boundaries numbers)) (length numbers) ≡ false → length numbers ≡ len → length (parts 256 numbers) ≡ count
        → length (slices (parts 256 numbers)) ≡ size → result ≡ length (body numbers) }
{
    let blocks = 1 + byte_len(count) + count + size;
    let numbers = 2 * len;
    if blocks < numbers { blocks } else { numbers }
}
