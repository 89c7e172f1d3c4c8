//! Writes the set of all ids of a range. It lists none of them.
//! FORMAT.md, "Id sets" and "Chunks".
//!
//! A chunk that has at least 16 of these ids is one run: its body has one boundary or two.

ghost use Rattle.std.specs.Prelude.{◌≡◌, ◌+◌, ◌*◌, ◌%◌, ◌^◌, ◌<◌, ◌≤◌, IfOk, OnOk, length};
ghost use Rattle.std.specs.List.{concat, range_with_len};
ghost use Rattle.bitpack_slices.specs.Bodies.{parts};
ghost use Rattle.bitpack_slices.specs.Errors.{Finds};
ghost use Rattle.bitpack_slices.specs.Runs.{boundaries};
ghost use Rattle.bitpack_sets.specs.Ranges.{ids_within};
ghost use Rattle.bitpack_sets.specs.Sets.{IsSet, body, encoding, in_chunks};
ghost use Rattle.bitpack_sets.specs.Written.{IsMeasured, IsRun, MeasuresSet, WritesSet, bodies, directory, ends_encoding, keys_encoding, lows, refusal, sums_encoding};

use crate::encoding::bodies::write_body;
use crate::encoding::chunks::{chunks_len, head_len, write_head};
use crate::encoding::few::MOST_FEW;
use crate::encoding::measuring::measure_body;
use crate::encoding::order::LONGEST_SET;
use crate::encoding::{Measured, measure, write_set};
use bitpack_groups::{byte_count, write_at};
use bitpack_slices::SetError;
use bitpack_slices::chunk::bounds::most_bounds;
use bitpack_slices::chunk::runs::fill_range;
use bitpack_slices::chunk::writing::write_bounds;

/// Each id is below this number.
const END_OF_IDS: u64 = 1 << 32;

/// The most ids of a range in one chunk whose body is not runs.
const MOST_LISTED: usize = 15;

/// Returns the length in bytes of the set of the ids from `first` to before `end`. They are at most 268,435,456.
///
/// If `end` is at most `first` the set has no id. An end above 2^32 is as 2^32.
// claim: sets/28
pub fn encoded_range_len(first: u32, end: u64) -> Result<usize, SetError>
    ensures { MeasuresSet (ids_within first end) result }
{
    let count = count_ids(first, end)?;
    let measured = measure_range(first, count);
    Ok(measured.len)
}

/// Writes the set of the ids from `first` to before `end` at the start of the slice, and returns its length in bytes. Allocates nothing.
///
/// The ids are at most 268,435,456. They are not listed: the time is in proportion to the bytes. If `end` is at most `first` the set has no id.
/// An end above 2^32 is as 2^32. If the slice is too short, it fails with `Short` and writes nothing. The bytes after the set are unchanged.
/// [`encoded_range_len`] returns how many bytes are needed.
// claim: sets/28 measures, writes as `sets/7-9` the ids below 2^32 from `first` to before `end`
pub fn encode_range_to(first: u32, end: u64, out: &mut [u8]) -> Result<usize, SetError>
    ensures { WritesSet (ids_within first end) result out.old out.new }
{
    let count = count_ids(first, end)?;
    let measured = measure_range(first, count);
    let len = measured.len;
    if out.len() < len {
        return Err(SetError::Short);
    }
    write_range(first, count, measured, &mut out[..len]);
    Ok(len)
}

/// How many ids a range has. It fails if they are too many for a set.
fn count_ids(first: u32, end: u64) -> Result<usize, SetError>
    ensures fault { Finds result (refusal (ids_within first end)) }
    ensures set { OnOk result (IsSet (ids_within first end)) }
    ensures ids { IfOk result (λ count. ids_within first end ≡ range_with_len first count) }
    ensures few { IfOk result (λ count. count ≤ 2 ^ 28) }
    ensures fits { IfOk result (λ count. first + count ≤ 2 ^ 32) }
{
    let count = end.min(END_OF_IDS).saturating_sub(first as u64) as usize;
    if count > LONGEST_SET {
        return Err(SetError::TooLong(count));
    }
    Ok(count)
}

/// Measures the set of `count` ids from `first` on.
fn measure_range(first: u32, count: usize) -> Measured
    requires few { count ≤ 2 ^ 28 }
    requires fits { first + count ≤ 2 ^ 32 }
    ensures measured { IsMeasured (range_with_len first count) result.len result.chunks result.bodies }
    ensures dense { 127 < count → 4 * result.chunks ≤ count }
{
    if count <= MOST_FEW {
        let mut room = [0; MOST_FEW];
        let ids = &mut room[..count];
        fill_range(first, ids);
        return measure(ids);
    }
    let (chunks, bodies) = measure_chunks(first, count);
    let len = chunks_len(count, chunks, bodies);
    Measured {
        len,
        chunks,
        bodies,
    }
}

/// The number of chunks of `count` ids from `first` on, and of the bytes of their bodies.
fn measure_chunks(first: u32, count: usize) -> (usize, usize)
    requires few { count ≤ 2 ^ 28 }
    requires fits { first + count ≤ 2 ^ 32 }
    ensures chunks { result.0 ≡ length (parts 65536 (range_with_len first count)) }
    ensures bodies { result.1 ≡ length (concat (bodies (range_with_len first count))) }
    ensures small { result.1 ≤ 2 * count }
    ensures dense { 127 < count → 4 * result.0 ≤ count }
{
    let mut chunks = 0;
    let mut bodies = 0;
    let mut done = 0;
    while done < count {
        let id = first + done as u32;
        let run = run_from(id, count - done);
        bodies += run_body_len(id, run);
        chunks += 1;
        done += run;
    }
    (chunks, bodies)
}

/// Writes the set of `count` ids from `first` on, which was measured.
fn write_range(first: u32, count: usize, measured: Measured, out: &mut [u8])
    requires few { count ≤ 2 ^ 28 }
    requires fits { first + count ≤ 2 ^ 32 }
    requires measured { IsMeasured (range_with_len first count) measured.len measured.chunks measured.bodies }
    requires dense { 127 < count → 4 * measured.chunks ≤ count }
    requires size { length out.old ≡ length (encoding (range_with_len first count)) }
    ensures { out.new ≡ encoding (range_with_len first count) }
{
    if count <= MOST_FEW {
        let mut room = [0; MOST_FEW];
        let ids = &mut room[..count];
        fill_range(first, ids);
        write_set(ids, measured, out);
    } else {
        write_chunks(first, count, measured.chunks, measured.bodies, out);
    }
}

/// Writes `count` ids from `first` on in `chunks` chunks. Their bodies have `size` bytes.
fn write_chunks(first: u32, count: usize, chunks: usize, size: usize, out: &mut [u8])
    requires few { count ≤ 2 ^ 28 }
    requires fits { first + count ≤ 2 ^ 32 }
    requires chunks { chunks ≡ length (parts 65536 (range_with_len first count)) }
    requires within { chunks ≤ count }
    requires size { size ≡ length (concat (bodies (range_with_len first count))) }
    requires room { length out.old ≡ length (in_chunks (range_with_len first count)) }
    ensures { out.new ≡ in_chunks (range_with_len first count) }
{
    let end_size = byte_count(size as u32);
    let sum_size = byte_count(count as u32);
    let len = head_len(count, chunks);
    let (head, rest) = out.split_at_mut(len);
    write_head(count, chunks, end_size, sum_size, head);
    write_directory(first, count, chunks, end_size, sum_size, rest);
}

/// Writes the directory of `count` ids from `first` on, with ends and sums of these sizes, and their bodies.
fn write_directory(
    first: u32,
    count: usize,
    chunks: usize,
    end_size: usize,
    sum_size: usize,
    out: &mut [u8],
)
    requires few { count ≤ 2 ^ 28 }
    requires fits { first + count ≤ 2 ^ 32 }
    requires chunks { chunks ≡ length (parts 65536 (range_with_len first count)) }
    requires within { chunks ≤ 2 ^ 28 }
    requires sizes { (end_size ≤ 4) × (sum_size ≤ 4) }
    requires size { length out.old ≡ length (directory end_size sum_size (range_with_len first count)) }
    ensures { out.new ≡ directory end_size sum_size (range_with_len first count) }
{
    let (keys, others) = out.split_at_mut(2 * chunks);
    let (ends, after) = others.split_at_mut(end_size * chunks);
    let (sums, last) = after.split_at_mut(sum_size * chunks);
    write_entries(first, count, end_size, sum_size, keys, ends, sums, last);
}

/// Writes the key, the end, the sum and the body of each chunk of `count` ids from `first` on.
fn write_entries(
    first: u32,
    count: usize,
    end_size: usize,
    sum_size: usize,
    keys: &mut [u8],
    ends: &mut [u8],
    sums: &mut [u8],
    out: &mut [u8],
)
    requires few { count ≤ 2 ^ 28 }
    requires fits { first + count ≤ 2 ^ 32 }
    requires keys { length keys.old ≡ length (keys_encoding (range_with_len first count)) }
    requires ends { length ends.old ≡ length (ends_encoding end_size 0 (range_with_len first count)) }
    requires sums { length sums.old ≡ length (sums_encoding sum_size 0 (range_with_len first count)) }
    requires bodies { length out.old ≡ length (concat (bodies (range_with_len first count))) }
    ensures keys { keys.new ≡ keys_encoding (range_with_len first count) }
    ensures ends { ends.new ≡ ends_encoding end_size 0 (range_with_len first count) }
    ensures sums { sums.new ≡ sums_encoding sum_size 0 (range_with_len first count) }
    ensures bodies { out.new ≡ concat (bodies (range_with_len first count)) }
{
    let mut index = 0;
    let mut end = 0;
    let mut sum = 0;
    while sum < count {
        let id = first + sum as u32;
        let run = run_from(id, count - sum);
        let size = run_body_len(id, run);
        write_run_body(id, run, &mut out[end..end + size]);
        end += size;
        sum += run;
        write_at(index, 2, id / 65536, keys);
        write_at(index, end_size, end as u32, ends);
        write_at(index, sum_size, sum as u32, sums);
        index += 1;
    }
}

/// How many of `left` ids from this one on are in its chunk.
fn run_from(id: u32, left: usize) -> usize
    requires some { 0 < left }
    ensures run { IsRun 65536 (range_with_len id left) result }
    ensures within { result ≤ left }
    ensures chunk { id % 65536 + result ≤ 65536 }
    ensures whole { result < left → id % 65536 + result ≡ 65536 }
{
    left.min(65536 - id as usize % 65536)
}

/// How many boundaries the low 16 bits of `count` ids of one chunk from this one on have.
fn count_bounds(id: u32, count: usize) -> usize
    requires some { 0 < count }
    requires chunk { id % 65536 + count ≤ 65536 }
    ensures count { result ≡ length (boundaries (lows (range_with_len id count))) }
    ensures few { (1 ≤ result) × (result ≤ 2) }
{
    1 + (id as usize % 65536 + count < 65536) as usize
}

/// How many bytes the body has of `count` ids of one chunk from this one on.
fn run_body_len(id: u32, count: usize) -> usize
    requires some { 0 < count }
    requires chunk { id % 65536 + count ≤ 65536 }
    ensures size { result ≡ length (body (lows (range_with_len id count))) }
    ensures small { result ≤ 2 * count }
{
    let bounds = count_bounds(id, count);
    if bounds <= most_bounds(count) {
        return 2 + 2 * bounds;
    }
    let mut room = [0; MOST_LISTED];
    let ids = &mut room[..count];
    fill_range(id, ids);
    measure_body(ids).1
}

/// Writes the body of `count` ids of one chunk from this one on.
fn write_run_body(id: u32, count: usize, out: &mut [u8])
    requires some { 0 < count }
    requires chunk { id % 65536 + count ≤ 65536 }
    requires size { length out.old ≡ length (body (lows (range_with_len id count))) }
    ensures { out.new ≡ body (lows (range_with_len id count)) }
{
    let bounds = count_bounds(id, count);
    if bounds <= most_bounds(count) {
        let begin = id % 65536;
        let both = [begin, begin + count as u32];
        write_bounds(&both[..bounds], out);
    } else {
        let mut room = [0; MOST_LISTED];
        let ids = &mut room[..count];
        fill_range(id, ids);
        let (slices, _) = measure_body(ids);
        write_body(ids, slices, out);
    }
}
