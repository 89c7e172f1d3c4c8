//! Writes bodies.
//! FORMAT.md, "Chunks".

ghost use Rattle.std.specs.Prelude.{◌≡◌, ◌<◌, IfSome, IsNone, false, length, true};
ghost use Rattle.bitpack_slices.specs.Runs.{are_few, boundaries};
ghost use Rattle.bitpack_slices.specs.Bodies.{blocks, parts};
ghost use Rattle.bitpack_sets.specs.Sets.{body};
ghost use Rattle.bitpack_sets.specs.Written.{IsChunk, counts, highs, lows, slice_ends, slices};

use bitpack_slices::chunk::writing::write_runs;
use bitpack_slices::integers::write_integers;
use bitpack_slices::slice::byte_len;
use bitpack_slices::slice::writing::{copy_lows, write_slice};

/// The most numbers of a slice.
const LONGEST_SLICE: usize = 256;

/// Writes the body of a chunk. `slices` is the number of its slices, or `None` if the body is runs.
pub(crate) fn write_body(ids: &[u32], slices: Option<usize>, out: &mut [u8])
    requires chunk { IsChunk ids.now }
    requires some { 0 < length ids.now }
    requires runs { IsNone slices → are_few (length (boundaries (lows ids.now))) (length ids.now) ≡ true }
    requires blocks { IfSome slices (λ count. (count ≡ length (parts 256 (lows ids.now))) × (are_few (length (boundaries (lows ids.now))) (length ids.now) ≡ false)) }
    requires size { length out.old ≡ length (body (lows ids.now)) }
    ensures { out.new ≡ body (lows ids.now) }
{
    match slices {
        None => write_runs(ids, out),
        Some(count) => {
            if out.len() < 2 * ids.len() {
                write_blocks(ids, count, out);
            } else {
                write_integers(2, ids, out);
            }
        }
    }
}

/// Writes the blocks of a chunk of `count` slices.
fn write_blocks(ids: &[u32], count: usize, out: &mut [u8])
    requires chunk { IsChunk ids.now }
    requires some { 0 < length ids.now }
    requires count { count ≡ length (parts 256 (lows ids.now)) }
    requires size { length out.old ≡ length (blocks (lows ids.now)) }
    ensures { out.new ≡ blocks (lows ids.now) }
{
    let size = byte_len(count);
    let mut first_room = [0; LONGEST_SLICE];
    let mut end_room = [0; LONGEST_SLICE];
    let firsts = &mut first_room[..count];
    let ends = &mut end_room[..count];
    let (head, rest) = out.split_at_mut(1);
    let (first_slice, parts) = rest.split_at_mut(size);
    let (counts, slices) = parts.split_at_mut(count);
    fill_ends(ids, ends);
    write_counts(ids, ends, firsts, counts);
    write_slices(ids, ends, slices);
    write_slice(firsts, first_slice);
    head[0] = (count - 1) as u8;
}

/// Fills in where the slices of a chunk end. No branch depends on an id: an end is written at each id, over the one before in its slice.
fn fill_ends(ids: &[u32], ends: &mut [u32])
    requires chunk { IsChunk ids.now }
    requires some { 0 < length ids.now }
    requires count { length ends.old ≡ length (parts 256 (lows ids.now)) }
    ensures { ends.new ≡ slice_ends ids.now }
{
    let mut slot = 0;
    for index in 1..ids.len() {
        ends[slot] = index as u32;
        slot += (ids[index] / 256 != ids[index - 1] / 256) as usize;
    }
    ends[slot] = ids.len() as u32;
}

/// Writes the high bytes of a chunk, and for each how many numbers have it less 1.
fn write_counts(ids: &[u32], ends: &[u32], firsts: &mut [u32], less: &mut [u8])
    requires chunk { IsChunk ids.now }
    requires ends { ends.now ≡ slice_ends ids.now }
    requires firsts { length firsts.old ≡ length (parts 256 (lows ids.now)) }
    requires less { length less.old ≡ length (parts 256 (lows ids.now)) }
    ensures firsts { firsts.new ≡ highs (parts 256 (lows ids.now)) }
    ensures less { less.new ≡ counts (parts 256 (lows ids.now)) }
{
    let mut begin: usize = 0;
    for index in 0..ends.len() {
        let end = ends[index] as usize;
        firsts[index] = ids[begin] / 256 % 256;
        less[index] = (end - begin - 1) as u8;
        begin = end;
    }
}

/// Writes the slices of a chunk. Those that are bytes are copied together, up to one that is bits.
fn write_slices(ids: &[u32], ends: &[u32], out: &mut [u8])
    requires chunk { IsChunk ids.now }
    requires ends { ends.now ≡ slice_ends ids.now }
    requires slices { length out.old ≡ length (slices (parts 256 (lows ids.now))) }
    ensures { out.new ≡ slices (parts 256 (lows ids.now)) }
{
    let mut from = 0;
    let mut begin: usize = 0;
    let mut written = 0;
    for index in 0..ends.len() {
        let first = begin;
        let end = ends[index] as usize;
        begin = end;
        if end - first >= 32 {
            let middle = written + (first - from);
            copy_lows(&ids[from..first], &mut out[written..middle]);
            written = middle + byte_len(end - first);
            write_slice(&ids[first..end], &mut out[middle..written]);
            from = end;
        }
    }
    copy_lows(&ids[from..], &mut out[written..]);
}
