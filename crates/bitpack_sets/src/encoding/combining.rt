//! Writes the body that an operation on two bodies gives.
//! FORMAT.md, "Chunks".

ghost use Rattle.std.specs.Prelude.{◌≡◌, ◌*◌, ◌<◌, ◌≤◌, length, take};
ghost use Rattle.bitpack_slices.specs.Lists.{IsBody, OfKey, body_lows};
ghost use Rattle.bitpack_slices.specs.Operations.{combined};
ghost use Rattle.bitpack_sets.specs.Sets.{body};
ghost use Rattle.bitpack_sets.specs.Written.{IsChunk, lows};

use crate::encoding::bodies::write_body;
use crate::encoding::measuring::measure_body;
use bitpack_slices::Operation;
use bitpack_slices::bitmap::bodies::{count_words, write_body as write_bitmap};
use bitpack_slices::bitmap::writing::LONGEST_BLOCKS;
use bitpack_slices::body::bits::combine_bits;
use bitpack_slices::body::runs::write_both;
use bitpack_slices::body::writing::write_slices;
use bitpack_slices::body::{Body, combine};

/// The most ids that are written from a list of them.
pub const MOST_LISTED: usize = 4096;

/// Two bodies are combined to a list of ids if the answer cannot have the ids of more bytes than these.
const MOST_BYTES: usize = 4096;

/// Writes the body of the low 16 bits of the ids that an operation on two bodies of one key gives. Returns how many ids these are, and how many bytes
/// the body has, 0 if there is no id. `ids` is work space.
pub fn write_combined(
    operation: Operation,
    key: u32,
    a: Body,
    b: Body,
    ids: &mut [u32; MOST_LISTED],
    out: &mut [u8; LONGEST_BLOCKS],
) -> (usize, usize)
    requires key { key < 65536 }
    requires a { OfKey key a }
    requires b { OfKey key b }
    ensures count { result.0 ≡ length (combined 65536 operation (body_lows a.entry) (body_lows b.entry)) }
    ensures small { result.1 ≤ 2 * result.0 }
    ensures most { result.1 ≤ 8449 }
    ensures written { 0 < result.0 → take result.1 out.new ≡ body (combined 65536 operation (body_lows a.entry) (body_lows b.entry)) }
{
    if let (Body::Runs(x), Body::Runs(y)) = (a, b)
        && let Some(written) = write_both(operation, x, y, out)
    {
        return written;
    }
    if let Some(written) = write_slices(operation, a, b, out) {
        return written;
    }
    if most_bytes(operation, a.size(), b.size()) <= MOST_BYTES {
        let count = combine(operation, key, a, b, ids, 0);
        if count <= MOST_LISTED {
            return (count, write_listed(&ids[..count], out));
        }
    }
    write_bits(operation, a, b, out)
}

/// How many bytes the bodies have that the ids of the answer are from.
fn most_bytes(operation: Operation, a: usize, b: usize) -> usize {
    match operation {
        Operation::And => a.min(b),
        Operation::AndNot => a,
        _ => a.saturating_add(b),
    }
}

/// Writes the body of ids of one chunk, if there is one. Returns how many bytes it has.
pub fn write_listed(ids: &[u32], out: &mut [u8; LONGEST_BLOCKS]) -> usize
    requires chunk { IsChunk ids.now }
    requires few { length ids.now ≤ 4096 }
    ensures small { result ≤ 2 * length ids.now }
    ensures written { 0 < length ids.now → take result out.new ≡ body (lows ids.now) }
{
    if ids.is_empty() {
        return 0;
    }
    let (slices, size) = measure_body(ids);
    write_body(ids, slices, &mut out[..size]);
    size
}

/// Writes the body that an operation gives by bitmaps, as `write_combined`.
fn write_bits(
    operation: Operation,
    a: Body,
    b: Body,
    out: &mut [u8; LONGEST_BLOCKS],
) -> (usize, usize)
    requires a { IsBody a }
    requires b { IsBody b }
    ensures count { result.0 ≡ length (combined 65536 operation (body_lows a.entry) (body_lows b.entry)) }
    ensures small { result.1 ≤ 2 * result.0 }
    ensures most { result.1 ≤ 8449 }
    ensures written { 0 < result.0 → take result.1 out.new ≡ body (combined 65536 operation (body_lows a.entry) (body_lows b.entry)) }
{
    let mut words = [0; 1024];
    combine_bits(operation, a, b, &mut words);
    let count = count_words(&words);
    if count == 0 {
        return (0, 0);
    }
    (count, write_bitmap(&words, count, out))
}
