//! The length of an encoded list before it is written. The least widths of its first blocks are cached from here to the writing.

ghost use Rattle.std.specs.Prelude.{◌≡◌, ◌+◌, ◌*◌, ◌^◌, ◌<◌, ◌≤◌, ◌∷◌, ◌++◌, [], ℕ, List, length, sum, take, slice_index};
ghost use Rattle.bitpacking.specs.Width.{IsWidth};
ghost use Rattle.bitpack_lists.specs.Chains.{LeastWidths};
ghost use Rattle.bitpack_lists.specs.Parts.{first_kind, tail_values, whole_blocks};

use crate::header::HEADER_LEN;
use crate::list_kind::{ListKind, next_kind};
use bitpacking::{BitPacker, Kind};

/// How many widths are cached from the measuring of a list to its writing. Later blocks are measured twice.
pub(crate) const CACHED_WIDTHS: usize = 1024;

/// The length in bytes of the encoded list of the values in version 1, which has one byte for each whole block beside its body. Caches
/// the least widths of the first blocks.
pub(crate) fn encoding_len<P: BitPacker>(
    packer: &P,
    kind: ListKind,
    values: &[u32],
    widths: &mut [u8],
) -> usize
    requires few { length values.now ≤ 2 ^ 28 }
    ensures room { HEADER_LEN + whole_blocks P.lanes (length values.now)
        + 4 * tail_values P.lanes (length values.now) ≤ result }
    ensures few { result ≤ 2 ^ 40 }
    ensures len { (all : List ℕ) → length all ≡ whole_blocks P.lanes (length values.now)
        → LeastWidths P.lanes (first_kind kind) values.now all
        → result ≡ HEADER_LEN + whole_blocks P.lanes (length values.now) + 4 * P.lanes * sum all
        + 4 * tail_values P.lanes (length values.now) }
    ensures widths { LeastWidths P.lanes (first_kind kind) values.now
        (take (whole_blocks P.lanes (length values.now)) widths.new) }
{
    let size = HEADER_LEN + blocks_len(packer, kind, values, 1, widths);
    size + 4 * (values.len() % P::BLOCK_LEN)
}

/// How many bytes the whole blocks of the values have in an encoded list, with `entry_len` bytes for each beside its body. Caches the
/// least widths of the first blocks.
pub(crate) fn blocks_len<P: BitPacker>(
    packer: &P,
    kind: ListKind,
    values: &[u32],
    entry_len: usize,
    widths: &mut [u8],
) -> usize
    requires few { length values.now ≤ 2 ^ 28 }
    requires entry { entry_len ≤ 9 }
    ensures room { entry_len * whole_blocks P.lanes (length values.now) ≤ result }
    ensures few { result ≤ 2 ^ 39 }
    ensures len { (all : List ℕ) → length all ≡ whole_blocks P.lanes (length values.now)
        → LeastWidths P.lanes (first_kind kind) values.now all
        → result ≡ entry_len * whole_blocks P.lanes (length values.now) + 4 * P.lanes * sum all }
    ensures widths { LeastWidths P.lanes (first_kind kind) values.now
        (take (whole_blocks P.lanes (length values.now)) widths.new) }
{
    let len = P::BLOCK_LEN;
    let blocks = values.len() / len;
    let mut kind = kind.first();
    let mut rest = values;
    let mut size = 0;
    for index in 0..blocks {
        let (block, after) = rest.split_at(len);
        let width = packer.num_bits_kind(kind, block);
        cache_width(widths, index, width);
        size += entry_len + P::compressed_block_size(width);
        kind = next_kind(kind, block[len - 1]);
        rest = after;
    }
    size
}

/// Caches the width of the block with this index, if there is room for it.
fn cache_width(widths: &mut [u8], index: usize, width: u8)
    ensures cached { index < length widths.old → take (index + 1) widths.new ≡ take index widths.old ++ width ∷ [] }
    ensures past { length widths.old ≤ index → widths.new ≡ widths.old }
{
    if index < widths.len() {
        widths[index] = width;
    }
}

/// The least width of the block with this index: the cached one, or else measured again.
pub(crate) fn width_of<P: BitPacker>(
    packer: &P,
    kind: Kind,
    block: &[u32],
    widths: &[u8],
    index: usize,
) -> u8
    requires block { length block.now ≡ P.BLOCK_LEN }
    requires cached { index < length widths.now → IsWidth kind block.now (slice_index widths.now index) }
    ensures width { IsWidth kind block.now result }
    ensures narrow { result ≤ 32 }
{
    if index < widths.len() {
        widths[index]
    } else {
        packer.num_bits_kind(kind, block)
    }
}
