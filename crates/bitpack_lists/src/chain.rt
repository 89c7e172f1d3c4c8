//! Chains: many blocks of one kind. Each goes on from the last value of the one before.

ghost use Rattle.std.specs.Prelude.{◌≡◌, ◌*◌, ◌/◌, ◌≤◌, All, length, take, drop, sum};
ghost use Rattle.bitpacking.specs.Layout.{size};
ghost use Rattle.bitpack_lists.specs.Chains.{CanPackChain, Chained, IsChainSize, Loose, PacksChain};

use crate::list_kind::next_kind;
use bitpacking::{BitPacker, Kind};

/// Packs blocks of one kind, each at its least width, and returns the number of bytes written.
///
/// The widths go into `widths`, one for each block. The first block has `kind`; each one after it has the same kind with
/// the last value of the block before as its initial value.
pub fn pack_all<P: BitPacker>(
    packer: &P,
    kind: Kind,
    values: &[u32],
    widths: &mut [u8],
    out: &mut [u8],
) -> usize
    requires blocks { length values.now ≡ P.BLOCK_LEN * length widths.old }
    requires room { 4 * length values.now ≤ length out.old }
    ensures size { result ≡ 4 * P.lanes * sum widths.new }
    ensures few { result ≤ 4 * length values.now }
    // claim: chains/2 `unpack_all` accepts the widths and bytes
    ensures narrow { All (λ width. width ≤ 32) widths.new }
    // claim: chains/1 writes each block at its least width
    ensures chain { Chained P.lanes kind values.now widths.new (take result out.new) }
    ensures rest { drop result out.new ≡ drop result out.old }
{
    pack_measured(packer, kind, values, widths, out)
}

/// Packs blocks as [`pack_all`] does, into a slice that has room for their chain and may have no more. [`packed_len`] returns how
/// many bytes that is.
pub fn pack_measured<P: BitPacker>(
    packer: &P,
    kind: Kind,
    values: &[u32],
    widths: &mut [u8],
    out: &mut [u8],
) -> usize
    requires { CanPackChain P.lanes P.BLOCK_LEN kind values.now (length widths.old) (length out.old) }
    ensures { PacksChain P.lanes kind values.now widths.new out.old out.new result }
{
    let len = P::BLOCK_LEN;
    let blocks = widths.len();
    let mut block_kind = kind;
    let mut written = 0;
    for index in 0..blocks {
        let block = &values[index * len..index * len + len];
        let width = packer.num_bits_kind(block_kind, block);
        widths[index] = width;
        written += packer.compress_kind(block_kind, block, &mut out[written..], width);
        block_kind = next_kind(block_kind, block[len - 1]);
    }
    written
}

/// Returns the number of bytes that [`pack_all`] and [`pack_measured`] write for the whole blocks of these values.
// claim: chains/6 returns the chain's length, which is enough room for `pack_measured`
pub fn packed_len<P: BitPacker>(packer: &P, kind: Kind, values: &[u32]) -> usize
    ensures { IsChainSize P.lanes kind values.now (length values.now / P.BLOCK_LEN) result }
{
    let len = P::BLOCK_LEN;
    let mut block_kind = kind;
    let mut rest = values;
    let mut size = 0;
    for _ in 0..values.len() / len {
        let (first, after) = rest.split_at(len);
        let least = packer.num_bits_kind(block_kind, first);
        size += P::compressed_block_size(least);
        block_kind = next_kind(block_kind, first[len - 1]);
        rest = after;
    }
    size
}

/// Unpacks blocks that were packed as a chain and returns the number of bytes read.
///
/// Any widths up to 32 are taken, and any bytes. Later bytes are not looked at.
pub fn unpack_all<P: BitPacker>(
    packer: &P,
    kind: Kind,
    widths: &[u8],
    bytes: &[u8],
    values: &mut [u32],
) -> usize
    requires widths { All (λ width. width ≤ 32) widths.now }
    requires bytes { 4 * P.lanes * sum widths.now ≤ length bytes.now }
    requires room { P.BLOCK_LEN * length widths.now ≤ length values.old }
    ensures size { result ≡ 4 * P.lanes * sum widths.now }
    // claim: chains/3 writes the values of any widths up to 32 and any bytes
    ensures chain { Loose P.lanes kind (take (P.BLOCK_LEN * length widths.now) values.new) widths.now
        (take result bytes.now) }
    ensures rest { drop (P.BLOCK_LEN * length widths.now) values.new
        ≡ drop (P.BLOCK_LEN * length widths.now) values.old }
{
    let len = P::BLOCK_LEN;
    let mut block_kind = kind;
    let mut read = 0;
    for index in 0..widths.len() {
        let unpacked = &mut values[index * len..index * len + len];
        read += packer.decompress_kind(block_kind, &bytes[read..], unpacked, widths[index]);
        block_kind = next_kind(block_kind, unpacked[len - 1]);
    }
    read
}
