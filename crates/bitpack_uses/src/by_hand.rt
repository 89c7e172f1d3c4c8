//! A block by hand, and a chain of blocks with its tail.

use bitpack::chain::{pack_all, unpack_all};
use bitpacking::{BitPacker, BitPacker1x, Kind};

/// Packs a block at its least width, and unpacks it again.
pub fn block(values: &[u32; 32]) -> [u32; 32] {
    let packer = BitPacker1x::new();
    let width = packer.num_bits(values);
    let mut bytes = [0; 128]; // 4 bytes a value are always enough
    let size = packer.compress(values, &mut bytes, width);

    let mut unpacked = [0; 32];
    packer.decompress(&bytes[..size], &mut unpacked, width);
    unpacked
}

/// Packs 70 increasing doc ids as two blocks and a tail of six, and unpacks them again.
pub fn chain(documents: &[u32; 70]) -> [u32; 70] {
    let packer = BitPacker1x::new();
    let start = Kind::StrictlySorted(None);
    let (blocks, tail) = documents.split_at(64);
    let mut widths = [0; 2]; // one for each block
    let mut bytes = [0; 256];
    let written = pack_all(&packer, start, blocks, &mut widths, &mut bytes);

    let mut unpacked = [0; 70];
    unpack_all(&packer, start, &widths, &bytes[..written], &mut unpacked);
    unpacked[64..].copy_from_slice(tail);
    unpacked
}
