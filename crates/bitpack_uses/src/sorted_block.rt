//! A block of increasing values, packed and unpacked: the example of the crate `bitpacking`.

use bitpacking::{BitPacker, BitPacker4x, MAX_BLOCK_SIZE};

/// Packs 128 increasing values at their least width, and unpacks them again.
pub fn sorted_block(values: &[u32; 128]) -> [u32; 128] {
    let packer = BitPacker4x::new();
    let width = packer.num_bits_strictly_sorted(None, values);
    let mut bytes = [0; MAX_BLOCK_SIZE];
    let size = packer.compress_strictly_sorted(None, values, &mut bytes, width);

    // The bytes do not hold the width: the caller stores it.
    let mut unpacked = [0; 128];
    packer.decompress_strictly_sorted(None, &bytes[..size], &mut unpacked, width);
    unpacked
}
