//! The nine calls that have their kind in their name, at every width: each runs the call by kind of that name's kind, and of no other.
//!
//! The expected widths, bytes and blocks come from `oracle`, which knows no packer.

use super::oracle::{LONGEST, block_of, laid, least_width, numbers};
use bitpacking::{BitPacker, BitPacker1x, BitPacker4x, BitPacker8x, Kind};
use std::process::Abort;

/// The value before the block. That of a strictly sorted block is also `None`.
const INITIAL: u32 = 4_000_000_000;

/// The buffer begins with the bytes of the codes.
fn begins_with(rt: &impl Abort, out: &[u8], codes: &[u32], lanes: usize, width: u8) {
    let bytes = laid(codes, lanes, width);
    let size = lanes.wrapping_mul(4).wrapping_mul(width as usize);
    assert!(rt; out.get(..size) == bytes.get(..size), "at width {width}");
}

/// The calls `num_bits`, `compress` and `decompress` on the block of these codes.
fn plain<P: BitPacker>(rt: &impl Abort, packer: &P, codes: &[u32]) {
    let block = block_of(Kind::Plain, codes);
    let block = &block[..P::BLOCK_LEN];
    let width = packer.num_bits(block);
    assert!(rt; width == least_width(codes));
    let mut out = [0; LONGEST];
    assert!(rt; P::compressed_block_size(width) <= out.len());
    packer.compress(block, &mut out, width);
    begins_with(rt, &out, codes, P::BLOCK_LEN / 32, width);
    let mut back = [9; 256];
    packer.decompress(&out, &mut back, width);
    assert!(rt; back.starts_with(block));
}

/// As above, for the three sorted calls.
fn sorted<P: BitPacker>(rt: &impl Abort, packer: &P, codes: &[u32]) {
    let block = block_of(Kind::Sorted(INITIAL), codes);
    let block = &block[..P::BLOCK_LEN];
    let width = packer.num_bits_sorted(INITIAL, block);
    assert!(rt; width == least_width(codes));
    let mut out = [0; LONGEST];
    assert!(rt; P::compressed_block_size(width) <= out.len());
    packer.compress_sorted(INITIAL, block, &mut out, width);
    begins_with(rt, &out, codes, P::BLOCK_LEN / 32, width);
    let mut back = [9; 256];
    packer.decompress_sorted(INITIAL, &out, &mut back, width);
    assert!(rt; back.starts_with(block));
}

/// As above, for the three strictly sorted calls.
fn strictly_sorted<P: BitPacker>(rt: &impl Abort, packer: &P, initial: Option<u32>, codes: &[u32]) {
    let block = block_of(Kind::StrictlySorted(initial), codes);
    let block = &block[..P::BLOCK_LEN];
    let width = packer.num_bits_strictly_sorted(initial, block);
    assert!(rt; width == least_width(codes));
    let mut out = [0; LONGEST];
    assert!(rt; P::compressed_block_size(width) <= out.len());
    packer.compress_strictly_sorted(initial, block, &mut out, width);
    begins_with(rt, &out, codes, P::BLOCK_LEN / 32, width);
    let mut back = [9; 256];
    packer.decompress_strictly_sorted(initial, &out, &mut back, width);
    assert!(rt; back.starts_with(block));
}

/// All nine calls of a packer.
fn nine_calls<P: BitPacker>(rt: &impl Abort, packer: &P) {
    for width in 0..33u8 {
        let codes = numbers::<256>(width);
        let codes = &codes[..P::BLOCK_LEN];
        plain(rt, packer, codes);
        sorted(rt, packer, codes);
        strictly_sorted(rt, packer, Some(INITIAL), codes);
        strictly_sorted(rt, packer, None, codes);
    }
}

#[test]
fn nine_calls_of_each_packer(rt: HostRuntime) {
    nine_calls(&rt, &BitPacker1x::new());
    nine_calls(&rt, &BitPacker4x::new());
    nine_calls(&rt, &BitPacker4x::scalar());
    nine_calls(&rt, &BitPacker8x::new());
    nine_calls(&rt, &BitPacker8x::scalar());
}
