//! Blocks of every width, of every packer and kind: what no clause says is that the definitions are the format's.
//!
//! The expected bytes come from `oracle`, or were worked by hand.

use super::oracle::{KINDS, LONGEST, block_of, bytes, codes_of, laid, least_width, numbers};
use bitpacking::laws::one_least_width;
use bitpacking::{BitPacker, BitPacker1x, BitPacker4x, BitPacker8x, Counted, Kind, Steps};
use std::process::Abort;

/// The tests look at 64 bytes after a block, and at three items after its values.
const BYTES_AFTER: usize = 64;

const SLOTS_AFTER: usize = 3;

const ALL_BYTES: usize = LONGEST + BYTES_AFTER;

const ALL_SLOTS: usize = 256 + SLOTS_AFTER;

/// Packs a block at a width that its codes fit, and returns the number of bytes.
pub(super) fn packed<P: BitPacker>(
    rt: &impl Abort,
    packer: &P,
    kind: Kind,
    block: &[u32],
    out: &mut [u8],
    num_bits: u8,
) -> usize {
    assert!(rt; block.len() == P::BLOCK_LEN);
    let least = packer.num_bits_kind(kind, block);
    assert!(rt; least <= num_bits && num_bits <= 32);
    assert!(rt; P::compressed_block_size(num_bits) <= out.len());
    one_least_width();
    packer.compress_kind(kind, block, out, num_bits)
}

/// Unpacks a block, and returns the number of bytes read.
fn unpacked<P: BitPacker>(
    rt: &impl Abort,
    packer: &P,
    kind: Kind,
    bytes: &[u8],
    slots: &mut [u32],
    num_bits: u8,
) -> usize {
    assert!(rt; num_bits <= 32);
    assert!(rt; P::compressed_block_size(num_bits) <= bytes.len());
    assert!(rt; P::BLOCK_LEN <= slots.len());
    packer.decompress_kind(kind, bytes, slots, num_bits)
}

/// The least width of a block.
pub(super) fn measured<P: BitPacker>(rt: &impl Abort, packer: &P, kind: Kind, block: &[u32]) -> u8 {
    assert!(rt; block.len() == P::BLOCK_LEN);
    packer.num_bits_kind(kind, block)
}

/// Whether each byte is this one.
pub(super) fn all_bytes_are(bytes: &[u8], wanted: u8) -> bool {
    for byte in bytes {
        if *byte != wanted {
            return false;
        }
    }
    true
}

/// Whether each value is this one.
pub(super) fn all_values_are(values: &[u32], wanted: u32) -> bool {
    for value in values {
        if *value != wanted {
            return false;
        }
    }
    true
}

/// Packs the block at the width, compares, and reads it back over items of another number. No later byte or item has changed.
pub(super) fn packs_to<P: BitPacker>(
    rt: &impl Abort,
    packer: &P,
    kind: Kind,
    block: &[u32],
    num_bits: u8,
    expected: &[u8],
) {
    let mut out = [0xaa; ALL_BYTES];
    let end = expected.len().min(LONGEST);
    let room = &mut out[..end + BYTES_AFTER];
    let size = packed(rt, packer, kind, block, room, num_bits);
    assert!(rt; size == expected.len());
    let (bytes, rest) = out.split_at(end);
    assert!(rt; bytes == expected);
    assert!(rt; all_bytes_are(rest, 0xaa));
    unpacks_to(rt, packer, kind, bytes, num_bits, block);
}

/// Unpacks bytes, which no call of ours need have written, over items of another number. No later item has changed.
pub(super) fn unpacks_to<P: BitPacker>(
    rt: &impl Abort,
    packer: &P,
    kind: Kind,
    bytes: &[u8],
    num_bits: u8,
    expected: &[u32],
) {
    assert!(rt; bytes.len() == P::compressed_block_size(num_bits));
    let mut back = [9; ALL_SLOTS];
    let slots = &mut back[..P::BLOCK_LEN + SLOTS_AFTER];
    let read = unpacked(rt, packer, kind, bytes, slots, num_bits);
    assert!(rt; read == bytes.len());
    let (values, rest) = back.split_at(P::BLOCK_LEN);
    assert!(rt; values == expected);
    assert!(rt; all_values_are(rest, 9));
}

/// Packs the block of these codes.
fn packs_codes<P: BitPacker>(
    rt: &impl Abort,
    packer: &P,
    kind: Kind,
    block: &[u32],
    codes: &[u32],
    num_bits: u8,
) {
    let bytes = laid(codes, P::BLOCK_LEN / 32, num_bits);
    let size = P::compressed_block_size(num_bits);
    let bytes = bytes.get(..size).unwrap_or(&[]);
    packs_to(rt, packer, kind, block, num_bits, bytes);
}

/// The width call returns the least width of these codes, and they are packed at that and at 32.
fn each_kind_of_codes<P: BitPacker>(rt: &impl Abort, packer: &P, codes: &[u32]) {
    let least = least_width(codes);
    for kind in KINDS {
        let block = block_of(kind, codes);
        let block = &block[..P::BLOCK_LEN];
        assert!(rt; measured(rt, packer, kind, block) == least);
        packs_codes(rt, packer, kind, block, codes, least);
        packs_codes(rt, packer, kind, block, codes, 32);
    }
}

/// The numbers of each width as codes.
fn numbers_as_codes<P: BitPacker>(rt: &impl Abort, packer: &P) {
    for width in 0..33u8 {
        let codes = numbers::<256>(width);
        each_kind_of_codes(rt, packer, &codes[..P::BLOCK_LEN]);
    }
}

/// These bytes are unpacked, and packed again.
fn each_kind_of_bytes<P: BitPacker>(rt: &impl Abort, packer: &P, bytes: &[u8], width: u8) {
    let codes = codes_of(bytes, P::BLOCK_LEN / 32, width);
    for kind in KINDS {
        let block = block_of(kind, &codes[..P::BLOCK_LEN]);
        let block = &block[..P::BLOCK_LEN];
        unpacks_to(rt, packer, kind, bytes, width, block);
        packs_to(rt, packer, kind, block, width, bytes);
    }
}

/// The numbers of 8 bits as bytes of each width.
fn numbers_as_bytes<P: BitPacker>(rt: &impl Abort, packer: &P) {
    let bytes = bytes::<LONGEST>();
    for width in 0..33u8 {
        let size = P::compressed_block_size(width);
        let bytes = bytes.get(..size).unwrap_or(&[]);
        each_kind_of_bytes(rt, packer, bytes, width);
    }
}

/// What every packer is tested with, at every width.
pub(super) fn every_width<P: BitPacker>(rt: &impl Abort, packer: &P) {
    numbers_as_codes(rt, packer);
    numbers_as_bytes(rt, packer);
}

#[test]
fn every_width_1x(rt: HostRuntime) {
    every_width(&rt, &BitPacker1x::new());
}

#[test]
fn every_width_4x(rt: HostRuntime) {
    every_width(&rt, &BitPacker4x::new());
    every_width(&rt, &BitPacker4x::scalar());
}

#[test]
fn every_width_8x(rt: HostRuntime) {
    every_width(&rt, &BitPacker8x::new());
    every_width(&rt, &BitPacker8x::scalar());
}

/// Measures a block and packs it, both counted, and returns the number of bytes.
fn packed_counted<P: Counted>(
    rt: &impl Abort,
    packer: &P,
    kind: Kind,
    block: &[u32],
    out: &mut [u8],
    width: u8,
) -> usize {
    assert!(rt; block.len() == P::BLOCK_LEN);
    let found = packer.width_counted(kind, block, &mut Steps::new());
    assert!(rt; found == width);
    assert!(rt; P::compressed_block_size(found) <= out.len());
    packer.pack_counted(kind, block, out, found, &mut Steps::new())
}

/// Unpacks a block, counted, and returns the number of bytes read.
fn unpacked_counted<P: Counted>(
    rt: &impl Abort,
    packer: &P,
    kind: Kind,
    bytes: &[u8],
    slots: &mut [u32],
    num_bits: u8,
) -> usize {
    assert!(rt; num_bits <= 32);
    assert!(rt; P::compressed_block_size(num_bits) <= bytes.len());
    assert!(rt; P::BLOCK_LEN <= slots.len());
    packer.unpack_counted(kind, bytes, slots, num_bits, &mut Steps::new())
}

/// The block at the width has these bytes, and they have this block.
fn counted_calls_answer<P: Counted>(
    rt: &impl Abort,
    packer: &P,
    kind: Kind,
    block: &[u32],
    width: u8,
    bytes: &[u8],
) {
    let mut out = [0xaa; ALL_BYTES];
    let size = packed_counted(rt, packer, kind, block, &mut out, width);
    assert!(rt; size == P::compressed_block_size(width));
    assert!(rt; out.get(..size) == bytes.get(..size));
    let mut back = [9; 256];
    let read = unpacked_counted(rt, packer, kind, &out, &mut back, width);
    assert!(rt; read == size);
    assert!(rt; back.starts_with(block));
}

/// The counted calls at one width.
fn counted_calls_at<P: Counted>(rt: &impl Abort, packer: &P, width: u8) {
    let codes = numbers::<256>(width);
    let codes = &codes[..P::BLOCK_LEN];
    let bytes = laid(codes, P::BLOCK_LEN / 32, width);
    for kind in KINDS {
        let block = block_of(kind, codes);
        let block = &block[..P::BLOCK_LEN];
        counted_calls_answer(rt, packer, kind, block, width, &bytes);
    }
}

/// The counted calls return what the others do.
pub(super) fn counted_calls<P: Counted>(rt: &impl Abort, packer: &P) {
    for width in 0..33u8 {
        counted_calls_at(rt, packer, width);
    }
}

/// Two packers write the same over equal buffers.
fn pack_equally<P: BitPacker>(
    rt: &impl Abort,
    packer: &P,
    other: &P,
    kind: Kind,
    block: &[u32],
    width: u8,
) {
    let mut out = bytes::<ALL_BYTES>();
    let size = packed(rt, packer, kind, block, &mut out, width);
    let mut other_out = bytes::<ALL_BYTES>();
    let other_size = packed(rt, other, kind, block, &mut other_out, width);
    assert!(rt; size == other_size);
    assert!(rt; out == other_out);
}

/// Two packers read the same over equal items.
fn unpack_equally<P: BitPacker>(rt: &impl Abort, packer: &P, other: &P, kind: Kind, width: u8) {
    let bytes = bytes::<ALL_BYTES>();
    let mut back = numbers::<ALL_SLOTS>(32);
    let read = unpacked(rt, packer, kind, &bytes, &mut back, width);
    let mut other_back = numbers::<ALL_SLOTS>(32);
    let other_read = unpacked(rt, other, kind, &bytes, &mut other_back, width);
    assert!(rt; read == other_read);
    assert!(rt; back == other_back);
}

/// Blocks of one width, and any bytes.
fn equal_buffers_at<P: BitPacker>(rt: &impl Abort, packer: &P, other: &P, width: u8) {
    let codes = numbers::<256>(width);
    for kind in KINDS {
        let block = block_of(kind, &codes[..P::BLOCK_LEN]);
        pack_equally(rt, packer, other, kind, &block[..P::BLOCK_LEN], width);
        unpack_equally(rt, packer, other, kind, width);
    }
}

/// On equal buffers two packers leave equal buffers, whole.
fn equal_buffers<P: BitPacker>(rt: &impl Abort, packer: &P, other: &P) {
    for width in 0..33u8 {
        equal_buffers_at(rt, packer, other, width);
    }
}

#[test]
fn two_kernels_leave_equal_buffers(rt: HostRuntime) {
    equal_buffers(&rt, &BitPacker4x::new(), &BitPacker4x::scalar());
    equal_buffers(&rt, &BitPacker8x::new(), &BitPacker8x::scalar());
}
