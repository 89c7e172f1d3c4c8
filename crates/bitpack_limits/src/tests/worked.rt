//! Blocks whose bytes, values and widths were worked by hand from the layout, on both kernels if a packer has two.

use super::blocks::{all_bytes_are, measured, packed, packs_to, unpacks_to};
use super::texts::{Part, parts_are_answered};
use bitpacking::{BitPacker, BitPacker1x, BitPacker4x, BitPacker8x, Kind};
use std::alloc::AllocError;
use std::process::Abort;
use std::test::Fail;

/// The numbers 0, 1, .. below `below`, again and again.
fn counting(slots: &mut [u32], below: u32) {
    let mut value = 0;
    for slot in slots {
        *slot = value;
        value = if value.wrapping_add(1) == below {
            0
        } else {
            value.wrapping_add(1)
        };
    }
}

/// Writes the bytes again and again.
fn repeated(slots: &mut [u8], bytes: &[u8]) {
    for (slot, byte) in slots.iter_mut().zip(bytes.iter().cycle()) {
        *slot = *byte;
    }
}

/// Packs a block of one lane.
fn one_lane_packs_to(rt: &impl Abort, kind: Kind, block: &[u32], num_bits: u8, expected: &[u8]) {
    packs_to(rt, &BitPacker1x::new(), kind, block, num_bits, expected);
}

/// Unpacks a block of one lane.
fn one_lane_unpacks_to(rt: &impl Abort, kind: Kind, bytes: &[u8], num_bits: u8, expected: &[u32]) {
    unpacks_to(rt, &BitPacker1x::new(), kind, bytes, num_bits, expected);
}

#[test]
fn one_lane_packs(rt: HostRuntime) {
    one_lane_packs_to(&rt, Kind::Plain, &[1; 32], 1, &[0xff; 4]);
    one_lane_packs_to(&rt, Kind::Plain, &[1; 32], 2, &[0x55; 8]);
    one_lane_packs_to(&rt, Kind::Plain, &[0; 32], 0, &[]);
    one_lane_packs_to(&rt, Kind::Plain, &[2_147_483_647; 32], 31, &[0xff; 124]);
    one_lane_counts(&rt);
}

/// 0, 1, .. as codes, plain and sorted.
fn one_lane_counts(rt: &impl Abort) {
    let mut block = [0; 32];
    counting(&mut block, 8);
    let mut bytes = [0; 12];
    repeated(&mut bytes, &[0x88, 0xc6, 0xfa]);
    one_lane_packs_to(rt, Kind::Plain, &block, 3, &bytes);
    add_up(&mut block);
    one_lane_packs_to(rt, Kind::Sorted(0), &block, 3, &bytes);
    counting(&mut block, 16);
    let mut bytes = [0; 16];
    repeated(
        &mut bytes,
        &[0x10, 0x32, 0x54, 0x76, 0x98, 0xba, 0xdc, 0xfe],
    );
    one_lane_packs_to(rt, Kind::Plain, &block, 4, &bytes);
}

/// Each number becomes the sum of the numbers up to it.
fn add_up(block: &mut [u32]) {
    let mut sum = 0u32;
    for value in block {
        sum = sum.wrapping_add(*value);
        *value = sum;
    }
}

#[test]
fn one_lane_packs_to_its_last_bit(rt: HostRuntime) {
    let mut block = [0; 32];
    block[31] = 31;
    let mut bytes = [0; 20];
    bytes[19] = 0xf8;
    one_lane_packs_to(&rt, Kind::Plain, &block, 5, &bytes);
    let mut block = [0; 32];
    block[0] = 0x0102_0304;
    let mut bytes = [0; 128];
    bytes[..4].copy_from_slice(&[4, 3, 2, 1]);
    one_lane_packs_to(&rt, Kind::Plain, &block, 32, &bytes);
    let mut bytes = [0xff; 128];
    bytes[..4].copy_from_slice(&[4, 0, 0, 0]);
    one_lane_packs_to(&rt, Kind::StrictlySorted(Some(0)), &[5; 32], 32, &bytes);
}

/// Bytes that are all this one unpack to values that are all this one.
fn one_lane_unpacks_alike(rt: &impl Abort, num_bits: u8, byte: u8, value: u32) {
    let bytes = [byte; 128];
    let size = BitPacker1x::compressed_block_size(num_bits);
    let bytes = &bytes[..size.min(128)];
    one_lane_unpacks_to(rt, Kind::Plain, bytes, num_bits, &[value; 32]);
}

#[test]
fn one_lane_unpacks_any_bytes(rt: HostRuntime) {
    one_lane_unpacks_alike(&rt, 3, 0xff, 7);
    one_lane_unpacks_alike(&rt, 2, 0x55, 1);
    one_lane_unpacks_alike(&rt, 31, 0xff, 2_147_483_647);
    one_lane_unpacks_alike(&rt, 32, 0xff, u32::MAX);
    one_lane_unpacks_alike(&rt, 0, 0xff, 0);
    one_lane_unpacks_sorted(&rt);
}

/// The blocks of the other kinds.
fn one_lane_unpacks_sorted(rt: &impl Abort) {
    let ones = [0xff; 128];
    let mut block = [0; 32];
    let mut value = u32::MAX;
    for slot in &mut block {
        value = value.wrapping_sub(1);
        *slot = value;
    }
    one_lane_unpacks_to(rt, Kind::Sorted(u32::MAX), &ones, 32, &block);
    let last = [u32::MAX; 32];
    one_lane_unpacks_to(rt, Kind::StrictlySorted(None), &ones, 32, &last);
    one_lane_unpacks_to(rt, Kind::Sorted(7), &[], 0, &[7; 32]);
    counting(&mut block, 32);
    one_lane_unpacks_to(rt, Kind::StrictlySorted(None), &[], 0, &block);
}

/// A block of ones is packed at this width into as many zeros as a block can take: each later byte is 0 still.
fn later_bytes_are_zero<P: BitPacker>(rt: &impl Abort, packer: &P, num_bits: u8) {
    let mut out = [0; 1024];
    let block = [1; 256];
    let room = &mut out[..4 * P::BLOCK_LEN];
    let size = packed(
        rt,
        packer,
        Kind::Plain,
        &block[..P::BLOCK_LEN],
        room,
        num_bits,
    );
    assert!(rt; size == P::BLOCK_LEN / 8 * num_bits as usize);
    assert!(rt; all_bytes_are(out.get(size..).unwrap_or(&[]), 0));
}

fn each_width_into_zeros<P: BitPacker>(rt: &impl Abort, packer: &P) {
    for num_bits in 1..33u8 {
        later_bytes_are_zero(rt, packer, num_bits);
    }
}

#[test]
fn zeros_after_a_block_stay(rt: HostRuntime) {
    each_width_into_zeros(&rt, &BitPacker1x::new());
    each_width_into_zeros(&rt, &BitPacker4x::new());
    each_width_into_zeros(&rt, &BitPacker4x::scalar());
    each_width_into_zeros(&rt, &BitPacker8x::new());
    each_width_into_zeros(&rt, &BitPacker8x::scalar());
}

/// Rows of four words. Each byte is a number.
fn four_lanes_of_bytes(rt: &impl Abort, packer: &BitPacker4x) {
    let mut block = [0; 128];
    counting(&mut block, 128);
    let mut bytes = [0; 128];
    for (at, byte) in bytes.iter_mut().enumerate() {
        // Byte m of word l of a row of words is number 4 * m + l of those that the row has.
        *byte = ((at / 16 * 16 + at % 4 * 4 + at % 16 / 4) & 0xff) as u8;
    }
    packs_to(rt, packer, Kind::Plain, &block, 8, &bytes);
}

/// A code over the end of a word, and greatest codes.
fn four_lanes_of_high_bits(rt: &impl Abort, packer: &BitPacker4x) {
    let mut block = [0; 128];
    block[4] = 0xabcde;
    let mut bytes = [0; 320];
    bytes[2] = 0xe0;
    bytes[3] = 0xcd;
    bytes[16] = 0xab;
    packs_to(rt, packer, Kind::Plain, &block, 20, &bytes);
    let high = [2_147_483_648; 128];
    let mut bytes = [0; 512];
    bytes[3] = 0x80;
    assert!(rt; measured(rt, packer, Kind::Sorted(0), &high) == 32);
    packs_to(rt, packer, Kind::Sorted(0), &high, 32, &bytes);
}

/// Blocks of four lanes to their last bit.
fn four_lanes_to_the_last_bit(rt: &impl Abort, packer: &BitPacker4x) {
    let mut block = [0; 128];
    block[127] = 31;
    let mut bytes = [0; 80];
    bytes[79] = 0xf8;
    packs_to(rt, packer, Kind::Plain, &block, 5, &bytes);
    block[127] = 0xfffff;
    let mut bytes = [0; 320];
    bytes[317..].copy_from_slice(&[0xf0, 0xff, 0xff]);
    packs_to(rt, packer, Kind::Plain, &block, 20, &bytes);
}

#[test]
fn four_lanes_pack(rt: HostRuntime) {
    for packer in [BitPacker4x::new(), BitPacker4x::scalar()] {
        four_lanes_of_bytes(&rt, &packer);
        four_lanes_of_high_bits(&rt, &packer);
        four_lanes_to_the_last_bit(&rt, &packer);
    }
}

/// Adds 1 to each number.
fn add_one(block: &mut [u32]) {
    for value in block {
        *value = value.wrapping_add(1);
    }
}

/// Blocks of eight lanes.
fn eight_lanes(rt: &impl Abort, packer: &BitPacker8x) {
    let mut block = [0; 256];
    block[..8].copy_from_slice(&[1; 8]);
    let mut bytes = [0; 32];
    repeated(&mut bytes, &[1, 0, 0, 0]);
    packs_to(rt, packer, Kind::Plain, &block, 1, &bytes);
    let ones = [0xff; 32];
    counting(&mut block, 256);
    unpacks_to(rt, packer, Kind::Sorted(u32::MAX), &ones, 1, &block);
    add_one(&mut block);
    unpacks_to(rt, packer, Kind::Sorted(0), &ones, 1, &block);
    for value in &mut block {
        *value = value.wrapping_mul(2).wrapping_sub(1);
    }
    unpacks_to(rt, packer, Kind::StrictlySorted(None), &ones, 1, &block);
}

/// Blocks of eight lanes to their last bit.
fn eight_lanes_to_the_last_bit(rt: &impl Abort, packer: &BitPacker8x) {
    let mut bytes = [0; 160];
    bytes[159] = 0xf8;
    packs_to(rt, packer, Kind::Plain, &single(255, 31), 5, &bytes);
    let mut bytes = [0; 640];
    bytes[2] = 0xe0;
    bytes[3] = 0xcd;
    bytes[32] = 0xab;
    packs_to(rt, packer, Kind::Plain, &single(8, 0xabcde), 20, &bytes);
    let block = [2_147_483_647; 256];
    packs_to(rt, packer, Kind::Plain, &block, 31, &[0xff; 992]);
}

/// Whole words of eight lanes.
fn eight_lanes_of_words(rt: &impl Abort, packer: &BitPacker8x) {
    let mut block = [0; 256];
    counting(&mut block, 256);
    add_one(&mut block);
    let start = Kind::StrictlySorted(Some(0));
    unpacks_to(rt, packer, start, &[0; 1024], 32, &block);
    for (slot, value) in block.iter_mut().zip([1 << 31, 0].into_iter().cycle()) {
        *slot = value;
    }
    let mut bytes = [0; 1024];
    repeated(&mut bytes, &[0, 0, 0, 0x80]);
    unpacks_to(rt, packer, Kind::Sorted(0), &bytes, 32, &block);
}

#[test]
fn eight_lanes_pack(rt: HostRuntime) {
    for packer in [BitPacker8x::new(), BitPacker8x::scalar()] {
        eight_lanes(&rt, &packer);
        eight_lanes_to_the_last_bit(&rt, &packer);
        eight_lanes_of_words(&rt, &packer);
    }
}

#[test]
fn a_line_of_eight_lanes(rt: HostRuntime) -> Result<(), Fail> {
    let line = [
        Part::Text("unpack 8s sorted:4294967295 1 "),
        Part::Repeated("f", 64),
    ];
    let values = [Part::Counted(0, 1, 256)];
    parts_are_answered(&rt, rt.alloc(), &line, 4096, &values)?;
    Ok(())
}

#[test]
fn widths_that_wrap(rt: HostRuntime) {
    let one = BitPacker1x::new();
    let mut falls = [4; 32];
    falls[0] = 5;
    assert!(rt; one.num_bits_sorted(0, &falls) == 32);
    assert!(rt; one.num_bits_strictly_sorted(Some(0), &[5; 32]) == 32);
    let last = [u32::MAX; 32];
    assert!(rt; one.num_bits_sorted(u32::MAX, &last) == 0);
    assert!(rt; one.num_bits_strictly_sorted(Some(u32::MAX), &last) == 32);
    let mut steps = [0; 128];
    counting(&mut steps, 128);
    widths_of_steps(&rt, &BitPacker4x::new(), &steps);
    widths_of_steps(&rt, &BitPacker4x::scalar(), &steps);
}

/// The widths of 0, 1, 2, ..
fn widths_of_steps(rt: &impl Abort, four: &BitPacker4x, steps: &[u32; 128]) {
    assert!(rt; four.num_bits_sorted(0, steps) == 1);
    assert!(rt; four.num_bits_strictly_sorted(None, steps) == 0);
    assert!(rt; four.num_bits_strictly_sorted(Some(u32::MAX), steps) == 0);
}

#[test]
fn sizes(rt: HostRuntime) {
    assert!(rt; BitPacker4x::compressed_block_size(13) == 208);
    assert!(rt; BitPacker8x::compressed_block_size(32) == 1024);
    assert!(rt; BitPacker8x::compressed_block_size(255) == 8160);
    assert!(rt; BitPacker1x::compressed_block_size(0) == 0);
}

/// All 0 but one number.
fn single(at: usize, number: u32) -> [u32; 256] {
    let mut block = [0; 256];
    if let Some(slot) = block.get_mut(at) {
        *slot = number;
    }
    block
}

/// A single code of a width, at each of the first 32 positions.
fn width_of_one_code<P: BitPacker>(rt: &impl Abort, packer: &P, width: u8, code: u32) {
    for at in 0..32 {
        let block = single(at, code);
        let found = measured(rt, packer, Kind::Plain, &block[..P::BLOCK_LEN]);
        assert!(rt; found == width, "width {width} at {at}");
    }
}

/// Codes of each width.
fn widths_of_one_code<P: BitPacker>(rt: &impl Abort, packer: &P) {
    width_of_one_code(rt, packer, 0, 0);
    for width in 1..32u8 {
        width_of_one_code(rt, packer, width, 1 << (width - 1));
    }
}

/// Packs a block of the greatest width.
fn pack_greatest<P: BitPacker>(rt: &impl Abort, packer: &P, block: &[u32], out: &mut [u8]) {
    assert!(rt; block.len() == P::BLOCK_LEN);
    assert!(rt; out.len() == 1024);
    let num_bits = packer.num_bits(block);
    assert!(rt; num_bits == 32);
    packer.compress(block, out, num_bits);
}

/// The bytes of a packer, over items of another number, unpack to the block; and a copy and a clone pack as their packer does.
fn greatest_width_and_copies<P: BitPacker>(rt: &impl Abort, packer: &P) {
    let mut block = [2_147_483_648; 256];
    block[0] = 0;
    let block = &block[..P::BLOCK_LEN];
    let mut bytes = [0; 1024];
    pack_greatest(rt, packer, block, &mut bytes);
    let mut back = [0x1010_1010; 256];
    packer.decompress(&bytes, &mut back, 32);
    assert!(rt; back.starts_with(block));
    copies_pack(rt, packer, block, &bytes);
}

/// A copy and a clone write the bytes that their packer wrote.
fn copies_pack<P: BitPacker>(rt: &impl Abort, packer: &P, block: &[u32], bytes: &[u8]) {
    let copy = *packer;
    let mut copied = [0; 1024];
    pack_greatest(rt, &copy, block, &mut copied);
    assert!(rt; copied.as_slice() == bytes);
    let clone: Result<P, AllocError> = packer.clone();
    let mut cloned = [0; 1024];
    if let Ok(clone) = clone {
        pack_greatest(rt, &clone, block, &mut cloned);
    }
    assert!(rt; cloned.as_slice() == bytes);
}

/// What every packer is tested with.
pub(super) fn every_packer<P: BitPacker>(rt: &impl Abort, packer: &P) {
    widths_of_one_code(rt, packer);
    greatest_width_and_copies(rt, packer);
}

#[test]
fn every_packer_finds_widths(rt: HostRuntime) {
    every_packer(&rt, &BitPacker1x::new());
    every_packer(&rt, &BitPacker4x::new());
    every_packer(&rt, &BitPacker4x::scalar());
    every_packer(&rt, &BitPacker8x::new());
    every_packer(&rt, &BitPacker8x::scalar());
}
