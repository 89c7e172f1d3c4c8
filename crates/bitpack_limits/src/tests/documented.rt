//! Two blocks of 128 numbers, with the first bytes of each, from the documentation of the Rust crate `bitpacking` 0.9.3.

use super::blocks::{measured, packed, unpacks_to};
use bitpacking::{BitPacker, BitPacker4x, Kind};
use std::process::Abort;

const PLAIN: [u32; 128] = [
    7, 7, 7, 7, 11, 10, 15, 13, 6, 5, 3, 14, 5, 7, 15, 12, 1, 10, 8, 10, 12, 14, 13, 1, 10, 1, 1,
    10, 4, 15, 12, 1, 2, 0, 8, 5, 14, 5, 2, 4, 1, 6, 14, 13, 5, 10, 10, 1, 6, 4, 1, 12, 1, 1, 5,
    15, 15, 2, 8, 6, 4, 3, 10, 8, 8, 9, 2, 6, 10, 5, 7, 9, 0, 13, 15, 5, 13, 10, 0, 2, 10, 14, 5,
    9, 12, 8, 5, 10, 8, 8, 10, 5, 13, 8, 11, 14, 7, 14, 4, 2, 9, 12, 14, 5, 15, 12, 0, 12, 13, 3,
    13, 5, 4, 15, 9, 8, 9, 3, 3, 3, 1, 12, 0, 6, 11, 11, 12, 4,
];

const SORTED: [u32; 128] = [
    0, 5, 6, 8, 12, 21, 30, 38, 46, 52, 59, 61, 62, 62, 71, 71, 73, 74, 76, 77, 80, 87, 96, 99,
    105, 114, 119, 121, 128, 133, 138, 145, 152, 161, 161, 166, 175, 176, 180, 186, 189, 193, 202,
    211, 220, 224, 229, 238, 247, 255, 261, 267, 267, 268, 269, 269, 270, 271, 279, 283, 285, 291,
    297, 303, 305, 309, 310, 315, 316, 316, 321, 324, 329, 337, 339, 342, 350, 355, 364, 373, 382,
    386, 392, 400, 408, 414, 423, 431, 433, 436, 441, 444, 445, 454, 463, 463, 465, 472, 474, 477,
    480, 488, 493, 496, 501, 503, 509, 515, 519, 526, 526, 532, 539, 542, 542, 542, 549, 557, 565,
    566, 573, 578, 580, 581, 585, 588, 588, 591,
];

#[test]
fn documented_blocks(rt: HostRuntime) {
    let plain = [
        0xb7, 0x56, 0xc1, 0x4a, 0xa7, 0x75, 0xea, 0xf1, 0xf7, 0xf3, 0xd8, 0xc1, 0xd7, 0xce, 0x1a,
        0x1a,
    ];
    let sorted = [
        0x40, 0x18, 0x32, 0x76, 0x95, 0x06, 0x71, 0x59, 0x91, 0x97, 0x92, 0x55, 0x82, 0x02, 0x31,
        0x72,
    ];
    for packer in [BitPacker4x::new(), BitPacker4x::scalar()] {
        begins_with(&rt, &packer, Kind::Plain, &PLAIN, &plain);
        begins_with(&rt, &packer, Kind::Sorted(0), &SORTED, &sorted);
    }
}

/// A block of width 4 has bytes that begin with these, and nothing after them is written.
fn begins_with(rt: &impl Abort, packer: &BitPacker4x, kind: Kind, block: &[u32], begin: &[u8]) {
    let num_bits = measured(rt, packer, kind, block);
    assert!(rt; num_bits == 4);
    let mut bytes = [0xaa; 70];
    let size = packed(rt, packer, kind, block, &mut bytes, num_bits);
    assert!(rt; size == 64);
    assert!(rt; bytes.starts_with(begin));
    assert!(rt; bytes[64..] == [0xaa; 6]);
    let bytes = bytes.get(..64).unwrap_or(&[]);
    unpacks_to(rt, packer, kind, bytes, num_bits, block);
}
