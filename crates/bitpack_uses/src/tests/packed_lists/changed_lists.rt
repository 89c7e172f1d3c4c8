//! Packed lists with one bit changed. Bytes that open encode the values that come out; all others are refused with the fault that
//! a walk over the bytes finds, and the vector is unchanged.
//!
//! The bytes were worked by hand from the format.

use super::lists::is_written;
use super::walk::first_fault;
use crate::tests::calls::decode1;
use crate::tests::checks::{is_true, one_value, push_bytes, same_fault, unchanged_values};
use bitpack::{ListError, ListKind};
use bitpacking::{BitPacker, BitPacker1x, BitPacker4x, BitPacker8x};
use std::alloc::Global;
use std::process::Abort;

/// The walk over the bytes finds this fault first, or none.
fn has_fault<P: BitPacker>(rt: &impl Abort, encoding: &[u8], fault: Option<ListError>) {
    same_fault(rt, first_fault::<P>(encoding), fault, encoding);
}

/// The walk finds no fault in the encoded list of the values after the 7.
fn is_of_values<P: BitPacker>(
    rt: &impl Abort,
    alloc: Global,
    packer: &P,
    kind: ListKind,
    values: &[u32],
    encoding: &[u8],
) {
    has_fault::<P>(rt, encoding, None);
    is_true(rt, values.first() == Some(&7), "the first value stays");
    let values = values.get(1..).unwrap_or(&[]);
    is_written(rt, alloc, packer, kind, values, encoding);
}

/// The bytes open, and encode the values that come out; or they are refused with their first fault, and the vector is unchanged.
fn opens_or_is_refused<P: BitPacker>(rt: &impl Abort, alloc: Global, packer: &P, encoding: &[u8]) {
    let mut values = one_value(rt, alloc, 7);
    let room = values.capacity();
    match decode1(packer, encoding, &mut values) {
        Ok(kind) => is_of_values(rt, alloc, packer, kind, &values, encoding),
        Err(error) => {
            has_fault::<P>(rt, encoding, Some(error));
            unchanged_values(rt, &values, 7, room);
        }
    }
}

/// Each bit of a byte of the list is changed in turn.
fn bits_of_byte<P: BitPacker>(
    rt: &impl Abort,
    alloc: Global,
    packer: &P,
    encoding: &mut Vec<u8>,
    index: usize,
) {
    for bit in 0..8u32 {
        change(encoding, index, 1 << bit);
        opens_or_is_refused(rt, alloc, packer, encoding);
        change(encoding, index, 1 << bit);
    }
}

/// Changes these bits of a byte.
fn change(encoding: &mut Vec<u8>, index: usize, bits: u8) {
    if let Some(byte) = encoding.get_mut(index) {
        *byte ^= bits;
    }
}

/// The list opens. Each of its bits is changed in turn, and each proper beginning is Short to the walk too.
fn every_bit<P: BitPacker>(rt: &impl Abort, alloc: Global, packer: &P, encoding: &[u8]) {
    has_fault::<P>(rt, encoding, None);
    opens_or_is_refused(rt, alloc, packer, encoding);
    let mut changed = Vec::new(alloc);
    push_bytes(rt, &mut changed, encoding);
    for index in 0..encoding.len() {
        opens_or_is_refused(rt, alloc, packer, &encoding[..index]);
        bits_of_byte(rt, alloc, packer, &mut changed, index);
    }
}

/// Appends a byte `count` times.
fn push_byte(rt: &impl Abort, encoding: &mut Vec<u8>, byte: u8, count: usize) {
    for _ in 0..count {
        push_bytes(rt, encoding, &[byte]);
    }
}

/// Two blocks and a tail of two values. The codes of the first block are ones. Those of the second are zeros but for the last
/// one, which is 4: its bit is the last of the body, and with it changed the width 3 is loose.
fn two_blocks<P: BitPacker>(rt: &impl Abort, alloc: Global, header: [u8; 7]) -> Vec<u8> {
    let mut encoding = Vec::new(alloc);
    push_bytes(rt, &mut encoding, &header);
    push_bytes(rt, &mut encoding, &[1]);
    push_byte(rt, &mut encoding, 0xff, P::BLOCK_LEN / 8);
    push_bytes(rt, &mut encoding, &[3]);
    push_byte(rt, &mut encoding, 0, P::BLOCK_LEN / 8 * 3 - 1);
    let tail = [0x80, 0, 0, 1, 0, 0xff, 0xff, 0xff, 0xff];
    push_bytes(rt, &mut encoding, &tail);
    encoding
}

fn bits_of_two_blocks<P: BitPacker>(rt: &impl Abort, alloc: Global, packer: &P, header: [u8; 7]) {
    let encoding = two_blocks::<P>(rt, alloc, header);
    every_bit(rt, alloc, packer, &encoding);
}

#[test]
fn bits_of_short_encodings(rt: HostRuntime) {
    let encodings: [&[u8]; 4] = [
        &[1, 0, 1, 0, 0, 0, 0],
        &[1, 0, 1, 1, 0, 0, 0, 5, 0, 0, 0],
        &[1, 2, 1, 0x21, 0, 0, 0, 0, 0x20, 0, 0, 0],
        &[
            1, 1, 1, 0x40, 0, 0, 0, 1, 0xff, 0xff, 0xff, 0xff, 2, 0xaa, 0xaa, 0xaa, 0xaa, 0xaa,
            0xaa, 0xaa, 0xaa,
        ],
    ];
    for encoding in encodings {
        every_bit(&rt, rt.alloc(), &BitPacker1x::new(), encoding);
    }
}

#[test]
fn bits_of_one_lane(rt: HostRuntime) {
    let header = [1, 1, 1, 66, 0, 0, 0];
    bits_of_two_blocks(&rt, rt.alloc(), &BitPacker1x::new(), header);
}

#[test]
fn bits_of_four_lanes(rt: HostRuntime) {
    let header = [1, 2, 4, 2, 1, 0, 0];
    bits_of_two_blocks(&rt, rt.alloc(), &BitPacker4x::new(), header);
    bits_of_two_blocks(&rt, rt.alloc(), &BitPacker4x::scalar(), header);
}

#[test]
fn bits_of_eight_lanes(rt: HostRuntime) {
    let header = [1, 0, 8, 2, 2, 0, 0];
    bits_of_two_blocks(&rt, rt.alloc(), &BitPacker8x::new(), header);
    bits_of_two_blocks(&rt, rt.alloc(), &BitPacker8x::scalar(), header);
}
