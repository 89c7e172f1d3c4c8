//! How much room a call makes in an empty vector, with memory to spare: no more than the list has bytes, or the shorter of two
//! lists.

use crate::tests::calls::{encode1, encode2, intersect_encodings, open, unpack, upgrade};
use crate::tests::checks::{is_true, same_number, steps, succeeds};
use bitpack::ListKind;
use bitpacking::{BitPacker, BitPacker1x, BitPacker4x, BitPacker8x};
use std::alloc::Global;
use std::process::Abort;

/// The vector has this number of bytes, and no room for more.
fn is_full(rt: &impl Abort, encoding: &Vec<u8>, bytes: usize) {
    same_number(rt, encoding.len(), bytes, "bytes");
    same_number(rt, encoding.capacity(), bytes, "room for bytes");
}

/// `encode` of these values makes room for this number of bytes.
fn encodes_to<P: BitPacker>(
    rt: &impl Abort,
    alloc: Global,
    packer: &P,
    values: &[u32],
    bytes: usize,
) {
    let mut encoding = Vec::new(alloc);
    let outcome = encode2(packer, ListKind::StrictlySorted, values, &mut encoding);
    succeeds(rt, outcome, &[]);
    is_full(rt, &encoding, bytes);
}

/// So does `upgrade` of their version 1 list.
fn upgrades_to<P: BitPacker>(
    rt: &impl Abort,
    alloc: Global,
    packer: &P,
    values: &[u32],
    bytes: usize,
) {
    let mut old = Vec::new(alloc);
    let outcome = encode1(packer, ListKind::StrictlySorted, values, &mut old);
    succeeds(rt, outcome, &[]);
    let mut encoding = Vec::new(alloc);
    succeeds(rt, upgrade(packer, &old, &mut encoding), &old);
    is_full(rt, &encoding, bytes);
}

/// Ten blocks and five values, 1, 3, 5 and so on: each code is 1, so that a block has a bit a value.
fn narrow_blocks<P: BitPacker>(rt: &impl Abort, alloc: Global, packer: &P) {
    let len = P::BLOCK_LEN;
    let values = steps(rt, alloc, 1, 2, len * 10 + 5);
    let bytes = 7 + 90 + len / 8 * 10 + 20;
    encodes_to(rt, alloc, packer, &values, bytes);
    upgrades_to(rt, alloc, packer, &values, bytes);
}

#[test]
fn room_for_narrow_blocks(rt: HostRuntime) {
    narrow_blocks(&rt, rt.alloc(), &BitPacker1x::new());
    narrow_blocks(&rt, rt.alloc(), &BitPacker4x::new());
    narrow_blocks(&rt, rt.alloc(), &BitPacker4x::scalar());
    narrow_blocks(&rt, rt.alloc(), &BitPacker8x::new());
    narrow_blocks(&rt, rt.alloc(), &BitPacker8x::scalar());
}

/// The values in order are packed.
fn packed(rt: &impl Abort, alloc: Global, values: &[u32]) -> Vec<u8> {
    let mut encoding = Vec::new(alloc);
    let outcome = encode2(
        &BitPacker1x::new(),
        ListKind::StrictlySorted,
        values,
        &mut encoding,
    );
    succeeds(rt, outcome, &[]);
    encoding
}

/// The shared values take so much room.
fn shares_in(rt: &impl Abort, alloc: Global, encoding: &[u8], other: &[u8], room: usize) {
    let packer = BitPacker1x::new();
    let mut out = Vec::new(alloc);
    let outcome = intersect_encodings((&packer, encoding), (&packer, other), &mut out);
    is_true(rt, outcome == Some(Ok(())), "two lists in order");
    same_number(rt, out.capacity(), room, "room for values");
}

#[test]
fn room_for_the_shorter_list(rt: HostRuntime) {
    let alloc = rt.alloc();
    let long = steps(&rt, alloc, 0, 1, 2_000);
    let short = steps(&rt, alloc, 0, 2, 100);
    let (long, short) = (packed(&rt, alloc, &long), packed(&rt, alloc, &short));
    shares_in(&rt, alloc, &long, &short, 100);
    shares_in(&rt, alloc, &short, &long, 100);
}

/// All values of a list take as much room as they are.
#[test]
fn room_for_all_values(rt: HostRuntime) {
    let alloc = rt.alloc();
    let values = steps(&rt, alloc, 0, 1, 2_000);
    let encoding = packed(&rt, alloc, &values);
    let list = open(&BitPacker1x::new(), &encoding).expect(&rt, "a list");
    let mut out = Vec::new(alloc);
    unpack(&rt, &list, &mut out);
    same_number(&rt, out.capacity(), 2_000, "room for values");
}
