//! Packed lists of version 2. The expected bytes, values and refusals were worked by hand from the format: the header, the skip
//! entries with least width, offset and last value, the layout of each block's bits, the tail. None is the program's own output.

use super::lists::{before_first, push_block, push_words};
use crate::tests::calls::{encode2, open, value_at};
use crate::tests::checks::{
    appended_bytes, is_true, nine, push, push_bytes, push_steps, returns, same_number, steps,
    succeeds, with_zero,
};
use bitpack::list2::PackedList;
use bitpack::{ListError, ListKind};
use bitpacking::{BitPacker, BitPacker1x, BitPacker4x, BitPacker8x};
use std::alloc::Global;
use std::process::Abort;

/// What opening the bytes returns, without the list.
pub(super) fn opened<P: BitPacker>(packer: &P, encoding: &[u8]) -> Result<(), ListError> {
    match open(packer, encoding) {
        Ok(_) => Ok(()),
        Err(error) => Err(error),
    }
}

/// The bytes are refused.
pub(super) fn is_refused<P: BitPacker>(
    rt: &impl Abort,
    packer: &P,
    encoding: &[u8],
    error: ListError,
) {
    returns(rt, opened(packer, encoding), Err(error), encoding);
}

/// All of these bytes are refused.
pub(super) fn are_refused<P: BitPacker>(rt: &impl Abort, packer: &P, cases: &[(&[u8], ListError)]) {
    for (encoding, error) in cases {
        is_refused(rt, packer, encoding, *error);
    }
}

/// The list has this value at this position, or none.
fn has_value<P: BitPacker>(
    rt: &impl Abort,
    list: &PackedList<'_, P>,
    position: usize,
    value: Option<u32>,
) {
    assert_eq!(rt; value_at(list, position), value, "at {position}");
}

/// The list has this kind and these values.
fn has_values<P: BitPacker>(
    rt: &impl Abort,
    list: &PackedList<'_, P>,
    kind: ListKind,
    values: &[u32],
) {
    is_true(rt, list.kind() == kind, "the kind");
    same_number(rt, list.len(), values.len(), "values");
    for position in 0..values.len() {
        has_value(rt, list, position, Some(values[position]));
    }
    has_value(rt, list, values.len(), None);
    has_value(rt, list, usize::MAX, None);
}

/// The bytes are opened, and have this kind and these values.
pub(super) fn is_list<P: BitPacker>(
    rt: &impl Abort,
    packer: &P,
    kind: ListKind,
    values: &[u32],
    encoding: &[u8],
) {
    match open(packer, encoding) {
        Ok(list) => has_values(rt, &list, kind, values),
        Err(error) => returns(rt, Err(error), Ok(()), encoding),
    }
}

/// The values have these bytes, which are appended.
pub(super) fn is_written<P: BitPacker>(
    rt: &impl Abort,
    alloc: Global,
    packer: &P,
    kind: ListKind,
    values: &[u32],
    encoding: &[u8],
) {
    let mut written = nine(rt, alloc);
    succeeds(rt, encode2(packer, kind, values, &mut written), encoding);
    appended_bytes(rt, &written, encoding);
}

/// The values have these bytes, which are appended, and the bytes have these values. Each proper beginning is refused, and so are
/// the bytes with one more.
fn is_encoding<P: BitPacker>(
    rt: &impl Abort,
    alloc: Global,
    packer: &P,
    kind: ListKind,
    values: &[u32],
    encoding: &[u8],
) {
    is_written(rt, alloc, packer, kind, values, encoding);
    is_list(rt, packer, kind, values, encoding);
    for end in 0..encoding.len() {
        is_refused(rt, packer, &encoding[..end], ListError::Short);
    }
    let longer = with_zero(rt, alloc, encoding);
    is_refused(rt, packer, &longer, ListError::Trailing);
}

/// Strictly sorted, 0 to 32, with other bytes at four offsets: the width, and the lowest bytes of the offset, the last value and the
/// tail. With 0, 0, 31 and 32 it is right.
pub(super) fn thirty_three(width: u8, offset: u8, last: u8, tail: u8) -> [u8; 20] {
    [
        2, 2, 1, 33, 0, 0, 0, width, offset, 0, 0, 0, last, 0, 0, 0, tail, 0, 0, 0,
    ]
}

fn encoding_of_none_and_two(rt: &impl Abort, alloc: Global) {
    let packer = BitPacker1x::new();
    let empty = [2, 0, 1, 0, 0, 0, 0];
    is_encoding(rt, alloc, &packer, ListKind::Plain, &[], &empty);
    let two = [2, 0, 1, 2, 0, 0, 0, 3, 0, 0, 0, 1, 0, 0, 0];
    is_encoding(rt, alloc, &packer, ListKind::Plain, &[3, 1], &two);
}

/// 0 to 32.
fn strict_encoding(rt: &impl Abort, alloc: Global) {
    let values = steps(rt, alloc, 0, 1, 33);
    let encoding = thirty_three(0, 0, 31, 32);
    let kind = ListKind::StrictlySorted;
    is_encoding(rt, alloc, &BitPacker1x::new(), kind, &values, &encoding);
}

/// 0 to 7, four times.
fn plain_encoding(rt: &impl Abort, alloc: Global) {
    let mut values = Vec::new(alloc);
    for _ in 0..4 {
        push_steps(rt, &mut values, 0, 1, 8);
    }
    let encoding = [
        2, 0, 1, 0x20, 0, 0, 0, 3, 0, 0, 0, 0, 7, 0, 0, 0, 0x88, 0xc6, 0xfa, 0x88, 0xc6, 0xfa,
        0x88, 0xc6, 0xfa, 0x88, 0xc6, 0xfa,
    ];
    let kind = ListKind::Plain;
    is_encoding(rt, alloc, &BitPacker1x::new(), kind, &values, &encoding);
}

/// 1 to 32, and then 34 to 96 in steps of 2.
fn sorted_encoding(rt: &impl Abort, alloc: Global) {
    let mut values = steps(rt, alloc, 1, 1, 32);
    push_steps(rt, &mut values, 34, 2, 32);
    let encoding = [
        2, 1, 1, 0x40, 0, 0, 0, 1, 0, 0, 0, 0, 0x20, 0, 0, 0, 2, 1, 0, 0, 0, 0x60, 0, 0, 0, 0xff,
        0xff, 0xff, 0xff, 0xaa, 0xaa, 0xaa, 0xaa, 0xaa, 0xaa, 0xaa, 0xaa,
    ];
    let kind = ListKind::Sorted;
    is_encoding(rt, alloc, &BitPacker1x::new(), kind, &values, &encoding);
}

#[test]
fn worked_encodings(rt: HostRuntime) {
    encoding_of_none_and_two(&rt, rt.alloc());
    strict_encoding(&rt, rt.alloc());
    plain_encoding(&rt, rt.alloc());
    sorted_encoding(&rt, rt.alloc());
}

/// So many values from 0 on, each of these steps in turn added to the one before.
fn in_turn(rt: &impl Abort, alloc: Global, steps: &[u32], count: usize) -> Vec<u32> {
    let mut values = Vec::new(alloc);
    let mut value: u32 = 0;
    for index in 0..count {
        push(rt, &mut values, value);
        value = value.wrapping_add(steps.get(index % steps.len().max(1)).copied().unwrap_or(0));
    }
    values
}

/// Sorted, four lanes: 0, 1, 3, 6, 6, 7, 9, 12 and so on to 192, whose codes are 0, 1, 2, 3 in turn; then 200 and 1000.
fn encoding_of_4x<P: BitPacker>(rt: &impl Abort, alloc: Global, packer: &P) {
    let mut values = in_turn(rt, alloc, &[1, 2, 3, 0], 128);
    push(rt, &mut values, 200);
    push(rt, &mut values, 1000);
    let encoding = [
        2, 1, 4, 0x82, 0, 0, 0, 2, 0, 0, 0, 0, 0xc0, 0, 0, 0, 0, 0, 0, 0, 0x55, 0x55, 0x55, 0x55,
        0xaa, 0xaa, 0xaa, 0xaa, 0xff, 0xff, 0xff, 0xff, 0, 0, 0, 0, 0x55, 0x55, 0x55, 0x55, 0xaa,
        0xaa, 0xaa, 0xaa, 0xff, 0xff, 0xff, 0xff, 0xc8, 0, 0, 0, 0xe8, 3, 0, 0,
    ];
    is_encoding(rt, alloc, packer, ListKind::Sorted, &values, &encoding);
}

/// Strictly sorted, eight lanes: 0, 2, 3, 5, 6, 8 and so on to 383, whose codes are 0, 1 in turn; then 400.
fn encoding_of_8x<P: BitPacker>(rt: &impl Abort, alloc: Global, packer: &P) {
    let mut values = in_turn(rt, alloc, &[2, 1], 256);
    push(rt, &mut values, 400);
    let mut encoding = [0; 52];
    encoding[..16].copy_from_slice(&[2, 2, 8, 1, 1, 0, 0, 1, 0, 0, 0, 0, 0x7f, 1, 0, 0]);
    for lane in 0..4 {
        encoding[20 + 8 * lane..24 + 8 * lane].copy_from_slice(&[0xff; 4]);
    }
    encoding[48..].copy_from_slice(&[0x90, 1, 0, 0]);
    is_encoding(
        rt,
        alloc,
        packer,
        ListKind::StrictlySorted,
        &values,
        &encoding,
    );
}

#[test]
fn worked_encodings_of_more_lanes(rt: HostRuntime) {
    encoding_of_4x(&rt, rt.alloc(), &BitPacker4x::new());
    encoding_of_4x(&rt, rt.alloc(), &BitPacker4x::scalar());
    encoding_of_8x(&rt, rt.alloc(), &BitPacker8x::new());
    encoding_of_8x(&rt, rt.alloc(), &BitPacker8x::scalar());
}

/// Each block in lanes: one word of width 1, two of width 2 and three of width 3, whose bits are `101` again and again.
const WORDS: [[[u8; 4]; 3]; 3] = [
    [[0xff; 4], [0; 4], [0; 4]],
    [[0xaa; 4], [0xaa; 4], [0; 4]],
    [
        [0x6d, 0xdb, 0xb6, 0x6d],
        [0xdb, 0xb6, 0x6d, 0xdb],
        [0xb6, 0x6d, 0xdb, 0xb6],
    ],
];

/// Values of up to three blocks, of the codes 1, 2 and 5, and two more if there is a tail.
pub(super) fn blocks_of<P: BitPacker>(
    rt: &impl Abort,
    alloc: Global,
    kind: ListKind,
    blocks: usize,
    tail: bool,
) -> Vec<u32> {
    let mut values = Vec::new(alloc);
    let mut value = before_first(kind);
    for block in 0..blocks.min(3) {
        let code = [1, 2, 5][block];
        value = push_block(rt, &mut values, kind, value, code, P::BLOCK_LEN);
    }
    if tail {
        push(rt, &mut values, 0xfffe_fdfc);
        push(rt, &mut values, u32::MAX);
    }
    values
}

/// Appends the skip entries of blocks that have these last values.
fn push_entries(rt: &impl Abort, encoding: &mut Vec<u8>, blocks: usize, lasts: [u32; 3]) {
    for block in 0..blocks.min(3) {
        push_bytes(rt, encoding, &[block as u8 + 1, [0, 1, 3][block], 0, 0, 0]);
        push_bytes(rt, encoding, &lasts[block].to_le_bytes());
    }
}

/// Appends the bytes of the blocks.
fn push_bodies(rt: &impl Abort, encoding: &mut Vec<u8>, blocks: usize, lanes: usize) {
    for block in 0..blocks.min(3) {
        push_words(rt, encoding, &WORDS[block][..block + 1], lanes);
    }
}

/// The encoded list of the values of `blocks_of`. Its kind has this byte, and its blocks these last values.
pub(super) fn encoding_of<P: BitPacker>(
    rt: &impl Abort,
    alloc: Global,
    kind: u8,
    blocks: usize,
    tail: bool,
    lasts: [u32; 3],
) -> Vec<u8> {
    let len = P::BLOCK_LEN;
    let count = (blocks.min(3) * len + if tail { 2 } else { 0 }) & 0xffff;
    let mut encoding = Vec::new(alloc);
    push_bytes(rt, &mut encoding, &[2, kind, (len / 32) as u8]);
    push_bytes(rt, &mut encoding, &(count as u32).to_le_bytes());
    push_entries(rt, &mut encoding, blocks, lasts);
    push_bodies(rt, &mut encoding, blocks, len / 32);
    if tail {
        let tail = [0xfc, 0xfd, 0xfe, 0xff, 0xff, 0xff, 0xff, 0xff];
        push_bytes(rt, &mut encoding, &tail);
    }
    encoding
}

/// The kinds, each with its byte and the last values of its three blocks.
pub(super) fn each_kind<P: BitPacker>() -> [((u8, ListKind), [u32; 3]); 3] {
    let n = P::BLOCK_LEN as u32;
    [
        ((0, ListKind::Plain), [1, 2, 5]),
        ((1, ListKind::Sorted), [n, 3 * n, 8 * n]),
        (
            (2, ListKind::StrictlySorted),
            [2 * n - 1, 5 * n - 1, 11 * n - 1],
        ),
    ]
}

/// None, one and three blocks, with and without a tail.
pub(super) const SHAPES: [(usize, bool); 6] = [
    (0, false),
    (0, true),
    (1, false),
    (1, true),
    (3, false),
    (3, true),
];

/// A list of each shape.
fn shapes_of<P: BitPacker>(
    rt: &impl Abort,
    alloc: Global,
    packer: &P,
    (byte, kind): (u8, ListKind),
    lasts: [u32; 3],
) {
    for (blocks, tail) in SHAPES {
        let values = blocks_of::<P>(rt, alloc, kind, blocks, tail);
        let encoding = encoding_of::<P>(rt, alloc, byte, blocks, tail, lasts);
        is_encoding(rt, alloc, packer, kind, &values, &encoding);
    }
}

/// Each shape in each kind.
fn each_shape<P: BitPacker>(rt: &impl Abort, alloc: Global, packer: &P) {
    for (kind, lasts) in each_kind::<P>() {
        shapes_of(rt, alloc, packer, kind, lasts);
    }
}

#[test]
fn every_shape_of_1x(rt: HostRuntime) {
    each_shape(&rt, rt.alloc(), &BitPacker1x::new());
}

#[test]
fn every_shape_of_4x(rt: HostRuntime) {
    each_shape(&rt, rt.alloc(), &BitPacker4x::new());
    each_shape(&rt, rt.alloc(), &BitPacker4x::scalar());
}

#[test]
fn every_shape_of_8x(rt: HostRuntime) {
    each_shape(&rt, rt.alloc(), &BitPacker8x::new());
    each_shape(&rt, rt.alloc(), &BitPacker8x::scalar());
}
