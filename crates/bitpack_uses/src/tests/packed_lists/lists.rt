//! Packed lists of version 1. The expected bytes, values and refusals were worked by hand from the format: the header, each
//! block's least width and the layout of its bits, the tail. None is the program's own output.

use crate::tests::calls::{decode1, encode1};
use crate::tests::checks::{
    appended_bytes, appended_values, nine, one_value, push, push_bytes, push_steps, same_values,
    says, steps, succeeds, unchanged_values, with_zero,
};
use bitpack::{ListError, ListKind};
use bitpacking::{BitPacker, BitPacker1x, BitPacker4x, BitPacker8x};
use std::alloc::Global;
use std::process::Abort;

/// The call on these bytes returned this.
fn decodes(
    rt: &impl Abort,
    found: Result<ListKind, ListError>,
    expected: Result<ListKind, ListError>,
    encoding: &[u8],
) {
    assert_eq!(rt; found, expected, "{encoding:?}");
}

/// The values have these bytes. What the vector held before comes before them.
pub(super) fn is_written<P: BitPacker>(
    rt: &impl Abort,
    alloc: Global,
    packer: &P,
    kind: ListKind,
    values: &[u32],
    encoding: &[u8],
) {
    let mut written = nine(rt, alloc);
    succeeds(rt, encode1(packer, kind, values, &mut written), encoding);
    appended_bytes(rt, &written, encoding);
}

/// The bytes have these values. What the vector held before comes before them.
fn is_read<P: BitPacker>(
    rt: &impl Abort,
    alloc: Global,
    packer: &P,
    kind: ListKind,
    values: &[u32],
    encoding: &[u8],
) {
    let mut read = one_value(rt, alloc, 7);
    decodes(rt, decode1(packer, encoding, &mut read), Ok(kind), encoding);
    appended_values(rt, &read, 7, values);
}

/// The values have these bytes, and the bytes these values. Each proper beginning of the bytes is refused, and so are the bytes
/// with one more.
fn is_encoding<P: BitPacker>(
    rt: &impl Abort,
    alloc: Global,
    packer: &P,
    kind: ListKind,
    values: &[u32],
    encoding: &[u8],
) {
    is_written(rt, alloc, packer, kind, values, encoding);
    is_read(rt, alloc, packer, kind, values, encoding);
    for end in 0..encoding.len() {
        is_refused(rt, alloc, packer, &encoding[..end], ListError::Short);
    }
    let longer = with_zero(rt, alloc, encoding);
    is_refused(rt, alloc, packer, &longer, ListError::Trailing);
}

/// The bytes are refused, and the vector holds what it held, in the room that it had.
fn is_refused<P: BitPacker>(
    rt: &impl Abort,
    alloc: Global,
    packer: &P,
    encoding: &[u8],
    error: ListError,
) {
    let mut read = one_value(rt, alloc, 7);
    let room = read.capacity();
    decodes(
        rt,
        decode1(packer, encoding, &mut read),
        Err(error),
        encoding,
    );
    unchanged_values(rt, &read, 7, room);
}

/// All of these bytes are refused.
fn are_refused<P: BitPacker>(
    rt: &impl Abort,
    alloc: Global,
    packer: &P,
    cases: &[(&[u8], ListError)],
) {
    for (encoding, error) in cases {
        is_refused(rt, alloc, packer, encoding, *error);
    }
}

/// 0 to 32, in one block of width 0 and a tail.
fn strict_encoding(rt: &impl Abort, alloc: Global) {
    let values = steps(rt, alloc, 0, 1, 33);
    let encoding = [1, 2, 1, 0x21, 0, 0, 0, 0, 0x20, 0, 0, 0];
    let kind = ListKind::StrictlySorted;
    is_encoding(rt, alloc, &BitPacker1x::new(), kind, &values, &encoding);
}

/// 1 to 32, and then 34 to 96 in steps of 2.
fn sorted_encoding(rt: &impl Abort, alloc: Global) {
    let mut values = steps(rt, alloc, 1, 1, 32);
    push_steps(rt, &mut values, 34, 2, 32);
    let encoding = [
        1, 1, 1, 0x40, 0, 0, 0, 1, 0xff, 0xff, 0xff, 0xff, 2, 0xaa, 0xaa, 0xaa, 0xaa, 0xaa, 0xaa,
        0xaa, 0xaa,
    ];
    let kind = ListKind::Sorted;
    is_encoding(rt, alloc, &BitPacker1x::new(), kind, &values, &encoding);
}

#[test]
fn worked_encodings(rt: HostRuntime) {
    let packer = BitPacker1x::new();
    let alloc = rt.alloc();
    let empty = [1, 0, 1, 0, 0, 0, 0];
    is_encoding(&rt, alloc, &packer, ListKind::Plain, &[], &empty);
    let five = [1, 0, 1, 1, 0, 0, 0, 5, 0, 0, 0];
    is_encoding(&rt, alloc, &packer, ListKind::Plain, &[5], &five);
    strict_encoding(&rt, alloc);
    sorted_encoding(&rt, alloc);
}

#[test]
fn refusals_of_1x(rt: HostRuntime) {
    let cases: [(&[u8], ListError); 18] = [
        (&[1, 0, 1, 0x20, 0, 0, 0, 0x21], ListError::BadWidth(0, 33)),
        (
            &[1, 0, 1, 0x20, 0, 0, 0, 1, 0, 0, 0, 0],
            ListError::LooseWidth(0, 1),
        ),
        (&[1, 0, 1, 0x20, 0, 0, 0, 0, 0], ListError::Trailing),
        (&[1, 0, 1, 0x20, 0, 0, 0], ListError::Short),
        (&[1, 0, 4, 0x20, 0, 0, 0, 0], ListError::WrongLanes(4)),
        (&[1, 0, 1, 0x20, 0, 0], ListError::Short),
        (&[3, 0, 1, 0, 0, 0, 0], ListError::BadVersion(3)),
        (&[1, 3, 1, 0, 0, 0, 0], ListError::BadKind(3)),
        (&[1, 0, 1, 1, 0, 0, 0x10], ListError::TooLong(268_435_457)),
        (&[1, 0, 1, 0, 0, 0, 0x10], ListError::Short),
        (
            &[1, 0, 1, 0x40, 0, 0, 0, 0, 0x21],
            ListError::BadWidth(1, 33),
        ),
        // If there are several faults, the first in the order of docs/FORMAT.md.
        (&[], ListError::Short),
        (&[2, 3, 4, 1, 0, 0, 0x10], ListError::BadVersion(2)),
        (&[1, 3, 4, 1, 0, 0, 0x10], ListError::BadKind(3)),
        (&[1, 0, 4, 1, 0, 0, 0x10], ListError::WrongLanes(4)),
        // A byte for each block and the tail are required before the width 33 is seen.
        (&[1, 0, 1, 0x21, 0, 0, 0, 0x21], ListError::Short),
        // Block 0 is loose, and block 1 is missing.
        (
            &[1, 0, 1, 0x40, 0, 0, 0, 1, 0, 0, 0, 0],
            ListError::LooseWidth(0, 1),
        ),
        // Block 0 is complete, and the tail is not.
        (
            &[1, 0, 1, 0x21, 0, 0, 0, 1, 1, 0, 0, 0, 0, 0],
            ListError::Short,
        ),
    ];
    are_refused(&rt, rt.alloc(), &BitPacker1x::new(), &cases);
}

fn encodings_of_4x<P: BitPacker>(rt: &impl Abort, alloc: Global, packer: &P) {
    let zeros = [1, 0, 4, 0x80, 0, 0, 0, 0];
    is_encoding(rt, alloc, packer, ListKind::Plain, &[0; 128], &zeros);
    let mut loose = [0; 24];
    loose[..8].copy_from_slice(&[1, 0, 4, 0x80, 0, 0, 0, 1]);
    is_refused(rt, alloc, packer, &loose, ListError::LooseWidth(0, 1));
    let lanes = [1, 0, 1, 0, 0, 0, 0];
    is_refused(rt, alloc, packer, &lanes, ListError::WrongLanes(1));
}

fn encodings_of_8x<P: BitPacker>(rt: &impl Abort, alloc: Global, packer: &P) {
    let promises = [1, 0, 8, 0, 0, 0, 0x10];
    is_refused(rt, alloc, packer, &promises, ListError::Short);
    let zeros = [1, 0, 8, 0, 4, 0, 0, 0, 0, 0, 0];
    is_encoding(rt, alloc, packer, ListKind::Plain, &[0; 1024], &zeros);
}

/// Strictly sorted by its header, and 32 times 5: the first code is 5, and the others are -1 modulo 2 ^ 32.
fn repeated_value(rt: &impl Abort, alloc: Global) {
    let mut repeated = [0xff; 136];
    repeated[..12].copy_from_slice(&[1, 2, 1, 0x20, 0, 0, 0, 0x20, 5, 0, 0, 0]);
    let mut read = Vec::new(alloc);
    let found = decode1(&BitPacker1x::new(), &repeated, &mut read);
    decodes(rt, found, Ok(ListKind::StrictlySorted), &repeated);
    same_values(rt, &read, &[5; 32]);
}

#[test]
fn encodings_from_anyone(rt: HostRuntime) {
    encodings_of_4x(&rt, rt.alloc(), &BitPacker4x::new());
    encodings_of_4x(&rt, rt.alloc(), &BitPacker4x::scalar());
    encodings_of_8x(&rt, rt.alloc(), &BitPacker8x::new());
    encodings_of_8x(&rt, rt.alloc(), &BitPacker8x::scalar());
    repeated_value(&rt, rt.alloc());
}

/// The value with this code.
fn value_of(kind: ListKind, previous: u32, code: u32) -> u32 {
    match kind {
        ListKind::Plain => code,
        ListKind::Sorted => previous.wrapping_add(code),
        ListKind::StrictlySorted => previous.wrapping_add(code).wrapping_add(1),
    }
}

/// The value before the first: of a strictly sorted list it is one less than 0.
pub(super) fn before_first(kind: ListKind) -> u32 {
    if kind == ListKind::StrictlySorted {
        u32::MAX
    } else {
        0
    }
}

/// Appends a block of values that have one code, and returns the last of them.
pub(super) fn push_block(
    rt: &impl Abort,
    values: &mut Vec<u32>,
    kind: ListKind,
    previous: u32,
    code: u32,
    count: usize,
) -> u32 {
    let mut value = previous;
    for _ in 0..count {
        value = value_of(kind, value, code);
        push(rt, values, value);
    }
    value
}

/// The values of three blocks, of the codes 1, 2 and 5, and of a tail of five values.
fn three_blocks<P: BitPacker>(rt: &impl Abort, alloc: Global, kind: ListKind) -> Vec<u32> {
    let mut values = Vec::new(alloc);
    let mut value = before_first(kind);
    for code in [1, 2, 5] {
        value = push_block(rt, &mut values, kind, value, code, P::BLOCK_LEN);
    }
    push_tail(rt, &mut values);
    values
}

fn push_tail(rt: &impl Abort, values: &mut Vec<u32>) {
    for value in [5, 0xfffe_fdfc, 0, 1, u32::MAX] {
        push(rt, values, value);
    }
}

/// Appends the words of a block, each as often as there are lanes.
pub(super) fn push_words(rt: &impl Abort, encoding: &mut Vec<u8>, words: &[[u8; 4]], lanes: usize) {
    for word in words {
        push_repeated(rt, encoding, word, lanes);
    }
}

/// Appends a word `count` times.
fn push_repeated(rt: &impl Abort, encoding: &mut Vec<u8>, word: &[u8], count: usize) {
    for _ in 0..count {
        push_bytes(rt, encoding, word);
    }
}

/// Their bytes. Each lane has one word of width 1, two of width 2 and three of width 3; the bits of the last are `101` again and
/// again.
fn three_blocks_encoding<P: BitPacker>(rt: &impl Abort, alloc: Global, header: [u8; 7]) -> Vec<u8> {
    let lanes = P::BLOCK_LEN / 32;
    let mut encoding = Vec::new(alloc);
    push_bytes(rt, &mut encoding, &header);
    push_bytes(rt, &mut encoding, &[1]);
    push_words(rt, &mut encoding, &[[0xff; 4]], lanes);
    push_bytes(rt, &mut encoding, &[2]);
    push_words(rt, &mut encoding, &[[0xaa; 4]; 2], lanes);
    let threes = [
        [0x6d, 0xdb, 0xb6, 0x6d],
        [0xdb, 0xb6, 0x6d, 0xdb],
        [0xb6, 0x6d, 0xdb, 0xb6],
    ];
    push_bytes(rt, &mut encoding, &[3]);
    push_words(rt, &mut encoding, &threes, lanes);
    let tail = [
        5, 0, 0, 0, 0xfc, 0xfd, 0xfe, 0xff, 0, 0, 0, 0, 1, 0, 0, 0, 0xff, 0xff, 0xff, 0xff,
    ];
    push_bytes(rt, &mut encoding, &tail);
    encoding
}

/// Three blocks and a tail in a kind; the header says plain.
fn of_kind<P: BitPacker>(
    rt: &impl Abort,
    alloc: Global,
    packer: &P,
    header: [u8; 7],
    (byte, kind): (u8, ListKind),
) {
    let mut header = header;
    header[1] = byte;
    let values = three_blocks::<P>(rt, alloc, kind);
    let encoding = three_blocks_encoding::<P>(rt, alloc, header);
    is_encoding(rt, alloc, packer, kind, &values, &encoding);
}

/// Three blocks and a tail in each kind.
fn each_kind<P: BitPacker>(rt: &impl Abort, alloc: Global, packer: &P, header: [u8; 7]) {
    for kind in [
        (0, ListKind::Plain),
        (1, ListKind::Sorted),
        (2, ListKind::StrictlySorted),
    ] {
        of_kind(rt, alloc, packer, header, kind);
    }
}

#[test]
fn three_blocks_and_a_tail(rt: HostRuntime) {
    // 101, 389 and 773 values.
    let one = [1, 0, 1, 0x65, 0, 0, 0];
    each_kind(&rt, rt.alloc(), &BitPacker1x::new(), one);
    let four = [1, 0, 4, 0x85, 1, 0, 0];
    each_kind(&rt, rt.alloc(), &BitPacker4x::new(), four);
    each_kind(&rt, rt.alloc(), &BitPacker4x::scalar(), four);
    let eight = [1, 0, 8, 5, 3, 0, 0];
    each_kind(&rt, rt.alloc(), &BitPacker8x::new(), eight);
    each_kind(&rt, rt.alloc(), &BitPacker8x::scalar(), eight);
}

#[test]
fn each_refusal_says_what_is_wrong(rt: HostRuntime) {
    let cases = [
        (ListError::Short, 1, "bytes are missing"),
        (ListError::BadVersion(3), 2, "unsupported version 3"),
        (ListError::BadKind(3), 3, "invalid kind 3"),
        (
            ListError::WrongLanes(4),
            4,
            "the list has 4 lanes, unlike the packer",
        ),
        (
            ListError::TooLong(268_435_457),
            5,
            "268435457 values are more than 268435456",
        ),
        (
            ListError::BadWidth(7, 33),
            6,
            "block 7 has width 33, above 32",
        ),
        (
            ListError::LooseWidth(7, 3),
            7,
            "block 7 has size 3, and a smaller one holds it",
        ),
        (
            ListError::BadOffset(7),
            8,
            "block 7 does not begin at the end of the one before it",
        ),
        (
            ListError::BadLast(7),
            9,
            "block 7 ends with another value than its entry says",
        ),
        (
            ListError::NotSorted(7),
            10,
            "the value at position 7 is out of order",
        ),
        (
            ListError::Trailing,
            11,
            "bytes are left over after the last value",
        ),
        (ListError::Memory, 12, "out of memory"),
    ];
    for (error, number, message) in cases {
        says(&rt, rt.alloc(), error, number, message);
    }
}
