//! Lists of version 1, with their bytes worked by hand.

use crate::tests::checks::{push, push_bytes};
use bitpack::{ListError, ListKind};
use bitpacking::BitPacker;
use std::alloc::Global;
use std::process::Abort;

/// The call on these bytes returned this.
pub(super) fn decodes(
    rt: &impl Abort,
    found: Result<ListKind, ListError>,
    expected: Result<ListKind, ListError>,
    encoding: &[u8],
) {
    assert_eq!(rt; found, expected, "{encoding:?}");
}

/// The value with this code.
fn value_of(kind: ListKind, previous: u32, code: u32) -> u32 {
    match kind {
        ListKind::Plain => code,
        ListKind::Sorted => previous.wrapping_add(code),
        ListKind::StrictlySorted => previous.wrapping_add(code).wrapping_add(1),
    }
}

/// The value before the first: of a strictly sorted list it is one less than 0.
fn before_first(kind: ListKind) -> u32 {
    if kind == ListKind::StrictlySorted {
        u32::MAX
    } else {
        0
    }
}

/// Appends a block of values that have one code, and returns the last of them.
fn push_block(
    rt: &impl Abort,
    values: &mut Vec<u32>,
    kind: ListKind,
    previous: u32,
    code: u32,
    count: usize,
) -> u32 {
    let mut value = previous;
    for _ in 0..count {
        value = value_of(kind, value, code);
        push(rt, values, value);
    }
    value
}

/// The values of three blocks, of the codes 1, 2 and 5, and of a tail of five values.
pub(super) fn three_blocks<P: BitPacker>(
    rt: &impl Abort,
    alloc: Global,
    kind: ListKind,
) -> Vec<u32> {
    let mut values = Vec::new(alloc);
    let mut value = before_first(kind);
    for code in [1, 2, 5] {
        value = push_block(rt, &mut values, kind, value, code, P::BLOCK_LEN);
    }
    push_tail(rt, &mut values);
    values
}

fn push_tail(rt: &impl Abort, values: &mut Vec<u32>) {
    for value in [5, 0xfffe_fdfc, 0, 1, u32::MAX] {
        push(rt, values, value);
    }
}

/// Appends the words of a block, each as often as there are lanes.
fn push_words(rt: &impl Abort, encoding: &mut Vec<u8>, words: &[[u8; 4]], lanes: usize) {
    for word in words {
        push_repeated(rt, encoding, word, lanes);
    }
}

/// Appends a word `count` times.
fn push_repeated(rt: &impl Abort, encoding: &mut Vec<u8>, word: &[u8], count: usize) {
    for _ in 0..count {
        push_bytes(rt, encoding, word);
    }
}

/// Their bytes. Each lane has one word of width 1, two of width 2 and three of width 3; the bits of the last are `101` again and
/// again.
pub(super) fn three_blocks_encoding<P: BitPacker>(
    rt: &impl Abort,
    alloc: Global,
    header: [u8; 7],
) -> Vec<u8> {
    let lanes = P::BLOCK_LEN / 32;
    let mut encoding = Vec::new(alloc);
    push_bytes(rt, &mut encoding, &header);
    push_bytes(rt, &mut encoding, &[1]);
    push_words(rt, &mut encoding, &[[0xff; 4]], lanes);
    push_bytes(rt, &mut encoding, &[2]);
    push_words(rt, &mut encoding, &[[0xaa; 4]; 2], lanes);
    let threes = [
        [0x6d, 0xdb, 0xb6, 0x6d],
        [0xdb, 0xb6, 0x6d, 0xdb],
        [0xb6, 0x6d, 0xdb, 0xb6],
    ];
    push_bytes(rt, &mut encoding, &[3]);
    push_words(rt, &mut encoding, &threes, lanes);
    let tail = [
        5, 0, 0, 0, 0xfc, 0xfd, 0xfe, 0xff, 0, 0, 0, 0, 1, 0, 0, 0, 0xff, 0xff, 0xff, 0xff,
    ];
    push_bytes(rt, &mut encoding, &tail);
    encoding
}
