//! Version 1 lists, converted to version 2. The expected bytes and refusals were worked by hand from the format. None is the
//! program's own output.

use super::list2::{SHAPES, blocks_of, each_kind, encoding_of, is_list, is_written, thirty_three};
use crate::tests::calls::{encode1, upgrade};
use crate::tests::checks::{appended_bytes, nine, returns, succeeds, unchanged_bytes, with_zero};
use bitpack::{ListError, ListKind};
use bitpacking::{BitPacker, BitPacker1x, BitPacker4x, BitPacker8x};
use std::alloc::Global;
use std::process::Abort;

/// The version 1 list becomes this one of version 2, which is appended.
fn is_upgraded<P: BitPacker>(rt: &impl Abort, alloc: Global, packer: &P, old: &[u8], new: &[u8]) {
    let mut out = nine(rt, alloc);
    succeeds(rt, upgrade(packer, old, &mut out), old);
    appended_bytes(rt, &out, new);
}

/// The list is refused, and the vector holds what it held, in the room that it had.
fn is_refused<P: BitPacker>(
    rt: &impl Abort,
    alloc: Global,
    packer: &P,
    old: &[u8],
    error: ListError,
) {
    let mut out = nine(rt, alloc);
    let room = out.capacity();
    returns(rt, upgrade(packer, old, &mut out), Err(error), old);
    unchanged_bytes(rt, &out, room);
}

/// Each list is refused.
fn are_refused<P: BitPacker>(
    rt: &impl Abort,
    alloc: Global,
    packer: &P,
    cases: &[(&[u8], ListError)],
) {
    for (old, error) in cases {
        is_refused(rt, alloc, packer, old, *error);
    }
}

#[test]
fn worked_encodings(rt: HostRuntime) {
    let cases: [(&[u8], &[u8]); 4] = [
        (&[1, 1, 1, 0, 0, 0, 0], &[2, 1, 1, 0, 0, 0, 0]),
        // A plain list may be in any order.
        (
            &[1, 0, 1, 2, 0, 0, 0, 5, 0, 0, 0, 4, 0, 0, 0],
            &[2, 0, 1, 2, 0, 0, 0, 5, 0, 0, 0, 4, 0, 0, 0],
        ),
        // Strictly sorted, 0 to 32.
        (
            &[1, 2, 1, 33, 0, 0, 0, 0, 32, 0, 0, 0],
            &thirty_three(0, 0, 31, 32),
        ),
        // Sorted, 1 to 32, and then 34 to 96 in steps of 2.
        (
            &[
                1, 1, 1, 0x40, 0, 0, 0, 1, 0xff, 0xff, 0xff, 0xff, 2, 0xaa, 0xaa, 0xaa, 0xaa, 0xaa,
                0xaa, 0xaa, 0xaa,
            ],
            &[
                2, 1, 1, 0x40, 0, 0, 0, 1, 0, 0, 0, 0, 0x20, 0, 0, 0, 2, 1, 0, 0, 0, 0x60, 0, 0, 0,
                0xff, 0xff, 0xff, 0xff, 0xaa, 0xaa, 0xaa, 0xaa, 0xaa, 0xaa, 0xaa, 0xaa,
            ],
        ),
    ];
    for (old, new) in cases {
        is_upgraded(&rt, rt.alloc(), &BitPacker1x::new(), old, new);
    }
}

/// Strictly sorted, 32 times 5: after the first every code stands for no step, which wraps.
fn wrapped_values_refused(rt: &impl Abort, alloc: Global) {
    let mut wrapped = [0xff; 136];
    wrapped[..12].copy_from_slice(&[1, 2, 1, 32, 0, 0, 0, 32, 5, 0, 0, 0]);
    let error = ListError::NotSorted(1);
    is_refused(rt, alloc, &BitPacker1x::new(), &wrapped, error);
}

/// Sorted, 1 to 32, and then 32 times 31: the first code of block 1 wraps, and the others are 0.
fn wrapped_block_refused(rt: &impl Abort, alloc: Global) {
    let mut blocks = [0; 141];
    blocks[..17].copy_from_slice(&[
        1, 1, 1, 64, 0, 0, 0, 1, 0xff, 0xff, 0xff, 0xff, 32, 0xff, 0xff, 0xff, 0xff,
    ]);
    let error = ListError::NotSorted(32);
    is_refused(rt, alloc, &BitPacker1x::new(), &blocks, error);
}

#[test]
fn refusals_of_1x(rt: HostRuntime) {
    let cases: [(&[u8], ListError); 11] = [
        (&[], ListError::Short),
        (&[2, 0, 1, 0, 0, 0, 0], ListError::BadVersion(2)),
        (&[1, 0, 1, 1, 0, 0, 0x10], ListError::TooLong(268_435_457)),
        (
            &[1, 1, 1, 2, 0, 0, 0, 5, 0, 0, 0, 4, 0, 0, 0],
            ListError::NotSorted(1),
        ),
        (
            &[1, 2, 1, 2, 0, 0, 0, 5, 0, 0, 0, 5, 0, 0, 0],
            ListError::NotSorted(1),
        ),
        // Faults of version 1 come before the order: a byte too many, and a loose width.
        (
            &[1, 1, 1, 2, 0, 0, 0, 5, 0, 0, 0, 4, 0, 0, 0, 0],
            ListError::Trailing,
        ),
        (
            &[1, 1, 1, 34, 0, 0, 0, 1, 0, 0, 0, 0, 5, 0, 0, 0, 4, 0, 0, 0],
            ListError::LooseWidth(0, 1),
        ),
        // 32 zeros, 5 and 4.
        (
            &[1, 1, 1, 34, 0, 0, 0, 0, 5, 0, 0, 0, 4, 0, 0, 0],
            ListError::NotSorted(33),
        ),
        // 1 to 32, and then 31, or 32 in a strictly sorted list of 0 to 31 and 31.
        (
            &[1, 1, 1, 33, 0, 0, 0, 1, 0xff, 0xff, 0xff, 0xff, 31, 0, 0, 0],
            ListError::NotSorted(32),
        ),
        (
            &[1, 2, 1, 33, 0, 0, 0, 0, 31, 0, 0, 0],
            ListError::NotSorted(32),
        ),
        (&[1, 2, 1, 33, 0, 0, 0, 0, 32, 0, 0], ListError::Short),
    ];
    are_refused(&rt, rt.alloc(), &BitPacker1x::new(), &cases);
    wrapped_values_refused(&rt, rt.alloc());
    wrapped_block_refused(&rt, rt.alloc());
}

/// The version 1 list becomes this one of version 2. Each proper beginning of the version 1 list is refused, and so is the list
/// with a byte more.
fn alone_is_upgraded<P: BitPacker>(
    rt: &impl Abort,
    alloc: Global,
    packer: &P,
    old: &[u8],
    new: &[u8],
) {
    is_upgraded(rt, alloc, packer, old, new);
    for end in 0..old.len() {
        is_refused(rt, alloc, packer, &old[..end], ListError::Short);
    }
    let longer = with_zero(rt, alloc, old);
    is_refused(rt, alloc, packer, &longer, ListError::Trailing);
}

/// The values have this list of version 2, which their version 1 list becomes too, and it opens.
fn is_same<P: BitPacker>(
    rt: &impl Abort,
    alloc: Global,
    packer: &P,
    (kind, values): (ListKind, &[u32]),
    new: &[u8],
) {
    let mut old = Vec::new(alloc);
    succeeds(rt, encode1(packer, kind, values, &mut old), new);
    alone_is_upgraded(rt, alloc, packer, &old, new);
    is_written(rt, alloc, packer, kind, values, new);
    is_list(rt, packer, kind, values, new);
}

/// None, one and three blocks with and without a tail.
fn shapes_of<P: BitPacker>(
    rt: &impl Abort,
    alloc: Global,
    packer: &P,
    (byte, kind): (u8, ListKind),
    lasts: [u32; 3],
) {
    for (blocks, tail) in SHAPES {
        let values = blocks_of::<P>(rt, alloc, kind, blocks, tail);
        let encoding = encoding_of::<P>(rt, alloc, byte, blocks, tail, lasts);
        is_same(rt, alloc, packer, (kind, values.as_slice()), &encoding);
    }
}

/// Each shape in each kind.
fn each_list<P: BitPacker>(rt: &impl Abort, alloc: Global, packer: &P) {
    for (kind, lasts) in each_kind::<P>() {
        shapes_of(rt, alloc, packer, kind, lasts);
    }
}

#[test]
fn lists_of_1x(rt: HostRuntime) {
    each_list(&rt, rt.alloc(), &BitPacker1x::new());
}

#[test]
fn lists_of_4x(rt: HostRuntime) {
    each_list(&rt, rt.alloc(), &BitPacker4x::new());
    each_list(&rt, rt.alloc(), &BitPacker4x::scalar())
}

#[test]
fn lists_of_8x(rt: HostRuntime) {
    each_list(&rt, rt.alloc(), &BitPacker8x::new());
    each_list(&rt, rt.alloc(), &BitPacker8x::scalar());
}
