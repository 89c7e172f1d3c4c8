//! Packed lists in vectors with too little room: what is left if an allocation fails, how much room a call takes, and that many
//! lists in one vector grow it seldom.

use super::lists::{decodes, three_blocks, three_blocks_encoding};
use super::memory::{grow_stack, take_all};
use crate::tests::calls::{decode1, encode1};
use crate::tests::checks::{
    is_true, returns, room_for, same_number, succeeds, unchanged_bytes, unchanged_values, with_zero,
};
use bitpack::{ListError, ListKind};
use bitpacking::{BitPacker, BitPacker1x, BitPacker4x, BitPacker8x};
use std::alloc::Global;
use std::process::Abort;

/// Allocates up to a hundred blocks of a size.
fn take_blocks(alloc: Global, taken: &mut Vec<Vec<u8>>, size: usize) {
    for _ in 0..100 {
        let Ok(block) = Vec::with_capacity(alloc, size) else {
            break;
        };
        let Ok(()) = taken.push(block) else {
            break;
        };
    }
}

/// Allocates all memory, and then the freed blocks of each size that the C library caches for equal ones.
fn take_everything(rt: &impl Abort, alloc: Global) -> Vec<Vec<u8>> {
    let mut taken = take_all(rt, alloc);
    for size in 1..1100usize {
        take_blocks(alloc, &mut taken, size);
    }
    taken
}

/// A vector that holds one item, with room for `room` items.
fn one_item<T: Copy>(rt: &impl Abort, alloc: Global, item: T, room: usize) -> Vec<T> {
    let mut items = room_for(rt, alloc, room);
    is_true(rt, items.push(item).is_ok(), "memory");
    items
}

/// With no memory left both calls return `Memory`. Each proper beginning of the bytes is Short all the same, and the bytes with one
/// more are Trailing.
fn calls_refused<P: BitPacker>(
    rt: &impl Abort,
    packer: &P,
    (kind, values, encoding, longer): (ListKind, &[u32], &[u8], &[u8]),
    written: &mut Vec<u8>,
    read: &mut Vec<u32>,
) {
    let encoded = encode1(packer, kind, values, written);
    returns(rt, encoded, Err(ListError::Memory), encoding);
    let decoded = decode1(packer, encoding, read);
    decodes(rt, decoded, Err(ListError::Memory), encoding);
    for end in 0..encoding.len() {
        let decoded = decode1(packer, &encoding[..end], read);
        decodes(rt, decoded, Err(ListError::Short), &encoding[..end]);
    }
    let decoded = decode1(packer, longer, read);
    decodes(rt, decoded, Err(ListError::Trailing), longer);
}

/// With room for a number of bytes and values, and no more memory, the calls leave the vectors unchanged.
fn growth_refused<P: BitPacker>(
    rt: &impl Abort,
    alloc: Global,
    packer: &P,
    (kind, values, encoding, longer): (ListKind, &[u32], &[u8], &[u8]),
    (bytes, words): (usize, usize),
) {
    let mut written = one_item(rt, alloc, 9u8, bytes);
    let mut read = one_item(rt, alloc, 7u32, words);
    let list = (kind, values, encoding, longer);
    let taken = take_everything(rt, alloc);
    calls_refused(rt, packer, list, &mut written, &mut read);
    drop(taken);
    unchanged_bytes(rt, &written, bytes);
    unchanged_values(rt, &read, 7, words);
}

/// With no memory, and room for one item or for half of them.
fn growths_refused<P: BitPacker>(
    rt: &impl Abort,
    alloc: Global,
    packer: &P,
    kind: ListKind,
    header: [u8; 7],
) {
    let values = three_blocks::<P>(rt, alloc, kind);
    let encoding = three_blocks_encoding::<P>(rt, alloc, header);
    let longer = with_zero(rt, alloc, &encoding);
    let list = (
        kind,
        values.as_slice(),
        encoding.as_slice(),
        longer.as_slice(),
    );
    let halves = (encoding.len() / 2, values.len() / 2);
    growth_refused(rt, alloc, packer, list, (1, 1));
    growth_refused(rt, alloc, packer, list, halves);
}

/// From room for a number of bytes `encode` grows to the size of the list, and no further.
fn room_of_encoding<P: BitPacker>(
    rt: &impl Abort,
    alloc: Global,
    packer: &P,
    (kind, values, bytes): (ListKind, &[u32], usize),
    room: usize,
) {
    let mut written = one_item(rt, alloc, 9u8, room);
    let encoded = encode1(packer, kind, values, &mut written);
    succeeds(rt, encoded, &[]);
    same_number(rt, written.len(), bytes, "bytes");
    same_number(rt, written.capacity(), bytes, "room for bytes");
}

/// From room for a number of values `decode` grows to what the values take, and no further.
fn room_of_values<P: BitPacker>(
    rt: &impl Abort,
    alloc: Global,
    packer: &P,
    (kind, encoding, words): (ListKind, &[u8], usize),
    room: usize,
) {
    let mut read = one_item(rt, alloc, 7u32, room);
    decodes(rt, decode1(packer, encoding, &mut read), Ok(kind), encoding);
    same_number(rt, read.len(), words, "values");
    same_number(rt, read.capacity(), words, "room for values");
}

/// From room for one item a call grows to the size of the list or its values, and no further. From room for half of it, it grows
/// once, and from room for all of it not at all.
fn room_taken<P: BitPacker>(
    rt: &impl Abort,
    alloc: Global,
    packer: &P,
    (kind, values, encoding): (ListKind, &[u32], &[u8]),
) {
    let (bytes, words) = (encoding.len() + 1, values.len() + 1);
    for room in [1, bytes / 2, bytes] {
        room_of_encoding(rt, alloc, packer, (kind, values, bytes), room);
    }
    for room in [1, words / 2, words] {
        room_of_values(rt, alloc, packer, (kind, encoding, words), room);
    }
}

/// A thousand lists one after the other change the capacity of their vector fewer than twenty times.
fn a_thousand_encodings<P: BitPacker>(
    rt: &impl Abort,
    alloc: Global,
    packer: &P,
    (kind, values, encoding): (ListKind, &[u32], &[u8]),
) {
    let mut written: Vec<u8> = Vec::new(alloc);
    let mut changes = 0usize;
    for _ in 0..1000u32 {
        let room = written.capacity();
        succeeds(rt, encode1(packer, kind, values, &mut written), encoding);
        if written.capacity() != room {
            changes = changes.wrapping_add(1);
        }
    }
    same_number(rt, written.len() / 1000, encoding.len(), "bytes");
    is_true(rt, changes < 20, "changes of the room for bytes");
}

/// The values of a thousand lists one after the other change the capacity of their vector fewer than twenty times.
fn values_of_a_thousand<P: BitPacker>(
    rt: &impl Abort,
    alloc: Global,
    packer: &P,
    (kind, values, encoding): (ListKind, &[u32], &[u8]),
) {
    let mut read: Vec<u32> = Vec::new(alloc);
    let mut changes = 0usize;
    for _ in 0..1000u32 {
        let room = read.capacity();
        decodes(rt, decode1(packer, encoding, &mut read), Ok(kind), encoding);
        if read.capacity() != room {
            changes = changes.wrapping_add(1);
        }
    }
    same_number(rt, read.len() / 1000, values.len(), "values");
    is_true(rt, changes < 20, "changes of the room for values");
}

/// The room of one list, and of a thousand.
fn room_of_list<P: BitPacker>(
    rt: &impl Abort,
    alloc: Global,
    packer: &P,
    kind: ListKind,
    header: [u8; 7],
) {
    let values = three_blocks::<P>(rt, alloc, kind);
    let encoding = three_blocks_encoding::<P>(rt, alloc, header);
    let list = (kind, values.as_slice(), encoding.as_slice());
    room_taken(rt, alloc, packer, list);
    a_thousand_encodings(rt, alloc, packer, list);
    values_of_a_thousand(rt, alloc, packer, list);
}

/// The headers of three blocks of each kind and a tail of five values, in this number of lanes.
fn headers(lanes: u8, low: u8, high: u8) -> [(ListKind, [u8; 7]); 3] {
    [
        (ListKind::Plain, [1, 0, lanes, low, high, 0, 0]),
        (ListKind::Sorted, [1, 1, lanes, low, high, 0, 0]),
        (ListKind::StrictlySorted, [1, 2, lanes, low, high, 0, 0]),
    ]
}

fn growths_of<P: BitPacker>(
    rt: &impl Abort,
    alloc: Global,
    packer: &P,
    headers: [(ListKind, [u8; 7]); 3],
) {
    for (kind, header) in headers {
        growths_refused(rt, alloc, packer, kind, header);
    }
}

fn room_of<P: BitPacker>(
    rt: &impl Abort,
    alloc: Global,
    packer: &P,
    headers: [(ListKind, [u8; 7]); 3],
) {
    for (kind, header) in headers {
        room_of_list(rt, alloc, packer, kind, header);
    }
}

// 101, 389 and 773 values.
#[test]
fn growths_of_three_blocks(rt: HostRuntime) {
    grow_stack(&rt);
    growths_of(&rt, rt.alloc(), &BitPacker1x::new(), headers(1, 0x65, 0));
    growths_of(&rt, rt.alloc(), &BitPacker4x::new(), headers(4, 0x85, 1));
    growths_of(&rt, rt.alloc(), &BitPacker4x::scalar(), headers(4, 0x85, 1));
    growths_of(&rt, rt.alloc(), &BitPacker8x::new(), headers(8, 5, 3));
    growths_of(&rt, rt.alloc(), &BitPacker8x::scalar(), headers(8, 5, 3));
}

#[test]
fn room_of_three_blocks(rt: HostRuntime) {
    grow_stack(&rt);
    room_of(&rt, rt.alloc(), &BitPacker1x::new(), headers(1, 0x65, 0));
    room_of(&rt, rt.alloc(), &BitPacker4x::new(), headers(4, 0x85, 1));
    room_of(&rt, rt.alloc(), &BitPacker4x::scalar(), headers(4, 0x85, 1));
    room_of(&rt, rt.alloc(), &BitPacker8x::new(), headers(8, 5, 3));
    room_of(&rt, rt.alloc(), &BitPacker8x::scalar(), headers(8, 5, 3));
}

/// With no memory left the values of the list are not read.
fn values_refused(rt: &impl Abort, alloc: Global, encoding: &[u8]) {
    let mut read = one_item(rt, alloc, 7u32, 1);
    let taken = take_everything(rt, alloc);
    let decoded = decode1(&BitPacker1x::new(), encoding, &mut read);
    drop(taken);
    decodes(rt, decoded, Err(ListError::Memory), encoding);
    unchanged_values(rt, &read, 7, 1);
}

/// Of the lists worked by hand those whose values are too many for the block of one item.
#[test]
fn growths_of_worked_encodings(rt: HostRuntime) {
    grow_stack(&rt);
    let encodings: [&[u8]; 2] = [
        &[1, 2, 1, 0x21, 0, 0, 0, 0, 0x20, 0, 0, 0],
        &[
            1, 1, 1, 0x40, 0, 0, 0, 1, 0xff, 0xff, 0xff, 0xff, 2, 0xaa, 0xaa, 0xaa, 0xaa, 0xaa,
            0xaa, 0xaa, 0xaa,
        ],
    ];
    for encoding in encodings {
        values_refused(&rt, rt.alloc(), encoding);
    }
}
