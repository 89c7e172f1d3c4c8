//! `intersect` short of memory. The shared values were worked by hand.

use super::memory::{grow_stack, take_all};
use crate::tests::calls::{encode2, intersect_encodings};
use crate::tests::checks::{
    appended_values, one_value, room_for, same_number, same_values, steps, succeeds,
    unchanged_values,
};
use bitpack::{ListError, ListKind};
use bitpacking::{BitPacker, BitPacker1x};
use std::alloc::Global;
use std::process::Abort;

/// So many values from 10 on, each a step more than the one before it.
fn rising(rt: &impl Abort, alloc: Global, step: u32, count: usize) -> Vec<u32> {
    steps(rt, alloc, 10, step, count)
}

/// `intersect_encodings` returned this.
fn returned(
    rt: &impl Abort,
    found: Option<Result<(), ListError>>,
    expected: Option<Result<(), ListError>>,
    encoding: &[u8],
    other: &[u8],
) {
    assert_eq!(rt; found, expected, "{encoding:?} and {other:?}");
}

/// The list is packed.
fn packed<P: BitPacker>(
    rt: &impl Abort,
    alloc: Global,
    packer: &P,
    kind: ListKind,
    values: &[u32],
) -> Vec<u8> {
    let mut encoding = Vec::new(alloc);
    succeeds(rt, encode2(packer, kind, values, &mut encoding), &[]);
    encoding
}

/// What `intersect` returns with memory for this number of values, and no more.
fn intersect_within(
    rt: &impl Abort,
    alloc: Global,
    encoding: &[u8],
    other: &[u8],
    out: &mut Vec<u32>,
    spare: usize,
) -> Option<Result<(), ListError>> {
    let packer = BitPacker1x::new();
    let unchanged: Vec<u32> = room_for(rt, alloc, spare);
    let taken = take_all(rt, alloc);
    drop(unchanged);
    let outcome = intersect_encodings((&packer, encoding), (&packer, other), out);
    drop(taken);
    outcome
}

/// With room for the one growth `intersect` succeeds: after one value it grows to this room.
fn grows_once(
    rt: &impl Abort,
    alloc: Global,
    encoding: &[u8],
    other: &[u8],
    shared: &[u32],
    room: usize,
) {
    let mut out = one_value(rt, alloc, 9);
    let outcome = intersect_within(rt, alloc, encoding, other, &mut out, room);
    returned(rt, outcome, Some(Ok(())), encoding, other);
    appended_values(rt, &out, 9, shared);
    same_number(rt, out.capacity(), room, "room");
}

/// With no memory `intersect` returns this, and the vector holds its one item in the room that it had.
fn is_unchanged(rt: &impl Abort, alloc: Global, encoding: &[u8], other: &[u8]) {
    let mut out = one_value(rt, alloc, 9);
    let room = out.capacity();
    let outcome = intersect_within(rt, alloc, encoding, other, &mut out, 0);
    returned(rt, outcome, Some(Err(ListError::Memory)), encoding, other);
    unchanged_values(rt, &out, 9, room);
}

/// With enough room in the vector, nothing is allocated.
fn asks_for_nothing(
    rt: &impl Abort,
    alloc: Global,
    encoding: &[u8],
    other: &[u8],
    shared: &[u32],
    room: usize,
) {
    let mut out: Vec<u32> = room_for(rt, alloc, room);
    let outcome = intersect_within(rt, alloc, encoding, other, &mut out, 0);
    returned(rt, outcome, Some(Ok(())), encoding, other);
    same_values(rt, &out, shared);
}

#[test]
fn intersect_grows_once(rt: HostRuntime) {
    grow_stack(&rt);
    let alloc = rt.alloc();
    let packer = BitPacker1x::new();
    let strict = ListKind::StrictlySorted;
    let (values, others) = (rising(&rt, alloc, 1, 2_000), rising(&rt, alloc, 2, 1_500));
    let encoding = packed(&rt, alloc, &packer, strict, &values);
    let other = packed(&rt, alloc, &packer, strict, &others);
    // 10 to 2,009 and 10 to 3,008 in steps of 2: 1,000 are in both. The call reserves room for the 1,500 of the shorter list.
    let shared = rising(&rt, alloc, 2, 1_000);
    grows_once(&rt, alloc, &encoding, &other, &shared, 1_501);
    is_unchanged(&rt, alloc, &encoding, &other);
    grows_once(&rt, alloc, &other, &encoding, &shared, 1_501);
    is_unchanged(&rt, alloc, &other, &encoding);
    asks_for_nothing(&rt, alloc, &encoding, &other, &shared, 1_500);
}
