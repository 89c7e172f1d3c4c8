//! `upgrade` short of memory: it grows its vector once, to the size that it ends with, and leaves it unchanged if that fails.

use super::list2_memory::turns;
use super::memory::{grow_stack, take_all};
use crate::tests::calls::{encode1, encode2, upgrade};
use crate::tests::checks::{
    nine, returns, room_for, same_bytes, same_number, succeeds, unchanged_bytes,
};
use bitpack::{ListError, ListKind};
use bitpacking::{BitPacker, BitPacker1x, BitPacker4x, BitPacker8x};
use std::alloc::Global;
use std::process::Abort;

/// What `upgrade` returns with memory for this number of bytes, and no more.
fn upgrade_within<P: BitPacker>(
    rt: &impl Abort,
    alloc: Global,
    packer: &P,
    encoding: &[u8],
    out: &mut Vec<u8>,
    spare: usize,
) -> Result<(), ListError> {
    let unchanged: Vec<u8> = room_for(rt, alloc, spare);
    let taken = take_all(rt, alloc);
    drop(unchanged);
    let outcome = upgrade(packer, encoding, out);
    drop(taken);
    outcome
}

/// With no memory the list is refused, and the vector holds its one item in the room that it had.
fn is_unchanged<P: BitPacker>(
    rt: &impl Abort,
    alloc: Global,
    packer: &P,
    encoding: &[u8],
    error: ListError,
) {
    let mut written = nine(rt, alloc);
    let room = written.capacity();
    let outcome = upgrade_within(rt, alloc, packer, encoding, &mut written, 0);
    returns(rt, outcome, Err(error), encoding);
    unchanged_bytes(rt, &written, room);
}

/// With room for the one growth `upgrade` succeeds.
fn grows_once<P: BitPacker>(
    rt: &impl Abort,
    alloc: Global,
    packer: &P,
    old: &[u8],
    encoding: &[u8],
) {
    let mut written = nine(rt, alloc);
    let outcome = upgrade_within(rt, alloc, packer, old, &mut written, encoding.len());
    succeeds(rt, outcome, old);
    same_bytes(rt, &written, encoding);
}

/// The version 2 list after one byte, by `encode` and by `upgrade`.
fn upgraded<P: BitPacker>(
    rt: &impl Abort,
    alloc: Global,
    packer: &P,
    values: &[u32],
    old: &[u8],
) -> Vec<u8> {
    let mut new = nine(rt, alloc);
    let outcome = encode2(packer, ListKind::Plain, values, &mut new);
    succeeds(rt, outcome, &[]);
    let mut encoding = nine(rt, alloc);
    succeeds(rt, upgrade(packer, old, &mut encoding), old);
    same_bytes(rt, &encoding, &new);
    encoding
}

/// Values out of order are refused with no memory left.
fn unsorted_is_unchanged<P: BitPacker>(rt: &impl Abort, alloc: Global, packer: &P, values: &[u32]) {
    let mut wrapped = Vec::new(alloc);
    let outcome = encode1(packer, ListKind::Sorted, values, &mut wrapped);
    succeeds(rt, outcome, &[]);
    is_unchanged(rt, alloc, packer, &wrapped, ListError::NotSorted(1));
}

/// With room for the one growth `upgrade` succeeds; with none it returns `Memory`, but for a fault of the bytes and values out of
/// order.
///
/// Ten blocks, in which values of 32 bits take turns, and five values: the list has more than the thousand bytes up to which the C
/// library caches a freed block for an equal one.
fn one_growth<P: BitPacker>(rt: &impl Abort, alloc: Global, packer: &P) {
    let len = P::BLOCK_LEN;
    let values = turns(rt, alloc, len * 10 + 5);
    let mut old = Vec::new(alloc);
    let outcome = encode1(packer, ListKind::Plain, &values, &mut old);
    succeeds(rt, outcome, &[]);
    let encoding = upgraded(rt, alloc, packer, &values, &old);
    same_number(rt, encoding.len(), 1 + 7 + 90 + len * 40 + 20, "bytes");
    same_number(rt, encoding.capacity(), encoding.len(), "room for bytes");
    grows_once(rt, alloc, packer, &old, &encoding);
    is_unchanged(rt, alloc, packer, &old, ListError::Memory);
    is_unchanged(rt, alloc, packer, &encoding, ListError::BadVersion(9));
    let short = old.get(..100).unwrap_or(&[]);
    is_unchanged(rt, alloc, packer, short, ListError::Short);
    unsorted_is_unchanged(rt, alloc, packer, &values);
}

#[test]
fn upgrade_grows_once(rt: HostRuntime) {
    grow_stack(&rt);
    one_growth(&rt, rt.alloc(), &BitPacker1x::new());
    one_growth(&rt, rt.alloc(), &BitPacker4x::new());
    one_growth(&rt, rt.alloc(), &BitPacker4x::scalar());
    one_growth(&rt, rt.alloc(), &BitPacker8x::new());
    one_growth(&rt, rt.alloc(), &BitPacker8x::scalar());
}

#[test]
fn faults_come_before_memory(rt: HostRuntime) {
    grow_stack(&rt);
    let cases: [(&[u8], ListError); 3] = [
        // 2 ^ 28 values that are not there, and one more.
        (&[1, 0, 1, 0, 0, 0, 0x10], ListError::Short),
        (&[1, 0, 1, 1, 0, 0, 0x10], ListError::TooLong(268_435_457)),
        (
            &[1, 2, 1, 2, 0, 0, 0, 5, 0, 0, 0, 5, 0, 0, 0],
            ListError::NotSorted(1),
        ),
    ];
    for (encoding, error) in cases {
        is_unchanged(&rt, rt.alloc(), &BitPacker1x::new(), encoding, error);
    }
}
