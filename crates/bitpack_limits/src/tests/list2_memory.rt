//! Packed lists of version 2 short of memory: `encode` grows its vector once, to the size that it ends with, and leaves it unchanged
//! if that fails; all else allocates nothing.

use super::list2::{are_refused, is_list, is_refused, opened};
use super::memory::{grow_stack, take_all};
use crate::tests::calls::encode2;
use crate::tests::checks::{
    is_true, nine, push, returns, room_for, same_bytes, same_number, succeeds, unchanged_bytes,
};
use bitpack::{ListError, ListKind};
use bitpacking::{BitPacker, BitPacker1x, BitPacker4x, BitPacker8x};
use std::alloc::Global;
use std::process::Abort;

/// What `encode` returns with memory for this number of bytes, and no more.
fn encode_within<P: BitPacker>(
    rt: &impl Abort,
    alloc: Global,
    packer: &P,
    (kind, values): (ListKind, &[u32]),
    out: &mut Vec<u8>,
    spare: usize,
) -> Result<(), ListError> {
    let unchanged: Vec<u8> = room_for(rt, alloc, spare);
    let taken = take_all(rt, alloc);
    drop(unchanged);
    let outcome = encode2(packer, kind, values, out);
    drop(taken);
    outcome
}

/// With no memory the values are refused, and the vector holds its one item in the room that it had.
fn is_unchanged<P: BitPacker>(
    rt: &impl Abort,
    alloc: Global,
    packer: &P,
    list: (ListKind, &[u32]),
    error: ListError,
) {
    let mut written = nine(rt, alloc);
    let room = written.capacity();
    let outcome = encode_within(rt, alloc, packer, list, &mut written, 0);
    returns(rt, outcome, Err(error), &[]);
    unchanged_bytes(rt, &written, room);
}

/// With room for the one growth `encode` succeeds.
fn grows_once<P: BitPacker>(
    rt: &impl Abort,
    alloc: Global,
    packer: &P,
    list: (ListKind, &[u32]),
    encoding: &[u8],
) {
    let mut written = nine(rt, alloc);
    let outcome = encode_within(rt, alloc, packer, list, &mut written, encoding.len());
    succeeds(rt, outcome, &[]);
    same_bytes(rt, &written, encoding);
}

/// Whether no byte is left.
fn is_all_taken(alloc: Global) -> bool {
    let byte: Result<Vec<u8>, _> = Vec::with_capacity(alloc, 1);
    byte.is_err()
}

/// Opened and read with no memory left.
fn opens_with_none<P: BitPacker>(
    rt: &impl Abort,
    alloc: Global,
    packer: &P,
    values: &[u32],
    encoding: &[u8],
) {
    let taken = take_all(rt, alloc);
    let refused = is_all_taken(alloc);
    is_list(
        rt,
        packer,
        ListKind::Plain,
        values,
        encoding.get(1..).unwrap_or(&[]),
    );
    is_refused(rt, packer, encoding, ListError::BadVersion(9));
    let short = encoding.get(1..100).unwrap_or(&[]);
    is_refused(rt, packer, short, ListError::Short);
    drop(taken);
    is_true(rt, refused, "no memory was left");
}

/// Values in which the greatest and 0 take turns.
pub(super) fn turns(rt: &impl Abort, alloc: Global, count: usize) -> Vec<u32> {
    let mut values = Vec::new(alloc);
    for index in 0..count {
        push(rt, &mut values, if index % 2 == 0 { u32::MAX } else { 0 });
    }
    values
}

/// With room for the one growth `encode` succeeds; with none it returns `Memory`, but for a fault of the values.
///
/// Ten blocks, in which values of 32 bits take turns, and five values: the list has more than the thousand bytes up to which the C
/// library caches a freed block for an equal one.
fn one_growth<P: BitPacker>(rt: &impl Abort, alloc: Global, packer: &P) {
    let len = P::BLOCK_LEN;
    let values = turns(rt, alloc, len * 10 + 5);
    let list = (ListKind::Plain, values.as_slice());
    let mut encoding = nine(rt, alloc);
    succeeds(rt, encode2(packer, list.0, list.1, &mut encoding), &[]);
    same_number(rt, encoding.len(), 1 + 7 + 90 + len * 40 + 20, "bytes");
    same_number(rt, encoding.capacity(), encoding.len(), "room for bytes");
    grows_once(rt, alloc, packer, list, &encoding);
    is_unchanged(rt, alloc, packer, list, ListError::Memory);
    let unsorted = (ListKind::Sorted, values.as_slice());
    is_unchanged(rt, alloc, packer, unsorted, ListError::NotSorted(1));
    opens_with_none(rt, alloc, packer, &values, &encoding);
}

#[test]
fn encode_grows_once_and_open_never(rt: HostRuntime) {
    grow_stack(&rt);
    one_growth(&rt, rt.alloc(), &BitPacker1x::new());
    one_growth(&rt, rt.alloc(), &BitPacker4x::new());
    one_growth(&rt, rt.alloc(), &BitPacker4x::scalar());
    one_growth(&rt, rt.alloc(), &BitPacker8x::new());
    one_growth(&rt, rt.alloc(), &BitPacker8x::scalar());
}

#[test]
fn faults_come_before_memory(rt: HostRuntime) {
    grow_stack(&rt);
    let alloc = rt.alloc();
    let packer = BitPacker1x::new();
    let unsorted: (ListKind, &[u32]) = (ListKind::Sorted, &[5, 4]);
    is_unchanged(&rt, alloc, &packer, unsorted, ListError::NotSorted(1));
    let taken = take_all(&rt, alloc);
    // 2 ^ 28 values that are not there, and one more.
    are_refused(
        &rt,
        &packer,
        &[
            (&[2, 0, 1, 0, 0, 0, 0x10], ListError::Short),
            (&[2, 0, 1, 1, 0, 0, 0x10], ListError::TooLong(268_435_457)),
        ],
    );
    let outcome = opened(&packer, &[2, 2, 1, 0, 0, 0, 0]);
    drop(taken);
    succeeds(&rt, outcome, &[2, 2, 1, 0, 0, 0, 0]);
}
