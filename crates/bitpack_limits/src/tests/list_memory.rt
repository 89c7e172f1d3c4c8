//! Packed lists short of memory: that a call grows its vector once, to the size that it ends with, and what it leaves when
//! that is refused.

use super::lists::decodes;
use super::memory::{grow_stack, take_all};
use crate::tests::calls::{decode1, encode1};
use crate::tests::checks::{
    nine, one_value, push_steps, returns, room_for, same_bytes, same_number, same_values, succeeds,
};
use bitpack::{ListError, ListKind};
use bitpacking::{BitPacker, BitPacker1x, BitPacker4x, BitPacker8x};
use std::alloc::Global;
use std::process::Abort;

/// Encodes with memory for this number of bytes, and no more.
fn encode_within<P: BitPacker>(
    rt: &impl Abort,
    alloc: Global,
    packer: &P,
    values: &[u32],
    out: &mut Vec<u8>,
    spare: usize,
) -> Result<(), ListError> {
    let unchanged: Vec<u8> = room_for(rt, alloc, spare);
    let taken = take_all(rt, alloc);
    drop(unchanged);
    let outcome = encode1(packer, ListKind::Plain, values, out);
    drop(taken);
    outcome
}

/// Decodes with memory for this number of values, and no more.
fn decode_within<P: BitPacker>(
    rt: &impl Abort,
    alloc: Global,
    packer: &P,
    encoding: &[u8],
    out: &mut Vec<u32>,
    spare: usize,
) -> Result<ListKind, ListError> {
    let unchanged: Vec<u32> = room_for(rt, alloc, spare);
    let taken = take_all(rt, alloc);
    drop(unchanged);
    let outcome = decode1(packer, encoding, out);
    drop(taken);
    outcome
}

/// With room for the one growth `encode` succeeds.
fn encode_grows_once<P: BitPacker>(
    rt: &impl Abort,
    alloc: Global,
    packer: &P,
    values: &[u32],
    encoding: &[u8],
) {
    let mut written = nine(rt, alloc);
    let outcome = encode_within(rt, alloc, packer, values, &mut written, encoding.len());
    succeeds(rt, outcome, &[]);
    same_bytes(rt, &written, encoding);
}

/// With no memory `encode` returns `Memory`, and the vector holds its one item.
fn encode_refused<P: BitPacker>(rt: &impl Abort, alloc: Global, packer: &P, values: &[u32]) {
    let mut written = nine(rt, alloc);
    let outcome = encode_within(rt, alloc, packer, values, &mut written, 0);
    returns(rt, outcome, Err(ListError::Memory), &[]);
    same_bytes(rt, &written, &[9]);
}

/// With room for the one growth `decode` succeeds.
fn decode_grows_once<P: BitPacker>(
    rt: &impl Abort,
    alloc: Global,
    packer: &P,
    encoding: &[u8],
    all: &[u32],
) {
    let mut read = one_value(rt, alloc, 7);
    let outcome = decode_within(rt, alloc, packer, encoding, &mut read, all.len());
    decodes(rt, outcome, Ok(ListKind::Plain), encoding);
    same_values(rt, &read, all);
}

/// With no memory `decode` returns this, and the vector holds its one item.
fn decode_refused<P: BitPacker>(
    rt: &impl Abort,
    alloc: Global,
    packer: &P,
    encoding: &[u8],
    error: ListError,
) {
    let mut read = one_value(rt, alloc, 7);
    let outcome = decode_within(rt, alloc, packer, encoding, &mut read, 0);
    decodes(rt, outcome, Err(error), encoding);
    same_values(rt, &read, &[7]);
}

/// The growths of `decode`, which leaves this number of values.
fn growth_of_values<P: BitPacker>(
    rt: &impl Abort,
    alloc: Global,
    packer: &P,
    encoding: &[u8],
    count: usize,
) {
    let mut all = one_value(rt, alloc, 7);
    let outcome = decode1(packer, encoding, &mut all);
    decodes(rt, outcome, Ok(ListKind::Plain), encoding);
    same_number(rt, all.len(), count, "values");
    same_number(rt, all.capacity(), all.len(), "room for values");
    decode_grows_once(rt, alloc, packer, encoding, &all);
    decode_refused(rt, alloc, packer, encoding, ListError::Memory);
}

/// With room for the one growth each call succeeds; with none it returns `Memory`, and the vector holds its one item.
///
/// Ten blocks of width 32 and five values: bytes and values take more than the thousand bytes up to which the C library
/// caches a freed block for an equal one.
fn one_growth<P: BitPacker>(rt: &impl Abort, alloc: Global, packer: &P) {
    let mut values = Vec::new(alloc);
    push_steps(rt, &mut values, u32::MAX, 0, P::BLOCK_LEN * 10 + 5);
    let mut encoding = nine(rt, alloc);
    let outcome = encode1(packer, ListKind::Plain, &values, &mut encoding);
    succeeds(rt, outcome, &[]);
    same_number(rt, encoding.len(), P::BLOCK_LEN * 40 + 38, "bytes");
    same_number(rt, encoding.capacity(), encoding.len(), "room for bytes");
    encode_grows_once(rt, alloc, packer, &values, &encoding);
    encode_refused(rt, alloc, packer, &values);
    let encoding = encoding.get(1..).unwrap_or(&[]);
    growth_of_values(rt, alloc, packer, encoding, P::BLOCK_LEN * 10 + 6);
}

#[test]
fn each_call_grows_once(rt: HostRuntime) {
    grow_stack(&rt);
    one_growth(&rt, rt.alloc(), &BitPacker1x::new());
    one_growth(&rt, rt.alloc(), &BitPacker4x::new());
    one_growth(&rt, rt.alloc(), &BitPacker4x::scalar());
    one_growth(&rt, rt.alloc(), &BitPacker8x::new());
    one_growth(&rt, rt.alloc(), &BitPacker8x::scalar());
}

#[test]
fn faults_come_before_memory(rt: HostRuntime) {
    grow_stack(&rt);
    let cases: [(&[u8], ListError); 6] = [
        // 2 ^ 28 values that are not there.
        (&[1, 0, 1, 0, 0, 0, 0x10], ListError::Short),
        (&[1, 0, 1, 1, 0, 0, 0x10], ListError::TooLong(268_435_457)),
        (
            &[1, 0, 1, 0x40, 0, 0, 0, 0, 0x21],
            ListError::BadWidth(1, 33),
        ),
        (
            &[1, 0, 1, 0x40, 0, 0, 0, 0, 1, 0, 0, 0, 0],
            ListError::LooseWidth(1, 1),
        ),
        (
            &[1, 0, 1, 0x21, 0, 0, 0, 1, 1, 0, 0, 0, 0, 0],
            ListError::Short,
        ),
        (&[1, 0, 1, 0x20, 0, 0, 0, 0, 0], ListError::Trailing),
    ];
    for (encoding, error) in cases {
        decode_refused(&rt, rt.alloc(), &BitPacker1x::new(), encoding, error);
    }
}
