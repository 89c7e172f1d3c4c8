//! Large lists, with memory to spare: no call says that memory ran out. No clause says that, since any growth may be refused.

use super::list2_memory::turns;
use crate::tests::calls::{encode2, intersect_encodings, upgrade};
use crate::tests::checks::{push_bytes, returns, same_number, same_values, steps, succeeds};
use bitpack::{ListError, ListKind};
use bitpacking::{BitPacker, BitPacker8x};
use std::alloc::Global;
use std::process::Abort;

/// Appends `count` zeros, 4,096 at a time.
fn push_zeros(rt: &impl Abort, encoding: &mut Vec<u8>, count: usize) {
    for _ in 0..count / 4096 {
        push_bytes(rt, encoding, &[0; 4096]);
    }
    for _ in 0..count % 4096 {
        push_bytes(rt, encoding, &[0]);
    }
}

/// 16,797 blocks of width 32: the list has more than 16 MiB.
#[test]
fn an_encoding_of_17_megabytes(rt: HostRuntime) {
    let values = turns(&rt, rt.alloc(), 256 * 16_797);
    let mut encoding = Vec::new(rt.alloc());
    let outcome = encode2(&BitPacker8x::new(), ListKind::Plain, &values, &mut encoding);
    succeeds(&rt, outcome, &[]);
    same_number(&rt, encoding.len(), 7 + 16_797 * (9 + 1024), "bytes");
}

/// The greatest list, of blocks whose values are all 0, which are nine bytes each in version 2.
#[test]
fn the_greatest_list_is_upgraded(rt: HostRuntime) {
    let mut old = Vec::new(rt.alloc());
    push_bytes(&rt, &mut old, &[1, 1, 8, 0, 0, 0, 0x10]);
    push_zeros(&rt, &mut old, 1_048_576);
    let mut encoding = Vec::new(rt.alloc());
    let outcome = upgrade(&BitPacker8x::new(), &old, &mut encoding);
    returns(&rt, outcome, Ok(()), &[]);
    same_number(&rt, encoding.len(), 7 + 9 * 1_048_576, "bytes");
}

/// One value less, in blocks of ones, and the 255 values of the tail are 0: the first of these is out of order.
#[test]
fn a_late_value_is_out_of_order(rt: HostRuntime) {
    let mut old = Vec::new(rt.alloc());
    push_bytes(&rt, &mut old, &[1, 1, 8, 0xff, 0xff, 0xff, 0x0f, 1, 1]);
    push_zeros(&rt, &mut old, 31 + 1_048_574 + 4 * 255);
    let mut encoding = Vec::new(rt.alloc());
    let outcome = upgrade(&BitPacker8x::new(), &old, &mut encoding);
    let error = ListError::NotSorted(256 * 1_048_575);
    returns(&rt, outcome, Err(error), &[]);
}

/// 0 to 4,300,031, packed.
fn counted(rt: &impl Abort, alloc: Global, values: &[u32]) -> Vec<u8> {
    let mut encoding = Vec::new(alloc);
    let outcome = encode2(
        &BitPacker8x::new(),
        ListKind::StrictlySorted,
        values,
        &mut encoding,
    );
    succeeds(rt, outcome, &[]);
    encoding
}

/// A list shares 17 megabytes of values with itself.
#[test]
fn a_large_intersection(rt: HostRuntime) {
    let values = steps(&rt, rt.alloc(), 0, 1, 256 * 16_797);
    let encoding = counted(&rt, rt.alloc(), &values);
    let mut out = Vec::new(rt.alloc());
    let packer = BitPacker8x::new();
    let outcome = intersect_encodings((&packer, &encoding), (&packer, &encoding), &mut out);
    let outcome = outcome.expect(&rt, "two lists in order");
    succeeds(&rt, outcome, &[]);
    same_values(&rt, &out, &values);
}
