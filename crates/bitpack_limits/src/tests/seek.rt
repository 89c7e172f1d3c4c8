//! Searches without memory. The results were worked by hand, as the lists were.

use super::list2::thirty_three;
use super::memory::{grow_stack, take_all};
use crate::tests::calls::{open, seek};
use crate::tests::checks::{is_true, returns};
use bitpack::list2::PackedList;
use bitpacking::{BitPacker, BitPacker1x};
use std::process::Abort;

/// Sorted, one lane: 7 at each of 64 positions. Each code is 0 but the first, which is 7.
const SEVENS: [u8; 37] = [
    2, 1, 1, 0x40, 0, 0, 0, 3, 0, 0, 0, 0, 7, 0, 0, 0, 0, 3, 0, 0, 0, 7, 0, 0, 0, 7, 0, 0, 0, 0, 0,
    0, 0, 0, 0, 0, 0,
];

/// Sorted, one lane: 1 to 32, and then 34 to 96 in steps of 2.
const TWO_STEPS: [u8; 37] = [
    2, 1, 1, 0x40, 0, 0, 0, 1, 0, 0, 0, 0, 0x20, 0, 0, 0, 2, 1, 0, 0, 0, 0x60, 0, 0, 0, 0xff, 0xff,
    0xff, 0xff, 0xaa, 0xaa, 0xaa, 0xaa, 0xaa, 0xaa, 0xaa, 0xaa,
];

/// A search in the list, which is in order, finds this.
fn list_finds<P: BitPacker>(
    rt: &impl Abort,
    list: &PackedList<'_, P>,
    target: u32,
    found: Option<(usize, u32)>,
) {
    assert_eq!(rt; seek(rt, list, target), found, "{target}");
}

/// A search in the list, which is in order, finds this.
fn finds(rt: &impl Abort, text: &[u8], target: u32, found: Option<(usize, u32)>) {
    match open(&BitPacker1x::new(), text) {
        Ok(list) => list_finds(rt, &list, target, found),
        Err(error) => returns(rt, Err(error), Ok(()), text),
    }
}

#[test]
fn searches_take_no_memory(rt: HostRuntime) {
    grow_stack(&rt);
    let taken = take_all(&rt, rt.alloc());
    let byte: Result<Vec<u8>, _> = Vec::with_capacity(rt.alloc(), 1);
    let refused = byte.is_err();
    finds(&rt, &TWO_STEPS, 33, Some((32, 34)));
    finds(&rt, &TWO_STEPS, 97, None);
    finds(&rt, &SEVENS, 7, Some((0, 7)));
    finds(&rt, &thirty_three(0, 0, 31, 32), 32, Some((32, 32)));
    drop(taken);
    is_true(&rt, refused, "no memory was left");
}
