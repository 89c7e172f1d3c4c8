//! Version 2 bytes with a fault, and values out of order: which refusal comes first. All were worked by hand from the format.

use super::list2::{are_refused, is_refused, thirty_three};
use crate::tests::calls::encode2;
use crate::tests::checks::{nine, returns, succeeds, unchanged_bytes};
use bitpack::{ListError, ListKind};
use bitpacking::{BitPacker, BitPacker1x};
use std::alloc::Global;
use std::process::Abort;

/// Bytes of one lane with more than one fault: the first in the order of the format is returned.
fn bodies_refused(rt: &impl Abort) {
    let cases: [(&[u8], ListError); 7] = [
        // The missing body of block 1 before the loose width of block 0.
        (
            &[
                2, 0, 1, 0x40, 0, 0, 0, 1, 0, 0, 0, 0, 0, 0, 0, 0, 1, 1, 0, 0, 0, 0, 0, 0, 0, 0, 0,
                0, 0,
            ],
            ListError::Short,
        ),
        // The offset of skip entry 0 before the width of entry 1.
        (
            &[
                2, 0, 1, 0x40, 0, 0, 0, 0, 1, 0, 0, 0, 0, 0, 0, 0, 33, 0, 0, 0, 0, 0, 0, 0, 0,
            ],
            ListError::BadOffset(0),
        ),
        // The width of a skip entry before its offset.
        (
            &[2, 0, 1, 0x20, 0, 0, 0, 33, 1, 0, 0, 0, 0, 0, 0, 0],
            ListError::BadWidth(0, 33),
        ),
        // The loose width of a block before its last value.
        (
            &[
                2, 0, 1, 0x20, 0, 0, 0, 1, 0, 0, 0, 0, 9, 0, 0, 0, 0, 0, 0, 0,
            ],
            ListError::LooseWidth(0, 1),
        ),
        // Every byte of the last value counts.
        (
            &[2, 0, 1, 0x20, 0, 0, 0, 0, 0, 0, 0, 0, 0, 0, 0, 0xff],
            ListError::BadLast(0),
        ),
        // The offset of block 1 is the width of block 0.
        (
            &[
                2, 0, 1, 0x40, 0, 0, 0, 1, 0, 0, 0, 0, 1, 0, 0, 0, 0, 0, 0, 0, 0, 0, 0, 0, 0, 0xff,
                0xff, 0xff, 0xff,
            ],
            ListError::BadOffset(1),
        ),
        // Sorted: block 1 begins below the end of block 0, and its last value is another, which comes first.
        (
            &[
                2, 1, 1, 0x40, 0, 0, 0, 1, 0, 0, 0, 0, 32, 0, 0, 0, 0, 1, 0, 0, 0, 31, 0, 0, 0,
                0xff, 0xff, 0xff, 0xff,
            ],
            ListError::BadLast(1),
        ),
    ];
    are_refused(rt, &BitPacker1x::new(), &cases);
}

/// Faults of the header, and a byte after a list of no value.
fn headers_refused(rt: &impl Abort) {
    let headers: [(&[u8], ListError); 10] = [
        (&[], ListError::Short),
        (&[2], ListError::Short),
        (&[1, 3, 4, 1, 0, 0], ListError::Short),
        (&[1, 0, 1, 0, 0, 0, 0], ListError::BadVersion(1)),
        (&[3, 3, 4, 1, 0, 0, 0x10], ListError::BadVersion(3)),
        (&[2, 3, 4, 0, 0, 0, 0, 0], ListError::BadKind(3)),
        (&[2, 0, 4, 1, 0, 0, 0x10], ListError::WrongLanes(4)),
        (&[2, 0, 1, 1, 0, 0, 0x10], ListError::TooLong(268_435_457)),
        (&[2, 0, 1, 0, 0, 0, 0x10], ListError::Short),
        (&[2, 0, 1, 0, 0, 0, 0, 0], ListError::Trailing),
    ];
    are_refused(rt, &BitPacker1x::new(), &headers);
}

/// Faults of one block and a tail. Right is `thirty_three(0, 0, 31, 32)`.
fn parts_refused(rt: &impl Abort) {
    let cases = [
        (thirty_three(33, 0, 31, 32), ListError::BadWidth(0, 33)),
        (thirty_three(1, 0, 31, 32), ListError::Short),
        (thirty_three(1, 0, 31, 0), ListError::Short),
        (thirty_three(0, 1, 31, 32), ListError::BadOffset(0)),
        (thirty_three(0, 1, 30, 32), ListError::BadOffset(0)),
        (thirty_three(0, 0, 30, 32), ListError::BadLast(0)),
        (thirty_three(0, 0, 31, 31), ListError::NotSorted(32)),
    ];
    for (encoding, error) in cases {
        is_refused(rt, &BitPacker1x::new(), &encoding, error);
    }
}

/// With a byte more, a wrong value comes before the byte.
fn longer_refused(rt: &impl Abort) {
    for (wrong, error) in [
        (thirty_three(0, 0, 31, 32), ListError::Trailing),
        (thirty_three(0, 0, 30, 32), ListError::BadLast(0)),
        (thirty_three(0, 0, 31, 31), ListError::NotSorted(32)),
    ] {
        let mut longer = [0; 21];
        longer[..20].copy_from_slice(&wrong);
        is_refused(rt, &BitPacker1x::new(), &longer, error);
    }
}

#[test]
fn refusals_of_1x(rt: HostRuntime) {
    headers_refused(&rt);
    parts_refused(&rt);
    let right = thirty_three(0, 0, 31, 32);
    is_refused(&rt, &BitPacker1x::new(), &right[..19], ListError::Short);
    longer_refused(&rt);
    bodies_refused(&rt);
}

/// The values are refused at this position, and the vector holds what it held, in the room that it had.
fn is_unsorted(rt: &impl Abort, alloc: Global, kind: ListKind, values: &[u32], position: usize) {
    let mut out = nine(rt, alloc);
    let room = out.capacity();
    let outcome = encode2(&BitPacker1x::new(), kind, values, &mut out);
    returns(rt, outcome, Err(ListError::NotSorted(position)), &[]);
    unchanged_bytes(rt, &out, room);
}

/// 64 times 7 are sorted.
fn sevens_are_sorted(rt: &impl Abort, alloc: Global) {
    let mut encoding = Vec::new(alloc);
    let kind = ListKind::Sorted;
    let outcome = encode2(&BitPacker1x::new(), kind, &[7; 64], &mut encoding);
    succeeds(rt, outcome, &[]);
}

#[test]
fn values_out_of_order(rt: HostRuntime) {
    let alloc = rt.alloc();
    let (sorted, strict) = (ListKind::Sorted, ListKind::StrictlySorted);
    is_unsorted(&rt, alloc, sorted, &[5, 4], 1);
    is_unsorted(&rt, alloc, strict, &[5, 5], 1);
    is_unsorted(&rt, alloc, sorted, &[0, 5, 5, 4, 3], 3);
    is_unsorted(&rt, alloc, strict, &[u32::MAX, 0], 1);
    sevens_are_sorted(&rt, alloc);
    let mut values = [7; 64];
    is_unsorted(&rt, alloc, strict, &values, 1);
    values[32] = 6;
    is_unsorted(&rt, alloc, sorted, &values, 32);
    values[32] = 7;
    values[63] = 6;
    is_unsorted(&rt, alloc, sorted, &values, 63);
}
